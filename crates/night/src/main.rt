// The night that went wrong: nine visits with the right code, by a reader that spends a try and never erases, and by one that erases.
#![tactic(auto)]

use console::{Console, Standard};
use rules::Refusal;
use volatile::Volatile;

const CODE: u16 = 0xa53c;

// Levels: VCC 1, I/O 16.
const IDLE: u8 = 17;

// The maker's open ends in an erase of six steps.
const ERASE: usize = 6;

// A card: its memory, and what it keeps from run to run beside it.
#[derive(Clone, Copy)]
struct Card {
    memory: [u8; 174],
    fuses: u8,
    volatile: Volatile,
}

// What a visit showed.
#[derive(Clone, Copy)]
struct Seen {
    refusal: Option<Refusal>,
    pin: u8,
    left: u32,
}

impl Card {
    // An issued card: ISS is blown. The code stands in bits 80 to 95; bits 177 and 178 are 0, so that only SV lets the application zone be
    // read.
    fn issued() -> Card {
        let mut memory = [255u8; 174];
        memory[10] = 0xa5;
        memory[11] = 0x3c;
        memory[22] = 0x9f;
        Card {
            memory,
            fuses: 3,
            volatile: Volatile::fresh(),
        }
    }

    fn send(&mut self, steps: &[u8]) {
        let mut answers = [0u8; 512];
        let ran = card::run(
            &mut self.memory,
            self.fuses,
            self.volatile,
            steps,
            &mut answers,
        );
        self.fuses = ran.fuses;
        self.volatile = ran.volatile;
    }

    // A step with no difference shows the pin.
    fn pin(&mut self) -> u8 {
        card::step(&mut self.memory, self.fuses, self.volatile, IDLE)
            .answer
            .unwrap_or(1)
    }

    // To bit 178, from wherever the card stands.
    fn go_to_178(&mut self) {
        let mut reset = [0u8; 2];
        let _ = maker::reset(false, &mut reset);
        let mut walk = [0u8; 356];
        let _ = maker::walk(false, 178, &mut walk);
        self.send(&reset);
        self.send(&walk);
    }

    // From power-on to power-off. The last `off` steps of the maker's open are left off.
    fn visit(&mut self, off: usize) -> Seen {
        self.send(&[16, IDLE]);
        let mut steps = [0u8; 240];
        let (opening, refusal) = opening(self.memory[12], &mut steps);
        self.send(without_last(opening, off));
        self.go_to_178();
        let pin = self.pin();
        let left = looks::tries_left(&self.memory);
        self.send(&[16, 0]);
        Seen { refusal, pin, left }
    }
}

// The maker's open for the tries that are left. Where none is, the one for bit 96 all the same, and by what the other is refused.
fn opening(attempts: u8, steps: &mut [u8]) -> (&[u8], Option<Refusal>) {
    match maker::open(false, CODE, attempts, steps) {
        Ok(n) => (first(steps, n), None),
        Err(refusal) => {
            let n = maker::open(false, CODE, 128, steps).unwrap_or(0);
            (first(steps, n), Some(refusal))
        }
    }
}

fn first(steps: &[u8], n: usize) -> &[u8] {
    &steps[..n.min(steps.len())]
}

fn without_last(steps: &[u8], off: usize) -> &[u8] {
    &steps[..steps.len().saturating_sub(off)]
}

fn tell(out: &mut Standard, nth: u64, seen: Seen) {
    out.say(b"visit ");
    out.number(nth);
    out.say(b": ");
    if let Some(refusal) = seen.refusal {
        out.say(b"no try, the step maker refuses by ");
        out.number(refusal.number() as u64);
        out.say(b"; bit 96 written all the same: ");
    }
    out.say(match seen.pin {
        0 => b"pin 0, open, tries left ",
        _ => b"pin 1, shut, tries left ",
    });
    out.number(seen.left as u64);
    out.say(b"\n");
}

fn visits(out: &mut Standard, off: usize) {
    let mut card = Card::issued();
    for nth in 1..=9 {
        let seen = card.visit(off);
        tell(out, nth, seen);
    }
}

fn main(rt: HostRuntime) {
    let (mut to, mut errors) = (rt.stdout(), rt.stderr());
    let mut out = Console::start(&rt, &mut to, &mut errors, b"night");
    out.say(
        b"Nine visits, each from power-on to power-off, each with the right code.\n\
        The pin is read at bit 178, a 0 of the application zone: 0 is open, 1 is shut.\n\n\
        A reader that spends a try and never erases:\n",
    );
    visits(&mut out, ERASE);
    out.say(b"\nA reader that erases, by the step maker's own open:\n");
    visits(&mut out, 0);
    out.end();
}
