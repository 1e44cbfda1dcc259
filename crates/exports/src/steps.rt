// The card, driven by a bench.
ghost use Rattle.std.specs.Prelude.{◌≡◌};
ghost use Rattle.rules.specs.Halves.{fresh};
ghost use Rattle.rules.specs.Card.{tries_left};
ghost use Rattle.volatile.specs.Packed.{packed, given};
ghost use Rattle.card.specs.Calls.{StepTold, RunAnswered};
ghost use Rattle.looks.specs.Flags.{flags_of};
ghost use Rattle.exports.specs.Rendered.{of_walk, of_step, flag_bytes};

use card::Stepped;
use volatile::Volatile;
use walk::Walked;

// The result of a step: both halves, the pin's answer, 1 where refused, and the refusal, 0 if none.
#[repr(C)]
#[derive(Clone, Copy)]
pub struct ZhavStepped {
    pub half: Volatile,
    pub fuses: u8,
    pub answer: u8,
    pub refusal: u8,
}

// The result of a step beside the half that is lent.
#[repr(C)]
#[derive(Clone, Copy)]
pub struct ZhavTold {
    pub fuses: u8,
    pub answer: u8,
    pub refusal: u8,
}

// The result of a run: both halves, how many steps were done, and the refusal, 0 if none.
#[repr(C)]
#[derive(Clone, Copy)]
pub struct ZhavRan {
    pub half: Volatile,
    pub done: usize,
    pub fuses: u8,
    pub refusal: u8,
}

// The flags, 0 or 1 each, and the refusal, 0 if none; where refused, the flags are 0.
#[repr(C)]
#[derive(Clone, Copy)]
pub struct ZhavFlags {
    pub sv: u8,
    pub p1: u8,
    pub r1: u8,
    pub e1: u8,
    pub refusal: u8,
}

// The volatile half of a fresh card.
#[unsafe(no_mangle)]
pub extern "C" fn zhav_fresh() -> Volatile
    ensures { result ≡ packed fresh }
{
    Volatile::fresh()
}

// A walk in these numbers. It has two arguments, so it is no `From`.
fn of_walk(w: Walked, fuses: u8) -> ZhavStepped
    ensures { result ≡ of_walk w fuses }
{
    ZhavStepped {
        half: w.volatile,
        fuses,
        answer: w.pin,
        refusal: 0,
    }
}

impl From<Stepped> for ZhavStepped {
    ghost from_gives = { λ s r. r ≡ of_step s };

    #[tactic(auto, unfolding(crate::specs::Rendered::of_step, rules::specs::Numbers::numbered, rules::specs::Numbers::number_in, rules::specs::Numbers::number_if_any, rules::specs::Card::pin_in))]
    fn from(s: Stepped) -> ZhavStepped {
        ZhavStepped {
            half: s.volatile,
            fuses: s.fuses,
            answer: s.answer.unwrap_or(1),
            refusal: rules::number_if_any(s.answer.err()),
        }
    }
}

// One step, whatever it is.
fn any_step(image: &mut [u8], fuses: u8, v: Volatile, n: u8) -> ZhavStepped
    ensures { StepTold (given image.old fuses v) n (given image.new result.fuses result.half) result.answer result.refusal }
{
    card::step(image, fuses, v, n).into()
}

// One step. A walk is told at once.
// By the hint it stands in both exported calls.
#[inline(always)]
fn step(image: &mut [u8], fuses: u8, v: Volatile, n: u8) -> ZhavStepped
    ensures { StepTold (given image.old fuses v) n (given image.new result.fuses result.half) result.answer result.refusal }
{
    match walk::step(image, fuses, v, n) {
        Some(walked) => of_walk(walked, fuses),
        None => any_step(image, fuses, v, n),
    }
}

#[unsafe(no_mangle)]
pub extern "C" fn zhav_step(image: &mut [u8], fuses: u8, v: Volatile, n: u8) -> ZhavStepped
    ensures { StepTold (given image.old fuses v) n (given image.new result.fuses result.half) result.answer result.refusal }
{
    step(image, fuses, v, n)
}

// One step on a volatile half that is lent: what stands there afterwards is the half that the step hands back.
#[unsafe(no_mangle)]
pub extern "C" fn zhav_step_at(image: &mut [u8], fuses: u8, v: &mut Volatile, n: u8) -> ZhavTold
    ensures { StepTold (given image.old fuses v.old) n (given image.new result.fuses v.new) result.answer result.refusal }
{
    let s = step(image, fuses, *v, n);
    *v = s.half;
    ZhavTold {
        fuses: s.fuses,
        answer: s.answer,
        refusal: s.refusal,
    }
}

// A run over a list of steps, with one answer byte for each that is accepted.
#[unsafe(no_mangle)]
pub extern "C" fn zhav_run(
    image: &mut [u8],
    fuses: u8,
    v: Volatile,
    steps: &[u8],
    answers: &mut [u8],
) -> ZhavRan
    ensures { RunAnswered (given image.old fuses v) steps.now answers.old (given image.new result.fuses result.half) result.done result.refusal answers.new }
{
    let ran = card::run(image, fuses, v, steps, answers);
    ZhavRan {
        half: ran.volatile,
        done: ran.done,
        fuses: ran.fuses,
        refusal: rules::number_if_any(ran.refusal),
    }
}

// SV, P1, R1 and E1, or 9.
#[tactic(auto, using(crate::proofs::Shown::as_byte), unfolding(crate::specs::Rendered::flag_bytes, rules::specs::Numbers::numbered))]
#[unsafe(no_mangle)]
pub extern "C" fn zhav_flags(v: Volatile) -> ZhavFlags
    ensures { result ≡ flag_bytes (flags_of v) }
{
    match looks::flags(v) {
        Ok(held) => ZhavFlags {
            sv: held.sv as u8,
            p1: held.p1 as u8,
            r1: held.r1 as u8,
            e1: held.e1 as u8,
            refusal: 0,
        },
        Err(refusal) => ZhavFlags {
            sv: 0,
            p1: 0,
            r1: 0,
            e1: 0,
            refusal: refusal.number(),
        },
    }
}

// The tries left.
#[unsafe(no_mangle)]
pub extern "C" fn zhav_tries_left(image: &[u8]) -> u32
    ensures { result ≡ tries_left image.now }
{
    looks::tries_left(image)
}
