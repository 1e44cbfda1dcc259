// What a text has set down so far, order by order.
ghost use Rattle.std.specs.Prelude.{◌*◌, ◌/◌, ◌%◌, ◌^◌, ◌≤◌, ◌≡◌};
ghost use Rattle.std.proofs.lemmas.List.Edits.{sets};
ghost use Rattle.rules.specs.Refusals.{longest};
ghost use Rattle.text.specs.Sheet.{bytes_of, present as present_of};

use text_lines::faults::Fault;
use text_lines::{Act, Change, Order};

// A byte of ones.
const ALL_ONES: u8 = 255;

// The fuse byte of no blown fuse.
const UNBLOWN: u8 = 7;

// The byte of bits 96 to 103.
const ATTEMPTS: usize = 12;

// No heap: the steps stand in an array, with their count beside them.
#[derive(Drop)]
pub(crate) struct Sheet {
    pub image: [u8; rules::BYTES],
    pub fuses: u8,
    pub steps: [u8; rules::LONGEST],
    pub count: usize,
    ghost within: { count ≤ longest },
}

// Byte k of x, the lowest being byte 0.
fn byte_of(x: u64, k: usize) -> u8
    ensures { result ≡ x / 2 ^ (8 * k) % 256 }
{
    if k < 8 {
        ((x >> (8 * k)) % 256) as u8
    } else {
        0
    }
}

// The last bytes of x, as far as there is room. A text may give more of them than x has, so that `to_be_bytes` is no plainer.
fn put_bytes(x: u64, count: usize, image: &mut [u8], first: usize)
    ensures { image.new ≡ sets image.old first (bytes_of count x) }
{
    let room = image.len().saturating_sub(first);
    for i in 0..count.min(room) {
        image[first + i] = byte_of(x, count - 1 - i);
    }
}

// The lines after these steps.
#[tactic(auto, using(std::proofs::lemmas::Option::gets), unfolding(crate::specs::Sheet::present))]
fn present(steps: &[u8]) -> u8
    ensures { result ≡ present_of steps.now }
{
    steps.last().copied().unwrap_or(0)
}

impl Sheet {
    ghost use Rattle.text_lines.specs.Faults.{numbered};
    ghost use Rattle.text.specs.Sheet.{blank_sheet, changed, driven, follow as follow_of};
    ghost use Rattle.text.specs.Held.{sheet_of, outcome_of};

    #[tactic(auto, unfolding(crate::specs::Sheet::blank_sheet, crate::specs::Held::sheet_of))]
    pub(crate) fn blank() -> Sheet
        ensures { sheet_of result ≡ blank_sheet }
    {
        Sheet {
            image: [ALL_ONES; rules::BYTES],
            fuses: UNBLOWN,
            steps: [0; rules::LONGEST],
            count: 0,
        }
    }

    #[tactic(auto, unfolding(crate::specs::Sheet::changed, crate::specs::Held::sheet_of))]
    fn change(&mut self, c: Change)
        ensures { sheet_of self.new ≡ changed c (sheet_of self.old) }
    {
        match c {
            Change::Fill {
                first,
                count,
                value,
            } => memory::fill_part(&mut self.image, first, count, value),
            Change::Bytes {
                first,
                count,
                value,
            } => put_bytes(value, count, &mut self.image, first),
            Change::Fuses(n) => self.fuses = n,
        }
    }

    #[tactic(auto, unfolding(crate::specs::Sheet::follow, crate::specs::Held::outcome_of, text_lines::specs::Faults::numbered))]
    fn arrange(&mut self, c: Change) -> Result<(), Fault>
        ensures { outcome_of (numbered result) self.new ≡ follow_of (Order.Image c) (sheet_of self.old) }
    {
        if self.count != 0 {
            return Err(Fault::AfterAStep);
        }
        self.change(c);
        Ok(())
    }

    fn drive(&mut self, act: Act) -> Result<(), Fault>
        ensures { outcome_of (numbered result) self.new ≡ driven act (sheet_of self.old) }
    {
        let count = self.count;
        let lines = present(&self.steps[..count]);
        let attempts = self.image[ATTEMPTS];
        let made = text_steps::make(act, lines, attempts, &mut self.steps[count..])?;
        self.count = count + made;
        Ok(())
    }

    // Orders and changes are a text's, so their kinds are closed: each is matched on.
    #[tactic(auto, unfolding(crate::specs::Sheet::follow, crate::specs::Held::outcome_of, text_lines::specs::Faults::numbered))]
    pub(crate) fn follow(&mut self, order: Order) -> Result<(), Fault>
        ensures { outcome_of (numbered result) self.new ≡ follow_of order (sheet_of self.old) }
    {
        match order {
            Order::Nothing => Ok(()),
            Order::Image(c) => self.arrange(c),
            Order::Drive(act) => self.drive(act),
        }
    }
}
