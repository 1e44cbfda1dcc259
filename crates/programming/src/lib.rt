// CLK's and VCC's fall while programming is under way. No other edge can change image or fuses.
#![tactic(auto)]

ghost use Rattle.std.specs.Prelude.{◌≡◌};
ghost use Rattle.rules.specs.Programming.{memory_after};
ghost use Rattle.rules.specs.Halves.{off};
ghost use Rattle.volatile.specs.Packed.{packed, given, handed_back, programmed_card};
ghost use Rattle.programming.specs.Leaves.{done_by, programmed};

use memory::is_set;
use rules::Operation;
use volatile::Volatile;

// What an operation leaves beside the image: the fuses, and whether it was a write that turned a 1 into 0.
#[derive(Clone, Copy)]
struct Done {
    fuses: u8,
    turned: bool,
}

// What the edge leaves beside the image.
#[derive(Clone, Copy)]
pub struct Programmed {
    pub fuses: u8,
    pub volatile: Volatile,
}

// The operation, on the image and on the fuses. The kinds are closed, and the contract speaks of each: a `match`, and no closure for one.
#[tactic(auto, using(crate::proofs::Fuses::mf_blown, crate::proofs::Fuses::ec_en_blown, crate::proofs::Fuses::iss_blown), unfolding(crate::specs::Leaves::done_by, rules::specs::Programming::memory_after, rules::specs::Programming::fuses_after, rules::specs::Programming::turns))]
fn carry_out(op: Operation, image: &mut [u8], fuses: u8, a: u32) -> Done
    ensures done { result ≡ done_by op image.old fuses a }
    ensures memory { image.new ≡ memory_after op a image.old }
{
    let mut f = fuses;
    let mut turned = false;
    match op {
        Operation::Nothing => {}
        Operation::WriteBit => {
            turned = memory::read_bit(image, a as usize);
            memory::write_bit(image, a as usize);
        }
        Operation::EraseWord => memory::erase_word(image, a as usize),
        Operation::EraseZone => memory::fill_part(image, 22, 128, 255),
        Operation::WriteBlock => memory::fill_part(image, 2, 168, 0),
        Operation::EraseBlock => memory::fill_part(image, 2, 168, 255),
        Operation::BlowMF => f = fuses & 254,
        Operation::BlowECEN => f = fuses & 253,
        Operation::BlowISS => f = fuses & 251,
    }
    Done { fuses: f, turned }
}

// CLK falls, and the operation takes effect.
pub fn clock_falls(v: Volatile, image: &mut [u8], fuses: u8, n: u32) -> Programmed
    ensures { given image.new result.fuses result.volatile ≡ handed_back (programmed_card (given image.old fuses v) n) }
{
    let l1 = v.level1(fuses);
    let ec_en = is_set(fuses as u32, volatile::EC_EN);
    let done = carry_out(v.operation(fuses), image, fuses, v.address);
    Programmed {
        fuses: done.fuses,
        volatile: v.programmed(n, l1, ec_en, done.turned),
    }
}

// VCC falls: memory unchanged even in the middle of programming.
pub fn power_falls(v: Volatile, fuses: u8, n: u32) -> Programmed
    ensures { result ≡ programmed fuses (packed (off n)) }
{
    Programmed {
        fuses,
        volatile: v.power_falls(n),
    }
}
