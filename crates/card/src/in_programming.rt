// While programming is under way: CLK falls, and the operation takes effect; VCC falls.
ghost use Rattle.std.specs.Prelude.{◌≡◌, true};
ghost use Rattle.std.specs.Int.Bits.{bit_xor};
ghost use Rattle.memory.specs.Image.{digit};
ghost use Rattle.rules.specs.Halves.{off};
ghost use Rattle.volatile.specs.Packed.{packed, given};
ghost use Rattle.volatile.specs.Inner.{Ready};
ghost use Rattle.card.specs.Moves.{Leaves, left_by, moved};

use crate::moved::{Left, Moved};
use memory::is_set;
use rules::Refusal;
use volatile::Volatile;

// CLK falls.
pub(crate) fn clock(
    v: Volatile,
    image: &mut [u8],
    fuses: u8,
    pin: u8,
    n: u32,
) -> Result<Left, Refusal>
    requires ready { Ready (given image.old fuses v) pin }
    requires programming { digit 3 v.flags ≡ true }
    requires line { bit_xor v.lines n ≡ 4 }
    ensures { Leaves (given image.old fuses v) pin n result image.new }
{
    if is_set(n, volatile::PGM) {
        return Err(Refusal::CLKFallsWithPGMHigh);
    }
    let done = programming::clock_falls(v, image, fuses, n);
    Ok(Moved::read(done.volatile, image, done.fuses).with_fuses(done.fuses))
}

// VCC falls.
pub(crate) fn power(v: Volatile, fuses: u8, n: u32) -> Left
    ensures { result ≡ left_by (moved (packed (off n)) 1) fuses }
{
    let done = programming::power_falls(v, fuses, n);
    Left {
        fuses: done.fuses,
        volatile: done.volatile,
        pin: volatile::RELEASED,
    }
}
