// A step of a card whose state is sound and whose pin is at hand.
ghost use Rattle.volatile.specs.Packed.{given};
ghost use Rattle.volatile.specs.Inner.{Ready};
ghost use Rattle.card.specs.Moves.{Leaves};

use crate::moved::Left;
use crate::{edges, in_programming};
use memory::is_set;
use rules::Refusal;
use volatile::Volatile;

// While programming is under way image and fuses may change, else they stay.
pub(crate) fn step(
    v: Volatile,
    image: &mut [u8],
    fuses: u8,
    pin: u8,
    n: u32,
) -> Result<Left, Refusal>
    requires { Ready (given image.old fuses v) pin }
    ensures { Leaves (given image.old fuses v) pin n result image.new }
{
    let d = v.lines ^ n;
    if d == 4 {
        if is_set(v.flags, volatile::PROGRAMMING) {
            return in_programming::clock(v, image, fuses, pin, n);
        }
        return Ok(edges::clock(v, image, fuses, pin, n).with_fuses(fuses));
    }
    if (d == 1) & is_set(v.flags, volatile::PROGRAMMING) {
        return Ok(in_programming::power(v, fuses, n));
    }
    Ok(edges::other_than_clock(v, image, fuses, pin, n)?.with_fuses(fuses))
}
