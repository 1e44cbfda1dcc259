// A walk: CLK rises or falls with VCC on, RST and PGM low, where nothing is compared and nothing comes of an arrival.
#![tactic(auto)]

ghost use Rattle.std.specs.Prelude.{◌≡◌, cond, ◌<◌, None};
ghost use Rattle.rules.specs.Steps.{next};
ghost use Rattle.volatile.specs.Packed.{given, card_of};
ghost use Rattle.shown.specs.Shown.{plain_at};
ghost use Rattle.walk.specs.Calls.{calm, walked_to, walk_to, walk_of};
ghost use Rattle.walk.specs.Inside.{walked_half, Calm};

use memory::is_set;
use volatile::Volatile;

// VCC, RST, PGM, and the bits that are no line.
const ALL_BUT_CLK_IO_FUS: u32 = 203;

// Where a walk leads: the half and the pin.
#[derive(Clone, Copy)]
pub struct Walked {
    pub volatile: Volatile,
    pub pin: u8,
}

// CLK alone turns over, and of the flags above R1 none is set, or the latch alone and CLK high.
fn is_calm(v: Volatile, n: u32) -> bool
    ensures { result ≡ calm v n }
{
    let above = v.flags / 8;
    (v.lines ^ n == 4) & ((above == 0) | (above == (v.lines & 4) / 2))
}

// CLK rises or falls.
fn clocks(v: Volatile, n: u32) -> Volatile
    requires { v.address < 1519 }
    ensures { result ≡ walked_half v n }
{
    if is_set(n, volatile::CLK) {
        return v.clock_rises(n);
    }
    v.goes_on(n, v.address + 1)
}

// The half after a walk, and the pin, or no walk after all.
fn comes_to(v: Volatile, image: &[u8], fuses: u8, n: u32) -> Option<Walked>
    requires { Calm (given image.now fuses v) n }
    ensures { result ≡ cond (plain_at (walked_to v.address n)) (walk_to (next (card_of (given image.now fuses v)) n)) None }
{
    let next = clocks(v, n);
    let shown = shown::shows(next.address, next.flags)?;
    let bit = memory::read_bit(image, next.address as usize);
    Some(Walked {
        volatile: next,
        pin: volatile::pin_value(shown, bit),
    })
}

// One step where it walks, as most do: CLK on a card that is read. Any other is left to the card.
// By the hint it stands in both exported calls: called, it would hand its answer over in memory, at over 30 instructions a step.
#[inline(always)]
pub fn step(image: &[u8], fuses: u8, v: Volatile, n: u8) -> Option<Walked>
    ensures { result ≡ walk_of (given image.now fuses v) n }
{
    let levels = n as u32;
    if levels & ALL_BUT_CLK_IO_FUS != 1 {
        return None;
    }
    if !is_calm(v, levels) {
        return None;
    }
    if rules::LAST <= v.address {
        return None;
    }
    if image.len() != rules::BYTES {
        return None;
    }
    if 7 < fuses {
        return None;
    }
    comes_to(v, image, fuses, levels)
}
