// The half after most steps that are no walk, which a single step tells without the loop of a run. Any other step is left to the run.
ghost use Rattle.std.specs.Prelude.{◌≡◌};
ghost use Rattle.std.specs.Int.Bits.{bit_xor, bit_and};
ghost use Rattle.card.specs.Moves.{QuickTo};

use crate::masks;
use memory::is_set;
use volatile::Volatile;

// CLK rises, or falls where it does not count.
pub(crate) fn clock(v: Volatile, n: u32) -> Option<Volatile>
    requires { bit_xor v.lines n ≡ 4 }
    ensures { QuickTo v n result }
{
    if !is_set(n, volatile::VCC) {
        return Some(v.follows(n));
    }
    if is_set(n, volatile::CLK) {
        return Some(v.clock_rises(n));
    }
    if is_set(n, volatile::RST) & !is_set(v.flags, volatile::PROGRAMMING) {
        return Some(v.unlatched(n, is_set(v.flags, volatile::MATCH)));
    }
    None
}

// FUS or RST with VCC on and CLK low, where neither is refused.
pub(crate) fn idle(v: Volatile, n: u32) -> Option<Volatile>
    requires { bit_and n 5 ≡ 1 }
    ensures { QuickTo v n result }
{
    let d = v.lines ^ n;
    if d == 32 {
        return Some(v.follows(n));
    }
    if d == 2 {
        if n & masks::VCC_RST == 1 {
            return Some(v.reset_falls(n));
        }
        return Some(v.follows(n));
    }
    None
}

// I/O and CLK, PGM where it is not refused, and FUS and RST with CLK low.
pub(crate) fn step(v: Volatile, n: u32) -> Option<Volatile>
    ensures { QuickTo v n result }
{
    let d = v.lines ^ n;
    if d == 4 {
        return clock(v, n);
    }
    if d == 16 {
        return Some(v.follows(n));
    }
    if (d == 8) & (n & masks::VCC_CLK_PGM != masks::VCC_CLK_PGM) {
        return Some(v.follows(n));
    }
    if n & masks::VCC_CLK == 1 {
        return idle(v, n);
    }
    None
}
