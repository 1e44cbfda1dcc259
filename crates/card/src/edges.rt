// What each line does when it rises or falls, where image and fuses stay: all but CLK and VCC while programming is under way.
// Half, image, fuses and pin are handed on one by one, here, in `in_programming` and in `inner_step`. Held in one struct with `Ready` as its
// ghost field, which proves, a run of writes counts 59.5 instructions a step in the place of 52.4, more than the model's 58.1.
ghost use Rattle.std.specs.Prelude.{◌≡◌, false, ◌≤◌, Ok};
ghost use Rattle.std.specs.Int.Bits.{bit_xor};
ghost use Rattle.memory.specs.Image.{digit};
ghost use Rattle.rules.specs.Match.{following};
ghost use Rattle.rules.specs.Steps.{clocked};
ghost use Rattle.volatile.specs.Packed.{given, card_of};
ghost use Rattle.volatile.specs.Inner.{Ready};
ghost use Rattle.card.specs.Moves.{Moves, moved_to};

use crate::masks;
use crate::moved::Moved;
use memory::is_set;
use rules::Refusal;
use volatile::Volatile;

// The address goes up by one, 1519 going to 0.
pub(crate) fn following(a: u32) -> u32
    requires { a ≤ 1519 }
    ensures { result ≡ following a }
{
    if a == rules::LAST {
        return 0;
    }
    a + 1
}

// CLK falls with RST low: compare, and on by one.
pub(crate) fn clock_counts(v: Volatile, image: &[u8], fuses: u8, n: u32) -> Moved
    requires { v.address ≤ 1519 }
    ensures { result ≡ moved_to (clocked n (card_of (given image.now fuses v))) }
{
    let matched = v.compared(image, v.level1(fuses));
    let next = v
        .unlatched(n, matched)
        .arrives(image, fuses, following(v.address));
    Moved::read(next, image, fuses)
}

// CLK falls and no programming is under way.
pub(crate) fn clock_falls(v: Volatile, image: &[u8], fuses: u8, pin: u8, n: u32) -> Moved
    requires ready { Ready (given image.now fuses v) pin }
    requires idle { digit 3 v.flags ≡ false }
    requires line { bit_xor v.lines n ≡ 4 }
    requires low { digit 2 n ≡ false }
    ensures { Moves (given image.now fuses v) pin n (Ok result) }
{
    let a = v.address + 1;
    if n & masks::VCC_RST_PGM == 1
        && let Some(shown) = shown::shows(a, v.flags)
    {
        let bit = memory::read_bit(image, a as usize);
        return Moved {
            volatile: v.goes_on(n, a),
            pin: volatile::pin_value(shown, bit),
        };
    }
    if !is_set(n, volatile::VCC) {
        return Moved {
            volatile: v.follows(n),
            pin,
        };
    }
    if is_set(n, volatile::RST) {
        let matched = is_set(v.flags, volatile::MATCH);
        return Moved {
            volatile: v.unlatched(n, matched),
            pin,
        };
    }
    clock_counts(v, image, fuses, n)
}

// CLK rises or falls and no programming is under way.
pub(crate) fn clock(v: Volatile, image: &[u8], fuses: u8, pin: u8, n: u32) -> Moved
    requires ready { Ready (given image.now fuses v) pin }
    requires idle { digit 3 v.flags ≡ false }
    requires line { bit_xor v.lines n ≡ 4 }
    ensures { Moves (given image.now fuses v) pin n (Ok result) }
{
    if !is_set(n, volatile::CLK) {
        return clock_falls(v, image, fuses, pin, n);
    }
    if is_set(n, volatile::VCC) {
        return Moved {
            volatile: v.clock_rises(n),
            pin,
        };
    }
    Moved {
        volatile: v.follows(n),
        pin,
    }
}

// PGM rises or falls.
pub(crate) fn program(
    v: Volatile,
    image: &[u8],
    fuses: u8,
    pin: u8,
    n: u32,
) -> Result<Moved, Refusal>
    requires ready { Ready (given image.now fuses v) pin }
    requires line { bit_xor v.lines n ≡ 8 }
    ensures { Moves (given image.now fuses v) pin n result }
{
    if n & masks::VCC_CLK_PGM == masks::VCC_CLK_PGM {
        return Err(Refusal::PGMRisesWithCLKHigh);
    }
    Ok(Moved::read(v.follows(n), image, fuses))
}

// RST rises or falls.
pub(crate) fn reset(v: Volatile, image: &[u8], fuses: u8, pin: u8, n: u32) -> Result<Moved, Refusal>
    requires ready { Ready (given image.now fuses v) pin }
    requires line { bit_xor v.lines n ≡ 2 }
    ensures { Moves (given image.now fuses v) pin n result }
{
    if is_set(v.flags, volatile::PROGRAMMING) {
        return Err(Refusal::RSTOrFUSInProgramming);
    }
    if n & masks::VCC_RST != 1 {
        return Ok(Moved::read(v.follows(n), image, fuses));
    }
    if is_set(n, volatile::CLK) {
        return Err(Refusal::RSTFallsWithCLKHigh);
    }
    Ok(Moved::read(v.reset_falls(n), image, fuses))
}

// FUS rises or falls.
pub(crate) fn fuse(v: Volatile, image: &[u8], fuses: u8, pin: u8, n: u32) -> Result<Moved, Refusal>
    requires ready { Ready (given image.now fuses v) pin }
    requires line { bit_xor v.lines n ≡ 32 }
    ensures { Moves (given image.now fuses v) pin n result }
{
    if is_set(v.flags, volatile::PROGRAMMING) {
        return Err(Refusal::RSTOrFUSInProgramming);
    }
    Ok(Moved::read(v.follows(n), image, fuses))
}

// VCC rises or falls.
pub(crate) fn power(v: Volatile, image: &[u8], fuses: u8, pin: u8, n: u32) -> Result<Moved, Refusal>
    requires ready { Ready (given image.now fuses v) pin }
    requires line { bit_xor v.lines n ≡ 1 }
    ensures { Moves (given image.now fuses v) pin n result }
{
    if !is_set(n, volatile::VCC) {
        return Ok(Moved {
            volatile: v.power_falls(n),
            pin: volatile::RELEASED,
        });
    }
    if n & masks::CLK_PGM != 0 {
        return Err(Refusal::VCCRisesWithCLKOrPGMHigh);
    }
    Ok(Moved::read(v.follows(n), image, fuses))
}

// A step that turns over none of CLK, I/O and PGM.
pub(crate) fn other_line(
    v: Volatile,
    image: &[u8],
    fuses: u8,
    pin: u8,
    n: u32,
) -> Result<Moved, Refusal>
    requires ready { Ready (given image.now fuses v) pin }
    requires clock { bit_xor v.lines n ≡ 4 → ⊥ }
    requires io { bit_xor v.lines n ≡ 16 → ⊥ }
    requires program { bit_xor v.lines n ≡ 8 → ⊥ }
    ensures { Moves (given image.now fuses v) pin n result }
{
    if 63 < n {
        return Err(Refusal::StepOver63);
    }
    let d = v.lines ^ n;
    if d == 0 {
        return Ok(Moved { volatile: v, pin });
    }
    if d == 2 {
        return reset(v, image, fuses, pin, n);
    }
    if d == 32 {
        return fuse(v, image, fuses, pin, n);
    }
    if d == 1 {
        return power(v, image, fuses, pin, n);
    }
    Err(Refusal::ManyLines)
}

// A step that does not turn over CLK.
pub(crate) fn other_than_clock(
    v: Volatile,
    image: &[u8],
    fuses: u8,
    pin: u8,
    n: u32,
) -> Result<Moved, Refusal>
    requires ready { Ready (given image.now fuses v) pin }
    requires clock { bit_xor v.lines n ≡ 4 → ⊥ }
    ensures { Moves (given image.now fuses v) pin n result }
{
    let d = v.lines ^ n;
    if d == 16 {
        return Ok(Moved {
            volatile: v.follows(n),
            pin,
        });
    }
    if d == 8 {
        return program(v, image, fuses, pin, n);
    }
    other_line(v, image, fuses, pin, n)
}
