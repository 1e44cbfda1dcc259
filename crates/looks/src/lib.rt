// The calls that only look at a card: the flags, the tries left, the reason why a write would do nothing.
#![tactic(auto)]

ghost use Rattle.std.specs.Prelude.{◌≡◌};
ghost use Rattle.rules.specs.Card.{tries_left};
ghost use Rattle.rules.specs.Numbers.{numbered};
ghost use Rattle.rules.specs.Reason.{number, first_missing, reason};
ghost use Rattle.volatile.specs.Packed.{unpacked};
ghost use Rattle.looks.specs.Flags.{flags_of};
ghost use Rattle.looks.specs.Reasons.{reason_answer};

use memory::is_set;
use rules::{Reason, Refusal};
use volatile::Volatile;

// What the flags call tells.
#[derive(Clone, Copy, Debug, PartialEq, Eq)]
pub struct HeldFlags {
    pub sv: bool,
    pub p1: bool,
    pub r1: bool,
    pub e1: bool,
}

// SV, P1, R1 and E1, or 9.
#[tactic(auto, unfolding(rules::specs::Numbers::numbered, crate::specs::Flags::flags_of))]
pub fn flags(v: Volatile) -> Result<HeldFlags, Refusal>
    ensures { numbered result ≡ flags_of v }
{
    if v.made_up() {
        return Err(Refusal::MadeUp);
    }
    Ok(HeldFlags {
        sv: is_set(v.flags, volatile::SV),
        p1: is_set(v.flags, volatile::P1),
        r1: is_set(v.flags, volatile::R1),
        e1: is_set(v.flags, volatile::E1),
    })
}

// The tries left: the ones in bits 96 to 103, none in an image too short for them.
#[tactic(auto, using(crate::proofs::Ones::tries), unfolding(rules::specs::Card::tries_left))]
pub fn tries_left(image: &[u8]) -> u32
    ensures { result ≡ tries_left image.now }
{
    match image.get(12) {
        Some(byte) => byte.count_ones(),
        None => 0,
    }
}

// A reason's number, in 02's order; 0, the right is there.
pub fn number_of(r: Reason) -> u8
    ensures { result ≡ number r }
{
    r as u8
}

// The lowest digit of what the operation asks for and does not have.
#[tactic(auto, unfolding(rules::specs::Reason::first_missing))]
fn first_missing(mask: u8) -> Reason
    ensures { result ≡ first_missing mask }
{
    match mask.trailing_zeros() {
        0 => Reason::NeverAllowed,
        1 => Reason::SVMissing,
        2 => Reason::P1Missing,
        3 => Reason::E1Missing,
        4 => Reason::MFBlown,
        5 => Reason::ISSBlown,
        6 => Reason::FUSLow,
        _ => Reason::RightIsThere,
    }
}

// The first that holds, of a half that 9 lets pass or not.
#[tactic(auto, unfolding(rules::specs::Reason::reason, volatile::specs::Packed::unpacked, rules::specs::Lines::high))]
fn reason_of(fuses: u8, v: Volatile) -> Reason
    ensures { result ≡ reason fuses (unpacked v) }
{
    if !is_set(v.flags, volatile::PROGRAMMING) {
        return Reason::NoProgramming;
    }
    let z = zones::zone_of(v.address);
    if rights::is_gap(z) {
        return Reason::NothingStored;
    }
    if is_set(v.lines, volatile::RST) != rights::is_fuse(z) {
        return Reason::WrongRST;
    }
    first_missing(v.missing(fuses, z))
}

// Why CLK's fall would change nothing by right, or that the right is there; 10, 14, 9. PGM is taken as low already.
#[tactic(auto, unfolding(crate::specs::Reasons::reason_answer, rules::specs::Numbers::numbered, rules::specs::Numbers::number_in))]
pub fn reason(image: &[u8], fuses: u8, v: Volatile) -> Result<Reason, Refusal>
    ensures { numbered result ≡ reason_answer image.now fuses v }
{
    refusals::state_refusal(image, fuses, v)?;
    Ok(reason_of(fuses, v))
}
