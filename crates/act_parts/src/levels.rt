// The line levels of the maker's steps, and the short lists of them that the acts are made of.
ghost use Rattle.std.specs.Prelude.{◌≤◌, ◌≡◌, cond};
ghost use Rattle.rules.specs.Maker.{base as base_of, idle as idle_of, program_with};
ghost use Rattle.rules.specs.Maker.{reset as reset_steps, program as program_steps, blow as blow_steps};
ghost use Rattle.act_parts.specs.Parts.{pulse as pulse_of, shown_bit};

// Masks of the lines.
pub const VCC: u8 = 1;

pub const RST: u8 = 2;

pub const CLK: u8 = 4;

pub const PGM: u8 = 8;

pub const IO: u8 = 16;

pub const FUS: u8 = 32;

// Idle, but for FUS.
pub const IDLE: u8 = VCC + IO;

// The lines of the mask, high or low, and all others low.
pub fn level(mask: u8, high: bool) -> u8
    ensures value { result ≡ cond high mask 0 }
    ensures upper_bound { result ≤ mask }
{
    if high { mask } else { 0 }
}

#[tactic(auto, unfolding(rules::specs::Maker::base))]
fn base(fus: bool) -> u8
    ensures value { result ≡ base_of fus }
    ensures upper_bound { result ≤ 33 }
{
    VCC + level(FUS, fus)
}

#[tactic(auto, unfolding(rules::specs::Maker::base, rules::specs::Maker::idle))]
pub(crate) fn idle(fus: bool) -> u8
    ensures value { result ≡ idle_of fus }
    ensures upper_bound { result ≤ 49 }
{
    IDLE + level(FUS, fus)
}

// A line up, down: reset's RST, and CLK at each address of a walk.
#[tactic(auto, unfolding(crate::specs::Parts::pulse))]
pub(crate) fn pulse(line: u8, fus: bool) -> [u8; 2]
    requires { line ≤ 4 }
    ensures { result ≡ pulse_of line fus }
{
    let idle = idle(fus);
    [idle + line, idle]
}

#[tactic(auto, unfolding(rules::specs::Maker::reset, crate::specs::Parts::pulse))]
pub fn reset(fus: bool) -> [u8; 2]
    ensures { result ≡ reset_steps fus }
{
    pulse(RST, fus)
}

#[tactic(auto, unfolding(crate::specs::Parts::shown_bit, rules::specs::Maker::io))]
pub(crate) fn bit(fus: bool, b: bool) -> [u8; 3]
    ensures { result ≡ shown_bit fus b }
{
    let level = base(fus) + level(IO, b);
    [level, level + CLK, level]
}

#[tactic(auto, unfolding(rules::specs::Maker::program_with, rules::specs::Maker::io))]
fn program_with(extra: u8, fus: bool, d: bool) -> [u8; 6]
    requires { extra ≤ 2 }
    ensures { result ≡ program_with extra fus d }
{
    let idle = idle(fus) + extra;
    let base = base(fus) + extra;
    let io = level(IO, d);
    [
        idle + PGM,
        base + PGM + io,
        base + PGM + CLK + io,
        base + CLK + io,
        idle + CLK,
        idle,
    ]
}

#[tactic(auto, unfolding(rules::specs::Maker::program))]
pub fn program(fus: bool, d: bool) -> [u8; 6]
    ensures { result ≡ program_steps fus d }
{
    program_with(0, fus, d)
}

#[tactic(auto, unfolding(rules::specs::Maker::blow, rules::specs::Maker::program_with))]
pub fn blow(fus: bool) -> [u8; 8]
    ensures { result ≡ blow_steps fus }
{
    let idle = idle(fus);
    let p = program_with(RST, fus, false);
    [idle + RST, p[0], p[1], p[2], p[3], p[4], p[5], idle]
}
