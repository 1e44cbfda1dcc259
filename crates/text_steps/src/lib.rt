// The steps of an act in a lent buffer.
#![tactic(auto)]

ghost use Rattle.std.specs.Prelude.{◌≡◌};
ghost use Rattle.rules.specs.Numbers.{numbered};
ghost use Rattle.maker.specs.Act.{Acted};
ghost use Rattle.text_lines.specs.Faults.{numbered as numbered_fault};
ghost use Rattle.text_steps.specs.Steps.{power as power_of, cut as cut_of, steps_of, maker_refusal, starts_at, refusal_of};

use act_parts::levels;
use act_parts::levels::{CLK, FUS, IDLE, IO, PGM, level};
use rules::Refusal;
use text_lines::Act;
use text_lines::faults::Fault;

fn power(fus: bool, on: bool, out: &mut [u8]) -> Result<usize, Refusal>
    ensures { Acted 0 (power_of fus on) out.old (numbered result) out.new }
{
    let off = level(FUS, fus);
    maker::raw(&[off + IO, off + level(IDLE, on)], out)
}

// Program d up to CLK's rise; then VCC falls, and CLK, PGM and I/O after it.
fn cut(fus: bool, d: bool, out: &mut [u8]) -> Result<usize, Refusal>
    ensures { Acted 0 (cut_of fus d) out.old (numbered result) out.new }
{
    let p = levels::program(fus, d);
    let off = level(FUS, fus);
    let io = off + level(IO, d);
    maker::raw(&[p[0], p[1], p[2], io + PGM + CLK, io + PGM, io, off], out)
}

#[tactic(auto, unfolding(crate::specs::Steps::steps_of, crate::specs::Steps::off))]
fn set_fus(high: bool, lines: u8, out: &mut [u8]) -> Result<usize, Refusal>
    ensures { Acted 0 (steps_of (Act.Fus high) lines 0) out.old (numbered result) out.new }
{
    maker::raw(&[lines % FUS + level(FUS, high)], out)
}

#[tactic(auto, unfolding(crate::specs::Steps::starts_at))]
fn starts_at(act: Act, lines: u8) -> bool
    ensures { result ≡ starts_at act lines }
{
    let level = lines % FUS;
    match act {
        Act::Power(on) => level == if on { 0 } else { IDLE },
        Act::Fus(_) | Act::Lines(_) => true,
        _ => level == IDLE,
    }
}

// The acts are a text's, so their kinds are closed: a `match`, and no closure in the place of a kind.
#[tactic(auto, unfolding(crate::specs::Steps::steps_of, crate::specs::Steps::maker_refusal, crate::specs::Steps::fus_at))]
fn made(act: Act, lines: u8, attempts: u8, out: &mut [u8]) -> Result<usize, Refusal>
    ensures { Acted (maker_refusal act attempts) (steps_of act lines attempts) out.old (numbered result) out.new }
{
    let fus = FUS <= lines;
    match act {
        Act::Power(on) => power(fus, on, out),
        Act::Fus(high) => set_fus(high, lines, out),
        Act::Lines(n) => maker::raw(&[n], out),
        Act::Cut(d) => cut(fus, d, out),
        Act::Reset => maker::reset(fus, out),
        Act::Walk(n) => maker::walk(fus, n, out),
        Act::Show16(x) => maker::show16(fus, x, out),
        Act::Show32(x) => maker::show32(fus, x, out),
        Act::Open(code) => maker::open(fus, code, attempts, out),
        Act::Program(d) => maker::program(fus, d, out),
        Act::Blow => maker::blow(fus, out),
    }
}

// The act from these levels on, with the byte of bits 96 to 103 for an open.
pub fn make(act: Act, lines: u8, attempts: u8, out: &mut [u8]) -> Result<usize, Fault>
    ensures { Acted (refusal_of act lines attempts) (steps_of act lines attempts) out.old (numbered_fault result) out.new }
{
    if !starts_at(act, lines) {
        return Err(Fault::Elsewhere);
    }
    Ok(made(act, lines, attempts, out)?)
}
