// The step maker: the reader's acts as steps in a lent buffer, "From idle .. back to idle, FUS kept". An act answers how many steps it
// wrote, or why it wrote none.
#![tactic(auto)]

ghost use Rattle.std.specs.Prelude.{◌≤◌, ◌<◌, ◌≡◌, MatchResult};
ghost use Rattle.rules.specs.declared.Refusal.TheVariants as refusal;
ghost use Rattle.rules.specs.Maker.{reset as reset_steps, walk as walk_steps, show, program as program_steps, blow as blow_steps, open_card};
ghost use Rattle.rules.specs.Maker.{walk_refusal, open_refusal};
ghost use Rattle.rules.specs.Numbers.{numbered};
ghost use Rattle.maker.specs.Act.{Acted};

use act_parts::levels;
use memory::lent::Filling;
use rules::Refusal;

// The highest address, as a length.
const LAST: usize = rules::LAST as usize;

// So many steps, in so much room.
fn fits(count: usize, room: usize) -> Result<(), Refusal>
    ensures { MatchResult result (λ _. count ≤ room) (λ e. (e ≡ refusal.NoRoom) × (room < count)) }
{
    if room < count {
        Err(Refusal::NoRoom)
    } else {
        Ok(())
    }
}

// Steps as they are: those that no act makes, and the acts of a fixed length.
pub fn raw(steps: &[u8], out: &mut [u8]) -> Result<usize, Refusal>
    ensures { Acted 0 steps.now out.old (numbered result) out.new }
{
    fits(steps.len(), out.len())?;
    Ok(memory::put(out, 0, steps))
}

pub fn reset(fus: bool, out: &mut [u8]) -> Result<usize, Refusal>
    ensures { Acted 0 (reset_steps fus) out.old (numbered result) out.new }
{
    raw(&levels::reset(fus), out)
}

pub fn walk(fus: bool, n: usize, out: &mut [u8]) -> Result<usize, Refusal>
    ensures { Acted (walk_refusal n) (walk_steps fus n) out.old (numbered result) out.new }
{
    if LAST < n {
        return Err(Refusal::WalkTooLong);
    }
    fits(2 * n, out.len())?;
    let mut to = Filling::of(out);
    act_parts::put_walk(fus, n, &mut to);
    Ok(to.at)
}

fn show_bits(fus: bool, width: u32, x: u32, out: &mut [u8]) -> Result<usize, Refusal>
    requires { width ≤ 32 }
    ensures { Acted 0 (show fus width x) out.old (numbered result) out.new }
{
    fits(3 * width as usize + 1, out.len())?;
    let mut to = Filling::of(out);
    act_parts::put_show(fus, width, x, &mut to);
    Ok(to.at)
}

// The types say how many bits are shown, as the exported names do: two calls of one line are plainer than one generic in the type.
pub fn show16(fus: bool, code: u16, out: &mut [u8]) -> Result<usize, Refusal>
    ensures { Acted 0 (show fus 16 code) out.old (numbered result) out.new }
{
    show_bits(fus, 16, code as u32, out)
}

pub fn show32(fus: bool, key: u32, out: &mut [u8]) -> Result<usize, Refusal>
    ensures { Acted 0 (show fus 32 key) out.old (numbered result) out.new }
{
    show_bits(fus, 32, key, out)
}

pub fn program(fus: bool, d: bool, out: &mut [u8]) -> Result<usize, Refusal>
    ensures { Acted 0 (program_steps fus d) out.old (numbered result) out.new }
{
    raw(&levels::program(fus, d), out)
}

pub fn blow(fus: bool, out: &mut [u8]) -> Result<usize, Refusal>
    ensures { Acted 0 (blow_steps fus) out.old (numbered result) out.new }
{
    raw(&levels::blow(fus), out)
}

pub fn open(fus: bool, code: u16, attempts: u8, out: &mut [u8]) -> Result<usize, Refusal>
    ensures { Acted (open_refusal attempts) (open_card fus code attempts) out.old (numbered result) out.new }
{
    // "Refused in order": 23 comes before 22.
    if attempts == 0 {
        return Err(Refusal::NoTryLeft);
    }
    let k = attempts.leading_zeros() as usize;
    fits(223 + 2 * k, out.len())?;
    let mut to = Filling::of(out);
    act_parts::put_code(fus, code, &mut to);
    act_parts::put_try(fus, k, &mut to);
    Ok(to.at)
}
