// The acts as steps in a lent buffer: each puts its steps behind those so far, as far as there is room.
#![tactic(auto)]

ghost use Rattle.memory.specs.Filled.{Filled};
ghost use Rattle.rules.specs.Maker.{walk, show};
ghost use Rattle.act_parts.specs.Parts.{up_to_code, use_try};

use levels::CLK;
use memory::is_set;
use memory::lent::Filling;

pub mod levels;

pub fn put_walk(fus: bool, n: usize, to: &mut Filling)
    ensures { Filled to.old (walk fus n) to.new }
{
    let pulse = levels::pulse(CLK, fus);
    for _ in 0..n {
        to.put(&pulse);
    }
}

pub fn put_show(fus: bool, width: u32, x: u32, to: &mut Filling)
    ensures { Filled to.old (show fus width x) to.new }
{
    for k in (0..width).rev() {
        to.put(&levels::bit(fus, is_set(x, k)));
    }
    to.put(&[levels::idle(fus)]);
}

pub fn put_code(fus: bool, code: u16, to: &mut Filling)
    ensures { Filled to.old (up_to_code fus code) to.new }
{
    to.put(&levels::reset(fus));
    put_walk(fus, 80, to);
    put_show(fus, 16, code as u32, to);
}

pub fn put_try(fus: bool, k: usize, to: &mut Filling)
    ensures { Filled to.old (use_try fus k) to.new }
{
    put_walk(fus, k, to);
    to.put(&levels::program(fus, false));
    to.put(&levels::program(fus, true));
}
