// The step maker's acts. FUS and d are bytes: 0 is low, anything else high.
#![tactic(auto, using(crate::proofs::Shown::act_told))]

ghost use Rattle.std.specs.Prelude.{◌≡◌};
ghost use Rattle.rules.specs.Maker.{reset as reset_steps, walk as walk_steps, show, program as program_steps, blow as blow_steps, open_card};
ghost use Rattle.rules.specs.Maker.{walk_refusal, open_refusal};
ghost use Rattle.rules.specs.Numbers.{numbered};
ghost use Rattle.exports.specs.Rendered.{is_high, made_of};
ghost use Rattle.exports.specs.Told.{ActTold};

use rules::Refusal;

// The result of an act: how many steps were written, and the refusal, 0 if none.
#[repr(C)]
#[derive(Clone, Copy)]
pub struct ZhavMade {
    pub count: usize,
    pub refusal: u8,
}

// An act's answer in these numbers.
impl From<Result<usize, Refusal>> for ZhavMade {
    ghost from_gives = { λ made told. told ≡ made_of (numbered made) };

    #[tactic(auto, unfolding(crate::specs::Rendered::made_of, maker::specs::Act::count_of, maker::specs::Act::refusal_in, rules::specs::Numbers::numbered))]
    fn from(made: Result<usize, Refusal>) -> ZhavMade {
        match made {
            Ok(count) => ZhavMade { count, refusal: 0 },
            Err(refusal) => ZhavMade {
                count: 0,
                refusal: refusal.number(),
            },
        }
    }
}

#[unsafe(no_mangle)]
pub extern "C" fn zhav_reset(fus: u8, out: &mut [u8]) -> ZhavMade
    ensures { ActTold 0 (reset_steps (is_high fus)) out.old result out.new }
{
    maker::reset(fus != 0, out).into()
}

#[unsafe(no_mangle)]
pub extern "C" fn zhav_walk(fus: u8, n: usize, out: &mut [u8]) -> ZhavMade
    ensures { ActTold (walk_refusal n) (walk_steps (is_high fus) n) out.old result out.new }
{
    maker::walk(fus != 0, n, out).into()
}

#[unsafe(no_mangle)]
pub extern "C" fn zhav_show16(fus: u8, code: u16, out: &mut [u8]) -> ZhavMade
    ensures { ActTold 0 (show (is_high fus) 16 code) out.old result out.new }
{
    maker::show16(fus != 0, code, out).into()
}

#[unsafe(no_mangle)]
pub extern "C" fn zhav_show32(fus: u8, key: u32, out: &mut [u8]) -> ZhavMade
    ensures { ActTold 0 (show (is_high fus) 32 key) out.old result out.new }
{
    maker::show32(fus != 0, key, out).into()
}

#[unsafe(no_mangle)]
pub extern "C" fn zhav_program(fus: u8, d: u8, out: &mut [u8]) -> ZhavMade
    ensures { ActTold 0 (program_steps (is_high fus) (is_high d)) out.old result out.new }
{
    maker::program(fus != 0, d != 0, out).into()
}

#[unsafe(no_mangle)]
pub extern "C" fn zhav_blow(fus: u8, out: &mut [u8]) -> ZhavMade
    ensures { ActTold 0 (blow_steps (is_high fus)) out.old result out.new }
{
    maker::blow(fus != 0, out).into()
}

#[unsafe(no_mangle)]
pub extern "C" fn zhav_open(fus: u8, code: u16, attempts: u8, out: &mut [u8]) -> ZhavMade
    ensures { ActTold (open_refusal attempts) (open_card (is_high fus) code attempts) out.old result out.new }
{
    maker::open(fus != 0, code, attempts, out).into()
}
