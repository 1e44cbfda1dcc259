// A number in decimal, as bytes in a lent buffer.
#![tactic(auto)]

ghost use Rattle.std.specs.Prelude.{◌≡◌, ◌∷◌, [], ◌≤◌, length};
ghost use Rattle.memory.specs.Filled.{Filled};
ghost use Rattle.decimal.specs.Decimal.{digit, decimal};

use memory::lent::Filling;

// How many digits x has: one for 0 too.
#[tactic(auto, using(crate::proofs::Digits::by_powers))]
pub fn places(x: usize) -> usize
    ensures { (result ≡ length (decimal x)) × (result ≤ 20) }
{
    x.max(1).ilog10() as usize + 1
}

// The last decimal digit of x, by hand as `put_decimal`.
#[tactic(auto, unfolding(crate::specs::Decimal::digit))]
pub fn put_digit(to: &mut Filling, x: usize)
    ensures { Filled to.old (digit x ∷ []) to.new }
{
    to.put(&[b'0' + (x % 10) as u8]);
}

// By hand: of a buffer that is too short a formatter doesn't say which bytes it wrote.
#[tactic(auto, using(crate::proofs::Digits::one_digit))]
pub fn put_decimal(to: &mut Filling, x: usize)
    ensures { Filled to.old (decimal x) to.new }
{
    if x < 10 {
        return put_digit(to, x);
    }
    let front = x / 10;
    let last = x % 10;
    put_decimal(to, front);
    put_digit(to, last);
}
