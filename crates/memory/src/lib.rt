// The leaves on a lent image, and bytes put into a lent buffer. A byte past the end reads 0, and a store there does nothing.
#![tactic(auto)]

ghost use Rattle.std.specs.Prelude.{◌≡◌, length, replicate, set};
ghost use Rattle.memory.specs.Image.{digit, bit, written, erased_word, filled};
ghost use Rattle.memory.specs.Buffer.{Put};

pub mod lent;

// Binary digit k of x.
pub fn is_set(x: u32, k: u32) -> bool
    ensures { result ≡ digit k x }
{
    if k < 32 { (x >> k) % 2 == 1 } else { false }
}

// Bit a of the image.
pub fn read_bit(image: &[u8], a: usize) -> bool
    ensures { result ≡ bit image.now a }
{
    let i = a / 8;
    if i < image.len() {
        (image[i] >> (7 - a % 8)) % 2 == 1
    } else {
        false
    }
}

// Bit a is set to 0.
pub fn write_bit(image: &mut [u8], a: usize)
    ensures { image.new ≡ written image.old a }
{
    let i = a / 8;
    if i < image.len() {
        let x = image[i];
        let one = 128u8 >> (a % 8);
        image[i] = x & (255 - one);
    }
}

// One byte takes the value v.
fn store(image: &mut [u8], i: usize, v: u8)
    ensures { image.new ≡ set image.old i v }
{
    if i < image.len() {
        image[i] = v;
    }
}

// The 16 bits of a's word are set to 1.
pub fn erase_word(image: &mut [u8], a: usize)
    ensures { image.new ≡ erased_word image.old a }
{
    let i = a / 16 * 2;
    store(image, i, 255);
    store(image, i + 1, 255);
}

// Every byte of a part takes the value v. By hand, so that a slip in its first byte is refused for what it says and not for its form.
fn fill(part: &mut [u8], v: u8)
    ensures { part.new ≡ replicate (length part.old) v }
{
    for i in 0..part.len() {
        part[i] = v;
    }
}

// count bytes from byte first on take the value v.
#[tactic(auto, using(crate::proofs::Laws::put_filled, crate::proofs::Laws::not_filled))]
pub fn fill_part(image: &mut [u8], first: usize, count: usize, v: u8)
    ensures { image.new ≡ filled first count v image.old }
{
    if first <= image.len() {
        if count <= image.len() - first {
            fill(&mut image[first..first + count], v);
        }
    }
}

// The bytes from `at` on, as far as there is room, and the place behind them. `lent::Filling` keeps the place between two of
// these, and is made of it.
pub fn put(out: &mut [u8], at: usize, bytes: &[u8]) -> usize
    ensures { Put out.old at bytes.now result out.new }
{
    let mut next = at;
    for b in bytes {
        if out.len() <= next {
            return next;
        }
        out[next] = *b;
        next += 1;
    }
    next
}
