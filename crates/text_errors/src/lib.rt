// The line that says what is wrong with a text, made in a lent buffer.
#![tactic(auto)]

ghost use Rattle.std.specs.Prelude.{◌≡◌, length};
ghost use Rattle.memory.specs.Filled.{Filled};
ghost use Rattle.report.specs.Buffer.{Made, Enough};
ghost use Rattle.text_errors.specs.ErrorLine.{words, error_line, enough};

use memory::lent::Filling;

// The words of a refusal, and some for one that has no row. It is any number, as `error_line` takes any: an enum would take fewer.
fn words_of(refusal: u8) -> &'static [u8]
    ensures { result.now ≡ words refusal }
{
    match refusal {
        77 => b"the text is longer than 65,536 bytes",
        71 => b"no line starts with this word",
        72 => b"a word too many, too few or not of this line",
        73 => b"a number is too large for its place",
        74 => b"the image and the fuses come before the first step",
        75 => b"this act does not start from these levels",
        21 => b"a walk over 1519",
        23 => b"no 1 in bits 96 to 103: no try left",
        22 => b"more than 4,096 steps",
        76 => b"no room",
        _ => b"another refusal",
    }
}

fn put_line(to: &mut Filling, line: usize, refusal: u8)
    ensures { Filled to.old (error_line line refusal) to.new }
{
    report::put_number(to, b"line ", line);
    to.put(b": ");
    to.put(words_of(refusal));
    report::put_number(to, b" (", refusal as usize);
    to.put(b")\n");
}

// `line N: words (number)`. 84 bytes hold every such line.
pub fn error_line(line: usize, refusal: u8, out: &mut [u8]) -> Option<usize>
    ensures text { Made (error_line line refusal) out.old result out.new }
    ensures enough { Enough enough (length out.old) result }
{
    let mut text = [0u8; 84];
    let mut to = Filling::of(&mut text);
    put_line(&mut to, line, refusal);
    let said = to.so_far();
    if out.len() < said.len() {
        return None;
    }
    Some(memory::put(out, 0, said))
}
