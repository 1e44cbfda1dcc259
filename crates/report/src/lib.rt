// Texts made in a lent buffer: the writers of their parts, and the session program's.
#![tactic(auto)]

ghost use Rattle.std.specs.Prelude.{◌≡◌, ◌++◌, length, take};
ghost use Rattle.memory.specs.Filled.{Filled};
ghost use Rattle.report.specs.Lines.{done_word, of_word, refused_word, numbered, line, answers_line, bad_text};
ghost use Rattle.report.specs.Told.{lines_of};
ghost use Rattle.report.specs.Buffer.{Made};

use decimal::places;
use memory::lent::Filling;

// Behind a word and a number. The answers have an end of their own, so that a slip in this one is known from a slip in theirs.
const NEWLINE: &[u8] = b"\n";

// What the four lines tell of a run: that it did `done` of the steps given. Of the answers the first `done` are told, all of them if there
// are fewer. The refusal is any number, as `bad`'s is: an enum would take fewer.
#[derive(Clone, Copy)]
pub struct Run<'a> {
    pub done: usize,
    pub given: usize,
    pub refusal: u8,
    pub answers: &'a [u8],
    pub left: u32,
}

// A word and a number behind it.
pub fn put_number(to: &mut Filling, word: &[u8], x: usize)
    ensures { Filled to.old (numbered word.now x) to.new }
{
    to.put(word);
    decimal::put_decimal(to, x);
}

fn put_line(to: &mut Filling, word: &[u8], x: usize)
    ensures { Filled to.old (line word.now x) to.new }
{
    put_number(to, word, x);
    to.put(NEWLINE);
}

fn put_answers(to: &mut Filling, answers: &[u8])
    ensures { Filled to.old (answers_line answers.now) to.new }
{
    for &a in answers {
        decimal::put_digit(to, a as usize);
    }
    to.put(b"\n");
}

// `bad N`, a line: how many bytes it has, or none of them is written for want of room.
pub fn bad(refusal: u8, out: &mut [u8]) -> Option<usize>
    ensures { Made (bad_text refusal) out.old result out.new }
{
    let n = refusal as usize;
    let total = 5 + places(n);
    if out.len() < total {
        return None;
    }
    put_line(&mut Filling::of(out), b"bad ", n);
    Some(total)
}

impl<'a> Run<'a> {
    fn told_answers(&self) -> &'a [u8]
        ensures { result.now ≡ take self.now.done self.now.answers.now }
    {
        let count = self.done.min(self.answers.len());
        &self.answers[..count]
    }

    // What the four lines take up: their words and newlines, their numbers, and the answers.
    fn length(&self) -> usize
        ensures { result ≡ length (lines_of self.now) }
    {
        let numbers = places(self.done)
            + places(self.given)
            + places(self.refusal as usize)
            + places(self.left as usize);
        26 + numbers + self.told_answers().len()
    }

    // The lines before the answers.
    fn put_counts(&self, to: &mut Filling)
        ensures { Filled to.old (numbered done_word self.now.done ++ (line of_word self.now.given ++ line refused_word self.now.refusal)) to.new }
    {
        put_number(to, b"done ", self.done);
        put_line(to, b" of ", self.given);
        put_line(to, b"refused ", self.refusal as usize);
    }

    fn put(&self, to: &mut Filling)
        ensures { Filled to.old (lines_of self.now) to.new }
    {
        self.put_counts(to);
        put_answers(to, self.told_answers());
        put_line(to, b"left ", self.left as usize);
    }

    // The four lines: how many bytes they have, or none of them is written for want of room.
    pub fn four_lines(&self, out: &mut [u8]) -> Option<usize>
        ensures { Made (lines_of self.now) out.old result out.new }
    {
        let all = self.length();
        if out.len() < all {
            return None;
        }
        self.put(&mut Filling::of(out));
        Some(all)
    }
}
