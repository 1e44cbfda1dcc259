// The rows of the table, and how many of them differ.
use crate::names;
use console::Standard;
use volatile::Volatile;

#[derive(Drop)]
pub(crate) struct Table<'a> {
    out: Standard<'a>,
    differences: u32,
}

impl<'a> Table<'a> {
    pub(crate) fn new(out: Standard<'a>) -> Table<'a> {
        Table {
            out,
            differences: 0,
        }
    }

    // One difference more, unless expected and got are the same.
    fn count(&mut self, same: bool) {
        if !same {
            self.differences = self.differences.wrapping_add(1);
        }
    }

    pub(crate) fn head(&mut self, text: &[u8]) {
        self.out.say(b"\n");
        self.out.say(text);
        self.out.say(b"\n");
    }

    // The end of a row.
    pub(crate) fn numbers(&mut self, expected: u64, got: u64) {
        self.out.say(b": expected ");
        self.out.number(expected);
        self.out.say(b", got ");
        self.out.number(got);
        self.out.say(b"\n");
        self.count(expected == got);
    }

    // A row of a thing and its number.
    pub(crate) fn row(&mut self, thing: &[u8], n: u64, expected: u64, got: u64) {
        self.out.say(thing);
        self.out.number(n);
        self.numbers(expected, got);
    }

    // The start of a row: a run, a step, from this half.
    pub(crate) fn from(&mut self, v: Volatile) {
        self.out.say(b"  ");
        names::half(&mut self.out, v);
    }

    pub(crate) fn step(&mut self, v: Volatile, n: u8) {
        self.from(v);
        self.out.say(b" -> ");
        names::lines(&mut self.out, n as u32);
    }

    // A row of the volatile half.
    pub(crate) fn half(&mut self, expected: Volatile, got: Volatile) {
        self.out.say(b"  result: expected ");
        names::half(&mut self.out, expected);
        self.out.say(b", got ");
        names::half(&mut self.out, got);
        self.out.say(b"\n");
        self.count(expected == got);
    }

    pub(crate) fn end(mut self) {
        let differences = self.differences as u64;
        self.out.say(b"\ndifferences: ");
        self.out.number(differences);
        self.out.say(b"\n");
        self.out.end();
    }
}
