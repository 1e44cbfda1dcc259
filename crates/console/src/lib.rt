// A program's ends: its arguments, its input and its output. What fails there is told in one line on standard error.
#![tactic(auto)]

ghost use Rattle.std.specs.Prelude.{◌≡◌, ◌↔◌, IsTrue};
ghost use Rattle.memory.specs.Filled.{Filled};
ghost use Rattle.decimal.specs.Decimal.{decimal};
ghost use Rattle.console.specs.Told.{told_line, Told, InputTold, StartTold, StopTold, EndTold};
ghost use Rattle.console.specs.Ends.{Taken, Consumed, NotLost, Said, AsFarAs, Written, stopped, ended};

use memory::lent::Filling;
use std::env::FillError;
use std::io;
use std::io::{Stderr, Stdout};
use std::rt::Env;

// A read failed, which is not the end of the input.
#[derive(Clone, Copy)]
pub struct Unreadable;

impl From<io::Error> for Unreadable {
    ghost from_gives = { λ e r. r ≡ record {} };

    fn from(_error: io::Error) -> Unreadable {
        Unreadable
    }
}

// A write failed or took nothing.
#[derive(Clone, Copy)]
struct Unwritten;

// Standard output so far: all that was said is written; a write failed; or the program stopped, which was told.
#[derive(Clone, Copy, PartialEq, Eq)]
pub enum Output {
    Open,
    Lost,
    Stopped,
}

// What a program of this name, which takes no arguments, is lent to write to.
#[derive(Drop)]
pub struct Console<'a, W, E> {
    pub to: &'a mut W,
    pub errors: &'a mut E,
    pub program: &'a [u8],
    pub output: Output,
}

// A console on the program's own output.
pub type Standard<'a> = Console<'a, Stdout, Stderr>;

// `PROGRAM: what which`, a line.
fn put_told(to: &mut Filling, program: &[u8], what: &[u8], which: &[u8])
    ensures { Filled to.old (told_line program.now what.now which.now) to.new }
{
    to.put(program);
    to.put(b": ");
    to.put(what);
    to.put(which);
    to.put(b"\n");
}

// Writes the whole text, or a front of it. `write_all` doesn't say what is written where it fails.
fn write_whole<W: io::Write>(to: &mut W, text: &[u8]) -> Result<(), Unwritten>
    ensures { AsFarAs result (W.contents to.old) (W.contents to.new) text.now }
{
    let mut rest = text;
    while !rest.is_empty() {
        match to.write(rest) {
            Ok(0) | Err(_) => return Err(Unwritten),
            Ok(n) => rest = &rest[n..],
        }
    }
    Ok(())
}

// In one write, so that the lines of two programs don't mix. A line over 80 bytes is cut.
fn tell<E: io::Write>(errors: &mut E, program: &[u8], what: &[u8], which: &[u8])
    ensures { Told (E.contents errors.old) (E.contents errors.new) (told_line program.now what.now which.now) }
{
    let mut line = [0u8; 80];
    let mut to = Filling::of(&mut line);
    put_told(&mut to, program, what, which);
    let _ = write_whole(errors, to.so_far());
}

// Reads until the buffer is full or the input ends. `read_exact` doesn't say what is read where it fails.
pub fn read_full<R: io::Read>(from: &mut R, into: &mut [u8]) -> Result<usize, Unreadable>
    ensures taken { Taken result into.new }
    ensures consumed { Consumed result (R.remaining from.old) (R.remaining from.new) into.new }
{
    let mut done = 0;
    while done < into.len() {
        match from.read(&mut into[done..])? {
            0 => return Ok(done),
            n => done += n,
        }
    }
    Ok(done)
}

// Whether the program was given an argument, be it empty. The first is its name.
fn has_argument<R: Env>(rt: &R) -> bool {
    let mut start = [0u8; 1];
    !matches!(rt.arg(1, &mut start), Err(FillError::NotPresent))
}

// Standard input. An input that cannot be read is told.
pub fn read_input<R: io::Read, E: io::Write>(
    from: &mut R,
    errors: &mut E,
    program: &[u8],
    into: &mut [u8],
) -> Result<usize, Unreadable>
    ensures taken { Taken result into.new }
    ensures consumed { Consumed result (R.remaining from.old) (R.remaining from.new) into.new }
    ensures told { InputTold result (E.contents errors.old) (E.contents errors.new) program.now }
{
    let read = read_full(from, into);
    if read.is_err() {
        tell(errors, program, b"standard input cannot be read", b"");
    }
    read
}

// The output of a program, which takes no arguments.
pub fn start<R: Env, E: io::Write>(rt: &R, errors: &mut E, program: &[u8]) -> Output
    ensures not_lost { NotLost result }
    ensures told { StartTold result (E.contents errors.old) (E.contents errors.new) program.now }
{
    if !has_argument(rt) {
        return Output::Open;
    }
    tell(errors, program, b"takes no arguments", b"");
    Output::Stopped
}

impl Output {
    pub fn say<W: io::Write>(self, to: &mut W, text: &[u8]) -> Output
        ensures said { Said self result }
        ensures written { Written self result (W.contents to.old) (W.contents to.new) text.now }
    {
        let Output::Open = self else {
            return self;
        };
        match write_whole(to, text) {
            Ok(()) => Output::Open,
            Err(_) => Output::Lost,
        }
    }

    pub fn number<W: io::Write>(self, to: &mut W, n: u64) -> Output
        ensures said { Said self result }
        ensures written { Written self result (W.contents to.old) (W.contents to.new) (decimal n) }
    {
        let mut digits = [0u8; 20];
        let mut text = Filling::of(&mut digits);
        decimal::put_decimal(&mut text, n as usize);
        self.say(to, text.so_far())
    }

    // Tells why the program stops, unless it stopped before or the output is lost, which `end` tells.
    #[tactic(auto, unfolding(crate::specs::Ends::stopped))]
    pub fn stop<E: io::Write>(
        self,
        errors: &mut E,
        program: &[u8],
        what: &[u8],
        which: &[u8],
    ) -> Output
        ensures state { result ≡ stopped self }
        ensures told { StopTold self (E.contents errors.old) (E.contents errors.new) (told_line program.now what.now which.now) }
    {
        match self {
            Output::Open => {
                tell(errors, program, what, which);
                Output::Stopped
            }
            Output::Lost => Output::Lost,
            Output::Stopped => Output::Stopped,
        }
    }

    // Tells of an output that is lost, once.
    #[tactic(auto, unfolding(crate::specs::Ends::ended))]
    pub fn end<E: io::Write>(self, errors: &mut E, program: &[u8]) -> Output
        ensures state { result ≡ ended self }
        ensures told { EndTold self (E.contents errors.old) (E.contents errors.new) program.now }
    {
        match self {
            Output::Lost => {
                tell(errors, program, b"standard output cannot be written", b"");
                Output::Stopped
            }
            Output::Open | Output::Stopped => self,
        }
    }
}

impl<'a, W: io::Write, E: io::Write> Console<'a, W, E> {
    pub fn start<R: Env>(
        rt: &R,
        to: &'a mut W,
        errors: &'a mut E,
        program: &'a [u8],
    ) -> Console<'a, W, E>
        ensures not_lost { NotLost result.output }
        ensures told { StartTold result.output (E.contents errors.old) (E.contents result.errors.now) program.now }
        ensures lent { (result.to ≡ to.entry) × (result.errors.ghost_name ≡ errors.entry.ghost_name) × (result.program ≡ program.entry) }
    {
        let output = start(rt, errors, program);
        Console {
            to,
            errors,
            program,
            output,
        }
    }

    pub fn is_open(&self) -> bool
        ensures { IsTrue result ↔ (self.now.output ≡ Output.Open) }
    {
        self.output == Output::Open
    }

    // Standard input. Each program asks for it by itself, after `is_open`: a call for both would hand back a part of the buffer or nothing, by
    // four clauses, in the place of two tests.
    pub fn read_input<R: io::Read>(
        &mut self,
        from: &mut R,
        into: &mut [u8],
    ) -> Result<usize, Unreadable>
        ensures taken { Taken result into.new }
        ensures consumed { Consumed result (R.remaining from.old) (R.remaining from.new) into.new }
        ensures told { InputTold result (E.contents self.old.errors.now) (E.contents self.new.errors.now) self.old.program.now }
        ensures kept { (self.new.to ≡ self.old.to) × (self.new.errors.ghost_name ≡ self.old.errors.ghost_name) × (self.new.program ≡ self.old.program) × (self.new.output ≡ self.old.output) }
    {
        read_input(from, self.errors, self.program, into)
    }

    pub fn say(&mut self, text: &[u8])
        ensures said { Said self.old.output self.new.output }
        ensures written { Written self.old.output self.new.output (W.contents self.old.to.now) (W.contents self.new.to.now) text.now }
        ensures kept { (self.new.to.ghost_name ≡ self.old.to.ghost_name) × (self.new.errors ≡ self.old.errors) × (self.new.program ≡ self.old.program) }
    {
        self.output = self.output.say(self.to, text);
    }

    pub fn number(&mut self, n: u64)
        ensures said { Said self.old.output self.new.output }
        ensures written { Written self.old.output self.new.output (W.contents self.old.to.now) (W.contents self.new.to.now) (decimal n) }
        ensures kept { (self.new.to.ghost_name ≡ self.old.to.ghost_name) × (self.new.errors ≡ self.old.errors) × (self.new.program ≡ self.old.program) }
    {
        self.output = self.output.number(self.to, n);
    }

    pub fn stop(&mut self, what: &[u8], which: &[u8])
        ensures state { self.new.output ≡ stopped self.old.output }
        ensures told { StopTold self.old.output (E.contents self.old.errors.now) (E.contents self.new.errors.now) (told_line self.old.program.now what.now which.now) }
        ensures kept { (self.new.to ≡ self.old.to) × (self.new.errors.ghost_name ≡ self.old.errors.ghost_name) × (self.new.program ≡ self.old.program) }
    {
        self.output = self.output.stop(self.errors, self.program, what, which);
    }

    pub fn end(&mut self)
        ensures state { self.new.output ≡ ended self.old.output }
        ensures told { EndTold self.old.output (E.contents self.old.errors.now) (E.contents self.new.errors.now) self.old.program.now }
        ensures kept { (self.new.to ≡ self.old.to) × (self.new.errors.ghost_name ≡ self.old.errors.ghost_name) × (self.new.program ≡ self.old.program) }
    {
        self.output = self.output.end(self.errors, self.program);
    }
}
