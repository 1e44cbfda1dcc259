// Runs recorded sessions from standard input and holds each text to the one that an independent model gave. A record is the session and the
// text, each after its length, two bytes, low first. The counts are printed only of an input that is whole records to its end.
#![tactic(auto)]

ghost use Rattle.std.specs.Prelude.{◌≡◌, ◌≤◌, length, IfOk, IfSome};

use console::{Console, Standard, Unreadable};
use memory::lent::Filling;
use std::io;

const MOST: usize = 10000;

// What is wrong with a record.
#[derive(Clone, Copy)]
enum Fault {
    Unreadable,
    Cut,
    TooLong,
    NoText,
}

impl From<Unreadable> for Fault {
    fn from(_unreadable: Unreadable) -> Fault {
        Fault::Unreadable
    }
}

// A part of a record, whose length has come.
fn body<'a, R: io::Read>(from: &mut R, n: usize, buffer: &'a mut [u8]) -> Result<&'a [u8], Fault>
    ensures { IfOk result (λ part. (length part.now ≡ n) × (n ≤ length buffer.old)) }
{
    if buffer.len() < n {
        return Err(Fault::TooLong);
    }
    let part = &mut buffer[..n];
    let came = console::read_full(from, part)?;
    if came < n {
        return Err(Fault::Cut);
    }
    Ok(part)
}

// The next part of a record, or none where the input ends before its length.
fn next_part<'a, R: io::Read>(from: &mut R, buffer: &'a mut [u8]) -> Result<Option<&'a [u8]>, Fault>
    ensures { IfOk result (λ next. IfSome next (λ part. length part.now ≤ length buffer.old)) }
{
    let mut length = [0u8; 2];
    match console::read_full(from, &mut length)? {
        0 => Ok(None),
        1 => Err(Fault::Cut),
        _ => Ok(Some(body(from, u16::from_le_bytes(length) as usize, buffer)?)),
    }
}

// Whether the session program prints this text of it.
fn as_recorded(session: &[u8], text: &[u8]) -> bool {
    let mut out = [0u8; 4202];
    let Some(n) = fresh_run::session_text(session, &mut out) else {
        return false;
    };
    &out[..n] == text
}

// Whether the next part is the text of the session.
fn against<R: io::Read>(from: &mut R, session: &[u8]) -> Result<bool, Fault> {
    let mut buffer = [0u8; 4202];
    let text = next_part(from, &mut buffer)?.ok_or(Fault::Cut)?;
    if text.is_empty() {
        return Err(Fault::NoText);
    }
    Ok(as_recorded(session, text))
}

// Whether the next record is as the session program has it, or none where no record is left. A session that is recorded damaged may be a
// little longer than the longest.
fn next_record<R: io::Read>(from: &mut R) -> Result<Option<bool>, Fault> {
    let mut buffer = [0u8; 4352];
    match next_part(from, &mut buffer)? {
        None => Ok(None),
        Some(session) => Ok(Some(against(from, session)?)),
    }
}

fn stop(out: &mut Standard, fault: Fault, nth: usize) {
    let mut digits = [0u8; 20];
    let mut to = Filling::of(&mut digits);
    decimal::put_decimal(&mut to, nth);
    let nth = to.so_far();
    match fault {
        Fault::Unreadable => out.stop(b"standard input cannot be read", b""),
        Fault::Cut => out.stop(b"the input ends in record ", nth),
        Fault::TooLong => out.stop(b"a part is too long in record ", nth),
        Fault::NoText => out.stop(b"no text in record ", nth),
    }
}

fn counts(out: &mut Standard, same: usize, other: usize) {
    if same == 0 && other == 0 {
        return out.stop(b"no record", b"");
    }
    out.number(same as u64);
    out.say(b" sessions as recorded\n");
    out.number(other as u64);
    out.say(b" otherwise\n");
}

fn records<R: io::Read>(from: &mut R, out: &mut Standard) {
    let mut same = 0;
    let mut other = 0;
    for nth in 1..=MOST + 1 {
        match next_record(from) {
            Ok(None) => return counts(out, same, other),
            Ok(Some(true)) => same += 1,
            Ok(Some(false)) => {
                other += 1;
                out.number(nth as u64);
                out.say(b" is not as recorded\n");
            }
            Err(fault) => return stop(out, fault, nth),
        }
    }
    out.stop(b"more than 10,000 records", b"");
}

fn main(rt: HostRuntime) {
    let (mut to, mut errors) = (rt.stdout(), rt.stderr());
    let mut out = Console::start(&rt, &mut to, &mut errors, b"replay");
    if out.is_open() {
        records(&mut rt.stdin(), &mut out);
        out.end();
    }
}
