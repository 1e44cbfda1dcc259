// The sessions to learn from: what each shows, that its text assembles to the recorded bytes, and its four lines.
// Then each error of a text.
#![tactic(auto)]

ghost use Rattle.std.specs.Prelude.{◌≤◌, length, IfOk};

use console::{Console, Standard, Unreadable};
use std::fs;
use std::rt::Files;
use words::Stop;

// Each lesson's text, and its session.
const LESSONS: [(&str, &str); 10] = [
    ("case_s.txt", "case_s.session"),
    ("right_open.txt", "right_open.session"),
    ("wrong_open.txt", "wrong_open.session"),
    ("issue.txt", "issue.session"),
    ("recharge.txt", "recharge.session"),
    ("recharge_free.txt", "recharge_free.session"),
    ("r1_p1.txt", "r1_p1.session"),
    ("refused.txt", "refused.session"),
    ("cut.txt", "cut.session"),
    ("nothing_written.txt", "nothing_written.session"),
];

const WRONG: [&[u8]; 9] = [
    b"power on\nrun\n",
    b"power on\nwalk\n",
    b"zone SC A5C3F0\n",
    b"power on\n\nzone SC A5C3 # late\n",
    b"reset\n",
    b"power on\nwalk 1520\n",
    b"power on\r\nwalk 1519\r\nwalk 528\r\nreset\r\n",
    b"zone SCAC 00FF\npower on\nopen A5C3\n",
    &[10u8; 65537],
];

fn read<'a, F: Files>(files: &F, path: &str, into: &'a mut [u8]) -> Result<&'a [u8], Unreadable>
    ensures { IfOk result (λ part. length part.now ≤ length into.old) }
{
    let mut file = fs::open(files, path)?;
    let n = console::read_full(&mut file, into)?;
    Ok(&into[..n])
}

fn tell(out: &mut Standard, source: &[u8], recorded: &[u8]) {
    let mut session = [0u8; 4277];
    match text::assemble(source, &mut session) {
        Ok(n) => {
            out.number(n as u64);
            if &session[..n] == recorded {
                out.say(b" bytes, as recorded\n")
            } else {
                out.say(b" bytes, not as recorded\n")
            }
        }
        Err(wrong) => {
            let mut said = [0u8; 84];
            // As `assemble` tells it, among what else is said here.
            let fault = wrong.fault.number();
            if let Some(n) = text_errors::error_line(wrong.line, fault, &mut said) {
                out.say(&said[..n])
            }
        }
    }
}

// What the text's first line says that it shows, and what the session program prints of it.
fn taught(out: &mut Standard, name: &[u8], source: &[u8], recorded: &[u8]) {
    out.say(words::up_to(Stop::LineEnd, source));
    out.say(b"\n");
    out.say(name);
    out.say(b": ");
    tell(out, source, recorded);
    let mut text = [0u8; 4202];
    if let Some(n) = fresh_run::session_text(recorded, &mut text) {
        out.say(&text[..n]);
    }
    out.say(b"\n");
}

// Each buffer has a byte more than the longest text, or session, so that no longer file is taken for its beginning.
fn lesson<F: Files>(files: &F, out: &mut Standard, text: &str, session: &str) {
    let mut source = [0u8; 65537];
    let Ok(source) = read(files, text, &mut source) else {
        return out.stop(b"cannot read ", text.as_bytes());
    };
    let mut recorded = [0u8; 4278];
    let Ok(recorded) = read(files, session, &mut recorded) else {
        return out.stop(b"cannot read ", session.as_bytes());
    };
    taught(out, text.as_bytes(), source, recorded)
}

fn main(rt: HostRuntime) {
    let (mut to, mut errors) = (rt.stdout(), rt.stderr());
    let mut out = Console::start(&rt, &mut to, &mut errors, b"lessons");
    for (text, session) in LESSONS {
        lesson(&rt, &mut out, text, session);
    }
    // A text that is wrong has no session.
    for source in WRONG {
        tell(&mut out, source, b"");
    }
    out.end();
}
