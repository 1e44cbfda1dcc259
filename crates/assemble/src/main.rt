// Reads a text from standard input and writes its session to standard output. Wrong text gets one line on standard error.
#![tactic(auto)]

use console::Console;
use std::io::Write;

// A text has at most 65,536 bytes, so one more tells a longer input. 84 bytes hold every line.
fn main(rt: HostRuntime) {
    let (mut to, mut errors) = (rt.stdout(), rt.stderr());
    let mut out = Console::start(&rt, &mut to, &mut errors, b"assemble");
    if !out.is_open() {
        return;
    }
    let mut source = [0u8; 65537];
    let Ok(n) = out.read_input(&mut rt.stdin(), &mut source) else {
        return;
    };
    let mut session = [0u8; 4277];
    match text::assemble(&source[..n], &mut session) {
        Ok(count) => {
            out.say(&session[..count]);
            out.end();
        }
        Err(wrong) => {
            let mut said = [0u8; 84];
            let fault = wrong.fault.number();
            if let Some(length) = text_errors::error_line(wrong.line, fault, &mut said) {
                let _ = out.errors.write_all(&said[..length]);
            }
        }
    }
}
