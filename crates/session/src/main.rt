// Reads a session from standard input, runs it on a fresh card and prints `bad N` alone or the four lines.
#![tactic(auto)]

ghost use Rattle.std.specs.Prelude.{◌≡◌};
ghost use Rattle.report.specs.Buffer.{Made};
ghost use Rattle.fresh_run.specs.FreshRun.{session_text};

use console::Console;
use file::Session;

// As `fresh_run::session_text`: here too, since "The opener's enum, holding fuses and step count as numbers, is taken apart by `let .. else`
// in the session program".
#[tactic(auto, using(fresh_run::proofs::SessionTexts::refused_text, fresh_run::proofs::SessionTexts::opened_text), unfolding(rules::specs::Numbers::numbered, rules::specs::Numbers::refused, file::specs::Opening::in_memory))]
fn answer(session: &[u8], out: &mut [u8]) -> Option<usize>
    ensures { Made (session_text session.now) out.old result out.new }
{
    let mut memory = [0u8; rules::BYTES];
    let opened = file::open_session(session, &mut memory);
    let Ok(Session { fuses, steps }) = opened else {
        return report::bad(opened.unwrap_err().number(), out);
    };
    let section = file::step_section(session, rules::BYTES);
    fresh_run::report(&mut memory, fuses, section, steps, out)
}

// A session has at most 181 + 4096 bytes, so one more tells a longer input. 4,202 bytes hold every text.
fn main(rt: HostRuntime) {
    let (mut to, mut errors) = (rt.stdout(), rt.stderr());
    let mut out = Console::start(&rt, &mut to, &mut errors, b"session");
    if !out.is_open() {
        return;
    }
    let mut input = [0u8; 4278];
    let Ok(n) = out.read_input(&mut rt.stdin(), &mut input) else {
        return;
    };
    let mut text = [0u8; 4202];
    if let Some(length) = answer(&input[..n], &mut text) {
        out.say(&text[..length]);
        out.end();
    }
}
