// A run on a fresh card, told in the session program's four lines, and what a session's bytes come to.
#![tactic(auto)]

ghost use Rattle.std.specs.Prelude.{◌≡◌, length};
ghost use Rattle.report.specs.Buffer.{Made, Enough};
ghost use Rattle.fresh_run.specs.FreshRun.{fresh_card_run, run_text, session_text, enough};

use file::Session;
use report::Run;
use volatile::Volatile;

// The memory is left as the run leaves it. Of the steps `given` were announced; 4,202 bytes hold every such text.
pub fn report(
    memory: &mut [u8],
    fuses: u8,
    steps: &[u8],
    given: usize,
    out: &mut [u8],
) -> Option<usize>
    ensures text { Made (run_text memory.old fuses steps.now given) out.old result out.new }
    ensures memory { memory.new ≡ (fresh_card_run memory.old fuses steps.now).card.memory }
    ensures enough { Enough enough (length out.old) result }
{
    let mut answers = [0u8; rules::LONGEST];
    let ran = card::run(memory, fuses, Volatile::fresh(), steps, &mut answers);
    let left = looks::tries_left(memory);
    let told = Run {
        done: ran.done,
        given,
        refusal: rules::number_if_any(ran.refusal),
        answers: &answers,
        left,
    };
    told.four_lines(out)
}

// What the session program prints of these bytes: `bad N` or the four lines.
#[tactic(auto, using(crate::proofs::SessionTexts::refused_text, crate::proofs::SessionTexts::opened_text), unfolding(rules::specs::Numbers::numbered, rules::specs::Numbers::refused, file::specs::Opening::in_memory))]
pub fn session_text(session: &[u8], out: &mut [u8]) -> Option<usize>
    ensures text { Made (session_text session.now) out.old result out.new }
{
    let mut memory = [0u8; rules::BYTES];
    match file::open_session(session, &mut memory) {
        Err(refusal) => report::bad(refusal.number(), out),
        Ok(Session { fuses, steps }) => {
            let section = file::step_section(session, rules::BYTES);
            report(&mut memory, fuses, section, steps, out)
        }
    }
}
