// The openers of a card file and of a session: "Opening answers either the parts or a number."
#![tactic(auto)]

ghost use Rattle.std.specs.Prelude.{◌+◌, ◌≤◌, ◌≡◌, length};
ghost use Rattle.memory.specs.Image.{bytes};
ghost use Rattle.rules.specs.Numbers.{numbered};
ghost use Rattle.rules.specs.File.{memory_section};
ghost use Rattle.file.specs.Opening.{CardOpened, SessionOpened, Handed};

use file_refusals::{card_refusal, session_refusal};
use rules::Refusal;

// What a card file holds beside the memory.
#[derive(Clone, Copy, Debug, PartialEq, Eq)]
pub struct CardFile {
    pub fuses: u8,
}

// What a session holds beside the memory: how many steps there are, which `step_section` hands back.
#[derive(Clone, Copy, Debug, PartialEq, Eq)]
pub struct Session {
    pub fuses: u8,
    pub steps: usize,
}

// The memory section, into a buffer of its length.
#[tactic(auto, unfolding(rules::specs::File::memory_section))]
fn copy_memory(file: &[u8], memory: &mut [u8])
    requires memory_len { length memory.old ≡ bytes }
    requires bytes_in_bounds { 2 + bytes ≤ length file.now }
    ensures { memory.new ≡ memory_section file.now }
{
    memory::put(memory, 0, &file[rules::MEMORY_AT..rules::FUSE_COUNT_AT]);
}

#[tactic(auto, using(file_refusals::proofs::Refusals::whole_card), unfolding(rules::specs::Numbers::numbered, rules::specs::Numbers::number_in, rules::specs::Numbers::refused, crate::specs::Opening::card_answer, crate::specs::Opening::in_memory))]
pub fn open_card(file: &[u8], memory: &mut [u8]) -> Result<CardFile, Refusal>
    ensures { CardOpened file.now memory.old (numbered result) memory.new }
{
    card_refusal(file, memory.len())?;
    copy_memory(file, memory);
    Ok(CardFile {
        fuses: file[rules::FUSES_AT],
    })
}

// 17 lets pass only a session that ends with its last step: its length tells their count.
#[tactic(auto, using(file_refusals::proofs::Refusals::whole_session), unfolding(rules::specs::Numbers::numbered, rules::specs::Numbers::number_in, rules::specs::Numbers::refused, crate::specs::Opening::session_answer, crate::specs::Opening::in_memory))]
pub fn open_session(file: &[u8], memory: &mut [u8]) -> Result<Session, Refusal>
    ensures { SessionOpened file.now memory.old (numbered result) memory.new }
{
    session_refusal(file, memory.len())?;
    copy_memory(file, memory);
    Ok(Session {
        fuses: file[rules::FUSES_AT],
        steps: file.len() - rules::STEPS_AT,
    })
}

// The step section as that part of the lent session. `room` is the length of the memory buffer that the session is opened into: 10 is
// about it.
#[tactic(auto, using(file_refusals::proofs::Refusals::whole_session), unfolding(rules::specs::Numbers::number_in, crate::specs::Opening::handed_steps, crate::specs::Opening::handed_from))]
pub fn step_section(file: &[u8], room: usize) -> &[u8]
    ensures { Handed file.entry room result }
{
    if session_refusal(file, room).is_err() {
        return &file[..0];
    }
    &file[rules::STEPS_AT..]
}
