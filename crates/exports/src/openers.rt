// The openers of a card file and of a session.
ghost use Rattle.exports.specs.Told.{CardTold, SessionTold};

use file::{CardFile, Session};

// The result of opening a card file: the fuse byte, 0 where refused, and the refusal, 0 if none.
#[repr(C)]
#[derive(Clone, Copy)]
pub struct ZhavCard {
    pub fuses: u8,
    pub refusal: u8,
}

// The result of opening a session: where in the file the steps start, how many there are, the fuse byte, each 0 where refused, and the
// refusal, 0 if none.
#[repr(C)]
#[derive(Clone, Copy)]
pub struct ZhavSession {
    pub first: usize,
    pub steps: usize,
    pub fuses: u8,
    pub refusal: u8,
}

#[tactic(auto, unfolding(rules::specs::Numbers::numbered, rules::specs::Numbers::refused, file::specs::Opening::card_fuses, crate::specs::Rendered::card_file_of))]
#[unsafe(no_mangle)]
pub extern "C" fn zhav_open_card(file: &[u8], memory: &mut [u8]) -> ZhavCard
    ensures { CardTold file.now memory.old result memory.new }
{
    match file::open_card(file, memory) {
        Ok(CardFile { fuses }) => ZhavCard { fuses, refusal: 0 },
        Err(refusal) => ZhavCard {
            fuses: 0,
            refusal: refusal.number(),
        },
    }
}

#[tactic(auto, using(crate::proofs::Shown::section_shown, crate::proofs::Shown::no_section), unfolding(rules::specs::Numbers::numbered, rules::specs::Numbers::refused, file::specs::Opening::session_fuses, file::specs::Opening::session_steps, crate::specs::Rendered::steps_from, crate::specs::Rendered::session_of))]
#[unsafe(no_mangle)]
pub extern "C" fn zhav_open_session(file: &[u8], memory: &mut [u8]) -> ZhavSession
    ensures { SessionTold file.now memory.old result memory.new }
{
    match file::open_session(file, memory) {
        Ok(Session { fuses, steps }) => ZhavSession {
            first: rules::STEPS_AT,
            steps,
            fuses,
            refusal: 0,
        },
        Err(refusal) => ZhavSession {
            first: 0,
            steps: 0,
            fuses: 0,
            refusal: refusal.number(),
        },
    }
}
