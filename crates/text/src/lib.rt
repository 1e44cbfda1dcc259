// A text as a session.
#![tactic(auto)]

ghost use Rattle.text.specs.Assembling.{Assembles, told};

use text_lines::faults::Fault;

mod reading;
mod session;
mod sheet;

// The first wrong line and its fault; line 0 where it is no line's, since an error's line tells that number.
#[derive(Clone, Copy, Debug, PartialEq, Eq)]
pub struct Wrong {
    pub line: usize,
    pub fault: Fault,
}

const LONGEST_TEXT: usize = 65536;

// The length of the session in `out`.
pub fn assemble(text: &[u8], out: &mut [u8]) -> Result<usize, Wrong>
    ensures { Assembles text.now out.old (told result) out.new }
{
    if LONGEST_TEXT < text.len() {
        return Err(Wrong {
            line: 0,
            fault: Fault::TooLong,
        });
    }
    let sheet = reading::read(text)?;
    if out.len() < rules::STEPS_AT + sheet.count {
        return Err(Wrong {
            line: 0,
            fault: Fault::NoRoom,
        });
    }
    Ok(session::write(&sheet, out))
}
