// A text line by line.
ghost use Rattle.std.specs.Prelude.{◌≡◌};
ghost use Rattle.text_lines.specs.Faults.{numbered};
ghost use Rattle.text_lines.specs.Orders.{line_order};
ghost use Rattle.text.specs.Sheet.{obeyed};
ghost use Rattle.text.specs.Meaning.{meaning};
ghost use Rattle.text.specs.Held.{sheet_of, outcome_of, reading_of};

use crate::Wrong;
use crate::sheet::Sheet;
use text_lines::faults::Fault;

#[tactic(auto, unfolding(crate::specs::Sheet::obeyed, crate::specs::Held::outcome_of, text_lines::specs::Faults::numbered))]
fn obey(sheet: &mut Sheet, line: &[u8]) -> Result<(), Fault>
    ensures { outcome_of (numbered result) sheet.new ≡ obeyed (line_order line.now) (sheet_of sheet.old) }
{
    sheet.follow(text_lines::line_order(line)?)
}

// The sheet that the lines come to, or the first wrong one.
pub(crate) fn read(text: &[u8]) -> Result<Sheet, Wrong>
    ensures { reading_of result ≡ meaning text.now }
{
    let mut sheet = Sheet::blank();
    for (k, line) in text.split(|b| *b == b'\n').enumerate() {
        if let Err(fault) = obey(&mut sheet, line) {
            return Err(Wrong { line: k + 1, fault });
        }
    }
    Ok(sheet)
}
