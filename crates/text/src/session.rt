// A session's bytes: "Sections in fixed order, each after its count (two bytes, low first)".
ghost use Rattle.std.specs.Prelude.{◌+◌, ◌≤◌, length};
ghost use Rattle.rules.specs.File.{steps_at};
ghost use Rattle.text.specs.Meaning.{session, Written};
ghost use Rattle.text.specs.Held.{sheet_of};

use crate::sheet::Sheet;
use memory::lent::Filling;

// The image's bytes: the low byte of its count.
const BYTES: u8 = rules::BYTES as u8;

pub(crate) fn write(sheet: &Sheet, out: &mut [u8]) -> usize
    requires { steps_at + sheet.now.count ≤ length out.old }
    ensures { Written (session (sheet_of sheet.now)) out.old result out.new }
{
    let n = sheet.count;
    let mut to = Filling::of(out);
    to.put(&[BYTES, 0]);
    to.put(&sheet.image);
    // Two bytes, low first, among three others: in the definition's words.
    to.put(&[1, 0, sheet.fuses, (n % 256) as u8, (n / 256) as u8]);
    to.put(&sheet.steps[..n]);
    to.at
}
