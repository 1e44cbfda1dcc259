// The rows of a step.
use crate::table::Table;
use rules::Refusal;
use volatile::Volatile;

pub(crate) fn refusal(answer: Result<u8, Refusal>) -> u64 {
    rules::number_if_any(answer.err()) as u64
}

// Lines, address and flags; the step; the number of its refusal.
pub(crate) type Row = (u32, u32, u32, u8, u64);

fn row(t: &mut Table, row: Row) {
    let (lines, address, flags, n, expected) = row;
    let v = Volatile {
        lines,
        address,
        flags,
    };
    t.step(v, n);
    let mut memory = [255u8; 174];
    let stepped = card::step(&mut memory, 7, v, n);
    t.numbers(expected, refusal(stepped.answer));
}

pub(crate) fn steps(t: &mut Table, head: &[u8], rows: &[Row]) {
    t.head(head);
    for &r in rows {
        row(t, r);
    }
}
