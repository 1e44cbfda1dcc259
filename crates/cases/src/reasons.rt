// 02, W1: a state for each reason, and both neighbours of each border.
use crate::table::Table;
use rules::{Reason, Refusal};
use volatile::Volatile;

// Levels with CLK high: VCC 1, RST 2, CLK 4, PGM 8, FUS 32.
const ON: u32 = 5;

const RST: u32 = 2;

const PGM: u32 = 8;

const FUS: u32 = 32;

const SV: u32 = 1;

const P1: u32 = 2;

// Programming is under way: a write, and with the latch an erase.
const WRITE: u32 = 8;

const ERASE: u32 = 24;

const E1: u32 = 32;

// A refusal is told as 255.
fn number(told: Result<Reason, Refusal>) -> u64 {
    told.map_or(255, |reason| looks::number_of(reason) as u64)
}

fn why(t: &mut Table, fuses: u8, levels: u32, address: u32, flags: u32, expected: u64) {
    let v = Volatile {
        lines: levels,
        address,
        flags,
    };
    let got = number(looks::reason(&[255u8; 174], fuses, v));
    t.from(v);
    t.row(b", fuses ", fuses as u64, expected, got)
}

fn each(t: &mut Table) {
    t.head(b"The reason why CLK's fall would change nothing by right; 0, the right is there.");
    why(t, 7, 17, 178, SV + P1, 1);
    why(t, 7, ON, 1450, WRITE, 2);
    why(t, 7, ON + RST, 178, WRITE, 3);
    why(t, 7, ON, 0, WRITE, 4);
    why(t, 7, ON, 178, WRITE, 5);
    why(t, 7, ON, 178, SV + WRITE, 6);
    why(t, 7, ON, 1240, SV + ERASE, 7);
    why(t, 6, ON + FUS, 1376, SV + WRITE, 8);
    why(t, 3, ON, 1392, SV + WRITE, 9);
    why(t, 7, ON, 1392, SV + WRITE, 10);
    why(t, 7, ON, 178, SV + P1 + WRITE, 0);
    why(t, 7, ON + PGM, 178, SV + P1 + WRITE, 0)
}

fn key(t: &mut Table) {
    t.head(b"The erase in EC at level 2: 1233 with EC_EN unblown, 1232 and 1233 with it blown.");
    why(t, 7, ON, 1233, SV + E1 + ERASE, 0);
    why(t, 5, ON, 1232, SV + E1 + ERASE, 0);
    why(t, 5, ON, 1233, SV + E1 + ERASE, 4)
}

// A write at level 1 with SV, with RST low and high.
fn place(t: &mut Table, address: u32, low: u64, high: u64) {
    why(t, 7, ON + FUS, address, SV + WRITE, low);
    why(t, 7, ON + FUS + RST, address, SV + WRITE, high)
}

fn borders(t: &mut Table) {
    t.head(
        b"A write at level 1 with SV, RST low and high: the fuses, and where nothing is stored.",
    );
    place(t, 1407, 0, 3);
    place(t, 1408, 3, 0);
    place(t, 1423, 3, 0);
    place(t, 1424, 2, 2);
    place(t, 1480, 2, 2);
    place(t, 1481, 3, 0);
    place(t, 1482, 2, 2);
    place(t, 1503, 2, 2);
    place(t, 1504, 3, 0)
}

pub(crate) fn rows(t: &mut Table) {
    each(t);
    key(t);
    borders(t)
}
