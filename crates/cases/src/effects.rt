// What steps leave behind: the memory and the volatile half.
use crate::table::Table;
use memory::is_set;
use volatile::Volatile;

const SV: u32 = 1;

const P1: u32 = 2;

const R1: u32 = 4;

const PROGRAMMING: u32 = 8;

const LATCH: u32 = 16;

const MATCH: u32 = 64;

fn at(levels: u32, address: u32, flags: u32) -> Volatile {
    Volatile {
        lines: levels,
        address,
        flags,
    }
}

// The steps of a card at v, whose bytes are all alike: none is refused, and this is the volatile half after them, and byte i.
fn run(t: &mut Table, fill: u8, v: Volatile, steps: &[u8], after: Volatile, i: usize, byte: u64) {
    let mut memory = [fill; 174];
    let mut answers = [0u8; 8];
    let ran = card::run(&mut memory, 7, v, steps, &mut answers);
    t.from(v);
    t.numbers(0, rules::number_if_any(ran.refusal) as u64);
    t.half(after, ran.volatile);
    t.row(b"  byte ", i as u64, byte, memory[i % 174] as u64)
}

// A memory of ones, which the steps leave as it is.
fn kept(t: &mut Table, v: Volatile, steps: &[u8], after: Volatile) {
    run(t, 255, v, steps, after, 12, 255)
}

fn clock(t: &mut Table) {
    t.head(b"Address 1519, clock: 0. From 1518: 1519.");
    kept(t, at(17, 1518, 0), &[21, 17], at(17, 1519, 0));
    kept(t, at(17, 1519, 0), &[21, 17], at(17, 0, 0))
}

fn lines_alone(t: &mut Table) {
    t.head(b"A step with no difference is accepted and changes nothing.");
    let v = at(29, 96, SV + MATCH + LATCH + PROGRAMMING);
    kept(t, v, &[29], v);
    t.head(b"Without VCC the lines only follow: CLK up, RST up and down, PGM up, CLK down.");
    kept(t, at(0, 0, 0), &[4, 6, 4, 12, 8], at(8, 0, 0))
}

fn power_lost(t: &mut Table) {
    t.head(b"VCC falls in programming, a write at 96: memory unchanged, flags gone.");
    kept(t, at(5, 96, MATCH + PROGRAMMING), &[4], at(4, 0, 0))
}

// A write or an erase. The volatile half stays.
fn program(t: &mut Table, erases: bool, v: Volatile, fill: u8, i: usize, byte: u64) {
    let mut steps = [0u8; 6];
    let _ = maker::program(is_set(v.lines, volatile::FUS), erases, &mut steps);
    run(t, fill, v, &steps, v, i, byte)
}

fn without_sv(t: &mut Table) {
    t.head(b"SV 0: MTZ erases, CPZ doesn't.");
    program(t, true, at(17, 1360, 0), 0, 170, 255);
    program(t, true, at(17, 112, 0), 0, 14, 0)
}

fn standing(t: &mut Table) {
    t.head(b"Erase standing on 176, on 177: ones, and no P1, no R1.");
    program(t, true, at(49, 176, SV), 0, 22, 255);
    program(t, true, at(49, 177, SV), 0, 22, 255);
    t.head(b"Write standing on 176, on 177: the bit is 0, and P1, R1 stay.");
    program(t, false, at(49, 176, SV + P1), 255, 22, 127);
    program(t, false, at(49, 177, SV + R1), 255, 22, 191)
}

pub(crate) fn rows(t: &mut Table) {
    clock(t);
    without_sv(t);
    lines_alone(t);
    power_lost(t);
    standing(t)
}
