// A card's lines and flags in words.
use console::Standard;
use memory::is_set;
use volatile::Volatile;

const LINES: [(u32, &[u8]); 6] = [
    (0, b" VCC"),
    (1, b" RST"),
    (2, b" CLK"),
    (3, b" PGM"),
    (4, b" I/O"),
    (5, b" FUS"),
];

const FLAGS: [(u32, &[u8]); 7] = [
    (volatile::SV, b" SV"),
    (volatile::P1, b" P1"),
    (volatile::R1, b" R1"),
    (volatile::E1, b" E1"),
    (volatile::MATCH, b" match"),
    (volatile::LATCH, b" latch"),
    (volatile::PROGRAMMING, b" programming"),
];

// The names of the bits that are set.
fn named(out: &mut Standard, held: u32, names: &[(u32, &[u8])]) {
    for &(bit, name) in names {
        if is_set(held, bit) {
            out.say(name);
        }
    }
}

// The levels as a number, and the lines that are high.
pub(crate) fn lines(out: &mut Standard, levels: u32) {
    out.number(levels as u64);
    named(out, levels, &LINES);
}

fn flags(out: &mut Standard, held: u32) {
    named(out, held, &FLAGS);
    if 127 < held {
        out.say(b" no card's flag");
    }
}

pub(crate) fn half(out: &mut Standard, v: Volatile) {
    lines(out, v.lines);
    out.say(b" at ");
    out.number(v.address as u64);
    flags(out, v.flags);
}
