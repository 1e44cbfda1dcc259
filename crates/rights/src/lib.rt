// What an access in a zone asks for, and what an operation does there.
#![tactic(auto)]

ghost use Rattle.std.specs.Prelude.{◌≡◌, ◌-◌, ◌<◌, get_or};
ghost use Rattle.rules.specs.Zones.{row, is_fuse, is_gap};
ghost use Rattle.rules.specs.Programming.{asks, effect};
ghost use Rattle.rules.specs.Rights.{others, right, no, rights};

use rules::{Operation, Right, Zone};

// What a right may ask for: all that a mask holds must be there.
const YES: u8 = 0;

const NO: u8 = 1;

const SV: u8 = 2;

const P1: u8 = 4;

const E1: u8 = 8;

const MF: u8 = 16;

const ISS: u8 = 32;

const FUS: u8 = 64;

const SV_OR_R1: u8 = 128;

// The sums of the rows apart from the table.
const ISS_FUS: u8 = ISS + FUS;

const SV_ISS: u8 = SV + ISS;

const SV_ISS_FUS: u8 = SV + ISS + FUS;

// Read, write, erase: two levels by ten zones, level 1 and level 2, each FZ, IZ, SC, SCAC, CPZ, AZ, EZ, EC, MTZ, MFZ.
const RIGHTS: [[[u8; 3]; 10]; 2] = [
    [
        [YES, NO, NO],
        [YES, SV, SV],
        [SV, SV, SV],
        [YES, YES, SV],
        [YES, SV, SV],
        [SV_OR_R1, SV, SV],
        [SV, SV, SV],
        [YES, YES, SV],
        [YES, YES, YES],
        [YES, SV + MF, SV + MF],
    ],
    [
        [YES, NO, NO],
        [YES, NO, NO],
        [NO, SV, SV],
        [YES, YES, SV],
        [YES, SV, SV],
        [SV_OR_R1, SV + P1, NO],
        [NO, NO, NO],
        [YES, YES, SV + E1],
        [YES, YES, YES],
        [YES, NO, NO],
    ],
];

// The fuses' words, which are programmed with RST high.
#[tactic(auto, unfolding(rules::specs::Zones::is_fuse, rules::specs::Zones::between))]
pub fn is_fuse(z: Zone) -> bool
    ensures { result ≡ is_fuse z }
{
    matches!(z, Zone::FuseMF | Zone::FuseECEN | Zone::FuseISS)
}

// Where nothing is stored.
#[tactic(auto, unfolding(rules::specs::Zones::is_gap))]
pub fn is_gap(z: Zone) -> bool
    ensures { result ≡ is_gap z }
{
    matches!(z, Zone::Gap)
}

// What the operation does at its place; in a gap nothing.
#[tactic(auto, unfolding(rules::specs::Programming::effect, rules::specs::Programming::effect_apart))]
pub fn effect_of(l1: bool, latch: bool, z: Zone) -> Operation
    ensures { result ≡ effect l1 latch z }
{
    match z {
        Zone::Block if latch => Operation::EraseBlock,
        Zone::Block => Operation::WriteBlock,
        Zone::FuseMF => Operation::BlowMF,
        Zone::FuseECEN => Operation::BlowECEN,
        Zone::FuseISS => Operation::BlowISS,
        Zone::Gap => Operation::Nothing,
        _ if !latch => Operation::WriteBit,
        Zone::EC if !l1 => Operation::EraseZone,
        _ => Operation::EraseWord,
    }
}

// What reading, writing and erasing ask for at the block word, at the fuses and in a gap.
#[tactic(auto, unfolding(rules::specs::Rights::others))]
fn right_apart(z: Zone) -> Right
    requires { 9 < row z }
    ensures { result ≡ get_or others (row z - 10) (right no no no) }
{
    let (write, erase) = match z {
        Zone::Block => (SV_ISS_FUS, SV_ISS_FUS),
        Zone::FuseMF | Zone::FuseISS => (SV_ISS, NO),
        Zone::FuseECEN => (ISS_FUS, NO),
        _ => (NO, NO),
    };
    Right {
        read: NO,
        write,
        erase,
    }
}

// What reading, writing and erasing ask for in a zone.
#[tactic(auto, unfolding(rules::specs::Rights::rights))]
pub fn right_of(l1: bool, z: Zone) -> Right
    ensures { result ≡ rights l1 z }
{
    let row = z as usize;
    if row > Zone::MFZ as usize {
        return right_apart(z);
    }
    // A constant is built on the stack at each use; taken so, only one level of it is.
    let [level1, level2] = RIGHTS;
    let level = if l1 { level1 } else { level2 };
    let [read, write, erase] = level[row];
    Right { read, write, erase }
}

// What an operation asks for: a latched 1 erases, a 0 writes. The erase in EC at level 2 with EC_EN blown is only at 1232.
#[tactic(auto, unfolding(rules::specs::Programming::asks, rules::specs::Programming::barred))]
pub fn asks_of(l1: bool, ec_en: bool, latch: bool, a: u32, z: Zone) -> u8
    ensures { result ≡ asks l1 ec_en latch a z }
{
    let right = right_of(l1, z);
    if !latch {
        return right.write;
    }
    match z {
        Zone::EC if !l1 & (!ec_en & (a != 1232)) => NO,
        _ => right.erase,
    }
}
