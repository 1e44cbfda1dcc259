// Where an address lies: a constant for each of the 95 words of 16 addresses.
#![tactic(auto)]

ghost use Rattle.std.specs.Prelude.{◌*◌, ◌≡◌};
ghost use Rattle.rules.specs.Zones.{zone};

use rules::Zone;

// The zone of a word's first address. An arm for each word: so the constants stand in read-only data, as no array's would.
#[tactic(auto, using(crate::proofs::Words::of_arm), unfolding(rules::specs::Zones::zone, rules::specs::Zones::between))]
fn of_word(word: u32) -> Zone
    ensures { result ≡ zone (16 * word) }
{
    match word {
        0 => Zone::FZ,
        1 => Zone::IZ,
        2 => Zone::IZ,
        3 => Zone::IZ,
        4 => Zone::IZ,
        5 => Zone::SC,
        6 => Zone::SCAC,
        7 => Zone::CPZ,
        8 => Zone::CPZ,
        9 => Zone::CPZ,
        10 => Zone::CPZ,
        11 => Zone::AZ,
        12 => Zone::AZ,
        13 => Zone::AZ,
        14 => Zone::AZ,
        15 => Zone::AZ,
        16 => Zone::AZ,
        17 => Zone::AZ,
        18 => Zone::AZ,
        19 => Zone::AZ,
        20 => Zone::AZ,
        21 => Zone::AZ,
        22 => Zone::AZ,
        23 => Zone::AZ,
        24 => Zone::AZ,
        25 => Zone::AZ,
        26 => Zone::AZ,
        27 => Zone::AZ,
        28 => Zone::AZ,
        29 => Zone::AZ,
        30 => Zone::AZ,
        31 => Zone::AZ,
        32 => Zone::AZ,
        33 => Zone::AZ,
        34 => Zone::AZ,
        35 => Zone::AZ,
        36 => Zone::AZ,
        37 => Zone::AZ,
        38 => Zone::AZ,
        39 => Zone::AZ,
        40 => Zone::AZ,
        41 => Zone::AZ,
        42 => Zone::AZ,
        43 => Zone::AZ,
        44 => Zone::AZ,
        45 => Zone::AZ,
        46 => Zone::AZ,
        47 => Zone::AZ,
        48 => Zone::AZ,
        49 => Zone::AZ,
        50 => Zone::AZ,
        51 => Zone::AZ,
        52 => Zone::AZ,
        53 => Zone::AZ,
        54 => Zone::AZ,
        55 => Zone::AZ,
        56 => Zone::AZ,
        57 => Zone::AZ,
        58 => Zone::AZ,
        59 => Zone::AZ,
        60 => Zone::AZ,
        61 => Zone::AZ,
        62 => Zone::AZ,
        63 => Zone::AZ,
        64 => Zone::AZ,
        65 => Zone::AZ,
        66 => Zone::AZ,
        67 => Zone::AZ,
        68 => Zone::AZ,
        69 => Zone::AZ,
        70 => Zone::AZ,
        71 => Zone::AZ,
        72 => Zone::AZ,
        73 => Zone::AZ,
        74 => Zone::AZ,
        75 => Zone::EZ,
        76 => Zone::EZ,
        77 => Zone::EC,
        78 => Zone::EC,
        79 => Zone::EC,
        80 => Zone::EC,
        81 => Zone::EC,
        82 => Zone::EC,
        83 => Zone::EC,
        84 => Zone::EC,
        85 => Zone::MTZ,
        86 => Zone::MFZ,
        87 => Zone::Block,
        88 => Zone::FuseMF,
        89 => Zone::Gap,
        90 => Zone::Gap,
        91 => Zone::Gap,
        92 => Zone::Gap,
        93 => Zone::Gap,
        94 => Zone::FuseISS,
        _ => Zone::Gap,
    }
}

// The zone of an address is its word's. 02, W5: "Only the word of 1481 is mixed, so that one bit keeps its test."
#[tactic(auto, using(crate::proofs::Words::by_word), unfolding(rules::specs::Zones::zone, rules::specs::Zones::between))]
pub fn zone_of(a: u32) -> Zone
    ensures { result ≡ zone a }
{
    if a == 1481 {
        return Zone::FuseECEN;
    }
    of_word(a / 16)
}
