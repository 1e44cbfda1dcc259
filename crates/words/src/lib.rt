// The words of a text, and what a word can stand for: a name of the tables, or a number.
#![tactic(auto)]

ghost use Rattle.std.specs.Prelude.{◌≡◌, ◌≤◌, ◌<◌, IfSome, bytes_eq, option_map};
ghost use Rattle.std.specs.List.{find};
ghost use Rattle.words.specs.Scan.{stops_at, ahead_of, up_to, from, first_word, after_word};
ghost use Rattle.words.specs.Numbers.{digit_in, digit_of, number_from, number_of};
ghost use Rattle.words.specs.Names.{row_in, row_of};

// What a scan stops at.
#[derive(Clone, Copy)]
pub enum Stop {
    LineEnd,
    Comment,
    Blank,
    Ink,
}

#[tactic(auto, unfolding(crate::specs::Scan::stops_at, crate::specs::Scan::blank))]
fn stops(stop: Stop, b: u8) -> bool
    ensures { result ≡ stops_at stop b }
{
    let blank = matches!(b, b' ' | b'\t' | b'\r');
    match stop {
        Stop::LineEnd => b == b'\n',
        Stop::Comment => b == b'#',
        Stop::Blank => blank,
        Stop::Ink => !blank,
    }
}

// How many bytes stand before the first at which the scan stops.
pub fn ahead(stop: Stop, s: &[u8]) -> usize
    ensures { result ≡ ahead_of stop s.now }
{
    s.iter().position(|b| stops(stop, *b)).unwrap_or(s.len())
}

// These bytes.
#[tactic(auto, unfolding(crate::specs::Scan::up_to))]
pub fn up_to(stop: Stop, s: &[u8]) -> &[u8]
    ensures { result.now ≡ up_to stop s.now }
{
    let end = ahead(stop, s);
    &s[..end]
}

// All after them.
#[tactic(auto, using(crate::proofs::Scans::ahead_le), unfolding(crate::specs::Scan::from))]
pub fn beyond(stop: Stop, s: &[u8]) -> &[u8]
    ensures { result.now ≡ from stop s.now }
{
    let start = ahead(stop, s);
    &s[start..]
}

// The first word, empty where there is none.
#[tactic(auto, unfolding(crate::specs::Scan::first_word))]
pub fn first_word(s: &[u8]) -> &[u8]
    ensures { result.now ≡ first_word s.now }
{
    up_to(Stop::Blank, beyond(Stop::Ink, s))
}

// What stands after the first word.
#[tactic(auto, unfolding(crate::specs::Scan::after_word))]
pub fn after_word(s: &[u8]) -> &[u8]
    ensures { result.now ≡ after_word s.now }
{
    beyond(Stop::Blank, beyond(Stop::Ink, s))
}

// The value of a digit, hex or decimal.
#[tactic(auto, unfolding(crate::specs::Numbers::digit_in, crate::specs::Numbers::digit_of))]
fn digit(b: u8) -> Option<u8>
    ensures value { digit_in result ≡ digit_of b }
    ensures bound { IfSome result (λ d. d < 16) }
{
    match b {
        b'0'..=b'9' => Some(b - b'0'),
        b'A'..=b'F' => Some(b - b'A' + 10),
        b'a'..=b'f' => Some(b - b'a' + 10),
        _ => None,
    }
}

// Whatever is below it stays in range with one digit more.
const LIMIT: u64 = 0x1000_0000_0000_0000;

fn numeral_from(base: u64, w: &[u8]) -> Option<u64>
    requires { base ≤ 16 }
    ensures { result ≡ number_from base 0 w.now }
{
    let mut value: u64 = 0;
    for b in w {
        let d = digit(*b)? as u64;
        if base <= d || LIMIT <= value {
            return None;
        }
        value = value * base + d;
    }
    Some(value)
}

// The number that a word writes in hex or decimal digits.
pub fn numeral(hex: bool, w: &[u8]) -> Option<u64>
    ensures { result ≡ number_of hex w.now }
{
    if w.is_empty() {
        return None;
    }
    numeral_from(if hex { 16 } else { 10 }, w)
}

// A word that starts a line.
#[derive(Clone, Copy, Debug, PartialEq, Eq)]
pub enum Verb {
    Reset,
    Write,
    Erase,
    Blow,
    Power,
    Fus,
    Image,
    Cut,
    Walk,
    Lines,
    Fuses,
    Show,
    Open,
    Byte,
    Zone,
}

// A word that says to which of two values.
#[derive(Clone, Copy, Debug, PartialEq, Eq)]
pub enum Level {
    On,
    Off,
    High,
    Low,
    Ones,
    Zeros,
}

// The zones of the data sheet that a text may name: ten of the fifteen of `rules`, which nothing here stands on.
#[derive(Clone, Copy, Debug, PartialEq, Eq)]
pub enum Zone {
    FZ,
    IZ,
    SC,
    SCAC,
    CPZ,
    AZ,
    EZ,
    EC,
    MTZ,
    MFZ,
}

// What a word may be.
#[derive(Clone, Copy, Debug, PartialEq, Eq)]
pub enum Name {
    Verb(Verb),
    Level(Level),
    Zone(Zone),
}

// The names by their lengths, so that a word is held against few of them: a long text looks up one or two a line.
const OF_TWO: [(&str, Name); 7] = [
    ("on", Name::Level(Level::On)),
    ("FZ", Name::Zone(Zone::FZ)),
    ("IZ", Name::Zone(Zone::IZ)),
    ("SC", Name::Zone(Zone::SC)),
    ("AZ", Name::Zone(Zone::AZ)),
    ("EZ", Name::Zone(Zone::EZ)),
    ("EC", Name::Zone(Zone::EC)),
];

const OF_THREE: [(&str, Name); 7] = [
    ("fus", Name::Verb(Verb::Fus)),
    ("cut", Name::Verb(Verb::Cut)),
    ("off", Name::Level(Level::Off)),
    ("low", Name::Level(Level::Low)),
    ("CPZ", Name::Zone(Zone::CPZ)),
    ("MTZ", Name::Zone(Zone::MTZ)),
    ("MFZ", Name::Zone(Zone::MFZ)),
];

const OF_FOUR: [(&str, Name); 9] = [
    ("blow", Name::Verb(Verb::Blow)),
    ("walk", Name::Verb(Verb::Walk)),
    ("show", Name::Verb(Verb::Show)),
    ("open", Name::Verb(Verb::Open)),
    ("byte", Name::Verb(Verb::Byte)),
    ("zone", Name::Verb(Verb::Zone)),
    ("high", Name::Level(Level::High)),
    ("ones", Name::Level(Level::Ones)),
    ("SCAC", Name::Zone(Zone::SCAC)),
];

const OF_FIVE: [(&str, Name); 8] = [
    ("reset", Name::Verb(Verb::Reset)),
    ("write", Name::Verb(Verb::Write)),
    ("erase", Name::Verb(Verb::Erase)),
    ("power", Name::Verb(Verb::Power)),
    ("image", Name::Verb(Verb::Image)),
    ("lines", Name::Verb(Verb::Lines)),
    ("fuses", Name::Verb(Verb::Fuses)),
    ("zeros", Name::Level(Level::Zeros)),
];

// The name that a word is among these. Where the table is known, its rows become compares with constants.
#[inline(always)]
fn name_in(names: &[(&str, Name)], w: &[u8]) -> Option<Name>
    ensures { result ≡ option_map (λ p. p.1) (find (λ p. bytes_eq p.0.now w.now) names.now) }
{
    names
        .iter()
        .find(|(text, _)| text.as_bytes() == w)
        .map(|(_, name)| *name)
}

// The name that a word is, if it is one. A `match` on the bytes would leave a goal for each byte of each name.
pub fn name_of(w: &[u8]) -> Option<Name>
    ensures { row_in result ≡ row_of w.now }
{
    match w.len() {
        2 => name_in(&OF_TWO, w),
        3 => name_in(&OF_THREE, w),
        4 => name_in(&OF_FOUR, w),
        5 => name_in(&OF_FIVE, w),
        _ => None,
    }
}
