// A line of text as what it orders: a change of the image, or an act of the reader.
#![tactic(auto)]

ghost use Rattle.std.specs.Prelude.{◌≡◌, get_or};
ghost use Rattle.words.specs.Names.{verb_row, zone_row, row, row_of, row_in};
ghost use Rattle.text_lines.specs.Faults.{numbered};
ghost use Rattle.text_lines.specs.Orders.{word_count, words_of, either as either_of};
ghost use Rattle.text_lines.specs.Orders.{walk_order, limited, lines_order, fuses_order, show_order, open_order};
ghost use Rattle.text_lines.specs.Orders.{firsts, sizes, bytes_order, byte_order, zone_order, order_of, words_order, line_order};

use faults::Fault;
use words::{Level, Name, Stop, Verb, Zone};

pub mod faults;

#[derive(Clone, Copy)]
pub enum Change {
    Fill {
        first: usize,
        count: usize,
        value: u8,
    },
    Bytes {
        first: usize,
        count: usize,
        value: u64,
    },
    Fuses(u8),
}

#[derive(Clone, Copy)]
pub enum Act {
    Power(bool),
    Fus(bool),
    Lines(u8),
    Cut(bool),
    Reset,
    Walk(usize),
    Show16(u16),
    Show32(u32),
    Open(u16),
    Program(bool),
    Blow,
}

#[derive(Clone, Copy)]
pub enum Order {
    Nothing,
    Image(Change),
    Drive(Act),
}

// A byte of ones.
const ALL_ONES: u8 = 255;

// The highest step: all lines high.
const ALL_HIGH: u8 = 63;

// The highest fuse byte: all fuses unblown.
const ALL_UNBLOWN: u8 = 7;

fn filling(first: usize, count: usize, value: u8) -> Order
    ensures { result ≡ Order.Image (Change.Fill first count value) }
{
    Order::Image(Change::Fill {
        first,
        count,
        value,
    })
}

// One of two words, each with its order.
#[tactic(auto, using(words::proofs::Rows::apart), unfolding(crate::specs::Faults::numbered, crate::specs::Orders::either, words::specs::Names::row_in))]
fn either(object: &[u8], this: (Name, Order), that: (Name, Order)) -> Result<Order, Fault>
    ensures { numbered result ≡ either_of (row_of object.now) (row this.0) (row that.0) this.1 that.1 }
{
    let name = words::name_of(object).ok_or(Fault::Unfit)?;
    if name == this.0 {
        return Ok(this.1);
    }
    if name == that.0 {
        return Ok(that.1);
    }
    Err(Fault::Unfit)
}

#[tactic(auto, unfolding(crate::specs::Faults::numbered, crate::specs::Orders::walk_order))]
fn walk(w: &[u8]) -> Result<Order, Fault>
    ensures { numbered result ≡ walk_order w.now }
{
    let count = words::numeral(false, w).ok_or(Fault::Unfit)?;
    Ok(Order::Drive(Act::Walk(count as usize)))
}

// A decimal number that is not over the limit.
#[tactic(auto, unfolding(crate::specs::Faults::numbered, crate::specs::Orders::limited))]
fn at_most(limit: u8, w: &[u8]) -> Result<u8, Fault>
    ensures { numbered result ≡ limited limit w.now }
{
    let n = words::numeral(false, w).ok_or(Fault::Unfit)?;
    if u64::from(limit) < n {
        return Err(Fault::Beyond);
    }
    Ok(n as u8)
}

fn lines(w: &[u8]) -> Result<Order, Fault>
    ensures { numbered result ≡ lines_order w.now }
{
    Ok(Order::Drive(Act::Lines(at_most(ALL_HIGH, w)?)))
}

fn fuses(w: &[u8]) -> Result<Order, Fault>
    ensures { numbered result ≡ fuses_order w.now }
{
    Ok(Order::Image(Change::Fuses(at_most(ALL_UNBLOWN, w)?)))
}

#[tactic(auto, unfolding(crate::specs::Faults::numbered, crate::specs::Orders::show_order))]
fn show(w: &[u8]) -> Result<Order, Fault>
    ensures { numbered result ≡ show_order w.now }
{
    let code = words::numeral(true, w).ok_or(Fault::Unfit)?;
    match w.len() {
        4 => Ok(Order::Drive(Act::Show16(code as u16))),
        8 => Ok(Order::Drive(Act::Show32(code as u32))),
        _ => Err(Fault::Unfit),
    }
}

#[tactic(auto, unfolding(crate::specs::Faults::numbered, crate::specs::Orders::open_order))]
fn open_by(w: &[u8]) -> Result<Order, Fault>
    ensures { numbered result ≡ open_order w.now }
{
    let code = words::numeral(true, w).ok_or(Fault::Unfit)?;
    match w.len() {
        4 => Ok(Order::Drive(Act::Open(code as u16))),
        _ => Err(Fault::Unfit),
    }
}

// The bytes of a word of hex digits from byte `first` on, where there is room for so many.
#[tactic(auto, unfolding(crate::specs::Faults::numbered, crate::specs::Orders::bytes_order))]
fn bytes(first: usize, room: usize, w: &[u8]) -> Result<Order, Fault>
    ensures { numbered result ≡ bytes_order first room w.now }
{
    let value = words::numeral(true, w).ok_or(Fault::Unfit)?;
    let digits = w.len();
    if digits % 2 == 1 {
        return Err(Fault::Unfit);
    }
    let count = digits / 2;
    if room < count {
        return Err(Fault::Beyond);
    }
    Ok(Order::Image(Change::Bytes {
        first,
        count,
        value,
    }))
}

#[tactic(auto, unfolding(crate::specs::Faults::numbered, crate::specs::Orders::byte_order))]
fn byte(object: &[u8], w: &[u8]) -> Result<Order, Fault>
    ensures { numbered result ≡ byte_order object.now w.now }
{
    let first = words::numeral(false, object).ok_or(Fault::Unfit)? as usize;
    if rules::BYTES < first {
        return Err(Fault::Beyond);
    }
    bytes(first, rules::BYTES - first, w)
}

// A zone's first byte, and how many it has.
#[tactic(auto, unfolding(words::specs::Names::zone_row))]
fn place(zone: Zone) -> (usize, usize)
    ensures first { result.0 ≡ get_or firsts (zone_row zone) 0 }
    ensures count { result.1 ≡ get_or sizes (zone_row zone) 0 }
{
    match zone {
        Zone::FZ => (0, 2),
        Zone::IZ => (2, 8),
        Zone::SC => (10, 2),
        Zone::SCAC => (12, 2),
        Zone::CPZ => (14, 8),
        Zone::AZ => (22, 128),
        Zone::EZ => (150, 4),
        Zone::EC => (154, 16),
        Zone::MTZ => (170, 2),
        Zone::MFZ => (172, 2),
    }
}

#[tactic(auto, unfolding(crate::specs::Faults::numbered, crate::specs::Orders::zone_order, words::specs::Names::row_in))]
fn zone(object: &[u8], w: &[u8]) -> Result<Order, Fault>
    ensures { numbered result ≡ zone_order (row_of object.now) w.now }
{
    let zone = match words::name_of(object) {
        Some(Name::Zone(zone)) => zone,
        Some(Name::Verb(_) | Name::Level(_)) | None => return Err(Fault::Unfit),
    };
    let (first, count) = place(zone);
    let ones = (Name::Level(Level::Ones), filling(first, count, ALL_ONES));
    let zeros = (Name::Level(Level::Zeros), filling(first, count, 0));
    either(w, ones, zeros).or_else(|_| bytes(first, count, w))
}

// How many words a line has, by its first one.
#[tactic(auto, unfolding(words::specs::Names::verb_row, crate::specs::Orders::words_of))]
fn words_of(verb: Verb) -> usize
    ensures { result ≡ words_of (verb_row verb) }
{
    match verb {
        Verb::Reset | Verb::Write | Verb::Erase | Verb::Blow => 1,
        Verb::Byte | Verb::Zone => 3,
        _ => 2,
    }
}

// The order of a line that has as many words as its first one says.
#[tactic(auto, unfolding(words::specs::Names::row, crate::specs::Faults::numbered, crate::specs::Orders::words_of, crate::specs::Orders::order_of))]
fn obeyed(verb: Verb, object: &[u8], value: &[u8]) -> Result<Order, Fault>
    ensures { numbered result ≡ order_of (verb_row verb) (words_of (verb_row verb)) object.now value.now }
{
    match verb {
        Verb::Reset => Ok(Order::Drive(Act::Reset)),
        Verb::Write => Ok(Order::Drive(Act::Program(false))),
        Verb::Erase => Ok(Order::Drive(Act::Program(true))),
        Verb::Blow => Ok(Order::Drive(Act::Blow)),
        Verb::Power => either(
            object,
            (Name::Level(Level::On), Order::Drive(Act::Power(true))),
            (Name::Level(Level::Off), Order::Drive(Act::Power(false))),
        ),
        Verb::Fus => either(
            object,
            (Name::Level(Level::High), Order::Drive(Act::Fus(true))),
            (Name::Level(Level::Low), Order::Drive(Act::Fus(false))),
        ),
        Verb::Image => either(
            object,
            (Name::Level(Level::Ones), filling(0, rules::BYTES, ALL_ONES)),
            (Name::Level(Level::Zeros), filling(0, rules::BYTES, 0)),
        ),
        Verb::Cut => either(
            object,
            (Name::Verb(Verb::Write), Order::Drive(Act::Cut(false))),
            (Name::Verb(Verb::Erase), Order::Drive(Act::Cut(true))),
        ),
        Verb::Walk => walk(object),
        Verb::Lines => lines(object),
        Verb::Fuses => fuses(object),
        Verb::Show => show(object),
        Verb::Open => open_by(object),
        Verb::Byte => byte(object, value),
        Verb::Zone => zone(object, value),
    }
}

// How many words stand here; 4 stands for any more.
fn word_count(verb: &[u8], object: &[u8], value: &[u8], more: &[u8]) -> usize
    ensures { result ≡ word_count verb.now object.now value.now more.now }
{
    [verb, object, value, more]
        .iter()
        .position(|w| w.is_empty())
        .unwrap_or(4)
}

// A line's order by its first word, the number of its words, and the words after the first.
#[tactic(auto, unfolding(crate::specs::Faults::numbered, crate::specs::Orders::order_of, words::specs::Names::row_in))]
fn ordered(first: Option<Name>, count: usize, object: &[u8], value: &[u8]) -> Result<Order, Fault>
    ensures { numbered result ≡ order_of (row_in first) count object.now value.now }
{
    if count == 0 {
        return Ok(Order::Nothing);
    }
    let verb = match first {
        Some(Name::Verb(verb)) => verb,
        Some(Name::Level(_) | Name::Zone(_)) | None => return Err(Fault::Unknown),
    };
    if count != words_of(verb) {
        return Err(Fault::Unfit);
    }
    obeyed(verb, object, value)
}

fn words_order(s: &[u8]) -> Result<Order, Fault>
    ensures { numbered result ≡ words_order s.now }
{
    let second = words::after_word(s);
    let third = words::after_word(second);
    let first = words::first_word(s);
    let object = words::first_word(second);
    let value = words::first_word(third);
    let more = words::first_word(words::after_word(third));
    ordered(
        words::name_of(first),
        word_count(first, object, value, more),
        object,
        value,
    )
}

#[tactic(auto, unfolding(crate::specs::Orders::line_order))]
pub fn line_order(line: &[u8]) -> Result<Order, Fault>
    ensures { numbered result ≡ line_order line.now }
{
    words_order(words::up_to(Stop::Comment, line))
}
