// The volatile half, and what each edge makes of it: it goes in by value and comes back.
#![tactic(auto)]

ghost use Rattle.std.specs.Prelude.{◌≡◌, cond, [], ◌≤◌};
ghost use Rattle.memory.specs.Image.{bit};
ghost use Rattle.rules.specs.Halves.{fresh, off};
ghost use Rattle.rules.specs.Zones.{zone};
ghost use Rattle.rules.specs.Rights.{held, level1, lacking, may_read};
ghost use Rattle.rules.specs.Programming.{may_program_now, operation_now};
ghost use Rattle.rules.specs.Reason.{missing};
ghost use Rattle.rules.specs.Match.{arrived};
ghost use Rattle.rules.specs.Steps.{follows, clk_rises, unlatched, driven, pin_value};
ghost use Rattle.volatile.specs.Packed.{packed, unpacked, made_up_word, plainly_sound, programmed_half, gone_on, opening_flags, arrival_flags, compared_here};

use memory::is_set;
use rules::{Operation, Zone};

// Places of the lines in a step.
pub const VCC: u32 = 0;

pub const RST: u32 = 1;

pub const CLK: u32 = 2;

pub const PGM: u32 = 3;

pub const FUS: u32 = 5;

// Places of the flags. Programming and the latch stand where PGM and I/O do in a step.
pub const SV: u32 = 0;

pub const P1: u32 = 1;

pub const R1: u32 = 2;

pub const PROGRAMMING: u32 = 3;

pub const LATCH: u32 = 4;

pub const E1: u32 = 5;

pub const MATCH: u32 = 6;

// Places of the fuses in their byte.
pub const MF: u32 = 0;

pub const EC_EN: u32 = 1;

pub const ISS: u32 = 2;

// Masks of the flags: all of them, and all but those that an edge clears.
const FLAGS: u32 = 127;

const BUT_MATCH: u32 = 63;

const BUT_MATCH_AND_E1: u32 = 31;

const BUT_OPERATION: u32 = 103;

const BUT_OPERATION_AND_MATCH: u32 = 39;

// Programming and the latch together, as flags and as PGM and I/O in a step.
const OPERATION: u32 = 24;

// The flags SV and R1, of which one lets AZ be read; and VCC, RST and PGM, of which VCC alone must be high for the pin to be driven.
const SV_OR_R1: u32 = 5;

const VCC_RST_PGM: u32 = 11;

// Of CLK, PGM, programming and the latch, as digits 0 to 3 of a place: the sixteen ways that they stand together, 1 for those that 9 lets
// pass with VCC on.
const WIRED: u32 = 0xa2a7;

// The volatile half: line levels, address, and the flags as one word. Three wide fields stay in registers.
#[repr(C)]
#[derive(Clone, Copy, Debug, PartialEq, Eq)]
pub struct Volatile {
    pub lines: u32,
    pub address: u32,
    pub flags: u32,
}

// A mask of what a right asks for, as `Rights.unless`; `act_parts` has one of the lines, which nothing here stands on.
fn unless(there: bool, mask: u8) -> u8
    ensures { (result ≡ cond there 0 mask) × (result ≤ mask) }
{
    if there { 0 } else { mask }
}

// What the pin answers where the card drives nothing.
pub const RELEASED: u8 = 1;

// What the pin answers, by whether it is driven, and the bit.
#[tactic(auto, unfolding(rules::specs::Steps::pin_value))]
pub fn pin_value(driven: bool, bit: bool) -> u8
    ensures { result ≡ pin_value driven bit }
{
    if driven { bit as u8 } else { RELEASED }
}

// The flags that come with the arrival at 176, 177 or 1232.
#[tactic(auto, unfolding(crate::specs::Packed::arrival_flags, rules::specs::Halves::unblown))]
fn arrival(image: &[u8], fuses: u8, a: u32, matched: bool) -> u32
    ensures { result ≡ arrival_flags image.now fuses a matched }
{
    match a {
        176 if memory::read_bit(image, 176) => 2,
        177 if memory::read_bit(image, 177) => 4,
        1232 if !is_set(fuses as u32, EC_EN) & matched => 32,
        _ => 0,
    }
}

// The flag that comes with a write that turned a 1 into 0 while match held: SV in SCAC, E1 in EC at level 2 with EC_EN unblown. Most
// operations open nothing: with the places tested first a step of writes and erases takes 3.6 instructions more.
#[tactic(auto, unfolding(crate::specs::Packed::opening_flags))]
fn opening(a: u32, l1: bool, ec_en: bool, keyed: bool) -> u32
    ensures { result ≡ opening_flags a l1 ec_en keyed }
{
    match a {
        _ if !keyed => 0,
        96..=103 => 1,
        1232..=1359 if !l1 & ec_en => 32,
        _ => 0,
    }
}

impl Volatile {
    // A fresh card has all lines low.
    #[tactic(auto, unfolding(crate::specs::Packed::packed, rules::specs::Halves::fresh, rules::specs::Halves::off))]
    pub fn fresh() -> Self
        ensures { result ≡ packed fresh }
    {
        Self {
            lines: 0,
            address: 0,
            flags: 0,
        }
    }

    // The lines only follow.
    #[tactic(auto, using(crate::proofs::Edges::follow_word))]
    pub fn follows(mut self, n: u32) -> Self
        ensures { result ≡ packed (follows n (unpacked self)) }
    {
        self.lines = n;
        self.flags = self.flags & FLAGS;
        self
    }

    // VCC falls.
    #[tactic(auto, unfolding(crate::specs::Packed::packed, rules::specs::Halves::off))]
    pub fn power_falls(mut self, n: u32) -> Self
        ensures { result ≡ packed (off n) }
    {
        self.lines = n;
        self.address = 0;
        self.flags = 0;
        self
    }

    // CLK rises: I/O is latched, and with PGM high programming starts.
    #[tactic(auto, using(crate::proofs::Edges::rise_word))]
    pub fn clock_rises(mut self, n: u32) -> Self
        ensures { result ≡ packed (clk_rises n (unpacked self)) }
    {
        self.lines = n;
        self.flags = (self.flags & BUT_OPERATION) | (n & OPERATION);
        self
    }

    // RST falls: address 0, where E1 and match end.
    #[tactic(auto, using(crate::proofs::Edges::reset_word))]
    pub fn reset_falls(mut self, n: u32) -> Self
        ensures { result ≡ packed (arrived [] 0 0 (follows n (unpacked self))) }
    {
        self.lines = n;
        self.address = 0;
        self.flags = self.flags & BUT_MATCH_AND_E1;
        self
    }

    // CLK falls without programming: the latch is cleared, and match is what the compare gives.
    #[tactic(auto, using(crate::proofs::Edges::unlatched_word))]
    pub fn unlatched(mut self, n: u32, matched: bool) -> Self
        ensures { result ≡ packed (unlatched n matched (unpacked self)) }
    {
        let kept = self.flags & BUT_OPERATION_AND_MATCH;
        self.lines = n;
        self.flags = if matched { kept | 64 } else { kept };
        self
    }

    // CLK falls where nothing is compared and nothing comes of the arrival: the latch is cleared, and the address is a.
    #[tactic(auto, using(crate::proofs::Edges::gone_on_word))]
    pub fn goes_on(mut self, n: u32, a: u32) -> Self
        ensures { result ≡ packed (gone_on n a (unpacked self)) }
    {
        self.lines = n;
        self.address = a;
        self.flags = self.flags & BUT_OPERATION;
        self
    }

    // What arriving at an address does.
    #[tactic(auto, using(crate::proofs::Edges::arrive))]
    pub fn arrives(mut self, image: &[u8], fuses: u8, a: u32) -> Self
        ensures { result ≡ packed (arrived image.now fuses a (unpacked self)) }
    {
        let flags = self.flags;
        self.address = a;
        self.flags = match a {
            0 => flags & BUT_MATCH_AND_E1,
            104 | 1360 => flags & BUT_MATCH,
            _ => (flags & FLAGS) | arrival(image, fuses, a, is_set(flags, MATCH)),
        };
        self
    }

    // CLK falls in programming, whose operation turned a 1 into 0 or did not: SV comes in SCAC, E1 in EC.
    #[tactic(auto, using(crate::proofs::Edges::programmed_word))]
    pub fn programmed(mut self, n: u32, l1: bool, ec_en: bool, turned: bool) -> Self
        ensures { result ≡ packed (programmed_half l1 ec_en turned n (unpacked self)) }
    {
        let flags = self.flags;
        let keyed = turned & is_set(flags, MATCH);
        self.lines = n;
        self.flags = (flags & BUT_OPERATION) | opening(self.address, l1, ec_en, keyed);
        self
    }

    // Level 1 is FUS high and ISS unblown.
    #[tactic(auto, unfolding(rules::specs::Rights::level1, rules::specs::Rights::held, crate::specs::Packed::unpacked, rules::specs::Halves::unblown, rules::specs::Lines::high))]
    pub fn level1(self, fuses: u8) -> bool
        ensures { result ≡ level1 (held fuses (unpacked self)) }
    {
        is_set(self.lines, FUS) & is_set(fuses as u32, ISS)
    }

    // The things that a right may ask for and that are not there.
    #[tactic(auto, unfolding(rules::specs::Rights::lacking, rules::specs::Rights::held, crate::specs::Packed::unpacked, rules::specs::Halves::unblown, rules::specs::Lines::high))]
    pub fn lacking(self, fuses: u8) -> u8
        ensures { result ≡ lacking (held fuses (unpacked self)) }
    {
        let sv = is_set(self.flags, SV);
        let fuses = fuses as u32;
        1 + unless(sv, 2)
            + unless(is_set(self.flags, P1), 4)
            + unless(is_set(self.flags, E1), 8)
            + unless(is_set(fuses, MF), 16)
            + unless(is_set(fuses, ISS), 32)
            + unless(is_set(self.lines, FUS), 64)
            + unless(sv | is_set(self.flags, R1), 128)
    }

    // Whether the address may be read. Only SC and EZ have rights that take the table.
    #[tactic(auto, using(crate::proofs::Readable::readable), unfolding(rules::specs::Rights::held, crate::specs::Packed::unpacked))]
    pub fn may_read(self, fuses: u8) -> bool
        ensures { result ≡ may_read (held fuses (unpacked self)) (zone self.address) }
    {
        match self.address {
            80..=95 | 1200..=1231 => self.may_read_by_table(fuses),
            176..=1199 => self.flags & SV_OR_R1 != 0,
            a => a < 1392,
        }
    }

    // The same, by the table of rights.
    #[tactic(auto, using(crate::proofs::Sums::granted_mask), unfolding(rules::specs::Rights::may_read))]
    pub fn may_read_by_table(self, fuses: u8) -> bool
        ensures { result ≡ may_read (held fuses (unpacked self)) (zone self.address) }
    {
        let z = zones::zone_of(self.address);
        let right = rights::right_of(self.level1(fuses), z);
        let asked = right.read;
        asked & self.lacking(fuses) == 0
    }

    // VCC is on, RST and PGM are low, no programming is under way, and the address may be read.
    #[tactic(auto, using(crate::proofs::Sums::lines), unfolding(rules::specs::Steps::driven, crate::specs::Packed::unpacked))]
    pub fn driven(self, fuses: u8) -> bool
        ensures { result ≡ driven fuses (unpacked self) }
    {
        self.lines & VCC_RST_PGM == 1 && !is_set(self.flags, PROGRAMMING) && self.may_read(fuses)
    }

    // What the pin answers.
    #[tactic(auto, unfolding(rules::specs::Steps::pin_value))]
    pub fn pin(self, image: &[u8], fuses: u8) -> u8
        ensures { result ≡ pin_value (driven fuses (unpacked self)) (bit image.now self.address) }
    {
        if !self.driven(fuses) {
            return RELEASED;
        }
        pin_value(true, memory::read_bit(image, self.address as usize))
    }

    // The match that the compare at the present address gives.
    #[tactic(auto, unfolding(crate::specs::Packed::compared_here, rules::specs::Match::compared, crate::specs::Packed::unpacked))]
    pub fn compared(self, image: &[u8], l1: bool) -> bool
        ensures { result ≡ compared_here image.now l1 (unpacked self) }
    {
        let a = self.address;
        let matched = is_set(self.flags, MATCH);
        match a {
            80..=95 => {
                let same = is_set(self.flags, LATCH) == memory::read_bit(image, a as usize);
                !is_set(self.flags, SV) & (same & ((a == 80) | matched))
            }
            1200..=1231 => {
                let same = is_set(self.flags, LATCH) == memory::read_bit(image, a as usize);
                !l1 & (same & ((a == 1200) | matched))
            }
            _ => matched,
        }
    }

    // Whether the operation is carried out, under the flags and lines of the moment.
    #[tactic(auto, using(crate::proofs::Sums::may_program_by), unfolding(rules::specs::Lines::high, crate::specs::Packed::unpacked))]
    pub fn may_program(self, fuses: u8) -> bool
        ensures { result ≡ may_program_now fuses (unpacked self) }
    {
        let z = zones::zone_of(self.address);
        is_set(self.lines, RST) == rights::is_fuse(z) && self.missing(fuses, z) == 0
    }

    // What the operation asks for in its zone and does not have. A part of both its callers, since a step would pay for the call.
    #[tactic(auto, unfolding(rules::specs::Reason::missing, crate::specs::Packed::unpacked, rules::specs::Halves::unblown))]
    #[inline(always)]
    pub fn missing(self, fuses: u8, z: Zone) -> u8
        ensures { result ≡ missing fuses (unpacked self) z }
    {
        let latch = is_set(self.flags, LATCH);
        let ec_en = is_set(fuses as u32, EC_EN);
        let asked = rights::asks_of(self.level1(fuses), ec_en, latch, self.address, z);
        asked & self.lacking(fuses)
    }

    // The operation that takes effect.
    #[tactic(auto, using(crate::proofs::Sums::operation_by), unfolding(crate::specs::Packed::unpacked))]
    pub fn operation(self, fuses: u8) -> Operation
        ensures { result ≡ operation_now fuses (unpacked self) }
    {
        if self.may_program(fuses) {
            let latch = is_set(self.flags, LATCH);
            return rights::effect_of(self.level1(fuses), latch, zones::zone_of(self.address));
        }
        Operation::Nothing
    }

    // A powered card outside match and E1: what most steps start from.
    #[tactic(auto, unfolding(crate::specs::Packed::plainly_sound, crate::specs::Packed::wired))]
    pub fn plainly_sound(self) -> bool
        ensures { result ≡ plainly_sound self }
    {
        let wires = self.lines / 4 % 4 + 4 * (self.flags / 8 % 4);
        let wired = (self.lines & 1 == 1) & ((WIRED >> wires) % 2 == 1);
        self.lines <= 63 && self.flags <= 31 && self.address <= rules::LAST && wired
    }

    // 9: a made-up state.
    #[tactic(auto, using(crate::proofs::PlainlySound::plainly_sound_lem))]
    pub fn made_up(self) -> bool
        ensures { result ≡ made_up_word self }
    {
        !self.plainly_sound() && self.made_up_by_clause()
    }

    // 9, clause by clause.
    #[tactic(auto, using(crate::proofs::Sums::checked_together), unfolding(rules::specs::Zones::between))]
    pub fn made_up_by_clause(self) -> bool
        ensures { result ≡ made_up_word self }
    {
        let a = self.address;
        let flags = self.flags;
        let vcc = is_set(self.lines, VCC);
        let clk = is_set(self.lines, CLK);
        let programming = is_set(flags, PROGRAMMING);
        let off = !vcc & ((a != 0) | (flags != 0));
        let latched = is_set(flags, LATCH) & !clk;
        let started = programming & !clk;
        let idle = vcc & (clk & (is_set(self.lines, PGM) & !programming));
        let code = (81 <= a) & (a <= 103);
        let key = (1201 <= a) & (a <= 1359);
        let matched = is_set(flags, MATCH) & !(code | key);
        let keyed = is_set(flags, E1) & !((1232 <= a) & (a <= rules::LAST));
        let told = latched | (started | (idle | (matched | keyed)));
        (127 < flags) | ((63 < self.lines) | ((rules::LAST < a) | (off | told)))
    }
}
