// Reads a session from standard input, runs it on a fresh card and prints `bad N` alone, or how far it came and why CLK's fall would then
// change nothing by right.
#![tactic(auto)]

use card::Ran;
use console::{Console, Standard};
use file::Session;
use rules::{Reason, Refusal};
use volatile::Volatile;

// The reason, and what to do about it.
fn in_words(r: Reason) -> &'static [u8] {
    match r {
        Reason::NoProgramming =>
            b"no programming under way: with VCC on and CLK low raise PGM, set I/O (low writes, high erases), raise CLK, and ask before it falls\n",
        Reason::NothingStored =>
            b"the address stores nothing: go elsewhere; 1424 to 1480 and 1482 to 1503 store nothing\n",
        Reason::WrongRST =>
            b"RST at the wrong level: let CLK fall, then raise RST at a fuse, lower it elsewhere and walk back, since its fall goes to address 0\n",
        Reason::NeverAllowed =>
            b"never allowed for this zone at this level: no flag helps; level 1 (FUS high, ISS unblown) allows it, but not in FZ, nor the erase of a fuse; at level 2 AZ is erased in EC, with EC_EN blown at 1232 only\n",
        Reason::SVMissing => b"SV missing: open the card first\n",
        Reason::P1Missing =>
            b"P1 missing: bit 176 was 0 on arrival; erase it, at level 1 or by an erase in EC, then reset and arrive at 176 again\n",
        Reason::E1Missing =>
            b"E1 missing: open, then show the erase key at 1200 to 1231 at level 2 and, with EC_EN unblown, write a 1 of EC to 0, all without passing address 0\n",
        Reason::MFBlown => b"MF blown: for good, MFZ stays as it is\n",
        Reason::ISSBlown =>
            b"ISS blown: for good, the block word does nothing any more, and no fuse can be blown\n",
        Reason::FUSLow => b"FUS low: let CLK fall, then raise FUS and start again\n",
        Reason::RightIsThere =>
            b"the right is there: lower PGM, then CLK; a write on a 0, an erase of 1s and a second blow of MF or EC_EN change nothing all the same, and an erase in EC at level 2 erases AZ\n",
    }
}

// The card after its run is never refused.
fn tell_reason(out: &mut Standard, told: Result<Reason, Refusal>) {
    if let Ok(reason) = told {
        out.say(b"reason ");
        out.number(looks::number_of(reason) as u64);
        out.say(b", ");
        out.say(in_words(reason));
    }
}

// The words of report's four lines, which go into a buffer of a known length there.
fn tell_run(out: &mut Standard, ran: Ran, given: usize) {
    out.say(b"done ");
    out.number(ran.done as u64);
    out.say(b" of ");
    out.number(given as u64);
    out.say(b"\nrefused ");
    out.number(rules::number_if_any(ran.refusal) as u64);
    out.say(b"\n");
}

// As the session program's, with the reason of the state that the run leaves, which `fresh_run` doesn't hand out.
fn answer(out: &mut Standard, session: &[u8]) {
    let mut memory = [0u8; rules::BYTES];
    match file::open_session(session, &mut memory) {
        Err(refusal) => {
            out.say(b"bad ");
            out.number(refusal.number() as u64);
            out.say(b"\n");
        }
        Ok(Session { fuses, steps }) => {
            let section = file::step_section(session, rules::BYTES);
            let mut answers = [0u8; rules::LONGEST];
            let ran = card::run(&mut memory, fuses, Volatile::fresh(), section, &mut answers);
            let told = looks::reason(&memory, ran.fuses, ran.volatile);
            tell_run(out, ran, steps);
            tell_reason(out, told);
        }
    }
}

// A session has at most 181 + 4096 bytes, so one more tells a longer input.
fn main(rt: HostRuntime) {
    let (mut to, mut errors) = (rt.stdout(), rt.stderr());
    let mut out = Console::start(&rt, &mut to, &mut errors, b"why");
    if !out.is_open() {
        return;
    }
    let mut input = [0u8; 4278];
    let Ok(n) = out.read_input(&mut rt.stdin(), &mut input) else {
        return;
    };
    answer(&mut out, &input[..n]);
    out.end();
}
