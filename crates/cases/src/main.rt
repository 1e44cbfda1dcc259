// The cases that a program runs beside the proved table: case, expected, got.
#![tactic(auto)]

mod buffers;
mod effects;
mod names;
mod numbers;
mod reasons;
mod steps;
mod table;

use console::Console;
use table::Table;

fn main(rt: HostRuntime) {
    let (mut to, mut errors) = (rt.stdout(), rt.stderr());
    let out = Console::start(&rt, &mut to, &mut errors, b"cases");
    let mut t = Table::new(out);
    t.head(b"Each step from -> to: 0 is accepted, else the number of the refusal.");
    numbers::rows(&mut t);
    buffers::rows(&mut t);
    effects::rows(&mut t);
    reasons::rows(&mut t);
    t.end();
}
