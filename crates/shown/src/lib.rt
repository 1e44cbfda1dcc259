// What the pin shows on a walk, by the address and the flags alone.
#![tactic(auto)]

ghost use Rattle.shown.specs.Shown.{Shows};

// Whether the pin shows the bit of an address that a walk comes to; `None` where a compare, an arrival or the table of rights has a say.
pub fn shows(a: u32, flags: u32) -> Option<bool>
    ensures { Shows a flags result }
{
    match a {
        0..=79 | 105..=175 | 1233..=1359 | 1361..=1391 => Some(true),
        178..=1198 => Some(flags & 5 != 0),
        1392..=1519 => Some(false),
        _ => None,
    }
}
