// Why a text is refused: by a number of its own, or by the step maker's.
ghost use Rattle.std.specs.Prelude.{◌≡◌};
ghost use Rattle.text_lines.specs.Faults.{number};
ghost use Rattle.text_lines.specs.declared.faults.Fault.TheVariants.{Maker};

use rules::Refusal;

#[derive(Clone, Copy, Debug, PartialEq, Eq)]
pub enum Fault {
    // No line starts with this word.
    Unknown,
    // Other words after the first than this line takes.
    Unfit,
    // A number that is too large for its place.
    Beyond,
    // The image and the fuses come before the first step.
    AfterAStep,
    // The lines are not where the act starts.
    Elsewhere,
    // The buffer is too small for the session.
    NoRoom,
    // The text is longer than 64 KiB.
    TooLong,
    Maker(Refusal),
}

impl From<Refusal> for Fault {
    ghost from_gives = { λ refusal fault. fault ≡ Maker refusal };

    fn from(refusal: Refusal) -> Fault {
        Fault::Maker(refusal)
    }
}

impl Fault {
    #[tactic(auto, unfolding(crate::specs::Faults::number))]
    pub fn number(self) -> u8
        ensures { result ≡ number self }
    {
        match self {
            Fault::Unknown => 71,
            Fault::Unfit => 72,
            Fault::Beyond => 73,
            Fault::AfterAStep => 74,
            Fault::Elsewhere => 75,
            Fault::NoRoom => 76,
            Fault::TooLong => 77,
            Fault::Maker(refusal) => refusal.number(),
        }
    }
}
