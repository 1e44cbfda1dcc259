// The card's vocabulary: what the definitions in specs/ and the code above them name alike.
#![tactic(auto)]

ghost use Rattle.std.specs.Prelude.{◌≡◌};
ghost use Rattle.rules.specs.Numbers.{number, number_if_any};

// 01's numbers, once for the code; specs/ has them for the definitions (`bytes`, `longest`, and the places in File).

// "174 bytes": the image.
pub const BYTES: usize = 174;

// The highest address of the counter.
pub const LAST: u32 = 1519;

// "at most 4,096 steps"
pub const LONGEST: usize = 4096;

// Where the sections of a file stand: "in fixed order, each after its count (two bytes, low first)".
pub const MEMORY_AT: usize = 2;

pub const FUSE_COUNT_AT: usize = MEMORY_AT + BYTES;

pub const FUSES_AT: usize = FUSE_COUNT_AT + 2;

// A card file ends where a session has the count of its steps.
pub const STEP_COUNT_AT: usize = FUSES_AT + 1;

pub const STEPS_AT: usize = STEP_COUNT_AT + 2;

// Where an address lies: the ten zones of the memory, the block word, the three fuses, and the gaps.
#[derive(Clone, Copy)]
pub enum Zone {
    FZ,
    IZ,
    SC,
    SCAC,
    CPZ,
    AZ,
    EZ,
    EC,
    MTZ,
    MFZ,
    Block,
    FuseMF,
    FuseECEN,
    FuseISS,
    Gap,
}

// What reading, writing and erasing in a zone ask for, as masks.
#[derive(Clone, Copy)]
pub struct Right {
    pub read: u8,
    pub write: u8,
    pub erase: u8,
}

// What takes effect when CLK falls in programming.
#[derive(Clone, Copy)]
pub enum Operation {
    Nothing,
    WriteBit,
    EraseWord,
    EraseZone,
    WriteBlock,
    EraseBlock,
    BlowMF,
    BlowECEN,
    BlowISS,
}

// 02, W1: why CLK's fall would change nothing by right, in 02's order; or that the right is there.
#[derive(Clone, Copy)]
pub enum Reason {
    NoProgramming = 1,
    NothingStored = 2,
    WrongRST = 3,
    NeverAllowed = 4,
    SVMissing = 5,
    P1Missing = 6,
    E1Missing = 7,
    MFBlown = 8,
    ISSBlown = 9,
    FUSLow = 10,
    RightIsThere = 0,
}

// Why a call is refused, by the number that a caller gets.
#[derive(Clone, Copy, Debug, PartialEq, Eq)]
pub enum Refusal {
    StepOver63 = 1,
    ManyLines = 2,
    RSTOrFUSInProgramming = 3,
    CLKFallsWithPGMHigh = 4,
    RSTFallsWithCLKHigh = 5,
    PGMRisesWithCLKHigh = 6,
    VCCRisesWithCLKOrPGMHigh = 7,
    MadeUp = 9,
    ImageLength = 10,
    FileTooShort = 11,
    FirstCount = 12,
    SecondCount = 13,
    FuseByte = 14,
    SessionTooShort = 15,
    StepCount = 16,
    FileLength = 17,
    RunTooLong = 18,
    AnswersTooShort = 19,
    WalkTooLong = 21,
    NoRoom = 22,
    NoTryLeft = 23,
}

impl Refusal {
    // There is no 8 and no 20.
    #[tactic(auto, unfolding(crate::specs::Numbers::number))]
    pub fn number(self) -> u8
        ensures { result ≡ number self }
    {
        self as u8
    }
}

// The number of a refusal, 0 where there is none.
#[tactic(auto, unfolding(crate::specs::Numbers::number_if_any))]
pub fn number_if_any(refusal: Option<Refusal>) -> u8
    ensures { result ≡ number_if_any refusal }
{
    refusal.map_or(0, Refusal::number)
}
