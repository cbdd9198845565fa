// The closed table of causes for which something is refused.
ghost use Rattle.std.specs.Prelude.{◌≡◌};
ghost use Rattle.rules.specs.Refusals.{number};
ghost use Rattle.rules.specs.Refusals.Cause.{refused, stopped};

// Why a call, or a line, is refused.
#[derive(Clone, Copy, PartialEq, Eq, Debug)]
pub enum Refusal {
    OtherStage,
    NoPackage,
    NoMember,
    OutsideLimits,
    NameByte,
    NameEnrolled,
    NoRoom,
    NobodyToServe,
    SizesPass,
    NoOpenRound,
    NotReadyToSettle,
    ShortMemory,
}

impl Refusal {
    // The number that a statement tells. No `From`: it would not say which number.
    pub fn number(self) -> u8
        ensures { result ≡ number (refused self) }
    {
        match self {
            Refusal::OtherStage => 1,
            Refusal::NoPackage => 2,
            Refusal::NoMember => 3,
            Refusal::OutsideLimits => 4,
            Refusal::NameByte => 5,
            Refusal::NameEnrolled => 6,
            Refusal::NoRoom => 7,
            Refusal::NobodyToServe => 8,
            Refusal::SizesPass => 9,
            Refusal::NoOpenRound => 10,
            Refusal::NotReadyToSettle => 11,
            Refusal::ShortMemory => 15,
        }
    }
}

// Why the reading of a call file stops.
#[derive(Clone, Copy, PartialEq, Eq, Debug)]
pub enum Stop {
    CutShort,
    UnknownTag,
    WrongLength,
}

// A stop, with the place of the field's tag, from 0.
#[derive(Clone, Copy, PartialEq, Eq, Debug)]
pub struct Fault {
    pub stop: Stop,
    pub place: usize,
}

impl Fault {
    // The number that a statement tells.
    pub fn number(self) -> u8
        ensures { result ≡ number (stopped self) }
    {
        match self.stop {
            Stop::CutShort => 12,
            Stop::UnknownTag => 13,
            Stop::WrongLength => 14,
        }
    }
}
