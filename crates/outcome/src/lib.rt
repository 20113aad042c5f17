// What an operation answers. `specs/Outcome.antt` gives each case its number and its length.
#![tactic(auto)]

ghost use Rattle.std.specs.Prelude.{◌≡◌};
ghost use Rattle.outcome.specs.Outcome.{number_of, length_of, reason_number};

// Why an operation refuses: 1 to 26, in this order.
#[derive(Clone, Copy, Debug, PartialEq, Eq)]
pub enum Reason {
    TooLong,
    BrokenField,
    OutOfOrder,
    ClassIsResult,
    WrongMapping,
    WrongClauses,
    IllegalCode,
    IllegalTerm,
    BuffersTooShort,
    UnboundVariable,
    ValueTooLarge,
    SumUnfit,
    JoinUnfit,
    UnknownRoot,
    IllegalTree,
    TooDeep,
    OutputTooShort,
    BrokenTable,
    ScoreOutOfRange,
    NotAnExport,
    NoBlock,
    NotIndexed,
    NoSource,
    LimitOutOfRange,
    Hidden,
    NumberUnfit,
}

// An operation accepts, with the length of what it wrote, or refuses.
pub type Outcome = Result<usize, Reason>;

// What an operation hands back.
#[derive(Clone, Copy, Debug, PartialEq, Eq)]
pub struct Answer {
    pub outcome: Outcome,
}

// The answer with this outcome.
impl From<Outcome> for Answer {
    ghost from_gives = { λ outcome answer. answer.outcome ≡ outcome };

    fn from(outcome: Outcome) -> Answer {
        Answer { outcome }
    }
}

// The number of a refusal.
impl From<Reason> for u32 {
    ghost from_gives = { λ reason number. number ≡ reason_number reason };

    fn from(reason: Reason) -> u32 {
        match reason {
            Reason::TooLong => 1,
            Reason::BrokenField => 2,
            Reason::OutOfOrder => 3,
            Reason::ClassIsResult => 4,
            Reason::WrongMapping => 5,
            Reason::WrongClauses => 6,
            Reason::IllegalCode => 7,
            Reason::IllegalTerm => 8,
            Reason::BuffersTooShort => 9,
            Reason::UnboundVariable => 10,
            Reason::ValueTooLarge => 11,
            Reason::SumUnfit => 12,
            Reason::JoinUnfit => 13,
            Reason::UnknownRoot => 14,
            Reason::IllegalTree => 15,
            Reason::TooDeep => 16,
            Reason::OutputTooShort => 17,
            Reason::BrokenTable => 18,
            Reason::ScoreOutOfRange => 19,
            Reason::NotAnExport => 20,
            Reason::NoBlock => 21,
            Reason::NotIndexed => 22,
            Reason::NoSource => 23,
            Reason::LimitOutOfRange => 24,
            Reason::Hidden => 25,
            Reason::NumberUnfit => 26,
        }
    }
}

// The number of an outcome: 0 where it is accepted.
pub fn number(outcome: Outcome) -> u32
    ensures { result ≡ number_of outcome }
{
    outcome.map_or_else(u32::from, |_| 0)
}

// The length of an outcome: 0 where it is refused.
pub fn length_of(outcome: Outcome) -> u64
    ensures { result ≡ length_of outcome }
{
    outcome.map_or(0, |length| length as u64)
}
