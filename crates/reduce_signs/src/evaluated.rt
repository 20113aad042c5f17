// What the reducers answer.
ghost use Rattle.std.specs.Prelude.{◌≡◌};
ghost use Rattle.reduce_signs.specs.Inner.Values.{finished};

use outcome::{Outcome, Reason};

// Where the value of a term ends, in the lent buffer or in the store, and where the term ends in the pack.
#[derive(Clone, Copy, Debug, PartialEq, Eq)]
pub struct Ended {
    pub value: usize,
    pub term: usize,
}

// That, or the refusal.
pub type Evaluated = Result<Ended, Reason>;

// Where the values of two operands end in the store, and where the second term ends.
#[derive(Clone, Copy, Debug, PartialEq, Eq)]
pub struct EndedTwo {
    pub first: usize,
    pub second: usize,
    pub term: usize,
}

// That, or the first refusal.
pub type EvaluatedTwo = Result<EndedTwo, Reason>;

// The answer for a value that an operator wrote, of a term that ends at `term`.
pub fn finish(outcome: Outcome, term: usize) -> Evaluated
    ensures { result ≡ finished outcome term }
{
    outcome.map(|value| Ended { value, term })
}
