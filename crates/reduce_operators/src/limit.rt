// What an operator answers once its value is written.
ghost use Rattle.std.specs.Prelude.{◌≡◌};
ghost use Rattle.reduce_operators.specs.Inner.Assembled.{limited};

use outcome::{Outcome, Reason};

// The length of what was written from the start of an output, or 11 where it is over the limit or did not fit.
pub fn limited(stored: Option<usize>, limit: usize) -> Outcome
    ensures { result ≡ limited limit stored }
{
    stored.filter(|n| *n <= limit).ok_or(Reason::ValueTooLarge)
}
