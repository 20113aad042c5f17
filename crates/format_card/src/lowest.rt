// The answer to two files that are handed in together.
ghost use Rattle.std.specs.Prelude.{◌≡◌};
ghost use Rattle.format_card.specs.Inner.Sets.{lowest_of, with_card};

use outcome::{Outcome, Reason};

// The lowest of two refusals; where only one refuses, that one; where none does, the first.
pub fn lowest(first: Outcome, second: Outcome) -> Outcome
    ensures { result ≡ lowest_of first second }
{
    match (first, second) {
        (_, Ok(_)) => first,
        (Ok(_), Err(s)) => Err(s),
        (Err(r), Err(s)) => Err(if u32::from(s) < u32::from(r) { s } else { r }),
    }
}

// What was read of a card, where the first file is accepted too; else the lowest refusal of both.
pub fn with_card(first: Outcome, card: Result<u32, Reason>) -> Result<u32, Reason>
    ensures { result ≡ with_card first card }
{
    let second = match card {
        Ok(_) => Ok(0),
        Err(reason) => Err(reason),
    };
    lowest(first, second)?;
    card
}
