// The text of what reduce answers.
ghost use Rattle.std.specs.Prelude.{◌≡◌, ℕ, ◌+◌, ◌<◌, ◌≤◌, length};
ghost use Rattle.listing.specs.Inner.Walk.{outcome_text};
ghost use Rattle.program_text.specs.Inner.Putting.{Puts};

use crate::clauses::put_clauses;
use outcome::Outcome;
use program_text::text::put_first;

// The whole text: the first line and, where it is accepted, a line for each clause of the output's translation.
pub fn put_outcome(outcome: Outcome, output: &[u8], text: &mut [u8]) -> usize
    requires { ((n : ℕ) → outcome ≡ Ok n → n ≤ length output.now) × ((length output.now ≤ 4096) × (12320 ≤ length text.old)) }
    ensures { Puts (outcome_text outcome output.now) text.old text.new 0 result }
{
    match outcome {
        Ok(length) => {
            let end = put_first(b"accepted ", length as u64, text);
            put_clauses(&output[..length], text, end)
        }
        Err(reason) => put_first(b"refused ", u64::from(u32::from(reason)), text),
    }
}
