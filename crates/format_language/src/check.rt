// The operation on languages.
ghost use Rattle.std.specs.Prelude.{◌≡◌};
ghost use Rattle.format_language.specs.Operations.{check_language};

use super::clash::result_is_class;
use super::entries::{CLASS, entries_whole};
use format_fields::walk::keys_rise;
use outcome::{Answer, Outcome, Reason};

// A language has at most so many bytes.
pub const LANGUAGE_LIMIT: usize = 1024;

// The lowest refusal of 1 to 4 that applies, or accepted.
fn checked(language: &[u8]) -> Outcome
    ensures { result ≡ check_language language.now }
{
    if LANGUAGE_LIMIT < language.len() {
        return Err(Reason::TooLong);
    }
    if !entries_whole(language) {
        return Err(Reason::BrokenField);
    }
    if !keys_rise(language, CLASS) {
        return Err(Reason::OutOfOrder);
    }
    if result_is_class(language) {
        return Err(Reason::ClassIsResult);
    }
    Ok(0)
}

// Check a language: the lowest refusal of 1 to 4 that applies, or accepted.
pub fn check_language(language: &[u8]) -> Answer
    ensures { result.outcome ≡ check_language language.now }
{
    Answer::from(checked(language))
}
