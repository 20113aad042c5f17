// The operators on languages: the sum, and "without".
ghost use Rattle.std.specs.Prelude.{◌≡◌, ◌≤◌, length};
ghost use Rattle.outcome.specs.Outcome.{value};
ghost use Rattle.format_language.specs.Language.{Language};
ghost use Rattle.reduce_operators.specs.Operators.{language_sum, language_without};
ghost use Rattle.reduce_operators.specs.Inner.Values.{exact_language, Gives, language_bytes};

use super::limit::limited;
use format_language::check::LANGUAGE_LIMIT;
use format_language::entries::CLASS;
use outcome::{Outcome, Reason};
use reduce_merge::fit::languages_fit;
use reduce_merge::merge::{merge, remove};

// The sum of two languages: 12 where they do not fit, 11 where the union is over 1,024 bytes.
pub fn sum(a: &[u8], b: &[u8], out: &mut [u8]) -> Outcome
    requires { ((l : Language) × (exact_language a.now ≡ value l)) × ((m : Language) × (exact_language b.now ≡ value m)) × (1024 ≤ length out.old) }
    ensures { (l m : Language) → exact_language a.now ≡ value l → exact_language b.now ≡ value m
        → Gives (language_bytes (language_sum l m)) out.old out.new result }
{
    if !languages_fit(a, b) {
        return Err(Reason::SumUnfit);
    }
    limited(merge(a, b, CLASS, out), LANGUAGE_LIMIT)
}

// The first language without the entries of the second.
pub fn without(a: &[u8], b: &[u8], out: &mut [u8]) -> Outcome
    requires { ((l : Language) × (exact_language a.now ≡ value l)) × ((m : Language) × (exact_language b.now ≡ value m)) × (1024 ≤ length out.old) }
    ensures { (l m : Language) → exact_language a.now ≡ value l → exact_language b.now ≡ value m
        → Gives (language_bytes (value (language_without l m))) out.old out.new result }
{
    limited(remove(a, b, CLASS, out), LANGUAGE_LIMIT)
}
