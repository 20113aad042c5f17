// The operators on translations: the sum, and "without" a language.
ghost use Rattle.std.specs.Prelude.{◌≡◌, true, ◌≤◌, length};
ghost use Rattle.outcome.specs.Outcome.{value};
ghost use Rattle.format_language.specs.Language.{Language};
ghost use Rattle.format_translation.specs.Translation.{Translation};
ghost use Rattle.reduce_operators.specs.Operators.{translations_fit, translation_union, translation_sum, translation_without};
ghost use Rattle.reduce_operators.specs.Inner.Values.{exact_language, exact_translation, Gives, translation_bytes};
ghost use Rattle.reduce_operators.specs.Inner.EncodedParts.{HasParts};

use super::assemble::assemble;
use super::keep::keep_parts;
use super::numbers::numbers_agree;
use super::parts::{Parts, parts_of};
use format_fields::walk::MAPPING;
use format_language::check::LANGUAGE_LIMIT;
use format_language::entries::CLASS;
use format_translation::parts::TRANSLATION_LIMIT;
use outcome::{Outcome, Reason};
use reduce_merge::fit::languages_fit;
use reduce_merge::merge::{merge, remove};
use reduce_merge::within::agree;

// Both sources fit, both targets fit, shared kinds have the same numbers, and items of one key are the same in both bodies.
fn parts_fit(first: Parts<'_>, second: Parts<'_>) -> bool
    requires { ((f : Translation) × HasParts first f) × ((g : Translation) × HasParts second g) }
    ensures { (f g : Translation) → HasParts first.entry f → HasParts second.entry g → result ≡ translations_fit f g }
{
    languages_fit(first.source, second.source)
        && languages_fit(first.target, second.target)
        && numbers_agree(first.body, second.body)
        && agree(first.body, second.body, MAPPING)
}

// The union of the parts of two translations that fit; 11 where it exceeds a limit.
fn unite(first: Parts<'_>, second: Parts<'_>, out: &mut [u8]) -> Outcome
    requires { ((f : Translation) × HasParts first f) × ((g : Translation) × HasParts second g) × (4096 ≤ length out.old) }
    ensures { (f g : Translation) → HasParts first.entry f → HasParts second.entry g → translations_fit f g ≡ true
        → Gives (translation_bytes (value (translation_union f g))) out.old out.new result }
{
    let mut source = [0u8; LANGUAGE_LIMIT];
    let i = merge(first.source, second.source, CLASS, &mut source).ok_or(Reason::ValueTooLarge)?;
    let mut target = [0u8; LANGUAGE_LIMIT];
    let j = merge(first.target, second.target, CLASS, &mut target).ok_or(Reason::ValueTooLarge)?;
    let mut body = [0u8; TRANSLATION_LIMIT];
    let k = merge(first.body, second.body, MAPPING, &mut body).ok_or(Reason::ValueTooLarge)?;
    let united = Parts {
        source: &source[..i],
        target: &target[..j],
        body: &body[..k],
    };
    assemble(united, out)
}

// The sum of the parts of two translations: 12 where they do not fit.
fn sum_parts(first: Parts<'_>, second: Parts<'_>, out: &mut [u8]) -> Outcome
    requires { ((f : Translation) × HasParts first f) × ((g : Translation) × HasParts second g) × (4096 ≤ length out.old) }
    ensures { (f g : Translation) → HasParts first.entry f → HasParts second.entry g → Gives (translation_bytes (translation_sum f g)) out.old out.new result }
{
    if !parts_fit(first, second) {
        return Err(Reason::SumUnfit);
    }
    unite(first, second, out)
}

// The sum of two translations: 12 where they do not fit, 11 where the union exceeds a limit.
pub fn sum(a: &[u8], b: &[u8], out: &mut [u8]) -> Outcome
    requires { ((f : Translation) × (exact_translation a.now ≡ value f)) × ((g : Translation) × (exact_translation b.now ≡ value g)) × (4096 ≤ length out.old) }
    ensures { (f g : Translation) → exact_translation a.now ≡ value f → exact_translation b.now ≡ value g
        → Gives (translation_bytes (translation_sum f g)) out.old out.new result }
{
    sum_parts(parts_of(a), parts_of(b), out)
}

// The parts of a translation, its source without a language.
fn without_parts(parts: Parts<'_>, b: &[u8], out: &mut [u8]) -> Outcome
    requires { ((f : Translation) × HasParts parts f) × ((m : Language) × (exact_language b.now ≡ value m)) × (4096 ≤ length out.old) }
    ensures { (f : Translation) (m : Language) → HasParts parts.entry f → exact_language b.now ≡ value m
        → Gives (translation_bytes (value (translation_without f m))) out.old out.new result }
{
    let mut rest = [0u8; LANGUAGE_LIMIT];
    let n = remove(parts.source, b, CLASS, &mut rest).ok_or(Reason::ValueTooLarge)?;
    let source = &rest[..n];
    keep_parts(Parts { source, ..parts }, out)
}

// A translation without the entries of a language in its source; clauses and mappings no longer in it go.
pub fn without(a: &[u8], b: &[u8], out: &mut [u8]) -> Outcome
    requires { ((f : Translation) × (exact_translation a.now ≡ value f)) × ((m : Language) × (exact_language b.now ≡ value m)) × (4096 ≤ length out.old) }
    ensures { (f : Translation) (m : Language) → exact_translation a.now ≡ value f → exact_language b.now ≡ value m
        → Gives (translation_bytes (value (translation_without f m))) out.old out.new result }
{
    without_parts(parts_of(a), b, out)
}
