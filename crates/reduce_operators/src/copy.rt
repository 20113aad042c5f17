// Copies of accepted values: a language, a translation, its source and its target.
ghost use Rattle.std.specs.Prelude.{◌≡◌, ◌≤◌, length};
ghost use Rattle.outcome.specs.Outcome.{value};
ghost use Rattle.format_language.specs.Language.{Language};
ghost use Rattle.format_translation.specs.Translation.{Translation};
ghost use Rattle.reduce_operators.specs.Inner.Values.{exact_language, exact_translation, Gives, language_bytes, translation_bytes};

use super::limit::limited;
use format_fields::copy::put;
use format_language::check::LANGUAGE_LIMIT;
use format_translation::parts::{TRANSLATION_LIMIT, source_of, target_of};
use outcome::Outcome;

// The language itself.
pub fn language(a: &[u8], out: &mut [u8]) -> Outcome
    requires { ((l : Language) × (exact_language a.now ≡ value l)) × (1024 ≤ length out.old) }
    ensures { (l : Language) → exact_language a.now ≡ value l
        → Gives (language_bytes (value l)) out.old out.new result }
{
    limited(put(a, 0, a.len(), out, 0), LANGUAGE_LIMIT)
}

// The translation itself.
pub fn translation(a: &[u8], out: &mut [u8]) -> Outcome
    requires { ((f : Translation) × (exact_translation a.now ≡ value f)) × (4096 ≤ length out.old) }
    ensures { (f : Translation) → exact_translation a.now ≡ value f
        → Gives (translation_bytes (value f)) out.old out.new result }
{
    limited(put(a, 0, a.len(), out, 0), TRANSLATION_LIMIT)
}

// The source of a translation.
pub fn source(a: &[u8], out: &mut [u8]) -> Outcome
    requires { ((f : Translation) × (exact_translation a.now ≡ value f)) × (1024 ≤ length out.old) }
    ensures { (f : Translation) → exact_translation a.now ≡ value f
        → Gives (language_bytes (value f.source)) out.old out.new result }
{
    language(source_of(a), out)
}

// The target of a translation.
pub fn target(a: &[u8], out: &mut [u8]) -> Outcome
    requires { ((f : Translation) × (exact_translation a.now ≡ value f)) × (1024 ≤ length out.old) }
    ensures { (f : Translation) → exact_translation a.now ≡ value f
        → Gives (language_bytes (value f.target)) out.old out.new result }
{
    language(target_of(a), out)
}
