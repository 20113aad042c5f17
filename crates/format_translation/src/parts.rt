// The parts of a translation: the field of its source, the field of its target, and its body.
ghost use Rattle.std.specs.Prelude.{◌≡◌, ◌||◌, ◌≤◌, ltb, length, ℕ, ◌<◌, Some, None};
ghost use Rattle.std.proofs.Math.Option.{some};
ghost use Rattle.format_fields.specs.Fields.{has_over};
ghost use Rattle.format_fields.specs.Lists.{is_some};
ghost use Rattle.outcome.specs.Outcome.{value};
ghost use Rattle.format_language.specs.LanguageFile.{language_limit};
ghost use Rattle.format_translation.specs.Translation.{Translation};
ghost use Rattle.format_translation.specs.TranslationFile.{parts_of, translation_limit, is_language_tag, translation_of};
ghost use Rattle.format_translation.specs.Inner.Parts.{source_in, target_in, body_in};
ghost use Rattle.format_translation.specs.Inner.Pieces.{part_end};

use super::body::body_whole;
use format_fields::walk::{end_if_whole, says_over, whole_end};
use format_language::check::LANGUAGE_LIMIT;
use format_language::entries::entries_whole;

// The tag of the source.
pub const SOURCE: u8 = 0x20;

// The tag of the target.
pub const TARGET: u8 = 0x21;

// A translation has at most so many bytes.
pub const TRANSLATION_LIMIT: usize = 4096;

// The file, or a language in it, is over its limit.
pub fn over_limit(s: &[u8]) -> bool
    ensures { result ≡ ltb translation_limit (length s.now) || has_over is_language_tag language_limit s.now }
{
    if TRANSLATION_LIMIT < s.len() {
        return true;
    }
    says_over(s, SOURCE, TARGET, LANGUAGE_LIMIT)
}

// Where the whole field of this tag at p ends, where there is one.
fn part_end(s: &[u8], p: usize, tag: u8) -> Option<usize>
    requires { p ≤ length s.now }
    ensures none { result ≡ None → 0 ≡ part_end tag s.now p }
    ensures some { (e : ℕ) → result ≡ Some e → (e ≡ part_end tag s.now p) × (0 < e) × (e ≤ length s.now) }
{
    let e = end_if_whole(s, p)?;
    if s[p] != tag {
        return None;
    }
    Some(e)
}

// The file is a source, a target and a body, each of whole fields.
pub fn parts_whole(s: &[u8]) -> bool
    ensures { result ≡ is_some (parts_of s.now) }
{
    let Some(a) = part_end(s, 0, SOURCE) else {
        return false;
    };
    let Some(b) = part_end(s, a, TARGET) else {
        return false;
    };
    if !entries_whole(&s[3..a]) {
        return false;
    }
    if !entries_whole(&s[a + 3..b]) {
        return false;
    }
    body_whole(&s[b..])
}

// The bytes of the source of a translation that was accepted.
pub fn source_of(s: &[u8]) -> &[u8]
    requires { (f : Translation) × (translation_of s.now ≡ value f) }
    ensures { result.now ≡ source_in s.now }
{
    let a = whole_end(s, 0);
    &s[3..a]
}

// The bytes of the target of a translation that was accepted.
pub fn target_of(s: &[u8]) -> &[u8]
    requires { (f : Translation) × (translation_of s.now ≡ value f) }
    ensures { result.now ≡ target_in s.now }
{
    let a = whole_end(s, 0);
    let b = whole_end(s, a);
    &s[a + 3..b]
}

// The bytes of the body of a translation that was accepted.
pub fn body_of(s: &[u8]) -> &[u8]
    requires { (f : Translation) × (translation_of s.now ≡ value f) }
    ensures { result.now ≡ body_in s.now }
{
    let a = whole_end(s, 0);
    let b = whole_end(s, a);
    &s[b..]
}
