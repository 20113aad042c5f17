// The check of a pack.
ghost use Rattle.std.specs.Prelude.{◌≡◌, ◌||◌, ltb, length};
ghost use Rattle.format_fields.specs.Fields.{has_over};
ghost use Rattle.outcome.specs.Outcome.{checked};
ghost use Rattle.format_language.specs.LanguageFile.{language_limit};
ghost use Rattle.format_pack.specs.Pack.{pack_limit, is_language_tag, pack_of};

use super::order::{in_order, languages_clash};
use super::whole::{LANGUAGE, parts_whole};
use format_fields::walk::says_over;
use format_language::check::LANGUAGE_LIMIT;
use outcome::{Outcome, Reason};

// A pack has at most so many bytes.
pub const PACK_LIMIT: usize = 32768;

// The file, or a language in it, is over its limit.
fn over_limit(pack: &[u8]) -> bool
    ensures { result ≡ ltb pack_limit (length pack.now) || has_over is_language_tag language_limit pack.now }
{
    if PACK_LIMIT < pack.len() {
        return true;
    }
    says_over(pack, LANGUAGE, LANGUAGE, LANGUAGE_LIMIT)
}

// Check a pack: the lowest refusal of 1 to 4 that applies, or accepted.
pub fn check_pack(pack: &[u8]) -> Outcome
    ensures { result ≡ checked (pack_of pack.now) }
{
    if over_limit(pack) {
        return Err(Reason::TooLong);
    }
    if !parts_whole(pack) {
        return Err(Reason::BrokenField);
    }
    if !in_order(pack) {
        return Err(Reason::OutOfOrder);
    }
    if languages_clash(pack) {
        return Err(Reason::ClassIsResult);
    }
    Ok(0)
}
