// The order of a translation's keys, and the clashes in its languages.
ghost use Rattle.std.specs.Prelude.{◌≡◌, true, ◌||◌, List, ℕ};
ghost use Rattle.format_language.specs.Language.{clashes};
ghost use Rattle.format_translation.specs.Translation.{Translation};
ghost use Rattle.format_translation.specs.TranslationFile.{all_rising};
ghost use Rattle.format_translation.specs.Inner.Pieces.{Pieces};

use format_fields::walk::{MAPPING, keys_rise};
use format_language::clash::result_is_class;
use format_language::entries::CLASS;

// All keys rise, in both languages and in the body.
pub fn in_order(source: &[u8], target: &[u8], body: &[u8]) -> bool
    requires { (f : Translation) × Pieces source.now target.now body.now f }
    ensures { (f : Translation) → Pieces source.now target.now body.now f → result ≡ all_rising f }
{
    if !keys_rise(source, CLASS) {
        return false;
    }
    if !keys_rise(target, CLASS) {
        return false;
    }
    keys_rise(body, MAPPING)
}

// In the source or in the target a class is a result.
pub fn languages_clash(source: &[u8], target: &[u8]) -> bool
    requires { (body : List ℕ) × (f : Translation) × Pieces source.now target.now body f × (all_rising f ≡ true) }
    ensures { (body : List ℕ) (f : Translation) → Pieces source.now target.now body f
        → result ≡ clashes f.source f.source || clashes f.target f.target }
{
    if result_is_class(source) {
        return true;
    }
    result_is_class(target)
}
