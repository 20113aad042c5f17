// What every operation on trees begins with: the language is checked and indexed, and the root must be one of its kinds.
ghost use Rattle.std.specs.Prelude.{◌≡◌, ℕ, length, get_or};
ghost use Rattle.std.proofs.Math.Option.{some};
ghost use Rattle.outcome.specs.Outcome.{value, checked};
ghost use Rattle.format_language.specs.Language.{Language, is_in};
ghost use Rattle.format_language.specs.LanguageFile.{entries_of, language_of};
ghost use Rattle.format_language.specs.Operations.{check_language};
ghost use Rattle.tree_reader.specs.Inner.Index.{index_length};
ghost use Rattle.check_operations.specs.Inner.Opening.{rooted_of, OpenedAlone, Opened};

use format_language::check::check_language;
use outcome::{Outcome, Reason};
use tree_reader::index::build;
use tree_reader::kinds::is_in;
use tree_reader::operands::KINDS;

// Opens a language: 1 to 4. Its index is built in an index that is all zero.
pub fn index_language(language: &[u8], index: &mut [u16]) -> Outcome
    requires { (length index.old ≡ index_length) × ((j : ℕ) → get_or index.old j 0 ≡ 0) }
    ensures is { result ≡ check_language language.now }
    ensures opened { (l : Language) → language_of language.now ≡ value l → OpenedAlone language.now index.new l }
{
    let length = check_language(language).outcome?;
    build(language, index);
    Ok(length)
}

// Whether a root is a kind of a language that was accepted.
pub fn is_root(language: &[u8], root: u32) -> bool
    requires { (l : Language) × (entries_of language.now ≡ some l) }
    ensures { (l : Language) → entries_of language.now ≡ some l → result ≡ is_in l root }
{
    if KINDS <= root as usize {
        return false;
    }
    is_in(language, root as u8)
}

// Opens a language with a root: 1 to 4, 14 where the root is none of its kinds. Its index is built in an index that is all zero.
pub fn open_language(language: &[u8], root: u32, index: &mut [u16]) -> Outcome
    requires { (length index.old ≡ index_length) × ((j : ℕ) → get_or index.old j 0 ≡ 0) }
    ensures is { result ≡ checked (rooted_of language.now root) }
    ensures opened { (l : Language) → rooted_of language.now root ≡ value l → Opened language.now index.new root l }
{
    let length = index_language(language, index)?;
    if !is_root(language, root) {
        return Err(Reason::UnknownRoot);
    }
    Ok(length)
}
