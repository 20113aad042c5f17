// The operation on trees.
ghost use Rattle.std.specs.Prelude.{◌≡◌, ℕ, length, get_or};
ghost use Rattle.std.proofs.Math.Option.{some};
ghost use Rattle.format_language.specs.Language.{Language};
ghost use Rattle.format_language.specs.LanguageFile.{entries_of};
ghost use Rattle.tree_reader.specs.Operations.{check_tree};
ghost use Rattle.tree_reader.specs.Inner.Index.{Indexed, index_length};
ghost use Rattle.check_operations.specs.Inner.Chains.{whole_at};

use crate::open::open_language;
use outcome::{Answer, Outcome, Reason};
use tree_reader::index::INDEX;
use tree_reader::node::Read;
use tree_reader::read::{TREE_LEVELS, read_tree};

// What was read, with nothing after it.
fn whole_tree(read: Read, length: usize) -> Outcome
    ensures { result ≡ whole_at read length }
{
    let e = read?;
    if e == length {
        Ok(0)
    } else {
        Err(Reason::IllegalTree)
    }
}

// Check a tree: 1 to 4 for the language, 14 for the root, then 15 and 16 in reading order. Where it is accepted, the
// language's index was built in an index that was all zero, for a caller that goes on with the tree.
pub fn check_indexed(language: &[u8], root: u32, tree: &[u8], index: &mut [u16]) -> Outcome
    requires { (length index.old ≡ index_length) × ((j : ℕ) → get_or index.old j 0 ≡ 0) }
    ensures { (result ≡ check_tree language.now root tree.now)
        × ((n : ℕ) (l : Language) → result ≡ Ok n → entries_of language.now ≡ some l
        → Indexed index.new language.now l) }
{
    open_language(language, root, index)?;
    let read = read_tree(language, index, root as u8, tree, 0, TREE_LEVELS);
    whole_tree(read, tree.len())
}

// Check a tree.
pub fn check_tree(language: &[u8], root: u32, tree: &[u8]) -> Answer
    ensures { result.outcome ≡ check_tree language.now root tree.now }
{
    let mut index = [0u16; INDEX];
    Answer::from(check_indexed(language, root, tree, &mut index))
}
