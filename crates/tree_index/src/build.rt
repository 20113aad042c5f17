// The operation that builds the index of a tree, and the test of an index that is handed in.
ghost use Rattle.std.specs.Prelude.{◌≡◌, ℕ, ◌+◌, ◌≤◌, length, get_or};
ghost use Rattle.std.proofs.Math.Option.{some};
ghost use Rattle.format_fields.specs.Lists.{same_numbers};
ghost use Rattle.format_fields.specs.Inner.Writing.{spliced};
ghost use Rattle.outcome.specs.Outcome.{written, output_after};
ghost use Rattle.format_language.specs.Language.{Language};
ghost use Rattle.format_language.specs.LanguageFile.{entries_of};
ghost use Rattle.tree_reader.specs.Code.{Code};
ghost use Rattle.tree_reader.specs.Inner.Index.{Indexed, index_length};
ghost use Rattle.format_translation.specs.Operations.{fitted};
ghost use Rattle.tree_index.specs.Spans.{spans, entries, index_of};
ghost use Rattle.tree_index.specs.Operations.{longest, index_tree, check_indexed};
ghost use Rattle.tree_index.specs.Inner.Lying.{There};

use crate::compare::compare_row;
use crate::entries::{ENTRY, put_entry, size_at};
use crate::operands::operands_at;
use crate::walk::write_row;
use check_operations::trees::check_indexed;
use outcome::{Answer, Outcome, Reason};
use tree_reader::index::INDEX;
use tree_reader::read::TREE_LEVELS;

// The most bytes of a tree that has an index.
pub const LONGEST: usize = 65535;

// Writes the index of the legal tree of a kind, whose start is counted as `base`, behind the first n bytes of an output, where
// there is room for it, and gives where it ends.
pub fn write_index(
    language: &[u8],
    places: &[u16],
    kind: u8,
    tree: &[u8],
    base: usize,
    out: &mut [u8],
    n: usize,
) -> usize
    requires { (base + length tree.now ≤ longest) × (n ≤ 400000) × ((l : Language) × (t : Code) × There places.now language.now tree.now 0 kind l t) }
    ensures { (l : Language) (t : Code) → There places.now language.now tree.now 0 kind l t
        → (result ≡ n + length (entries (spans base t))) × (result ≤ length out.old → out.new ≡ spliced out.old n (entries (spans base t))) }
{
    let operands = operands_at(language, places, kind, tree, 0);
    let ends = write_row(
        language,
        places,
        operands,
        tree,
        base,
        out,
        n + ENTRY,
        TREE_LEVELS,
    );
    put_entry(base, ends.trees, out, n);
    ends.entries
}

// Whether an index is the own one of the legal tree of a kind.
fn is_own(language: &[u8], places: &[u16], kind: u8, tree: &[u8], index: &[u8]) -> bool
    requires { (length tree.now ≤ longest) × ((l : Language) × (t : Code) × There places.now language.now tree.now 0 kind l t) }
    ensures { (l : Language) (t : Code) → There places.now language.now tree.now 0 kind l t
        → result ≡ same_numbers index.now (index_of t) }
{
    let Some(stop) = size_at(index, 0, 0) else {
        return false;
    };
    let operands = operands_at(language, places, kind, tree, 0);
    compare_row(
        language,
        places,
        operands,
        tree,
        stop,
        index,
        ENTRY,
        TREE_LEVELS,
    )
    .is_some_and(|end| end == index.len())
}

// The index of a legal tree: 17 where it is longer than the output. It has no more entries than the tree has bytes; an output
// with room for so many is written at once, for another the length is counted first.
fn index_legal(language: &[u8], places: &[u16], kind: u8, tree: &[u8], output: &mut [u8]) -> Outcome
    requires { (length tree.now ≤ longest) × ((l : Language) × (t : Code) × There places.now language.now tree.now 0 kind l t) }
    ensures { (l : Language) (t : Code) → There places.now language.now tree.now 0 kind l t
        → (result ≡ written (fitted (length output.old) (index_of t)))
        × (output.new ≡ output_after output.old (fitted (length output.old) (index_of t))) }
{
    if tree.len() * ENTRY <= output.len() {
        return Ok(write_index(language, places, kind, tree, 0, output, 0));
    }
    let length = write_index(language, places, kind, tree, 0, &mut [], 0);
    if output.len() < length {
        return Err(Reason::OutputTooShort);
    }
    write_index(language, places, kind, tree, 0, output, 0);
    Ok(length)
}

// The index of a tree: 1 to 4 for the language, 14 to 16 for the tree, 22 where it is too long, 17.
fn index_checked(language: &[u8], root: u32, tree: &[u8], output: &mut [u8]) -> Outcome
    ensures { (result ≡ (index_tree language.now root tree.now output.old).outcome)
        × (output.new ≡ (index_tree language.now root tree.now output.old).output) }
{
    let mut places = [0u16; INDEX];
    check_indexed(language, root, tree, &mut places)?;
    if LONGEST < tree.len() {
        return Err(Reason::NotIndexed);
    }
    index_legal(language, &places, root as u8, tree, output)
}

// Build the index of a tree.
pub fn index(language: &[u8], root: u32, tree: &[u8], output: &mut [u8]) -> Answer
    ensures { (result.outcome ≡ (index_tree language.now root tree.now output.old).outcome)
        × (output.new ≡ (index_tree language.now root tree.now output.old).output) }
{
    Answer::from(index_checked(language, root, tree, output))
}

// Check a tree and the index that stands beside it: 1 to 4 for the language, 14 to 16 for the tree, 22 where it is too long
// or the index is not its own. Where they are accepted, the language's index was built in an index that was all zero.
pub fn check_own(
    language: &[u8],
    root: u32,
    tree: &[u8],
    index: &[u8],
    places: &mut [u16],
) -> Outcome
    requires { (length places.old ≡ index_length) × ((j : ℕ) → get_or places.old j 0 ≡ 0) }
    ensures { (result ≡ check_indexed language.now root tree.now index.now)
        × ((n : ℕ) (l : Language) → result ≡ Ok n → entries_of language.now ≡ some l
        → Indexed places.new language.now l) }
{
    check_indexed(language, root, tree, places)?;
    if LONGEST < tree.len() || !is_own(language, places, root as u8, tree, index) {
        return Err(Reason::NotIndexed);
    }
    Ok(0)
}
