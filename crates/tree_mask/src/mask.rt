// The operation that masks a tree for the holder of a card.
ghost use Rattle.std.specs.Prelude.{◌≡◌};
ghost use Rattle.tree_reader.specs.Inner.Index.{Ready};
ghost use Rattle.tree_mask.specs.Operations.{mask_tree};
ghost use Rattle.tree_mask.specs.Inner.Masking.{GivesTree, GivesLegal};

use crate::walk::mask_tree;
use check_operations::open::open_language;
use format_card::lowest::with_card;
use format_card::read::read_card;
use outcome::{Answer, Outcome, Reason};
use tree_reader::index::INDEX;
use tree_reader::read::{TREE_LEVELS, read_tree};

// The masked form of a legal tree of a kind: 17 where it is longer than the output. It has no more bytes than the tree; an output
// with room for so many is written at once, for another the length is counted first.
fn mask_legal(
    language: &[u8],
    index: &[u16; INDEX],
    seen: u32,
    kind: u8,
    tree: &[u8],
    output: &mut [u8],
) -> Outcome
    requires { Ready index.now language.now kind tree.now 0 }
    ensures { GivesLegal language.now index.now seen kind tree.now output.old output.new result }
{
    if tree.len() <= output.len() {
        return Ok(mask_tree(language, index, seen, kind, tree, output));
    }
    let length = mask_tree(language, index, seen, kind, tree, &mut []);
    if output.len() < length {
        return Err(Reason::OutputTooShort);
    }
    mask_tree(language, index, seen, kind, tree, output);
    Ok(length)
}

// The masked form of the tree of a kind: 15 and 16 in reading order, 17 where it is longer than the output. The whole tree is
// read before a byte is written.
fn mask_read(
    language: &[u8],
    index: &[u16; INDEX],
    seen: u32,
    kind: u8,
    tree: &[u8],
    output: &mut [u8],
) -> Outcome
    requires { Ready index.now language.now kind tree.now 0 }
    ensures { GivesTree language.now index.now seen kind tree.now output.old output.new result }
{
    let e = read_tree(language, index, kind, tree, 0, TREE_LEVELS)?;
    if e != tree.len() {
        return Err(Reason::IllegalTree);
    }
    mask_legal(language, index, seen, kind, tree, output)
}

// The masked form of a tree: the lowest of 1 to 4 for the language and the card, 14 to 16 for the tree, 17 where the masked tree is
// longer than the output.
fn mask_opened(language: &[u8], root: u32, card: &[u8], tree: &[u8], output: &mut [u8]) -> Outcome
    ensures { (result ≡ (mask_tree language.now root card.now tree.now output.old).outcome)
        × (output.new ≡ (mask_tree language.now root card.now tree.now output.old).output) }
{
    let mut index = [0u16; INDEX];
    let opened = open_language(language, root, &mut index);
    let seen = with_card(opened, read_card(card))?;
    mask_read(language, &index, seen, root as u8, tree, output)
}

// Mask a tree for the holder of a card.
pub fn mask(language: &[u8], root: u32, card: &[u8], tree: &[u8], output: &mut [u8]) -> Answer
    ensures { (result.outcome ≡ (mask_tree language.now root card.now tree.now output.old).outcome)
        × (output.new ≡ (mask_tree language.now root card.now tree.now output.old).output) }
{
    Answer::from(mask_opened(language, root, card, tree, output))
}
