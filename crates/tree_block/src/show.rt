// The operation that shows one block of a tree.
ghost use Rattle.std.specs.Prelude.{◌≡◌, ◌+◌, ◌≤◌, length};
ghost use Rattle.format_fields.specs.Fields.{pair_at};
ghost use Rattle.format_language.specs.Language.{Language};
ghost use Rattle.tree_reader.specs.Code.{Code};
ghost use Rattle.tree_block.specs.Blocks.{block_of, block_at, every_kind};
ghost use Rattle.tree_block.specs.Operations.{found, shown, show_block};
ghost use Rattle.tree_block.specs.Parts.{Finds, Places, Handed};
ghost use Rattle.tree_block.specs.Inner.Descent.{Along};

use crate::descent::{BlockAt, EVERY_KIND, descend};
use format_fields::bytes::pair_in;
use outcome::{Outcome, Reason};
use tree_index::build::check_own;
use tree_reader::index::INDEX;

// What the lookup answers: the block is of a kind and lies in the tree from `start` up to `stop`. A refusal has 0 in each.
#[derive(Clone, Copy, Debug, PartialEq, Eq)]
pub struct Placed {
    pub outcome: Outcome,
    pub start: usize,
    pub stop: usize,
    pub kind: u32,
}

// A block as a part of the tree that was lent, and its kind.
#[derive(Clone, Copy)]
pub struct Part<'a> {
    pub bytes: &'a [u8],
    pub kind: u8,
}

// Where a block lies in its tree: its start, how many bytes it has, and its kind.
#[derive(Clone, Copy, Debug, PartialEq, Eq)]
pub struct Spot {
    pub start: usize,
    pub size: usize,
    pub kind: u8,
}

// Where a block lies; its entry in the index says how long it is.
pub fn spot_of(block: BlockAt, index: &[u8]) -> Spot
    requires { block.entry + 4 ≤ length index.now }
    ensures { (result.start ≡ block.start) × (result.size ≡ pair_at index.now (block.entry + 2)) × (result.kind ≡ block.kind) }
{
    Spot {
        start: block.start,
        size: pair_in(index, block.entry + 2),
        kind: block.kind,
    }
}

// Where the block at a path lies, in a legal tree of a kind that has the index: 21 where there is none.
fn find_in(
    language: &[u8],
    places: &[u16],
    kind: u8,
    tree: &[u8],
    index: &[u8],
    path: &[u8],
) -> Result<Spot, Reason>
    requires { (l : Language) × (t : Code) × Along places.now language.now tree.now index.now 0 kind 0 l t }
    ensures { (l : Language) (t : Code) → Along places.now language.now tree.now index.now 0 kind 0 l t
        → Finds (shown (found (block_at every_kind l path.now (block_of 0 kind t)))) tree.now result }
{
    let block = descend(language, places, kind, tree, index, path, EVERY_KIND)?;
    Ok(spot_of(block, index))
}

// Where the block at a path lies: 1 to 4 for the language, 14 to 16 for the whole tree, 22 for its index, 21 for the path.
fn find(language: &[u8], root: u32, tree: &[u8], index: &[u8], path: &[u8]) -> Result<Spot, Reason>
    ensures { Finds (show_block language.now root tree.now index.now path.now) tree.now result }
{
    let mut places = [0u16; INDEX];
    check_own(language, root, tree, index, &mut places)?;
    find_in(language, &places, root as u8, tree, index, path)
}

// Tell where the block at a path lies, or the refusal.
pub fn place(language: &[u8], root: u32, tree: &[u8], index: &[u8], path: &[u8]) -> Placed
    ensures { Places (show_block language.now root tree.now index.now path.now) tree.now result }
{
    match find(language, root, tree, index, path) {
        Ok(spot) => Placed {
            outcome: Ok(spot.size),
            start: spot.start,
            stop: spot.start + spot.size,
            kind: u32::from(spot.kind),
        },
        Err(reason) => Placed {
            outcome: Err(reason),
            start: 0,
            stop: 0,
            kind: 0,
        },
    }
}

// Show one block: the part of the lent tree that holds it, and its kind.
pub fn block<'a>(
    language: &[u8],
    root: u32,
    tree: &'a [u8],
    index: &[u8],
    path: &[u8],
) -> Result<Part<'a>, Reason>
    ensures { Handed (show_block language.now root tree.now index.now path.now) tree.entry result }
{
    let spot = find(language, root, tree, index, path)?;
    let stop = spot.start + spot.size;
    Ok(Part {
        bytes: &tree[spot.start..stop],
        kind: spot.kind,
    })
}
