// Where legal trees end: of all parts of a tree it is worked out in one walk and kept, where there is room.
ghost use Rattle.std.specs.Prelude.{◌≡◌, ◌+◌, ◌≤◌, length};
ghost use Rattle.format_language.specs.Language.{Language};
ghost use Rattle.tree_reader.specs.Code.{Code, Codes, levels_all};
ghost use Rattle.tree_reader.specs.Syntax.{write, write_all, tree as inTrees};
ghost use Rattle.tree_reader.specs.Inner.Positions.{KindsIn};
ghost use Rattle.tree_index.specs.Inner.Lying.{There, Row};
ghost use Rattle.search_levels.specs.Inner.Setting.{TrueEnds};
ghost use Rattle.search_levels.specs.Inner.Ends.{Fills};

use crate::memory::{keep_end, kept_end};
use tree_index::operands::{OperandsAt, operands_at};
use tree_reader::read::read_tree;

// The most levels of a tree that was accepted.
pub const TREE_LEVELS: usize = 64;

// Where the tree of a kind ends that starts at a position, by reading it: it is legal, so this does not fail.
fn read_end(language: &[u8], places: &[u16], kind: u8, tree: &[u8], at: usize) -> usize
    requires { (l : Language) × (t : Code) × There places.now language.now tree.now at kind l t }
    ensures { (l : Language) (t : Code) → There places.now language.now tree.now at kind l t
        → result ≡ at + length (write inTrees t) }
{
    read_tree(language, places, kind, tree, at, TREE_LEVELS).unwrap()
}

// The same, where it is not kept.
pub fn end_of(
    language: &[u8],
    places: &[u16],
    kind: u8,
    tree: &[u8],
    memory: &[u8],
    at: usize,
) -> usize
    requires { (l : Language) × (t : Code) × There places.now language.now tree.now at kind l t × TrueEnds l tree.now memory.now }
    ensures { (l : Language) (t : Code) → There places.now language.now tree.now at kind l t → TrueEnds l tree.now memory.now
        → result ≡ at + length (write inTrees t) }
{
    if let Some(known) = kept_end(memory, kind, at) {
        return known;
    }
    read_end(language, places, kind, tree, at)
}

// Keeps where the operands of a node end, and their parts; they have at most so many levels. It answers where the last one ends.
pub fn keep_ends(
    language: &[u8],
    places: &[u16],
    operands: OperandsAt,
    tree: &[u8],
    levels: usize,
    memory: &mut [u8],
) -> usize
    requires { KindsIn language.now operands.first operands.last
        × ((l : Language) × (ts : Codes) × Row places.now language.now tree.now operands.start operands.first operands.last l ts × (levels_all ts ≤ levels)) }
    ensures { (l : Language) (ts : Codes) → Row places.now language.now tree.now operands.start operands.first operands.last l ts
        → Fills l tree.now memory.old memory.new (operands.start + length (write_all inTrees ts)) result }
{
    let mut to = operands.start;
    for q in operands.first..operands.last {
        let kind = language[q];
        let inner = operands_at(language, places, kind, tree, to);
        if inner.last <= inner.first {
            keep_end(memory, kind, to, inner.start);
            to = inner.start;
        } else {
            let end = keep_ends(language, places, inner, tree, levels - 1, memory);
            keep_end(memory, kind, to, end);
            to = end;
        }
    }
    to
}
