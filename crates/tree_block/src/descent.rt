// The way from the root of a legal tree to the block at a path, by the tree's index: arguments are stepped over by the lengths
// that stand there.
ghost use Rattle.std.specs.Prelude.{Bool, List, ℕ, ◌-◌, ◌<◌};
ghost use Rattle.std.proofs.Math.Seq.{slice};
ghost use Rattle.format_language.specs.Language.{Language};
ghost use Rattle.tree_reader.specs.Code.{Code, Codes};
ghost use Rattle.tree_reader.specs.Inner.Positions.{KindsIn};
ghost use Rattle.tree_block.specs.Blocks.{block_of, argument_after, argument_of, block_at};
ghost use Rattle.tree_block.specs.Inner.Descent.{SetOf, Along, AlongRow, Leads, Ends};

use format_card::set::in_set;
use format_fields::bytes::pair_in;
use outcome::Reason;
use tree_index::entries::{ENTRY, entry_from};
use tree_index::operands::{OperandsAt, operands_at};

// The set of all kinds: bit k stands for kind k.
pub const EVERY_KIND: u32 = u32::MAX;

// Where a block stands: its start in the tree, its kind, and its entry in the index.
#[derive(Clone, Copy)]
pub struct BlockAt {
    pub start: usize,
    pub kind: u8,
    pub entry: usize,
}

// Of operands whose entries stand in the index from `entry` on, the one of a number, counted from 1.
fn argument_among(
    language: &[u8],
    operands: OperandsAt,
    index: &[u8],
    entry: usize,
    number: u8,
) -> Option<BlockAt>
    requires { (0 < number) × KindsIn language.now operands.first operands.last
        × ((x : List ℕ) × (b : List ℕ) × (l : Language) × (ts : Codes) × AlongRow x language.now b index.now operands.start entry operands.first operands.last l ts) }
    ensures { (x b : List ℕ) (l : Language) (ts : Codes) → AlongRow x language.now b index.now operands.start entry operands.first operands.last l ts
        → Leads x language.now b index.now l (argument_after (slice operands.first operands.last language.now) ts (number - 1) operands.start) result }
{
    let mut start = operands.start;
    let mut p = entry;
    let mut left = number;
    for q in operands.first..operands.last {
        if left == 1 {
            return Some(BlockAt {
                start,
                kind: language[q],
                entry: p,
            });
        }
        start += pair_in(index, p + 2);
        p = entry_from(index, p, start);
        left -= 1;
    }
    None
}

// The argument of a number, counted from 1, of a block.
fn argument(
    language: &[u8],
    places: &[u16],
    tree: &[u8],
    index: &[u8],
    block: BlockAt,
    number: u8,
) -> Option<BlockAt>
    requires { (l : Language) × (t : Code) × Along places.now language.now tree.now index.now block.start block.kind block.entry l t }
    ensures { (l : Language) (t : Code) → Along places.now language.now tree.now index.now block.start block.kind block.entry l t
        → Leads places.now language.now tree.now index.now l (argument_of l block.start t number) result }
{
    if number == 0 {
        return None;
    }
    let operands = operands_at(language, places, block.kind, tree, block.start);
    argument_among(language, operands, index, block.entry + ENTRY, number)
}

// The block at a path of the whole tree, which is of a kind and has the index: 21 where there is none, 25 where it or one on the way
// is not of the kinds that may be seen, which are the set `seen`.
pub fn descend(
    language: &[u8],
    places: &[u16],
    kind: u8,
    tree: &[u8],
    index: &[u8],
    path: &[u8],
    seen: u32,
) -> Result<BlockAt, Reason>
    requires { (l : Language) × (t : Code) × Along places.now language.now tree.now index.now 0 kind 0 l t }
    ensures { (l : Language) (t : Code) (sees : ℕ → Bool) → Along places.now language.now tree.now index.now 0 kind 0 l t → SetOf seen sees
        → Ends places.now language.now tree.now index.now l (block_at sees l path.now (block_of 0 kind t)) result }
{
    let mut block = BlockAt {
        start: 0,
        kind,
        entry: 0,
    };
    for &number in path {
        if !in_set(seen, block.kind) {
            return Err(Reason::Hidden);
        }
        block = argument(language, places, tree, index, block, number).ok_or(Reason::NoBlock)?;
    }
    if !in_set(seen, block.kind) {
        return Err(Reason::Hidden);
    }
    Ok(block)
}
