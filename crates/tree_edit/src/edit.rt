// The operation that replaces one block of a plan.
ghost use Rattle.std.specs.Prelude.{◌≡◌, Bool, List, ℕ, ◌+◌, ◌-◌, ◌≤◌, length};
ghost use Rattle.format_language.specs.Language.{Language};
ghost use Rattle.tree_reader.specs.Code.{Code};
ghost use Rattle.tree_index.specs.Operations.{longest};
ghost use Rattle.tree_block.specs.Blocks.{block_of, block_at};
ghost use Rattle.tree_block.specs.Inner.Descent.{SetOf};
ghost use Rattle.tree_edit.specs.Plans.{replace_at};
ghost use Rattle.tree_edit.specs.Operations.{in_rooms, edit_tree};
ghost use Rattle.tree_edit.specs.Answers.{Hands};
ghost use Rattle.tree_edit.specs.Inner.Moving.{Replaces, Reaches, Owns, plan_in, block_in, path_in, Gives, edited};

use crate::moves::{put_index, put_plan};
use format_card::lowest::with_card;
use format_card::read::read_card;
use outcome::{Outcome, Reason};
use tree_block::descent::descend;
use tree_block::show::{Spot, spot_of};
use tree_index::build::{LONGEST, check_own, write_index};
use tree_index::entries::entry_from;
use tree_reader::index::INDEX;
use tree_reader::read::{TREE_LEVELS, read_tree};

// What the edit hands back: an acceptance has the length of the new plan, and `indexed` is the length of its index. A refusal
// has 0 in both.
#[derive(Clone, Copy, Debug, PartialEq, Eq)]
pub struct Edited {
    pub outcome: Outcome,
    pub indexed: usize,
}

// How many bytes a new plan has, and how many its index.
#[derive(Clone, Copy, Debug, PartialEq, Eq)]
pub struct Lengths {
    pub plan: usize,
    pub index: usize,
}

// Puts plan and index, where both have room: 17. The new block is legal, and the new plan has `size` bytes.
fn rewrite(
    language: &[u8],
    places: &[u16],
    tree: &[u8],
    index: &[u8],
    old: Spot,
    block: &[u8],
    size: usize,
    plan: &mut [u8],
    plan_index: &mut [u8],
) -> Result<Lengths, Reason>
    requires { (size ≡ length tree.now - old.size + length block.now) × (size ≤ longest) × ((path : List ℕ) × (kind : ℕ) × (l : Language) × (t : Code) × (a : Code) × (u : Code)
        × Replaces places.now language.now tree.now index.now path block.now kind old.kind old.start old.size l t a u) }
    ensures { (path : List ℕ) (kind : ℕ) (l : Language) (t a u : Code)
        → Replaces places.now language.now tree.now index.now path block.now kind old.kind old.start old.size l t a u
        → Gives (in_rooms (length plan.old) (length plan_index.old) (replace_at path u t)) plan.old plan.new plan_index.old plan_index.new result }
{
    let stop = old.start + old.size;
    let first = entry_from(index, 0, old.start);
    let last = entry_from(index, first, stop);
    let end = write_index(language, places, old.kind, block, old.start, &mut [], first);
    let length = end + (index.len() - last);
    if plan.len() < size || plan_index.len() < length {
        return Err(Reason::OutputTooShort);
    }
    put_plan(tree, old.start, stop, block, plan);
    put_index(language, places, old, block, index, first, last, plan_index);
    Ok(Lengths {
        plan: size,
        index: length,
    })
}

// The plan with a new block that is legal: 22 where it is too long, 17.
fn replace(
    language: &[u8],
    places: &[u16],
    tree: &[u8],
    index: &[u8],
    old: Spot,
    block: &[u8],
    plan: &mut [u8],
    plan_index: &mut [u8],
) -> Result<Lengths, Reason>
    requires { (path : List ℕ) × (kind : ℕ) × (l : Language) × (t : Code) × (a : Code) × (u : Code)
        × Replaces places.now language.now tree.now index.now path block.now kind old.kind old.start old.size l t a u }
    ensures { (path : List ℕ) (kind : ℕ) (l : Language) (t a u : Code)
        → Replaces places.now language.now tree.now index.now path block.now kind old.kind old.start old.size l t a u
        → Gives (plan_in (length plan.old) (length plan_index.old) path u t) plan.old plan.new plan_index.old plan_index.new result }
{
    let size = tree.len() - old.size + block.len();
    if LONGEST < size {
        return Err(Reason::NotIndexed);
    }
    rewrite(
        language, places, tree, index, old, block, size, plan, plan_index,
    )
}

// The plan with a new block for the one to which a path of so many numbers leads: 15 and 16 for the new block, 22, 17.
fn replace_block(
    language: &[u8],
    places: &[u16],
    tree: &[u8],
    index: &[u8],
    old: Spot,
    numbers: usize,
    block: &[u8],
    plan: &mut [u8],
    plan_index: &mut [u8],
) -> Result<Lengths, Reason>
    requires { (path : List ℕ) × (kind : ℕ) × (l : Language) × (t : Code) × (a : Code)
        × Reaches places.now language.now tree.now index.now path kind old.kind old.start old.size numbers l t a }
    ensures { (path : List ℕ) (kind : ℕ) (l : Language) (t a : Code)
        → Reaches places.now language.now tree.now index.now path kind old.kind old.start old.size numbers l t a
        → Gives (block_in (length plan.old) (length plan_index.old) l path (block_of old.start old.kind a) block.now t) plan.old plan.new plan_index.old plan_index.new result }
{
    let levels = TREE_LEVELS.saturating_sub(numbers);
    let e = read_tree(language, places, old.kind, block, 0, levels)?;
    if e != block.len() {
        return Err(Reason::IllegalTree);
    }
    replace(language, places, tree, index, old, block, plan, plan_index)
}

// The edit of a legal plan that has the index, where `seen` is the set of kinds that may be seen: 25 and 21 along the path, 15
// and 16 for the new block, 22, 17.
fn edit_legal(
    language: &[u8],
    places: &[u16],
    kind: u8,
    tree: &[u8],
    index: &[u8],
    path: &[u8],
    seen: u32,
    block: &[u8],
    plan: &mut [u8],
    plan_index: &mut [u8],
) -> Result<Lengths, Reason>
    requires { (l : Language) × (t : Code) × Owns places.now language.now tree.now index.now kind l t }
    ensures { (l : Language) (t : Code) (sees : ℕ → Bool) → Owns places.now language.now tree.now index.now kind l t → SetOf seen sees
        → Gives (path_in (length plan.old) (length plan_index.old) l path.now (block_at sees l path.now (block_of 0 kind t)) block.now t) plan.old plan.new plan_index.old plan_index.new result }
{
    let at = descend(language, places, kind, tree, index, path, seen)?;
    let old = spot_of(at, index);
    let numbers = path.len();
    replace_block(
        language, places, tree, index, old, numbers, block, plan, plan_index,
    )
}

// The edit of a plan: the lowest of 1 to 4 for the language and the card, 14 to 16 for the plan, 22 for its index, 25 and 21 along the
// path, 15 and 16 for the new block, 22 for a new plan that is too long, 17 where one of the outputs is too short.
fn edit_opened(
    language: &[u8],
    root: u32,
    tree: &[u8],
    index: &[u8],
    path: &[u8],
    card: &[u8],
    block: &[u8],
    plan: &mut [u8],
    plan_index: &mut [u8],
) -> Result<Lengths, Reason>
    ensures { Hands (edit_tree language.now root tree.now index.now path.now card.now block.now plan.old plan_index.old)
        plan.new plan_index.new (edited result) }
{
    let mut places = [0u16; INDEX];
    let owned = check_own(language, root, tree, index, &mut places);
    let seen = with_card(owned, read_card(card))?;
    edit_legal(
        language, &places, root as u8, tree, index, path, seen, block, plan, plan_index,
    )
}

// Replace the block at a path of a plan, for the holder of a card.
pub fn edit(
    language: &[u8],
    root: u32,
    tree: &[u8],
    index: &[u8],
    path: &[u8],
    card: &[u8],
    block: &[u8],
    plan: &mut [u8],
    plan_index: &mut [u8],
) -> Edited
    ensures { Hands (edit_tree language.now root tree.now index.now path.now card.now block.now plan.old plan_index.old)
        plan.new plan_index.new result }
{
    match edit_opened(
        language, root, tree, index, path, card, block, plan, plan_index,
    ) {
        Ok(lengths) => Edited {
            outcome: Ok(lengths.plan),
            indexed: lengths.index,
        },
        Err(reason) => Edited {
            outcome: Err(reason),
            indexed: 0,
        },
    }
}
