// The names of the productions of a kind, along the file of the source, where they stand by rising kind and name.
ghost use Rattle.std.specs.Prelude.{◌≡◌, List, ℕ, ◌+◌, ◌<◌, ◌≤◌, length, get_or};
ghost use Rattle.format_language.specs.Language.{production_key};
ghost use Rattle.format_translation.specs.Translation.{Translation};
ghost use Rattle.format_translation.specs.Running.{clauses_of};
ghost use Rattle.search_sources.specs.Inner.Goals.{Goal};
ghost use Rattle.search_levels.specs.Inner.Setting.{Filed, Unnamed, Without, Named, IsNamed, up_to, Seeks};

use crate::clause::root_differs;
use format_fields::bytes::byte_at;
use run_table::table::{clause_at, index_at};
use tree_reader::index::TABLE;
use tree_reader::operands::{KINDS, NAMES, last_operand, production_key};

// The first name, from one on, that a production of the kind has.
pub fn name_from(table: &[u16; TABLE], kind: usize, from: usize) -> Option<usize>
    requires { (kind < 32) × (from ≤ 256) }
    ensures { (from ≤ up_to result) × IsNamed table.now kind result × Unnamed table.now kind from (up_to result) }
{
    for name in from..NAMES {
        if index_at(table, production_key(kind, name)) != 0 {
            return Some(name);
        }
    }
    None
}

// The name of the kind's next production behind that of a name, which stands where that ends.
fn name_behind(table: &[u16; TABLE], source: &[u8], kind: usize, name: usize) -> Option<usize>
    requires { (kind < 32) × (name < 256) × (0 < get_or table.now (production_key kind name) 0) × Filed table.now source.now }
    ensures { (name < up_to result) × IsNamed table.now kind result × Unnamed table.now kind (name + 1) (up_to result) }
{
    let place = index_at(table, production_key(kind, name));
    let next = last_operand(source, place);
    if source.len() <= next {
        return None;
    }
    if usize::from(source[next + 3]) != kind {
        return None;
    }
    Some(usize::from(source[next + 4]))
}

// The first name, from one on that a production of the kind has, whose clause has the root that stands at a position, or an
// argument there.
pub fn candidate(
    table: &[u16; TABLE],
    source: &[u8],
    tree: &[u8],
    kind: usize,
    at: usize,
    from: Option<usize>,
) -> Option<usize>
    requires { IsNamed table.now kind from
        × ((target places kinds memory free : List ℕ) × (f : Translation) × (g : Goal) × Seeks table.now source.now target places kinds tree.now memory free kind at f g) }
    ensures { (up_to from ≤ up_to result) × IsNamed table.now kind result
        × ((target places kinds memory free : List ℕ) (f : Translation) (g : Goal) → Seeks table.now source.now target places kinds tree.now memory free kind at f g
        → Without f.source (clauses_of f) kind g (up_to from) (up_to result)) }
{
    let mut next = from;
    while let Some(name) = next {
        if !root_differs(
            table,
            tree,
            clause_at(table, production_key(kind, name)),
            at,
        ) {
            return next;
        }
        next = name_behind(table, source, kind, name);
    }
    None
}

// The name to go on with behind one. None is left where no tree can need less.
pub fn next_name(
    table: &[u16; TABLE],
    source: &[u8],
    tree: &[u8],
    kind: usize,
    at: usize,
    name: usize,
    best: usize,
) -> Option<usize>
    requires { (name < 256) × Named table.now kind name
        × ((target places kinds memory free : List ℕ) × (f : Translation) × (g : Goal) × Seeks table.now source.now target places kinds tree.now memory free kind at f g) }
    ensures { (name < up_to result) × (up_to result < 256 → 0 < best) × IsNamed table.now kind result
        × ((target places kinds memory free : List ℕ) (f : Translation) (g : Goal) → Seeks table.now source.now target places kinds tree.now memory free kind at f g
        → 0 < best → Without f.source (clauses_of f) kind g (name + 1) (up_to result)) }
{
    if best == 0 {
        return None;
    }
    let behind = name_behind(table, source, kind, name);
    candidate(table, source, tree, kind, at, behind)
}

// The name to start with: kinds have a name each below which none of their productions has one.
pub fn first_name(
    table: &[u16; TABLE],
    source: &[u8],
    kinds: &[u8],
    tree: &[u8],
    kind: usize,
    at: usize,
) -> Option<usize>
    requires { (target places memory free : List ℕ) × (f : Translation) × (g : Goal) × Seeks table.now source.now target places kinds.now tree.now memory free kind at f g }
    ensures { IsNamed table.now kind result
        × ((target places memory free : List ℕ) (f : Translation) (g : Goal) → Seeks table.now source.now target places kinds.now tree.now memory free kind at f g
        → Without f.source (clauses_of f) kind g 0 (up_to result)) }
{
    let lowest = usize::from(byte_at(kinds, KINDS + kind));
    candidate(
        table,
        source,
        tree,
        kind,
        at,
        name_from(table, kind, lowest),
    )
}
