// The old index and the old plan, moved to their places around the new block.
ghost use Rattle.std.specs.Prelude.{◌≡◌, List, ◌++◌, map, ℕ, ◌+◌, ◌-◌, ◌<◌, ◌≤◌, length, take, drop};
ghost use Rattle.format_fields.specs.Fields.{pair_at};
ghost use Rattle.format_fields.specs.Inner.Writing.{spliced};
ghost use Rattle.format_language.specs.Language.{Language};
ghost use Rattle.tree_reader.specs.Code.{Code};
ghost use Rattle.tree_index.specs.Spans.{Span, span, entry, entries};
ghost use Rattle.tree_index.specs.Operations.{longest};
ghost use Rattle.tree_index.specs.Inner.Marking.{last_place};
ghost use Rattle.tree_edit.specs.Inner.Moving.{moved, Movable, Part, Fits, Rewrites, moved_spans};

use format_fields::bytes::pair_in;
use format_fields::copy::{put, put_both};
use tree_block::show::Spot;
use tree_index::build::write_index;
use tree_index::entries::{ENTRY, put_entry};

// A block that starts at `start` changes its length.
#[derive(Clone, Copy)]
pub struct Change {
    pub start: usize,
    pub old: usize,
    pub new: usize,
}

// Puts an entry of the old index where it belongs in the new one.
fn move_entry(index: &[u8], at: usize, change: Change, out: &mut [u8], n: usize)
    requires { (at + 4 ≤ length index.now) × (n + 4 ≤ length out.old) × (n < last_place) × (change.start + change.old ≤ longest)
        × Fits change.old change.new (pair_at index.now at + pair_at index.now (at + 2))
        × (change.start < pair_at index.now at + pair_at index.now (at + 2) → pair_at index.now at < change.start + change.old → change.old ≤ pair_at index.now (at + 2)) }
    ensures { out.new ≡ spliced out.old n (entry (moved change.start change.old change.new (span (pair_at index.now at) (pair_at index.now (at + 2))))) }
{
    let Change { start, old, new } = change;
    let from = pair_in(index, at);
    let size = pair_in(index, at + 2);
    if start + old <= from {
        put_entry(from + new - old, size, out, n);
    } else if start < from + size {
        put_entry(from, size + new - old, out, n);
    } else {
        put_entry(from, size, out, n);
    }
}

// Puts the entries of the old index from one place up to another where they belong in the new one.
fn move_entries(index: &[u8], from: usize, stop: usize, change: Change, out: &mut [u8], n: usize)
    requires { (n + (stop - from) ≤ length out.old) × (n + (stop - from) < last_place) × (change.start + change.old ≤ longest)
        × ((top : ℕ) × (l : List Span) × Part index.now from stop l × Movable change.start change.old top l × Fits change.old change.new top) }
    ensures { (l : List Span) → Part index.now from stop l
        → out.new ≡ spliced out.old n (entries (map (moved change.start change.old change.new) l)) }
{
    for at in (from..stop).step_by(ENTRY) {
        move_entry(index, at, change, out, n + (at - from));
    }
}

// Puts the new index: the old one's entries in front of the block and behind it, which stand up to `first` and from `last` on,
// and between them those of the new block.
pub fn put_index(
    language: &[u8],
    places: &[u16],
    old: Spot,
    block: &[u8],
    index: &[u8],
    first: usize,
    last: usize,
    out: &mut [u8],
)
    requires { (top : ℕ) × (l : Language) × (a : Code) × (u : Code) × (front : List Span) × (back : List Span)
        × Rewrites places.now language.now block.now index.now old.kind old.start old.size top first last l a u front back
        × (length (entries (moved_spans old.start old.size u front back)) ≤ length out.old) }
    ensures { (top : ℕ) (l : Language) (a u : Code) (front back : List Span)
        → Rewrites places.now language.now block.now index.now old.kind old.start old.size top first last l a u front back
        → length (entries (moved_spans old.start old.size u front back)) ≤ length out.old
        → out.new ≡ spliced out.old 0 (entries (moved_spans old.start old.size u front back)) }
{
    let change = Change {
        start: old.start,
        old: old.size,
        new: block.len(),
    };
    move_entries(index, 0, first, change, out, 0);
    let m = write_index(language, places, old.kind, block, old.start, out, first);
    move_entries(index, last, index.len(), change, out, m);
}

// Puts the new plan: the old one's bytes before the block, the new block, and the old one's bytes from `stop` on.
pub fn put_plan(tree: &[u8], start: usize, stop: usize, block: &[u8], out: &mut [u8])
    requires { (start ≤ stop) × (stop ≤ length tree.now) × (start + length block.now + (length tree.now - stop) ≤ length out.old) }
    ensures { out.new ≡ spliced out.old 0 (take start tree.now ++ (block.now ++ drop stop tree.now)) }
{
    put_both(tree, 0, start, block, 0, block.len(), out, 0);
    put(tree, stop, tree.len(), out, start + block.len());
}
