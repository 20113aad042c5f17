// The walk over a legal tree that puts its masked form into an output. The tree was measured before, so that it is legal and
// the output has room: the tests of both do not fail then.
ghost use Rattle.std.specs.Prelude.{◌≡◌, false, cond, [], ◌∷◌, ℕ, ◌+◌, ◌<◌, ◌≤◌, length, get_or, drop, take};
ghost use Rattle.tree_reader.specs.Inner.Index.{Ready};
ghost use Rattle.format_card.specs.Inner.Sets.{in_set};
ghost use Rattle.tree_mask.specs.Mask.{hidden_block};
ghost use Rattle.tree_mask.specs.Inner.Rows.{Walkable};
ghost use Rattle.tree_mask.specs.Inner.Masking.{Puts, EndsTree, MasksRow, Advances, MasksWhole};

use crate::row::Row;
use format_card::set::in_set;
use tree_reader::index::INDEX;
use tree_reader::node::{Syntax, place_at, production_place};
use tree_reader::read::read_tree;

// The byte that stands for a hidden block.
const HIDDEN: u8 = 0xFF;

// Where the legal tree of a kind ends that starts at a position.
fn end_at(
    language: &[u8],
    index: &[u16; INDEX],
    kind: u8,
    tree: &[u8],
    at: usize,
    levels: usize,
) -> usize
    requires { Ready index.now language.now kind tree.now at }
    ensures { EndsTree language.now index.now kind tree.now at levels result }
{
    read_tree(language, index, kind, tree, at, levels).unwrap_or(at)
}

// Puts a byte behind the first n, if there is room for it.
fn put(byte: u8, out: &mut [u8], n: usize)
    ensures { Puts (byte ∷ []) out.old out.new n (n + 1) }
{
    if n < out.len() {
        out[n] = byte;
    }
}

// Puts the two bytes of a token behind the first n, or one byte where it is hidden, and gives where they end.
fn put_token(seen: bool, tree: &[u8], at: usize, out: &mut [u8], n: usize) -> usize
    requires { (at + 2 ≤ length tree.now) × (n ≤ at) }
    ensures { Puts (cond seen (take 2 (drop at tree.now)) hidden_block) out.old out.new n result × (result ≤ n + 2) }
{
    if !seen {
        put(HIDDEN, out, n);
        return n + 1;
    }
    let end = n + 2;
    if end <= out.len() {
        out[n..end].copy_from_slice(&tree[at..at + 2]);
    }
    end
}

// The next tree of a row, of a kind that is hidden: one byte. Gives the row behind it.
fn mask_hidden(
    language: &[u8],
    index: &[u16; INDEX],
    kind: u8,
    tree: &[u8],
    row: Row,
    out: &mut [u8],
) -> Row
    requires { Walkable language.now index.now tree.now row × (row.kind < row.stop) × (kind ≡ get_or language.now row.kind 0) }
    ensures { (seen : ℕ) → in_set seen kind ≡ false → Advances language.now index.now seen tree.now row out.old result out.new }
{
    let e = end_at(language, index, kind, tree, row.tree, row.levels);
    if e <= row.tree {
        return row.ended();
    }
    put(HIDDEN, out, row.text);
    row.behind(e, row.text + 1)
}

// Puts the masked forms of the trees of a row, one after the other, and gives the row at its end. Behind the last tree nothing is
// left to do, so its operands are the next row; those of another one are put one call deeper.
fn mask_row(
    language: &[u8],
    index: &[u16; INDEX],
    seen: u32,
    tree: &[u8],
    row: Row,
    out: &mut [u8],
) -> Row
    requires { Walkable language.now index.now tree.now row }
    ensures { Walkable language.now index.now tree.now result
        × MasksRow language.now index.now seen tree.now row out.old out.new result.tree result.text }
{
    let mut next = row;
    while next.kind < next.stop {
        let q = next.kind;
        let at = next.tree;
        let kind = language[q];
        let class = place_at(index, usize::from(kind));
        let place = production_place(Syntax::Tree, index, class, kind, tree, at);
        if place == 0 {
            if tree.len() - at < 2 {
                return next.ended();
            }
            let text = put_token(in_set(seen, kind), tree, at, out, next.text);
            next = next.behind(at + 2, text);
            continue;
        }
        if !in_set(seen, kind) {
            next = mask_hidden(language, index, kind, tree, next, out);
            continue;
        }
        if next.levels == 0 {
            return next.ended();
        }
        put(tree[at], out, next.text);
        let inner = next.inner(language, place);
        if next.kind + 1 == next.stop {
            next = inner;
            continue;
        }
        if inner.stop <= inner.kind {
            next = next.behind(inner.tree, inner.text);
            continue;
        }
        let ends = mask_row(language, index, seen, tree, inner, out);
        next = next.behind(ends.tree, ends.text);
    }
    next
}

// Puts the masked form of a legal tree of a kind, and gives its length.
pub fn mask_tree(
    language: &[u8],
    index: &[u16; INDEX],
    seen: u32,
    kind: u8,
    tree: &[u8],
    out: &mut [u8],
) -> usize
    requires { Ready index.now language.now kind tree.now 0 }
    ensures { MasksWhole language.now index.now seen kind tree.now out.old out.new result }
{
    if !in_set(seen, kind) {
        put(HIDDEN, out, 0);
        return 1;
    }
    let class = place_at(index, usize::from(kind));
    let place = production_place(Syntax::Tree, index, class, kind, tree, 0);
    if place == 0 {
        if tree.len() < 2 {
            return 0;
        }
        return put_token(true, tree, 0, out, 0);
    }
    put(tree[0], out, 0);
    let row = Row::whole().inner(language, place);
    let ends = mask_row(language, index, seen, tree, row, out);
    ends.text
}
