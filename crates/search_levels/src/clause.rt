// A clause's code matched with the target tree: names and tokens are compared byte by byte, and where an argument comes
// again its tree must be the one that it was bound to.
ghost use Rattle.std.specs.Prelude.{◌≡◌, true, false, List, ℕ, ◌+◌, ◌<◌, ◌≤◌, length, take, drop};
ghost use Rattle.tree_reader.specs.Code.{Code, Codes};
ghost use Rattle.format_translation.specs.Translation.{Translation};
ghost use Rattle.search_sources.specs.Inner.Goals.{Goal};
ghost use Rattle.run_table.specs.Inner.Table.{body_byte};
ghost use Rattle.search_levels.specs.Inner.Clauses.{ArgumentGives, width, StepGives, MatchAsks, MatchGives};
ghost use Rattle.search_levels.specs.Inner.Searching.{ArgumentAsksIn, StepAsksIn, MatchAsksIn};

use crate::ends::end_of;
use crate::searched::Searched;
use format_fields::bytes::byte_at;
use run_table::table::{body_at, clause_end, source_at};
use tree_reader::index::TABLE;

// The signs of a code: a token of two bytes, and an argument; any other is a production.
const TOKEN: usize = 2;

const ARGUMENT: usize = 3;

// How many bytes stand before the code of a clause, from where its entry in the table says on.
const CODE: usize = 4;

// The same for the byte behind its sign.
const NEXT: usize = 5;

// Whether the n bytes from a on are those from b on.
fn same_part(tree: &[u8], a: usize, b: usize, n: usize) -> bool
    requires { (a ≤ b) × (b + n ≤ length tree.now) }
    ensures { (result ≡ true → take n (drop a tree.now) ≡ take n (drop b tree.now))
        × (result ≡ false → take n (drop a tree.now) ≡ take n (drop b tree.now) → ⊥) }
{
    tree[a..a + n] == tree[b..b + n]
}

// Where the tree ends that lies at `to`, where argument i comes, counted from 0; none where it is bound to another tree.
fn argument(
    searched: &Searched,
    memory: &[u8],
    kind: u8,
    to: usize,
    bound: &mut [usize; 8],
    i: usize,
) -> Option<usize>
    requires { (f : Translation) × (ks : List ℕ) × (b : ℕ → Goal) × (u : Code) × ArgumentAsksIn searched.now memory.now bound.old kind to i f ks b u }
    ensures { (f : Translation) (ks : List ℕ) (b : ℕ → Goal) (u : Code) → ArgumentAsksIn searched.now memory.now bound.old kind to i f ks b u
        → ArgumentGives searched.now.tree.now bound.new to i result f ks b u }
{
    let tree = searched.tree;
    let end = end_of(searched.target, searched.places, kind, tree, memory, to);
    let start = bound[i];
    if tree.len() <= start {
        bound[i] = to;
        return Some(end);
    }
    if same_part(tree, start, to, end - to) {
        return Some(end);
    }
    None
}

// How many bytes of the code stand for one step.
fn width_of(sign: usize) -> usize
    ensures { (result ≡ width sign) × (2 ≤ result) × (result ≤ 3) }
{
    if sign == TOKEN { 3 } else { 2 }
}

// Where the next code's bytes in the tree end: the tree goes on at `to`, the code at c of the body. None where they differ.
fn step(
    searched: &Searched,
    memory: &[u8],
    place: usize,
    c: usize,
    to: usize,
    bound: &mut [usize; 8],
) -> Option<usize>
    requires { (stop : ℕ) × (f : Translation) × (ks js : List ℕ) × (cs us : Codes) × (b : ℕ → Goal) × StepAsksIn searched.now memory.now bound.old place c stop to f ks js cs us b }
    ensures { (stop : ℕ) (f : Translation) (ks js : List ℕ) (cs us : Codes) (b : ℕ → Goal) → StepAsksIn searched.now memory.now bound.old place c stop to f ks js cs us b
        → StepGives searched.now.table.now searched.now.tree.now bound.new c stop result f ks cs us b }
{
    let table = searched.table;
    let tree = searched.tree;
    let sign = body_at(table, c);
    if sign == ARGUMENT {
        let i = body_at(table, c + 1) - 1;
        let kind = byte_at(searched.kinds, source_at(table, place + 4 + i));
        return argument(searched, memory, kind, to, bound, i);
    }
    if usize::from(byte_at(tree, to)) != body_at(table, c + 1) {
        return None;
    }
    if sign != TOKEN {
        return Some(to + 1);
    }
    if usize::from(byte_at(tree, to + 1)) != body_at(table, c + 2) {
        return None;
    }
    Some(to + 2)
}

// Whether the root of a clause's code is another than what stands at a position: another name, or another first byte of a token.
pub fn root_differs(table: &[u16; TABLE], tree: &[u8], clause: usize, at: usize) -> bool
    requires { (target places kinds memory bound : List ℕ) × (place : ℕ) × (f : Translation) × (k p : ℕ) × (ks : List ℕ) × (g : Goal) × MatchAsks table.now target places kinds tree.now memory bound place clause at f k p ks g }
    ensures { result ≡ true → (target places kinds memory bound : List ℕ) (place : ℕ) (f : Translation) (k p : ℕ) (ks : List ℕ) (g : Goal) → MatchAsks table.now target places kinds tree.now memory bound place clause at f k p ks g
        → MatchGives tree.now bound false f k p ks g }
{
    if tree.len() <= at {
        return false;
    }
    if body_at(table, clause + CODE) == ARGUMENT {
        return false;
    }
    usize::from(tree[at]) != body_at(table, clause + NEXT)
}

// Whether the clause of a production matches what is asked at a position; its arguments are bound to what they come at. A code
// that is an argument alone is bound to the whole tree there.
pub fn matches(
    searched: &Searched,
    memory: &[u8],
    place: usize,
    clause: usize,
    at: usize,
    bound: &mut [usize; 8],
) -> bool
    requires { (f : Translation) × (k p : ℕ) × (ks : List ℕ) × (g : Goal) × MatchAsksIn searched.now memory.now bound.old place clause at f k p ks g }
    ensures { (f : Translation) (k p : ℕ) (ks : List ℕ) (g : Goal) → MatchAsksIn searched.now memory.now bound.old place clause at f k p ks g
        → MatchGives searched.now.tree.now bound.new result f k p ks g }
{
    let table = searched.table;
    if searched.tree.len() <= at {
        return true;
    }
    if body_at(table, clause + CODE) == ARGUMENT {
        bound[body_at(table, clause + NEXT) - 1] = at;
        return true;
    }
    let stop = clause_end(table, clause + CODE);
    let mut c = clause + CODE;
    let mut to = at;
    while c < stop {
        let Some(end) = step(searched, memory, place, c, to, bound) else {
            return false;
        };
        to = end;
        c += width_of(body_at(table, c));
    }
    true
}
