// The linear form of a code, all its places in one walk. The code is known to be legal, so it is walked by the index and nothing
// is tested again but the finished forms.
ghost use Rattle.std.specs.Prelude.{◌≡◌, List, ℕ, ◌+◌, ◌<◌, ◌≤◌, length, nat_abs};
ghost use Rattle.format_language.specs.Language.{Language};
ghost use Rattle.tree_reader.specs.Code.{Code, Codes, node};
ghost use Rattle.tree_reader.specs.Typing.{Uses};
ghost use Rattle.score_tree.specs.Linear.{Loads};
ghost use Rattle.score_tree.specs.Inner.Terms.{bytes_of, all_bytes, LeafIn, TermAsks, NodeAsks, Asked, AddsLeaf, AddsRow, Adds};

use crate::figures::{add_scaled, is_figure};
use crate::loaded::Loaded;
use format_fields::bytes::pair_in;
use tree_reader::node::place_at;
use tree_reader::operands::{first_operand, last_operand, production_key};

// The most places that a form has: a constant, and a factor for each argument.
pub const PLACES: usize = 9;

// Adds a factor times the form of the leaf at a position to a sum, and says where the leaf ends. Only so many places are asked
// for: an argument past them is not among them.
fn add_leaf(bytes: &[u8], at: usize, factor: i32, count: usize, sum: &mut [i64; PLACES]) -> usize
    requires { LeafIn bytes.now at × Asked factor count sum.old }
    ensures { AddsLeaf bytes.now at factor count sum.old sum.new result }
{
    if bytes[at] == 2 {
        let value = pair_in(bytes, at + 1) as i64;
        sum[0] = add_scaled(sum[0], factor, value);
        return at + 3;
    }
    let number = usize::from(bytes[at + 1]);
    if count <= number {
        return at + 2;
    }
    sum[number] = add_scaled(sum[number], factor, 1);
    at + 2
}

// Adds a factor times a finished form to a sum, place by place, where each place fits two bytes.
fn add_row(row: &[i64; PLACES], factor: i32, count: usize, sum: &mut [i64; PLACES]) -> Option<()>
    requires { Asked factor count row.now × Asked factor count sum.old }
    ensures { AddsRow row.now factor count sum.old sum.new result }
{
    for j in 0..count {
        let z = row[j];
        if !is_figure(z) {
            return None;
        }
        sum[j] = add_scaled(sum[j], factor, z);
    }
    Some(())
}

// Adds a factor times the first places of the form of the code of a kind at a position, with so many levels left, and says where
// the code ends; none where a production's finished form does not fit two bytes.
#[cycle(form_at_form_node)]
pub fn form_at(
    loaded: &Loaded,
    kind: u8,
    bytes: &[u8],
    at: usize,
    left: usize,
    factor: i32,
    count: usize,
    sum: &mut [i64; PLACES],
) -> Option<usize>
    requires { Asked factor count sum.old × ((l : Language) × (given : Uses) × (w : Loads) × (u : Code) × TermAsks loaded.now bytes.now kind at left l given w u) }
    ensures { (l : Language) (given : Uses) (w : Loads) (u : Code) → TermAsks loaded.now bytes.now kind at left l given w u
        → Adds w u factor count sum.old sum.new (at + length (bytes_of u)) result }
{
    if bytes[at] != 1 {
        return Some(add_leaf(bytes, at, factor, count, sum));
    }
    let name = usize::from(bytes[at + 1]);
    let key = production_key(usize::from(kind), name);
    let production = place_at(loaded.index, key);
    form_node(
        loaded,
        production,
        bytes,
        at + 2,
        left - 1,
        factor,
        count,
        sum,
    )
}

// The same for the production whose field stands before `production` in the language and whose operands stand at a position. The
// form is put together in a row of its own, as it is tested once it is finished.
#[cycle(form_at_form_node)]
fn form_node(
    loaded: &Loaded,
    production: usize,
    bytes: &[u8],
    at: usize,
    left: usize,
    factor: i32,
    count: usize,
    sum: &mut [i64; PLACES],
) -> Option<usize>
    requires { Asked factor count sum.old × ((l : Language) × (given : Uses) × (w : Loads) × (k : ℕ) × (p : ℕ) × (ts : Codes) × (ks : List ℕ) × NodeAsks loaded.now production bytes.now at left l given w k p ts ks) }
    ensures { (l : Language) (given : Uses) (w : Loads) (k p : ℕ) (ts : Codes) (ks : List ℕ) → NodeAsks loaded.now production bytes.now at left l given w k p ts ks
        → Adds w (node k p ts) factor count sum.old sum.new (at + length (all_bytes ts)) result }
{
    let stop = last_operand(loaded.language, production);
    let mut row = [0i64; PLACES];
    row[0] = i64::from(loaded.figures[production + 3]);
    let mut to = at;
    for q in first_operand(production)..stop {
        let kind = loaded.language[q];
        let load = loaded.figures[q];
        to = form_at(loaded, kind, bytes, to, left, load, count, &mut row)?;
    }
    add_row(&row, factor, count, sum)?;
    Some(to)
}
