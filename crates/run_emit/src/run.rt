// The run of a translation by a number: it calls itself on argument trees and on inner codes, and the levels left fall at each
// call.
ghost use Rattle.std.specs.Prelude.{◌≡◌, List, ℕ, ◌+◌, ◌<◌, ◌≤◌, length, set, replicate};
ghost use Rattle.tree_reader.specs.Code as Terms;
ghost use Rattle.tree_reader.specs.Code.{Codes};
ghost use Rattle.tree_reader.specs.Typing.{Uses};
ghost use Rattle.format_translation.specs.Translation.{Translation};
ghost use Rattle.format_translation.specs.Running.{transform};
ghost use Rattle.run_table.specs.Inner.Stands.{Wrote};
ghost use Rattle.run_emit.specs.Inner.Runs.{bytes_of, used_number, UseRoom, Same, ClauseLeft, InnerLeft, TermAsks};
ghost use Rattle.run_emit.specs.Inner.Readings.{bytes_in, row_bytes_in, leaf_length, leaf_run, node_bytes, argument_bytes, LeafAsks, Node, NodeAt, Started, NodeAsks, RowAsks, PlacedAsks};

use crate::put::{put_code_leaf, put_name, put_token};
use crate::reading::Reading;
use crate::skip::{is_leaf, leaf_length, sign_length};
use crate::starts::{ENDS_AT, KINDS_AT, NODE, START_AT, last_end, start_of};
use run_table::table::{
    body_at, clause_at, clause_end, index_at, numbered_start, rank_of, source_at, span_at,
};
use tree_reader::index::TABLE;
use tree_reader::node::Syntax;

// What a level of the tree takes of the levels left: at a node they are a multiple of it, and between two nodes the remainder
// falls at each call.
const TREE_LEVEL: usize = 32;

// What a node takes of them for its clause: the remainder is 17 there, for the 15 levels that a code has below its root, the call on an
// argument, and the next node.
const NODE_LEVELS: usize = 15;

// Where a term is used whose run is put out: as the root, by a number, or at a position of the body.
#[derive(Clone, Copy, Debug, PartialEq, Eq)]
enum Used {
    Root(usize),
    At(usize),
}

// By which number a term is run: 03 in the body uses by 0, 04 by the number behind the argument's.
fn number_at(table: &[u16; TABLE], used: Used) -> usize
    requires { UseRoom table.now used }
    ensures { result ≡ used_number table.now used }
{
    match used {
        Used::Root(number) => number,
        Used::At(c) if body_at(table, c) == 3 => 0,
        Used::At(c) => body_at(table, c + 2),
    }
}

// The rank of the number by which a term of a kind is run: it is kept at a use.
fn rank_at(table: &[u16; TABLE], used: Used, kind: usize) -> usize
    requires { (kind < 32) × UseRoom table.now used }
    ensures { result < 65536 }
{
    match used {
        Used::Root(number) => rank_of(table, kind, number),
        Used::At(c) => span_at(table, c),
    }
}

// Sets a node, all zero before, to the production of a kind that stands at a position of the input, and answers where the code
// of its clause starts, of the number by which it is used.
fn start_node(
    reading: &Reading,
    kind: usize,
    used: Used,
    at: usize,
    node: &mut [usize; NODE],
) -> usize
    requires { (node.old ≡ replicate 10 0) × UseRoom reading.now.table.now used × ((f : Translation) × (given : Uses) × (u : Terms.Code) × NodeAt reading.now at kind used f given u) }
    ensures { (f : Translation) (given : Uses) (u : Terms.Code) → NodeAt reading.now at kind used f given u
        → Started reading.now node.new at result used f given u }
{
    let table = reading.table;
    let p = at + sign_length(reading.syntax);
    let name = usize::from(reading.input[p]);
    let key = 32 + (kind * 256 + name);
    node[KINDS_AT] = index_at(table, key) + 4;
    node[START_AT] = p + 1;
    let number = number_at(table, used);
    if number == 0 {
        return clause_at(table, key) + 4;
    }
    numbered_start(table, kind, name, number, rank_at(table, used, kind))
}

// Puts out the run of argument j of a node, a leaf at a position of the input, by the number by which it is used. Where it ends
// is kept.
fn put_argument(
    reading: &Reading,
    at: usize,
    used: Used,
    node: &mut [usize; NODE],
    j: usize,
    output: &mut [u8],
    pos: usize,
) -> usize
    requires { UseRoom reading.now.table.now used × LeafAsks reading.now at used × (j < 8) × (pos ≤ length output.old) }
    ensures { Wrote (leaf_run reading.now at used) output.old output.new pos result
        × (node.new ≡ set node.old (j + 1) (at + leaf_length reading.now at)) }
{
    let input = reading.input;
    node[j + ENDS_AT] = at + leaf_length(reading, at);
    match reading.syntax {
        Syntax::Tree => put_token(Syntax::Tree, input[at], input[at + 1], output, pos),
        Syntax::Code => put_code_leaf(input, at, number_at(reading.table, used), output, pos),
    }
}

// The run of a production of a kind whose tree stands at a position of the input, by the number by which it is used: the code of
// its clause, each use replaced by the run of that argument. Where the tree ends is kept in the node above it, as the end of argument j.
#[cycle(run_argument_run_codes_run_node_run_row)]
fn run_node(
    reading: &Reading,
    kind: usize,
    used: Used,
    at: usize,
    left: usize,
    above: &mut [usize; NODE],
    j: usize,
    output: &mut [u8],
    pos: usize,
) -> usize
    requires { (pos ≤ length output.old) × (j < 8) × UseRoom reading.now.table.now used × ((f : Translation) × (given : Uses) × (u : Terms.Code) × NodeAsks reading.now at kind used left f given u) }
    ensures { (f : Translation) (given : Uses) (u : Terms.Code) → NodeAsks reading.now at kind used left f given u
        → Wrote (node_bytes reading.now f used u) output.old output.new pos result
        × (above.new ≡ set above.old (j + 1) (at + length (bytes_in reading.now u))) }
{
    let table = reading.table;
    let mut node = [0usize; NODE];
    let mut c = start_node(reading, kind, used, at, &mut node);
    let stop = clause_end(table, c);
    let mut p = pos;
    if body_at(table, c) == 1 {
        p = put_name(reading.syntax, body_at(table, c + 1) as u8, output, pos);
        c += 2;
    }
    p = run_row(reading, c, stop, left - NODE_LEVELS, &mut node, output, p);
    above[j + ENDS_AT] = last_end(reading, &mut node);
    p
}

// The run of argument j of a node, counted from 0, which starts at a position of the input and is used at c in the body.
#[cycle(run_argument_run_codes_run_node_run_row)]
#[inline(always)]
fn run_argument(
    reading: &Reading,
    c: usize,
    at: usize,
    left: usize,
    node: &mut [usize; NODE],
    j: usize,
    output: &mut [u8],
    pos: usize,
) -> usize
    requires { (pos ≤ length output.old) × ((f : Translation) × (given : Uses) × (ts : Codes) × (ks : List ℕ) × PlacedAsks reading.now node.old left j at c f given ts ks) }
    ensures { (f : Translation) (given : Uses) (ts : Codes) (ks : List ℕ) → PlacedAsks reading.now node.old left j at c f given ts ks
        → Wrote (argument_bytes reading.now f ts c) output.old output.new pos result
        × Node reading.now node.new f.source given ts ks
        × Same node.old node.new }
{
    let used = Used::At(c);
    let kind = source_at(reading.table, node[KINDS_AT] + j);
    if is_leaf(reading, kind, at) {
        return put_argument(reading, at, used, node, j, output, pos);
    }
    let whole = left - left % TREE_LEVEL;
    run_node(reading, kind, used, at, whole, node, j, output, pos)
}

// Codes in a row, each use replaced by the run of that argument. It stands in line in a node and in inner codes, so that a node of
// the tree costs one call.
#[cycle(run_argument_run_codes_run_node_run_row)]
#[inline(always)]
fn run_row(
    reading: &Reading,
    at: usize,
    stop: usize,
    left: usize,
    node: &mut [usize; NODE],
    output: &mut [u8],
    pos: usize,
) -> usize
    requires { ClauseLeft left × ((f : Translation) × (given : Uses) × (ts : Codes) × (ks : List ℕ) × (cs : Codes) × (js : List ℕ) × RowAsks reading.now node.old at stop left f given ts ks cs js) }
    ensures { (f : Translation) (given : Uses) (ts : Codes) (ks : List ℕ) (cs : Codes) (js : List ℕ) → RowAsks reading.now node.old at stop left f given ts ks cs js
        → Wrote (row_bytes_in reading.now f ts cs) output.old output.new pos result
        × Node reading.now node.new f.source given ts ks
        × Same node.old node.new }
{
    let table = reading.table;
    let mut c = at;
    let mut p = pos;
    while c < stop {
        if output.len() < p {
            return p;
        }
        let sign = body_at(table, c);
        if 2 < sign {
            let i = body_at(table, c + 1) - 1;
            let a = start_of(reading, node, i);
            p = run_argument(reading, c, a, left - 1, node, i, output, p);
            c += sign - 1;
        } else if sign == 1 {
            p = put_name(reading.syntax, body_at(table, c + 1) as u8, output, p);
            let a = c + 2;
            c = span_at(table, c);
            p = run_codes(reading, a, c, left - 1, node, output, p);
        } else {
            let high = body_at(table, c + 1) as u8;
            let low = body_at(table, c + 2) as u8;
            p = put_token(reading.syntax, high, low, output, p);
            c += 3;
        }
    }
    p
}

// Inner codes in a row: a call of its own, whose frame has no node.
#[cycle(run_argument_run_codes_run_node_run_row)]
fn run_codes(
    reading: &Reading,
    at: usize,
    stop: usize,
    left: usize,
    node: &mut [usize; NODE],
    output: &mut [u8],
    pos: usize,
) -> usize
    requires { InnerLeft left × ((f : Translation) × (given : Uses) × (ts : Codes) × (ks : List ℕ) × (cs : Codes) × (js : List ℕ) × RowAsks reading.now node.old at stop left f given ts ks cs js) }
    ensures { (f : Translation) (given : Uses) (ts : Codes) (ks : List ℕ) (cs : Codes) (js : List ℕ) → RowAsks reading.now node.old at stop left f given ts ks cs js
        → Wrote (row_bytes_in reading.now f ts cs) output.old output.new pos result
        × Node reading.now node.new f.source given ts ks
        × Same node.old node.new }
{
    run_row(reading, at, stop, left, node, output, pos)
}

// The run by a number of the term of a kind that the input starts with.
pub fn run(
    syntax: Syntax,
    table: &[u16; TABLE],
    input: &[u8],
    ends: &[u32],
    kind: u8,
    number: u8,
    deep: usize,
    output: &mut [u8],
    pos: usize,
) -> usize
    requires { (pos ≤ length output.old) × ((f : Translation) × (given : Uses) × (u : Terms.Code) × TermAsks syntax table.now input.now ends.now deep kind number f given u) }
    ensures { (f : Translation) (given : Uses) (u : Terms.Code) → TermAsks syntax table.now input.now ends.now deep kind number f given u
        → Wrote (bytes_of syntax (transform f number u)) output.old output.new pos result }
{
    let reading = Reading {
        syntax,
        table,
        input,
        ends,
    };
    let k = kind as usize;
    let used = Used::Root(number as usize);
    let mut above = [0usize; NODE];
    let is_whole = is_leaf(&reading, k, 0);
    if is_whole {
        return put_argument(&reading, 0, used, &mut above, 0, output, pos);
    }
    let left = TREE_LEVEL * deep;
    run_node(&reading, k, used, 0, left, &mut above, 0, output, pos)
}
