// What is put into the table so that the clause of a number is found without a walk: where each clause of a number other
// than 0 stands, and the ranks of the numbers that arguments are used by. No answer rests on them.
ghost use Rattle.std.specs.Prelude.{◌≡◌, true, List, ℕ, ◌+◌, ◌<◌, ◌≤◌, length};
ghost use Rattle.tree_reader.specs.Inner.Index.{table_length};
ghost use Rattle.run_table.specs.Inner.Table.{hint_entry, is_place};
ghost use Rattle.run_table.specs.Inner.Filling.{Hinted, Beside};

use crate::table::{HINT_COUNT, HINTS, SOURCE, SPANS};
use format_fields::bytes::{byte_at, pair_at};
use format_fields::walk::{KINDS, MAPPING, NAMES, NUMBERED, field_end};
use format_translation::body::{NUMBERED_CLAUSE, is_clause};
use format_translation::clause::code_start;
use tree_reader::node::{NUMBERED_ARGUMENT, TOKEN, USES};

// Keeps p as hint `next`, where a clause of a number other than 0 stands there, and answers which hint is the next. Behind
// a clause of number 0 that is the one of rank 1.
fn put_hint(body: &[u8], p: usize, next: usize, table: &mut [u16]) -> usize
    requires { (length body.now ≤ 4096) × (p < length body.now) × (next ≤ p) × (length table.old ≡ table_length) }
    ensures { (result ≤ p + 2) × ((t : List ℕ) → is_place body.now p ≡ true → Hinted body.now t table.old → Hinted body.now t table.new) }
{
    if body[p] != NUMBERED_CLAUSE {
        return (p + 1) / 8 + 1;
    }
    if next < HINT_COUNT {
        table[HINTS + next] = p as u16;
    }
    next + 1
}

// Keeps the places of all clauses of other numbers than 0. Those of a production follow its clause of number 0 by rising
// number, and each has at least eight bytes; so an eighth of the place behind that clause's first byte plus the rank gives each
// clause a hint of its own.
pub fn put_hints(body: &[u8], table: &mut [u16])
    requires { (length body.now ≤ 4096) × (length table.old ≡ table_length) × ((i : ℕ) → hint_entry table.old i ≡ 0) }
    ensures { Hinted body.now table.old table.new }
{
    let mut next = 0;
    let mut p = 0;
    while p < body.len() {
        next = put_hint(body, p, next, table);
        p = field_end(body, p);
    }
}

// Some kind has a number other than 0.
fn has_numbers(body: &[u8]) -> bool {
    let mut p = 0;
    while p < body.len() {
        if body[p] == NUMBERED {
            return true;
        }
        if is_clause(body[p]) {
            return false;
        }
        p = field_end(body, p);
    }
    false
}

// The rank of a mapping with this tag, behind one of a rank: a mapping by number 0 is the first of its kind.
fn next_rank(tag: u8, rank: u8) -> u8 {
    if tag == MAPPING {
        0
    } else {
        rank.saturating_add(1)
    }
}

// Puts the rank of each number of each kind into a table that is all zero, by kind and number.
fn count_ranks(body: &[u8], ranks: &mut [u8])
    requires { length body.now ≤ 4096 }
    ensures { length ranks.new ≡ length ranks.old }
{
    let mut rank = 0u8;
    let mut p = 0;
    while p < body.len() {
        if is_clause(body[p]) {
            return;
        }
        rank = next_rank(body[p], rank);
        if let Some(kept) = ranks.get_mut(pair_at(body, p + 3)) {
            *kept = rank;
        }
        p = field_end(body, p);
    }
}

// An entry of the table, and 0 past its end.
fn entry_at(table: &[u16], i: usize) -> usize
    ensures { result < 65536 }
{
    table.get(i).map_or(0, |&x| usize::from(x))
}

// Keeps the rank of the number that an argument is used by, where that stands at c in the body. The kinds of the arguments
// stand in the table behind `kinds`.
fn rank_use(body: &[u8], c: usize, kinds: usize, ranks: &[u8], table: &mut [u16])
    requires { (length body.now ≤ 4096) × (kinds < 100000) × (length table.old ≡ table_length) }
    ensures { Beside table.old table.new }
{
    if body.get(c) != Some(&NUMBERED_ARGUMENT) {
        return;
    }
    let kind = entry_at(table, kinds + usize::from(byte_at(body, c + 1)));
    let rank = byte_at(ranks, kind * NAMES + usize::from(byte_at(body, c + 2)));
    table[SPANS + c] = u16::from(rank);
}

// How many bytes a sign in a code takes with what belongs to it: two with a name or an argument, three with a token or an
// argument by a number.
fn sign_length(sign: u8) -> usize
    ensures { (2 ≤ result) × (result ≤ 3) }
{
    match sign {
        TOKEN | NUMBERED_ARGUMENT => 3,
        _ => 2,
    }
}

// Keeps the ranks in the code from `from` up to e.
fn rank_code(body: &[u8], from: usize, e: usize, kinds: usize, ranks: &[u8], table: &mut [u16])
    requires { (length body.now ≤ 4096) × (e < 100000) × (kinds < 100000) × (length table.old ≡ table_length) }
    ensures { Beside table.old table.new }
{
    let mut c = from;
    while c < e {
        rank_use(body, c, kinds, ranks, table);
        c += sign_length(byte_at(body, c));
    }
}

// Keeps the ranks in the code of the field from p up to e, where it is a clause.
fn rank_field(body: &[u8], p: usize, e: usize, ranks: &[u8], table: &mut [u16])
    requires { (length body.now ≤ 4096) × (p < length body.now) × (e < 100000) × (length table.old ≡ table_length) }
    ensures { Beside table.old table.new }
{
    if !is_clause(body[p]) {
        return;
    }
    let place = entry_at(table, KINDS + pair_at(body, p + 3));
    rank_code(
        body,
        code_start(body, p),
        e,
        SOURCE + 3 + place,
        ranks,
        table,
    );
}

// Keeps, where an argument is used by a number other than 0, the rank of that number among those of the argument's kind.
pub fn put_ranks(body: &[u8], table: &mut [u16])
    requires { (length body.now ≤ 4096) × (length table.old ≡ table_length) }
    ensures { Beside table.old table.new }
{
    if !has_numbers(body) {
        return;
    }
    let mut ranks = [0u8; USES];
    count_ranks(body, &mut ranks);
    let mut p = 0;
    while p < body.len() {
        let e = field_end(body, p);
        rank_field(body, p, e, &ranks, table);
        p = e;
    }
}
