// Filling the table that a run looks things up in.
ghost use Rattle.std.specs.Prelude.{◌≡◌, List, ℕ, ◌+◌, ◌<◌, ◌≤◌, length, get_or, set};
ghost use Rattle.format_language.specs.Language.{Language, production_key};
ghost use Rattle.tree_reader.specs.Code.{Code};
ghost use Rattle.tree_reader.specs.Typing.{Uses};
ghost use Rattle.tree_reader.specs.Inner.Index.{Built, Sound, Indexed};
ghost use Rattle.format_translation.specs.Translation.{Translation};
ghost use Rattle.format_translation.specs.Inner.ItemIndex.{Mapped};
ghost use Rattle.format_fields.specs.Inner.Writing.{spliced};
ghost use Rattle.tree_reader.specs.Inner.Index.{table_length};
ghost use Rattle.run_table.specs.Inner.Table.{spans_start, Checked, Ready};
ghost use Rattle.run_table.specs.Inner.Filling.{target_index, Begun, Filled, Beside, PlaceIs, LeafEnds, CodeAsks, Spanned, FieldAsks, FieldSpanned, AllSpanned, with_clause, Itemed};

use crate::hints::{put_hints, put_ranks};
use crate::table::{BODY, ITEMS, SOURCE, SPANS};
use format_fields::bytes::{byte_at, pair_at};
use format_fields::walk::field_end;
use format_language::entries::CLASS;
use format_translation::body::{CLAUSE, is_clause};
use format_translation::clause::{clause_number, code_start};
use format_translation::index::mapped_by;
use tree_reader::index::{INDEX, TABLE, put_index};
use tree_reader::node::{ARGUMENT, NAME};
use tree_reader::operands::{KINDS, first_operand, last_operand, production_key};

// Puts bytes into the table, from a position on.
fn put_bytes(s: &[u8], a: usize, table: &mut [u16])
    requires { a + length s.now ≤ length table.old }
    ensures { table.new ≡ spliced table.old a s.now }
{
    for (i, &x) in s.iter().enumerate() {
        table[a + i] = u16::from(x);
    }
}

// Puts the bytes of the source and of the body into the table.
fn fill(source: &[u8], body: &[u8], table: &mut [u16])
    requires { (length source.now ≤ 1024) × (length body.now ≤ 4096) × (length table.old ≡ table_length) }
    ensures { Filled source.now body.now table.old table.new }
{
    put_bytes(source, SOURCE, table);
    put_bytes(body, BODY, table);
}

// Where the field of a production of the target stands, and one more, by the index of the target in the table.
fn place_of(table: &[u16], kind: u8, name: u8) -> Option<usize>
    requires { (length table.now ≡ table_length) × (kind < 32) }
    ensures { PlaceIs (get_or (target_index table.now) (production_key kind name) 0) result }
{
    match table[ITEMS + production_key(usize::from(kind), usize::from(name))] {
        0 => None,
        place => Some(usize::from(place)),
    }
}

// Keeps where the production's code at a position of the body ends.
fn set_span(table: &mut [u16], at: usize, end: usize)
    requires { (length table.old ≡ table_length) × (at < 4096) × (end < 65536) }
    ensures { table.new ≡ set table.old (spans_start + at) end }
{
    table[SPANS + at] = end as u16;
}

// Where the leaf of a code at a position of the body ends, if no production's code stands there.
fn leaf_end(body: &[u8], at: usize) -> Option<usize>
    requires { at ≤ 4102 }
    ensures { LeafEnds body.now at result }
{
    match *body.get(at)? {
        NAME => None,
        ARGUMENT => Some(at + 2),
        _ => Some(at + 3),
    }
}

// Keeps where the code of a kind at a position of the body ends, and where each production's code in it does, and answers
// where it ends. It calls itself on the operands that are productions, one level fewer. The index of the target stands in the table.
fn span_code(
    target: &[u8],
    body: &[u8],
    kind: u8,
    at: usize,
    levels: usize,
    table: &mut [u16],
) -> usize
    requires { Sound (target_index table.old) target.now × (kind < 32) × (length body.now ≤ 4096) × (at ≤ 4102) × (length table.old ≡ table_length) }
    ensures { (result ≤ 4102) × Beside table.old table.new
        × ((l : Language) (given : Uses) (a : Code) → CodeAsks target.now (target_index table.old) body.now kind at levels l given a
        → Spanned table.old table.new at a result) }
{
    if let Some(e) = leaf_end(body, at) {
        return e;
    }
    if body.len() <= at || levels == 0 {
        return at;
    }
    let Some(place) = place_of(table, kind, byte_at(body, at + 1)) else {
        return at;
    };
    let mut c = at + 2;
    for q in first_operand(place)..last_operand(target, place) {
        c = match leaf_end(body, c) {
            Some(e) => e,
            None => span_code(target, body, target[q], c, levels - 1, table),
        };
    }
    set_span(table, at, c);
    c
}

// Keeps the spans of the code in the field of the body at a position, where it is a clause.
fn span_field(target: &[u8], body: &[u8], uses: &[u8], p: usize, table: &mut [u16])
    requires { Sound (target_index table.old) target.now × (length body.now ≤ 4096) × (p < length body.now) × (length table.old ≡ table_length) }
    ensures { Beside table.old table.new
        × ((l : Language) (given : Uses) (a : Code) → FieldAsks target.now (target_index table.old) body.now uses.now p l given a
        → FieldSpanned body.now p table.old table.new a) }
{
    if !is_clause(body[p]) {
        return;
    }
    let kind = mapped_by(uses, byte_at(body, p + 3), clause_number(body, p));
    if 31 < kind {
        return;
    }
    span_code(target, body, kind, code_start(body, p), 16, table);
}

// Keeps the spans of the codes of all clauses.
fn span_all(target: &[u8], body: &[u8], uses: &[u8], table: &mut [u16])
    requires { Sound (target_index table.old) target.now × (length body.now ≤ 4096) × (length table.old ≡ table_length) }
    ensures { Beside table.old table.new
        × ((s : List ℕ) (f : Translation) → Checked s target.now body.now f → Indexed (target_index table.old) target.now f.target
        → Mapped uses.now f.body → AllSpanned body.now table.old table.new f) }
{
    let mut p = 0;
    while p < body.len() {
        span_field(target, body, uses, p, table);
        p = field_end(body, p);
    }
}

// Keeps where the field at p stands, if it is a clause of number 0, by its kind and name.
fn put_clause(body: &[u8], p: usize, table: &mut [u16])
    requires { (length body.now ≤ 4096) × (p < length body.now) × (length table.old ≡ table_length) }
    ensures { table.new ≡ with_clause body.now p table.old }
{
    if body[p] != CLAUSE {
        return;
    }
    let key = KINDS + pair_at(body, p + 3);
    if INDEX <= key {
        return;
    }
    table[ITEMS + key] = (p + 1) as u16;
}

// Keeps where each clause of number 0 stands, by its kind and name, in place of the index of the target. At other keys nothing
// is looked up.
fn put_clauses(body: &[u8], table: &mut [u16])
    requires { (length body.now ≤ 4096) × (length table.old ≡ table_length) }
    ensures { Itemed body.now table.old table.new }
{
    let mut p = 0;
    while p < body.len() {
        put_clause(body, p, table);
        p = field_end(body, p);
    }
}

// Fills the table of a translation that was accepted, by the bytes of its source, target and body and by what kinds map to by
// number. The indexes of the source and of the target stand in the table, and it is all zero besides; that of the source stays.
pub fn prepare(source: &[u8], target: &[u8], body: &[u8], uses: &[u8], table: &mut [u16; TABLE])
    requires { Begun source.now target.now table.old × ((f : Translation) × Checked source.now target.now body.now f) }
    ensures { Built 0x11 source.now table.new 0
        × ((f : Translation) → Checked source.now target.now body.now f → Mapped uses.now f.body → Ready table.new f) }
{
    fill(source, body, table);
    put_hints(body, table);
    put_ranks(body, table);
    span_all(target, body, uses, table);
    put_clauses(body, table);
}

// Puts the indexes of the source and of the target into a table that is all zero.
pub fn begin(source: &[u8], target: &[u8], table: &mut [u16; TABLE])
    requires { (length source.now ≤ 1024) × (length target.now ≤ 1024) × ((j : ℕ) → get_or table.old j 0 ≡ 0) }
    ensures { Begun source.now target.now table.new }
{
    put_index(source, CLASS, 0, table);
    put_index(target, CLASS, ITEMS, table);
}
