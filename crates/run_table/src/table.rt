// The table that a run looks things up in: its length, where its parts start, and what stands in them.
ghost use Rattle.std.specs.Prelude.{◌≡◌, true, List, ℕ, ◌+◌, ◌*◌, ◌<◌, length, IfSome};
ghost use Rattle.std.proofs.Math.Option.{some};
ghost use Rattle.format_fields.specs.Lists.{is_some};
ghost use Rattle.format_language.specs.Language.{arguments_of};
ghost use Rattle.tree_reader.specs.Code.{Code};
ghost use Rattle.tree_reader.specs.Syntax.{write, code};
ghost use Rattle.tree_reader.specs.Inner.Index.{index_length};
ghost use Rattle.format_translation.specs.Translation.{Translation, mapping_of};
ghost use Rattle.format_translation.specs.Running.{clauses_of};
ghost use Rattle.run_table.specs.Inner.Table.{index_entry, clause_entry, source_byte, body_byte, span_entry, hint_entry, numbered_is, Clause, Ready, NumberedAsks};

use format_fields::walk::NUMBERED;
use format_language::check::LANGUAGE_LIMIT;
use format_translation::body::NUMBERED_CLAUSE;
use format_translation::parts::TRANSLATION_LIMIT;
use tree_reader::index::{INDEX, TABLE};
use tree_reader::operands::production_key;

// Where the index of the target starts and, once that is no longer looked at, the places of the clauses of number 0, by kind and
// name.
pub const ITEMS: usize = INDEX;

// Where the bytes of the source start.
pub const SOURCE: usize = ITEMS + INDEX;

// Where the bytes of the body start.
pub const BODY: usize = SOURCE + LANGUAGE_LIMIT;

// Where the positions start at which the productions' codes in the body end, and the ranks of the numbers that arguments are
// used by.
pub const SPANS: usize = BODY + TRANSLATION_LIMIT;

// Where the places of the clauses of other numbers than 0 start.
pub const HINTS: usize = SPANS + TRANSLATION_LIMIT;

// How many of them there are.
pub const HINT_COUNT: usize = 520;

// A field with a number has at least six bytes, so none starts in the body from here on.
const LAST_FIELD: usize = TRANSLATION_LIMIT - 5;

// What the index of the source holds under a key.
pub fn index_at(table: &[u16; TABLE], key: usize) -> usize
    requires { key < index_length }
    ensures { (result ≡ index_entry table.now key) × (result < 65536) }
{
    usize::from(table[key])
}

// Where the clause of number 0 of a production of the source stands, and one more, by its key.
pub fn clause_at(table: &[u16; TABLE], key: usize) -> usize
    requires { key < index_length }
    ensures { (result ≡ clause_entry table.now key) × (result < 65536) }
{
    usize::from(table[ITEMS + key])
}

// A byte of the source.
pub fn source_at(table: &[u16; TABLE], i: usize) -> usize
    requires { i < 1024 }
    ensures { (result ≡ source_byte table.now i) × (result < 65536) }
{
    usize::from(table[SOURCE + i])
}

// A byte of the body.
pub fn body_at(table: &[u16; TABLE], c: usize) -> usize
    requires { c < 4096 }
    ensures { (result ≡ body_byte table.now c) × (result < 65536) }
{
    usize::from(table[BODY + c])
}

// Where the code of the production at c in the body ends; where an argument is used by a number other than 0, the rank of
// that number.
pub fn span_at(table: &[u16; TABLE], c: usize) -> usize
    requires { c < 4096 }
    ensures { (result ≡ span_entry table.now c) × (result < 65536) }
{
    usize::from(table[SPANS + c])
}

// Where the code of a clause ends that starts at c in the body.
pub fn clause_end(table: &[u16; TABLE], c: usize) -> usize
    requires { (a : Code) × Clause table.now c a }
    ensures { (a : Code) → Clause table.now c a → result ≡ c + length (write code a) }
{
    let sign = body_at(table, c);
    if sign == 1 {
        return span_at(table, c);
    }
    if sign == 3 {
        return c + 2;
    }
    c + 3
}

// The field at p of the body is the clause of a kind, a name and a number other than 0.
fn is_numbered(table: &[u16; TABLE], p: usize, kind: usize, name: usize, number: usize) -> bool
    requires { p < 4091 }
    ensures { result ≡ numbered_is table.now p kind name number }
{
    body_at(table, p) == usize::from(NUMBERED_CLAUSE)
        && body_at(table, p + 3) == kind
        && body_at(table, p + 4) == name
        && body_at(table, p + 5) == number
}

// Where the field at p of the body ends.
fn end_of_field(table: &[u16; TABLE], p: usize) -> usize
    requires { p < 4091 }
    ensures { (result ≡ p + 3 + (body_byte table.now (p + 1) * 256 + body_byte table.now (p + 2))) × (result < 17000000) }
{
    p + 3 + (body_at(table, p + 1) * 256 + body_at(table, p + 2))
}

// Where the code of the clause of a number other than 0 starts, found by a walk over the fields of the body.
fn walk_start(table: &[u16; TABLE], kind: usize, name: usize, number: usize) -> usize
    requires { 0 < number }
    ensures { (f : Translation) (ks : List ℕ) → NumberedAsks table.now kind name number f ks → Clause table.now result (clauses_of f kind name number) }
{
    let mut p = 0;
    while p < LAST_FIELD {
        if is_numbered(table, p, kind, name, number) {
            return p + 6;
        }
        p = end_of_field(table, p);
    }
    p
}

// The place of the body that a hint holds, where it holds one: that of the clause of a rank, where `first` is the place of the
// clause of number 0, and one more.
fn hinted_place(table: &[u16; TABLE], first: usize, rank: usize) -> Option<usize>
    requires { first < 65536 }
    ensures { IfSome result (λ p. (0 < p) × (p < 4091) × ((i : ℕ) × (p ≡ hint_entry table.now i))) }
{
    let hint = (first / 8).checked_add(rank)?;
    if HINT_COUNT <= hint {
        return None;
    }
    let p = usize::from(table[HINTS + hint]);
    (0 < p && p < LAST_FIELD).then_some(p)
}

// Where the code of the clause of a number other than 0 starts. The rank of the number among those of its kind, counted
// from 0, only says where to look first.
pub fn numbered_start(
    table: &[u16; TABLE],
    kind: usize,
    name: usize,
    number: usize,
    rank: usize,
) -> usize
    requires { (kind < 32) × (name < 256) × ((f : Translation) × (ks : List ℕ) × Ready table.now f × (arguments_of f.source kind name ≡ some ks) × (is_some (mapping_of f.body kind number) ≡ true) × (0 < number)) }
    ensures { (f : Translation) (ks : List ℕ) → Ready table.now f → arguments_of f.source kind name ≡ some ks → is_some (mapping_of f.body kind number) ≡ true → Clause table.now result (clauses_of f kind name number) }
{
    let first = clause_at(table, production_key(kind, name));
    match hinted_place(table, first, rank) {
        Some(p) if is_numbered(table, p, kind, name, number) => p + 6,
        _ => walk_start(table, kind, name, number),
    }
}

// The field at p of the body is a mapping of a kind by a number other than 0.
fn is_mapping(table: &[u16; TABLE], p: usize, kind: usize) -> bool
    requires { p < 4091 }
{
    body_at(table, p) == usize::from(NUMBERED) && body_at(table, p + 3) == kind
}

// The rank of a number among those of a kind, counted from 0: the mappings of a kind follow each other by rising number.
pub fn rank_of(table: &[u16; TABLE], kind: usize, number: usize) -> usize
    ensures { result < 65536 }
{
    if number == 0 {
        return 0;
    }
    let mut p = 0;
    let mut rank = 0;
    while p < LAST_FIELD {
        if is_mapping(table, p, kind) {
            rank += 1;
            if body_at(table, p + 4) == number {
                return rank;
            }
        }
        p = end_of_field(table, p);
    }
    0
}
