// The body of a join: each item of the second's body, once for each number of the first, chained or run through the first.
ghost use Rattle.std.specs.Prelude.{◌≡◌, true, ◌<◌, ◌≤◌, length, replicate};
ghost use Rattle.format_fields.specs.Fields.{encode_field};
ghost use Rattle.format_fields.specs.Inner.Writing.{Stores};
ghost use Rattle.tree_reader.specs.Code as Terms;
ghost use Rattle.tree_reader.specs.Syntax.{write, code};
ghost use Rattle.tree_reader.specs.Typing.{Uses};
ghost use Rattle.tree_reader.specs.declared.node.Syntax.TheVariants.{Code};
ghost use Rattle.format_translation.specs.Translation.{mapping, Translation};
ghost use Rattle.format_translation.specs.TranslationFile.{item_field};
ghost use Rattle.format_translation.specs.Running.{transform};
ghost use Rattle.format_translation.specs.Inner.Items.{item_whole, item_at};
ghost use Rattle.run_emit.specs.Inner.Runs.{TermAsks};
ghost use Rattle.reduce_operators.specs.Inner.Paired.{reached};
ghost use Rattle.reduce_join.specs.Inner.Joining.{Joining, Reached, head_length, clause_head, ClauseAsks, NumberAsks, ReachAsks, paired_field, number_field, joined_field, joined_body};

use format_fields::bytes::byte_at;
use format_fields::copy::put;
use format_fields::walk::{MAPPING, NAMES, NUMBERED, field_end, order_at, whole_end};
use format_translation::body::{CLAUSE, NUMBERED_CLAUSE, is_clause};
use format_translation::clause::{CLAUSE_HEAD, NUMBERED_HEAD};
use run_emit::run::run;
use tree_reader::index::TABLE;
use tree_reader::node::Syntax;
use tree_reader::read::CODE_LEVELS;

// A join pairs numbers below this one: so many times that of the second plus that of the first.
pub const LOW_NUMBERS: usize = 16;

// How many bytes stand before the code in the field of a clause of this number.
fn head_length(number: usize) -> usize
    ensures { (result ≡ head_length number) × (5 ≤ result) × (result ≤ 6) }
{
    if number == 0 {
        return CLAUSE_HEAD;
    }
    NUMBERED_HEAD
}

// The field of a mapping, into the output from n on.
fn put_mapping(source: u8, number: usize, target: u8, out: &mut [u8], n: usize) -> Option<usize>
    requires { (number < 256) × (n ≤ length out.old) }
    ensures { Stores (encode_field (item_field (mapping source number target))) out.old out.new n result }
{
    if number == 0 {
        let plain = [MAPPING, 0, 2, source, target];
        return put(&plain, 0, 5, out, n);
    }
    let field = [NUMBERED, 0, 3, source, number as u8, target];
    put(&field, 0, 6, out, n)
}

// What stands before the code in the field of a clause with contents of this size, into the output from n on.
fn put_head(
    res: u8,
    name: u8,
    number: usize,
    size: usize,
    out: &mut [u8],
    n: usize,
) -> Option<usize>
    requires { (number < 256) × (size < 65536) × (n ≤ length out.old) }
    ensures { Stores (clause_head res name number size) out.old out.new n result }
{
    let high = (size / 256) as u8;
    let low = (size % 256) as u8;
    if number == 0 {
        let plain = [CLAUSE, high, low, res, name];
        return put(&plain, 0, CLAUSE_HEAD, out, n);
    }
    let head = [NUMBERED_CLAUSE, high, low, res, name, number as u8];
    put(&head, 0, NUMBERED_HEAD, out, n)
}

// The run of a code through the first by a number, its uses kept, into the output from n on.
fn put_run(
    table: &[u16; TABLE],
    input: &[u8],
    kind: u8,
    number: u8,
    out: &mut [u8],
    n: usize,
) -> Option<usize>
    requires { (n ≤ length out.old) × ((f : Translation) × (given : Uses) × (u : Terms.Code) × TermAsks Code table.now input.now (replicate 2 0) 16 kind number f given u) }
    ensures { (f : Translation) (given : Uses) (u : Terms.Code) → TermAsks Code table.now input.now (replicate 2 0) 16 kind number f given u
        → Stores (write code (transform f number u)) out.old out.new n result }
{
    let ends = [0u32; 2];
    let m = run(
        Syntax::Code,
        table,
        input,
        &ends,
        kind,
        number,
        CODE_LEVELS,
        out,
        n,
    );
    if m <= out.len() { Some(m) } else { None }
}

// The clause of number i at p of the second's body, which ends at e, joined by number j of the first: its code is put in first,
// and then what stands before it.
fn join_clause(
    table: &[u16; TABLE],
    second_body: &[u8],
    p: usize,
    e: usize,
    kind: u8,
    i: usize,
    j: u8,
    out: &mut [u8],
    n: usize,
) -> Option<usize>
    requires { (n ≤ length out.old) × (length out.old ≤ 4096) × ((f g : Translation) × ClauseAsks table.now second_body.now p e kind i j f g) }
    ensures { (f g : Translation) → ClauseAsks table.now second_body.now p e kind i j f g
        → Stores (paired_field f g second_body.now p j) out.old out.new n result }
{
    let number = LOW_NUMBERS * i + usize::from(j);
    let start = n + head_length(number);
    if out.len() < start {
        return None;
    }
    let input = &second_body[p + head_length(i)..e];
    let m = put_run(table, input, kind, j, out, start)?;
    let result = byte_at(second_body, p + 3);
    let name = byte_at(second_body, p + 4);
    put_head(result, name, number, m - n - 3, out, n);
    Some(m)
}

// The item of number i at p of the second's body, which ends at e and reaches a kind, joined by number j of the first, where
// that kind has the number.
fn join_number(
    table: &[u16; TABLE],
    first_uses: &[u8],
    second_body: &[u8],
    p: usize,
    e: usize,
    kind: u8,
    i: usize,
    j: u8,
    out: &mut [u8],
    n: usize,
) -> Option<usize>
    requires { (n ≤ length out.old) × (length out.old ≤ 4096) × (p < length second_body.now) × ((f g : Translation) × NumberAsks table.now first_uses.now second_body.now p e kind i j f g) }
    ensures { (f g : Translation) → NumberAsks table.now first_uses.now second_body.now p e kind i j f g
        → Stores (number_field f g second_body.now p j) out.old out.new n result }
{
    let to = byte_at(first_uses, NAMES * usize::from(kind) + usize::from(j));
    if to == 0 {
        return Some(n);
    }
    if is_clause(byte_at(second_body, p)) {
        return join_clause(table, second_body, p, e, kind, i, j, out, n);
    }
    let source = byte_at(second_body, p + 3);
    put_mapping(source, LOW_NUMBERS * i + usize::from(j), to - 1, out, n)
}

// The kind of the first's source that the item of number i at p of the second's body, which ends at e, reaches: where a mapping
// goes, or where a clause's result is mapped by the number.
fn kind_reached(second_body: &[u8], second_uses: &[u8], p: usize, e: usize, i: usize) -> u8
    requires { (p < length second_body.now) × ((g : Translation) × ReachAsks second_body.now second_uses.now p e i g) }
    ensures { (result < 32) × ((g : Translation) → ReachAsks second_body.now second_uses.now p e i g → result ≡ reached g (item_at second_body.now p)) }
{
    if is_clause(byte_at(second_body, p)) {
        let result = usize::from(byte_at(second_body, p + 3));
        return byte_at(second_uses, NAMES * result + i) - 1;
    }
    byte_at(second_body, e - 1)
}

// The item at p of the second's body, joined by each number below the limit that the kind reached has in the first.
fn join_item(
    table: &[u16; TABLE],
    first_uses: &[u8],
    limit: u8,
    second_body: &[u8],
    second_uses: &[u8],
    p: usize,
    out: &mut [u8],
    n: usize,
) -> Option<usize>
    requires { (item_whole second_body.now p ≡ true) × Reached second_body.now p × (p < length second_body.now) × (n ≤ length out.old) × (length out.old ≤ 4096) × ((f g : Translation) × Joining table.now first_uses.now second_body.now second_uses.now limit f g) }
    ensures { (f g : Translation) → Joining table.now first_uses.now second_body.now second_uses.now limit f g
        → Stores (joined_field f g second_body.now p) out.old out.new n result }
{
    let e = whole_end(second_body, p);
    let i = order_at(second_body, p, MAPPING) % NAMES;
    let kind = kind_reached(second_body, second_uses, p, e, i);
    let mut at = n;
    for j in 0..limit {
        at = join_number(table, first_uses, second_body, p, e, kind, i, j, out, at)?;
    }
    Some(at)
}

// The body of the join of the first translation, whose numbers are below the limit, after the second.
pub fn join_items(
    table: &[u16; TABLE],
    first_uses: &[u8],
    limit: u8,
    second_body: &[u8],
    second_uses: &[u8],
    out: &mut [u8],
) -> Option<usize>
    requires { (length out.old ≤ 4096) × ((f g : Translation) × Joining table.now first_uses.now second_body.now second_uses.now limit f g) }
    ensures { (f g : Translation) → Joining table.now first_uses.now second_body.now second_uses.now limit f g
        → Stores (joined_body f g) out.old out.new 0 result }
{
    let mut n = 0;
    let mut p = 0;
    while p < second_body.len() {
        n = join_item(
            table,
            first_uses,
            limit,
            second_body,
            second_uses,
            p,
            out,
            n,
        )?;
        p = field_end(second_body, p);
    }
    Some(n)
}
