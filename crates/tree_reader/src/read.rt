// The reader of typed codes, in tree syntax and in code syntax.
ghost use Rattle.std.specs.Prelude.{◌≡◌, cond, eqb, ℕ, ◌+◌, ◌-◌, ◌<◌, ◌≤◌, [], length, get_or, drop};
ghost use Rattle.format_language.specs.Language.{Language};
ghost use Rattle.tree_reader.specs.Syntax as Meant;
ghost use Rattle.tree_reader.specs.Inner.Positions.{class_place, production_place, operands_from, read_at, KindsIn, EndsBy, rest_at, rest_of, uses_in};
ghost use Rattle.tree_reader.specs.Inner.Index.{Sound, Ready, Indexed};

use crate::node::{
    Node, Read, ReadError, Syntax, code_node, leaf_at, name_length, past_levels, place_at,
    production_place, token, tree_node,
};
use crate::operands::{first_operand, last_operand};

// A tree has at most so many levels.
pub const TREE_LEVELS: usize = 64;

// The code of a clause has at most so many.
pub const CODE_LEVELS: usize = 16;

// The place of the class that a token of the kind is read by: 0 in a code, where a sign stands before it.
fn class_place(syntax: Syntax, index: &[u16], kind: u8) -> usize
    requires { kind < length index.now }
    ensures { result ≡ class_place syntax index.now kind }
{
    match syntax {
        Syntax::Tree => place_at(index, usize::from(kind)),
        Syntax::Code => 0,
    }
}

// What stands where no production of the kind does, with so many levels left: a token of the class whose field stands
// before `class`, or another leaf.
fn leaf(
    syntax: Syntax,
    language: &[u8],
    index: &[u16],
    uses: &[u8],
    class: usize,
    kind: u8,
    bytes: &[u8],
    at: usize,
    levels: usize,
) -> Read
    requires { Ready index.now language.now kind bytes.now at × (class ≡ class_place syntax index.now kind) }
    ensures { (cond (eqb class 0) (production_place syntax index.now kind bytes.now at) 0 ≡ 0
        → result ≡ read_at syntax language.now index.now uses.now bytes.now levels kind at)
        × EndsBy (length bytes.now) result }
{
    if class != 0 {
        return token(language, class, bytes, at);
    }
    if levels == 0 {
        return past_levels(syntax, language, index, kind, bytes, at);
    }
    leaf_at(syntax, language, index, uses, kind, bytes, at)
}

// Codes of the kinds that stand in the language from `from` up to `stop`, one after the other. Leaves are read here, other
// codes one call deeper; behind the last one nothing is left to do, so its operands are read here.
#[cycle(operands_row)]
fn operands(
    syntax: Syntax,
    language: &[u8],
    index: &[u16],
    uses: &[u8],
    from: usize,
    stop: usize,
    bytes: &[u8],
    at: usize,
    levels: usize,
) -> Read
    requires { Sound index.now language.now × KindsIn language.now from stop × (at ≤ length bytes.now) }
    ensures { (result ≡ operands_from (read_at syntax language.now index.now uses.now bytes.now levels) language.now (stop - from) from at) × EndsBy (length bytes.now) result }
{
    let mut q = from;
    let mut end = stop;
    let mut to = at;
    let mut left = levels;
    while q < end {
        let kind = language[q];
        let class = class_place(syntax, index, kind);
        let place = production_place(syntax, index, class, kind, bytes, to);
        q += 1;
        if place == 0 {
            to = leaf(syntax, language, index, uses, class, kind, bytes, to, left)?;
            continue;
        }
        if left == 0 {
            return Err(ReadError::Deep);
        }
        let first = first_operand(place);
        let last = last_operand(language, place);
        let below = left - 1;
        to += name_length(syntax);
        if q == end {
            q = first;
            end = last;
            left = below;
            continue;
        }
        if last <= first {
            continue;
        }
        to = row(syntax, language, index, uses, first, last, bytes, to, below)?;
    }
    Ok(to)
}

// The same. A row of one token, as a row or a rest of so many minutes has it, is read without a call.
#[cycle(operands_row)]
fn row(
    syntax: Syntax,
    language: &[u8],
    index: &[u16],
    uses: &[u8],
    from: usize,
    stop: usize,
    bytes: &[u8],
    at: usize,
    levels: usize,
) -> Read
    requires { Sound index.now language.now × KindsIn language.now from stop × (from < stop) × (at ≤ length bytes.now) }
    ensures { (result ≡ operands_from (read_at syntax language.now index.now uses.now bytes.now levels) language.now (stop - from) from at) × EndsBy (length bytes.now) result }
{
    if stop - from == 1 {
        let class = class_place(syntax, index, language[from]);
        if class != 0 {
            return token(language, class, bytes, at);
        }
    }
    operands(syntax, language, index, uses, from, stop, bytes, at, levels)
}

// A tree of the kind at a position, of the language that the index is of, with so many levels left; a token is no level.
pub fn read_tree(
    language: &[u8],
    index: &[u16],
    kind: u8,
    bytes: &[u8],
    at: usize,
    levels: usize,
) -> Read
    requires { Ready index.now language.now kind bytes.now at }
    ensures is { (l : Language) → Indexed index.now language.now l
        → rest_at bytes.now result ≡ rest_of (Meant.read Meant.tree l [] levels kind (drop at bytes.now)) }
    ensures within { EndsBy (length bytes.now) result }
{
    if levels == 0 {
        return past_levels(Syntax::Tree, language, index, kind, bytes, at);
    }
    match tree_node(language, index, kind, bytes, at) {
        Node::Leaf(r) => r,
        Node::Operands(q, stop, to) => operands(
            Syntax::Tree,
            language,
            index,
            &[],
            q,
            stop,
            bytes,
            to,
            levels - 1,
        ),
    }
}

// A code of the kind at a position, whose uses are given.
pub fn read_code(
    language: &[u8],
    index: &[u16],
    uses: &[u8],
    kind: u8,
    bytes: &[u8],
    at: usize,
    levels: usize,
) -> Read
    requires { Ready index.now language.now kind bytes.now at }
    ensures is { (l : Language) → Indexed index.now language.now l
        → rest_at bytes.now result ≡ rest_of (Meant.read Meant.code l (uses_in uses.now) levels kind (drop at bytes.now)) }
    ensures within { EndsBy (length bytes.now) result }
{
    if levels == 0 {
        return past_levels(Syntax::Code, language, index, kind, bytes, at);
    }
    match code_node(language, index, uses, kind, bytes, at) {
        Node::Leaf(r) => r,
        Node::Operands(q, stop, to) => operands(
            Syntax::Code,
            language,
            index,
            uses,
            q,
            stop,
            bytes,
            to,
            levels - 1,
        ),
    }
}
