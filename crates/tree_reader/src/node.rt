// What stands at one position: a leaf, or a production whose operands follow.
ghost use Rattle.std.specs.Prelude.{◌≡◌, ℕ, ◌+◌, ◌-◌, ◌<◌, ◌≤◌, cond, eqb, length, get_or};
ghost use Rattle.format_language.specs.Inner.Entries.{IsClass};
ghost use Rattle.tree_reader.specs.Inner.Positions.{refusal_of, name_length, production_place, token_at, name_at, argument_is, argument_at, numbered_at, tree_node, code_leaf, code_node, leaf_at, past_at, EndsBy, NodeIn};
ghost use Rattle.tree_reader.specs.Inner.Index.{Ready, index_length};

use crate::operands::{KINDS, NAMES, first_operand, last_operand, production_key};
use format_fields::bytes::pair_in;
use format_language::range::in_range;
use outcome::Reason;

// The signs of a code: a production's name, a token, an argument, an argument by a number.
pub const NAME: u8 = 0x01;

pub const TOKEN: u8 = 0x02;

pub const ARGUMENT: u8 = 0x03;

pub const NUMBERED_ARGUMENT: u8 = 0x04;

// How many numbers the mappings take in the uses; the kinds of the arguments stand behind them.
pub const USES: usize = KINDS * NAMES;

// The kind of argument i, from 1 on, stands so many places before i.
const ARGUMENTS: usize = USES - 1;

// Trees are written without signs, codes with them.
#[derive(Clone, Copy, Debug, PartialEq, Eq)]
pub enum Syntax {
    Tree,
    Code,
}

// Why nothing can be read: one level too many, or bytes that are no such code.
#[derive(Clone, Copy, Debug, PartialEq, Eq)]
pub enum ReadError {
    Deep,
    Broken,
}

// An operation refuses a tree of too many levels, and one that is not legal.
impl From<ReadError> for Reason {
    ghost from_gives = { λ error reason. reason ≡ refusal_of error };

    fn from(error: ReadError) -> Reason {
        match error {
            ReadError::Deep => Reason::TooDeep,
            ReadError::Broken => Reason::IllegalTree,
        }
    }
}

// The position after what was read.
pub type Read = Result<usize, ReadError>;

// A leaf that was read; or a node: the kinds of its operands stand in the language from the first number up to the
// second, the operands from the third on.
#[derive(Clone, Copy, Debug, PartialEq, Eq)]
pub enum Node {
    Leaf(Read),
    Operands(usize, usize, usize),
}

// What the index holds at i.
pub fn place_at(index: &[u16], i: usize) -> usize
    requires { i < length index.now }
    ensures { result ≡ get_or index.now i 0 }
{
    usize::from(index[i])
}

// How many bytes a production's name takes, with its sign in a code.
pub fn name_length(syntax: Syntax) -> usize
    ensures { (result ≡ name_length syntax) × (result ≤ 2) }
{
    match syntax {
        Syntax::Tree => 1,
        Syntax::Code => 2,
    }
}

// The place of the production of the kind whose name stands at a position of a tree, or 0.
fn name_place(index: &[u16], kind: u8, bytes: &[u8], at: usize) -> usize
    requires { (index_length ≤ length index.now) × (kind < 32) }
    ensures { result ≡ production_place Syntax.Tree index.now kind bytes.now at }
{
    if bytes.len() <= at {
        return 0;
    }
    place_at(
        index,
        production_key(usize::from(kind), usize::from(bytes[at])),
    )
}

// The place of the production of the kind whose name stands at a position; 0 if there is none, or if a token of a class
// stands there.
pub fn production_place(
    syntax: Syntax,
    index: &[u16],
    class: usize,
    kind: u8,
    bytes: &[u8],
    at: usize,
) -> usize
    requires { (index_length ≤ length index.now) × (kind < 32) × (at ≤ length bytes.now) }
    ensures { result ≡ cond (eqb class 0) (production_place syntax index.now kind bytes.now at) 0 }
{
    if class != 0 {
        return 0;
    }
    match syntax {
        Syntax::Tree => name_place(index, kind, bytes, at),
        Syntax::Code => {
            if bytes.len() - at < 2 {
                return 0;
            }
            if bytes[at] != NAME {
                return 0;
            }
            name_place(index, kind, bytes, at + 1)
        }
    }
}

// A token of the class whose field stands before `place`.
pub fn token(language: &[u8], place: usize, bytes: &[u8], at: usize) -> Read
    requires { (at ≤ length bytes.now) × (0 < place → IsClass language.now (place - 1)) }
    ensures { (result ≡ token_at language.now place bytes.now at) × EndsBy (length bytes.now) result }
{
    if place == 0 {
        return Err(ReadError::Broken);
    }
    if bytes.len() - at < 2 {
        return Err(ReadError::Broken);
    }
    if !in_range(language, place - 1, pair_in(bytes, at)) {
        return Err(ReadError::Broken);
    }
    Ok(at + 2)
}

// A production name of the kind, whose operands follow.
fn name(language: &[u8], index: &[u16], kind: u8, bytes: &[u8], at: usize) -> Node
    requires { Ready index.now language.now kind bytes.now at }
    ensures { (result ≡ name_at language.now index.now kind bytes.now at) × NodeIn language.now bytes.now result }
{
    if bytes.len() <= at {
        return Node::Leaf(Err(ReadError::Broken));
    }
    let place = place_at(
        index,
        production_key(usize::from(kind), usize::from(bytes[at])),
    );
    if place == 0 {
        return Node::Leaf(Err(ReadError::Broken));
    }
    Node::Operands(first_operand(place), last_operand(language, place), at + 1)
}

// Whether argument i by a number is of the kind.
fn argument_is(uses: &[u8], kind: u8, i: usize, number: usize) -> bool
    requires { (i < 256) × (number < 256) }
    ensures { result ≡ argument_is uses.now kind i number }
{
    if i == 0 {
        return false;
    }
    if uses.len() <= ARGUMENTS + i {
        return false;
    }
    let place = usize::from(uses[ARGUMENTS + i]) * NAMES + number;
    if uses.len() <= place {
        return false;
    }
    usize::from(uses[place]) == usize::from(kind) + 1
}

// The number of an argument of the kind.
fn argument(uses: &[u8], kind: u8, bytes: &[u8], at: usize) -> Read
    requires { at ≤ length bytes.now }
    ensures { (result ≡ argument_at uses.now kind bytes.now at) × EndsBy (length bytes.now) result }
{
    if bytes.len() <= at {
        return Err(ReadError::Broken);
    }
    if argument_is(uses, kind, usize::from(bytes[at]), 0) {
        return Ok(at + 1);
    }
    Err(ReadError::Broken)
}

// The number of an argument that is of the kind by the number behind it, which is not 0.
fn numbered(uses: &[u8], kind: u8, bytes: &[u8], at: usize) -> Read
    requires { at ≤ length bytes.now }
    ensures { (result ≡ numbered_at uses.now kind bytes.now at) × EndsBy (length bytes.now) result }
{
    if bytes.len() - at < 2 {
        return Err(ReadError::Broken);
    }
    if bytes[at + 1] == 0 {
        return Err(ReadError::Broken);
    }
    if argument_is(
        uses,
        kind,
        usize::from(bytes[at]),
        usize::from(bytes[at + 1]),
    ) {
        return Ok(at + 2);
    }
    Err(ReadError::Broken)
}

// A node of a tree: a class has a token, any other kind a name.
pub fn tree_node(language: &[u8], index: &[u16], kind: u8, bytes: &[u8], at: usize) -> Node
    requires { Ready index.now language.now kind bytes.now at }
    ensures { (result ≡ tree_node language.now index.now kind bytes.now at) × NodeIn language.now bytes.now result }
{
    let place = place_at(index, usize::from(kind));
    if place == 0 {
        return name(language, index, kind, bytes, at);
    }
    Node::Leaf(token(language, place, bytes, at))
}

// A leaf of a code with another sign than 03: 02 and a token, or 04 and an argument with a number.
fn other_leaf(
    language: &[u8],
    index: &[u16],
    uses: &[u8],
    kind: u8,
    bytes: &[u8],
    at: usize,
) -> Read
    requires { Ready index.now language.now kind bytes.now at × (at < length bytes.now) }
    ensures { ((get_or bytes.now at 0 ≡ 3 → ⊥) → result ≡ code_leaf language.now index.now uses.now kind bytes.now at) × EndsBy (length bytes.now) result }
{
    let sign = bytes[at];
    if sign == TOKEN {
        return token(language, place_at(index, usize::from(kind)), bytes, at + 1);
    }
    if sign == NUMBERED_ARGUMENT {
        return numbered(uses, kind, bytes, at + 1);
    }
    Err(ReadError::Broken)
}

// A leaf of a code. Most are 03 and an argument.
fn code_leaf(language: &[u8], index: &[u16], uses: &[u8], kind: u8, bytes: &[u8], at: usize) -> Read
    requires { Ready index.now language.now kind bytes.now at }
    ensures { (result ≡ code_leaf language.now index.now uses.now kind bytes.now at) × EndsBy (length bytes.now) result }
{
    if bytes.len() <= at {
        return Err(ReadError::Broken);
    }
    if bytes[at] == ARGUMENT {
        return argument(uses, kind, bytes, at + 1);
    }
    other_leaf(language, index, uses, kind, bytes, at)
}

// A node of a code: its sign says what follows.
pub fn code_node(
    language: &[u8],
    index: &[u16],
    uses: &[u8],
    kind: u8,
    bytes: &[u8],
    at: usize,
) -> Node
    requires { Ready index.now language.now kind bytes.now at }
    ensures { (result ≡ code_node language.now index.now uses.now kind bytes.now at) × NodeIn language.now bytes.now result }
{
    if bytes.len() <= at {
        return Node::Leaf(Err(ReadError::Broken));
    }
    if bytes[at] == NAME {
        return name(language, index, kind, bytes, at + 1);
    }
    Node::Leaf(code_leaf(language, index, uses, kind, bytes, at))
}

// What stands where no production of the kind does, and no token of a class in a tree, with a level left.
pub fn leaf_at(
    syntax: Syntax,
    language: &[u8],
    index: &[u16],
    uses: &[u8],
    kind: u8,
    bytes: &[u8],
    at: usize,
) -> Read
    requires { Ready index.now language.now kind bytes.now at }
    ensures { (result ≡ leaf_at syntax language.now index.now uses.now kind bytes.now at) × EndsBy (length bytes.now) result }
{
    match syntax {
        Syntax::Tree => Err(ReadError::Broken),
        Syntax::Code => code_leaf(language, index, uses, kind, bytes, at),
    }
}

// What stands at a position of a tree past the last level: the token of a class is no level.
fn past_tree(language: &[u8], index: &[u16], kind: u8, bytes: &[u8], at: usize) -> Read
    requires { Ready index.now language.now kind bytes.now at }
    ensures { (result ≡ past_at Syntax.Tree language.now index.now kind bytes.now at) × EndsBy (length bytes.now) result }
{
    let class = place_at(index, usize::from(kind));
    if class == 0 {
        return Err(ReadError::Deep);
    }
    token(language, class, bytes, at)
}

// What stands at a position of a code past the last level: 02 and its token are no level.
fn past_code(language: &[u8], index: &[u16], kind: u8, bytes: &[u8], at: usize) -> Read
    requires { Ready index.now language.now kind bytes.now at }
    ensures { (result ≡ past_at Syntax.Code language.now index.now kind bytes.now at) × EndsBy (length bytes.now) result }
{
    if bytes.len() <= at {
        return Err(ReadError::Deep);
    }
    if bytes[at] != TOKEN {
        return Err(ReadError::Deep);
    }
    token(language, place_at(index, usize::from(kind)), bytes, at + 1)
}

// What stands at a position past the last level, in either syntax: a token is read, anything else is too deep.
pub fn past_levels(
    syntax: Syntax,
    language: &[u8],
    index: &[u16],
    kind: u8,
    bytes: &[u8],
    at: usize,
) -> Read
    requires { Ready index.now language.now kind bytes.now at }
    ensures { (result ≡ past_at syntax language.now index.now kind bytes.now at) × EndsBy (length bytes.now) result }
{
    match syntax {
        Syntax::Tree => past_tree(language, index, kind, bytes, at),
        Syntax::Code => past_code(language, index, kind, bytes, at),
    }
}
