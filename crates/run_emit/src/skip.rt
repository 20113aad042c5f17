// Stepping over a term of the input, without a call for each node: what is still to be read after the operands of a node is
// kept on a stack.
ghost use Rattle.std.specs.Prelude.{◌≡◌, ℕ, ◌+◌, ◌<◌, ◌≤◌, length};
ghost use Rattle.tree_reader.specs.Code as Terms;
ghost use Rattle.tree_reader.specs.Typing.{Uses};
ghost use Rattle.tree_reader.specs.declared.node.Syntax.TheVariants.{Code};
ghost use Rattle.format_translation.specs.Translation.{Translation};
ghost use Rattle.run_emit.specs.Inner.Runs as Runs;
ghost use Rattle.run_emit.specs.Inner.Runs.{leaf_number, sign_length};
ghost use Rattle.run_emit.specs.Inner.Readings.{bytes_in, leaf_at, leaf_length, SkipAsks};

use crate::reading::Reading;
use run_table::table::{index_at, source_at};
use tree_reader::node::{Syntax, name_length};

// How many bytes a sign has.
pub fn sign_length(syntax: Syntax) -> usize
    ensures { (result ≡ sign_length syntax) × (result ≤ 1) }
{
    match syntax {
        Syntax::Tree => 0,
        Syntax::Code => 1,
    }
}

// Whether a leaf stands at a position, where a term of the kind is to be.
pub fn is_leaf(reading: &Reading, kind: usize, at: usize) -> bool
    requires { (kind < 32) × (at < length reading.now.input.now) }
    ensures { result ≡ leaf_at reading.now kind at }
{
    match reading.syntax {
        Syntax::Tree => index_at(reading.table, kind) != 0,
        Syntax::Code => reading.input[at] != 1,
    }
}

// How many bytes the leaf at a position has.
pub fn leaf_length(reading: &Reading, at: usize) -> usize
    requires { at < length reading.now.input.now }
    ensures { (result ≡ leaf_length reading.now at) × (2 ≤ result) × (result ≤ 3) }
{
    match reading.syntax {
        Syntax::Tree => 2,
        Syntax::Code if reading.input[at] == 3 => 2,
        Syntax::Code => 3,
    }
}

// By which number the argument at a position of a code is used.
pub fn leaf_number(input: &[u8], at: usize) -> usize
    requires { at + Runs.leaf_length Code input.now at ≤ length input.now }
    ensures { (result ≡ leaf_number input.now at) × (result < 256) }
{
    if input[at] == 4 {
        return usize::from(input[at + 2]);
    }
    0
}

// Where the term ends that starts at a position and whose kind stands in the source at q. Behind the last term of a row nothing is
// left to do, so its operands take the row's place.
pub fn skip(reading: &Reading, from: usize, at: usize) -> usize
    requires { (f : Translation) × (given : Uses) × (u : Terms.Code) × (k : ℕ) × SkipAsks reading.now from at f given u k }
    ensures { (f : Translation) (given : Uses) (u : Terms.Code) (k : ℕ) → SkipAsks reading.now from at f given u k
        → result ≡ at + length (bytes_in reading.now u) }
{
    let reading = *reading;
    let input = reading.input;
    let mut firsts = [0u16; 64];
    let mut lasts = [0u16; 64];
    let mut depth = 0;
    let mut q = from;
    let mut end = from + 1;
    let mut to = at;
    loop {
        if q == end {
            if depth == 0 {
                break;
            }
            depth -= 1;
            q = firsts[depth] as usize;
            end = lasts[depth] as usize;
        } else {
            let kind = source_at(reading.table, q);
            q += 1;
            if is_leaf(&reading, kind, to) {
                to += leaf_length(&reading, to);
            } else {
                let name = input[to + sign_length(reading.syntax)] as usize;
                let place = index_at(reading.table, 32 + (kind * 256 + name));
                to += name_length(reading.syntax);
                let n = source_at(reading.table, place + 1);
                if q == end {
                    q = place + 4;
                    end = place + 2 + n;
                } else if n != 2 {
                    firsts[depth] = q as u16;
                    lasts[depth] = end as u16;
                    depth += 1;
                    q = place + 4;
                    end = place + 2 + n;
                }
            }
        }
    }
    to
}
