// Where the arguments of a node start and end.
ghost use Rattle.std.specs.Prelude.{◌≡◌, ◌≢◌, List, ℕ, ◌+◌, ◌≤◌, length, get_or, MatchOption};
ghost use Rattle.tree_reader.specs.Code.{Code, Codes};
ghost use Rattle.tree_reader.specs.Typing.{Uses};
ghost use Rattle.format_translation.specs.Translation.{Translation};
ghost use Rattle.run_emit.specs.Inner.Runs.{front, Same, known_start};
ghost use Rattle.run_emit.specs.Inner.Readings.{bytes_in, all_bytes_in, Right, Node, SkipAsks, FindAsks, LastAsks};

use crate::reading::Reading;
use crate::skip::skip;
use run_table::table::source_at;
use tree_reader::ends::known_end;

// The numbers of a node: where its operands start, where each of up to eight ends, 0 where that is not known, and where their kinds
// stand in the source. So argument j starts where number j says.
pub const NODE: usize = 10;

pub const START_AT: usize = 0;

pub const ENDS_AT: usize = 1;

pub const KINDS_AT: usize = 9;

// Where argument j starts, where that is known of the node.
fn known(node: &[usize; NODE], j: usize) -> Option<usize>
    requires { j ≤ 8 }
    ensures { MatchOption result (known_start node.now j ≡ 0) (λ at. (at ≡ known_start node.now j) × (at ≢ 0)) }
{
    match node[j] {
        0 => None,
        at => Some(at),
    }
}

// Where the term ends that starts at a position and whose kind stands in the source at q: it is kept, or found by stepping
// over it.
fn end_of(reading: &Reading, q: usize, at: usize) -> usize
    requires { (f : Translation) × (given : Uses) × (u : Code) × (k : ℕ) × SkipAsks reading.now q at f given u k }
    ensures { (f : Translation) (given : Uses) (u : Code) (k : ℕ) → SkipAsks reading.now q at f given u k
        → Right reading.now f.source given → result ≡ at + length (bytes_in reading.now u) }
{
    match known_end(reading.ends, source_at(reading.table, q), at) {
        Some(end) => end,
        None => skip(reading, q, at),
    }
}

// Where argument j starts: the arguments before it whose end is not known are stepped over.
fn find(reading: &Reading, node: &mut [usize; NODE], j: usize) -> usize
    requires { (f : Translation) × (given : Uses) × (ts : Codes) × (ks : List ℕ) × FindAsks reading.now node.old j f given ts ks }
    ensures { (f : Translation) (given : Uses) (ts : Codes) (ks : List ℕ) → FindAsks reading.now node.old j f given ts ks
        → (result ≡ get_or node.old 0 0 + length (all_bytes_in reading.now (front j ts)))
        × Node reading.now node.new f.source given ts ks
        × Same node.old node.new }
{
    let from = node[KINDS_AT];
    let mut p = node[START_AT];
    for i in 0..j {
        p = match known(node, i + 1) {
            Some(end) => end,
            None => {
                let end = end_of(reading, from + i, p);
                node[i + ENDS_AT] = end;
                end
            }
        };
    }
    p
}

// Where argument j starts: that is known, or found.
pub fn start_of(reading: &Reading, node: &mut [usize; NODE], j: usize) -> usize
    requires { (f : Translation) × (given : Uses) × (ts : Codes) × (ks : List ℕ) × FindAsks reading.now node.old j f given ts ks }
    ensures { (f : Translation) (given : Uses) (ts : Codes) (ks : List ℕ) → FindAsks reading.now node.old j f given ts ks
        → (result ≡ get_or node.old 0 0 + length (all_bytes_in reading.now (front j ts)))
        × Node reading.now node.new f.source given ts ks
        × Same node.old node.new }
{
    match known(node, j) {
        Some(at) => at,
        None => find(reading, node, j),
    }
}

// Where the last argument of a node ends. How many arguments it has stands before their kinds.
pub fn last_end(reading: &Reading, node: &mut [usize; NODE]) -> usize
    requires { (f : Translation) × (given : Uses) × (ts : Codes) × (ks : List ℕ) × LastAsks reading.now node.old f given ts ks }
    ensures { (f : Translation) (given : Uses) (ts : Codes) (ks : List ℕ) → LastAsks reading.now node.old f given ts ks
        → result ≡ get_or node.old 0 0 + length (all_bytes_in reading.now ts) }
{
    let n = source_at(reading.table, node[KINDS_AT] - 3) - 2;
    match known(node, n) {
        Some(end) => end,
        None => find(reading, node, n),
    }
}
