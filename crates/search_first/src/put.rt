// The first tree, put into an output. A limit stops it: with a limit of one more than the output holds, and nothing to write
// into, it measures.
ghost use Rattle.std.specs.Prelude.{◌≡◌, List, [], ◌∷◌, ℕ, suc, ◌+◌, ◌*◌, ◌<◌, ◌≤◌, length};
ghost use Rattle.format_fields.specs.Fields.{two_bytes};
ghost use Rattle.tree_reader.specs.Code.{Code, Codes, node};
ghost use Rattle.tree_reader.specs.Syntax.{write, write_all, tree as inTrees};
ghost use Rattle.format_translation.specs.Translation.{Translation};
ghost use Rattle.format_translation.specs.Running.{clauses_of};
ghost use Rattle.search_sources.specs.Inner.Goals.{Goal, First, FirstAll};
ghost use Rattle.search_levels.specs.Inner.Setting.{Truthful, Named};
ghost use Rattle.search_first.specs.Inner.Puts.{Puts};
ghost use Rattle.search_levels.specs.Inner.Searching.{SeeksIn, SeeksAllIn};

use crate::choice::choose;
use run_table::table::{clause_at, index_at, source_at};
use search_levels::clause::matches;
use search_levels::levels::{Sought, token_value};
use search_levels::searched::Searched;
use tree_reader::operands::{first_operand, production_key};

// What is put: the first tree of a kind, within so many levels, for what is asked at a position; from `pos` on, up to a limit.
#[derive(Clone, Copy)]
pub struct Wanted {
    pub kind: usize,
    pub at: usize,
    pub levels: usize,
    pub limit: usize,
    pub pos: usize,
}

// Puts a byte into the output, where there is room, and answers where the next one goes; past the limit nothing is put.
fn put_byte(output: &mut [u8], limit: usize, pos: usize, byte: u8) -> usize
    requires { pos ≤ limit }
    ensures { (result ≤ limit) × Puts limit (byte ∷ []) output.old output.new pos result }
{
    if limit <= pos {
        return limit;
    }
    if output.len() <= pos {
        return pos + 1;
    }
    output[pos] = byte;
    pos + 1
}

// Puts a value in two bytes.
fn put_value(output: &mut [u8], limit: usize, pos: usize, value: usize) -> usize
    requires { (pos ≤ limit) × (value < 65536) }
    ensures { (result ≤ limit) × Puts limit (two_bytes value) output.old output.new pos result }
{
    let next = put_byte(output, limit, pos, (value / 256) as u8);
    put_byte(output, limit, next, (value % 256) as u8)
}

// Puts the first trees of operands of a production, one behind the other; of what is wanted only levels, limit and pos count.
#[cycle(put_first_put_node_put_operands)]
fn put_operands(
    searched: &Searched,
    memory: &mut [u8],
    free: &mut [u8],
    place: usize,
    bound: &[usize; 8],
    wanted: Wanted,
    output: &mut [u8],
) -> usize
    requires { (wanted.levels ≤ 16) × (wanted.pos ≤ wanted.limit) × ((f : Translation) × (ks : List ℕ) × (b : ℕ → Goal) × SeeksAllIn searched.now memory.old free.old bound.now place f ks b) }
    ensures { (result ≤ wanted.limit) × (length memory.new ≡ length memory.old) × (length free.new ≡ length free.old) × (length output.new ≡ length output.old)
        × ((f : Translation) (ks : List ℕ) (b : ℕ → Goal) → SeeksAllIn searched.now memory.old free.old bound.now place f ks b
        → Truthful f searched.now.tree.now memory.new free.new
        × ((s : Codes) → FirstAll f.source (clauses_of f) wanted.levels ks b s → Puts wanted.limit (write_all inTrees s) output.old output.new wanted.pos result)) }
{
    let count = source_at(searched.table, place + 1) - 2;
    let mut pos = wanted.pos;
    for j in 0..count {
        let kind = source_at(searched.table, first_operand(place) + j);
        let at = bound[j];
        pos = put_first(
            searched,
            memory,
            free,
            Wanted {
                kind,
                at,
                pos,
                ..wanted
            },
            output,
        );
    }
    pos
}

// Puts the operands of the first tree, whose name is known; they have the levels that are wanted.
#[cycle(put_first_put_node_put_operands)]
fn put_node(
    searched: &Searched,
    memory: &mut [u8],
    free: &mut [u8],
    name: usize,
    wanted: Wanted,
    output: &mut [u8],
) -> usize
    requires { (wanted.levels ≤ 16) × (name < 256) × Named searched.now.table.now wanted.kind name × (wanted.pos ≤ wanted.limit) × ((f : Translation) × (g : Goal) × SeeksIn searched.now memory.old free.old wanted.kind wanted.at f g) }
    ensures { (result ≤ wanted.limit) × (length memory.new ≡ length memory.old) × (length free.new ≡ length free.old) × (length output.new ≡ length output.old)
        × ((f : Translation) (g : Goal) → SeeksIn searched.now memory.old free.old wanted.kind wanted.at f g
        → Truthful f searched.now.tree.now memory.new free.new
        × ((s : Codes) → First f.source (clauses_of f) (suc wanted.levels) wanted.kind g (node wanted.kind name s) → Puts wanted.limit (write_all inTrees s) output.old output.new wanted.pos result)) }
{
    let key = production_key(wanted.kind, name);
    let place = index_at(searched.table, key);
    let clause = clause_at(searched.table, key);
    let past = searched.tree.len();
    let mut bound = [past; 8];
    if !matches(searched, memory, place, clause, wanted.at, &mut bound) {
        return wanted.pos;
    }
    put_operands(searched, memory, free, place, &bound, wanted, output)
}

// Puts the first tree of a kind, within n levels, for what is asked at a position.
#[cycle(put_first_put_node_put_operands)]
pub fn put_first(
    searched: &Searched,
    memory: &mut [u8],
    free: &mut [u8],
    wanted: Wanted,
    output: &mut [u8],
) -> usize
    requires { (wanted.levels ≤ 16) × (wanted.pos ≤ wanted.limit) × ((f : Translation) × (g : Goal) × SeeksIn searched.now memory.old free.old wanted.kind wanted.at f g) }
    ensures { (result ≤ wanted.limit) × (length memory.new ≡ length memory.old) × (length free.new ≡ length free.old) × (length output.new ≡ length output.old)
        × ((f : Translation) (g : Goal) → SeeksIn searched.now memory.old free.old wanted.kind wanted.at f g
        → Truthful f searched.now.tree.now memory.new free.new
        × ((t : Code) → First f.source (clauses_of f) wanted.levels wanted.kind g t → Puts wanted.limit (write inTrees t) output.old output.new wanted.pos result)) }
{
    let kind = wanted.kind;
    let at = wanted.at;
    let n = wanted.levels;
    let limit = wanted.limit;
    let pos = wanted.pos;
    if limit <= pos {
        return limit;
    }
    let class = index_at(searched.table, kind);
    if class != 0 {
        return put_value(
            output,
            limit,
            pos,
            token_value(searched.source, class, searched.tree, at),
        );
    }
    if n == 0 {
        return pos;
    }
    let levels = n - 1;
    let Some(name) = choose(searched, memory, free, Sought { kind, at, levels }) else {
        return pos;
    };
    let next = put_byte(output, limit, pos, name as u8);
    put_node(
        searched,
        memory,
        free,
        name,
        Wanted {
            levels,
            pos: next,
            ..wanted
        },
        output,
    )
}
