// The least levels at which a source tree of a kind gives what is asked at a position.
ghost use Rattle.std.specs.Prelude.{◌≡◌, cond, List, ℕ, suc, max, ◌+◌, ◌-◌, ◌*◌, ◌<◌, ◌≤◌, length};
ghost use Rattle.format_language.specs.Language.{in_range};
ghost use Rattle.format_language.specs.Inner.Entries.{IsClass, class_range};
ghost use Rattle.format_translation.specs.Translation.{Translation};
ghost use Rattle.format_translation.specs.Running.{clauses_of};
ghost use Rattle.search_sources.specs.Inner.Goals.{Goal};
ghost use Rattle.search_sources.specs.Inner.Levels.{Needs as NeedsLevels, NeedsAll, NeedsNamed};
ghost use Rattle.search_levels.specs.Inner.Setting.{Truthful, Named, value_at};
ghost use Rattle.search_levels.specs.Inner.Searching.{SeeksIn, SeeksAllIn};

use crate::clause::matches;
use crate::memory::{keep, recall};
use crate::names::{first_name, next_name};
use crate::searched::Searched;
use format_fields::bytes::{pair_at, pair_in};
use format_language::range::in_range;
use run_table::table::{clause_at, index_at, source_at};
use tree_reader::operands::{first_operand, production_key};

// The value of the token of a class at a position: its lowest where nothing is asked.
pub fn token_value(source: &[u8], class: usize, tree: &[u8], at: usize) -> usize
    requires { (0 < class) × IsClass source.now (class - 1) }
    ensures { (result ≡ value_at source.now class tree.now at) × (result < 65536) }
{
    if tree.len() <= at {
        return pair_in(source, class + 3);
    }
    pair_at(tree, at)
}

// A class needs no level for a token that is legal; m + 1 stands for none.
fn class_need(source: &[u8], class: usize, tree: &[u8], at: usize, m: usize) -> usize
    requires { (0 < class) × IsClass source.now (class - 1) × (m ≤ 16) }
    ensures { result ≡ cond (in_range (class_range source.now (class - 1)) (value_at source.now class tree.now at)) 0 (suc m) }
{
    if in_range(source, class - 1, token_value(source, class, tree, at)) {
        return 0;
    }
    m + 1
}

// What is sought: a source tree of a kind for what is asked at a position, where so many levels count.
#[derive(Clone, Copy)]
pub struct Sought {
    pub kind: usize,
    pub at: usize,
    pub levels: usize,
}

// The levels that operands of a production need, whose field in the source has its length at `place`: the most that one of
// them does, where m count; m + 1 at the first that needs more.
#[cycle(name_need_need_operands_need)]
fn operands_need(
    searched: &Searched,
    memory: &mut [u8],
    free: &mut [u8],
    place: usize,
    bound: &[usize; 8],
    m: usize,
) -> usize
    requires { (m ≤ 16) × ((f : Translation) × (ks : List ℕ) × (b : ℕ → Goal) × SeeksAllIn searched.now memory.old free.old bound.now place f ks b) }
    ensures { (result ≤ suc m) × (length memory.new ≡ length memory.old) × (length free.new ≡ length free.old)
        × ((f : Translation) (ks : List ℕ) (b : ℕ → Goal) → SeeksAllIn searched.now memory.old free.old bound.now place f ks b
        → NeedsAll f.source (clauses_of f) m ks b result × Truthful f searched.now.tree.now memory.new free.new) }
{
    let count = source_at(searched.table, place + 1) - 2;
    let mut most = 0;
    for j in (0..count).rev() {
        let kind = source_at(searched.table, first_operand(place) + j);
        let at = bound[j];
        let n = need(
            searched,
            memory,
            free,
            Sought {
                kind,
                at,
                levels: m,
            },
        );
        if m < n {
            return m + 1;
        }
        most = n.max(most);
    }
    most
}

// The levels that the operands of a tree with a name need, which a production of the kind has; m + 1 where there is no such tree.
#[cycle(name_need_need_operands_need)]
pub fn name_need(
    searched: &Searched,
    memory: &mut [u8],
    free: &mut [u8],
    name: usize,
    sought: Sought,
) -> usize
    requires { (sought.levels ≤ 16) × (name < 256) × Named searched.now.table.now sought.kind name × ((f : Translation) × (g : Goal) × SeeksIn searched.now memory.old free.old sought.kind sought.at f g) }
    ensures { (result ≤ suc sought.levels) × (length memory.new ≡ length memory.old) × (length free.new ≡ length free.old)
        × ((f : Translation) (g : Goal) → SeeksIn searched.now memory.old free.old sought.kind sought.at f g
        → NeedsNamed f.source (clauses_of f) sought.levels sought.kind name (suc name) g result × Truthful f searched.now.tree.now memory.new free.new) }
{
    let key = production_key(sought.kind, name);
    let place = index_at(searched.table, key);
    let n = searched.tree.len();
    let mut bound = [n; 8];
    if !matches(
        searched,
        memory,
        place,
        clause_at(searched.table, key),
        sought.at,
        &mut bound,
    ) {
        return sought.levels + 1;
    }
    operands_need(searched, memory, free, place, &bound, sought.levels)
}

// The least levels at which a source tree of the kind gives what is asked at a position, where m count; m + 1 for none. Of
// each name it is asked only whether it needs less than those before it.
#[cycle(name_need_need_operands_need)]
pub fn need(searched: &Searched, memory: &mut [u8], free: &mut [u8], sought: Sought) -> usize
    requires { (sought.levels ≤ 16) × ((f : Translation) × (g : Goal) × SeeksIn searched.now memory.old free.old sought.kind sought.at f g) }
    ensures { (result ≤ suc sought.levels) × (length memory.new ≡ length memory.old) × (length free.new ≡ length free.old)
        × ((f : Translation) (g : Goal) → SeeksIn searched.now memory.old free.old sought.kind sought.at f g
        → NeedsLevels f.source (clauses_of f) sought.levels sought.kind g result × Truthful f searched.now.tree.now memory.new free.new) }
{
    let kind = sought.kind;
    let at = sought.at;
    let m = sought.levels;
    if let Some(known) = recall(memory, free, searched.tree.len(), kind, at, m) {
        return known;
    }
    let class = index_at(searched.table, kind);
    if class != 0 {
        return class_need(searched.source, class, searched.tree, at, m);
    }
    if m == 0 {
        return 1;
    }
    let mut best = m;
    let mut next = first_name(
        searched.table,
        searched.source,
        searched.kinds,
        searched.tree,
        kind,
        at,
    );
    while let Some(name) = next {
        best = name_need(
            searched,
            memory,
            free,
            name,
            Sought {
                levels: best - 1,
                ..sought
            },
        );
        next = next_name(
            searched.table,
            searched.source,
            searched.tree,
            kind,
            at,
            name,
            best,
        );
    }
    keep(memory, free, searched.tree.len(), kind, at, m, best + 1);
    best + 1
}
