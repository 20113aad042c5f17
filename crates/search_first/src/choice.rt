// The name that the first tree has: the least whose operands' levels fit those that are left.
ghost use Rattle.std.specs.Prelude.{◌≡◌, ℕ, suc, ◌≤◌, Some, length};
ghost use Rattle.std.proofs.Math.Option.{none};
ghost use Rattle.format_language.specs.Language.{range_of};
ghost use Rattle.tree_reader.specs.Code.{Code, Codes, node};
ghost use Rattle.format_translation.specs.Translation.{Translation};
ghost use Rattle.format_translation.specs.Running.{clauses_of};
ghost use Rattle.search_sources.specs.Inner.Goals.{Goal, First};
ghost use Rattle.search_levels.specs.Inner.Setting.{Truthful, IsNamed};
ghost use Rattle.search_levels.specs.Inner.Searching.{SeeksIn};

use search_levels::levels::{Sought, name_need};
use search_levels::names::{first_name, next_name};
use search_levels::searched::Searched;

// The name of the first tree of a kind that is no class for what is asked at a position, where its operands have so many
// levels.
pub fn choose(
    searched: &Searched,
    memory: &mut [u8],
    free: &mut [u8],
    sought: Sought,
) -> Option<usize>
    requires { (sought.levels ≤ 16) × ((f : Translation) × (g : Goal) × SeeksIn searched.now memory.old free.old sought.kind sought.at f g) }
    ensures { IsNamed searched.now.table.now sought.kind result × (length memory.new ≡ length memory.old) × (length free.new ≡ length free.old)
        × ((f : Translation) (g : Goal) → SeeksIn searched.now memory.old free.old sought.kind sought.at f g
        → Truthful f searched.now.tree.now memory.new free.new
        × ((t : Code) → range_of f.source sought.kind ≡ none → First f.source (clauses_of f) (suc sought.levels) sought.kind g t → (name : ℕ) × (result ≡ Some name) × (s : Codes) × (t ≡ node sought.kind name s))) }
{
    let kind = sought.kind;
    let at = sought.at;
    let n = sought.levels;
    let mut next = first_name(
        searched.table,
        searched.source,
        searched.kinds,
        searched.tree,
        kind,
        at,
    );
    while let Some(name) = next {
        let needed = name_need(searched, memory, free, name, sought);
        if needed <= n {
            return Some(name);
        }
        next = next_name(
            searched.table,
            searched.source,
            searched.tree,
            kind,
            at,
            name,
            needed,
        );
    }
    None
}
