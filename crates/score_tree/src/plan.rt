// The operation that both scores are: the ends of a plan's score.
ghost use Rattle.std.specs.Prelude.{◌≡◌, ◌<◌};
ghost use Rattle.format_language.specs.Language.{Language};
ghost use Rattle.score_tree.specs.LoadTable.{Table};
ghost use Rattle.score_tree.specs.Inner.Answering.{answered, Held, ends_on, plan_ends};

use crate::figures::Ends;
use crate::loaded::Loaded;
use crate::prepare::prepare;
use crate::table::FIGURES;
use crate::walk::{Tokens, ends_at};
use format_language::entries::CLASS;
use outcome::Reason;
use tree_reader::index::{INDEX, put_all};
use tree_reader::read::TREE_LEVELS;

// The ends of a plan of a kind, where language, table and root were accepted: 15 and 16, 19.
fn score_kind(
    language: &[u8],
    figures: &[i32],
    kind: u8,
    tree: &[u8],
    tokens: Tokens,
) -> Result<Ends, Reason>
    requires { (kind < 32) × ((l : Language) × (w : Table) × Held language.now figures.now l w) }
    ensures { (l : Language) (w : Table) → Held language.now figures.now l w
        → result ≡ answered (ends_on tokens l w kind tree.now) }
{
    let mut index = [0u16; INDEX];
    put_all(language, CLASS, &mut index);
    let loaded = Loaded {
        language,
        index: &index,
        figures,
    };
    let bounds = ends_at(&loaded, tokens, kind, tree, 0, TREE_LEVELS)?;
    if bounds.end != tree.len() {
        return Err(Reason::IllegalTree);
    }
    bounds.ends.ok_or(Reason::ScoreOutOfRange)
}

// Score of a plan with such tokens: 1 to 4 for the language, 18 for the table, 14 for the root, 15 and 16 in reading order, 19 over
// the whole plan.
pub fn score_plan(
    language: &[u8],
    root: u32,
    tree: &[u8],
    table: &[u8],
    tokens: Tokens,
) -> Result<Ends, Reason>
    ensures { result ≡ answered (plan_ends tokens language.now root tree.now table.now) }
{
    let mut figures = [0i32; FIGURES];
    prepare(language, root, table, &mut figures)?;
    score_kind(language, &figures, root as u8, tree, tokens)
}
