// The operation that scores a loose plan.
ghost use Rattle.std.specs.Prelude.{◌≡◌};
ghost use Rattle.score_loose.specs.Operations.{score_loose};

use outcome::Outcome;
use score_tree::plan::score_plan;
use score_tree::walk::Tokens;

// What the operation hands back: there is no output, so an acceptance has length 0; a refusal has 0 at both ends.
#[derive(Clone, Copy, Debug, PartialEq, Eq)]
pub struct PlanScored {
    pub outcome: Outcome,
    pub least: i64,
    pub greatest: i64,
}

// Score of a loose plan: 1 to 4 for the language, 18 for the table, 14 for the root, 15 and 16 in reading order, 19 over the whole
// plan.
pub fn score_loose(language: &[u8], root: u32, tree: &[u8], table: &[u8]) -> PlanScored
    ensures { (result.outcome ≡ (score_loose language.now root tree.now table.now).outcome)
        × (result.least ≡ (score_loose language.now root tree.now table.now).least)
        × (result.greatest ≡ (score_loose language.now root tree.now table.now).greatest) }
{
    match score_plan(language, root, tree, table, Tokens::Loose) {
        Ok(ends) => PlanScored {
            outcome: Ok(0),
            least: ends.least,
            greatest: ends.greatest,
        },
        Err(reason) => PlanScored {
            outcome: Err(reason),
            least: 0,
            greatest: 0,
        },
    }
}
