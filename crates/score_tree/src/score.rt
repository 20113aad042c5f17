// The operation score.
ghost use Rattle.std.specs.Prelude.{◌≡◌};
ghost use Rattle.score_tree.specs.Operations.{score_tree};

use crate::plan::score_plan;
use crate::walk::Tokens;
use outcome::Outcome;

// What the operation hands back: there is no output, so an acceptance has length 0; a refused score is 0.
#[derive(Clone, Copy, Debug, PartialEq, Eq)]
pub struct Scored {
    pub outcome: Outcome,
    pub score: i64,
}

// Score: 1 to 4 for the language, 18 for the table, 14 for the root, 15 and 16 in reading order, 19 over the whole tree. A tree is a
// plan whose ends are equal.
pub fn score(language: &[u8], root: u32, tree: &[u8], table: &[u8]) -> Scored
    ensures { (result.outcome ≡ (score_tree language.now root tree.now table.now).outcome)
        × (result.score ≡ (score_tree language.now root tree.now table.now).score) }
{
    match score_plan(language, root, tree, table, Tokens::Fixed) {
        Ok(ends) => Scored {
            outcome: Ok(0),
            score: ends.least,
        },
        Err(reason) => Scored {
            outcome: Err(reason),
            score: 0,
        },
    }
}
