// The operation that checks a tree and tells where reading stopped.
ghost use Rattle.std.specs.Prelude.{◌≡◌, [], ◌-◌, None};
ghost use Rattle.format_language.specs.Language.{Language};
ghost use Rattle.tree_reader.specs.Syntax.{read};
ghost use Rattle.tree_reader.specs.Syntax as Meant;
ghost use Rattle.tree_reader.specs.Operations.{tree_levels};
ghost use Rattle.tree_reader.specs.Inner.Index.{Ready, Indexed};
ghost use Rattle.tree_locate.specs.Faults.{stop};
ghost use Rattle.tree_locate.specs.Operations.{stop_position, locate_tree};
ghost use Rattle.tree_locate.specs.Inner.Places.{Answers, NotPast, located};

use crate::walk::walk_tree;
use check_operations::open::open_language;
use outcome::{Outcome, Reason};
use tree_reader::index::INDEX;
use tree_reader::read::{TREE_LEVELS, read_tree};

// What the operation answers: the outcome of the check, and where reading stopped.
#[derive(Clone, Copy, Debug, PartialEq, Eq)]
pub struct Located {
    pub outcome: Outcome,
    pub position: usize,
}

// Why a tree is refused, and where its reading stopped, if it was looked at.
#[derive(Clone, Copy, Debug, PartialEq, Eq)]
struct Stopped {
    reason: Reason,
    position: Option<usize>,
}

// A refusal before the tree is looked at.
impl From<Reason> for Stopped {
    ghost from_gives = { λ reason stopped. stopped ≡ record { reason = reason; position = None } };

    fn from(reason: Reason) -> Stopped {
        Stopped {
            reason,
            position: None,
        }
    }
}

// Where the reading of a tree of a kind stops that is refused before its end.
fn fault_at(language: &[u8], index: &[u16], kind: u8, tree: &[u8]) -> usize
    requires { Ready index.now language.now kind tree.now 0 }
    ensures { (l : Language) → Indexed index.now language.now l → NotPast (stop l tree_levels kind tree.now)
        → result ≡ stop_position tree.now (stop l tree_levels kind tree.now) }
{
    match walk_tree(language, index, kind, tree, 0, TREE_LEVELS) {
        Ok(e) => e,
        Err(p) => p,
    }
}

// Checks a tree of a kind of a language that was opened. A tree that was read to its end and more is followed by the first leftover
// byte; only one that was refused before is walked again.
fn locate_in(language: &[u8], index: &[u16], kind: u8, tree: &[u8]) -> Result<(), Stopped>
    requires { Ready index.now language.now kind tree.now 0 }
    ensures { (l : Language) → Indexed index.now language.now l
        → Answers tree.now (read Meant.tree l [] tree_levels kind tree.now) (stop l tree_levels kind tree.now) (located result) }
{
    match read_tree(language, index, kind, tree, 0, TREE_LEVELS) {
        Ok(e) => {
            if e != tree.len() {
                return Err(Stopped {
                    reason: Reason::IllegalTree,
                    position: Some(e),
                });
            }
            Ok(())
        }
        Err(error) => {
            let position = fault_at(language, index, kind, tree);
            Err(Stopped {
                reason: Reason::from(error),
                position: Some(position),
            })
        }
    }
}

// Checks a tree, up to where reading stops.
fn try_locate(language: &[u8], root: u32, tree: &[u8]) -> Result<(), Stopped>
    ensures { located result ≡ locate_tree language.now root tree.now }
{
    let mut index = [0u16; INDEX];
    open_language(language, root, &mut index)?;
    locate_in(language, &index, root as u8, tree)
}

// Check a tree, and tell where reading stopped.
pub fn locate(language: &[u8], root: u32, tree: &[u8]) -> Located
    ensures { (result.outcome ≡ (locate_tree language.now root tree.now).outcome)
        × (result.position ≡ (locate_tree language.now root tree.now).position) }
{
    match try_locate(language, root, tree) {
        Ok(()) => Located {
            outcome: Ok(0),
            position: 0,
        },
        Err(stopped) => Located {
            outcome: Err(stopped.reason),
            position: stopped.position.unwrap_or(0),
        },
    }
}
