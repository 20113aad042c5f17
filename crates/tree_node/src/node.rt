// The operation that tells what stands at a path of a tree.
ghost use Rattle.outcome.specs.Outcome.{value};
ghost use Rattle.format_language.specs.Language.{Language};
ghost use Rattle.tree_reader.specs.Code.{Code};
ghost use Rattle.tree_index.specs.Inner.Lying.{There};
ghost use Rattle.tree_block.specs.Blocks.{block_of, block_at, every_kind};
ghost use Rattle.tree_block.specs.Operations.{found};
ghost use Rattle.tree_block.specs.Inner.Descent.{Along};
ghost use Rattle.tree_node.specs.Operations.{node_shown, show_node};
ghost use Rattle.tree_node.specs.Answers.{Describes, Finds, Says};

use outcome::{Outcome, Reason};
use tree_block::descent::{EVERY_KIND, descend};
use tree_index::build::check_own;
use tree_index::operands::operands_at;
use tree_reader::index::INDEX;
use tree_reader::node::place_at;

// Stands for the name of a node that has none: names are 0 to 255.
pub const NO_NAME: u32 = 256;

// What the operation answers: the kind of the node, the name of its production and how many arguments it has. A token has NO_NAME
// and no arguments. A refusal has 0 in each.
#[derive(Clone, Copy, Debug, PartialEq, Eq)]
pub struct Described {
    pub outcome: Outcome,
    pub kind: u32,
    pub name: u32,
    pub arguments: u32,
}

// What a node is: its kind, the name of its production and how many arguments it has. A token has no name and no arguments.
#[derive(Clone, Copy, Debug, PartialEq, Eq)]
pub struct Description {
    pub kind: u8,
    pub name: Option<u8>,
    pub arguments: u32,
}

// The node of a kind at a position of a legal tree.
fn node_at(language: &[u8], places: &[u16], kind: u8, tree: &[u8], at: usize) -> Description
    requires { (l : Language) × (t : Code) × There places.now language.now tree.now at kind l t }
    ensures { (l : Language) (t : Code) → There places.now language.now tree.now at kind l t
        → Describes (node_shown (value (block_of at kind t))) result }
{
    if place_at(places, usize::from(kind)) != 0 {
        return Description {
            kind,
            name: None,
            arguments: 0,
        };
    }
    let operands = operands_at(language, places, kind, tree, at);
    let arguments = operands.last.saturating_sub(operands.first);
    Description {
        kind,
        name: Some(tree[at]),
        arguments: arguments as u32,
    }
}

// The node at a path, in a legal tree of a kind that has the index: 21 where there is none.
fn node_in(
    language: &[u8],
    places: &[u16],
    kind: u8,
    tree: &[u8],
    index: &[u8],
    path: &[u8],
) -> Result<Description, Reason>
    requires { (l : Language) × (t : Code) × Along places.now language.now tree.now index.now 0 kind 0 l t }
    ensures { (l : Language) (t : Code) → Along places.now language.now tree.now index.now 0 kind 0 l t
        → Finds (node_shown (found (block_at every_kind l path.now (block_of 0 kind t)))) result }
{
    let block = descend(language, places, kind, tree, index, path, EVERY_KIND)?;
    Ok(node_at(language, places, block.kind, tree, block.start))
}

// What stands at a path: 1 to 4 for the language, 14 to 16 for the whole tree, 22 for its index, 21 for the path.
fn describe(
    language: &[u8],
    root: u32,
    tree: &[u8],
    index: &[u8],
    path: &[u8],
) -> Result<Description, Reason>
    ensures { Finds (show_node language.now root tree.now index.now path.now) result }
{
    let mut places = [0u16; INDEX];
    check_own(language, root, tree, index, &mut places)?;
    node_in(language, &places, root as u8, tree, index, path)
}

// Tell what stands at a path, or the refusal.
pub fn node(language: &[u8], root: u32, tree: &[u8], index: &[u8], path: &[u8]) -> Described
    ensures { Says (show_node language.now root tree.now index.now path.now) result }
{
    match describe(language, root, tree, index, path) {
        Ok(found) => Described {
            outcome: Ok(0),
            kind: u32::from(found.kind),
            name: found.name.map_or(NO_NAME, u32::from),
            arguments: found.arguments,
        },
        Err(reason) => Described {
            outcome: Err(reason),
            kind: 0,
            name: 0,
            arguments: 0,
        },
    }
}
