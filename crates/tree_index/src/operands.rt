// The operands of a tree that is known to be legal.
ghost use Rattle.format_language.specs.Language.{Language};
ghost use Rattle.tree_reader.specs.Code.{Code};
ghost use Rattle.tree_index.specs.Inner.Lying.{There, Opens};

use tree_reader::node::place_at;
use tree_reader::operands::{operands_of, production_key};

// The operands of a node: their kinds stand in the language from `first` up to `last`, they themselves in the tree from `start`
// on. A token has none.
#[derive(Clone, Copy)]
pub struct OperandsAt {
    pub first: usize,
    pub last: usize,
    pub start: usize,
}

// The operands of the tree of a kind that starts at a position.
pub fn operands_at(language: &[u8], places: &[u16], kind: u8, tree: &[u8], at: usize) -> OperandsAt
    requires { (l : Language) × (t : Code) × There places.now language.now tree.now at kind l t }
    ensures { (l : Language) (t : Code) → There places.now language.now tree.now at kind l t
        → Opens places.now language.now tree.now at kind l t result.first result.last result.start }
{
    let class = place_at(places, usize::from(kind));
    if class != 0 {
        return OperandsAt {
            first: 0,
            last: 0,
            start: at + 2,
        };
    }
    let key = production_key(usize::from(kind), usize::from(tree[at]));
    let operands = operands_of(language, place_at(places, key));
    OperandsAt {
        first: operands.first,
        last: operands.last,
        start: at + 1,
    }
}
