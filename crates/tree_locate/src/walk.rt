// The walk over a tree that finds where its reading stops. It is made once the tree was refused.
ghost use Rattle.std.specs.Prelude.{◌≡◌, ◌+◌, ◌-◌, ◌<◌, ◌≤◌, length, drop};
ghost use Rattle.std.proofs.Math.Seq.{slice};
ghost use Rattle.format_language.specs.Language.{Language};
ghost use Rattle.format_language.specs.Inner.Entries.{IsClass, class_range};
ghost use Rattle.tree_reader.specs.Inner.Index.{Sound, Ready, Indexed};
ghost use Rattle.tree_reader.specs.Inner.Positions.{KindsIn};
ghost use Rattle.tree_locate.specs.Faults.{stop_token, stop_all, stop};
ghost use Rattle.tree_locate.specs.Inner.Places.{place_of, place_at, WalkIn};

use tree_reader::node::{Syntax, place_at, production_place, token};
use tree_reader::operands::{first_operand, last_operand};

// How many bytes a token has.
const TOKEN: usize = 2;

// The position behind what was read; or the one where reading stops.
pub type Walk = Result<usize, usize>;

// A token of the class whose field stands before `class`: reading stops where it starts if it is out of the range, at the end of the
// input if that comes in its middle.
fn walk_token(language: &[u8], class: usize, tree: &[u8], at: usize) -> Walk
    requires { (at ≤ length tree.now) × (0 < class) × IsClass language.now (class - 1) }
    ensures is { place_at tree.now result ≡ place_of tree.now (stop_token (class_range language.now (class - 1)) (drop at tree.now)) }
    ensures within { WalkIn (length tree.now) result }
{
    if tree.len() - at < TOKEN {
        return Err(tree.len());
    }
    token(language, class, tree, at).map_err(|_| at)
}

// Where the reading of a tree of a kind stops that starts at a position, with so many levels left; a token is no level. A production
// stops it where no level is left for it, where its name is unknown and where the input ends.
#[cycle(walk_row_walk_tree)]
pub fn walk_tree(
    language: &[u8],
    index: &[u16],
    kind: u8,
    tree: &[u8],
    at: usize,
    levels: usize,
) -> Walk
    requires { Ready index.now language.now kind tree.now at }
    ensures is { (l : Language) → Indexed index.now language.now l
        → place_at tree.now result ≡ place_of tree.now (stop l levels kind (drop at tree.now)) }
    ensures within { WalkIn (length tree.now) result }
{
    let class = place_at(index, usize::from(kind));
    if class != 0 {
        return walk_token(language, class, tree, at);
    }
    if levels == 0 {
        return Err(at);
    }
    let place = production_place(Syntax::Tree, index, class, kind, tree, at);
    if place == 0 {
        return Err(at);
    }
    let first = first_operand(place);
    let last = last_operand(language, place);
    walk_row(language, index, first, last, tree, at + 1, levels - 1)
}

// The same of trees one after the other, whose kinds stand in the language from `first` up to `last`.
#[cycle(walk_row_walk_tree)]
fn walk_row(
    language: &[u8],
    index: &[u16],
    first: usize,
    last: usize,
    tree: &[u8],
    at: usize,
    levels: usize,
) -> Walk
    requires { Sound index.now language.now × KindsIn language.now first last × (at ≤ length tree.now) }
    ensures is { (l : Language) → Indexed index.now language.now l
        → place_at tree.now result ≡ place_of tree.now (stop_all (stop l levels) (slice first last language.now) (drop at tree.now)) }
    ensures within { WalkIn (length tree.now) result }
{
    let mut to = at;
    for q in first..last {
        to = walk_tree(language, index, language[q], tree, to, levels)?;
    }
    Ok(to)
}
