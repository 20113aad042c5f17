// The length of the export of a tree. The tree is read at the same time, so that it is checked and measured in one pass.
ghost use Rattle.std.specs.Prelude.{[], ◌∷◌, ◌+◌, ◌-◌, ◌<◌, ◌≤◌, length, drop};
ghost use Rattle.std.proofs.Math.Option.{some};
ghost use Rattle.format_language.specs.Language.{Language};
ghost use Rattle.format_language.specs.Inner.Entries.{IsClass, class_range};
ghost use Rattle.tree_reader.specs.Syntax.{read_token};
ghost use Rattle.tree_reader.specs.Operations.{tree_levels};
ghost use Rattle.tree_reader.specs.Inner.Index.{Ready};
ghost use Rattle.xml_text.specs.Text.{export, node_tag, open_node, close_node};
ghost use Rattle.xml_operations.specs.Inner.Measuring.{Sum, Within, Reaches, Measures, MeasuresTrees};

use crate::put::width;
use format_fields::bytes::pair_in;
use tree_reader::node::{ReadError, Syntax, place_at, production_place, token};
use tree_reader::operands::{Operands, operands_of};
use tree_reader::read::TREE_LEVELS;
use xml_text::import::kind_at;

// Where a tree ends, and where its export does, behind what was put before it.
#[derive(Clone, Copy, Debug, PartialEq, Eq)]
pub struct Ends {
    pub tree: usize,
    pub text: usize,
}

// What was measured of a tree, or why it is not read.
pub type Measured = Result<Ends, ReadError>;

// A tree has at most 64 levels.
const LEVELS: usize = TREE_LEVELS;

// The bytes of both tags of a token, and of a production, that are no digits.
const TOKEN: usize = 7;

const PRODUCTION: usize = 9;

// The token of a kind, by the place of its class. A length above that of every output is not exact.
fn measure_token(
    language: &[u8],
    class: usize,
    kind: u8,
    tree: &[u8],
    at: usize,
    n: usize,
) -> Measured
    requires { (0 < class) × IsClass language.now (class - 1) × (at ≤ length tree.now) }
    ensures { Reaches tree.now at result
        × ((l : Language) → Measures (export l kind) (read_token (some (class_range language.now (class - 1))) (drop at tree.now)) tree.now n result) }
{
    let end = token(language, class, tree, at)?;
    let size = TOKEN + 2 * width(usize::from(kind)) + width(pair_in(tree, at));
    Ok(Ends {
        tree: end,
        text: n.saturating_add(size),
    })
}

// The length so far with both tags of a production.
fn plus_tags(n: usize, kind: u8, name: u8) -> usize
    ensures { Sum n (length (node_tag open_node kind name) + length (node_tag close_node kind name)) result }
{
    n.saturating_add(PRODUCTION + 2 * (width(usize::from(kind)) + width(usize::from(name))))
}

// The tree of a kind at the front of some bytes. The rows above the one that is read wait, the outermost first.
pub fn measure_all(language: &[u8], index: &[u16], root: u8, tree: &[u8]) -> Measured
    requires { Ready index.now language.now root tree.now 0 }
    ensures { Within tree.now result
        × MeasuresTrees (root ∷ []) language.now index.now 0 1 tree.now 0 tree_levels 0 result }
{
    let mut rows = [Operands { first: 0, last: 0 }; LEVELS];
    let mut depth = 0;
    let mut row = Operands { first: 0, last: 1 };
    let mut ends = Ends { tree: 0, text: 0 };
    loop {
        if row.last <= row.first {
            if depth == 0 {
                return Ok(ends);
            }
            depth -= 1;
            row = rows[depth];
            continue;
        }
        let kind = kind_at(language, root, depth, row.first);
        let class = place_at(index, usize::from(kind));
        row.first += 1;
        if class != 0 {
            ends = measure_token(language, class, kind, tree, ends.tree, ends.text)?;
            continue;
        }
        if depth == LEVELS {
            return Err(ReadError::Deep);
        }
        let place = production_place(Syntax::Tree, index, class, kind, tree, ends.tree);
        if place == 0 {
            return Err(ReadError::Broken);
        }
        ends.text = plus_tags(ends.text, kind, tree[ends.tree]);
        ends.tree += 1;
        rows[depth] = row;
        depth += 1;
        row = operands_of(language, place);
    }
}
