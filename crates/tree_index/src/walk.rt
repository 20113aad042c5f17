// The walk over the nodes of a legal tree, in which the entries of its index are written.
ghost use Rattle.std.specs.Prelude.{◌+◌, ◌≤◌, length};
ghost use Rattle.format_language.specs.Language.{Language};
ghost use Rattle.tree_reader.specs.Code.{Codes, levels_all};
ghost use Rattle.tree_reader.specs.Syntax.{write_all, tree as treeSyntax};
ghost use Rattle.tree_reader.specs.Inner.Positions.{KindsIn};
ghost use Rattle.tree_index.specs.Spans.{spans_all, entries};
ghost use Rattle.tree_index.specs.Inner.Lying.{Row};
ghost use Rattle.tree_index.specs.Inner.Marking.{Small, Writes};

use crate::entries::{ENTRY, put_entry};
use crate::operands::{OperandsAt, operands_at};

// Where trees end, and where their entries do.
#[derive(Clone, Copy)]
pub struct Ends {
    pub trees: usize,
    pub entries: usize,
}

// Writes the entries of operands, from n on, where there is room.
// Starts are counted from `base`. An operand that has operands is dealt with one call deeper, its own entry last, with one
// level less.
pub fn write_row(
    language: &[u8],
    places: &[u16],
    operands: OperandsAt,
    tree: &[u8],
    base: usize,
    out: &mut [u8],
    n: usize,
    levels: usize,
) -> Ends
    requires { Small tree.now base operands.start n × KindsIn language.now operands.first operands.last
        × ((l : Language) × (ts : Codes) × Row places.now language.now tree.now operands.start operands.first operands.last l ts × (levels_all ts ≤ levels)) }
    ensures { (l : Language) (ts : Codes) → Row places.now language.now tree.now operands.start operands.first operands.last l ts
        → Writes (entries (spans_all (base + operands.start) ts)) out.old out.new n (operands.start + length (write_all treeSyntax ts)) result }
{
    let mut to = operands.start;
    let mut m = n;
    for q in operands.first..operands.last {
        let inner = operands_at(language, places, language[q], tree, to);
        if inner.last <= inner.first {
            put_entry(base + to, inner.start - to, out, m);
            to = inner.start;
            m += ENTRY;
        } else {
            let ends = write_row(
                language,
                places,
                inner,
                tree,
                base,
                out,
                m + ENTRY,
                levels - 1,
            );
            put_entry(base + to, ends.trees - to, out, m);
            to = ends.trees;
            m = ends.entries;
        }
    }
    Ends {
        trees: to,
        entries: m,
    }
}
