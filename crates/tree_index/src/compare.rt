// The comparison of an index with the entries of a legal tree: where the index says that a node ends, its operands must end.
ghost use Rattle.std.specs.Prelude.{◌≤◌, length, IfSome};
ghost use Rattle.format_language.specs.Language.{Language};
ghost use Rattle.tree_reader.specs.Code.{Codes, levels_all};
ghost use Rattle.tree_reader.specs.Inner.Positions.{KindsIn};
ghost use Rattle.tree_index.specs.Inner.Lying.{Row};
ghost use Rattle.tree_index.specs.Inner.Comparing.{Compares};

use crate::entries::{ENTRY, size_at};
use crate::operands::{OperandsAt, operands_at};

// Where in an index the entries of operands end, if it has them from n on and the operands end at `stop`. Operands of the last are
// compared here, those of another one call deeper, with one level less.
pub fn compare_row(
    language: &[u8],
    places: &[u16],
    operands: OperandsAt,
    tree: &[u8],
    stop: usize,
    index: &[u8],
    n: usize,
    levels: usize,
) -> Option<usize>
    requires { (n ≤ length index.now) × KindsIn language.now operands.first operands.last
        × ((l : Language) × (ts : Codes) × Row places.now language.now tree.now operands.start operands.first operands.last l ts × (levels_all ts ≤ levels)) }
    ensures { IfSome result (λ m. m ≤ length index.now)
        × ((l : Language) (ts : Codes) → Row places.now language.now tree.now operands.start operands.first operands.last l ts
        → Compares index.now n operands.start ts stop result) }
{
    let mut q = operands.first;
    let mut end = operands.last;
    let mut to = operands.start;
    let mut m = n;
    while q < end {
        let size = size_at(index, m, to)?;
        let next = to + size;
        let inner = operands_at(language, places, language[q], tree, to);
        q += 1;
        m += ENTRY;
        to = inner.start;
        if inner.last <= inner.first {
            if next != to {
                return None;
            }
        } else if q < end {
            m = compare_row(language, places, inner, tree, next, index, m, levels - 1)?;
            to = next;
        } else {
            if next != stop {
                return None;
            }
            q = inner.first;
            end = inner.last;
        }
    }
    if to != stop {
        return None;
    }
    Some(m)
}
