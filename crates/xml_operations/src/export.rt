// The export of a legal tree, written into an output that is known to have room for it.
ghost use Rattle.std.specs.Prelude.{List, ℕ, ◌<◌, ◌≤◌, All, length};
ghost use Rattle.format_language.specs.Language.{Language};
ghost use Rattle.tree_reader.specs.Code.{Code, Codes};
ghost use Rattle.tree_reader.specs.Inner.Index.{Sound, Ready};
ghost use Rattle.xml_text.specs.Text.{export as export_of, export_all};
ghost use Rattle.xml_operations.specs.Inner.Exporting.{TreeAsks, TreesAsk, Exported};

use crate::measure::Ends;
use crate::put::{write_closing, write_opening, write_token};
use format_fields::bytes::pair_in;
use tree_reader::node::{Syntax, place_at, production_place};
use tree_reader::operands::operands_of;

// Writes the export of the tree of a kind at a position. It calls itself on the arguments, one level fewer.
#[cycle(export_all_export_at)]
fn export_at(
    language: &[u8],
    index: &[u16],
    kind: u8,
    tree: &[u8],
    levels: usize,
    out: &mut [u8],
    from: Ends,
) -> Ends
    requires { Ready index.now language.now kind tree.now from.tree
        × ((l : Language) × (a : Code) × (rest : List ℕ) × TreeAsks language.now index.now kind tree.now from.tree levels (length out.old) from.text l a rest) }
    ensures { (l : Language) (a : Code) (rest : List ℕ) → TreeAsks language.now index.now kind tree.now from.tree levels (length out.old) from.text l a rest
        → Exported (export_of l kind a) tree.now rest out.old out.new from.text result.tree result.text }
{
    let number = usize::from(kind);
    let class = place_at(index, number);
    let place = production_place(Syntax::Tree, index, class, kind, tree, from.tree);
    if place == 0 {
        let text = write_token(number, pair_in(tree, from.tree), out, from.text);
        return Ends {
            tree: from.tree + 2,
            text,
        };
    }
    let name = usize::from(tree[from.tree]);
    let operands = operands_of(language, place);
    let text = write_opening(number, name, out, from.text);
    let mut ends = Ends {
        tree: from.tree + 1,
        text,
    };
    if operands.first < operands.last {
        let kinds = &language[operands.first..operands.last];
        ends = export_all(kinds, language, index, tree, levels - 1, out, ends);
    }
    ends.text = write_closing(number, name, out, ends.text);
    ends
}

// Writes the exports of the trees of the kinds, one after the other.
#[cycle(export_all_export_at)]
pub fn export_all(
    kinds: &[u8],
    language: &[u8],
    index: &[u16],
    tree: &[u8],
    levels: usize,
    out: &mut [u8],
    from: Ends,
) -> Ends
    requires { Sound index.now language.now × All (λ k. k < 32) kinds.now × (from.tree ≤ length tree.now)
        × ((l : Language) × (t : Codes) × (rest : List ℕ) × TreesAsk kinds.now language.now index.now tree.now from.tree levels (length out.old) from.text l t rest) }
    ensures { (l : Language) (t : Codes) (rest : List ℕ) → TreesAsk kinds.now language.now index.now tree.now from.tree levels (length out.old) from.text l t rest
        → Exported (export_all l kinds.now t) tree.now rest out.old out.new from.text result.tree result.text }
{
    let mut ends = from;
    for &kind in kinds {
        ends = export_at(language, index, kind, tree, levels, out, ends);
    }
    ends
}
