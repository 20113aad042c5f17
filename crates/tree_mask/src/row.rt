// A row of trees that a walk goes over.
ghost use Rattle.std.specs.Prelude.{◌≡◌, ◌+◌, ◌<◌, ◌≤◌, length};

use tree_reader::operands::operands_of;
use tree_reader::read::TREE_LEVELS;

// How far the walk is: the kind of the next tree stands in the language at `kind`, and the kinds end at `stop`; the tree starts
// at `tree` and may have so many levels; the masked form of the trees before it ends at `text`.
#[derive(Clone, Copy)]
pub struct Row {
    pub kind: usize,
    pub stop: usize,
    pub tree: usize,
    pub levels: usize,
    pub text: usize,
}

impl Row {
    ghost use Rattle.tree_mask.specs.Inner.Rows.{whole_row, next_row, end_row, inner_row};

    // The row that the whole tree is by itself, of whatever kind.
    pub fn whole() -> Row
        ensures { result ≡ whole_row }
    {
        Row {
            kind: 0,
            stop: 0,
            tree: 0,
            levels: TREE_LEVELS,
            text: 0,
        }
    }

    // The row behind its next tree, which ends at a position, as its masked form does.
    pub fn behind(self, tree: usize, text: usize) -> Row
        requires { self.kind < 65536 }
        ensures { result ≡ next_row self tree text }
    {
        Row {
            kind: self.kind + 1,
            tree,
            text,
            ..self
        }
    }

    // The row at its end.
    pub fn ended(self) -> Row
        ensures { result ≡ end_row self }
    {
        Row {
            kind: self.stop,
            ..self
        }
    }

    // The row of the operands of its next tree, whose production's field stands before `place`.
    pub fn inner(self, language: &[u8], place: usize) -> Row
        requires { (place + 4 ≤ length language.now) × (length language.now ≤ 1024) × (0 < self.levels) × (self.tree + 1 < 18446744073709551616) × (self.text ≤ self.tree) }
        ensures { result ≡ inner_row language.now place self }
    {
        let operands = operands_of(language, place);
        Row {
            kind: operands.first,
            stop: operands.last,
            tree: self.tree + 1,
            levels: self.levels - 1,
            text: self.text + 1,
        }
    }
}
