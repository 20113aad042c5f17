// What is searched.
use tree_reader::index::TABLE;

// A translation by its table, its source and target, the target's index and what is known of the source's kinds; and the target tree.
#[derive(Clone, Copy)]
pub struct Searched<'a> {
    pub table: &'a [u16; TABLE],
    pub source: &'a [u8],
    pub target: &'a [u8],
    pub places: &'a [u16],
    pub kinds: &'a [u8],
    pub tree: &'a [u8],
}
