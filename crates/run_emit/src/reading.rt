// What a run reads.
use tree_reader::index::TABLE;
use tree_reader::node::Syntax;

// An input in a syntax, the table of the translation that it is run through, and what is kept of where its long terms end.
#[derive(Clone, Copy)]
pub struct Reading<'a> {
    pub syntax: Syntax,
    pub table: &'a [u16; TABLE],
    pub input: &'a [u8],
    pub ends: &'a [u32],
}
