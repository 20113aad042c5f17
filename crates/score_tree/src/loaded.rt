// What a score is worked out by.

// A language, the index of its bytes, and the figures of a load table by their positions.
#[derive(Clone, Copy)]
pub struct Loaded<'a> {
    pub language: &'a [u8],
    pub index: &'a [u16],
    pub figures: &'a [i32],
}
