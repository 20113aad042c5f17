// The parts of a translation, as the tests go over them.
ghost use Rattle.std.specs.Prelude.{ℕ, ◌<◌, get_or};

// The source, the target with its index, and the body.
#[derive(Clone, Copy)]
pub struct Parts<'a> {
    pub source: &'a [u8],
    pub target: &'a [u8],
    pub targets: &'a [u16],
    pub body: &'a [u8],
    ghost source_bytes: { (i : ℕ) → get_or source.now i 0 < 256 },
    ghost body_bytes: { (i : ℕ) → get_or body.now i 0 < 256 },
}
