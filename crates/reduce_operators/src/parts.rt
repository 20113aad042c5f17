// The parts of a translation, in bytes.
ghost use Rattle.std.specs.Prelude.{◌≡◌};
ghost use Rattle.outcome.specs.Outcome.{value};
ghost use Rattle.format_translation.specs.Translation.{Translation};
ghost use Rattle.reduce_operators.specs.Inner.EncodedParts.{HasParts};
ghost use Rattle.reduce_operators.specs.Inner.Values.{exact_translation};

use format_translation::parts::{body_of, source_of, target_of};

// Its source, its target and its body.
#[derive(Clone, Copy)]
pub struct Parts<'a> {
    pub source: &'a [u8],
    pub target: &'a [u8],
    pub body: &'a [u8],
}

// The parts of a translation that is written as a value is.
pub fn parts_of(s: &[u8]) -> Parts<'_>
    requires { (f : Translation) × (exact_translation s.now ≡ value f) }
    ensures { (f : Translation) → exact_translation s.now ≡ value f → HasParts result f }
{
    Parts {
        source: source_of(s),
        target: target_of(s),
        body: body_of(s),
    }
}
