// Whether a body has any number but 0.
ghost use Rattle.std.specs.Prelude.{◌≡◌};
ghost use Rattle.std.proofs.Math.Option.{some};
ghost use Rattle.format_translation.specs.Translation.{Body};
ghost use Rattle.format_translation.specs.TranslationFile.{body_of};
ghost use Rattle.format_translation.specs.Plain.{plain};

use format_fields::walk::{NUMBERED, whole_end};

// No item of the body has another number than 0: its tag says so.
pub fn is_plain(body: &[u8]) -> bool
    requires { (b : Body) × (body_of body.now ≡ some b) }
    ensures { (b : Body) → body_of body.now ≡ some b → result ≡ plain b }
{
    let mut p = 0;
    while p < body.len() {
        if NUMBERED <= body[p] {
            return false;
        }
        p = whole_end(body, p);
    }
    true
}
