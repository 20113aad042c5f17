// A translation made of a source, a target and a body.
ghost use Rattle.std.specs.Prelude.{◌≡◌, true, ◌≤◌, length};
ghost use Rattle.std.proofs.Math.Option.{some};
ghost use Rattle.outcome.specs.Outcome.{value};
ghost use Rattle.format_fields.specs.Keyed.{rising};
ghost use Rattle.format_language.specs.Language.{Language};
ghost use Rattle.format_translation.specs.Translation.{Body, item_key};
ghost use Rattle.format_translation.specs.TranslationFile.{body_of};
ghost use Rattle.format_translation.specs.WellFormed.{well_formed};
ghost use Rattle.reduce_operators.specs.Inner.Values.{exact_language, Gives, translation_bytes};

use super::assemble::assemble;
use super::parts::Parts;
use check_wellformed::check::check_well_formed;
use outcome::Outcome;

// The translation of these parts: 5 to 7 where it is not well formed, then 11 where it exceeds a limit.
pub fn make(source: &[u8], target: &[u8], body: &[u8], out: &mut [u8]) -> Outcome
    requires { ((l : Language) × (exact_language source.now ≡ value l)) × ((m : Language) × (exact_language target.now ≡ value m))
        × ((b : Body) × (body_of body.now ≡ some b) × (rising item_key b ≡ true)) × (length body.now ≤ 32768) × (4096 ≤ length out.old) }
    ensures { (l m : Language) (b : Body) → exact_language source.entry.now ≡ value l → exact_language target.now ≡ value m
        → body_of body.now ≡ some b → rising item_key b ≡ true
        → Gives (translation_bytes (well_formed (record { source = l; target = m; body = b }))) out.old out.new result }
{
    check_well_formed(source, target, body)?;
    let parts = Parts {
        source,
        target,
        body,
    };
    assemble(parts, out)
}
