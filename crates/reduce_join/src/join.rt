// The join of two translations.
ghost use Rattle.std.specs.Prelude.{◌≡◌, true, ◌&&◌, ◌≤◌, length};
ghost use Rattle.std.proofs.Math.Option.{some};
ghost use Rattle.format_fields.specs.Lists.{all};
ghost use Rattle.outcome.specs.Outcome.{value};
ghost use Rattle.format_language.specs.LanguageFile.{encode_language};
ghost use Rattle.format_translation.specs.Translation.{Body, Translation};
ghost use Rattle.format_translation.specs.TranslationFile.{body_of};
ghost use Rattle.format_translation.specs.Operations.{check_translation};
ghost use Rattle.reduce_operators.specs.Operators.{numbers_low, join_fits, joined, translation_join};
ghost use Rattle.format_fields.specs.Inner.Writing.{Stores};
ghost use Rattle.reduce_operators.specs.Inner.Values.{exact_translation, Gives, translation_bytes};
ghost use Rattle.reduce_operators.specs.Inner.Numbers.{mapping_below};
ghost use Rattle.reduce_operators.specs.Inner.EncodedParts.{HasParts};
ghost use Rattle.reduce_join.specs.Inner.Joining.{Held, FittedParts, joined_body, checked_length};

use super::body::{LOW_NUMBERS, join_items};
use check_operations::translations::check_translation;
use format_translation::index::put_uses;
use format_translation::parts::TRANSLATION_LIMIT;
use outcome::{Outcome, Reason};
use reduce_merge::within::lies_within;
use reduce_operators::assemble::assemble;
use reduce_operators::numbers::{ZERO_ONLY, numbers_below};
use reduce_operators::parts::{Parts, parts_of};
use run_table::prepare::{begin, prepare};
use tree_reader::index::TABLE;
use tree_reader::node::USES;

// The same limit as a byte, as the numbers of a body are.
const LOW_LIMIT: u8 = LOW_NUMBERS as u8;

// The limit that no number but 0 is below, as a byte.
const ZERO_LIMIT: u8 = ZERO_ONLY as u8;

// Whether two bodies have low numbers only.
fn numbers_low(first_body: &[u8], second_body: &[u8]) -> bool
    requires { ((b : Body) × (body_of first_body.now ≡ some b)) × ((c : Body) × (body_of second_body.now ≡ some c)) }
    ensures { (b c : Body) → body_of first_body.now ≡ some b → body_of second_body.now ≡ some c
        → result ≡ (all (mapping_below 16) b && all (mapping_below 16) c) }
{
    numbers_below(first_body, LOW_NUMBERS) && numbers_below(second_body, LOW_NUMBERS)
}

// A limit that is above all numbers of a body whose numbers are low: 1 where it has number 0 only.
fn number_limit(body: &[u8]) -> u8
    requires { (b : Body) × (body_of body.now ≡ some b) }
    ensures { (result ≤ 16) × ((b : Body) → body_of body.now ≡ some b → all (mapping_below 16) b ≡ true → all (mapping_below result) b ≡ true) }
{
    if numbers_below(body, ZERO_ONLY) {
        return ZERO_LIMIT;
    }
    LOW_LIMIT
}

// The body of the join of two translations that fit, by the parts of the first and the body of the second: through the table of
// the first's run, and tables of what the kinds of both map to by number.
fn join_body(first: Parts<'_>, second: Parts<'_>, out: &mut [u8]) -> Option<usize>
    requires { (length out.old ≤ 4096) × ((f g : Translation) × FittedParts first second f g) }
    ensures { (f g : Translation) → FittedParts first.entry second.entry f g → Stores (joined_body f g) out.old out.new 0 result }
{
    let mut table = [0u16; TABLE];
    begin(first.source, first.target, &mut table);
    let mut first_uses = [0u8; USES];
    put_uses(first.body, &mut first_uses);
    prepare(
        first.source,
        first.target,
        first.body,
        &first_uses,
        &mut table,
    );
    let mut second_uses = [0u8; USES];
    put_uses(second.body, &mut second_uses);
    let limit = number_limit(first.body);
    join_items(&table, &first_uses, limit, second.body, &second_uses, out)
}

// The length of a joined value, or 11 where the check refuses it: a code of it goes too deep.
fn checked_length(value: &[u8]) -> Outcome
    ensures { result ≡ checked_length value.now (check_translation value.now) }
{
    match check_translation(value).outcome {
        Ok(_) => Ok(value.len()),
        Err(_) => Err(Reason::ValueTooLarge),
    }
}

// The joined value put together: 11 where it exceeds a limit.
fn finish(parts: Parts<'_>, out: &mut [u8]) -> Outcome
    requires { (length parts.source.now ≤ 1024) × (length parts.target.now ≤ 1024) × (4096 ≤ length out.old) }
    ensures { (f g : Translation) → Held f → Held g → join_fits f g ≡ true → numbers_low f ≡ true → numbers_low g ≡ true → parts.entry.source.now ≡ encode_language g.source → parts.entry.target.now ≡ encode_language f.target
        → parts.entry.body.now ≡ joined_body f g → Gives (translation_bytes (value (joined f g))) out.old out.new result }
{
    let n = assemble(parts, out)?;
    checked_length(&out[..n])
}

// The join of two translations that fit: 11 where it exceeds a limit.
fn join_fitting(first: Parts<'_>, second: Parts<'_>, out: &mut [u8]) -> Outcome
    requires { (4096 ≤ length out.old) × ((f g : Translation) × FittedParts first second f g) }
    ensures { (f g : Translation) → FittedParts first.entry second.entry f g → Gives (translation_bytes (value (joined f g))) out.old out.new result }
{
    let mut body = [0u8; TRANSLATION_LIMIT];
    let n = join_body(first, second, &mut body).ok_or(Reason::ValueTooLarge)?;
    let parts = Parts {
        source: second.source,
        target: first.target,
        body: &body[..n],
    };
    finish(parts, out)
}

// The join of the parts of two translations: 26 where one has a number above 15, 13 where the second's target does not lie
// within the first's source.
fn join_parts(first: Parts<'_>, second: Parts<'_>, out: &mut [u8]) -> Outcome
    requires { ((f : Translation) × HasParts first f) × ((g : Translation) × HasParts second g) × (4096 ≤ length out.old) }
    ensures { (f g : Translation) → HasParts first.entry f → HasParts second.entry g → Gives (translation_bytes (translation_join f g)) out.old out.new result }
{
    if !numbers_low(first.body, second.body) {
        return Err(Reason::NumberUnfit);
    }
    if !lies_within(second.target, first.source) {
        return Err(Reason::JoinUnfit);
    }
    join_fitting(first, second, out)
}

// The join of a after b: b runs first. 26 where a number is above 15, 13 where it does not fit, 11 where its value exceeds a limit.
pub fn join(a: &[u8], b: &[u8], out: &mut [u8]) -> Outcome
    requires { ((f : Translation) × (exact_translation a.now ≡ value f)) × ((g : Translation) × (exact_translation b.now ≡ value g)) × (4096 ≤ length out.old) }
    ensures { (f g : Translation) → exact_translation a.now ≡ value f → exact_translation b.now ≡ value g
        → Gives (translation_bytes (translation_join f g)) out.old out.new result }
{
    join_parts(parts_of(a), parts_of(b), out)
}
