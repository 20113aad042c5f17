// The operation on translations.
ghost use Rattle.std.specs.Prelude.{◌≡◌, ℕ, length, get_or};
ghost use Rattle.outcome.specs.Outcome.{value, checked};
ghost use Rattle.tree_reader.specs.Inner.Index.{Built, index_length};
ghost use Rattle.format_translation.specs.Translation.{Translation};
ghost use Rattle.format_translation.specs.TranslationFile.{translation_of};
ghost use Rattle.format_translation.specs.Operations.{check_translation};
ghost use Rattle.format_translation.specs.Inner.ItemIndex.{Mapped};
ghost use Rattle.format_translation.specs.Inner.Parts.{source_in, target_in};
ghost use Rattle.format_translation.specs.Inner.Pieces.{Pieces};
ghost use Rattle.check_wellformed.specs.Inner.Ready.{uses_room, indexes_length};
ghost use Rattle.check_operations.specs.Inner.Chains.{in_order};

use check_wellformed::check::{INDEXES, USES_ROOM, check_and_index};
use format_fields::walk::whole_end;
use format_translation::order::{in_order, languages_clash};
use format_translation::parts::{over_limit, parts_whole};
use outcome::{Answer, Outcome, Reason};

// The three parts: 3 to 7. Where they are accepted, the indexes of both languages and what kinds map to by number were made.
fn check_parts(
    source: &[u8],
    target: &[u8],
    body: &[u8],
    indexes: &mut [u16],
    uses: &mut [u8],
) -> Outcome
    requires { (length indexes.old ≡ indexes_length) × ((j : ℕ) → get_or indexes.old j 0 ≡ 0) × (length uses.old ≡ uses_room) × ((j : ℕ) → get_or uses.old j 0 ≡ 0)
        × ((f : Translation) × Pieces source.now target.now body.now f) }
    ensures is { (f : Translation) → Pieces source.now target.now body.now f
        → result ≡ checked (in_order f) }
    ensures kept { (length indexes.new ≡ indexes_length) × ((f : Translation) → Pieces source.now target.now body.now f → in_order f ≡ value f
        → Built 0x11 source.now indexes.new 0 × Built 0x11 target.now indexes.new index_length × Mapped uses.new f.body) }
{
    if !in_order(source, target, body) {
        return Err(Reason::OutOfOrder);
    }
    if languages_clash(source, target) {
        return Err(Reason::ClassIsResult);
    }
    check_and_index(source, target, body, indexes, uses)
}

// Check a translation: the lowest refusal of 1 to 7 that applies, or accepted. Where it is accepted, the indexes of both
// languages, one behind the other, and what kinds map to by number were made in tables that were all zero, for a caller that
// goes on.
pub fn check_kept(translation: &[u8], indexes: &mut [u16], uses: &mut [u8]) -> Outcome
    requires { (length indexes.old ≡ indexes_length) × ((j : ℕ) → get_or indexes.old j 0 ≡ 0) × (length uses.old ≡ uses_room) × ((j : ℕ) → get_or uses.old j 0 ≡ 0) }
    ensures is { result ≡ check_translation translation.now }
    ensures kept { (length indexes.new ≡ indexes_length) × ((f : Translation) → translation_of translation.now ≡ value f
        → Built 0x11 (source_in translation.now) indexes.new 0 × Built 0x11 (target_in translation.now) indexes.new index_length × Mapped uses.new f.body) }
{
    if over_limit(translation) {
        return Err(Reason::TooLong);
    }
    if !parts_whole(translation) {
        return Err(Reason::BrokenField);
    }
    let a = whole_end(translation, 0);
    let b = whole_end(translation, a);
    check_parts(
        &translation[3..a],
        &translation[a + 3..b],
        &translation[b..],
        indexes,
        uses,
    )
}

// The same, with tables of its own.
pub fn check_translation(translation: &[u8]) -> Answer
    ensures { result.outcome ≡ check_translation translation.now }
{
    let mut indexes = [0u16; INDEXES];
    let mut uses = [0u8; USES_ROOM];
    Answer::from(check_kept(translation, &mut indexes, &mut uses))
}
