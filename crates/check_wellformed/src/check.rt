// Well-formed translations: 5, 6 and 7.
ghost use Rattle.std.specs.Prelude.{◌≡◌, true, ℕ, ◌≤◌, length, get_or, drop};
ghost use Rattle.std.proofs.Math.Option.{some};
ghost use Rattle.outcome.specs.Outcome.{checked};
ghost use Rattle.tree_reader.specs.Inner.Index.{Built, index_length};
ghost use Rattle.format_translation.specs.Translation.{Body, Translation};
ghost use Rattle.format_translation.specs.TranslationFile.{body_of, all_rising};
ghost use Rattle.format_translation.specs.WellFormed.{well_formed};
ghost use Rattle.format_translation.specs.Inner.ItemIndex.{Mapped};
ghost use Rattle.format_translation.specs.Inner.Pieces.{Pieces};
ghost use Rattle.check_wellformed.specs.Inner.Ready.{Ready, Holds, uses_room, indexes_length};

use super::clauses::clauses_match;
use super::codes::codes_typed;
use super::mapping::mapping_fits;
use super::parts::Parts;
use format_fields::walk::{KINDS, MAPPING, NAMES, skip_below};
use format_language::entries::{ARGUMENTS, CLASS};
use format_translation::index::put_uses;
use outcome::{Outcome, Reason};
use tree_reader::index::{INDEX, build, put_index};
use tree_reader::node::USES;

// How many numbers the indexes of both languages have, one behind the other.
pub const INDEXES: usize = INDEX + INDEX;

// How many bytes the uses have: those of the mappings, and room for the kinds of as many arguments as a production can have.
pub const USES_ROOM: usize = USES + ARGUMENTS;

// The least key of a production.
const PRODUCTIONS: usize = KINDS;

// The least key of a clause: the least of a production, and a number.
const CLAUSES: usize = PRODUCTIONS * NAMES;

// The three parts, with the index of the target and what kinds map to by number, are well formed: 5 to 7. What kinds map to
// stays.
fn check_conditions(parts: &Parts, uses: &mut [u8]) -> Outcome
    requires { (f : Translation) × Holds parts.now uses.old f }
    ensures { (f : Translation) → Holds parts.now uses.old f → (result ≡ checked (well_formed f)) × Mapped uses.new f.body }
{
    if !mapping_fits(parts, uses) {
        return Err(Reason::WrongMapping);
    }
    let q = skip_below(parts.source, 0, CLASS, PRODUCTIONS);
    let p = skip_below(parts.body, 0, MAPPING, CLAUSES);
    if !clauses_match(parts.source, q, parts.body, p) {
        return Err(Reason::WrongClauses);
    }
    if !codes_typed(parts, q, p, uses) {
        return Err(Reason::IllegalCode);
    }
    Ok(0)
}

// The same, with the index of the target behind that of the source in one table.
fn check_parted(
    source: &[u8],
    target: &[u8],
    body: &[u8],
    indexes: &[u16],
    uses: &mut [u8],
) -> Outcome
    requires { (index_length ≤ length indexes.now) × ((f : Translation) × Ready source.now target.now (drop index_length indexes.now) body.now uses.old f) }
    ensures { (f : Translation) → Ready source.now target.now (drop index_length indexes.now) body.now uses.old f
        → (result ≡ checked (well_formed f)) × Mapped uses.new f.body }
{
    let targets = &indexes[INDEX..];
    let parts = Parts {
        source,
        target,
        targets,
        body,
    };
    check_conditions(&parts, uses)
}

// Puts what kinds map to by number into uses that are all zero, and leaves room behind it.
fn fill_uses(body: &[u8], uses: &mut [u8])
    requires { (length body.now ≤ 32768) × (length uses.old ≡ uses_room) × ((j : ℕ) → get_or uses.old j 0 ≡ 0) × ((b : Body) × (body_of body.now ≡ some b)) }
    ensures { (length uses.new ≡ uses_room) × ((b : Body) → body_of body.now ≡ some b → Mapped uses.new b) }
{
    put_uses(body, &mut uses[..USES]);
}

// The three parts, whose keys rise, are well formed: 5 to 7. The indexes of both languages, one behind the other, and what kinds
// map to by number are made in tables that are all zero, for a caller that goes on with them.
pub fn check_and_index(
    source: &[u8],
    target: &[u8],
    body: &[u8],
    indexes: &mut [u16],
    uses: &mut [u8],
) -> Outcome
    requires { (length indexes.old ≡ indexes_length) × ((j : ℕ) → get_or indexes.old j 0 ≡ 0) × (length uses.old ≡ uses_room) × ((j : ℕ) → get_or uses.old j 0 ≡ 0)
        × ((f : Translation) × Pieces source.now target.now body.now f × (all_rising f ≡ true)) }
    ensures is { (f : Translation) → Pieces source.now target.now body.now f → all_rising f ≡ true
        → result ≡ checked (well_formed f) }
    ensures kept { (length indexes.new ≡ indexes_length) × Built 0x11 source.now indexes.new 0 × Built 0x11 target.now indexes.new index_length
        × ((f : Translation) → Pieces source.now target.now body.now f → all_rising f ≡ true → Mapped uses.new f.body) }
{
    put_index(source, CLASS, 0, indexes);
    put_index(target, CLASS, INDEX, indexes);
    fill_uses(body, uses);
    check_parted(source, target, body, indexes, uses)
}

// The same, with tables of its own; it needs the index of the target only.
pub fn check_well_formed(source: &[u8], target: &[u8], body: &[u8]) -> Outcome
    requires { (f : Translation) × Pieces source.now target.now body.now f × (all_rising f ≡ true) }
    ensures { (f : Translation) → Pieces source.now target.now body.now f → all_rising f ≡ true
        → result ≡ checked (well_formed f) }
{
    let mut targets = [0u16; INDEX];
    build(target, &mut targets);
    let mut uses = [0u8; USES_ROOM];
    fill_uses(body, &mut uses);
    let parts = Parts {
        source,
        target,
        targets: &targets,
        body,
    };
    check_conditions(&parts, &mut uses)
}
