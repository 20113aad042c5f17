// What measuring takes, made ready once for a run.
ghost use Rattle.std.specs.Prelude.{◌≡◌, ◌⊎◌, true, ℕ, ◌≤◌, length, get_or};
ghost use Rattle.std.proofs.Math.Option.{some};
ghost use Rattle.outcome.specs.Outcome.{value};
ghost use Rattle.format_language.specs.LanguageFile.{entries_of};
ghost use Rattle.tree_reader.specs.Inner.Index.{Built, index_length};
ghost use Rattle.format_translation.specs.Translation.{Translation};
ghost use Rattle.format_translation.specs.TranslationFile.{body_of, all_rising};
ghost use Rattle.format_translation.specs.WellFormed.{well_formed};
ghost use Rattle.run_measure.specs.Inner.Counting.{width_of};
ghost use Rattle.run_measure.specs.Inner.Measuring.{Counted};

use crate::count::count_all;
use crate::table::FIRST_ENTRY;
use format_translation::parts::TRANSLATION_LIMIT;

// How many numbers the table of entries has, for a body with numbers: one for each position of the source, and three for
// each sign of the body.
pub const ENTRIES: usize = FIRST_ENTRY + TRANSLATION_LIMIT / 2 * 3;

// Makes the tables of what the body's clauses count, along the bytes of the source: what each code writes itself and how often
// it uses each argument by each number. The source's index is given, and the tables are all zero before. A body without numbers,
// whose width is 1, needs no entries.
pub fn prepare(
    source: &[u8],
    body: &[u8],
    index: &[u16],
    counts: &mut [u16],
    entries: &mut [u16],
    width: usize,
)
    requires { (length source.now ≤ 1024) × (length body.now ≤ 4096) × (length index.now ≡ index_length) × Built 0x11 source.now index.now 0
        × (length counts.old ≡ 1024) × ((j : ℕ) → get_or counts.old j 0 ≡ 0) × ((j : ℕ) → get_or entries.old j 0 ≡ 0)
        × (width ≡ width_of body.now) × ((length entries.old ≡ 7168) ⊎ (width ≡ 1))
        × ((f : Translation) × (entries_of source.now ≡ some f.source) × (body_of body.now ≡ some f.body)) }
    ensures { (f : Translation) → entries_of source.now ≡ some f.source → body_of body.now ≡ some f.body
        → all_rising f ≡ true → well_formed f ≡ value f → Counted (counts.new, entries.new) width index.now f }
{
    count_all(body, index, counts, entries);
}
