// Opening a translation. Every operation that goes on with a translation asks this first, and what was opened is not checked or
// indexed again.
ghost use Rattle.std.specs.Prelude.{◌≡◌, ℕ, ◌<◌, get_or};
ghost use Rattle.outcome.specs.Outcome.{value};
ghost use Rattle.format_fields.specs.Lists.{is_some};
ghost use Rattle.format_translation.specs.Translation.{Translation, mapping_of};
ghost use Rattle.format_translation.specs.TranslationFile.{translation_of};
ghost use Rattle.format_translation.specs.Operations.{check_translation};
ghost use Rattle.format_translation.specs.Inner.Parts.{source_in, target_in, body_in};
ghost use Rattle.format_translation.specs.Inner.ItemIndex.{Mapped};
ghost use Rattle.run_open.specs.Inner.Opened.{Prepared};

use check_operations::translations::check_kept;
use check_wellformed::check::{INDEXES, USES_ROOM};
use format_fields::walk::NAMES;
use format_translation::parts::{body_of, source_of, target_of};
use outcome::Outcome;
use run_table::prepare::prepare;
use tree_reader::index::TABLE;

// Opens a translation: 1 to 7 or, where it is accepted, the table that its run looks things up in, whose front is the index of
// the source, and what kinds map to by number. Both are all zero before. The check makes its indexes in the front of the table.
pub fn open_translation(
    translation: &[u8],
    table: &mut [u16; TABLE],
    uses: &mut [u8; USES_ROOM],
) -> Outcome
    requires { ((j : ℕ) → get_or table.old j 0 ≡ 0) × ((j : ℕ) → get_or uses.old j 0 ≡ 0) }
    ensures is { result ≡ check_translation translation.now }
    ensures kept { (f : Translation) → translation_of translation.now ≡ value f
        → Prepared (source_in translation.now) (target_in translation.now) (body_in translation.now) table.new f
        × Mapped uses.new f.body }
{
    check_kept(translation, &mut table[..INDEXES], uses)?;
    prepare(
        source_of(translation),
        target_of(translation),
        body_of(translation),
        uses,
        table,
    );
    Ok(0)
}

// Whether a kind has a number, by what kinds map to by number: it is mapped by it.
pub fn has_number(uses: &[u8; USES_ROOM], kind: u8, number: u8) -> bool
    requires { kind < 32 }
    ensures { (f : Translation) → Mapped uses.now f.body → result ≡ is_some (mapping_of f.body kind number) }
{
    uses[usize::from(kind) * NAMES + usize::from(number)] != 0
}
