// A load table against the language that it is of.
ghost use Rattle.std.specs.Prelude.{◌≡◌, ◌+◌, ◌*◌, ◌≤◌, length};
ghost use Rattle.std.proofs.Math.Option.{some};
ghost use Rattle.format_fields.specs.Fields.{fields_of};
ghost use Rattle.format_fields.specs.Inner.Places.{field_end};
ghost use Rattle.format_language.specs.Language.{Language};
ghost use Rattle.format_language.specs.LanguageFile.{entries_of};
ghost use Rattle.format_language.specs.Inner.Entries.{RisingEntries};
ghost use Rattle.score_tree.specs.LoadTable.{Table, loads_of, table_of};
ghost use Rattle.score_tree.specs.Inner.Results.{settled};
ghost use Rattle.score_tree.specs.Inner.Kept.{Small, Put, LoadEnd, Kept};

use crate::figures::figure;
use format_fields::walk::{end_if_whole, whole_end};
use format_language::entries::PRODUCTION;
use outcome::Reason;

// The tag of a load.
pub const LOAD: u8 = 0x24;

// A table of figures by the positions of a language's bytes has so many.
pub const FIGURES: usize = 1024;

// Puts so many figures of a load table, from a position on, into the figures from `at` on.
fn put_figures(table: &[u8], from: usize, figures: &mut [i32], at: usize, count: usize)
    requires { (from + 2 * count ≤ length table.now) × (at + count ≤ length figures.old) × (length figures.old ≡ 1024) }
    ensures { Put table.now from figures.old figures.new at count }
{
    for i in 0..count {
        figures[at + i] = figure(table, from + 2 * i);
    }
}

// Where the load at q of the table ends, if it is that of the production at p of the language, which ends at e.
fn load_end(language: &[u8], p: usize, e: usize, table: &[u8], q: usize) -> Option<usize>
    requires { (e ≡ field_end language.now p) × (p + 5 ≤ e) × (e ≤ length language.now) × (length language.now ≤ 1024) × (q ≤ length table.now) }
    ensures { LoadEnd language.now p table.now q result }
{
    let end = end_if_whole(table, q)?;
    let is_load = table[q] == LOAD
        && end - q - 3 == 2 * (e - p - 3)
        && table[q + 3..q + 5] == language[p + 3..p + 5];
    is_load.then_some(end)
}

// Reads a load table of the language: a field for each production, in the order of the language; 18 where it is none. Its figures
// are kept by the positions of the language's bytes.
pub fn read_table(language: &[u8], table: &[u8], figures: &mut [i32]) -> Result<(), Reason>
    requires { RisingEntries language.now × (length language.now ≤ 1024) × (length figures.old ≡ 1024) × Small figures.old }
    ensures is { (l : Language) → entries_of language.now ≡ some l → result ≡ settled (table_of l table.now) }
    ensures kept { (l : Language) (w : Table) → entries_of language.now ≡ some l → loads_of l (fields_of table.now) ≡ some w
        → Kept figures.new language.now w }
{
    let mut p = 0;
    let mut q = 0;
    while p < language.len() {
        let e = whole_end(language, p);
        if language[p] == PRODUCTION {
            let end = load_end(language, p, e, table, q).ok_or(Reason::BrokenTable)?;
            put_figures(table, q + 5, figures, p + 4, e - p - 4);
            q = end;
        }
        p = e;
    }
    if q != table.len() {
        return Err(Reason::BrokenTable);
    }
    Ok(())
}
