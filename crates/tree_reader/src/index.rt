// The index of a language, or of a body: where the field of each entry stands, by the entry's key.
ghost use Rattle.std.specs.Prelude.{◌≡◌, ℕ, ◌+◌, ◌<◌, ◌≤◌, length, get_or};
ghost use Rattle.format_fields.specs.Inner.Places.{places};
ghost use Rattle.std.proofs.Math.Option.{some};
ghost use Rattle.format_language.specs.Language.{Language};
ghost use Rattle.format_language.specs.LanguageFile.{entries_of};
ghost use Rattle.tree_reader.specs.Inner.Index.{put_at, put_all, Built, Around, Indexed, index_length};

use crate::operands::{KINDS, NAMES};
use format_fields::walk::{field_end, slot_at};
use format_language::entries::CLASS;

// How many numbers an index has: one for each kind, and one for each production.
pub const INDEX: usize = KINDS + KINDS * NAMES;

// How many numbers the table of a run has; the index of the source stands first in it.
pub const TABLE: usize = 26184;

// Puts a value at a key that has none yet.
fn put(index: &mut [u16], key: usize, value: u16)
    ensures { index.new ≡ put_at index.old key value }
{
    if index.len() <= key {
        return;
    }
    if index[key] != 0 {
        return;
    }
    index[key] = value;
}

// Puts every entry of a file into the index. Its leading entries have the tag `leading_tag`.
pub fn put_all(s: &[u8], leading_tag: u8, index: &mut [u16])
    requires { length s.now ≤ 32768 }
    ensures { index.new ≡ put_all leading_tag s.now index.old (places s.now) }
{
    let mut p = 0;
    while p < s.len() {
        put(index, slot_at(s, p, leading_tag), (p + 1) as u16);
        p = field_end(s, p);
    }
}

// Puts the index of a file into a table, from a position on where it is all zero. Its leading entries have the tag `leading_tag`.
pub fn put_index(s: &[u8], leading_tag: u8, a: usize, table: &mut [u16])
    requires { (length s.now ≤ 32768) × (a + index_length ≤ length table.old) × ((j : ℕ) → j < index_length → get_or table.old (a + j) 0 ≡ 0) }
    ensures { Built leading_tag s.now table.new a × Around table.old table.new a (a + index_length) }
{
    put_all(s, leading_tag, &mut table[a..a + INDEX]);
}

// Builds the index of a language in an index that is all zero.
pub fn build(language: &[u8], index: &mut [u16])
    requires { (length language.now ≤ 1024) × (length index.old ≡ index_length) × ((j : ℕ) → get_or index.old j 0 ≡ 0) }
    ensures { (l : Language) → entries_of language.now ≡ some l → Indexed index.new language.now l }
{
    put_all(language, CLASS, index);
}
