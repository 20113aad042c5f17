// A language of a file as a value writes it: a class of step 1 in length 5.
ghost use Rattle.std.specs.Prelude.{◌≡◌, true, ◌<◌, ◌≤◌, length};
ghost use Rattle.outcome.specs.Outcome.{value};
ghost use Rattle.format_fields.specs.Inner.Writing.{Stores};
ghost use Rattle.format_language.specs.Language.{Language};
ghost use Rattle.format_language.specs.LanguageFile.{language_of};
ghost use Rattle.reduce_operators.specs.Inner.Values.{Gives, language_bytes};
ghost use Rattle.reduce_operators.specs.Inner.Canonical.{spare_step, entry_bytes};
ghost use Rattle.reduce_operators.specs.Inner.Pieces.{EntryAsks};

use super::limit::limited;
use super::walk::put_entries;
use format_fields::bytes::{byte_at, pair_at};
use format_fields::copy::{put, put_both};
use format_language::check::LANGUAGE_LIMIT;
use format_language::entries::{CLASS, CLASS_LENGTH, STEPPED_LENGTH};
use outcome::Outcome;

// The length of a class whose step is not written, as the low byte of its length.
const SHORT: u8 = CLASS_LENGTH as u8;

// The entry at p is a class that writes a step of 1.
fn spare_step(a: &[u8], p: usize) -> bool
    requires { p < length a.now }
    ensures { result ≡ spare_step a.now p }
{
    byte_at(a, p) == CLASS && pair_at(a, p + 1) == STEPPED_LENGTH && pair_at(a, p + 8) == 1
}

// The entry at p, which ends at e, as a value writes it.
pub fn put_entry(a: &[u8], p: usize, e: usize, out: &mut [u8], n: usize) -> Option<usize>
    requires { EntryAsks a.now p e out.old n }
    ensures { Stores (entry_bytes a.now p) out.old out.new n result }
{
    if !spare_step(a, p) {
        return put(a, p, e, out, n);
    }
    let head = [CLASS, 0, SHORT];
    put_both(&head, 0, 3, a, p + 3, p + 8, out, n)
}

// The language that a file holds.
pub fn language(a: &[u8], out: &mut [u8]) -> Outcome
    requires { ((l : Language) × (language_of a.now ≡ value l)) × (1024 ≤ length out.old) }
    ensures { (l : Language) → language_of a.now ≡ value l
        → Gives (language_bytes (value l)) out.old out.new result }
{
    limited(put_entries(a, put_entry, out, 0), LANGUAGE_LIMIT)
}
