// The identity of a language: each kind to itself, each production to itself.
ghost use Rattle.std.specs.Prelude.{◌≡◌, ◌++◌, ◌≤◌, length};
ghost use Rattle.std.proofs.Math.Option.{some};
ghost use Rattle.outcome.specs.Outcome.{value};
ghost use Rattle.format_language.specs.Language.{Language, is_in};
ghost use Rattle.format_language.specs.LanguageFile.{entries_of};
ghost use Rattle.reduce_operators.specs.Operators.{identity_of};
ghost use Rattle.format_fields.specs.Inner.Writing.{Stores};
ghost use Rattle.reduce_operators.specs.Inner.Values.{exact_language, Gives, translation_bytes};
ghost use Rattle.reduce_operators.specs.Inner.Kept.{written_from};
ghost use Rattle.reduce_operators.specs.Inner.Pieces.{EntryAsks};
ghost use Rattle.reduce_operators.specs.Inner.SameItems.{kind_item, Marks, kind_items, clause_item};

use super::assemble::assemble;
use super::parts::Parts;
use super::walk::put_entries;
use check_wellformed::kinds::mark_entries;
use format_fields::bytes::byte_at;
use format_fields::copy::{put_both, put_if};
use format_fields::walk;
use format_fields::walk::MAPPING;
use format_language::entries::{CLASS, KINDS};
use format_translation::body::CLAUSE;
use format_translation::parts::TRANSLATION_LIMIT;
use outcome::{Outcome, Reason};
use tree_reader::node::NAME;

// The mapping of a kind to itself, where the kind is marked.
fn put_kind(marked: bool, k: u8, out: &mut [u8], n: usize) -> Option<usize>
    requires { n ≤ length out.old }
    ensures { (l : Language) → marked ≡ is_in l k → Stores (kind_item l k) out.old out.new n result }
{
    let item = [MAPPING, 0, 2, k, k];
    put_if(marked, &item, 0, 5, out, n)
}

// The mappings of all kinds that are marked, into the output from its start.
fn put_marked(marked: &[bool], out: &mut [u8]) -> Option<usize>
    requires { (length marked.now ≡ 32) × ((l : Language) × Marks marked.now l) }
    ensures { (l : Language) → Marks marked.now l → Stores (kind_items l 0) out.old out.new 0 result }
{
    let mut n = 0;
    for k in 0..KINDS {
        n = put_kind(marked[usize::from(k)], k, out, n)?;
    }
    Some(n)
}

// The mappings of all kinds in the language, into the output from its start.
fn put_kinds(a: &[u8], out: &mut [u8]) -> Option<usize>
    requires { (l : Language) × (entries_of a.now ≡ some l) }
    ensures { (l : Language) → entries_of a.now ≡ some l → Stores (kind_items l 0) out.old out.new 0 result }
{
    let mut marked = [false; walk::KINDS];
    mark_entries(a, &mut marked);
    put_marked(&marked, out)
}

// The clause of the production at p, which ends at e: its name, and its arguments in their order.
pub fn put_clause(a: &[u8], p: usize, e: usize, out: &mut [u8], n: usize) -> Option<usize>
    requires { EntryAsks a.now p e out.old n }
    ensures { Stores (clause_item a.now p) out.old out.new n result }
{
    if byte_at(a, p) == CLASS {
        return Some(n);
    }
    let result = byte_at(a, p + 3);
    let name = byte_at(a, p + 4);
    let size = 2 * (e - p - 5);
    let head = [CLAUSE, 0, (size + 4) as u8, result, name, NAME, name];
    let arguments = b"\x03\x01\x03\x02\x03\x03\x03\x04\x03\x05\x03\x06\x03\x07\x03\x08";
    put_both(&head, 0, 7, arguments, 0, size, out, n)
}

// The items of the identity of a language, into the output from its start.
fn put_items(a: &[u8], out: &mut [u8]) -> Option<usize>
    requires { (l : Language) × (entries_of a.now ≡ some l) }
    ensures { (l : Language) → entries_of a.now ≡ some l → Stores (kind_items l 0 ++ written_from (clause_item a.now) a.now 0) out.old out.new 0 result }
{
    let n = put_kinds(a, out)?;
    put_entries(a, put_clause, out, n)
}

// The identity of a language.
pub fn identity(a: &[u8], out: &mut [u8]) -> Outcome
    requires { ((l : Language) × (exact_language a.now ≡ value l)) × (4096 ≤ length out.old) }
    ensures { (l : Language) → exact_language a.now ≡ value l
        → Gives (translation_bytes (value (identity_of l))) out.old out.new result }
{
    let mut body = [0u8; TRANSLATION_LIMIT];
    let n = put_items(a, &mut body).ok_or(Reason::ValueTooLarge)?;
    let parts = Parts {
        source: a,
        target: a,
        body: &body[..n],
    };
    assemble(parts, out)
}
