// A translation without a language: its source without it, and the items that are still of that source.
ghost use Rattle.std.specs.Prelude.{◌≡◌, true, ◌<◌, ◌≤◌, length};
ghost use Rattle.std.proofs.Math.Option.{some};
ghost use Rattle.outcome.specs.Outcome.{value};
ghost use Rattle.format_language.specs.Language.{Language};
ghost use Rattle.tree_reader.specs.Inner.Index.{Indexed};
ghost use Rattle.format_translation.specs.Translation.{Body, Translation};
ghost use Rattle.format_translation.specs.TranslationFile.{body_of};
ghost use Rattle.format_translation.specs.Inner.Items.{item_whole, item_at};
ghost use Rattle.reduce_operators.specs.Operators.{is_of, translation_without};
ghost use Rattle.format_fields.specs.Inner.Writing.{Stores};
ghost use Rattle.reduce_operators.specs.Inner.Values.{Gives, translation_bytes};
ghost use Rattle.reduce_operators.specs.Inner.Kept.{written_from, staying_at, Left};

use super::assemble::assemble;
use super::parts::Parts;
use format_fields::bytes::byte_at;
use format_fields::copy::put_if;
use format_fields::walk::{MAPPING, field_end};
use format_translation::body::is_clause;
use format_translation::index::known_at;
use format_translation::parts::TRANSLATION_LIMIT;
use outcome::{Outcome, Reason};
use tree_reader::index::{INDEX, build};
use tree_reader::kinds::is_in;

// The item at p is of the language: its kind is in it, or its production.
fn stays(body: &[u8], p: usize, source: &[u8], index: &[u16]) -> bool
    requires { (item_whole body.now p ≡ true) × (p < length body.now) × ((l : Language) × Indexed index.now source.now l) }
    ensures { (l : Language) → Indexed index.now source.now l → result ≡ is_of l (item_at body.now p) }
{
    if !is_clause(byte_at(body, p)) {
        return is_in(source, byte_at(body, p + 3));
    }
    known_at(body, p, MAPPING, index)
}

// The items of a body that are of the language, into the output from its start.
fn keep_items(body: &[u8], source: &[u8], index: &[u16], out: &mut [u8]) -> Option<usize>
    requires { ((b : Body) × (body_of body.now ≡ some b)) × ((l : Language) × Indexed index.now source.now l) }
    ensures { (l : Language) → Indexed index.now source.now l
        → Stores (written_from (staying_at l body.now) body.now 0) out.old out.new 0 result }
{
    let mut p = 0;
    let mut n = 0;
    while p < body.len() {
        let e = field_end(body, p);
        n = put_if(stays(body, p, source, index), body, p, e, out, n)?;
        p = e;
    }
    Some(n)
}

// A translation from what is left of its source: the target stays, and so do the items that are of that source.
pub fn keep_parts(parts: Parts<'_>, out: &mut [u8]) -> Outcome
    requires { ((f : Translation) × (m : Language) × Left parts.source.now parts.target.now parts.body.now f m) × (4096 ≤ length out.old) }
    ensures { (f : Translation) (m : Language) → Left parts.entry.source.now parts.entry.target.now parts.entry.body.now f m
        → Gives (translation_bytes (value (translation_without f m))) out.old out.new result }
{
    let mut index = [0u16; INDEX];
    build(parts.source, &mut index);
    let mut kept = [0u8; TRANSLATION_LIMIT];
    let n = keep_items(parts.body, parts.source, &index, &mut kept).ok_or(Reason::ValueTooLarge)?;
    let body = &kept[..n];
    assemble(Parts { body, ..parts }, out)
}
