// The index of a body, and lookups through it.
ghost use Rattle.std.specs.Prelude.{◌≡◌, ℕ, ◌+◌, ◌<◌, ◌≤◌, length, get_or};
ghost use Rattle.std.proofs.Math.Option.{some};
ghost use Rattle.tree_reader.specs.Inner.Index.{put_at, index_length};
ghost use Rattle.tree_reader.specs.Inner.Positions.{uses_length};
ghost use Rattle.format_translation.specs.Translation.{Body};
ghost use Rattle.format_translation.specs.TranslationFile.{body_of};
ghost use Rattle.format_translation.specs.Inner.ItemIndex.{SoundItems, IndexedItems, Mapped, mapped_by, mapped_at, known_at};

use crate::body::is_clause;
use format_fields::bytes::byte_at;
use format_fields::walk::{MAPPING, NAMES, key_at, order_at, whole_end};
use tree_reader::index::put_all;
use tree_reader::node::place_at;

// Builds the index of a body in an index that is all zero.
pub fn build_items(body: &[u8], index: &mut [u16])
    requires { (length body.now ≤ 32768) × (length index.old ≡ index_length) × ((j : ℕ) → get_or index.old j 0 ≡ 0) }
    ensures { (b : Body) → body_of body.now ≡ some b → IndexedItems index.new body.now b }
{
    put_all(body, MAPPING, index);
}

// Puts a kind plus one at a key that has none yet.
fn put_use(uses: &mut [u8], key: usize, kind: u8)
    requires { (key < length uses.old) × (kind < 32) }
    ensures { uses.new ≡ put_at uses.old key (kind + 1) }
{
    if uses[key] != 0 {
        return;
    }
    uses[key] = kind + 1;
}

// Puts the kind that each kind maps to by each number, plus one, into a table that is all zero. The mappings stand in front,
// and the last byte of each is its target.
pub fn put_uses(body: &[u8], uses: &mut [u8])
    requires { (length body.now ≤ 32768) × (length uses.old ≡ uses_length) × ((j : ℕ) → get_or uses.old j 0 ≡ 0) × ((b : Body) × (body_of body.now ≡ some b)) }
    ensures { (length uses.new ≡ uses_length) × ((b : Body) → body_of body.now ≡ some b → Mapped uses.new b) }
{
    let mut p = 0;
    while p < body.len() {
        if is_clause(body[p]) {
            return;
        }
        let e = whole_end(body, p);
        put_use(uses, order_at(body, p, MAPPING), body[e - 1]);
        p = e;
    }
}

// The kind that a kind maps to by a number, by such a table; 0 where it is not mapped.
pub fn mapped_by(uses: &[u8], kind: u8, number: u8) -> u8
    ensures { result ≡ mapped_by uses.now kind number }
{
    let next = byte_at(uses, usize::from(kind) * NAMES + usize::from(number));
    if next == 0 {
        return 0;
    }
    next - 1
}

// The kind that a kind maps to by number 0; 0 where it is not mapped.
pub fn map_kind(body: &[u8], index: &[u16], kind: u8) -> u8
    requires { SoundItems index.now body.now × (kind < 32) }
    ensures { (result ≡ mapped_at body.now index.now kind) × (result < 32) }
{
    let place = place_at(index, usize::from(kind));
    if place == 0 {
        return 0;
    }
    body[place + 3]
}

// The entry at p is of the first tag, or its key stands in the index.
pub fn known_at(s: &[u8], p: usize, leading_tag: u8, index: &[u16]) -> bool
    requires { p ≤ length s.now }
    ensures { result ≡ known_at leading_tag s.now index.now p }
{
    if byte_at(s, p) == leading_tag {
        return true;
    }
    let key = key_at(s, p, leading_tag);
    if index.len() <= key {
        return false;
    }
    index[key] != 0
}
