// The walk over the fields of a file, whatever their tags.
ghost use Rattle.std.specs.Prelude.{◌≡◌, true, ◌||◌, ◌+◌, ◌<◌, ◌≤◌, eqb, length};
ghost use Rattle.format_fields.specs.Fields.{has_over};
ghost use Rattle.format_fields.specs.Keyed.{rising};
ghost use Rattle.format_fields.specs.Lists.{all};
ghost use Rattle.format_fields.specs.Inner.Places.{EndsAt, EndIfWhole, long_at, key_at, slot_at, item_order, order_at, places_from, places, Skipped, over_at};

use super::bytes::{byte_at, pair_at, pair_in};

// How many kinds there are. As keys they stand before the productions.
pub const KINDS: usize = 32;

// How many names the productions of a kind can have, and how many numbers its mappings.
pub const NAMES: usize = 256;

// No key is as high: a production has the kind of its result, a byte, and a name.
const KEYS: usize = KINDS + 256 * NAMES;

// The tag of a mapping by number 0, the first of a body's tags. It stands here since items have another order than entries.
pub const MAPPING: u8 = 0x22;

// The least tag of an item with a number: a mapping; the next one is a clause.
pub const NUMBERED: u8 = 0x28;

// Where the field at p ends, by its length bytes. It is whole if that is not past the end of the file.
pub fn field_end(s: &[u8], p: usize) -> usize
    requires { p ≤ length s.now }
    ensures { EndsAt s.now p result }
{
    p + 3 + pair_at(s, p + 1)
}

// The same, where its length bytes are known to be there.
pub fn whole_end(s: &[u8], p: usize) -> usize
    requires { p + 2 < length s.now }
    ensures { EndsAt s.now p result }
{
    p + 3 + pair_in(s, p + 1)
}

// Where the field at p ends, if it is whole.
pub fn end_if_whole(s: &[u8], p: usize) -> Option<usize>
    requires { p ≤ length s.now }
    ensures { EndIfWhole s.now p result }
{
    if s.len() - p < 3 {
        return None;
    }
    let e = whole_end(s, p);
    if s.len() < e {
        return None;
    }
    Some(e)
}

// The key of the entry at p, in a file whose leading entries have the tag `leading_tag`.
pub fn key_at(s: &[u8], p: usize, leading_tag: u8) -> usize
    requires { p ≤ length s.now }
    ensures { (result ≡ key_at leading_tag s.now p) × (result < 65568) }
{
    if byte_at(s, p) == leading_tag {
        return usize::from(byte_at(s, p + 3));
    }
    KINDS + pair_at(s, p + 3)
}

// The same, where its first five bytes are known to be there.
pub fn whole_key(s: &[u8], p: usize, leading_tag: u8) -> usize
    requires { p + 4 < length s.now }
    ensures { (result ≡ key_at leading_tag s.now p) × (result < 65568) }
{
    if s[p] == leading_tag {
        return usize::from(s[p + 3]);
    }
    KINDS + pair_in(s, p + 3)
}

// The key that the entry at p has in an index; with a number it has none there, and the answer is past every index.
pub fn slot_at(s: &[u8], p: usize, leading_tag: u8) -> usize
    requires { p ≤ length s.now }
    ensures { (result ≡ slot_at leading_tag s.now p) × (result < 65569) }
{
    if byte_at(s, p) < NUMBERED {
        return key_at(s, p, leading_tag);
    }
    KEYS
}

// The key of the item of a body at p, with its number, where its first five bytes are known to be there.
fn item_order(s: &[u8], p: usize) -> usize
    requires { p + 4 < length s.now }
    ensures { (result ≡ item_order s.now p) × (result < 16785664) }
{
    let tag = s[p];
    if tag < NUMBERED {
        return whole_key(s, p, MAPPING) * NAMES;
    }
    if tag == NUMBERED {
        return pair_in(s, p + 3);
    }
    let key = (KINDS + pair_in(s, p + 3)) * NAMES;
    if pair_in(s, p + 1) < 3 {
        return key;
    }
    key + usize::from(byte_at(s, p + 5))
}

// The key that the entry at p is ordered by, where its first five bytes are known to be there: in a body with its number.
pub fn order_at(s: &[u8], p: usize, leading_tag: u8) -> usize
    requires { p + 4 < length s.now }
    ensures { (result ≡ order_at leading_tag s.now p) × (result < 16785664) }
{
    if leading_tag == MAPPING {
        return item_order(s, p);
    }
    whole_key(s, p, leading_tag)
}

// The place of the first entry from p on whose key is not below `least`, or the end.
pub fn skip_below(s: &[u8], p: usize, leading_tag: u8, least: usize) -> usize
    requires { all (long_at s.now) (places_from s.now p) ≡ true }
    ensures { Skipped leading_tag least s.now p result }
{
    let mut q = p;
    while q < s.len() {
        if least <= order_at(s, q, leading_tag) {
            return q;
        }
        q = whole_end(s, q);
    }
    q
}

// The keys of the entries rise, and none comes twice.
pub fn keys_rise(s: &[u8], leading_tag: u8) -> bool
    requires { all (long_at s.now) (places s.now) ≡ true }
    ensures { result ≡ rising (order_at leading_tag s.now) (places s.now) }
{
    let mut least = 0;
    let mut p = 0;
    while p < s.len() {
        let key = order_at(s, p, leading_tag);
        if key < least {
            return false;
        }
        least = key + 1;
        p = whole_end(s, p);
    }
    true
}

// The field at p, whose first three bytes are there, has one of the two tags and says in its length bytes that it is
// over the limit.
fn over_at(s: &[u8], p: usize, first: u8, second: u8, limit: usize) -> bool
    requires { p + 2 < length s.now }
    ensures { result ≡ over_at (λ tag. eqb tag first || eqb tag second) limit s.now p }
{
    if pair_in(s, p + 1) <= limit {
        return false;
    }
    let tag = s[p];
    if tag == first {
        return true;
    }
    tag == second
}

// Some field of one of the two tags, reached over whole fields of any tag, says that it is over the limit.
pub fn says_over(s: &[u8], first: u8, second: u8, limit: usize) -> bool
    ensures { result ≡ has_over (λ tag. eqb tag first || eqb tag second) limit s.now }
{
    let mut p = 0;
    while p < s.len() {
        if s.len() - p < 3 {
            return false;
        }
        if over_at(s, p, first, second, limit) {
            return true;
        }
        p = whole_end(s, p);
    }
    false
}
