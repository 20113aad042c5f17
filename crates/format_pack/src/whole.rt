// The parts of a pack: that each field is one, that they stand in their groups, and how many there are.
ghost use Rattle.std.specs.Prelude.{◌≡◌, true, length};
ghost use Rattle.format_fields.specs.Lists.{all, is_some};
ghost use Rattle.format_fields.specs.Inner.Places.{WholeEnd, is_whole, places};
ghost use Rattle.format_pack.specs.Pack.{pack_parts};
ghost use Rattle.format_pack.specs.Inner.Parts.{part_good, parts_ordered, tagged};

use format_fields::walk::{end_if_whole, whole_end};
use format_language::entries::entries_whole;
use format_translation::body::body_whole;

// The tag of a language in a pack.
pub const LANGUAGE: u8 = 0x30;

// The tag of a body.
pub const BODY: u8 = 0x31;

// The tag of the term.
pub const TERM: u8 = 0x32;

// There are at most so many languages, and so many bodies.
const PARTS: usize = 32;

// The whole field at p, which ends at e, is a part.
fn part_good(s: &[u8], p: usize, e: usize) -> bool
    requires { WholeEnd s.now p e }
    ensures { result ≡ part_good s.now p }
{
    let tag = s[p];
    if tag == LANGUAGE {
        return entries_whole(&s[p + 3..e]);
    }
    if tag == BODY {
        return body_whole(&s[p + 3..e]);
    }
    tag == TERM
}

// The file is whole parts, in the order of their groups.
fn parts_ordered(s: &[u8]) -> bool
    ensures { result ≡ parts_ordered s.now 0x30 (places s.now) }
{
    let mut last = LANGUAGE;
    let mut p = 0;
    while p < s.len() {
        let Some(e) = end_if_whole(s, p) else {
            return false;
        };
        if !part_good(s, p, e) {
            return false;
        }
        let tag = s[p];
        if tag < last {
            return false;
        }
        last = tag;
        p = e;
    }
    true
}

// How many fields have this tag.
pub fn count_tag(s: &[u8], tag: u8) -> usize
    requires { all (is_whole s.now) (places s.now) ≡ true }
    ensures { result ≡ length (tagged tag s.now) }
{
    let mut n = 0;
    let mut p = 0;
    while p < s.len() {
        let e = whole_end(s, p);
        if s[p] == tag {
            n += 1;
        }
        p = e;
    }
    n
}

// The file is up to 32 languages, up to 32 bodies, and one term, each of whole fields.
pub fn parts_whole(s: &[u8]) -> bool
    ensures { result ≡ is_some (pack_parts s.now) }
{
    if !parts_ordered(s) {
        return false;
    }
    if PARTS < count_tag(s, LANGUAGE) {
        return false;
    }
    if PARTS < count_tag(s, BODY) {
        return false;
    }
    count_tag(s, TERM) == 1
}
