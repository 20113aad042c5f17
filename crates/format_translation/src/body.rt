// The items of a body: that each field is one, and that they stand in their groups.
ghost use Rattle.std.specs.Prelude.{◌≡◌, ◌+◌, ◌≤◌, length};
ghost use Rattle.format_fields.specs.Lists.{is_some};
ghost use Rattle.format_fields.specs.Inner.Places.{WholeEnd};
ghost use Rattle.format_language.specs.Inner.Entries.{size_at};
ghost use Rattle.format_translation.specs.TranslationFile.{body_of};
ghost use Rattle.format_translation.specs.Inner.Items.{mapping_whole, numbered_mapping_whole, clause_whole, numbered_clause_whole, item_good, is_clause_tag};

use format_fields::walk::{MAPPING, NUMBERED, end_if_whole};
use format_language::entries::KINDS;

// The tag of a clause of number 0.
pub const CLAUSE: u8 = 0x23;

// The tag of a clause of another number.
pub const NUMBERED_CLAUSE: u8 = 0x29;

// The contents of the whole field at p, n bytes, are those of a mapping by number 0: source kind, target kind.
fn mapping_whole(s: &[u8], p: usize, n: usize) -> bool
    requires { (p + 3 + n ≤ length s.now) × (n ≡ size_at s.now p) }
    ensures { result ≡ mapping_whole s.now p }
{
    if n != 2 {
        return false;
    }
    if KINDS <= s[p + 3] {
        return false;
    }
    s[p + 4] < KINDS
}

// The contents of the whole field at p, n bytes, are those of a clause of number 0: result, name, code.
fn clause_whole(s: &[u8], p: usize, n: usize) -> bool
    requires { (p + 3 + n ≤ length s.now) × (n ≡ size_at s.now p) }
    ensures { result ≡ clause_whole s.now p }
{
    if n < 2 {
        return false;
    }
    s[p + 3] < KINDS
}

// They are those of a mapping by another number: source kind, number, target kind.
fn numbered_mapping_whole(s: &[u8], p: usize, n: usize) -> bool
    requires { (p + 3 + n ≤ length s.now) × (n ≡ size_at s.now p) }
    ensures { result ≡ numbered_mapping_whole s.now p }
{
    if n != 3 {
        return false;
    }
    if KINDS <= s[p + 3] {
        return false;
    }
    if s[p + 4] == 0 {
        return false;
    }
    s[p + 5] < KINDS
}

// They are those of a clause of another number: result, name, number, code.
fn numbered_clause_whole(s: &[u8], p: usize, n: usize) -> bool
    requires { (p + 3 + n ≤ length s.now) × (n ≡ size_at s.now p) }
    ensures { result ≡ numbered_clause_whole s.now p }
{
    if n < 3 {
        return false;
    }
    if KINDS <= s[p + 3] {
        return false;
    }
    0 < s[p + 5]
}

// The whole field at p, which ends at e, is an item.
fn item_good(s: &[u8], p: usize, e: usize) -> bool
    requires { WholeEnd s.now p e }
    ensures { result ≡ item_good s.now p }
{
    let n = e - p - 3;
    let tag = s[p];
    if tag == MAPPING {
        return mapping_whole(s, p, n);
    }
    if tag == CLAUSE {
        return clause_whole(s, p, n);
    }
    if tag == NUMBERED {
        return numbered_mapping_whole(s, p, n);
    }
    if tag == NUMBERED_CLAUSE {
        return numbered_clause_whole(s, p, n);
    }
    false
}

// A tag is that of a clause.
pub fn is_clause(tag: u8) -> bool
    ensures { result ≡ is_clause_tag tag }
{
    if tag == CLAUSE {
        return true;
    }
    tag == NUMBERED_CLAUSE
}

// The file is whole items, no mapping after a clause.
pub fn body_whole(s: &[u8]) -> bool
    ensures { result ≡ is_some (body_of s.now) }
{
    let mut past = false;
    let mut p = 0;
    while p < s.len() {
        let Some(e) = end_if_whole(s, p) else {
            return false;
        };
        if !item_good(s, p, e) {
            return false;
        }
        let clause = is_clause(s[p]);
        if past {
            if !clause {
                return false;
            }
        }
        past = clause;
        p = e;
    }
    true
}
