// Kinds that are both a class and a result, in files of whole entries whose keys rise, so that the classes come first.
ghost use Rattle.std.specs.Prelude.{◌≡◌, true, ◌||◌, length};
ghost use Rattle.format_fields.specs.Lists.{all, any};
ghost use Rattle.format_fields.specs.Inner.Places.{places_from, tag_is};
ghost use Rattle.format_language.specs.Inner.Entries.{entry_whole, RisingEntries, Classed, result_marked, results_meet, result_is_class};

use super::entries::CLASS;
use format_fields::walk::{KINDS, whole_end};

// Marks the classes in a table of kinds, and says where the productions start.
fn mark_classes(s: &[u8], kinds: &mut [bool]) -> usize
    requires { RisingEntries s.now × (length kinds.old ≡ 32) }
    ensures { Classed s.now kinds.old kinds.new result }
{
    let mut p = 0;
    while p < s.len() {
        if s[p] != CLASS {
            return p;
        }
        kinds[usize::from(s[p + 3])] = true;
        p = whole_end(s, p);
    }
    p
}

// The result of some production from q on is marked in the table.
fn results_marked(s: &[u8], q: usize, kinds: &[bool]) -> bool
    requires { (all (entry_whole s.now) (places_from s.now q) ≡ true) × (all (tag_is 0x12 s.now) (places_from s.now q) ≡ true) × (length kinds.now ≡ 32) }
    ensures { result ≡ any (result_marked s.now kinds.now) (places_from s.now q) }
{
    let mut p = q;
    while p < s.len() {
        if kinds[usize::from(s[p + 3])] {
            return true;
        }
        p = whole_end(s, p);
    }
    false
}

// Some result is a class.
pub fn result_is_class(s: &[u8]) -> bool
    requires { RisingEntries s.now }
    ensures { result ≡ result_is_class s.now }
{
    let mut kinds = [false; KINDS];
    let p = mark_classes(s, &mut kinds);
    results_marked(s, p, &kinds)
}

// Some class of one language is a result of the other. Where the productions start at 0 there is no class.
pub fn clash_between(a: &[u8], b: &[u8]) -> bool
    requires { RisingEntries a.now × RisingEntries b.now }
    ensures { result ≡ results_meet a.now b.now || results_meet b.now a.now }
{
    let mut kinds = [false; KINDS];
    let p = mark_classes(a, &mut kinds);
    let mut others = [false; KINDS];
    let q = mark_classes(b, &mut others);
    if p != 0 {
        if results_marked(b, q, &kinds) {
            return true;
        }
    }
    if q == 0 {
        return false;
    }
    results_marked(a, p, &others)
}
