// The order of the keys in a pack, and the clashes in its languages.
ghost use Rattle.std.specs.Prelude.{◌≡◌, true};
ghost use Rattle.format_fields.specs.Lists.{all, any};
ghost use Rattle.format_fields.specs.Inner.Places.{WholeEnd, places};
ghost use Rattle.format_pack.specs.Inner.Parts.{part_whole, rises_at, clash_at};

use super::whole::{BODY, LANGUAGE};
use format_fields::walk::{MAPPING, keys_rise, whole_end};
use format_language::clash::result_is_class;
use format_language::entries::CLASS;

// The keys of the part at p, which ends at e, rise, if it is a language or a body.
fn rises_at(s: &[u8], p: usize, e: usize) -> bool
    requires { WholeEnd s.now p e × (part_whole s.now p ≡ true) }
    ensures { result ≡ rises_at s.now p }
{
    let tag = s[p];
    if tag == LANGUAGE {
        return keys_rise(&s[p + 3..e], CLASS);
    }
    if tag == BODY {
        return keys_rise(&s[p + 3..e], MAPPING);
    }
    true
}

// The keys rise in every language and in every body.
pub fn in_order(s: &[u8]) -> bool
    requires { all (part_whole s.now) (places s.now) ≡ true }
    ensures { result ≡ all (rises_at s.now) (places s.now) }
{
    let mut p = 0;
    while p < s.len() {
        let e = whole_end(s, p);
        if !rises_at(s, p, e) {
            return false;
        }
        p = e;
    }
    true
}

// The part at p, which ends at e and whose keys rise, is a language in which a result is a class.
fn clash_at(s: &[u8], p: usize, e: usize) -> bool
    requires { WholeEnd s.now p e × (part_whole s.now p ≡ true) × (rises_at s.now p ≡ true) }
    ensures { result ≡ clash_at s.now p }
{
    if s[p] != LANGUAGE {
        return false;
    }
    result_is_class(&s[p + 3..e])
}

// In some language a result is a class.
pub fn languages_clash(s: &[u8]) -> bool
    requires { (all (part_whole s.now) (places s.now) ≡ true) × (all (rises_at s.now) (places s.now) ≡ true) }
    ensures { result ≡ any (clash_at s.now) (places s.now) }
{
    let mut p = 0;
    while p < s.len() {
        let e = whole_end(s, p);
        if clash_at(s, p, e) {
            return true;
        }
        p = e;
    }
    false
}
