// The entries of a language: that each field is one.
ghost use Rattle.std.specs.Prelude.{◌≡◌, true, ◌+◌, ◌≤◌, length};
ghost use Rattle.std.proofs.Math.Seq.{slice};
ghost use Rattle.format_fields.specs.Lists.{all, is_some};
ghost use Rattle.format_fields.specs.Inner.Places.{WholeEnd};
ghost use Rattle.format_language.specs.LanguageFile.{is_kind, entries_of};
ghost use Rattle.format_language.specs.Inner.Entries.{size_at, step_whole, class_whole, production_whole, entry_good};

use format_fields::bytes::pair_in;
use format_fields::walk;
use format_fields::walk::end_if_whole;

// The tag of a token class.
pub const CLASS: u8 = 0x11;

// The tag of a production.
pub const PRODUCTION: u8 = 0x12;

// Kinds are the numbers below this one.
pub const KINDS: u8 = walk::KINDS as u8;

// A production has at most so many arguments.
pub const ARGUMENTS: usize = 8;

// The length of a class whose step is not written: kind, low, high.
pub const CLASS_LENGTH: usize = 5;

// The length of a class whose step is written.
pub const STEPPED_LENGTH: usize = 7;

// The greatest length of a production: result, name, arguments.
const PRODUCTION_LENGTH: usize = 2 + ARGUMENTS;

// The bytes are kinds.
fn kinds_only(bytes: &[u8]) -> bool
    ensures { result ≡ all is_kind bytes.now }
{
    bytes.iter().all(|&kind| kind < KINDS)
}

// The contents of the whole field at p, n bytes, have the length of a class, and a step that is not 0 where one is written.
fn step_whole(s: &[u8], p: usize, n: usize) -> bool
    requires { (p + 3 + n ≤ length s.now) × (n ≡ size_at s.now p) }
    ensures { (result ≡ step_whole s.now p) × (result ≡ true → 5 ≤ n) }
{
    if n == CLASS_LENGTH {
        return true;
    }
    if n != STEPPED_LENGTH {
        return false;
    }
    pair_in(s, p + 8) != 0
}

// The contents of the whole field at p, n bytes, are those of a class: kind, low, high, step.
fn class_whole(s: &[u8], p: usize, n: usize) -> bool
    requires { (p + 3 + n ≤ length s.now) × (n ≡ size_at s.now p) }
    ensures { result ≡ class_whole s.now p }
{
    if !step_whole(s, p, n) {
        return false;
    }
    if KINDS <= s[p + 3] {
        return false;
    }
    pair_in(s, p + 4) <= pair_in(s, p + 6)
}

// The contents of the whole field at p, n bytes, are those of a production: result, name, up to eight arguments.
fn production_whole(s: &[u8], p: usize, n: usize) -> bool
    requires { (p + 3 + n ≤ length s.now) × (n ≡ size_at s.now p) }
    ensures { result ≡ production_whole s.now p }
{
    if n < 2 {
        return false;
    }
    if PRODUCTION_LENGTH < n {
        return false;
    }
    if KINDS <= s[p + 3] {
        return false;
    }
    kinds_only(&s[p + 5..p + 3 + n])
}

// The whole field at p, which ends at e, is an entry.
fn entry_good(s: &[u8], p: usize, e: usize) -> bool
    requires { WholeEnd s.now p e }
    ensures { result ≡ entry_good s.now p }
{
    let n = e - p - 3;
    let tag = s[p];
    if tag == CLASS {
        return class_whole(s, p, n);
    }
    if tag == PRODUCTION {
        return production_whole(s, p, n);
    }
    false
}

// The file is whole entries.
pub fn entries_whole(s: &[u8]) -> bool
    ensures { result ≡ is_some (entries_of s.now) }
{
    let mut p = 0;
    while p < s.len() {
        let Some(e) = end_if_whole(s, p) else {
            return false;
        };
        if !entry_good(s, p, e) {
            return false;
        }
        p = e;
    }
    true
}
