// The check of a pack's term.
ghost use Rattle.std.specs.Prelude.{◌≡◌, ◌≤◌, length, drop};
ghost use Rattle.outcome.specs.Outcome.{checked, value};
ghost use Rattle.format_pack.specs.Pack.{Pack, pack_of, term_of};
ghost use Rattle.format_pack.specs.Inner.Signs.{first_sign};
ghost use Rattle.format_pack.specs.Inner.Reading.{after_number, after, after_sign, after_last, rest_at, EndsBy};

use super::parts::term_start;
use super::signs::{COLUMN, CONSTANT, MAKE, Sort, first_operand, has_number, second_operand};
use super::whole::{BODY, LANGUAGE, count_tag};
use format_fields::bytes::byte_at;
use outcome::{Outcome, Reason};

// A term has at most so many levels.
pub const TERM_LEVELS: usize = 12;

// Variables of each sort are the numbers below this one.
pub const VARIABLES: usize = 16;

// The first sign of a sort.
fn first_sign(sort: Sort) -> u8
    ensures { result ≡ first_sign sort }
{
    match sort {
        Sort::Language => CONSTANT,
        Sort::Translation => MAKE,
    }
}

// The position after the number at a position, if there is one below the limit.
fn number_end(s: &[u8], at: usize, limit: usize) -> Option<usize>
    ensures is { rest_at s.now result ≡ after_number limit (drop at s.now) }
    ensures within { EndsBy (length s.now) result }
{
    let number = *s.get(at)?;
    if limit <= usize::from(number) {
        return None;
    }
    Some(at + 1)
}

// The position after the sign of the sort at a position, and after the number that follows it.
fn sign_end(sort: Sort, s: &[u8], at: usize, languages: usize) -> Option<usize>
    ensures is { rest_at s.now result ≡ after_sign languages sort (drop at s.now) }
    ensures within { EndsBy (length s.now) result }
{
    let sign = *s.get(at)?;
    let first = first_sign(sort);
    if sign < first || first + COLUMN <= sign {
        return None;
    }
    if !has_number(sign) || sign == MAKE {
        return Some(at + 1);
    }
    if sign == CONSTANT {
        return number_end(s, at + 1, languages);
    }
    number_end(s, at + 1, VARIABLES)
}

// The position after the number that ends a sign, at a position.
fn last_end(sign: u8, s: &[u8], at: usize, bodies: usize) -> Option<usize>
    requires { at ≤ length s.now }
    ensures is { rest_at s.now result ≡ after_last bodies sign (drop at s.now) }
    ensures within { EndsBy (length s.now) result }
{
    if sign == MAKE {
        return number_end(s, at, bodies);
    }
    Some(at)
}

// The position after the term of the sort at a position, with so many levels left; where there is no sort, nothing is read.
fn term_end(
    sort: Option<Sort>,
    s: &[u8],
    at: usize,
    languages: usize,
    bodies: usize,
    levels: usize,
) -> Option<usize>
    requires { at ≤ length s.now }
    ensures is { rest_at s.now result ≡ after languages bodies levels sort (drop at s.now) }
    ensures within { EndsBy (length s.now) result }
{
    let Some(sort) = sort else {
        return Some(at);
    };
    if levels == 0 {
        return None;
    }
    let a = sign_end(sort, s, at, languages)?;
    let sign = byte_at(s, at);
    let b = term_end(first_operand(sign), s, a, languages, bodies, levels - 1)?;
    let c = term_end(second_operand(sign), s, b, languages, bodies, levels - 1)?;
    last_end(sign, s, c, bodies)
}

// The term of a pack that was accepted: 8, or accepted.
pub fn check_term(pack: &[u8]) -> Outcome
    requires { (p : Pack) × (pack_of pack.now ≡ value p) }
    ensures { (p : Pack) → pack_of pack.now ≡ value p → result ≡ checked (term_of p) }
{
    let start = term_start(pack);
    let languages = count_tag(pack, LANGUAGE);
    let bodies = count_tag(pack, BODY);
    let term = Some(Sort::Translation);
    if term_end(term, pack, start, languages, bodies, TERM_LEVELS) != Some(pack.len()) {
        return Err(Reason::IllegalTerm);
    }
    Ok(0)
}
