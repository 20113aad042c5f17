// What each clause's code writes itself and how often it uses each argument by each number, counted once for a run.
ghost use Rattle.std.specs.Prelude.{◌≡◌, true, ℕ, ◌+◌, ◌<◌, ◌≤◌, length, get_or};
ghost use Rattle.format_fields.specs.Lists.{all};
ghost use Rattle.format_fields.specs.Inner.Places.{is_whole, field_end, places};
ghost use Rattle.run_measure.specs.Inner.Counting.{amount_of, slot_of, by_of, step_of, count_sign, count_code, count_clause, count_all, Below, wider_at, width_of};

use crate::table::{FIRST_ENTRY, add_at, add_entry, count_at};
use format_fields::bytes::{byte_at, pair_at};
use format_fields::walk::{KINDS, NUMBERED, field_end};
use format_translation::body::{CLAUSE, NUMBERED_CLAUSE};
use format_translation::clause::{CLAUSE_HEAD, NUMBERED_HEAD};
use tree_reader::node::{ARGUMENT, NUMBERED_ARGUMENT, TOKEN};

// What a sign counts for: a token two bytes, a name one, an argument one use.
fn amount(sign: u8) -> u16
    ensures { (result ≡ amount_of sign) × (result ≤ 2) }
{
    if sign == TOKEN { 2 } else { 1 }
}

// Where it counts: a use at the argument's number, what the code writes itself at 0.
fn slot(sign: u8, number: u8) -> usize
    ensures { (result ≡ slot_of sign number) × (result < 256) }
{
    match sign {
        ARGUMENT | NUMBERED_ARGUMENT => usize::from(number),
        _ => 0,
    }
}

// By which number: that of a use behind 04, else 0.
fn by(sign: u8, number: u8) -> usize
    ensures { (result ≡ by_of sign number) × (result < 256) }
{
    if sign == NUMBERED_ARGUMENT {
        usize::from(number)
    } else {
        0
    }
}

// How many bytes it has, with what belongs to it.
fn step(sign: u8) -> usize
    ensures { (result ≡ step_of sign) × (2 ≤ result) × (result ≤ 3) }
{
    match sign {
        TOKEN | NUMBERED_ARGUMENT => 3,
        _ => 2,
    }
}

// Counts the sign at p, in a clause whose number gives keys from `first` on. Most are 03 in a clause of number 0.
fn count_sign(
    body: &[u8],
    p: usize,
    own: usize,
    first: usize,
    counts: &mut [u16],
    entries: &mut [u16],
)
    requires { (p < 4096) × (own < 65540) × (first ≤ 65280) × ((j : ℕ) → get_or counts.old j 0 ≤ 4096) }
    ensures { (counts.new, entries.new) ≡ count_sign body.now p own first (counts.old, entries.old) }
{
    let sign = byte_at(body, p);
    if first == 0 && sign == ARGUMENT {
        add_at(counts, own + usize::from(byte_at(body, p + 1)), 1);
        return;
    }
    let q = own + slot(sign, byte_at(body, p + 1));
    let key = first + by(sign, byte_at(body, p + 2));
    if key == 0 {
        add_at(counts, q, amount(sign));
    } else {
        add_entry(
            entries,
            FIRST_ENTRY + p / 2 * 3,
            q,
            key as u16,
            amount(sign),
        );
    }
}

// Counts the code that stands in the body from `from` up to `to`: its own bytes at `own`, the uses behind.
fn count_code(
    body: &[u8],
    from: usize,
    to: usize,
    own: usize,
    first: usize,
    counts: &mut [u16],
    entries: &mut [u16],
)
    requires { (to ≤ length body.now) × (length body.now ≤ 4096) × (own < 65540) × (first ≤ 65280) × Below counts.old from to }
    ensures is { (counts.new, entries.new) ≡ count_code body.now from to own first (counts.old, entries.old) }
    ensures low { (j : ℕ) → get_or counts.new j 0 ≤ to }
{
    let mut p = from;
    while p < to {
        count_sign(body, p, own, first, counts, entries);
        p += step(byte_at(body, p));
    }
}

// Counts the clause at p, which ends at e, where the index finds its production.
fn count_clause(
    body: &[u8],
    p: usize,
    e: usize,
    index: &[u16],
    counts: &mut [u16],
    entries: &mut [u16],
)
    requires { (p ≤ length body.now) × (e ≡ field_end body.now p) × (e ≤ length body.now) × (length body.now ≤ 4096) × ((j : ℕ) → get_or counts.old j 0 ≤ p) }
    ensures is { (counts.new, entries.new) ≡ count_clause body.now index.now p (counts.old, entries.old) }
    ensures low { (j : ℕ) → get_or counts.new j 0 ≤ e }
{
    let place = count_at(index, KINDS + pair_at(body, p + 3));
    if place == 0 {
        return;
    }
    match byte_at(body, p) {
        CLAUSE => count_code(body, p + CLAUSE_HEAD, e, place + 3, 0, counts, entries),
        NUMBERED_CLAUSE => count_code(
            body,
            p + NUMBERED_HEAD,
            e,
            place + 3,
            256 * usize::from(byte_at(body, p + CLAUSE_HEAD)),
            counts,
            entries,
        ),
        _ => {}
    }
}

// Counts every clause of the body into tables that are all zero.
pub fn count_all(body: &[u8], index: &[u16], counts: &mut [u16], entries: &mut [u16])
    requires { (all (is_whole body.now) (places body.now) ≡ true) × (length body.now ≤ 4096) × ((j : ℕ) → get_or counts.old j 0 ≡ 0) }
    ensures { (counts.new, entries.new) ≡ count_all body.now index.now (places body.now) (counts.old, entries.old) }
{
    let mut p = 0;
    while p < body.len() {
        let e = field_end(body, p);
        count_clause(body, p, e, index, counts, entries);
        p = e;
    }
}

// A width, or one more than the number of the mapping at p where that is more.
fn wider(body: &[u8], p: usize, width: usize) -> usize
    requires { (p < 4096) × (width ≤ 256) }
    ensures { (result ≡ wider_at body.now p width) × (width ≤ result) × (result ≤ 256) }
{
    if byte_at(body, p) != NUMBERED {
        return width;
    }
    width.max(usize::from(byte_at(body, p + 4)) + 1)
}

// How many weights a kind may have: one more than the largest number of a mapping of the body.
pub fn width_of(body: &[u8]) -> usize
    requires { length body.now ≤ 4096 }
    ensures { (result ≡ width_of body.now) × (1 ≤ result) × (result ≤ 256) }
{
    let mut width = 1;
    let mut p = 0;
    while p < body.len() {
        width = wider(body, p, width);
        p = field_end(body, p);
    }
    width
}
