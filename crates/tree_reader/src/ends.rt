// Where terms of an input end, kept for when it is asked again. Two numbers stand for each: 32 times the position where the term
// starts plus its kind, and the position where it ends. By where it starts, a term has two places in the table, one behind the
// other; of the terms that meet there the two longest are kept. No answer rests on what is kept or not.
ghost use Rattle.std.specs.Prelude.{IfSome, ◌≡◌, ◌⊎◌, ℕ, ◌+◌, ◌*◌, ◌<◌, ◌≤◌, length, set};
ghost use Rattle.tree_reader.specs.Inner.Ends.{Kept};

// How many terms the table of a short input keeps, and that of a long one.
const SHORT_TERMS: usize = 64;

const LONG_TERMS: usize = 4096;

// The lengths of these tables. Behind the terms stand two numbers more, of which the first is not 0 once anything is kept. A
// shorter table keeps nothing.
pub const SHORT_TABLE: usize = 2 * SHORT_TERMS + 2;

pub const LONG_TABLE: usize = 2 * LONG_TERMS + 2;

// The last position that is kept: 32 times it plus a kind is a number of 32 bits.
const LAST_POSITION: usize = 134217727;

// Terms that are asked for once are kept from the first length on, terms that are asked for more often from the second on.
const LONG_TERM: usize = 4096;

const SHORT_TERM: usize = 32;

// Positions that follow each other have places that do; from one stretch of positions to the next the places are turned by so
// many, so that positions apart by a power of two do not meet.
const SHORT_TURN: usize = 19;

const LONG_TURN: usize = 1265;

// A number of the table as a position.
fn to_usize(x: u32) -> usize
    ensures { (result ≡ x) × (result < 4294967296) }
{
    x as usize
}

// The first of the two places, in a table of a length, of a term that starts at a position.
fn first_place(length: usize, at: usize) -> usize
    requires { (130 ≤ length) × (at ≤ 134217727) }
    ensures { 2 * result + 3 < length }
{
    if length < LONG_TABLE {
        return (at + at / 32 * SHORT_TURN) % 32 * 2;
    }
    (at + at / 2048 * LONG_TURN) % 2048 * 2
}

// The place behind all terms, in a table of a length.
fn last_place(length: usize) -> usize
    requires { 130 ≤ length }
    ensures { 2 * result + 1 < length }
{
    if length < LONG_TABLE {
        return SHORT_TERMS;
    }
    LONG_TERMS
}

// Whether nothing is kept.
pub fn is_empty(ends: &[u32]) -> bool {
    if ends.len() < SHORT_TABLE {
        return true;
    }
    ends[2 * last_place(ends.len())] == 0
}

// Where the term of a kind at a position ends, if it is the one at this place.
fn end_at(ends: &[u32], place: usize, kind: usize, at: usize) -> Option<usize>
    requires { (kind < 32) × (at ≤ 134217727) × (2 * place + 1 < length ends.now) }
    ensures { IfSome result (λ end. Kept ends.now kind at end) }
{
    if to_usize(ends[2 * place]) != at * 32 + kind {
        return None;
    }
    let end = to_usize(ends[2 * place + 1]);
    if end == 0 {
        return None;
    }
    Some(end)
}

// Where the term of a kind at a position ends, where that is kept.
pub fn known_end(ends: &[u32], kind: usize, at: usize) -> Option<usize>
    requires { kind < 32 }
    ensures { IfSome result (λ end. Kept ends.now kind at end) }
{
    if ends.len() < SHORT_TABLE {
        return None;
    }
    if LAST_POSITION < at {
        return None;
    }
    let place = first_place(ends.len(), at);
    end_at(ends, place, kind, at).or_else(|| end_at(ends, place + 1, kind, at))
}

// How long the term at this place is; 0 where there is none.
fn length_at(ends: &[u32], place: usize) -> usize
    requires { 2 * place + 1 < length ends.now }
{
    let start = to_usize(ends[2 * place]) / 32;
    let end = to_usize(ends[2 * place + 1]);
    if end < start {
        return 0;
    }
    end - start
}

// Of the two places from this one on, the one whose term is the shorter.
fn shorter_place(ends: &[u32], place: usize) -> usize
    requires { 2 * place + 3 < length ends.now }
    ensures { (place ≤ result) × (result ≤ place + 1) }
{
    if length_at(ends, place + 1) < length_at(ends, place) {
        return place + 1;
    }
    place
}

// Puts a term of a kind from a position up to its end at this place.
fn put_end(ends: &mut [u32], place: usize, kind: u8, at: usize, end: usize)
    requires { (kind < 32) × (at ≤ end) × (end ≤ 134217727) × (2 * place + 1 < length ends.old) }
    ensures { ends.new ≡ set (set ends.old (2 * place) (at * 32 + kind)) (2 * place + 1) end }
{
    ends[2 * place] = (at * 32 + kind as usize) as u32;
    ends[2 * place + 1] = end as u32;
}

// The length from which on a term is kept that is asked for so many times.
fn least_length(times: usize) -> usize {
    if times < 2 {
        return LONG_TERM;
    }
    SHORT_TERM
}

// Keeps where a term ends that may be asked for so many times, if it is long enough for that, and longer than one of the two
// that are kept in its places.
pub fn keep_end(ends: &mut [u32], kind: u8, at: usize, end: usize, times: usize)
    requires { (kind < 32) × (at ≤ end) }
    ensures { (k p e : ℕ) → Kept ends.new k p e → Kept ends.old k p e ⊎ ((k ≡ kind) × (p ≡ at) × (e ≡ end)) }
{
    if end - at < least_length(times) {
        return;
    }
    if ends.len() < SHORT_TABLE {
        return;
    }
    if LAST_POSITION < end {
        return;
    }
    let place = shorter_place(ends, first_place(ends.len(), at));
    if length_at(ends, place) < end - at {
        let last = last_place(ends.len());
        put_end(ends, place, kind, at, end);
        put_end(ends, last, 1, 0, 0);
    }
}
