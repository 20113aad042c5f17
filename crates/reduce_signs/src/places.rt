// Where the values of the variables stand in the store.
ghost use Rattle.std.specs.Prelude.{◌≡◌, ℕ, ◌+◌, ◌<◌, get_or};
ghost use Rattle.reduce_signs.specs.Inner.Sorts.{sort_of};
ghost use Rattle.reduce_signs.specs.Inner.Values.{slot_of, Sized, Changed};

use crate::sorts::Sort;
use format_pack::term::VARIABLES;

// How many slots there are: one for each variable of each sort.
const SLOTS: usize = 2 * VARIABLES;

// For each slot the start plus 1, or 0 where nothing is bound, and the end.
#[derive(Clone, Copy)]
pub struct Places {
    pub starts: [usize; SLOTS],
    pub ends: [usize; SLOTS],
}

// The slot of a variable.
pub fn slot_of(sort: Sort, variable: usize) -> usize
    requires { variable < 16 }
    ensures { (result ≡ slot_of (sort_of sort) variable) × (result < 32) }
{
    match sort {
        Sort::Language => variable,
        Sort::Translation => VARIABLES + variable,
    }
}

// Nothing is bound.
pub fn nothing() -> Places
    ensures { Sized result × ((j : ℕ) → get_or result.starts j 0 ≡ 0) }
{
    Places {
        starts: [0; SLOTS],
        ends: [0; SLOTS],
    }
}

// The places with one slot set.
pub fn set_slot(mut places: Places, slot: usize, start: usize, end: usize) -> Places
    requires { (slot < 32) × Sized places }
    ensures { Changed places result slot start end }
{
    places.starts[slot] = start;
    places.ends[slot] = end;
    places
}

// The start of a slot.
pub fn start_of(places: Places, slot: usize) -> usize
    requires { slot < 32 }
    ensures { result ≡ get_or places.starts slot 0 }
{
    places.starts[slot]
}

// The end of a slot.
pub fn end_of(places: Places, slot: usize) -> usize
    requires { slot < 32 }
    ensures { result ≡ get_or places.ends slot 0 }
{
    places.ends[slot]
}
