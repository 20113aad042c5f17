// The mapping: exactly the kinds in the source are mapped by number 0; each mapping is of a kind in the source, to a kind in
// the target, and a class maps to a class that contains it.
ghost use Rattle.std.specs.Prelude.{◌≡◌, true, List, ℕ, ◌+◌, ◌<◌, ◌≤◌, length};
ghost use Rattle.std.specs.Option.{ForSome};
ghost use Rattle.format_fields.specs.Fields.{byte_at};
ghost use Rattle.format_fields.specs.Lists.{all, count_up};
ghost use Rattle.format_fields.specs.Inner.Places.{places, field_end, Skipped};
ghost use Rattle.format_language.specs.Inner.Entries.{IsClass};
ghost use Rattle.tree_reader.specs.Inner.Positions.{uses_length};
ghost use Rattle.format_translation.specs.Translation.{Translation};
ghost use Rattle.format_translation.specs.WellFormed.{mapping_fits};
ghost use Rattle.check_wellformed.specs.Inner.Ready.{Holds};
ghost use Rattle.check_wellformed.specs.Inner.Tests.{mapped_if, MapsAt, reaches_at, range_kept, kept_in, fits_in};

use super::clauses::place_of;
use super::kinds::mark_entries;
use super::parts::Parts;
use format_fields::walk::{KINDS, NAMES, skip_below, whole_end};
use format_language::entries::CLASS;
use format_language::range::range_within;
use format_translation::body::is_clause;
use tree_reader::node::place_at;

// A kind is mapped by number 0 if it is marked, and only then.
fn mapped_if(uses: &[u8], kinds: &[bool], k: usize) -> bool
    requires { (k < 32) × (uses_length ≤ length uses.now) × (length kinds.now ≡ 32) }
    ensures { result ≡ mapped_if uses.now kinds.now k }
{
    kinds[k] == (uses[k * NAMES] != 0)
}

// Exactly the kinds that are marked are mapped by number 0.
fn kinds_mapped(uses: &[u8], kinds: &[bool]) -> bool
    requires { (uses_length ≤ length uses.now) × (length kinds.now ≡ 32) }
    ensures { result ≡ all (mapped_if uses.now kinds.now) (count_up 32 0) }
{
    (0..KINDS).all(|k| mapped_if(uses, kinds, k))
}

// The mapping at p, which ends at e, is of a kind that is marked, and goes to one that is.
fn reaches_at(body: &[u8], p: usize, e: usize, marked: &[bool], reached: &[bool]) -> bool
    requires { MapsAt body.now p × (e ≡ field_end body.now p) × (length marked.now ≡ 32) × (length reached.now ≡ 32) }
    ensures { result ≡ reaches_at body.now marked.now reached.now p }
{
    if !marked[usize::from(body[p + 3])] {
        return false;
    }
    reached[usize::from(body[e - 1])]
}

// The range of the source's class at `place`, if there is one, lies in that of the target's at `goal`, which there must be then.
fn range_kept(source: &[u8], place: Option<usize>, target: &[u8], goal: Option<usize>) -> bool
    requires { ForSome place (IsClass source.now) × ForSome goal (IsClass target.now) }
    ensures { result ≡ range_kept source.now place target.now goal }
{
    let Some(p) = place else {
        return true;
    };
    let Some(q) = goal else {
        return false;
    };
    range_within(source, p, target, q)
}

// The mapping at p, which ends at e, takes a class to a class that contains its range. The class of its kind in the source, if
// there is one, stands at q.
fn class_kept(parts: &Parts, q: usize, p: usize, e: usize) -> bool
    requires { ((u : List ℕ) × (f : Translation) × Holds parts.now u f) × MapsAt parts.now.body.now p × (e ≡ field_end parts.now.body.now p)
        × Skipped 0x11 (byte_at parts.now.body.now (p + 3)) parts.now.source.now 0 q }
    ensures { result ≡ kept_in parts.now p }
{
    let kind = parts.body[p + 3];
    let to = parts.body[e - 1];
    let place = place_of(parts.source, q, usize::from(kind));
    let goal = place_at(parts.targets, usize::from(to)).checked_sub(1);
    range_kept(parts.source, place, parts.target, goal)
}

// Each mapping is of a kind that is marked, goes to one that is, and keeps the range of a class. They stand in front, by
// rising kind, as the classes of the source do, so that the class of a mapping is found beside it.
fn mappings_fit(parts: &Parts, marked: &[bool], reached: &[bool]) -> bool
    requires { ((u : List ℕ) × (f : Translation) × Holds parts.now u f) × (length marked.now ≡ 32) × (length reached.now ≡ 32) }
    ensures { result ≡ all (fits_in parts.now marked.now reached.now) (places parts.now.body.now) }
{
    let body = parts.body;
    let mut from = 0;
    let mut p = 0;
    while p < body.len() {
        if is_clause(body[p]) {
            return true;
        }
        let e = whole_end(body, p);
        if !reaches_at(body, p, e, marked, reached) {
            return false;
        }
        from = skip_below(parts.source, from, CLASS, usize::from(body[p + 3]));
        if !class_kept(parts, from, p, e) {
            return false;
        }
        p = e;
    }
    true
}

// The mapping is as required.
pub fn mapping_fits(parts: &Parts, uses: &[u8]) -> bool
    requires { (f : Translation) × Holds parts.now uses.now f }
    ensures { (f : Translation) → Holds parts.now uses.now f → result ≡ mapping_fits f }
{
    let mut marked = [false; KINDS];
    mark_entries(parts.source, &mut marked);
    if !kinds_mapped(uses, &marked) {
        return false;
    }
    let mut reached = [false; KINDS];
    mark_entries(parts.target, &mut reached);
    mappings_fit(parts, &marked, &reached)
}
