// The terms without operands, and copies of values.
ghost use Rattle.std.specs.Prelude.{◌≡◌, ◌+◌, ◌<◌, ◌≤◌, length, take, get_or};
ghost use Rattle.std.proofs.Math.Option.{some};
ghost use Rattle.std.proofs.Math.ListN.{get_elem?};
ghost use Rattle.std.proofs.Math.Seq.{slice};
ghost use Rattle.outcome.specs.Outcome.{value};
ghost use Rattle.outcome.specs.declared.Reason.TheVariants.{UnboundVariable};
ghost use Rattle.format_language.specs.Language.{Language};
ghost use Rattle.format_pack.specs.Terms.{languages};
ghost use Rattle.format_pack.specs.Pack.{Pack, pack_of};
ghost use Rattle.reduce_operators.specs.Inner.Values as Written;
ghost use Rattle.reduce_signs.specs.Evaluation.{Value, Environment, there};
ghost use Rattle.reduce_signs.specs.Inner.Sorts.{sort_of, value_in, bytes_of};
ghost use Rattle.reduce_signs.specs.Inner.Values.{Held, Wrote, Saved};

use crate::evaluated::{Evaluated, finish};
use crate::places::{Places, end_of, slot_of, start_of};
use crate::sorts::Sort;
use format_fields::bytes::byte_at;
use format_fields::copy::put;
use format_pack::parts::language_at;
use outcome::{Outcome, Reason};

// Copies the value in the first n bytes into the store, from top on.
pub fn save(value: &[u8], n: usize, store: &mut [u8], top: usize)
    requires { (n ≤ length value.now) × (top + n ≤ length store.old) }
    ensures { Saved value.now n store.old store.new top }
{
    put(value, 0, n, store, top);
}

// Copies the value of a sort that stands from start up to end.
fn copy(sort: Sort, bytes: &[u8], start: usize, end: usize, out: &mut [u8]) -> Outcome
    requires { ((v : Value (sort_of sort)) × (value_in (sort_of sort) (slice start end bytes.now) ≡ value v))
        × (start ≤ end) × (end ≤ length bytes.now) × (4096 ≤ length out.old) }
    ensures { (v : Value (sort_of sort)) → value_in (sort_of sort) (slice start end bytes.now) ≡ value v
        → Written.Gives (bytes_of (sort_of sort) (value v)) out.old out.new result }
{
    match sort {
        Sort::Language => reduce_operators::copy::language(&bytes[start..end], out),
        Sort::Translation => reduce_operators::copy::translation(&bytes[start..end], out),
    }
}

// A constant: the language of the pack that the byte behind the sign numbers, as a value writes it.
pub fn constant(pack: &[u8], at: usize, out: &mut [u8]) -> Evaluated
    requires { ((p : Pack) × (pack_of pack.now ≡ value p) × ((l : Language) × (get_elem? p.languages (get_or pack.now (at + 1) 0) ≡ some l)))
        × (at + 2 ≤ length pack.now) × (4096 ≤ length out.old) }
    ensures { (p : Pack) (l : Language) → pack_of pack.now ≡ value p → get_elem? p.languages (get_or pack.now (at + 1) 0) ≡ some l
        → Wrote languages (value l) out.old out.new (at + 2) result }
{
    let language = language_at(pack, usize::from(byte_at(pack, at + 1)));
    finish(reduce_operators::canonical::language(language, out), at + 2)
}

// A variable: the value that is bound to the number behind the sign.
pub fn variable(
    sort: Sort,
    pack: &[u8],
    at: usize,
    places: Places,
    store: &[u8],
    top: usize,
    out: &mut [u8],
) -> Evaluated
    requires { ((e : Environment) × Held e places (take top store.now)) × (get_or pack.now (at + 1) 0 < 16)
        × (at + 2 ≤ length pack.now) × (4096 ≤ length out.old) }
    ensures { (e : Environment) → Held e places (take top store.now)
        → Wrote (sort_of sort) (there UnboundVariable (e (sort_of sort) (get_or pack.now (at + 1) 0))) out.old out.new (at + 2) result }
{
    let slot = slot_of(sort, usize::from(byte_at(pack, at + 1)));
    let start = start_of(places, slot);
    if start == 0 {
        return Err(Reason::UnboundVariable);
    }
    let end = end_of(places, slot);
    finish(copy(sort, store, start - 1, end, out), at + 2)
}
