// The entries of an index, four bytes each: a start and a length.
ghost use Rattle.std.specs.Prelude.{◌≡◌, List, ℕ, ◌+◌, ◌<◌, ◌≤◌, length, MatchOption};
ghost use Rattle.format_fields.specs.Inner.Writing.{spliced};
ghost use Rattle.tree_index.specs.Spans.{Span, span, entry, entries};
ghost use Rattle.tree_index.specs.Inner.Marking.{Has};
ghost use Rattle.tree_index.specs.Inner.Starts.{Splits};

use format_fields::bytes::{pair_at, pair_in};
use format_fields::copy::put_pair;

// How many bytes an entry has.
pub const ENTRY: usize = 4;

// Puts an entry, where there is room for it.
pub fn put_entry(start: usize, size: usize, out: &mut [u8], n: usize)
    requires { (start < 65536) × (size < 65536) × (n < 1000000) }
    ensures { n + 4 ≤ length out.old → out.new ≡ spliced out.old n (entry (span start size)) }
{
    if out.len() < n + ENTRY {
        return;
    }
    put_pair(start, out, n);
    put_pair(size, out, n + 2);
}

// The length in the entry that stands in an index from n on, if that entry has the start.
pub fn size_at(index: &[u8], n: usize, start: usize) -> Option<usize>
    requires { n ≤ length index.now }
    ensures { MatchOption result ((size : ℕ) → Has index.now n (entry (span start size)) → ⊥)
        (λ size. Has index.now n (entry (span start size)) × (size < 65536)) }
{
    if index.len() < n + ENTRY || pair_in(index, n) != start {
        return None;
    }
    Some(pair_in(index, n + 2))
}

// Where in an index, from an entry on, the first entry stands whose start is not before a position.
pub fn entry_from(index: &[u8], entry: usize, position: usize) -> usize
    requires { entry ≤ length index.now }
    ensures { (front back : List Span) → Splits index.now entry position front back → result ≡ entry + length (entries front) }
{
    for p in (entry..index.len()).step_by(ENTRY) {
        if position <= pair_at(index, p) {
            return p;
        }
    }
    index.len()
}
