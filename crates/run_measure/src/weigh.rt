// The weights of a tree: how often its run by each number is put out. They stand in a window of a slice, as many as the
// width says; the weights of what belongs to the tree are worked out in the window behind it, which is all zero before. Only
// the entries that count are walked: to weigh, to add up, and to set back to zero.
ghost use Rattle.std.specs.Prelude.{◌≡◌, cond, List, ℕ, ◌+◌, ◌*◌, ◌/◌, ◌%◌, ◌<◌, ◌≤◌, length, get_or, eqb};
ghost use Rattle.run_measure.specs.Inner.Sizes.{capped};
ghost use Rattle.run_measure.specs.Inner.Weighing.{window, weigh_at, sum_of, once_by, KeptBelow};
ghost use Rattle.run_measure.specs.Inner.Entering.{NoneFrom, OnlyBy, Wiped, Shared, Entered};

use crate::capped::{add, add_share};
use crate::table::{count_in, entries_at};

// How the weights of what belongs to a tree are worked out: by the numbers that a table of entries has, or by number 0 alone.
pub trait Weigher {
    // The entries and the width that it is for.
    ghost Fits: { List ℕ → ℕ → Type 0 };

    // The weights of what stands at position q of the source, in the window behind that of the tree that it belongs to, by all
    // numbers; and their sum.
    fn weigh(
        counts: &[u16; 1024],
        entries: &[u16],
        q: usize,
        weights: &mut [usize],
        from: usize,
        width: usize,
        top: usize,
    ) -> usize
        requires { Fits entries.now width × (q < 1024) × (0 < width) × (width ≤ 256) × (from + 2 * width ≤ length weights.old) × NoneFrom weights.old (from + width) }
        ensures kept { KeptBelow weights.old weights.new (from + width) }
        ensures is { window width weights.new (from + width)
            ≡ weigh_at (counts.now, entries.now) top width q (window width weights.old from) }
        ensures sums { result ≡ sum_of top (window width weights.new (from + width)) }
        ensures none { NoneFrom weights.new (from + width + width) };

    // A sum and what the codes of a production, whose name stands at position q of the source, write themselves, where the
    // tree's weights stand from `from` on.
    fn add_own(
        counts: &[u16; 1024],
        entries: &[u16],
        q: usize,
        weights: &[usize],
        from: usize,
        width: usize,
        sum: usize,
        top: usize,
    ) -> usize
        requires { Fits entries.now width × (q < 1024) × (0 < width) × (width ≤ 256) × (from + width ≤ length weights.now) × (sum ≤ top) }
        ensures { result ≡ capped top (sum + weigh_at (counts.now, entries.now) top width q (window width weights.now from) 0) };

    // Sets a window that was worked out for position q of the source back to zero; all behind it is zero.
    fn wipe(entries: &[u16], q: usize, weights: &mut [usize], at: usize, width: usize)
        requires { Fits entries.now width × (0 < width) × (width ≤ 256) × (at + width ≤ length weights.old) × NoneFrom weights.old (at + width)
            × OnlyBy entries.now (get_or entries.now q 0) weights.old at width }
        ensures { Wiped weights.old weights.new at };

    // How often the end of a tree whose weights stand from a position on may be asked for.
    fn often(weights: &[usize], at: usize) -> usize
        requires { at < length weights.now };
}

// By all numbers.
#[derive(Clone, Copy, Debug, PartialEq, Eq)]
pub struct Numbered;

// The weight of a number in a window, and 0 past the width.
fn weight_of(weights: &[usize], from: usize, width: usize, number: usize) -> usize
    requires { from + width ≤ length weights.now }
    ensures { result ≡ window width weights.now from number }
{
    if width <= number {
        return 0;
    }
    weights[from + number]
}

// Adds what one entry counts: the weight of its clause's number, as often as it says, to the weight of its use's number and
// to the sum of all.
fn add_one(
    weights: &mut [usize],
    from: usize,
    width: usize,
    key: usize,
    n: usize,
    total: usize,
    top: usize,
) -> usize
    requires { (width ≤ 256) × (from + 2 * width ≤ length weights.old) × (n < 65536) × (key < 65536) × (total ≤ top)
        × ((m : ℕ) → m < width → get_or weights.old (from + width + m) 0 ≤ top) }
    ensures { (result ≤ top) × Shared weights.old weights.new from width key n top total result }
{
    let to = key % 256;
    if width <= to {
        return total;
    }
    let weight = weight_of(weights, from, width, key / 256);
    let at = from + width + to;
    weights[at] = add_share(weights[at], weight, n, top);
    add_share(total, weight, n, top)
}

// Adds what the entries for position q of the source count.
fn add_entries(
    entries: &[u16],
    q: usize,
    weights: &mut [usize],
    from: usize,
    width: usize,
    sum: usize,
    top: usize,
) -> usize
    requires { (width ≤ 256) × (from + 2 * width ≤ length weights.old) × (sum ≤ top) × ((m : ℕ) → m < width → get_or weights.old (from + width + m) 0 ≤ top) }
    ensures { (result ≤ top) × Entered entries.now (get_or entries.now q 0) weights.old weights.new from width top sum result }
{
    let mut total = sum;
    for (key, n) in entries_at(entries, q) {
        total = add_one(weights, from, width, key, n, total, top);
    }
    total
}

// Sets the weight of one number in a window to 0.
fn wipe_one(weights: &mut [usize], at: usize, width: usize, number: usize)
    requires { at + width ≤ length weights.old }
    ensures kept { KeptBelow weights.old weights.new at }
    ensures less { (i : ℕ) → get_or weights.old i 0 ≡ 0 → get_or weights.new i 0 ≡ 0 }
    ensures none { number < width → get_or weights.new (at + number) 0 ≡ 0 }
{
    if width <= number {
        return;
    }
    weights[at + number] = 0;
}

// Sets the weights that the entries for position q of the source count for back to zero, in a window whose weight for number 0
// is zero; all behind it is zero.
fn wipe_entries(entries: &[u16], q: usize, weights: &mut [usize], at: usize, width: usize)
    requires { (width ≤ 256) × (at + width ≤ length weights.old) × NoneFrom weights.old (at + width)
        × OnlyBy entries.now (get_or entries.now q 0) weights.old at width × (get_or weights.old (at + 0) 0 ≡ 0) }
    ensures { Wiped weights.old weights.new at }
{
    for (key, _) in entries_at(entries, q) {
        wipe_one(weights, at, width, key % 256);
    }
}

// Adds to a sum what one entry counts for number 0: what a code writes itself.
fn own_one(
    weights: &[usize],
    from: usize,
    width: usize,
    key: usize,
    n: usize,
    sum: usize,
    top: usize,
) -> usize
    requires { (from + width ≤ length weights.now) × (n < 65536) × (sum ≤ top) }
    ensures { result ≡ capped top (sum + cond (eqb (key % 256) 0) (window width weights.now from (key / 256) * n) 0) }
{
    if key % 256 != 0 {
        return sum;
    }
    add_share(sum, weight_of(weights, from, width, key / 256), n, top)
}

impl Weigher for Numbered {
    ghost Fits = { λ _ _. Unit {0} };

    fn weigh(
        counts: &[u16; 1024],
        entries: &[u16],
        q: usize,
        weights: &mut [usize],
        from: usize,
        width: usize,
        top: usize,
    ) -> usize {
        let total = add_one(weights, from, width, 0, count_in(counts, q), 0, top);
        add_entries(entries, q, weights, from, width, total, top)
    }

    fn add_own(
        counts: &[u16; 1024],
        entries: &[u16],
        q: usize,
        weights: &[usize],
        from: usize,
        width: usize,
        sum: usize,
        top: usize,
    ) -> usize {
        let mut total = own_one(weights, from, width, 0, count_in(counts, q), sum, top);
        for (key, n) in entries_at(entries, q) {
            total = own_one(weights, from, width, key, n, total, top);
        }
        total
    }

    fn wipe(entries: &[u16], q: usize, weights: &mut [usize], at: usize, width: usize) {
        wipe_one(weights, at, width, 0);
        wipe_entries(entries, q, weights, at, width);
    }

    // Several numbers may use it.
    fn often(_weights: &[usize], _at: usize) -> usize {
        2
    }
}

// The weights at the root, once by the number that is asked for, in the first window, and their sum. All are zero before.
pub fn begin(weights: &mut [usize], number: u8, width: usize, top: usize) -> usize
    requires { (width ≤ 256) × (width ≤ length weights.old) × NoneFrom weights.old 0 }
    ensures kept { length weights.new ≡ length weights.old }
    ensures is { number < width → window width weights.new 0 ≡ once_by number }
    ensures sums { result ≡ sum_of top (window width weights.new 0) }
    ensures none { NoneFrom weights.new width }
{
    let at = usize::from(number);
    if width <= at {
        return 0;
    }
    weights[at] = 1;
    add(0, 1, top)
}
