// The pass over a tree that checks it and measures the result of its run and what the run costs, where number 0 is the only one.
// A tree has one weight: how often its run is put out.
ghost use Rattle.std.specs.Prelude.{◌≡◌, [], ℕ, ◌+◌, ◌<◌, ◌≤◌, length, drop};
ghost use Rattle.std.proofs.Math.Option.{some};
ghost use Rattle.tree_reader.specs.Syntax.{read as read_code, tree as inTrees};
ghost use Rattle.tree_reader.specs.Inner.Index.{Sound, Indexed};
ghost use Rattle.format_translation.specs.Translation.{Translation, mapping_of};
ghost use Rattle.run_measure.specs.Inner.Measuring.{EndsIn, sized_at, sized_of, Counted};
ghost use Rattle.run_measure.specs.Inner.Learning.{Learnt};

use run_measure::capped::add_share;
use run_measure::measure::Measured;
use run_measure::table::count_in;
use run_measure::weigh::Weigher;
use tree_reader::index::TABLE;

// How many weights there are: one for each level of a tree, one for the root and one behind.
const WEIGHTS: usize = 66;

// By number 0 alone: a window is one weight, and there are no entries.
#[derive(Clone, Copy, Debug, PartialEq, Eq)]
pub struct Single;

impl Weigher for Single {
    ghost Fits = { λ entries width. (entries ≡ []) × (width ≡ 1) };

    fn weigh(
        counts: &[u16; 1024],
        _entries: &[u16],
        q: usize,
        weights: &mut [usize],
        from: usize,
        _width: usize,
        top: usize,
    ) -> usize {
        let part = add_share(0, weights[from], count_in(counts, q), top);
        weights[from + 1] = part;
        part
    }

    fn add_own(
        counts: &[u16; 1024],
        _entries: &[u16],
        q: usize,
        weights: &[usize],
        from: usize,
        _width: usize,
        sum: usize,
        top: usize,
    ) -> usize {
        add_share(sum, weights[from], count_in(counts, q), top)
    }

    fn wipe(_entries: &[u16], _q: usize, weights: &mut [usize], at: usize, _width: usize) {
        weights[at] = 0;
    }

    // As often as its run is put out.
    fn often(weights: &[usize], at: usize) -> usize {
        weights[at]
    }
}

// The tree of the kind at a position, read as the source has it, and the length and cost of its run by number 0, up to a top.
pub fn measure(
    source: &[u8],
    index: &[u16; TABLE],
    counts: &[u16; 1024],
    kind: u8,
    tree: &[u8],
    at: usize,
    levels: usize,
    top: usize,
    ends: &mut [u32],
) -> Measured
    requires { Sound index.now source.now × (kind < 32) × (at ≤ length tree.now) × (0 < levels) × (levels ≤ 64) × (0 < top) }
    ensures is { (f : Translation) (number u : ℕ) → Indexed index.now source.now f.source
        → Counted (counts.now, []) 1 index.now f → mapping_of f.body kind number ≡ some u
        → sized_at tree.now result ≡ sized_of top f number (read_code inTrees f.source [] levels kind (drop at tree.now)) }
    ensures within { EndsIn (length tree.now) top result }
    ensures learnt { Learnt source.now index.now tree.now ends.old ends.new }
{
    let mut weights = [0usize; WEIGHTS];
    run_measure::measure::measure::<Single>(
        source,
        index,
        counts,
        &[],
        kind,
        0,
        tree,
        at,
        levels,
        top,
        &mut weights,
        1,
        ends,
    )
}
