// One pass over a tree that checks it and measures the result of its run by a number, and what the run costs.
ghost use Rattle.std.specs.Prelude.{◌≡◌, [], ℕ, suc, ◌+◌, ◌*◌, ◌<◌, ◌≤◌, length, get_or, drop};
ghost use Rattle.std.proofs.Math.Option.{some};
ghost use Rattle.tree_reader.specs.Syntax.{read as read_code, tree as inTrees};
ghost use Rattle.tree_reader.specs.Inner.Index.{Sound, Indexed};
ghost use Rattle.tree_reader.specs.Inner.Positions.{KindsIn};
ghost use Rattle.format_translation.specs.Translation.{Translation, mapping_of};
ghost use Rattle.run_measure.specs.Inner.Measuring.{EndsIn, sized_at, sized_of, Counted};
ghost use Rattle.run_measure.specs.Inner.Weighing.{window, weigh_at, sum_of};
ghost use Rattle.run_measure.specs.Inner.Entering.{NoneFrom};
ghost use Rattle.run_measure.specs.Inner.Descent.{leaf_step, down_at, down_row, goes_on, out_of_levels, StepIn, Childless};
ghost use Rattle.run_measure.specs.Inner.Learning.{Learnt, Decides};

use crate::capped::{add, add_share};
use crate::weigh::{Weigher, begin};
use tree_reader::ends::keep_end;
use tree_reader::index::TABLE;
use tree_reader::node::{Read, ReadError, Syntax, place_at, production_place, token};
use tree_reader::operands::{first_operand, last_operand};

// What was measured of a tree: the position after it, the length of its run and what it costs, both up to a top.
#[derive(Clone, Copy, Debug, PartialEq, Eq)]
pub struct Figures {
    pub end: usize,
    pub length: usize,
    pub cost: usize,
}

// The measure of a tree, or why there is none.
pub type Measured = Result<Figures, ReadError>;

// What stands where a tree begins: a row of operands, whose kinds stand in the source from `first` up to `last`, and what is
// measured so far, up to where they begin. A token's row is empty.
#[derive(Clone, Copy, Debug, PartialEq, Eq)]
pub struct Row {
    pub first: usize,
    pub last: usize,
    pub done: Figures,
}

// Whether a tree of the kind is one level too many: no level is left, and the kind is no class.
pub fn out_of_levels(index: &[u16; TABLE], kind: u8, left: usize) -> bool
    requires { kind < 32 }
    ensures { result ≡ out_of_levels index.now kind left }
{
    left == 0 && place_at(index, usize::from(kind)) == 0
}

// A leaf of a tree is a token, which a run keeps: two bytes.
pub fn leaf(read: Read, total: usize, done: Figures, top: usize) -> Result<Row, ReadError>
    requires { done.length ≤ top }
    ensures { result ≡ leaf_step top total done.length done.cost read }
{
    let Ok(end) = read else {
        return Err(ReadError::Broken);
    };
    Ok(Row {
        first: 0,
        last: 0,
        done: Figures {
            end,
            length: add_share(done.length, total, 2, top),
            cost: done.cost,
        },
    })
}

// What stands where a tree of the kind begins, whose weights stand from `from` on and come to the total, and what it adds itself to
// what is measured before it.
#[inline(always)]
fn step_at<W: Weigher>(
    source: &[u8],
    index: &[u16; TABLE],
    counts: &[u16; 1024],
    entries: &[u16],
    kind: u8,
    tree: &[u8],
    done: Figures,
    total: usize,
    top: usize,
    weights: &[usize],
    from: usize,
    width: usize,
) -> Result<Row, ReadError>
    requires { W.Fits entries.now width × Sound index.now source.now × (kind < 32) × (done.end ≤ length tree.now) × (done.length ≤ top) × (done.cost ≤ top)
        × (0 < width) × (width ≤ 256) × (from + width ≤ length weights.now) × (total ≡ sum_of top (window width weights.now from)) }
    ensures is { (n : ℕ) → goes_on source.now index.now (weigh_at (counts.now, entries.now) top width) tree.now top n
        (window width weights.now from) result
        ≡ down_at source.now index.now (weigh_at (counts.now, entries.now) top width) tree.now top (suc n)
        (window width weights.now from) kind done.end done.length done.cost }
    ensures within { StepIn source.now (length tree.now) top done.end result }
    ensures decides { Decides source.now index.now tree.now kind done.end result }
    ensures childless { Childless (get_or index.now kind 0) result }
{
    let class = place_at(index, usize::from(kind));
    let place = production_place(Syntax::Tree, index, class, kind, tree, done.end);
    if place == 0 {
        return leaf(token(source, class, tree, done.end), total, done, top);
    }
    Ok(Row {
        first: first_operand(place),
        last: last_operand(source, place),
        done: Figures {
            end: done.end + 1,
            length: W::add_own(
                counts,
                entries,
                place + 3,
                weights,
                from,
                width,
                done.length,
                top,
            ),
            cost: add(done.cost, total, top),
        },
    })
}

// The operands of a row and all that stands below them. The rows above wait in two tables, the outermost first, and in a
// third stands where the operand of each row starts; where it ends is kept. The weights of each row stand in a window of
// their own, which is set back to zero when the row is done. The index is the front of a longer table.
fn measure_rows<W: Weigher>(
    source: &[u8],
    index: &[u16; TABLE],
    counts: &[u16; 1024],
    entries: &[u16],
    outermost: Row,
    tree: &[u8],
    levels: usize,
    top: usize,
    weights: &mut [usize],
    width: usize,
    ends: &mut [u32],
) -> Measured
    requires { W.Fits entries.now width × Sound index.now source.now × KindsIn source.now outermost.first outermost.last × (levels < 64)
        × (outermost.done.end ≤ length tree.now) × (outermost.done.length ≤ top) × (outermost.done.cost ≤ top)
        × (0 < width) × (width ≤ 256) × (66 * width ≤ length weights.old) × NoneFrom weights.old width }
    ensures is { (result ≡ down_row source.now index.now (weigh_at (counts.now, entries.now) top width) tree.now top levels
        (window width weights.old 0) outermost.first outermost.last outermost.done.end outermost.done.length outermost.done.cost)
        × EndsIn (length tree.now) top result }
    ensures learnt { Learnt source.now index.now tree.now ends.old ends.new }
{
    let mut firsts = [0u16; 64];
    let mut lasts = [0u16; 64];
    let mut starts = [0usize; 64];
    let mut depth = 0;
    let mut base = 0;
    let mut row = outermost;
    loop {
        if row.last <= row.first {
            if depth == 0 {
                return Ok(row.done);
            }
            depth -= 1;
            row.first = usize::from(firsts[depth]);
            row.last = usize::from(lasts[depth]);
            W::wipe(entries, row.first - 1, weights, base, width);
            base -= width;
            keep_end(
                ends,
                source[row.first - 1],
                starts[depth],
                row.done.end,
                W::often(weights, base),
            );
            continue;
        }
        let kind = source[row.first];
        if out_of_levels(index, kind, levels - depth) {
            return Err(ReadError::Deep);
        }
        let total = W::weigh(counts, entries, row.first, weights, base, width, top);
        starts[depth] = row.done.end;
        let found = step_at::<W>(
            source,
            index,
            counts,
            entries,
            kind,
            tree,
            row.done,
            total,
            top,
            weights,
            base + width,
            width,
        )?;
        if found.last <= found.first {
            W::wipe(entries, row.first, weights, base + width, width);
            row.first += 1;
            row.done = found.done;
            continue;
        }
        firsts[depth] = (row.first + 1) as u16;
        lasts[depth] = row.last as u16;
        depth += 1;
        base += width;
        row = found;
    }
}

// The tree of the kind at a position, read as the source has it, and the length and cost of its run by a number, up to a top.
// The weights are lent all zero.
pub fn measure<W: Weigher>(
    source: &[u8],
    index: &[u16; TABLE],
    counts: &[u16; 1024],
    entries: &[u16],
    kind: u8,
    number: u8,
    tree: &[u8],
    at: usize,
    levels: usize,
    top: usize,
    weights: &mut [usize],
    width: usize,
    ends: &mut [u32],
) -> Measured
    requires { W.Fits entries.now width × Sound index.now source.now × (kind < 32) × (at ≤ length tree.now) × (0 < levels) × (levels ≤ 64)
        × (0 < width) × (width ≤ 256) × (66 * width ≤ length weights.old) × ((j : ℕ) → get_or weights.old j 0 ≡ 0) }
    ensures is { (f : Translation) (u : ℕ) → Indexed index.now source.now f.source
        → Counted (counts.now, entries.now) width index.now f → mapping_of f.body kind number ≡ some u
        → sized_at tree.now result ≡ sized_of top f number (read_code inTrees f.source [] levels kind (drop at tree.now)) }
    ensures within { EndsIn (length tree.now) top result }
    ensures learnt { Learnt source.now index.now tree.now ends.old ends.new }
{
    let total = begin(weights, number, width, top);
    let nothing = Figures {
        end: at,
        length: 0,
        cost: 0,
    };
    let row = step_at::<W>(
        source, index, counts, entries, kind, tree, nothing, total, top, weights, 0, width,
    )?;
    measure_rows::<W>(
        source,
        index,
        counts,
        entries,
        row,
        tree,
        levels - 1,
        top,
        weights,
        width,
        ends,
    )
}
