// The operation run. It measures the result first and writes it only where it fits.
ghost use Rattle.std.specs.Prelude.{◌≡◌, List, ◌⊎◌, ℕ, min, ◌*◌, ◌<◌, ◌≤◌, length, get_or};
ghost use Rattle.outcome.specs.Outcome.{value};
ghost use Rattle.tree_reader.specs.Code.{Code};
ghost use Rattle.format_translation.specs.Translation.{Translation};
ghost use Rattle.format_translation.specs.Operations.{run_tree};
ghost use Rattle.run_measure.specs.Inner.Measuring.{Counted};
ghost use Rattle.run_measure.specs.Inner.Counting.{width_of};
ghost use Rattle.format_translation.specs.Inner.ItemIndex.{Mapped};
ghost use Rattle.run_operation.specs.Operations.{largest_cost, run_cost};
ghost use Rattle.run_operation.specs.Inner.Runs.{Answers, Asked, Has, Ran, Reads, Measures, Opened, result_of};

use check_wellformed::check::USES_ROOM;
use format_language::check::LANGUAGE_LIMIT;
use format_translation::parts::{TRANSLATION_LIMIT, body_of, source_of};
use outcome::{Answer, Reason};
use run_measure::count::width_of;
use run_measure::measure::{Figures, Measured, measure};
use run_measure::prepare::prepare;
use run_measure::weigh::Numbered;
use run_open::open::{has_number, open_translation};
use tree_reader::ends::{LONG_TABLE, SHORT_TABLE, is_empty};
use tree_reader::index::{INDEX, TABLE};
use tree_reader::node::Syntax;
use tree_reader::read::TREE_LEVELS;

// The last kind, and the largest number of a mapping.
const LAST_KIND: u32 = 31;

const LAST_NUMBER: u32 = 255;

// How many numbers there are, and how many are few: most bodies with numbers have only those.
const NUMBERS: usize = 256;

const FEW_NUMBERS: usize = 16;

// How many numbers count the uses by numbers other than 0: one for each position of the source, where the first entry for it
// stands, and an entry of three for every second position of the body.
const ENTRIES: usize = LANGUAGE_LIMIT + TRANSLATION_LIMIT / 2 * 3;

// How many windows of weights there are: one for each level of a tree, one for the root and one behind.
const WINDOWS: usize = TREE_LEVELS + 2;

// Weights for every number in each window, and for few numbers.
const WEIGHTS: usize = WINDOWS * NUMBERS;

const FEW_WEIGHTS: usize = WINDOWS * FEW_NUMBERS;

// Trees from this length on have the long table of where their subtrees end.
const LONG_TREE: usize = 4096;

// Lengths and costs are counted up to here at least.
const LEAST_TOP: usize = 4294967296;

// The largest cost that is reported.
const LARGEST_COST: u32 = 4294967295;

// What is run: a tree by a number that is to be its kind's, through the translation of which source and body are given and the table that
// was made of it.
#[derive(Clone, Copy)]
struct Given<'a> {
    source: &'a [u8],
    body: &'a [u8],
    table: &'a [u16; TABLE],
    kind: u8,
    number: u8,
    tree: &'a [u8],
}

// What was written: its length, and how many clauses were applied, as it is reported.
#[derive(Clone, Copy, Debug, PartialEq, Eq)]
struct Written {
    length: usize,
    cost: u32,
}

// Puts what the body's clauses count into tables that are all zero. The index of the source stands in the front of the table.
fn begin(given: &Given, counts: &mut [u16], entries: &mut [u16], width: usize)
    requires { (length counts.old ≡ 1024) × ((j : ℕ) → get_or counts.old j 0 ≡ 0) × ((j : ℕ) → get_or entries.old j 0 ≡ 0)
        × (width ≡ width_of given.now.body.now) × ((length entries.old ≡ 7168) ⊎ (width ≡ 1))
        × ((t : List ℕ) × (f : Translation) × Opened given.now t f) }
    ensures { (t : List ℕ) (f : Translation) → Opened given.now t f → Counted (counts.new, entries.new) width given.now.table.now f }
{
    let table = given.table;
    let index = &table[..INDEX];
    prepare(given.source, given.body, index, counts, entries, width);
}

// The tree, checked, and the length of its run and its cost, over tables that are lent all zero. Where long subtrees end is kept.
fn measure_with(
    given: &Given,
    top: usize,
    entries: &mut [u16],
    weights: &mut [usize],
    width: usize,
    ends: &mut [u32],
) -> Measured
    requires { (given.now.kind < 32) × ((j : ℕ) → get_or entries.old j 0 ≡ 0) × (width ≡ width_of given.now.body.now) × (0 < width) × (width ≤ 256)
        × ((length entries.old ≡ 7168) ⊎ (width ≡ 1)) × (66 * width ≤ length weights.old) × ((j : ℕ) → get_or weights.old j 0 ≡ 0) × ((j : ℕ) → get_or ends.old j 0 ≡ 0)
        × ((t : List ℕ) × (f : Translation) × Opened given.now t f) }
    ensures { (t : List ℕ) (f : Translation) → Opened given.now t f → Measures given.now f ends.new top result }
{
    let mut counts = [0u16; LANGUAGE_LIMIT];
    begin(given, &mut counts, entries, width);
    measure::<Numbered>(
        given.source,
        given.table,
        &counts,
        entries,
        given.kind,
        given.number,
        given.tree,
        0,
        TREE_LEVELS,
        top,
        weights,
        width,
        ends,
    )
}

// The same where the body has no number but 0, and nothing is lent for others.
#[inline(never)]
fn measure_single(given: &Given, top: usize, ends: &mut [u32]) -> Measured
    requires { (given.now.kind < 32) × (1 ≡ width_of given.now.body.now) × (0 < top) × ((j : ℕ) → get_or ends.old j 0 ≡ 0)
        × ((t : List ℕ) × (f : Translation) × Opened given.now t f) }
    ensures { (t : List ℕ) (f : Translation) → Opened given.now t f → Measures given.now f ends.new top result }
{
    let mut counts = [0u16; LANGUAGE_LIMIT];
    let mut entries = [0u16; 0];
    begin(given, &mut counts, &mut entries, 1);
    run_single::walk::measure(
        given.source,
        given.table,
        &counts,
        given.kind,
        given.tree,
        0,
        TREE_LEVELS,
        top,
        ends,
    )
}

// The same with tables for the numbers that the body has. They are large, and stay out of the frames of a run that has no use for them.
#[inline(never)]
fn measure_numbered(given: &Given, top: usize, ends: &mut [u32]) -> Measured
    requires { (given.now.kind < 32) × ((j : ℕ) → get_or ends.old j 0 ≡ 0) × ((t : List ℕ) × (f : Translation) × Opened given.now t f) }
    ensures { (t : List ℕ) (f : Translation) → Opened given.now t f → Measures given.now f ends.new top result }
{
    let width = width_of(given.body);
    let mut entries = [0u16; ENTRIES];
    if width <= FEW_NUMBERS {
        let mut weights = [0usize; FEW_WEIGHTS];
        return measure_with(given, top, &mut entries, &mut weights, width, ends);
    }
    let mut weights = [0usize; WEIGHTS];
    measure_with(given, top, &mut entries, &mut weights, width, ends)
}

// The same, with tables for other numbers only where the body has some.
fn measure_given(given: &Given, top: usize, ends: &mut [u32]) -> Measured
    requires { (given.now.kind < 32) × (0 < top) × ((j : ℕ) → get_or ends.old j 0 ≡ 0) × ((t : List ℕ) × (f : Translation) × Opened given.now t f) }
    ensures { (t : List ℕ) (f : Translation) → Opened given.now t f → Measures given.now f ends.new top result }
{
    if width_of(given.body) == 1 {
        measure_single(given, top, ends)
    } else {
        measure_numbered(given, top, ends)
    }
}

// Writes the run of a legal tree whose result fits into the output, and answers its length. Where nothing is kept of where its parts
// end, none of it is looked up.
fn write_tree(given: &Given, ends: &[u32], output: &mut [u8]) -> usize
    requires { (given.now.kind < 32) × ((s : List ℕ) × (f : Translation) × (t : Code) × Opened given.now s f × Reads given.now f ends.now t) }
    ensures { (s : List ℕ) (f : Translation) (t : Code) → Opened given.now s f → Reads given.now f ends.now t
        → length (result_of given.now f t) ≤ length output.old
        → Answers (value (result_of given.now f t)) output.old output.new (Ok result) }
{
    let none = [0u32; 2];
    let known: &[u32] = if is_empty(ends) { &none } else { ends };
    run_emit::run::run(
        Syntax::Tree,
        given.table,
        given.tree,
        known,
        given.kind,
        given.number,
        TREE_LEVELS,
        output,
        0,
    )
}

// A count of clauses as it is reported: no more than the largest cost.
fn reported(count: usize) -> u32
    ensures { result ≡ min count largest_cost }
{
    u32::try_from(count).unwrap_or(LARGEST_COST)
}

// Writes the run of a tree by what measuring came to: 15, 17.
fn finish(
    given: &Given,
    figures: Figures,
    ends: &[u32],
    output: &mut [u8],
) -> Result<Written, Reason>
    requires { (given.now.kind < 32) × ((t : List ℕ) × (f : Translation) × (top : ℕ) × Opened given.now t f × Has given.now f × (length output.old < top)
        × Measures given.now f ends.now top (Ok figures)) }
    ensures { (t : List ℕ) (f : Translation) (top : ℕ) → Opened given.now t f → Has given.now f → length output.old < top → largest_cost ≤ top
        → Measures given.now f ends.now top (Ok figures) → Ran given.now f output.old output.new result }
{
    if figures.end != given.tree.len() {
        return Err(Reason::IllegalTree);
    }
    if output.len() < figures.length {
        return Err(Reason::OutputTooShort);
    }
    Ok(Written {
        length: write_tree(given, ends, output),
        cost: reported(figures.cost),
    })
}

// A top that is above the room and not below the largest cost.
fn top_over(room: usize) -> usize
    requires { room < 9223372036854775808 }
    ensures { (room < result) × (largest_cost ≤ result) }
{
    LEAST_TOP.max(room + 1)
}

// The run of a tree by a number, which its kind has: 15 to 17. Where long subtrees end is kept in a table of this length, which stays out of
// the frame of a run with a shorter one.
#[inline(never)]
fn run_over<const ENDS: usize>(given: &Given, output: &mut [u8]) -> Result<Written, Reason>
    requires { (ENDS ≤ 65536) × (given.now.kind < 32) × ((t : List ℕ) × (f : Translation) × Opened given.now t f × Has given.now f) }
    ensures { (t : List ℕ) (f : Translation) → Opened given.now t f → Has given.now f → Ran given.now f output.old output.new result }
{
    let mut ends = [0u32; ENDS];
    let top = top_over(output.len());
    let figures = measure_given(given, top, &mut ends)?;
    finish(given, figures, &ends, output)
}

// The run of a tree through a translation that was opened: 14 to 17. Long trees have the long table of where their subtrees end.
fn run_given(given: &Given, uses: &[u8; USES_ROOM], output: &mut [u8]) -> Result<Written, Reason>
    requires { (given.now.kind < 32) × ((t : List ℕ) × (f : Translation) × Opened given.now t f × Mapped uses.now f.body) }
    ensures { (t : List ℕ) (f : Translation) → Opened given.now t f → Mapped uses.now f.body → Ran given.now f output.old output.new result }
{
    if !has_number(uses, given.kind, given.number) {
        return Err(Reason::UnknownRoot);
    }
    if given.tree.len() < LONG_TREE {
        return run_over::<SHORT_TABLE>(given, output);
    }
    run_over::<LONG_TABLE>(given, output)
}

// The run of a tree by a number: 1 to 7 for the translation, 14 for the root and the number, 15 and 16 for the tree against its source, 17
// where the result is longer than the output.
fn run_opened(
    translation: &[u8],
    root: u32,
    number: u32,
    tree: &[u8],
    output: &mut [u8],
) -> Result<Written, Reason>
    ensures { Asked translation.now root number tree.now output.old output.new result }
{
    let mut table = [0u16; TABLE];
    let mut uses = [0u8; USES_ROOM];
    open_translation(translation, &mut table, &mut uses)?;
    if LAST_KIND < root {
        return Err(Reason::UnknownRoot);
    }
    if LAST_NUMBER < number {
        return Err(Reason::UnknownRoot);
    }
    let given = Given {
        source: source_of(translation),
        body: body_of(translation),
        table: &table,
        kind: root as u8,
        number: number as u8,
        tree,
    };
    run_given(&given, &uses, output)
}

// Run by a number: 1 to 7, 14 to 17. How many clauses it applies is put into `cost`, and 0 where it is refused.
pub fn run(
    translation: &[u8],
    root: u32,
    number: u32,
    tree: &[u8],
    output: &mut [u8],
    cost: &mut u32,
) -> Answer
    ensures { (result.outcome ≡ (run_tree translation.now root number tree.now output.old).outcome)
        × (output.new ≡ (run_tree translation.now root number tree.now output.old).output)
        × (cost.new ≡ run_cost translation.now root number tree.now (length output.old)) }
{
    *cost = 0;
    match run_opened(translation, root, number, tree, output) {
        Ok(written) => {
            *cost = written.cost;
            Answer::from(Ok(written.length))
        }
        Err(reason) => Answer::from(Err(reason)),
    }
}
