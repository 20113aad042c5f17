// The operation that joins a load table onto a translation.
ghost use Rattle.std.specs.Prelude.{◌≡◌, true, ◌∷◌, [], ◌++◌, ℕ, ◌+◌, ◌*◌, ◌<◌, ◌≤◌, length};
ghost use Rattle.format_fields.specs.Lists.{all, count_up};
ghost use Rattle.format_fields.specs.Fields.{two_bytes};
ghost use Rattle.format_fields.specs.Inner.Writing.{Written};
ghost use Rattle.tree_reader.specs.Code.{Code};
ghost use Rattle.tree_reader.specs.Typing.{Uses};
ghost use Rattle.format_language.specs.Language.{Language};
ghost use Rattle.format_translation.specs.Translation.{Translation};
ghost use Rattle.format_translation.specs.Plain.{plain};
ghost use Rattle.run_table.specs.Inner.Table.{Checked};
ghost use Rattle.score_tree.specs.Figures.{is_figure, figure_bytes};
ghost use Rattle.score_tree.specs.Linear.{Loads};
ghost use Rattle.score_tree.specs.LoadTable.{Table, encode_table};
ghost use Rattle.score_tree.specs.Inner.Kept.{Kept};
ghost use Rattle.score_tree.specs.Inner.Terms.{TermAsks};
ghost use Rattle.score_join.specs.Joined.{place_fits, load_fits, joined_table, join_bytes, join_table};
ghost use Rattle.score_join.specs.Inner.Loading.{Behind, Parts, LoadAsks, clause_at, figures_bytes, load_bytes, Puts, Answers, join_on, join_with, join_any};

use check_operations::translations::check_kept;
use check_wellformed::check::{INDEXES, USES_ROOM};
use format_fields::bytes::pair_in;
use format_fields::copy::put_pair;
use format_fields::walk::whole_end;
use format_language::entries::PRODUCTION;
use format_translation::index::{build_items, map_kind};
use format_translation::parts::{body_of, source_of, target_of};
use format_translation::plain::is_plain;
use outcome::{Answer, Outcome, Reason};
use score_tree::figures::{encode, is_figure};
use score_tree::form::{PLACES, form_at};
use score_tree::loaded::Loaded;
use score_tree::table::{FIGURES, LOAD, read_table};
use tree_reader::index::INDEX;
use tree_reader::node::place_at;
use tree_reader::read::CODE_LEVELS;

// A joined table has at most so many bytes: a load has less than two for each byte of its production's field.
const JOINED: usize = 2048;

// A translation with number 0 only: its source, its target with a table of it, its body and the index of that.
#[derive(Clone, Copy)]
struct Held<'a> {
    source: &'a [u8],
    target: Loaded<'a>,
    body: &'a [u8],
    items: &'a [u16],
}

// Puts a figure in two bytes.
fn put_figure(z: i64, output: &mut [u8], pos: usize) -> usize
    requires { (is_figure z ≡ true) × (pos + 2 ≤ length output.old) }
    ensures { Written (figure_bytes z) output.old output.new pos result }
{
    put_pair(usize::from(encode(z)), output, pos);
    pos + 2
}

// Puts the front of a load: tag, length, result, name.
fn put_head(res: u8, name: u8, size: usize, output: &mut [u8], pos: usize) -> usize
    requires { (size < 65536) × (pos + 5 ≤ length output.old) }
    ensures { Written (0x24 ∷ (two_bytes size ++ (res ∷ name ∷ []))) output.old output.new pos result }
{
    output[pos] = LOAD;
    put_pair(size, output, pos + 1);
    output[pos + 3] = res;
    output[pos + 4] = name;
    pos + 5
}

// Puts so many places of the form of the code at a position of the body, each as a figure, and says where they end; none where a
// figure does not fit two bytes.
fn join_figures(
    target: &Loaded,
    kind: u8,
    body: &[u8],
    at: usize,
    count: usize,
    joined: &mut [u8],
    pos: usize,
) -> Option<usize>
    requires { (pos + 2 * count ≤ length joined.old) × (0 < count) × (count ≤ 9) × ((l : Language) × (given : Uses) × (w : Loads) × (u : Code) × TermAsks target.now body.now kind at 16 l given w u) }
    ensures { (l : Language) (given : Uses) (w : Loads) (u : Code) → TermAsks target.now body.now kind at 16 l given w u
        → Puts (all (place_fits w u) (count_up count 0)) (figures_bytes w u count 0) joined.old joined.new pos result }
{
    let mut row = [0i64; PLACES];
    form_at(target, kind, body, at, CODE_LEVELS, 1, count, &mut row)?;
    let mut to = pos;
    for &z in &row[..count] {
        if !is_figure(z) {
            return None;
        }
        to = put_figure(z, joined, to);
    }
    Some(to)
}

// Puts the joined load, of so many figures, of the production at p of the source.
fn join_load(held: &Held, p: usize, count: usize, joined: &mut [u8], pos: usize) -> Option<usize>
    requires { (pos + 5 + 2 * count ≤ length joined.old) × (length joined.old ≡ 2048) × (0 < count) × (count ≤ 9) × ((f : Translation) × (w : Loads) × LoadAsks held.now p count f w) }
    ensures { (f : Translation) (w : Loads) → LoadAsks held.now p count f w
        → Puts (all (place_fits w (clause_at f held.now.source.now p)) (count_up count 0)) (load_bytes f w held.now.source.now p count) joined.old joined.new pos result }
{
    let source = held.source;
    let kind = map_kind(held.body, held.items, source[p + 3]);
    let place = place_at(held.items, 32 + pair_in(source, p + 3));
    let to = put_head(source[p + 3], source[p + 4], 2 + 2 * count, joined, pos);
    join_figures(&held.target, kind, held.body, place + 4, count, joined, to)
}

// Puts the joined table: a load for each production of the source.
fn join_loads(held: &Held, joined: &mut [u8]) -> Option<usize>
    requires { (length joined.old ≡ 2048) × ((f : Translation) × (w : Loads) × Parts held.now f w) }
    ensures { (f : Translation) (w : Loads) → Parts held.now f w
        → Puts (all (load_fits f w) f.source) (encode_table (joined_table f w)) joined.old joined.new 0 result }
{
    let source = held.source;
    let mut p = 0;
    let mut n = 0;
    while p < source.len() {
        let e = whole_end(source, p);
        if source[p] == PRODUCTION {
            n = join_load(held, p, e - p - 4, joined, n)?;
        }
        p = e;
    }
    Some(n)
}

// The joined table of a translation with number 0 only and a table that were accepted: 11, and 17 last. The index of the target is
// the one that the check of the translation made; the body is indexed here.
fn join_held(
    source: &[u8],
    target: &[u8],
    indexes: &[u16],
    body: &[u8],
    figures: &[i32],
    output: &mut [u8],
) -> Outcome
    requires { Behind target.now indexes.now × ((f : Translation) × (w : Table) × Checked source.now target.now body.now f × (plain f.body ≡ true) × Kept figures.now target.now w) }
    ensures { (f : Translation) (w : Table) → Checked source.now target.now body.now f → plain f.body ≡ true → Kept figures.now target.now w
        → Answers (join_on f w (length output.old)) output.old output.new result }
{
    let mut items = [0u16; INDEX];
    build_items(body, &mut items);
    let mut joined = [0u8; JOINED];
    let held = Held {
        source,
        target: Loaded {
            language: target,
            index: &indexes[INDEX..],
            figures,
        },
        body,
        items: &items,
    };
    let n = join_loads(&held, &mut joined).ok_or(Reason::ValueTooLarge)?;
    if output.len() < n {
        return Err(Reason::OutputTooShort);
    }
    output[..n].copy_from_slice(&joined[..n]);
    Ok(n)
}

// The joined table of a translation with number 0 only that was accepted: 18, 11, 17.
fn join_plain(
    source: &[u8],
    target: &[u8],
    indexes: &[u16],
    body: &[u8],
    table: &[u8],
    output: &mut [u8],
) -> Outcome
    requires { Behind target.now indexes.now × ((f : Translation) × Checked source.now target.now body.now f × (plain f.body ≡ true)) }
    ensures { (f : Translation) → Checked source.now target.now body.now f → plain f.body ≡ true
        → Answers (join_with f table.now (length output.old)) output.old output.new result }
{
    let mut figures = [0i32; FIGURES];
    read_table(target, table, &mut figures)?;
    join_held(source, target, indexes, body, &figures, output)
}

// The joined table of a translation that was accepted: 26, 18, 11, 17.
fn join_parts(
    source: &[u8],
    target: &[u8],
    indexes: &[u16],
    body: &[u8],
    table: &[u8],
    output: &mut [u8],
) -> Outcome
    requires { Behind target.now indexes.now × ((f : Translation) × Checked source.now target.now body.now f) }
    ensures { (f : Translation) → Checked source.now target.now body.now f
        → Answers (join_any f table.now (length output.old)) output.old output.new result }
{
    if !is_plain(body) {
        return Err(Reason::NumberUnfit);
    }
    join_plain(source, target, indexes, body, table, output)
}

// The joined table of a translation and a table in their bytes.
fn join_files(translation: &[u8], table: &[u8], output: &mut [u8]) -> Outcome
    ensures { Answers (join_bytes translation.now table.now (length output.old)) output.old output.new result }
{
    let mut indexes = [0u16; INDEXES];
    let mut uses = [0u8; USES_ROOM];
    check_kept(translation, &mut indexes, &mut uses)?;
    join_parts(
        source_of(translation),
        target_of(translation),
        &indexes,
        body_of(translation),
        table,
        output,
    )
}

// Join a table: 1 to 7 for the translation, 26 where it has any number but 0, 18 for the table against the target, 11 where a
// figure does not fit two bytes, 17 where the output is too short.
pub fn join_table(translation: &[u8], table: &[u8], output: &mut [u8]) -> Answer
    ensures { (result.outcome ≡ (join_table translation.now table.now output.old).outcome)
        × (output.new ≡ (join_table translation.now table.now output.old).output) }
{
    Answer::from(join_files(translation, table, output))
}
