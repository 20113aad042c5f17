// The C interface: each operation answers with its number. A slice is a pointer and a length.
#![tactic(auto)]

ghost use Rattle.std.specs.Prelude.{◌≡◌, length as size};
ghost use Rattle.outcome.specs.Outcome.{number_of, length_of};
ghost use Rattle.format_language.specs.Operations.{check_language};
ghost use Rattle.tree_reader.specs.Operations.{check_tree};
ghost use Rattle.format_translation.specs.Operations.{check_translation, run_tree};
ghost use Rattle.run_operation.specs.Operations.{run_cost};
ghost use Rattle.reduce_operation.specs.Operations as Reducing;
ghost use Rattle.tree_block.specs.Operations.{show_block};
ghost use Rattle.tree_block.specs.Parts.{Told};
ghost use Rattle.tree_edit.specs.Operations.{edit_tree};
ghost use Rattle.tree_edit.specs.Answers.{EditTold};
ghost use Rattle.tree_index.specs.Operations.{index_tree};
ghost use Rattle.tree_locate.specs.Operations.{locate_tree};
ghost use Rattle.tree_node.specs.Operations.{show_node};
ghost use Rattle.tree_node.specs.Answers.{NodeTold};
ghost use Rattle.score_tree.specs.Operations.{score_tree};
ghost use Rattle.score_join.specs.Joined.{join_table};
ghost use Rattle.score_loose.specs.Operations.{score_loose};
ghost use Rattle.xml_operations.specs.Operations.{export_tree, import_tree};
ghost use Rattle.tree_mask.specs.Operations.{mask_tree};
ghost use Rattle.search_sources.specs.Operations.{search_tree};

use check_operations::translations::check_translation;
use check_operations::trees::check_tree;
use format_language::check::check_language;
use outcome::{Answer, length_of, number};
use reduce_operation::reduce::reduce;
use run_operation::run::run;
use score_join::join::join_table;
use score_loose::operation::score_loose;
use score_tree::score::score;
use search_operation::search::search;
use tree_block::show::place;
use tree_edit::edit::edit;
use tree_index::build::index;
use tree_locate::locate::locate;
use tree_mask::mask::mask;
use tree_node::node::node;
use xml_operations::operations::{export, import};

// Puts the length of an answer where the caller wants it, and gives its number.
fn hand_over(answer: Answer, length: &mut u64) -> u32
    ensures { (result ≡ number_of answer.outcome) × (length.new ≡ length_of answer.outcome) }
{
    *length = length_of(answer.outcome);
    number(answer.outcome)
}

// Check a language.
#[unsafe(no_mangle)]
pub extern "C" fn algebra_check_language(language: &[u8]) -> u32
    ensures { result ≡ number_of (check_language language.now) }
{
    number(check_language(language).outcome)
}

// Check a translation.
#[unsafe(no_mangle)]
pub extern "C" fn algebra_check_translation(translation: &[u8]) -> u32
    ensures { result ≡ number_of (check_translation translation.now) }
{
    number(check_translation(translation).outcome)
}

// Check a tree of a language, of the root kind.
#[unsafe(no_mangle)]
pub extern "C" fn algebra_check_tree(language: &[u8], root: u32, tree: &[u8]) -> u32
    ensures { result ≡ number_of (check_tree language.now root tree.now) }
{
    number(check_tree(language, root, tree).outcome)
}

// Check a tree, and tell where reading stopped: the position is put into `position`.
#[unsafe(no_mangle)]
pub extern "C" fn algebra_locate(language: &[u8], root: u32, tree: &[u8], position: &mut u64) -> u32
    ensures { let answer = locate_tree language.now root tree.now in
        (result ≡ number_of answer.outcome)
        × (position.new ≡ answer.position) }
{
    let located = locate(language, root, tree);
    *position = located.position as u64;
    number(located.outcome)
}

// Run a translation by a number on a tree of the root kind; the length of the result is put into `length`, how many clauses were
// applied into `cost`.
#[unsafe(no_mangle)]
pub extern "C" fn algebra_run(
    translation: &[u8],
    root: u32,
    number: u32,
    tree: &[u8],
    output: &mut [u8],
    length: &mut u64,
    cost: &mut u32,
) -> u32
    ensures { let answer = run_tree translation.now root number tree.now output.old in
        (result ≡ number_of answer.outcome)
        × (length.new ≡ length_of answer.outcome)
        × (output.new ≡ answer.output)
        × (cost.new ≡ run_cost translation.now root number tree.now (size output.old)) }
{
    hand_over(run(translation, root, number, tree, output, cost), length)
}

// Reduce a pack to one translation; the length of its bytes is put into `length`.
#[unsafe(no_mangle)]
pub extern "C" fn algebra_reduce(
    pack: &[u8],
    workspace: &mut [u8],
    output: &mut [u8],
    length: &mut u64,
) -> u32
    ensures { let answer = Reducing.reduce pack.now workspace.old output.old in
        (result ≡ number_of answer.outcome)
        × (length.new ≡ length_of answer.outcome)
        × (output.new ≡ answer.output)
        × (workspace.new ≡ answer.workspace) }
{
    hand_over(reduce(pack, workspace, output), length)
}

// Score a tree of the root kind by a load table of the language; the score is put into `points`.
#[unsafe(no_mangle)]
pub extern "C" fn algebra_score(
    language: &[u8],
    root: u32,
    tree: &[u8],
    table: &[u8],
    points: &mut i64,
) -> u32
    ensures { let answer = score_tree language.now root tree.now table.now in
        (result ≡ number_of answer.outcome)
        × (points.new ≡ answer.score) }
{
    let scored = score(language, root, tree, table);
    *points = scored.score;
    number(scored.outcome)
}

// Score a loose plan of the root kind; the two ends of its score are put into `least` and `greatest`.
#[unsafe(no_mangle)]
pub extern "C" fn algebra_score_loose(
    language: &[u8],
    root: u32,
    tree: &[u8],
    table: &[u8],
    least: &mut i64,
    greatest: &mut i64,
) -> u32
    ensures { let answer = score_loose language.now root tree.now table.now in
        (result ≡ number_of answer.outcome)
        × (least.new ≡ answer.least)
        × (greatest.new ≡ answer.greatest) }
{
    let scored = score_loose(language, root, tree, table);
    *least = scored.least;
    *greatest = scored.greatest;
    number(scored.outcome)
}

// Join a load table onto a translation; the length of the joined table is put into `length`.
#[unsafe(no_mangle)]
pub extern "C" fn algebra_join_table(
    translation: &[u8],
    table: &[u8],
    output: &mut [u8],
    length: &mut u64,
) -> u32
    ensures { let answer = join_table translation.now table.now output.old in
        (result ≡ number_of answer.outcome)
        × (length.new ≡ length_of answer.outcome)
        × (output.new ≡ answer.output) }
{
    hand_over(join_table(translation, table, output), length)
}

// Export a tree of the root kind as XML; the length of the text is put into `length`.
#[unsafe(no_mangle)]
pub extern "C" fn algebra_export(
    language: &[u8],
    root: u32,
    tree: &[u8],
    output: &mut [u8],
    length: &mut u64,
) -> u32
    ensures { let answer = export_tree language.now root tree.now output.old in
        (result ≡ number_of answer.outcome)
        × (length.new ≡ length_of answer.outcome)
        × (output.new ≡ answer.output) }
{
    hand_over(export(language, root, tree, output), length)
}

// Import a tree of the root kind from XML; the length of its bytes is put into `length`.
#[unsafe(no_mangle)]
pub extern "C" fn algebra_import(
    language: &[u8],
    root: u32,
    text: &[u8],
    output: &mut [u8],
    length: &mut u64,
) -> u32
    ensures { let answer = import_tree language.now root text.now output.old in
        (result ≡ number_of answer.outcome)
        × (length.new ≡ length_of answer.outcome)
        × (output.new ≡ answer.output) }
{
    hand_over(import(language, root, text, output), length)
}

// Build the index of a tree of the root kind; its length is put into `length`.
#[unsafe(no_mangle)]
pub extern "C" fn algebra_index(
    language: &[u8],
    root: u32,
    tree: &[u8],
    output: &mut [u8],
    length: &mut u64,
) -> u32
    ensures { let answer = index_tree language.now root tree.now output.old in
        (result ≡ number_of answer.outcome)
        × (length.new ≡ length_of answer.outcome)
        × (output.new ≡ answer.output) }
{
    hand_over(index(language, root, tree, output), length)
}

// Mask a tree of the root kind for the holder of a card; the length of the masked bytes is put into `length`.
#[unsafe(no_mangle)]
pub extern "C" fn algebra_mask(
    language: &[u8],
    root: u32,
    card: &[u8],
    tree: &[u8],
    output: &mut [u8],
    length: &mut u64,
) -> u32
    ensures { let answer = mask_tree language.now root card.now tree.now output.old in
        (result ≡ number_of answer.outcome)
        × (length.new ≡ length_of answer.outcome)
        × (output.new ≡ answer.output) }
{
    hand_over(mask(language, root, card, tree, output), length)
}

// Show one block of a tree of the root kind that has the index. Where it starts in the tree, how many bytes it has there and its
// kind are put into `start`, `length` and `kind`.
#[unsafe(no_mangle)]
pub extern "C" fn algebra_block(
    language: &[u8],
    root: u32,
    tree: &[u8],
    index: &[u8],
    path: &[u8],
    start: &mut u64,
    length: &mut u64,
    kind: &mut u32,
) -> u32
    ensures { Told (show_block language.now root tree.now index.now path.now) tree.now
        result start.new length.new kind.new }
{
    let placed = place(language, root, tree, index, path);
    *start = placed.start as u64;
    *kind = placed.kind;
    hand_over(Answer::from(placed.outcome), length)
}

// Show what stands at a path of a tree of the root kind that has the index: its kind, its name and how many arguments it has are put
// into `kind`, `name` and `arguments`.
#[unsafe(no_mangle)]
pub extern "C" fn algebra_node(
    language: &[u8],
    root: u32,
    tree: &[u8],
    index: &[u8],
    path: &[u8],
    kind: &mut u32,
    name: &mut u32,
    arguments: &mut u32,
) -> u32
    ensures { NodeTold (show_node language.now root tree.now index.now path.now)
        result kind.new name.new arguments.new }
{
    let described = node(language, root, tree, index, path);
    *kind = described.kind;
    *name = described.name;
    *arguments = described.arguments;
    number(described.outcome)
}

// Replace the block at a path of a plan of the root kind that has the index, for the holder of a card. The new plan and its index
// are put into `plan` and `plan_index`, their lengths into `plan_length` and `index_length`.
#[unsafe(no_mangle)]
pub extern "C" fn algebra_edit(
    language: &[u8],
    root: u32,
    tree: &[u8],
    index: &[u8],
    path: &[u8],
    card: &[u8],
    block: &[u8],
    plan: &mut [u8],
    plan_index: &mut [u8],
    plan_length: &mut u64,
    index_length: &mut u64,
) -> u32
    ensures { EditTold (edit_tree language.now root tree.now index.now path.now card.now block.now plan.old plan_index.old)
        result plan_length.new index_length.new plan.new plan_index.new }
{
    let edited = edit(
        language, root, tree, index, path, card, block, plan, plan_index,
    );
    *index_length = edited.indexed as u64;
    hand_over(Answer::from(edited.outcome), plan_length)
}

// Search back: the first source tree of the root kind, within a limit of levels, whose run is the tree. Its length is put into
// `length`.
#[unsafe(no_mangle)]
pub extern "C" fn algebra_search(
    translation: &[u8],
    root: u32,
    tree: &[u8],
    limit: u32,
    workspace: &mut [u8],
    output: &mut [u8],
    length: &mut u64,
) -> u32
    ensures { let answer = search_tree translation.now root tree.now limit workspace.old output.old in
        (result ≡ number_of answer.outcome)
        × (length.new ≡ length_of answer.outcome)
        × (output.new ≡ answer.output)
        × (workspace.new ≡ answer.workspace) }
{
    hand_over(
        search(translation, root, tree, limit, workspace, output),
        length,
    )
}
