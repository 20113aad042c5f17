// The operation that searches back. It measures the first source tree and writes it only where it fits.
ghost use Rattle.std.specs.Prelude.{◌≡◌, ℕ, ◌<◌, ◌≤◌, length, get_or, replicate};
ghost use Rattle.std.proofs.Math.Option.{some};
ghost use Rattle.tree_reader.specs.Code.{Code};
ghost use Rattle.format_translation.specs.Translation.{Translation};
ghost use Rattle.format_translation.specs.Running.{clauses_of};
ghost use Rattle.search_sources.specs.Inner.Levels.{Needs as NeedsLevels};
ghost use Rattle.search_levels.specs.Inner.Searching.{SeeksIn};
ghost use Rattle.search_sources.specs.Operations.{found_in, search_tree};
ghost use Rattle.search_operation.specs.Inner.Finding.{Rooted, OpenedIn, Tabled, Answers, ready_in, ready_from, Leaves};

use crate::kinds::put_kinds;
use check_operations::trees::check_indexed;
use check_wellformed::check::USES_ROOM;
use format_fields::bytes::byte_at;
use format_fields::copy::clear;
use format_translation::parts::{body_of, source_of, target_of};
use format_translation::plain::is_plain;
use outcome::{Answer, Outcome, Reason};
use run_open::open::open_translation;
use search_first::put::{Wanted, put_first};
use search_levels::ends::{TREE_LEVELS, keep_ends};
use search_levels::levels::{Sought, need};
use search_levels::memory::POSITION;
use search_levels::searched::Searched;
use tree_index::operands::operands_at;
use tree_reader::index::{INDEX, TABLE};
use tree_reader::kinds::is_in;

// The most levels that a search may have.
const MOST_LEVELS: u32 = 16;

// The last kind.
const LAST_KIND: u32 = 31;

// The longest tree that a search has a memory of its own for, and that memory: 36 bytes for each byte of the tree.
const SHORT_TREE: usize = 2048;

const OWN_MEMORY: usize = 73728;

// Writes the first source tree of a kind for the whole tree, which has one within the levels: 17.
fn write_found(
    searched: &Searched,
    memory: &mut [u8],
    free: &mut [u8],
    kind: usize,
    limit: usize,
    output: &mut [u8],
) -> Outcome
    requires { (limit ≤ 16) × ((f : Translation) × (u : Code) × SeeksIn searched.now memory.old free.old kind 0 f (some u) × Rooted searched.now.source.now searched.now.target.now searched.now.tree.now f u) }
    ensures { (length memory.new ≡ length memory.old)
        × ((f : Translation) (u : Code) → SeeksIn searched.now memory.old free.old kind 0 f (some u) → Rooted searched.now.source.now searched.now.target.now searched.now.tree.now f u
        → (needed : ℕ) → NeedsLevels f.source (clauses_of f) limit kind (some u) needed → needed ≤ limit
        → Answers (found_in f kind searched.now.tree.now limit (length output.old)) output.old output.new result) }
{
    let room = output.len();
    let wanted = Wanted {
        kind,
        at: 0,
        levels: limit,
        limit: room + 1,
        pos: 0,
    };
    let mut spare = [0u8; 1];
    let n = put_first(searched, memory, free, wanted, &mut spare);
    if room < n {
        return Err(Reason::OutputTooShort);
    }
    put_first(searched, memory, free, wanted, output);
    Ok(n)
}

// The first source tree of a kind for the whole tree, within a limit of levels: 23, 17.
fn find(
    searched: &Searched,
    memory: &mut [u8],
    free: &mut [u8],
    kind: usize,
    limit: usize,
    output: &mut [u8],
) -> Outcome
    requires { (limit ≤ 16) × ((f : Translation) × (u : Code) × SeeksIn searched.now memory.old free.old kind 0 f (some u) × Rooted searched.now.source.now searched.now.target.now searched.now.tree.now f u) }
    ensures { (length memory.new ≡ length memory.old)
        × ((f : Translation) (u : Code) → SeeksIn searched.now memory.old free.old kind 0 f (some u) → Rooted searched.now.source.now searched.now.target.now searched.now.tree.now f u
        → Answers (found_in f kind searched.now.tree.now limit (length output.old)) output.old output.new result) }
{
    let needed = need(
        searched,
        memory,
        free,
        Sought {
            kind,
            at: 0,
            levels: limit,
        },
    );
    if limit < needed {
        return Err(Reason::NoSource);
    }
    write_found(searched, memory, free, kind, limit, output)
}

// The same over a memory that is all zero, in which it is first kept where the parts of the tree end.
fn find_in(
    searched: &Searched,
    memory: &mut [u8],
    kind: usize,
    limit: usize,
    output: &mut [u8],
) -> Outcome
    requires { (kind < 32) × (limit ≤ 16) × ((i : ℕ) → get_or memory.old i 0 ≡ 0) × ((f : Translation) × (u : Code) × OpenedIn searched.now kind f u) }
    ensures { (length memory.new ≡ length memory.old)
        × ((f : Translation) (u : Code) → OpenedIn searched.now kind f u → Answers (found_in f kind searched.now.tree.now limit (length output.old)) output.old output.new result) }
{
    let target = searched.target;
    let places = searched.places;
    let tree = searched.tree;
    let operands = operands_at(target, places, byte_at(searched.kinds, kind), tree, 0);
    keep_ends(target, places, operands, tree, TREE_LEVELS, memory);
    let mut free = [0u8; 32];
    find(searched, memory, &mut free, kind, limit, output)
}

// The same over a memory of its own, which is long enough for a short tree.
fn find_here(searched: &Searched, kind: usize, limit: usize, output: &mut [u8]) -> Outcome
    requires { (kind < 32) × (limit ≤ 16) × ((f : Translation) × (u : Code) × OpenedIn searched.now kind f u) }
    ensures { (f : Translation) (u : Code) → OpenedIn searched.now kind f u → Answers (found_in f kind searched.now.tree.now limit (length output.old)) output.old output.new result }
{
    let mut memory = [0u8; OWN_MEMORY];
    find_in(searched, &mut memory, kind, limit, output)
}

// The same over the lent workspace, which is all zero at exit; where it is too short for the tree, and the tree is short, over a
// memory of its own.
fn find_over(
    searched: &Searched,
    workspace: &mut [u8],
    kind: usize,
    limit: usize,
    output: &mut [u8],
) -> Outcome
    requires { (kind < 32) × (limit ≤ 16) × ((f : Translation) × (u : Code) × OpenedIn searched.now kind f u) }
    ensures { (workspace.new ≡ replicate (length workspace.old) 0)
        × ((f : Translation) (u : Code) → OpenedIn searched.now kind f u → Answers (found_in f kind searched.now.tree.now limit (length output.old)) output.old output.new result) }
{
    clear(workspace);
    if workspace.len() / POSITION < searched.tree.len() {
        if searched.tree.len() <= SHORT_TREE {
            return find_here(searched, kind, limit, output);
        }
    }
    let outcome = find_in(searched, workspace, kind, limit, output);
    clear(workspace);
    outcome
}

// The search in a translation that is searchable, for a source kind that is in it: 15, 16, 24, 23, 17.
fn search_in(
    table: &[u16; TABLE],
    uses: &[u8; USES_ROOM],
    source: &[u8],
    target: &[u8],
    kind: usize,
    tree: &[u8],
    limit: u32,
    workspace: &mut [u8],
    output: &mut [u8],
) -> Outcome
    requires { (kind < 32) × ((f : Translation) × Tabled table.now uses.now source.now target.now f) }
    ensures { (f : Translation) → Tabled table.now uses.now source.now target.now f
        → Leaves (ready_in f kind tree.now limit) kind tree.now limit output.old output.new workspace.old workspace.new result }
{
    let mut kinds = [0u8; 64];
    put_kinds(table, uses, &mut kinds);
    let mut places = [0u16; INDEX];
    let root = byte_at(&kinds, kind) as u32;
    check_indexed(target, root, tree, &mut places)?;
    if limit < 1 || MOST_LEVELS < limit {
        return Err(Reason::LimitOutOfRange);
    }
    let levels = limit as usize;
    let searched = Searched {
        table,
        source,
        target,
        places: &places,
        kinds: &kinds,
        tree,
    };
    find_over(&searched, workspace, kind, levels, output)
}

// The search in a translation that is searchable: 14 for the source kind, 15, 16, 24, 23, 17.
fn search_from(
    table: &[u16; TABLE],
    uses: &[u8; USES_ROOM],
    source: &[u8],
    target: &[u8],
    root: u32,
    tree: &[u8],
    limit: u32,
    workspace: &mut [u8],
    output: &mut [u8],
) -> Outcome
    requires { (f : Translation) × Tabled table.now uses.now source.now target.now f }
    ensures { (f : Translation) → Tabled table.now uses.now source.now target.now f
        → Leaves (ready_from f root tree.now limit) root tree.now limit output.old output.new workspace.old workspace.new result }
{
    if LAST_KIND < root {
        return Err(Reason::UnknownRoot);
    }
    if !is_in(source, root as u8) {
        return Err(Reason::UnknownRoot);
    }
    search_in(
        table,
        uses,
        source,
        target,
        root as usize,
        tree,
        limit,
        workspace,
        output,
    )
}

// The search in a translation: 1 to 7 for it, 26 where it has any number but 0, and what `search_from` refuses.
fn search_opened(
    translation: &[u8],
    root: u32,
    tree: &[u8],
    limit: u32,
    workspace: &mut [u8],
    output: &mut [u8],
) -> Outcome
    ensures { (result ≡ (search_tree translation.now root tree.now limit workspace.old output.old).outcome)
        × (output.new ≡ (search_tree translation.now root tree.now limit workspace.old output.old).output)
        × (workspace.new ≡ (search_tree translation.now root tree.now limit workspace.old output.old).workspace) }
{
    let mut table = [0u16; TABLE];
    let mut uses = [0u8; USES_ROOM];
    open_translation(translation, &mut table, &mut uses)?;
    if !is_plain(body_of(translation)) {
        return Err(Reason::NumberUnfit);
    }
    search_from(
        &table,
        &uses,
        source_of(translation),
        target_of(translation),
        root,
        tree,
        limit,
        workspace,
        output,
    )
}

// Search back: 1 to 7 for the translation, 26 where it has any number but 0, 14 for the source kind, 15 and 16 for the target
// tree, 24, 23, 17.
pub fn search(
    translation: &[u8],
    root: u32,
    tree: &[u8],
    limit: u32,
    workspace: &mut [u8],
    output: &mut [u8],
) -> Answer
    ensures { (result.outcome ≡ (search_tree translation.now root tree.now limit workspace.old output.old).outcome)
        × (output.new ≡ (search_tree translation.now root tree.now limit workspace.old output.old).output)
        × (workspace.new ≡ (search_tree translation.now root tree.now limit workspace.old output.old).workspace) }
{
    Answer::from(search_opened(translation, root, tree, limit, workspace, output))
}
