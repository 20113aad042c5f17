// The display program (paper 02, 2026-06): prints the block that a path leads to, as it is handed back.
#![tactic(auto)]

ghost use Rattle.std.specs.Prelude.{◌≡◌, ◌≤◌, length, take};
ghost use Rattle.io.specs.Counts.{IsPrefixLen};
ghost use Rattle.program_text.specs.Inner.Putting.{Puts};
ghost use Rattle.display.specs.Display.{root_in, display};
ghost use Rattle.display.specs.Inner.Showing.{Fitting, text_of};

use outcome::Reason;
use program_text::input::read_file;
use program_text::text::{put, put_first, put_hex};
use std::io;
use tree_block::show::{Part, block};

// A language of more than 1,024 bytes is too long: one byte more shows that.
const LANGUAGE_ROOM: usize = 1025;

// A plan of more than 65,535 bytes has no index.
const PLAN_ROOM: usize = 65536;

// Four bytes for each node of the longest plan, and one more.
const INDEX_ROOM: usize = 262141;

// A path of more than 64 numbers leads nowhere.
const PATH_ROOM: usize = 65;

// Two digits for each byte of the longest block, and the end of the line.
const TEXT_ROOM: usize = 131073;

// The kind in the file of the root, which has one byte; 255 is no kind.
fn root_of(root: &[u8]) -> u32
    ensures { result ≡ root_in root.now }
{
    if root.len() == 1 {
        u32::from(root[0])
    } else {
        255
    }
}

// The text of what the lookup hands back: a block in capitals, or the number of a refusal.
fn put_shown(shown: Result<Part<'_>, Reason>, text: &mut [u8]) -> usize
    requires { (13 ≤ length text.old) × Fitting shown (length text.old) }
    ensures { Puts (text_of shown.entry) text.old text.new 0 result }
{
    match shown {
        Ok(part) => {
            let end = put_hex(part.bytes, text, 0);
            put(b'\n', text, end)
        }
        Err(reason) => put_first(b"refused ", u64::from(u32::from(reason)), text),
    }
}

// Looks the block up and puts its text.
fn show(
    language: &[u8],
    root: &[u8],
    plan: &[u8],
    index: &[u8],
    path: &[u8],
    text: &mut [u8],
) -> usize
    requires { (length plan.now ≤ 65536) × (131073 ≤ length text.old) }
    ensures { IsPrefixLen result text.new
        × (take result text.new ≡ display language.now root.now plan.now index.now path.now) }
{
    put_shown(block(language, root_of(root), plan, index, path), text)
}

// The files of the plan stand in the folder in which the program is run. A missing file counts as empty.
fn main(rt: HostRuntime) -> io::Result<()> {
    let mut language = [0u8; LANGUAGE_ROOM];
    let mut root = [0u8; 2];
    let mut plan = [0u8; PLAN_ROOM];
    let mut index = [0u8; INDEX_ROOM];
    let mut path = [0u8; PATH_ROOM];
    let language = read_file(&rt, "plan.language", &mut language);
    let root = read_file(&rt, "plan.root", &mut root);
    let plan = read_file(&rt, "plan.tree", &mut plan);
    let index = read_file(&rt, "plan.index", &mut index);
    let path = read_file(&rt, "plan.path", &mut path);
    let mut text = [0u8; TEXT_ROOM];
    let end = show(language, root, plan, index, path, &mut text);
    rt.write_all(&text[..end])
}
