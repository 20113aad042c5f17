// The listing program (paper 01, "Strap examples"): prints what the pack in the file plan.pack is reduced to.
#![tactic(auto)]

mod answer;
mod clauses;

ghost use Rattle.std.specs.Prelude.{◌≡◌, ◌≤◌, length, take};
ghost use Rattle.io.specs.Counts.{IsPrefixLen};
ghost use Rattle.listing.specs.Listing.{listing};

use answer::put_outcome;
use format_pack::check::PACK_LIMIT;
use format_translation::parts::TRANSLATION_LIMIT;
use program_text::input::read_file;
use reduce_operation::reduce::{WORKSPACE, reduce};
use std::io;

// So many bytes of the file are read: one more than a pack can have shows that it is too long.
const PACK: usize = PACK_LIMIT + 1;

// The text has at most so many bytes: a first line, and three for each byte of a translation.
const TEXT: usize = 32 + 3 * TRANSLATION_LIMIT;

// Reduces the pack, and puts the text of what comes of it.
fn list(pack: &[u8], text: &mut [u8]) -> usize
    requires { 12320 ≤ length text.old }
    ensures { IsPrefixLen result text.new × (take result text.new ≡ listing pack.now) }
{
    let mut workspace = [0u8; WORKSPACE];
    let mut output = [0u8; TRANSLATION_LIMIT];
    let answer = reduce(pack, &mut workspace, &mut output);
    put_outcome(answer.outcome, &output, text)
}

// Reads the pack, and writes the text of what it is reduced to. A missing file counts as empty.
fn main(rt: HostRuntime) -> io::Result<()> {
    let mut pack = [0u8; PACK];
    let pack = read_file(&rt, "plan.pack", &mut pack);
    let mut text = [0u8; TEXT];
    let end = list(pack, &mut text);
    rt.write_all(&text[..end])
}
