// The memory of the search: for each position of the tree where it ends, and a byte for each source kind. The answer does not
// depend on it.
ghost use Rattle.std.specs.Prelude.{◌≡◌, suc, ◌<◌, ◌≤◌, length};
ghost use Rattle.search_sources.specs.Inner.Levels.{recalled, noted};
ghost use Rattle.search_levels.specs.Inner.Memory.{byte_for, memory_with, free_with, Recalls, Keeps};

use format_fields::bytes::byte_at;

// How many bytes there are for a position.
pub const POSITION: usize = 36;

// How many of them hold where the tree there ends.
const END: usize = 4;

// A byte up to here is one more than the levels that are needed.
const LAST_KNOWN: usize = 17;

// A byte from here on says that so many levels, less this, do not suffice.
const FIRST_ABOVE: usize = 18;

// The last end that is kept, in 27 bits.
const LAST_END: usize = 134217727;

// The byte for a kind at a position of a tree of n bytes; past the tree nothing is asked.
fn byte_for(memory: &[u8], free: &[u8], n: usize, kind: usize, at: usize) -> u8
    requires { kind < 32 }
    ensures { result ≡ byte_for memory.now free.now n kind at }
{
    if n <= at {
        return byte_at(free, kind);
    }
    if memory.len() / POSITION <= at {
        return 0;
    }
    memory[at * POSITION + (END + kind)]
}

// The levels that are needed, where m count, by the memory; none where it does not say.
pub fn recall(
    memory: &[u8],
    free: &[u8],
    n: usize,
    kind: usize,
    at: usize,
    m: usize,
) -> Option<usize>
    requires { (kind < 32) × (m ≤ 16) }
    ensures { result ≡ recalled m (byte_for memory.now free.now n kind at) }
{
    let b = usize::from(byte_for(memory, free, n, kind, at));
    if b == 0 {
        return None;
    }
    if b <= LAST_KNOWN {
        if b <= m + 1 {
            return Some(b - 1);
        }
        return Some(m + 1);
    }
    if m + FIRST_ABOVE <= b {
        return Some(m + 1);
    }
    None
}

// The byte to keep for r levels that are needed, where m count.
fn note(m: usize, r: usize) -> u8
    requires { (m ≤ 16) × (r ≤ suc m) }
    ensures { result ≡ noted m r }
{
    if r <= m {
        (r + 1) as u8
    } else {
        (m + FIRST_ABOVE) as u8
    }
}

// Keeps the levels that are needed, where there is room.
pub fn keep(
    memory: &mut [u8],
    free: &mut [u8],
    n: usize,
    kind: usize,
    at: usize,
    m: usize,
    r: usize,
)
    requires { (length free.old ≡ 32) × (kind < 32) × (m ≤ 16) × (r ≤ suc m) }
    ensures { (memory.new ≡ memory_with memory.old n kind at (noted m r))
        × (free.new ≡ free_with free.old n kind at (noted m r)) }
{
    let byte = note(m, r);
    if n <= at {
        free[kind] = byte;
        return;
    }
    if memory.len() / POSITION <= at {
        return;
    }
    memory[at * POSITION + (END + kind)] = byte;
}

// Where the tree of a kind at a position ends, where that is kept: no tree ends at 0.
pub fn kept_end(memory: &[u8], kind: u8, at: usize) -> Option<usize>
    ensures { Recalls memory.now kind at result }
{
    if memory.len() / POSITION <= at {
        return None;
    }
    let p = at * POSITION;
    let front = usize::from(memory[p]);
    if front / 8 != usize::from(kind) {
        return None;
    }
    let end = front % 8 * 16777216
        + (usize::from(memory[p + 1]) * 65536
            + (usize::from(memory[p + 2]) * 256 + usize::from(memory[p + 3])));
    if end == 0 {
        return None;
    }
    Some(end)
}

// Keeps where the tree of a kind at a position ends, where there is room.
pub fn keep_end(memory: &mut [u8], kind: u8, at: usize, end: usize)
    requires { kind < 32 }
    ensures { Keeps memory.old memory.new kind at end }
{
    if memory.len() / POSITION <= at {
        return;
    }
    if LAST_END < end {
        return;
    }
    let p = at * POSITION;
    memory[p] = (usize::from(kind) * 8 + end / 16777216) as u8;
    memory[p + 1] = (end / 65536 % 256) as u8;
    memory[p + 2] = (end / 256 % 256) as u8;
    memory[p + 3] = (end % 256) as u8;
}
