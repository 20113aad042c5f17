// A table of counts, and a table of entries.
ghost use Rattle.std.specs.Prelude.{◌≡◌, ◌+◌, ◌<◌, ◌≤◌, get_or};
ghost use Rattle.run_measure.specs.Inner.Counting.{add_at, add_entry, Follows};
ghost use Rattle.std.specs.Iterator.{at_most};

use format_language::check::LANGUAGE_LIMIT;

// The entries stand behind one number for each position of the source.
pub const FIRST_ENTRY: usize = LANGUAGE_LIMIT;

// The count at i, and 0 past the end.
pub fn count_at(counts: &[u16], i: usize) -> usize
    ensures { (result ≡ get_or counts.now i 0) × (result < 65536) }
{
    counts.get(i).map_or(0, |&n| usize::from(n))
}

// The count at i, which lies in the table.
pub fn count_in(counts: &[u16; 1024], i: usize) -> usize
    requires { i < 1024 }
    ensures { (result ≡ get_or counts.now i 0) × (result < 65536) }
{
    usize::from(counts[i])
}

// Adds n to the count at i.
pub fn add_at(counts: &mut [u16], i: usize, n: u16)
    requires { get_or counts.old i 0 + n < 65536 }
    ensures { counts.new ≡ add_at counts.old i n }
{
    if i < counts.len() {
        counts[i] += n;
    }
}

// Puts an entry at e, for position q of the source; nothing where there is no room.
pub fn add_entry(entries: &mut [u16], e: usize, q: usize, key: u16, n: u16)
    requires { (1024 ≤ e) × (e < 65536) }
    ensures { entries.new ≡ add_entry entries.old e q key n }
{
    if entries.len() < e + 3 || FIRST_ENTRY <= q {
        return;
    }
    entries[e] = entries[q];
    entries[e + 1] = key;
    entries[e + 2] = n;
    entries[q] = e as u16;
}

// The entries for a position of the source, the last one first: each gives its key, and how much it counts.
#[derive(Drop)]
pub struct Entries<'a> {
    // The table, and where the next one stands; below the first entry there is none.
    pub entries: &'a [u16],
    pub at: usize,

    ghost near: { at < 65536 },
}

impl<'a> Iterator for Entries<'a> {
    type Item = (usize, usize);

    ghost next_gives = { λ old item new. Follows old.entries.now old.at item new.entries.now new.at };

    ghost remaining = { λ s. at_most s.at };

    // The one before it is where it says, if that is well before it.
    fn next(&mut self) -> Option<(usize, usize)> {
        if self.at < FIRST_ENTRY {
            return None;
        }
        let e = self.at;
        let before = count_at(self.entries, e);
        self.at = if e < before + 3 { 0 } else { before };
        Some((count_at(self.entries, e + 1), count_at(self.entries, e + 2)))
    }
}

// The entries for position q of the source.
pub fn entries_at(entries: &[u16], q: usize) -> Entries
    ensures { (result.entries.now ≡ entries.now) × (result.at ≡ get_or entries.now q 0) }
{
    Entries {
        entries,
        at: count_at(entries, q),
    }
}
