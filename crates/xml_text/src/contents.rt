// The tree that a text is the export of, written in the order of its tags. The text is known to be an export.
ghost use Rattle.std.specs.Prelude.{◌≡◌, true, List, ℕ, ◌+◌, ◌<◌, ◌≤◌, length, get_or, drop, leb};
ghost use Rattle.format_fields.specs.Inner.Writing.{spliced};
ghost use Rattle.xml_text.specs.Inner.Contents.{Contents, bytes_in, Behind, Takes};

use crate::scan::{number_at, value_at};
use crate::tags::{END, NODE, OPEN, POINT, SLASH, TOKEN};

// No tag is shorter than this.
const SHORTEST: usize = 6;

// How many bytes of a tree stand in the tag that begins at a position, if one does.
fn bytes_at(text: &[u8], at: usize) -> usize
    requires { at < length text.now }
    ensures { (bytes_in (drop at text.now) ≡ result + bytes_in (drop (at + 1) text.now)) × (result ≤ 2) }
{
    if text[at] != OPEN || text.len() - at < 2 {
        return 0;
    }
    match text[at + 1] {
        NODE => 1,
        TOKEN => 2,
        _ => 0,
    }
}

// How many bytes the tree has whose export the text is.
fn count(text: &[u8]) -> usize
    ensures { result ≡ bytes_in text.now }
{
    let mut n = 0;
    for at in 0..text.len() {
        n += bytes_at(text, at);
    }
    n
}

// Whether that tree has at most so many bytes. Each takes at least five bytes of the text, so most often nothing is counted.
pub fn has_room(text: &[u8], room: usize) -> bool
    ensures { (v : List ℕ) → Contents text.now v → result ≡ leb (length v) room }
{
    text.len() / 5 <= room || count(text) <= room
}

// The position behind the first such byte.
fn behind(byte: u8, text: &[u8], at: usize) -> usize
    requires { at ≤ length text.now }
    ensures { Behind byte text.now at result }
{
    for to in at..text.len() {
        if text[to] == byte {
            return to + 1;
        }
    }
    text.len()
}

// Whether the kind and the name in the opening tag of a production have one digit each.
fn is_short(text: &[u8], at: usize) -> bool
    requires { at + 6 ≤ length text.now }
    ensures { result ≡ true → (get_or text.now (at + 3) 0 ≡ 46) × (get_or text.now (at + 5) 0 ≡ 62) }
{
    text[at + 3] == POINT && text[at + 5] == END
}

// Writes the name in the opening tag of a production. Most often it is one digit, which ends at a known place.
fn take_name(text: &[u8], at: usize, out: &mut [u8], n: usize) -> Option<(usize, usize)>
    requires { (at + 6 ≤ length text.now) × (get_or text.now (at + 1) 0 ≡ 120) × (n ≤ length out.old) }
    ensures { Takes text.now at out.old out.new n result }
{
    if out.len() - n < 1 {
        return None;
    }
    if is_short(text, at) {
        out[n] = text[at + 4] % 16;
        return Some((at + 6, n + 1));
    }
    let a = behind(POINT, text, at + 3);
    let (name, b) = number_at(text, a)?;
    if text.len() <= b {
        return None;
    }
    out[n] = (name % 256) as u8;
    Some((b + 1, n + 1))
}

// Writes the value of a token and passes both its tags: the closing tag is one byte longer than the opening tag.
fn take_value(text: &[u8], at: usize, out: &mut [u8], n: usize) -> Option<(usize, usize)>
    requires { (at + 6 ≤ length text.now) × (get_or text.now (at + 1) 0 ≡ 47 → ⊥) × (get_or text.now (at + 1) 0 ≡ 120 → ⊥) × (n ≤ length out.old) }
    ensures { Takes text.now at out.old out.new n result }
{
    if out.len() - n < 2 {
        return None;
    }
    let a = behind(END, text, at + 3);
    if text.len() - a < 6 {
        return None;
    }
    let (value, b) = value_at(text, a)?;
    let size = a - at + 1;
    if text.len() - b < size {
        return None;
    }
    out[n] = (value / 256) as u8;
    out[n + 1] = (value % 256) as u8;
    Some((b + size, n + 2))
}

// Passes a closing tag, or writes what stands at a position.
fn take(text: &[u8], at: usize, out: &mut [u8], n: usize) -> Option<(usize, usize)>
    requires { (at < length text.now) × (n ≤ length out.old) }
    ensures { Takes text.now at out.old out.new n result }
{
    if text.len() - at < SHORTEST {
        return None;
    }
    let sign = text[at + 1];
    if sign == SLASH {
        return Some((behind(END, text, at + 6), n));
    }
    if sign == NODE {
        return take_name(text, at, out, n);
    }
    take_value(text, at, out, n)
}

// Writes the bytes that a text holds, if they have room, and tells how many.
pub fn write_contents(text: &[u8], out: &mut [u8]) -> usize
    ensures { (v : List ℕ) → Contents text.now v → length v ≤ length out.old
        → (out.new ≡ spliced out.old 0 v) × (result ≡ length v) }
{
    let mut at = 0;
    let mut n = 0;
    while at < text.len() {
        let Some((e, m)) = take(text, at, out, n) else {
            return n;
        };
        at = e;
        n = m;
    }
    n
}
