// The lines of the clauses of a translation.
ghost use Rattle.std.specs.Prelude.{◌+◌, ◌*◌, ◌-◌, ◌<◌, ◌≤◌, length};
ghost use Rattle.format_fields.specs.Inner.Places.{EndsAt};
ghost use Rattle.listing.specs.Inner.Walk as Walk;
ghost use Rattle.program_text.specs.Inner.Putting.{Puts};

use format_fields::walk::field_end;
use format_translation::body::{CLAUSE, NUMBERED_CLAUSE};
use program_text::text::{put, put_hex, put_number};

// The line of a clause, from the contents of its field.
fn put_clause(clause: &[u8], text: &mut [u8], at: usize) -> usize
    requires { (2 ≤ length clause.now) × (at + 2 * length clause.now + 7 ≤ length text.old) }
    ensures { Puts (Walk.contents_line clause.now) text.old text.new at result
        × (result ≤ at + 2 * length clause.now + 7) }
{
    let name = put_number(u64::from(clause[0]), b'.', text, at);
    let code = put_number(u64::from(clause[1]), b' ', text, name);
    let end = put_hex(&clause[2..], text, code);
    put(b'\n', text, end)
}

// The line of a clause of another number than 0, from the contents of its field.
fn put_numbered(clause: &[u8], text: &mut [u8], at: usize) -> usize
    requires { (3 ≤ length clause.now) × (at + 2 * length clause.now + 10 ≤ length text.old) }
    ensures { Puts (Walk.numbered_contents clause.now) text.old text.new at result
        × (result ≤ at + 2 * length clause.now + 10) }
{
    let name = put_number(u64::from(clause[0]), b'.', text, at);
    let number = put_number(u64::from(clause[1]), b'.', text, name);
    let code = put_number(u64::from(clause[2]), b' ', text, number);
    let end = put_hex(&clause[3..], text, code);
    put(b'\n', text, end)
}

// What a field of a tag adds: a clause its line, another field nothing.
fn put_contents(tag: u8, contents: &[u8], text: &mut [u8], at: usize) -> usize
    requires { at + 3 * length contents.now + 9 ≤ length text.old }
    ensures { Puts (Walk.field_line tag contents.now) text.old text.new at result
        × (result ≤ at + 3 * length contents.now + 9) }
{
    if tag == CLAUSE {
        if contents.len() < 2 {
            return at;
        }
        return put_clause(contents, text, at);
    }
    if tag == NUMBERED_CLAUSE {
        if contents.len() < 3 {
            return at;
        }
        return put_numbered(contents, text, at);
    }
    at
}

// What the field at p adds, which ends at `end`, where it is whole.
fn put_field(s: &[u8], p: usize, end: usize, text: &mut [u8], at: usize) -> usize
    requires { (p < length s.now) × (EndsAt s.now p end × (at + 3 * (length s.now - p) ≤ length text.old)) }
    ensures { Puts (Walk.line_at s.now p) text.old text.new at result
        × (result + 3 * (length s.now - end) ≤ at + 3 * (length s.now - p)) }
{
    if s.len() < end {
        return at;
    }
    let start = p + 3;
    put_contents(s[p], &s[start..end], text, at)
}

// The lines of the clauses of a translation, in order.
pub fn put_clauses(s: &[u8], text: &mut [u8], at: usize) -> usize
    requires { at + 3 * length s.now ≤ length text.old }
    ensures { Puts (Walk.clause_lines s.now) text.old text.new at result }
{
    let mut to = at;
    let mut p = 0;
    while p < s.len() {
        let end = field_end(s, p);
        to = put_field(s, p, end, text, to);
        p = end;
    }
    to
}
