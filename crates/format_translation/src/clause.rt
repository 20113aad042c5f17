// The clause at a place of a body: its number, and where its code starts.
ghost use Rattle.std.specs.Prelude.{◌≡◌, ◌+◌, ◌<◌, ◌≤◌, length};
ghost use Rattle.format_translation.specs.Inner.Items.{code_start, clause_number};

use crate::body::NUMBERED_CLAUSE;
use format_fields::bytes::byte_at;

// How many bytes stand before the code of a clause of number 0: tag, length, result, name.
pub const CLAUSE_HEAD: usize = 5;

// How many stand before that of a clause of another number, which is the last of them.
pub const NUMBERED_HEAD: usize = CLAUSE_HEAD + 1;

// The number of the clause at p.
pub fn clause_number(body: &[u8], p: usize) -> u8
    requires { p < length body.now }
    ensures { result ≡ clause_number body.now p }
{
    if body[p] == NUMBERED_CLAUSE {
        return byte_at(body, p + CLAUSE_HEAD);
    }
    0
}

// Where the code of the clause at p starts.
pub fn code_start(body: &[u8], p: usize) -> usize
    requires { p < length body.now }
    ensures { (result ≡ code_start body.now p) × (result ≤ p + 6) }
{
    if body[p] == NUMBERED_CLAUSE {
        return p + NUMBERED_HEAD;
    }
    p + CLAUSE_HEAD
}
