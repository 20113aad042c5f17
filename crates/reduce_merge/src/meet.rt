// Two files of rising fields, side by side.
ghost use Rattle.std.specs.Prelude.{◌≡◌, true};
ghost use Rattle.format_fields.specs.Lists.{all, same_numbers};
ghost use Rattle.reduce_merge.specs.Inner.Parts.{WholeAt, WholeFrom, piece_at, same_key, same_part, part_within, class_part, part_at, parts_from, leads};

use format_fields::walk::{order_at, whole_end};
use format_language::entries::{CLASS, KINDS};
use format_language::range::range_within;

// The field of a at p and the field of b at q are the same, byte for byte.
pub fn same_field(a: &[u8], p: usize, b: &[u8], q: usize) -> bool
    requires { WholeAt a.now p × WholeAt b.now q }
    ensures { result ≡ same_numbers (piece_at a.now p) (piece_at b.now q) }
{
    a[p..whole_end(a, p)] == b[q..whole_end(b, q)]
}

// There is a field of b at q, and its key is that of the field of a at p.
fn meets(a: &[u8], p: usize, b: &[u8], q: usize, leading_tag: u8) -> bool
    requires { WholeAt a.now p × WholeFrom b.now q }
    ensures { result ≡ leads same_key (part_at leading_tag a.now p) (parts_from leading_tag b.now q) }
{
    q < b.len() && order_at(a, p, leading_tag) == order_at(b, q, leading_tag)
}

// The field of a at p is the field of b at q.
pub fn stands_at(a: &[u8], p: usize, b: &[u8], q: usize, leading_tag: u8) -> bool
    requires { WholeAt a.now p × WholeFrom b.now q }
    ensures { result ≡ leads same_part (part_at leading_tag a.now p) (parts_from leading_tag b.now q) }
{
    meets(a, p, b, q, leading_tag) && same_field(a, p, b, q)
}

// The entry of a at p lies in the entry of b at q: a class by its range, a production if it is the same.
pub fn lies_at(a: &[u8], p: usize, b: &[u8], q: usize) -> bool
    requires { WholeAt a.now p × WholeFrom b.now q × (class_part (part_at 0x11 a.now p) ≡ true) × (all class_part (parts_from 0x11 b.now q) ≡ true) }
    ensures { result ≡ leads part_within (part_at 0x11 a.now p) (parts_from 0x11 b.now q) }
{
    if !meets(a, p, b, q, CLASS) {
        return false;
    }
    if order_at(a, p, CLASS) < usize::from(KINDS) {
        return range_within(a, p, b, q);
    }
    same_field(a, p, b, q)
}
