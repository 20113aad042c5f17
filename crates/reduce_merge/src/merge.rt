// The union and the difference of two files of rising fields.
ghost use Rattle.format_fields.specs.Inner.Writing.{Stores};
ghost use Rattle.reduce_merge.specs.Inner.Parts.{Sorted, united, removed};

use super::meet::stands_at;
use super::prefix::shared;
use format_fields::copy::{put_both, put_if};
use format_fields::walk::{order_at, skip_below, whole_end};

// The union by key, into the output from its start: of two fields of one key the one of a is taken. The bytes of a from
// `from` up to p are still to be written.
pub fn merge(a: &[u8], b: &[u8], leading_tag: u8, out: &mut [u8]) -> Option<usize>
    requires { Sorted leading_tag a.now × Sorted leading_tag b.now }
    ensures { Stores (united leading_tag a.now b.now) out.old out.new 0 result }
{
    let start = shared(a, b);
    let mut from = 0;
    let mut p = start;
    let mut q = start;
    let mut n = 0;
    while p < a.len() && q < b.len() {
        let j = order_at(a, p, leading_tag);
        let k = order_at(b, q, leading_tag);
        if k < j {
            let d = skip_below(b, q, leading_tag, j);
            n = put_both(a, from, p, b, q, d, out, n)?;
            from = p;
            q = d;
        } else {
            if j == k {
                q = whole_end(b, q);
            }
            p = whole_end(a, p);
        }
    }
    put_both(a, from, a.len(), b, q, b.len(), out, n)
}

// The fields of a that do not stand in b, into the output from its start.
pub fn remove(a: &[u8], b: &[u8], leading_tag: u8, out: &mut [u8]) -> Option<usize>
    requires { Sorted leading_tag a.now × Sorted leading_tag b.now }
    ensures { Stores (removed leading_tag a.now b.now) out.old out.new 0 result }
{
    let start = shared(a, b);
    let mut p = start;
    let mut q = start;
    let mut n = 0;
    while p < a.len() {
        q = skip_below(b, q, leading_tag, order_at(a, p, leading_tag));
        let stands = stands_at(a, p, b, q, leading_tag);
        let e = whole_end(a, p);
        n = put_if(!stands, a, p, e, out, n)?;
        p = e;
    }
    Some(n)
}
