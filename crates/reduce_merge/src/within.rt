// Whether one language lies within another, and whether two files of rising fields agree.
ghost use Rattle.std.specs.Prelude.{◌≡◌};
ghost use Rattle.reduce_merge.specs.Inner.Parts.{Sorted, SortedEntries, lies_within, agrees};

use super::meet::{lies_at, same_field};
use super::prefix::shared;
use format_fields::walk::{order_at, skip_below, whole_end};
use format_language::entries::CLASS;

// Every entry of language a lies in one of b.
pub fn lies_within(a: &[u8], b: &[u8]) -> bool
    requires { SortedEntries a.now × SortedEntries b.now }
    ensures { result ≡ lies_within a.now b.now }
{
    let start = shared(a, b);
    let mut p = start;
    let mut q = start;
    while p < a.len() {
        q = skip_below(b, q, CLASS, order_at(a, p, CLASS));
        if !lies_at(a, p, b, q) {
            return false;
        }
        p = whole_end(a, p);
    }
    true
}

// Fields of one key are the same in a and in b. Keys rise in both, so both are gone through once.
pub fn agree(a: &[u8], b: &[u8], leading_tag: u8) -> bool
    requires { Sorted leading_tag a.now × Sorted leading_tag b.now }
    ensures { result ≡ agrees leading_tag a.now b.now }
{
    let start = shared(a, b);
    let mut same = true;
    let mut p = start;
    let mut q = start;
    'clash: while p < a.len() {
        let key = order_at(a, p, leading_tag);
        while q < b.len() {
            let other = order_at(b, q, leading_tag);
            if key < other {
                break;
            }
            if key == other {
                if !same_field(a, p, b, q) {
                    same = false;
                    break 'clash;
                }
            }
            q = whole_end(b, q);
        }
        p = whole_end(a, p);
    }
    same
}
