// Source productions and clauses side by side: both stand by rising key, so that the clauses of a production, one for each
// number of its result, are found beside it. The mappings of the results stand by rising kind too.
ghost use Rattle.std.specs.Prelude.{◌≡◌, true, ◌<◌, get_or};
ghost use Rattle.format_fields.specs.Inner.Places.{places_from, long_at, Skipped};
ghost use Rattle.format_fields.specs.Lists.{all};
ghost use Rattle.format_language.specs.Inner.Entries.{RisingEntries};
ghost use Rattle.tree_reader.specs.Inner.Index.{index_length};
ghost use Rattle.check_wellformed.specs.Inner.Ready.{index_of};
ghost use Rattle.check_wellformed.specs.Inner.Matching.{keys_match, Sides, Asked, Cleared};
ghost use Rattle.check_wellformed.specs.Inner.Tests.{place_before};

use format_fields::walk::{MAPPING, NAMES, order_at, skip_below, whole_end, whole_key};
use format_language::entries::CLASS;

// The place of the entry of this key. Entries before q have lesser keys, and the one at q has not.
pub fn place_of(s: &[u8], q: usize, key: usize) -> Option<usize>
    requires { RisingEntries s.now × Skipped 0x11 key s.now 0 q × (key < index_length) }
    ensures { result ≡ place_before (get_or (index_of s.now) key 0) }
{
    if s.len() <= q {
        return None;
    }
    if whole_key(s, q, CLASS) != key {
        return None;
    }
    Some(q)
}

// Where the clauses from p on of a production end, one for each mapping of its result, which stand from m on; none where one
// is missing. Its key is that of the production.
fn clauses_end(body: &[u8], m: usize, kind: usize, key: usize, p: usize) -> Option<usize>
    requires { Asked body.now m kind p × (key < 65568) }
    ensures { Cleared body.now m kind key p result }
{
    let first = kind * NAMES;
    let mut at = m;
    let mut to = p;
    while at < body.len() {
        let order = order_at(body, at, MAPPING);
        if first + NAMES <= order {
            return Some(to);
        }
        if body.len() <= to {
            return None;
        }
        if order_at(body, to, MAPPING) != key * NAMES + (order - first) {
            return None;
        }
        at = whole_end(body, at);
        to = whole_end(body, to);
    }
    Some(to)
}

// The productions from q on have their clauses, one for each number of the result, and there is no other from p on.
pub fn clauses_match(source: &[u8], q: usize, body: &[u8], p: usize) -> bool
    requires { Sides source.now q body.now p }
    ensures { result ≡ keys_match source.now q body.now p }
{
    let mut from = q;
    let mut to = p;
    let mut m = 0;
    while from < source.len() {
        let kind = usize::from(source[from + 3]);
        m = skip_below(body, m, MAPPING, kind * NAMES);
        let key = whole_key(source, from, CLASS);
        let Some(end) = clauses_end(body, m, kind, key, to) else {
            return false;
        };
        to = end;
        from = whole_end(source, from);
    }
    body.len() <= to
}
