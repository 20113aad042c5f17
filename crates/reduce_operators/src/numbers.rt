// The numbers of mappings: how high they go, and that kinds which two translations share have the same.
ghost use Rattle.std.specs.Prelude.{◌≡◌, Bool, ◌&&◌, ℕ, ◌+◌, ◌*◌, ◌<◌, ◌≤◌, length};
ghost use Rattle.std.proofs.Math.Option.{some};
ghost use Rattle.format_fields.specs.Lists.{all};
ghost use Rattle.tree_reader.specs.Inner.Positions.{uses_length};
ghost use Rattle.format_translation.specs.Translation.{Item, Body};
ghost use Rattle.format_translation.specs.TranslationFile.{body_of};
ghost use Rattle.format_translation.specs.Inner.ItemIndex.{Mapped};
ghost use Rattle.reduce_operators.specs.Inner.Numbers.{mapping_below, number_in, Tests};

use format_fields::walk::{MAPPING, NAMES, order_at, whole_end};
use format_translation::body::is_clause;
use format_translation::index::put_uses;
use tree_reader::node::USES;

// The limit that no number but 0 is below.
pub const ZERO_ONLY: usize = 1;

// The keys of the mappings of a body, which stand in front, pass a test.
fn mappings_pass<F: Fn(usize) -> bool>(body: &[u8], test: F) -> bool
    requires body { (b : Body) × (body_of body.now ≡ some b) }
    requires may { (s j : ℕ) → s < 32 → j < 256 → F.pre test (s * 256 + j) }
    ensures { (b : Body) (passes : Item → Bool) → body_of body.now ≡ some b → Tests (F.post test) passes → result ≡ all passes b }
{
    let mut p = 0;
    while p < body.len() {
        if is_clause(body[p]) {
            return true;
        }
        if !test(order_at(body, p, MAPPING)) {
            return false;
        }
        p = whole_end(body, p);
    }
    true
}

// The mappings of a body are by numbers below the limit.
pub fn numbers_below(body: &[u8], limit: usize) -> bool
    requires { (b : Body) × (body_of body.now ≡ some b) }
    ensures { (b : Body) → body_of body.now ≡ some b → result ≡ all (mapping_below limit) b }
{
    mappings_pass(body, |key| key % NAMES < limit)
}

// The kinds of a body have its numbers in the table of what kinds map to, where they are in the table at all.
fn numbers_known(body: &[u8], uses: &[u8]) -> bool
    requires { ((b : Body) × (body_of body.now ≡ some b)) × (length uses.now ≡ uses_length) }
    ensures { (b c : Body) → body_of body.now ≡ some b → Mapped uses.now c → result ≡ all (number_in c) b }
{
    mappings_pass(body, |key| uses[key - key % NAMES] == 0 || uses[key] != 0)
}

// Each number that a kind has in the first body it has in the second, where that maps it at all. Mappings by number 0
// only need no table.
fn numbers_kept(first: &[u8], second: &[u8]) -> bool
    requires { ((b : Body) × (body_of first.now ≡ some b)) × ((c : Body) × (body_of second.now ≡ some c)) × (length second.now ≤ 32768) }
    ensures { (b c : Body) → body_of first.now ≡ some b → body_of second.now ≡ some c → result ≡ all (number_in c) b }
{
    if numbers_below(first, ZERO_ONLY) {
        return true;
    }
    let mut uses = [0u8; USES];
    put_uses(second, &mut uses);
    numbers_known(first, &uses)
}

// Kinds that both bodies map have the same numbers in both.
pub fn numbers_agree(first: &[u8], second: &[u8]) -> bool
    requires { ((b : Body) × (body_of first.now ≡ some b)) × ((c : Body) × (body_of second.now ≡ some c)) × (length first.now ≤ 32768) × (length second.now ≤ 32768) }
    ensures { (b c : Body) → body_of first.now ≡ some b → body_of second.now ≡ some c → result ≡ (all (number_in c) b && all (number_in b) c) }
{
    numbers_kept(first, second) && numbers_kept(second, first)
}
