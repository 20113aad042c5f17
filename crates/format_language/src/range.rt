// The ranges of classes.
ghost use Rattle.std.specs.Prelude.{◌≡◌, ◌<◌};
ghost use Rattle.format_language.specs.Ranges.{in_range, range_within};
ghost use Rattle.format_language.specs.Inner.Entries.{IsClass, step_at, class_range};

use super::entries::STEPPED_LENGTH;
use format_fields::bytes::pair_in;

// The length of a class whose step is written, as the low byte of its length.
const STEPPED: u8 = STEPPED_LENGTH as u8;

// The step of the class at p, which is 1 where it is not written.
fn step_at(s: &[u8], p: usize) -> usize
    requires { IsClass s.now p }
    ensures { (result ≡ step_at s.now p) × (0 < result) }
{
    if s[p + 2] != STEPPED {
        return 1;
    }
    pair_in(s, p + 8)
}

// A value is legal in the class at p.
pub fn in_range(s: &[u8], p: usize, value: usize) -> bool
    requires { IsClass s.now p }
    ensures { result ≡ in_range (class_range s.now p) value }
{
    let low = pair_in(s, p + 4);
    if value < low {
        return false;
    }
    if pair_in(s, p + 6) < value {
        return false;
    }
    let step = step_at(s, p);
    if step == 1 {
        return true;
    }
    (value - low) % step == 0
}

// Each legal value of the class at p of a is legal in the class at q of b. The lowest must be; where there are more,
// the steps of a must be steps of b, and the greatest legal value at most the other's bound.
pub fn range_within(a: &[u8], p: usize, b: &[u8], q: usize) -> bool
    requires { IsClass a.now p × IsClass b.now q }
    ensures { result ≡ range_within (class_range a.now p) (class_range b.now q) }
{
    let low = pair_in(a, p + 4);
    if !in_range(b, q, low) {
        return false;
    }
    let span = pair_in(a, p + 6) - low;
    let step = step_at(a, p);
    if span < step {
        return true;
    }
    if step % step_at(b, q) != 0 {
        return false;
    }
    low + (span - span % step) <= pair_in(b, q + 6)
}
