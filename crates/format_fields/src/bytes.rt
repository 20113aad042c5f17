// The bytes of a slice, and the numbers that they hold.
ghost use Rattle.std.specs.Prelude.{◌≡◌, ◌+◌, ◌*◌, ◌<◌, ◌≤◌, length, get_or};
ghost use Rattle.format_fields.specs.Fields.{pair_at};

// The byte at i, and 0 past the end.
pub fn byte_at(s: &[u8], i: usize) -> u8
    ensures { result ≡ get_or s.now i 0 }
{
    if i < s.len() { s[i] } else { 0 }
}

// The number in the two bytes at i, high byte first; a byte past the end counts as 0.
pub fn pair_at(s: &[u8], i: usize) -> usize
    requires { i ≤ length s.now + 16 }
    ensures { (result ≡ pair_at s.now i) × (result < 65536) }
{
    usize::from(byte_at(s, i)) * 256 + usize::from(byte_at(s, i + 1))
}

// The same number, where both bytes are known to be there.
pub fn pair_in(s: &[u8], i: usize) -> usize
    requires { i + 1 < length s.now }
    ensures { (result ≡ pair_at s.now i) × (result < 65536) }
{
    usize::from(s[i]) * 256 + usize::from(s[i + 1])
}
