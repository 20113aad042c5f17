// Writing into a lent output.
ghost use Rattle.std.specs.Prelude.{◌≡◌, cond, [], ◌++◌, ◌+◌, ◌<◌, ◌≤◌, length, replicate};
ghost use Rattle.std.proofs.Math.Seq.{slice};
ghost use Rattle.format_fields.specs.Fields.{two_bytes};
ghost use Rattle.format_fields.specs.Inner.Writing.{Inside, spliced, Stores};

// Copies the bytes of s from p up to e into the output, from n on, and says where they end; nothing where the output is too short.
// The compiler makes a memcpy of the loop; of the kit's copy_from_slice it makes a memmove, which the library does not call.
pub fn put(s: &[u8], p: usize, e: usize, out: &mut [u8], n: usize) -> Option<usize>
    requires { Inside s.now p e × (n ≤ length out.old) }
    ensures { Stores (slice p e s.now) out.old out.new n result }
{
    let m = n + (e - p);
    if out.len() < m {
        return None;
    }
    for i in 0..e - p {
        out[n + i] = s[p + i];
    }
    Some(m)
}

// Copies the same where that is wanted, and nothing where it is not.
pub fn put_if(wanted: bool, s: &[u8], p: usize, e: usize, out: &mut [u8], n: usize) -> Option<usize>
    requires { Inside s.now p e × (n ≤ length out.old) }
    ensures { Stores (cond wanted (slice p e s.now) []) out.old out.new n result }
{
    if wanted {
        put(s, p, e, out, n)
    } else {
        Some(n)
    }
}

// Copies the bytes of s from p up to e, and behind them those of t from q up to d.
pub fn put_both(
    s: &[u8],
    p: usize,
    e: usize,
    t: &[u8],
    q: usize,
    d: usize,
    out: &mut [u8],
    n: usize,
) -> Option<usize>
    requires { Inside s.now p e × (Inside t.now q d × (n ≤ length out.old)) }
    ensures { Stores (slice p e s.now ++ slice q d t.now) out.old out.new n result }
{
    let m = put(s, p, e, out, n)?;
    put(t, q, d, out, m)
}

// Puts the two bytes of a number, high byte first, into an output that has room for them.
pub fn put_pair(value: usize, out: &mut [u8], n: usize)
    requires { (value < 65536) × (n + 2 ≤ length out.old) }
    ensures { out.new ≡ spliced out.old n (two_bytes value) }
{
    out[n] = (value / 256) as u8;
    out[n + 1] = (value % 256) as u8;
}

// Sets every byte to zero.
pub fn clear(s: &mut [u8])
    ensures { s.new ≡ replicate (length s.old) 0 }
{
    s.fill(0);
}
