// The fields that two files begin with alike.
ghost use Rattle.std.specs.Prelude.{◌≡◌, true, ℕ, ◌+◌};
ghost use Rattle.reduce_merge.specs.Inner.Parts.{Alike, Shared, WholeFrom};

use format_fields::walk::whole_end;

// Sixteen more bytes from n on are the same in both. All are compared, without a way out, so that it is one step: a comparison of
// slices would be a call, which loses that there are 16.
fn alike_on(a: &[u8], b: &[u8], n: usize) -> bool
    requires { Alike a.now b.now n }
    ensures { result ≡ true → Alike a.now b.now (n + 16) }
{
    if a.len() - n < 16 || b.len() - n < 16 {
        return false;
    }
    let mut same = true;
    for i in n..n + 16 {
        same &= a[i] == b[i];
    }
    same
}

// A number of first bytes that are the same in both, by sixteens.
fn alike_by_sixteen(a: &[u8], b: &[u8]) -> usize
    ensures { Alike a.now b.now result }
{
    let mut n = 0;
    while alike_on(a, b, n) {
        n += 16;
    }
    n
}

// How many first bytes are the same in both.
fn alike(a: &[u8], b: &[u8]) -> usize
    ensures { Alike a.now b.now result }
{
    let shorter = a.len().min(b.len());
    for i in alike_by_sixteen(a, b)..shorter {
        if a[i] != b[i] {
            return i;
        }
    }
    shorter
}

// Where the fields end that both files begin with: all of them where the files are the same, and else those whose keys
// and bytes are among the first bytes that are.
pub fn shared(a: &[u8], b: &[u8]) -> usize
    requires { WholeFrom a.now 0 × WholeFrom b.now 0 }
    ensures { (leading : ℕ) → Shared leading a.now b.now result }
{
    let n = alike(a, b);
    if a.len() == n && b.len() == n {
        return n;
    }
    let mut p = 0;
    while p + 5 <= n {
        let e = whole_end(a, p);
        if n < e {
            return p;
        }
        p = e;
    }
    p
}
