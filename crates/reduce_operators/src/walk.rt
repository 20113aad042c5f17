// A walk over the entries of a language that writes something for each of them.
ghost use Rattle.std.specs.Prelude.{◌≡◌, ◌≤◌, ℕ, List, length};
ghost use Rattle.std.specs.Borrow.{Bor, MutBor};
ghost use Rattle.std.proofs.Math.Option.{some};
ghost use Rattle.format_fields.specs.Inner.Writing.{Stores};
ghost use Rattle.format_language.specs.Language.{Language};
ghost use Rattle.format_language.specs.LanguageFile.{entries_of};
ghost use Rattle.reduce_operators.specs.Inner.Kept.{written_from};
ghost use Rattle.reduce_operators.specs.Inner.Pieces.{EntryAsks, Puts};

use format_fields::walk::field_end;

// What `put` writes for each entry, one after the other, into the output from a place on. It is called with the language, where
// the entry starts and ends, the output, and where to write there.
pub fn put_entries<F: Fn(&[u8], usize, usize, &mut [u8], usize) -> Option<usize>>(
    a: &[u8],
    put: F,
    out: &mut [u8],
    from: usize,
) -> Option<usize>
    requires entries { (l : Language) × (entries_of a.now ≡ some l) }
    requires room { from ≤ length out.old }
    requires may { (s : Bor (List ℕ)) (p e n : ℕ) (o : MutBor (List ℕ)) → EntryAsks s.now p e o.now n → F.pre put s p e o n }
    requires puts { (piece : List ℕ → ℕ → List ℕ) × Puts (F.post put) piece }
    ensures { (piece : List ℕ → ℕ → List ℕ) → Puts (F.post put) piece → Stores (written_from (piece a.now) a.now 0) out.old out.new from result }
{
    let mut p = 0;
    let mut n = from;
    while p < a.len() {
        let e = field_end(a, p);
        n = put(a, p, e, out, n)?;
        p = e;
    }
    Some(n)
}
