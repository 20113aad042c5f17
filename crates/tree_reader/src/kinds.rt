// The kinds that are in a language.
ghost use Rattle.std.specs.Prelude.{◌≡◌, ◌+◌, ◌<◌, ◌≤◌, eqb, length};
ghost use Rattle.std.proofs.Math.Option.{some};
ghost use Rattle.std.proofs.Math.Seq.{slice};
ghost use Rattle.format_fields.specs.Lists.{any};
ghost use Rattle.format_fields.specs.Inner.Places.{field_end};
ghost use Rattle.format_language.specs.Language.{Language, is_in};
ghost use Rattle.format_language.specs.LanguageFile.{entries_of};
ghost use Rattle.tree_reader.specs.Inner.Positions.{mentions_at};

use format_fields::walk::field_end;
use format_language::entries::CLASS;

// The entry at p, which ends at e, has the kind as its class, result or argument.
fn mentions_kind(s: &[u8], p: usize, e: usize, kind: u8) -> bool
    requires { (p + 5 ≤ e) × (e ≡ field_end s.now p) × (e ≤ length s.now) }
    ensures { result ≡ mentions_at s.now kind p }
{
    if s[p + 3] == kind {
        return true;
    }
    if s[p] == CLASS {
        return false;
    }
    s[p + 5..e].contains(&kind)
}

// The kind is in the language.
pub fn is_in(language: &[u8], kind: u8) -> bool
    requires { (l : Language) × (entries_of language.now ≡ some l) }
    ensures { (l : Language) → entries_of language.now ≡ some l → result ≡ is_in l kind }
{
    let mut p = 0;
    while p < language.len() {
        let e = field_end(language, p);
        if mentions_kind(language, p, e, kind) {
            return true;
        }
        p = e;
    }
    false
}
