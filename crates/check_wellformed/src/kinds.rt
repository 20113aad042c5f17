// The table of the kinds that are in a language.
ghost use Rattle.std.specs.Prelude.{◌≡◌, true, ◌<◌, length, set};
ghost use Rattle.format_fields.specs.Lists.{all};
ghost use Rattle.format_fields.specs.Inner.Places.{places, field_end};
ghost use Rattle.format_language.specs.LanguageFile.{is_kind};
ghost use Rattle.format_language.specs.Inner.Entries.{entry_whole};
ghost use Rattle.check_wellformed.specs.Inner.Tests.{mark_all, mentioned_at, mark_entries};

use format_fields::walk::whole_end;
use format_language::entries::CLASS;

// Marks a kind in the table.
fn mark(kinds: &mut [bool], kind: u8)
    requires { kind < length kinds.old }
    ensures { kinds.new ≡ set kinds.old kind true }
{
    kinds[usize::from(kind)] = true;
}

// Marks the kinds in a part of a language.
fn mark_part(part: &[u8], kinds: &mut [bool])
    requires { (all is_kind part.now ≡ true) × (length kinds.old ≡ 32) }
    ensures { kinds.new ≡ mark_all kinds.old part.now }
{
    for kind in part {
        mark(kinds, *kind);
    }
}

// Marks the kinds that the entry at p, which ends at e, mentions.
fn mark_entry(s: &[u8], p: usize, e: usize, kinds: &mut [bool])
    requires { (entry_whole s.now p ≡ true) × (e ≡ field_end s.now p) × (length kinds.old ≡ 32) }
    ensures { kinds.new ≡ mark_all kinds.old (mentioned_at s.now p) }
{
    mark(kinds, s[p + 3]);
    if s[p] == CLASS {
        return;
    }
    mark_part(&s[p + 5..e], kinds);
}

// Marks every kind that is in the language.
pub fn mark_entries(s: &[u8], kinds: &mut [bool])
    requires { (all (entry_whole s.now) (places s.now) ≡ true) × (length kinds.old ≡ 32) }
    ensures { kinds.new ≡ mark_entries s.now kinds.old (places s.now) }
{
    let mut p = 0;
    while p < s.len() {
        let e = whole_end(s, p);
        mark_entry(s, p, e, kinds);
        p = e;
    }
}
