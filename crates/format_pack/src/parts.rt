// Where the parts of a pack stand.
ghost use Rattle.std.specs.Prelude.{◌≡◌, ℕ, true, ◌≤◌, length, drop};
ghost use Rattle.std.proofs.Math.Option.{some};
ghost use Rattle.std.proofs.Math.ListN.{get_elem?};
ghost use Rattle.std.proofs.Math.Seq.{slice};
ghost use Rattle.format_fields.specs.Lists.{all};
ghost use Rattle.format_fields.specs.Keyed.{rising};
ghost use Rattle.outcome.specs.Outcome.{value};
ghost use Rattle.format_fields.specs.Inner.Places.{is_whole, contents_at, places};
ghost use Rattle.format_language.specs.Language.{Language};
ghost use Rattle.format_language.specs.LanguageFile.{language_of};
ghost use Rattle.format_translation.specs.Translation.{Body, item_key};
ghost use Rattle.format_translation.specs.TranslationFile.{body_of};
ghost use Rattle.format_pack.specs.Pack.{Pack, pack_of};
ghost use Rattle.format_pack.specs.Inner.Parts.{StandsAt, tagged};

use super::whole::{BODY, LANGUAGE, TERM};
use format_fields::walk::whole_end;

// Where the contents of a field stand: from the start up to the end.
#[derive(Clone, Copy, Debug, PartialEq, Eq)]
struct Place {
    start: usize,
    end: usize,
}

// Where the contents of the field of this tag and number, from 0, stand.
fn field_place(s: &[u8], tag: u8, number: usize) -> Option<Place>
    requires { all (is_whole s.now) (places s.now) ≡ true }
    ensures { StandsAt tag s.now number result }
{
    let mut left = number;
    let mut p = 0;
    while p < s.len() {
        let e = whole_end(s, p);
        if s[p] == tag {
            if left == 0 {
                return Some(Place {
                    start: p + 3,
                    end: e,
                });
            }
            left -= 1;
        }
        p = e;
    }
    None
}

// The contents of that field; nothing where there is none.
fn contents_of(s: &[u8], tag: u8, number: usize) -> &[u8]
    requires { all (is_whole s.now) (places s.now) ≡ true }
    ensures is { (p : ℕ) → get_elem? (tagged tag s.now) number ≡ some p → result.now ≡ contents_at s.now p }
    ensures within { length result.now ≤ length s.now }
    ensures part { (a : ℕ) × (e : ℕ) × (a ≤ e) × (e ≤ length s.now) × (result.now ≡ slice a e s.now) }
{
    match field_place(s, tag, number) {
        Some(place) => &s[place.start..place.end],
        None => &[],
    }
}

// Where the term of an accepted pack starts; it goes on to the end of the pack.
pub fn term_start(pack: &[u8]) -> usize
    requires { (p : Pack) × (pack_of pack.now ≡ value p) }
    ensures { (result ≤ length pack.now) × ((p : Pack) → pack_of pack.now ≡ value p → drop result pack.now ≡ p.term) }
{
    field_place(pack, TERM, 0).unwrap().start
}

// The language (field 30) of this number, from 0; nothing where there is none.
pub fn language_at(pack: &[u8], number: usize) -> &[u8]
    requires { (p : Pack) × (pack_of pack.now ≡ value p) }
    ensures is { (p : Pack) (l : Language) → pack_of pack.now ≡ value p → get_elem? p.languages number ≡ some l
        → language_of result.now ≡ value l }
    ensures within { length result.now ≤ length pack.now }
    ensures part { (a : ℕ) × (e : ℕ) × (a ≤ e) × (e ≤ length pack.now) × (result.now ≡ slice a e pack.now) }
{
    contents_of(pack, LANGUAGE, number)
}

// The body (field 31) of this number; nothing where there is none.
pub fn body_at(pack: &[u8], number: usize) -> &[u8]
    requires { (p : Pack) × (pack_of pack.now ≡ value p) }
    ensures is { (p : Pack) (b : Body) → pack_of pack.now ≡ value p → get_elem? p.bodies number ≡ some b
        → (body_of result.now ≡ some b) × (rising item_key b ≡ true) }
    ensures within { length result.now ≤ length pack.now }
    ensures part { (a : ℕ) × (e : ℕ) × (a ≤ e) × (e ≤ length pack.now) × (result.now ≡ slice a e pack.now) }
{
    contents_of(pack, BODY, number)
}
