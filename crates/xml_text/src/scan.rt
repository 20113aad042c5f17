// What stands at a position of a text: numbers, tags and tokens.
ghost use Rattle.std.specs.Prelude.{◌≡◌, ◌⊎◌, ◌+◌, ◌-◌, ◌<◌, ◌≤◌, length, drop};
ghost use Rattle.format_language.specs.Inner.Entries.{IsClass, class_range};
ghost use Rattle.xml_text.specs.Import.{read_word, read_number, read_opening, read_token};
ghost use Rattle.xml_text.specs.Inner.Scanning.{begins, closes, Stands, Numbers, Tokens, TellsToken};

use crate::tags::{END, NODE, OPEN, POINT, SLASH, TOKEN, ZERO};
use format_language::range::in_range;

// The length of a closing tag such as "</x1.4>".
const COMMON_CLOSING: usize = 7;

// No number of an export is above this.
const LARGEST: usize = 65535;

// No number of an export has so many digits.
const DIGITS: usize = 6;

// The number whose first digit stands at a position, without leading zeros, and the position behind it. No digit is looked for
// from `end` on: there the text ends, or the number would have too many.
// Digits are counted from `at`, so that their number is known when this is compiled with a known `end - at`.
fn number_before(text: &[u8], at: usize, end: usize) -> Option<(usize, usize)>
    requires { (at < end) × (end ≤ length text.now) × ((end ≡ length text.now) ⊎ (at + 6 ≤ end)) }
    ensures { Numbers (read_number (drop at text.now)) text.now at result }
{
    if text[at] == ZERO {
        return Some((0, at + 1));
    }
    if !text[at].is_ascii_digit() {
        return None;
    }
    let mut value = usize::from(text[at] - ZERO);
    for i in 1..end - at {
        if !text[at + i].is_ascii_digit() {
            return Some((value, at + i));
        }
        value = value * 10 + usize::from(text[at + i] - ZERO);
        if LARGEST < value {
            return None;
        }
    }
    Some((value, end))
}

// A number and the position behind it.
pub fn number_at(text: &[u8], at: usize) -> Option<(usize, usize)>
    requires { at ≤ length text.now }
    ensures { Numbers (read_number (drop at text.now)) text.now at result }
{
    if text.len() <= at {
        return None;
    }
    number_before(text, at, text.len())
}

// The value of a token, which has at most five digits. It is read without a look at the end of the text.
pub fn value_at(text: &[u8], at: usize) -> Option<(usize, usize)>
    requires { at + 6 ≤ length text.now }
    ensures { Numbers (read_number (drop at text.now)) text.now at result }
{
    number_before(text, at, at + DIGITS)
}

// The position behind a word, if it stands there. Words are short, so they are compared a byte at a time.
fn word_at(word: &[u8], text: &[u8], at: usize) -> Option<usize>
    requires { at ≤ length text.now }
    ensures { Stands (read_word word.now (drop at text.now)) text.now (at + length word.now) result }
{
    if text.len() - at < word.len() {
        return None;
    }
    for i in 0..word.len() {
        if text[at + i] != word[i] {
            return None;
        }
    }
    Some(at + word.len())
}

// The beginning of an opening tag: its sign and a kind, and the byte behind the kind.
fn begin_at(sign: u8, end: u8, kind: u8, text: &[u8], at: usize) -> Option<usize>
    requires { (kind < 100) × (at ≤ length text.now) }
    ensures { Stands (read_word (begins sign kind end) (drop at text.now)) text.now (at + 4) result }
{
    if kind < 10 {
        return word_at(&[OPEN, sign, ZERO + kind, end], text, at);
    }
    word_at(
        &[OPEN, sign, ZERO + kind / 10, ZERO + kind % 10, end],
        text,
        at,
    )
}

// The closing tag of that size of an element whose opening tag stands at `tag`: the same bytes, with a slash behind the first.
fn same_at(text: &[u8], tag: usize, size: usize, at: usize) -> Option<usize>
    requires { (2 ≤ size) × (tag + size ≤ length text.now + 1) × (at ≤ length text.now) }
    ensures { Stands (read_word (closes tag size text.now) (drop at text.now)) text.now at result }
{
    let name = word_at(&[OPEN, SLASH], text, at)?;
    word_at(&text[tag + 1..tag + (size - 1)], text, name)
}

// The same. A size that is usual is told apart, so that it is known when this is compiled.
pub fn closing_at(text: &[u8], tag: usize, size: usize, at: usize) -> Option<usize>
    requires { (2 ≤ size) × (tag + size ≤ length text.now + 1) × (at ≤ length text.now) }
    ensures { Stands (read_word (closes tag size text.now) (drop at text.now)) text.now at result }
{
    if size == COMMON_CLOSING {
        return same_at(text, tag, COMMON_CLOSING, at);
    }
    same_at(text, tag, size, at)
}

// The opening tag of a production of a kind: its name, and the position behind the tag.
pub fn opening_at(kind: u8, text: &[u8], at: usize) -> Option<(usize, usize)>
    requires { (kind < 100) × (at ≤ length text.now) }
    ensures { Numbers (read_opening kind (drop at text.now)) text.now (at + 2) result }
{
    let begun = begin_at(NODE, POINT, kind, text, at)?;
    let (name, named) = number_at(text, begun)?;
    let end = word_at(&[END], text, named)?;
    Some((name, end))
}

// Whether a token is to be read, where its kind has a class at `class`, or none at 0. The text is asked first, since what stands
// there is known before the class is.
pub fn is_token(class: usize, text: &[u8], at: usize) -> bool
    requires { at ≤ length text.now }
    ensures { TellsToken class text.now at result }
{
    at + 1 < text.len() && text[at + 1] == TOKEN && class != 0
}

// A token of a kind with its tags, whose value is legal in the class at a place of the language: its value, and the position behind it.
pub fn token_at(
    language: &[u8],
    place: usize,
    kind: u8,
    text: &[u8],
    at: usize,
) -> Option<(usize, usize)>
    requires { IsClass language.now place × (kind < 100) × (at ≤ length text.now) }
    ensures { Tokens (read_token kind (class_range language.now place) (drop at text.now)) text.now (at + 2) result }
{
    let begun = begin_at(TOKEN, END, kind, text, at)?;
    if text.len() - begun < DIGITS {
        return None;
    }
    let (value, valued) = value_at(text, begun)?;
    if !in_range(language, place, value) {
        return None;
    }
    let end = same_at(text, at, begun - at + 1, valued)?;
    Some((value, end))
}
