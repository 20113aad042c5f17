// The sixteen signs of terms, 40 to 47 for languages and 50 to 57 for translations: whether a number follows, by a formula,
// and the sorts of the operands, by tables.
ghost use Rattle.std.specs.Prelude.{◌≡◌};
ghost use Rattle.format_pack.specs.Inner.Signs.{has_number, sign_index, first_operand, second_operand};

// The sign of a constant, the first of the signs of language terms.
pub const CONSTANT: u8 = 0x40;

// The sign of a translation made of its parts, the first of the signs of translation terms.
pub const MAKE: u8 = 0x50;

// Each sort has so many signs.
pub const COLUMN: u8 = 8;

// There are so many signs.
const SIGNS: usize = 16;

// The two sorts of terms.
#[derive(Clone, Copy, Debug, PartialEq, Eq)]
pub enum Sort {
    Language,
    Translation,
}

// The sort of a sign's first operand, if it has operands.
const FIRSTS: [Option<Sort>; SIGNS] = [
    None,
    None,
    Some(Sort::Language),
    Some(Sort::Language),
    Some(Sort::Translation),
    Some(Sort::Translation),
    Some(Sort::Language),
    Some(Sort::Translation),
    Some(Sort::Language),
    None,
    Some(Sort::Translation),
    Some(Sort::Translation),
    Some(Sort::Translation),
    Some(Sort::Language),
    Some(Sort::Language),
    Some(Sort::Translation),
];

// The sort of the second, if it has two.
const SECONDS: [Option<Sort>; SIGNS] = [
    None,
    None,
    Some(Sort::Language),
    Some(Sort::Language),
    None,
    None,
    Some(Sort::Language),
    Some(Sort::Language),
    Some(Sort::Language),
    None,
    Some(Sort::Language),
    Some(Sort::Translation),
    Some(Sort::Translation),
    None,
    Some(Sort::Translation),
    Some(Sort::Translation),
];

// Where a sign stands in a table: its column times 8, and its low digit.
fn sign_index(sign: u8) -> Option<usize>
    ensures { result ≡ sign_index sign }
{
    match sign {
        0x40..=0x47 => Some(usize::from(sign - 0x40)),
        0x50..=0x57 => Some(usize::from(sign - 0x48)),
        _ => None,
    }
}

// A number follows the sign, or ends it, as b does at 50: by its low digit.
pub fn has_number(sign: u8) -> bool
    ensures { result ≡ has_number sign }
{
    sign_index(sign).is_some() && (sign % 16 + 2) % 8 < 4
}

// The sort of a sign's first operand.
pub fn first_operand(sign: u8) -> Option<Sort>
    ensures { result ≡ first_operand sign }
{
    FIRSTS[sign_index(sign)?]
}

// The sort of a sign's second operand.
pub fn second_operand(sign: u8) -> Option<Sort>
    ensures { result ≡ second_operand sign }
{
    SECONDS[sign_index(sign)?]
}
