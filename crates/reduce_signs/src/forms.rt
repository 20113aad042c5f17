// The terms by their signs: the two columns of the table.
ghost use Rattle.format_pack.specs.Terms.{languages, translations};
ghost use Rattle.reduce_signs.specs.Inner.Forms.{Begins};
ghost use Rattle.reduce_signs.specs.Inner.Sorts.{sort_of};

use crate::sorts::{Binary, Sort, Unary};

// The forms of a term: what follows its sign.
#[derive(Clone, Copy)]
pub enum Form {
    Constant,
    Variable,
    One(Unary),
    Two(Binary),
    Make,
    Let(Sort),
    Unknown,
}

// The form of a language term: the left column.
pub fn language_form(sign: u8) -> Form
    ensures { Begins languages sign result }
{
    match sign {
        0x40 => Form::Constant,
        0x41 => Form::Variable,
        0x42 => Form::Two(Binary::LanguageWithout),
        0x43 => Form::Two(Binary::LanguageSum),
        0x44 => Form::One(Unary::Source),
        0x45 => Form::One(Unary::Target),
        0x46 => Form::Let(Sort::Language),
        0x47 => Form::Let(Sort::Translation),
        _ => Form::Unknown,
    }
}

// The form of a translation term: the right column.
pub fn translation_form(sign: u8) -> Form
    ensures { Begins translations sign result }
{
    match sign {
        0x50 => Form::Make,
        0x51 => Form::Variable,
        0x52 => Form::Two(Binary::TranslationWithout),
        0x53 => Form::Two(Binary::TranslationSum),
        0x54 => Form::Two(Binary::Join),
        0x55 => Form::One(Unary::Identity),
        0x56 => Form::Let(Sort::Language),
        0x57 => Form::Let(Sort::Translation),
        _ => Form::Unknown,
    }
}

// The form of a term of the sort.
pub fn form_of(sort: Sort, sign: u8) -> Form
    ensures { Begins (sort_of sort) sign result }
{
    match sort {
        Sort::Language => language_form(sign),
        Sort::Translation => translation_form(sign),
    }
}
