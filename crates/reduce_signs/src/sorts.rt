// The sorts of terms, and the operators by the number of their operands.
ghost use Rattle.std.specs.Prelude.{◌≡◌};
ghost use Rattle.reduce_signs.specs.Inner.Sorts.{sort_of, first_sort, second_sort, operand_sort};

// The two sorts of terms.
#[derive(Clone, Copy)]
pub enum Sort {
    Language,
    Translation,
}

// The operators on two values; the result has the sort of the first.
#[derive(Clone, Copy)]
pub enum Binary {
    LanguageWithout,
    LanguageSum,
    TranslationWithout,
    TranslationSum,
    Join,
}

// The operators on one value.
#[derive(Clone, Copy)]
pub enum Unary {
    Source,
    Target,
    Identity,
}

// The sort of the first operand.
pub fn first_sort(operator: Binary) -> Sort
    ensures { sort_of result ≡ first_sort operator }
{
    match operator {
        Binary::LanguageWithout => Sort::Language,
        Binary::LanguageSum => Sort::Language,
        Binary::TranslationWithout => Sort::Translation,
        Binary::TranslationSum => Sort::Translation,
        Binary::Join => Sort::Translation,
    }
}

// The sort of the second operand.
pub fn second_sort(operator: Binary) -> Sort
    ensures { sort_of result ≡ second_sort operator }
{
    match operator {
        Binary::LanguageWithout => Sort::Language,
        Binary::LanguageSum => Sort::Language,
        Binary::TranslationWithout => Sort::Language,
        Binary::TranslationSum => Sort::Translation,
        Binary::Join => Sort::Translation,
    }
}

// The sort of the operand of an operator on one value.
pub fn operand_sort(operator: Unary) -> Sort
    ensures { sort_of result ≡ operand_sort operator }
{
    match operator {
        Unary::Source => Sort::Translation,
        Unary::Target => Sort::Translation,
        Unary::Identity => Sort::Language,
    }
}
