// The reducers: they call each other with fewer levels left. A value is left at the start of the lent buffer; what a sign
// needs later, operands and bound values, is copied into the store.
ghost use Rattle.std.specs.Prelude.{◌≡◌, ◌<◌, ◌≤◌, length, get_or};
ghost use Rattle.format_pack.specs.Terms.{languages, translations, bind_sign};
ghost use Rattle.reduce_signs.specs.Inner.Sorts.{sort_of, first_sort, binary_sign, unary_sort, unary_sign};
ghost use Rattle.reduce_signs.specs.Inner.Forms.{Begins};
ghost use Rattle.reduce_terms.specs.Inner.Reducing.{Asks, Gives, GivesStored, AsksTwo, GivesTwo};

use format_fields::bytes::byte_at;
use outcome::Reason;
use reduce_signs::apply::{Operator, apply};
use reduce_signs::evaluated::{Ended, EndedTwo, Evaluated, EvaluatedTwo, finish};
use reduce_signs::forms::{Form, form_of};
use reduce_signs::leaves::{constant, save, variable};
use reduce_signs::places::{Places, set_slot, slot_of};
use reduce_signs::sorts::{Binary, Sort, Unary, first_sort, operand_sort, second_sort};

// A term of the sort: each sort has a reducer of its own.
#[cycle(binary_term_language_term_let_term_make_term_operand_operands_term_by_form_term_of_translation_term_unary_term)]
fn term_of(
    sort: Sort,
    pack: &[u8],
    at: usize,
    levels: usize,
    places: Places,
    store: &mut [u8],
    top: usize,
    out: &mut [u8],
) -> Evaluated
    requires { Asks (sort_of sort) pack.now places store.old top at levels × (4096 ≤ length out.old) }
    ensures { Gives (sort_of sort) pack.now places store.old store.new top at levels
        out.old out.new result }
{
    match sort {
        Sort::Language => language_term(pack, at, levels, places, store, top, out),
        Sort::Translation => translation_term(pack, at, levels, places, store, top, out),
    }
}

// An operand: its value is copied into the store, from top on; the answer says where it ends there.
#[cycle(binary_term_language_term_let_term_make_term_operand_operands_term_by_form_term_of_translation_term_unary_term)]
fn operand(
    sort: Sort,
    pack: &[u8],
    at: usize,
    levels: usize,
    places: Places,
    store: &mut [u8],
    top: usize,
    out: &mut [u8],
) -> Evaluated
    requires { Asks (sort_of sort) pack.now places store.old top at levels × (4096 ≤ length out.old) }
    ensures { GivesStored (sort_of sort) pack.now places store.old store.new top at levels
        out.old out.new result }
{
    let ended = term_of(sort, pack, at, levels, places, store, top, out)?;
    save(out, ended.value, store, top);
    Ok(Ended {
        value: top + ended.value,
        term: ended.term,
    })
}

// The two operands of the sign at `at`, left to right, one behind the other in the store.
#[cycle(binary_term_language_term_let_term_make_term_operand_operands_term_by_form_term_of_translation_term_unary_term)]
fn operands(
    first: Sort,
    second: Sort,
    pack: &[u8],
    at: usize,
    levels: usize,
    places: Places,
    store: &mut [u8],
    top: usize,
    out: &mut [u8],
) -> EvaluatedTwo
    requires { AsksTwo (sort_of first) (sort_of second) pack.now places store.old top at levels × (0 < levels) × (4096 ≤ length out.old) }
    ensures { GivesTwo (sort_of first) (sort_of second) pack.now places store.old store.new top at levels
        out.old out.new result }
{
    let below = levels - 1;
    let left = operand(first, pack, at + 1, below, places, store, top, out)?;
    let right = operand(
        second, pack, left.term, below, places, store, left.value, out,
    )?;
    Ok(EndedTwo {
        first: left.value,
        second: right.value,
        term: right.term,
    })
}

// An operator on two values: both operands, and then the operator.
#[cycle(binary_term_language_term_let_term_make_term_operand_operands_term_by_form_term_of_translation_term_unary_term)]
fn binary_term(
    operator: Binary,
    pack: &[u8],
    at: usize,
    levels: usize,
    places: Places,
    store: &mut [u8],
    top: usize,
    out: &mut [u8],
) -> Evaluated
    requires { Asks (first_sort operator) pack.now places store.old top at levels × (4096 ≤ length out.old) × (0 < levels) × (get_or pack.now at 0 ≡ binary_sign operator) }
    ensures { Gives (first_sort operator) pack.now places store.old store.new top at levels
        out.old out.new result }
{
    let first = first_sort(operator);
    let second = second_sort(operator);
    let both = operands(first, second, pack, at, levels, places, store, top, out)?;
    let operator = Operator::Two(operator);
    finish(
        apply(operator, pack, store, top, both.first, both.second, out),
        both.term,
    )
}

// An operator on one value: the operand, and then the operator.
#[cycle(binary_term_language_term_let_term_make_term_operand_operands_term_by_form_term_of_translation_term_unary_term)]
fn unary_term(
    operator: Unary,
    pack: &[u8],
    at: usize,
    levels: usize,
    places: Places,
    store: &mut [u8],
    top: usize,
    out: &mut [u8],
) -> Evaluated
    requires { Asks (unary_sort operator) pack.now places store.old top at levels × (4096 ≤ length out.old) × (0 < levels) × (get_or pack.now at 0 ≡ unary_sign operator) }
    ensures { Gives (unary_sort operator) pack.now places store.old store.new top at levels
        out.old out.new result }
{
    let sort = operand_sort(operator);
    let ended = operand(sort, pack, at + 1, levels - 1, places, store, top, out)?;
    let operator = Operator::One(operator);
    finish(
        apply(operator, pack, store, top, ended.value, ended.value, out),
        ended.term,
    )
}

// A translation of two languages and a body, whose number is behind them.
#[cycle(binary_term_language_term_let_term_make_term_operand_operands_term_by_form_term_of_translation_term_unary_term)]
fn make_term(
    pack: &[u8],
    at: usize,
    levels: usize,
    places: Places,
    store: &mut [u8],
    top: usize,
    out: &mut [u8],
) -> Evaluated
    requires { Asks translations pack.now places store.old top at levels × (4096 ≤ length out.old) × (0 < levels) × (get_or pack.now at 0 ≡ 0x50) }
    ensures { Gives translations pack.now places store.old store.new top at levels
        out.old out.new result }
{
    let sort = Sort::Language;
    let both = operands(sort, sort, pack, at, levels, places, store, top, out)?;
    let operator = Operator::Make(usize::from(byte_at(pack, both.term)));
    finish(
        apply(operator, pack, store, top, both.first, both.second, out),
        both.term + 1,
    )
}

// A let: the value of the first term is bound where it is in the store, and the second is evaluated with it.
#[cycle(binary_term_language_term_let_term_make_term_operand_operands_term_by_form_term_of_translation_term_unary_term)]
fn let_term(
    bound: Sort,
    sort: Sort,
    pack: &[u8],
    at: usize,
    levels: usize,
    places: Places,
    store: &mut [u8],
    top: usize,
    out: &mut [u8],
) -> Evaluated
    requires { Asks (sort_of sort) pack.now places store.old top at levels × (4096 ≤ length out.old) × (0 < levels) × (get_or pack.now at 0 ≡ bind_sign (sort_of bound) (sort_of sort)) }
    ensures { Gives (sort_of sort) pack.now places store.old store.new top at levels
        out.old out.new result }
{
    let below = levels - 1;
    let ended = operand(bound, pack, at + 2, below, places, store, top, out)?;
    let slot = slot_of(bound, usize::from(byte_at(pack, at + 1)));
    let inner = set_slot(places, slot, top + 1, ended.value);
    term_of(
        sort,
        pack,
        ended.term,
        below,
        inner,
        store,
        ended.value,
        out,
    )
}

// A term of the sort, by its form: what the signs of both sorts share.
#[cycle(binary_term_language_term_let_term_make_term_operand_operands_term_by_form_term_of_translation_term_unary_term)]
fn term_by_form(
    form: Form,
    sort: Sort,
    pack: &[u8],
    at: usize,
    levels: usize,
    places: Places,
    store: &mut [u8],
    top: usize,
    out: &mut [u8],
) -> Evaluated
    requires { Asks (sort_of sort) pack.now places store.old top at levels × (4096 ≤ length out.old) × (0 < levels) × Begins (sort_of sort) (get_or pack.now at 0) form }
    ensures { Gives (sort_of sort) pack.now places store.old store.new top at levels
        out.old out.new result }
{
    match form {
        Form::Constant => constant(pack, at, out),
        Form::Variable => variable(sort, pack, at, places, store, top, out),
        Form::One(o) => unary_term(o, pack, at, levels, places, store, top, out),
        Form::Two(o) => binary_term(o, pack, at, levels, places, store, top, out),
        Form::Make => make_term(pack, at, levels, places, store, top, out),
        Form::Let(bound) => let_term(bound, sort, pack, at, levels, places, store, top, out),
        Form::Unknown => Err(Reason::IllegalTerm),
    }
}

// A language term: the left column of the table.
#[cycle(binary_term_language_term_let_term_make_term_operand_operands_term_by_form_term_of_translation_term_unary_term)]
fn language_term(
    pack: &[u8],
    at: usize,
    levels: usize,
    places: Places,
    store: &mut [u8],
    top: usize,
    out: &mut [u8],
) -> Evaluated
    requires { Asks languages pack.now places store.old top at levels × (4096 ≤ length out.old) }
    ensures { Gives languages pack.now places store.old store.new top at levels
        out.old out.new result }
{
    if levels == 0 {
        return Err(Reason::IllegalTerm);
    }
    let sort = Sort::Language;
    let form = form_of(sort, byte_at(pack, at));
    term_by_form(form, sort, pack, at, levels, places, store, top, out)
}

// A translation term: the right column.
#[cycle(binary_term_language_term_let_term_make_term_operand_operands_term_by_form_term_of_translation_term_unary_term)]
pub fn translation_term(
    pack: &[u8],
    at: usize,
    levels: usize,
    places: Places,
    store: &mut [u8],
    top: usize,
    out: &mut [u8],
) -> Evaluated
    requires { Asks translations pack.now places store.old top at levels × (4096 ≤ length out.old) }
    ensures { Gives translations pack.now places store.old store.new top at levels
        out.old out.new result }
{
    if levels == 0 {
        return Err(Reason::IllegalTerm);
    }
    let sort = Sort::Translation;
    let form = form_of(sort, byte_at(pack, at));
    term_by_form(form, sort, pack, at, levels, places, store, top, out)
}
