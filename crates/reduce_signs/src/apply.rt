// The operators on values that are in a store.
ghost use Rattle.std.specs.Prelude.{◌≤◌, length};
ghost use Rattle.std.proofs.Math.Seq.{slice};
ghost use Rattle.reduce_signs.specs.Inner.Values.{OperandOf, AppliedOne, OperandsOf, AppliedTwo, Makes, Made, Operands, Applied};

use crate::sorts::{Binary, Unary};
use format_pack::parts::body_at;
use outcome::Outcome;
use reduce_join::join::join;
use reduce_operators::identity::identity;
use reduce_operators::make::make;

// The operators: on one value, on two, and on two languages and the body of this number.
#[derive(Clone, Copy)]
pub enum Operator {
    One(Unary),
    Two(Binary),
    Make(usize),
}

// What an operator on one value gives.
fn apply_one(operator: Unary, a: &[u8], out: &mut [u8]) -> Outcome
    requires { OperandOf operator a.now × (4096 ≤ length out.old) }
    ensures { AppliedOne operator a.now out.old out.new result }
{
    match operator {
        Unary::Source => reduce_operators::copy::source(a, out),
        Unary::Target => reduce_operators::copy::target(a, out),
        Unary::Identity => identity(a, out),
    }
}

// What an operator on two values gives.
fn apply_two(operator: Binary, a: &[u8], b: &[u8], out: &mut [u8]) -> Outcome
    requires { OperandsOf operator a.now b.now × (4096 ≤ length out.old) }
    ensures { AppliedTwo operator a.now b.now out.old out.new result }
{
    match operator {
        Binary::LanguageWithout => reduce_operators::languages::without(a, b, out),
        Binary::LanguageSum => reduce_operators::languages::sum(a, b, out),
        Binary::TranslationWithout => reduce_operators::translations::without(a, b, out),
        Binary::TranslationSum => reduce_operators::translations::sum(a, b, out),
        Binary::Join => join(a, b, out),
    }
}

// The translation of two languages and a body of the pack, where it is well formed.
fn make_numbered(pack: &[u8], number: usize, a: &[u8], b: &[u8], out: &mut [u8]) -> Outcome
    requires { Makes pack.now number a.now b.now × (4096 ≤ length out.old) }
    ensures { Made pack.now number a.now b.now out.old out.new result }
{
    make(a, b, body_at(pack, number), out)
}

// What an operator gives of the values from start up to middle and from there up to end.
pub fn apply(
    operator: Operator,
    pack: &[u8],
    store: &[u8],
    start: usize,
    middle: usize,
    end: usize,
    out: &mut [u8],
) -> Outcome
    requires { Operands operator pack.now (slice start middle store.now) (slice middle end store.now)
        × (start ≤ middle) × (middle ≤ end) × (end ≤ length store.now) × (4096 ≤ length out.old) }
    ensures { Applied operator pack.now (slice start middle store.now) (slice middle end store.now)
        out.old out.new result }
{
    match operator {
        Operator::One(unary) => apply_one(unary, &store[start..middle], out),
        Operator::Two(binary) => apply_two(binary, &store[start..middle], &store[middle..end], out),
        Operator::Make(number) => {
            make_numbered(
                pack,
                number,
                &store[start..middle],
                &store[middle..end],
                out,
            )
        }
    }
}
