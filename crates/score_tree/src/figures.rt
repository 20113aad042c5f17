// Signed figures, and the sums that scores are made of.
ghost use Rattle.std.specs.Prelude.{◌≡◌, true, ◌+◌, ◌<◌, ◌≤◌, length, pos, nat_abs, ◌+ℤ◌, ◌*ℤ◌};
ghost use Rattle.score_tree.specs.Figures.{signed, figure_at, is_figure, is_score, unsigned};
ghost use Rattle.score_tree.specs.Inner.Kept.{Small};
ghost use Rattle.score_tree.specs.Inner.Sums.{turned, low, high, weighed, AllNear};

use format_fields::bytes::pair_in;

// The least and the greatest score.
#[derive(Clone, Copy, Debug, PartialEq, Eq)]
pub struct Ends {
    pub least: i64,
    pub greatest: i64,
}

// Two's complement of two bytes.
fn decode(n: usize) -> i32
    requires { n < 65536 }
    ensures { (result ≡ signed n) × (nat_abs result ≤ 32768) }
{
    i32::from((n as u16).cast_signed())
}

// The figure in the two bytes at a position of a table.
pub fn figure(table: &[u8], at: usize) -> i32
    requires { at + 1 < length table.now }
    ensures { (result ≡ figure_at table.now at) × (nat_abs result ≤ 32768) }
{
    decode(pair_in(table, at))
}

// Whether a number fits two bytes.
pub fn is_figure(z: i64) -> bool
    ensures { result ≡ is_figure z }
{
    (-32_768..=32_767).contains(&z)
}

// Whether a finished score is in the range.
pub fn is_score(z: i64) -> bool
    ensures { result ≡ is_score z }
{
    (-1_000_000_000..=1_000_000_000).contains(&z)
}

// The number that stands for a figure in two bytes.
pub fn encode(z: i64) -> u16
    requires { is_figure z ≡ true }
    ensures { (result ≡ unsigned z) × (result < 65536) }
{
    (z as i16).cast_unsigned()
}

// A sum and a factor times a score.
pub fn add_scaled(sum: i64, factor: i32, score: i64) -> i64
    requires { (nat_abs sum ≤ 40000000000000000) × (nat_abs factor ≤ 32768) × (nat_abs score ≤ 1000000000) }
    ensures { result ≡ sum +ℤ factor *ℤ score }
{
    sum + i64::from(factor) * score
}

// A sum and a factor times an end of an operand: a factor below 0 takes the other end.
fn add_end(sum: i64, factor: i32, same: i64, other: i64) -> i64
    requires { (nat_abs sum ≤ 40000000000000000) × (nat_abs factor ≤ 32768) × (nat_abs same ≤ 1000000000) × (nat_abs other ≤ 1000000000) }
    ensures { result ≡ sum +ℤ factor *ℤ turned factor same other }
{
    if factor < 0 {
        return add_scaled(sum, factor, other);
    }
    add_scaled(sum, factor, same)
}

// A constant and each factor times an end of its operand, added from the last to the first, at both ends: the one sum of plans,
// fixed and loose.
pub fn weigh(constant: i64, factors: &[i32], operands: &[Ends]) -> Ends
    requires { (nat_abs constant ≤ 32768) × (length factors.now ≡ length operands.now) × (length operands.now ≤ 8) × Small factors.now × AllNear operands.now }
    ensures { (result.least ≡ constant +ℤ weighed low high factors.now operands.now)
        × (result.greatest ≡ constant +ℤ weighed high low factors.now operands.now) }
{
    let mut least = constant;
    let mut greatest = constant;
    for i in (0..operands.len()).rev() {
        let factor = factors[i];
        let operand = operands[i];
        least = add_end(least, factor, operand.least, operand.greatest);
        greatest = add_end(greatest, factor, operand.greatest, operand.least);
    }
    Ends { least, greatest }
}
