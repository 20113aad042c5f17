// The walk that reads a plan and works out the two ends of its score. A fixed plan is one whose ends are equal.
ghost use Rattle.std.specs.Prelude.{◌≡◌, List, ℕ, true, ◌+◌, ◌-◌, ◌<◌, ◌≤◌, length, get_or, set, drop, take, ℤ, pos, ◌+ℤ◌};
ghost use Rattle.std.proofs.Math.Option.{some};
ghost use Rattle.format_language.specs.Language.{Language};
ghost use Rattle.format_language.specs.Inner.Entries.{IsClass, class_range};
ghost use Rattle.score_tree.specs.Linear.{Loads};
ghost use Rattle.score_tree.specs.Inner.Kept.{Small};
ghost use Rattle.score_tree.specs.Inner.Sums.{ends, low, high, weighed, AllNear};
ghost use Rattle.score_tree.specs.Inner.Terms.{World};
ghost use Rattle.score_tree.specs.Inner.Spreads.{token_size, read_values, read_operands, read_spread};
ghost use Rattle.score_tree.specs.Inner.Walks.{bounds, tested_at, Says, NearEnds, NearBounds, RowAsks};

use crate::figures::{Ends, is_score, weigh};
use crate::loaded::Loaded;
use format_fields::bytes::pair_in;
use format_language::entries::ARGUMENTS;
use format_language::range::in_range;
use tree_reader::node::{ReadError, place_at};
use tree_reader::operands::{first_operand, operand_count, production_key};

// What the tokens of a plan hold: one value, which is both ends, or the least value and then the greatest.
#[derive(Clone, Copy, Debug, PartialEq, Eq)]
pub enum Tokens {
    Fixed,
    Loose,
}

// A plan that was read: the ends of its score, none where an end of some node's score is out of the range, and where the plan ends.
#[derive(Clone, Copy, Debug, PartialEq, Eq)]
pub struct Bounds {
    pub ends: Option<Ends>,
    pub end: usize,
}

// How many bytes a token has.
fn token_size(tokens: Tokens) -> usize
    ensures { result ≡ token_size tokens }
{
    match tokens {
        Tokens::Fixed => 2,
        Tokens::Loose => 4,
    }
}

// The two values of a token as ends, and where the token ends.
fn token_bounds(least: usize, greatest: usize, end: usize) -> Bounds
    requires { (least < 65536) × (greatest < 65536) }
    ensures { (result ≡ bounds true (pos least) (pos greatest) end) × NearEnds result.ends }
{
    let ends = Ends {
        least: least as i64,
        greatest: greatest as i64,
    };
    Bounds {
        ends: Some(ends),
        end,
    }
}

// A token of the class whose field stands before `class`: its first value is the least, its last the greatest. A fixed one has but
// one value, which is read and tested once.
#[inline(always)]
fn token_ends(
    language: &[u8],
    class: usize,
    tokens: Tokens,
    bytes: &[u8],
    at: usize,
) -> Result<Bounds, ReadError>
    requires { (at ≤ length bytes.now) × (0 < class) × IsClass language.now (class - 1) }
    ensures { Says bytes.now (read_values tokens (class_range language.now (class - 1)) (drop at bytes.now)) result × NearBounds result }
{
    let size = token_size(tokens);
    if bytes.len() - at < size {
        return Err(ReadError::Broken);
    }
    let end = at + size;
    let least = pair_in(bytes, at);
    if !in_range(language, class - 1, least) {
        return Err(ReadError::Broken);
    }
    if let Tokens::Fixed = tokens {
        return Ok(token_bounds(least, least, end));
    }
    let greatest = pair_in(bytes, end - 2);
    if !in_range(language, class - 1, greatest) {
        return Err(ReadError::Broken);
    }
    if greatest < least {
        return Err(ReadError::Broken);
    }
    Ok(token_bounds(least, greatest, end))
}

// The ends of the plan of a kind at a position, with so many levels left; a token is no level.
#[cycle(ends_at_node_ends)]
#[inline(always)]
pub fn ends_at(
    loaded: &Loaded,
    tokens: Tokens,
    kind: u8,
    bytes: &[u8],
    at: usize,
    levels: usize,
) -> Result<Bounds, ReadError>
    requires { (kind < 32) × (at ≤ length bytes.now) × ((l : Language) × (w : Loads) × World loaded.now.language.now loaded.now.index.now loaded.now.figures.now l w) }
    ensures is { (l : Language) (w : Loads) → World loaded.now.language.now loaded.now.index.now loaded.now.figures.now l w
        → Says bytes.now (read_spread tokens l w levels kind (drop at bytes.now)) result }
    ensures near { NearBounds result }
{
    let class = place_at(loaded.index, usize::from(kind));
    if class != 0 {
        return token_ends(loaded.language, class, tokens, bytes, at);
    }
    if levels == 0 {
        return Err(ReadError::Deep);
    }
    if bytes.len() <= at {
        return Err(ReadError::Broken);
    }
    let key = production_key(usize::from(kind), usize::from(bytes[at]));
    let production = place_at(loaded.index, key);
    if production == 0 {
        return Err(ReadError::Broken);
    }
    node_ends(loaded, tokens, production, bytes, at + 1, levels - 1)
}

// Puts the ends of an operand among those of its production. They are handed over one by one: a copy of both at once would wait for
// the two writes of the call that worked them out.
#[inline(never)]
fn put_ends(operands: &mut [Ends], i: usize, least: i64, greatest: i64)
    requires { i < length operands.old }
    ensures { operands.new ≡ set operands.old i (ends least greatest) }
{
    operands[i] = Ends { least, greatest };
}

// The ends of the production whose field stands before `production` in the language and whose operands stand at a position.
// An end that is out of the range is told once all is read.
#[cycle(ends_at_node_ends)]
#[inline(never)]
fn node_ends(
    loaded: &Loaded,
    tokens: Tokens,
    production: usize,
    bytes: &[u8],
    at: usize,
    levels: usize,
) -> Result<Bounds, ReadError>
    requires { (l : Language) × (w : Loads) × (k : ℕ) × (p : ℕ) × (ks : List ℕ) × RowAsks loaded.now production bytes.now at l w k p ks }
    ensures is { (l : Language) (w : Loads) (k p : ℕ) (ks : List ℕ) → RowAsks loaded.now production bytes.now at l w k p ks
        → Says bytes.now (read_operands (read_spread tokens l w levels) w k p (some ks) (drop at bytes.now)) result }
    ensures near { NearBounds result }
{
    let count = operand_count(loaded.language, production);
    let first = first_operand(production);
    let mut operands = [Ends {
        least: 0,
        greatest: 0,
    }; ARGUMENTS];
    let mut within = true;
    let mut to = at;
    for i in 0..count {
        let kind = loaded.language[first + i];
        let operand = ends_at(loaded, tokens, kind, bytes, to, levels)?;
        match operand.ends {
            Some(ends) => put_ends(&mut operands, i, ends.least, ends.greatest),
            None => within = false,
        }
        to = operand.end;
    }
    if !within {
        return Ok(Bounds {
            ends: None,
            end: to,
        });
    }
    Ok(sum_ends(loaded.figures, first, &operands[..count], to))
}

// The finished score of a production whose first factor is the figure at `first`, from both ends of its operands: the constant
// stands in front of the factors.
fn sum_ends(figures: &[i32], first: usize, operands: &[Ends], end: usize) -> Bounds
    requires { (0 < first) × (first + length operands.now ≤ 1024) × (length figures.now ≡ 1024) × (length operands.now ≤ 8) × Small figures.now × AllNear operands.now }
    ensures { (result ≡ tested_at (get_or figures.now (first - 1) (pos 0) +ℤ weighed low high (take (length operands.now) (drop first figures.now)) operands.now)
        (get_or figures.now (first - 1) (pos 0) +ℤ weighed high low (take (length operands.now) (drop first figures.now)) operands.now) end) × NearEnds result.ends }
{
    let constant = i64::from(figures[first - 1]);
    let factors = &figures[first..first + operands.len()];
    finished(weigh(constant, factors, operands), end)
}

// A finished score, tested at both ends, and where its plan ends.
fn finished(ends: Ends, end: usize) -> Bounds
    ensures { (result ≡ tested_at ends.least ends.greatest end) × NearEnds result.ends }
{
    if !is_score(ends.least) {
        return Bounds { ends: None, end };
    }
    if !is_score(ends.greatest) {
        return Bounds { ends: None, end };
    }
    Bounds {
        ends: Some(ends),
        end,
    }
}
