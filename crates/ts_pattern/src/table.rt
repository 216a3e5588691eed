//! The expression and the trims of each pattern.
//!
//! A pattern and its mirror, in which `<` and `>` are exchanged, have one function with the letters as parameters.

ghost use Rattle.std.specs.Prelude.{◌≡◌, ◌≤◌, IfOk};
ghost use Rattle.ts_regex.specs.Shape.{shape_of, One, Cat, Alt, Star};
ghost use Rattle.ts_pattern.specs.PatternTable.{plus, sequence, terrace, turn, peak, plateau, proper_plateau};
ghost use Rattle.ts_pattern.specs.PatternTable.{slope, summit, alternation, dip, pattern_shape, pattern_b, pattern_a};
ghost use Rattle.ts_pattern.specs.Trims.{FitsTrims, HasLongWords};

use crate::name::PatternId;
use crate::pattern::Pattern;
use std::alloc::Global;
use ts_base::{Letter, Memory};
use ts_regex::{Regex, alt, cat, star};

/// The pattern of that name: its expression and trims.
/// Each of its words has at least `b + a` letters, and at least one; `b` is at most 2, and `a` at most 1.
#[tactic(auto, using(crate::proofs::LeastLength::of_the_table))]
pub fn pattern_by_id(alloc: Global, id: PatternId) -> Result<Pattern, Memory>
    ensures shape { IfOk result (λ p. shape_of p.regex ≡ pattern_shape id) }
    ensures before { IfOk result (λ p. p.b ≡ pattern_b id) }
    ensures after { IfOk result (λ p. p.a ≡ pattern_a id) }
    ensures long { IfOk result (λ p. HasLongWords (shape_of p.regex) p.b p.a) }
    ensures fits { IfOk result (λ p. FitsTrims (shape_of p.regex) p.b p.a) }
    ensures small_before { IfOk result (λ p. p.b ≤ 2) }
    ensures small_after { IfOk result (λ p. p.a ≤ 1) }
{
    Ok(Pattern {
        regex: expression(alloc, id)?,
        b: trim_before(id),
        a: trim_after(id),
    })
}

fn expression(alloc: Global, id: PatternId) -> Result<Regex, Memory>
    ensures { IfOk result (λ r. shape_of r ≡ pattern_shape id) }
{
    match id {
        PatternId::Increasing => Ok(Regex::One(Letter::Less)),
        PatternId::Decreasing => Ok(Regex::One(Letter::Greater)),
        PatternId::Steady => Ok(Regex::One(Letter::Equal)),
        PatternId::IncreasingSequence => sequence(alloc, Letter::Less),
        PatternId::DecreasingSequence => sequence(alloc, Letter::Greater),
        PatternId::StrictlyIncreasingSequence => plus(alloc, Letter::Less),
        PatternId::StrictlyDecreasingSequence => plus(alloc, Letter::Greater),
        PatternId::SteadySequence => plus(alloc, Letter::Equal),
        PatternId::IncreasingTerrace => terrace(alloc, Letter::Less),
        PatternId::DecreasingTerrace => terrace(alloc, Letter::Greater),
        PatternId::Inflexion => inflexion(alloc),
        PatternId::Peak => peak(alloc, Letter::Less, Letter::Greater),
        PatternId::Valley => peak(alloc, Letter::Greater, Letter::Less),
        PatternId::Plateau => plateau(alloc, Letter::Less, Letter::Greater),
        PatternId::Plain => plateau(alloc, Letter::Greater, Letter::Less),
        PatternId::ProperPlateau => proper_plateau(alloc, Letter::Less, Letter::Greater),
        PatternId::ProperPlain => proper_plateau(alloc, Letter::Greater, Letter::Less),
        PatternId::Summit => summit(alloc, Letter::Less, Letter::Greater),
        PatternId::Gorge => summit(alloc, Letter::Greater, Letter::Less),
        PatternId::Zigzag => zigzag(alloc),
        PatternId::DipOnIncreasingSequence => dip(alloc, Letter::Less, Letter::Greater),
        PatternId::BumpOnDecreasingSequence => dip(alloc, Letter::Greater, Letter::Less),
    }
}

fn trim_before(id: PatternId) -> u8
    ensures { result ≡ pattern_b id }
{
    match id {
        PatternId::Increasing
        | PatternId::Decreasing
        | PatternId::Steady
        | PatternId::IncreasingSequence
        | PatternId::DecreasingSequence
        | PatternId::StrictlyIncreasingSequence
        | PatternId::StrictlyDecreasingSequence
        | PatternId::SteadySequence => 0,
        PatternId::DipOnIncreasingSequence | PatternId::BumpOnDecreasingSequence => 2,
        _ => 1,
    }
}

/// How many cells an occurrence of that pattern leaves out at its end, 0 or 1. It costs no memory, unlike the pattern.
pub fn trim_after(id: PatternId) -> u8
    ensures value { result ≡ pattern_a id }
    ensures small { result ≤ 1 }
{
    match id {
        PatternId::Increasing
        | PatternId::Decreasing
        | PatternId::Steady
        | PatternId::IncreasingSequence
        | PatternId::DecreasingSequence
        | PatternId::StrictlyIncreasingSequence
        | PatternId::StrictlyDecreasingSequence
        | PatternId::SteadySequence => 0,
        _ => 1,
    }
}

// The expressions: `up` and `down` are `<` and `>`, or the other way round in a mirrored pattern.

/// The letter, once or more often.
fn plus(alloc: Global, letter: Letter) -> Result<Regex, Memory>
    ensures { IfOk result (λ r. shape_of r ≡ plus (One letter)) }
{
    cat(alloc, Regex::One(letter), star(alloc, Regex::One(letter))?)
}

/// Any number of the two letters.
fn any_of(alloc: Global, one: Letter, other: Letter) -> Result<Regex, Memory>
    ensures { IfOk result (λ r. shape_of r ≡ Star (Alt (One one) (One other))) }
{
    star(alloc, alt(alloc, Regex::One(one), Regex::One(other))?)
}

/// The first letter, the middle part, the last letter.
fn between(alloc: Global, first: Letter, middle: Regex, last: Letter) -> Result<Regex, Memory>
    ensures { IfOk result (λ r. shape_of r ≡
        Cat (One first) (Cat (shape_of middle) (One last))) }
{
    cat(
        alloc,
        Regex::One(first),
        cat(alloc, middle, Regex::One(last))?,
    )
}

/// up(up|=)*up|up
fn sequence(alloc: Global, up: Letter) -> Result<Regex, Memory>
    ensures { IfOk result (λ r. shape_of r ≡ sequence up) }
{
    let middle = any_of(alloc, up, Letter::Equal)?;
    alt(alloc, between(alloc, up, middle, up)?, Regex::One(up))
}

/// up=+up
fn terrace(alloc: Global, up: Letter) -> Result<Regex, Memory>
    ensures { IfOk result (λ r. shape_of r ≡ terrace up) }
{
    let middle = plus(alloc, Letter::Equal)?;
    between(alloc, up, middle, up)
}

/// up(up|=)*down
fn turn(alloc: Global, up: Letter, down: Letter) -> Result<Regex, Memory>
    ensures { IfOk result (λ r. shape_of r ≡ turn up down) }
{
    let middle = any_of(alloc, up, Letter::Equal)?;
    between(alloc, up, middle, down)
}

fn inflexion(alloc: Global) -> Result<Regex, Memory>
    ensures { IfOk result (λ r. shape_of r ≡ pattern_shape PatternId.Inflexion) }
{
    let rise = turn(alloc, Letter::Less, Letter::Greater)?;
    alt(alloc, rise, turn(alloc, Letter::Greater, Letter::Less)?)
}

/// up(=|up)*(down|=)*down
fn peak(alloc: Global, up: Letter, down: Letter) -> Result<Regex, Memory>
    ensures { IfOk result (λ r. shape_of r ≡ peak up down) }
{
    let ascent = any_of(alloc, Letter::Equal, up)?;
    let descent = any_of(alloc, down, Letter::Equal)?;
    cat(
        alloc,
        Regex::One(up),
        cat(alloc, ascent, cat(alloc, descent, Regex::One(down))?)?,
    )
}

/// up=*down
fn plateau(alloc: Global, up: Letter, down: Letter) -> Result<Regex, Memory>
    ensures { IfOk result (λ r. shape_of r ≡ plateau up down) }
{
    let middle = star(alloc, Regex::One(Letter::Equal))?;
    between(alloc, up, middle, down)
}

/// up=+down
fn proper_plateau(alloc: Global, up: Letter, down: Letter) -> Result<Regex, Memory>
    ensures { IfOk result (λ r. shape_of r ≡ proper_plateau up down) }
{
    let middle = plus(alloc, Letter::Equal)?;
    between(alloc, up, middle, down)
}

/// up|up(=|up)*up
fn slope(alloc: Global, up: Letter) -> Result<Regex, Memory>
    ensures { IfOk result (λ r. shape_of r ≡ slope up) }
{
    let middle = any_of(alloc, Letter::Equal, up)?;
    alt(alloc, Regex::One(up), between(alloc, up, middle, up)?)
}

/// (up|up(=|up)*up)(down|down(=|down)*down)
fn summit(alloc: Global, up: Letter, down: Letter) -> Result<Regex, Memory>
    ensures { IfOk result (λ r. shape_of r ≡ summit up down) }
{
    let ascent = slope(alloc, up)?;
    cat(alloc, ascent, slope(alloc, down)?)
}

/// (up down)+(up|up down)
fn alternation(alloc: Global, up: Letter, down: Letter) -> Result<Regex, Memory>
    ensures { IfOk result (λ r. shape_of r ≡ alternation up down) }
{
    let first = both(alloc, up, down)?;
    let pairs = cat(alloc, first, star(alloc, both(alloc, up, down)?)?)?;
    cat(
        alloc,
        pairs,
        alt(alloc, Regex::One(up), both(alloc, up, down)?)?,
    )
}

/// One letter, then the other.
fn both(alloc: Global, one: Letter, other: Letter) -> Result<Regex, Memory>
    ensures { IfOk result (λ r. shape_of r ≡ Cat (One one) (One other)) }
{
    cat(alloc, Regex::One(one), Regex::One(other))
}

fn zigzag(alloc: Global) -> Result<Regex, Memory>
    ensures { IfOk result (λ r. shape_of r ≡ pattern_shape PatternId.Zigzag) }
{
    let rise = alternation(alloc, Letter::Less, Letter::Greater)?;
    alt(
        alloc,
        rise,
        alternation(alloc, Letter::Greater, Letter::Less)?,
    )
}

/// up up down up up
fn dip(alloc: Global, up: Letter, down: Letter) -> Result<Regex, Memory>
    ensures { IfOk result (λ r. shape_of r ≡ dip up down) }
{
    let rest = between(alloc, down, Regex::One(up), up)?;
    cat(alloc, Regex::One(up), cat(alloc, Regex::One(up), rest)?)
}
