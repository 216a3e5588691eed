//! Small plans, worked out by hand: one is closed, and of the others each is refused at the configuration and the
//! letter where a check fails, mostly one check alone. And the plans of the seeds, which are closed.

mod starts;
mod steps;

use super::expressions::regex;
use arrayvec::ArrayVec;
use std::alloc::Global;
use ts_base::{Kind, Letter, Memory};
use ts_pattern::{Configuration, Live, Pattern, PatternId, Plan, Tag, pattern_by_id};
use ts_regex::{Regex, normal, residual};
use ts_seed::seed_by_id;
use ts_transducer::{Arrow, Phase, Row, Transducer};
use ts_validate::{ValidateStop, Validated, validate};

/// The kind of a state, and its moves on `<`, `=` and `>`.
pub(super) type State = (Kind, (Phase, u8), (Phase, u8), (Phase, u8));

/// The configuration and the letter at which a check fails, and the shortest signature that leads there.
type Failure = (u32, Letter, &'static str);

/// A pattern, a transducer, and a plan.
#[derive(Clone, Copy)]
struct Small {
    /// The expression, with `.` for a chain, `|` for a union and `*` for a star after their parts.
    pattern: &'static str,
    /// The trims before and after.
    b: u8,
    a: u8,
    rows: &'static [State],
    /// For each residual but the first, which is the whole pattern: the earlier one and the letter that leave it.
    residuals: &'static str,
    configurations: &'static str,
    /// Where a check fails; None where the plan is closed.
    refused: Option<Failure>,
}

fn arrow(written: (Phase, u8)) -> Arrow {
    let (phase, next) = written;
    Arrow { phase, next }
}

/// The transducer of at most eight states.
pub(super) fn transducer(states: &[State]) -> Option<Transducer> {
    let mut rows: ArrayVec<Row, 8> = ArrayVec::new();
    for &(kind, less, equal, greater) in states {
        if !rows.is_full() {
            rows.push(Row {
                kind,
                less: arrow(less),
                equal: arrow(equal),
                greater: arrow(greater),
            });
        }
    }
    Transducer::new(rows)
}

fn digit(byte: u8) -> u8 {
    byte.saturating_sub(b'0')
}

/// The letter of a sign; None for a digit.
fn letter_of(sign: u8) -> Option<Letter> {
    match sign {
        b'<' => Some(Letter::Less),
        b'=' => Some(Letter::Equal),
        b'>' => Some(Letter::Greater),
        _ => None,
    }
}

/// Takes in what a letter leaves of an earlier residual.
fn push_left(
    residuals: &mut Vec<Regex>,
    alloc: Global,
    from: u8,
    on: Letter,
) -> Result<(), Memory> {
    if let Some(earlier) = residuals.get(usize::from(from)) {
        let left = residual(alloc, earlier, on)?;
        residuals.push(left)?;
    }
    Ok(())
}

fn residuals(alloc: Global, whole: &Regex, written: &[u8]) -> Result<Vec<Regex>, Memory> {
    let mut residuals = Vec::new(alloc);
    residuals.push(normal(alloc, whole)?)?;
    let mut from = 0;
    for byte in written {
        match letter_of(*byte) {
            Some(letter) => push_left(&mut residuals, alloc, from, letter)?,
            None => from = digit(*byte),
        }
    }
    Ok(residuals)
}

/// The tag that stands after a residual's digit; None for a digit.
fn tag_of(letter: u8) -> Option<Tag> {
    match letter {
        b'y' => Some(Tag::Young(1)),
        b'u' => Some(Tag::Due),
        b'd' => Some(Tag::InD),
        b'c' => Some(Tag::InC),
        b'l' => Some(Tag::Loose),
        _ => None,
    }
}

/// The entries of a configuration.
fn live_of(alloc: Global, written: &[u8]) -> Result<Vec<Live>, Memory> {
    let mut live = Vec::new(alloc);
    let mut residual: u32 = 0;
    for byte in written {
        match tag_of(*byte) {
            Some(tag) => live.push(Live { residual, tag })?,
            None => residual = u32::from(digit(*byte)),
        }
    }
    Ok(live)
}

fn configuration(alloc: Global, written: &[u8]) -> Result<Configuration, Memory> {
    let live = live_of(alloc, written)?;
    let state = digit(*written.first().unwrap_or(&b'0'));
    Ok(Configuration { state, live })
}

/// The configurations that a text has, each a word: its state, and after it the residual and the tag of each entry.
pub(super) fn configurations(alloc: Global, written: &str) -> Result<Vec<Configuration>, Memory> {
    let mut configurations = Vec::new(alloc);
    for word in written.split_whitespace() {
        configurations.push(configuration(alloc, word.as_bytes())?)?;
    }
    Ok(configurations)
}

fn plan(alloc: Global, whole: &Regex, small: &Small) -> Result<Plan, Memory> {
    Ok(Plan {
        residuals: residuals(alloc, whole, small.residuals.as_bytes())?,
        configurations: configurations(alloc, small.configurations)?,
    })
}

fn pattern(alloc: Global, small: &Small) -> Result<Pattern, Memory> {
    Ok(Pattern {
        regex: regex(alloc, small.pattern.as_bytes())?,
        b: small.b,
        a: small.a,
    })
}

/// Whether what was validated has this many states and this pattern.
fn keeps(validated: &Validated, states: usize, pattern: &Pattern) -> bool {
    let kept = validated.pattern();
    validated.transducer().rows().len() == states
        && kept.regex.same(&pattern.regex)
        && kept.b == pattern.b
        && kept.a == pattern.a
}

fn are_signs(signature: &[Letter], signs: &[u8]) -> bool {
    if signature.len() != signs.len() {
        return false;
    }
    for k in 0..signs.len() {
        if letter_of(signs[k]) != Some(signature[k]) {
            return false;
        }
    }
    true
}

fn is_failure(stop: ValidateStop, failure: Failure) -> bool {
    let (at, on, by) = failure;
    match stop {
        ValidateStop::Refused {
            configuration,
            letter,
            signature,
        } => configuration == at && letter == on && are_signs(&signature, by.as_bytes()),
        ValidateStop::Memory => false,
    }
}

/// Whether a plan of the pattern is found closed, or refused, as its row says.
fn is_judged(
    alloc: Global,
    transducer: Transducer,
    pattern: &Pattern,
    plan: &Plan,
    refused: Option<Failure>,
) -> Result<bool, Memory> {
    let few = plan.residuals.len() < 1000 && plan.configurations.len() < 1000;
    if !few || !plan.is_of(alloc, pattern)? {
        return Ok(false);
    }
    let states = transducer.rows().len();
    match (validate(alloc, transducer, pattern, plan), refused) {
        (Ok(validated), None) => Ok(keeps(&validated, states, pattern)),
        (Err(stop), Some(failure)) => Ok(is_failure(stop, failure)),
        _ => Ok(false),
    }
}

fn small_holds(alloc: Global, small: &Small) -> Result<bool, Memory> {
    let pattern = pattern(alloc, small)?;
    let plan = plan(alloc, &pattern.regex, small)?;
    match transducer(small.rows) {
        Some(transducer) => is_judged(alloc, transducer, &pattern, &plan, small.refused),
        None => Ok(false),
    }
}

#[test]
fn plans_are_refused_where_a_check_fails(rt: HostRuntime) {
    for plans in [steps::plans(), starts::plans()] {
        for small in plans {
            assert!(rt;
                small_holds(rt.alloc(), small) == Ok(true),
                "{}",
                small.pattern
            );
        }
    }
}

/// Whether the plan of a seed is found closed.
fn seed_holds(alloc: Global, id: PatternId) -> Result<bool, Memory> {
    let pattern = pattern_by_id(alloc, id)?;
    let seed = seed_by_id(alloc, id)?;
    is_judged(alloc, seed.transducer, &pattern, &seed.plan, None)
}

#[test]
fn seeds_validate(rt: HostRuntime) {
    for id in PatternId::ALL {
        assert!(rt; seed_holds(rt.alloc(), id) == Ok(true), "{id:?}");
    }
}
