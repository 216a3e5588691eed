//! Glued values and spans worked out from their definition, of registers that need stand after no series.
//!
//! A row is a term and, for each pair of a forward and a reverse state, what is glued there. A pattern has the states
//! of its seed, counted from 0. In zigzags no occurrence goes on between 0 and 1 or 2 and 0; between 1 and 4 neither
//! state is held, between 1 and 5 the reverse one, between 5 and 1 the forward one, between 5 and 5 both. A zigzag
//! leaves its last cell out, an increasing sequence doesn't.

ghost use Rattle.std.specs.Prelude.{IfSome};
ghost use Rattle.ts_automaton.specs.AutomatonRun.{Stands, standing_of};
ghost use Rattle.ts_automaton.specs.Kinds.{SpanHasKind};
ghost use Rattle.ts_automaton.specs.SpanRun.{HullStands, hull_standing};
ghost use Rattle.ts_automaton.specs.declared.kind.RegKind.TheVariants.{Int as Whole};

use crate::told::machines::plain;
use crate::told::written::{self, word};
use std::alloc::Global;
use std::test::Fail;
use ts_automaton::{At, Automaton, Hull, HullAt, Regs};
use ts_base::{Ext, Span};
use ts_compile::compile_term;
use ts_glue::{Machine, glue_span, glue_value};
use ts_pattern::{Term, aggregator_of, feature_of, pattern_of};

/// The cell is worth 9, or 1. The registers are such that each of them shows in a sum. Where both ends are written,
/// what is glued is a span.
static ROWS: &str = "\
sum width zigzag|0 1 407120|2 0 407120|1 4 400154|1 5 407154|5 1 400174|5 5 407174
sum surf zigzag|0 1 407120|2 0 407120|1 4 400162|1 5 407162|5 1 400182|5 5 407182
sum max zigzag|0 1 407120|2 0 407120|1 4 400150|1 5 407100|5 1 400150|5 5 407100
sum min zigzag|0 1 407120|2 0 407120|1 4 400103|1 5 400103|5 1 400103|5 5 400103
sum width increasing_sequence|0 1 407120|1 0 407120|1 1 407172
sum surf increasing_sequence|0 1 407120|1 0 407120|1 1 407164
sum max increasing_sequence|0 1 407120|1 0 407120|1 1 407100
sum min increasing_sequence|0 1 407120|1 0 407120|1 1 400103
min surf zigzag|0 1 20|2 0 20|1 4 62|1 5 100|5 1 82|5 5 100
min max zigzag|0 1 20|2 0 20|1 4 50|1 5 100|5 1 50|5 5 100
min min increasing_sequence|0 1 20|1 0 20|1 1 3
max surf zigzag|0 1 400000|2 0 400000|1 4 400000|1 5 400000|5 1 400000|5 5 400000
max width increasing_sequence|0 1 400000|1 0 400000|1 1 400000
max max zigzag|0 1 400000|2 0 400000|1 4 400000|1 5 400000|5 1 400000|5 5 400000
sum surf zigzag|0 1 407120:417755|2 0 407120:417755|1 4 400162:410201|1 5 407162:417801|5 1 400182:410226|5 5 407182:417826
sum min zigzag|0 1 407120:417755|2 0 407120:417755|1 4 400103:410134|1 5 400103:410134|5 1 400103:410134|5 5 400103:410134
sum surf increasing_sequence|0 1 407120:417755|1 0 407120:417755|1 1 407164:417808";

// The text behind a function, so that the proof of the test doesn't read it.
fn rows() -> &'static str {
    ROWS
}

/// What C, D and R are, of automata in which E and F are 0.
type Numbers = (i64, i64, i64);

const LEFT: Numbers = (20, 3, 100);

const RIGHT: Numbers = (7000, 50, 400_000);

// The upper ends, where registers are spans.
const UPPER_LEFT: Numbers = (25, 4, 130);

const UPPER_RIGHT: Numbers = (7600, 58, 410_000);

/// The machine of the term that a row begins with.
pub(crate) fn machine_of(alloc: Global, term: &str) -> Option<Machine> {
    let aggregator = aggregator_of(word(term, 0).as_bytes())?;
    let feature = feature_of(word(term, 1).as_bytes())?;
    let pattern = pattern_of(word(term, 2).as_bytes())?;
    compile_term(alloc, &Term::new(aggregator, feature, pattern)?).ok()
}

/// The state that a pair of a row names at a place.
fn state_at(pair: &str, place: usize) -> Option<u8> {
    word(pair, place).parse::<u8>().ok()
}

/// Where the automaton stands in a state with these registers. None where it has no such state.
#[tactic(auto, using(crate::proofs::Numbers::numbers_stand))]
fn standing(automaton: &Automaton, state: u8, registers: Numbers) -> Option<At>
    ensures { IfSome result (λ at. Stands automaton.now (standing_of at)) }
{
    if automaton.states() <= state {
        return None;
    }
    let (c, d, r) = registers;
    Some(At {
        state,
        regs: Regs {
            c: Ext::Int(c),
            e: Ext::Int(0),
            d: Ext::Int(d),
            f: Ext::Int(0),
            r: Ext::Int(r),
        },
    })
}

/// The span from one number to another. None where it holds no number.
fn span(lo: i64, hi: i64) -> Option<Span>
    ensures { IfSome result (SpanHasKind Whole) }
{
    if lo <= hi {
        Some(Span {
            lo: Ext::Int(lo),
            hi: Ext::Int(hi),
        })
    } else {
        None
    }
}

/// A state and its hull, each register from a lower number to an upper one; none where a register holds no number, or
/// there is no such state.
#[tactic(auto, using(crate::proofs::Numbers::spans_stand))]
fn standing_hull(automaton: &Automaton, state: u8, lower: Numbers, upper: Numbers) -> Option<HullAt>
    ensures { IfSome result (λ at. HullStands automaton.now (hull_standing at)) }
{
    if automaton.states() <= state {
        return None;
    }
    let (c, d, r) = (
        span(lower.0, upper.0)?,
        span(lower.1, upper.1)?,
        span(lower.2, upper.2)?,
    );
    let zero = span(0, 0)?;
    Some(HullAt {
        state,
        hull: Hull {
            c,
            e: zero,
            d,
            f: zero,
            r,
        },
    })
}

/// The value that is glued at a cell of value 9 in a pair of states.
#[tactic(auto, using(crate::proofs::Splits::split_is))]
fn value_at(machine: &Machine, pair: &str) -> Option<Ext> {
    let reverse = machine.reverse()?;
    let left = standing(machine.forward(), state_at(pair, 0)?, LEFT)?;
    let right = standing(reverse, state_at(pair, 1)?, RIGHT)?;
    Some(glue_value(machine, left, right, 9, 7))
}

#[tactic(auto, using(crate::proofs::Splits::split_is))]
fn span_at(machine: &Machine, pair: &str) -> Option<Span> {
    let reverse = machine.reverse()?;
    let left = standing_hull(machine.forward(), state_at(pair, 0)?, LEFT, UPPER_LEFT)?;
    let right = standing_hull(reverse, state_at(pair, 1)?, RIGHT, UPPER_RIGHT)?;
    Some(glue_span(machine, left, right, 9, 7))
}

/// Whether what is written of a pair is glued there.
fn pair_holds(machine: &Machine, pair: &str) -> bool {
    let written = word(pair, 2);
    let told = written::span(written, Ext::Int(0));
    if written.contains(':') {
        return told.is_some() && span_at(machine, pair) == told;
    }
    match value_at(machine, pair) {
        Some(value) => told == Some(Span::one(value)),
        None => false,
    }
}

fn pairs_hold(machine: &Machine, pairs: &str) -> bool {
    for pair in pairs.split('|') {
        if !pair_holds(machine, pair) {
            return false;
        }
    }
    true
}

fn row_holds(alloc: Global, row: &str) -> Option<bool> {
    let (term, pairs) = row.split_once('|')?;
    let machine = machine_of(alloc, term)?;
    Some(pairs_hold(&machine, pairs))
}

#[test]
fn values_and_spans_by_the_definition(rt: HostRuntime) {
    for row in rows().lines() {
        assert!(rt; row_holds(rt.alloc(), row) == Some(true), "{row}");
    }
}

#[test]
fn a_plain_machine_has_one_automaton(rt: HostRuntime) -> Result<(), Fail> {
    let machine = plain(rt.alloc(), "max_surf_rising")?;
    assert!(rt; machine.reverse().is_none() && machine.table().is_none());
    assert!(rt; machine.forward().states() == 2);
    Ok(())
}
