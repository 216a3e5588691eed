//! The automaton of a transducer.

ghost use Rattle.std.specs.Prelude.{◌≡◌, ◌≤◌, IfOk, length, map};
ghost use Rattle.ts_automaton.specs.AutomatonRun.{HoldsMarkUpTo};
ghost use Rattle.ts_automaton.specs.Body.{node_of};
ghost use Rattle.ts_decorate.specs.Answers.{AnswersRanges, longest};
ghost use Rattle.ts_decorate.specs.Decoration.{decorated_body, nodes_made, state_names};
ghost use Rattle.ts_transducer.specs.Rows.{rows_of};

use crate::builder::Builder;
use crate::table;
use std::alloc::Global;
use ts_automaton::{Automaton, Expr, Regs, State};
use ts_base::{Ext, Memory};
use ts_pattern::{Aggregator, Feature};
use ts_transducer::{Row, Transducer};

/// The names of the states, in the order of the rows.
const STATE_NAMES: [u8; 8] = *b"srtuvwxy";

/// The automaton that answers the aggregate over the ranges of `t`, where `a` cells, 0 or 1, are left out at their end,
/// on every series of 1 to 100,000 cells from -1,000,000 to 1,000,000.
pub fn decorate(
    alloc: Global,
    t: &Transducer,
    a: u8,
    aggregator: Aggregator,
    feature: Feature,
) -> Result<Automaton, Memory>
    requires { a ≤ 1 }
    ensures body { IfOk result (λ m. m ≡ decorated_body (rows_of t.now) a aggregator feature) }
    ensures answer { IfOk result (λ m. AnswersRanges m (rows_of t.now) a aggregator feature) }
    ensures mark { IfOk result (λ m. HoldsMarkUpTo longest m) }
{
    let builder = Builder {
        alloc,
        a,
        aggregator,
        feature,
    };
    let states = states_of(&builder, t.rows())?;
    let none = aggregator.fold().default.value();
    let neutral = builder.whole().neutral().value();
    let low = builder.less().neutral().value();
    let start = Regs {
        c: none,
        e: Ext::Int(0),
        d: neutral,
        f: low,
        r: none,
    };
    let finish = builder.total()?;
    let wide = feature.less().is_some();
    Ok(Automaton::new(
        states,
        start,
        finish,
        table::mark(aggregator, feature),
        wide,
    )
    .unwrap())
}

/// The states of the rows, at most eight.
fn states_of(builder: &Builder, rows: &[Row]) -> Result<Vec<State>, Memory>
    requires { length rows.now ≤ 8 }
    ensures { IfOk result (λ states. map node_of states.items
        ≡ nodes_made builder.now.a builder.now.aggregator builder.now.feature state_names rows.now) }
{
    let mut states = Vec::new(builder.alloc);
    for k in 0..rows.len() {
        states.push(builder.state(STATE_NAMES[k], rows[k])?)?;
    }
    Ok(states)
}
