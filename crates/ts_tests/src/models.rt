//! Each public call once: what is judged of a series, a program with its text, values over readings, and searches. All
//! was worked out by hand; what the commands print of models is in `examples/rows`.

ghost use Rattle.std.specs.Prelude.{IfSome};
ghost use Rattle.ts_model.specs.Promise.{IsWhole, KeepsLimits};
ghost use Rattle.ts_model.specs.Views.{model_parts};

use std::alloc::Global;
use ts_base::{Ext, Goal, Memory, Range};
use ts_certificate::Claim;
use ts_compile::{compile_model, judge, value_of, write_program};
use ts_model::{Model, Need, read_model};
use ts_monitor::Monitor;
use ts_search::{asked_by_list, list, solve};

/// The last cell of 1 3 3 2 2 1 4 lies outside its domain, and the second requirement doesn't hold.
static FALLS: &str =
    "cells 7\ncell 7 0..3\nterm c = count decreasing in 3..6\nterm d = count zigzag\nrequire c = 2\nrequire d > 0\n";

/// The program of a model with its first term alone.
static PROGRAM: &str = "term c sum one decreasing in 3..6\nforward\nstate s free\nstart 0 1 0\n\
    move s < s ; C ; D ; R\nmove s = s ; C ; D ; R\nmove s > s ; C ; 1 ; add R max max D 1 1\nfinish add R C same\n\
    end\nreverse\nstate s free\nstart 0 1 0\nmove s < s ; C ; 1 ; add R max max D 1 1\nmove s = s ; C ; D ; R\n\
    move s > s ; C ; D ; R\nfinish add R C same\nend\nglue 0 max 1\nend\n";

static WINDOWS: &str =
    "cells 7\nterm a = count peak\nterm b = count peak in 2..5\nterm c = count zigzag in 7\n";

static PEAKS: &str = "cells 3\ndomain 0..1\nterm c = count peak\nobjective c\n";

/// Level series meet both requirements, with any one cell changed too: a witness shows nearly all that is asked.
static HILLS: &str =
    "cells 8\ndomain 0..3\nterm p = count peak\nterm v = count valley\nrequire p <= 2\n\
    require v <= 2\n";

/// A climb stays one when its end is raised, and ends when that is lowered too far: a witness shows of single values,
/// not of whole cells, that they aren't dropped.
static CLIMBS: &str = "cells 4\ndomain 0..99\nterm c = count increasing\nrequire c >= 2\n";

/// The model of a text; in the tests each is short.
fn model_of(alloc: Global, text: &str, need: Need) -> Option<Model>
    ensures whole { IfSome result (λ m. IsWhole (model_parts m)) }
    ensures limits { IfSome result (λ m. KeepsLimits need (model_parts m)) }
{
    if 1000 < text.len() {
        return None;
    }
    read_model(alloc, text.as_bytes(), need).ok()
}

fn is_judged(alloc: Global) -> Result<bool, Memory> {
    let Some(model) = model_of(alloc, FALLS, Need::Values) else {
        return Ok(false);
    };
    if model.cells.len() != 7 || model.terms.len() != 2 {
        return Ok(false);
    }
    let judgement = judge(alloc, &model, &[1, 3, 3, 2, 2, 1, 4])?;
    Ok(
        judgement.inside.as_slice() == [true, true, true, true, true, true, false].as_slice()
            && judgement.holding.as_slice() == [true, false].as_slice()
            && judgement.values.as_slice() == [Ext::Int(2), Ext::Int(0)].as_slice()
            && !judgement.meets()
            && value_of(alloc, &model, 0, &[1, 3, 3, 2, 2, 1, 4])? == Ext::Int(2),
    )
}

fn has_program(alloc: Global) -> Result<bool, Memory> {
    let Some(model) = model_of(
        alloc,
        "cells 7\nterm c = count decreasing in 3..6\n",
        Need::Values,
    ) else {
        return Ok(false);
    };
    let program = compile_model(alloc, &model)?;
    let written = write_program(alloc, &model, &program)?;
    Ok(program.machines().len() == 1 && written.as_slice() == PROGRAM.as_bytes())
}

fn has_windows(alloc: Global) -> Result<bool, Memory> {
    let Some(model) = model_of(alloc, WINDOWS, Need::Values) else {
        return Ok(false);
    };
    let program = compile_model(alloc, &model)?;
    match program.machines() {
        [a, b, c] => Ok(
            a.window().is_none()
                && b.window() == Some(Range { first: 2, last: 5 })
                && c.window() == Some(Range { first: 7, last: 7 }),
        ),
        _ => Ok(false),
    }
}

#[test]
fn judgements_and_programs(rt: HostRuntime) {
    assert!(rt; is_judged(rt.alloc()) == Ok(true));
    assert!(rt; has_program(rt.alloc()) == Ok(true));
    assert!(rt; has_windows(rt.alloc()) == Ok(true));
}

/// The peaks after each of the readings 0 1 0; none where no monitor was made.
#[tactic(auto, using(ts_compile::proofs::Over::looks_at_all))]
fn peaks_so_far(alloc: Global) -> Result<Vec<Ext>, Memory> {
    let mut values = Vec::new(alloc);
    let Some(model) = model_of(alloc, PEAKS, Need::Values) else {
        return Ok(values);
    };
    if model.has_window() {
        return Ok(values);
    }
    let mut monitor = Monitor::new(alloc, compile_model(alloc, &model)?)?;
    for reading in [0, 1, 0] {
        if monitor.count() < 100_000 {
            monitor.take(reading);
        }
        if 1 <= monitor.count() && monitor.terms() == 1 {
            values.push(monitor.value(0))?;
        }
    }
    Ok(values)
}

fn has_values(alloc: Global) -> Result<bool, Memory> {
    let values = peaks_so_far(alloc)?;
    Ok(values.as_slice() == [Ext::Int(0), Ext::Int(0), Ext::Int(1)].as_slice())
}

#[test]
fn values_after_each_reading(rt: HostRuntime) {
    assert!(rt; has_values(rt.alloc()) == Ok(true));
}

/// Whether the claim is the best value, with its only series, after seven lines.
fn is_solved(alloc: Global) -> Option<bool> {
    let model = model_of(alloc, PEAKS, Need::Best)?;
    let program = compile_model(alloc, &model).ok()?;
    let certificate = solve(alloc, &model, &program, Goal::Maximise, 100_000).ok()?;
    match certificate.series.as_slice() {
        [only] => Some(
            only.as_slice() == [0, 1, 0].as_slice()
                && certificate.claim == Claim::Best(Ext::Int(1))
                && certificate.tree.len() == 7,
        ),
        _ => None,
    }
}

/// Whether the listing has the first two series.
fn is_listed(alloc: Global) -> Option<bool> {
    let model = model_of(alloc, PEAKS, Need::List)?;
    let program = compile_model(alloc, &model).ok()?;
    let certificate = list(alloc, &model, &program, 2, 100_000).ok()?;
    match certificate.series.as_slice() {
        [first, second] => Some(
            first.as_slice() == [0, 0, 0].as_slice()
                && second.as_slice() == [0, 0, 1].as_slice()
                && certificate.claim == Claim::Full(2),
        ),
        _ => None,
    }
}

#[test]
fn searches(rt: HostRuntime) {
    assert!(rt; is_solved(rt.alloc()) == Some(true));
    assert!(rt; is_listed(rt.alloc()) == Some(true));
}

/// How many questions the first 20 series of a model cost the tables, and about how many values spans are asked whether
/// they are dropped, in all, with witnesses or without.
fn asked_of_tables(alloc: Global, text: &str, witnessed: bool) -> Option<u64> {
    let model = model_of(alloc, text, Need::List)?;
    let program = compile_model(alloc, &model).ok()?;
    asked_by_list(alloc, &model, &program, 20, 100_000, witnessed).ok()
}

/// Whether witnesses leave less than one in `many` of these questions.
fn are_spared(alloc: Global, text: &str, many: u64) -> Option<bool> {
    let asked = asked_of_tables(alloc, text, true)?;
    let without = asked_of_tables(alloc, text, false)?;
    Some(asked.saturating_mul(many) < without)
}

/// Answers are the same with witnesses that aren't used, so only this shows it. For the hills 24 of 1,032 are left; at
/// least 152 if witnesses spare no cell that drops are looked for in, at least 448 if they spare only such cells. For
/// the climbs 355 of 4,810 are left; 2,540 if witnesses are never asked about single values. So the choice of witnesses
/// may change, but none of the three may be lost.
#[test]
fn questions_that_witnesses_spare(rt: HostRuntime) {
    assert!(rt; are_spared(rt.alloc(), HILLS, 10) == Some(true));
    assert!(rt; are_spared(rt.alloc(), CLIMBS, 5) == Some(true));
}
