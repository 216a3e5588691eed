//! Whether a line keeps its rule after the lines before.

ghost use Rattle.std.specs.Prelude.{◌≡◌, [], ◌↔◌, IfOk, IsTrue, MatchOption, length};
ghost use Rattle.std.specs.List.{AllByRecursion};
ghost use Rattle.ts_base.specs.Limits.{IsCellValue};
ghost use Rattle.ts_certificate.specs.Seen.{line_seen};
ghost use Rattle.ts_filter.specs.Accepts.{AllReported, ClaimFits, SeriesFits};
ghost use Rattle.ts_filter.specs.Lines.{KeepsLine, KeepsTreeRule};
ghost use Rattle.ts_model.specs.Promise.{IsWhole};
ghost use Rattle.ts_model.specs.Views.{model_parts};
ghost use Rattle.ts_spans.specs.Machines.{spans_in};
ghost use Rattle.ts_checker.specs.Standings.{AreValues, MayStep, MayTake, stand_of};
ghost use Rattle.ts_checker.specs.Subjects.{AreSized, AreTables, series_of};

use crate::head::{aim_fits, all_reported, claim_fits, series_fits};
use crate::rules::keeps_rule;
use crate::standing::Standing;
use crate::subject::Head;
use std::alloc::Global;
use ts_base::Memory;
use ts_certificate::{Claim, Parsed, TreeLine};
use ts_filter::AllTables;
use ts_model::Model;

/// Whether the line keeps its rule; if so, it may be taken. The next box that waits is then the present one.
pub(crate) fn keeps_line(
    alloc: Global,
    model: &Model,
    tables: &mut AllTables<'_>,
    standing: &mut Standing,
    line: &Parsed,
) -> Result<bool, Memory>
    requires tables { AreTables (model_parts model.now) tables.old.machines }
    requires sized { AreSized (model_parts model.now) standing.old.frontier.boxes }
    requires values { AreValues line.now }
    ensures machines { tables.new.machines ≡ tables.old.machines }
    ensures same { stand_of standing.new ≡ stand_of standing.old }
    ensures keeps { IfOk result (λ keeps. IsTrue keeps
        ↔ KeepsLine (model_parts model.now) (spans_in (model_parts model.now)) (stand_of standing.old)
        (line_seen line.now)) }
    ensures may { IfOk result (λ keeps. IsTrue keeps → MayTake standing.new line.now) }
{
    match line {
        Parsed::Aim(aim) => Ok(aim_fits(model, *aim)),
        Parsed::Claim(claim) => Ok(keeps_claim(standing, *claim)),
        Parsed::Series(series) => keeps_series(alloc, model, standing, series),
        Parsed::Tree(line) => keeps_tree(alloc, model, tables, standing, *line),
        Parsed::End { .. } => Ok(keeps_end(standing)),
    }
}

/// Whether there is an aim, and the claim fits it.
fn keeps_claim(standing: &Standing, claim: Claim) -> bool
    ensures { IsTrue result ↔ MatchOption standing.now.aim ⊥ (λ aim. ClaimFits aim claim) }
{
    match standing.aim {
        Some(aim) => claim_fits(aim, claim),
        None => false,
    }
}

/// Whether there is a claim, and the series fits it after those before.
fn keeps_series(
    alloc: Global,
    model: &Model,
    standing: &Standing,
    series: &[i64],
) -> Result<bool, Memory>
    requires whole { IsWhole (model_parts model.now) }
    requires values { AllByRecursion IsCellValue series.now }
    ensures { IfOk result (λ keeps. IsTrue keeps ↔ MatchOption standing.now.claim ⊥
        (λ claim. SeriesFits (model_parts model.now) claim (series_of standing.now.series.items) series.now)) }
{
    match standing.claim {
        Some(claim) => series_fits(alloc, model, claim, &standing.series, series),
        None => Ok(false),
    }
}

/// Whether a box waits for the line, and there it keeps the rule of its form.
fn keeps_tree(
    alloc: Global,
    model: &Model,
    tables: &mut AllTables<'_>,
    standing: &mut Standing,
    line: TreeLine,
) -> Result<bool, Memory>
    requires tables { AreTables (model_parts model.now) tables.old.machines }
    requires sized { AreSized (model_parts model.now) standing.old.frontier.boxes }
    ensures machines { tables.new.machines ≡ tables.old.machines }
    ensures same { stand_of standing.new ≡ stand_of standing.old }
    ensures keeps { IfOk result (λ keeps. IsTrue keeps
        ↔ KeepsTreeRule (model_parts model.now) (spans_in (model_parts model.now)) standing.old.aim standing.old.claim
        (series_of standing.old.series.items) standing.old.frontier.boxes standing.old.reported line) }
    ensures may { IfOk result (λ keeps. IsTrue keeps → MayStep standing.new line) }
{
    let (Some(aim), Some(claim)) = (standing.aim, standing.claim) else {
        return Ok(false);
    };
    if !standing.frontier.advance()? {
        return Ok(false);
    }
    let head = Head {
        aim,
        claim,
        series: &standing.series,
        reported: standing.reported,
    };
    keeps_rule(
        alloc,
        model,
        tables,
        &head,
        standing.frontier.present(),
        line,
    )
}

/// Whether nothing waits, and in a listing each series had its `yes`.
fn keeps_end(standing: &Standing) -> bool
    ensures { IsTrue result ↔ MatchOption standing.now.aim ⊥ (λ aim. (standing.now.frontier.boxes ≡ [])
        × AllReported aim standing.now.reported (length (series_of standing.now.series.items))) }
{
    match standing.aim {
        Some(aim) => {
            standing.frontier.is_empty()
                && all_reported(aim, standing.reported, standing.series.len())
        }
        None => false,
    }
}
