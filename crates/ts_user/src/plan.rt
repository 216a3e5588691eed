//! The whole plan.

ghost use Rattle.std.specs.Prelude.{◌<◌, ◌≤◌, IfOk, IfErr, IsTrue, length};
ghost use Rattle.ts_regex.specs.Shape.{shape_of};
ghost use Rattle.ts_transducer.specs.Rows.{rows_of};
ghost use Rattle.ts_pattern.specs.Closed.{IsClosed};
ghost use Rattle.ts_pattern.specs.Plans.{plain_plan, is_plan_of};
ghost use Rattle.ts_validate.specs.Reaches.{against};
ghost use Rattle.ts_user.specs.BuildAnswers.{unplanned_of, values_of, IsListing, IsStop};
ghost use Rattle.ts_user.specs.Numbered.{HasResidualsOnce, IsNumbered};
ghost use Rattle.ts_user.specs.Listings.{IsListed, IsReady, IsWhole, signatures_of};

use crate::build_stop::BuildStop;
use crate::listing::Listing;
use std::alloc::Global;
use ts_pattern::{Pattern, Plan};
use ts_transducer::{Row, Transducer};

/// Lists all configurations that are reached.
fn list_all(alloc: Global, rows: &[Row], p: &Pattern) -> Result<Listing, BuildStop>
    ensures listed { IfOk result (λ t. IsListed (unplanned_of rows.now p.now) (shape_of p.now.regex) t) }
    ensures whole { IfOk result (λ t. IsWhole (unplanned_of rows.now p.now) (signatures_of t)) }
    ensures stop { IfErr result (λ e. IsStop (unplanned_of rows.now p.now) e) }
{
    let mut listing = Listing::new(alloc, rows, p)?;
    expand_all(alloc, &mut listing, rows, p)?;
    Ok(listing)
}

/// Takes the steps of each configuration that is listed, and of those that come in by them.
// A call of its own: a return out of a loop that owns the listing is hard to prove.
fn expand_all(
    alloc: Global,
    listing: &mut Listing,
    rows: &[Row],
    p: &Pattern,
) -> Result<(), BuildStop>
    requires listed { IsListed (unplanned_of rows.now p.now) (shape_of p.now.regex) listing.old }
    requires ready { IsReady (unplanned_of rows.now p.now) (signatures_of listing.old) 0 }
    ensures listed { IfOk result (λ _. IsListed (unplanned_of rows.now p.now) (shape_of p.now.regex) listing.new) }
    ensures whole { IfOk result (λ _. IsWhole (unplanned_of rows.now p.now) (signatures_of listing.new)) }
    ensures stop { IfErr result (λ e. IsStop (unplanned_of rows.now p.now) e) }
{
    let mut next = 0;
    while next < listing.configurations.len() {
        listing.expand(alloc, rows, p, next)?;
        next += 1;
    }
    Ok(())
}

/// The plan of a transducer for a pattern: the configurations, at most 512, in which the two can stand together, in the
/// order in which they are first reached from the start state, the steps of each listed one taken in turn on `<`, `=`
/// and `>`, and the residuals, each once, in the order in which they first stand. It is closed, so `validate` takes it.
///
/// Each step is checked before its configuration is listed. `Refused` comes exactly where a check fails before a 513th
/// configuration would be listed, and has the signature of the first such step; `TooMany` comes exactly where none
/// fails before (`laws::one_answer`). What a step is and what is checked, `validate` defines.
pub fn build_plan(alloc: Global, t: &Transducer, p: &Pattern) -> Result<Plan, BuildStop>
    ensures fits { IfOk result (λ plan. IsTrue (is_plan_of (shape_of p.now.regex) (plain_plan plan))) }
    ensures residuals { IfOk result (λ plan. length plan.residuals.items ≤ 262145) }
    ensures configurations { IfOk result (λ plan. length plan.configurations.items ≤ 512) }
    ensures closed { IfOk result (λ plan. IsClosed (against (rows_of t.now) p.now plan)) }
    ensures listed { IfOk result (λ plan.
        IsListing (unplanned_of (rows_of t.now) p.now) (values_of (rows_of t.now) p.now plan)) }
    ensures numbered { IfOk result (λ plan. IsNumbered plan) }
    ensures once { IfOk result (λ plan. HasResidualsOnce plan) }
    ensures stop { IfErr result (λ e. IsStop (unplanned_of (rows_of t.now) p.now) e) }
{
    let listing = list_all(alloc, t.rows(), p)?;
    Ok(listing.into_plan(alloc, p)?)
}
