//! The whole test: a transducer that a plan shows to find the occurrences of a pattern.

ghost use Rattle.std.specs.Prelude.{◌≡◌, ◌<◌, IsTrue, IfOk, IfErr, OnOk, length};
ghost use Rattle.ts_base.specs.Limits.{too_many};
ghost use Rattle.ts_regex.specs.Shape.{shape_of};
ghost use Rattle.ts_transducer.specs.Rows.{rows_of};
ghost use Rattle.ts_pattern.specs.Closed.{IsClosed};
ghost use Rattle.ts_pattern.specs.Plans.{plain_plan, is_plan_of};
ghost use Rattle.ts_pattern.specs.Valid.{IsValid};
ghost use Rattle.ts_validate.specs.Reaches.{against};
ghost use Rattle.ts_validate.specs.Validations.{transducer_of, pattern_of};
ghost use Rattle.ts_validate.specs.Refusals.{IsStop};

use crate::arrival::reach;
use crate::failure::first_failure;
use crate::stop::ValidateStop;
use crate::trial::Trial;
use crate::validated::Validated;
use std::alloc::Global;
use ts_pattern::{Pattern, Plan};
use ts_transducer::{Row, Transducer};

/// Whether each reached configuration of the plan meets the checks.
fn check(alloc: Global, rows: &[Row], p: &Pattern, plan: &Plan) -> Result<(), ValidateStop>
    requires fits { IsTrue (is_plan_of (shape_of p.now.regex) (plain_plan plan.now)) }
    requires residuals { length plan.now.residuals.items < too_many }
    requires configurations { length plan.now.configurations.items < too_many }
    ensures closed { OnOk result (IsClosed (against rows.now p.now plan.now)) }
    ensures refused { IfErr result (λ e. IsStop (against rows.now p.now plan.now) e) }
{
    let trial = Trial::new(alloc, rows, p, plan)?;
    let tour = reach(alloc, &trial)?;
    match first_failure(&tour) {
        None => Ok(()),
        Some(failure) => {
            let signature = tour.signature(alloc, failure.place)?;
            Err(ValidateStop::Refused {
                configuration: failure.configuration as u32,
                letter: failure.letter,
                signature,
            })
        }
    }
}

/// The transducer as one that finds the occurrences of the pattern. Ok exactly where each configuration of the
/// plan that is reached meets the six checks of Closed on each letter; else `Refused` names the reached
/// configuration with the least number at which a check fails, the first letter there in the order `<`, `=`,
/// `>`, and a signature that leads to it. The plan is one of this pattern, with fewer than 4,000,000,000
/// residuals and configurations.
pub fn validate(
    alloc: Global,
    t: Transducer,
    p: &Pattern,
    plan: &Plan,
) -> Result<Validated, ValidateStop>
    requires fits { IsTrue (is_plan_of (shape_of p.now.regex) (plain_plan plan.now)) }
    requires residuals { length plan.now.residuals.items < too_many }
    requires configurations { length plan.now.configurations.items < too_many }
    ensures closed { OnOk result (IsClosed (against (rows_of t) p.now plan.now)) }
    ensures valid { OnOk result (IsValid (rows_of t) (shape_of p.now.regex) p.now.b p.now.a) }
    ensures transducer { IfOk result (λ v. rows_of (transducer_of v) ≡ rows_of t) }
    ensures pattern { IfOk result (λ v. (shape_of (pattern_of v).regex ≡ shape_of p.now.regex)
        × ((pattern_of v).b ≡ p.now.b) × ((pattern_of v).a ≡ p.now.a)) }
    ensures refused { IfErr result (λ e. IsStop (against (rows_of t) p.now plan.now) e) }
{
    check(alloc, t.rows(), p, plan)?;
    let pattern = p.try_clone(alloc)?;
    Ok(Validated {
        transducer: t,
        pattern,
    })
}
