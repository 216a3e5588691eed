//! What is looked at: a transducer's rows against a pattern, by a plan of it.

ghost use Rattle.std.specs.Prelude.{◌≡◌, ◌<◌, IsTrue, IfOk, length};
ghost use Rattle.ts_base.specs.Limits.{too_many};
ghost use Rattle.ts_regex.specs.Shape.{shape_of};
ghost use Rattle.ts_pattern.specs.Plans.{plain_plan, is_plan_of};
ghost use Rattle.ts_validate.specs.Numbers.{table_of};

use crate::knowledge::{Knowledge, know_all};
use crate::step::{Look, look_at};
use std::alloc::Global;
use ts_base::{Letter, Memory};
use ts_pattern::{Pattern, Plan};
use ts_transducer::Row;

/// Rows, a pattern and a plan of it, and what is known of each of the plan's residuals.
#[derive(Drop)]
pub struct Trial<'a> {
    pub rows: &'a [Row],
    pub pattern: &'a Pattern,
    pub plan: &'a Plan,
    pub table: Vec<Knowledge>,
    pub ghost fits: { IsTrue (is_plan_of (shape_of pattern.now.regex) (plain_plan plan.now)) },
    pub ghost known: { table.items ≡ table_of (plain_plan plan.now).residuals },
}

impl<'a> Trial<'a> {
    ghost use Rattle.ts_validate.specs.Reaches.{against, value_at, Sees};
    ghost use Rattle.ts_validate.specs.Trials.{subject_of};

    /// Looks up what is known of the plan's residuals.
    pub fn new(
        alloc: Global,
        rows: &'a [Row],
        pattern: &'a Pattern,
        plan: &'a Plan,
    ) -> Result<Trial<'a>, Memory>
        requires fits { IsTrue (is_plan_of (shape_of pattern.now.regex) (plain_plan plan.now)) }
        requires few { length plan.now.residuals.items < too_many }
        ensures { IfOk result (λ t. subject_of t ≡ against rows.now pattern.now plan.now) }
    {
        let table = know_all(alloc, plan.residuals.as_slice())?;
        Ok(Trial {
            rows,
            pattern,
            plan,
            table,
        })
    }

    /// The step of configuration `i` on a letter.
    pub fn look(&self, alloc: Global, i: usize, letter: Letter) -> Result<Look, Memory>
        requires { i < length self.now.plan.now.configurations.items }
        ensures { IfOk result (λ k. Sees (subject_of self.now) (value_at (subject_of self.now) i) letter k) }
    {
        let configurations = self.plan.configurations.as_slice();
        let here = &configurations[i];
        let table = self.table.as_slice();
        Ok(look_at(
            alloc,
            self.rows,
            table,
            self.pattern.b,
            configurations,
            here,
            letter,
        )?)
    }
}
