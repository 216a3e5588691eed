//! What is sought: the best series of a contest, or the first series of a problem in order.

ghost use Rattle.std.specs.Prelude.{◌≡◌, IfOk, OnOk};
ghost use Rattle.ts_search.specs.LineOf.{line_of};
ghost use Rattle.ts_search.specs.Posed.{MayBring, MaySeek};
ghost use Rattle.ts_search.specs.Shown.{AreHeld};
ghost use Rattle.ts_search.specs.Views.{problem_of, sought_of};

use crate::contest::Contest;
use crate::found::FoundSeries;
use crate::line::{listing_line, solve_line};
use crate::problem::Problem;
use crate::witnesses::Witnesses;
use std::alloc::Global;
use ts_base::Memory;
use ts_certificate::TreeLine;
use ts_domain::Boxed;
use ts_filter::AllTables;

/// The best series, with the incumbent, if there is one; or the first series in order.
#[derive(Clone, Copy)]
pub(crate) enum Seeking<'a> {
    Best(&'a Contest<'a>, &'a Option<FoundSeries>),
    First(&'a Problem<'a>),
}

impl<'a> Seeking<'a> {
    /// The problem whose series are sought.
    pub(crate) fn problem(&self) -> &Problem<'a>
        ensures { result.now ≡ problem_of self.now }
    {
        match self {
            Seeking::Best(contest, _) => &contest.problem,
            Seeking::First(problem) => problem,
        }
    }

    /// The line of a box. The tables and the witnesses are brought to it.
    pub(crate) fn line(
        &self,
        alloc: Global,
        tables: &mut AllTables<'_>,
        witnesses: &mut Witnesses<'_>,
        cells: &Boxed,
    ) -> Result<TreeLine, Memory>
        requires objective { MaySeek self.now }
        requires asked { MayBring (problem_of self.now) tables.old.machines cells.now.present }
        requires held { AreHeld (problem_of self.now) witnesses.old }
        ensures machines { tables.new.machines ≡ tables.old.machines }
        ensures held { OnOk result (AreHeld (problem_of self.now) witnesses.new) }
        ensures line { IfOk result (λ l. l ≡ line_of (sought_of self.now) cells.now.present) }
    {
        self.problem().bring_tables(alloc, tables, cells)?;
        witnesses.bring(self.problem(), cells);
        match self {
            Seeking::Best(contest, found) => {
                solve_line(alloc, contest, tables, witnesses, cells, found)
            }
            Seeking::First(problem) => listing_line(alloc, problem, tables, witnesses, cells),
        }
    }
}
