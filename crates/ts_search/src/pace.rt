//! How many lines to come are known, and when it may pay to find out.

ghost use Rattle.std.specs.Prelude.{◌≡◌, ◌<◌, ◌≤◌, ◌-◌, IfOk, IfSome, IsTrue, OnOk};
ghost use Rattle.ts_search.specs.Leaps.{AreSplits, ExcludesInside, splits_after};
ghost use Rattle.ts_search.specs.LineOf.{Sought, line_of};
ghost use Rattle.ts_search.specs.Posed.{MayBring, MaySeek};
ghost use Rattle.ts_search.specs.Shown.{AreHeld};
ghost use Rattle.ts_search.specs.Views.{problem_of, sought_of};

use crate::leap::leap;
use crate::seeking::Seeking;
use crate::witnesses::Witnesses;
use std::alloc::Global;
use ts_base::Memory;
use ts_certificate::TreeLine;
use ts_domain::Boxed;
use ts_filter::AllTables;
use ts_frontier::first_halving;

/// A leap goes down this many boxes at most.
const FARTHEST: u32 = 64;

/// A leap goes down this many boxes fewer than splits came one after the other: where few came, it costs more than it
/// spares.
const FEWER: u32 = 4;

/// Whether leaps may be made, how many lines to come are known to be splits, and how many splits came one after the
/// other.
#[derive(Clone, Copy)]
pub(crate) struct Pace {
    pub(crate) leaps: bool,
    pub(crate) ahead: u32,
    pub(crate) row: u32,
}

impl Pace {
    /// No line to come is known.
    pub(crate) fn new(leaps: bool) -> Pace
        ensures leaps { result.leaps ≡ leaps }
        ensures ahead { result.ahead ≡ 0 }
    {
        Pace {
            leaps,
            ahead: 0,
            row: 0,
        }
    }

    /// The line of a box: known by a leap, or asked for.
    pub(crate) fn line(
        &mut self,
        alloc: Global,
        seeking: &Seeking<'_>,
        tables: &mut AllTables<'_>,
        witnesses: &mut Witnesses<'_>,
        cells: &Boxed,
    ) -> Result<TreeLine, Memory>
        requires objective { MaySeek seeking.now }
        requires asked { MayBring (problem_of seeking.now) tables.old.machines cells.now.present }
        requires held { AreHeld (problem_of seeking.now) witnesses.old }
        requires inside { IsTrue self.old.leaps → ExcludesInside (sought_of seeking.now) }
        requires ahead { AreSplits (sought_of seeking.now) self.old.ahead cells.now.present }
        ensures machines { tables.new.machines ≡ tables.old.machines }
        ensures held { OnOk result (AreHeld (problem_of seeking.now) witnesses.new) }
        ensures leaps { self.new.leaps ≡ self.old.leaps }
        ensures ahead { OnOk result (AreSplits (sought_of seeking.now) self.new.ahead cells.now.present) }
        ensures line { IfOk result (λ l. l ≡ line_of (sought_of seeking.now) cells.now.present) }
    {
        let reach = self.reach();
        if reach > 0 {
            self.learn(leap(alloc, seeking, tables, witnesses, cells, reach)?);
        }
        if let Some(line) = self.known(cells) {
            return Ok(line);
        }
        seeking.line(alloc, tables, witnesses, cells)
    }

    /// How far down to leap; 0 where no leap is to be made.
    fn reach(&self) -> u32
        ensures may { 0 < result → IsTrue self.now.leaps }
        ensures few { result ≤ 64 }
    {
        if !self.leaps || self.ahead > 0 {
            return 0;
        }
        self.row.saturating_sub(FEWER).min(FARTHEST)
    }

    /// Notes how many lines a leap has made known. Where it made none known, the splits are counted anew.
    fn learn(&mut self, ahead: u32)
        ensures leaps { self.new.leaps ≡ self.old.leaps }
        ensures ahead { self.new.ahead ≡ ahead }
    {
        self.ahead = ahead;
        if ahead == 0 {
            self.row = 0;
        }
    }

    /// Notes that one more line is written.
    pub(crate) fn pass(&mut self, line: &TreeLine)
        ensures leaps { self.new.leaps ≡ self.old.leaps }
        ensures ahead { self.new.ahead ≡ self.old.ahead - 1 }
        ensures row { self.new.row ≡ splits_after line.now self.old.row }
    {
        self.ahead = self.ahead.saturating_sub(1);
        self.row = match line {
            TreeLine::Split { .. } => self.row.saturating_add(1),
            _ => 0,
        };
    }

    /// The line of the box, if it is known.
    fn known(&self, cells: &Boxed) -> Option<TreeLine>
        ensures { IfSome result (λ l. (q : Sought) → AreSplits q self.now.ahead cells.now.present →
            l ≡ line_of q cells.now.present) }
    {
        if self.ahead == 0 {
            return None;
        }
        match first_halving(cells) {
            Some(halving) => Some(TreeLine::Split {
                k: halving.cell,
                t: halving.at,
            }),
            None => None,
        }
    }
}
