//! Where the lines of a certificate have led.

ghost use Rattle.std.specs.Prelude.{◌≡◌, ◌∷◌, [], None, OnErr, OnOk};
ghost use Rattle.ts_certificate.specs.Grammar.{SaysTree};
ghost use Rattle.ts_certificate.specs.Seen.{line_seen};
ghost use Rattle.ts_filter.specs.Lines.{stand_after};
ghost use Rattle.ts_checker.specs.Standings.{MayStep, MayTake, without_boxes, stand_of};

use std::alloc::Global;
use ts_base::Memory;
use ts_certificate::{Aim, Claim, Parsed, TreeLine};
use ts_domain::Boxed;
use ts_frontier::{Frontier, follow};

/// What the lines so far say, the boxes that wait for theirs, and how many `yes` lines there were.
#[derive(Drop)]
pub(crate) struct Standing {
    pub aim: Option<Aim>,
    pub claim: Option<Claim>,
    pub series: Vec<Vec<i64>>,
    pub frontier: Frontier,
    pub reported: usize,
}

impl Standing {
    /// Before the first line the model's box waits.
    pub(crate) fn new(alloc: Global, root: Boxed) -> Standing
        ensures { stand_of result
            ≡ record { aim = None; claim = None; series = []; waiting = root.present ∷ []; reported = 0 } }
    {
        Standing {
            aim: None,
            claim: None,
            series: Vec::new(alloc),
            frontier: Frontier::new(alloc, root),
            reported: 0,
        }
    }

    /// Takes a line that keeps its rule: what it says, and what it does to the waiting boxes.
    pub(crate) fn take(&mut self, line: Parsed) -> Result<(), Memory>
        requires { MayTake self.old line }
        ensures ok { OnOk result (stand_of self.new ≡ stand_after (stand_of self.old) (line_seen line)) }
        ensures err { OnErr result (stand_of self.new ≡ stand_of self.old) }
    {
        match line {
            Parsed::Aim(aim) => self.aim = Some(aim),
            Parsed::Claim(claim) => self.claim = Some(claim),
            Parsed::Series(series) => self.series.push(series)?,
            Parsed::Tree(line) => self.step(line)?,
            Parsed::End { .. } => {}
        }
        Ok(())
    }

    /// Removes all boxes that wait.
    pub(crate) fn clear(&mut self)
        ensures { stand_of self.new ≡ without_boxes (stand_of self.old) }
    {
        self.frontier.clear();
    }
}

impl Standing {
    /// Replaces the present box by the boxes that the line makes of it.
    fn step(&mut self, line: TreeLine) -> Result<(), Memory>
        requires { MayStep self.old line }
        ensures ok { OnOk result (stand_of self.new ≡ stand_after (stand_of self.old) (SaysTree line)) }
        ensures err { OnErr result (stand_of self.new ≡ stand_of self.old) }
    {
        follow(&mut self.frontier, &line)?;
        if line == TreeLine::Yes {
            self.reported += 1;
        }
        Ok(())
    }
}
