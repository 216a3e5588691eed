//! Which cells of a box aren't as they were seen, and what that changes in a window.

ghost use Rattle.std.specs.Prelude.{◌≡◌, ◌++◌, ◌∷◌, ◌-◌, ◌<◌, List, [], IfOk, IfSome, OnOk, length};
ghost use Rattle.ts_bound.specs.Gone.{AreLost};
ghost use Rattle.ts_bound.specs.Others.{AreOthers, IsCovered, IsWidened};
ghost use Rattle.ts_bound.specs.declared.gone.Other.{Other as OtherCell};

use crate::gone::{Change, Gone, Other};
use crate::lost::gone_between;
use crate::two_cells::TwoCells;
use std::alloc::Global;
use ts_base::Memory;
use ts_domain::{Boxed, Domain};

/// The cells that may not be as they were seen. `lists` has memory for the values of one of them, before and now.
#[derive(Drop)]
pub struct Others {
    pub each: Vec<Other>,
    lists: TwoCells,
}

impl Others {
    /// No cells.
    pub fn none(alloc: Global) -> Others
        ensures { result.each.items ≡ [] }
    {
        Others {
            each: Vec::new(alloc),
            lists: TwoCells::empty(alloc),
        }
    }

    /// Finds the cells of the box that may not be as they were seen. Each cell is compared once.
    pub fn find(&mut self, seen: &[Domain], cells: &Boxed) -> Result<(), Memory>
        requires { length seen.now ≡ length cells.now.present }
        ensures { OnOk result (AreOthers self.new.each.items seen.now cells.now.present) }
    {
        self.each.clear();
        for at in 0..cells.cells() {
            let before = &seen[at as usize];
            let now = cells.cell(at + 1);
            if !before.is_same(now) {
                let gone = lost(&mut self.lists, before, now)?;
                self.each.push(Other {
                    at: at as usize,
                    gone,
                })?;
            }
        }
        Ok(())
    }

    /// What changes at the places from `from` up to `to`; none where all stays there.
    pub fn change_within(&self, from: usize, to: usize) -> Option<Change>
        ensures { IsCovered from to self.now.each.items result }
    {
        let mut change = None;
        for i in 0..self.each.len() {
            change = with_other(change, from, to, self.each[i]);
        }
        change
    }
}

/// Which values a cell has lost.
fn lost(lists: &mut TwoCells, before: &Domain, now: &Domain) -> Result<Option<Gone>, Memory>
    ensures { IfOk result (λ gone. AreLost gone before.now now.now) }
{
    if before.size() <= now.size() {
        return Ok(None);
    }
    lists.before.reset(before)?;
    lists.here.reset(now)?;
    Ok(gone_between(lists.before.lend().values, lists.here.lend().values))
}

/// What changes at the places from `from` up to `to`, with one cell more.
fn with_other(change: Option<Change>, from: usize, to: usize, other: Other) -> Option<Change>
    requires { IfSome change (λ c. c.count ≡ to - from) }
    ensures { (others : List OtherCell) → IsCovered from to others change →
        IsCovered from to (others ++ other ∷ []) result }
{
    if other.at < from || other.at >= to {
        return change;
    }
    let place = other.at - from;
    match change {
        None => Some(Change {
            first: place,
            last: place + 1,
            count: to - from,
            gone_first: other.gone,
            gone_last: other.gone,
        }),
        Some(c) => Some(widened(c, place, other.gone)),
    }
}

/// The change with one more place, at which these values are lost.
fn widened(c: Change, place: usize, gone: Option<Gone>) -> Change
    requires { place < c.count }
    ensures { IsWidened c place gone result }
{
    if place < c.first {
        return Change {
            first: place,
            last: c.last,
            count: c.count,
            gone_first: gone,
            gone_last: c.gone_last,
        };
    }
    if c.last <= place {
        return Change {
            first: c.first,
            last: place + 1,
            count: c.count,
            gone_first: c.gone_first,
            gone_last: gone,
        };
    }
    c
}
