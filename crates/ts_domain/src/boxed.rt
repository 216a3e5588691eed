//! One domain per cell, with a trail that leads back to every earlier box.

ghost use Rattle.std.specs.Prelude.{◌≡◌, ◌≢◌, ◌-◌, ◌<◌, ◌≤◌, [], length, IfOk, OnOk, OnErr, Contains};
ghost use Rattle.ts_base.specs.Limits.{too_many};
ghost use Rattle.ts_domain.specs.Kept.{values_kept, values_up_to, values_above, values_without};
ghost use Rattle.ts_domain.specs.BoxSeries.{IsBox, IsCell, cell_of, box_with, back_to};
ghost use Rattle.ts_domain.specs.Trail.{before, BackFits};

use crate::domain::Domain;
use crate::keep::Keep;
use crate::marks::Node;
use std::alloc::Global;
use std::marker::Model;
use std::mem;
use ts_base::Memory;

/// A change: the place of the cell, and how its domain before comes back.
#[derive(Drop)]
struct Step {
    cell: u32,
    back: Back,
}

/// The domain before, or the value that was taken out and a node for it.
#[derive(Drop)]
enum Back {
    Whole(Domain),
    One(i64, Box<Node>),
}

/// One domain per cell, and the boxes before the present one. Contracts see the boxes, the present one last.
#[derive(Drop)]
pub struct Boxed {
    alloc: Global,
    cells: Vec<Domain>,
    trail: Vec<Step>,
}

impl Model for Boxed {
    ghost use Rattle.ts_domain.specs.BoxSeries.{Boxes};

    ghost Value = { Boxes };

    ghost use Rattle.ts_domain.specs.Trail.{earlier_boxes, StepsFit};

    ghost view = { λ b. record { earlier = earlier_boxes b.trail.items b.cells.items; present = b.cells.items } };

    ghost invariant = { λ b. StepsFit b.trail.items b.cells.items };
}

impl Boxed {
    /// The box of these domains, with no box before it.
    pub fn new(alloc: Global, cells: &[Domain]) -> Result<Boxed, Memory>
        requires { length cells.now < too_many }
        ensures { IfOk result (λ b. b ≡ record { earlier = []; present = cells.now }) }
    {
        let mut copies = Vec::new(alloc);
        for domain in cells {
            copies.reserve(1)?;
            copies.push_reserved(domain.try_clone()?);
        }
        Ok(Boxed {
            alloc,
            cells: copies,
            trail: Vec::new(alloc),
        })
    }

    /// The number of cells.
    pub fn cells(&self) -> u32
        ensures count { result ≡ length self.now.present }
        ensures domains { IsBox self.now.present }
    {
        self.cells.len() as u32
    }

    /// The domain of cell `k`, counted from 1, in the present box.
    pub fn cell(&self, k: u32) -> &Domain
        requires { IsCell k self.now }
        ensures { result.now ≡ cell_of k self.now }
    {
        &self.cells[k as usize - 1]
    }

    /// Leaves the values of cell `k` up to `t`; one of them has to be there. After `Memory` nothing has changed.
    pub fn keep_low(&mut self, k: u32, t: i64) -> Result<(), Memory>
        requires cell { IsCell k self.old }
        requires stays { values_up_to t (cell_of k self.old) ≢ [] }
        ensures ok { OnOk result (self.new ≡ box_with k (values_up_to t) self.old) }
        ensures err { OnErr result (self.new ≡ self.old) }
    {
        self.narrow(k, Keep::UpTo(t))
    }

    /// Leaves the values of cell `k` above `t`; one of them has to be there. After `Memory` nothing has changed.
    pub fn keep_high(&mut self, k: u32, t: i64) -> Result<(), Memory>
        requires cell { IsCell k self.old }
        requires stays { values_above t (cell_of k self.old) ≢ [] }
        ensures ok { OnOk result (self.new ≡ box_with k (values_above t) self.old) }
        ensures err { OnErr result (self.new ≡ self.old) }
    {
        self.narrow(k, Keep::Above(t))
    }

    /// Leaves all values of cell `k` but `v`; another one has to be there. After `Memory` nothing has changed.
    pub fn remove(&mut self, k: u32, v: i64) -> Result<(), Memory>
        requires cell { IsCell k self.old }
        requires stays { values_without v (cell_of k self.old) ≢ [] }
        ensures ok { OnOk result (self.new ≡ box_with k (values_without v) self.old) }
        ensures err { OnErr result (self.new ≡ self.old) }
    {
        match self.cell(k).but_end(v) {
            Some(keep) => self.narrow(k, keep),
            None if self.cell(k).contains(v) => self.take_out(k, v),
            None => self.narrow(k, Keep::AllBut(v)),
        }
    }

    /// The number of boxes before the present one, by which `undo` finds the present one again.
    pub fn mark(&self) -> usize
        ensures { result ≡ length self.now.earlier }
    {
        self.trail.len()
    }

    /// Goes back to the box at place `mark`, counted from 0 at the first one; the boxes after it are forgotten.
    pub fn undo(&mut self, mark: usize)
        requires { mark ≤ length self.old.earlier }
        ensures { self.new ≡ back_to mark self.old }
    {
        while self.mark() > mark {
            self.undo_one();
        }
    }
}

impl Boxed {
    /// One more box, in which cell `k` has the values that `keep` keeps; the memory is taken before the first change.
    fn narrow(&mut self, k: u32, keep: Keep) -> Result<(), Memory>
        requires cell { IsCell k self.old }
        requires stays { values_kept keep (cell_of k self.old) ≢ [] }
        ensures ok { OnOk result (self.new ≡ box_with k (values_kept keep) self.old) }
        ensures err { OnErr result (self.new ≡ self.old) }
    {
        let at = k - 1;
        self.trail.reserve(1)?;
        let left = self.cells[at as usize].kept(keep)?;
        let before = mem::replace(&mut self.cells[at as usize], left);
        self.trail.push_reserved(Step {
            cell: at,
            back: Back::Whole(before),
        });
        Ok(())
    }

    /// One more box, in which cell `k` has lost a value that it had.
    fn take_out(&mut self, k: u32, v: i64) -> Result<(), Memory>
        requires cell { IsCell k self.old }
        requires has { Contains (cell_of k self.old) v }
        requires stays { values_without v (cell_of k self.old) ≢ [] }
        ensures ok { OnOk result (self.new ≡ box_with k (values_without v) self.old) }
        ensures err { OnErr result (self.new ≡ self.old) }
    {
        let at = k - 1;
        self.trail.reserve(1)?;
        let node = Node::spare(self.alloc)?;
        let spare = Node::spare(self.alloc)?;
        let cell = &mut self.cells[at as usize];
        cell.flip(v, node);
        self.trail.push_reserved(Step {
            cell: at,
            back: Back::One(v, spare),
        });
        Ok(())
    }

    /// Back to the box before.
    fn undo_one(&mut self)
        requires { 0 < length self.old.earlier }
        ensures { self.new ≡ back_to (length self.old.earlier - 1) self.old }
    {
        if let Some(step) = self.trail.pop() {
            bring_back(&mut self.cells[step.cell as usize], step.back);
        }
    }
}

/// Puts a cell's domain before a change in the place of the one after it.
fn bring_back(cell: &mut Domain, back: Back)
    requires { BackFits back cell.old }
    ensures { cell.new ≡ before back cell.old }
{
    match back {
        Back::Whole(old) => drop(mem::replace(cell, old)),
        Back::One(v, node) => cell.flip(v, node),
    }
}
