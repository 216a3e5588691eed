//! The waiting boxes, on one trail.

ghost use Rattle.std.specs.Prelude.{◌≡◌, ◌≢◌, [], ◌∷◌, length, true, false, IsTrue, ◌↔◌, IfOk, OnOk, OnErr};
ghost use Rattle.ts_domain.specs.Kept.{values_up_to, values_above, values_without};
ghost use Rattle.ts_filter.specs.Boxes.{HasCell, values_at};
ghost use Rattle.ts_frontier.specs.Waiting.{first, rest, after_split, after_remove, after_close};

use std::alloc::Global;
use std::marker::Model;
use ts_base::Memory;
use ts_domain::Boxed;

/// The upper side of a split: of the box at place `mark` of the trail, the values of cell `cell` above `above`.
#[derive(Clone, Copy)]
struct Upper {
    mark: usize,
    cell: u32,
    above: i64,
}

/// The boxes that wait for their line. Contracts see their list, the next one first, and whether that one is present.
#[derive(Drop)]
pub struct Frontier {
    boxed: Boxed,
    ready: bool,
    uppers: Vec<Upper>,
}

impl Model for Frontier {
    ghost use Rattle.ts_frontier.specs.Waiting.{Waiting};

    ghost Value = { Waiting };

    ghost use Rattle.std.specs.Prelude.{reverse};
    ghost use Rattle.ts_frontier.specs.Uppers.{waiting_of, UppersFit};

    ghost view = { λ f. waiting_of f.boxed f.ready (reverse f.uppers.items) };

    ghost invariant = { λ f. UppersFit f.boxed f.ready (reverse f.uppers.items) };
}

impl Frontier {
    /// The present box of `boxed` waits alone, and is present. What stands before it on the trail doesn't matter.
    pub fn new(alloc: Global, boxed: Boxed) -> Frontier
        ensures { result ≡ record { ready = true; boxes = boxed.present ∷ [] } }
    {
        Frontier {
            boxed,
            ready: true,
            uppers: Vec::new(alloc),
        }
    }

    /// How many boxes wait: the entries, and the present box.
    pub fn waiting(&self) -> u64
        ensures { result ≡ length self.now.boxes }
    {
        self.uppers.len() as u64 + u64::from(self.ready)
    }

    /// Whether no box waits.
    pub fn is_empty(&self) -> bool
        ensures { IsTrue result ↔ (self.now.boxes ≡ []) }
    {
        self.waiting() == 0
    }

    /// Makes the next box the present one, and answers whether there is one. After `Memory` nothing has changed.
    pub fn advance(&mut self) -> Result<bool, Memory>
        ensures same { self.new.boxes ≡ self.old.boxes }
        ensures ready { IfOk result (λ some. self.new.ready ≡ some) }
        ensures some { IfOk result (λ some. IsTrue some ↔ (self.old.boxes ≢ [])) }
        ensures err { OnErr result (self.new ≡ self.old) }
    {
        if self.ready {
            return Ok(true);
        }
        match self.uppers.last().copied() {
            None => Ok(false),
            Some(next) => {
                self.boxed.undo(next.mark);
                self.boxed.keep_high(next.cell, next.above)?;
                drop(self.uppers.pop());
                self.ready = true;
                Ok(true)
            }
        }
    }

    /// The present box.
    pub fn present(&self) -> &Boxed
        requires { IsTrue self.now.ready }
        ensures { self.now.boxes ≡ result.now.present ∷ rest self.now.boxes }
    {
        &self.boxed
    }

    /// The present box is replaced by its lower side, the values of cell `k` up to `t`; after it waits its upper side.
    /// Each side has to have a value. After `Memory` nothing has changed.
    pub(crate) fn split(&mut self, k: u32, t: i64) -> Result<(), Memory>
        requires ready { IsTrue self.old.ready }
        requires cell { HasCell k (first self.old.boxes) }
        requires low { values_up_to t (values_at k (first self.old.boxes)) ≢ [] }
        requires high { values_above t (values_at k (first self.old.boxes)) ≢ [] }
        ensures ok { OnOk result (self.new ≡ after_split k t self.old) }
        ensures err { OnErr result (self.new ≡ self.old) }
    {
        self.uppers.reserve(1)?;
        let mark = self.boxed.mark();
        self.boxed.keep_low(k, t)?;
        self.uppers.push_reserved(Upper {
            mark,
            cell: k,
            above: t,
        });
        Ok(())
    }

    /// Value `v` of cell `k` is taken from the present box; another one has to stay. After `Memory` nothing has
    /// changed.
    pub(crate) fn remove(&mut self, k: u32, v: i64) -> Result<(), Memory>
        requires ready { IsTrue self.old.ready }
        requires cell { HasCell k (first self.old.boxes) }
        requires stays { values_without v (values_at k (first self.old.boxes)) ≢ [] }
        ensures ok { OnOk result (self.new ≡ after_remove k v self.old) }
        ensures err { OnErr result (self.new ≡ self.old) }
    {
        self.boxed.remove(k, v)?;
        Ok(())
    }

    /// The present box is done, and the boxes after it wait. This takes no memory.
    pub(crate) fn close(&mut self)
        requires { IsTrue self.old.ready }
        ensures { self.new ≡ after_close self.old }
    {
        self.ready = false;
    }

    /// Removes all boxes that wait.
    pub fn clear(&mut self)
        ensures { self.new ≡ record { ready = false; boxes = [] } }
    {
        self.ready = false;
        self.uppers.clear();
    }
}
