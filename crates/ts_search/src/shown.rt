//! A witness of a requirement, brought into one box after the other.

ghost use Rattle.std.specs.Prelude.{◌≡◌, ◌≤◌, ◌≤ℤ◌, ◌-◌, ℤ, [], Contains, IfOk, IsSome, IsTrue, Some};
ghost use Rattle.std.specs.Prelude.{false, true, get_or, length, slice_get};
ghost use Rattle.ts_automaton.specs.AutomatonRun.{answer};
ghost use Rattle.ts_base.specs.Limits.{IsCellValue, most_cells};
ghost use Rattle.ts_base.specs.Windows.{LooksInside, looked_at};
ghost use Rattle.ts_bound.specs.Looks.{count_looked, is_looked, place_in};
ghost use Rattle.ts_bound.specs.TermSpans.{LooksIn, automata_of};
ghost use Rattle.ts_domain.specs.BoxSeries.{InBox, IsBox};
ghost use Rattle.ts_glue.specs.Machines.{forward_of, pair_of, window_of};
ghost use Rattle.ts_model.specs.Compares.{compares};
ghost use Rattle.ts_model.specs.declared.model.Require.{Require};
ghost use Rattle.ts_search.specs.Shown.{IsHeld, Seats};
ghost use Rattle.ts_witness.specs.Laws.{IsKept};
ghost use Rattle.ts_witness.specs.Witnesses.{series_of};

use crate::nearest::nearest;
use std::alloc::Global;
use ts_base::{Memory, Range};
use ts_bound::ends;
use ts_domain::{Boxed, Domain};
use ts_filter::Answer;
use ts_glue::Machine;
use ts_model::Require;
use ts_witness::{Spared, Witness};

/// At how many cells of a box a series that doesn't meet its requirement is bettered: the first that have a choice.
const FEW: u32 = 4;

/// A series that doesn't meet its requirement is bettered on each of this many boxes, and then on one in this many.
const SOON: u32 = 8;

/// A series that doesn't meet its requirement is bettered at all cells that have a choice on the first box, and then on
/// one in this many.
const EACH: u32 = 32;

/// Nothing is known of any value.
pub(crate) const UNKNOWN: Answer = Answer {
    free: false,
    to: i64::MAX,
};

/// The machine of a requirement's term, a series of the cells that it looks at, what is known of other values of each
/// cell, whether the series is known to meet the requirement, and on how many boxes it hasn't since it last did.
#[derive(Drop)]
pub(crate) struct Shown<'a> {
    pub(crate) machine: &'a Machine,
    pub(crate) witness: Witness,
    pub(crate) spared: Spared<'a>,
    pub(crate) met: bool,
    pub(crate) failed: u32,
}

impl<'a> Shown<'a> {
    /// A series of the least values of these cells.
    pub(crate) fn new(
        alloc: Global,
        machine: &'a Machine,
        cells: &'a [Domain],
    ) -> Result<Shown<'a>, Memory>
        requires looks { LooksIn (automata_of machine.now) cells.now }
        requires domains { IsBox cells.now }
        ensures machine { IfOk result (λ s. s.machine.now ≡ machine.now) }
        ensures cells { IfOk result (λ s. s.spared.cells.now ≡ looked_at (window_of machine.now) cells.now) }
        ensures held { IfOk result (λ s. (r : Require) → IsHeld r s) }
        ensures count { IfOk result (λ s. length (series_of s.witness)
            ≡ length (looked_at (window_of machine.now) cells.now)) }
    {
        let own = looked_at(machine.window(), cells);
        let mut series = Vec::new(alloc);
        for domain in own {
            series.push(domain.least())?;
        }
        let witness = Witness::new(alloc, machine, series)?;
        let spared = Spared::new(alloc, machine, own)?;
        Ok(Shown {
            machine,
            witness,
            spared,
            met: false,
            failed: 0,
        })
    }

    /// Brings the series into the box: each value that isn't in its domain gives way to one that is. Where it doesn't
    /// meet the requirement then, it is bettered.
    pub(crate) fn bring(&mut self, r: &Require, cells: &Boxed)
        requires held { IsHeld r.now self.old }
        requires looks { LooksIn (automata_of self.old.machine.now) cells.now.present }
        requires some { 1 ≤ length cells.now.present }
        requires few { length cells.now.present ≤ most_cells }
        requires count { length (series_of self.old.witness)
            ≡ length (looked_at (window_of self.old.machine.now) cells.now.present) }
        ensures machine { self.new.machine ≡ self.old.machine }
        ensures cells { self.new.spared.cells ≡ self.old.spared.cells }
        ensures held { IsHeld r.now self.new }
        ensures inside { InBox (series_of self.new.witness)
            (looked_at (window_of self.old.machine.now) cells.now.present) }
    {
        self.seat_all(r, cells);
        self.judge(r);
        if self.met || self.machine.reverse().is_none() {
            self.failed = 0;
            return;
        }
        let most = cells_to_better(self.failed);
        self.failed = self.failed.saturating_add(1);
        if most == 0 {
            return;
        }
        self.climb(r, cells, most);
        self.judge(r);
    }

    /// Puts values of the box wherever the series has none.
    fn seat_all(&mut self, r: &Require, cells: &Boxed)
        requires held { IsHeld r.now self.old }
        requires looks { LooksIn (automata_of self.old.machine.now) cells.now.present }
        requires few { length cells.now.present ≤ most_cells }
        requires count { length (series_of self.old.witness)
            ≡ length (looked_at (window_of self.old.machine.now) cells.now.present) }
        ensures machine { self.new.machine ≡ self.old.machine }
        ensures cells { self.new.spared.cells ≡ self.old.spared.cells }
        ensures held { IsHeld r.now self.new }
        ensures inside { InBox (series_of self.new.witness)
            (looked_at (window_of self.old.machine.now) cells.now.present) }
    {
        let (first, last) = ends(self.machine.window(), cells.cells());
        for k in first..last + 1 {
            self.seat(r, k - first + 1, cells.cell(k));
        }
    }

    /// Changes one cell after the other to a value that brings the series nearer to what the requirement asks, the
    /// first cells that have a choice, up to `most`.
    fn climb(&mut self, r: &Require, cells: &Boxed, most: u32)
        requires held { IsHeld r.now self.old }
        requires looks { LooksIn (automata_of self.old.machine.now) cells.now.present }
        requires few { length cells.now.present ≤ most_cells }
        requires inside { InBox (series_of self.old.witness)
            (looked_at (window_of self.old.machine.now) cells.now.present) }
        ensures machine { self.new.machine ≡ self.old.machine }
        ensures cells { self.new.spared.cells ≡ self.old.spared.cells }
        ensures held { IsHeld r.now self.new }
        ensures inside { InBox (series_of self.new.witness)
            (looked_at (window_of self.old.machine.now) cells.now.present) }
    {
        let (first, last) = ends(self.machine.window(), cells.cells());
        let mut left = most;
        for k in first..last + 1 {
            left = self.better(r, k - first + 1, cells.cell(k), left);
        }
    }

    /// Looks whether the series meets the requirement.
    fn judge(&mut self, r: &Require)
        requires held { IsHeld r.now self.old }
        requires some { 1 ≤ length (series_of self.old.witness) }
        requires few { length (series_of self.old.witness) ≤ most_cells }
        ensures machine { self.new.machine ≡ self.old.machine }
        ensures cells { self.new.spared.cells ≡ self.old.spared.cells }
        ensures held { IsHeld r.now self.new }
        ensures series { series_of self.new.witness ≡ series_of self.old.witness }
        ensures answered { self.old.met ≡ false → self.new.met ≡ compares r.now.op r.now.bound
            (answer (forward_of self.old.machine.now) (series_of self.old.witness)) }
    {
        if !self.met {
            self.met = self.witness.holds(self.machine, r);
        }
    }

    /// Puts a value of the domain at place `k` of the series, counted from 1, where the one that stands there is none.
    fn seat(&mut self, r: &Require, k: u32, domain: &Domain)
        requires held { IsHeld r.now self.old }
        requires few { length (series_of self.old.witness) ≤ most_cells }
        requires from { 1 ≤ k }
        requires to { k ≤ length (series_of self.old.witness) }
        ensures machine { self.new.machine ≡ self.old.machine }
        ensures cells { self.new.spared.cells ≡ self.old.spared.cells }
        ensures held { IsHeld r.now self.new }
        ensures seats { Seats (series_of self.old.witness) (k - 1) domain.now (series_of self.new.witness) }
    {
        if domain.contains(self.witness.cell(k)) {
            return;
        }
        let v = self.chosen(r, k, domain, domain.least());
        self.put(r, k, domain, v);
    }

    /// Puts at place `k` of the series, counted from 1, a value of the domain that brings it nearer to what the
    /// requirement asks, if there is a choice and `left` isn't 0. Answers how many such changes are left.
    fn better(&mut self, r: &Require, k: u32, domain: &Domain, left: u32) -> u32
        requires held { IsHeld r.now self.old }
        requires few { length (series_of self.old.witness) ≤ most_cells }
        requires from { 1 ≤ k }
        requires to { k ≤ length (series_of self.old.witness) }
        requires there { (v : ℤ) → slice_get (series_of self.old.witness) (k - 1) ≡ Some v → Contains domain.now v }
        ensures machine { self.new.machine ≡ self.old.machine }
        ensures cells { self.new.spared.cells ≡ self.old.spared.cells }
        ensures held { IsHeld r.now self.new }
        ensures seats { Seats (series_of self.old.witness) (k - 1) domain.now (series_of self.new.witness) }
    {
        if left == 0 || domain.is_single() {
            return left;
        }
        let now = self.witness.cell(k);
        let v = self.chosen(r, k, domain, now);
        if v == now {
            return left - 1;
        }
        self.put(r, k, domain, v);
        left - 1
    }

    /// Of a few values of the domain, `from` among them, the one that brings the series nearest to what the requirement
    /// asks at its place `k`, counted from 1; `from` where the machine can't be split.
    fn chosen(&mut self, r: &Require, k: u32, domain: &Domain, from: i64) -> i64
        requires held { IsHeld r.now self.old }
        requires few { length (series_of self.old.witness) ≤ most_cells }
        requires place { 1 ≤ k }
        requires to { k ≤ length (series_of self.old.witness) }
        requires from { Contains domain.now from }
        ensures machine { self.new.machine ≡ self.old.machine }
        ensures cells { self.new.spared.cells ≡ self.old.spared.cells }
        ensures held { IsHeld r.now self.new }
        ensures series { series_of self.new.witness ≡ series_of self.old.witness }
        ensures there { Contains domain.now result }
    {
        if self.machine.reverse().is_none() {
            return from;
        }
        nearest(&mut self.witness, self.machine, r, k, domain, from)
    }

    /// Puts a value of the domain at place `k` of the series, counted from 1.
    fn put(&mut self, r: &Require, k: u32, domain: &Domain, v: i64)
        requires held { IsHeld r.now self.old }
        requires place { 1 ≤ k }
        requires to { k ≤ length (series_of self.old.witness) }
        requires there { Contains domain.now v }
        ensures machine { self.new.machine ≡ self.old.machine }
        ensures cells { self.new.spared.cells ≡ self.old.spared.cells }
        ensures held { IsHeld r.now self.new }
        ensures seats { Seats (series_of self.old.witness) (k - 1) domain.now (series_of self.new.witness) }
    {
        // its values are within the limits
        domain.size();
        self.witness.set(k, v);
        self.spared.pass();
        self.met = false;
    }

    /// A number, `high` at most, up to which the requirement, as far as the series shows, drops no value from `low` on
    /// of the cell at place `k` of those that are looked at, counted from 1: with each of these the series meets it.
    pub(crate) fn spares_up_to(&mut self, r: &Require, k: u32, low: i64, high: i64) -> i64
        requires split { IsSome (pair_of self.old.machine.now) }
        requires held { IsHeld r.now self.old }
        requires few { length (series_of self.old.witness) ≤ most_cells }
        requires count { length self.old.spared.cells.now ≡ length (series_of self.old.witness) }
        requires from { 1 ≤ k }
        requires to { k ≤ length (series_of self.old.witness) }
        requires there { Contains (get_or self.old.spared.cells.now (k - 1) []) low }
        ensures machine { self.new.machine ≡ self.old.machine }
        ensures cells { self.new.spared.cells ≡ self.old.spared.cells }
        ensures held { IsHeld r.now self.new }
        ensures series { series_of self.new.witness ≡ series_of self.old.witness }
        ensures met { self.new.met ≡ self.old.met }
        ensures most { result ≤ℤ high }
        ensures kept { (v : ℤ) → Contains (get_or self.old.spared.cells.now (k - 1) []) v →
            low ≤ℤ v → v ≤ℤ result → IsKept (automata_of self.old.machine.now) r.now (series_of self.old.witness) k v }
    {
        let witness = &mut self.witness;
        self.spared
            .keeps_up_to(witness, self.machine, r, k, low, high)
    }

    /// What is known of the values from `v` on of cell `k` of `n`: the requirement drops none with which the series,
    /// which meets it, still does. Nothing is run.
    pub(crate) fn tell(&self, r: &Require, k: u32, v: i64, n: u32) -> Answer
        requires held { IsHeld r.now self.now }
        requires looks { LooksInside n (window_of self.now.machine.now) }
        requires few { length (series_of self.now.witness) ≤ most_cells }
        requires count { length (series_of self.now.witness) ≡ count_looked (window_of self.now.machine.now) n }
        requires domains { length self.now.spared.cells.now ≡ length (series_of self.now.witness) }
        requires from { 1 ≤ k }
        requires to { k ≤ n }
        requires value { IsCellValue v }
        ensures to { v ≤ℤ result.to }
        ensures looked { IsTrue result.free → is_looked (window_of self.now.machine.now) k ≡ true }
        ensures kept { IsTrue result.free → (w : ℤ) → v ≤ℤ w → w ≤ℤ result.to → IsKept (automata_of
            self.now.machine.now) r.now (series_of self.now.witness) (place_in (window_of self.now.machine.now) k) w }
    {
        if !self.met || self.machine.reverse().is_none() {
            return UNKNOWN;
        }
        let (first, last) = ends(self.machine.window(), n);
        if k < first || last < k {
            return UNKNOWN;
        }
        let place = k - (first - 1);
        let (free, to) = self
            .spared
            .keeps_from(&self.witness, self.machine, r, place, v);
        Answer { free, to }
    }
}

/// The domains of the cells that are looked at.
fn looked_at<'a>(window: Option<Range>, cells: &'a [Domain]) -> &'a [Domain]
    requires { LooksInside (length cells.now) window }
    ensures { result.now ≡ looked_at window cells.now }
{
    match window {
        None => cells,
        Some(window) => &cells[window.first as usize - 1..window.last as usize],
    }
}

/// At how many cells a series is bettered that hasn't met its requirement on `failed` boxes: the longer it fails, the
/// less is spent on it.
fn cells_to_better(failed: u32) -> u32 {
    if failed % EACH == 0 {
        u32::MAX
    } else if failed < SOON || failed % SOON == 0 {
        FEW
    } else {
        0
    }
}
