//! What is known of the values of each cell, so that it isn't asked again where the runs have come to the same.

ghost use Rattle.std.specs.Prelude.{◌≡◌, ◌↔◌, ◌⊎◌, ◌≤◌, ◌<ℤ◌, ◌≤ℤ◌, ◌-◌, ℤ, [], Contains, IfOk, IfSome, IsSome, IsSomeAnd, IsTrue};
ghost use Rattle.std.specs.Prelude.{◌<◌, List, Some, get_or, length, slice_get};
ghost use Rattle.ts_automaton.specs.AutomatonRun.{AreCellValues};
ghost use Rattle.ts_base.specs.Limits.{IsCellValue, most_cells};
ghost use Rattle.ts_bound.specs.TermSpans.{automata_of};
ghost use Rattle.ts_domain.specs.BoxSeries.{IsBox};
ghost use Rattle.ts_domain.specs.Values.{IsDomain};
ghost use Rattle.ts_glue.specs.declared.machine.Machine.{Machine};
ghost use Rattle.ts_glue.specs.Machines.{forward_of, pair_of};
ghost use Rattle.ts_model.specs.declared.model.Require.{Require};
ghost use Rattle.ts_witness.specs.Laws.{IsKept};
ghost use Rattle.ts_witness.specs.KnownValues.{AreBeside, IsEmpty, IsLike, IsSpared, MeetsWith};
ghost use Rattle.ts_witness.specs.Letters.{ReadsLetters};
ghost use Rattle.ts_witness.specs.Witnesses.{AreSides, IsWitness, series_of};

use crate::reading::reads_letters;
use crate::run::Side;
use crate::witness::{Sides, Witness};
use std::alloc::Global;
use ts_base::Memory;
use ts_domain::Domain;
use ts_glue::Machine;
use ts_model::Require;

/// How many values of a cell are tried at once.
const MOST_TRIED: u64 = 256;

/// Where the runs have this beside a cell, a series is known to meet a requirement with each value there from `least`
/// to `greatest`, if there are any; with `hard`, if there is one, it isn't. They were last seen to have this at `time`.
#[derive(Clone, Copy)]
struct Known {
    sides: Sides,
    time: u64,
    least: i64,
    greatest: i64,
    hard: Option<i64>,
}

impl Known {
    /// Nothing is known where the runs are seen to have this at this time.
    fn nothing(sides: Sides, time: u64) -> Known
        ensures sides { result.sides ≡ sides }
        ensures time { result.time ≡ time }
        ensures none { IsEmpty result }
    {
        Known {
            sides,
            time,
            least: 1,
            greatest: 0,
            hard: None,
        }
    }

    /// What is known after the values from `low` to `high` were tried, and met the requirement up to `limit`.
    fn and_then(self, low: i64, limit: i64, high: i64) -> Known
        ensures sides { result.sides ≡ self.sides }
        ensures time { result.time ≡ self.time }
        ensures known { ((result.least ≡ low) × (result.greatest ≡ limit))
            ⊎ ((result.least ≡ self.least) × (result.greatest ≡ self.greatest)) }
    {
        let hard = if limit < high {
            Some(limit + 1)
        } else {
            self.hard
        };
        if limit < low {
            return Known { hard, ..self };
        }
        Known {
            least: low,
            greatest: limit,
            hard,
            ..self
        }
    }

    /// Up to which value, from `low` on, the series is known to meet the requirement: one below `low` where with that
    /// it isn't.
    fn reach(&self, low: i64) -> i64
        requires { IsCellValue low }
        ensures { (v : ℤ) → low ≤ℤ v → v ≤ℤ result → (self.now.least ≤ℤ v) × (v ≤ℤ self.now.greatest) }
    {
        if self.least <= low {
            self.greatest
        } else {
            low - 1
        }
    }
}

/// For each of these cells the values with which a series is known to meet a requirement, wherever the runs have the
/// same beside the cell. The time is one more after each change of the series. With `letters` the steps of the machine
/// are by letters alone. After `new` nothing is allocated.
#[derive(Drop)]
pub struct Spared<'a> {
    cells: &'a [Domain],
    each: Vec<Known>,
    letters: bool,
    time: u64,
}

impl<'a> Spared<'a> {
    /// Nothing is known of these cells yet, which the machine looks at.
    pub fn new(alloc: Global, m: &Machine, cells: &'a [Domain]) -> Result<Spared<'a>, Memory>
        requires { IsBox cells.now }
        ensures cells { IfOk result (λ s. s.cells.now ≡ cells.now) }
        ensures spared { IfOk result (λ s. (r : Require) → IsSpared m.now r s) }
        ensures beside { IfOk result (λ s. (y : List ℤ) → AreBeside m.now y s) }
    {
        let filler = Side {
            at: m.forward().start(),
            cell: 0,
        };
        let sides = Sides {
            left: filler,
            right: filler,
        };
        let each = vec![in alloc; Known::nothing(sides, 0); cells.len()]?;
        let letters = reads_letters(m.forward());
        Ok(Spared {
            cells,
            each,
            letters,
            time: 1,
        })
    }

    /// A number, `high` at most, up to which the series meets the requirement with each value of cell `k`, counted from
    /// 1, from `low` on, which is one of them. The machine is that of its term, and can be split. The requirement drops
    /// none of these values there on any box with the series. A greater number may do as well: there may be too many
    /// values to be tried, or the series doesn't meet the requirement with one that the box doesn't have.
    pub fn keeps_up_to(
        &mut self,
        witness: &mut Witness,
        m: &Machine,
        r: &Require,
        k: u32,
        low: i64,
        high: i64,
    ) -> i64
        requires split { IsSome (pair_of m.now) }
        requires witness { IsWitness m.now witness.old }
        requires few { length (series_of witness.old) ≤ most_cells }
        requires cells { AreCellValues (series_of witness.old) }
        requires from { 1 ≤ k }
        requires to { k ≤ length (series_of witness.old) }
        requires count { length self.old.cells.now ≡ length (series_of witness.old) }
        requires spared { IsSpared m.now r.now self.old }
        requires beside { AreBeside m.now (series_of witness.old) self.old }
        requires there { Contains (get_or self.old.cells.now (k - 1) []) low }
        ensures witness { IsWitness m.now witness.new }
        ensures series { series_of witness.new ≡ series_of witness.old }
        ensures same { self.new.cells ≡ self.old.cells }
        ensures spared { IsSpared m.now r.now self.new }
        ensures beside { AreBeside m.now (series_of witness.old) self.new }
        ensures most { result ≤ℤ high }
        ensures told { (v : ℤ) → Contains (get_or self.old.cells.now (k - 1) []) v →
            low ≤ℤ v → v ≤ℤ result → MeetsWith (forward_of m.now) r.now (series_of witness.old) (k - 1) v }
        ensures kept { (v : ℤ) → Contains (get_or self.old.cells.now (k - 1) []) v →
            low ≤ℤ v → v ≤ℤ result → IsKept (automata_of m.now) r.now (series_of witness.old) k v }
    {
        let i = k as usize - 1;
        self.bring_beside(witness, m, k);
        let cells = self.cells;
        let known = &self.each[i];
        let reach = known.reach(low);
        if high <= reach {
            return high;
        }
        if is_between(known.hard, low, high) {
            return reach;
        }
        let letters = self.letters;
        let limit = meets_up_to(witness, m, r, k, &cells[i], letters, low, high);
        self.each[i] = known.and_then(low, limit, high);
        limit
    }

    /// Whether the series is known to meet the requirement with `v` at cell `k`, counted from 1, as far as the runs are
    /// known; and a number up to which the answer is the same for all from `v` on.
    pub fn keeps_from(
        &self,
        witness: &Witness,
        m: &Machine,
        r: &Require,
        k: u32,
        v: i64,
    ) -> (bool, i64)
        requires split { IsSome (pair_of m.now) }
        requires witness { IsWitness m.now witness.now }
        requires few { length (series_of witness.now) ≤ most_cells }
        requires cells { AreCellValues (series_of witness.now) }
        requires from { 1 ≤ k }
        requires to { k ≤ length (series_of witness.now) }
        requires count { length self.now.cells.now ≡ length (series_of witness.now) }
        requires spared { IsSpared m.now r.now self.now }
        requires value { IsCellValue v }
        ensures to { v ≤ℤ result.1 }
        ensures kept { IsTrue result.0 → (w : ℤ) → v ≤ℤ w → w ≤ℤ result.1 →
            IsKept (automata_of m.now) r.now (series_of witness.now) k w }
    {
        let to = alike_up_to(witness, m, self.letters, k, v);
        if self.is_hard(k as usize - 1, v) {
            return (false, to);
        }
        (witness.is_known_to_keep(m, r, k, v), to)
    }

    /// Whether the series is known not to meet the requirement with `v` at place `i`, counted from 0. What is noted may
    /// be one too many to be tried, where the cell has many values below.
    fn is_hard(&self, i: usize, v: i64) -> bool
        requires noted { i < length self.now.each.items }
        requires place { i < length self.now.cells.now }
        requires value { IsCellValue v }
    {
        is_between(self.each[i].hard, v, v) && v - self.cells[i].least() < MOST_TRIED as i64
    }

    /// Forgets what is known of cell `k`, counted from 1, if the runs have something else beside it now.
    fn bring_beside(&mut self, witness: &mut Witness, m: &Machine, k: u32)
        requires split { IsSome (pair_of m.now) }
        requires witness { IsWitness m.now witness.old }
        requires from { 1 ≤ k }
        requires to { k ≤ length (series_of witness.old) }
        requires count { length self.old.each.items ≡ length (series_of witness.old) }
        requires beside { AreBeside m.now (series_of witness.old) self.old }
        ensures witness { IsWitness m.now witness.new }
        ensures series { series_of witness.new ≡ series_of witness.old }
        ensures same { self.new.cells ≡ self.old.cells }
        ensures spared { (r : Require) → IsSpared m.now r self.old → IsSpared m.now r self.new }
        ensures beside { AreBeside m.now (series_of witness.old) self.new }
        ensures here { (e : Known) → slice_get self.new.each.items (k - 1) ≡ Some e →
            AreSides m.now (series_of witness.old) (k - 1) e.sides }
    {
        let i = k as usize - 1;
        if self.each[i].time == self.time && self.time < u64::MAX {
            return;
        }
        if witness.has_beside(m, k, &self.each[i].sides) {
            self.each[i].time = self.time;
        } else {
            self.each[i] = Known::nothing(witness.sides(m, k), self.time);
        }
    }

    /// Notes that the series is another from now on.
    pub fn pass(&mut self)
        ensures same { self.new.cells ≡ self.old.cells }
        ensures spared { (m : Machine) (r : Require) → IsSpared m r self.old → IsSpared m r self.new }
        ensures beside { (m : Machine) (x y : List ℤ) → AreBeside m x self.old → AreBeside m y self.new }
    {
        if self.time < u64::MAX {
            self.time += 1;
        }
    }
}

/// Whether there is a number, from `low` to `high`.
fn is_between(v: Option<i64>, low: i64, high: i64) -> bool
    ensures { IsTrue result ↔ IsSomeAnd v (λ x. (low ≤ℤ x) × (x ≤ℤ high)) }
{
    match v {
        Some(v) => low <= v && v <= high,
        None => false,
    }
}

/// A number, `high` at most, up to which the series meets the requirement with each value of the domain at place `k`,
/// counted from 1, from `low` on, which is one of them: it ends before the first with which it doesn't, or that is one
/// too many to be tried. Where the steps of the machine are by letters alone, of values that compare in the same way
/// with the cells beside the place only one is tried.
fn meets_up_to(
    witness: &mut Witness,
    m: &Machine,
    r: &Require,
    k: u32,
    domain: &Domain,
    letters: bool,
    low: i64,
    high: i64,
) -> i64
    requires split { IsSome (pair_of m.now) }
    requires witness { IsWitness m.now witness.old }
    requires few { length (series_of witness.old) ≤ most_cells }
    requires cells { AreCellValues (series_of witness.old) }
    requires from { 1 ≤ k }
    requires to { k ≤ length (series_of witness.old) }
    requires letters { IsTrue letters → ReadsLetters (forward_of m.now) }
    requires domain { IsDomain domain.now }
    requires there { Contains domain.now low }
    ensures witness { IsWitness m.now witness.new }
    ensures series { series_of witness.new ≡ series_of witness.old }
    ensures most { result ≤ℤ high }
    ensures met { (v : ℤ) → Contains domain.now v → low ≤ℤ v → v ≤ℤ result →
        MeetsWith (forward_of m.now) r.now (series_of witness.old) (k - 1) v }
{
    let mut like = None;
    let mut tried = 0;
    for v in domain.values_from(domain.place_of(low)) {
        if v > high {
            return high;
        }
        let below = one_below(v);
        if tried >= MOST_TRIED {
            return below;
        }
        if !meets_with(witness, m, r, k, v, like) {
            return below;
        }
        like = some_if(letters, v);
        tried += 1;
    }
    high
}

/// A number up to which the machine answers the same with each from `v` on at cell `k`, counted from 1: `v` where its
/// steps aren't by letters alone.
fn alike_up_to(witness: &Witness, m: &Machine, letters: bool, k: u32, v: i64) -> i64
    requires letters { IsTrue letters → ReadsLetters (forward_of m.now) }
    requires cells { AreCellValues (series_of witness.now) }
    requires from { 1 ≤ k }
    requires to { k ≤ length (series_of witness.now) }
    ensures to { v ≤ℤ result }
    ensures alike { (r : Require) (w : ℤ) → v ≤ℤ w → w ≤ℤ result →
        MeetsWith (forward_of m.now) r (series_of witness.now) (k - 1) v →
        MeetsWith (forward_of m.now) r (series_of witness.now) (k - 1) w }
{
    if !letters {
        return v;
    }
    witness.alike_up_to(k, v)
}

/// The number before a value of a cell.
fn one_below(v: i64) -> i64
    requires { IsCellValue v }
    ensures { result <ℤ v }
{
    v - 1
}

/// The value, where the steps are by letters alone.
fn some_if(letters: bool, v: i64) -> Option<i64>
    ensures { IfSome result (λ u. IsTrue letters × (u ≡ v)) }
{
    if letters { Some(v) } else { None }
}

/// Whether the series with `v` at place `k`, counted from 1, meets the requirement. Where `like` is some value, it does
/// with that, and the steps of the machine are by letters alone.
fn meets_with(
    witness: &mut Witness,
    m: &Machine,
    r: &Require,
    k: u32,
    v: i64,
    like: Option<i64>,
) -> bool
    requires split { IsSome (pair_of m.now) }
    requires witness { IsWitness m.now witness.old }
    requires few { length (series_of witness.old) ≤ most_cells }
    requires cells { AreCellValues (series_of witness.old) }
    requires from { 1 ≤ k }
    requires to { k ≤ length (series_of witness.old) }
    requires value { IsCellValue v }
    requires like { IfSome like (IsLike (forward_of m.now) r.now (series_of witness.old) (k - 1)) }
    ensures witness { IsWitness m.now witness.new }
    ensures series { series_of witness.new ≡ series_of witness.old }
    ensures told { IsTrue result → MeetsWith (forward_of m.now) r.now (series_of witness.old) (k - 1) v }
{
    match like {
        Some(u) if witness.compares_as(k, u, v) => true,
        _ => witness.keeps(m, r, k, v),
    }
}
