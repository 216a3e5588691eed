//! A stack of rows of hulls. Those that a change reaches aren't thrown away: they may turn out right again.

ghost use Rattle.std.specs.List.{All, remove_range};
ghost use Rattle.std.specs.Prelude.{◌≡◌, ◌<◌, ◌≤◌, ◌-◌, ◌⊎◌, ℤ, List, [], ◌∷◌, IfOk, IsFalse, IsTrue, OnErr, OnOk};
ghost use Rattle.std.specs.Prelude.{get_or, length};
ghost use Rattle.ts_bound.specs.AnyRows.{IsFormOf, IsRowOf, columns, form_of, lanes_of, viewed};
ghost use Rattle.ts_bound.specs.RowStacks.{HasStates, IsTruncated, IsForgotten, IsKnownAt, IsLaid, IsLeft, IsLess, IsOneMore, IsPlanned, IsRestored, IsSpliced, MayShow, Stands, hulls_in, kept_in, no_rows, shown, with_row};
ghost use Rattle.ts_bound.specs.RowWindows.{AreForgotten, HasKept, HasLess, HasLost, IsFresh, Shows};
ghost use Rattle.ts_row.specs.Plans.{IsPlanOf};
ghost use Rattle.ts_row.specs.Rows.{IsRow};
ghost use Rattle.ts_row.specs.Takings.{count_in};

use crate::any_row::{AnyRow, AnyView, Form, are_same};
use crate::found::place_in;
use crate::gone::Gone;
use crate::planned::Planned;
use crate::room::SMALL_ROW;
use crate::two_cells::TwoCells;
use std::alloc::Global;
use std::marker::Model;
use std::mem;
use ts_automaton::Automaton;
use ts_base::Memory;
use ts_domain::Domain;
use ts_row::{Cell, Plan};

/// The hulls of the `count` values of a cell for each state, packed. Those at the places from `from` up to `to` are
/// shown. `values` has the values of all places, where they are kept. `room` is for how many there may be memory.
#[derive(Drop)]
pub struct HullRow {
    pub(crate) packed: AnyRow,
    room: usize,
    count: usize,
    from: usize,
    to: usize,
    values: Vec<i64>,
}

impl HullRow {
    /// A row without hulls, with room for the values of a cell.
    fn empty(alloc: Global, form: Form, room: usize) -> HullRow
        ensures { form_of result.packed ≡ form }
    {
        HullRow {
            packed: AnyRow::empty(alloc, form),
            room,
            count: 0,
            from: 0,
            to: 0,
            values: Vec::new(alloc),
        }
    }

    /// The row, or an empty one where its memory doesn't suit `count` values of the form.
    pub(crate) fn with_room(self, alloc: Global, form: Form, count: usize) -> HullRow
        ensures { form_of result.packed ≡ form }
    {
        if self.packed.form() == form && self.has_room(count) {
            self
        } else {
            HullRow::empty(alloc, form, count.max(SMALL_ROW))
        }
    }

    /// Whether there is memory for `count` values, and for no more than twice as many or `SMALL_ROW`: a row is never
    /// made in the memory of one with many more values.
    fn has_room(&self, count: usize) -> bool {
        count <= self.room && (self.room <= SMALL_ROW || self.room / 2 <= count)
    }

    /// The hulls that are shown.
    fn lend(&self) -> AnyView<'_>
        requires order { self.now.from ≤ self.now.to }
        requires inside { All (λ column. self.now.to ≤ length column) (columns self.now.packed) }
        ensures { viewed result ≡ shown self.now }
    {
        self.packed.part(self.from, self.to)
    }

    /// The row of the cell at which runs start, in the same memory.
    pub(crate) fn started(
        self,
        alloc: Global,
        a: &Automaton,
        values: Cell<'_>,
    ) -> Result<HullRow, Memory>
        requires { IsFormOf a.now.wide (form_of self.packed) }
        ensures form { IfOk result (λ row. form_of row.packed ≡ form_of self.packed) }
        ensures fresh { IfOk result (IsFresh (count_in values.entry)) }
        ensures row { IfOk result (λ row. IsRowOf a.now [] values.entry.values.now row.packed) }
    {
        let count = values.values.len();
        let packed = self.packed.started(alloc, a, values)?;
        Ok(fresh(packed, self.room, count, self.values))
    }

    /// The row of a cell, from that of the cell before, in the same memory.
    pub(crate) fn stepped(
        self,
        alloc: Global,
        a: &Automaton,
        plan: &Plan,
        values: Cell<'_>,
        before: &AnyView<'_>,
        next_values: Cell<'_>,
    ) -> Result<HullRow, Memory>
        requires width { IsFormOf a.now.wide (form_of self.packed) }
        requires form_before { form_of (viewed before.now) ≡ form_of self.packed }
        requires plan { IsPlanOf a.now plan.now }
        requires row { IsRow (lanes_of (viewed before.now)) (length a.now.states) (count_in values)
            (columns (viewed before.now)) }
        ensures form { IfOk result (λ row. form_of row.packed ≡ form_of self.packed) }
        ensures fresh { IfOk result (IsFresh (count_in next_values.entry)) }
        ensures row { IfOk result (λ row. (cells : List (List ℤ)) →
            IsRowOf a.now cells values.entry.values.now (viewed before.now) →
            IsRowOf a.now (values.entry.values.now ∷ cells) next_values.entry.values.now row.packed) }
    {
        let count = next_values.values.len();
        let packed = self
            .packed
            .stepped(alloc, a, plan, values, before, next_values)?;
        Ok(fresh(packed, self.room, count, self.values))
    }
}

/// A row just made: it shows the hulls of all its values, and doesn't keep these; their list has memory for it.
fn fresh(packed: AnyRow, room: usize, count: usize, mut values: Vec<i64>) -> HullRow
    ensures packed { result.packed ≡ packed }
    ensures fresh { IsFresh count result }
{
    values.clear();
    HullRow {
        packed,
        room,
        count,
        from: 0,
        to: count,
        values,
    }
}

impl HullRow {
    /// No longer shows the values that are gone. If all were shown until now, which were those of `before`, these are
    /// kept.
    fn shrink(&mut self, gone: Gone, before: &Domain)
        requires from { self.old.from ≤ self.old.to }
        requires to { self.old.to ≤ self.old.count }
        ensures { HasLost gone before.now self.old self.new }
    {
        self.keep(before);
        self.lose(gone);
    }

    /// Keeps the values for which the row was made, if it shows all of them. Without memory for them it keeps none.
    fn keep(&mut self, before: &Domain)
        ensures { HasKept before.now self.old self.new }
    {
        if self.values.len() == 0 && self.from == 0 && self.to == self.count {
            list(&mut self.values, self.room, before);
        }
    }

    /// No longer shows the values that are gone. At either end their hulls stay: only what is shown moves. Between
    /// others their hulls are taken out.
    fn lose(&mut self, gone: Gone)
        requires from { self.old.from ≤ self.old.to }
        requires to { self.old.to ≤ self.old.count }
        ensures { HasLess gone self.old self.new }
    {
        let count = self.to - self.from;
        if gone.from == 0 {
            self.from += gone.to.min(count);
        } else if gone.to >= count {
            self.to = self.from + gone.from.min(count);
        } else {
            self.take_out(gone);
        }
    }

    /// Takes the hulls of values that are gone out, which stood between others that are shown.
    fn take_out(&mut self, gone: Gone)
        requires from { self.old.from ≤ self.old.to }
        requires to { self.old.to ≤ self.old.count }
        requires between { gone.to < self.old.to - self.old.from }
        ensures { HasLess gone self.old self.new }
    {
        let from = self.from + gone.from;
        let to = self.from + gone.to;
        self.packed.take_out(from, to);
        leave_out(&mut self.values, from, to);
        self.count -= to - from;
        self.to -= to - from;
    }

    /// Shows the hulls of these values, if they are among those that are kept.
    fn show(&mut self, now: &[i64]) -> bool
        ensures yes { IsTrue result → Shows now.now self.old self.new }
        ensures no { IsFalse result → self.new ≡ self.old }
    {
        let from = match place_in(&self.values, now) {
            Some(from) => from,
            None => return false,
        };
        let to = from + now.len();
        if to > self.count {
            return false;
        }
        self.from = from;
        self.to = to;
        true
    }
}

/// Puts the values of a domain into an empty list with room for `room` values. Without memory it stays empty.
fn list(values: &mut Vec<i64>, room: usize, domain: &Domain)
    requires { values.old.items ≡ [] }
    ensures { (values.new.items ≡ []) ⊎ (values.new.items ≡ domain.now) }
{
    match filled(values, room, domain) {
        Ok(()) => {}
        Err(_) => values.clear(),
    }
}

/// Puts the values of a domain into an empty list with room for `room` values. After `Memory` its values are
/// unspecified.
fn filled(values: &mut Vec<i64>, room: usize, domain: &Domain) -> Result<(), Memory>
    requires { values.old.items ≡ [] }
    ensures { OnOk result (values.new.items ≡ domain.now) }
{
    values.reserve(room)?;
    values.extend(domain.values())?;
    Ok(())
}

/// Leaves the values at the places from `from` up to `to` out.
fn leave_out(values: &mut Vec<i64>, from: usize, to: usize)
    requires { from ≤ to }
    ensures { values.new.items ≡ remove_range values.old.items from to }
{
    let count = values.len();
    if to < count {
        values.copy_within(to.., from);
        values.truncate(count - (to - from));
    } else {
        values.truncate(from);
    }
}

/// Rows of an automaton, of which the first are known. The others were known of an earlier box. From place `from` on
/// each is still the next row after the one below: where one is right, all above it are. `spare` and `lists` have
/// memory for the next row and the values that it is made of. All rows have the states of the automaton and one form,
/// which are kept here alone. From place `kept_to` on no row has kept values.
#[derive(Drop)]
pub struct RowStack {
    planned: Planned,
    rows: Vec<HullRow>,
    known: usize,
    from: usize,
    kept_to: usize,
    spare: Option<HullRow>,
    lists: Option<TwoCells>,
}

impl Model for RowStack {
    ghost use Rattle.std.specs.Prelude.{◌≤◌, All, length, take};
    ghost use Rattle.ts_bound.specs.RowStacks.{IsLaid, NoneKept, Stack, all_hulls, all_kept};

    ghost Value = { Stack };

    ghost view = { λ s. record {
      planned = s.planned;
      known = take s.known (all_hulls s.planned.states s.rows.items);
      laid = record { rows = all_hulls s.planned.states s.rows.items; from = s.from };
      kept = all_kept s.planned.states s.rows.items;
    } };

    ghost invariant = { λ s. (s.known ≤ length s.rows.items) × All (λ r. IsLaid s.planned r) s.rows.items
        × (s.kept_to ≤ length s.rows.items) × NoneKept s.kept_to (all_kept s.planned.states s.rows.items) };
}

impl RowStack {
    /// No row of the automaton, in a form that suits its width.
    pub fn new(alloc: Global, a: &Automaton, form: Form) -> RowStack
        requires { IsFormOf a.now.wide form }
        ensures form { result.planned.form ≡ form }
        ensures planned { IsPlanned a.now result.planned }
        ensures none { result ≡ no_rows result.planned }
    {
        RowStack {
            planned: Planned::of(a, form),
            rows: Vec::new(alloc),
            known: 0,
            from: 0,
            kept_to: 0,
            spare: None,
            lists: None,
        }
    }

    /// The form of the rows.
    pub fn form(&self) -> Form
        ensures { result ≡ self.now.planned.form }
    {
        self.planned.form
    }

    /// The plan of the automaton.
    pub(crate) fn plan(&self) -> &Plan
        ensures { result.now ≡ self.now.planned.plan }
    {
        &self.planned.plan
    }

    /// How many rows are known.
    pub(crate) fn len(&self) -> usize
        ensures { result ≡ length self.now.known }
    {
        self.known
    }

    /// The known row at place `i`, counted from 0.
    pub fn row(&self, i: usize) -> AnyView<'_>
        requires { i < length self.now.known }
        ensures states { HasStates self.now.planned (viewed result) }
        ensures hulls { hulls_in self.now.planned.states (viewed result) ≡ get_or self.now.known i [] }
    {
        self.rows[i].lend()
    }

    /// Only the first `count` rows stay known. From place `end` on each row still follows from the one before. The cell
    /// of the row at place `count` had the values of `before`, and has those of `now`. If that row is known, and it's
    /// known which of them are `gone`, it may stay known without them: the hulls of a value depend on that value and on
    /// the cells before alone. So it may be known again, too, if it was made for these values and others.
    pub fn leave(
        &mut self,
        count: usize,
        end: usize,
        gone: Option<Gone>,
        before: &Domain,
        now: &Domain,
    )
        ensures { IsLeft count end gone before.now now.now self.old self.new }
    {
        match gone {
            Some(gone) if self.knows(count) => self.splice(count, end, gone, before),
            _ => self.restore(count, end, now),
        }
    }

    /// Whether the row at place `at` is known. However many of its values go, it keeps its memory: that of the values
    /// for which it was made.
    fn knows(&self, at: usize) -> bool
        ensures { IsTrue result → IsKnownAt at self.now }
    {
        at < self.known
    }

    /// Only the first `count` rows stay known, and the one above without the values that are gone.
    fn splice(&mut self, count: usize, end: usize, gone: Gone, before: &Domain)
        requires { IsKnownAt count self.old }
        ensures { IsSpliced count end gone before.now self.old self.new }
    {
        self.truncate(count, end);
        self.shrink(gone, before);
    }

    /// Only the first `count` rows stay known, and the one above if its hulls for these values are kept.
    fn restore(&mut self, count: usize, end: usize, now: &Domain)
        ensures { IsRestored count end now.now self.old self.new }
    {
        self.truncate(count, end);
        if self.known == count {
            self.show(now);
        }
    }

    /// Makes the row above the known ones known, without the values that are gone.
    fn shrink(&mut self, gone: Gone, before: &Domain)
        requires { length self.old.known < length self.old.laid.rows }
        ensures { IsLess gone before.now self.old self.new }
    {
        self.rows[self.known].shrink(gone, before);
        self.known += 1;
        self.from = greater(self.from, self.known);
        self.kept_to = greater(self.kept_to, self.known);
    }

    /// Makes the row above the known ones known, if its hulls for these values are kept.
    fn show(&mut self, now: &Domain)
        ensures { MayShow now.now self.old self.new }
    {
        if self.known < self.kept_to && shows(&mut self.rows[self.known], &mut self.lists, now) {
            self.known += 1;
            self.from = greater(self.from, self.known);
        }
    }

    /// Only the first `count` rows stay known. From place `end` on each row still follows from the one before. What is
    /// kept of the rows above place `count` depends on a cell that may change: it's forgotten.
    fn truncate(&mut self, count: usize, end: usize)
        ensures { IsTruncated count end self.old self.new }
    {
        self.forget_above(count);
        if self.known == self.rows.len() {
            self.from = 0;
        }
        self.from = greater(self.from, end);
        self.known = self.known.min(count);
    }

    /// Forgets the values that are kept of rows above place `count`.
    fn forget_above(&mut self, count: usize)
        ensures { IsForgotten count self.old self.new }
    {
        if count < self.kept_to {
            forget(&mut self.rows, count + 1, self.kept_to);
            self.kept_to = count + 1;
        }
    }

    /// Removes all rows, and frees their memory.
    pub fn clear(&mut self)
        ensures { self.new ≡ no_rows self.old.planned }
    {
        self.rows.clear();
        self.known = 0;
        self.from = 0;
        self.kept_to = 0;
        drop(self.spare.take());
        drop(self.lists.take());
    }
}

impl RowStack {
    /// Memory for a row.
    pub(crate) fn take_spare(&mut self, alloc: Global) -> HullRow
        ensures { self.new ≡ self.old }
    {
        match self.spare.take() {
            Some(row) => row,
            None => HullRow::empty(alloc, self.planned.form, 0),
        }
    }

    /// Lists for the values of the next row's cell, and of the cell before.
    pub(crate) fn take_lists(&mut self, alloc: Global) -> TwoCells
        ensures { self.new ≡ self.old }
    {
        match self.lists.take() {
            Some(lists) => lists,
            None => TwoCells::empty(alloc),
        }
    }

    /// Gives the lists of values back, to be used again.
    pub(crate) fn keep_lists(&mut self, lists: TwoCells)
        ensures { self.new ≡ self.old }
    {
        drop(mem::replace(&mut self.lists, Some(lists)));
    }

    /// Whether the row is the same as the one above the known rows, and the rows above that follow from it.
    pub(crate) fn stands(&self, row: &HullRow) -> bool
        requires { IsLaid self.now.planned row.now }
        ensures { IsTrue result → Stands (hulls_in self.now.planned.states (shown row.now)) self.now }
    {
        if self.known == self.rows.len() || self.known < self.from {
            return false;
        }
        let there = self.rows[self.known].lend();
        let here = row.lend();
        are_same(&there, &here, self.planned.states)
    }

    /// Makes all rows known. The memory of `row` is kept.
    pub(crate) fn know_all(&mut self, row: HullRow)
        ensures planned { self.new.planned ≡ self.old.planned }
        ensures known { self.new.known ≡ self.old.laid.rows }
        ensures laid { self.new.laid ≡ self.old.laid }
        ensures kept { self.new.kept ≡ self.old.kept }
    {
        self.known = self.rows.len();
        drop(mem::replace(&mut self.spare, Some(row)));
    }

    /// Adds a known row, of which no values are kept yet.
    pub(crate) fn push(&mut self, row: HullRow) -> Result<(), Memory>
        requires laid { IsLaid self.old.planned row }
        requires none { row.values.items ≡ [] }
        ensures ok { OnOk result (IsOneMore (hulls_in self.old.planned.states (shown row))
            (kept_in self.old.planned.states row) self.old self.new) }
        ensures err { OnErr result (self.new ≡ self.old) }
    {
        put(&mut self.rows, self.known, row, &mut self.spare)?;
        let from = greater(self.from, self.known + 1);
        self.known += 1;
        self.from = from;
        Ok(())
    }
}

/// The greater one of two places.
fn greater(a: usize, b: usize) -> usize
    ensures first { a ≤ result }
    ensures second { b ≤ result }
    ensures one { (result ≡ a) ⊎ (result ≡ b) }
{
    a.max(b)
}

/// Shows the hulls of the values of a domain, if these are among those that are kept of the row. Where there is no list
/// for them, or no memory, none are shown.
fn shows(row: &mut HullRow, lists: &mut Option<TwoCells>, now: &Domain) -> bool
    ensures yes { IsTrue result → Shows now.now row.old row.new }
    ensures no { IsFalse result → row.new ≡ row.old }
{
    match lists {
        Some(lists) => match lists.here.reset(now) {
            Ok(()) => row.show(lists.here.lend().values),
            Err(_) => false,
        },
        None => false,
    }
}

/// Forgets the values that are kept of the rows at the places from `from` up to `to`.
fn forget(rows: &mut Vec<HullRow>, from: usize, to: usize)
    requires order { from ≤ to }
    requires inside { to ≤ length rows.old.items }
    ensures { AreForgotten from to rows.old.items rows.new.items }
{
    for i in from..to {
        rows[i].values.clear();
    }
}

/// Puts a row at place `at`. The one that was there becomes `spare`.
#[tactic(auto, using(crate::proofs::LaidRows::put_within))]
fn put(
    rows: &mut Vec<HullRow>,
    at: usize,
    row: HullRow,
    spare: &mut Option<HullRow>,
) -> Result<(), Memory>
    requires { at ≤ length rows.old.items }
    ensures ok { OnOk result (rows.new.items ≡ with_row at row rows.old.items) }
    ensures err { OnErr result (rows.new.items ≡ rows.old.items) }
{
    if at == rows.len() {
        rows.push(row)?;
        return Ok(());
    }
    let before = mem::replace(&mut rows[at], row);
    drop(mem::replace(spare, Some(before)));
    Ok(())
}
