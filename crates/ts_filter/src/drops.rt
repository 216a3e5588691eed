//! Values that may be taken out of their cells.

ghost use Rattle.std.specs.Prelude.{◌≡◌, ◌+◌, ◌<◌, ◌≤◌, ◌<ℤ◌, ◌≤ℤ◌, ℕ, ℤ, IfOk, Some, length, map, option_map, slice_get};
ghost use Rattle.std.specs.Prelude.{Contains, IsTrue, drop};
ghost use Rattle.std.specs.List.{AllByRecursion};
ghost use Rattle.ts_base.specs.Limits.{too_many};
ghost use Rattle.ts_bound.specs.TermSpans.{IsUsable, LooksIn, automata_of};
ghost use Rattle.ts_domain.specs.BoxSeries.{IsBox};
ghost use Rattle.ts_domain.specs.Values.{IsDomain};
ghost use Rattle.ts_filter.specs.Drops.{IsFirstDrop, IsFirstOf};
ghost use Rattle.ts_filter.specs.Boxes.{HasCell, values_at};
ghost use Rattle.ts_filter.specs.CellHulls.{Serves};
ghost use Rattle.ts_filter.specs.Courses.{IsCourse, IsStep, past_all};
ghost use Rattle.ts_filter.specs.Question.{AsksEach};
ghost use Rattle.ts_filter.specs.KeptCells.{AreFree, IsKeptIfKnown, IsSparedAt, Tells};
ghost use Rattle.ts_filter.specs.KnownRows.{AreKnown, StillKnown};
ghost use Rattle.ts_filter.specs.MachineSpans.{spans_of};
ghost use Rattle.ts_filter.specs.TermDrops.{AreLeft, IsDropAt, IsDropUpTo, IsFirstOrLeft, IsRefutedOutside};
ghost use Rattle.ts_filter.specs.TermDrops.{MayHaveDrop, cell_up_to, comes_before, earlier_of, least_drop};

use crate::box_tables::BoxTables;
use crate::cell_hulls::CellHulls;
use crate::courses::{Course, Step, first_asked};
use crate::held_machine::HeldMachine;
use crate::kept_cells::{KeptTerm, is_alive, spared_to};
use crate::placed_values::PlacedValues;
use crate::question::Question;
use crate::spares::{Answer, NothingSpared, Spares};
use crate::term_requirements::TermRequirements;
use std::alloc::Global;
use ts_base::Memory;
use ts_domain::{Boxed, Domain};
use ts_glue::Machine;
use ts_model::Require;

/// A value of a cell that has others, and a requirement that no series with it there meets. Cells and requirements
/// count from 1.
#[derive(Clone, Copy, Debug, PartialEq, Eq)]
pub struct Removal {
    pub cell: u32,
    pub value: i64,
    pub require: u32,
}

/// The possible drop with the least cell, then the least value, then the least requirement; none exactly where none is
/// possible. The machines are in the order of the terms. The tables of a machine are made once, one machine's at a
/// time, and each value of each cell is looked at once for all requirements of a term, as far as the answer needs it.
pub fn next_drop(
    alloc: Global,
    machines: &[Machine],
    requirements: &[Require],
    cells: &Boxed,
) -> Result<Option<Removal>, Memory>
    requires machines { length machines.now < too_many }
    requires requirements { length requirements.now < too_many }
    requires terms { AllByRecursion (λ r. r.term < length machines.now) requirements.now }
    requires looks { AllByRecursion (λ m. LooksIn (automata_of m) cells.now.present) machines.now }
    ensures { IfOk result
        (λ found. IsFirstDrop requirements.now (spans_of (map automata_of machines.now)) cells.now.present found) }
{
    let mut first = None;
    for term in 0..machines.len() {
        let last = last_asked(first, cells);
        let found = drop_of_term(
            alloc,
            &machines[term],
            term as u32,
            requirements,
            last,
            cells,
        )?;
        first = earlier(first, found);
    }
    Ok(first)
}

/// The first of the drops by the requirements of the term whose machine this is, up to cell `last`. No table is made
/// for a term without requirements.
fn drop_of_term(
    alloc: Global,
    machine: &Machine,
    term: u32,
    requirements: &[Require],
    last: u32,
    cells: &Boxed,
) -> Result<Option<Removal>, Memory>
    requires requirements { length requirements.now < too_many }
    requires looks { LooksIn (automata_of machine.now) cells.now.present }
    ensures { IfOk result (λ found. IsFirstOf
        (IsDropUpTo requirements.now term (automata_of machine.now) cells.now.present last) found) }
{
    match TermRequirements::among(requirements, term) {
        Some(own) => {
            let mut tables = BoxTables::new(alloc, HeldMachine::Lent(machine));
            tables.first_drop(alloc, own, last, None, &NothingSpared, cells)
        }
        None => Ok(None),
    }
}

impl<'a> BoxTables<'a> {
    /// The first of the drops by these requirements of the term whose machine this is, up to cell `last`: that with the
    /// least cell, then the least value, then the least requirement. None exactly where none is possible.
    pub(crate) fn first_drop<S: Spares>(
        &mut self,
        alloc: Global,
        own: TermRequirements<'_>,
        last: u32,
        kept: Option<&KeptTerm>,
        spares: &S,
        cells: &Boxed,
    ) -> Result<Option<Removal>, Memory>
        requires looks { LooksIn self.old.machine cells.now.present }
        requires kept { IsKeptIfKnown own.all.now own.term self.old.machine cells.now.present
            (option_map (λ t. t.now) kept) }
        requires spares { Tells S.knows own.all.now own.term self.old.machine cells.now.present spares.now }
        requires known { AreKnown cells.now.present self.old }
        ensures known { StillKnown cells.now.present self.old self.new }
        ensures found { IfOk result (λ found. IsFirstOf
            (IsDropUpTo own.entry.all.now own.entry.term self.old.machine cells.now.present last) found) }
    {
        let mut course = self.course(alloc, own, kept, cells)?;
        while course.before < last {
            let step = self.step(alloc, own, course, kept, spares, cells)?;
            if step.found.is_some() {
                return Ok(step.found);
            }
            course = step.course;
        }
        Ok(None)
    }

    /// Where drops by these requirements of the term whose machine this is may be. If there was none in any cell, the
    /// cells that are looked at aren't asked about again before one of them changes. By what is kept of the term some
    /// needn't be asked about at all: no row is made for cells with one value, or of which all values are spared.
    pub(crate) fn course(
        &mut self,
        alloc: Global,
        own: TermRequirements<'_>,
        kept: Option<&KeptTerm>,
        cells: &Boxed,
    ) -> Result<Course, Memory>
        requires looks { LooksIn self.old.machine cells.now.present }
        requires kept { IsKeptIfKnown own.all.now own.term self.old.machine cells.now.present
            (option_map (λ t. t.now) kept) }
        requires known { AreKnown cells.now.present self.old }
        ensures known { StillKnown cells.now.present self.old self.new }
        ensures course { IfOk result
            (λ course. IsCourse own.entry.all.now own.entry.term self.old.machine cells.now.present course) }
    {
        let outside = self.refuted_outside(alloc, own, kept, cells)?;
        if outside.is_none() && self.is_quiet(own) {
            return Ok(Course::ended());
        }
        let (from, last) = self.asked_for_drops(outside, cells);
        let before = first_asked(kept, from, last, cells);
        let course = Course {
            before,
            last,
            outside,
        };
        self.remember(alloc, own, course, cells)?;
        Ok(course)
    }

    /// The first of the drops by these requirements at the next cell of the course, and the course after that.
    pub(crate) fn step<S: Spares>(
        &mut self,
        alloc: Global,
        own: TermRequirements<'_>,
        course: Course,
        kept: Option<&KeptTerm>,
        spares: &S,
        cells: &Boxed,
    ) -> Result<Step, Memory>
        requires going { course.before < past_all }
        requires course { IsCourse own.all.now own.term self.old.machine cells.now.present course }
        requires looks { LooksIn self.old.machine cells.now.present }
        requires kept { IsKeptIfKnown own.all.now own.term self.old.machine cells.now.present
            (option_map (λ t. t.now) kept) }
        requires spares { Tells S.knows own.all.now own.term self.old.machine cells.now.present spares.now }
        requires known { AreKnown cells.now.present self.old }
        ensures known { StillKnown cells.now.present self.old self.new }
        ensures step { IfOk result (λ step. IsStep
            own.entry.all.now own.entry.term self.old.machine cells.now.present course step) }
    {
        let k = course.before + 1;
        let limit = spared_to(kept, k);
        let found = self.drop_at(alloc, k, own, course.outside, limit, spares, cells)?;
        if found.is_some() {
            return Ok(Step { found, course });
        }
        let before = first_asked(kept, k, course.last, cells);
        let next = Course {
            before,
            last: course.last,
            outside: course.outside,
        };
        self.remember(alloc, own, next, cells)?;
        Ok(Step {
            found,
            course: next,
        })
    }

    /// Remembers that there is no drop, if the course has come to its end.
    fn remember(
        &mut self,
        alloc: Global,
        own: TermRequirements<'_>,
        course: Course,
        cells: &Boxed,
    ) -> Result<(), Memory>
        requires course { IsCourse own.all.now own.term self.old.machine cells.now.present course }
        requires looks { LooksIn self.old.machine cells.now.present }
        requires known { AreKnown cells.now.present self.old }
        ensures known { StillKnown cells.now.present self.old self.new }
    {
        let _cells = cells;
        if course.before < course.last {
            return Ok(());
        }
        self.found_nothing(alloc, own)
    }

    /// The first requirement that is refuted at each cell outside the window, whatever value it has: all these cells
    /// have one span. None is looked for if none of these cells may be used, or if it is known that no requirement is
    /// refuted anywhere.
    fn refuted_outside(
        &mut self,
        alloc: Global,
        own: TermRequirements<'_>,
        kept: Option<&KeptTerm>,
        cells: &Boxed,
    ) -> Result<Option<u32>, Memory>
        requires kept { IsKeptIfKnown own.all.now own.term self.old.machine cells.now.present
            (option_map (λ t. t.now) kept) }
        requires looks { LooksIn self.old.machine cells.now.present }
        requires known { AreKnown cells.now.present self.old }
        ensures known { StillKnown cells.now.present self.old self.new }
        ensures found { IfOk result
            (λ found. IsRefutedOutside own.entry.all.now own.entry.term self.old.machine cells.now.present found) }
    {
        if is_alive(kept) {
            return Ok(None);
        }
        let (first, last) = self.ends(cells);
        if first <= self.unusable(cells) + 1 && last == cells.cells() {
            return Ok(None);
        }
        let asked = Question::each_met(own);
        self.make_at(alloc, asked, last, cells)?;
        Ok(self.hulls_at(last, cells).first_refuted_by_all(asked, own))
    }

    /// The cells at which drops are looked for: those after the first number, up to the second. They are all that may
    /// be used, or only those inside the window if no drop can be outside it.
    fn asked_for_drops(&self, outside: Option<u32>, cells: &Boxed) -> (u32, u32)
        requires { LooksIn self.now.machine cells.now.present }
        ensures domains { IsBox cells.now.present }
        ensures each { (k : ℕ) → result.0 < k → k ≤ result.1 → IsUsable self.now.machine k cells.now.present }
        ensures all { (k : ℕ) → IsUsable self.now.machine k cells.now.present →
            MayHaveDrop self.now.machine outside k → (result.0 < k) × (k ≤ result.1) }
    {
        let count = cells.cells();
        let unusable = self.unusable(cells);
        let (first, last) = self.ends(cells);
        match outside {
            Some(_) => (unusable, count),
            None => (unusable.max(first - 1), last),
        }
    }

    /// The first of the drops at cell `k`, where `outside` is refuted if that is outside the window. None is of a
    /// value up to the limit.
    fn drop_at<S: Spares>(
        &mut self,
        alloc: Global,
        k: u32,
        own: TermRequirements<'_>,
        outside: Option<u32>,
        limit: i64,
        spares: &S,
        cells: &Boxed,
    ) -> Result<Option<Removal>, Memory>
        requires usable { IsUsable self.old.machine k cells.now.present }
        requires outside { IsRefutedOutside own.all.now own.term self.old.machine cells.now.present outside }
        requires spared { IsSparedAt own.all.now own.term self.old.machine cells.now.present k limit }
        requires spares { Tells S.knows own.all.now own.term self.old.machine cells.now.present spares.now }
        requires looks { LooksIn self.old.machine cells.now.present }
        requires known { AreKnown cells.now.present self.old }
        ensures known { StillKnown cells.now.present self.old self.new }
        ensures found { IfOk result (λ found. IsFirstOf
            (IsDropAt own.entry.all.now own.entry.term self.old.machine cells.now.present k) found) }
    {
        if !self.looks_at(k) {
            return Ok(drop_outside(k, cells, outside));
        }
        let asked = Question::each_met(own);
        self.make_at(alloc, asked, k, cells)?;
        let (found, count) = drop_in_cell(&self.hulls_at(k, cells), asked, own, limit, spares);
        self.count_values(count);
        Ok(found)
    }

    /// How many cells come before the first that may be used: all but the last where the machine can't be split.
    fn unusable(&self, cells: &Boxed) -> u32
        ensures from { (k : ℕ) → HasCell k cells.now.present → result + 1 ≤ k →
            IsUsable self.now.machine k cells.now.present }
        ensures to { (k : ℕ) → IsUsable self.now.machine k cells.now.present → result + 1 ≤ k }
        ensures fits { result + 1 < 4294967296 }
    {
        if self.is_plain() {
            cells.cells().saturating_sub(1)
        } else {
            0
        }
    }
}

/// The first of the drops at one cell by these requirements, none of which is of a value up to the limit; and how many
/// values spans were asked about: those alone of which it isn't known before that none is dropped.
fn drop_in_cell<S: Spares>(
    hulls: &CellHulls<'_>,
    asked: Question<'_>,
    own: TermRequirements<'_>,
    limit: i64,
    spares: &S,
) -> (Option<Removal>, u64)
    requires usable { IsUsable hulls.now.machine hulls.now.cell hulls.now.cells }
    requires serves { Serves hulls.now asked }
    requires asked { AsksEach own asked }
    requires spared { IsSparedAt own.all.now own.term hulls.now.machine hulls.now.cells hulls.now.cell limit }
    requires spares { Tells S.knows own.all.now own.term hulls.now.machine hulls.now.cells spares.now }
    ensures { IsFirstOf (IsDropAt own.entry.all.now own.entry.term
        hulls.now.machine hulls.now.cells hulls.now.cell) result.0 }
{
    let mut count = 0;
    let values = hulls.values();
    let size = values.size();
    if size < 2 {
        return (None, count);
    }
    let mut placed = PlacedValues::new(values);
    let mut i = count_up_to(values, limit, 0);
    while i < size {
        let value = placed.at(i);
        let told = told_of(hulls, own, value, spares);
        let to = count_told(values, size, i, value, told.to);
        let (found, more) = first_between(hulls, asked, own, &mut placed, value, i, to, told.free);
        count = count.wrapping_add(more);
        if found.is_some() {
            return (found, count);
        }
        i = after_run(hulls, asked, own, i, to, size);
    }
    (None, count)
}

/// The place to go on from after the values at the places from `from` on, before `to`. Where that was one value alone,
/// as where a term reads values, pairs of states pass over more at once than a witness tells of one by one.
fn after_run(
    hulls: &CellHulls<'_>,
    asked: Question<'_>,
    own: TermRequirements<'_>,
    from: u64,
    to: u64,
    size: u64,
) -> u64
    requires usable { IsUsable hulls.now.machine hulls.now.cell hulls.now.cells }
    requires serves { Serves hulls.now asked }
    requires asked { AsksEach own asked }
    requires order { from ≤ to }
    requires inside { to ≤ size }
    requires size { size ≡ length (values_at hulls.now.cell hulls.now.cells) }
    requires left { AreLeft own.all.now own.term hulls.now.machine hulls.now.cells hulls.now.cell
        (drop to (values_at hulls.now.cell hulls.now.cells)) }
    ensures from { to ≤ result }
    ensures to { result ≤ size }
    ensures left { AreLeft own.entry.all.now own.entry.term hulls.now.machine hulls.now.cells hulls.now.cell
        (drop result (values_at hulls.now.cell hulls.now.cells)) }
{
    let _own = own;
    if to - from > 1 {
        return to;
    }
    hulls.settled_to(asked, to, size)
}

/// What is known of the value `v` of the cell, and of those after it.
fn told_of<S: Spares>(
    hulls: &CellHulls<'_>,
    own: TermRequirements<'_>,
    v: i64,
    spares: &S,
) -> Answer
    requires usable { IsUsable hulls.now.machine hulls.now.cell hulls.now.cells }
    requires many { 2 ≤ length (values_at hulls.now.cell hulls.now.cells) }
    requires value { Contains (values_at hulls.now.cell hulls.now.cells) v }
    requires spares { Tells S.knows own.all.now own.term hulls.now.machine hulls.now.cells spares.now }
    ensures to { v ≤ℤ result.to }
    ensures answered { AreFree own.entry.all.now own.entry.term
        hulls.now.machine hulls.now.cells hulls.now.cell v result }
{
    spares.tell(own.all, own.term, hulls.cell(), v, hulls.cells)
}

/// The first of the drops at one cell, if it is of a value at the places from `from` on, before `to`; none is of one
/// before these. And of how many values spans are asked: of none where it is known that none before `to` is dropped.
/// Most are passed over without being found: pairs of states settle that none of the requirements is refuted there.
/// `first` is the value at place `from`.
fn first_between(
    hulls: &CellHulls<'_>,
    asked: Question<'_>,
    own: TermRequirements<'_>,
    placed: &mut PlacedValues<'_>,
    first: i64,
    from: u64,
    to: u64,
    free: bool,
) -> (Option<Removal>, u64)
    requires usable { IsUsable hulls.now.machine hulls.now.cell hulls.now.cells }
    requires many { 2 ≤ length (values_at hulls.now.cell hulls.now.cells) }
    requires serves { Serves hulls.now asked }
    requires asked { AsksEach own asked }
    requires order { from ≤ to }
    requires inside { to ≤ length (values_at hulls.now.cell hulls.now.cells) }
    requires placed { placed.old ≡ values_at hulls.now.cell hulls.now.cells }
    requires first { slice_get (values_at hulls.now.cell hulls.now.cells) from ≡ Some first }
    requires left { AreLeft own.all.now own.term hulls.now.machine hulls.now.cells hulls.now.cell
        (drop from (values_at hulls.now.cell hulls.now.cells)) }
    requires free { IsTrue free → AreLeft own.all.now own.term hulls.now.machine hulls.now.cells hulls.now.cell
        (drop to (values_at hulls.now.cell hulls.now.cells)) }
    ensures placed { placed.new ≡ placed.old }
    ensures found { IsFirstOrLeft own.entry.all.now own.entry.term hulls.now.machine hulls.now.cells hulls.now.cell
        (drop to (values_at hulls.now.cell hulls.now.cells)) result.0 }
{
    if free {
        return (None, 0);
    }
    let count = to - from;
    let mut i = hulls.settled_to(asked, from, to);
    while i < to {
        let value = value_at(placed, i, from, first);
        if let Some(require) = hulls.first_refuted(asked, own, i, value) {
            let drop = Removal {
                cell: hulls.cell(),
                value,
                require,
            };
            return (Some(drop), count);
        }
        i = hulls.settled_further(asked, i + 1, to);
    }
    (None, count)
}

/// The value at place `i`, where that at place `from` is known.
fn value_at(placed: &mut PlacedValues<'_>, i: u64, from: u64, known: i64) -> i64
    requires inside { i < length placed.old }
    requires known { slice_get placed.old from ≡ Some known }
    ensures same { placed.new ≡ placed.old }
    ensures value { slice_get placed.old i ≡ Some result }
{
    if i == from {
        return known;
    }
    placed.at(i)
}

/// How many values come first that are at most `to`, as that at place `i` is. Where a value is told of alone, that is
/// `to`, and no place is searched for.
fn count_told(values: &Domain, size: u64, i: u64, value: i64, to: i64) -> u64
    requires domain { IsDomain values.now }
    requires size { size ≡ length values.now }
    requires value { slice_get values.now i ≡ Some value }
    requires up { value ≤ℤ to }
    ensures more { i < result }
    ensures to { result ≤ length values.now }
    ensures below { (j : ℕ) (v : ℤ) → j < result → slice_get values.now j ≡ Some v → v ≤ℤ to }
{
    // the place fits, as the number of values does
    let _size = size;
    if value == to {
        return i + 1;
    }
    count_up_to(values, to, i + 1)
}

/// How many values come first that are at most the limit, as the first `known` ones are. It may lie in a gap between
/// two of them, found by halving.
fn count_up_to(values: &Domain, limit: i64, known: u64) -> u64
    requires within { known ≤ length values.now }
    requires known { (i : ℕ) (v : ℤ) → i < known → slice_get values.now i ≡ Some v → v ≤ℤ limit }
    ensures to { result ≤ length values.now }
    ensures below { (i : ℕ) (v : ℤ) → i < result → slice_get values.now i ≡ Some v → v ≤ℤ limit }
    ensures above { (i : ℕ) (v : ℤ) → result ≤ i → slice_get values.now i ≡ Some v → limit <ℤ v }
{
    // its values rise, and their number fits
    let size = values.size();
    if values.contains(limit) {
        return values.place_of(limit) + 1;
    }
    if values.ends().high <= limit {
        return size;
    }
    let mut from = known;
    let mut to = size;
    while from < to {
        let middle = from + (to - from) / 2;
        let value = values.nth(middle);
        if value <= limit {
            from = middle + 1;
        } else {
            to = middle;
        }
    }
    from
}

/// The drop of the least value of cell `k` by a requirement that is refuted whatever value the cell has.
fn drop_outside(k: u32, cells: &Boxed, refuted: Option<u32>) -> Option<Removal>
    requires { HasCell k cells.now.present }
    ensures least { result ≡ least_drop k (values_at k cells.now.present) refuted }
    ensures domain { IsDomain (values_at k cells.now.present) }
{
    let values = cells.cell(k);
    let many = values.size() >= 2;
    match refuted {
        Some(require) if many => Some(Removal {
            cell: k,
            value: values.least(),
            require,
        }),
        _ => None,
    }
}

/// The last cell in which a drop may come before this one: in later cells none is looked for.
pub(crate) fn last_asked(first: Option<Removal>, cells: &Boxed) -> u32
    ensures { result ≡ cell_up_to first (length cells.now.present) }
{
    match first {
        Some(drop) => drop.cell,
        None => cells.cells(),
    }
}

/// The one of two drops that comes first.
pub(crate) fn earlier(first: Option<Removal>, second: Option<Removal>) -> Option<Removal>
    ensures { result ≡ earlier_of first second }
{
    match (first, second) {
        (Some(a), Some(b)) => Some(if is_before(&b, &a) { b } else { a }),
        (None, found) => found,
        (found, None) => found,
    }
}

/// Whether `a` comes before `b`: by the cell, then by the value, then by the requirement.
fn is_before(a: &Removal, b: &Removal) -> bool
    ensures { result ≡ comes_before a.now b.now }
{
    a.cell < b.cell
        || a.cell == b.cell && (a.value < b.value || a.value == b.value && a.require < b.require)
}
