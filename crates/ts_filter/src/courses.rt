//! Drops that are looked for cell by cell: at each cell in turn every term is asked that may have one there.

ghost use Rattle.std.specs.Prelude.{◌≡◌, ◌⊎◌, ◌<◌, ◌≤◌, ℕ, IfOk, IsTrue, None, OnOk, false, length, option_map};
ghost use Rattle.std.specs.List.{AllByRecursion};
ghost use Rattle.ts_base.specs.Limits.{too_many};
ghost use Rattle.ts_bound.specs.TermSpans.{LooksIn};
ghost use Rattle.ts_filter.specs.Boxes.{HasCell};
ghost use Rattle.ts_filter.specs.Courses.{AllFrom, AreAsked, AreCourses, ArePassed, HasCourse, IsCourse, IsPassed};
ghost use Rattle.ts_filter.specs.Courses.{IsStep, past_all};
ghost use Rattle.ts_filter.specs.Drops.{IsFirstDrop};
ghost use Rattle.ts_filter.specs.KeptCells.{AreKept};
ghost use Rattle.ts_filter.specs.MachineSpans.{spans_of};
ghost use Rattle.ts_filter.specs.OfTerm.{OfTerm};
ghost use Rattle.ts_filter.specs.Tables.{AreRowsOfEach, machines_of};

use crate::box_tables::BoxTables;
use crate::drops::{Removal, earlier};
use crate::kept_cells::{KeptCells, KeptTerm, spared_to};
use crate::spares::Spares;
use crate::term_requirements::TermRequirements;
use std::alloc::Global;
use ts_base::Memory;
use ts_base::limits::CELL_VALUE;
use ts_domain::Boxed;
use ts_model::Require;

/// More cells than come before any cell.
const PAST_ALL: u32 = u32::MAX;

/// Where drops by the requirements of a term may still be: at the cells after the first `before`, up to cell `last`.
/// The next of these is to be asked about; where none is left, `before` is `PAST_ALL`. `outside` is the requirement
/// that is refuted at all cells outside the window.
#[derive(Clone, Copy)]
pub(crate) struct Course {
    pub(crate) before: u32,
    pub(crate) last: u32,
    pub(crate) outside: Option<u32>,
}

/// The course of a term that requirements name.
#[derive(Clone, Copy)]
pub(crate) struct TermCourse {
    pub(crate) term: u32,
    pub(crate) course: Course,
}

/// The first drop at the next cell of a course, and where drops may still be: at that cell too, if there is one.
#[derive(Clone, Copy)]
pub(crate) struct Step {
    pub(crate) found: Option<Removal>,
    pub(crate) course: Course,
}

impl Course {
    /// No drop is possible.
    pub(crate) fn ended() -> Course
        ensures { result ≡ record { before = past_all; last = 0; outside = None } }
    {
        Course {
            before: PAST_ALL,
            last: 0,
            outside: None,
        }
    }
}

/// How many cells come before the first one that is asked about, of those after the first `from`, up to cell `to`.
/// `PAST_ALL` where none of these is.
pub(crate) fn first_asked(kept: Option<&KeptTerm>, from: u32, to: u32, cells: &Boxed) -> u32
    requires { (k : ℕ) → from < k → k ≤ to → HasCell k cells.now.present }
    ensures passed { ArePassed (option_map (λ t. t.now) kept.entry) cells.now.present from to result }
    ensures from { from ≤ result }
    ensures there { (result < to) ⊎ (result ≡ past_all) }
{
    for before in from..to {
        if is_asked(kept, before + 1, cells) {
            return before;
        }
    }
    PAST_ALL
}

/// Whether a value of cell `k` may be dropped: it has others, and not all of its values are known to be spared.
fn is_asked(kept: Option<&KeptTerm>, k: u32, cells: &Boxed) -> bool
    requires { HasCell k cells.now.present }
    ensures { result ≡ false → IsPassed (option_map (λ t. t.now) kept.entry) cells.now.present k }
{
    if cells.cell(k).is_single() {
        return false;
    }
    let limit = spared_to(kept, k);
    if limit >= CELL_VALUE {
        return false;
    }
    true
}

/// The possible drop with the least cell, then the least value, then the least requirement; none exactly where none is
/// possible. `courses` has memory for one course of each term that is named.
pub(crate) fn first_by_cells<S: Spares>(
    alloc: Global,
    each: &mut Vec<BoxTables<'_>>,
    courses: &mut Vec<TermCourse>,
    requirements: &[Require],
    kept: &KeptCells,
    spares: &S,
    cells: &Boxed,
) -> Result<Option<Removal>, Memory>
    requires requirements { length requirements.now < too_many }
    requires terms { AllByRecursion (λ r. r.term < length (machines_of each.old.items)) requirements.now }
    requires looks { AllByRecursion (λ a. LooksIn a cells.now.present) (machines_of each.old.items) }
    requires kept { AreKept requirements.now (spans_of (machines_of each.old.items)) cells.now.present kept.now }
    requires spares { S.knows requirements.now (spans_of (machines_of each.old.items)) cells.now.present spares.now }
    requires known { AreRowsOfEach cells.now.present each.old.items }
    ensures machines { machines_of each.new.items ≡ machines_of each.old.items }
    ensures known { AreRowsOfEach cells.now.present each.new.items }
    ensures found { IfOk result (λ found. IsFirstDrop
        requirements.now (spans_of (machines_of each.old.items)) cells.now.present found) }
{
    begin_all(alloc, each, courses, requirements, kept, cells)?;
    let count = cells.cells();
    let mut before = least_before(courses.as_slice());
    while before < count {
        let found = drops_at(
            alloc,
            before,
            each,
            courses,
            requirements,
            kept,
            spares,
            cells,
        )?;
        if found.is_some() {
            return Ok(found);
        }
        before = least_before(courses.as_slice());
    }
    Ok(None)
}

/// Where drops may be, of each term that a requirement names: others have none.
fn begin_all(
    alloc: Global,
    each: &mut Vec<BoxTables<'_>>,
    courses: &mut Vec<TermCourse>,
    requirements: &[Require],
    kept: &KeptCells,
    cells: &Boxed,
) -> Result<(), Memory>
    requires requirements { length requirements.now < too_many }
    requires terms { AllByRecursion (λ r. r.term < length (machines_of each.old.items)) requirements.now }
    requires looks { AllByRecursion (λ a. LooksIn a cells.now.present) (machines_of each.old.items) }
    requires kept { AreKept requirements.now (spans_of (machines_of each.old.items)) cells.now.present kept.now }
    requires known { AreRowsOfEach cells.now.present each.old.items }
    ensures machines { machines_of each.new.items ≡ machines_of each.old.items }
    ensures known { AreRowsOfEach cells.now.present each.new.items }
    ensures courses { OnOk result (AreCourses
        requirements.now (machines_of each.old.items) cells.now.present courses.new.items) }
{
    courses.clear();
    for at in 0..requirements.len() {
        let r = &requirements[at];
        if has_course(courses.as_slice(), r.term) {
            continue;
        }
        let course = course_of_term(alloc, each, r.term, requirements, kept, cells)?;
        courses.push(TermCourse {
            term: r.term,
            course,
        })?;
    }
    Ok(())
}

/// Whether one of the courses is that of the term.
fn has_course(courses: &[TermCourse], term: u32) -> bool
    ensures { IsTrue result → HasCourse courses.now term }
{
    for i in 0..courses.len() {
        if courses[i].term == term {
            return true;
        }
    }
    false
}

/// Where the drops of a term may be.
fn course_of_term(
    alloc: Global,
    each: &mut Vec<BoxTables<'_>>,
    term: u32,
    requirements: &[Require],
    kept: &KeptCells,
    cells: &Boxed,
) -> Result<Course, Memory>
    requires there { term < length each.old.items }
    requires requirements { length requirements.now < too_many }
    requires looks { AllByRecursion (λ a. LooksIn a cells.now.present) (machines_of each.old.items) }
    requires kept { AreKept requirements.now (spans_of (machines_of each.old.items)) cells.now.present kept.now }
    requires known { AreRowsOfEach cells.now.present each.old.items }
    ensures machines { machines_of each.new.items ≡ machines_of each.old.items }
    ensures known { AreRowsOfEach cells.now.present each.new.items }
    ensures course { IfOk result (λ course. OfTerm (machines_of each.old.items) term
        (λ a. IsCourse requirements.now term a cells.now.present course)) }
{
    match TermRequirements::among(requirements, term) {
        Some(own) => each[term as usize].course(alloc, own, kept.of_term(term as usize), cells),
        None => Ok(Course::ended()),
    }
}

/// How many cells come at least before the next one of each course.
fn least_before(courses: &[TermCourse]) -> u32
    ensures least { AllFrom result courses.now }
    ensures greatest { (m : ℕ) → m ≤ past_all → AllFrom m courses.now → m ≤ result }
{
    let mut least = PAST_ALL;
    for i in 0..courses.len() {
        least = least.min(courses[i].course.before);
    }
    least
}

/// The first of the drops at the cell after the first `before`. The terms are asked of which it is the next cell: the
/// others have none there.
fn drops_at<S: Spares>(
    alloc: Global,
    before: u32,
    each: &mut Vec<BoxTables<'_>>,
    courses: &mut Vec<TermCourse>,
    requirements: &[Require],
    kept: &KeptCells,
    spares: &S,
    cells: &Boxed,
) -> Result<Option<Removal>, Memory>
    requires requirements { length requirements.now < too_many }
    requires looks { AllByRecursion (λ a. LooksIn a cells.now.present) (machines_of each.old.items) }
    requires kept { AreKept requirements.now (spans_of (machines_of each.old.items)) cells.now.present kept.now }
    requires spares { S.knows requirements.now (spans_of (machines_of each.old.items)) cells.now.present spares.now }
    requires known { AreRowsOfEach cells.now.present each.old.items }
    requires going { before < past_all }
    requires courses { AreCourses requirements.now (machines_of each.old.items) cells.now.present courses.old.items }
    requires from { AllFrom before courses.old.items }
    ensures machines { machines_of each.new.items ≡ machines_of each.old.items }
    ensures known { AreRowsOfEach cells.now.present each.new.items }
    ensures asked { IfOk result (AreAsked
        requirements.now (machines_of each.old.items) cells.now.present before courses.new.items) }
{
    let mut first = None;
    for i in 0..courses.len() {
        let next = courses[i];
        if next.course.before != before {
            continue;
        }
        let term = next.term;
        let course = next.course;
        let step = step_of_term(alloc, each, term, course, requirements, kept, spares, cells)?;
        courses[i] = TermCourse {
            term,
            course: step.course,
        };
        first = earlier(first, step.found);
    }
    Ok(first)
}

/// The first drop of a term at the next cell of its course.
fn step_of_term<S: Spares>(
    alloc: Global,
    each: &mut Vec<BoxTables<'_>>,
    term: u32,
    course: Course,
    requirements: &[Require],
    kept: &KeptCells,
    spares: &S,
    cells: &Boxed,
) -> Result<Step, Memory>
    requires there { term < length each.old.items }
    requires requirements { length requirements.now < too_many }
    requires looks { AllByRecursion (λ a. LooksIn a cells.now.present) (machines_of each.old.items) }
    requires kept { AreKept requirements.now (spans_of (machines_of each.old.items)) cells.now.present kept.now }
    requires spares { S.knows requirements.now (spans_of (machines_of each.old.items)) cells.now.present spares.now }
    requires known { AreRowsOfEach cells.now.present each.old.items }
    requires going { course.before < past_all }
    requires course { OfTerm (machines_of each.old.items) term
        (λ a. IsCourse requirements.now term a cells.now.present course) }
    ensures machines { machines_of each.new.items ≡ machines_of each.old.items }
    ensures known { AreRowsOfEach cells.now.present each.new.items }
    ensures step { IfOk result (λ step. OfTerm (machines_of each.old.items) term
        (λ a. IsStep requirements.now term a cells.now.present course step)) }
{
    match TermRequirements::among(requirements, term) {
        Some(own) => {
            let known = kept.of_term(term as usize);
            each[term as usize].step(alloc, own, course, known, spares, cells)
        }
        None => Ok(Step {
            found: None,
            course: Course::ended(),
        }),
    }
}
