//! The hulls of a machine that are known of a box while the box changes. The questions that they answer are in
//! `at_cell`, `first_cell`, `drops` and `kept`.

ghost use Rattle.std.specs.Prelude.{◌≡◌, ◌↔◌, ◌≤◌, [], IfSome, IsTrue, MatchOption, OnOk, None, length};
ghost use Rattle.ts_base.specs.Windows.{looked_at};
ghost use Rattle.ts_bound.specs.Looks.{count_looked, first_looked, is_looked, last_looked, read_at};
ghost use Rattle.ts_bound.specs.TermSpans.{LooksIn, automata_of};
ghost use Rattle.ts_bound.specs.AnyRows.{IsFormOf, form_of, form_sides, viewed};
ghost use Rattle.ts_bound.specs.BoxRows.{IsPlannedBack};
ghost use Rattle.ts_bound.specs.BoxRows.{IsChange};
ghost use Rattle.ts_bound.specs.Others.{AreOthers};
ghost use Rattle.ts_bound.specs.RowStacks.{no_rows, nothing_laid};
ghost use Rattle.ts_filter.specs.Boxes.{Box};
ghost use Rattle.ts_filter.specs.Alike.{IsServed};
ghost use Rattle.ts_filter.specs.CellHulls.{HasHulls, IsBackSide, Serves, at_cell};
ghost use Rattle.ts_filter.specs.HeldMachine.{machine_in};
ghost use Rattle.ts_filter.specs.KnownRows.{AreKnown, AreRowsOf, HasJoints, HasRows, ends_of};
ghost use Rattle.ts_filter.specs.KnownRows.{KnownWhereNone, StillKnown};
ghost use Rattle.ts_filter.specs.TermDrops.{AreAmong};
ghost use Rattle.ts_glue.specs.Machines.{forward_of, pair_of};

use crate::cell_hulls::{BackSide, CellHulls};
use crate::enough_form::enough_form;
use crate::held_machine::HeldMachine;
use crate::question::Question;
use crate::term_requirements::TermRequirements;
use std::alloc::Global;
use std::marker::Model;
use std::mem;
use ts_base::Memory;
use ts_bound::laws::machine_is_whole;
use ts_bound::{
    Change, Direction, Form, Others, Reading, RowStack, ends, is_looked, looked_count, make_rows,
    read_at,
};
use ts_domain::{Boxed, Domain};
use ts_glue::Machine;
use ts_meet::Joints;
use ts_model::Require;

/// What one machine says of a box while the box changes. Rows of hulls are made when a question first needs them, only
/// for the cells that the machine looks at; after a change those that it doesn't reach stay. The others aren't known
/// then, but are kept: once a row after the changed cells comes out as it was, those after it are known too. The box
/// isn't inside: each question takes it, and each change of it has to be reported by `meet_others`. Contracts see the
/// machine and the rows that are known, forward ones from the first cell on that is looked at, backward ones from the
/// last one back; those that are kept; and requirements by which no drop was found at a cell that is looked at, nor is
/// any there before one of these cells changes. At each cell that was asked about, the value that showed last that some
/// number does what is asked is `likely` to show it again. The rows have the one end of each register that is enough
/// for what was asked, once anything was `asked`, or both ends. Tables that are `empty` have no rows and no such
/// requirements, so they need not be told of a change. `questions` counts for tests.
#[derive(Drop)]
pub(crate) struct BoxTables<'a> {
    machine: HeldMachine<'a>,
    asked: bool,
    empty: bool,
    ahead: RowStack,
    behind: RowStack,
    joints: Option<Joints>,
    quiet: Vec<Require>,
    likely: Vec<i64>,
    questions: u64,
}

impl<'a> Model for BoxTables<'a> {
    ghost use Rattle.std.specs.Coded.{codes};
    ghost use Rattle.std.specs.Prelude.{IsTrue};
    ghost use Rattle.ts_automaton.specs.Codes.{formula_code};
    ghost use Rattle.ts_bound.specs.TermSpans.{automata_of};
    ghost use Rattle.ts_filter.specs.HeldMachine.{machine_in};
    ghost use Rattle.ts_filter.specs.KnownRows.{AreEmpty, AreTables, KnownRows};

    ghost Value = { KnownRows };

    ghost coded = { Prim.hlevel (codes, formula_code) };

    ghost view = { λ t. record {
      machine = automata_of (machine_in t.machine);
      form = t.ahead.planned.form;
      ahead = t.ahead.known;
      behind = t.behind.known;
      laid_ahead = t.ahead.laid;
      laid_behind = t.behind.laid;
      kept_ahead = t.ahead.kept;
      kept_behind = t.behind.kept;
      quiet = t.quiet.items;
    } };

    ghost invariant = { λ t. AreTables (automata_of (machine_in t.machine)) t.ahead.planned t.behind.planned t.joints
        × (IsTrue t.empty → AreEmpty t.ahead t.behind t.quiet.items) };
}

impl<'a> BoxTables<'a> {
    /// Nothing is known of any box yet.
    pub(crate) fn new(alloc: Global, machine: HeldMachine<'a>) -> BoxTables<'a>
        ensures machine { result.machine ≡ automata_of (machine_in machine.entry) }
        ensures known { (cells : Box) → AreRowsOf cells result }
    {
        let m = machine.get();
        // the tables keep the rules of the automata, so that no question has to ask for them
        machine_is_whole(m);
        let form = Form::whole(m.forward().wide());
        let ahead = RowStack::new(alloc, m.forward(), form);
        let behind = rows_behind(alloc, m, form);
        let joints = joints_of(m);
        BoxTables {
            machine,
            asked: false,
            empty: true,
            ahead,
            behind,
            joints,
            quiet: Vec::new(alloc),
            likely: Vec::new(alloc),
            questions: 0,
        }
    }

    /// Follows a box from the domains `seen` to `cells`, which differ in these cells.
    pub(crate) fn meet_others(&mut self, others: &Others, seen: &[Domain], cells: &Boxed)
        requires looks { LooksIn self.old.machine cells.now.present }
        requires others { AreOthers others.now.each.items seen.now cells.now.present }
        ensures machine { self.new.machine ≡ self.old.machine }
        ensures known { AreKnown seen.now self.old → AreKnown cells.now.present self.new }
    {
        if self.empty {
            return;
        }
        let (first, last) = self.ends(cells);
        let from = first as usize - 1;
        let to = last as usize;
        let inside = &seen[from..to];
        match others.change_within(from, to) {
            Some(change) => self.changed(change, inside, cells),
            None => {}
        }
    }

    /// Forgets the rows that a change of the cells that are looked at reaches; these had the domains `seen`. The
    /// forward row of the first cell that changes may stay known, or be known again, with the values that this cell has
    /// now, and so may the backward row of the last one.
    fn changed(&mut self, change: Change, seen: &[Domain], cells: &Boxed)
        requires looks { LooksIn self.old.machine cells.now.present }
        requires change { IsChange change seen.now (looked_at self.old.machine.window cells.now.present) }
        ensures machine { self.new.machine ≡ self.old.machine }
        ensures known { AreRowsOf seen.now self.old → AreKnown cells.now.present self.new }
    {
        let window = self.machine.get().window();
        let ahead = Reading {
            cells,
            window,
            direction: Direction::FromFirst,
        };
        let behind = Reading {
            cells,
            window,
            direction: Direction::FromLast,
        };
        let unreached = change.count - change.last;
        let reached = change.count - change.first;
        self.empty = false;
        self.ahead.leave(
            change.first,
            change.last,
            change.gone_first,
            &seen[change.first],
            ahead.at(change.first),
        );
        self.behind.leave(
            unreached,
            reached,
            change.gone_last,
            &seen[change.last - 1],
            behind.at(unreached),
        );
        self.quiet.clear();
    }

    /// Forgets all that is known if it isn't to be kept.
    pub(crate) fn leave(&mut self, keeps: bool)
        ensures machine { self.new.machine ≡ self.old.machine }
        ensures known { (b : Box) → AreKnown b self.old → AreKnown b self.new }
    {
        if !keeps {
            self.forget();
        }
    }
}

impl<'a> BoxTables<'a> {
    /// Forgets all that is known, and so frees the memory of the rows.
    pub(crate) fn forget(&mut self)
        ensures machine { self.new.machine ≡ self.old.machine }
        ensures known { (cells : Box) → AreRowsOf cells self.new }
    {
        self.ahead.clear();
        self.behind.clear();
        self.quiet.clear();
        self.empty = true;
    }

    /// Whether it's known that no drop by these requirements is at a cell that is looked at.
    pub(crate) fn is_quiet(&self, own: TermRequirements<'_>) -> bool
        ensures { IsTrue result → AreAmong own.entry.all.now own.entry.term self.now.quiet }
    {
        own.are_among(self.quiet.as_slice())
    }

    /// Remembers that there is no drop by these requirements. A machine that can't be split is asked about the last
    /// cell alone: nothing is known of the others, and asking about one cell again costs little.
    pub(crate) fn found_nothing(
        &mut self,
        alloc: Global,
        own: TermRequirements<'_>,
    ) -> Result<(), Memory>
        ensures { KnownWhereNone own.entry.all.now own.entry.term self.old self.new }
    {
        if self.is_plain() {
            return Ok(());
        }
        let quiet = own.copied(alloc)?;
        self.empty = false;
        drop(mem::replace(&mut self.quiet, quiet));
        Ok(())
    }

    /// The value that is asked about first at cell `k`.
    pub(crate) fn likely_at(&self, k: u32) -> i64 {
        self.likely.get(k as usize).copied().unwrap_or(0)
    }

    /// Remembers the value that is to be asked about first at cell `k`.
    pub(crate) fn keep_likely(&mut self, k: u32, v: i64) -> Result<(), Memory>
        ensures { self.new ≡ self.old }
    {
        let at = k as usize;
        if self.likely.len() <= at {
            self.likely.resize(at + 1, v)?;
        }
        self.likely[at] = v;
        Ok(())
    }

    /// How many questions were put to these tables, each about one cell, and how many values spans were asked about
    /// when drops were looked for, in all; after 2^64 it starts again at 0.
    pub(crate) fn questions(&self) -> u64 {
        self.questions
    }

    /// Counts this many values about which spans are asked whether they are dropped.
    pub(crate) fn count_values(&mut self, count: u64)
        ensures { self.new ≡ self.old }
    {
        self.questions = self.questions.wrapping_add(count);
    }

    /// Whether the machine can't be split.
    pub(crate) fn is_plain(&self) -> bool
        ensures { IsTrue result ↔ (self.now.machine.pair ≡ None) }
    {
        self.machine.get().reverse().is_none()
    }

    /// Whether the machine looks at cell `k`.
    pub(crate) fn looks_at(&self, k: u32) -> bool
        ensures { result ≡ is_looked self.now.machine.window k }
    {
        is_looked(self.machine.get().window(), k)
    }

    /// The cell whose hulls answer a question about cell `p`: that cell, or the last one that the machine looks at.
    pub(crate) fn read_at(&self, p: u32) -> u32
        ensures { result ≡ read_at self.now.machine.window p }
    {
        read_at(self.machine.get().window(), p)
    }

    /// The first and the last cell that the machine looks at.
    pub(crate) fn ends(&self, cells: &Boxed) -> (u32, u32)
        ensures first { result.0 ≡ first_looked self.now.machine.window }
        ensures last { result.1 ≡ last_looked self.now.machine.window (length cells.now.present) }
    {
        ends(self.machine.get().window(), cells.cells())
    }
}

impl<'a> BoxTables<'a> {
    /// Makes the rows of cell `k` that are missing for the question. At the last cell that is looked at no backward row
    /// is needed.
    pub(crate) fn make_at(
        &mut self,
        alloc: Global,
        asked: Question<'_>,
        k: u32,
        cells: &Boxed,
    ) -> Result<(), Memory>
        requires hulls { HasHulls self.old.machine k cells.now.present }
        requires known { AreKnown cells.now.present self.old }
        ensures known { StillKnown cells.now.present self.old self.new }
        ensures there { OnOk result (HasRows k cells.now.present self.new) }
        ensures serves { Serves (at_cell self.new.machine cells.now.present k (ends_of self.new)) asked.entry }
    {
        self.serve(alloc, asked, cells);
        let (first, last) = self.ends(cells);
        self.make_ahead(alloc, (k - first) as usize + 1, cells)?;
        if k < last {
            self.make_behind(alloc, (last - k) as usize + 1, cells)?;
        }
        Ok(())
    }

    /// Sees to it that the rows have the ends that are enough for the question: rows that lack one are thrown away. The
    /// first question decides; once another end is asked for, rows have both. The question is counted.
    fn serve(&mut self, alloc: Global, asked: Question<'_>, cells: &Boxed)
        requires looks { LooksIn self.old.machine cells.now.present }
        requires known { AreKnown cells.now.present self.old }
        ensures known { StillKnown cells.now.present self.old self.new }
        ensures served { IsServed (ends_of self.new) self.new.machine.forward.mark
            (count_looked self.new.machine.window (length cells.now.present)) asked.entry }
    {
        let form = self.form_for(asked, cells);
        self.asked = true;
        self.questions = self.questions.wrapping_add(1);
        if form != self.ahead.form() {
            self.turn(alloc, form);
        }
    }

    /// The form of rows for this question and those before.
    fn form_for(&self, asked: Question<'_>, cells: &Boxed) -> Form
        requires looks { LooksIn self.now.machine cells.now.present }
        ensures width { IsFormOf self.now.machine.forward.wide result }
        ensures served { IsServed (form_sides result) self.now.machine.forward.mark
            (count_looked self.now.machine.window (length cells.now.present)) asked.entry }
    {
        let m = self.machine.get();
        let whole = Form::whole(m.forward().wide());
        if m.forward().wide() {
            return whole;
        }
        let n = looked_count(m.window(), cells.cells());
        let form = enough_form(asked, m.forward().mark(), n);
        if self.asked && form != self.ahead.form() {
            whole
        } else {
            form
        }
    }

    /// Throws the rows away, and makes those of this form from now on.
    fn turn(&mut self, alloc: Global, form: Form)
        requires width { IsFormOf self.old.machine.forward.wide form }
        ensures machine { self.new.machine ≡ self.old.machine }
        ensures form { self.new.form ≡ form }
        ensures known { (cells : Box) → AreRowsOf cells self.new }
    {
        let m = self.machine.get();
        let behind = rows_behind(alloc, m, form);
        drop(mem::replace(&mut self.ahead, RowStack::new(alloc, m.forward(), form)));
        drop(mem::replace(&mut self.behind, behind));
        self.quiet.clear();
    }

    /// The hulls of cell `k`, whose rows are known.
    pub(crate) fn hulls_at<'b>(&'b self, k: u32, cells: &'b Boxed) -> CellHulls<'b>
        requires hulls { HasHulls self.now.machine k cells.now.present }
        requires known { AreKnown cells.now.present self.now }
        requires there { HasRows k cells.now.present self.now }
        ensures { result ≡ at_cell self.now.machine cells.now.present k (ends_of self.now) }
    {
        let (first, last) = self.ends(cells);
        CellHulls {
            machine: self.machine.get(),
            cells,
            cell: k,
            row: self.ahead.row((k - first) as usize),
            back: self.back_side(k, last, cells),
        }
    }

    /// The backward row of cell `k`, and how it is glued; none at the last cell that is looked at.
    fn back_side(&self, k: u32, last: u32, cells: &Boxed) -> Option<BackSide<'_>>
        requires hulls { HasHulls self.now.machine k cells.now.present }
        requires last { last ≡ last_looked self.now.machine.window (length cells.now.present) }
        requires known { AreKnown cells.now.present self.now }
        requires there { HasRows k cells.now.present self.now }
        ensures side { MatchOption result (k ≡ last_looked self.now.machine.window (length cells.now.present))
            (IsBackSide self.now.machine k cells.now.present) }
        ensures form { IfSome result (λ side. form_of (viewed side.row) ≡ self.now.form) }
    {
        if k == last {
            return None;
        }
        match &self.joints {
            Some(joints) => Some(BackSide {
                row: self.behind.row((last - k) as usize),
                joints,
            }),
            None => unreachable!(),
        }
    }

    /// Makes the missing forward rows of the first `count` cells that are looked at.
    fn make_ahead(&mut self, alloc: Global, count: usize, cells: &Boxed) -> Result<(), Memory>
        requires looks { LooksIn self.old.machine cells.now.present }
        requires cells { count ≤ length (looked_at self.old.machine.window cells.now.present) }
        requires known { AreKnown cells.now.present self.old }
        ensures known { StillKnown cells.now.present self.old self.new }
        ensures form { self.new.form ≡ self.old.form }
        ensures behind { self.new.behind ≡ self.old.behind }
        ensures enough { OnOk result (count ≤ length self.new.ahead) }
    {
        let machine = self.machine.get();
        let reading = Reading {
            cells,
            window: machine.window(),
            direction: Direction::FromFirst,
        };
        self.empty = false;
        make_rows(alloc, &mut self.ahead, machine.forward(), reading, count)
    }

    /// Makes the missing backward rows of the last `count` cells that are looked at. A machine that can't be split has
    /// none.
    fn make_behind(&mut self, alloc: Global, count: usize, cells: &Boxed) -> Result<(), Memory>
        requires looks { LooksIn self.old.machine cells.now.present }
        requires cells { count ≤ length (looked_at self.old.machine.window cells.now.present) }
        requires split { self.old.machine.pair ≡ None → ⊥ }
        requires known { AreKnown cells.now.present self.old }
        ensures known { StillKnown cells.now.present self.old self.new }
        ensures form { self.new.form ≡ self.old.form }
        ensures ahead { self.new.ahead ≡ self.old.ahead }
        ensures enough { OnOk result (count ≤ length self.new.behind) }
    {
        let machine = self.machine.get();
        let reading = Reading {
            cells,
            window: machine.window(),
            direction: Direction::FromLast,
        };
        self.empty = false;
        match machine.reverse() {
            Some(reverse) => make_rows(alloc, &mut self.behind, reverse, reading, count),
            None => unreachable!(),
        }
    }
}

/// A stack without rows, for the reverse automaton. A machine without one will have none.
fn rows_behind(alloc: Global, m: &Machine, form: Form) -> RowStack
    requires { IsFormOf (forward_of m.now).wide form }
    ensures form { result.planned.form ≡ form }
    ensures planned { IsPlannedBack (pair_of m.now) result.planned }
    ensures none { result ≡ no_rows result.planned }
{
    match m.reverse() {
        Some(reverse) => RowStack::new(alloc, reverse, form),
        None => RowStack::new(alloc, m.forward(), form),
    }
}

/// How the automata of the machine are glued, where it can be split.
fn joints_of(m: &Machine) -> Option<Joints>
    ensures { HasJoints (pair_of m.now) result }
{
    match m.reverse() {
        Some(_) => Some(Joints::of(m)),
        None => None,
    }
}
