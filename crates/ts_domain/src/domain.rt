//! Non-empty finite sets of numbers.

ghost use Rattle.std.specs.Prelude.{◌≡◌, ◌≢◌, ◌<◌, ◌≤◌, ◌-◌, ◌≤ℤ◌, ◌↔◌, ℤ, neg_ℤ, ◌⊎◌};
ghost use Rattle.std.specs.Prelude.{[], drop, length, slice_get, Some, IsTrue, IfOk, IfSome, All, Contains};
ghost use Rattle.ts_base.specs.Limits.{greatest_value};
ghost use Rattle.ts_domain.specs.Kept.{values_kept, values_up_to, values_above, values_without};
ghost use Rattle.ts_domain.specs.Marks.{put_back};
ghost use Rattle.ts_domain.specs.Union.{InSome, InSomeRange, IsUsable, SomeEmpty};
ghost use Rattle.ts_domain.specs.Values.{IsDomain, IsRange, StandFrom, WithinLimits, least_of, values_of, AreRanges};
ghost use Rattle.ts_domain.specs.Ways.{IsWay};

use crate::counted::CountedRanges;
use crate::cut::{above, up_to};
use crate::interval::Interval;
use crate::keep::{Keep, singles};
use crate::marks::{Mark, Marks, Node};
use crate::merge::{has_no_union, joined, ranges_of, union_of};
use crate::pieces::{count_in, count_up_to, end_in, has_in, with_more};
use crate::stop::DomainStop;
use crate::values::{Values, walk};
use crate::way::{Way, way_at};
use smallvec::SmallVec;
use std::alloc::Global;
use std::marker::Model;
use std::mem;
use std::rc::Rc;
use ts_base::Memory;
use ts_base::limits::CELL_VALUE;

/// A set that has lost so many numbers more gets ranges of its own where it is copied, since a copy copies the marks.
const MOST_MARKS: i64 = 128;

/// A number below all of them.
const BELOW_ALL: i64 = -CELL_VALUE - 1;

/// A non-empty set of numbers from -1,000,000 to 1,000,000, which contracts see as its rising list. It differs from
/// what of the ranges lies in its piece at the marks alone; copies and smaller sets share the ranges.
#[derive(Drop)]
pub struct Domain {
    alloc: Global,
    ranges: Rc<CountedRanges, Global>,
    piece: Interval,
    marks: Marks,
}

impl Model for Domain {
    ghost use Rattle.std.specs.Prelude.{ℤ, List};
    ghost use Rattle.ts_domain.specs.Values.{values_of};
    ghost use Rattle.ts_domain.specs.Pieces.{values_in, IsMarked};
    ghost use Rattle.ts_domain.specs.Marks.{numbers};

    ghost Value = { List ℤ };

    ghost view = { λ d. numbers (values_in (values_of d.ranges.value.items.items) d.piece) d.marks };

    ghost invariant = { λ d. IsMarked d.ranges.value.items.items d.piece d.marks };
}

impl Domain {
    /// The union of the ranges from `lows[i]` to `highs[i]`, whose numbers are from -1,000,000 to 1,000,000.
    /// `Empty` comes exactly where there is no range or some low is above its high.
    pub fn from_ranges(alloc: Global, lows: &[i64], highs: &[i64]) -> Result<Domain, DomainStop>
        requires pairs { length lows.now ≡ length highs.now }
        requires lows_within { All WithinLimits lows.now }
        requires highs_within { All WithinLimits highs.now }
        ensures union { IfOk result (λ d. (v : ℤ) → Contains d v ↔ InSomeRange lows.now highs.now v) }
        ensures domain { IfOk result IsDomain }
        ensures empty { (result ≡ Err DomainStop.Empty)
            ↔ ((lows.now ≡ []) ⊎ SomeEmpty lows.now highs.now) }
    {
        if has_no_union(lows, highs) {
            return Err(DomainStop::Empty);
        }
        Ok(of_pairs(alloc, lows, highs)?)
    }

    /// The union of ranges, none of them empty or beyond the limits. It sorts them where they stand, and gives their
    /// memory back before it counts what it keeps.
    pub fn from_intervals(alloc: Global, ranges: Vec<Interval>) -> Result<Domain, Memory>
        requires some { 0 < length ranges.items }
        requires usable { All IsUsable ranges.items }
        ensures union { IfOk result (λ d. (v : ℤ) → Contains d v ↔ InSome ranges.items v) }
        ensures domain { IfOk result IsDomain }
    {
        let union = union_of(alloc, ranges)?;
        whole(alloc, union)
    }

    /// A copy of the set, on the ranges that it shares: it costs a count, and a copy of its marks.
    pub fn try_clone(&self) -> Result<Domain, Memory>
        ensures same { IfOk result (λ d. d ≡ self.now) }
        ensures domain { IfOk result IsDomain }
    {
        Ok(Domain {
            alloc: self.alloc,
            ranges: self.ranges.clone()?,
            piece: self.piece,
            marks: self.marks.try_clone(self.alloc)?,
        })
    }

    /// Whether `v` is one of the numbers.
    pub fn contains(&self, v: i64) -> bool
        ensures { IsTrue result ↔ Contains self.now v }
    {
        if let Some(range) = self.as_range() {
            return range.has(v);
        }
        match self.marks.at(v) {
            Some(gone) => !gone,
            None => has_in(self.ranges.items.as_slice(), self.piece, v),
        }
    }

    /// How many numbers there are.
    pub fn size(&self) -> u64
        ensures size { result ≡ length self.now }
        ensures domain { IsDomain self.now }
    {
        if let Some(range) = self.as_range() {
            return range.count();
        }
        with_more(count_in(&*self.ranges, self.piece), self.marks.more())
    }

    /// The set as one range, where no number has to be looked for: most sets are one.
    fn as_range(&self) -> Option<Interval>
        ensures { IfSome result (IsRange self.now) }
    {
        if self.marks.is_empty() && (self.ranges.items.len() == 1 || self.piece.is_single()) {
            Some(self.piece)
        } else {
            None
        }
    }

    /// What takes an end of a set that is one range out, so that it stays one, and needs no mark.
    pub(crate) fn but_end(&self, v: i64) -> Option<Keep>
        ensures { IfSome result (λ keep. values_kept keep self.now ≡ values_without v self.now) }
    {
        let range = self.as_range()?;
        if v == range.low {
            Some(Keep::Above(v))
        } else if v == range.high {
            Some(Keep::UpTo(v - 1))
        } else {
            None
        }
    }

    /// The number at place `i` in rising order, counted from 0.
    pub fn nth(&self, i: u64) -> i64
        requires { i < length self.now }
        ensures { slice_get self.now i ≡ Some result }
    {
        if let Some(range) = self.as_range() {
            return range.low + i as i64;
        }
        self.marks
            .nth_above(&*self.ranges, self.piece, BELOW_ALL, i)
    }

    /// The place of one of the numbers, counted from 0.
    pub fn place_of(&self, v: i64) -> u64
        requires { Contains self.now v }
        ensures { slice_get self.now result ≡ Some v }
    {
        if let Some(range) = self.as_range() {
            return (v - range.low) as u64;
        }
        let count = count_up_to(&*self.ranges, self.piece, v);
        with_more(count, self.marks.more_up_to(v)) - 1
    }

    /// The number at place `i` of so many, and how far the numbers follow one another from there without a gap.
    pub(crate) fn run_from(&self, i: u64, size: u64) -> Interval
        requires below { i < size }
        requires size { size ≡ length self.now }
        ensures from { neg_ℤ greatest_value ≤ℤ result.low }
        ensures ordered { result.low ≤ℤ result.high }
        ensures to { result.high ≤ℤ greatest_value }
        ensures stand { StandFrom self.now i result.low result.high }
    {
        let low = self.nth_of(i, size);
        Interval {
            low,
            high: self.run_end(low),
        }
    }

    /// The number at place `i` of so many: the first and the last one need no search by place.
    fn nth_of(&self, i: u64, size: u64) -> i64
        requires below { i < size }
        requires size { size ≡ length self.now }
        ensures { slice_get self.now i ≡ Some result }
    {
        if i == 0 {
            self.least()
        } else if i + 1 == size {
            self.greatest()
        } else {
            self.nth(i)
        }
    }

    /// How far the numbers from one of them on follow one another without a gap: to the end of its range, the end of
    /// the piece or the next mark.
    fn run_end(&self, v: i64) -> i64
        requires { Contains self.now v }
        ensures from { v ≤ℤ result }
        ensures all { (w : ℤ) → v ≤ℤ w → w ≤ℤ result → Contains self.now w }
        ensures domain { IsDomain self.now }
    {
        let end = end_in(self.ranges.items.as_slice(), self.piece, v);
        self.marks.free_to(v, end)
    }

    /// Whether both are the same range, or have the same ranges, piece and marks. It compares no numbers: of sets with
    /// gaps that were made in other ways it may say no although they are equal.
    pub fn is_same(&self, other: &Domain) -> bool
        ensures { IsTrue result → self.now ≡ other.now }
    {
        match (self.as_range(), other.as_range()) {
            (Some(one), Some(two)) => one == two,
            _ => self.has_same_parts(other),
        }
    }

    /// Whether both have the same ranges, piece and marks, and so the same numbers.
    fn has_same_parts(&self, other: &Domain) -> bool
        ensures { IsTrue result → self.now ≡ other.now }
    {
        self.piece == other.piece
            && self.marks.is_same(&other.marks)
            && self.ranges.items == other.ranges.items
    }

    /// The least number: the low end of the piece, where no mark stands there or below it.
    pub fn least(&self) -> i64
        ensures value { result ≡ least_of self.now }
        ensures there { Contains self.now result }
        ensures first { slice_get self.now 0 ≡ Some result }
        ensures least { (v : ℤ) → Contains self.now v → result ≤ℤ v }
        ensures domain { IsDomain self.now }
    {
        let low = self.piece.low;
        if self.marks.free_to(BELOW_ALL, low) == low {
            return low;
        }
        self.nth(0)
    }

    /// The least and the greatest number.
    pub fn ends(&self) -> Interval
        ensures low { Contains self.now result.low }
        ensures high { Contains self.now result.high }
        ensures all { (v : ℤ) → Contains self.now v → (result.low ≤ℤ v) × (v ≤ℤ result.high) }
    {
        Interval {
            low: self.least(),
            high: self.greatest(),
        }
    }

    /// The greatest number: the high end of the piece, where no mark stands there or above it.
    fn greatest(&self) -> i64
        ensures there { Contains self.now result }
        ensures last { slice_get self.now (length self.now - 1) ≡ Some result }
        ensures greatest { (v : ℤ) → Contains self.now v → v ≤ℤ result }
    {
        let high = self.piece.high;
        if self.marks.free_to(high - 1, CELL_VALUE) == CELL_VALUE {
            return high;
        }
        self.nth(self.size() - 1)
    }

    /// The numbers in rising order; where no number is marked, the first one alone is searched for.
    pub fn values<'a>(&'a self) -> Values<'a>
        ensures { result ≡ self.now }
    {
        walk(self, 0)
    }

    /// The numbers from place `i` on, counted from 0, in rising order.
    pub fn values_from<'a>(&'a self, i: u64) -> Values<'a>
        requires { i ≤ length self.now }
        ensures { result ≡ drop i self.now }
    {
        walk(self, i)
    }

    /// The numbers from place `i` of so many on, by ranges alone; `None` if some are marked.
    pub(crate) fn way_from<'a>(&'a self, i: u64, size: u64) -> Option<Way<'a>>
        requires { size ≡ length self.now }
        ensures { IfSome result (IsWay self.now i) }
    {
        if !self.marks.is_empty() || i >= size {
            return None;
        }
        let next = self.nth_of(i, size);
        let ranges = self.ranges.items.as_slice();
        way_at(ranges, self.piece, next)
    }

    /// Whether there is one number alone.
    pub fn is_single(&self) -> bool
        ensures { IsTrue result ↔ (length self.now ≡ 1) }
    {
        if self.marks.is_empty() {
            return self.piece.is_single();
        }
        self.size() == 1
    }

    /// The set of the values that `keep` keeps, as a copy.
    pub(crate) fn kept(&self, keep: Keep) -> Result<Domain, Memory>
        requires { values_kept keep self.now ≢ [] }
        ensures kept { IfOk result (λ d. d ≡ values_kept keep self.now) }
        ensures domain { IfOk result IsDomain }
    {
        if self.marks.more() < -MOST_MARKS {
            return self.renewed(keep);
        }
        match keep {
            Keep::UpTo(t) => self.low_part(t),
            Keep::Above(t) => self.high_part(t),
            Keep::AllBut(gone) => self.without(gone),
        }
    }

    /// The numbers up to `t`.
    fn low_part(&self, t: i64) -> Result<Domain, Memory>
        requires { values_up_to t self.now ≢ [] }
        ensures kept { IfOk result (λ d. d ≡ values_up_to t self.now) }
        ensures domain { IfOk result IsDomain }
    {
        match up_to(self.ranges.items.as_slice(), self.piece, t) {
            None => self.renewed(Keep::UpTo(t)),
            Some(piece) => Ok(Domain {
                alloc: self.alloc,
                ranges: self.ranges.clone()?,
                piece,
                marks: self.marks.try_clone(self.alloc)?.up_to(t),
            }),
        }
    }

    /// The numbers above `t`.
    fn high_part(&self, t: i64) -> Result<Domain, Memory>
        requires { values_above t self.now ≢ [] }
        ensures kept { IfOk result (λ d. d ≡ values_above t self.now) }
        ensures domain { IfOk result IsDomain }
    {
        match above(self.ranges.items.as_slice(), self.piece, t) {
            None => self.renewed(Keep::Above(t)),
            Some(piece) => Ok(Domain {
                alloc: self.alloc,
                ranges: self.ranges.clone()?,
                piece,
                marks: self.marks.try_clone(self.alloc)?.above(t),
            }),
        }
    }

    /// The numbers without one, which need not be among them.
    fn without(&self, gone: i64) -> Result<Domain, Memory>
        requires { values_without gone self.now ≢ [] }
        ensures kept { IfOk result (λ d. d ≡ values_without gone self.now) }
        ensures domain { IfOk result IsDomain }
    {
        if self.contains(gone) {
            self.renewed(Keep::AllBut(gone))
        } else {
            self.try_clone()
        }
    }

    /// What `keep` keeps, on ranges of its own.
    fn renewed(&self, keep: Keep) -> Result<Domain, Memory>
        requires { values_kept keep self.now ≢ [] }
        ensures kept { IfOk result (λ d. d ≡ values_kept keep self.now) }
        ensures domain { IfOk result IsDomain }
    {
        let parts = singles(self.alloc, self, keep)?;
        whole(self.alloc, joined(self.alloc, &parts)?)
    }

    /// Takes a number out that is there, or puts one in that isn't; the node is for a mark.
    pub(crate) fn flip(&mut self, v: i64, spare: Box<Node>)
        requires limits { WithinLimits v }
        requires stays { Contains self.old v → values_without v self.old ≢ [] }
        ensures out { Contains self.old v → self.new ≡ values_without v self.old }
        ensures back { (Contains self.old v → ⊥) → self.new ≡ put_back v self.old }
        ensures domain { IsDomain self.new }
    {
        let mark = Mark {
            value: v,
            gone: has_in(self.ranges.items.as_slice(), self.piece, v),
        };
        let marks = mem::replace(&mut self.marks, Marks::new());
        self.marks = marks.flipped(mark, spare);
    }
}

/// The set that these ranges are.
fn whole(alloc: Global, ranges: SmallVec<Interval, 2>) -> Result<Domain, Memory>
    requires { AreRanges ranges.items }
    ensures same { IfOk result (λ d. d ≡ values_of ranges.items) }
    ensures domain { IfOk result IsDomain }
{
    let items = ranges.as_slice();
    let piece = Interval {
        low: items[0].low,
        high: items[items.len() - 1].high,
    };
    let counted = CountedRanges::new(alloc, ranges)?;
    Ok(Domain {
        alloc,
        ranges: Rc::new(alloc, counted)?,
        piece,
        marks: Marks::new(),
    })
}

/// The union of ranges of which none is empty, given by their ends.
fn of_pairs(alloc: Global, lows: &[i64], highs: &[i64]) -> Result<Domain, Memory>
    requires pairs { length lows.now ≡ length highs.now }
    requires lows_within { All WithinLimits lows.now }
    requires highs_within { All WithinLimits highs.now }
    requires usable { ((lows.now ≡ []) ⊎ SomeEmpty lows.now highs.now) → ⊥ }
    ensures union { IfOk result (λ d. (v : ℤ) → Contains d v ↔ InSomeRange lows.now highs.now v) }
    ensures domain { IfOk result IsDomain }
{
    let ranges = ranges_of(alloc, lows, highs)?;
    Domain::from_intervals(alloc, ranges)
}
