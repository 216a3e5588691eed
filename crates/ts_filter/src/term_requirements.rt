//! The requirements of one term among those of a model.

ghost use Rattle.std.specs.Prelude.{◌≡◌, ◌↔◌, ◌<◌, ◌≤◌, Contains, IfOk, IfSome, IsTrue, MatchOption, None, Some};
ghost use Rattle.std.specs.Prelude.{false, filter, length, nat_eq};
ghost use Rattle.std.specs.List.{position};
ghost use Rattle.ts_base.specs.Limits.{too_many};
ghost use Rattle.ts_base.specs.declared.span.Span.{Span};
ghost use Rattle.ts_filter.specs.Excluded.{Refutes};
ghost use Rattle.ts_filter.specs.TermDrops.{AreAmong, IsFirstRefuting, NoneFrom, RefutesSome};
ghost use Rattle.ts_meet.specs.Asked.{AreEnough};
ghost use Rattle.ts_model.specs.declared.model.Require.{Require};

use crate::enough::{any_ends, enough_to_meet};
use crate::excluded::refutes;
use std::alloc::Global;
use ts_base::{Memory, Span};
use ts_model::Require;
use ts_sweep::packed::Ends;

/// The requirements of a term that has some: the one at place `first`, and those of the term after it, before `end`.
#[derive(Clone, Copy)]
pub(crate) struct TermRequirements<'a> {
    pub(crate) all: &'a [Require],
    pub(crate) term: u32,
    pub(crate) first: usize,
    pub(crate) end: usize,
    pub(crate) ghost few: { length all.now < too_many },
    pub(crate) ghost is_first: { position (λ r. nat_eq r.term term) all.now ≡ Some first },
    pub(crate) ghost some: { first < end },
    pub(crate) ghost within: { end ≤ length all.now },
    pub(crate) ghost none_behind: { NoneFrom all.now term end },
}

impl<'a> TermRequirements<'a> {
    /// The requirements of a term among all; none where it has none.
    pub(crate) fn among(all: &'a [Require], term: u32) -> Option<TermRequirements<'a>>
        requires { length all.now < too_many }
        ensures { MatchOption result (position (λ r. nat_eq r.term term) all.now ≡ None)
            (λ own. (own.all.now ≡ all.now) × (own.term ≡ term)) }
    {
        let first = first_of(all, term)?;
        let end = end_of(all, term);
        let own = TermRequirements {
            all,
            term,
            first,
            end,
        };
        Some(own)
    }

    /// The only requirement of the term, where there are no others.
    pub(crate) fn only(self) -> Option<&'a Require>
        ensures refuted { MatchOption result (Unit {0}) (λ r. (s : Span) →
            Refutes r.now.op r.now.bound s ↔ RefutesSome self.entry.all.now self.entry.term s) }
        ensures alone { MatchOption result (Unit {0}) (λ r. (other : Require) →
            Contains self.entry.all.now other → other.term ≡ self.entry.term → other ≡ r.now) }
    {
        if self.first + 1 < self.end {
            return None;
        }
        Some(&self.all[self.first])
    }

    /// The number of the first requirement of the term that the span refutes.
    pub(crate) fn first_refuted(self, span: Span) -> Option<u32>
        ensures { IsFirstRefuting self.entry.all.now self.entry.term span result }
    {
        for at in self.first..self.end {
            if is_refuted(&self.all[at], self.term, span) {
                return Some(at as u32 + 1);
            }
        }
        None
    }

    /// Ends of spans that refute none of these requirements.
    pub(crate) fn enough(self) -> Option<Ends>
        ensures { IfSome result (AreEnough (RefutesSome self.entry.all.now self.entry.term)) }
    {
        let mut ends = any_ends();
        for k in self.first..self.end {
            ends = enough_to_meet(ends, &self.all[k], self.term)?;
        }
        Some(ends)
    }
}

impl<'a> TermRequirements<'a> {
    /// Whether each of these requirements is one of the others.
    pub(crate) fn are_among(self, others: &[Require]) -> bool
        ensures { IsTrue result → AreAmong self.entry.all.now self.entry.term others.now }
    {
        for i in self.first..self.end {
            if is_missing(&self.all[i], self.term, others) {
                return false;
            }
        }
        true
    }

    /// A list of these requirements alone.
    pub(crate) fn copied(self, alloc: Global) -> Result<Vec<Require>, Memory>
        ensures { IfOk result
            (λ own. own.items ≡ filter (λ r. nat_eq r.term self.entry.term) self.entry.all.now) }
    {
        let term = self.term;
        let own = self
            .all
            .iter()
            .copied()
            .filter(|r| r.term == term)
            .collect(alloc)?;
        Ok(own)
    }
}

/// The place of the first requirement of the term.
fn first_of(all: &[Require], term: u32) -> Option<usize>
    ensures { result ≡ position (λ r. nat_eq r.term term) all.now }
{
    all.iter().position(|r| r.term == term)
}

/// The place after the last requirement of the term.
fn end_of(all: &[Require], term: u32) -> usize
    ensures within { result ≤ length all.now }
    ensures none_behind { NoneFrom all.now term result }
{
    let mut end = all.len();
    while end > 0 {
        if is_of(&all[end - 1], term) {
            return end;
        }
        end -= 1;
    }
    end
}

/// Whether the requirement is of the term.
fn is_of(r: &Require, term: u32) -> bool
    ensures { IsTrue result ↔ (r.now.term ≡ term) }
{
    r.term == term
}

/// Whether the requirement is of the term and isn't one of the others.
fn is_missing(r: &Require, term: u32, others: &[Require]) -> bool
    ensures { result ≡ false → r.now.term ≡ term → Contains others.now r.now }
{
    is_of(r, term) && !is_one_of(r, others)
}

/// Whether the requirement is one of the others.
fn is_one_of(r: &Require, others: &[Require]) -> bool
    ensures { IsTrue result → Contains others.now r.now }
{
    for i in 0..others.len() {
        if others[i] == *r {
            return true;
        }
    }
    false
}

/// Whether the requirement is of the term, and the span refutes it.
fn is_refuted(r: &Require, term: u32, span: Span) -> bool
    ensures { IsTrue result ↔ ((r.now.term ≡ term) × Refutes r.now.op r.now.bound span) }
{
    is_of(r, term) && refutes(r.op, r.bound, span)
}
