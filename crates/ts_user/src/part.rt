//! Parts of an expression, which has a limit of nodes.

ghost use Rattle.std.specs.Prelude.{◌≡◌, ◌+◌, ◌<◌, IfOk, MatchOption};
ghost use Rattle.ts_regex.specs.Shape.{shape_of};
ghost use Rattle.ts_user.specs.Grammar.{nodes};
ghost use Rattle.ts_user.specs.FromTheEnd.{bounded, bounded_star, bounded_cat, bounded_alt};
ghost use Rattle.ts_user.specs.Expressions.{part_of};

use std::alloc::Global;
use ts_base::Memory;
use ts_regex::{Regex, alt, cat, star};

/// A part of an expression, or that it has more nodes than it may have.
#[derive(Drop)]
pub(crate) enum Part {
    Fits(Regex),
    TooLarge,
}

/// The room that is left once the nodes of the expression are taken from it; None where they are more.
fn room_after(regex: &Regex, room: usize) -> Option<usize>
    ensures { MatchOption result (room < nodes (shape_of regex.now))
        (λ left. left + nodes (shape_of regex.now) ≡ room) }
{
    match regex {
        Regex::Empty => room.checked_sub(1),
        Regex::Eps => room.checked_sub(1),
        Regex::One(_) => room.checked_sub(1),
        Regex::Cat(r, s) => room_after(s, room_after(r, room)?)?.checked_sub(1),
        Regex::Alt(r, s) => room_after(s, room_after(r, room)?)?.checked_sub(1),
        Regex::Star(r) => room_after(r, room)?.checked_sub(1),
    }
}

/// The expression as a part of at most `most` nodes.
pub(crate) fn bounded(most: usize, regex: Regex) -> Part
    ensures { part_of result ≡ bounded most (shape_of regex) }
{
    match room_after(&regex, most) {
        Some(_) => Part::Fits(regex),
        None => Part::TooLarge,
    }
}

impl Part {
    /// A copy of the part.
    fn try_clone(&self, alloc: Global) -> Result<Part, Memory>
        ensures { IfOk result (λ p. part_of p ≡ part_of self.now) }
    {
        match self {
            Part::Fits(regex) => Ok(Part::Fits(regex.try_clone(alloc)?)),
            Part::TooLarge => Ok(Part::TooLarge),
        }
    }

    /// The part any number of times.
    pub(crate) fn any_times(self, alloc: Global, most: usize) -> Result<Part, Memory>
        ensures { IfOk result (λ p. part_of p ≡ bounded_star most (part_of self)) }
    {
        match self {
            Part::Fits(regex) => Ok(bounded(most, star(alloc, regex)?)),
            Part::TooLarge => Ok(Part::TooLarge),
        }
    }

    /// The part once, and then any number of times.
    pub(crate) fn once_or_more(self, alloc: Global, most: usize) -> Result<Part, Memory>
        ensures { IfOk result (λ p. part_of p ≡ bounded_cat most (part_of self) (bounded_star most (part_of self))) }
    {
        let more = self.try_clone(alloc)?.any_times(alloc, most)?;
        self.followed_by(alloc, most, more)
    }

    /// This part, then the other.
    pub(crate) fn followed_by(self, alloc: Global, most: usize, other: Part) -> Result<Part, Memory>
        ensures { IfOk result (λ p. part_of p ≡ bounded_cat most (part_of self) (part_of other)) }
    {
        match (self, other) {
            (Part::Fits(r), Part::Fits(s)) => Ok(bounded(most, cat(alloc, r, s)?)),
            _ => Ok(Part::TooLarge),
        }
    }

    /// This part or the other.
    pub(crate) fn or(self, alloc: Global, most: usize, other: Part) -> Result<Part, Memory>
        ensures { IfOk result (λ p. part_of p ≡ bounded_alt most (part_of self) (part_of other)) }
    {
        match (self, other) {
            (Part::Fits(r), Part::Fits(s)) => Ok(bounded(most, alt(alloc, r, s)?)),
            _ => Ok(Part::TooLarge),
        }
    }
}
