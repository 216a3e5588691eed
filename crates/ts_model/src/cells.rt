//! The domains of the cells while lines are read.

ghost use Rattle.std.specs.Prelude.{◌≡◌, ◌+◌, ◌*◌, ◌<◌, ◌≤◌, true, false, [], length, map, set, replicate, nat_lt, get_or, ◌&&◌, IfOk, OnOk, OnSome, IfNone, IfSome};
ghost use Rattle.std.specs.List.{list_any};
ghost use Rattle.ts_base.specs.Limits.{most_cells, most_domain_values};
ghost use Rattle.ts_model.specs.ModelParts.{is_backward, is_outside, union_of, digits};
ghost use Rattle.ts_model.specs.Cells.{in_force, domains, IsKept, IsTotal, total_set, within_total};
ghost use Rattle.ts_model.specs.Views.{Gives};

use crate::error::{LineStop, ModelKind};
use std::alloc::Global;
use ts_base::Memory;
use ts_base::limits::DOMAIN_VALUES;
use ts_domain::{Domain, Interval};

/// The domain that a `cell` line gave a cell, and the turn at which it did.
#[derive(Drop)]
pub(crate) struct Own {
    pub turn: usize,
    pub domain: Domain,
}

/// The domains of the cells so far. The common one is that of the `cells` line or of the last `domain` line; an own
/// one is in force where it came later. So a `domain` line takes the time of its ranges, however many cells there are,
/// and the copies for the cells are made once, when the text is read.
#[derive(Drop)]
pub(crate) struct Cells {
    pub own: Vec<Option<Own>>,
    pub common: Domain,
    pub common_turn: usize,
    /// How often a domain was set.
    pub turn: usize,
    /// Whether all domains together have a limit.
    pub limited: bool,
    /// The number of all values, kept where it has a limit.
    pub total: u64,
}

/// The union of ranges, none of them empty or beyond the limits, whose memory it takes.
pub(crate) fn union_of(alloc: Global, ranges: Vec<Interval>) -> Result<Domain, Memory>
    requires some { 0 < length ranges.items }
    requires forward { list_any is_backward ranges.items ≡ false }
    requires inside { list_any is_outside ranges.items ≡ false }
    ensures { IfOk result (λ d. d ≡ union_of ranges.items) }
{
    Domain::from_intervals(alloc, ranges)
}

/// The one range from 0 to 9.
fn digit_range(alloc: Global) -> Result<Vec<Interval>, Memory>
    ensures { IfOk result (λ ranges. ranges.items ≡ digits) }
{
    let mut ranges = Vec::with_capacity(alloc, 1)?;
    ranges.push(Interval { low: 0, high: 9 })?;
    Ok(ranges)
}

/// The domain that no line sets: 0 to 9.
fn digits(alloc: Global) -> Result<Domain, Memory>
    ensures { IfOk result (λ d. d ≡ union_of digits) }
{
    let ranges = digit_range(alloc)?;
    union_of(alloc, ranges)
}

/// No cell has a domain of its own.
fn no_own(alloc: Global, count: usize) -> Result<Vec<Option<Own>>, Memory>
    ensures { IfOk result (λ own. own.items ≡ replicate count None) }
{
    let mut own = Vec::new(alloc);
    for _ in 0..count {
        own.push(None)?;
    }
    Ok(own)
}

/// The number of all values, where each of `count` domains has `size` values; None where it passes the limit.
fn total_of_all(limited: bool, count: usize, size: u64) -> Option<u64>
    ensures none { IfNone result ((limited && nat_lt most_domain_values (count * size)) ≡ true) }
    ensures room { OnSome result ((limited && nat_lt most_domain_values (count * size)) ≡ false) }
    ensures total { IfSome result (λ total. IsTotal limited total (count * size)) }
{
    if !limited {
        return Some(0);
    }
    let total = count as u128 * u128::from(size);
    if total > u128::from(DOMAIN_VALUES) {
        return None;
    }
    Some(total as u64)
}

impl Cells {
    /// So many cells, each with the domain 0..9.
    pub(crate) fn new(alloc: Global, count: usize, limited: bool) -> Result<Cells, Memory>
        requires { count ≤ most_cells }
        ensures domains { IfOk result (λ cells. domains cells ≡ replicate count (union_of digits)) }
        ensures kept { IfOk result IsKept }
        ensures limited { IfOk result (λ cells. cells.limited ≡ limited) }
        ensures turn { IfOk result (λ cells. cells.turn ≡ 0) }
    {
        Ok(Cells {
            own: no_own(alloc, count)?,
            common: digits(alloc)?,
            common_turn: 0,
            turn: 0,
            limited,
            total: count as u64 * 10,
        })
    }

    /// How many cells there are.
    pub(crate) fn len(&self) -> usize
        ensures { result ≡ length (domains self.now) }
    {
        self.own.len()
    }

    /// The domain of the cell at this place.
    fn in_force<'a>(&'a self, place: usize) -> &'a Domain
        requires { place < length (domains self.now) }
        ensures { result.now ≡ get_or (domains self.now) place [] }
    {
        match &self.own[place] {
            Some(own) if own.turn > self.common_turn => &own.domain,
            _ => &self.common,
        }
    }

    /// The number of all values, where the domain at a place has `size` values from now on; None where it passes
    /// the limit.
    fn total_with(&self, place: usize, size: u64) -> Option<u64>
        requires kept { IsKept self.now }
        requires there { place < length (domains self.now) }
        ensures none { IfNone result
            ((self.now.limited && nat_lt most_domain_values (total_set (domains self.now) place size)) ≡ true) }
        ensures room { OnSome result
            ((self.now.limited && nat_lt most_domain_values (total_set (domains self.now) place size)) ≡ false) }
        ensures total { IfSome result (λ total.
            IsTotal self.now.limited total (total_set (domains self.now) place size)) }
    {
        if !self.limited {
            return Some(0);
        }
        let others = self.total - self.in_force(place).size();
        let total = u128::from(others) + u128::from(size);
        if total > u128::from(DOMAIN_VALUES) {
            return None;
        }
        Some(total as u64)
    }

    /// Every cell has this domain from now on.
    pub(crate) fn set_all(&mut self, domain: Domain) -> Result<(), LineStop>
        requires kept { IsKept self.old }
        requires room { self.old.turn < usize.MAX }
        ensures set { Gives (λ _. domains self.new) result
            (within_total self.old.limited (map (λ _. domain) (domains self.old))) }
        ensures kept { OnOk result (IsKept self.new) }
        ensures limited { OnOk result (self.new.limited ≡ self.old.limited) }
        ensures turn { OnOk result (self.new.turn ≤ self.old.turn + 1) }
    {
        match total_of_all(self.limited, self.own.len(), domain.size()) {
            None => Err(LineStop::Bad(ModelKind::Limit)),
            Some(total) => {
                self.turn += 1;
                self.common = domain;
                self.common_turn = self.turn;
                self.total = total;
                Ok(())
            }
        }
    }

    /// The cell at this place has this domain from now on.
    pub(crate) fn set_one(&mut self, place: usize, domain: Domain) -> Result<(), LineStop>
        requires kept { IsKept self.old }
        requires room { self.old.turn < usize.MAX }
        requires there { place < length (domains self.old) }
        ensures set { Gives (λ _. domains self.new) result
            (within_total self.old.limited (set (domains self.old) place domain)) }
        ensures kept { OnOk result (IsKept self.new) }
        ensures limited { OnOk result (self.new.limited ≡ self.old.limited) }
        ensures turn { OnOk result (self.new.turn ≤ self.old.turn + 1) }
    {
        match self.total_with(place, domain.size()) {
            None => Err(LineStop::Bad(ModelKind::Limit)),
            Some(total) => {
                self.turn += 1;
                self.own[place] = Some(Own {
                    turn: self.turn,
                    domain,
                });
                self.total = total;
                Ok(())
            }
        }
    }

    /// The domain of each cell.
    pub(crate) fn all(&self, alloc: Global) -> Result<Vec<Domain>, Memory>
        ensures { IfOk result (λ all. all.items ≡ domains self.now) }
    {
        let mut all = Vec::new(alloc);
        for place in 0..self.own.len() {
            all.push(self.in_force(place).try_clone()?)?;
        }
        Ok(all)
    }
}
