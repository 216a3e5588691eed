//! The way over the numbers of a set.

ghost use Rattle.std.specs.Prelude.{◌≡◌, ◌≤◌, drop, length};
ghost use Rattle.std.specs.Iterator.{YieldsFirst, item_count};

use crate::domain::Domain;
use crate::interval::Interval;
use std::marker::Model;

/// The numbers of a set that are still to come, in rising order. Those from `next` to `last`, if there are any, are the
/// next ones, and those of the ranges `rest` up to `limit` come after them. Without such ranges the next number is
/// searched for, and how far the numbers go on from it.
#[derive(Drop)]
pub struct Values<'a> {
    domain: &'a Domain,
    rest: &'a [Interval],
    limit: i64,
    passed: u64,
    size: u64,
    next: i64,
    last: i64,
}

impl<'a> Model for Values<'a> {
    ghost use Rattle.std.specs.Prelude.{◌≡◌, ◌≤◌, ℤ, List, drop, length};

    ghost Value = { List ℤ };

    ghost view = { λ v. drop v.passed v.domain.now };

    ghost use Rattle.ts_domain.specs.Values.{AreNext};
    ghost use Rattle.ts_domain.specs.Ways.{AreBehind};

    ghost invariant = { λ v. (v.size ≡ length v.domain.now) × (v.passed ≤ v.size)
        × AreNext v.domain.now v.passed v.next v.last
        × AreBehind v.domain.now v.passed v.next v.last v.rest.now v.limit };
}

impl<'a> Iterator for Values<'a> {
    type Item = i64;

    ghost next_gives = { YieldsFirst (λ s. s) };

    ghost remaining = { item_count (λ s. s) };

    #[inline(always)]
    fn next(&mut self) -> Option<i64> {
        if self.last < self.next {
            if self.passed == self.size {
                return None;
            }
            if let [range, rest @ ..] = self.rest {
                self.passed += 1;
                self.next = range.low + 1;
                self.last = range.high.min(self.limit);
                self.rest = rest;
                return Some(range.low);
            }
            let run = self.domain.run_from(self.passed, self.size);
            self.passed += 1;
            self.next = run.low + 1;
            self.last = run.high;
            return Some(run.low);
        }
        let value = self.next;
        self.passed += 1;
        self.next += 1;
        Some(value)
    }
}

/// The numbers of a set from a place on.
pub(crate) fn walk<'a>(domain: &'a Domain, from: u64) -> Values<'a>
    requires { from ≤ length domain.now }
    ensures { result ≡ drop from domain.now }
{
    let size = domain.size();
    match domain.way_from(from, size) {
        Some(way) => Values {
            domain,
            rest: way.rest,
            limit: way.limit,
            passed: from,
            size,
            next: way.next,
            last: way.last,
        },
        None => Values {
            domain,
            rest: &[],
            limit: 0,
            passed: from,
            size,
            next: 0,
            last: -1,
        },
    }
}
