//! The values of a cell by their places.

ghost use Rattle.std.specs.Prelude.{◌≡◌, ◌+◌, ◌<◌, ◌↔◌, ◌∷◌, IsTrue, Some, length, slice_get};

use std::marker::Model;
use ts_domain::{Domain, Values};

/// The values of a cell, which are asked for by their places: the one after the last one is walked to, any other is
/// searched for. Contracts see the values.
#[derive(Drop)]
pub(crate) struct PlacedValues<'a> {
    values: &'a Domain,
    last: u64,
    rest: Option<Values<'a>>,
}

impl<'a> Model for PlacedValues<'a> {
    ghost use Rattle.std.specs.Prelude.{◌≡◌, ◌+◌, ℤ, IfSome, List, drop};

    ghost Value = { List ℤ };

    ghost view = { λ p. p.values.now };

    ghost invariant = { λ p. IfSome p.rest (λ rest. rest ≡ drop (p.last + 1) p.values.now) };
}

impl<'a> PlacedValues<'a> {
    /// The values of a domain, none of which was asked for.
    pub(crate) fn new(values: &'a Domain) -> PlacedValues<'a>
        ensures { result ≡ values.now }
    {
        PlacedValues {
            values,
            last: u64::MAX,
            rest: None,
        }
    }

    /// The value at place `i`, counted from 0. The way over the values begins with the second of two that are asked for
    /// one after the other, so that a single one costs no way.
    pub(crate) fn at(&mut self, i: u64) -> i64
        requires { i < length self.old }
        ensures same { self.new ≡ self.old }
        ensures value { slice_get self.old i ≡ Some result }
    {
        let walks = is_next(self.last, i);
        self.last = i;
        if !walks {
            self.rest = None;
            return self.values.nth(i);
        }
        match &mut self.rest {
            Some(rest) => next_of(rest),
            None => {
                let mut rest = self.values.values_from(i);
                let value = next_of(&mut rest);
                self.rest = Some(rest);
                value
            }
        }
    }
}

/// Whether place `i` is the one after the last one.
fn is_next(last: u64, i: u64) -> bool
    ensures { IsTrue result ↔ (i ≡ last + 1) }
{
    last < i && i - last == 1
}

/// The next of the values that are still to come.
fn next_of(rest: &mut Values<'_>) -> i64
    requires { 0 < length rest.old }
    ensures { rest.old ≡ result ∷ rest.new }
{
    match rest.next() {
        Some(v) => v,
        None => unreachable!(),
    }
}
