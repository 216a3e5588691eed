//! A row of hulls at some of its places.

ghost use Rattle.std.specs.Prelude.{◌≡◌, ◌<◌, [], get_or, length};
ghost use Rattle.ts_row.specs.Rows.{nothing};

use crate::packed_row::PackedRow;
use std::marker::Model;
use ts_sweep::packed::PackedHull;

/// The hulls of a packed row at some of its places, lent.
#[derive(Drop)]
pub struct RowView<'a, const N: usize> {
    pub(crate) row: &'a PackedRow<N>,
    pub(crate) from: usize,
    pub(crate) to: usize,
}

impl<'a, const N: usize> Model for RowView<'a, N> {
    ghost use Rattle.std.specs.Prelude.{◌≤◌, List, length};
    ghost use Rattle.std.specs.List.{All};
    ghost use Rattle.ts_sweep.specs.declared.packed.PackedHull.{PackedHull};
    ghost use Rattle.ts_row.specs.Rows.{columns_part};

    ghost Value = { List (List (PackedHull N)) };

    ghost view = { λ v. columns_part v.from v.to v.row.now };

    ghost invariant = { λ v. (v.from ≤ v.to) × All (λ column. v.to ≤ length column) v.row.now };
}

impl<'a, const N: usize> RowView<'a, N> {
    /// The hulls of a state.
    #[inline(always)]
    pub fn column(&self, q: u8) -> &'a [PackedHull<N>]
        requires { q < length self.now }
        ensures { result.now ≡ get_or self.now q [] }
    {
        &self.row.column(q)[self.from..self.to]
    }

    /// The hull of a state at place `i`.
    #[inline(always)]
    pub fn hull(&self, q: u8, i: usize) -> &'a PackedHull<N>
        requires state { q < length self.now }
        requires place { i < length (get_or self.now q []) }
        ensures { result.now ≡ get_or (get_or self.now q []) i (nothing N) }
    {
        &self.row.column(q)[self.from + i]
    }
}
