//! A row of hulls in packed form.

ghost use Rattle.std.specs.List.{All, CopiedTo, SameBelow, SameFrom, remove_range};
ghost use Rattle.std.specs.Prelude.{
  ◌≡◌,
  ◌<◌,
  ◌≤◌,
  ◌+◌,
  ◌-◌,
  ◌*◌,
  [],
  ◌++◌,
  IfOk,
  drop,
  length,
  get_or,
  map,
  replicate,
  set,
  slice_range,
};
ghost use Rattle.ts_row.specs.Rows.{IsCleared, columns_part};

use crate::row_view::RowView;
use std::alloc::Global;
use std::marker::Model;
use ts_base::Memory;
use ts_sweep::hull::Hull;
use ts_sweep::packed::PackedHull;

/// The hulls of a cell: a column for each state of an automaton. The columns lie one after another in one list, each
/// with room for `stride` hulls, of which it has the first `count`.
#[derive(Drop)]
pub struct PackedRow<const N: usize> {
    pub(crate) hulls: Vec<PackedHull<N>>,
    pub(crate) states: u8,
    pub(crate) stride: usize,
    pub(crate) count: usize,
}

impl<const N: usize> Model for PackedRow<N> {
    ghost use Rattle.std.specs.Prelude.{◌≤◌, ◌*◌, List, length};
    ghost use Rattle.ts_row.specs.Rows.{columns_in};
    ghost use Rattle.ts_sweep.specs.declared.packed.PackedHull.{PackedHull};

    ghost Value = { List (List (PackedHull N)) };

    ghost view = { λ r. columns_in r.states r.stride r.count r.hulls.items };

    ghost invariant = { λ r. (r.states * r.stride ≤ length r.hulls.items) × (r.count ≤ r.stride) };
}

impl<const N: usize> PackedRow<N> {
    /// A row of no state.
    pub fn empty(alloc: Global) -> PackedRow<N>
        ensures { length result ≡ 0 }
    {
        PackedRow {
            hulls: Vec::new(alloc),
            states: 0,
            stride: 0,
            count: 0,
        }
    }

    /// The hulls at the places from `from` up to `to`.
    #[inline(always)]
    pub fn part(&self, from: usize, to: usize) -> RowView<'_, N>
        requires order { from ≤ to }
        requires inside { All (λ column. to ≤ length column) self.now }
        ensures { result ≡ columns_part from to self.now }
    {
        RowView {
            row: self,
            from,
            to,
        }
    }

    /// The hulls of a state.
    #[inline(always)]
    pub(crate) fn column(&self, q: u8) -> &[PackedHull<N>]
        requires { q < length self.now }
        ensures { result.now ≡ get_or self.now q [] }
    {
        column_at(&self.hulls, q, self.stride, self.count)
    }

    /// Makes of the row a column of `count` hulls of nothing for each state, in the same memory. After `Memory` it has
    /// no state.
    pub(crate) fn clear(&mut self, states: u8, count: usize) -> Result<(), Memory>
        requires lanes { N ≤ 64 }
        ensures { IfOk result (λ u. IsCleared N states count self.new) }
    {
        self.states = 0;
        let all = match (states as usize).checked_mul(count) {
            Some(all) => all,
            None => return Err(Memory),
        };
        self.hulls.clear();
        self.hulls.resize(all, PackedHull::nothing())?;
        self.states = states;
        self.stride = count;
        self.count = count;
        Ok(())
    }

    /// Puts copies of a hull in the place of all hulls of the first state.
    pub(crate) fn begin(&mut self, first: PackedHull<N>)
        requires { 0 < length self.old }
        ensures { self.new ≡ set self.old 0 (replicate (length (get_or self.old 0 [])) first.entry) }
    {
        fill_first(&mut self.hulls, self.count, first);
    }

    /// Takes the hulls at the places from `from` up to `to` out of each column: what is left is the row of the other
    /// values.
    pub fn take_out(&mut self, from: usize, to: usize)
        requires { from ≤ to }
        ensures { self.new ≡ map (λ column. remove_range column from to) self.old }
    {
        if to < self.count {
            for q in 0..self.states {
                move_down(&mut self.hulls, q, self.stride, self.count, from, to);
            }
            self.count -= to - from;
        } else {
            self.count = self.count.min(from);
        }
    }
}

/// The first `count` of the `stride` hulls of a state.
#[inline(always)]
fn column_at<const N: usize>(
    hulls: &[PackedHull<N>],
    q: u8,
    stride: usize,
    count: usize,
) -> &[PackedHull<N>]
    requires { q * stride + count ≤ length hulls.now }
    ensures { result.now ≡ slice_range hulls.now (q * stride) (q * stride + count) }
{
    let from = q as usize * stride;
    &hulls[from..from + count]
}

/// Puts copies of a hull in the place of the first `count` hulls.
fn fill_first<const N: usize>(hulls: &mut [PackedHull<N>], count: usize, first: PackedHull<N>)
    requires { count ≤ length hulls.old }
    ensures { hulls.new ≡ replicate count first.entry ++ drop count hulls.old }
{
    hulls[..count].fill(first);
}

/// Moves the hulls of a state, of which there are `count`, from place `to` on down to place `from`.
fn move_down<const N: usize>(
    hulls: &mut Vec<PackedHull<N>>,
    q: u8,
    stride: usize,
    count: usize,
    from: usize,
    to: usize,
)
    requires order { from ≤ to }
    requires between { to < count }
    requires inside { q * stride + count ≤ length hulls.old.items }
    ensures len { length hulls.new.items ≡ length hulls.old.items }
    ensures copied { CopiedTo hulls.old.items hulls.new.items (q * stride + to) (q * stride + from)
        (q * stride + count - (q * stride + to)) }
    ensures below { SameBelow hulls.old.items hulls.new.items (q * stride + from) }
    ensures above { SameFrom hulls.old.items hulls.new.items
        (q * stride + from + (q * stride + count - (q * stride + to))) }
{
    let start = q as usize * stride;
    hulls.copy_within(start + to..start + count, start + from);
}
