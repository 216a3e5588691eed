//! Where a box is split, and the series of a box of one.

ghost use Rattle.std.specs.Prelude.{◌≡◌, ◌≤◌, ◌-◌, IfOk, MatchOption, take};
ghost use Rattle.ts_domain.specs.Values.{IsDomain};
ghost use Rattle.ts_filter.specs.Boxes.{box_of};
ghost use Rattle.ts_frontier.specs.Forms.{form, form_seen};
ghost use Rattle.ts_frontier.specs.Halve.{IsSingle, IsHalving, middle_of};

use std::alloc::Global;
use ts_base::Memory;
use ts_domain::{Boxed, Domain};

/// A cell with two or more values, counted from 1, and the lower middle one of them.
#[derive(Clone, Copy, Debug, PartialEq, Eq)]
pub struct Halving {
    pub cell: u32,
    pub at: i64,
}

/// What a box is: its one series, or where it is split.
#[derive(Debug, PartialEq, Eq, Drop)]
pub enum Form {
    Alone(Vec<i64>),
    Wide(Halving),
}

/// The one series of a box, or its first cell with two or more values and the lower middle one of them.
pub fn form_of(alloc: Global, b: &Boxed) -> Result<Form, Memory>
    ensures { IfOk result (λ f. form_seen f ≡ form b.now.present) }
{
    match first_halving(b) {
        Some(halving) => Ok(Form::Wide(halving)),
        None => Ok(Form::Alone(only_series(alloc, b)?)),
    }
}

/// The first cell with two or more values, and of its m values the one at place (m + 1) / 2, rounded down and counted
/// from 1; none where each cell has one value.
pub fn first_halving(b: &Boxed) -> Option<Halving>
    ensures { MatchOption result (IsSingle b.now.present) (λ h. IsHalving h.cell h.at b.now.present) }
{
    halving_from(b, 1)
}

/// The first cell with two or more values, and the lower middle one of them; none where each cell has one value. Each
/// cell before cell `k`, counted from 1, has one value: these aren't looked at.
pub fn halving_from(b: &Boxed, k: u32) -> Option<Halving>
    requires from { 1 ≤ k }
    requires before { IsSingle (take (k - 1) b.now.present) }
    ensures { MatchOption result (IsSingle b.now.present) (λ h. IsHalving h.cell h.at b.now.present) }
{
    for i in k - 1..b.cells() {
        let domain = b.cell(i + 1);
        if !domain.is_single() {
            return Some(Halving {
                cell: i + 1,
                at: lower_middle(domain),
            });
        }
    }
    None
}

/// The series of a box of one.
pub(crate) fn only_series(alloc: Global, b: &Boxed) -> Result<Vec<i64>, Memory>
    ensures { IfOk result (λ x. IsSingle b.now.present → b.now.present ≡ box_of x.items) }
{
    let mut series = Vec::new(alloc);
    for i in 0..b.cells() {
        series.push(b.cell(i + 1).least())?;
    }
    Ok(series)
}

/// The value in the middle, the lower one of two.
fn lower_middle(domain: &Domain) -> i64
    ensures middle { result ≡ middle_of domain.now }
    ensures domain { IsDomain domain.now }
{
    let size = domain.size();
    domain.nth((size - 1) / 2)
}
