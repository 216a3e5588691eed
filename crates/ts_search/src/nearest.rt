//! Which value of a cell brings a series nearest to what a requirement asks.

ghost use Rattle.std.specs.Prelude.{◌≡◌, ◌≤◌, ℤ, Contains, IsSome, List, length, pos, true};
ghost use Rattle.ts_automaton.specs.AutomatonRun.{AreCellValues};
ghost use Rattle.ts_base.specs.Limits.{IsCellValue, most_cells};
ghost use Rattle.ts_glue.specs.Machines.{pair_of};
ghost use Rattle.ts_model.specs.Compares.{compares};
ghost use Rattle.ts_witness.specs.Witnesses.{IsWitness, series_of};

use ts_base::Ext;
use ts_domain::Domain;
use ts_glue::Machine;
use ts_model::{Require, satisfies};
use ts_witness::Witness;

/// How many values are tried from either end of a domain.
const MOST_TRIED: u64 = 4;

/// A value of a cell, and how far from the bound the term is with it.
#[derive(Clone, Copy)]
struct Tried {
    value: i64,
    far: i64,
}

/// Of `from` and a few values of the domain the one that, at place `k` of the series, counted from 1, brings it nearest
/// to what the requirement asks. The machine of its term can be split.
pub(crate) fn nearest(
    witness: &mut Witness,
    m: &Machine,
    r: &Require,
    k: u32,
    domain: &Domain,
    from: i64,
) -> i64
    requires split { IsSome (pair_of m.now) }
    requires witness { IsWitness m.now witness.old }
    requires few { length (series_of witness.old) ≤ most_cells }
    requires cells { AreCellValues (series_of witness.old) }
    requires place { 1 ≤ k }
    requires to { k ≤ length (series_of witness.old) }
    requires from { Contains domain.now from }
    ensures witness { IsWitness m.now witness.new }
    ensures series { series_of witness.new ≡ series_of witness.old }
    ensures there { Contains domain.now result }
{
    let count = domain.size();
    let mut best = value_tried(witness, m, r, k, from);
    for i in 0..count.min(MOST_TRIED) {
        if best.far == 0 {
            return best.value;
        }
        let low = value_tried(witness, m, r, k, domain.nth(i));
        let high = value_tried(witness, m, r, k, domain.nth(count - 1 - i));
        best = nearer(nearer(best, low), high);
    }
    best.value
}

/// How far the term is from its bound where the value stands at place `k` of the series.
fn value_tried(witness: &mut Witness, m: &Machine, r: &Require, k: u32, value: i64) -> Tried
    requires split { IsSome (pair_of m.now) }
    requires witness { IsWitness m.now witness.old }
    requires few { length (series_of witness.old) ≤ most_cells }
    requires cells { AreCellValues (series_of witness.old) }
    requires from { 1 ≤ k }
    requires to { k ≤ length (series_of witness.old) }
    requires value { IsCellValue value }
    ensures witness { IsWitness m.now witness.new }
    ensures series { series_of witness.new ≡ series_of witness.old }
    ensures value { result.value ≡ value }
{
    let v = witness.value_with(m, k, value);
    Tried {
        value,
        far: distance(r, v),
    }
}

/// The one of two that is nearer to its bound.
fn nearer(a: Tried, b: Tried) -> Tried
    ensures { (d : List ℤ) → Contains d a.value → Contains d b.value → Contains d result.value }
{
    if b.far < a.far { b } else { a }
}

/// How far a value is from what the requirement asks; 0 where it does.
fn distance(r: &Require, v: Ext) -> i64
    ensures { compares r.now.op r.now.bound v ≡ true → result ≡ pos 0 }
{
    if satisfies(r.op, r.bound, v) {
        return 0;
    }
    match (r.bound, v) {
        (Ext::Int(b), Ext::Int(v)) => b.saturating_sub(v).max(v.saturating_sub(b)),
        _ => i64::MAX,
    }
}
