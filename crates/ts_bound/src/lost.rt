//! Which values a cell has lost.

ghost use Rattle.std.specs.Prelude.{◌≡◌, ◌≤◌, length, take};
ghost use Rattle.ts_bound.specs.Gone.{AreLost};

use crate::gone::Gone;

/// Which values are gone, if those that are there now are the earlier ones without some that stood side by side.
pub(crate) fn gone_between(before: &[i64], now: &[i64]) -> Option<Gone>
    ensures { AreLost result before.now now.now }
{
    if before.len() <= now.len() {
        return None;
    }
    let from = same_up_to(before, now);
    let to = from + (before.len() - now.len());
    if before[to..] != now[from..] {
        return None;
    }
    Some(Gone { from, to })
}

/// How many values at the beginning are the earlier ones.
fn same_up_to(before: &[i64], now: &[i64]) -> usize
    requires { length now.now ≤ length before.now }
    ensures same { take result now.now ≡ take result before.now }
    ensures within { result ≤ length now.now }
{
    for i in 0..now.len() {
        if before[i] != now[i] {
            return i;
        }
    }
    now.len()
}
