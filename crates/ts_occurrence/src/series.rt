//! A series' signature, and the cells of a range or a window.

ghost use Rattle.std.specs.Prelude.{◌≡◌, ◌≤◌, length, IfOk};
ghost use Rattle.ts_base.specs.Windows.{LooksInside, looked_at};
ghost use Rattle.ts_base.specs.Signature.{signature_of};
ghost use Rattle.ts_pattern.specs.FeatureValue.{cells_of};
ghost use Rattle.ts_pattern.specs.Limits.{IsSeries};
ghost use Rattle.ts_transducer.specs.Inside.{IsInside};

use std::alloc::Global;
use ts_base::{Letter, Memory, Range, letter_of};

/// How each cell of the series compares with the next one: `n - 1` letters for `n` cells, `n` at least 1.
pub fn signature(alloc: Global, series: &[i64]) -> Result<Vec<Letter>, Memory>
    requires { 1 ≤ length series.now }
    ensures { IfOk result (λ v. v.items ≡ signature_of series.now) }
{
    let mut letters = Vec::new(alloc);
    for k in 1..series.len() {
        letters.push(letter_of(series[k - 1], series[k]))?;
    }
    Ok(letters)
}

/// The cells of the range, which lies in the series.
pub fn part<'a>(r: Range, series: &'a [i64]) -> &'a [i64]
    requires { IsInside (length series.now) r }
    ensures { result.now ≡ cells_of r series.now }
{
    &series[r.first as usize - 1..r.last as usize]
}

/// The cells that are looked at: all, which are lent as they are, or those of the window, which lies in the series.
pub fn looked_at<'a>(window: Option<Range>, series: &'a [i64]) -> &'a [i64]
    requires { LooksInside (length series.now) window }
    ensures cells { result.now ≡ looked_at window series.now }
    ensures series { IsSeries series.now → IsSeries result.now }
{
    match window {
        None => series,
        Some(window) => part(window, series),
    }
}
