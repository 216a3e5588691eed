//! The ranges that a transducer decodes from a whole signature.

ghost use Rattle.std.specs.Prelude.{◌≡◌, ◌<◌, ◌≤◌, ◌++◌, length, IfOk};
ghost use Rattle.std.specs.Option.{option_to_list};
ghost use Rattle.ts_base.specs.Limits.{too_many};
ghost use Rattle.ts_transducer.specs.Rows.{rows_of};
ghost use Rattle.ts_transducer.specs.Decode.{arrow_at, decode};

use crate::decoder::Decoder;
use crate::row::Arrow;
use crate::transducer::Transducer;
use std::alloc::Global;
use ts_base::{Letter, Memory, Range};

/// The ranges that the transducer decodes from a signature of fewer than 4,000,000,000 letters, in cells counted from
/// 1, in the order in which they are complete. `a` is 1 where an occurrence leaves its last cell out, else 0.
pub fn decoded(alloc: Global, t: &Transducer, a: u8, w: &[Letter]) -> Result<Vec<Range>, Memory>
    requires few { length w.now < too_many }
    requires trim { a ≤ 1 }
    ensures { IfOk result (λ v. v.items ≡ decode (rows_of t.now) a w.now) }
{
    let mut decoder = Decoder::new();
    let mut ranges = Vec::new(alloc);
    let mut state = 0;
    for k in 0..w.len() {
        let arrow = arrow_at(t, state, w[k]);
        let emitted = decoder.step(k as u32 + 1, arrow.phase, a);
        push_some(&mut ranges, emitted)?;
        state = arrow.next as usize;
    }
    push_some(&mut ranges, decoder.finish())?;
    Ok(ranges)
}

/// The move of a state on a letter.
fn arrow_at(t: &Transducer, state: usize, letter: Letter) -> Arrow
    requires { state < length (rows_of t.now) }
    ensures { result ≡ arrow_at (rows_of t.now) state letter }
{
    t.rows()[state].arrow(letter)
}

/// Adds the range, if there is one.
fn push_some(ranges: &mut Vec<Range>, range: Option<Range>) -> Result<(), Memory>
    ensures { IfOk result (λ _. ranges.new.items ≡ ranges.old.items ++ option_to_list range) }
{
    if let Some(range) = range {
        ranges.push(range)?;
    }
    Ok(())
}
