//! The model of a text that is given at once.

ghost use Rattle.std.specs.Prelude.{◌≡◌, ◌<◌, length, vec_len, IfOk};
ghost use Rattle.ts_base.specs.Limits.{too_many};
ghost use Rattle.ts_token.specs.Text.{cut_of};
ghost use Rattle.ts_model.specs.declared.model.Need.{Need};
ghost use Rattle.ts_model.specs.ModelReading.{model_reading};
ghost use Rattle.ts_model.specs.Promise.{IsWhole, KeepsLimits};
ghost use Rattle.ts_model.specs.Views.{model_parts, Reads, Tells};

use crate::error::ModelStop;
use crate::model::{Model, Need};
use crate::reader::ModelReader;
use std::alloc::Global;
use ts_base::first_line;

/// The model that a text of fewer than 4,000,000,000 bytes states, in the limits of the need, or its first bad line,
/// counted from 1, with the first kind that holds of it; a missing `cells` line or objective is reported at the number
/// of the lines plus 1. What the text takes beside itself is what its lines so far state, and the ranges of one of
/// them.
pub fn read_model(alloc: Global, text: &[u8], need: Need) -> Result<Model, ModelStop>
    requires { length text.now < too_many }
    ensures exact { Reads result (model_reading need text.now) }
    ensures first { Tells need (cut_of text.now) result }
    ensures counted { IfOk result (λ m. m.n ≡ vec_len m.cells) }
    ensures windows { IfOk result (λ m. length m.windows.items ≡ length m.terms.entries) }
    ensures whole { IfOk result (λ m. IsWhole (model_parts m)) }
    ensures limits { IfOk result (λ m. KeepsLimits need (model_parts m)) }
{
    let mut reader = ModelReader::new(alloc, need)?;
    let mut rest = text;
    while !rest.is_empty() {
        let (line, left) = first_line(rest);
        reader.line(line)?;
        rest = left;
    }
    reader.finish()
}
