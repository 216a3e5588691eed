//! The verdict on a certificate that is given at once.

ghost use Rattle.std.specs.Prelude.{◌<◌, [], IfOk, length};
ghost use Rattle.ts_base.specs.Limits.{too_many};
ghost use Rattle.ts_base.specs.Words.{strict_lines};
ghost use Rattle.ts_checker.specs.Checking.{HasChecked};
ghost use Rattle.ts_checker.specs.Verified.{IsShownBy};

use crate::checker::Checker;
use crate::verdict::Verdict;
use ts_base::{Memory, first_line};

/// The verdict of a checker that was fed no line on the lines of this text of fewer than 4,000,000,000 bytes. What is
/// accepted is true of the model.
pub fn verdict_on(checker: Checker, text: &[u8]) -> Result<Verdict, Memory>
    requires few { length text.now < too_many }
    requires unfed { HasChecked [] checker }
    ensures { IfOk result (λ verdict. IsShownBy (strict_lines text.now) checker.model verdict) }
{
    let mut checker = checker;
    let mut rest = text;
    while !rest.is_empty() {
        let (line, left) = first_line(rest);
        checker.feed_line(line)?;
        rest = left;
    }
    Ok(checker.finish())
}
