//! What a checker reports before each line of a certificate, and its verdict. More verdicts are in `examples/rows`.

ghost use Rattle.std.specs.Prelude.{◌≡◌, IfOk, OnOk, false};

use Verdict::{Accepted, Refused};
use std::alloc::Global;
use ts_base::Memory;
use ts_checker::{Checker, Verdict};
use ts_compile::compile_model;
use ts_model::{Need, read_model};

/// A model: three cells of 0 and 1, and the peaks counted.
static PEAKS: &str = "cells 3\ndomain 0..1\nterm c = count peak\nobjective c\n";

/// A line of a certificate for `PEAKS`, how many boxes wait before it, and the first line that has broken its rule
/// then.
type Step = (&'static str, u64, Option<u32>);

/// Lines, how many boxes wait after them, the first line that broke its rule, and the verdict.
type Steps = (&'static [Step], u64, Option<u32>, Verdict);

/// A proof that the best series has one peak; and a split with an empty side, which breaks its rule and stays the first
/// line that did when a later one is refused.
static ALL: [Steps; 2] = [
    (
        &[
            ("maximise\n", 1, None),
            ("best 1\n", 1, None),
            ("series 0 1 0\n", 1, None),
            ("split 1 0\n", 1, None),
            ("split 2 0\n", 2, None),
            ("worse 3\n", 3, None),
            ("split 3 0\n", 2, None),
            ("worse 3\n", 3, None),
            ("worse 3\n", 2, None),
            ("worse 3\n", 1, None),
            ("end 7 0\n", 0, None),
        ],
        0,
        None,
        Accepted,
    ),
    (
        &[
            ("maximise\n", 1, None),
            ("best 1\n", 1, None),
            ("series 0 1 0\n", 1, None),
            ("split 1 0\n", 1, None),
            ("split 1 0\n", 2, None),
            ("worse 3\n", 0, Some(5)),
            ("worst\n", 0, Some(5)),
            ("worse 3\n", 0, Some(5)),
        ],
        0,
        Some(5),
        Refused(7),
    ),
];

// The text and the table behind functions, so that the proofs of the tests don't read them.
fn peaks() -> &'static str {
    PEAKS
}

fn all_steps() -> &'static [Steps] {
    &ALL
}

/// The checker of certificates for the model of a text; a text that is refused gives none either.
fn checker_of(alloc: Global, model: &str) -> Result<Checker, Memory>
    ensures { IfOk result (λ c. c.missing ≡ false) }
{
    let text = model.as_bytes();
    if text.len() >= 1000 {
        return Err(Memory);
    }
    match read_model(alloc, text, Need::List) {
        Ok(model) => {
            let program = compile_model(alloc, &model)?;
            Checker::new(alloc, model, program)
        }
        Err(_) => Err(Memory),
    }
}

/// Whether a checker reports this many boxes and this line.
fn tells(checker: &Checker, waiting: u64, broken: Option<u32>) -> bool
    requires { checker.now.missing ≡ false }
{
    checker.waiting() == waiting && checker.broken_line() == broken
}

/// Feeds the lines of rows, up to the first one before whose line the checker reports something else.
fn first_other(checker: &mut Checker, rows: &[Step]) -> Result<Option<usize>, Memory>
    requires { checker.old.missing ≡ false }
    ensures { OnOk result (checker.new.missing ≡ false) }
{
    for k in 0..rows.len() {
        let (line, waiting, broken) = rows[k];
        if checker.next_line() > 1000 || !tells(checker, waiting, broken) {
            return Ok(Some(k));
        }
        checker.feed_line(line.as_bytes())?;
    }
    Ok(None)
}

/// The first row before whose line the checker reports something else; their number where it does after them.
fn first_wrong_step(alloc: Global, steps: &Steps) -> Result<Option<usize>, Memory> {
    let &(rows, waiting, broken, verdict) = steps;
    let mut checker = checker_of(alloc, peaks())?;
    let other = first_other(&mut checker, rows)?;
    if other.is_some() {
        return Ok(other);
    }
    let told = tells(&checker, waiting, broken);
    let found = checker.finish();
    if told && found == verdict {
        Ok(None)
    } else {
        Ok(Some(rows.len()))
    }
}

#[test]
fn lines_and_verdicts(rt: HostRuntime) {
    for steps in all_steps() {
        assert!(rt; first_wrong_step(rt.alloc(), steps) == Ok(None));
    }
}
