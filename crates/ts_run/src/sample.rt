//! `sample N`: a model that is made, minimised and checked.

ghost use Rattle.std.specs.Prelude.{◌≡◌, ◌≤◌, ◌<◌, ◌++◌, length, IfOk, OnOk};
ghost use Rattle.std.specs.Fmt.{signed_decimal};
ghost use Rattle.ts_automaton.specs.AutomatonRun.{AreCellValues};
ghost use Rattle.ts_base.specs.Limits.{most_cells};
ghost use Rattle.ts_base.specs.Text.{line};
ghost use Rattle.ts_certificate.specs.Certificate.{checked_count};
ghost use Rattle.ts_run.specs.Reply.{ComesOfInput, reply_of};
ghost use Rattle.ts_run.specs.Sample.{SampleReply, head_lines, sample_text, sum_of, three_lines};

use crate::quantity::{Budget, Cells};
use crate::reply::Reply;
use crate::sampling::sample_model;
use crate::status::Status;
use crate::verify::verdict_reply;
use std::alloc::Global;
use ts_base::{Ext, Goal, Memory, push_ext, push_number};
use ts_certificate::{Claim, TreeLine, write_certificate};
use ts_checker::{Checker, verdict_on};
use ts_compile::compile_model;
use ts_search::solve;

/// What the search finds in the model with this many cells, with the checker's verdict on its certificate; or that its
/// lines ran out.
pub fn sample(alloc: Global, cells: Cells) -> Result<Reply, Memory>
    ensures reply { IfOk result (λ r. SampleReply cells (reply_of r)) }
    ensures status { IfOk result (λ r. ComesOfInput r.status) }
{
    let n = cells.cells();
    let model = sample_model(alloc, n)?;
    let program = compile_model(alloc, &model)?;
    let certificate = solve(
        alloc,
        &model,
        &program,
        Goal::Minimise,
        u64::from(Budget::USUAL),
    )?;
    let Claim::Best(value) = certificate.claim else {
        return ran_out(alloc, n);
    };
    let sum = sum_of(&certificate.series[0]);
    let lines = checked_lines(&certificate.tree);
    let text = write_certificate(alloc, &certificate)?;
    let verdict = verdict_on(Checker::new(alloc, model, program)?, &text)?;
    let mut reply = verdict_reply(alloc, verdict)?;
    reply.text = found(alloc, n, value, sum, lines, &reply.text)?;
    Ok(reply)
}

/// The lines of a search that found its first best series, before the verdict on them.
fn found(
    alloc: Global,
    n: u32,
    value: Ext,
    sum: i64,
    lines: usize,
    verdict: &[u8],
) -> Result<Vec<u8>, Memory>
    requires { lines < 9223372036854775808 }
    ensures { IfOk result (λ text. text.items ≡ sample_text n value sum lines ++ verdict.now) }
{
    let mut text = Vec::new(alloc);
    push_head(&mut text, n)?;
    text.extend_from_slice(b"best ")?;
    push_ext(&mut text, value)?;
    text.push(b'\n')?;
    push_counted(&mut text, b"sum ", sum)?;
    push_counted(&mut text, b"lines ", lines as i64)?;
    text.extend_from_slice(verdict)?;
    Ok(text)
}

/// The reply where the lines of the search ran out.
fn ran_out(alloc: Global, n: u32) -> Result<Reply, Memory>
    ensures reply { IfOk result (λ r. reply_of r ≡ three_lines n) }
    ensures status { IfOk result (λ r. ComesOfInput r.status) }
{
    let mut text = Vec::new(alloc);
    push_head(&mut text, n)?;
    text.extend_from_slice(b"budget\n")?;
    let status = Status::Budget;
    Ok(Reply { text, status })
}

/// Appends the two lines with the number of cells.
fn push_head(text: &mut Vec<u8>, n: u32) -> Result<(), Memory>
    ensures { OnOk result (text.new.items ≡ text.old.items ++ head_lines n) }
{
    push_counted(text, b"sample ", i64::from(n))?;
    push_counted(text, b"cells ", i64::from(n))
}

/// Appends a line with words and a number.
fn push_counted(text: &mut Vec<u8>, words: &[u8], number: i64) -> Result<(), Memory>
    ensures { OnOk result (text.new.items ≡ text.old.items ++ line (words.now ++ signed_decimal number)) }
{
    text.extend_from_slice(words)?;
    push_number(text, number)?;
    text.push(b'\n')?;
    Ok(())
}

/// The sum of a series.
fn sum_of(series: &[i64]) -> i64
    requires few { length series.now ≤ most_cells }
    requires cells { AreCellValues series.now }
    ensures { result ≡ sum_of series.now }
{
    let mut sum = 0;
    for k in 0..series.len() {
        sum += series[k];
    }
    sum
}

/// The number of lines other than `open`.
fn checked_lines(tree: &[TreeLine]) -> usize
    ensures checked { result ≡ checked_count tree.now }
    ensures few { result ≤ length tree.now }
{
    let mut checked = 0;
    for line in tree {
        if !matches!(*line, TreeLine::Unsearched) {
            checked += 1;
        }
    }
    checked
}
