//! The text of a certificate.

ghost use Rattle.std.specs.Prelude.{◌≡◌, ◌+◌, ◌++◌, ◌∷◌, [], ◌<◌, ◌^◌, length, map, OnOk, IfOk};
ghost use Rattle.std.specs.Fmt.{signed_decimal};
ghost use Rattle.ts_base.specs.Text.{ext_text};
ghost use Rattle.ts_base.specs.Words.{behind, full_line};
ghost use Rattle.ts_certificate.specs.Certificate.{cert_seen, certificate_text, series_text, tree_text};
ghost use Rattle.ts_certificate.specs.Certificate.{checked_count, open_count, end_line};
ghost use Rattle.ts_certificate.specs.Grammar.{line_text};
ghost use Rattle.ts_certificate.specs.HeadLines.{aim_words, claim_words};
ghost use Rattle.ts_certificate.specs.TreeLines.{tree_words};

use crate::certificate::{Aim, Certificate, Claim, TreeLine};
use crate::state::is_open;
use std::alloc::Global;
use ts_base::{Ext, Goal, Memory, push_ext, push_number};

/// Appends a space and a number to `text`.
fn push_spaced(text: &mut Vec<u8>, n: i64) -> Result<(), Memory>
    ensures { OnOk result (text.new.items ≡ text.old.items ++ (32 ∷ signed_decimal n)) }
{
    text.push(b' ')?;
    push_number(text, n)
}

/// Appends the line of a word and numbers to `text`.
fn push_line(text: &mut Vec<u8>, first: &[u8], numbers: &[i64]) -> Result<(), Memory>
    ensures { OnOk result (text.new.items ≡ text.old.items
        ++ full_line (record { first = first.now; more = map signed_decimal numbers.now })) }
{
    text.extend_from_slice(first)?;
    push_values(text, numbers)?;
    text.push(b'\n')?;
    Ok(())
}

/// Appends a tree line to `text`.
fn push_tree_line(text: &mut Vec<u8>, line: TreeLine) -> Result<(), Memory>
    ensures { OnOk result (text.new.items ≡ text.old.items ++ full_line (tree_words line)) }
{
    match line {
        TreeLine::Split { k, t } => push_line(text, b"split", &[i64::from(k), t]),
        TreeLine::Remove { k, v, j } => push_line(text, b"drop", &[i64::from(k), v, i64::from(j)]),
        TreeLine::No { j, p } => push_line(text, b"no", &[i64::from(j), i64::from(p)]),
        TreeLine::Worse { p } => push_line(text, b"worse", &[i64::from(p)]),
        TreeLine::Yes => push_line(text, b"yes", &[]),
        TreeLine::Unsearched => push_line(text, b"open", &[]),
    }
}

/// Appends the aim line to `text`.
fn push_aim(text: &mut Vec<u8>, aim: Aim) -> Result<(), Memory>
    ensures { OnOk result (text.new.items ≡ text.old.items ++ full_line (aim_words aim)) }
{
    match aim {
        Aim::Best(Goal::Maximise) => push_line(text, b"maximise", &[]),
        Aim::Best(Goal::Minimise) => push_line(text, b"minimise", &[]),
        Aim::List(count) => push_line(text, b"generate", &[i64::from(count)]),
    }
}

/// Appends the line of a word and a value to `text`.
fn push_value_line(text: &mut Vec<u8>, first: &[u8], value: Ext) -> Result<(), Memory>
    ensures { OnOk result (text.new.items ≡ text.old.items
        ++ full_line (record { first = first.now; more = ext_text value ∷ [] })) }
{
    text.extend_from_slice(first)?;
    text.push(b' ')?;
    push_ext(text, value)?;
    text.push(b'\n')?;
    Ok(())
}

/// Appends the claim line to `text`.
fn push_claim(text: &mut Vec<u8>, claim: Claim) -> Result<(), Memory>
    ensures { OnOk result (text.new.items ≡ text.old.items ++ full_line (claim_words claim)) }
{
    match claim {
        Claim::Best(value) => push_value_line(text, b"best", value),
        Claim::Infeasible => push_line(text, b"infeasible", &[]),
        Claim::BudgetBest(value) => push_value_line(text, b"budget", value),
        Claim::BudgetNone => push_line(text, b"budget none", &[]),
        Claim::Full(count) => push_line(text, b"full", &[i64::from(count)]),
        Claim::All(count) => push_line(text, b"all", &[i64::from(count)]),
        Claim::BudgetList(count) => push_line(text, b"budget", &[i64::from(count)]),
    }
}

/// Appends numbers to `text`, each after a space.
fn push_values(text: &mut Vec<u8>, values: &[i64]) -> Result<(), Memory>
    ensures { OnOk result (text.new.items ≡ text.old.items ++ behind (map signed_decimal values.now)) }
{
    for v in values {
        push_spaced(text, *v)?;
    }
    Ok(())
}

/// Appends the series lines to `text`.
fn push_all_series(text: &mut Vec<u8>, series: &[Vec<i64>]) -> Result<(), Memory>
    ensures { OnOk result (text.new.items ≡ text.old.items ++ series_text (map (λ v. v.items) series.now)) }
{
    for values in series {
        push_line(text, b"series", values)?;
    }
    Ok(())
}

/// Appends the tree lines to `text`.
fn push_tree(text: &mut Vec<u8>, tree: &[TreeLine]) -> Result<(), Memory>
    ensures { OnOk result (text.new.items ≡ text.old.items ++ tree_text tree.now) }
{
    for line in tree {
        push_tree_line(text, *line)?;
    }
    Ok(())
}

/// The number of tree lines other than `open`, and that of the `open` lines.
fn counts_of(tree: &[TreeLine]) -> (usize, usize)
    ensures checked { result.0 ≡ checked_count tree.now }
    ensures unsearched { result.1 ≡ open_count tree.now }
    ensures few { result.0 + result.1 ≡ length tree.now }
{
    let mut checked = 0;
    let mut unsearched = 0;
    for line in tree {
        if is_open(*line) {
            unsearched += 1;
        } else {
            checked += 1;
        }
    }
    (checked, unsearched)
}

/// Appends the end line with the counts of the tree to `text`.
fn push_end(text: &mut Vec<u8>, tree: &[TreeLine]) -> Result<(), Memory>
    requires { length tree.now < 2 ^ 63 }
    ensures { OnOk result (text.new.items ≡ text.old.items ++ line_text (end_line tree.now)) }
{
    let (checked, unsearched) = counts_of(tree);
    push_line(text, b"end", &[checked as i64, unsearched as i64])
}

/// No fewer bytes than the text of a certificate has whose numbers are within their ranges: 21 for each line of its
/// tree, 9 for each number of a series and 7 for the rest of its line, and 60 for the three other lines.
fn room_for(c: &Certificate) -> usize {
    let mut room = c.tree.len().saturating_mul(21).saturating_add(60);
    for values in &c.series {
        room = room.saturating_add(values.len().saturating_mul(9).saturating_add(7));
    }
    room
}

/// The one text of a certificate: a line for its aim, its claim, each of its series and each line of its tree, and the
/// end line with the counts of its tree. Its room is taken at once: a text that grew would be held twice at times.
pub fn write_certificate(alloc: Global, c: &Certificate) -> Result<Vec<u8>, Memory>
    ensures { IfOk result (λ text. text.items ≡ certificate_text (cert_seen c.now)) }
{
    let mut text = Vec::with_capacity(alloc, room_for(c))?;
    push_aim(&mut text, c.aim)?;
    push_claim(&mut text, c.claim)?;
    push_all_series(&mut text, &c.series)?;
    push_tree(&mut text, &c.tree)?;
    push_end(&mut text, &c.tree)?;
    Ok(text)
}
