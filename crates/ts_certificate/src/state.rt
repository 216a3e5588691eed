//! Where a certificate stands between two lines.

ghost use Rattle.std.specs.Prelude.{◌≡◌, ◌<◌, ◌+◌, ◌^◌};
ghost use Rattle.ts_certificate.specs.Grammar.{SaysTree, series_left, series_count, is_open, next_state};
ghost use Rattle.ts_certificate.specs.declared.state.State.{State};
ghost use Rattle.ts_certificate.specs.Reading.{tree_lines};
ghost use Rattle.ts_certificate.specs.Seen.{line_seen};

use crate::certificate::{Aim, Claim, Parsed, TreeLine};

/// What may come next: the aim; the claim on an aim; so many series lines, at least one; the tree, after so many
/// lines of it, and then its end; nothing.
#[derive(Clone, Copy)]
pub enum State {
    Start,
    AfterAim(Aim),
    InSeries(u32),
    InTree { checked: u64, unsearched: u64 },
    AfterEnd,
}

/// How many series lines a claim asks for.
fn series_count(claim: Claim) -> u32
    ensures { result ≡ series_count claim }
{
    match claim {
        Claim::Best(_) | Claim::BudgetBest(_) => 1,
        Claim::Infeasible | Claim::BudgetNone => 0,
        Claim::Full(count) | Claim::All(count) | Claim::BudgetList(count) => count,
    }
}

/// So many series lines are to come before the tree.
fn series_left(count: u32) -> State
    ensures { result ≡ series_left count }
{
    if count == 0 {
        State::InTree {
            checked: 0,
            unsearched: 0,
        }
    } else {
        State::InSeries(count)
    }
}

/// The line leaves its box unsearched.
pub(crate) fn is_open(line: TreeLine) -> bool
    ensures { result ≡ is_open line }
{
    match line {
        TreeLine::Unsearched => true,
        _ => false,
    }
}

/// The counts with one tree line more.
fn with_tree_line(checked: u64, unsearched: u64, line: TreeLine) -> State
    requires { checked + unsearched + 1 < 2 ^ 64 }
    ensures { result ≡ next_state (State.InTree checked unsearched) (SaysTree line) }
{
    if is_open(line) {
        State::InTree {
            checked,
            unsearched: unsearched + 1,
        }
    } else {
        State::InTree {
            checked: checked + 1,
            unsearched,
        }
    }
}

/// Where the certificate stands after one more line.
pub(crate) fn next_state(state: State, line: &Parsed) -> State
    requires { tree_lines state + 1 < 2 ^ 64 }
    ensures { result ≡ next_state state (line_seen line.now) }
{
    match (state, line) {
        (_, Parsed::Aim(aim)) => State::AfterAim(*aim),
        (_, Parsed::Claim(claim)) => series_left(series_count(*claim)),
        (State::InSeries(count), Parsed::Series(_)) => series_left(count.saturating_sub(1)),
        (
            State::InTree {
                checked,
                unsearched,
            },
            Parsed::Tree(line),
        ) => with_tree_line(checked, unsearched, *line),
        (_, Parsed::Series(_) | Parsed::Tree(_)) => state,
        (_, Parsed::End { .. }) => State::AfterEnd,
    }
}
