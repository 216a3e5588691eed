//! What the rules of lines depend on.

ghost use Rattle.std.specs.Prelude.{◌≡◌, ◌↔◌, ◌<◌, IsTrue, MatchOption, length};
ghost use Rattle.ts_bound.specs.TermSpans.{IsUsable};
ghost use Rattle.ts_filter.specs.OfTerm.{OfTerm};
ghost use Rattle.ts_filter.specs.RefutedWorseDrop.{IsRequirement};
ghost use Rattle.ts_filter.specs.Rules.{claimed_value};
ghost use Rattle.ts_model.specs.declared.model.Require.{Require as Requirement};

use ts_base::Ext;
use ts_certificate::{Aim, Claim};
use ts_domain::Boxed;
use ts_filter::AllTables;
use ts_model::Require;

/// What the lines before the tree say, and how many `yes` lines there were.
#[derive(Clone, Copy)]
pub(crate) struct Head<'a> {
    pub aim: Aim,
    pub claim: Claim,
    pub series: &'a [Vec<i64>],
    pub reported: usize,
}

/// Requirement `j` of these, counted from 1.
pub(crate) fn requirement(requirements: &[Require], j: u32) -> Option<Require>
    ensures { MatchOption result ((r : Requirement) → IsRequirement requirements.now j r → ⊥)
        (λ r. IsRequirement requirements.now j r) }
{
    if j == 0 {
        return None;
    }
    requirements.get(j as usize - 1).copied()
}

/// Whether the term's machine has a span at cell `p`: at any cell, but at the last alone where it can't be split.
pub(crate) fn is_usable(tables: &AllTables<'_>, term: u32, p: u32, b: &Boxed) -> bool
    requires { term < length tables.now.machines }
    ensures { OfTerm tables.now.machines term (λ a. IsTrue result ↔ IsUsable a p b.now.present) }
{
    p >= 1 && p <= b.cells() && (p == b.cells() || !tables.is_plain(term))
}

/// The number that `best V` and `budget V` claim.
pub(crate) fn claimed(claim: Claim) -> Option<Ext>
    ensures { result ≡ claimed_value claim }
{
    match claim {
        Claim::Best(value) | Claim::BudgetBest(value) => Some(value),
        _ => None,
    }
}
