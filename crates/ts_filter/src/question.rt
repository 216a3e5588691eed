//! What is asked of the numbers of a span.

ghost use Rattle.ts_filter.specs.Question.{AsksEach};

use crate::bar::Bar;
use crate::enough::{enough_to_compare, enough_to_count};
use crate::excluded::{cuts, refutes};
use crate::term_requirements::TermRequirements;
use ts_base::{Ext, Goal, Span};
use ts_meet::Asked;
use ts_model::Op;
use ts_sweep::packed::Ends;

/// What is asked of the numbers of a span: whether one meets a comparison with a bound; whether for each requirement of
/// a term one meets it; whether one counts for a bar; or nothing but what the best number is for an objective.
#[derive(Clone, Copy)]
pub(crate) enum Question<'a> {
    Compares(Op, Ext),
    MeetsEach(TermRequirements<'a>),
    Counts(Goal, Bar),
    Ranks(Goal),
}

impl<'a> Question<'a> {
    /// The question whether each of these requirements is met by some number: if there is only one of them, one
    /// comparison.
    pub(crate) fn each_met(requirements: TermRequirements<'a>) -> Question<'a>
        ensures { AsksEach requirements.entry result }
    {
        match requirements.only() {
            Some(r) => Question::Compares(r.op, r.bound),
            None => Question::MeetsEach(requirements),
        }
    }
}

impl<'a> Asked for Question<'a> {
    ghost use Rattle.ts_filter.specs.PartLaws.{part_excludes};
    ghost use Rattle.ts_filter.specs.Question.{Excludes};

    ghost excluded = { λ a s. Excludes a s };

    ghost of_part = { λ a s t within none. part_excludes a s t within none };

    #[inline(always)]
    fn excludes(self, span: Span) -> bool {
        match self {
            Question::Compares(op, bound) => refutes(op, bound, span),
            Question::MeetsEach(requirements) => requirements.first_refuted(span).is_some(),
            Question::Counts(goal, bar) => cuts(goal, bar, span),
            Question::Ranks(_) => true,
        }
    }

    fn enough(self) -> Option<Ends> {
        match self {
            Question::Compares(op, bound) => enough_to_compare(op, bound),
            Question::MeetsEach(requirements) => requirements.enough(),
            Question::Counts(goal, bar) => enough_to_count(goal, bar),
            Question::Ranks(_) => None,
        }
    }
}
