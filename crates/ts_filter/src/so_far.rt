//! A span of which the parts are taken in one after the other.

ghost use Rattle.std.specs.Prelude.{◌≡◌, [], ◌∷◌};
ghost use Rattle.ts_base.specs.Spans.{none_span};
ghost use Rattle.ts_filter.specs.SoFar.{IsSoFar, WithParts};

use crate::question::Question;
use ts_base::Span;
use ts_meet::Asked;

/// The hull of the parts that were taken in so far, of which no number does what is asked.
#[derive(Clone, Copy)]
pub(crate) struct SoFar<'a> {
    pub(crate) asked: Question<'a>,
    pub(crate) span: Span,
}

impl<'a> SoFar<'a> {
    /// The hull of no parts.
    pub(crate) fn none(asked: Question<'a>) -> SoFar<'a>
        ensures asked { result.asked ≡ asked.entry }
        ensures span { result.span ≡ none_span }
        ensures known { IsSoFar result }
    {
        let span = Span::none();
        SoFar { asked, span }
    }

    /// The hull with one more part. None if a number of it does what is asked: whatever parts come, its numbers stay.
    pub(crate) fn with(self, part: Span) -> Option<SoFar<'a>>
        ensures { WithParts self.entry (part ∷ []) result }
    {
        let span = self.span.hull(part);
        if self.asked.excludes(span) {
            Some(SoFar {
                asked: self.asked,
                span,
            })
        } else {
            None
        }
    }
}
