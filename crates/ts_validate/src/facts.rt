//! What the checks ask of the entries that a step keeps, and the checks themselves.

ghost use Rattle.std.specs.Prelude.{◌≡◌, ◌&&◌, ◌||◌, not};
ghost use Rattle.std.specs.List.{list_any};
ghost use Rattle.ts_pattern.specs.Closed.{is_due, is_ind, is_inc, tag_after, implies, first_passes, is_match, is_find};
ghost use Rattle.ts_validate.specs.Facts.{facts_of, facts_agree};

use crate::tags::{is_inc, is_ind, starts, tag_after};
use crate::words::Words;
use ts_base::Kind;
use ts_pattern::Tag;
use ts_transducer::Phase;

/// An entry that a step keeps, as the checks see it: which words its residual has after the step, and its tag before.
#[derive(Clone, Copy, Debug, PartialEq, Eq)]
pub struct Kept {
    pub words: Words,
    pub tag: Tag,
}

/// Whether the checks hold of the entries that a step with this phase letter keeps, with the kind of the next state;
/// `free` says that no entry had InD before the step.
pub fn kept_agree(phase: Phase, kind: Kind, free: bool, kept: &[Kept]) -> bool
    ensures { result ≡ facts_agree (facts_of phase free kept.now) phase kind }
{
    answers(phase, free, kept).agree(phase, kind)
}

/// The answers that the checks of one step need. Of an entry the tag before the step counts, unless said.
#[derive(Clone, Copy)]
pub struct Facts {
    /// Some residual has the empty word.
    pub some_nullable: bool,
    /// The first residual has it.
    pub first_nullable: bool,
    /// The first entry may be the start of a find.
    pub first_starts: bool,
    /// The first residual has no longer word.
    pub first_ends: bool,
    /// The first entry has InC after the step.
    pub first_holds: bool,
    /// Some entry has InC.
    pub some_held: bool,
    /// Some entry has InD after the step.
    pub some_keeps: bool,
}

/// The answers for entries that a step with this phase letter keeps.
fn answers(phase: Phase, free: bool, kept: &[Kept]) -> Facts
    ensures { result ≡ facts_of phase free kept.now }
{
    Facts {
        some_nullable: some_nullable(kept),
        first_nullable: first_nullable(kept),
        first_starts: first_starts(free, kept),
        first_ends: first_ends(kept),
        first_holds: first_holds(phase, free, kept),
        some_held: some_held(kept),
        some_keeps: some_keeps(phase, free, kept),
    }
}

impl Facts {
    /// Whether the checks of the kept entries hold at this phase letter, with the kind of the next state.
    fn agree(&self, phase: Phase, kind: Kind) -> bool
        ensures { result ≡ facts_agree self.now phase kind }
    {
        let accepted = implied(self.some_nullable, is_match(phase))
            && implied(is_match(phase), self.first_nullable);
        let begun = implied(is_find(phase), self.first_starts);
        let ended = implied(phase == Phase::FoundE, self.first_ends);
        let held = implied(kind == Kind::Held, self.first_holds)
            && implied(phase == Phase::OutA, !self.some_held);
        let kept = implied(phase == Phase::MaybeB, self.some_keeps);
        accepted && begun && ended && held && kept
    }
}

/// Whether `b` holds where `a` does.
fn implied(a: bool, b: bool) -> bool
    ensures { result ≡ implies a b }
{
    !a || b
}

/// Whether a match ends at the sign.
fn is_match(phase: Phase) -> bool
    ensures { result ≡ is_match phase }
{
    matches!(phase, Phase::Found | Phase::FoundE | Phase::Inside)
}

/// Whether a range is found at the sign.
fn is_find(phase: Phase) -> bool
    ensures { result ≡ is_find phase }
{
    matches!(phase, Phase::Found | Phase::FoundE)
}

fn some_nullable(kept: &[Kept]) -> bool
    ensures { result ≡ list_any (λ e. e.words.nullable) kept.now }
{
    kept.iter().any(|e| e.words.nullable)
}

fn first_nullable(kept: &[Kept]) -> bool
    ensures { result ≡ first_passes (λ e. e.words.nullable) kept.now }
{
    match kept {
        [e, ..] => e.words.nullable,
        [] => false,
    }
}

fn first_starts(free: bool, kept: &[Kept]) -> bool
    ensures { result ≡ first_passes (λ e. is_ind e.tag || (is_due e.tag && free)) kept.now }
{
    match kept {
        [e, ..] => starts(free, e.tag),
        [] => false,
    }
}

fn first_ends(kept: &[Kept]) -> bool
    ensures { result ≡ first_passes (λ e. not e.words.longer) kept.now }
{
    match kept {
        [e, ..] => !e.words.longer,
        [] => false,
    }
}

fn first_holds(phase: Phase, free: bool, kept: &[Kept]) -> bool
    ensures { result ≡ first_passes (λ e. is_inc (tag_after phase free e.tag)) kept.now }
{
    match kept {
        [e, ..] => is_inc(tag_after(phase, free, e.tag)),
        [] => false,
    }
}

fn some_held(kept: &[Kept]) -> bool
    ensures { result ≡ list_any (λ e. is_inc e.tag) kept.now }
{
    kept.iter().any(|e| is_inc(e.tag))
}

fn some_keeps(phase: Phase, free: bool, kept: &[Kept]) -> bool
    ensures { result ≡ list_any (λ e. is_ind (tag_after phase free e.tag)) kept.now }
{
    kept.iter().any(|e| is_ind(tag_after(phase, free, e.tag)))
}
