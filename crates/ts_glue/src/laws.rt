//! Laws of glued values, for the layers above. Each is a statement of `specs/Laws` that the checker has proved.

ghost use Rattle.ts_glue.specs.Laws.{GluedSpansGrow, GluedSpansHold, GluedStaysSingle, LocalIsAnswer, MachinesKeepRules, MarkedSpansHold, NoneGluesToNone, OperandsFit, StartGluesToFinish, TwoFormsAgree, UnmarkedSpansGrow};

/// A machine that can be split keeps what `Machine::glued` asks of its pair.
pub fn machines_keep_rules()
    ensures { MachinesKeepRules }
{}

/// Where the glued value is the same at all cells of a series, and at the last one the forward answer, it is the
/// forward answer at every cell: for series of any length up to which the first holds.
#[tactic(auto, using(crate::proofs::Locality::local_is_answer))]
pub fn local_is_answer()
    ensures { LocalIsAnswer }
{}

/// A glued span holds the glued value of all registers in the two hulls, before the mark.
pub fn glued_spans_hold()
    ensures { GluedSpansHold }
{}

/// Under the mark it holds the glued values that keep the promise of the mark.
pub fn marked_spans_hold()
    ensures { MarkedSpansHold }
{}

/// A glued span is none where a hull is none.
#[tactic(auto, using(crate::proofs::SpanGlue::none_glues_to_none))]
pub fn none_glues_to_none()
    ensures { NoneGluesToNone }
{}

/// The hulls of single registers give the span of the one glued value, under the mark too.
#[tactic(auto, using(crate::proofs::SpanGlue::glued_stays_single))]
pub fn glued_stays_single()
    ensures { GluedStaysSingle }
{}

/// Hulls that hold more give a glued span that holds more, before the mark.
pub fn glued_spans_grow()
    ensures { GluedSpansGrow }
{}

/// Hulls that hold more give a glued span that holds more under the mark that changes nothing, too.
pub fn unmarked_spans_grow()
    ensures { UnmarkedSpansGrow }
{}

/// At the last cell the glued value is what the forward automaton answers there.
#[tactic(auto, using(crate::proofs::TwoForms::start_glues_to_finish))]
pub fn start_glues_to_finish()
    ensures { StartGluesToFinish }
{}

/// At the last cell the glued span is the forward automaton's finish span.
#[tactic(auto, using(crate::proofs::TwoForms::two_forms_agree))]
pub fn two_forms_agree()
    ensures { TwoFormsAgree }
{}

/// Where registers have the kinds of their states, no operator in a glued value meets an operand that it doesn't take.
#[tactic(auto, using(crate::proofs::Typed::operands_fit))]
pub fn operands_fit()
    ensures { OperandsFit }
{}
