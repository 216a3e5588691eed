//! Laws of runs, for the layers above. Each is a statement of `specs/Laws` that the checker has proved.

ghost use Rattle.ts_automaton.specs.Laws.{StepsHold, FinishesHold, MarksHold, StepsStaySingle, FinishesStaySingle, NonesStay, KindsAreKept, OperandsFit, NarrowRests};

/// A step on a hull holds the steps of all registers in it.
pub fn steps_hold()
    ensures { StepsHold }
{}

/// The finish span of a hull holds the finish values of all registers in it, before the mark.
pub fn finishes_hold()
    ensures { FinishesHold }
{}

/// A marked span holds the marked values that keep the promise of the mark.
pub fn marks_hold()
    ensures { MarksHold }
{}

/// A step keeps single registers single.
pub fn steps_stay_single()
    ensures { StepsStaySingle }
{}

/// The finish span of single registers is single, under the mark too.
pub fn finishes_stay_single()
    ensures { FinishesStaySingle }
{}

/// Steps and finish spans of a hull that is none are none.
pub fn nones_stay()
    ensures { NonesStay }
{}

/// In an automaton the registers have the kinds of their state, at the start and after each step.
pub fn kinds_are_kept()
    ensures { KindsAreKept }
{}

/// In an automaton no operator meets an operand that it doesn't take.
pub fn operands_fit()
    ensures { OperandsFit }
{}

/// In a narrow automaton E and F are 0 in all registers, and hold 0 alone in each hull that isn't none.
pub fn narrow_rests()
    ensures { NarrowRests }
{}
