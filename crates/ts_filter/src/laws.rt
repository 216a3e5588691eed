//! Laws of the definitions: functions that do nothing, each with what it proves as its clause.

ghost use Rattle.ts_filter.specs.MachineSpans.{AnswersAreEnough, CallsTell, MachinesHold, MachinesTell};
ghost use Rattle.ts_filter.specs.MachineSpans.{SpansAreOfMachines};
ghost use Rattle.ts_filter.specs.Laws.{AcceptedHolds, AcceptedIsKept, FailingIsRejected, OneFirstFailing};
ghost use Rattle.ts_filter.specs.Laws.{LinesGoOn, WholeIsJudged};
ghost use Rattle.ts_filter.specs.Laws.{DropLeavesOthers, LowerSideFirst, SplitCutsInTwo, ValuesAreSound};
ghost use Rattle.ts_filter.specs.Laws.{DropLosesNone, HigherBarCutsMore, SinglesAreExact, TestsTell};
ghost use Rattle.ts_filter.specs.Laws.{FitIsFormed, FormedIsShort, LinesInRange, StepsGoOn, StepsLeaveFew};
ghost use Rattle.ts_filter.specs.Laws.{TreeIsSteps, WaitingAreParts};

/// A split cuts the series of a box in two; the lower side's come first where the cells before have one value each.
pub fn split_cuts_in_two()
    ensures two { SplitCutsInTwo }
    ensures order { LowerSideFirst }
{}

/// A drop leaves exactly the series that have another value.
pub fn drop_leaves_others()
    ensures { DropLeavesOthers }
{}

/// The lines of a tree are steps from its box to none, and the reverse.
pub fn tree_is_steps()
    ensures { TreeIsSteps }
{}

/// A tree for a box of S series has at most 2·S - 1 lines: wherever each split has two sides with values and each drop
/// removes a value and leaves one, as in every tree whose lines keep their rules.
pub fn tree_is_short()
    ensures short { FormedIsShort }
    ensures formed { FitIsFormed }
{}

/// While the lines of a tree are treated, few boxes wait, each of them inside the model's.
pub fn few_wait()
    ensures few { StepsLeaveFew }
    ensures parts { WaitingAreParts }
{}

/// Lines that keep their rules one after another do so together, and each of them is in the grammar.
pub fn steps_go_on()
    ensures more { StepsGoOn }
    ensures ranges { LinesInRange }
{}

/// Where spans hold the values of their terms, what is refuted has no series that meets, and what is cut none that
/// counts.
pub fn values_are_sound()
    ensures { ValuesAreSound }
{}

/// On the box of one series, where its spans at the last cell hold the value alone, refuted and cut are exact.
pub fn singles_are_exact()
    ensures { SinglesAreExact }
{}

/// Where fewer values count for a bar, more boxes are cut.
pub fn higher_bar_cuts_more()
    ensures { HigherBarCutsMore }
{}

/// A drop loses no series that meets.
pub fn drop_loses_none()
    ensures { DropLosesNone }
{}

/// The spans of a term are those of its machine, and so are the cells that may be used. If each machine's spans hold
/// the value of its term, and are that of a single series, so do the spans of all.
pub fn spans_are_of_machines()
    ensures same { SpansAreOfMachines }
    ensures hold { MachinesHold }
    ensures tell { MachinesTell }
{}

/// If each machine's answer is the value of its term, the spans hold the values, and are that of a single series: so
/// what is refuted has no series that meets, what is cut none that counts, and both are exact on a single series.
pub fn answers_are_enough()
    ensures { AnswersAreEnough }
{}

/// What the calls answer about the machine of a requirement's term, or of the objective, is what is defined of the
/// spans of all machines.
pub fn calls_tell()
    ensures { CallsTell }
{}

/// The tests that compute answer exactly what is refuted, cut and may be dropped.
pub fn tests_tell()
    ensures { TestsTell }
{}

/// What is accepted is true: of every certificate, whoever wrote it.
pub fn accepted_holds()
    ensures { AcceptedHolds }
{}

/// A certificate is accepted exactly where each of its lines keeps its rule.
pub fn accepted_is_kept()
    ensures { AcceptedIsKept }
{}

/// There is one first failing line, and none in a certificate that is accepted.
pub fn failing_is_rejected()
    ensures one { OneFirstFailing }
    ensures rejected { FailingIsRejected }
{}

/// What is known of lines as far as they are read: after one more, and of all of them, where it is the verdict.
pub fn lines_go_on()
    ensures more { LinesGoOn }
    ensures whole { WholeIsJudged }
{}
