//! Laws of the definitions: functions that do nothing, each with what it proves as its clause.

ghost use Rattle.ts_frontier.specs.Laws.{FewWait, FewWaitAfter, FormsTell, RulesFollow};

/// The form of a box is its one series, or its first cell with two or more values and the lower middle one of them.
pub fn form_tells()
    ensures { FormsTell }
{}

/// A line that keeps its rule may be followed.
pub fn rules_follow()
    ensures { RulesFollow }
{}

/// Of a box of n cells with V values together, at most V + 1 - n boxes wait: whatever lines are followed, and whatever
/// lines a certificate has, where none waits from the first line on that breaks its rule.
pub fn few_wait()
    ensures followed { FewWait }
    ensures fed { FewWaitAfter }
{}
