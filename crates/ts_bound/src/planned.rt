//! What is kept of an automaton to make its rows.

ghost use Rattle.std.specs.Prelude.{◌≡◌};
ghost use Rattle.ts_bound.specs.AnyRows.{IsFormOf};
ghost use Rattle.ts_bound.specs.RowStacks.{IsPlanned};

use crate::any_row::Form;
use ts_automaton::Automaton;
use ts_row::Plan;

/// How the moves of an automaton are taken in, how many states it has, and the form of its rows. It takes no memory.
#[derive(Clone, Copy)]
pub struct Planned {
    pub(crate) plan: Plan,
    pub(crate) states: u8,
    pub(crate) form: Form,
}

impl Planned {
    /// The plan and the states of an automaton, for rows of a form that suits its width.
    pub(crate) fn of(a: &Automaton, form: Form) -> Planned
        requires { IsFormOf a.now.wide form }
        ensures form { result.form ≡ form }
        ensures planned { IsPlanned a.now result }
    {
        Planned {
            plan: Plan::of(a),
            states: a.states(),
            form,
        }
    }
}
