//! Automata whose steps are by the letter between two cells alone, whatever their values.

ghost use Rattle.std.specs.Prelude.{◌≡◌, IsTrue};
ghost use Rattle.ts_automaton.specs.Body.{move_of, node_of};
ghost use Rattle.ts_automaton.specs.Formula.{formula};
ghost use Rattle.ts_automaton.specs.Typing.{reads_registers};
ghost use Rattle.ts_witness.specs.Letters.{ReadsLetters, node_reads_letters, reads_letters};

use ts_automaton::{Automaton, Expr, State, Turn};

/// Whether the value of no cell stands in an expression of the automaton, so that its steps are by letters alone.
pub(crate) fn reads_letters(a: &Automaton) -> bool
    ensures { IsTrue result → ReadsLetters a.now }
{
    for q in 0..a.states() {
        if !node_reads_letters(a.state(q)) {
            return false;
        }
    }
    true
}

/// Whether the value of no cell stands in an expression of a state.
fn node_reads_letters(state: &State) -> bool
    ensures { result ≡ node_reads_letters (node_of state.now) }
{
    turn_reads_letters(&state.less)
        && turn_reads_letters(&state.equal)
        && turn_reads_letters(&state.greater)
}

/// Whether the value of no cell stands in an expression of a move.
fn turn_reads_letters(turn: &Turn) -> bool
    ensures { result ≡ reads_letters (move_of turn.now) }
{
    reads_registers(&turn.c)
        & reads_registers(&turn.e)
        & reads_registers(&turn.d)
        & reads_registers(&turn.f)
        & reads_registers(&turn.r)
}

/// Whether the value of no cell stands in an expression.
fn reads_registers(e: &Expr) -> bool
    ensures { result ≡ reads_registers (formula e.now) }
{
    match e {
        Expr::This | Expr::Next => false,
        Expr::Add(a, b) | Expr::Sub(a, b) | Expr::Max(a, b) | Expr::Min(a, b) => {
            reads_registers(a) && reads_registers(b)
        }
        _ => true,
    }
}
