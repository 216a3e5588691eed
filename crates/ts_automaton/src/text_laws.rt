//! Laws of the text: what was written is read as the same automaton, and nothing else is read as it.

ghost use Rattle.std.specs.Prelude.{◌≡◌, ◌≢◌, ◌++◌, ◌↔◌, ℕ, Bool, IsTrue, List, Some, Ok, Err, Result};
ghost use Rattle.ts_automaton.specs.declared.stop.AutoStop.{AutoStop};
ghost use Rattle.ts_automaton.specs.declared.stop.AutoStop.TheVariants.{Memory as NoMemory};
ghost use Rattle.ts_automaton.specs.declared.draft.Direction.{Direction as TheWay};
ghost use Rattle.ts_automaton.specs.Body.{Body};
ghost use Rattle.ts_automaton.specs.Formula.{Formula};
ghost use Rattle.ts_automaton.specs.FormulaText.{formula_words, formula_of};
ghost use Rattle.ts_automaton.specs.Typing.{is_automaton, is_expression};
ghost use Rattle.ts_automaton.specs.AutomatonText.{head_text, body_text};
ghost use Rattle.ts_automaton.specs.TextReading.{Reads};

/// Words are read as an expression exactly where they are its words, and an automaton of this width may have it.
pub fn words_are_read()
    ensures { (wide : Bool) (f : Formula) (ws : List (List ℕ)) →
        (formula_of wide ws ≡ Some f ↔ ((ws ≡ formula_words f) × IsTrue (is_expression wide f))) }
{}

/// A text is read in one way alone, lack of memory aside: as the automaton whose block it is, or as refused, for one
/// reason at one line.
pub fn text_has_one_reading()
    ensures { (text : List ℕ) (r s : Result Body AutoStop) →
        Reads text r → Reads text s → r ≢ Err NoMemory → s ≢ Err NoMemory → r ≡ s }
{}

/// What was written after either head is read as the same automaton.
pub fn written_is_read()
    ensures { (m : Body) (direction : TheWay) (r : Result Body AutoStop) → IsTrue (is_automaton m) →
        Reads (head_text direction m.wide ++ body_text m) r → r ≢ Err NoMemory → r ≡ Ok m }
{}

/// An automaton has one body, and a body is that of one automaton.
pub fn one_automaton_a_text()
    ensures { (m n : Body) → IsTrue (is_automaton m) → IsTrue (is_automaton n) → body_text m ≡ body_text n → m ≡ n }
{}
