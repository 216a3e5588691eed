//! What the automaton of any rows answers, for the layers above.

ghost use Rattle.std.specs.Prelude.{IsTrue};
ghost use Rattle.ts_automaton.specs.AutomatonRun.{HoldsMarkUpTo};
ghost use Rattle.ts_automaton.specs.Typing.{is_automaton};
ghost use Rattle.ts_decorate.specs.Answers.{AnswersRanges, ForRows, longest};
ghost use Rattle.ts_decorate.specs.Decoration.{decorated_body};

/// The decorated body keeps every rule of automata, answers the aggregate of the decoded ranges, and keeps its mark.
pub fn decorated_rows()
    ensures rules { ForRows (λ rows a g f. IsTrue (is_automaton (decorated_body rows a g f))) }
    ensures answer { ForRows (λ rows a g f. AnswersRanges (decorated_body rows a g f) rows a g f) }
    ensures mark { ForRows (λ rows a g f. HoldsMarkUpTo longest (decorated_body rows a g f)) }
{}
