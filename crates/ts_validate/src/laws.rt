//! The law that all of this rests on.

ghost use Rattle.std.specs.Prelude.{ℕ, List, IsTrue};
ghost use Rattle.ts_base.specs.declared.letter.Letter.{Letter};
ghost use Rattle.ts_regex.specs.Shape.{Shape};
ghost use Rattle.ts_transducer.specs.declared.row.Row.{Row};
ghost use Rattle.ts_transducer.specs.Typing.{is_typed};
ghost use Rattle.ts_transducer.specs.Decode.{decode};
ghost use Rattle.ts_pattern.specs.Closed.{IsClosed};
ghost use Rattle.ts_pattern.specs.OccurrenceList.{AreRanges};
ghost use Rattle.ts_pattern.specs.Plans.{PlainPlan, subject};
ghost use Rattle.ts_pattern.specs.Valid.{IsValid};

/// For all rows of a transducer, all patterns and all plans: where the plan is closed, the transducer decodes the
/// e-ranges of the occurrences, of every signature. In words of matches: what it decodes are the e-ranges of the
/// maximal matches over words, by rising start, and no others.
pub fn closed_is_valid()
    ensures valid { (rows : List Row) (p : Shape) (b a : ℕ) (plan : PlainPlan) → IsTrue (is_typed rows) →
        IsClosed (subject rows p b plan) → IsValid rows p b a }
    ensures matches { (rows : List Row) (p : Shape) (b a : ℕ) (plan : PlainPlan) → IsTrue (is_typed rows) →
        IsClosed (subject rows p b plan) → (w : List Letter) → AreRanges p b a w (decode rows a w) }
{}
