//! What the answers of `build_plan` have to do with one another.

ghost use Rattle.std.specs.Prelude.{◌≡◌, ◌<◌, ◌++◌, List, [], ◌∷◌};
ghost use Rattle.ts_base.specs.declared.letter.Letter.{Letter};
ghost use Rattle.ts_regex.specs.Shape.{Shape};
ghost use Rattle.ts_pattern.specs.Closed.{PlainConfiguration, Subject};
ghost use Rattle.ts_user.specs.SignatureOrder.{digit, place};
ghost use Rattle.ts_user.specs.FirstReached.{IsFirst};
ghost use Rattle.ts_user.specs.BuildAnswers.{IsListing, IsRefused, IsTooMany};

/// A plan, a refusal and `TooMany` exclude one another, and there is one signature that can be refused. So each answer,
/// lack of memory aside, comes exactly where its meaning holds.
pub fn one_answer()
    ensures listed_refused { (s : Subject Shape) (xs : List (PlainConfiguration Shape)) (w : List Letter) →
        IsListing s xs → IsRefused s w → ⊥ }
    ensures listed_many { (s : Subject Shape) (xs : List (PlainConfiguration Shape)) →
        IsListing s xs → IsTooMany s → ⊥ }
    ensures refused_many { (s : Subject Shape) (w : List Letter) → IsRefused s w → IsTooMany s → ⊥ }
    ensures one_refusal { (s : Subject Shape) (v w : List Letter) → IsRefused s v → IsRefused s w → v ≡ w }
{}

/// To list configurations turn by turn is to go along the row of all signatures: where a signature reaches a
/// configuration first, so does its front, hence each but the empty one is the step of a listed one on a letter; the
/// steps of an earlier signature stand before those of a later one, and the steps of one stand in the order of the
/// letters.
pub fn by_turns()
    ensures fronts { (s : Subject Shape) (v : List Letter) (l : Letter) →
        IsFirst s (v ++ l ∷ []) → IsFirst s v }
    ensures turns { (u v : List Letter) (l m : Letter) → place u < place v →
        place (u ++ l ∷ []) < place (v ++ m ∷ []) }
    ensures letters { (u : List Letter) (l m : Letter) → digit l < digit m →
        place (u ++ l ∷ []) < place (u ++ m ∷ []) }
{}
