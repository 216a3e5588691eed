//! Laws of the definitions: what the list of occurrences holds, how features count, and what the test of a plan shows.

ghost use Rattle.std.specs.Prelude.{◌≡◌, ℕ, ℤ, ◌∷◌, List, IsTrue, Some};
ghost use Rattle.ts_base.specs.declared.letter.Letter.{Letter};
ghost use Rattle.ts_base.specs.declared.range.Range.{Range};
ghost use Rattle.ts_regex.specs.Shape.{Shape};
ghost use Rattle.ts_transducer.specs.declared.row.Row.{Row};
ghost use Rattle.ts_pattern.specs.declared.name.Feature.{Feature as AnyFeature};
ghost use Rattle.ts_pattern.specs.FeatureValue.{feature_of_cells};
ghost use Rattle.ts_pattern.specs.Folded.{folded_by};
ghost use Rattle.ts_pattern.specs.OccurrenceList.{AreRanges};
ghost use Rattle.ts_pattern.specs.AllOccurrences.{occurrence_ranges};
ghost use Rattle.ts_pattern.specs.Closed.{IsClosed};
ghost use Rattle.ts_pattern.specs.Plans.{PlainPlan, subject, is_closed};

/// For all expressions, trims and signatures the list of occurrences has the maximal matches over words, by rising
/// start, and no others; it is the one list of this kind.
pub fn all_occurrences()
    ensures all { (p : Shape) (b a : ℕ) (w : List Letter) → AreRanges p b a w (occurrence_ranges p b a w) }
    ensures one { (p : Shape) (b a : ℕ) (w : List Letter) (ranges : List Range) →
        AreRanges p b a w ranges → ranges ≡ occurrence_ranges p b a w }
{}

/// The feature of at least one cell is what its rows make of what the cells are worth.
#[tactic(auto, using(crate::proofs::FeatureFolds::features_are_folds))]
pub fn features_are_folds()
    ensures { (f : AnyFeature) (x : ℤ) (xs : List ℤ) →
        folded_by f (x ∷ xs) ≡ Some (feature_of_cells f (x ∷ xs)) }
{}

/// Where the test that computes is true, the plan is closed.
pub fn test_is_closed()
    ensures { (rows : List Row) (p : Shape) (b : ℕ) (plan : PlainPlan) →
        IsTrue (is_closed rows p b plan) → IsClosed (subject rows p b plan) }
{}
