//! What holds of the definitions, for every text and every series.

ghost use Rattle.std.specs.Prelude.{◌≡◌, ℕ, Result, Ok};
ghost use Rattle.ts_token.specs.Text.{Cut};
ghost use Rattle.ts_model.specs.declared.error.ModelKind.{ModelKind};
ghost use Rattle.ts_model.specs.declared.model.Need.{Need};
ghost use Rattle.ts_model.specs.Judgement.{JudgedIsMet};
ghost use Rattle.ts_model.specs.ModelReading.{IsReading, reading};
ghost use Rattle.ts_model.specs.Promise.{IsWhole, KeepsLimits};
ghost use Rattle.ts_model.specs.ModelParts.{ModelParts};

/// The reading is the model that the lines state, or the first bad line with the first kind that holds of it.
pub fn reading_is_first()
    ensures { (need : Need) (c : Cut) → IsReading need c (reading need c) }
{}

/// A text has one reading.
pub fn one_reading()
    ensures { (need : Need) (c : Cut) (r s : Result ModelParts (ℕ × ModelKind)) →
        IsReading need c r → IsReading need c s → r ≡ s }
{}

/// A model that is read has cells, and each term that it names by a number stands.
pub fn model_is_whole()
    ensures { (need : Need) (c : Cut) (m : ModelParts) → reading need c ≡ Ok m → IsWhole m }
{}

/// A model that is read keeps the limits of its need, and each of its cells has a value.
pub fn model_keeps_limits()
    ensures { (need : Need) (c : Cut) (m : ModelParts) → reading need c ≡ Ok m → KeepsLimits need m }
{}

/// Every cell lies inside and every requirement holds exactly where the series meets the model.
pub fn judged_is_met()
    ensures { JudgedIsMet }
{}
