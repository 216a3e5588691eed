//! Laws of the definitions: functions that do nothing, each with what it proves as its clause.

ghost use Rattle.std.specs.Prelude.{◌≡◌, ℕ, ◌+◌, ◌<◌, ◌↔◌, ℤ, List, [], length, get_or, set, Contains};
ghost use Rattle.ts_domain.specs.BoxSeries.{AreRising, InBox, IsBox, all_series, series_count};
ghost use Rattle.ts_domain.specs.Kept.{values_above, values_up_to, values_without};
ghost use Rattle.ts_domain.specs.Values.{IsRising};

/// The list of a box's series has exactly those whose values are in the sets of their cells.
pub fn series_are_those_inside()
    ensures { (cells : List (List ℤ)) (vs : List ℤ) → Contains (all_series cells) vs ↔ InBox vs cells }
{}

/// The series of a box stand in lexicographic order, so each of them once.
pub fn series_rise()
    ensures { (cells : List (List ℤ)) → IsBox cells → AreRising (all_series cells) }
{}

/// The two boxes of a split have the series of the box between them.
pub fn split_shares_series()
    ensures { (cells : List (List ℤ)) (i : ℕ) (t : ℤ) → i < length cells →
        series_count (set cells i (values_up_to t (get_or cells i [])))
        + series_count (set cells i (values_above t (get_or cells i [])))
        ≡ series_count cells }
{}

/// A set without one of its values has one value less.
pub fn one_value_less()
    ensures { (gone : ℤ) (values : List ℤ) → IsRising values → Contains values gone →
        length (values_without gone values) + 1 ≡ length values }
{}
