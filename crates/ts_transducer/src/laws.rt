//! What holds of every decoder: what it keeps, and where its ranges lie.

ghost use Rattle.std.specs.Prelude.{ℕ, ◌+◌, ◌≤◌, List, length, None, IsTrue};
ghost use Rattle.std.specs.List.{All};
ghost use Rattle.ts_base.specs.declared.letter.Letter.{Letter};
ghost use Rattle.ts_transducer.specs.declared.row.Row.{Row};
ghost use Rattle.ts_transducer.specs.Typing.{is_typed};
ghost use Rattle.ts_transducer.specs.Decode.{row_at, decode};
ghost use Rattle.ts_transducer.specs.Inside.{IsInside};
ghost use Rattle.ts_transducer.specs.Keeps.{KindHolds, ArePlaced, MoveKeepsKinds, SignKeepsPlaces};

/// In an Idle state the decoder keeps nothing, in a Pending one perhaps a start, in a Held one a range and no start.
pub fn kinds_are_kept()
    ensures start { (rows : List Row) → IsTrue (is_typed rows) → KindHolds (row_at rows 0).kind None None }
    ensures step { (rows : List Row) (a : ℕ) → IsTrue (is_typed rows) → MoveKeepsKinds rows a }
{}

/// A start that is kept is a sign that was read, and a range lies in the cells that the signs reach.
pub fn places_are_kept()
    ensures start { (a : ℕ) → ArePlaced a 0 None None }
    ensures step { (a : ℕ) → a ≤ 1 → SignKeepsPlaces a }
{}

/// Every range that is decoded has a cell and lies in the series, and there is at most one for each sign.
pub fn decoded_ranges()
    ensures inside { (rows : List Row) (a : ℕ) (w : List Letter) → a ≤ 1 →
        All (IsInside (length w + 1)) (decode rows a w) }
    ensures count { (rows : List Row) (a : ℕ) (w : List Letter) → length (decode rows a w) ≤ length w }
{}
