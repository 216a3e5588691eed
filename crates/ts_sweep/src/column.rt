//! Where the hulls of a state are in a row.

ghost use Rattle.std.specs.Prelude.{◌≡◌, ◌≢◌, ℕ, ◌<◌, List, length, get_or};

use crate::hull::Hull;

/// The hulls of a state in a row: for each value of the cell one, by place.
pub trait Column<H: Hull>: Copy {
    /// What a row holds.
    type Item;

    /// The item at a place that there isn't.
    ghost blank: { Self.Item };

    /// The items of the state.
    ghost column: { Self → List Self.Item → List Self.Item };

    /// The hulls of the state.
    ghost hulls: { Self → List Self.Item → List H };

    /// What an item becomes when it takes in a hull.
    ghost taking: { Self.Item → H → Self.Item };

    /// That two rows differ in the items of the state at most.
    ghost beside: { Self → List Self.Item → List Self.Item → Type 0 };

    /// That a row has the places of the state.
    ghost whole: { Self → List Self.Item → Type 0 };

    /// That the hulls can be read.
    ghost readable: { Self → List Self.Item → Type 0 };

    /// The hull at a place.
    fn hull(self, row: &[Self::Item], i: usize) -> H
        requires whole { whole self row.now }
        requires readable { readable self row.now }
        requires inside { i < length (column self row.now) }
        ensures { result ≡ get_or (hulls self row.now) i H.none };

    /// The item at a place takes in a hull.
    fn take_in(self, row: &mut [Self::Item], i: usize, h: H)
        requires whole { whole self row.old }
        requires inside { i < length (column self row.old) }
        ensures len { length (column self row.new) ≡ length (column self row.old) }
        ensures here { get_or (column self row.new) i blank ≡ taking (get_or (column self row.old) i blank) h }
        ensures others { (k : ℕ) → k ≢ i → get_or (column self row.new) k blank ≡ get_or (column self row.old) k blank }
        ensures whole { whole self row.new }
        ensures beside { beside self row.old row.new };

    ghost same_length: { (c : Self) (row : List Self.Item) → length (hulls c row) ≡ length (column c row) };

    ghost beside_itself: { (c : Self) (row : List Self.Item) → beside c row row };

    ghost beside_both: { (c : Self) (a b d : List Self.Item) → beside c a b → beside c b d → beside c a d };
}

/// The hulls of a state in a column of their own.
#[derive(Clone, Copy)]
pub struct Dense;

impl<H: Hull> Column<H> for Dense {
    ghost use Rattle.std.proofs.Common.{refl};

    type Item = H;

    ghost blank = { H.none };

    ghost column = { λ c row. row };

    ghost hulls = { λ c row. row };

    ghost taking = { λ y h. H.both y h };

    ghost beside = { λ c a b. Unit {0} };

    ghost whole = { λ c row. Unit {0} };

    ghost readable = { λ c row. Unit {0} };

    ghost same_length = { λ c row. refl };

    ghost beside_itself = { λ c row. tt };

    ghost beside_both = { λ c a b d p q. tt };

    #[inline(always)]
    fn hull(self, row: &[H], i: usize) -> H {
        row[i]
    }

    #[inline(always)]
    fn take_in(self, row: &mut [H], i: usize, h: H) {
        row[i] = row[i].joined(h);
    }
}
