//! The letters of a signature: how a cell compares with the next one.

ghost use Rattle.std.specs.Prelude.{◌≡◌};
ghost use Rattle.ts_base.specs.Signature.{flip_of, letter_of};

/// A letter of a signature, the present cell on its left (Global Constraint Catalog, Volume II).
#[derive(Clone, Copy, Debug, PartialEq, Eq, PartialOrd, Ord)]
pub enum Letter {
    Less,
    Equal,
    Greater,
}

/// How `x` compares with `y`, the cell after it.
pub fn letter_of(x: i64, y: i64) -> Letter
    ensures { result ≡ letter_of x y }
{
    if x < y {
        Letter::Less
    } else if x == y {
        Letter::Equal
    } else {
        Letter::Greater
    }
}

/// The letter between the same two cells, read from the last cell to the first.
pub fn flip(l: Letter) -> Letter
    ensures { result ≡ flip_of l }
{
    match l {
        Letter::Less => Letter::Greater,
        Letter::Equal => Letter::Equal,
        Letter::Greater => Letter::Less,
    }
}
