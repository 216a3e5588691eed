//! The order of expressions: by the variant as declared, then by the parts from left to right.

ghost use Rattle.std.specs.Prelude.{◌≡◌, ◌↔◌, IsTrue};
ghost use Rattle.ts_regex.specs.Shape.{shape_of};
ghost use Rattle.ts_regex.specs.NormalForm.{shape_rank, shape_cmp, same_shape};

use crate::regex::Regex;
use std::cmp::Ordering;

impl Regex {
    /// Whether the two have the same form; their pointers don't count.
    #[tactic(auto, using(crate::proofs::Laws::same_law))]
    pub fn same(&self, other: &Regex) -> bool
        ensures exact { result ≡ same_shape (shape_of self.now) (shape_of other.now) }
        ensures equal { IsTrue result ↔ (shape_of self.now ≡ shape_of other.now) }
    {
        self.compare(other).is_eq()
    }

    /// The variants in the order of their declaration, then the parts from left to right.
    pub(crate) fn compare(&self, other: &Regex) -> Ordering
        ensures { result ≡ shape_cmp (shape_of self.now) (shape_of other.now) }
    {
        match (self, other) {
            (Regex::One(l), Regex::One(m)) => l.cmp(m),
            (Regex::Cat(r, s), Regex::Cat(t, u)) | (Regex::Alt(r, s), Regex::Alt(t, u)) =>
                match r.compare(t) {
                    Ordering::Equal => s.compare(u),
                    different => different,
                },
            (Regex::Star(r), Regex::Star(s)) => r.compare(s),
            _ => self.rank().cmp(&other.rank()),
        }
    }

    /// The place of the variant in the declaration.
    fn rank(&self) -> u8
        ensures { result ≡ shape_rank (shape_of self.now) }
    {
        match self {
            Regex::Empty => 0,
            Regex::Eps => 1,
            Regex::One(_) => 2,
            Regex::Cat(_, _) => 3,
            Regex::Alt(_, _) => 4,
            Regex::Star(_) => 5,
        }
    }
}
