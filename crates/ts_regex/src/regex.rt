//! The expressions.

ghost use Rattle.std.specs.Prelude.{◌≡◌, IfOk};
ghost use Rattle.ts_regex.specs.Shape.{shape_of, Cat, Alt, Star};

use std::alloc::Global;
use ts_base::{Letter, Memory};

/// A regular expression over the letters of a signature.
#[derive(Debug, Drop)]
pub enum Regex {
    /// No word.
    Empty,
    /// The empty word alone.
    Eps,
    /// The word of this one letter alone.
    One(Letter),
    /// A word of the first followed by one of the second.
    Cat(Box<Regex>, Box<Regex>),
    /// A word of one of the two.
    Alt(Box<Regex>, Box<Regex>),
    /// Any number of words of the inner one.
    Star(Box<Regex>),
}

impl Regex {
    /// Another expression of the same form; `Memory` where none is left.
    pub fn try_clone(&self, alloc: Global) -> Result<Regex, Memory>
        ensures { IfOk result (λ r. shape_of r ≡ shape_of self.now) }
    {
        match self {
            Regex::Empty => Ok(Regex::Empty),
            Regex::Eps => Ok(Regex::Eps),
            Regex::One(l) => Ok(Regex::One(*l)),
            Regex::Cat(r, s) => cat(alloc, r.try_clone(alloc)?, s.try_clone(alloc)?),
            Regex::Alt(r, s) => alt(alloc, r.try_clone(alloc)?, s.try_clone(alloc)?),
            Regex::Star(r) => star(alloc, r.try_clone(alloc)?),
        }
    }
}

/// The first followed by the second.
pub fn cat(alloc: Global, r: Regex, s: Regex) -> Result<Regex, Memory>
    ensures { IfOk result (λ t. shape_of t ≡ Cat (shape_of r) (shape_of s)) }
{
    Ok(Regex::Cat(Box::new(alloc, r)?, Box::new(alloc, s)?))
}

/// One of the two.
pub fn alt(alloc: Global, r: Regex, s: Regex) -> Result<Regex, Memory>
    ensures { IfOk result (λ t. shape_of t ≡ Alt (shape_of r) (shape_of s)) }
{
    Ok(Regex::Alt(Box::new(alloc, r)?, Box::new(alloc, s)?))
}

/// The inner one, any number of times.
pub fn star(alloc: Global, r: Regex) -> Result<Regex, Memory>
    ensures { IfOk result (λ t. shape_of t ≡ Star (shape_of r)) }
{
    Ok(Regex::Star(Box::new(alloc, r)?))
}
