//! What is left of a language after a letter, and the tests that read it off an expression.
//!
//! A private method goes down the expression as the definition does; the public call adds what that says of the
//! language.

ghost use Rattle.std.specs.Prelude.{◌≡◌, ◌↔◌, List, [], ◌∷◌, IfOk, IsTrue};
ghost use Rattle.ts_base.specs.declared.letter.Letter.{Letter};
ghost use Rattle.ts_regex.specs.Shape.{shape_of};
ghost use Rattle.ts_regex.specs.Language.{InLanguage};
ghost use Rattle.ts_regex.specs.Derivative.{nullable, derivative, has_word, has_longer};

use crate::regex::{Regex, alt, cat};
use std::alloc::Global;
use ts_base::{Letter, Memory};

/// Whether the empty word is in the language.
#[tactic(auto, using(crate::proofs::Laws::nullable_law))]
pub fn nullable(r: &Regex) -> bool
    ensures exact { result ≡ nullable (shape_of r.now) }
    ensures language { IsTrue result ↔ InLanguage (shape_of r.now) [] }
{
    r.accepts_empty()
}

/// Whether the language has a word.
#[tactic(auto, using(crate::proofs::Laws::has_word_law))]
pub fn has_word(r: &Regex) -> bool
    ensures exact { result ≡ has_word (shape_of r.now) }
    ensures language { IsTrue result ↔ ((w : List Letter) × InLanguage (shape_of r.now) w) }
{
    r.accepts_some()
}

/// Whether a word of at least one letter is in the language.
#[tactic(auto, using(crate::proofs::Laws::has_longer_law))]
pub fn has_longer(r: &Regex) -> bool
    ensures exact { result ≡ has_longer (shape_of r.now) }
    ensures language { IsTrue result ↔ ((l : Letter) × (w : List Letter) × InLanguage (shape_of r.now) (l ∷ w)) }
{
    r.accepts_longer()
}

/// The derivative by `l` (Brzozowski 1964): its words are those that with `l` before them are words of `r`.
#[tactic(auto, using(crate::proofs::Laws::derivative_law))]
pub fn derive(alloc: Global, r: &Regex, l: Letter) -> Result<Regex, Memory>
    ensures exact { IfOk result (λ d. shape_of d ≡ derivative (shape_of r.now) l) }
    ensures language { IfOk result (λ d. (w : List Letter) →
        InLanguage (shape_of d) w ↔ InLanguage (shape_of r.now) (l ∷ w)) }
{
    r.after(alloc, l)
}

impl Regex {
    /// Whether the empty word is a word.
    fn accepts_empty(&self) -> bool
        ensures { result ≡ nullable (shape_of self.now) }
    {
        match self {
            Regex::Empty | Regex::One(_) => false,
            Regex::Eps | Regex::Star(_) => true,
            Regex::Cat(r, s) => r.accepts_empty() && s.accepts_empty(),
            Regex::Alt(r, s) => r.accepts_empty() || s.accepts_empty(),
        }
    }

    /// Whether there is a word.
    fn accepts_some(&self) -> bool
        ensures { result ≡ has_word (shape_of self.now) }
    {
        match self {
            Regex::Empty => false,
            Regex::Eps | Regex::One(_) | Regex::Star(_) => true,
            Regex::Cat(r, s) => r.accepts_some() && s.accepts_some(),
            Regex::Alt(r, s) => r.accepts_some() || s.accepts_some(),
        }
    }

    /// Whether there is a word of at least one letter.
    fn accepts_longer(&self) -> bool
        ensures { result ≡ has_longer (shape_of self.now) }
    {
        match self {
            Regex::Empty | Regex::Eps => false,
            Regex::One(_) => true,
            Regex::Cat(r, s) => (r.accepts_longer() && s.accepts_some())
                || (r.accepts_some() && s.accepts_longer()),
            Regex::Alt(r, s) => r.accepts_longer() || s.accepts_longer(),
            Regex::Star(r) => r.accepts_longer(),
        }
    }

    /// What is left to read after `l`.
    fn after(&self, alloc: Global, l: Letter) -> Result<Regex, Memory>
        ensures { IfOk result (λ d. shape_of d ≡ derivative (shape_of self.now) l) }
    {
        match self {
            Regex::Empty | Regex::Eps => Ok(Regex::Empty),
            Regex::One(m) => Ok(if *m == l { Regex::Eps } else { Regex::Empty }),
            Regex::Cat(r, s) => {
                let first = cat(alloc, r.after(alloc, l)?, s.try_clone(alloc)?)?;
                if r.accepts_empty() {
                    alt(alloc, first, s.after(alloc, l)?)
                } else {
                    Ok(first)
                }
            }
            Regex::Alt(r, s) => alt(alloc, r.after(alloc, l)?, s.after(alloc, l)?),
            Regex::Star(r) => cat(alloc, r.after(alloc, l)?, self.try_clone(alloc)?),
        }
    }
}
