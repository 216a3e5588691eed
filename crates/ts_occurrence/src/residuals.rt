//! The residuals that a search meets, by numbers. There are few of them, however long the signature is (Brzozowski
//! 1964), so each is kept once, with the number of what a letter leaves of it, and nothing is derived twice.

ghost use Rattle.std.specs.Prelude.{◌≡◌, ◌<◌, [], ◌∷◌, length, get_or, IfOk, OnOk};
ghost use Rattle.std.specs.List.{position};
ghost use Rattle.ts_regex.specs.Shape.{shape_of, Empty};
ghost use Rattle.ts_regex.specs.Derivative.{nullable, has_word};
ghost use Rattle.ts_regex.specs.NormalForm.{residual, same_shape};
ghost use Rattle.ts_occurrence.specs.Residuals.{shapes_met, number_after, with_number_after, met_of, IsNumber, AreConsistent, Grows};

use std::alloc::Global;
use ts_base::{Letter, Memory};
use ts_regex::{Regex, has_word, nullable, residual};

/// A residual in normal form, whether it has a word and the empty word, and the number of what each letter leaves of
/// it, where that was asked for.
#[derive(Drop)]
pub struct MetResidual {
    residual: Regex,
    has_word: bool,
    nullable: bool,
    less: Option<usize>,
    equal: Option<usize>,
    greater: Option<usize>,
}

/// The residuals met so far. A number stays that of its residual.
#[derive(Drop)]
pub struct Residuals {
    met: Vec<MetResidual>,
}

impl Residuals {
    /// The whole expression alone, in normal form; its number is 0.
    pub fn of(alloc: Global, whole: Regex) -> Result<Residuals, Memory>
        ensures known { IfOk result (λ t. shapes_met t.met.items ≡ shape_of whole ∷ []) }
        ensures right { IfOk result (λ t. AreConsistent t.met.items) }
    {
        let mut met = Vec::new(alloc);
        met.push(MetResidual::new(whole))?;
        Ok(Residuals { met })
    }

    /// The residual of a number.
    fn get(&self, number: usize) -> &Regex
        requires { number < length self.now.met.items }
        ensures { shape_of result.now ≡ get_or (shapes_met self.now.met.items) number Empty }
    {
        &self.met[number].residual
    }

    /// Whether the residual of a number has a word.
    pub fn has_word(&self, number: usize) -> bool
        requires there { number < length self.now.met.items }
        requires right { AreConsistent self.now.met.items }
        ensures { result ≡ has_word (get_or (shapes_met self.now.met.items) number Empty) }
    {
        self.met[number].has_word
    }

    /// Whether the residual of a number has the empty word.
    pub fn nullable(&self, number: usize) -> bool
        requires there { number < length self.now.met.items }
        requires right { AreConsistent self.now.met.items }
        ensures { result ≡ nullable (get_or (shapes_met self.now.met.items) number Empty) }
    {
        self.met[number].nullable
    }

    /// The number of what a letter leaves of the residual of a number.
    pub fn after(&mut self, alloc: Global, number: usize, l: Letter) -> Result<usize, Memory>
        requires there { number < length self.old.met.items }
        requires right { AreConsistent self.old.met.items }
        ensures right { OnOk result (AreConsistent self.new.met.items) }
        ensures grown { OnOk result (Grows (shapes_met self.old.met.items) (shapes_met self.new.met.items)) }
        ensures exact { IfOk result (λ n. IsNumber (shapes_met self.new.met.items)
            (residual (get_or (shapes_met self.old.met.items) number Empty) l) n) }
    {
        match self.met[number].after(l) {
            Some(next) => Ok(next),
            None => {
                let rest = residual(alloc, self.get(number), l)?;
                let next = self.number_of(rest)?;
                self.met[number].set_after(l, next);
                Ok(next)
            }
        }
    }

    /// The number of a residual, which is met now if it wasn't before.
    fn number_of(&mut self, rest: Regex) -> Result<usize, Memory>
        requires { AreConsistent self.old.met.items }
        ensures right { OnOk result (AreConsistent self.new.met.items) }
        ensures grown { OnOk result (Grows (shapes_met self.old.met.items) (shapes_met self.new.met.items)) }
        ensures exact { IfOk result (λ n. IsNumber (shapes_met self.new.met.items) (shape_of rest) n) }
    {
        match self.find(&rest) {
            Some(number) => Ok(number),
            None => {
                let number = self.met.len();
                self.met.push(MetResidual::new(rest))?;
                Ok(number)
            }
        }
    }

    /// The number of a residual, if it was met.
    fn find(&self, rest: &Regex) -> Option<usize>
        ensures { result ≡ position (λ m. same_shape (shape_of m.residual) (shape_of rest.now)) self.now.met.items }
    {
        self.met.iter().position(|m| m.residual.same(rest))
    }
}

impl MetResidual {
    /// A residual of which nothing was asked yet.
    fn new(residual: Regex) -> MetResidual
        ensures { result ≡ met_of residual }
    {
        MetResidual {
            has_word: has_word(&residual),
            nullable: nullable(&residual),
            residual,
            less: None,
            equal: None,
            greater: None,
        }
    }

    /// The number of what a letter leaves, if that was asked for.
    fn after(&self, l: Letter) -> Option<usize>
        ensures { result ≡ number_after self.now l }
    {
        match l {
            Letter::Less => self.less,
            Letter::Equal => self.equal,
            Letter::Greater => self.greater,
        }
    }

    /// Notes the number of what a letter leaves.
    fn set_after(&mut self, l: Letter, number: usize)
        ensures { self.new ≡ with_number_after self.old l number }
    {
        match l {
            Letter::Less => self.less = Some(number),
            Letter::Equal => self.equal = Some(number),
            Letter::Greater => self.greater = Some(number),
        }
    }
}
