//! A plan's residuals in a table of expressions, where each of their parts stands once. What a letter leaves of a part
//! is worked out once, and two residuals are the same where their numbers in the table are.

ghost use Rattle.std.specs.Prelude.{◌≡◌, ◌<◌, ◌==◌, IfOk, length, map};
ghost use Rattle.std.specs.List.{position};
ghost use Rattle.ts_base.specs.Limits.{too_many};
ghost use Rattle.ts_regex.specs.Shape.{shape_of};
ghost use Rattle.ts_regex.specs.NormalForm.{residual};
ghost use Rattle.ts_forms.specs.Nodes.{form_at};
ghost use Rattle.ts_forms.specs.Tables.{shapes, IsNumberOf};
ghost use Rattle.ts_validate.specs.Facts.{words_of};
ghost use Rattle.ts_validate.specs.Numbers.{number_of, next_number};
ghost use Rattle.ts_validate.specs.ResidualTables.{residuals_of, IsSound};

use crate::words::Words;
use std::alloc::Global;
use ts_base::{Letter, Memory};
use ts_forms::Forms;
use ts_regex::Regex;

/// The residuals by their numbers in a table of expressions.
#[derive(Drop)]
pub struct Residuals {
    pub forms: Forms,
    pub numbers: Vec<usize>,
}

impl Residuals {
    /// Puts the residuals into a table of expressions.
    pub(crate) fn of(alloc: Global, residuals: &[Regex]) -> Result<Residuals, Memory>
        ensures sound { IfOk result (λ x. IsSound x) }
        ensures residuals { IfOk result (λ x. residuals_of x ≡ map (λ r. shape_of r) residuals.now) }
    {
        let mut forms = Forms::new(alloc);
        let mut numbers = Vec::new(alloc);
        for r in residuals {
            numbers.push(forms.add(r)?)?;
        }
        Ok(Residuals { forms, numbers })
    }

    /// Residual `i` by its number in the table.
    #[tactic(auto, using(crate::proofs::Numbering::form_there, crate::proofs::Numbering::form_is))]
    pub(crate) fn form(&self, i: usize) -> usize
        requires sound { IsSound self.now }
        requires there { i < length self.now.numbers.items }
        ensures there { result < length (shapes self.now.forms) }
        ensures same { form_at (shapes self.now.forms) result ≡ form_at (residuals_of self.now) i }
    {
        self.numbers[i]
    }

    /// The first residual that this expression is.
    fn place(&self, form: usize) -> Option<usize>
        ensures { result ≡ position (λ n. n == form) self.now.numbers.items }
    {
        self.numbers.iter().position(|n| *n == form)
    }

    /// The least number of a residual, or the number of all residuals plus 1.
    pub(crate) fn number(&self, form: usize) -> u32
        requires sound { IsSound self.now }
        requires there { form < length (shapes self.now.forms) }
        requires room { length self.now.numbers.items < too_many }
        ensures { result ≡ number_of (residuals_of self.now) (form_at (shapes self.now.forms) form) }
    {
        match self.place(form) {
            Some(i) => i as u32,
            None => self.numbers.len() as u32 + 1,
        }
    }

    /// What a letter leaves of residual `i`, by its number in the table.
    fn rest(&mut self, alloc: Global, i: usize, letter: Letter) -> Result<usize, Memory>
        requires sound { IsSound self.old }
        requires there { i < length self.old.numbers.items }
        ensures sound { IfOk result (λ _. IsSound self.new) }
        ensures numbers { IfOk result (λ _. self.new.numbers.items ≡ self.old.numbers.items) }
        ensures residuals { IfOk result (λ _. residuals_of self.new ≡ residuals_of self.old) }
        ensures rest { IfOk result (λ k. IsNumberOf (shapes self.new.forms)
            (residual (form_at (residuals_of self.old) i) letter) k) }
    {
        let form = self.form(i);
        Ok(self.forms.residual(alloc, form, letter)?)
    }

    /// The number after a letter; the number of all residuals where no word is left.
    pub(crate) fn next(&mut self, alloc: Global, i: usize, letter: Letter) -> Result<u32, Memory>
        requires sound { IsSound self.old }
        requires there { i < length self.old.numbers.items }
        requires room { length self.old.numbers.items < too_many }
        ensures sound { IfOk result (λ _. IsSound self.new) }
        ensures numbers { IfOk result (λ _. self.new.numbers.items ≡ self.old.numbers.items) }
        ensures residuals { IfOk result (λ _. residuals_of self.new ≡ residuals_of self.old) }
        ensures next { IfOk result (λ n. n
            ≡ next_number (residuals_of self.old) (form_at (residuals_of self.old) i) letter) }
    {
        let rest = self.rest(alloc, i, letter)?;
        if self.forms.has_word(rest) {
            Ok(self.number(rest))
        } else {
            Ok(self.numbers.len() as u32)
        }
    }

    /// Which words an expression of the table has.
    pub(crate) fn words(&self, form: usize) -> Words
        requires sound { IsSound self.now }
        requires there { form < length (shapes self.now.forms) }
        ensures { result ≡ words_of (form_at (shapes self.now.forms) form) }
    {
        Words {
            nullable: self.forms.nullable(form),
            longer: self.forms.has_longer(form),
        }
    }
}
