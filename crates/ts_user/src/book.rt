//! The residuals that have come up, each once, and what a letter leaves of each, as far as it was asked.
//!
//! A residual is known by its number in a table of expressions, where each of its parts stands once and what a letter
//! leaves of a part is worked out once. So no residual is written out before the plan is.

ghost use Rattle.std.specs.Prelude.{◌≡◌, ◌<◌, ◌++◌, [], ◌∷◌, IfOk, IfSome, Option, length, map, slice_set, slice_get};
ghost use Rattle.ts_base.specs.Limits.{too_many};
ghost use Rattle.ts_regex.specs.Shape.{shape_of};
ghost use Rattle.ts_regex.specs.NormalForm.{residual, normal_form};
ghost use Rattle.ts_pattern.specs.Entries.{shapes};
ghost use Rattle.ts_pattern.specs.Plans.{shape_at};
ghost use Rattle.ts_validate.specs.Facts.{words_of, kept_by};
ghost use Rattle.ts_user.specs.Books.{residuals_of, next_on, next_with, all_unread, IsBook, IsFound, IsAfter, AreListed, values};
ghost use Rattle.ts_forms.specs.Nodes.{form_at};
ghost use Rattle.ts_forms.specs.Tables.{shapes as shapes_in, IsTable, AreThere, IsNumberOf as IsFormOf};

use indexmap::IndexSet;
use std::alloc::Global;
use ts_base::{Letter, Memory};
use ts_forms::Forms;
use ts_pattern::{Live, Pattern};
use ts_regex::Regex;
use ts_validate::{Kept, Words};

/// What is known of a residual after a letter.
#[derive(Clone, Copy)]
pub enum Next {
    /// The letter wasn't asked about yet.
    Unread,
    /// No word is left.
    NoWord,
    /// The residual of this number is left.
    Number(u32),
}

/// What is known of the residual after each letter.
#[derive(Clone, Copy)]
pub struct Nexts {
    pub less: Next,
    pub equal: Next,
    pub greater: Next,
}

/// Nothing was asked.
const UNREAD: Nexts = Nexts {
    less: Next::Unread,
    equal: Next::Unread,
    greater: Next::Unread,
};

impl Nexts {
    fn on(&self, letter: Letter) -> Next
        ensures { result ≡ next_on letter self.now }
    {
        match letter {
            Letter::Less => self.less,
            Letter::Equal => self.equal,
            Letter::Greater => self.greater,
        }
    }

    fn with(self, letter: Letter, next: Next) -> Nexts
        ensures { result ≡ next_with self letter next }
    {
        match letter {
            Letter::Less => Nexts { less: next, ..self },
            Letter::Equal => Nexts {
                equal: next,
                ..self
            },
            Letter::Greater => Nexts {
                greater: next,
                ..self
            },
        }
    }
}

/// Residuals, no two of them the same, the whole pattern first, by their numbers in a table of expressions; of each
/// which words it has, and what a letter leaves. Their places are found by hashes.
#[derive(Drop)]
pub struct Book {
    pub forms: Forms,
    pub residuals: Vec<usize>,
    pub places: IndexSet<usize>,
    pub words: Vec<Words>,
    pub nexts: Vec<Nexts>,
}

impl Book {
    /// A book with no residual.
    fn blank(alloc: Global) -> Book
        ensures forms { IsTable result.forms }
        ensures residuals { result.residuals.items ≡ [] }
        ensures places { result.places.keys ≡ [] }
        ensures words { result.words.items ≡ [] }
        ensures nexts { result.nexts.items ≡ [] }
    {
        Book {
            forms: Forms::new(alloc),
            residuals: Vec::new(alloc),
            places: IndexSet::new(alloc),
            words: Vec::new(alloc),
            nexts: Vec::new(alloc),
        }
    }

    /// A book that has the whole pattern as its only residual.
    pub fn new(alloc: Global, p: &Pattern) -> Result<Book, Memory>
        ensures book { IfOk result (λ b. IsBook (shape_of p.now.regex) b) }
        ensures whole { IfOk result (λ b. residuals_of b ≡ normal_form (shape_of p.now.regex) ∷ []) }
    {
        let mut book = Book::blank(alloc);
        book.begin(alloc, p)?;
        Ok(book)
    }

    /// Adds the whole pattern as the first residual.
    // A call of its own, since each early return of a body that owns the book drops it, which is hard to prove.
    fn begin(&mut self, alloc: Global, p: &Pattern) -> Result<(), Memory>
        requires forms { IsTable self.old.forms }
        requires residuals { self.old.residuals.items ≡ [] }
        requires places { self.old.places.keys ≡ [] }
        requires words { self.old.words.items ≡ [] }
        requires nexts { self.old.nexts.items ≡ [] }
        ensures book { IfOk result (λ _. IsBook (shape_of p.now.regex) self.new) }
        ensures whole { IfOk result (λ _. residuals_of self.new ≡ normal_form (shape_of p.now.regex) ∷ []) }
    {
        let stated = self.forms.add(&p.regex)?;
        let whole = self.forms.normal(alloc, stated)?;
        self.places.insert(whole)?;
        self.add(whole)?;
        Ok(())
    }

    /// Adds a residual as the last; its place is among the places already.
    fn add(&mut self, form: usize) -> Result<(), Memory>
        requires table { IsTable self.old.forms }
        requires there { form < length (shapes_in self.old.forms) }
        ensures forms { self.new.forms ≡ self.old.forms }
        ensures places { self.new.places ≡ self.old.places }
        ensures residuals { IfOk result (λ _. self.new.residuals.items ≡ self.old.residuals.items ++ form ∷ []) }
        ensures words { IfOk result (λ _. self.new.words.items
            ≡ self.old.words.items ++ words_of (form_at (shapes_in self.old.forms) form) ∷ []) }
        ensures nexts { IfOk result (λ _. self.new.nexts.items ≡ self.old.nexts.items ++ all_unread ∷ []) }
    {
        self.words.push(Words {
            nullable: self.forms.nullable(form),
            longer: self.forms.has_longer(form),
        })?;
        self.nexts.push(UNREAD)?;
        self.residuals.push(form)?;
        Ok(())
    }

    /// The number of a residual, which is added where it hasn't come up.
    fn number(&mut self, form: usize, p: &Pattern) -> Result<u32, Memory>
        requires book { IsBook (shape_of p.now.regex) self.old }
        requires there { form < length (shapes_in self.old.forms) }
        requires room { length self.old.residuals.items < too_many }
        ensures book { IfOk result (λ _. IsBook (shape_of p.now.regex) self.new) }
        ensures found { IfOk result (λ j. IsFound (residuals_of self.old) (residuals_of self.new)
            (form_at (shapes_in self.old.forms) form) j) }
    {
        let (place, is_new) = self.places.insert_full(form)?;
        if is_new {
            self.add(form)?;
        }
        Ok(place as u32)
    }

    /// The number of what a letter leaves of residual `i`; None where no word is left. `p` is the book's pattern.
    pub fn after(
        &mut self,
        alloc: Global,
        p: &Pattern,
        i: u32,
        letter: Letter,
    ) -> Result<Option<u32>, Memory>
        requires book { IsBook (shape_of p.now.regex) self.old }
        requires there { i < length self.old.residuals.items }
        requires room { length self.old.residuals.items < too_many }
        ensures book { IfOk result (λ _. IsBook (shape_of p.now.regex) self.new) }
        ensures after { IfOk result (λ o. IsAfter (residuals_of self.old) (residuals_of self.new)
            (residual (shape_at (residuals_of self.old) i) letter) o) }
    {
        match self.nexts[i as usize].on(letter) {
            Next::NoWord => Ok(None),
            Next::Number(j) => Ok(Some(j)),
            Next::Unread => self.read(alloc, p, i, letter),
        }
    }

    /// The number of the residual after a letter that wasn't asked for yet; none where no word is left.
    fn read(
        &mut self,
        alloc: Global,
        p: &Pattern,
        i: u32,
        letter: Letter,
    ) -> Result<Option<u32>, Memory>
        requires book { IsBook (shape_of p.now.regex) self.old }
        requires there { i < length self.old.residuals.items }
        requires room { length self.old.residuals.items < too_many }
        ensures book { IfOk result (λ _. IsBook (shape_of p.now.regex) self.new) }
        ensures after { IfOk result (λ o. IsAfter (residuals_of self.old) (residuals_of self.new)
            (residual (shape_at (residuals_of self.old) i) letter) o) }
    {
        let rest = self.rest(alloc, p, i, letter)?;
        if self.forms.has_word(rest) {
            let j = self.number(rest, p)?;
            self.note(i, letter, Next::Number(j));
            Ok(Some(j))
        } else {
            self.note(i, letter, Next::NoWord);
            Ok(None)
        }
    }

    /// What a letter leaves of residual `i`, by its number among the expressions.
    fn rest(&mut self, alloc: Global, p: &Pattern, i: u32, letter: Letter) -> Result<usize, Memory>
        requires book { IsBook (shape_of p.now.regex) self.old }
        requires there { i < length self.old.residuals.items }
        ensures book { IfOk result (λ _. IsBook (shape_of p.now.regex) self.new) }
        ensures same { IfOk result (λ _. residuals_of self.new ≡ residuals_of self.old) }
        ensures places { IfOk result (λ _. self.new.residuals.items ≡ self.old.residuals.items) }
        ensures rest { IfOk result (λ k. IsFormOf (shapes_in self.new.forms)
            (residual (shape_at (residuals_of self.old) i) letter) k) }
    {
        let form = self.residuals[i as usize];
        Ok(self.forms.residual(alloc, form, letter)?)
    }

    /// The entries that a step keeps, as the checks see them.
    pub fn kept(&self, alloc: Global, live: &[Live]) -> Result<Vec<Kept>, Memory>
        requires words { self.now.words.items ≡ map (λ r. words_of r) (residuals_of self.now) }
        requires listed { AreListed (residuals_of self.now) live.now }
        ensures { IfOk result (λ v. v.items ≡ kept_by shapes (values (residuals_of self.now) live.now)) }
    {
        let mut kept = Vec::with_capacity(alloc, live.len())?;
        for entry in live {
            kept.push(Kept {
                words: self.words[entry.residual as usize],
                tag: entry.tag,
            })?;
        }
        Ok(kept)
    }

    /// The residuals, each written out.
    pub fn regexes(&self, alloc: Global) -> Result<Vec<Regex>, Memory>
        requires table { IsTable self.now.forms }
        requires there { AreThere (shapes_in self.now.forms) self.now.residuals.items }
        ensures { IfOk result (λ v. map (λ r. shape_of r) v.items ≡ residuals_of self.now) }
    {
        let mut regexes = Vec::with_capacity(alloc, self.residuals.len())?;
        for form in self.residuals.as_slice() {
            regexes.push(self.forms.regex(alloc, *form)?)?;
        }
        Ok(regexes)
    }

    /// Notes what a letter leaves of residual `i`.
    fn note(&mut self, i: u32, letter: Letter, next: Next)
        requires { i < length self.old.nexts.items }
        ensures forms { self.new.forms ≡ self.old.forms }
        ensures residuals { self.new.residuals.items ≡ self.old.residuals.items }
        ensures places { self.new.places ≡ self.old.places }
        ensures words { self.new.words.items ≡ self.old.words.items }
        ensures nexts { IfSome (slice_get self.old.nexts.items i) (λ n.
            self.new.nexts.items ≡ slice_set self.old.nexts.items i (next_with n letter next)) }
    {
        let known = self.nexts[i as usize];
        self.nexts[i as usize] = known.with(letter, next);
    }
}
