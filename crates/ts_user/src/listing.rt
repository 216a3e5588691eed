//! The configurations that are listed, each with the signature by which it was first reached.

ghost use Rattle.std.specs.Prelude.{◌≡◌, ◌+◌, ◌<◌, ◌≤◌, ◌++◌, [], ◌∷◌, IfOk, IfErr, map, length};
ghost use Rattle.ts_regex.specs.Shape.{shape_of};
ghost use Rattle.ts_user.specs.SignatureOrder.{place, signature_at};
ghost use Rattle.ts_user.specs.Books.{residuals_of, IsBook};
ghost use Rattle.ts_user.specs.BuildAnswers.{unplanned_of, IsStop};
ghost use Rattle.ts_user.specs.Keys.{key_lists};
ghost use Rattle.ts_user.specs.Listings.{IsTaken, IsReady, IsBegun, IsListed, IsFull, signatures_of};

use crate::book::Book;
use crate::build_stop::BuildStop;
use crate::keys::{Keys, configuration_key};
use crate::step::make_step;
use std::alloc::Global;
use ts_base::{Letter, Memory};
use ts_pattern::{Configuration, Pattern, Plan};
use ts_transducer::Row;

/// The most configurations of a plan that is built.
const MOST: usize = 512;

/// Configurations in the order in which they are first reached, their signatures and keys, and the residuals
/// that stand in them.
#[derive(Drop)]
pub struct Listing {
    pub book: Book,
    pub configurations: Vec<Configuration>,
    pub signatures: Vec<Vec<Letter>>,
    pub keys: Keys,
}

impl Listing {
    /// The start state with no entry, by no signs.
    pub fn new(alloc: Global, rows: &[Row], p: &Pattern) -> Result<Listing, Memory>
        ensures listed { IfOk result (λ t. IsListed (unplanned_of rows.now p.now) (shape_of p.now.regex) t) }
        ensures ready { IfOk result (λ t. IsReady (unplanned_of rows.now p.now) (signatures_of t) 0) }
    {
        let book = Book::new(alloc, p)?;
        let mut listing = Listing {
            book,
            configurations: Vec::new(alloc),
            signatures: Vec::new(alloc),
            keys: Keys::new(alloc),
        };
        listing.begin(alloc)?;
        Ok(listing)
    }

    /// Lists the start state with no entry, by no signs, where nothing is listed.
    // A call of its own, since each early return of a body that owns the listing drops it, which is hard to prove.
    fn begin(&mut self, alloc: Global) -> Result<(), Memory>
        requires configurations { self.old.configurations.items ≡ [] }
        requires signatures { self.old.signatures.items ≡ [] }
        requires keys { key_lists self.old.keys ≡ [] }
        ensures book { self.new.book ≡ self.old.book }
        ensures begun { IfOk result (λ _. IsBegun self.new) }
    {
        let blank = Configuration {
            state: 0,
            live: Vec::new(alloc),
        };
        let key = configuration_key(alloc, &blank)?;
        self.keys.place(key)?;
        self.push(blank, Vec::new(alloc))?;
        Ok(())
    }

    /// Looks at the step of configuration `from` on a letter, and lists what is new. `rows` and `p` are those that the
    /// listing was begun with.
    fn take(
        &mut self,
        alloc: Global,
        rows: &[Row],
        p: &Pattern,
        from: usize,
        letter: Letter,
    ) -> Result<(), BuildStop>
        requires listed { IsListed (unplanned_of rows.now p.now) (shape_of p.now.regex) self.old }
        requires there { from < length self.old.configurations.items }
        requires taken { IsTaken (unplanned_of rows.now p.now) (signatures_of self.old)
            (place (signature_at (signatures_of self.old) from ++ letter ∷ [])) }
        ensures listed { IfOk result (λ _. IsListed (unplanned_of rows.now p.now) (shape_of p.now.regex) self.new) }
        ensures taken { IfOk result (λ _. IsTaken (unplanned_of rows.now p.now) (signatures_of self.new)
            (place (signature_at (signatures_of self.old) from ++ letter ∷ []) + 1)) }
        ensures same { IfOk result (λ _.
            signature_at (signatures_of self.new) from ≡ signature_at (signatures_of self.old) from) }
        ensures longer { IfOk result (λ _.
            length self.old.configurations.items ≤ length self.new.configurations.items) }
        ensures stop { IfErr result (λ e. IsStop (unplanned_of rows.now p.now) e) }
    {
        let here = &self.configurations[from];
        let seen = make_step(alloc, &mut self.book, rows, p, here, letter)?;
        let signature = longer(alloc, &self.signatures[from], letter)?;
        if !seen.agrees {
            return Err(BuildStop::Refused { signature });
        }
        let key = configuration_key(alloc, &seen.to)?;
        let listed = self.keys.place(key)?;
        match listed {
            Some(_) => Ok(()),
            None => match self.list(seen.to, signature) {
                Ok(()) => Ok(()),
                Err(stop) => Err(stop),
            },
        }
    }

    /// Lists a configuration whose key is there, unless there are 512.
    fn list(&mut self, to: Configuration, signature: Vec<Letter>) -> Result<(), BuildStop>
        ensures book { self.new.book ≡ self.old.book }
        ensures keys { self.new.keys ≡ self.old.keys }
        ensures configurations { IfOk result (λ _.
            self.new.configurations.items ≡ self.old.configurations.items ++ to ∷ []) }
        ensures signatures { IfOk result (λ _.
            self.new.signatures.items ≡ self.old.signatures.items ++ signature ∷ []) }
        ensures few { IfOk result (λ _. length self.old.configurations.items < 512) }
        ensures full { IfErr result (λ e. IsFull (length self.old.configurations.items) e) }
    {
        if self.configurations.len() >= MOST {
            return Err(BuildStop::TooMany);
        }
        self.push(to, signature)?;
        Ok(())
    }

    fn push(&mut self, to: Configuration, signature: Vec<Letter>) -> Result<(), Memory>
        ensures book { self.new.book ≡ self.old.book }
        ensures keys { self.new.keys ≡ self.old.keys }
        ensures configurations { IfOk result (λ _.
            self.new.configurations.items ≡ self.old.configurations.items ++ to ∷ []) }
        ensures signatures { IfOk result (λ _.
            self.new.signatures.items ≡ self.old.signatures.items ++ signature ∷ []) }
    {
        self.configurations.push(to)?;
        self.signatures.push(signature)?;
        Ok(())
    }

    /// Takes the steps of configuration `from` on all letters.
    pub fn expand(
        &mut self,
        alloc: Global,
        rows: &[Row],
        p: &Pattern,
        from: usize,
    ) -> Result<(), BuildStop>
        requires listed { IsListed (unplanned_of rows.now p.now) (shape_of p.now.regex) self.old }
        requires there { from < length self.old.configurations.items }
        requires ready { IsReady (unplanned_of rows.now p.now) (signatures_of self.old) from }
        ensures listed { IfOk result (λ _. IsListed (unplanned_of rows.now p.now) (shape_of p.now.regex) self.new) }
        ensures ready { IfOk result (λ _. IsReady (unplanned_of rows.now p.now) (signatures_of self.new) (from + 1)) }
        ensures longer { IfOk result (λ _.
            length self.old.configurations.items ≤ length self.new.configurations.items) }
        ensures stop { IfErr result (λ e. IsStop (unplanned_of rows.now p.now) e) }
    {
        self.take(alloc, rows, p, from, Letter::Less)?;
        self.take(alloc, rows, p, from, Letter::Equal)?;
        self.take(alloc, rows, p, from, Letter::Greater)?;
        Ok(())
    }

    /// The plan of what is listed. `p` is the pattern that the listing was begun with.
    pub fn into_plan(self, alloc: Global, p: &Pattern) -> Result<Plan, Memory>
        requires { IsBook (shape_of p.now.regex) self.book }
        ensures residuals { IfOk result (λ plan.
            map (λ r. shape_of r) plan.residuals.items ≡ residuals_of self.book) }
        ensures configurations { IfOk result (λ plan.
            plan.configurations.items ≡ self.configurations.items) }
    {
        let Listing {
            book,
            configurations,
            signatures: _,
            keys: _,
        } = self;
        let residuals = book.regexes(alloc)?;
        Ok(Plan {
            residuals,
            configurations,
        })
    }
}

/// The signs with one more.
fn longer(alloc: Global, signs: &[Letter], letter: Letter) -> Result<Vec<Letter>, Memory>
    ensures { IfOk result (λ w. w.items ≡ signs.now ++ letter ∷ []) }
{
    let mut all = Vec::with_capacity(alloc, signs.len())?;
    all.extend_from_slice(signs)?;
    all.push(letter)?;
    Ok(all)
}
