//! The step of a configuration on a letter, and whether the checks hold of it.

ghost use Rattle.std.specs.Prelude.{◌≡◌, ◌+◌, ◌<◌, [], IfOk, length};
ghost use Rattle.ts_base.specs.Limits.{too_many};
ghost use Rattle.ts_regex.specs.Shape.{shape_of};
ghost use Rattle.ts_regex.specs.NormalForm.{normal_form};
ghost use Rattle.ts_pattern.specs.Closed.{retag_entries};
ghost use Rattle.ts_validate.specs.Numbers.{plain_lives};
ghost use Rattle.ts_user.specs.Numbered.{live_numbers};
ghost use Rattle.ts_user.specs.BuildAnswers.{unplanned_of};
ghost use Rattle.ts_user.specs.Books.{residuals_of, IsBook, AreListed, IsAdded, IsLeft, IsStep, HasNumbers, with_new};

use crate::book::Book;
use indexmap::IndexSet;
use std::alloc::Global;
use ts_base::{Letter, Memory};
use ts_pattern::{Configuration, Live, Pattern, Tag};
use ts_transducer::{Phase, Row};
use ts_validate::{first_tag, kept_agree, none_kept, row, tag_after};

/// The entries that a step keeps, and the numbers of their residuals, which are found by their hashes.
#[derive(Drop)]
pub struct KeptEntries {
    pub live: Vec<Live>,
    pub numbers: IndexSet<u32>,
}

impl KeptEntries {
    /// No entry.
    fn new(alloc: Global) -> KeptEntries
        ensures none { result.live.items ≡ [] }
        ensures found { HasNumbers result }
    {
        KeptEntries {
            live: Vec::new(alloc),
            numbers: IndexSet::new(alloc),
        }
    }

    /// Adds an entry with this residual, unless one stands there.
    fn add(&mut self, residual: u32, tag: Tag) -> Result<(), Memory>
        requires { HasNumbers self.old }
        ensures added { IfOk result (λ _. self.new.live.items ≡ with_new self.old.live.items residual tag) }
        ensures found { IfOk result (λ _. HasNumbers self.new) }
    {
        if self.numbers.insert(residual)? {
            self.live.push(Live { residual, tag })?;
        }
        Ok(())
    }
}

/// Adds what the letter leaves of an entry: nothing where its residual has no word, or is that of an earlier one.
fn add_left(
    alloc: Global,
    book: &mut Book,
    p: &Pattern,
    letter: Letter,
    entry: Live,
    kept: &mut KeptEntries,
) -> Result<(), Memory>
    requires book { IsBook (shape_of p.now.regex) book.old }
    requires there { entry.residual < length book.old.residuals.items }
    requires listed { AreListed (residuals_of book.old) kept.old.live.items }
    requires found { HasNumbers kept.old }
    requires room { length book.old.residuals.items < too_many }
    ensures book { IfOk result (λ _. IsBook (shape_of p.now.regex) book.new) }
    ensures added { IfOk result (λ _.
        IsAdded (residuals_of book.old) (residuals_of book.new) letter entry kept.old.live.items
        kept.new.live.items) }
    ensures found { IfOk result (λ _. HasNumbers kept.new) }
{
    match book.after(alloc, p, entry.residual, letter)? {
        None => Ok(()),
        Some(residual) => {
            kept.add(residual, entry.tag)?;
            Ok(())
        }
    }
}

/// The entries that the letter leaves, with their tags before it.
fn left(
    alloc: Global,
    book: &mut Book,
    p: &Pattern,
    letter: Letter,
    live: &[Live],
) -> Result<Vec<Live>, Memory>
    requires book { IsBook (shape_of p.now.regex) book.old }
    requires listed { AreListed (residuals_of book.old) live.now }
    requires room { length book.old.residuals.items + length live.now < too_many }
    ensures book { IfOk result (λ _. IsBook (shape_of p.now.regex) book.new) }
    ensures left { IfOk result (λ v. IsLeft (residuals_of book.old) (residuals_of book.new)
        (normal_form (shape_of p.now.regex)) p.now.b letter live.now v.items) }
{
    let mut kept = KeptEntries::new(alloc);
    for entry in live {
        add_left(alloc, book, p, letter, *entry, &mut kept)?;
    }
    let new = Live {
        residual: 0,
        tag: first_tag(p.b),
    };
    add_left(alloc, book, p, letter, new, &mut kept)?;
    Ok(kept.live)
}

/// The entries with their tags after the step.
fn retagged(alloc: Global, phase: Phase, free: bool, kept: &[Live]) -> Result<Vec<Live>, Memory>
    ensures value { IfOk result (λ v. plain_lives v.items ≡ retag_entries phase free (plain_lives kept.now)) }
    ensures numbers { IfOk result (λ v. live_numbers v.items ≡ live_numbers kept.now) }
{
    let mut live = Vec::new(alloc);
    for entry in kept {
        live.push(Live {
            residual: entry.residual,
            tag: tag_after(phase, free, entry.tag),
        })?;
    }
    Ok(live)
}

/// Where a step leads, and whether the checks hold of it.
#[derive(Drop)]
pub struct Step {
    pub to: Configuration,
    pub agrees: bool,
}

/// The step of a configuration on a letter.
pub fn make_step(
    alloc: Global,
    book: &mut Book,
    rows: &[Row],
    p: &Pattern,
    here: &Configuration,
    letter: Letter,
) -> Result<Step, Memory>
    requires book { IsBook (shape_of p.now.regex) book.old }
    requires listed { AreListed (residuals_of book.old) here.now.live.items }
    requires room { length book.old.residuals.items + length here.now.live.items < too_many }
    ensures book { IfOk result (λ _. IsBook (shape_of p.now.regex) book.new) }
    ensures step { IfOk result (λ k. IsStep (unplanned_of rows.now p.now) (residuals_of book.old)
        (residuals_of book.new) here.now letter k.to k.agrees) }
{
    let live = here.live.as_slice();
    let arrow = row(rows, here.state).arrow(letter);
    let kept = left(alloc, book, p, letter, live)?;
    let free = none_kept(live);
    let kind = row(rows, arrow.next).kind;
    let seen = book.kept(alloc, kept.as_slice())?;
    let agrees = kept_agree(arrow.phase, kind, free, seen.as_slice());
    let live = retagged(alloc, arrow.phase, free, kept.as_slice())?;
    let to = Configuration {
        state: arrow.next,
        live,
    };
    Ok(Step { to, agrees })
}
