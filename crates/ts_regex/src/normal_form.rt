//! Normal forms, of the same language: meant to give one form to expressions that differ in brackets, order and repeats
//! alone, so that what a word leaves, read letter by letter, doesn't grow with it. Proved are the language, and that of
//! the members of an `Alt` each comes before the next.

ghost use Rattle.std.specs.Prelude.{◌≡◌, ◌↔◌, ◌≤◌, List, ◌∷◌, map, length, IfOk, OnOk, MatchResult};
ghost use Rattle.std.specs.List.{insert};
ghost use Rattle.ts_base.specs.declared.letter.Letter.{Letter};
ghost use Rattle.ts_regex.specs.Shape.{shape_of};
ghost use Rattle.ts_regex.specs.Language.{InLanguage};
ghost use Rattle.ts_regex.specs.NormalForm.{chain, follow, normal_cat, members, insert_member, insert_members, nest, normal_alt, normal_star, normal_form, residual};

use crate::derivative::derive;
use crate::regex::{Regex, alt, cat, star};
use std::alloc::Global;
use std::cmp::Ordering;
use ts_base::{Letter, Memory};

/// The normal form, of the same language (Brzozowski 1964, similar expressions).
#[tactic(auto, using(crate::proofs::Laws::normal_law))]
pub fn normal(alloc: Global, r: &Regex) -> Result<Regex, Memory>
    ensures exact { IfOk result (λ n. shape_of n ≡ normal_form (shape_of r.now)) }
    ensures language { IfOk result (λ n. (w : List Letter) →
        InLanguage (shape_of n) w ↔ InLanguage (shape_of r.now) w) }
{
    r.simplified(alloc)
}

/// What a letter leaves of an expression, in normal form: its words are those that with `l` before them are words of
/// `r` (Brzozowski 1964). It is also called the residual of `r` after `l`.
#[tactic(auto, using(crate::proofs::Laws::residual_law))]
pub fn residual(alloc: Global, r: &Regex, l: Letter) -> Result<Regex, Memory>
    ensures exact { IfOk result (λ d. shape_of d ≡ residual (shape_of r.now) l) }
    ensures language { IfOk result (λ d. (w : List Letter) →
        InLanguage (shape_of d) w ↔ InLanguage (shape_of r.now) (l ∷ w)) }
{
    let rest = derive(alloc, r, l)?;
    normal(alloc, &rest)
}

impl Regex {
    /// The normal form.
    fn simplified(&self, alloc: Global) -> Result<Regex, Memory>
        ensures { IfOk result (λ n. shape_of n ≡ normal_form (shape_of self.now)) }
    {
        match self {
            Regex::Empty => Ok(Regex::Empty),
            Regex::Eps => Ok(Regex::Eps),
            Regex::One(l) => Ok(Regex::One(*l)),
            Regex::Cat(r, s) => normal_cat(alloc, r.simplified(alloc)?, s.simplified(alloc)?),
            Regex::Alt(r, s) => normal_alt(alloc, r.simplified(alloc)?, s.simplified(alloc)?),
            Regex::Star(r) => normal_star(alloc, r.simplified(alloc)?),
        }
    }

    /// Puts the members that are no `Alt` into their places.
    #[tactic(auto, using(crate::proofs::Members::all_append))]
    fn collect_members(self, found: &mut Vec<Regex>) -> Result<(), Memory>
        ensures { OnOk result (map shape_of found.new.items
            ≡ insert_members (members (shape_of self)) (map shape_of found.old.items)) }
    {
        match self {
            Regex::Empty => Ok(()),
            Regex::Alt(r, s) => {
                Box::into_inner(s).collect_members(found)?;
                Box::into_inner(r).collect_members(found)
            }
            member => insert_member(found, member),
        }
    }
}

/// The Cat of two normal forms.
fn normal_cat(alloc: Global, r: Regex, s: Regex) -> Result<Regex, Memory>
    ensures { IfOk result (λ n. shape_of n ≡ normal_cat (shape_of r) (shape_of s)) }
{
    match r {
        Regex::Empty => Ok(Regex::Empty),
        Regex::Eps => Ok(s),
        first => follow(alloc, first, s),
    }
}

/// `r`, which is neither Empty nor Eps, followed by `s`.
fn follow(alloc: Global, r: Regex, s: Regex) -> Result<Regex, Memory>
    ensures { IfOk result (λ n. shape_of n ≡ follow (shape_of r) (shape_of s)) }
{
    match s {
        Regex::Empty => Ok(Regex::Empty),
        Regex::Eps => Ok(r),
        second => chain(alloc, r, second),
    }
}

/// `r` followed by `t`, nested to the right.
fn chain(alloc: Global, r: Regex, t: Regex) -> Result<Regex, Memory>
    ensures { IfOk result (λ n. shape_of n ≡ chain (shape_of r) (shape_of t)) }
{
    match r {
        Regex::Cat(first, rest) => Ok(Regex::Cat(
            first,
            Box::new(alloc, chain(alloc, Box::into_inner(rest), t)?)?,
        )),
        first => cat(alloc, first, t),
    }
}

/// The Alt of two normal forms.
fn normal_alt(alloc: Global, r: Regex, s: Regex) -> Result<Regex, Memory>
    ensures { IfOk result (λ n. shape_of n ≡ normal_alt (shape_of r) (shape_of s)) }
{
    let mut found = Vec::new(alloc);
    s.collect_members(&mut found)?;
    r.collect_members(&mut found)?;
    nest(alloc, found)
}

/// Puts `r` into its place among sorted members, unless it stands there. The place is found from the front, so m
/// members may take m * m / 2 comparisons. That is quick enough: a residual has at most about as many members as the
/// expression has letters.
fn insert_member(found: &mut Vec<Regex>, r: Regex) -> Result<(), Memory>
    ensures { OnOk result (map shape_of found.new.items ≡ insert_member (shape_of r) (map shape_of found.old.items)) }
{
    if let Err(place) = place_of(found, &r) {
        found.insert(place, r)?;
    }
    Ok(())
}

/// Where `r` stands among sorted members, or else where it belongs.
fn place_of(found: &[Regex], r: &Regex) -> Result<usize, usize>
    ensures { MatchResult result (λ k. insert_member (shape_of r.now) (map shape_of found.now) ≡ map shape_of found.now)
        (λ k. (k ≤ length found.now)
        × (insert_member (shape_of r.now) (map shape_of found.now)
        ≡ insert (map shape_of found.now) k (shape_of r.now))) }
{
    for k in 0..found.len() {
        match r.compare(&found[k]) {
            Ordering::Less => return Err(k),
            Ordering::Equal => return Ok(k),
            Ordering::Greater => {}
        }
    }
    Err(found.len())
}

/// The `Alt` of the members, nested to the right.
fn nest(alloc: Global, mut found: Vec<Regex>) -> Result<Regex, Memory>
    ensures { IfOk result (λ n. shape_of n ≡ nest (map shape_of found.items)) }
{
    let mut union = match found.pop() {
        None => return Ok(Regex::Empty),
        Some(last) => last,
    };
    while let Some(member) = found.pop() {
        union = alt(alloc, member, union)?;
    }
    Ok(union)
}

/// The Star of a normal form.
fn normal_star(alloc: Global, r: Regex) -> Result<Regex, Memory>
    ensures { IfOk result (λ n. shape_of n ≡ normal_star (shape_of r)) }
{
    match r {
        Regex::Empty | Regex::Eps => Ok(Regex::Eps),
        Regex::Star(inner) => Ok(Regex::Star(inner)),
        once => star(alloc, once),
    }
}
