//! The configurations of a plan that are reached, how they are reached, and whether the checks hold there.

ghost use Rattle.std.specs.Prelude.{◌≡◌, ◌<◌, ◌+◌, ◌++◌, [], ◌∷◌, ℕ, Option, IfOk, length, replicate, slice_set};
ghost use Rattle.ts_pattern.specs.Closed.{meets_checks};
ghost use Rattle.ts_validate.specs.Trials.{subject_of};
ghost use Rattle.ts_validate.specs.FirstFalse.{first_false};
ghost use Rattle.ts_validate.specs.Reaches.{arrival_value, arrival, arrival_at, place_at, Reaches, StepArrives, ArrivalsGrow, IsTour, IsPath};

use crate::trial::Trial;
use std::alloc::Global;
use ts_base::{Letter, Memory};

/// A configuration, and the arrival from which it was reached on a letter; the first one has none.
#[derive(Clone, Copy)]
pub struct Arrival {
    pub configuration: usize,
    pub from: usize,
    pub letter: Letter,
}

/// The arrivals in their order, of each configuration the place of its arrival, and of each arrival whose steps were
/// taken the first letter on which a check fails.
#[derive(Drop)]
pub struct Tour {
    pub arrivals: Vec<Arrival>,
    pub places: Vec<Option<usize>>,
    pub failing: Vec<Option<Letter>>,
}

impl Tour {
    /// Of so many configurations the first has arrived.
    fn start(alloc: Global, n: usize) -> Result<Tour, Memory>
        requires { 0 < n }
        ensures arrivals { IfOk result (λ t. t.arrivals.items ≡ arrival 0 0 Letter.Less ∷ []) }
        ensures places { IfOk result (λ t. t.places.items ≡ slice_set (replicate n None) 0 (Some 0)) }
        ensures failing { IfOk result (λ t. t.failing.items ≡ []) }
    {
        let mut places: Vec<Option<usize>> = vec![in alloc; None; n]?;
        places[0] = Some(0);
        let mut arrivals = Vec::new(alloc);
        arrivals.push(Arrival {
            configuration: 0,
            from: 0,
            letter: Letter::Less,
        })?;
        let failing = Vec::new(alloc);
        Ok(Tour {
            arrivals,
            places,
            failing,
        })
    }

    /// The place of the arrival at configuration `c`, if it was reached.
    pub fn place(&self, c: usize) -> Option<usize>
        requires { c < length self.now.places.items }
        ensures { result ≡ place_at self.now.places.items c }
    {
        self.places[c]
    }

    fn arrival(&self, k: usize) -> Arrival
        requires { k < length self.now.arrivals.items }
        ensures { result ≡ arrival_at self.now.arrivals.items k }
    {
        self.arrivals[k]
    }

    fn add(&mut self, configuration: usize, from: usize, letter: Letter) -> Result<(), Memory>
        requires { configuration < length self.old.places.items }
        ensures arrivals { IfOk result (λ _. self.new.arrivals.items
            ≡ self.old.arrivals.items ++ arrival configuration from letter ∷ []) }
        ensures places { IfOk result (λ _. self.new.places.items
            ≡ slice_set self.old.places.items configuration (Some (length self.old.arrivals.items))) }
        ensures failing { IfOk result (λ _. self.new.failing.items ≡ self.old.failing.items) }
    {
        let place = self.arrivals.len();
        self.arrivals.push(Arrival {
            configuration,
            from,
            letter,
        })?;
        self.places[configuration] = Some(place);
        Ok(())
    }

    /// Takes the step of an arrival on a letter; whether the checks hold there.
    fn expand(
        &mut self,
        alloc: Global,
        trial: &Trial,
        from: usize,
        letter: Letter,
    ) -> Result<bool, Memory>
        requires reaches { Reaches (subject_of trial.now) self.old.arrivals.items self.old.places.items }
        requires there { from < length self.old.arrivals.items }
        ensures reaches { IfOk result (λ _.
            Reaches (subject_of trial.now) self.new.arrivals.items self.new.places.items) }
        ensures grows { IfOk result (λ _. ArrivalsGrow self.old.arrivals.items self.new.arrivals.items) }
        ensures follows { IfOk result (λ _. StepArrives (subject_of trial.now) self.new.arrivals.items from letter) }
        ensures failing { IfOk result (λ _. self.new.failing.items ≡ self.old.failing.items) }
        ensures meets { IfOk result (λ b. b ≡ meets_checks (subject_of trial.now)
            (arrival_value (subject_of trial.now) self.old.arrivals.items from) letter) }
    {
        let here = self.arrival(from).configuration;
        let seen = trial.look(alloc, here, letter)?;
        match seen.next {
            None => Ok(seen.meets),
            Some(next) => match self.place(next) {
                Some(_) => Ok(seen.meets),
                None => {
                    self.add(next, from, letter)?;
                    Ok(seen.meets)
                }
            },
        }
    }

    /// Takes the steps of the next arrival on all letters.
    fn expand_next(&mut self, alloc: Global, trial: &Trial) -> Result<(), Memory>
        requires tour { IsTour (subject_of trial.now) self.old }
        requires more { length self.old.failing.items < length self.old.arrivals.items }
        ensures tour { IfOk result (λ _. IsTour (subject_of trial.now) self.new) }
        ensures one { IfOk result (λ _. length self.new.failing.items ≡ length self.old.failing.items + 1) }
    {
        let from = self.failing.len();
        let less = self.expand(alloc, trial, from, Letter::Less)?;
        let equal = self.expand(alloc, trial, from, Letter::Equal)?;
        let greater = self.expand(alloc, trial, from, Letter::Greater)?;
        self.failing.push(first_false(less, equal, greater))?;
        Ok(())
    }

    /// The letters from the start to an arrival.
    pub fn signature(&self, alloc: Global, k: usize) -> Result<Vec<Letter>, Memory>
        requires there { k < length self.now.arrivals.items }
        requires back { (j : ℕ) → 0 < j → j < length self.now.arrivals.items
            → (arrival_at self.now.arrivals.items j).from < j }
        ensures { IfOk result (λ w. IsPath self.now.arrivals.items k w.items) }
    {
        let mut at = k;
        let mut signature = Vec::new(alloc);
        while at != 0 {
            let last = self.arrival(at);
            signature.push(last.letter)?;
            at = last.from;
        }
        signature.reverse();
        Ok(signature)
    }
}

fn first_false(less: bool, equal: bool, greater: bool) -> Option<Letter>
    ensures { result ≡ first_false less equal greater }
{
    if !less {
        Some(Letter::Less)
    } else if !equal {
        Some(Letter::Equal)
    } else if !greater {
        Some(Letter::Greater)
    } else {
        None
    }
}

/// All configurations that are reached, by listed steps from the first.
pub fn reach(alloc: Global, trial: &Trial) -> Result<Tour, Memory>
    ensures tour { IfOk result (λ t. IsTour (subject_of trial.now) t) }
    ensures full { IfOk result (λ t. length t.failing.items ≡ length t.arrivals.items) }
{
    let mut tour = Tour::start(alloc, trial.plan.configurations.len())?;
    while tour.failing.len() < tour.arrivals.len() {
        tour.expand_next(alloc, trial)?;
    }
    Ok(tour)
}
