//! The pattern while lines are read.

ghost use Rattle.std.specs.Prelude.{◌≡◌, ◌==◌, ◌&&◌, is_some, OnOk};
ghost use Rattle.std.specs.List.{list_any};
ghost use Rattle.ts_user.specs.Statement.{SaysCatalogue, SaysPattern, SaysTrim, SaysState, SaysMove};
ghost use Rattle.ts_user.specs.Stated.{nothing, arrow_stated, state_at, has_move, stated_with};
ghost use Rattle.ts_user.specs.PatternReading.{line_gives};
ghost use Rattle.ts_user.specs.Expressions.{part_of};
ghost use Rattle.ts_user.specs.Views.{texts, meaning_of, stated_of, Gives, IsSound};

use crate::parse::parse;
use crate::part::Part;
use crate::stated::{StatedState, Trims};
use crate::statement::{MoveParts, Statement};
use crate::user_stop::{LineStop, UserKind};
use std::alloc::Global;
use ts_base::{Kind, Letter};
use ts_pattern::PatternId;
use ts_regex::Regex;
use ts_token::Word;
use ts_transducer::Arrow;

/// The most states of a pattern text.
const STATES: usize = 8;

/// What the lines so far state; `alone` says whether the text has one line alone.
#[derive(Drop)]
pub(crate) struct Draft {
    pub alone: bool,
    pub catalogue: Option<PatternId>,
    pub expression: Option<Regex>,
    pub trims: Option<Trims>,
    pub states: Vec<StatedState>,
}

/// Whether the state has this name, and a move on the letter.
fn has_arrow(state: &StatedState, name: u8, letter: Letter) -> bool
    ensures { result ≡ ((state.now.name == name) && is_some (arrow_stated letter state.now)) }
{
    state.name == name && state.arrow(letter).is_some()
}

impl Draft {
    /// Nothing is stated.
    pub(crate) fn new(alloc: Global, alone: bool) -> Draft
        ensures empty { stated_of result ≡ nothing }
        ensures sound { IsSound result }
        ensures alone { result.alone ≡ alone }
    {
        Draft {
            alone,
            catalogue: None,
            expression: None,
            trims: None,
            states: Vec::new(alloc),
        }
    }

    /// Adds what one line says, or gives the first kind that holds of the line.
    pub(crate) fn read_line(&mut self, alloc: Global, words: &[Word]) -> Result<(), LineStop>
        requires sound { IsSound self.old }
        ensures taken { Gives (λ _. stated_of self.new) result
            (line_gives self.old.alone (stated_of self.old) (texts words.now)) }
        ensures sound { OnOk result (IsSound self.new) }
        ensures alone { OnOk result (self.new.alone ≡ self.old.alone) }
    {
        let statement = parse(alloc, words)?;
        self.take(statement)
    }

    /// Adds what a line says, or gives the first kind that holds of it.
    fn take(&mut self, statement: Statement) -> Result<(), LineStop>
        requires sound { IsSound self.old }
        ensures taken { Gives (λ _. stated_of self.new) result
            (stated_with self.old.alone (stated_of self.old) (meaning_of statement)) }
        ensures sound { OnOk result (IsSound self.new) }
        ensures alone { OnOk result (self.new.alone ≡ self.old.alone) }
    {
        match statement {
            Statement::Catalogue(id) => self.take_catalogue(id),
            Statement::Pattern(part) => self.take_pattern(part),
            Statement::Trim(trims) => self.take_trim(trims),
            Statement::State { name, kind } => self.take_state(name, kind),
            Statement::Move(parts) => self.take_move(parts),
        }
    }

    /// The place of the state with this name.
    fn state_at(&self, name: u8) -> Option<usize>
        ensures { result ≡ state_at name self.now.states.items }
    {
        self.states.iter().position(|state| state.name == name)
    }

    /// Whether the state of this name has a move on the letter.
    fn has_move_on(&self, name: u8, letter: Letter) -> bool
        ensures { result ≡ list_any (λ s. (s.name == name) && is_some (arrow_stated letter s)) self.now.states.items }
    {
        self.states
            .iter()
            .any(|state| has_arrow(state, name, letter))
    }

    /// Whether the state of this name has a move on the sign.
    fn has_move(&self, name: u8, sign: Option<Letter>) -> bool
        ensures { result ≡ has_move name sign self.now.states.items }
    {
        match sign {
            None => false,
            Some(letter) => self.has_move_on(name, letter),
        }
    }

    /// Takes a `catalogue` line.
    fn take_catalogue(&mut self, id: Option<PatternId>) -> Result<(), LineStop>
        requires sound { IsSound self.old }
        ensures taken { Gives (λ _. stated_of self.new) result
            (stated_with self.old.alone (stated_of self.old) (SaysCatalogue id)) }
        ensures sound { OnOk result (IsSound self.new) }
        ensures alone { OnOk result (self.new.alone ≡ self.old.alone) }
    {
        if !self.alone {
            return Err(LineStop::Bad(UserKind::Twice));
        }
        if id.is_none() {
            return Err(LineStop::Bad(UserKind::UnknownName));
        }
        self.catalogue = id;
        Ok(())
    }

    /// Takes a `pattern` line.
    fn take_pattern(&mut self, part: Part) -> Result<(), LineStop>
        requires sound { IsSound self.old }
        ensures taken { Gives (λ _. stated_of self.new) result
            (stated_with self.old.alone (stated_of self.old) (SaysPattern (part_of part))) }
        ensures sound { OnOk result (IsSound self.new) }
        ensures alone { OnOk result (self.new.alone ≡ self.old.alone) }
    {
        if self.expression.is_some() {
            return Err(LineStop::Bad(UserKind::Twice));
        }
        match part {
            Part::TooLarge => Err(LineStop::Bad(UserKind::Limit)),
            Part::Fits(regex) => {
                self.expression = Some(regex);
                Ok(())
            }
        }
    }

    /// Takes a `trim` line.
    fn take_trim(&mut self, trims: Trims) -> Result<(), LineStop>
        requires sound { IsSound self.old }
        ensures taken { Gives (λ _. stated_of self.new) result
            (stated_with self.old.alone (stated_of self.old) (SaysTrim trims.before trims.after)) }
        ensures sound { OnOk result (IsSound self.new) }
        ensures alone { OnOk result (self.new.alone ≡ self.old.alone) }
    {
        if self.trims.is_some() {
            return Err(LineStop::Bad(UserKind::Twice));
        }
        self.trims = Some(trims);
        Ok(())
    }

    /// Takes a `state` line.
    fn take_state(&mut self, name: u8, kind: Option<Kind>) -> Result<(), LineStop>
        requires sound { IsSound self.old }
        ensures taken { Gives (λ _. stated_of self.new) result
            (stated_with self.old.alone (stated_of self.old) (SaysState name kind)) }
        ensures sound { OnOk result (IsSound self.new) }
        ensures alone { OnOk result (self.new.alone ≡ self.old.alone) }
    {
        if self.state_at(name).is_some() {
            return Err(LineStop::Bad(UserKind::Twice));
        }
        match kind {
            None => Err(LineStop::Bad(UserKind::UnknownName)),
            Some(kind) => {
                if self.states.len() >= STATES {
                    return Err(LineStop::Bad(UserKind::Limit));
                }
                self.states.push(StatedState::new(name, kind))?;
                Ok(())
            }
        }
    }

    /// Takes a `move` line.
    fn take_move(&mut self, parts: MoveParts) -> Result<(), LineStop>
        requires sound { IsSound self.old }
        ensures taken { Gives (λ _. stated_of self.new) result
            (stated_with self.old.alone (stated_of self.old) (SaysMove parts)) }
        ensures sound { OnOk result (IsSound self.new) }
        ensures alone { OnOk result (self.new.alone ≡ self.old.alone) }
    {
        if self.has_move(parts.from, parts.sign) {
            return Err(LineStop::Bad(UserKind::Twice));
        }
        let (from, to) = (self.state_at(parts.from), self.state_at(parts.to));
        match (parts.sign, parts.phase, from, to) {
            (Some(letter), Some(phase), Some(from), Some(to)) => {
                let next = to as u8;
                self.states[from] = self.states[from].with_arrow(letter, Arrow { phase, next });
                Ok(())
            }
            _ => Err(LineStop::Bad(UserKind::UnknownName)),
        }
    }
}
