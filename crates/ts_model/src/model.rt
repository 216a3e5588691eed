//! What a model text states.

ghost use Rattle.std.specs.Prelude.{◌≡◌, ◌<◌, Some, length, map, option_map, slice_get};
ghost use Rattle.ts_model.specs.Compares.{compares};
ghost use Rattle.ts_model.specs.TermValue.{has_window};
ghost use Rattle.ts_model.specs.Views.{model_parts, range_in, terms_in, window_at};

use indexmap::IndexMap;
use ts_base::{Ext, Range};
use ts_domain::Domain;
use ts_pattern::Term;

/// The six comparisons `=`, `!=`, `<=`, `>=`, `<` and `>`.
#[derive(Clone, Copy, Debug, PartialEq, Eq)]
pub enum Op {
    Equal,
    Unequal,
    AtMost,
    AtLeast,
    Below,
    Above,
}

/// A requirement: the value of the term at place `term` in the text, counted from 0, compares so with the bound.
#[derive(Clone, Copy, Debug, PartialEq, Eq)]
pub struct Require {
    pub term: u32,
    pub op: Op,
    pub bound: Ext,
}

/// What is asked of a model: nothing more, few values in all domains together, or that and an objective.
#[derive(Clone, Copy, Debug, PartialEq, Eq)]
pub enum Need {
    Values,
    List,
    Best,
}

/// The cells from `first` to `last`, counted from 1, that a term looks at.
#[derive(Clone, Copy, Debug, PartialEq, Eq)]
pub struct Window {
    pub first: u32,
    pub last: u32,
}

/// A term of a model, and the cells that it looks at; None stands for all.
#[derive(Clone, Copy, Debug, PartialEq, Eq)]
pub struct ModelTerm {
    pub term: Term,
    pub window: Option<Range>,
}

/// A series of `n` cells, each with its domain; the terms by name, in the order of the text, and the window of each,
/// where it has one; the requirements, and the number of the objective's term.
#[derive(Drop)]
pub struct Model {
    pub n: u32,
    pub cells: Vec<Domain>,
    pub terms: IndexMap<String, Term>,
    pub windows: Vec<Option<Window>>,
    pub requirements: Vec<Require>,
    pub objective: Option<u32>,
}

impl Model {
    /// The term at a place, counted from 0, with its window.
    pub fn term(&self, place: usize) -> ModelTerm
        requires { place < length self.now.terms.entries }
        ensures { slice_get (map (λ e. e.1) (terms_in self.now)) place ≡ Some result }
    {
        ModelTerm {
            term: self.terms[place],
            window: window_at(&self.windows, place),
        }
    }

    /// Whether some term looks at some of the cells alone.
    pub fn has_window(&self) -> bool
        ensures { result ≡ has_window (model_parts self.now) }
    {
        for k in 0..self.terms.len() {
            if self.term(k).window.is_some() {
                return true;
            }
        }
        false
    }
}

/// The window at a place, counted from 0; None too where none is listed there.
fn window_at(windows: &[Option<Window>], place: usize) -> Option<Range>
    ensures { result ≡ window_at windows.now place }
{
    match windows.get(place) {
        Some(window) => range_given(*window),
        None => None,
    }
}

/// The cells that a window names, where there is one.
fn range_given(window: Option<Window>) -> Option<Range>
    ensures { result ≡ option_map range_in window }
{
    match window {
        Some(window) => Some(Range {
            first: window.first,
            last: window.last,
        }),
        None => None,
    }
}

/// Whether the value `v` compares so with the bound, `-inf` below and `+inf` above every number.
pub fn satisfies(op: Op, bound: Ext, v: Ext) -> bool
    ensures { result ≡ compares op bound v }
{
    match op {
        Op::Equal => v == bound,
        Op::Unequal => v != bound,
        Op::AtMost => v <= bound,
        Op::AtLeast => v >= bound,
        Op::Below => v < bound,
        Op::Above => v > bound,
    }
}
