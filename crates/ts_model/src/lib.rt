//! Models and series, read from their texts.
//!
//! A model text has one statement a line: how many cells a series has, which values they may take, the terms of the
//! series (Global Constraint Catalog, Volume II), what is required of their values, and which term is the objective.
//! `read_model` gives the model that the lines state together, or the first bad line with the first of fifteen kinds
//! that holds of it, and a `ModelReader` reads a text that comes line by line; `read_series` gives the numbers of
//! a `series` line, `read_any_series` where no model says how many. Each is an exact reading: every text has one
//! answer, lack of memory aside. What stands above knows of a model that its numbers of cells and terms exist, those of
//! its windows too, and that it keeps the limits of its need. A term has the value of the cells that it looks at: all,
//! or those of its window.
//!
//! A text is read in one pass, by one reader: a line costs its words, a name is looked up in the map of the terms, and
//! a `domain` line doesn't touch the cells one by one. Of the words of a line the ranges alone are listed, at 16 bytes
//! each, and the first six of a line without ranges.
//!
//! ```text
//! let text = b"cells 3\ndomain 0..1\nterm c = count peak\nrequire c >= 1\nobjective c\n";
//! let model = read_model(alloc, text, Need::Best)?;
//! satisfies(model.requirements[0].op, model.requirements[0].bound, Ext::Int(1)) // true
//! ```
#![tactic(auto)]

mod cells;
mod draft;
mod error;
mod laws;
mod model;
mod model_text;
mod parse;
mod read;
mod reader;
mod series;
mod statement;
mod take;
mod whole;
mod words;

pub use error::{ModelKind, ModelStop, SeriesStop};
pub use laws::{judged_is_met, model_is_whole, model_keeps_limits, one_reading, reading_is_first};
pub use model::{Model, ModelTerm, Need, Op, Require, Window, satisfies};
pub use model_text::ModelText;
pub use reader::ModelReader;
pub use series::{read_any_series, read_series, value_of};
pub use whole::read_model;
