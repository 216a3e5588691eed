//! How a seed is written down, and what is made of it.
//!
//! A table is constant data, so that a pattern costs nothing until its seed is asked for. Residuals are expressions,
//! which live on the heap; a table therefore says how each is left by an earlier one, and they are derived anew.

ghost use Rattle.std.specs.Prelude.{◌≡◌, ◌≤◌, IsTrue, IfOk, map, length, [], ◌∷◌};
ghost use Rattle.ts_regex.specs.Shape.{shape_of};
ghost use Rattle.ts_regex.specs.NormalForm.{normal_form};
ghost use Rattle.ts_transducer.specs.Typing.{is_typed};
ghost use Rattle.ts_transducer.specs.Rows.{rows_of};
ghost use Rattle.ts_pattern.specs.Plans.{plain_configuration, plain_plan};
ghost use Rattle.ts_seed.specs.Written.{row_read, letter_read, origin_read, configuration_of, from_earlier};
ghost use Rattle.ts_seed.specs.Written.{live_of, table_read};
ghost use Rattle.ts_seed.specs.Table.{at, join, plan_of, residuals_from};

use arrayvec::ArrayVec;
use std::alloc::Global;
use ts_base::{Join, Kind, Letter, Memory, flip};
use ts_pattern::{Configuration, Live, Plan, Tag};
use ts_regex::{Regex, normal, residual};
use ts_transducer::{Arrow, Phase, Row, Transducer};

/// The row of a state: its kind, and its moves on `<`, `=` and `>`, each a phase letter and the next state.
pub type Line = (Kind, (Phase, u8), (Phase, u8), (Phase, u8));

/// A seed as the catalogue prints it, and its plan.
#[derive(Clone, Copy)]
pub struct PrintedTable {
    /// One for each state; the first is the start.
    pub rows: &'static [Line],
    /// For each residual but the first, which is the whole pattern: the earlier one and the letter that leave it.
    pub residuals: &'static [(usize, Letter)],
    /// The state, and the live entries by residual and tag.
    pub configurations: &'static [(u8, &'static [(u32, Tag)])],
    /// The pairs of a forward and a reverse state between which one occurrence goes on.
    pub joins: &'static [(u8, u8)],
}

/// How a table is read.
#[derive(Clone, Copy)]
pub enum Reading {
    /// As it is printed.
    Printed,
    /// With `<` and `>` exchanged.
    Mirrored,
}

impl Reading {
    /// The letter as it is read.
    fn letter(self, letter: Letter) -> Letter
        ensures { result ≡ letter_read self letter }
    {
        match self {
            Reading::Printed => letter,
            Reading::Mirrored => flip(letter),
        }
    }

    /// The row of a state as it is read.
    fn row(self, line: Line) -> Row
        ensures { result ≡ row_read self line }
    {
        let (kind, less, equal, greater) = line;
        let (less, greater) = match self {
            Reading::Printed => (less, greater),
            Reading::Mirrored => (greater, less),
        };
        Row {
            kind,
            less: arrow(less),
            equal: arrow(equal),
            greater: arrow(greater),
        }
    }
}

/// A move as it is written: its phase letter and the next state.
fn arrow(written: (Phase, u8)) -> Arrow
    ensures { result ≡ record { phase = written.0; next = written.1 } }
{
    Arrow {
        phase: written.0,
        next: written.1,
    }
}

impl PrintedTable {
    /// The transducer of its rows.
    pub fn transducer(&self, reading: Reading) -> Transducer
        requires few { length self.now.rows.now ≤ 8 }
        requires typed { IsTrue (is_typed (table_read reading self.now).rows) }
        ensures { rows_of result ≡ (table_read reading self.now).rows }
    {
        let mut rows: ArrayVec<Row, 8> = ArrayVec::new();
        for line in self.rows {
            rows.push(reading.row(*line));
        }
        Transducer::new(rows).unwrap()
    }

    /// Its plan, for the pattern with this expression.
    pub fn plan(&self, alloc: Global, regex: &Regex, reading: Reading) -> Result<Plan, Memory>
        requires { IsTrue (from_earlier 1 self.now.residuals.now) }
        ensures { IfOk result (λ p. plain_plan p ≡ plan_of (shape_of regex.now) (table_read reading self.now)) }
    {
        Ok(Plan {
            residuals: residuals(alloc, regex, self.residuals, reading)?,
            configurations: configurations(alloc, self.configurations)?,
        })
    }

    /// Its joins.
    pub fn joins(&self, alloc: Global) -> Result<Vec<Join>, Memory>
        ensures { IfOk result (λ js. js.items ≡ map (λ p. join p.0 p.1) self.now.joins.now) }
    {
        let joins = self
            .joins
            .iter()
            .map(|&(forward, reverse)| Join { forward, reverse })
            .collect(alloc)?;
        Ok(joins)
    }
}

/// The residuals of an expression: its normal form, and what the letters leave.
fn residuals(
    alloc: Global,
    regex: &Regex,
    origins: &[(usize, Letter)],
    reading: Reading,
) -> Result<Vec<Regex>, Memory>
    requires { IsTrue (from_earlier 1 origins.now) }
    ensures { IfOk result (λ rs. map (λ r. shape_of r) rs.items ≡
        residuals_from (normal_form (shape_of regex.now) ∷ []) (map (λ o. origin_read reading o) origins.now)) }
{
    let mut residuals = Vec::new(alloc);
    residuals.push(normal(alloc, regex)?)?;
    for &(from, letter) in origins {
        let left = residual(alloc, &residuals[from], reading.letter(letter))?;
        residuals.push(left)?;
    }
    Ok(residuals)
}

/// The configurations of a plan.
fn configurations(
    alloc: Global,
    lines: &[(u8, &[(u32, Tag)])],
) -> Result<Vec<Configuration>, Memory>
    ensures { IfOk result (λ cs. map (λ c. plain_configuration c) cs.items ≡ map (λ c. configuration_of c) lines.now) }
{
    let mut configurations = Vec::new(alloc);
    for &(state, entries) in lines {
        configurations.push(configuration(alloc, state, entries)?)?;
    }
    Ok(configurations)
}

/// One configuration.
fn configuration(alloc: Global, state: u8, entries: &[(u32, Tag)]) -> Result<Configuration, Memory>
    ensures { IfOk result (λ c. plain_configuration c ≡ at state entries.now) }
{
    let entries = live(alloc, entries)?;
    Ok(Configuration {
        state,
        live: entries,
    })
}

/// The live entries of a configuration.
fn live(alloc: Global, entries: &[(u32, Tag)]) -> Result<Vec<Live>, Memory>
    ensures { IfOk result (λ es. es.items ≡ map (λ e. live_of e) entries.now) }
{
    let live = entries
        .iter()
        .map(|&(residual, tag)| Live { residual, tag })
        .collect(alloc)?;
    Ok(live)
}
