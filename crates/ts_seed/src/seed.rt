//! The seed of each pattern.
//!
//! Of two patterns that are mirror images one has a table; the other reads it with `<` and `>` exchanged.

ghost use Rattle.std.specs.Prelude.{◌≡◌, ◌≤◌, IsTrue, IfOk, length};
ghost use Rattle.ts_transducer.specs.Rows.{rows_of};
ghost use Rattle.ts_transducer.specs.Typing.{is_typed};
ghost use Rattle.ts_pattern.specs.PatternTable.{pattern_shape, pattern_b};
ghost use Rattle.ts_pattern.specs.Plans.{subject, plain_plan, is_plan_of};
ghost use Rattle.ts_pattern.specs.Closed.{IsClosed};
ghost use Rattle.ts_seed.specs.SeedTable.{table_of, reading_of, seed_table};
ghost use Rattle.ts_seed.specs.Seeds.{seed_of};
ghost use Rattle.ts_seed.specs.Written.{from_earlier, table_read};

use crate::dips::DIP_ON_INCREASING_SEQUENCE;
use crate::peaks::{INFLEXION, PEAK};
use crate::plateaus::PLATEAU;
use crate::sequences::{
    INCREASING, INCREASING_SEQUENCE, STEADY, STEADY_SEQUENCE, STRICTLY_INCREASING_SEQUENCE,
};
use crate::summits::SUMMIT;
use crate::table::{PrintedTable, Reading};
use crate::terraces::{INCREASING_TERRACE, PROPER_PLATEAU};
use crate::zigzags::ZIGZAG;
use std::alloc::Global;
use ts_base::{Join, Memory};
use ts_pattern::{PatternId, Plan, pattern_by_id};
use ts_transducer::Transducer;

/// A pattern's transducer with the plan by which it is validated, and how its reading of a series is split at a cell:
/// the pattern that has the same e-ranges where the series is read from its end, if there is one, and the pairs of a
/// forward and a reverse state between which one occurrence goes on. A state's number is its place among the rows,
/// from 0.
#[derive(Drop)]
pub struct Seed {
    pub transducer: Transducer,
    pub plan: Plan,
    pub partner: Option<PatternId>,
    pub joins: Vec<Join>,
}

/// The seed of that pattern. Its plan is one of the pattern and closed, so that on every signature the decoded ranges
/// are the occurrences of the pattern.
pub fn seed_by_id(alloc: Global, id: PatternId) -> Result<Seed, Memory>
    ensures table { IfOk result (λ s. seed_of s ≡ seed_table id) }
    ensures closed { IfOk result (λ s. IsClosed
        (subject (rows_of s.transducer) (pattern_shape id) (pattern_b id) (plain_plan s.plan))) }
    ensures fits { IfOk result (λ s. IsTrue (is_plan_of (pattern_shape id) (plain_plan s.plan))) }
    ensures few_residuals { IfOk result (λ s. length s.plan.residuals.items ≤ 9) }
    ensures few_configurations { IfOk result (λ s. length s.plan.configurations.items ≤ 11) }
{
    let (table, reading) = table_of(id);
    let pattern = pattern_by_id(alloc, id)?;
    Ok(Seed {
        transducer: table.transducer(reading),
        plan: table.plan(alloc, &pattern.regex, reading)?,
        partner: partner_by_id(id),
        joins: table.joins(alloc)?,
    })
}

/// The transducer of that pattern's seed alone, which costs no memory: for a caller who decodes many series. It is
/// closed by the plan of the seed.
pub fn transducer_by_id(id: PatternId) -> Transducer
    ensures table { rows_of result ≡ (seed_table id).rows }
    ensures closed { IsClosed (subject (rows_of result) (pattern_shape id) (pattern_b id) (seed_table id).plan) }
{
    let (printed, reading) = table_of(id);
    printed.transducer(reading)
}

/// The table of that pattern, and how it is read.
fn table_of(id: PatternId) -> (PrintedTable, Reading)
    ensures table { table_read result.1 result.0 ≡ table_of id }
    ensures few { length result.0.rows.now ≤ 8 }
    ensures typed { IsTrue (is_typed (table_of id).rows) }
    ensures earlier { IsTrue (from_earlier 1 result.0.residuals.now) }
{
    (printed(id), reading_of(id))
}

/// How the table of that pattern is read.
fn reading_of(id: PatternId) -> Reading
    ensures { result ≡ reading_of id }
{
    match id {
        PatternId::Decreasing
        | PatternId::DecreasingSequence
        | PatternId::StrictlyDecreasingSequence
        | PatternId::DecreasingTerrace
        | PatternId::Valley
        | PatternId::Plain
        | PatternId::ProperPlain
        | PatternId::Gorge
        | PatternId::BumpOnDecreasingSequence => Reading::Mirrored,
        _ => Reading::Printed,
    }
}

/// The table of that pattern as it is printed.
// Each table stands once, and one clause alone reads it: a table in a body is dear to prove.
fn printed(id: PatternId) -> PrintedTable
    ensures { table_read (reading_of id) result ≡ table_of id }
{
    match id {
        PatternId::Increasing | PatternId::Decreasing => INCREASING,
        PatternId::Steady => STEADY,
        PatternId::IncreasingSequence | PatternId::DecreasingSequence => INCREASING_SEQUENCE,
        PatternId::StrictlyIncreasingSequence | PatternId::StrictlyDecreasingSequence => {
            STRICTLY_INCREASING_SEQUENCE
        }
        PatternId::SteadySequence => STEADY_SEQUENCE,
        PatternId::IncreasingTerrace | PatternId::DecreasingTerrace => INCREASING_TERRACE,
        PatternId::Inflexion => INFLEXION,
        PatternId::Peak | PatternId::Valley => PEAK,
        PatternId::Plateau | PatternId::Plain => PLATEAU,
        PatternId::ProperPlateau | PatternId::ProperPlain => PROPER_PLATEAU,
        PatternId::Summit | PatternId::Gorge => SUMMIT,
        PatternId::Zigzag => ZIGZAG,
        PatternId::DipOnIncreasingSequence | PatternId::BumpOnDecreasingSequence => {
            DIP_ON_INCREASING_SEQUENCE
        }
    }
}

/// The pattern that has the same e-ranges where the series is read from its end. Three have none: `inflexion`, and the
/// dip and the bump, which leave out two cells at one end and one at the other. It costs no memory.
pub fn partner_by_id(id: PatternId) -> Option<PatternId>
    ensures { result ≡ (seed_table id).partner }
{
    match id {
        PatternId::Increasing => Some(PatternId::Decreasing),
        PatternId::Decreasing => Some(PatternId::Increasing),
        PatternId::IncreasingSequence => Some(PatternId::DecreasingSequence),
        PatternId::DecreasingSequence => Some(PatternId::IncreasingSequence),
        PatternId::StrictlyIncreasingSequence => Some(PatternId::StrictlyDecreasingSequence),
        PatternId::StrictlyDecreasingSequence => Some(PatternId::StrictlyIncreasingSequence),
        PatternId::IncreasingTerrace => Some(PatternId::DecreasingTerrace),
        PatternId::DecreasingTerrace => Some(PatternId::IncreasingTerrace),
        PatternId::Inflexion
        | PatternId::DipOnIncreasingSequence
        | PatternId::BumpOnDecreasingSequence => None,
        PatternId::Steady
        | PatternId::SteadySequence
        | PatternId::Peak
        | PatternId::Valley
        | PatternId::Plateau
        | PatternId::Plain
        | PatternId::ProperPlateau
        | PatternId::ProperPlain
        | PatternId::Summit
        | PatternId::Gorge
        | PatternId::Zigzag => Some(id),
    }
}

/// The pairs of a forward state of that pattern and a reverse state of its partner between which one occurrence goes
/// on, by rising forward and then reverse states; none where there is no partner. Of memory it takes the list's alone.
pub fn joins_by_id(alloc: Global, id: PatternId) -> Result<Vec<Join>, Memory>
    ensures { IfOk result (λ js. js.items ≡ (seed_table id).joins) }
{
    let (table, _) = table_of(id);
    table.joins(alloc)
}
