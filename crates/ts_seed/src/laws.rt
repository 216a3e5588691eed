//! What holds of the tables of all patterns.

ghost use Rattle.std.specs.Prelude.{IsTrue};
ghost use Rattle.ts_pattern.specs.declared.name.PatternId.{PatternId};
ghost use Rattle.ts_seed.specs.SeedTable.{are_rising, seed_table};

/// The pairs of states stand by the forward states, and for one of them by the reverse states: so do their lines in the
/// text of a program.
pub fn joins_rise()
    ensures { (id : PatternId) → IsTrue (are_rising (seed_table id).joins) }
{}
