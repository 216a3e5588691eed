//! The tables that are one literal each: all of their rows hold.

use super::{certificates, expressions, marked, models, seed_tables};
use std::alloc::Global;
use ts_base::{Memory, first_line, without_lf};

/// What the rows of a table say.
#[derive(Clone, Copy)]
enum Claim {
    NormalForm,
    Residuals,
    Derivatives,
    Kind,
    Word,
    Seed,
    Marks,
    Held,
    Certificate,
}

fn holds(alloc: Global, claim: Claim, row: &[u8]) -> Result<bool, Memory> {
    match claim {
        Claim::NormalForm => expressions::has_normal_form(alloc, row),
        Claim::Residuals => expressions::has_left(alloc, row, true),
        Claim::Derivatives => expressions::has_left(alloc, row, false),
        Claim::Kind => expressions::has_kind(alloc, row),
        Claim::Word => expressions::has_word_told(alloc, row),
        Claim::Seed => seed_tables::is_counted(alloc, row),
        Claim::Marks => marked::marks_as_named(alloc, row),
        Claim::Held => models::is_held(alloc, row),
        Claim::Certificate => certificates::is_told(alloc, row),
    }
}

/// The first row that doesn't hold, counted from 1.
fn first_wrong(alloc: Global, claim: Claim, rows: &str) -> Result<Option<u32>, Memory> {
    let mut place: u32 = 0;
    let mut rest = rows.as_bytes();
    while !rest.is_empty() {
        let (line, after) = first_line(rest);
        place = place.saturating_add(1);
        if !holds(alloc, claim, without_lf(line).unwrap_or(line))? {
            return Ok(Some(place));
        }
        rest = after;
    }
    Ok(None)
}

#[test]
fn all_rows(rt: HostRuntime) {
    for (claim, name, rows) in [
        (
            Claim::NormalForm,
            "normal forms of patterns",
            expressions::tables::patterns(),
        ),
        (
            Claim::NormalForm,
            "normal forms",
            expressions::tables::forms(),
        ),
        (
            Claim::Residuals,
            "residuals",
            expressions::tables::residuals(),
        ),
        (
            Claim::Derivatives,
            "derivatives",
            expressions::tables::derivatives(),
        ),
        (Claim::Kind, "kinds", expressions::tables::kinds()),
        (Claim::Word, "words", expressions::tables::words()),
        (Claim::Seed, "seeds", seed_tables::seeds()),
        (Claim::Marks, "marks", marked::patterns()),
        (Claim::Held, "models", models::held()),
        (Claim::Certificate, "certificates", certificates::texts()),
    ] {
        assert!(rt; first_wrong(rt.alloc(), claim, rows) == Ok(None), "{name}");
    }
}
