//! Each call of `ts_occurrence` once. The ranges and values of the catalogue's patterns are in `examples/rows`, and
//! `seeds` goes through all short signatures.

use super::expressions::letters;
use std::alloc::Global;
use ts_base::{Ext, Letter, Memory, Range};
use ts_occurrence::{occurrences, part, signature, value};
use ts_pattern::{Aggregator, Feature, Pattern, PatternId, Term};
use ts_regex::{Regex, star};

/// Any number of `=`, without the first cell: the empty word is one of its words, and yet no match.
fn levels_of(alloc: Global, w: &[Letter]) -> Result<Vec<Range>, Memory> {
    let pattern = Pattern {
        regex: star(alloc, Regex::One(Letter::Equal))?,
        b: 1,
        a: 0,
    };
    if w.len() > 1000 {
        return Ok(Vec::new(alloc));
    }
    occurrences(alloc, &pattern, w)
}

fn has_levels(alloc: Global) -> Result<bool, Memory> {
    let ranges = [Range { first: 3, last: 4 }, Range { first: 6, last: 6 }];
    let found = levels_of(alloc, &letters(alloc, b"<==<=")?)?;
    Ok(found.as_slice() == ranges.as_slice())
}

/// Four cells of 1 3 3 2 2 1 4 are a peak.
fn has_a_peak(alloc: Global) -> Result<bool, Memory> {
    let signs = signature(alloc, &[1, 3, 3, 2, 2, 1, 4])?;
    let Some(width) = Term::new(Aggregator::Sum, Feature::Width, PatternId::Peak) else {
        return Ok(false);
    };
    Ok(
        signs.as_slice() == letters(alloc, b"<=>=><")?.as_slice()
            && value(alloc, &width, &[1, 3, 3, 2, 2, 1, 4])? == Ext::Int(4),
    )
}

#[test]
fn occurrences_and_values(rt: HostRuntime) {
    assert!(rt; has_levels(rt.alloc()) == Ok(true));
    assert!(rt; has_a_peak(rt.alloc()) == Ok(true));
    let two = part(Range { first: 2, last: 3 }, &[4, 5, 6, 7]);
    assert!(rt; two == [5, 6].as_slice());
    let last = part(Range { first: 4, last: 4 }, &[4, 5, 6, 7]);
    assert!(rt; last == [7].as_slice());
}
