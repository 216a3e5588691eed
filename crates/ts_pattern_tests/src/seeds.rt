//! The seeds against the definition: on every signature of up to six letters the decoder of a pattern's seed emits what
//! `occurrences` lists.

ghost use Rattle.std.specs.Prelude.{◌≤◌};
ghost use Rattle.ts_pattern.specs.Trims.{FitsTrims};
ghost use Rattle.ts_regex.specs.Shape.{shape_of};

use std::alloc::Global;
use ts_base::{Letter, Memory};
use ts_occurrence::occurrences;
use ts_pattern::{Pattern, PatternId, pattern_by_id};
use ts_seed::{Seed, seed_by_id};
use ts_transducer::decoded;

/// How many signatures have that many letters.
fn count_of(letters: usize) -> u32 {
    match letters {
        0 => 1,
        1 => 3,
        2 => 9,
        3 => 27,
        4 => 81,
        5 => 243,
        _ => 729,
    }
}

/// The signature whose letters are the digits of `number` to the base 3, as many as `length`.
fn signature_of(alloc: Global, length: usize, number: u32) -> Result<Vec<Letter>, Memory> {
    let mut rest = number;
    let mut letters = Vec::new(alloc);
    for _ in 0..length {
        letters.push(match rest % 3 {
            0 => Letter::Less,
            1 => Letter::Equal,
            _ => Letter::Greater,
        })?;
        rest /= 3;
    }
    Ok(letters)
}

/// Whether the decoder of a seed emits what is listed on this signature.
fn finds(
    alloc: Global,
    pattern: &Pattern,
    seed: &Seed,
    signature: &[Letter],
) -> Result<bool, Memory>
    requires fits { FitsTrims (shape_of pattern.now.regex) pattern.now.b pattern.now.a }
    requires trim { pattern.now.a ≤ 1 }
{
    if 1000 < signature.len() {
        return Ok(false);
    }
    let emitted = decoded(alloc, &seed.transducer, pattern.a, signature)?;
    let listed = occurrences(alloc, pattern, signature)?;
    Ok(emitted.as_slice() == listed.as_slice())
}

/// The first signature of that many letters, by its number, on which it emits something else.
fn first_wrong(
    alloc: Global,
    pattern: &Pattern,
    seed: &Seed,
    length: usize,
) -> Result<Option<u32>, Memory>
    requires fits { FitsTrims (shape_of pattern.now.regex) pattern.now.b pattern.now.a }
    requires trim { pattern.now.a ≤ 1 }
{
    for number in 0..count_of(length) {
        if !finds(alloc, pattern, seed, &signature_of(alloc, length, number)?)? {
            return Ok(Some(number));
        }
    }
    Ok(None)
}

fn wrong_of(alloc: Global, id: PatternId, length: usize) -> Result<Option<u32>, Memory> {
    let pattern = pattern_by_id(alloc, id)?;
    let seed = seed_by_id(alloc, id)?;
    first_wrong(alloc, &pattern, &seed, length)
}

#[test]
fn seeds_find_the_occurrences(rt: HostRuntime) {
    for id in PatternId::ALL {
        for length in 0..7 {
            assert!(rt;
                wrong_of(rt.alloc(), id, length) == Ok(None),
                "{id:?} {length}"
            );
        }
    }
}
