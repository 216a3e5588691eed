//! The feature `range` on all series of five cells from 0 to 2: a digest of the 243 values of each pattern and
//! aggregator, which a program outside worked out by the definition, from all parts of each signature. The machine
//! answers them, and where it can be split they are glued at each cell, and its reverse automaton answers them, too.

ghost use Rattle.std.specs.Prelude.{◌<◌};

use super::glued::{has_partner, is_glued};
use super::terms::answer;
use std::alloc::Global;
use ts_base::{Ext, Memory};
use ts_compile::compile_term;
use ts_glue::Machine;
use ts_pattern::{Aggregator, Feature, PatternId, Term};

/// Under `sum`, `max` and `min`.
type Digests = [u64; 3];

static DIGESTS: [(PatternId, Digests); 22] = [
    (PatternId::Increasing, [21584153, 7788817, 15693134]),
    (PatternId::Decreasing, [4423390, 21380240, 12660776]),
    (PatternId::Steady, [0, 1805471, 22348334]),
    (PatternId::IncreasingSequence, [21584153, 30770667, 1620529]),
    (PatternId::DecreasingSequence, [4423390, 1067180, 2906006]),
    (
        PatternId::StrictlyIncreasingSequence,
        [21584153, 17970178, 19820133],
    ),
    (
        PatternId::StrictlyDecreasingSequence,
        [4423390, 25021035, 26859861],
    ),
    (PatternId::SteadySequence, [0, 1805471, 22348334]),
    (PatternId::IncreasingTerrace, [0, 5172789, 4171023]),
    (PatternId::DecreasingTerrace, [0, 11087713, 4331696]),
    (PatternId::Inflexion, [25716143, 27356048, 26030425]),
    (PatternId::Peak, [1570026, 8492114, 15380685]),
    (PatternId::Valley, [1646534, 15748563, 3900548]),
    (PatternId::Plateau, [0, 6922088, 13810659]),
    (PatternId::Plain, [0, 14102029, 2254014]),
    (PatternId::ProperPlateau, [0, 16867601, 3093401]),
    (PatternId::ProperPlain, [0, 16069165, 22548071]),
    (PatternId::Summit, [2593801, 12265279, 19125795]),
    (PatternId::Gorge, [16996928, 3646690, 2517607]),
    (PatternId::Zigzag, [25247268, 15287004, 5266160]),
    (PatternId::DipOnIncreasingSequence, [0, 19616991, 5814736]),
    (PatternId::BumpOnDecreasingSequence, [0, 19616991, 5814736]),
];

// The table behind a function, so that the proofs don't read it.
fn digests() -> &'static [(PatternId, Digests)] {
    &DIGESTS
}

const AGGREGATORS: [Aggregator; 3] = [Aggregator::Sum, Aggregator::Max, Aggregator::Min];

/// What stands for a value in a digest.
fn code(value: Ext) -> u64 {
    match value {
        Ext::NegInf => 98,
        Ext::PosInf => 97,
        Ext::Int(n) => { if 0 <= n && n < 90 { n as u64 } else { 99 } }
    }
}

/// The digest with one value more.
fn mixed(digest: u64, value: Ext) -> u64 {
    digest % 1_000_003 * 31 + code(value) % 100
}

/// The series at a place of the list.
fn series_at(place: i64) -> [i64; 5] {
    [
        place / 81 % 3,
        place / 27 % 3,
        place / 9 % 3,
        place / 3 % 3,
        place % 3,
    ]
}

/// The digest of the values of a machine. None where another value is glued at a cell, or the machine can be split
/// where it may not.
fn digest_of(machine: &Machine, splits: bool) -> Option<u64> {
    if machine.reverse().is_some() != splits {
        return None;
    }
    let mut digest = 0;
    for place in 0..243 {
        let series = series_at(place);
        let value = answer(machine.forward(), series.as_slice());
        if splits && !is_glued(machine, series.as_slice(), value) {
            return None;
        }
        digest = mixed(digest, value);
    }
    Some(digest)
}

/// Whether the term with the aggregator at this place has the digest.
fn term_holds(
    alloc: Global,
    pattern: PatternId,
    digests: &Digests,
    place: usize,
) -> Result<bool, Memory>
    requires { place < 3 }
{
    match Term::new(AGGREGATORS[place], Feature::Range, pattern) {
        Some(term) => {
            let machine = compile_term(alloc, &term)?;
            Ok(digest_of(&machine, has_partner(pattern)) == Some(digests[place]))
        }
        None => Ok(false),
    }
}

/// Whether all three hold.
fn pattern_holds(alloc: Global, pattern: PatternId, digests: &Digests) -> Result<bool, Memory> {
    for place in 0..3 {
        if !term_holds(alloc, pattern, digests, place)? {
            return Ok(false);
        }
    }
    Ok(true)
}

#[test]
fn ranges_of_all_short_series(rt: HostRuntime) {
    for (pattern, wanted) in digests() {
        assert!(rt;
            pattern_holds(rt.alloc(), *pattern, wanted) == Ok(true),
            "{pattern:?}"
        );
    }
}
