//! Live starts: where a match may begin, and what is left to read of the expression from there.
//!
//! Of equal residuals only the earliest start is kept, since what follows can't tell them apart and the match from
//! the earlier start contains the other. So there are never more live starts than the expression has residuals.

ghost use Rattle.std.specs.Prelude.{◌≡◌, ◌<◌, ◌==◌, ◌&&◌, not, [], ◌∷◌, ◌++◌, length, get_or, IfOk, OnOk};
ghost use Rattle.std.specs.List.{list_any};
ghost use Rattle.ts_regex.specs.Shape.{Empty};
ghost use Rattle.ts_regex.specs.Derivative.{has_word};
ghost use Rattle.ts_pattern.specs.Entries.{shapes, survivors, with_entry};
ghost use Rattle.ts_occurrence.specs.Residuals.{shapes_met, AreConsistent, Grows};
ghost use Rattle.ts_occurrence.specs.Live.{entry, entries_of, AreKnown, first_ending};

use crate::residuals::Residuals;
use std::alloc::Global;
use ts_base::{Letter, Memory};

/// The number of signs before the start, and the number of its residual.
#[derive(Clone, Copy, Drop)]
pub struct LiveStart {
    pub start: u32,
    pub residual: usize,
}

/// The live starts after the letter `l`, which is the sign number `read + 1`: a match may begin at it, too.
pub fn after_letter(
    alloc: Global,
    residuals: &mut Residuals,
    mut live: Vec<LiveStart>,
    read: u32,
    l: Letter,
) -> Result<Vec<LiveStart>, Memory>
    requires whole { 0 < length residuals.old.met.items }
    requires right { AreConsistent residuals.old.met.items }
    requires known { AreKnown (shapes_met residuals.old.met.items) live.items }
    ensures right { OnOk result (AreConsistent residuals.new.met.items) }
    ensures grown { OnOk result (Grows (shapes_met residuals.old.met.items) (shapes_met residuals.new.met.items)) }
    ensures known { IfOk result (λ v. AreKnown (shapes_met residuals.new.met.items) v.items) }
    ensures exact { IfOk result (λ v. entries_of (shapes_met residuals.new.met.items) v.items
        ≡ survivors shapes l (entries_of (shapes_met residuals.old.met.items) live.items
        ++ entry read (get_or (shapes_met residuals.old.met.items) 0 Empty) ∷ [])) }
{
    live.push(LiveStart {
        start: read,
        residual: 0,
    })?;
    survivors(alloc, residuals, &live, l)
}

/// What the letter leaves of the live starts.
fn survivors(
    alloc: Global,
    residuals: &mut Residuals,
    live: &[LiveStart],
    l: Letter,
) -> Result<Vec<LiveStart>, Memory>
    requires right { AreConsistent residuals.old.met.items }
    requires known { AreKnown (shapes_met residuals.old.met.items) live.now }
    ensures right { OnOk result (AreConsistent residuals.new.met.items) }
    ensures grown { OnOk result (Grows (shapes_met residuals.old.met.items) (shapes_met residuals.new.met.items)) }
    ensures known { IfOk result (λ v. AreKnown (shapes_met residuals.new.met.items) v.items) }
    ensures exact { IfOk result (λ v. entries_of (shapes_met residuals.new.met.items) v.items
        ≡ survivors shapes l (entries_of (shapes_met residuals.old.met.items) live.now)) }
{
    let mut kept = Vec::new(alloc);
    for k in 0..live.len() {
        let start = live[k].start;
        let rest = residuals.after(alloc, live[k].residual, l)?;
        keep(&mut kept, residuals, start, rest)?;
    }
    Ok(kept)
}

/// Keeps a start with what is left to read from it, where that has a word and no earlier start has it.
fn keep(
    kept: &mut Vec<LiveStart>,
    residuals: &Residuals,
    start: u32,
    rest: usize,
) -> Result<(), Memory>
    requires there { rest < length residuals.now.met.items }
    requires right { AreConsistent residuals.now.met.items }
    requires known { AreKnown (shapes_met residuals.now.met.items) kept.old.items }
    ensures known { OnOk result (AreKnown (shapes_met residuals.now.met.items) kept.new.items) }
    ensures exact { OnOk result (entries_of (shapes_met residuals.now.met.items) kept.new.items
        ≡ with_entry shapes (entries_of (shapes_met residuals.now.met.items) kept.old.items)
        (entry start (get_or (shapes_met residuals.now.met.items) rest Empty))) }
{
    if is_new(kept, residuals, rest) {
        kept.push(LiveStart {
            start,
            residual: rest,
        })?;
    }
    Ok(())
}

/// Whether the residual has a word, and no earlier start has it.
fn is_new(kept: &[LiveStart], residuals: &Residuals, rest: usize) -> bool
    requires there { rest < length residuals.now.met.items }
    requires right { AreConsistent residuals.now.met.items }
    ensures { result ≡ (has_word (get_or (shapes_met residuals.now.met.items) rest Empty)
        && not (list_any (λ x. x.residual == rest) kept.now)) }
{
    residuals.has_word(rest) && !stands(kept, rest)
}

/// Whether a start is kept with this residual.
fn stands(kept: &[LiveStart], rest: usize) -> bool
    ensures { result ≡ list_any (λ x. x.residual == rest) kept.now }
{
    kept.iter().any(|x| x.residual == rest)
}

/// The first start from which a match ends at the sign just read.
pub fn first_ending(residuals: &Residuals, live: &[LiveStart]) -> Option<u32>
    requires right { AreConsistent residuals.now.met.items }
    requires known { AreKnown (shapes_met residuals.now.met.items) live.now }
    ensures { result ≡ first_ending (entries_of (shapes_met residuals.now.met.items) live.now) }
{
    for x in live {
        if residuals.nullable(x.residual) {
            return Some(x.start);
        }
    }
    None
}
