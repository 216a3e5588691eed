//! The occurrences of a pattern in a signature, found one letter at a time.
//!
//! Take the starts of the matches that end at the letter just read. Without one the occurrences stay. Else the match
//! from the least of them contains each match that starts there or later: those go, and it comes last. So the
//! occurrences stand on a stack, and no two places are ever compared.

ghost use Rattle.std.specs.Prelude.{◌≡◌, ◌<◌, ◌≤◌, ◌+◌, length, IfOk, IfSome};
ghost use Rattle.ts_base.specs.Limits.{too_many};
ghost use Rattle.ts_regex.specs.Shape.{shape_of};
ghost use Rattle.std.specs.List.{AllByRecursion};
ghost use Rattle.ts_pattern.specs.Trims.{FitsTrims};
ghost use Rattle.ts_pattern.specs.OccurrenceList.{AreRanges};
ghost use Rattle.ts_pattern.specs.AllOccurrences.{occurrence_ranges};
ghost use Rattle.ts_transducer.specs.Inside.{IsInside};
ghost use Rattle.ts_occurrence.specs.Noted.{IsCut, IsNoted};

use crate::live::{after_letter, first_ending};
use crate::residuals::Residuals;
use std::alloc::Global;
use ts_base::{Letter, Memory, Range};
use ts_pattern::Pattern;
use ts_regex::normal;

/// The e-ranges of all maximal matches of the pattern and of no others, by rising start: the cells `i+b` to `j+1-a`
/// of the signs `i` to `j` (Global Constraint Catalog, Volume II). Each word of the pattern with a letter has at least
/// `b + a` letters, so that each e-range has a cell and lies in the series.
pub fn occurrences(alloc: Global, p: &Pattern, w: &[Letter]) -> Result<Vec<Range>, Memory>
    requires few { length w.now < too_many }
    requires fits { FitsTrims (shape_of p.now.regex) p.now.b p.now.a }
    ensures exact { IfOk result (λ v. v.items ≡ occurrence_ranges (shape_of p.now.regex) p.now.b p.now.a w.now) }
    ensures listed { IfOk result (λ v. AreRanges (shape_of p.now.regex) p.now.b p.now.a w.now v.items) }
    ensures inside { IfOk result (λ v. AllByRecursion (λ r. IsInside (length w.now + 1) r) v.items) }
{
    Ok(maximal_matches(alloc, p, w)?)
}

/// The e-ranges of the maximal matches, by the definition over matches.
fn maximal_matches(alloc: Global, p: &Pattern, w: &[Letter]) -> Result<Vec<Range>, Memory>
    requires { length w.now < too_many }
    ensures { IfOk result (λ v. AreRanges (shape_of p.now.regex) p.now.b p.now.a w.now v.items) }
{
    let mut residuals = Residuals::of(alloc, normal(alloc, &p.regex)?)?;
    let mut live = Vec::new(alloc);
    let mut found = Vec::new(alloc);
    for k in 0..w.len() {
        live = after_letter(alloc, &mut residuals, live, k as u32, w[k])?;
        let ending = first_ending(&residuals, &live);
        note(&mut found, ending, k as u32, p.b, p.a)?;
    }
    Ok(found)
}

/// Notes the match from `ending`, the least start of one that ends at the sign number `read + 1`.
fn note(found: &mut Vec<Range>, ending: Option<u32>, read: u32, b: u8, a: u8) -> Result<(), Memory>
    requires few { read < too_many }
    requires earlier { IfSome ending (λ start. start ≤ read) }
    ensures { IfOk result (λ _. IsNoted b a read ending found.old.items found.new.items) }
{
    if let Some(start) = ending {
        let first = start + 1 + u32::from(b);
        let kept = begun_before(found.as_slice(), first);
        found.truncate(kept);
        found.push(Range {
            first,
            last: (read + 2).saturating_sub(u32::from(a)),
        })?;
    }
    Ok(())
}

/// The number of the first ranges, up to the last one that begins before the cell.
fn begun_before(found: &[Range], cell: u32) -> usize
    ensures { IsCut found.now cell result }
{
    let mut kept = found.len();
    while kept > 0 && found[kept - 1].first >= cell {
        kept -= 1;
    }
    kept
}
