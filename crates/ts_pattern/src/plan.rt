//! Plans: the table that shows a transducer to find the occurrences of a pattern.
//!
//! A start is a sign at which a match may begin, and its residual is what the signs read from there on leave of
//! the pattern's expression. A configuration lists the starts that still matter, earliest first, one for each
//! residual that has a word; the tag says how the cell of a start, after its trim, stands to the decoder.

ghost use Rattle.std.specs.Prelude.{◌≡◌, ◌&&◌, nat_lt, map, IfOk};
ghost use Rattle.std.specs.List.{list_all};
ghost use Rattle.ts_regex.specs.Shape.{shape_of};
ghost use Rattle.ts_regex.specs.NormalForm.{same_shape};
ghost use Rattle.ts_pattern.specs.Closed.{first_passes};
ghost use Rattle.ts_pattern.specs.Plans.{plain_configuration, plain_plan, is_blank, is_plan_of};

use crate::pattern::Pattern;
use std::alloc::Global;
use ts_base::Memory;
use ts_regex::{Regex, normal};

/// Where the first cell of a start's range stands, after the signs read.
#[derive(Clone, Copy, Debug, PartialEq, Eq)]
pub enum Tag {
    /// So many signs, at least one, are still to come before the sign of that cell.
    Young(u8),
    /// The next sign is that of the cell.
    Due,
    /// The decoder keeps it as its start.
    InD,
    /// The held range begins with it.
    InC,
    /// None of these.
    Loose,
}

/// The earliest start with its residual, by the residual's number.
#[derive(Clone, Copy, Debug, PartialEq, Eq)]
pub struct Live {
    pub residual: u32,
    pub tag: Tag,
}

/// A state of the transducer, and the live starts in their order.
#[derive(Debug, Drop)]
pub struct Configuration {
    pub state: u8,
    pub live: Vec<Live>,
}

/// The residuals, the first of them the whole pattern in normal form, and the configurations, the first of them
/// the start state with no live entry. A seed's plan numbers its residuals in the order in which they first stand.
#[derive(Debug, Drop)]
pub struct Plan {
    pub residuals: Vec<Regex>,
    pub configurations: Vec<Configuration>,
}

impl Plan {
    /// Whether this is a plan of the pattern: its first residual is the pattern in normal form, its first
    /// configuration the start state with no live entry, and each residual number exists.
    pub fn is_of(&self, alloc: Global, pattern: &Pattern) -> Result<bool, Memory>
        ensures { IfOk result (λ r. r ≡ is_plan_of (shape_of pattern.now.regex) (plain_plan self.now)) }
    {
        let whole = normal(alloc, &pattern.regex)?;
        let residuals = self.residuals.as_slice();
        let first = begins_with(residuals, &whole);
        let blank = starts_blank(&self.configurations);
        let known = all_known(&self.configurations, residuals.len());
        Ok(each_holds(first, blank, known))
    }
}

/// Whether there is a first residual, and it is this one.
fn begins_with(residuals: &[Regex], whole: &Regex) -> bool
    ensures { result ≡ first_passes (λ r. same_shape r (shape_of whole.now)) (map (λ r. shape_of r) residuals.now) }
{
    match residuals {
        [first, ..] => first.same(whole),
        [] => false,
    }
}

/// Whether there is a first configuration, and it is the start state with no live entry.
fn starts_blank(configurations: &[Configuration]) -> bool
    ensures { result ≡ first_passes (λ x. is_blank x) (map (λ x. plain_configuration x) configurations.now) }
{
    match configurations {
        [first, ..] => first.state == 0 && first.live.is_empty(),
        [] => false,
    }
}

/// Whether each entry's residual is one of so many.
fn each_known(live: &[Live], count: usize) -> bool
    ensures { result ≡ list_all (λ e. nat_lt e.residual count) live.now }
{
    live.iter().all(|e| (e.residual as usize) < count)
}

/// Whether each residual number is one of so many.
fn all_known(configurations: &[Configuration], count: usize) -> bool
    ensures { result ≡ list_all (λ x. list_all (λ e. nat_lt e.residual count) x.live.items) configurations.now }
{
    configurations.iter().all(|x| each_known(&x.live, count))
}

/// All three, under one name for the proof.
fn each_holds(a: bool, b: bool, c: bool) -> bool
    ensures { result ≡ (a && (b && c)) }
{
    a && b && c
}
