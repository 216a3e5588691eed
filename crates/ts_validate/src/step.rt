//! The step of a configuration by the numbers of its residuals.

ghost use Rattle.std.specs.Prelude.{◌≡◌, ◌&&◌, not, map, slice_get, IfOk};
ghost use Rattle.std.specs.List.{list_all, list_any, position, zip};
ghost use Rattle.ts_pattern.specs.Entries.{derive_entry, survivors, with_entry};
ghost use Rattle.ts_pattern.specs.Closed.{same_tag, tag_after, retag_entries, with_start, same_live, same_configuration};
ghost use Rattle.ts_pattern.specs.Plans.{plain_live, plain_configuration};
ghost use Rattle.ts_validate.specs.Looks.{look_of, row_or};
ghost use Rattle.ts_validate.specs.Numbers.{numbers, numbered_subject, is_listed, configuration_after};
ghost use Rattle.ts_validate.specs.Numbers.{next_place, number_meets};
ghost use Rattle.ts_validate.specs.Numbers.{plain_lives, plain_configurations, kept_at};

use crate::facts::{Kept, kept_agree};
use crate::knowledge::{Knowledge, look_up};
use crate::tags::{first_tag, none_kept, same_tag, tag_after};
use std::alloc::Global;
use ts_base::{Letter, Memory};
use ts_pattern::{Configuration, Live};
use ts_transducer::{Arrow, Phase, Row};

/// Whether an entry that is kept has the residual of this number.
fn stands(table: &[Knowledge], residual: u32, kept: &[Live]) -> bool
    ensures { result ≡ list_any (λ k. (numbers table.now).same k.residual residual) kept.now }
{
    kept.iter().any(|k| look_up(table, k.residual).own == look_up(table, residual).own)
}

/// Whether the residual has a word and no entry that is kept has it.
fn is_new(table: &[Knowledge], residual: u32, kept: &[Live]) -> bool
    ensures { result ≡ ((numbers table.now).has_word residual
        && not (list_any (λ k. (numbers table.now).same k.residual residual) kept.now)) }
{
    residual as usize != table.len() && !stands(table, residual, kept)
}

/// Adds what the letter leaves of an entry: nothing where its residual has no word, or is that of an earlier one.
fn add_left(
    table: &[Knowledge],
    letter: Letter,
    entry: Live,
    kept: &mut Vec<Live>,
) -> Result<(), Memory>
    ensures { IfOk result (λ _. plain_lives kept.new.items
        ≡ with_entry (numbers table.now) (plain_lives kept.old.items)
        (derive_entry (numbers table.now) letter (plain_live entry))) }
{
    let residual = look_up(table, entry.residual).next(letter);
    let new = is_new(table, residual, kept);
    if new {
        kept.push(Live {
            residual,
            tag: entry.tag,
        })?;
    }
    Ok(())
}

/// The entries that the letter leaves, with their tags before it.
fn left(
    alloc: Global,
    table: &[Knowledge],
    letter: Letter,
    b: u8,
    live: &[Live],
) -> Result<Vec<Live>, Memory>
    ensures { IfOk result (λ v. plain_lives v.items
        ≡ survivors (numbers table.now) letter (with_start tt 0 b (plain_lives live.now))) }
{
    let mut kept = Vec::new(alloc);
    for entry in live {
        add_left(table, letter, *entry, &mut kept)?;
    }
    let new = Live {
        residual: 0,
        tag: first_tag(b),
    };
    add_left(table, letter, new, &mut kept)?;
    Ok(kept)
}

/// Whether a residual after the letter is listed, or has no word.
fn is_listed(table: &[Knowledge], letter: Letter, residual: u32) -> bool
    ensures { result ≡ is_listed table.now letter residual }
{
    look_up(table, residual).next(letter) as usize <= table.len()
}

/// Whether each entry has a residual that is listed after the letter, or has no word there.
fn each_listed(table: &[Knowledge], letter: Letter, live: &[Live]) -> bool
    ensures { result ≡ list_all (λ e. is_listed table.now letter e.residual) live.now }
{
    live.iter().all(|e| is_listed(table, letter, e.residual))
}

/// Whether that holds of each entry, and of the start at the sign now read.
fn all_listed(table: &[Knowledge], letter: Letter, live: &[Live]) -> bool
    ensures { result ≡ (list_all (λ e. is_listed table.now letter e.residual) live.now
        && is_listed table.now letter 0) }
{
    each_listed(table, letter, live) && is_listed(table, letter, 0)
}

/// Whether a listed entry is the one that is kept, with its tag after the step.
fn same_entry(table: &[Knowledge], phase: Phase, free: bool, listed: Live, kept: Live) -> bool
    ensures { result ≡ ((numbers table.now).same listed.residual kept.residual
        && same_tag listed.tag (tag_after phase free kept.tag)) }
{
    look_up(table, listed.residual).own == look_up(table, kept.residual).own
        && same_tag(listed.tag, tag_after(phase, free, kept.tag))
}

fn each_same(table: &[Knowledge], phase: Phase, free: bool, listed: &[Live], kept: &[Live]) -> bool
    ensures { result ≡ list_all (λ p. (numbers table.now).same p.0.residual p.1.residual
        && same_tag p.0.tag (tag_after phase free p.1.tag)) (zip listed.now kept.now) }
{
    listed
        .iter()
        .zip(kept)
        .all(|(x, e)| same_entry(table, phase, free, *x, *e))
}

/// Whether the listed entries are those that are kept.
fn same_live(table: &[Knowledge], phase: Phase, free: bool, listed: &[Live], kept: &[Live]) -> bool
    ensures { result
        ≡ same_live (numbers table.now) (plain_lives listed.now) (retag_entries phase free (plain_lives kept.now)) }
{
    listed.len() == kept.len() && each_same(table, phase, free, listed, kept)
}

/// Whether a listed configuration is the state with the kept entries, with their tags after the step.
fn is_same(
    table: &[Knowledge],
    arrow: Arrow,
    free: bool,
    kept: &[Live],
    listed: &Configuration,
) -> bool
    ensures { result ≡ same_configuration (numbers table.now) (plain_configuration listed.now)
        (configuration_after arrow free kept.now) }
{
    let live = listed.live.as_slice();
    listed.state == arrow.next && same_live(table, arrow.phase, free, live, kept)
}

/// Where the step is listed first.
fn place(
    table: &[Knowledge],
    arrow: Arrow,
    free: bool,
    kept: &[Live],
    configurations: &[Configuration],
) -> Option<usize>
    ensures { result ≡ position
        (λ y. same_configuration (numbers table.now) (plain_configuration y)
        (configuration_after arrow free kept.now))
        configurations.now }
{
    configurations
        .iter()
        .position(|listed| is_same(table, arrow, free, kept, listed))
}

/// The row of a state; past the last row one that rests.
pub fn row(rows: &[Row], state: u8) -> Row
    ensures { result ≡ row_or (slice_get rows.now state) }
{
    match rows.get(state as usize) {
        Some(row) => *row,
        None => Row::default(),
    }
}

/// The entries that are kept, as the checks see them.
fn seen(alloc: Global, table: &[Knowledge], kept: &[Live]) -> Result<Vec<Kept>, Memory>
    ensures { IfOk result (λ v. v.items ≡ map (λ e. kept_at table.now e) kept.now) }
{
    let mut seen = Vec::with_capacity(alloc, kept.len())?;
    for entry in kept {
        seen.push(Kept {
            words: look_up(table, entry.residual).words,
            tag: entry.tag,
        })?;
    }
    Ok(seen)
}

/// What a step shows: the place at which it is listed first, if it is, and whether the six checks hold.
#[derive(Clone, Copy)]
pub struct Look {
    pub next: Option<usize>,
    pub meets: bool,
}

/// The step of a configuration on a letter.
pub fn look_at(
    alloc: Global,
    rows: &[Row],
    table: &[Knowledge],
    b: u8,
    configurations: &[Configuration],
    here: &Configuration,
    letter: Letter,
) -> Result<Look, Memory>
    ensures next { IfOk result (λ k. k.next
        ≡ next_place table.now (numbered_subject rows.now table.now b (plain_configurations configurations.now))
        (plain_configuration here.now) letter) }
    ensures meets { IfOk result (λ k. k.meets
        ≡ number_meets table.now (numbered_subject rows.now table.now b (plain_configurations configurations.now))
        (plain_configuration here.now) letter) }
{
    let live = here.live.as_slice();
    let arrow = row(rows, here.state).arrow(letter);
    let kept = left(alloc, table, letter, b, live)?;
    let free = none_kept(live);
    let listed = all_listed(table, letter, live);
    let kind = row(rows, arrow.next).kind;
    let seen = seen(alloc, table, kept.as_slice())?;
    let agree = kept_agree(arrow.phase, kind, free, seen.as_slice());
    let next = place(table, arrow, free, kept.as_slice(), configurations);
    Ok(looked(listed, next, agree))
}

/// The step shows nothing where a residual that has a word isn't listed.
fn looked(listed: bool, next: Option<usize>, agree: bool) -> Look
    ensures { result ≡ look_of listed next agree }
{
    if listed {
        Look {
            next,
            meets: next.is_some() && agree,
        }
    } else {
        Look {
            next: None,
            meets: false,
        }
    }
}
