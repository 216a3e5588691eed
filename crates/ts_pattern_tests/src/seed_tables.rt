//! What stands in the seed of each pattern, counted in the catalogue's tables.

use super::rows::word;
use std::alloc::Global;
use ts_base::{Join, Kind, Memory};
use ts_pattern::{PatternId, Plan, pattern_by_id, pattern_name, pattern_of};
use ts_seed::{joins_by_id, partner_by_id, seed_by_id, transducer_by_id};
use ts_token::number;
use ts_transducer::Row;
use ts_user::build_plan;

/// A pattern, the kinds of its states, how many residuals and configurations its plan has, its partner, and its
/// joins by the places of the states; counted in the tables.
static SEEDS: &str = "increasing I 2 2 decreasing none
decreasing I 2 2 increasing none
steady I 2 2 steady none
increasing_sequence IH 3 3 decreasing_sequence 11
decreasing_sequence IH 3 3 increasing_sequence 11
strictly_increasing_sequence IH 2 2 strictly_decreasing_sequence 11
strictly_decreasing_sequence IH 2 2 strictly_increasing_sequence 11
steady_sequence IH 2 2 steady_sequence 11
increasing_terrace IIP 4 4 decreasing_terrace 12,21,22
decreasing_terrace IIP 4 4 increasing_terrace 12,21,22
inflexion IPP 4 7 none none
peak IPH 5 6 peak 11,12,21
valley IPH 5 6 valley 11,12,21
plateau IIP 3 4 plateau 11,12,21,22
plain IIP 3 4 plain 11,12,21,22
proper_plateau IIP 4 4 proper_plateau 12,21,22
proper_plain IIP 4 4 proper_plain 12,21,22
summit IPPH 6 8 summit 11,13,23,31,32
gorge IPPH 6 8 gorge 11,13,23,31,32
zigzag IIIPPHH 9 11 zigzag 14,15,23,26,32,33,36,41,44,45,51,54,55,62,63,66
dip_on_increasing_sequence IIIPP 6 6 none none
bump_on_decreasing_sequence IIIPP 6 6 none none";

pub(super) fn seeds() -> &'static str {
    SEEDS
}

fn first_letter(kind: Kind) -> u8 {
    match kind {
        Kind::Idle => b'I',
        Kind::Pending => b'P',
        Kind::Held => b'H',
    }
}

/// Whether the states have the kinds with these first letters.
fn are_kinds(rows: &[Row], letters: &[u8]) -> bool {
    if rows.len() != letters.len() {
        return false;
    }
    for k in 0..rows.len() {
        if first_letter(rows[k].kind) != letters[k] {
            return false;
        }
    }
    true
}

/// The digit at a place of a text.
fn digit(text: &[u8], place: usize) -> Option<u8> {
    text.get(place)?.checked_sub(b'0')
}

/// Whether the joins are these: two digits each, and a comma between two of them.
fn are_joins(joins: &[Join], written: &[u8]) -> bool {
    if joins.is_empty() {
        return written == b"none".as_slice();
    }
    let mut place: usize = 0;
    for join in joins {
        let reverse = digit(written, place.saturating_add(1));
        if digit(written, place) != Some(join.forward) || reverse != Some(join.reverse) {
            return false;
        }
        place = place.saturating_add(3);
    }
    place == written.len().saturating_add(1)
}

fn name(id: Option<PatternId>) -> &'static [u8] {
    match id {
        Some(id) => pattern_name(id),
        None => b"none",
    }
}

/// Whether a plan has as many residuals and configurations as a row says.
fn has_size(plan: &Plan, row: &[u8]) -> bool {
    number(word(row, 2)) == Some(plan.residuals.len() as i64)
        && number(word(row, 3)) == Some(plan.configurations.len() as i64)
}

fn seed_holds(alloc: Global, id: PatternId, row: &[u8]) -> Result<bool, Memory> {
    let seed = seed_by_id(alloc, id)?;
    Ok(
        are_kinds(seed.transducer.rows(), word(row, 1))
            && has_size(&seed.plan, row)
            && name(seed.partner) == word(row, 4)
            && are_joins(&seed.joins, word(row, 5)),
    )
}

/// Whether the calls that give a part of the seed give that part of the table.
fn parts_hold(alloc: Global, id: PatternId, row: &[u8]) -> Result<bool, Memory> {
    let joins = joins_by_id(alloc, id)?;
    Ok(
        transducer_by_id(id).rows().len() == word(row, 1).len()
            && name(partner_by_id(id)) == word(row, 4)
            && are_joins(&joins, word(row, 5)),
    )
}

/// Whether the plan that is built for the seed's transducer is as large as the seed's own.
fn builds_as_large(alloc: Global, id: PatternId, row: &[u8]) -> Result<bool, Memory> {
    let pattern = pattern_by_id(alloc, id)?;
    match build_plan(alloc, &transducer_by_id(id), &pattern) {
        Ok(plan) => Ok(has_size(&plan, row)),
        Err(_) => Ok(false),
    }
}

/// Whether what stands in a seed is what its row says.
pub(super) fn is_counted(alloc: Global, row: &[u8]) -> Result<bool, Memory> {
    match pattern_of(word(row, 0)) {
        Some(id) => Ok(
            seed_holds(alloc, id, row)?
                && parts_hold(alloc, id, row)?
                && builds_as_large(alloc, id, row)?,
        ),
        None => Ok(false),
    }
}
