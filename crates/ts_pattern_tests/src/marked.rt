//! The 22 patterns of the catalogue, each written out with its expression and its transducer, as a user states a
//! pattern that isn't in it: they mark what the catalogue's names mark, in all series of six cells of three values.
//!
//! The table is one literal of rows: a name, how many occurrences all those series have together, a `|`, and the text,
//! in which `/` stands for LF. The numbers were found by trying the expressions on all parts of the signatures.

use super::rows::{halves, text_of, word};
use std::alloc::Global;
use ts_base::{Memory, Range};
use ts_mark::marks;
use ts_token::{cut_tokens, number};
use ts_user::{UserKind, UserPattern, UserStop, build_plan, read_pattern, read_pattern_text};
use ts_validate::{Validated, validate};

static PATTERNS: &str = "\
increasing 1215|pattern </trim 0 0/state s idle/move s < found_e s/move s = out s/move s > out s
decreasing 1215|pattern >/trim 0 0/state s idle/move s < out s/move s = out s/move s > found_e s
steady 1215|pattern =/trim 0 0/state s idle/move s < out s/move s = found_e s/move s > out s
increasing_sequence 1073|pattern <(<|=)*<|</trim 0 0/state s idle/state t held/move s < found t/move s = out s/\
move s > out s/move t < in t/move t = maybe_a t/move t > out_a s
decreasing_sequence 1073|pattern >(>|=)*>|>/trim 0 0/state s idle/state t held/move s < out s/move s = out s/\
move s > found t/move t < out_a s/move t = maybe_a t/move t > in t
strictly_increasing_sequence 1107|pattern <+/trim 0 0/state s idle/state t held/move s < found t/move s = out s/\
move s > out s/move t < in t/move t = out_a s/move t > out_a s
strictly_decreasing_sequence 1107|pattern >+/trim 0 0/state s idle/state t held/move s < out s/move s = out s/\
move s > found t/move t < out_a s/move t = out_a s/move t > in t
steady_sequence 891|pattern =+/trim 0 0/state s idle/state t held/move s < out s/move s = found t/move s > out s/\
move t < out_a s/move t = in t/move t > out_a s
increasing_terrace 34|pattern <=+</trim 1 1/state s idle/state r idle/state t pending/move s < out r/\
move s = out s/move s > out s/move r < out r/move r = maybe_b t/move r > out s/move t < found_e r/\
move t = maybe_b t/move t > out_r s
decreasing_terrace 34|pattern >=+>/trim 1 1/state s idle/state r idle/state t pending/move s < out s/\
move s = out s/move s > out r/move r < out s/move r = maybe_b t/move r > out r/move t < out_r s/move t = maybe_b t/\
move t > found_e r
inflexion 1420|pattern <(<|=)*>|>(>|=)*</trim 1 1/state s idle/state r pending/state t pending/move s < out r/\
move s = out s/move s > out t/move r < maybe_b r/move r = maybe_b r/move r > found_e t/move t < found_e r/\
move t = maybe_b t/move t > maybe_b t
peak 710|pattern <(=|<)*(>|=)*>/trim 1 1/state s idle/state r pending/state t held/move s < out r/move s = out s/\
move s > out s/move r < maybe_b r/move r = maybe_b r/move r > found t/move t < out_a r/move t = maybe_a t/\
move t > in t
valley 710|pattern >(=|>)*(<|=)*</trim 1 1/state s idle/state r pending/state t held/move s < out s/move s = out s/\
move s > out r/move r < found t/move r = maybe_b r/move r > maybe_b r/move t < in t/move t = maybe_a t/\
move t > out_a r
plateau 710|pattern <=*>/trim 1 1/state s idle/state r idle/state t pending/move s < out r/move s = out s/\
move s > out s/move r < out r/move r = maybe_b t/move r > found_e s/move t < out_r r/move t = maybe_b t/\
move t > found_e s
plain 710|pattern >=*</trim 1 1/state s idle/state r idle/state t pending/move s < out s/move s = out s/\
move s > out r/move r < found_e s/move r = maybe_b t/move r > out r/move t < found_e s/move t = maybe_b t/\
move t > out_r r
proper_plateau 170|pattern <=+>/trim 1 1/state s idle/state r idle/state t pending/move s < out r/move s = out s/\
move s > out s/move r < out r/move r = maybe_b t/move r > out s/move t < out_r r/move t = maybe_b t/\
move t > found_e s
proper_plain 170|pattern >=+</trim 1 1/state s idle/state r idle/state t pending/move s < out s/move s = out s/\
move s > out r/move r < out s/move r = maybe_b t/move r > out r/move t < found_e s/move t = maybe_b t/\
move t > out_r r
summit 540|pattern (<|<(=|<)*<)(>|>(=|>)*>)/trim 1 1/state s idle/state r pending/state u pending/state t held/\
move s < out r/move s = out s/move s > out s/move r < maybe_b r/move r = maybe_b u/move r > found t/\
move u < maybe_b r/move u = maybe_b u/move u > out_r s/move t < out_a r/move t = maybe_a t/move t > in t
gorge 540|pattern (>|>(=|>)*>)(<|<(=|<)*<)/trim 1 1/state s idle/state r pending/state u pending/state t held/\
move s < out s/move s = out s/move s > out r/move r < found t/move r = maybe_b u/move r > maybe_b r/\
move u < out_r s/move u = maybe_b u/move u > maybe_b r/move t < in t/move t = maybe_a t/move t > out_a r
zigzag 276|pattern (<>)+(<|<>)|(><)+(>|><)/trim 1 1/state s idle/state a idle/state b idle/state c pending/\
state d pending/state e held/state f held/move s < out a/move s = out s/move s > out b/move a < out a/\
move a = out s/move a > maybe_b c/move b < maybe_b d/move b = out s/move b > out b/move c < found e/\
move c = out_r s/move c > out_r b/move d < out_r a/move d = out_r s/move d > found f/move e < out_a a/\
move e = out_a s/move e > in f/move f < in e/move f = out_a s/move f > out_a b
dip_on_increasing_sequence 1|pattern <<><</trim 2 1/state s idle/state a idle/state b idle/state c pending/\
state d pending/move s < out a/move s = out s/move s > out s/move a < out b/move a = out s/move a > out s/\
move b < out b/move b = out s/move b > maybe_b c/move c < maybe_b d/move c = out_r s/move c > out_r s/\
move d < found_e b/move d = out_r s/move d > out_r s
bump_on_decreasing_sequence 1|pattern >><>>/trim 2 1/state s idle/state a idle/state b idle/state c pending/\
state d pending/move s < out s/move s = out s/move s > out a/move a < out s/move a = out s/move a > out b/\
move b < maybe_b c/move b = out s/move b > out b/move c < out_r s/move c = out_r s/move c > maybe_b d/\
move d < out_r s/move d = out_r s/move d > found_e b";

pub(super) fn patterns() -> &'static str {
    PATTERNS
}

/// The transducer that a text states, known to find the occurrences of its pattern; None where it isn't. The text is
/// read line by line, or by the words of all lines.
fn validated(alloc: Global, text: &[u8], by_lines: bool) -> Option<Validated> {
    if text.len() > 10_000 {
        return None;
    }
    let user = if by_lines {
        read_pattern_text(alloc, text).ok()?
    } else {
        read_pattern(alloc, &cut_tokens(alloc, text).ok()?).ok()?
    };
    let plan = build_plan(alloc, &user.transducer, &user.pattern).ok()?;
    validate(alloc, user.transducer, &user.pattern, &plan).ok()
}

/// The series of six cells from 0 to 2 with this number, of 729.
fn series(number: u32) -> [i64; 6] {
    [
        i64::from(number % 3),
        i64::from(number / 3 % 3),
        i64::from(number / 9 % 3),
        i64::from(number / 27 % 3),
        i64::from(number / 81 % 3),
        i64::from(number / 243 % 3),
    ]
}

/// The ranges in the series; none where the trim is out of its range.
fn marked(alloc: Global, v: &Validated, series: &[i64]) -> Result<Vec<Range>, Memory> {
    let a = v.pattern().a;
    if a > 1 || series.is_empty() || series.len() > 6 {
        return Ok(Vec::new(alloc));
    }
    marks(alloc, v, a, series)
}

/// How many occurrences both find in all series together; None where their ranges differ in one.
fn occurrences(alloc: Global, v: &Validated, w: &Validated) -> Result<Option<usize>, Memory> {
    let mut count: usize = 0;
    for number in 0..729 {
        let series = series(number);
        let ranges = marked(alloc, v, &series)?;
        if ranges.as_slice() != marked(alloc, w, &series)?.as_slice() {
            return Ok(None);
        }
        count = count.saturating_add(ranges.len());
    }
    Ok(Some(count))
}

/// The line that names a pattern of the catalogue.
fn catalogue_line(alloc: Global, name: &[u8]) -> Result<Vec<u8>, Memory> {
    let mut line = Vec::from_slice(alloc, b"catalogue ")?;
    line.extend_from_slice(name)?;
    Ok(line)
}

/// Whether both mark the same ranges in all series, and this many.
fn are_so_many(
    alloc: Global,
    v: &Validated,
    w: &Validated,
    wanted: Option<i64>,
) -> Result<bool, Memory> {
    match (occurrences(alloc, v, w)?, wanted) {
        (Some(count), Some(wanted)) => Ok(i64::try_from(count).ok() == Some(wanted)),
        _ => Ok(false),
    }
}

/// Whether a pattern written out and its name mark the same ranges in all series, and as many as the row says.
pub(super) fn marks_as_named(alloc: Global, row: &[u8]) -> Result<bool, Memory> {
    let Some((head, written)) = halves(row) else {
        return Ok(false);
    };
    let text = text_of(alloc, written)?;
    let line = catalogue_line(alloc, word(head, 0))?;
    match (
        validated(alloc, &text, false),
        validated(alloc, &line, true),
    ) {
        (Some(v), Some(w)) => are_so_many(alloc, &v, &w, number(word(head, 1))),
        _ => Ok(false),
    }
}

/// Whether the second line is one of an unknown form.
fn is_unknown_line(read: Result<UserPattern, UserStop>) -> bool {
    matches!(
        read,
        Err(UserStop::Refused {
            line: 2,
            kind: UserKind::UnknownLine
        })
    )
}

/// A line `%%` ends the pattern text of a command, so that no row of `examples/rows` has it.
#[test]
fn separator_is_no_line(rt: HostRuntime) -> Result<(), Memory> {
    let tokens = cut_tokens(rt.alloc(), b"trim 1 1\n%%")?;
    assert!(rt; is_unknown_line(read_pattern(rt.alloc(), &tokens)));
    assert!(rt; is_unknown_line(read_pattern_text(rt.alloc(), b"trim 1 1\n%%")));
    Ok(())
}
