//! What no clause says: that calls succeed where there is memory, and that the system's input and output are reached.

use std::alloc::Global;
use std::io;
use ts_base::{
    Ext, Failed, Letter, Memory, MemorySink, MemorySource, NeverSink, NeverSource, ReadStop, Sink,
    Source, Span, StdIn, StdOut, first_line, flip, letter_of, push_ext, push_number, read_all,
    without_lf, words_of, write_all,
};

/// Two cells, and their letter.
static LETTERS: [(i64, i64, Letter); 6] = [
    (3, 1, Letter::Greater),
    (1, 3, Letter::Less),
    (2, 2, Letter::Equal),
    (-1, 0, Letter::Less),
    (-3, -1, Letter::Less),
    (i64::MAX, i64::MIN, Letter::Greater),
];

/// Two numbers, and their sum.
static SUMS: [(Ext, Ext, Ext); 14] = [
    (Ext::Int(7), Ext::Int(-5), Ext::Int(2)),
    (Ext::NegInf, Ext::PosInf, Ext::NegInf),
    (Ext::PosInf, Ext::NegInf, Ext::NegInf),
    (Ext::NegInf, Ext::Int(5), Ext::NegInf),
    (Ext::Int(5), Ext::NegInf, Ext::NegInf),
    (Ext::PosInf, Ext::Int(-5), Ext::PosInf),
    (Ext::Int(-5), Ext::PosInf, Ext::PosInf),
    (Ext::Int(LARGE), Ext::Int(-1), Ext::Int(LARGE - 1)),
    (Ext::Int(LARGE), Ext::Int(1), Ext::Int(LARGE)),
    (Ext::Int(-LARGE), Ext::Int(-1), Ext::Int(-LARGE)),
    (
        Ext::Int(3 * LARGE),
        Ext::Int(-2 * LARGE - 5),
        Ext::Int(LARGE - 5),
    ),
    (Ext::Int(3 * LARGE), Ext::Int(0), Ext::Int(LARGE)),
    (Ext::Int(i64::MAX), Ext::Int(i64::MAX), Ext::Int(LARGE)),
    (Ext::Int(i64::MIN), Ext::Int(-1), Ext::Int(-LARGE)),
];

/// The ends of two spans, and those of their hull, sum, greatest and least.
static SPANS: [[(i64, i64); 6]; 7] = [
    [(1, 3), (5, 9), (1, 9), (6, 12), (5, 9), (1, 3)],
    [(-2, 8), (0, 1), (-2, 8), (-2, 9), (0, 8), (-2, 1)],
    [(1, 3), (7, 5), (1, 3), NONE, NONE, NONE],
    [(2, 1), (7, 5), NONE, NONE, NONE, NONE],
    [(4, 4), (4, 4), (4, 4), (8, 8), (4, 4), (4, 4)],
    [
        (LOW, LOW),
        (-5, -3),
        (LOW, -3),
        (LOW, LOW),
        (-5, -3),
        (LOW, LOW),
    ],
    [
        (-5, -3),
        (HIGH, HIGH),
        (-5, HIGH),
        (HIGH, HIGH),
        (HIGH, HIGH),
        (-5, -3),
    ],
];

/// The ends that stand for the form of a span that is none.
const NONE: (i64, i64) = (1, 0);

// These stand for -inf and +inf in the ends of spans.
const LOW: i64 = i64::MIN;

const HIGH: i64 = i64::MAX;

fn end(written: i64) -> Ext {
    match written {
        LOW => Ext::NegInf,
        HIGH => Ext::PosInf,
        _ => Ext::Int(written),
    }
}

fn span(ends: (i64, i64)) -> Span {
    if ends == NONE {
        return Span::none();
    }
    Span {
        lo: end(ends.0),
        hi: end(ends.1),
    }
}

/// 10^17.
const LARGE: i64 = 100_000_000_000_000_000;

// Each table behind a function, so that the proof of the test doesn't read it.
fn letters() -> &'static [(i64, i64, Letter)] {
    &LETTERS
}

fn sums() -> &'static [(Ext, Ext, Ext)] {
    &SUMS
}

fn spans() -> &'static [[(i64, i64); 6]] {
    &SPANS
}

fn letters_hold() -> bool {
    for &(x, y, letter) in letters() {
        if letter_of(x, y) != letter || letter_of(y, x) != flip(letter) {
            return false;
        }
    }
    true
}

fn sums_hold() -> bool {
    for &(a, b, sum) in sums() {
        if a.plus(b) != sum {
            return false;
        }
    }
    true
}

/// Whether two spans have this hull, sum, greatest and least.
fn spans_hold(row: [(i64, i64); 6]) -> bool {
    let [s, t, hull, sum, greatest, least] = row;
    let (s, t) = (span(s), span(t));
    s.hull(t) == span(hull)
        && s.plus(t) == span(sum)
        && s.greatest(t) == span(greatest)
        && s.least(t) == span(least)
        && span(hull).is_none() == (hull == NONE)
}

/// The first row with another span.
fn first_wrong_span() -> Option<usize> {
    let rows = spans();
    for k in 0..rows.len() {
        if !spans_hold(rows[k]) {
            return Some(k);
        }
    }
    None
}

fn one_number_is_held() -> bool {
    let four = Span::one(Ext::Int(4));
    four.contains(Ext::Int(4))
        && !four.contains(Ext::Int(5))
        && !Span::none().contains(Ext::PosInf)
        && !Span::none().contains(Ext::NegInf)
}

#[test]
fn values_are_meant(rt: HostRuntime) {
    assert!(rt; letters_hold());
    assert!(rt; sums_hold());
    assert!(rt; first_wrong_span().is_none());
    assert!(rt; one_number_is_held());
}

fn write_numbers(text: &mut Vec<u8>) -> Result<(), Memory> {
    push_number(text, -120)?;
    push_ext(text, Ext::NegInf)?;
    push_ext(text, Ext::Int(2))?;
    push_ext(text, Ext::PosInf)
}

/// Whether numbers are written after what a text has.
fn are_written(alloc: Global) -> Result<bool, Memory> {
    let mut text = Vec::from_slice(alloc, b"x ")?;
    write_numbers(&mut text)?;
    Ok(text.as_slice() == b"x -120-inf2+inf".as_slice())
}

/// A source of four bytes a call that fails at one call.
fn source_of(alloc: Global, fails_at: u64) -> Result<MemorySource, Memory> {
    let text = Vec::from_slice(alloc, b"x -120-inf2+inf")?;
    Ok(MemorySource::new(text, 4, vec![in alloc; fails_at]?))
}

/// Whether this much is read, or the reading stops in this way.
fn is_read(
    alloc: Global,
    source: &mut MemorySource,
    limit: u8,
    wanted: Result<&[u8], ReadStop>,
) -> bool {
    match (read_all(alloc, source, usize::from(limit)), wanted) {
        (Ok(bytes), Ok(wanted)) => bytes.as_slice() == wanted,
        (Err(stop), Err(wanted)) => stop == wanted,
        _ => false,
    }
}

/// A source that fails at its second call has given four bytes by then.
fn reads_behind_a_fault(alloc: Global) -> Result<bool, Memory> {
    let mut source = source_of(alloc, 2)?;
    Ok(
        is_read(alloc, &mut source, 99, Err(ReadStop::ReadFault))
            && is_read(alloc, &mut source, 99, Ok(b"20-inf2+inf")),
    )
}

/// Three bytes, three more, which are one too many, and the others up to the limit; then the seventh call fails.
fn reads_behind_a_limit(alloc: Global) -> Result<bool, Memory> {
    let mut source = source_of(alloc, 7)?;
    let mut into = [0; 3];
    Ok(
        source.read(&mut into) == Ok(3)
            && is_read(alloc, &mut source, 2, Err(ReadStop::TooLong))
            && is_read(alloc, &mut source, 9, Ok(b"-inf2+inf"))
            && source.read(&mut into) == Err(Failed),
    )
}

fn reads_without_faults(alloc: Global) -> Result<bool, Memory> {
    let mut never = NeverSource::new(Vec::from_slice(alloc, b"-inf2+inf")?);
    match read_all(alloc, &mut never, 9) {
        Ok(all) => Ok(all.as_slice() == b"-inf2+inf".as_slice()),
        Err(_) => Ok(false),
    }
}

fn reads_of_the_system() -> bool {
    let mut into = [0; 3];
    let mut input = StdIn::new(b"-inf2+inf".as_slice());
    input.read(&mut into) == Ok(3) && into.as_slice() == b"-in".as_slice()
}

#[test]
fn reads_succeed(rt: HostRuntime) {
    assert!(rt; are_written(rt.alloc()) == Ok(true));
    assert!(rt; reads_behind_a_fault(rt.alloc()) == Ok(true));
    assert!(rt; reads_behind_a_limit(rt.alloc()) == Ok(true));
    assert!(rt; reads_without_faults(rt.alloc()) == Ok(true));
    assert!(rt; reads_of_the_system());
}

/// A sink that fails at its third and at its fifth call has taken eight bytes by then, and was finished once.
fn writes_before_a_fault(alloc: Global) -> Result<bool, Memory> {
    let mut sink = MemorySink::new(alloc, 4, vec![in alloc; 3, 5]?);
    let failed = write_all(&mut sink, b"-inf2+inf") == Err(Failed);
    let taken = sink.bytes() == b"-inf2+in".as_slice();
    Ok(failed && taken && sink.finish() == Ok(()) && sink.finish() == Err(Failed))
}

fn writes_without_faults(alloc: Global) -> Result<bool, Memory> {
    let mut kept = NeverSink::new(Vec::with_capacity(alloc, 4)?);
    let whole = write_all(&mut kept, b"-inf2+inf") == Ok(()) && kept.finish() == Ok(());
    Ok(whole && kept.kept() == b"-inf".as_slice())
}

fn writes_in_two_pieces(alloc: Global) -> Result<bool, Memory> {
    let mut large = Vec::new(alloc);
    large.resize(5_000, b'x')?;
    let mut sink = MemorySink::new(alloc, 4_999, Vec::new(alloc));
    Ok(write_all(&mut sink, &large) == Ok(()) && sink.bytes() == large.as_slice())
}

fn writes_to_the_system() -> bool {
    let mut output = StdOut::new(io::sink());
    output.write(b"text") == Ok(4) && output.finish() == Ok(())
}

#[test]
fn writes_succeed(rt: HostRuntime) {
    assert!(rt; writes_before_a_fault(rt.alloc()) == Ok(true));
    assert!(rt; writes_without_faults(rt.alloc()) == Ok(true));
    assert!(rt; writes_in_two_pieces(rt.alloc()) == Ok(true));
    assert!(rt; writes_to_the_system());
}

fn lines_are_strict() -> bool {
    let (line, rest) = first_line(b"no  1\nyes");
    line == b"no  1\n".as_slice()
        && without_lf(line) == Some(b"no  1".as_slice())
        && without_lf(rest).is_none()
        && without_lf(b"no\r\n") == Some(b"no\r".as_slice())
}

fn words_are_strict() -> bool {
    let words = words_of(b"no  1");
    words.first == b"no".as_slice()
        && words.rest == Some(b" 1".as_slice())
        && words_of(b"yes").rest.is_none()
}

#[test]
fn lines_and_words_are_strict(rt: HostRuntime) {
    assert!(rt; lines_are_strict());
    assert!(rt; words_are_strict());
}
