//! Certificates read and written, counts that differ, and a stop that stays. Texts that are refused are in
//! `examples/rows`.

use super::rows::{halves, text_of};
use std::alloc::Global;
use ts_base::{Ext, Goal, Memory, first_line};
use ts_certificate::{
    Aim, CertStop, Certificate, Claim, LineReader, Parsed, TreeLine, write_certificate,
};

/// `ok` for a text that is read and written again as it was, or why it is refused, a `|`, and the text, in which `/`
/// stands for LF; worked out by an independent script.
static TEXTS: &str = "\
ok|maximise/best 1/series 0 1 0/split 1 0/split 2 0/worse 3/split 3 0/worse 3/worse 3/worse 3/end 7 0/
ok|minimise/best 0/series 0 0 0/worse 3/end 1 0/
ok|maximise/infeasible/no 1 3/end 1 0/
ok|maximise/budget 1/series 0 1 0/split 1 0/open/open/end 1 2/
ok|maximise/budget none/split 1 0/open/open/end 1 2/
ok|generate 5/all 1/series 0 1 0/drop 1 1 1/drop 2 0 1/drop 3 1 1/yes/end 4 0/
ok|generate 1/full 1/series 0 0 0/split 1 0/split 2 0/split 3 0/yes/open/open/open/end 4 3/
ok|generate 2/budget 0/split 1 0/split 2 0/split 3 0/open/open/open/open/end 3 4/
ok|generate 5/all 0/no 1 3/end 1 0/
ok|maximise/best -inf/series 3/split 1 3/worse 1/worse 1/end 3 0/
ok|minimise/best +inf/series -1000000 1000000/split 1 -1000000/split 512 1000000/open/end 2 1/
ok|minimise/budget -9223372036854775808/series 0/drop 1 -1000000 1/drop 512 1000000 64/end 2 0/
ok|minimise/budget 9223372036854775807/series 0/no 1 1/no 64 512/worse 1/worse 512/end 4 0/
ok|minimise/best -1/series 1 2 3 4 5 6 7 8 9/yes/end 1 0/
ok|generate 5000/full 2/series 1/series 2/yes/yes/end 2 0/
ok|generate 1/all 0/open/end 0 1/
Text { line: 1 }|maximise
CountDiffers { line: 5, said: 2, found: 1 }|minimise/infeasible/yes/open/end 2 1/
CountDiffers { line: 5, said: 0, found: 1 }|minimise/infeasible/yes/open/end 1 0/
CountDiffers { line: 5, said: 2, found: 1 }|minimise/infeasible/yes/open/end 1 2/
CountDiffers { line: 5, said: 0, found: 1 }|minimise/infeasible/yes/open/end 0 0/
CountDiffers { line: 4, said: 9223372036854775807, found: 1 }|minimise/infeasible/yes/end 9223372036854775807 0/
CountDiffers { line: 4, said: 2, found: 1 }|minimise/infeasible/yes/end 2 0/end 1 0/";

// The table behind a function, so that no proof reads it.
pub(super) fn texts() -> &'static str {
    TEXTS
}

/// Takes the next line into a certificate.
fn take(certificate: &mut Certificate, parsed: Parsed) -> Result<(), Memory> {
    match parsed {
        Parsed::Aim(aim) => certificate.aim = aim,
        Parsed::Claim(claim) => certificate.claim = claim,
        Parsed::Series(values) => certificate.series.push(values)?,
        Parsed::Tree(line) => certificate.tree.push(line)?,
        Parsed::End { .. } => {}
    }
    Ok(())
}

fn read_into(alloc: Global, certificate: &mut Certificate, text: &[u8]) -> Result<(), CertStop> {
    let mut reader = LineReader::new();
    let mut rest = text;
    while !rest.is_empty() && reader.next_line() < 4_000_000_000 {
        let (line, left) = first_line(rest);
        let parsed = reader.line(alloc, line)?;
        if take(certificate, parsed).is_err() {
            return Err(CertStop::Memory);
        }
        rest = left;
    }
    reader.finish()
}

/// Reads a text line by line and gathers its certificate.
fn read(alloc: Global, text: &[u8]) -> Result<Certificate, CertStop> {
    let mut certificate = Certificate {
        aim: Aim::List(0),
        claim: Claim::Infeasible,
        series: Vec::new(alloc),
        tree: Vec::new(alloc),
    };
    read_into(alloc, &mut certificate, text)?;
    Ok(certificate)
}

/// Whether the text of a row is written again as it was, or refused, as the row says.
pub(super) fn is_told(alloc: Global, row: &[u8]) -> Result<bool, Memory> {
    let Some((want, written)) = halves(row) else {
        return Ok(false);
    };
    let text = text_of(alloc, written)?;
    match read(alloc, &text) {
        Ok(certificate) => Ok(
            want == b"ok".as_slice()
                && write_certificate(alloc, &certificate)?.as_slice() == text.as_slice(),
        ),
        Err(stop) => {
            let told = format!(in alloc; "{stop:?}")?;
            Ok(told.as_bytes() == want)
        }
    }
}

fn is_written(alloc: Global) -> Result<bool, Memory> {
    let unfinished = Certificate {
        aim: Aim::Best(Goal::Maximise),
        claim: Claim::BudgetBest(Ext::Int(1)),
        series: vec![in alloc; vec![in alloc; 0, 1, 0]?]?,
        tree: vec![in alloc;
            TreeLine::Split { k: 1, t: 0 },
            TreeLine::Unsearched,
            TreeLine::Unsearched,
        ]?,
    };
    let text = write_certificate(alloc, &unfinished)?;
    Ok(
        text.as_slice()
            == b"maximise\nbudget 1\nseries 0 1 0\nsplit 1 0\nopen\nopen\nend 1 2\n".as_slice(),
    )
}

/// What the reader answers to a line; within the first lines of a text.
fn told(alloc: Global, reader: &mut LineReader, line: &[u8]) -> Result<Parsed, CertStop> {
    if 4_000_000_000 < reader.next_line() {
        return Err(CertStop::Memory);
    }
    reader.line(alloc, line)
}

/// Whether a second line that is refused is reported again and again.
fn keeps_its_stop(alloc: Global) -> bool {
    let mut reader = LineReader::new();
    let first = told(alloc, &mut reader, b"generate 2\n");
    let second = told(alloc, &mut reader, b"best 1\n").err();
    let third = told(alloc, &mut reader, b"full 1\n").err();
    let stop = Some(CertStop::Text { line: 2 });
    first == Ok(Parsed::Aim(Aim::List(2)))
        && [second, third, reader.finish().err()] == [stop, stop, stop]
        && reader.next_line() == 2
}

#[test]
fn written_and_stopped(rt: HostRuntime) {
    assert!(rt; is_written(rt.alloc()) == Ok(true));
    assert!(rt; keeps_its_stop(rt.alloc()));
}
