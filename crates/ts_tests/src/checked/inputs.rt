//! Inputs of `verify` in pieces, how each ends, and which line has failed on the way.

ghost use Rattle.std.specs.Prelude.{◌≡◌, ◌<◌, IfOk, OnOk, false, length};

use Verdict::{Accepted, Refused, Rejected};
use std::alloc::Global;
use ts_base::Memory;
use ts_checker::{Verdict, Verifier, VerifyEnd};
use ts_model::ModelKind;

/// What stands before a word that comes 1,500 times, the word, what stands after it, how the input ends, and the line
/// that has failed before its end.
type Input = (
    &'static str,
    &'static str,
    &'static str,
    VerifyEnd,
    Option<u32>,
);

static INPUTS: [Input; 17] = [
    (
        "cells 3\ndomain 0..1\nterm c = count peak\nobjective c\n%%\nmaximise\nbest 1\nseries 0 1 0\n\
         split 1 0\nsplit 2 0\nworse 3\nsplit 3 0\nworse 3\nworse 3\nworse 3\nend 7 0\n",
        "",
        "",
        VerifyEnd::Verdict(Accepted),
        None,
    ),
    // a line that breaks its rule, and one against the grammar after it
    (
        "cells 1\ndomain 0..1\n \t%% \r\ngenerate 1\nbudget 0\nopen\nopen\nend 0 2\n",
        "",
        "",
        VerifyEnd::Verdict(Rejected(4)),
        Some(4),
    ),
    (
        "cells 1\ndomain 0..1\n%%\ngenerate 1\nbudget 0\nopen\nopen\nend 0 02\n",
        "",
        "",
        VerifyEnd::Verdict(Refused(5)),
        Some(5),
    ),
    // a last line without an LF is no line of a certificate, and none has failed before it
    (
        "cells 1\ndomain 0..1\n%%\ngenerate 1\nbudget 0\nopen\nend 0 1",
        "",
        "",
        VerifyEnd::Verdict(Refused(4)),
        None,
    ),
    // the end is missing
    (
        "cells 1\ndomain 0..1\n%%\ngenerate 1\nbudget 0\nopen\n",
        "",
        "",
        VerifyEnd::Verdict(Refused(4)),
        None,
    ),
    // the certificate is empty, after `%%` and without it
    (
        "cells 1\ndomain 0..1\n%%",
        "",
        "",
        VerifyEnd::Verdict(Refused(1)),
        None,
    ),
    (
        "cells 1\ndomain 0..1\n# %%",
        "",
        "",
        VerifyEnd::Verdict(Refused(1)),
        None,
    ),
    // the model is refused, whatever stands after it
    (
        "cells 3\ncells 3\n%%\nmaximise\n",
        "",
        "",
        VerifyEnd::Model {
            line: 2,
            kind: ModelKind::CellsTwice,
        },
        None,
    ),
    // a word that begins like `%%`
    (
        "cells 3\n%%%\n%%\n",
        "",
        "",
        VerifyEnd::Model {
            line: 2,
            kind: ModelKind::UnknownLine,
        },
        None,
    ),
    // one long line
    (
        "cells 1\ndomain 0..1",
        " 0..1",
        "\n%%\ngenerate 1\nbudget 0\nopen\nend 0 1\n",
        VerifyEnd::Verdict(Accepted),
        None,
    ),
    (
        "cells 1\ndomain 0..1\n#",
        " \t word",
        "\n%%\ngenerate 1\nbudget 0\nopen\nend 0 1\n",
        VerifyEnd::Verdict(Accepted),
        None,
    ),
    (
        "cells 1\ndomain 0..1\n",
        " \t  ",
        "%%\ngenerate 1\nbudget 0\nopen\nend 0 1\n",
        VerifyEnd::Verdict(Accepted),
        None,
    ),
    (
        "cells 1\n",
        "words",
        " 1\n%%\ngenerate 1\n",
        VerifyEnd::Model {
            line: 2,
            kind: ModelKind::UnknownLine,
        },
        None,
    ),
    (
        "cells 1\nword",
        " word",
        "\u{1}\n%%\ngenerate 1\n",
        VerifyEnd::Model {
            line: 2,
            kind: ModelKind::NotText,
        },
        None,
    ),
    // a series of more numbers than there may be cells, and one that is none
    (
        "cells 1\ndomain 0..1\n%%\ngenerate 1\nfull 1\nseries",
        " 0",
        "\nopen\nend 0 1\n",
        VerifyEnd::Verdict(Rejected(3)),
        Some(3),
    ),
    (
        "cells 1\ndomain 0..1\n%%\ngenerate 1\nfull 1\nseries",
        " 0",
        "a\nopen\nend 0 1\n",
        VerifyEnd::Verdict(Refused(3)),
        Some(3),
    ),
    (
        "cells 1\ndomain 0..1\n%%\ngenerate 1\nfull 1\nseries 0\n",
        "yes ",
        "\nend 1 0\n",
        VerifyEnd::Verdict(Refused(4)),
        Some(4),
    ),
];

/// Pieces of one input of `verify`, and the line that has failed after each.
static FEEDS: [(&str, Option<u32>); 9] = [
    ("cells 1\ndomain 0..1\n", None),
    ("%%", None),
    ("\ngenerate 1\nbudget 0\n", None),
    ("open\nop", None),
    ("en", None),
    ("\n", Some(4)),
    ("end 0 0", Some(4)),
    ("2\n", Some(5)),
    ("open\n", Some(5)),
];

// The tables behind functions, so that the proofs of the tests don't read them.
fn inputs() -> &'static [Input] {
    &INPUTS
}

fn feeds() -> &'static [(&'static str, Option<u32>)] {
    &FEEDS
}

/// Rows have no longer texts, and lists no more rows.
const MOST: usize = 1_000_000;

/// Feeds a text to a new verifier, in pieces of `size` bytes.
fn feed_all(verifier: &mut Verifier, text: &[u8], size: usize) -> Result<(), Memory>
    requires calm { verifier.old.missing ≡ false }
    requires none { verifier.old.count ≡ 0 }
    requires some { 0 < size }
    requires few { length text.now < 2000000 }
    ensures { OnOk result (verifier.new.missing ≡ false) }
{
    let mut rest = text;
    while !rest.is_empty() {
        let (piece, left) = rest.split_at(size.min(rest.len()));
        verifier.feed(piece)?;
        rest = left;
    }
    Ok(())
}

/// A verifier that was fed a text in pieces of `size` bytes.
fn fed(alloc: Global, text: &[u8], size: usize) -> Result<Verifier, Memory>
    requires some { 0 < size }
    requires few { length text.now < 2000000 }
    ensures { IfOk result (λ v. v.missing ≡ false) }
{
    let mut verifier = Verifier::new(alloc);
    feed_all(&mut verifier, text, size)?;
    Ok(verifier)
}

/// The head, 1,500 times the word, and the tail.
fn filled(alloc: Global, head: &str, word: &str, tail: &str) -> Result<Vec<u8>, Memory> {
    let mut text = Vec::new(alloc);
    text.extend_from_slice(head.as_bytes())?;
    for _ in 0..1_500 {
        text.extend_from_slice(word.as_bytes())?;
    }
    text.extend_from_slice(tail.as_bytes())?;
    Ok(text)
}

/// Whether a text in pieces of `size` bytes ends in this way and this line has failed before.
fn ends_in_pieces(
    alloc: Global,
    text: &[u8],
    size: usize,
    end: VerifyEnd,
    failed: Option<u32>,
) -> Result<bool, Memory>
    requires some { 0 < size }
    requires few { length text.now < 2000000 }
{
    let verifier = fed(alloc, text, size)?;
    let failed_so = verifier.failed() == failed;
    let ended = verifier.finish()?;
    Ok(failed_so && ended == end)
}

/// Whether an input ends as its row says and the line has failed before, wherever it is cut.
fn ends_so(alloc: Global, input: &Input) -> Result<bool, Memory> {
    let (head, word, tail, end, failed) = *input;
    let text = filled(alloc, head, word, tail)?;
    if text.len() > MOST {
        return Ok(false);
    }
    Ok(
        ends_in_pieces(alloc, &text, 1, end, failed)?
            && ends_in_pieces(alloc, &text, 7, end, failed)?
            && ends_in_pieces(alloc, &text, 4_096, end, failed)?,
    )
}

#[test]
fn pieces(rt: HostRuntime) {
    let rows = inputs();
    for place in 0..rows.len() {
        assert!(rt;
            ends_so(rt.alloc(), &rows[place]) == Ok(true),
            "row {place}"
        );
    }
}

/// The first row after whose piece another line has failed, by a new verifier.
fn first_other(verifier: &mut Verifier) -> Result<Option<usize>, Memory>
    requires calm { verifier.old.missing ≡ false }
    requires none { verifier.old.count ≡ 0 }
{
    let rows = feeds();
    for k in 0..rows.len() {
        let (piece, failed) = rows[k];
        if k > 1_000 || piece.len() > 1_000 {
            return Ok(Some(k));
        }
        verifier.feed(piece.as_bytes())?;
        if verifier.failed() != failed {
            return Ok(Some(k));
        }
    }
    Ok(None)
}

fn first_wrong_feed(alloc: Global) -> Result<Option<usize>, Memory> {
    let mut verifier = Verifier::new(alloc);
    first_other(&mut verifier)
}

#[test]
fn failed_between_pieces(rt: HostRuntime) {
    assert!(rt; first_wrong_feed(rt.alloc()) == Ok(None));
}
