//! The lines of a tree.

ghost use Rattle.std.specs.Prelude.{◌≡◌};
ghost use Rattle.ts_base.specs.Words.{words_seen, more_seen};
ghost use Rattle.ts_certificate.specs.TreeLines.{split_of, remove_of, no_of, worse_of, tree_of};

use crate::certificate::TreeLine;
use crate::numbers::{cell_of, requirement_of, value_of};
use crate::words::{alone, one_word, three_words, two_words};
use ts_base::Words;
use ts_token::is_word;

/// The words after `split`: a cell, and the greatest value of the lower side.
fn split_of(rest: Option<&[u8]>) -> Option<TreeLine>
    ensures { result ≡ split_of (more_seen rest.entry) }
{
    let (k, t) = two_words(rest)?;
    let (Some(k), Some(t)) = (cell_of(k), value_of(t)) else {
        return None;
    };
    Some(TreeLine::Split { k, t })
}

/// The words after `drop`: a cell, the value that it loses, and the requirement that refutes it.
fn remove_of(rest: Option<&[u8]>) -> Option<TreeLine>
    ensures { result ≡ remove_of (more_seen rest.entry) }
{
    let (k, v, j) = three_words(rest)?;
    let (Some(k), Some(v), Some(j)) = (cell_of(k), value_of(v), requirement_of(j)) else {
        return None;
    };
    Some(TreeLine::Remove { k, v, j })
}

/// The words after `no`: a requirement, and the cell at which it is refuted.
fn no_of(rest: Option<&[u8]>) -> Option<TreeLine>
    ensures { result ≡ no_of (more_seen rest.entry) }
{
    let (j, p) = two_words(rest)?;
    let (Some(j), Some(p)) = (requirement_of(j), cell_of(p)) else {
        return None;
    };
    Some(TreeLine::No { j, p })
}

/// The word after `worse`: the cell at which the objective is no better.
fn worse_of(rest: Option<&[u8]>) -> Option<TreeLine>
    ensures { result ≡ worse_of (more_seen rest.entry) }
{
    let p = cell_of(one_word(rest)?)?;
    Some(TreeLine::Worse { p })
}

/// The line of the tree that these words are.
pub(crate) fn tree_of(words: &Words<'_>) -> Option<TreeLine>
    ensures { result ≡ tree_of (words_seen words.now) }
{
    if is_word(words.first, b"split") {
        split_of(words.rest)
    } else if is_word(words.first, b"no") {
        no_of(words.rest)
    } else if is_word(words.first, b"worse") {
        worse_of(words.rest)
    } else if is_word(words.first, b"drop") {
        remove_of(words.rest)
    } else if is_word(words.first, b"yes") {
        alone(words.rest, TreeLine::Yes)
    } else if is_word(words.first, b"open") {
        alone(words.rest, TreeLine::Unsearched)
    } else {
        None
    }
}
