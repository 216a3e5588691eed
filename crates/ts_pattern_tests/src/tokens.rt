//! Texts with their words and parts, and words with their numbers, worked out by hand.

ghost use Rattle.std.specs.Prelude.{◌<◌, [], length};
ghost use Rattle.ts_token.specs.Short.{IsShort};

use std::alloc::Global;
use ts_base::{Ext, Memory};
use ts_token::{
    Content, Parts, ShortLine, Tokens, count_words, cut_parts, cut_tokens, ext_of, line_content,
    number,
};

/// A text, its words, the number of its lines, and the first line that isn't text. Before each word stand two digits,
/// its line and its column.
static TEXTS: [(&str, &str, u32, Option<u32>); 38] = [
    ("", "", 0, None),
    ("a", "11a", 1, None),
    ("a\n", "11a", 1, None),
    ("\n", "", 1, None),
    ("\n\n", "", 2, None),
    ("a\nb", "11a 21b", 2, None),
    ("ab cd", "11ab 14cd", 1, None),
    ("ab\tcd\n", "11ab 14cd", 1, None),
    ("  a \t b  \n", "13a 17b", 1, None),
    ("~ !", "11~ 13!", 1, None),
    ("a\r\nb\r\n", "11a 21b", 2, None),
    ("a \r\nb", "11a 21b", 2, None),
    ("\r\n", "", 1, None),
    ("\r", "", 1, Some(1)),
    ("a\r", "", 1, Some(1)),
    ("a\nb\r", "11a", 2, Some(2)),
    ("a\rb\n", "", 1, Some(1)),
    ("a\r\r\n", "", 1, Some(1)),
    ("a\n\0\nb\n", "11a", 3, Some(2)),
    ("a\n\nb\x7f\n\0", "11a", 4, Some(3)),
    ("a\n\u{e9}", "11a", 2, Some(2)),
    ("# c\na", "21a", 2, None),
    (" \t#c\na", "21a", 2, None),
    ("#", "", 1, None),
    ("#\0\na", "", 2, Some(1)),
    ("a #b", "11a 13#b", 1, None),
    ("a#b", "11a#b", 1, None),
    (";a\n", "11;a", 1, None),
    ("a\n\n \t\nb", "11a 41b", 4, None),
    ("a\n\r\nb", "11a 31b", 3, None),
    ("x %%\n", "11x 13%%", 1, None),
    ("# %%\n", "", 1, None),
    ("a\n%%\r", "11a", 2, Some(2)),
    ("%%\0\nb", "", 2, Some(1)),
    ("%%", "11%%", 1, None),
    (" \t%% \na", "13%% 21a", 2, None),
    ("a\n%%\r\nb", "11a 21%% 31b", 3, None),
    ("\0\n%%\n\0", "", 3, Some(1)),
];

/// A text, the part before its first line `%%`, and the part after it.
static PARTS: [(&str, &str, Option<&str>); 19] = [
    ("", "", None),
    ("a\nb", "a\nb", None),
    ("a\n%%\nb\n", "a\n", Some("b\n")),
    ("%%", "", Some("")),
    ("%%\n", "", Some("")),
    ("a\n%%", "a\n", Some("")),
    (" \t%% \na", "", Some("a")),
    ("a\r\n%%\r\nb", "a\r\n", Some("b")),
    ("%%\n%%\nb", "", Some("%%\nb")),
    ("%% x\n%%\n\n", "%% x\n", Some("\n")),
    ("\0\n%%\n\0", "\0\n", Some("\0")),
    ("#\n%%\n", "#\n", Some("")),
    ("a\n%%\r", "a\n%%\r", None),
    ("x %%\n", "x %%\n", None),
    ("%% %%\n", "%% %%\n", None),
    ("%%%\n", "%%%\n", None),
    ("%\n%", "%\n%", None),
    ("# %%\nb", "# %%\nb", None),
    ("%%\0\nb", "%%\0\nb", None),
];

/// A word, and the number that it is.
static NUMBERS: [(&str, Option<i64>); 26] = [
    ("0", Some(0)),
    ("7", Some(7)),
    ("-7", Some(-7)),
    ("1000", Some(1000)),
    ("9223372036854775807", Some(9223372036854775807)),
    ("9223372036854775808", None),
    ("-9223372036854775807", Some(-9223372036854775807)),
    ("-9223372036854775808", Some(-9223372036854775808)),
    ("-9223372036854775809", None),
    ("18446744073709551617", None),
    ("340282366920938463463374607431768211457", None),
    ("", None),
    ("-", None),
    ("-0", None),
    ("00", None),
    ("01", None),
    ("-01", None),
    ("+1", None),
    ("--1", None),
    ("1-", None),
    ("1.0", None),
    ("0x1", None),
    (" 1", None),
    ("1 ", None),
    ("1a", None),
    ("inf", None),
];

/// A word, and the number or infinity that it is.
static EXTS: [(&str, Option<Ext>); 12] = [
    ("-inf", Some(Ext::NegInf)),
    ("+inf", Some(Ext::PosInf)),
    ("0", Some(Ext::Int(0))),
    ("-7", Some(Ext::Int(-7))),
    ("-9223372036854775808", Some(Ext::Int(i64::MIN))),
    ("9223372036854775807", Some(Ext::Int(i64::MAX))),
    ("9223372036854775808", None),
    ("inf", None),
    ("-Inf", None),
    ("+inf ", None),
    ("+1", None),
    ("", None),
];

/// A line, what is kept of it, and whether it is the separator.
static SHORT_LINES: [(&str, &str, bool); 24] = [
    ("", "", false),
    ("\n", "\n", false),
    ("cells 4", "cells 4", false),
    ("  a \t b  \n", " a b \n", false),
    (" \t \t ", " ", false),
    ("\t\t%%\t \r\n", "\t%%\t\r\n", true),
    ("%%", "%%", true),
    ("%%\r\n", "%%\r\n", true),
    ("%%\r", "%%\r", false),
    ("%% %%\n", "%% %%\n", false),
    ("#%%\n", "#\n", false),
    ("# one two\tthree", "#", false),
    ("  \t#one\r\n", " #\r\n", false),
    ("a # b\r\n", "a # b\r\n", false),
    ("# one\u{1} two\n", "#\u{1}\n", false),
    ("# one\r two\n", "#\r \n", false),
    ("a\rb  c\r\n", "a\rb\n", false),
    ("a b\u{7f}c d", "a b\u{7f}", false),
    ("a\r\r\n", "a\r\r\n", false),
    ("a\n  b  c\n", "a\n  b  c\n", false),
    (
        "aaaaaaaaaabbbbbbbbbbccccccccccddddddddddeeeeeeeeeeffffffffff0123\n",
        "aaaaaaaaaabbbbbbbbbbccccccccccddddddddddeeeeeeeeeeffffffffff0123\n",
        false,
    ),
    (
        "aaaaaaaaaabbbbbbbbbbccccccccccddddddddddeeeeeeeeeeffffffffff0123456 78\n",
        "aaaaaaaaaabbbbbbbbbbccccccccccddddddddddeeeeeeeeeeffffffffff0123 78\n",
        false,
    ),
    (
        "1 aaaaaaaaaabbbbbbbbbbccccccccccddddddddddeeeeeeeeeeffffffffff012345\r6",
        "1 aaaaaaaaaabbbbbbbbbbccccccccccddddddddddeeeeeeeeeeffffffffff0123\r6",
        false,
    ),
    (
        "%%aaaaaaaaaabbbbbbbbbbccccccccccddddddddddeeeeeeeeeeffffffffff012345\n",
        "%%aaaaaaaaaabbbbbbbbbbccccccccccddddddddddeeeeeeeeeeffffffffff01\n",
        false,
    ),
];

/// A line, whether it is text, and how many words it has; none where it is skipped.
static CONTENTS: [(&str, bool, usize); 9] = [
    ("", true, 0),
    (" \t\r\n", true, 0),
    (" # a b", true, 0),
    ("a\0b\n", false, 0),
    ("#\r", false, 0),
    ("a\n", true, 1),
    (" a b\r\n", true, 2),
    ("a #b", true, 2),
    ("a b c \n", true, 3),
];

// Each table behind a function, so that the proof of the test doesn't read it.
fn texts() -> &'static [(&'static str, &'static str, u32, Option<u32>)] {
    &TEXTS
}

fn parts() -> &'static [(&'static str, &'static str, Option<&'static str>)] {
    &PARTS
}

fn numbers() -> &'static [(&'static str, Option<i64>)] {
    &NUMBERS
}

fn exts() -> &'static [(&'static str, Option<Ext>)] {
    &EXTS
}

fn short_lines() -> &'static [(&'static str, &'static str, bool)] {
    &SHORT_LINES
}

fn contents() -> &'static [(&'static str, bool, usize)] {
    &CONTENTS
}

/// Whether a word with two digits before it says this line, column and word.
fn is_place(written: &[u8], line: u32, column: u32, text: &[u8]) -> bool {
    match written {
        [first, second, word @ ..] => {
            u32::from(*first) == line.saturating_add(48)
                && u32::from(*second) == column.saturating_add(48)
                && word == text
        }
        _ => false,
    }
}

/// Whether the words of the tokens are these, in order.
fn are_words(tokens: &Tokens, words: &str) -> bool {
    let mut places = words.split_whitespace();
    for line in &tokens.lines {
        for word in &line.words {
            let place = places.next().unwrap_or("");
            if !is_place(place.as_bytes(), line.number, word.column, word.text) {
                return false;
            }
        }
    }
    places.next().is_none()
}

fn text_holds(
    alloc: Global,
    text: &str,
    words: &str,
    count: u32,
    not_text: Option<u32>,
) -> Result<bool, Memory> {
    if 1000 < text.len() {
        return Ok(false);
    }
    let tokens = cut_tokens(alloc, text.as_bytes())?;
    Ok(are_words(&tokens, words) && tokens.count == count && tokens.not_text == not_text)
}

fn parts_hold(text: &str, before: &str, after: Option<&str>) -> bool {
    if 1000 < text.len() {
        return false;
    }
    let Parts { model, rest } = cut_parts(text.as_bytes());
    let behind = match (rest, after) {
        (Some(rest), Some(after)) => rest == after.as_bytes(),
        (None, None) => true,
        _ => false,
    };
    behind && model == before.as_bytes()
}

#[test]
fn texts_and_their_parts(rt: HostRuntime) {
    for (text, words, count, not_text) in texts() {
        assert!(rt;
            text_holds(rt.alloc(), text, words, *count, *not_text) == Ok(true),
            "{text:?}"
        );
    }
    for (text, before, after) in parts() {
        assert!(rt; parts_hold(text, before, *after), "{text:?}");
    }
}

#[test]
fn words_and_their_numbers(rt: HostRuntime) {
    for (word, value) in numbers() {
        assert!(rt; number(word.as_bytes()) == *value, "{word:?}");
    }
    for (word, value) in exts() {
        assert!(rt; ext_of(word.as_bytes()) == *value, "{word:?}");
    }
}

/// Gives the line in two parts, and answers whether `%%` is its only word.
fn feed_halves(short: &mut ShortLine, line: &[u8]) -> Result<bool, Memory>
    requires none { IsShort [] short.old }
    requires few { length line.now < 1000 }
{
    let (front, back) = line.split_at(line.len() / 2);
    short.feed(front)?;
    short.feed(back)?;
    Ok(short.is_separator())
}

/// Whether this is kept of a line, and whether it is found to be the separator where it is.
fn is_kept(short: &mut ShortLine, line: &str, kept: &str, separator: bool) -> Result<bool, Memory> {
    if 1000 <= line.len() {
        return Ok(false);
    }
    short.clear();
    let was_empty = short.is_empty();
    let found = feed_halves(short, line.as_bytes())?;
    Ok(
        was_empty
            && found == separator
            && short.bytes() == kept.as_bytes()
            && short.is_empty() == line.is_empty(),
    )
}

#[test]
fn short_lines_keep_what_is_read(rt: HostRuntime) {
    let mut short = ShortLine::new(rt.alloc());
    for (line, kept, separator) in short_lines() {
        assert!(rt;
            is_kept(&mut short, line, kept, *separator) == Ok(true),
            "{line:?}"
        );
    }
}

/// Whether a line is text, and how many words it has.
fn count_told(line: &[u8]) -> (bool, usize)
    requires { length line.now < 1000 }
{
    match line_content(line) {
        Content::NotText => (false, 0),
        Content::Skipped => (true, 0),
        Content::Words(bytes) if bytes.len() < 1000 => (true, count_words(bytes, 1)),
        Content::Words(_) => (true, 1000),
    }
}

#[test]
fn contents_of_lines(rt: HostRuntime) {
    for (line, is_text, count) in contents() {
        assert!(rt; line.len() < 1000);
        assert!(rt;
            count_told(line.as_bytes()) == (*is_text, *count),
            "{line:?}"
        );
    }
}
