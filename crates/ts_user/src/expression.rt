//! The expression of a pattern text. A short word is read by a recursive descent through its brackets, from its last
//! byte to its first; a long one is judged by its outline alone.

ghost use Rattle.std.specs.Prelude.{◌≡◌, ◌≢◌, ◌<◌, ◌≤◌, ◌-◌, ◌∷◌, List, length, take, get_or, option_map, IfOk, IfSome};
ghost use Rattle.ts_user.specs.FromTheEnd.{Within, expression_of, symbol_of, symbol_read, blank_level, read_on};
ghost use Rattle.ts_user.specs.Expressions.{part_of, within_of, at_level, read_by, AtLevelStart};

use crate::level::Level;
use crate::outline::is_expression;
use crate::part::{Part, bounded};
use crate::symbol::{Symbol, symbol_of};
use std::alloc::Global;
use ts_base::Memory;
use ts_regex::Regex;

/// The most bytes of an expression.
const BYTES: usize = 64;

/// The most nodes of an expression.
const NODES: usize = 256;

/// What has been read of a bracket level, and how many bytes of the word stand before that.
#[derive(Drop)]
pub(crate) struct Read {
    pub level: Level,
    pub left: usize,
}

/// The level after one byte more that is no bracket; None where it can't stand there.
fn read_byte(alloc: Global, byte: u8, level: Level) -> Result<Option<Level>, Memory>
    requires no_open { byte ≢ 40 }
    requires no_close { byte ≢ 41 }
    ensures { IfOk result (λ x. (outer : List Within) →
        option_map (at_level outer) x ≡ symbol_read 256 (symbol_of byte) (at_level outer level)) }
{
    match symbol_of(byte) {
        Some(Symbol::Sign(letter)) => {
            let atom = bounded(NODES, Regex::One(letter));
            Ok(Some(level.with_atom(alloc, NODES, atom)?))
        }
        Some(Symbol::Repeated(repeat)) => Ok(level.with_repeat(repeat)),
        Some(Symbol::Or) => level.with_or(alloc, NODES),
        Some(Symbol::Open) => Ok(None),
        Some(Symbol::Close) => Ok(None),
        None => Ok(None),
    }
}

/// The level after the bracketed atom whose `)` stands after the first `left` bytes; None where there is no such atom.
#[cycle(descent)]
fn read_bracketed(
    alloc: Global,
    word: &[u8],
    left: usize,
    around: Level,
) -> Result<Option<Read>, Memory>
    requires { left ≤ length word.now }
    ensures same { IfOk result (λ x. (outer : List Within) → read_by word.now outer x ≡
        read_on 256 (take left word.now) (record { inner = blank_level; outer = within_of around ∷ outer })) }
    ensures fewer { IfOk result (λ x. IfSome x (λ r. r.left ≤ left)) }
{
    let inner = match read_level(alloc, word, left)? {
        None => return Ok(None),
        Some(inner) => inner,
    };
    if inner.left == 0 {
        return Ok(None);
    }
    match inner.level.closed(alloc, NODES)? {
        None => Ok(None),
        Some(atom) => Ok(Some(Read {
            level: around.with_atom(alloc, NODES, atom)?,
            left: inner.left - 1,
        })),
    }
}

/// The level after one byte more, or a bracketed atom; None where it can't stand there.
#[cycle(descent)]
fn read_part(alloc: Global, word: &[u8], read: Read) -> Result<Option<Read>, Memory>
    requires some { 0 < read.left }
    requires within { read.left ≤ length word.now }
    requires no_open { get_or word.now (read.left - 1) 0 ≢ 40 }
    ensures same { IfOk result (λ x. (outer : List Within) →
        read_by word.now outer x ≡ read_on 256 (take read.left word.now) (at_level outer read.level)) }
    ensures fewer { IfOk result (λ x. IfSome x (λ r. r.left < read.left)) }
{
    let Read { level, left } = read;
    let left = left - 1;
    let byte = word[left];
    if byte == b')' {
        return read_bracketed(alloc, word, left, level);
    }
    match read_byte(alloc, byte, level)? {
        None => Ok(None),
        Some(level) => Ok(Some(Read { level, left })),
    }
}

/// The bracket level that ends where `left` bytes are left, read down to its `(` or the beginning of the word; None
/// where there is no such level.
#[cycle(descent)]
fn read_level(alloc: Global, word: &[u8], left: usize) -> Result<Option<Read>, Memory>
    requires { left ≤ length word.now }
    ensures same { IfOk result (λ x. (outer : List Within) → read_by word.now outer x ≡
        read_on 256 (take left word.now) (record { inner = blank_level; outer = outer })) }
    ensures ends { IfOk result (λ x. IfSome x (λ r. AtLevelStart word.now left r.left)) }
{
    let mut read = Read {
        level: Level::new(),
        left,
    };
    while read.left > 0 && word[read.left - 1] != b'(' {
        read = match read_part(alloc, word, read)? {
            Some(more) => more,
            None => return Ok(None),
        };
    }
    Ok(Some(read))
}

/// The expression that the word of at most 64 bytes is, or that it is too large; None where the word isn't in the
/// grammar.
#[tactic(auto, unfolding(crate::specs::FromTheEnd::expression_of))]
fn short_expression(alloc: Global, word: &[u8]) -> Result<Option<Part>, Memory>
    requires { length word.now ≤ 64 }
    ensures { IfOk result (λ p. option_map part_of p ≡ expression_of word.now) }
{
    match read_level(alloc, word, word.len())? {
        None => Ok(None),
        Some(read) => {
            if read.left == 0 {
                read.level.closed(alloc, NODES)
            } else {
                Ok(None)
            }
        }
    }
}

/// That the word of more than 64 bytes is too large; None where it isn't in the grammar.
fn long_expression(word: &[u8]) -> Option<Part>
    requires { 64 < length word.now }
    ensures { option_map part_of result ≡ expression_of word.now }
{
    if is_expression(word) {
        Some(Part::TooLarge)
    } else {
        None
    }
}

/// The expression that the word is, or that it is too large; None where the word isn't in the grammar.
pub(crate) fn expression_of(alloc: Global, word: &[u8]) -> Result<Option<Part>, Memory>
    ensures { IfOk result (λ p. option_map part_of p ≡ expression_of word.now) }
{
    if word.len() > BYTES {
        Ok(long_expression(word))
    } else {
        short_expression(alloc, word)
    }
}
