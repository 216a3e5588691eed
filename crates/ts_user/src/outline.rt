//! Whether a word is an expression, judged by its outline alone, so that no part of a long word is kept.

ghost use Rattle.std.specs.Prelude.{◌≡◌, ◌+◌, ◌<◌, ◌≤◌, is_some, IfSome};
ghost use Rattle.ts_user.specs.FromTheEnd.{expression_of, symbol_of};
ghost use Rattle.ts_user.specs.Outlines.{blank_outline, outline_read, byte_outlined, is_whole};

use crate::symbol::{Symbol, symbol_of};

/// What stands at the front of what has been read of a bracket level.
#[derive(Clone, Copy)]
pub(crate) enum Front {
    /// Nothing yet, or a `|`.
    Blank,
    /// A repeat sign, whose atom is to come.
    Repeat,
    /// An atom.
    Atom,
}

/// The front of the innermost bracket level, and how many levels are open around it: all that decides if an
/// expression that is read from its end is one.
#[derive(Clone, Copy)]
pub(crate) struct Outline {
    pub front: Front,
    pub depth: usize,
}

impl Outline {
    /// Nothing has been read.
    fn new() -> Outline
        ensures { result ≡ blank_outline }
    {
        Outline {
            front: Front::Blank,
            depth: 0,
        }
    }

    /// The outline with this front.
    fn with_front(self, front: Front) -> Outline
        ensures { result ≡ record self { front = front } }
    {
        Outline { front, ..self }
    }

    /// The outline after one symbol more; None where it can't stand there.
    fn read(self, symbol: Symbol) -> Option<Outline>
        requires room { self.depth < 18446744073709551615 }
        ensures exact { result ≡ outline_read symbol self }
        ensures one_more { IfSome result (λ x. x.depth ≤ self.depth + 1) }
    {
        match (symbol, self.front) {
            (Symbol::Sign(_), _) => Some(self.with_front(Front::Atom)),
            (Symbol::Close, _) => Some(Outline {
                front: Front::Blank,
                depth: self.depth + 1,
            }),
            (Symbol::Open, Front::Atom) if self.depth > 0 => Some(Outline {
                front: Front::Atom,
                depth: self.depth - 1,
            }),
            (Symbol::Or, Front::Atom) => Some(self.with_front(Front::Blank)),
            (Symbol::Repeated(_), Front::Blank | Front::Atom) => Some(self.with_front(
                Front::Repeat,
            )),
            _ => None,
        }
    }

    /// The outline after one byte more; None where it can't stand there.
    fn read_byte(self, byte: u8) -> Option<Outline>
        requires room { self.depth < 18446744073709551615 }
        ensures exact { result ≡ byte_outlined (symbol_of byte) self }
        ensures one_more { IfSome result (λ x. x.depth ≤ self.depth + 1) }
    {
        match symbol_of(byte) {
            None => None,
            Some(symbol) => self.read(symbol),
        }
    }

    /// Whether all that was read is an expression.
    fn is_whole(self) -> bool
        ensures { result ≡ is_whole self }
    {
        match self.front {
            Front::Atom => self.depth == 0,
            _ => false,
        }
    }
}

/// Whether the word is in the grammar.
pub(crate) fn is_expression(word: &[u8]) -> bool
    ensures { result ≡ is_some (expression_of word.now) }
{
    let mut outline = Outline::new();
    let mut left = word.len();
    while left > 0 {
        left -= 1;
        outline = match outline.read_byte(word[left]) {
            Some(more) => more,
            None => return false,
        };
    }
    outline.is_whole()
}
