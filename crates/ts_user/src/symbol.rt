//! The symbols of an expression.

ghost use Rattle.std.specs.Prelude.{◌≡◌};
ghost use Rattle.ts_user.specs.FromTheEnd.{symbol_of};

use ts_base::Letter;

/// How often what stands before it comes.
#[derive(Clone, Copy)]
pub(crate) enum Repeat {
    AnyTimes,
    OnceOrMore,
}

/// What a byte of an expression is.
#[derive(Clone, Copy)]
pub(crate) enum Symbol {
    Sign(Letter),
    Open,
    Close,
    Repeated(Repeat),
    Or,
}

/// The symbol of a byte.
pub(crate) fn symbol_of(byte: u8) -> Option<Symbol>
    ensures { result ≡ symbol_of byte }
{
    match byte {
        b'<' => Some(Symbol::Sign(Letter::Less)),
        b'=' => Some(Symbol::Sign(Letter::Equal)),
        b'>' => Some(Symbol::Sign(Letter::Greater)),
        b'(' => Some(Symbol::Open),
        b')' => Some(Symbol::Close),
        b'*' => Some(Symbol::Repeated(Repeat::AnyTimes)),
        b'+' => Some(Symbol::Repeated(Repeat::OnceOrMore)),
        b'|' => Some(Symbol::Or),
        _ => None,
    }
}
