//! What takes the bytes of a source piece by piece.

ghost use Rattle.std.specs.Prelude.{ℕ, ◌≡◌, List, ◌++◌, OnOk};

use crate::error::Memory;

/// Takes bytes in pieces. What was taken may be kept or not: `took` says of which bytes it comes.
pub trait Intake {
    ghost took: { List ℕ → Self → Type 0 };

    /// Takes the next piece.
    fn take(&mut self, piece: &[u8]) -> Result<(), Memory>
        ensures { OnOk result ((bytes : List ℕ) → took bytes self.old → took (bytes ++ piece.now) self.new) };
}

/// Keeps all bytes.
impl Intake for Vec<u8> {
    ghost took = { λ bytes kept. kept.items ≡ bytes };

    fn take(&mut self, piece: &[u8]) -> Result<(), Memory> {
        self.extend_from_slice(piece)?;
        Ok(())
    }
}
