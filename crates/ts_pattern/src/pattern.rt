//! A pattern.

ghost use Rattle.std.specs.Prelude.{◌≡◌, IfOk};
ghost use Rattle.ts_regex.specs.Shape.{shape_of};

use std::alloc::Global;
use ts_base::Memory;
use ts_regex::Regex;

/// A pattern: the expression of its words, and the cells trimmed before (`b`) and after (`a`).
#[derive(Debug, Drop)]
pub struct Pattern {
    pub regex: Regex,
    pub b: u8,
    pub a: u8,
}

impl Pattern {
    /// A copy of the pattern; `Memory` where none is left.
    pub fn try_clone(&self, alloc: Global) -> Result<Pattern, Memory>
        ensures regex { IfOk result (λ p. shape_of p.regex ≡ shape_of self.now.regex) }
        ensures b { IfOk result (λ p. p.b ≡ self.now.b) }
        ensures a { IfOk result (λ p. p.a ≡ self.now.a) }
    {
        Ok(Pattern {
            regex: self.regex.try_clone(alloc)?,
            b: self.b,
            a: self.a,
        })
    }
}
