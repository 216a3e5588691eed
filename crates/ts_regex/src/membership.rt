//! Membership of a word in a language.

ghost use Rattle.std.specs.Prelude.{◌↔◌, IfOk, IsTrue};
ghost use Rattle.ts_regex.specs.Shape.{shape_of};
ghost use Rattle.ts_regex.specs.Language.{InLanguage};

use crate::derivative::nullable;
use crate::normal_form::{normal, residual};
use crate::regex::Regex;
use std::alloc::Global;
use ts_base::{Letter, Memory};

/// Whether `w` is in the language. Each letter is read once, and what is left is simplified after it.
pub fn member(alloc: Global, r: &Regex, w: &[Letter]) -> Result<bool, Memory>
    ensures { IfOk result (λ b. IsTrue b ↔ InLanguage (shape_of r.now) w.now) }
{
    let mut rest = normal(alloc, r)?;
    for l in w {
        rest = residual(alloc, &rest, *l)?;
    }
    Ok(nullable(&rest))
}
