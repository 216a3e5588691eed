//! What is known of a plan's residuals, by their numbers, so that a step compares numbers alone.

ghost use Rattle.std.specs.Prelude.{◌≡◌, ◌<◌, length, map, IfOk};
ghost use Rattle.ts_base.specs.Limits.{too_many};
ghost use Rattle.ts_regex.specs.Shape.{shape_of};
ghost use Rattle.ts_forms.specs.Nodes.{form_at};
ghost use Rattle.ts_validate.specs.Numbers.{known_of, table_of, known_at, next_on};
ghost use Rattle.ts_validate.specs.ResidualTables.{residuals_of, IsSound};

use crate::residuals::Residuals;
use crate::words::Words;
use std::alloc::Global;
use ts_base::{Letter, Memory};
use ts_regex::Regex;

/// A residual: the numbers of the residuals after each letter, the least number with its value, and which words it
/// has.
#[derive(Clone, Copy)]
pub struct Knowledge {
    pub less: u32,
    pub equal: u32,
    pub greater: u32,
    pub own: u32,
    pub words: Words,
}

/// What stands past the last residual.
pub const UNKNOWN: Knowledge = Knowledge {
    less: 0,
    equal: 0,
    greater: 0,
    own: 0,
    words: Words {
        nullable: false,
        longer: false,
    },
};

impl Knowledge {
    /// The number of the residual after a letter.
    pub fn next(&self, letter: Letter) -> u32
        ensures { result ≡ next_on letter self.now }
    {
        match letter {
            Letter::Less => self.less,
            Letter::Equal => self.equal,
            Letter::Greater => self.greater,
        }
    }
}

/// What is known of residual `i`; nothing past the last.
pub fn look_up(table: &[Knowledge], i: u32) -> Knowledge
    ensures { result ≡ known_at table.now i }
{
    match table.get(i as usize) {
        Some(known) => *known,
        None => UNKNOWN,
    }
}

fn know(alloc: Global, residuals: &mut Residuals, i: usize) -> Result<Knowledge, Memory>
    requires sound { IsSound residuals.old }
    requires there { i < length residuals.old.numbers.items }
    requires room { length residuals.old.numbers.items < too_many }
    ensures sound { IfOk result (λ _. IsSound residuals.new) }
    ensures numbers { IfOk result (λ _. residuals.new.numbers.items ≡ residuals.old.numbers.items) }
    ensures residuals { IfOk result (λ _. residuals_of residuals.new ≡ residuals_of residuals.old) }
    ensures known { IfOk result (λ k. k
        ≡ known_of (residuals_of residuals.old) (form_at (residuals_of residuals.old) i)) }
{
    let less = residuals.next(alloc, i, Letter::Less)?;
    let equal = residuals.next(alloc, i, Letter::Equal)?;
    let greater = residuals.next(alloc, i, Letter::Greater)?;
    let form = residuals.form(i);
    Ok(Knowledge {
        less,
        equal,
        greater,
        own: residuals.number(form),
        words: residuals.words(form),
    })
}

/// What is known of each residual.
pub fn know_all(alloc: Global, residuals: &[Regex]) -> Result<Vec<Knowledge>, Memory>
    requires { length residuals.now < too_many }
    ensures { IfOk result (λ table. table.items ≡ table_of (map (λ s. shape_of s) residuals.now)) }
{
    let mut listed = Residuals::of(alloc, residuals)?;
    let mut table = Vec::new(alloc);
    for i in 0..residuals.len() {
        table.push(know(alloc, &mut listed, i)?)?;
    }
    Ok(table)
}
