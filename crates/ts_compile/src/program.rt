//! The terms of a model with their machines.

ghost use Rattle.std.specs.Prelude.{◌≡◌};
ghost use Rattle.ts_compile.specs.Compiled.{HaveBodies, HavePairs, bodies_once, pairs_once};

use ts_glue::Machine;
use ts_pattern::Term;

/// The terms of a model, and the machine of each, in order.
#[derive(Drop)]
pub struct Program {
    pub(crate) terms: Vec<Term>,
    pub(crate) machines: Vec<Machine>,
    pub(crate) ghost bodies: { HaveBodies machines.items terms.items } by { bodies_once machines.items terms.items },
    pub(crate) ghost pairs: { HavePairs machines.items terms.items } by { pairs_once machines.items terms.items },
}

impl Program {
    /// The machines, one a term.
    pub fn machines(&self) -> &[Machine]
        ensures { result.now ≡ self.now.machines.items }
    {
        &self.machines
    }

    /// The machines, given away.
    pub fn into_machines(self) -> Vec<Machine>
        ensures { result ≡ self.machines }
    {
        self.machines
    }
}
