//! A machine that is borrowed, or owned.

ghost use Rattle.std.specs.Prelude.{◌≡◌};
ghost use Rattle.ts_filter.specs.HeldMachine.{machine_in};

use ts_glue::Machine;

/// The machine of tables. A search lends its machines; a checker, which outlives what it was made of, hands them over.
#[derive(Drop)]
pub(crate) enum HeldMachine<'a> {
    Lent(&'a Machine),
    Own(Machine),
}

impl<'a> HeldMachine<'a> {
    /// The machine.
    pub(crate) fn get(&self) -> &Machine
        ensures { result.now ≡ machine_in self.now }
    {
        match self {
            HeldMachine::Lent(machine) => machine,
            HeldMachine::Own(machine) => machine,
        }
    }
}
