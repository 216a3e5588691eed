//! How a call of the program ends.

ghost use Rattle.std.specs.Prelude.{◌≡◌};
ghost use Rattle.ts_run.specs.Reply.{status_code};

/// How a call of the program ends.
#[derive(Clone, Copy, Debug, PartialEq, Eq)]
pub enum Status {
    Done,
    No,
    Refused,
    Budget,
    ReadFault,
    WriteFault,
    Memory,
}

impl Status {
    /// The exit status of the program, 0 to 6.
    pub fn code(self) -> u8
        ensures { result ≡ status_code self }
    {
        match self {
            Status::Done => 0,
            Status::No => 1,
            Status::Refused => 2,
            Status::Budget => 3,
            Status::ReadFault => 4,
            Status::WriteFault => 5,
            Status::Memory => 6,
        }
    }
}
