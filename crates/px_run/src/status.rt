//! What a run of the program came to.

ghost use Rattle.std.specs.Prelude.{◌≡◌};
ghost use Rattle.px_run.specs.Run.{status_code};

/// What a run of the program came to.
#[derive(Clone, Copy, Debug, PartialEq, Eq)]
pub enum Status {
    /// The input was read to its end, and all that its lines print went out.
    Done,
    /// The words are no command.
    Usage,
    /// The input failed.
    ReadFault,
    /// The output failed.
    WriteFault,
    /// The input is bad at one of its lines, or too long.
    BadInput,
    /// Memory wanted.
    Memory,
}

impl Status {
    /// The exit status of the process.
    pub fn code(self) -> u8
        ensures { result ≡ status_code self }
    {
        match self {
            Status::Done => 0,
            Status::Usage => 2,
            Status::ReadFault => 3,
            Status::WriteFault => 4,
            Status::BadInput => 6,
            Status::Memory => 7,
        }
    }
}
