ghost use Rattle.std.specs.Prelude.{◌≡◌};

/// How a call of the program ends.
#[derive(Clone, Copy, Debug, PartialEq, Eq)]
pub enum Status {
    /// The input was read to its end, and the whole text was written.
    Done,
    /// The same, where the text says that the journal of an audit isn't the machine's.
    Illegal,
    /// The arguments ask for no command that is built.
    Usage,
    /// The input has a fault: the line, counted from 1, and the kind of the first.
    BadScript { line: u32, kind: u8 },
    /// A read failed.
    ReadFault,
    /// A write failed.
    WriteFault,
    /// There was no memory.
    OutOfMemory,
}

impl Status {
    ghost use Rattle.ev_app.specs.Exit.{exit_of};

    /// The exit status of the process: 0 to 6 in the order in which the statuses are listed.
    pub fn exit_status(self) -> u8
        ensures { result ≡ exit_of self }
    {
        match self {
            Status::Done => 0,
            Status::Illegal => 1,
            Status::Usage => 2,
            Status::BadScript { .. } => 3,
            Status::ReadFault => 4,
            Status::WriteFault => 5,
            Status::OutOfMemory => 6,
        }
    }
}
