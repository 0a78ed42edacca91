ghost use Rattle.std.specs.Prelude.{◌≡◌};
ghost use Rattle.ev_script.specs.Faults.{fault_number};

/// The kinds of faults: why an input is no script.
#[derive(Clone, Copy, Debug, PartialEq, Eq)]
pub enum FaultKind {
    /// Kind 1: a line has more than 4,194,304 bytes.
    TooLong,
    /// Kind 2: there are more than 200,000 lines.
    TooMany,
    /// Kind 3: there are more than 67,108,864 bytes.
    TooLarge,
    /// Kind 4: a line isn't JSON in UTF-8, or nests deeper than 127.
    NotJson,
    /// Kind 5: the first line isn't a header.
    NotHeader,
    /// Kind 6: another line isn't an operation, or a member of it hasn't its form.
    NotLine,
    /// Kind 7: a worker isn't below the header's count.
    NoSuchWorker,
    /// Kind 8: there is no byte.
    NoByte,
    /// Kind 9: in an audit's input the journal after the script isn't one, or is missing.
    NotJournal,
}

impl FaultKind {
    /// The number of the kind, which the program prints.
    pub fn number(self) -> u8
        ensures { result ≡ fault_number self }
    {
        match self {
            FaultKind::TooLong => 1,
            FaultKind::TooMany => 2,
            FaultKind::TooLarge => 3,
            FaultKind::NotJson => 4,
            FaultKind::NotHeader => 5,
            FaultKind::NotLine => 6,
            FaultKind::NoSuchWorker => 7,
            FaultKind::NoByte => 8,
            FaultKind::NotJournal => 9,
        }
    }
}
