//! How the program ended.

/// How the program ended.
#[derive(Clone, Copy, Debug, PartialEq, Eq)]
pub enum Status {
    /// All of the output was written.
    Done,
    /// A file's bytes are not what the command reads.
    Refused,
    /// The words are no command.
    Usage,
    /// A file could not be read.
    ReadFault,
    /// The output could not be written.
    WriteFault,
    /// Memory ran out.
    Memory,
    /// A pair is over its limits.
    Over,
    /// A file is longer than its limit.
    TooLong,
    /// All of the output was written, and a section has a conflict line.
    Conflicts,
}

impl Status {
    ghost use Rattle.std.specs.Prelude.{◌≡◌};
    ghost use Rattle.cm_top.specs.Status.{number_of};

    /// The exit status of the process.
    pub fn number(&self) -> u8
        ensures { result ≡ number_of self.now }
    {
        match self {
            Status::Done => 0,
            Status::Refused => 1,
            Status::Usage => 2,
            Status::ReadFault => 3,
            Status::WriteFault => 4,
            Status::Memory => 5,
            Status::Over => 6,
            Status::TooLong => 7,
            Status::Conflicts => 8,
        }
    }
}
