//! How a task ended.

use crate::Status;

/// How a run ended, with what its line names.
#[derive(Clone, Copy, Debug)]
pub enum Outcome<'a> {
    Done,
    Conflicts,
    Usage,
    ReadFault { file: &'a str },
    TooLong { file: &'a str },
    /// The first bad line of a trace, counted from 1.
    BadTraceLine { file: &'a str, line: u64 },
    WriteFault,
    Memory,
}

impl Outcome<'_> {
    ghost use Rattle.std.specs.Prelude.{◌≡◌};
    ghost use Rattle.cm_top.specs.Endings.{status_of};

    pub fn status(&self) -> Status
        ensures { result ≡ status_of self.now }
    {
        match self {
            Outcome::Done => Status::Done,
            Outcome::Conflicts => Status::Conflicts,
            Outcome::Usage => Status::Usage,
            Outcome::ReadFault { .. } => Status::ReadFault,
            Outcome::TooLong { .. } => Status::TooLong,
            Outcome::BadTraceLine { .. } => Status::Refused,
            Outcome::WriteFault => Status::WriteFault,
            Outcome::Memory => Status::Memory,
        }
    }
}
