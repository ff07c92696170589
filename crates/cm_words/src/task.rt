//! Tasks.

use cm_model::Name;

/// What the words ask for.
#[derive(Debug, Drop)]
pub enum Task {
    /// The conflict lines of a trace.
    Judge { file: Name },
    /// The model of POSIX calls.
    Posix,
}

/// Why words give no task.
#[derive(Clone, Copy, Debug, PartialEq, Eq)]
pub enum WordsFault {
    /// The words are no command.
    Usage,
    /// Memory ran out.
    Memory,
}
