//! What gives the bytes of files.

ghost use Rattle.std.specs.Prelude.{◌≤◌, ℕ, List, length, IfOk, OnErr};
ghost use Rattle.std.specs.declared.option.Option.{Option};
ghost use Rattle.cm_io.specs.Causes.{Rose};
ghost use Rattle.cm_io.specs.Shelf.{Fetches, NoneFalls, SameFiles};

use crate::Failed;

/// Gives the bytes of files by name.
pub trait Shelf {
    /// What it tells of a name: nothing, or that there is no such file, or the file's bytes.
    ghost held: { Self → List ℕ → Option (Option (List ℕ)) };

    /// The count of faults of each name.
    ghost faults: { Self → List ℕ → ℕ };

    /// Fills the buffer's beginning with the bytes of the file from a place on, counted in bytes
    /// from 0, and says with how many. `Ok(0)` for a buffer with room is the end of the file.
    fn fetch(&mut self, name: &str, from: u64, buf: &mut [u8]) -> Result<usize, Failed>
        ensures bound { IfOk result (λ n. n ≤ length buf.new) }
        ensures bytes { Fetches (held self.old name.now) from result buf.new }
        ensures same { SameFiles (held self.old) (held self.new) }
        ensures later { NoneFalls (faults self.old) (faults self.new) }
        ensures cause { OnErr result (Rose (faults self.old name.now) (faults self.new name.now)) };
}
