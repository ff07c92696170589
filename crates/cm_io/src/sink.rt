//! What takes bytes.

ghost use Rattle.std.specs.Prelude.{◌≡◌, ◌≤◌, ℕ, List, [], IsOk, OnErr};
ghost use Rattle.std.specs.declared.option.Option.{Option};
ghost use Rattle.cm_io.specs.Causes.{Rose};
ghost use Rattle.cm_io.specs.Sink.{PutTakes};

use crate::Failed;

/// Takes bytes, piece by piece.
pub trait Sink {
    /// All bytes that it has taken, where it tells them.
    ghost written: { Self → Option (List ℕ) };

    /// The count of its faults.
    ghost faults: { Self → ℕ };

    /// Takes the whole piece, or at `Failed` a prefix of it. An empty piece changes nothing.
    fn put(&mut self, bytes: &[u8]) -> Result<(), Failed>
        ensures taken { PutTakes (written self.old) (written self.new) result bytes.now }
        ensures later { faults self.old ≤ faults self.new }
        ensures cause { OnErr result (Rose (faults self.old) (faults self.new)) }

        // an empty piece
        ensures empty { bytes.now ≡ [] → IsOk result }
        ensures empty_written { bytes.now ≡ [] → written self.new ≡ written self.old }
        ensures empty_faults { bytes.now ≡ [] → faults self.new ≡ faults self.old };
}
