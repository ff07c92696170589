//! The cache lines of an entry.

ghost use Rattle.std.specs.Prelude.{◌≡◌, ◌↔◌, ℕ, ◌+◌, ◌*◌, ◌<◌};
ghost use Rattle.cm_mtrace.specs.Lines.{Covers, IsInRange};

use cm_mtrace::Entry;

/// The cache lines of an entry: the address of the first, and how many there are. Each next one is
/// 64 bytes further on.
#[derive(Clone, Copy, Debug, PartialEq, Eq)]
pub struct Lines {
    pub first: u64,
    pub count: u16,
}

/// The lines that hold a byte of the entry.
pub fn lines_of(e: &Entry) -> Lines
    requires { IsInRange e.now }
    ensures { (line : ℕ) → Covers e.now line ↔ ((k : ℕ) × (k < result.count) × (line ≡ result.first + 64 * k)) }
{
    let before = e.addr % 64;
    Lines {
        first: e.addr - before,
        count: ((before + u64::from(e.size) + 63) / 64) as u16,
    }
}
