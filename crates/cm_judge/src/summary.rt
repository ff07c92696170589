//! What is kept of the accesses to a cache line.

ghost use Rattle.std.specs.Prelude.{◌≡◌, ◌≢◌, List, ◌↔◌, ◌⊎◌, ◌<◌, ◌≤◌, ℕ, IsTrue, min, max};
ghost use Rattle.cm_mtrace.specs.declared.item.Who.{Who};
ghost use Rattle.cm_mtrace.specs.declared.item.Who.TheVariants.{A, B, Other};
ghost use Rattle.cm_mtrace.specs.declared.item.Kind.{Kind};
ghost use Rattle.cm_mtrace.specs.declared.item.Kind.TheVariants.{Read, Write};
ghost use Rattle.cm_judge.specs.Conflicts.{IsConflictLine};
ghost use Rattle.cm_mtrace.specs.declared.item.Entry.{Entry};
ghost use Rattle.cm_judge.specs.Summary.{cores_of, no_cores, place, union_of, with_core, Differ, IsSummaryOf};

use cm_mtrace::{Entry, Kind, Who};

/// The least and the greatest of some cores: all that a conflict asks of them. Where there are
/// none, the least is above the greatest.
#[derive(Clone, Copy, Debug, PartialEq, Eq)]
pub(crate) struct Cores {
    least: u16,
    greatest: u16,
}

impl Cores {
    fn none() -> Cores
        ensures { result ≡ no_cores }
    {
        Cores {
            least: u16::MAX,
            greatest: 0,
        }
    }

    fn is_empty(self) -> bool
        ensures { IsTrue result ↔ (self.greatest < self.least) }
    {
        self.greatest < self.least
    }

    // Some core of the one is another than some core of the other.
    fn differ(self, other: Cores) -> bool
        ensures { IsTrue result ↔ Differ self other }
    {
        !self.is_empty()
            & !other.is_empty()
            & ((self.least != other.greatest) | (self.greatest != other.least))
    }

    fn union(self, other: Cores) -> Cores
        ensures { result ≡ union_of self other }
    {
        if self.is_empty() {
            other
        } else if other.is_empty() {
            self
        } else {
            Cores {
                least: self.least.min(other.least),
                greatest: self.greatest.max(other.greatest),
            }
        }
    }

    fn with(self, core: u16) -> Cores
        ensures { result ≡ with_core self core }
    {
        Cores {
            least: self.least.min(core),
            greatest: self.greatest.max(core),
        }
    }
}

// A sum, so that it compiles to no branch: which mark and kind comes next can't be foreseen.
fn place_of(who: Who, kind: Kind) -> usize
    requires { who ≢ Other }
    ensures { result ≡ place who kind }
{
    2 * usize::from(who == Who::B) + usize::from(kind == Kind::Write)
}

/// What is kept of the accesses to a line: the cores of call a's reads, its writes, call b's reads
/// and its writes.
#[derive(Clone, Copy, Debug, PartialEq, Eq)]
pub(crate) struct LineSummary {
    cores: [Cores; 4],
}

impl LineSummary {
    /// What is kept where there was no access.
    pub(crate) fn blank() -> LineSummary
        ensures { (who : Who) (kind : Kind) → cores_of result who kind ≡ no_cores }
    {
        LineSummary {
            cores: [Cores::none(); 4],
        }
    }

    fn cores(&self, who: Who, kind: Kind) -> Cores
        requires { who ≢ Other }
        ensures { result ≡ cores_of self.now who kind }
    {
        self.cores[place_of(who, kind)]
    }

    fn union_at(&self, other: &LineSummary, who: Who, kind: Kind) -> Cores
        requires { who ≢ Other }
        ensures { result ≡ union_of (cores_of self.now who kind) (cores_of other.now who kind) }
    {
        self.cores(who, kind).union(other.cores(who, kind))
    }

    /// What is kept of the accesses to a line, where each of the two was kept of some.
    pub(crate) fn union(&self, other: &LineSummary) -> LineSummary
        ensures { (who : Who) (kind : Kind) → who ≢ Other
            → cores_of result who kind ≡ union_of (cores_of self.now who kind) (cores_of other.now who kind) }
    {
        LineSummary {
            cores: [
                self.union_at(other, Who::A, Kind::Read),
                self.union_at(other, Who::A, Kind::Write),
                self.union_at(other, Who::B, Kind::Read),
                self.union_at(other, Who::B, Kind::Write),
            ],
        }
    }

    // An access of this kind by call a and one of the other by call b were made by different cores.
    fn differ(&self, kind: Kind, other: Kind) -> bool
        ensures { IsTrue result ↔ Differ (cores_of self.now A kind) (cores_of self.now B other) }
    {
        self.cores(Who::A, kind).differ(self.cores(Who::B, other))
    }

    // A write of one call and an access of the other were made by different cores. All three are asked, so
    // that it compiles to no branch.
    fn some_differ(&self) -> bool
        ensures { IsTrue result ↔ (Differ (cores_of self.now A Write) (cores_of self.now B Write)
            ⊎ (Differ (cores_of self.now A Write) (cores_of self.now B Read)
            ⊎ Differ (cores_of self.now A Read) (cores_of self.now B Write))) }
    {
        self.differ(Kind::Write, Kind::Write)
            | self.differ(Kind::Write, Kind::Read)
            | self.differ(Kind::Read, Kind::Write)
    }

    /// A write of one call and an access of the other were made by different cores.
    pub(crate) fn is_conflict(&self) -> bool
        ensures { (entries : List Entry) (line : ℕ) → IsSummaryOf self.now entries line
            → (IsTrue result ↔ IsConflictLine entries line) }
    {
        self.some_differ()
    }

    /// Adds an access to the line.
    pub(crate) fn add(&mut self, e: &Entry)
        requires { e.now.who ≢ Other }
        ensures own { cores_of self.new e.now.who e.now.kind ≡ with_core
            (cores_of self.old e.now.who e.now.kind) e.now.core }
        ensures others { (who : Who) (kind : Kind) → (who ≢ e.now.who) ⊎ (kind ≢ e.now.kind)
            → cores_of self.new who kind ≡ cores_of self.old who kind }
        ensures small { e.now.core ≤ 65535 }
    {
        let place = place_of(e.who, e.kind);
        self.cores[place] = self.cores[place].with(e.core);
    }
}
