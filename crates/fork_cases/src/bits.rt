//! Worlds of three bits, of which the first implies the second.

ghost use Rattle.std.specs.Prelude.{◌≡◌, ◌++◌, ◌∷◌, [], ℕ, List, IfOk, IsTrue};
ghost use Rattle.fork_cases.specs.Worlds.{prefix_of};

use cm_ctx::{Mask, Steps};
use cm_forks::{Ask, Node};
use cm_model::NoMemory;
use std::sync::ledger::Ledger;

/// What was decided so far.
#[derive(Clone, Copy)]
pub enum Place {
    Start,
    Low,
    High,
    LowLow,
    LowHigh,
    HighHigh,
    LowEnd(bool),
    HighEnd(bool),
}

/// A place in the worlds of a subject.
#[derive(Clone, Copy)]
pub struct Bits {
    /// The subject: whether the last question touches a cell too many.
    pub wide: bool,
    pub place: Place,
}

/// The place after one more decision; want of memory stands for those that no world takes.
pub fn after(place: Place, outcome: u8) -> Result<Place, NoMemory>
    ensures { IfOk result (λ next. prefix_of next ≡ prefix_of place ++ outcome ∷ []) }
{
    match (place, outcome) {
        (Place::Start, 0) => Ok(Place::Low),
        (Place::Start, 1) => Ok(Place::High),
        (Place::Low, 0) => Ok(Place::LowLow),
        (Place::Low, 1) => Ok(Place::LowHigh),
        (Place::High, 1) => Ok(Place::HighHigh),
        (Place::LowHigh, 0) => Ok(Place::LowEnd(false)),
        (Place::LowHigh, 1) => Ok(Place::LowEnd(true)),
        (Place::HighHigh, 0) => Ok(Place::HighEnd(false)),
        (Place::HighHigh, 1) => Ok(Place::HighEnd(true)),
        _ => Err(NoMemory),
    }
}

// The question for the last bit.
fn last_question(wide: bool) -> Ask
    ensures wide { result ≡ Ask.Cells → IsTrue wide }
    ensures goes_on { result ≡ Ask.End → ⊥ }
{
    if wide { Ask::Cells } else { Ask::Question }
}

impl Node for Bits {
    ghost use Rattle.fork_cases.specs.Worlds.{has_path as is_path, prefix_of, Waits, IsWide, IsShort};

    type Subject = bool;

    ghost has_path = { is_path };

    ghost over_cells = { IsWide };

    ghost shown = { IsShort };

    ghost about = { λ b. b.wide };

    ghost prefix = { λ b. prefix_of b.place };

    ghost fresh = { λ _. Unit {0} };

    ghost waits = { λ b. Waits b.place };

    ghost whole = { λ _. Unit {0} };

    fn subject(&self) -> bool {
        self.wide
    }

    fn ask(&mut self) -> Result<Ask, NoMemory> {
        match self.place {
            Place::Start => Ok(Ask::Question),
            Place::Low => Ok(Ask::Question),
            Place::High => Ok(Ask::Question),
            Place::LowLow => Ok(Ask::End),
            Place::LowHigh => Ok(last_question(self.wide)),
            Place::HighHigh => Ok(last_question(self.wide)),
            Place::LowEnd(_) => Ok(Ask::End),
            Place::HighEnd(_) => Ok(Ask::End),
        }
    }

    fn outcomes(&self) -> Mask {
        match self.place {
            Place::Start => Mask(3),
            Place::Low => Mask(3),
            Place::High => Mask(2),
            Place::LowHigh => Mask(3),
            Place::HighHigh => Mask(3),
            Place::LowLow => unreachable!(),
            Place::LowEnd(_) => unreachable!(),
            Place::HighEnd(_) => unreachable!(),
        }
    }

    fn follow(&mut self, outcome: u8) -> Result<(), NoMemory> {
        self.place = after(self.place, outcome)?;
        Ok(())
    }

    fn add<L: Ledger>(&mut self, outcome: u8, steps: &mut Steps<L>) -> Result<(), NoMemory> {
        self.place = after(self.place, outcome)?;
        steps.tick();
        Ok(())
    }

    fn depth(&self) -> usize {
        match self.place {
            Place::Start => 0,
            Place::Low => 1,
            Place::High => 1,
            Place::LowLow => 2,
            Place::LowHigh => 2,
            Place::HighHigh => 2,
            Place::LowEnd(_) => 3,
            Place::HighEnd(_) => 3,
        }
    }

    fn path(&self) -> &[u8] {
        match self.place {
            Place::Start => &[],
            Place::Low => &[0],
            Place::High => &[1],
            Place::LowLow => &[0, 0],
            Place::LowHigh => &[0, 1],
            Place::HighHigh => &[1, 1],
            Place::LowEnd(false) => &[0, 1, 0],
            Place::LowEnd(true) => &[0, 1, 1],
            Place::HighEnd(false) => &[1, 1, 0],
            Place::HighEnd(true) => &[1, 1, 1],
        }
    }

    fn try_copy(&self) -> Result<Bits, NoMemory> {
        Ok(*self)
    }
}
