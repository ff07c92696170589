//! Symbols: named parts of arguments and of cells.

ghost use Rattle.std.specs.Prelude.{◌≡◌, ◌<◌, ◌≤◌, [], ◌∷◌, ◌++◌, length, IfOk, IsOk};
ghost use Rattle.cm_term.specs.Symbols.{steps_in_place};

use cm_model::NoMemory;
use smallvec::SmallVec;
use std::alloc::Global;
use std::marker::Model;

/// One step into a value.
#[derive(Clone, Copy, Default, PartialEq, Eq)]
pub enum Step {
    /// Into the record's field with this number.
    Field(u16),
    /// Into the payload of an option.
    #[default]
    Payload,
}

/// The value that a symbol begins with.
#[derive(Clone, Copy, PartialEq, Eq)]
pub enum Root {
    /// An argument of the call a, by its number.
    A(u16),
    /// An argument of the call b, by its number.
    B(u16),
    /// The initial value of a touched cell, by its number in the order of first touch.
    Cell(u8),
}

/// A part of an argument or of a cell's initial value.
#[derive(Drop)]
pub struct Sym {
    /// Of which value.
    pub root: Root,
    /// Which part of it.
    pub path: SymPath,
}

impl Sym {
    /// An equal symbol. It takes no memory where its steps stand in place.
    ///
    /// # Errors
    /// `NoMemory` where memory runs out.
    pub fn try_copy(&self) -> Result<Sym, NoMemory>
        ensures equal { IfOk result (λ copy. copy ≡ self.now) }
        ensures in_place { length self.now.path ≤ steps_in_place → IsOk result }
    {
        let path = self.path.try_copy()?;
        Ok(Sym {
            root: self.root,
            path,
        })
    }
}

/// A list of steps, in place while it is short.
#[derive(Drop)]
pub struct SymPath {
    steps: SmallVec<Step, 8>,
}

impl Model for SymPath {
    ghost use Rattle.std.specs.Prelude.{List};
    ghost use Rattle.cm_term.specs.declared.symbol.Step.{Step};

    ghost Value = { List Step };

    ghost view = { λ p. p.steps.items };
}

impl SymPath {
    /// No step. The path keeps the allocator.
    pub fn new(alloc: Global) -> SymPath
        ensures empty { result ≡ [] }
    {
        SymPath {
            steps: SmallVec::new(alloc),
        }
    }

    /// The path with one more step. It takes no memory where that one stands in place too.
    ///
    /// # Errors
    /// `NoMemory` where memory runs out.
    pub fn then(&self, step: Step) -> Result<SymPath, NoMemory>
        ensures steps { IfOk result (λ p. p ≡ self.now ++ step ∷ []) }
        ensures in_place { length self.now < steps_in_place → IsOk result }
    {
        let mut steps = SmallVec::from_slice(*self.steps.allocator(), self.steps.as_slice())?;
        steps.push(step)?;
        Ok(SymPath { steps })
    }

    /// An equal path. It takes no memory where the steps stand in place.
    ///
    /// # Errors
    /// `NoMemory` where memory runs out.
    pub fn try_copy(&self) -> Result<SymPath, NoMemory>
        ensures equal { IfOk result (λ copy. copy ≡ self.now) }
        ensures in_place { length self.now ≤ steps_in_place → IsOk result }
    {
        let steps = SmallVec::from_slice(*self.steps.allocator(), self.steps.as_slice())?;
        Ok(SymPath { steps })
    }

    /// Lends the steps in order.
    pub fn as_slice(&self) -> &[Step]
        ensures steps { result.now ≡ self.now }
    {
        self.steps.as_slice()
    }
}
