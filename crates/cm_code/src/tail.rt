//! Code that is written from its end, so that the distance of a jump is known when the jump is written.

ghost use Rattle.std.specs.Prelude.{◌≡◌, ◌∷◌, [], IfOk, OnOk, length, reverse};

use crate::instr::Instr;
use cm_model::{List, NoMemory};
use std::alloc::Global;
use std::marker::Model;

/// The end of some code: its instructions from the last to the first.
#[derive(Drop)]
pub struct Tail {
    back: List<Instr>,
}

impl Model for Tail {
    ghost use Rattle.std.specs.Prelude.{List, reverse};
    ghost use Rattle.std.specs.Coded.{coded_list};
    ghost use Rattle.cm_code.specs.declared.instr.Instr.{Instr};
    ghost use Rattle.cm_code.specs.contracts.instr.Instr as instr;

    ghost Value = { List Instr };

    ghost coded = { coded_list instr.the_row.coded };

    ghost view = { λ t. reverse t.back };
}

impl Tail {
    /// No code.
    pub fn new(alloc: Global) -> Tail
        ensures { result ≡ [] }
    {
        Tail {
            back: List::new(alloc),
        }
    }

    /// An instruction before the others.
    pub fn put(&mut self, i: Instr) -> Result<(), NoMemory>
        ensures { OnOk result (self.new ≡ i ∷ self.old) }
    {
        self.back.push(i)?;
        Ok(())
    }

    /// How many instructions there are.
    pub fn len(&self) -> usize
        ensures { result ≡ length self.now }
    {
        self.back.len()
    }

    /// The code from the first instruction to the last.
    pub fn into_code(self, alloc: Global) -> Result<List<Instr>, NoMemory>
        ensures { IfOk result (λ code. code ≡ self) }
    {
        let Tail { back } = self;
        let code = reversed(alloc, back)?;
        Ok(code)
    }
}

/// The items from the last to the first.
pub fn reversed<T: Drop>(alloc: Global, items: List<T>) -> Result<List<T>, NoMemory>
    ensures { IfOk result (λ l. l ≡ reverse items) }
{
    let mut back = items;
    let mut out = List::new(alloc);
    'turns: while let Some(x) = back.pop() {
        out.push(x)?;
    }
    Ok(out)
}
