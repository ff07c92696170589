//! The touched cells.

ghost use Rattle.std.specs.Prelude.{◌≡◌, ◌<◌, ◌↔◌, ◌≤◌, Some, length, map, slice_get, IfOk, OnOk, OnErr, IsOk, IsErrOf};
ghost use Rattle.std.specs.Option.{option_copied};
ghost use Rattle.cm_model.specs.Limits.{cell_limit};
ghost use Rattle.cm_cells.specs.declared.cells.CellsFault.TheVariants as fault;
ghost use Rattle.cm_cells.specs.CellTable.{CellTable, Place, no_cells, place, with_cell, with_term, started_anew};
ghost use Rattle.cm_cells.specs.CellTable.{terms_in, IsTable};
ghost use Rattle.cm_cells.specs.Touching.{next_of};

use crate::cell::{self, Cell};
use crate::order::Order;
use crate::search::{self, Touched};
use cm_model::{List, NoMemory, limits};
use cm_term::Term;
use std::alloc::Global;
use std::marker::Model;
use thiserror::Error;

/// A cell was not added.
#[derive(Debug, Drop, Error)]
pub enum CellsFault {
    /// There are as many cells as a path may touch.
    #[error("too many cells")]
    TooMany,
    /// Memory ran out.
    #[error("out of memory")]
    Memory,
}

impl From<NoMemory> for CellsFault {
    ghost use Rattle.cm_model.specs.Limits.{cell_limit};
    ghost use Rattle.cm_cells.specs.declared.cells.CellsFault.TheVariants.{Memory};

    ghost from_gives = { λ _ e. e ≡ Memory };

    fn from(_: NoMemory) -> CellsFault {
        CellsFault::Memory
    }
}

/// The distinct cells touched so far, in the order of first touch, and what each holds in each order.
///
/// A copy costs a pointer for each cell, and one for each term that an order wrote.
#[derive(Drop)]
pub struct Cells {
    cells: Vec<Cell>,
}

impl Model for Cells {
    ghost use Rattle.std.specs.Prelude.{◌≤◌, length};
    ghost use Rattle.std.specs.Coded.{codes};
    ghost use Rattle.cm_model.specs.Limits.{cell_limit};
    ghost use Rattle.cm_term.specs.contracts.term.Term as term;
    ghost use Rattle.cm_cells.specs.CellTable.{CellTable};
    ghost use Rattle.cm_cells.specs.inner.Kept.{table_of};

    ghost Value = { CellTable };

    ghost coded = { Prim.hlevel (codes, term.the_row.coded) };

    ghost view = { λ c. table_of c.cells.items };

    ghost invariant = { λ c. length c.cells.items ≤ cell_limit };
}

impl Cells {
    /// No cells. They keep the allocator.
    pub fn new(alloc: Global) -> Cells
        ensures none { result ≡ no_cells }
    {
        Cells {
            cells: Vec::new(alloc),
        }
    }

    /// Where the touch of a state's cell stands after these answers: the key is compared with the keys of that
    /// state, in the order of first touch, until one is equal. It takes no memory.
    pub fn next_question(&self, state: u16, key: Option<&Term>, answers: &[u8]) -> Touched
        ensures next { result ≡ next_of self.now.places (place state (option_copied key.entry)) answers.now }
    {
        search::next(self.cells.as_slice(), state, key, answers)
    }

    /// A cell more, which comes last and holds its initial term in both orders. Gives its number.
    ///
    /// # Errors
    /// `TooMany` exactly where there are as many cells as a path may touch, and `Memory` where memory runs out.
    /// After either the cells are as they were.
    pub fn add_cell(
        &mut self,
        state: u16,
        key: Option<Term>,
        initial: Term,
    ) -> Result<u8, CellsFault>
        ensures number { IfOk result (λ n. n ≡ length self.old.places) }
        ensures added { OnOk result (self.new ≡ with_cell self.old (place state key) initial) }
        ensures unchanged { OnErr result (self.new ≡ self.old) }
        ensures too_many { IsErrOf result fault.TooMany ↔ (cell_limit ≤ length self.old.places) }
    {
        let number = self.cells.len();
        if number >= limits::CELLS {
            return Err(CellsFault::TooMany);
        }
        cell::push(&mut self.cells, state, key, initial)?;
        Ok(number as u8)
    }

    /// Lends the term of a cell in an order.
    pub fn value(&self, order: Order, cell: u8) -> &Term
        requires cell { cell < length self.now.places }
        ensures term { slice_get (terms_in order self.now) cell ≡ Some result.now }
    {
        cell::term(self.cells.as_slice(), cell, order)
    }

    /// Lends the term that a cell held at first.
    pub fn initial(&self, cell: u8) -> &Term
        requires cell { cell < length self.now.places }
        ensures term { slice_get self.now.initial cell ≡ Some result.now }
    {
        cell::initial(self.cells.as_slice(), cell)
    }

    /// Writes a cell in an order. It takes no memory, so it succeeds.
    pub fn write(&mut self, order: Order, cell: u8, t: Term) -> Result<(), NoMemory>
        requires cell { cell < length self.old.places }
        ensures succeeds { IsOk result }
        ensures term { self.new ≡ with_term order cell t self.old }
    {
        cell::write(&mut self.cells, order, cell, t);
        Ok(())
    }

    /// Whether a cell was written in either order.
    pub fn written(&self, cell: u8) -> bool
        requires cell { cell < length self.now.places }
        ensures written { slice_get self.now.written cell ≡ Some result }
    {
        cell::written(self.cells.as_slice(), cell)
    }

    /// How many cells there are.
    pub fn len(&self) -> u8
        ensures count { result ≡ length self.now.places }
        ensures table { IsTable self.now }
    {
        self.cells.len() as u8
    }

    /// The state of a cell.
    pub fn state_of(&self, cell: u8) -> u16
        requires cell { cell < length self.now.places }
        ensures state { slice_get (map (λ (p : Place). p.state) self.now.places) cell ≡ Some result }
    {
        cell::state(self.cells.as_slice(), cell)
    }

    /// Lends the key of a cell, if it has one.
    pub fn key_of(&self, cell: u8) -> Option<&Term>
        requires cell { cell < length self.now.places }
        ensures key { slice_get (map (λ (p : Place). p.key) self.now.places) cell ≡ Some (option_copied result) }
    {
        cell::key(self.cells.as_slice(), cell)
    }

    /// Gives each cell its initial term in an order. It takes no memory.
    pub fn reset(&mut self, order: Order)
        ensures anew { self.new ≡ started_anew order self.old }
    {
        cell::clear_all(&mut self.cells, order);
    }

    /// The terms of an order by cell.
    ///
    /// # Errors
    /// `NoMemory` where memory runs out.
    pub fn finals(&self, alloc: Global, order: Order) -> Result<List<Term>, NoMemory>
        ensures terms { IfOk result (λ ts. ts ≡ terms_in order self.now) }
    {
        let ts = cell::terms(alloc, self.cells.as_slice(), order)?;
        Ok(ts)
    }

    /// Equal cells, which share all terms.
    ///
    /// # Errors
    /// `NoMemory` where memory runs out.
    pub fn try_copy(&self, alloc: Global) -> Result<Cells, NoMemory>
        ensures equal { IfOk result (λ copy. copy ≡ self.now) }
    {
        let cells = cell::copy_all(alloc, self.cells.as_slice())?;
        Ok(Cells { cells })
    }
}
