//! A touched cell, and lists of them.

ghost use Rattle.std.specs.Prelude.{◌≡◌, ◌<◌, Some, suc, length, map, slice_get, slice_set, IfOk, OnOk, OnErr};
ghost use Rattle.std.specs.Option.{option_copied};
ghost use Rattle.cm_term.specs.declared.term.Term.{Term};
ghost use Rattle.cm_cells.specs.CellTable.{Place, place, with_cell, with_term, started_anew};
ghost use Rattle.cm_cells.specs.inner.Kept.{table_of, place_of, or_initial, term_in, put, cleared};

use crate::order::Order;
use cm_model::{List, NoMemory};
use cm_term::{Shared, Term};
use std::alloc::Global;

/// What a cell has from its first touch on.
#[derive(Drop)]
pub struct Origin {
    pub key: Option<Term>,
    pub initial: Term,
}

/// A touched cell. What it has from its first touch on is shared by all copies.
#[derive(Drop)]
pub struct Cell {
    pub state: u16,
    pub written: bool,
    pub origin: Shared<Origin>,
    /// The term that the order ab wrote last.
    pub ab: Option<Term>,
    /// The term that the order ba wrote last.
    pub ba: Option<Term>,
}

/// A cell more, at the end, that no order has written.
pub fn push(
    cells: &mut Vec<Cell>,
    state: u16,
    key: Option<Term>,
    initial: Term,
) -> Result<(), NoMemory>
    ensures added { OnOk result
        (table_of cells.new.items ≡ with_cell (table_of cells.old.items) (place state key) initial) }
    ensures count { OnOk result (length cells.new.items ≡ suc (length cells.old.items)) }
    ensures unchanged { OnErr result (cells.new.items ≡ cells.old.items) }
{
    let alloc = *cells.allocator();
    let origin = Shared::new(alloc, Origin { key, initial })?;
    cells.push(Cell {
        state,
        written: false,
        origin,
        ab: None,
        ba: None,
    })?;
    Ok(())
}

/// The term of a cell in an order.
pub fn term(cells: &[Cell], cell: u8, order: Order) -> &Term
    requires cell { cell < length cells.now }
    ensures term { slice_get (map (term_in order) cells.now) cell ≡ Some result.now }
{
    term_of(&cells[usize::from(cell)], order)
}

fn term_of(cell: &Cell, order: Order) -> &Term
    ensures term { result.now ≡ term_in order cell.now }
{
    match order {
        Order::Ab => or_initial(&cell.ab, &cell.origin),
        Order::Ba => or_initial(&cell.ba, &cell.origin),
    }
}

fn or_initial<'a>(written: &'a Option<Term>, origin: &'a Shared<Origin>) -> &'a Term
    ensures term { result.now ≡ or_initial written.now origin.now.initial }
{
    match written {
        Some(t) => t,
        None => &origin.get().initial,
    }
}

/// The term that a cell held at first.
pub fn initial(cells: &[Cell], cell: u8) -> &Term
    requires cell { cell < length cells.now }
    ensures term { slice_get (table_of cells.now).initial cell ≡ Some result.now }
{
    &cells[usize::from(cell)].origin.get().initial
}

/// Whether a cell was written.
pub fn written(cells: &[Cell], cell: u8) -> bool
    requires cell { cell < length cells.now }
    ensures written { slice_get (table_of cells.now).written cell ≡ Some result }
{
    cells[usize::from(cell)].written
}

/// The state of a cell.
pub fn state(cells: &[Cell], cell: u8) -> u16
    requires cell { cell < length cells.now }
    ensures state { slice_get (map (λ (p : Place). p.state) (map place_of cells.now)) cell ≡ Some result }
{
    cells[usize::from(cell)].state
}

/// The key of a cell.
pub fn key(cells: &[Cell], cell: u8) -> Option<&Term>
    requires cell { cell < length cells.now }
    ensures key { slice_get (map (λ (p : Place). p.key) (map place_of cells.now)) cell ≡ Some (option_copied result) }
{
    cells[usize::from(cell)].origin.get().key.as_ref()
}

/// Writes a cell in an order.
pub fn write(cells: &mut Vec<Cell>, order: Order, cell: u8, t: Term)
    requires cell { cell < length cells.old.items }
    ensures term { table_of cells.new.items ≡ with_term order cell t (table_of cells.old.items) }
    ensures count { length cells.new.items ≡ length cells.old.items }
{
    put(&mut cells[usize::from(cell)], order, t);
}

fn put(cell: &mut Cell, order: Order, t: Term)
    ensures put { cell.new ≡ put order t cell.old }
{
    match order {
        Order::Ab => cell.ab = Some(t),
        Order::Ba => cell.ba = Some(t),
    }
    cell.written = true;
}

/// Gives each cell its initial term in an order.
pub fn clear_all(cells: &mut Vec<Cell>, order: Order)
    ensures anew { table_of cells.new.items ≡ started_anew order (table_of cells.old.items) }
    ensures count { length cells.new.items ≡ length cells.old.items }
{
    for i in 0..cells.len() {
        clear(&mut cells[i], order);
    }
}

fn clear(cell: &mut Cell, order: Order)
    ensures cleared { cell.new ≡ cleared order cell.old }
{
    match order {
        Order::Ab => cell.ab = None,
        Order::Ba => cell.ba = None,
    }
}

/// The terms of an order by cell.
pub fn terms(alloc: Global, cells: &[Cell], order: Order) -> Result<List<Term>, NoMemory>
    ensures terms { IfOk result (λ ts. ts ≡ map (term_in order) cells.now) }
{
    let mut shared = Vec::with_capacity(alloc, cells.len())?;
    for cell in cells {
        shared.push(term_of(cell, order).share()?)?;
    }
    Ok(List::from_vec(shared))
}

/// Equal cells, which share all terms.
pub fn copy_all(alloc: Global, cells: &[Cell]) -> Result<Vec<Cell>, NoMemory>
    ensures equal { IfOk result (λ copies. copies.items ≡ cells.now) }
{
    let mut copies = Vec::with_capacity(alloc, cells.len())?;
    for cell in cells {
        copies.push(copy(cell)?)?;
    }
    Ok(copies)
}

fn copy(cell: &Cell) -> Result<Cell, NoMemory>
    ensures equal { IfOk result (λ c. c ≡ cell.now) }
{
    let origin = cell.origin.share()?;
    let ab = share(&cell.ab)?;
    let ba = share(&cell.ba)?;
    Ok(Cell {
        state: cell.state,
        written: cell.written,
        origin,
        ab,
        ba,
    })
}

fn share(written: &Option<Term>) -> Result<Option<Term>, NoMemory>
    ensures equal { IfOk result (λ t. t ≡ written.now) }
{
    match written {
        Some(t) => {
            let t = t.share()?;
            Ok(Some(t))
        }
        None => Ok(None),
    }
}
