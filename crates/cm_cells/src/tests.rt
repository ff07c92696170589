//! Worked examples.

use super::*;
use cm_model::{IntVar, List, NoMemory, SortVar};
use cm_term::{Num, Question, Shared, Tag, TagVar, Term};
use std::alloc::Global;
use std::test::Fail;

fn elem(x: u64) -> Term {
    Term::Elem(SortVar(x))
}

fn is_elem(t: &Term, x: u64) -> bool {
    match t {
        Term::Elem(y) => y.0 == x,
        _ => false,
    }
}

// A key of an element, a number and a variant.
fn three(alloc: Global, x: u64, n: u64, tag: u64) -> Result<Term, NoMemory> {
    let mut fields = List::new(alloc);
    fields.push(elem(x))?;
    fields.push(Term::Num(Num::Plus(IntVar(n), 0)))?;
    fields.push(Term::Tag(Tag::Var(TagVar(tag))))?;
    let fields = Shared::new(alloc, fields)?;
    Ok(Term::Rec(fields))
}

/// A touch, and where it stands.
#[derive(Clone, Copy)]
struct Row<'a> {
    state: u16,
    key: u64,
    answers: &'a [u8],
    stands: Touched,
}

fn stands_so(cells: &Cells, row: Row<'_>) -> bool {
    cells.next_question(row.state, Some(&elem(row.key)), row.answers) == row.stands
}

fn elements(x: u64, y: u64) -> Touched {
    Touched::Ask(Question::Elems(SortVar(x), SortVar(y)))
}

// The cells m[#2], n[#0], m[#5] of two maps m and n.
fn of_two_maps(alloc: Global) -> Result<Cells, CellsFault> {
    let mut cells = Cells::new(alloc);
    cells.add_cell(0, Some(elem(2)), elem(11))?;
    cells.add_cell(1, Some(elem(0)), elem(12))?;
    cells.add_cell(0, Some(elem(5)), elem(13))?;
    Ok(cells)
}

// The new key is left, the older keys of its map are right, in the order of first touch.
fn are_compared(cells: &Cells) -> bool {
    let rows = [
        Row {
            state: 0,
            key: 7,
            answers: &[],
            stands: elements(7, 2),
        },
        Row {
            state: 0,
            key: 7,
            answers: &[0],
            stands: Touched::Cell(0),
        },
        Row {
            state: 0,
            key: 7,
            answers: &[1],
            stands: elements(7, 5),
        },
        Row {
            state: 0,
            key: 7,
            answers: &[1, 0],
            stands: Touched::Cell(2),
        },
        Row {
            state: 0,
            key: 7,
            answers: &[1, 1],
            stands: Touched::New,
        },
        Row {
            state: 1,
            key: 7,
            answers: &[],
            stands: elements(7, 0),
        },
        Row {
            state: 1,
            key: 7,
            answers: &[0],
            stands: Touched::Cell(1),
        },
        Row {
            state: 1,
            key: 7,
            answers: &[1],
            stands: Touched::New,
        },
        Row {
            state: 2,
            key: 7,
            answers: &[],
            stands: Touched::New,
        },
    ];
    for row in rows.as_slice() {
        if !stands_so(cells, *row) {
            return false;
        }
    }
    true
}

#[test]
fn keys_are_compared_map_by_map(rt: HostRuntime) -> Result<(), Fail> {
    let cells = of_two_maps(rt.alloc())?;
    assert!(rt; are_compared(&cells));
    Ok(())
}

// A key that is a record: what is asked after these answers.
fn fields_stand_so(cells: &Cells, key: &Term, answers: &[u8], stands: Touched) -> bool {
    cells.next_question(0, Some(key), answers) == stands
}

// Field by field until one differs; a number is equal with outcome 1, variants where both are one.
fn fields_are_compared(cells: &Cells, key: &Term) -> bool {
    let numbers = Question::Nums(Num::Plus(IntVar(8), 0), Num::Plus(IntVar(2), 0));
    let left = Question::TagOf(Tag::Var(TagVar(9)));
    let right = Question::TagOf(Tag::Var(TagVar(3)));
    fields_stand_so(cells, key, &[], elements(7, 1))
        & fields_stand_so(cells, key, &[1], Touched::New)
        & fields_stand_so(cells, key, &[0], Touched::Ask(numbers))
        & fields_stand_so(cells, key, &[0, 0], Touched::New)
        & fields_stand_so(cells, key, &[0, 2], Touched::New)
        & fields_stand_so(cells, key, &[0, 1], Touched::Ask(left))
        & fields_stand_so(cells, key, &[0, 1, 4], Touched::Ask(right))
        & fields_stand_so(cells, key, &[0, 1, 4, 4], Touched::Cell(0))
        & fields_stand_so(cells, key, &[0, 1, 4, 3], Touched::New)
}

#[test]
fn keys_that_are_records_are_compared_by_fields(rt: HostRuntime) -> Result<(), Fail> {
    let mut cells = Cells::new(rt.alloc());
    let old = three(rt.alloc(), 1, 2, 3)?;
    cells.add_cell(0, Some(old), elem(11))?;
    let key = three(rt.alloc(), 7, 8, 9)?;
    assert!(rt; fields_are_compared(&cells, &key));
    Ok(())
}

// States that are one cell: as many as there may be, and the answer to one more.
fn one_too_many(cells: &mut Cells) -> bool {
    for state in 0..48 {
        match cells.add_cell(state, None, elem(0)) {
            Ok(_) => {}
            Err(_) => return false,
        }
    }
    match cells.add_cell(48, None, elem(0)) {
        Err(CellsFault::TooMany) => cells.len() == 48,
        _ => false,
    }
}

#[test]
fn a_cell_is_refused_where_there_are_48(rt: HostRuntime) -> Result<(), Fail> {
    let mut cells = Cells::new(rt.alloc());
    assert!(rt; one_too_many(&mut cells));
    Ok(())
}

// What a cell of some holds in the two orders, and at first.
fn holds(cells: &Cells, cell: u8, ab: u64, ba: u64, initial: u64) -> bool {
    cell < cells.len()
        && is_elem(cells.value(Order::Ab, cell), ab)
        && is_elem(cells.value(Order::Ba, cell), ba)
        && is_elem(cells.initial(cell), initial)
}

// The first cell written in the order ab; a copy made before it holds what it held, and a reset gives it back.
fn is_written(alloc: Global, cells: &mut Cells) -> Result<bool, NoMemory> {
    let before = cells.try_copy(alloc)?;
    if cells.len() == 0 {
        return Ok(false);
    }
    cells.write(Order::Ab, 0, elem(20))?;
    let finals = cells.finals(alloc, Order::Ab)?;
    let in_one_order = holds(cells, 0, 20, 11, 11) & holds(&before, 0, 11, 11, 11);
    let after = cells.try_copy(alloc)?;
    cells.reset(Order::Ab);
    Ok(
        in_one_order
            && is_first(finals.get(0), 20)
            && holds(cells, 0, 11, 11, 11)
            && holds(&after, 0, 20, 11, 11)
            && marked(cells, 0)
            && !marked(&before, 0),
    )
}

fn is_first(t: Option<&Term>, x: u64) -> bool {
    match t {
        Some(t) => is_elem(t, x),
        None => false,
    }
}

fn marked(cells: &Cells, cell: u8) -> bool {
    cell < cells.len() && cells.written(cell)
}

fn is_named(cells: &Cells, cell: u8, state: u16, key: u64) -> bool {
    cell < cells.len() && cells.state_of(cell) == state && is_first(cells.key_of(cell), key)
}

#[test]
fn orders_write_apart(rt: HostRuntime) -> Result<(), Fail> {
    let mut cells = of_two_maps(rt.alloc())?;
    assert!(rt; is_named(&cells, 1, 1, 0));
    let is_so = is_written(rt.alloc(), &mut cells)?;
    assert!(rt; is_so);
    Ok(())
}
