//! The values of keys and cells on a world.

ghost use Rattle.std.specs.Prelude.{◌≡◌, [], map, length, slice_get, IfOk};
ghost use Rattle.std.specs.Option.{option_copied};
ghost use Rattle.cm_model.specs.declared.ty.Ty.{out-Ty};
ghost use Rattle.cm_term.specs.Symbols.{symbol_value};
ghost use Rattle.cm_cond.specs.Values.{raised};
ghost use Rattle.cm_cond.specs.Keys.{key_value, fields_after, record_in, record_value, number_or_zero, number_value};
ghost use Rattle.cm_cond.specs.Keys.{cell_by, cell_on};
ghost use Rattle.cm_cond.specs.inner.Known.{roots_of, key_values, value_within, value_from, record_of, keyed, IsDeclared, IsOfState, IsCellValue};

use crate::{CellTerm, KeyTerm, symbol};
use cm_eval::CellName;
use cm_model::{IntDecl, List, Model, NoMemory, Part, Ty};
use cm_term::Sym;
use cm_value::{Value, copy_value};
use cm_world::World;
use std::alloc::Global;

/// What keys are valued by: a world of the model, and the initial values of the cells before.
#[derive(Clone, Copy)]
pub struct Known<'a> {
    pub alloc: Global,
    pub model: &'a Model,
    pub world: &'a World,
    pub cells: &'a [Option<Value>],
}

/// The value of a key as one of a type, if it has one.
#[cycle(key)]
fn key_value(known: &Known<'_>, key: &KeyTerm, ty: &Ty) -> Result<Option<Value>, NoMemory>
    ensures { IfOk result (λ value. value ≡ key_value known.now.model.now (roots_of known.now) key.now ty.now) }
{
    match key {
        KeyTerm::Elem(sym) => symbol_copied(known, sym),
        KeyTerm::Num { x, plus } => Ok(number_value(known.model, ty, number(known, x, *plus))),
        KeyTerm::TagOf(sym) => symbol_copied(known, sym),
        KeyTerm::Tag(index) => Ok(Some(Value::Tag(*index))),
        KeyTerm::Rec(parts) => record_value(known, parts.as_slice(), ty),
    }
}

#[cycle(key)]
fn record_value(known: &Known<'_>, parts: &[KeyTerm], ty: &Ty) -> Result<Option<Value>, NoMemory>
    ensures { IfOk result (λ value.
        value ≡ record_value known.now.model.now (out-Ty ty.now) (key_values known.now parts.now)) }
{
    match ty {
        Ty::Rec(rec) => record_in(known, parts, *rec),
        _ => Ok(None),
    }
}

// The value of a record by its number.
#[cycle(key)]
fn record_in(known: &Known<'_>, parts: &[KeyTerm], rec: u16) -> Result<Option<Value>, NoMemory>
    ensures { IfOk result (λ value.
        value ≡ record_in (slice_get known.now.model.now.records rec) (key_values known.now parts.now)) }
{
    match known.model.records().as_slice().get(usize::from(rec)) {
        Some(declared) => fields_value(known, parts, declared.fields.as_slice()),
        None => Ok(None),
    }
}

// The value of a record with these fields.
#[cycle(key)]
fn fields_value(
    known: &Known<'_>,
    parts: &[KeyTerm],
    fields: &[Part],
) -> Result<Option<Value>, NoMemory>
    ensures { IfOk result (λ value.
        value ≡ record_of (fields_after [] (key_values known.now parts.now) (map (λ p. p.ty) fields.now))) }
{
    let mut values = List::new(known.alloc);
    'parts: for (i, part) in parts.iter().enumerate() {
        let Some(field) = fields.get(i) else {
            return Ok(None);
        };
        match key_value(known, part, &field.ty)? {
            Some(value) => values.push(value)?,
            None => return Ok(None),
        }
    }
    if parts.len() < fields.len() {
        return Ok(None);
    }
    Ok(Some(Value::Rec(values)))
}

// The value that a symbol names.
fn symbol_copied(known: &Known<'_>, sym: &Sym) -> Result<Option<Value>, NoMemory>
    ensures { IfOk result (λ value. value ≡ symbol_value (roots_of known.now) sym.now) }
{
    copied(
        known.alloc,
        symbol::symbol_value(known.world, known.cells, sym),
    )
}

fn copied(alloc: Global, value: Option<&Value>) -> Result<Option<Value>, NoMemory>
    ensures { IfOk result (λ copy. copy ≡ option_copied value.entry) }
{
    match value {
        Some(value) => {
            let copy = copy_value(alloc, value)?;
            Ok(Some(copy))
        }
        None => Ok(None),
    }
}

// The sum of a symbol's number and another one, or the other one where there is no symbol.
fn number(known: &Known<'_>, sym: &Option<Sym>, plus: i64) -> Option<i128>
    ensures { result ≡ raised (number_or_zero (roots_of known.now) sym.now) plus }
{
    match sym {
        Some(sym) => symbol::raised(known.world, known.cells, sym, plus),
        None => Some(i128::from(plus)),
    }
}

// A number as a value of a type.
fn number_value(model: &Model, ty: &Ty, n: Option<i128>) -> Option<Value>
    ensures { result ≡ number_value model.now ty.now n }
{
    match (ty, n) {
        (Ty::Int(int), Some(n)) => value_within(declared(model.ints().as_slice(), *int), n),
        _ => None,
    }
}

// An integer type by its number.
fn declared(ints: &[IntDecl], int: u16) -> Option<&IntDecl>
    ensures { option_copied result ≡ slice_get ints.now int }
{
    ints.get(usize::from(int))
}

// A number as a value of an integer type.
fn value_within(int: Option<&IntDecl>, n: i128) -> Option<Value>
    ensures { result ≡ value_within (option_copied int.entry) n }
{
    match int {
        Some(int) => value_from(int.lo, int.hi, n),
        None => None,
    }
}

fn value_from(lo: i64, hi: i64, n: i128) -> Option<Value>
    ensures { result ≡ value_from lo hi n }
{
    if i128::from(lo) <= n && n <= i128::from(hi) {
        return Some(Value::Int(n as i64));
    }
    None
}

// The cell that is meant, where its key has a value.
fn cell_on(known: &Known<'_>, cell: &CellTerm) -> Result<Option<CellName>, NoMemory>
    ensures name { IfOk result (λ name. name ≡ cell_on known.now.model.now (roots_of known.now) cell.now) }
    ensures state { IfOk result (λ name. IsDeclared known.now.model.now name) }
{
    match known.model.states().as_slice().get(usize::from(cell.state)) {
        Some(declared) => cell_by(known, cell.state, &declared.key, &cell.key),
        None => Ok(None),
    }
}

fn keyed(state: u16, key: Option<Value>) -> Option<CellName>
    ensures { result ≡ keyed state key }
{
    match key {
        Some(key) => Some(CellName {
            state,
            key: Some(key),
        }),
        None => None,
    }
}

// The cell of a state with this key type.
fn cell_by(
    known: &Known<'_>,
    state: u16,
    ty: &Option<Ty>,
    key: &Option<KeyTerm>,
) -> Result<Option<CellName>, NoMemory>
    ensures name { IfOk result (λ name.
        name ≡ cell_by known.now.model.now (roots_of known.now) state ty.now key.now) }
    ensures state { IfOk result (λ name. IsOfState state name) }
{
    match (ty, key) {
        (None, None) => Ok(Some(CellName { state, key: None })),
        (Some(ty), Some(key)) => {
            let value = key_value(known, key, ty)?;
            Ok(keyed(state, value))
        }
        _ => Ok(None),
    }
}

/// The initial value of a cell, where its key has a value.
pub fn cell_value(known: &Known<'_>, cell: &CellTerm) -> Result<Option<Value>, NoMemory>
    requires { length known.now.world.now.init.defaults ≡ length known.now.model.now.states }
    ensures { IfOk result (IsCellValue known.now.world.now
        (cell_on known.now.model.now (roots_of known.now) cell.now)) }
{
    let Some(name) = cell_on(known, cell)? else {
        return Ok(None);
    };
    let value = known.world.init.get(name.state, name.key.as_ref());
    let value = copy_value(known.alloc, value)?;
    Ok(Some(value))
}
