//! The text of cells.

ghost use Rattle.std.specs.Prelude.{◌≡◌, ◌++◌, map, slice_get, OnOk};
ghost use Rattle.std.specs.Option.{option_copied};
ghost use Rattle.cm_model.specs.declared.ty.Ty.{out-Ty};
ghost use Rattle.cm_cond_text.specs.Cells.{name_in, variant_text, separator, fields_text, record_in, record_text, declared_text};
ghost use Rattle.cm_cond_text.specs.Cells.{text_of_cell};
ghost use Rattle.cm_cond_text.specs.inner.Scopes.{number_in, key_in, keys_in, bracketed_in, cell_in};

use crate::number::{push_number, push_offset};
use crate::scope::Scope;
use crate::symbol::push_symbol;
use cm_cond::{CellTerm, KeyTerm};
use cm_model::{EnumDecl, List, Model, NoMemory, Pair, Part, RecDecl, Ty};
use cm_term::Sym;

/// Appends a variant of a type.
pub fn push_variant(model: &Model, ty: &Ty, index: u16, to: &mut Vec<u8>) -> Result<(), NoMemory>
    ensures { OnOk result (to.new.items ≡ to.old.items ++ variant_text model.now (out-Ty ty.now) index) }
{
    match ty {
        Ty::Enum(ty) => push_variant_in(model.enums().as_slice(), *ty, index, to),
        _ => Ok(()),
    }
}

fn push_variant_in(
    enums: &[EnumDecl],
    ty: u16,
    index: u16,
    to: &mut Vec<u8>,
) -> Result<(), NoMemory>
    ensures { OnOk result (to.new.items ≡ to.old.items ++ name_in (slice_get enums.now ty) index) }
{
    let Some(declared) = enums.get(usize::from(ty)) else {
        return Ok(());
    };
    match declared.variants.as_slice().get(usize::from(index)) {
        Some(name) => {
            to.extend_from_slice(name.as_bytes())?;
            Ok(())
        }
        None => Ok(()),
    }
}

// Appends a number, or how a number comes from a symbol's.
fn push_number_of(
    scope: &Scope<'_>,
    sym: &Option<Sym>,
    plus: i64,
    to: &mut Vec<u8>,
) -> Result<(), NoMemory>
    ensures { OnOk result (to.new.items ≡ to.old.items ++ number_in scope.now sym.now plus) }
{
    match sym {
        Some(sym) => {
            push_symbol(scope, sym, to)?;
            push_offset(plus, to)
        }
        None => push_number(i128::from(plus), to),
    }
}

fn push_separator(place: usize, to: &mut Vec<u8>) -> Result<(), NoMemory>
    ensures { OnOk result (to.new.items ≡ to.old.items ++ separator place) }
{
    if 0 < place {
        to.extend_from_slice(b", ")?;
    }
    Ok(())
}

// Appends a key of a type.
#[cycle(key)]
fn push_key(scope: &Scope<'_>, key: &KeyTerm, ty: &Ty, to: &mut Vec<u8>) -> Result<(), NoMemory>
    ensures { OnOk result (to.new.items ≡ to.old.items ++ key_in scope.now key.now ty.now) }
{
    match key {
        KeyTerm::Elem(sym) => push_symbol(scope, sym, to),
        KeyTerm::Num { x, plus } => push_number_of(scope, x, *plus, to),
        KeyTerm::TagOf(sym) => push_symbol(scope, sym, to),
        KeyTerm::Tag(index) => push_variant(scope.model, ty, *index, to),
        KeyTerm::Rec(parts) => push_record(scope, parts.as_slice(), ty, to),
    }
}

#[cycle(key)]
fn push_record(
    scope: &Scope<'_>,
    parts: &[KeyTerm],
    ty: &Ty,
    to: &mut Vec<u8>,
) -> Result<(), NoMemory>
    ensures { OnOk result (to.new.items
        ≡ to.old.items ++ record_text scope.now.model.now (out-Ty ty.now) (keys_in scope.now parts.now)) }
{
    match ty {
        Ty::Rec(rec) => push_record_in(scope, parts, record_of(scope.model, *rec), to),
        _ => Ok(()),
    }
}

// A record type by its number.
fn record_of(model: &Model, rec: u16) -> Option<&RecDecl>
    ensures { option_copied result ≡ slice_get model.now.records rec }
{
    model.records().as_slice().get(usize::from(rec))
}

#[cycle(key)]
fn push_record_in(
    scope: &Scope<'_>,
    parts: &[KeyTerm],
    rec: Option<&RecDecl>,
    to: &mut Vec<u8>,
) -> Result<(), NoMemory>
    ensures { OnOk result
        (to.new.items ≡ to.old.items ++ record_in (option_copied rec.entry) (keys_in scope.now parts.now)) }
{
    match rec {
        Some(declared) => push_declared(scope, parts, declared, to),
        None => Ok(()),
    }
}

// Appends a record with all its fields.
#[cycle(key)]
fn push_declared(
    scope: &Scope<'_>,
    parts: &[KeyTerm],
    rec: &RecDecl,
    to: &mut Vec<u8>,
) -> Result<(), NoMemory>
    ensures { OnOk result
        (to.new.items ≡ to.old.items ++ declared_text rec.now (keys_in scope.now parts.now)) }
{
    to.extend_from_slice(rec.name.as_bytes())?;
    to.extend_from_slice(b"(")?;
    push_fields(scope, parts, rec.fields.as_slice(), to)?;
    to.extend_from_slice(b")")?;
    Ok(())
}

#[cycle(key)]
fn push_fields(
    scope: &Scope<'_>,
    parts: &[KeyTerm],
    fields: &[Part],
    to: &mut Vec<u8>,
) -> Result<(), NoMemory>
    ensures { OnOk result (to.new.items
        ≡ to.old.items ++ fields_text 0 (keys_in scope.now parts.now) (map (λ p. p.ty) fields.now)) }
{
    'parts: for (i, part) in parts.iter().enumerate() {
        let Some(field) = fields.get(i) else {
            return Ok(());
        };
        push_separator(i, to)?;
        push_key(scope, part, &field.ty, to)?;
    }
    Ok(())
}

// Appends a key in brackets, where a state has keys of a type.
fn push_bracketed(
    scope: &Scope<'_>,
    ty: &Option<Ty>,
    key: &Option<KeyTerm>,
    to: &mut Vec<u8>,
) -> Result<(), NoMemory>
    ensures { OnOk result (to.new.items ≡ to.old.items ++ bracketed_in scope.now ty.now key.now) }
{
    match (ty, key) {
        (Some(ty), Some(key)) => {
            to.extend_from_slice(b"[")?;
            push_key(scope, key, ty, to)?;
            to.extend_from_slice(b"]")?;
            Ok(())
        }
        _ => Ok(()),
    }
}

/// Appends a cell.
pub fn push_cell_in(scope: &Scope<'_>, cell: &CellTerm, to: &mut Vec<u8>) -> Result<(), NoMemory>
    ensures { OnOk result (to.new.items ≡ to.old.items ++ cell_in scope.now cell.now) }
{
    match scope.model.states().as_slice().get(usize::from(cell.state)) {
        Some(declared) => {
            to.extend_from_slice(declared.name.as_bytes())?;
            push_bracketed(scope, &declared.key, &cell.key, to)
        }
        None => Ok(()),
    }
}

/// Appends a cell of a case of the pair, which has these cells. What the model doesn't declare has no name.
///
/// # Errors
/// `NoMemory` where memory runs out. A part of the text may be there then.
pub fn push_cell(
    model: &Model,
    pair: Pair,
    cells: &List<CellTerm>,
    cell: &CellTerm,
    to: &mut Vec<u8>,
) -> Result<(), NoMemory>
    ensures text { OnOk result (to.new.items ≡ to.old.items ++ text_of_cell model.now pair cells.now cell.now) }
{
    let scope = Scope {
        model,
        pair,
        cells: cells.as_slice(),
    };
    push_cell_in(&scope, cell, to)
}
