//! The text of symbols.

ghost use Rattle.std.specs.Prelude.{◌≡◌, ◌++◌, OnOk};
ghost use Rattle.std.specs.Option.{option_copied};
ghost use Rattle.cm_cond_text.specs.Symbols.{part_name, field_name, step_text, path_text, root_text};
ghost use Rattle.cm_cond_text.specs.inner.Scopes.{symbol_in};

use crate::number::push_number;
use crate::scope::{Scope, field, parameter, root_type, type_after};
use cm_model::{Model, NoMemory, Pair, Part, Ty};
use cm_term::{Root, Step, Sym};

fn push_part_name(part: Option<&Part>, to: &mut Vec<u8>) -> Result<(), NoMemory>
    ensures { OnOk result (to.new.items ≡ to.old.items ++ part_name (option_copied part.entry)) }
{
    match part {
        Some(part) => {
            to.extend_from_slice(part.name.as_bytes())?;
            Ok(())
        }
        None => Ok(()),
    }
}

fn push_field_name(
    model: &Model,
    ty: Option<&Ty>,
    place: u16,
    to: &mut Vec<u8>,
) -> Result<(), NoMemory>
    ensures { OnOk result
        (to.new.items ≡ to.old.items ++ field_name model.now (option_copied ty.entry) place) }
{
    match ty {
        Some(ty) => push_part_name(field(model, ty, place), to),
        None => Ok(()),
    }
}

// Appends a step into a value of a type.
fn push_step(model: &Model, ty: Option<&Ty>, step: Step, to: &mut Vec<u8>) -> Result<(), NoMemory>
    ensures { OnOk result (to.new.items ≡ to.old.items ++ step_text model.now (option_copied ty.entry) step) }
{
    match step {
        Step::Field(place) => {
            to.extend_from_slice(b".")?;
            push_field_name(model, ty, place, to)
        }
        Step::Payload => {
            to.extend_from_slice(b".some")?;
            Ok(())
        }
    }
}

// Appends the steps into a value of a type.
fn push_path(
    model: &Model,
    ty: Option<&Ty>,
    path: &[Step],
    to: &mut Vec<u8>,
) -> Result<(), NoMemory>
    ensures { OnOk result
        (to.new.items ≡ to.old.items ++ path_text model.now (option_copied ty.entry) path.now) }
{
    let mut part = ty;
    'steps: for step in path {
        push_step(model, part, *step, to)?;
        part = type_after(model, part, *step);
    }
    Ok(())
}

fn push_root(model: &Model, pair: Pair, root: Root, to: &mut Vec<u8>) -> Result<(), NoMemory>
    ensures { OnOk result (to.new.items ≡ to.old.items ++ root_text model.now pair root) }
{
    match root {
        Root::A(place) => {
            to.extend_from_slice(b"a.")?;
            push_part_name(parameter(model, pair.a, place), to)
        }
        Root::B(place) => {
            to.extend_from_slice(b"b.")?;
            push_part_name(parameter(model, pair.b, place), to)
        }
        Root::Cell(cell) => {
            to.extend_from_slice(b"c")?;
            push_number(i128::from(cell), to)
        }
    }
}

/// Appends a symbol.
pub fn push_symbol(scope: &Scope<'_>, sym: &Sym, to: &mut Vec<u8>) -> Result<(), NoMemory>
    ensures { OnOk result (to.new.items ≡ to.old.items ++ symbol_in scope.now sym.now) }
{
    push_root(scope.model, scope.pair, sym.root, to)?;
    push_path(
        scope.model,
        root_type(scope, sym.root),
        sym.path.as_slice(),
        to,
    )
}
