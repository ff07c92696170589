//! The types of symbols.

ghost use Rattle.std.specs.Prelude.{◌≡◌, slice_get};
ghost use Rattle.std.specs.Option.{option_copied};
ghost use Rattle.cm_model.specs.declared.ty.Ty.{out-Ty};
ghost use Rattle.cm_cond.specs.Typing.{parameter, declared_field, field, type_of_part, payload_type, type_in};
ghost use Rattle.cm_cond.specs.Typing.{cell_type, value_type, type_along};
ghost use Rattle.cm_cond_text.specs.Symbols.{type_after};
ghost use Rattle.cm_cond_text.specs.inner.Scopes.{root_type_in, symbol_type_in};

use cm_cond::CellTerm;
use cm_model::{Model, Pair, Part, Ty};
use cm_term::{Root, Step, Sym};

/// What symbols are of: a pair's arguments and the cells of a case.
#[derive(Clone, Copy)]
pub struct Scope<'a> {
    pub model: &'a Model,
    pub pair: Pair,
    pub cells: &'a [CellTerm],
}

/// A parameter of a call, both by their numbers.
pub fn parameter(model: &Model, call: u16, place: u16) -> Option<&Part>
    ensures { option_copied result ≡ parameter model.now call place }
{
    match model.calls().as_slice().get(usize::from(call)) {
        Some(declared) => declared.params.as_slice().get(usize::from(place)),
        None => None,
    }
}

/// A field of a record type by its number.
pub fn field<'a>(model: &'a Model, ty: &Ty, place: u16) -> Option<&'a Part>
    ensures { option_copied result ≡ field model.now (out-Ty ty.now) place }
{
    match ty {
        Ty::Rec(rec) => declared_field(model, *rec, place),
        _ => None,
    }
}

fn declared_field(model: &Model, rec: u16, place: u16) -> Option<&Part>
    ensures { option_copied result ≡ declared_field (slice_get model.now.records rec) place }
{
    match model.records().as_slice().get(usize::from(rec)) {
        Some(declared) => declared.fields.as_slice().get(usize::from(place)),
        None => None,
    }
}

fn type_of_part(part: Option<&Part>) -> Option<&Ty>
    ensures { option_copied result ≡ type_of_part (option_copied part.entry) }
{
    match part {
        Some(part) => Some(&part.ty),
        None => None,
    }
}

fn payload_type(ty: &Ty) -> Option<&Ty>
    ensures { option_copied result ≡ payload_type (out-Ty ty.now) }
{
    match ty {
        Ty::Option(payload) => Some(payload.get()),
        _ => None,
    }
}

fn type_in<'a>(model: &'a Model, step: Step, ty: &'a Ty) -> Option<&'a Ty>
    ensures { option_copied result ≡ type_in model.now step ty.now }
{
    match step {
        Step::Field(place) => type_of_part(field(model, ty, place)),
        Step::Payload => payload_type(ty),
    }
}

/// The type of the part that a step leads to.
pub fn type_after<'a>(model: &'a Model, ty: Option<&'a Ty>, step: Step) -> Option<&'a Ty>
    ensures { option_copied result ≡ type_after model.now (option_copied ty.entry) step }
{
    match ty {
        Some(ty) => type_in(model, step, ty),
        None => None,
    }
}

// The value type of a state by its number.
fn value_type(model: &Model, state: u16) -> Option<&Ty>
    ensures { option_copied result ≡ value_type (slice_get model.now.states state) }
{
    match model.states().as_slice().get(usize::from(state)) {
        Some(declared) => Some(&declared.value),
        None => None,
    }
}

fn cell_type<'a>(model: &'a Model, cells: &[CellTerm], cell: u8) -> Option<&'a Ty>
    ensures { option_copied result ≡ cell_type model.now (slice_get cells.now cell) }
{
    match cells.get(usize::from(cell)) {
        Some(cell) => value_type(model, cell.state),
        None => None,
    }
}

/// The type of the value that symbols begin with.
pub fn root_type<'a>(scope: &Scope<'a>, root: Root) -> Option<&'a Ty>
    ensures { option_copied result ≡ root_type_in scope.now root }
{
    match root {
        Root::A(place) => type_of_part(parameter(scope.model, scope.pair.a, place)),
        Root::B(place) => type_of_part(parameter(scope.model, scope.pair.b, place)),
        Root::Cell(cell) => cell_type(scope.model, scope.cells, cell),
    }
}

// The type at the end of a path into a value of a type.
fn type_along<'a>(model: &'a Model, ty: Option<&'a Ty>, path: &[Step]) -> Option<&'a Ty>
    ensures { option_copied result ≡ type_along model.now path.now (option_copied ty.entry) }
{
    let mut part = ty;
    'steps: for step in path {
        part = type_after(model, part, *step);
    }
    part
}

/// The type of a symbol.
pub fn symbol_type<'a>(scope: &Scope<'a>, sym: &Sym) -> Option<&'a Ty>
    ensures { option_copied result ≡ symbol_type_in scope.now sym.now }
{
    type_along(scope.model, root_type(scope, sym.root), sym.path.as_slice())
}
