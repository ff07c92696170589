//! Whether a world is one of a pair.

ghost use Rattle.std.specs.Prelude.{◌≡◌, ◌↔◌, IsTrue, map, slice_get};
ghost use Rattle.std.specs.List.{list_all};
ghost use Rattle.cm_value.specs.Membership.{is_value_of, are_values_of};
ghost use Rattle.cm_eval.specs.State.{exception_of};
ghost use Rattle.cm_world.specs.World.{IsWorldOf, IsStateOf, are_arguments, is_exception, is_value_in, are_apart};
ghost use Rattle.cm_world.specs.World.{is_there};

use crate::World;
use crate::states::is_cell;
use cm_eval::{CellName, Except, State, same_cell};
use cm_model::{Model, Pair, Part, StateDecl, Ty};
use cm_value::{Value, member};

/// Whether this is a world of the pair. Its state has a default of the value type for each declared state;
/// each exception is of a cell of the model and has a value of its type, and no two are of one cell. Each call
/// has an argument of the right type for each parameter.
pub fn is_world_of(model: &Model, pair: Pair, world: &World) -> bool
    ensures exact { IsTrue result ↔ IsWorldOf model.now pair world.now }
{
    is_state_of(model, &world.init)
        && are_arguments(model, pair.a, world.a.vals.as_slice())
        && are_arguments(model, pair.b, world.b.vals.as_slice())
}

// Whether a state is one of the model.
fn is_state_of(model: &Model, state: &State) -> bool
    ensures exact { IsTrue result ↔ IsStateOf model.now state.now }
{
    are_defaults(model, state.defaults(), model.states().as_slice())
        && are_exceptions(model, state.exceptions())
        && are_apart(state.exceptions())
}

// Whether there is one value for each state.
fn are_defaults(model: &Model, values: &[Value], states: &[StateDecl]) -> bool
    ensures exact { result ≡ are_values_of model.now (map (λ d. d.value) states.now) values.now }
{
    if values.len() != states.len() {
        return false;
    }
    for i in 0..values.len() {
        if !is_value_of(model, &states[i].value, &values[i]) {
            return false;
        }
    }
    true
}

// Whether there is one value for each parameter of a call.
fn are_arguments(model: &Model, call: u16, values: &[Value]) -> bool
    ensures exact { result ≡ are_arguments model.now call values.now }
{
    match model.calls().as_slice().get(usize::from(call)) {
        Some(declared) => are_values_of(model, declared.params.as_slice(), values),
        None => false,
    }
}

// Whether there is one value for each parameter.
fn are_values_of(model: &Model, params: &[Part], values: &[Value]) -> bool
    ensures exact { result ≡ are_values_of model.now (map (λ p. p.ty) params.now) values.now }
{
    if values.len() != params.len() {
        return false;
    }
    for i in 0..values.len() {
        if !is_value_of(model, &params[i].ty, &values[i]) {
            return false;
        }
    }
    true
}

// Whether a value is one of a type.
fn is_value_of(model: &Model, ty: &Ty, value: &Value) -> bool
    ensures exact { result ≡ is_value_of model.now ty.now value.now }
{
    member(model, ty, value)
}

// Whether each exception is one of the model.
fn are_exceptions(model: &Model, exceptions: &[Except]) -> bool
    ensures exact { result ≡ list_all (is_exception model.now) exceptions.now }
{
    for exception in exceptions {
        if !is_exception(model, exception) {
            return false;
        }
    }
    true
}

// Whether an exception is of a cell of the model and has a value of its type.
fn is_exception(model: &Model, exception: &Except) -> bool
    ensures exact { result ≡ is_exception model.now exception.now }
{
    is_cell(model, &exception.cell) && is_value_in(model, exception.cell.state, &exception.value)
}

// Whether a value is one that a state may hold.
fn is_value_in(model: &Model, state: u16, value: &Value) -> bool
    ensures exact { result ≡ is_value_in model.now (slice_get model.now.states state) value.now }
{
    match model.states().as_slice().get(usize::from(state)) {
        Some(declared) => is_value_of(model, &declared.value, value),
        None => false,
    }
}

// Whether no cell is named twice.
fn are_apart(exceptions: &[Except]) -> bool
    ensures exact { result ≡ are_apart exceptions.now }
{
    for (i, exception) in exceptions.iter().enumerate() {
        if is_named(&exceptions[i + 1..], &exception.cell) {
            return false;
        }
    }
    true
}

// Whether a cell is named.
fn is_named(exceptions: &[Except], cell: &CellName) -> bool
    ensures exact { result ≡ is_there (exception_of exceptions.now cell.now) }
{
    for exception in exceptions {
        if same_cell(&exception.cell, cell) {
            return true;
        }
    }
    false
}
