//! Worlds in which two elements of a sort are exchanged.

ghost use Rattle.std.specs.Prelude.{◌≡◌, IfOk, IsTrue, List, map, slice_get, Some, option_map};
ghost use Rattle.std.specs.List.{list_all};
ghost use Rattle.std.specs.Option.{option_copied};
ghost use Rattle.cm_value.specs.Membership.{IsValueOf, are_values_of};
ghost use Rattle.cm_value.specs.Relabelling.{each_relabelled};
ghost use Rattle.cm_world.specs.World.{IsWorldOf, IsStateOf, are_arguments, is_exception, fits_key};
ghost use Rattle.cm_twin.specs.Names.{named, exchange};
ghost use Rattle.cm_twin.specs.Twins.{except_named, state_named, arguments_named, world_relabelled, LooksNamed};

use cm_eval::{Args, CellName, Except, State};
use cm_model::{List, Model, NoMemory, Pair, Part, StateDecl, Ty};
use cm_value::{Swap, Vals, Value, relabel};
use cm_world::World;
use std::alloc::Global;

/// The world with two elements of a sort exchanged everywhere: in the arguments of both calls, and in the defaults and
/// the exceptions of its state, keys and values.
///
/// # Errors
/// `NoMemory` where memory runs out.
pub fn relabel_world(
    alloc: Global,
    model: &Model,
    pair: Pair,
    world: &World,
    swap: &Swap,
) -> Result<World, NoMemory>
    requires world { IsWorldOf model.now pair world.now }
    ensures exact { IfOk result (λ other. other ≡ world_relabelled model.now pair swap.now world.now) }
    ensures is_world { IfOk result (IsWorldOf model.now pair) }

    // A look-up of a relabelled cell is the relabelled look-up.
    ensures looks { IfOk result (λ other. LooksNamed model.now (exchange swap.now) world.now.init other.init) }
    ensures back { IfOk result (λ other. world_relabelled model.now pair swap.now other ≡ world.now) }
{
    let init = relabel_state(alloc, model, &world.init, swap)?;
    let a = relabel_arguments(alloc, model, pair.a, &world.a, swap)?;
    let b = relabel_arguments(alloc, model, pair.b, &world.b, swap)?;
    Ok(World { init, a, b })
}

// Defaults, keys and values.
fn relabel_state(
    alloc: Global,
    model: &Model,
    state: &State,
    swap: &Swap,
) -> Result<State, NoMemory>
    requires state { IsStateOf model.now state.now }
    ensures exact { IfOk result (λ other. other ≡ state_named model.now (exchange swap.now) state.now) }
{
    let declared = model.states().as_slice();
    let defaults = relabel_defaults(alloc, model, declared, state.defaults(), swap)?;
    let exceptions = relabel_exceptions(alloc, model, state.exceptions(), swap)?;
    Ok(State::new(defaults, exceptions))
}

// Each default by the type of its state's values.
fn relabel_defaults(
    alloc: Global,
    model: &Model,
    states: &[StateDecl],
    values: &[Value],
    swap: &Swap,
) -> Result<Vals, NoMemory>
    requires typed { IsTrue (are_values_of model.now (map (λ d. d.value) states.now) values.now) }
    ensures exact { IfOk result (λ others. others ≡ each_relabelled
        (map (named model.now (exchange swap.now)) values.now) (map (λ d. d.value) states.now)) }
{
    let mut others = List::new(alloc);
    for i in 0..values.len() {
        let other = relabel_one(alloc, model, &states[i].value, &values[i], swap)?;
        others.push(other)?;
    }
    Ok(others)
}

// Each value by the type of its parameter.
fn relabel_values(
    alloc: Global,
    model: &Model,
    params: &[Part],
    values: &[Value],
    swap: &Swap,
) -> Result<Vals, NoMemory>
    requires typed { IsTrue (are_values_of model.now (map (λ p. p.ty) params.now) values.now) }
    ensures exact { IfOk result (λ others. others ≡ each_relabelled
        (map (named model.now (exchange swap.now)) values.now) (map (λ p. p.ty) params.now)) }
{
    let mut others = List::new(alloc);
    for i in 0..values.len() {
        let other = relabel_one(alloc, model, &params[i].ty, &values[i], swap)?;
        others.push(other)?;
    }
    Ok(others)
}

// The arguments of the call with this number.
fn relabel_arguments(
    alloc: Global,
    model: &Model,
    call: u16,
    args: &Args,
    swap: &Swap,
) -> Result<Args, NoMemory>
    requires typed { IsTrue (are_arguments model.now call args.now.vals) }
    ensures exact { IfOk result (λ others. others.vals ≡ arguments_named model.now (exchange swap.now)
        (slice_get model.now.calls call) args.now.vals) }
{
    let Some(declared) = model.calls().as_slice().get(usize::from(call)) else {
        unreachable!()
    };
    let params = declared.params.as_slice();
    let vals = relabel_values(alloc, model, params, args.vals.as_slice(), swap)?;
    Ok(Args { vals })
}

fn relabel_exceptions(
    alloc: Global,
    model: &Model,
    exceptions: &[Except],
    swap: &Swap,
) -> Result<List<Except>, NoMemory>
    requires typed { IsTrue (list_all (is_exception model.now) exceptions.now) }
    ensures exact { IfOk result (λ others. others ≡ map (except_named model.now (exchange swap.now)) exceptions.now) }
{
    let mut others = List::new(alloc);
    for exception in exceptions {
        let other = relabel_exception(alloc, model, exception, swap)?;
        others.push(other)?;
    }
    Ok(others)
}

fn relabel_exception(
    alloc: Global,
    model: &Model,
    exception: &Except,
    swap: &Swap,
) -> Result<Except, NoMemory>
    requires typed { IsTrue (is_exception model.now exception.now) }
    ensures exact { IfOk result (λ other. other ≡ except_named model.now (exchange swap.now) exception.now) }
{
    let state = exception.cell.state;
    let Some(declared) = model.states().as_slice().get(usize::from(state)) else {
        unreachable!()
    };
    let key = relabel_key(
        alloc,
        model,
        declared.key.as_ref(),
        exception.cell.key.as_ref(),
        swap,
    )?;
    let value = relabel_one(alloc, model, &declared.value, &exception.value, swap)?;
    Ok(Except {
        cell: CellName { state, key },
        value,
    })
}

// The key of a cell, by the type of its state's keys.
fn relabel_key(
    alloc: Global,
    model: &Model,
    ty: Option<&Ty>,
    key: Option<&Value>,
    swap: &Swap,
) -> Result<Option<Value>, NoMemory>
    requires fits { IsTrue (fits_key model.now (option_copied ty) (option_copied key)) }
    ensures exact { IfOk result (λ other. other ≡ option_map
        (λ v. named model.now (exchange swap.now) v (option_copied ty.entry)) (option_copied key.entry)) }
{
    let Some(key) = key else {
        return Ok(None);
    };
    let Some(ty) = ty else { unreachable!() };
    let other = relabel_one(alloc, model, ty, key, swap)?;
    Ok(Some(other))
}

// A value of this type.
fn relabel_one(
    alloc: Global,
    model: &Model,
    ty: &Ty,
    value: &Value,
    swap: &Swap,
) -> Result<Value, NoMemory>
    requires typed { IsValueOf model.now ty.now value.now }
    ensures exact { IfOk result (λ other. other ≡ named model.now (exchange swap.now) value.now (Some ty.now)) }
{
    let other = relabel(alloc, model, ty, value, swap)?;
    Ok(other)
}
