//! The model of a tree: its tables, and the rule on least values.

ghost use Rattle.std.specs.Prelude.{◌≡◌, ◌++◌, [], ◌∷◌, IfOk, OnOk};
ghost use Rattle.cm_model.specs.WellTyped.{IsWellTyped};
ghost use Rattle.cm_typing.specs.Told as Told;
ghost use Rattle.cm_typing.specs.Told.{Answers};
ghost use Rattle.cm_types.specs.Source.{IsRead};
ghost use Rattle.cm_typing.specs.Declarations.{tables_in};
ghost use Rattle.cm_types.specs.LeastValues as LeastValues;
ghost use Rattle.cm_types.specs.LeastValues.{meets_least, with_state, with_states, least_told, IsWalked, IsModelOf};
ghost use Rattle.cm_types.specs.LeastValues.{LeastMeet};
ghost use Rattle.cm_typing.specs.Rules as Rules;

use cm_eval::meets_invariant;
use cm_model::{List, Model, NoMemory, Place};
use cm_syntax::{Decl, Tree};
use cm_typing::{Draft, TypeFault, check_tables, rule, rules};
use cm_value::least;
use std::alloc::Global;

// The places of states, with that of a declaration where it is a state's.
fn add_state(places: &mut List<Place>, d: &Decl) -> Result<(), NoMemory>
    ensures { OnOk result (places.new ≡ with_state places.old d.now) }
{
    match d {
        Decl::Sort { .. } => Ok(()),
        Decl::Int { .. } => Ok(()),
        Decl::Enum { .. } => Ok(()),
        Decl::Record { .. } => Ok(()),
        Decl::Cell { at, .. } => add_place(places, *at),
        Decl::CellWhere { at, .. } => add_place(places, *at),
        Decl::Map { at, .. } => add_place(places, *at),
        Decl::MapWhere { at, .. } => add_place(places, *at),
        Decl::Function { .. } => Ok(()),
        Decl::Call { .. } => Ok(()),
    }
}

fn add_place(places: &mut List<Place>, at: Place) -> Result<(), NoMemory>
    ensures { OnOk result (places.new ≡ places.old ++ at ∷ []) }
{
    places.push(at)?;
    Ok(())
}

fn add_states(places: &mut List<Place>, decls: &[Decl]) -> Result<(), NoMemory>
    ensures { OnOk result (places.new ≡ with_states places.old decls.now) }
{
    for d in decls {
        add_state(places, d)?;
    }
    Ok(())
}

// Where the states of a tree are declared, in order.
fn state_places(alloc: Global, tree: &Tree) -> Result<List<Place>, NoMemory>
    ensures { IfOk result (λ places. places ≡ LeastValues.state_places tree.now) }
{
    let mut places = List::new(alloc);
    add_state(&mut places, &tree.first)?;
    add_states(&mut places, tree.more.as_slice())?;
    Ok(places)
}

// Whether the least value of a state's cells satisfies their invariant.
fn least_meets(alloc: Global, model: &Model, state: u16) -> Result<bool, NoMemory>
    ensures { IfOk result (λ meets. meets ≡ meets_least model.now state) }
{
    model.well_typed();
    let Some(declared) = model.states().get(usize::from(state)) else {
        return Ok(true);
    };
    let value = least(alloc, model, &declared.value)?;
    let meets = meets_invariant(alloc, model, state, &value)?;
    Ok(meets)
}

fn check_state(alloc: Global, model: &Model, number: usize, at: Place) -> Result<(), TypeFault>
    ensures { Answers (Told.rule (meets_least model.now number) Rules.least at) (λ u. u) result }
{
    model.well_typed();
    if number >= model.states().len() {
        return Ok(());
    }
    let meets = least_meets(alloc, model, number as u16)?;
    rule(meets, rules::LEAST, at)
}

fn check_least(alloc: Global, model: &Model, places: &[Place]) -> Result<(), TypeFault>
    ensures { Answers (least_told model.now 0 places.now) (λ u. u) result }
{
    for (number, at) in places.iter().enumerate() {
        check_state(alloc, model, number, *at)?;
    }
    Ok(())
}

// The model of tables that are well typed.
fn model_of(draft: Draft) -> Model
    requires { IsWellTyped (tables_in draft) }
    ensures { result ≡ tables_in draft }
{
    Model::new(
        draft.sorts,
        draft.ints,
        draft.enums,
        draft.records,
        draft.states,
        draft.funs,
        draft.calls,
    )
}

// The model of a tree in which the rules of its walk do not fail.
fn walked(alloc: Global, tree: &Tree) -> Result<Model, TypeFault>
    requires { IsRead tree.now }
    ensures { IsWalked tree.now result }
{
    let draft = check_tables(alloc, tree)?;
    Ok(model_of(draft))
}

fn check_states(alloc: Global, model: &Model, tree: &Tree) -> Result<(), TypeFault>
    ensures { Answers (least_told model.now 0 (LeastValues.state_places tree.now)) (λ u. u) result }
{
    let places = state_places(alloc, tree)?;
    check_least(alloc, model, places.as_slice())
}

/// The model of a tree that was read from a text, or the first type rule that fails in it.
pub fn check(alloc: Global, tree: &Tree) -> Result<Model, TypeFault>
    requires read { IsRead tree.now }
    ensures answer { IsModelOf tree.now result }
    ensures least { IfOk result LeastMeet }
{
    let model = walked(alloc, tree)?;
    check_states(alloc, &model, tree)?;
    Ok(model)
}
