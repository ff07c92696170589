//! Worked examples of each call.

mod example;
mod made;

ghost use Rattle.std.specs.Prelude.{◌≡◌, false, pos, [], ◌∷◌};
ghost use Rattle.cm_model.specs.Types.{IsType};
ghost use Rattle.cm_model.specs.declared.ty.Ty.TheVariants as ty;
ghost use Rattle.cm_value.specs.declared.value.Value.TheVariants as value;
ghost use Rattle.cm_value.specs.Example.{example};
ghost use Rattle.cm_value.specs.Membership.{is_value_of, IsValueOf};
ghost use Rattle.cm_value.specs.Least.{least_of};
ghost use Rattle.cm_value.specs.Relabelling.{relabelled};

use super::*;
use cm_model::{Boxed, List, Model, NoMemory, Ty};
use example::example_model;
use made::{NODE, POINT, node, point, some};
use std::alloc::Global;
use std::process::Abort;
use std::test::Fail;

/// The model of the example, of which a test knows nothing more.
fn a_model(alloc: Global) -> Result<Model, NoMemory> {
    example_model(alloc)
}

/// What `member` answers.
fn is_in(model: &Model, ty: &Ty, v: &Value) -> bool {
    member(model, ty, v)
}

fn is_element(model: &Model, sort: u16, n: u64) -> bool {
    is_in(model, &Ty::Sort(sort), &Value::Elem(n))
}

fn is_number(model: &Model, int: u16, n: i64) -> bool {
    is_in(model, &Ty::Int(int), &Value::Int(n))
}

fn is_variant(model: &Model, ty: u16, n: u16) -> bool {
    is_in(model, &Ty::Enum(ty), &Value::Tag(n))
}

fn is_empty_record(alloc: Global, model: &Model, rec: u16) -> bool {
    is_in(model, &Ty::Rec(rec), &Value::Rec(List::new(alloc)))
}

fn is_point(alloc: Global, model: &Model, at: u64, size: i64) -> Result<bool, NoMemory> {
    let v = point(alloc, at, size)?;
    Ok(is_in(model, &Ty::Rec(POINT), &v))
}

fn is_node(alloc: Global, model: &Model, size: i64, shade: u16) -> Result<bool, NoMemory> {
    let v = node(alloc, 7, size, 9, shade)?;
    Ok(is_in(model, &Ty::Rec(NODE), &v))
}

/// Whether some variant is one of an option of an enum.
fn is_some_variant(alloc: Global, model: &Model, index: u16) -> Result<bool, NoMemory> {
    let v = some(alloc, Value::Tag(index))?;
    let ty = made::option(alloc, Ty::Enum(0))?;
    Ok(is_in(model, &ty, &v))
}

/// Whether a record with one value is a point.
fn is_short_point(alloc: Global, model: &Model) -> Result<bool, NoMemory> {
    let mut parts = List::new(alloc);
    parts.push(Value::Elem(0))?;
    let v = Value::Rec(parts);
    Ok(is_in(model, &Ty::Rec(POINT), &v))
}

#[test]
fn a_value_is_one_of_its_type(rt: HostRuntime) -> Result<(), Fail> {
    let alloc = rt.alloc();
    let model = a_model(alloc)?;
    one_of_its_type(&rt, &model);
    none_of_a_type(&rt, &model);
    parts_of_their_types(&rt, alloc, &model)?;
    Ok(())
}

fn one_of_its_type(rt: &impl Abort, model: &Model) {
    assert!(rt; is_element(model, 1, 18446744073709551615));
    assert!(rt; is_number(model, 0, 2));
    assert!(rt; is_number(model, 0, 5));
    assert!(rt; is_variant(model, 1, 2));
}

/// Out of range, past the last variant, of another form, of a type that isn't declared.
fn none_of_a_type(rt: &impl Abort, model: &Model) {
    assert!(rt; !is_number(model, 0, 6));
    assert!(rt; !is_number(model, 0, 1));
    assert!(rt; !is_variant(model, 1, 3));
    assert!(rt; !is_in(model, &Ty::Sort(0), &Value::Tag(0)));
    assert!(rt; !is_element(model, 2, 0));
    assert!(rt; !is_number(model, 1, 2));
    assert!(rt; !is_variant(model, 65535, 0));
}

fn parts_of_their_types(rt: &impl Abort, alloc: Global, model: &Model) -> Result<(), NoMemory> {
    assert!(rt; is_point(alloc, model, 7, 3)?);
    assert!(rt; !is_point(alloc, model, 0, 6)?);
    assert!(rt; is_node(alloc, model, 3, 1)?);
    assert!(rt; !is_node(alloc, model, 3, 3)?);
    assert!(rt; is_some_variant(alloc, model, 1)?);
    assert!(rt; !is_some_variant(alloc, model, 2)?);
    assert!(rt; !is_short_point(alloc, model)?);
    assert!(rt; !is_empty_record(alloc, model, 2));
    Ok(())
}

#[test]
fn values_are_compared_whole(rt: HostRuntime) -> Result<(), Fail> {
    forms_differ(&rt);
    parts_differ(&rt, rt.alloc())?;
    lengths_differ(&rt, rt.alloc())?;
    Ok(())
}

/// Other forms with the same number.
fn forms_differ(rt: &impl Abort) {
    assert!(rt; same(&Value::Elem(3), &Value::Elem(3)));
    assert!(rt; !same(&Value::Elem(3), &Value::Elem(4)));
    assert!(rt; !same(&Value::Elem(0), &Value::Tag(0)));
    assert!(rt; !same(&Value::Int(0), &Value::Elem(0)));
    assert!(rt; same(&Value::None, &Value::None));
}

/// Whether a value equals its copy and differs from the other one.
fn is_apart(alloc: Global, v: Value, other: Value) -> Result<bool, NoMemory> {
    let copy = copy_value(alloc, &v)?;
    Ok(same(&v, &copy) && !same(&v, &other) && !same(&other, &v))
}

fn parts_differ(rt: &impl Abort, alloc: Global) -> Result<(), NoMemory> {
    // A size, a next element, a shade; a payload.
    assert!(rt; is_apart(alloc, node(alloc, 7, 3, 9, 1)?, node(alloc, 7, 4, 9, 1)?)?);
    assert!(rt; is_apart(alloc, node(alloc, 7, 3, 9, 1)?, node(alloc, 7, 3, 8, 1)?)?);
    assert!(rt; is_apart(alloc, node(alloc, 7, 3, 9, 1)?, node(alloc, 7, 3, 9, 2)?)?);
    assert!(rt;
        is_apart(
            alloc,
            some(alloc, Value::Elem(9))?,
            some(alloc, Value::Elem(8))?
        )?
    );
    Ok(())
}

fn lengths_differ(rt: &impl Abort, alloc: Global) -> Result<(), NoMemory> {
    assert!(rt; is_apart(alloc, point(alloc, 7, 3)?, Value::Rec(List::new(alloc)))?);
    assert!(rt; is_apart(alloc, point(alloc, 7, 3)?, made::single(alloc, 7)?)?);
    assert!(rt; is_apart(alloc, some(alloc, Value::None)?, Value::None)?);
    Ok(())
}

/// Whether a value of a type becomes this one where #0 and #1 of the first sort are exchanged.
fn becomes(
    alloc: Global,
    model: &Model,
    ty: Ty,
    v: Value,
    wanted: Value,
) -> Result<bool, NoMemory> {
    if !member(model, &ty, &v) {
        return Ok(false);
    }
    let by = Swap {
        sort: 0,
        x: 0,
        y: 1,
    };
    let value = relabel(alloc, model, &ty, &v, &by)?;
    Ok(same(&value, &wanted))
}

#[test]
fn an_exchange_goes_wherever_the_sort_stands(rt: HostRuntime) -> Result<(), Fail> {
    let alloc = rt.alloc();
    let model = a_model(alloc)?;
    elements_are_exchanged(&rt, alloc, &model)?;
    Ok(())
}

fn elements_are_exchanged(rt: &impl Abort, alloc: Global, model: &Model) -> Result<(), NoMemory> {
    let of_sort = |n: u64, wanted: u64| becomes(
        alloc,
        model,
        Ty::Sort(0),
        Value::Elem(n),
        Value::Elem(wanted),
    );
    assert!(rt; of_sort(0, 1)?);
    assert!(rt; of_sort(1, 0)?);
    assert!(rt; of_sort(2, 2)?);
    // Another sort; in a record of a record and in an option, where the owner is of another sort.
    assert!(rt; becomes(alloc, model, Ty::Sort(1), Value::Elem(0), Value::Elem(0))?);
    assert!(rt;
        becomes(
            alloc,
            model,
            Ty::Rec(NODE),
            node(alloc, 0, 3, 1, 1)?,
            node(alloc, 1, 3, 0, 1)?
        )?
    );
    Ok(())
}

/// Whether this is the least value of a type.
fn is_least(alloc: Global, model: &Model, ty: Ty, wanted: Value) -> Result<bool, NoMemory>
    requires { IsType model.now ty }
{
    let value = least(alloc, model, &ty)?;
    Ok(same(&value, &wanted))
}

#[test]
fn least_values_by_each_form_of_type(rt: HostRuntime) -> Result<(), Fail> {
    let alloc = rt.alloc();
    let model = example_model(alloc)?;
    least_values(&rt, alloc, &model)?;
    Ok(())
}

fn least_values(rt: &impl Abort, alloc: Global, model: &Model) -> Result<(), NoMemory>
    requires { model.now ≡ example }
{
    assert!(rt; is_least(alloc, model, Ty::Sort(1), Value::Elem(0))?);
    assert!(rt; is_least(alloc, model, Ty::Int(0), Value::Int(2))?);
    assert!(rt; is_least(alloc, model, Ty::Enum(1), Value::Tag(0))?);
    assert!(rt; is_least(alloc, model, Ty::Rec(NODE), made::least_node(alloc)?)?);
    assert!(rt; is_none_the_least(alloc, model)?);
    Ok(())
}

/// Whether none is the least value of the option of a point.
fn is_none_the_least(alloc: Global, model: &Model) -> Result<bool, NoMemory>
    requires { model.now ≡ example }
{
    let payload = Boxed::new(alloc, Ty::Rec(POINT))?;
    let answer = is_least(alloc, model, Ty::Option(payload), Value::None)?;
    Ok(answer)
}

fn example_of_a_least_value()
    ensures { least_of example (ty.Rec 1) ≡ value.Rec (value.Rec (value.Elem 0 ∷ value.Int (pos 2) ∷ [])
        ∷ value.None ∷ value.Tag 0 ∷ value.Elem 0 ∷ []) }
{}

fn example_of_membership()
    ensures point { IsValueOf example (ty.Rec 0) (value.Rec (value.Elem 0 ∷ value.Int (pos 5) ∷ [])) }
    ensures out_of_range { is_value_of example (ty.Rec 0) (value.Rec (value.Elem 0 ∷ value.Int (pos 6) ∷ [])) ≡ false }
    ensures too_few { is_value_of example (ty.Rec 0) (value.Rec (value.Elem 0 ∷ [])) ≡ false }
{}

// #0 becomes #1 in the place, and #1 becomes #0 in the next one; the owner is of another sort.
fn example_of_an_exchange()
    ensures element { relabelled example (record { sort = 0; x = 0; y = 1 }) (ty.Sort 0) (value.Elem 0) ≡ value.Elem 1 }
    ensures node { relabelled example (record { sort = 0; x = 0; y = 1 }) (ty.Rec 1)
        (value.Rec (value.Rec (value.Elem 0 ∷ value.Int (pos 2) ∷ []) ∷ value.Some (value.Elem 1) ∷ value.Tag 1
        ∷ value.Elem 1 ∷ []))
        ≡ value.Rec (value.Rec (value.Elem 1 ∷ value.Int (pos 2) ∷ []) ∷ value.Some (value.Elem 0) ∷ value.Tag 1 ∷ value.Elem 1 ∷ []) }
{}

#[test]
fn the_definitions_compute() {
    example_of_a_least_value();
    example_of_membership();
    example_of_an_exchange();
}
