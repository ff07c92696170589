//! The exchange of two elements of a sort.

ghost use Rattle.std.specs.Prelude.{◌≡◌, IfOk, map, slice_get, option_map, if◌then◌else◌};
ghost use Rattle.std.specs.Option.{option_copied};
ghost use Rattle.cm_model.specs.declared.ty.Ty.{out-Ty};
ghost use Rattle.cm_value.specs.Membership.{IsValueOf};
ghost use Rattle.cm_value.specs.Relabelling.{LacksBoth, relabelled, relabel_of, swapped, each_relabelled, is_sort_form};
ghost use Rattle.cm_value.specs.Relabelling.{types_form, types_in, payload_form};

use crate::{Swap, Vals, Value, copy_value};
use cm_model::{Boxed, List, Model, NoMemory, Part, RecDecl, Ty};
use std::alloc::Global;

/// The value with the two elements of the sort exchanged wherever they stand.
///
/// # Errors
/// `NoMemory` where memory runs out.
pub fn relabel(
    alloc: Global,
    model: &Model,
    ty: &Ty,
    v: &Value,
    by: &Swap,
) -> Result<Value, NoMemory>
    requires { IsValueOf model.now ty.now v.now }
    ensures exact { IfOk result (λ value. value ≡ relabelled model.now by.now ty.now v.now) }
    ensures of_the_type { IfOk result (λ value. IsValueOf model.now ty.now value) }
    ensures back { IfOk result (λ value. relabelled model.now by.now ty.now value ≡ v.now) }

    // A value in which neither element stands stays as it is.
    ensures untouched { IfOk result (λ value. LacksBoth model.now by.now ty.now v.now → value ≡ v.now) }
{
    let value = relabel_value(alloc, model, v, ty, by)?;
    Ok(value)
}

/// Where the value is none of the type, what has no type of its own stays as it is.
#[cycle(relabel)]
fn relabel_value(
    alloc: Global,
    model: &Model,
    v: &Value,
    ty: &Ty,
    by: &Swap,
) -> Result<Value, NoMemory>
    ensures exact { IfOk result (λ value. value ≡ relabelled model.now by.now ty.now v.now) }
{
    match v {
        Value::Elem(n) => Ok(Value::Elem(relabel_element(*n, ty, by))),
        Value::Int(n) => Ok(Value::Int(*n)),
        Value::Tag(n) => Ok(Value::Tag(*n)),
        Value::Rec(parts) => {
            let parts = relabel_parts(alloc, model, parts.as_slice(), fields_of(model, ty), by)?;
            Ok(Value::Rec(parts))
        }
        Value::None => Ok(Value::None),
        Value::Some(part) => {
            let part = relabel_typed(alloc, model, part.get(), payload_of(ty), by)?;
            let part = Boxed::new(alloc, part)?;
            Ok(Value::Some(part))
        }
    }
}

/// The values of fields, each by its type.
#[cycle(relabel)]
fn relabel_parts(
    alloc: Global,
    model: &Model,
    parts: &[Value],
    fields: &[Part],
    by: &Swap,
) -> Result<Vals, NoMemory>
    ensures exact { IfOk result (λ values. values ≡ each_relabelled (map (relabel_of model.now by.now) parts.now)
        (map (λ p. p.ty) fields.now)) }
{
    let mut values = List::new(alloc);
    for i in 0..parts.len() {
        let value = relabel_typed(alloc, model, &parts[i], type_at(fields, i), by)?;
        values.push(value)?;
    }
    Ok(values)
}

/// A part by its type, if it has one.
#[cycle(relabel)]
fn relabel_typed(
    alloc: Global,
    model: &Model,
    part: &Value,
    ty: Option<&Ty>,
    by: &Swap,
) -> Result<Value, NoMemory>
    ensures exact { IfOk result (λ value. value ≡ relabel_of model.now by.now part.now (option_copied ty.entry)) }
{
    match ty {
        Some(ty) => {
            let value = relabel_value(alloc, model, part, ty, by)?;
            Ok(value)
        }
        None => {
            let value = copy_value(alloc, part)?;
            Ok(value)
        }
    }
}

/// The element that stands for this one, of this type.
fn relabel_element(n: u64, ty: &Ty, by: &Swap) -> u64
    ensures exact { result ≡ (if is_sort_form by.now.sort (out-Ty ty.now) then swapped by.now.x by.now.y n else n) }
{
    match ty {
        Ty::Sort(sort) if *sort == by.sort => swapped(n, by),
        _ => n,
    }
}

/// The other of the two elements, if it is one.
fn swapped(n: u64, by: &Swap) -> u64
    ensures exact { result ≡ swapped by.now.x by.now.y n }
{
    if n == by.x {
        by.y
    } else if n == by.y {
        by.x
    } else {
        n
    }
}

/// The fields of a type.
fn fields_of<'a>(model: &'a Model, ty: &Ty) -> &'a [Part]
    ensures exact { map (λ p. p.ty) result.now ≡ types_form model.now (out-Ty ty.now) }
{
    match ty {
        Ty::Rec(rec) => fields_in(model.records().as_slice(), *rec),
        _ => &[],
    }
}

/// The fields of a record.
fn fields_in(records: &[RecDecl], rec: u16) -> &[Part]
    ensures exact { map (λ p. p.ty) result.now ≡ types_in (slice_get records.now rec) }
{
    match records.get(usize::from(rec)) {
        Some(decl) => decl.fields.as_slice(),
        None => &[],
    }
}

/// The type of the payload.
fn payload_of(ty: &Ty) -> Option<&Ty>
    ensures exact { option_copied result ≡ payload_form (out-Ty ty.now) }
{
    match ty {
        Ty::Option(payload) => Some(payload.get()),
        _ => None,
    }
}

/// The type of a field.
fn type_at(fields: &[Part], at: usize) -> Option<&Ty>
    ensures exact { option_copied result ≡ option_map (λ p. p.ty) (slice_get fields.now at) }
{
    match fields.get(at) {
        Some(field) => Some(&field.ty),
        None => None,
    }
}
