//! The least value of a type.

ghost use Rattle.std.specs.Prelude.{◌≡◌, IfOk, map, slice_get};
ghost use Rattle.cm_model.specs.Types.{IsType};
ghost use Rattle.cm_value.specs.Membership.{IsValueOf};
ghost use Rattle.cm_value.specs.Least.{least_of, least_in, least_records, lowest, or_empty};

use crate::{Vals, Value};
use cm_model::{IntDecl, List, Model, NoMemory, Part, RecDecl, Ty};
use std::alloc::Global;

/// The least value of a type: #0, the lowest number, the first variant, none, or the record of least values.
///
/// # Errors
/// `NoMemory` where memory runs out.
pub fn least(alloc: Global, model: &Model, ty: &Ty) -> Result<Value, NoMemory>
    requires { IsType model.now ty.now }
    ensures exact { IfOk result (λ value. value ≡ least_of model.now ty.now) }
    ensures of_the_type { IfOk result (λ value. IsValueOf model.now ty.now value) }
{
    model.well_typed();
    let value = least_in(
        alloc,
        model.ints().as_slice(),
        model.records().as_slice(),
        ty,
    )?;
    Ok(value)
}

/// The least value of a type whose records are among these.
#[cycle(least)]
fn least_in(
    alloc: Global,
    ints: &[IntDecl],
    records: &[RecDecl],
    ty: &Ty,
) -> Result<Value, NoMemory>
    ensures exact { IfOk result (λ value. value ≡ least_in ints.now (least_records ints.now records.now) ty.now) }
{
    match ty {
        Ty::Sort(_) => Ok(Value::Elem(0)),
        Ty::Int(int) => Ok(Value::Int(lowest(ints, *int))),
        Ty::Enum(_) => Ok(Value::Tag(0)),
        Ty::Rec(rec) => {
            let value = least_record(alloc, ints, records, *rec)?;
            Ok(value)
        }
        Ty::Option(_) => Ok(Value::None),
    }
}

/// The least value of a record, by its number.
#[tactic(auto, using(crate::proofs::LeastRecords::no_record))]
#[cycle(least)]
fn least_record(
    alloc: Global,
    ints: &[IntDecl],
    records: &[RecDecl],
    rec: u16,
) -> Result<Value, NoMemory>
    ensures exact { IfOk result (λ value. value ≡ or_empty (slice_get (least_records ints.now records.now) rec)) }
{
    let at = usize::from(rec);
    if at >= records.len() {
        return Ok(Value::Rec(List::new(alloc)));
    }
    let fields = records[at].fields.as_slice();
    let parts = least_fields(alloc, ints, &records[..at], fields)?;
    Ok(Value::Rec(parts))
}

/// The least values of fields.
#[cycle(least)]
fn least_fields(
    alloc: Global,
    ints: &[IntDecl],
    records: &[RecDecl],
    fields: &[Part],
) -> Result<Vals, NoMemory>
    ensures exact { IfOk result (λ parts. parts ≡ map (λ p. least_in ints.now (least_records ints.now records.now) p.ty)
        fields.now) }
{
    let mut parts = List::new(alloc);
    for field in fields {
        let part = least_in(alloc, ints, records, &field.ty)?;
        parts.push(part)?;
    }
    Ok(parts)
}

/// The lowest number of an integer type.
fn lowest(ints: &[IntDecl], int: u16) -> i64
    ensures exact { result ≡ lowest (slice_get ints.now int) }
{
    match ints.get(usize::from(int)) {
        Some(decl) => decl.lo,
        None => 0,
    }
}
