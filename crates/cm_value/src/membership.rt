//! Whether a value is one of a type.

ghost use Rattle.std.specs.Prelude.{◌≡◌, ◌↔◌, IsTrue, map, slice_get};
ghost use Rattle.cm_value.specs.Membership.{is_value_of, IsValueOf, member_of, are_members, has_fields, is_within};
ghost use Rattle.cm_value.specs.Membership.{has_variant};

use crate::Value;
use cm_model::{EnumDecl, IntDecl, Model, Part, Ty};

/// Whether a value is one of a type. A sort, integer type, enum or record that the model doesn't declare
/// has no values.
pub fn member(model: &Model, ty: &Ty, v: &Value) -> bool
    ensures exact { IsTrue result ↔ IsValueOf model.now ty.now v.now }
{
    is_member(model, v, ty)
}

#[cycle(member)]
fn is_member(model: &Model, v: &Value, ty: &Ty) -> bool
    ensures exact { result ≡ is_value_of model.now ty.now v.now }
{
    match (v, ty) {
        (Value::Elem(_), Ty::Sort(sort)) => usize::from(*sort) < model.sorts().len(),
        (Value::Int(n), Ty::Int(int)) => is_within(model.ints().as_slice(), *int, *n),
        (Value::Tag(n), Ty::Enum(ty)) => has_variant(model.enums().as_slice(), *ty, *n),
        (Value::Rec(parts), Ty::Rec(rec)) => has_fields(model, parts.as_slice(), *rec),
        (Value::None, Ty::Option(_)) => true,
        (Value::Some(part), Ty::Option(payload)) => is_member(model, part.get(), payload.get()),
        _ => false,
    }
}

/// Whether there is one value for each field of a record.
#[cycle(member)]
fn has_fields(model: &Model, parts: &[Value], rec: u16) -> bool
    ensures exact { result ≡ has_fields (slice_get model.now.records rec) (map (member_of model.now) parts.now) }
{
    match model.records().as_slice().get(usize::from(rec)) {
        Some(decl) => are_members(model, parts, decl.fields.as_slice()),
        None => false,
    }
}

/// Whether there is one value for each field.
#[cycle(member)]
fn are_members(model: &Model, parts: &[Value], fields: &[Part]) -> bool
    ensures exact { result ≡ are_members (map (member_of model.now) parts.now) (map (λ p. p.ty) fields.now) }
{
    if fields.len() != parts.len() {
        return false;
    }
    for i in 0..parts.len() {
        if !is_member(model, &parts[i], &fields[i].ty) {
            return false;
        }
    }
    true
}

/// Whether a number is one of an integer type.
fn is_within(ints: &[IntDecl], int: u16, n: i64) -> bool
    ensures exact { result ≡ is_within (slice_get ints.now int) n }
{
    match ints.get(usize::from(int)) {
        Some(decl) => decl.lo <= n && n <= decl.hi,
        None => false,
    }
}

/// Whether a number is that of a variant.
fn has_variant(enums: &[EnumDecl], ty: u16, n: u16) -> bool
    ensures exact { result ≡ has_variant (slice_get enums.now ty) n }
{
    match enums.get(usize::from(ty)) {
        Some(decl) => usize::from(n) < decl.variants.len(),
        None => false,
    }
}
