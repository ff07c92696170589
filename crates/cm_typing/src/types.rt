//! Types that are written are resolved.

ghost use Rattle.std.specs.Prelude.{◌≡◌};
ghost use Rattle.cm_syntax.specs.declared.tree.«Type».TheOpen as layer;
ghost use Rattle.cm_typing.specs.Told.{Answers};
ghost use Rattle.cm_typing.specs.Names.{look};
ghost use Rattle.cm_typing.specs.Types as Types;
ghost use Rattle.cm_typing.specs.Types.{type_told};

use crate::fault::refused;
use crate::flat::{enum_flat, int_flat, option_of, sort_flat};
use crate::{Entry, Flat, Names, TypeFault, rules};
use cm_model::{Name, Place};
use cm_syntax::Type;

fn check_named(names: &Names, at: Place, name: &Name) -> Result<Option<Flat>, TypeFault>
    ensures { Answers (Types.type_named at (look name.now names.now)) (λ t. t) result }
{
    match names.find(name) {
        Some(Entry::Sort(n)) => Ok(Some(sort_flat(*n))),
        Some(Entry::Int(n)) => Ok(Some(int_flat(*n))),
        Some(Entry::Enum(n)) => Ok(Some(enum_flat(*n))),
        Some(
            Entry::Record {
                number: _,
                ty,
                fields: _,
            },
        ) => Ok(*ty),
        _ => Err(refused(rules::UNKNOWN, at)),
    }
}

/// The type that is written.
#[cycle(check_type)]
pub(crate) fn check_type(names: &Names, t: &Type) -> Result<Option<Flat>, TypeFault>
    ensures { Answers (type_told t.now names.now) (λ t. t) result }
{
    match t {
        Type::Bool { at: _ } => Ok(Some(enum_flat(0))),
        Type::Named { at, name } => check_named(names, *at, name),
        Type::Optional { at, inner } => check_optional(names, *at, inner.get()),
    }
}

#[cycle(check_type)]
fn check_optional(names: &Names, at: Place, inner: &Type) -> Result<Option<Flat>, TypeFault>
    ensures { Answers (Types.type_step (layer.Optional at (type_told inner.now)) names.now) (λ t. t) result }
{
    let inner = check_type(names, inner)?;
    option_of(at, inner)
}
