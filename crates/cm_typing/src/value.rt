//! Names by themselves, with a key, and their fields.

ghost use Rattle.std.specs.Prelude.{◌≡◌, ◌&&◌, IfOk, Some, option_copied};
ghost use Rattle.cm_typing.specs.Told.{Answers};
ghost use Rattle.cm_typing.specs.Names as NameSpecs;
ghost use Rattle.cm_typing.specs.Names.{look, it_name};
ghost use Rattle.cm_typing.specs.Expressions as Expressions;

use crate::fault::refused;
use crate::flat::{enum_flat, kind_of};
use crate::{
    Base, Entry, FieldPath, Flat, FoundField, FoundMap, Kind, Names, Scope, TypeFault, Typed, rules,
};
use cm_model::{Boxed, Expr, List, Name, NoMemory, Place};
use std::alloc::Global;

/// The number that no field has.
pub const NO_FIELD: u16 = 65535;

/// A name by itself.
pub(crate) fn value_named(at: Place, entry: &Entry) -> Result<Typed, TypeFault>
    ensures { Answers (Expressions.value_named at (Some entry.now)) (λ v. v) result }
{
    match entry {
        Entry::Local { number, ty } => Ok(Typed {
            at,
            expr: Expr::Local(*number),
            kind: kind_of(*ty),
        }),
        Entry::Variant { of, index } => Ok(Typed {
            at,
            expr: Expr::Tag {
                ty: *of,
                index: *index,
            },
            kind: kind_of(Some(enum_flat(*of))),
        }),
        Entry::Cell { state, value } => Ok(Typed {
            at,
            expr: Expr::Cell {
                state: *state,
                key: None,
            },
            kind: kind_of(*value),
        }),
        _ => Err(refused(rules::UNKNOWN, at)),
    }
}

/// A name with a key.
pub(crate) fn map_named(at: Place, entry: &Entry) -> Result<FoundMap, TypeFault>
    ensures { Answers (Expressions.map_named at (Some entry.now)) (λ v. v) result }
{
    match entry {
        Entry::Map { state, key, value } => Ok(FoundMap {
            state: *state,
            key: *key,
            value: *value,
        }),
        _ => Err(refused(rules::UNKNOWN, at)),
    }
}

/// `it`, where it is a local.
pub(crate) fn check_it(locals: &Names, at: Place) -> Result<Typed, TypeFault>
    ensures { Answers (Expressions.it_told at (look it_name locals.now)) (λ v. v) result }
{
    match locals.find_it() {
        Some(Entry::Local { number, ty }) => Ok(Typed {
            at,
            expr: Expr::Local(*number),
            kind: kind_of(*ty),
        }),
        _ => Err(refused(rules::IT, at)),
    }
}

fn field_entry(at: Place, entry: Option<&Entry>) -> Result<FoundField, TypeFault>
    ensures { Answers (Expressions.field_entry at (option_copied entry.entry)) (λ v. v) result }
{
    match entry {
        Some(Entry::Field { index, ty }) => Ok(FoundField {
            index: *index,
            ty: *ty,
        }),
        _ => Err(refused(rules::FIELD, at)),
    }
}

impl Scope {
    /// What a name stands for here.
    pub(crate) fn find<'a>(
        &'a self,
        locals: &'a Names,
        at: Place,
        name: &Name,
    ) -> Result<&'a Entry, TypeFault>
        ensures { Answers (Expressions.named at name.now self.now locals.now) (λ e. Some e.now) result }
    {
        match locals.find(name) {
            Some(entry) => Ok(entry),
            None => match self.names.find(name) {
                Some(entry) => allowed(at, locals.has_it(), entry),
                None => Err(refused(rules::UNKNOWN, at)),
            },
        }
    }

    fn fields_of(&self, t: Flat) -> Option<&Names>
        ensures { option_copied result ≡ Expressions.fields_of t self.now.records }
    {
        if t.options == 0 {
            match t.base {
                Base::Record(r) => self.records.as_slice().get(usize::from(r)),
                _ => None,
            }
        } else {
            None
        }
    }

    fn field_in(&self, at: Place, name: &Name, t: Flat) -> Result<FoundField, TypeFault>
        ensures { Answers (Expressions.field_in at name.now (Expressions.fields_of t self.now.records))
            (λ v. v) result }
    {
        match self.fields_of(t) {
            Some(fields) => field_entry(at, fields.find(name)),
            None => Err(refused(rules::FIELD, at)),
        }
    }

    /// A field of something of this kind.
    pub(crate) fn field_of(
        &self,
        at: Place,
        name: &Name,
        kind: Option<Kind>,
    ) -> Result<FoundField, TypeFault>
        ensures { Answers (Expressions.field_of at name.now kind self.now) (λ v. v) result }
    {
        match kind {
            None => Ok(FoundField {
                index: NO_FIELD,
                ty: None,
            }),
            Some(Kind::Number) => Err(refused(rules::FIELD, at)),
            Some(Kind::Of(t)) => self.field_in(at, name, t),
        }
    }

    /// A field of a field and so on.
    pub(crate) fn check_path(
        &self,
        alloc: Global,
        at: Place,
        names: &[Name],
        kind: Option<Kind>,
    ) -> Result<FieldPath, TypeFault>
        ensures { Answers (Expressions.path_told at (Expressions.no_path kind) names.now self.now) (λ v. v) result }
    {
        let mut path = List::new(alloc);
        let mut reached = kind;
        for name in names {
            let field = self.field_of(at, name, reached)?;
            path.push(field.index)?;
            reached = kind_of(field.ty);
        }
        Ok(FieldPath {
            path,
            kind: reached,
        })
    }
}

/// A name that is declared, where it may be used here.
fn allowed<'a>(at: Place, inside: bool, entry: &'a Entry) -> Result<&'a Entry, TypeFault>
    ensures { Answers (NameSpecs.allowed at (inside && NameSpecs.is_state entry.now) entry.now)
        (λ e. Some e.now) result }
{
    if inside && is_state(entry) {
        Err(refused(rules::INVARIANT, at))
    } else {
        Ok(entry)
    }
}

fn is_state(entry: &Entry) -> bool
    ensures { result ≡ NameSpecs.is_state entry.now }
{
    match entry {
        Entry::Cell { state: _, value: _ } => true,
        Entry::Map {
            state: _,
            key: _,
            value: _,
        } => true,
        _ => false,
    }
}

fn expr_at(alloc: Global, of: Expr, path: List<u16>) -> Result<Expr, NoMemory>
    ensures { IfOk result (λ e. e ≡ Expressions.expr_at of path) }
{
    if path.is_empty() {
        return Ok(of);
    }
    Ok(Expr::Fields {
        of: Boxed::new(alloc, of)?,
        path,
    })
}

/// The expression of a field, where there is one.
pub(crate) fn at_path(alloc: Global, v: Typed, path: FieldPath) -> Result<Typed, NoMemory>
    ensures { IfOk result (λ t. t ≡ Expressions.at_path v path) }
{
    let Typed { at, expr, kind: _ } = v;
    let FieldPath { path, kind } = path;
    let expr = expr_at(alloc, expr, path)?;
    Ok(Typed { at, expr, kind })
}
