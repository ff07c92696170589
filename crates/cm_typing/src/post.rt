//! Fields and records with fields set are checked.

ghost use Rattle.std.specs.Prelude.{◌≡◌, [], map};
ghost use Rattle.cm_typing.specs.Told.{Answers};
ghost use Rattle.cm_typing.specs.Expressions as Expressions;
ghost use Rattle.cm_typing.specs.Expressions.{post_told, set_told};

use crate::fault::rule;
use crate::flat::wanted;
use crate::value::{NO_FIELD, at_path};
use crate::{Base, FoundField, Kind, Names, Scope, Sets, TypeFault, Typed, rules};
use cm_model::{Boxed, Expr, List, Name, Place, SetField};
use cm_syntax::{Post, Set};
use std::alloc::Global;

fn is_record_base(base: Base) -> bool
    ensures { result ≡ Expressions.is_record_base base }
{
    match base {
        Base::Record(_) => true,
        _ => false,
    }
}

// The kind of a record; nothing else has fields to set.
fn record_kind(kind: Option<Kind>) -> Option<Kind>
    ensures { result ≡ Expressions.record_kind kind }
{
    match kind {
        Some(Kind::Of(t)) => {
            if is_record_base(t.base) && t.options == 0 {
                Some(Kind::Of(t))
            } else {
                None
            }
        }
        Some(Kind::Number) => None,
        None => None,
    }
}

fn is_among(index: u16, taken: &[u16]) -> bool
    ensures { result ≡ Expressions.is_among index taken.now }
{
    taken.iter().any(|i| *i == index)
}

fn is_new(index: u16, taken: &[u16]) -> bool
    ensures { result ≡ Expressions.is_new index taken.now }
{
    index == NO_FIELD || !is_among(index, taken)
}

impl Scope {
    #[cycle(check_expr)]
    pub(crate) fn check_post(
        &self,
        alloc: Global,
        locals: &Names,
        e: &Post,
    ) -> Result<Typed, TypeFault>
        ensures { Answers (post_told e.now self.now locals.now) (λ v. v) result }
    {
        let v = self.check_prim(alloc, locals, &e.prim)?;
        let path = self.check_path(alloc, e.at, e.fields.as_slice(), v.kind)?;
        let v = at_path(alloc, v, path)?;
        self.check_with(alloc, locals, e.sets.as_slice(), v)
    }

    // A record with fields set, where some are.
    #[cycle(check_expr)]
    fn check_with(
        &self,
        alloc: Global,
        locals: &Names,
        sets: &[Set],
        v: Typed,
    ) -> Result<Typed, TypeFault>
        ensures { Answers (Expressions.with_told v (map set_told sets.now) self.now locals.now) (λ v. v) result }
    {
        if sets.is_empty() {
            return Ok(v);
        }
        let done = self.check_sets(alloc, locals, sets, v.kind)?;
        Ok(Typed {
            at: v.at,
            expr: Expr::With {
                of: Boxed::new(alloc, v.expr)?,
                sets: done.sets,
            },
            kind: record_kind(v.kind),
        })
    }

    #[cycle(check_expr)]
    fn check_sets(
        &self,
        alloc: Global,
        locals: &Names,
        sets: &[Set],
        kind: Option<Kind>,
    ) -> Result<Sets, TypeFault>
        ensures { Answers (Expressions.sets_told Expressions.no_sets (map set_told sets.now) kind self.now locals.now)
            (λ v. v) result }
    {
        let mut done = Sets {
            sets: List::new(alloc),
            taken: List::new(alloc),
        };
        for set in sets {
            self.check_next_set(alloc, locals, set, &mut done, kind)?;
        }
        Ok(done)
    }

    // A field that is set: the record has it, and it is not set before.
    fn set_field(
        &self,
        at: Place,
        name: &Name,
        taken: &[u16],
        kind: Option<Kind>,
    ) -> Result<FoundField, TypeFault>
        ensures { Answers (Expressions.set_field at name.now taken.now kind self.now) (λ v. v) result }
    {
        let field = self.field_of(at, name, kind)?;
        rule(is_new(field.index, taken), rules::FIELD, at)?;
        Ok(field)
    }

    #[cycle(check_expr)]
    #[tactic(auto, unfolding(crate::specs::Expressions::next_set_told))]
    fn check_next_set(
        &self,
        alloc: Global,
        locals: &Names,
        set: &Set,
        done: &mut Sets,
        kind: Option<Kind>,
    ) -> Result<(), TypeFault>
        ensures { Answers (Expressions.next_set_told done.old (set_told set.now) kind self.now locals.now)
            (λ u. done.new) result }
    {
        let field = self.set_field(set.at, &set.field, done.taken.as_slice(), kind)?;
        let value = self.check_set_value(alloc, locals, &set.value, field)?;
        done.sets.push(SetField {
            field: field.index,
            value,
        })?;
        done.taken.push(field.index)?;
        Ok(())
    }

    #[cycle(check_expr)]
    fn check_set_value(
        &self,
        alloc: Global,
        locals: &Names,
        e: &cm_syntax::Expr,
        field: FoundField,
    ) -> Result<Expr, TypeFault>
        ensures { Answers (Expressions.set_value (Expressions.expr_told e.now) field self.now locals.now)
            (λ v. v) result }
    {
        let v = self.check_expr(alloc, locals, e)?;
        wanted(field.ty, v.at, v.kind)?;
        Ok(v.expr)
    }
}
