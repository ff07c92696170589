//! Expressions without a sign between their parts are checked.

ghost use Rattle.std.specs.Prelude.{◌≡◌, [], map};
ghost use Rattle.cm_syntax.specs.declared.tree.Cmp.TheOpen as layer;
ghost use Rattle.cm_typing.specs.Told.{Answers};
ghost use Rattle.cm_typing.specs.Names.{in_invariant};
ghost use Rattle.cm_typing.specs.Expressions as Expressions;
ghost use Rattle.cm_typing.specs.Expressions.{expr_told, prim_told};

use crate::expr::is_number;
use crate::fault::{refused, rule};
use crate::flat::{
    bool_kind, int_flat, is_integer, is_value, kind_of, option_of, ty_of, value_of, wanted,
};
use crate::types::check_type;
use crate::value::{check_it, map_named, value_named};
use crate::{Entry, Flat, FoundMap, Kind, Names, Scope, TypeFault, Typed, rules};
use cm_model::{Boxed, Expr, List, Name, Place};
use cm_syntax::{Num, Primary, Type};
use std::alloc::Global;

/// The number that is written.
pub(crate) fn number_in(n: &Num) -> i64
    ensures { result ≡ Expressions.number_in n.now }
{
    match n {
        Num::Digits { at: _, size } => i64::from(*size),
        Num::Negative { at: _, size } => -i64::from(*size),
    }
}

fn check_number(at: Place, n: &Num) -> Result<Typed, TypeFault>
    ensures { Answers (Expressions.number_told at (Expressions.number_in n.now)) (λ v. v) result }
{
    let number = number_in(n);
    rule(is_number(number), rules::NUMBERS, at)?;
    Ok(Typed {
        at,
        expr: Expr::Num(number),
        kind: Some(Kind::Number),
    })
}

fn truth(at: Place, index: u16) -> Typed
    ensures { result ≡ Expressions.truth at index }
{
    Typed {
        at,
        expr: Expr::Tag { ty: 0, index },
        kind: bool_kind(),
    }
}

// The type of the parameter or field at a place, where it is there.
fn type_at(types: &[Option<Flat>], i: usize) -> Option<Flat>
    ensures { result ≡ Expressions.type_at types.now i }
{
    match types.get(i) {
        Some(t) => *t,
        None => None,
    }
}

impl Scope {
    #[cycle(check_expr)]
    pub(crate) fn check_prim(
        &self,
        alloc: Global,
        locals: &Names,
        e: &Primary,
    ) -> Result<Typed, TypeFault>
        ensures { Answers (prim_told e.now self.now locals.now) (λ v. v) result }
    {
        match e {
            Primary::Number { at, value } => check_number(*at, value),
            Primary::True { at } => Ok(truth(*at, 1)),
            Primary::False { at } => Ok(truth(*at, 0)),
            Primary::It { at } => check_it(locals, *at),
            Primary::Name { at, name } => self.check_name(locals, *at, name),
            Primary::Entry { at, name, key } => {
                self.check_entry(alloc, locals, *at, name, key.get())
            }
            Primary::Apply { at, name, args } => {
                self.check_apply(alloc, locals, *at, name, args.as_slice())
            }
            Primary::NoneOf { at, inner } => self.check_none(alloc, *at, inner),
            Primary::SomeOf { at, of } => self.check_some(alloc, locals, *at, of.get()),
            Primary::Group { at, inner } => { self.check_group(alloc, locals, *at, inner.get()) }
        }
    }

    fn check_name(&self, locals: &Names, at: Place, name: &Name) -> Result<Typed, TypeFault>
        ensures { Answers (Expressions.prim_step (layer.Name at name.now) self.now locals.now) (λ v. v) result }
    {
        let entry = self.find(locals, at, name)?;
        value_named(at, entry)
    }

    /// A state that is a map.
    pub(crate) fn find_map(
        &self,
        locals: &Names,
        at: Place,
        name: &Name,
    ) -> Result<FoundMap, TypeFault>
        ensures { Answers (Expressions.map_told at name.now self.now locals.now) (λ v. v) result }
    {
        let entry = self.find(locals, at, name)?;
        map_named(at, entry)
    }

    #[cycle(check_expr)]
    fn check_entry(
        &self,
        alloc: Global,
        locals: &Names,
        at: Place,
        name: &Name,
        key: &cm_syntax::Expr,
    ) -> Result<Typed, TypeFault>
        ensures { Answers (Expressions.prim_step (layer.Entry at name.now (expr_told key.now)) self.now locals.now)
            (λ v. v) result }
    {
        let found = self.find_map(locals, at, name)?;
        let k = self.check_expr(alloc, locals, key)?;
        wanted(found.key, k.at, k.kind)?;
        Ok(Typed {
            at,
            expr: Expr::Cell {
                state: found.state,
                key: Some(Boxed::new(alloc, k.expr)?),
            },
            kind: kind_of(found.value),
        })
    }

    fn check_none(&self, alloc: Global, at: Place, inner: &Type) -> Result<Typed, TypeFault>
        ensures { Answers (Expressions.none_told at inner.now self.now) (λ v. v) result }
    {
        let payload = check_type(&self.names, inner)?;
        let option = option_of(at, payload)?;
        Ok(Typed {
            at,
            expr: Expr::NoneOf(ty_of(alloc, payload)?),
            kind: kind_of(option),
        })
    }

    #[cycle(check_expr)]
    fn check_some(
        &self,
        alloc: Global,
        locals: &Names,
        at: Place,
        of: &cm_syntax::Expr,
    ) -> Result<Typed, TypeFault>
        ensures { Answers (Expressions.prim_step (layer.SomeOf at (expr_told of.now)) self.now locals.now)
            (λ v. v) result }
    {
        let v = self.check_expr(alloc, locals, of)?;
        rule(is_value(v.kind), rules::NUMBER, v.at)?;
        let option = option_of(at, value_of(v.kind))?;
        Ok(Typed {
            at,
            expr: Expr::SomeOf(Boxed::new(alloc, v.expr)?),
            kind: kind_of(option),
        })
    }

    #[cycle(check_expr)]
    fn check_group(
        &self,
        alloc: Global,
        locals: &Names,
        at: Place,
        inner: &cm_syntax::Expr,
    ) -> Result<Typed, TypeFault>
        ensures { Answers (Expressions.prim_step (layer.Group at (expr_told inner.now)) self.now locals.now)
            (λ v. v) result }
    {
        let v = self.check_expr(alloc, locals, inner)?;
        Ok(Typed {
            at,
            expr: v.expr,
            kind: v.kind,
        })
    }

    #[cycle(check_expr)]
    fn check_apply(
        &self,
        alloc: Global,
        locals: &Names,
        at: Place,
        name: &Name,
        args: &[cm_syntax::Expr],
    ) -> Result<Typed, TypeFault>
        ensures { Answers (Expressions.prim_step (layer.Apply at name.now (map expr_told args.now)) self.now locals.now)
            (λ v. v) result }
    {
        let entry = self.find(locals, at, name)?;
        self.check_applied(alloc, locals, at, entry, args)
    }

    // A record's value, a conversion or a call by what the name is.
    #[cycle(check_expr)]
    fn check_applied(
        &self,
        alloc: Global,
        locals: &Names,
        at: Place,
        entry: &Entry,
        args: &[cm_syntax::Expr],
    ) -> Result<Typed, TypeFault>
        ensures { Answers (Expressions.applied_told at entry.now (in_invariant locals.now) (map expr_told args.now)
            self.now locals.now)
            (λ v. v) result }
    {
        match entry {
            Entry::Record { number, ty, fields } => {
                self.check_make(alloc, locals, at, *number, *ty, fields.as_slice(), args)
            }
            Entry::Int(number) => {
                if locals.has_it() {
                    Err(refused(rules::INVARIANT, at))
                } else {
                    self.check_into(alloc, locals, at, *number, args)
                }
            }
            Entry::Function {
                number,
                params,
                reply,
            } => {
                if locals.has_it() {
                    Err(refused(rules::INVARIANT, at))
                } else {
                    self.check_call(alloc, locals, at, *number, params.as_slice(), *reply, args)
                }
            }
            _ => Err(refused(rules::UNKNOWN, at)),
        }
    }

    #[cycle(check_expr)]
    fn check_make(
        &self,
        alloc: Global,
        locals: &Names,
        at: Place,
        number: u16,
        ty: Option<Flat>,
        fields: &[Option<Flat>],
        args: &[cm_syntax::Expr],
    ) -> Result<Typed, TypeFault>
        ensures { Answers (Expressions.make_told at number ty fields.now (map expr_told args.now) self.now locals.now)
            (λ v. v) result }
    {
        let parts = self.check_counted(alloc, locals, at, fields, args)?;
        Ok(Typed {
            at,
            expr: Expr::Make { rec: number, parts },
            kind: kind_of(ty),
        })
    }

    #[cycle(check_expr)]
    fn check_call(
        &self,
        alloc: Global,
        locals: &Names,
        at: Place,
        number: u16,
        params: &[Option<Flat>],
        reply: Option<Flat>,
        args: &[cm_syntax::Expr],
    ) -> Result<Typed, TypeFault>
        ensures { Answers (Expressions.call_told at number params.now reply (map expr_told args.now) self.now
            locals.now)
            (λ v. v) result }
    {
        let args = self.check_counted(alloc, locals, at, params, args)?;
        Ok(Typed {
            at,
            expr: Expr::Apply { fun: number, args },
            kind: kind_of(reply),
        })
    }

    // As many arguments as there are types.
    #[cycle(check_expr)]
    fn check_counted(
        &self,
        alloc: Global,
        locals: &Names,
        at: Place,
        types: &[Option<Flat>],
        args: &[cm_syntax::Expr],
    ) -> Result<List<Expr>, TypeFault>
        ensures { Answers (Expressions.counted_told at types.now (map expr_told args.now) self.now locals.now)
            (λ v. v) result }
    {
        rule(args.len() == types.len(), rules::COUNT, at)?;
        self.check_args(alloc, locals, types, args)
    }

    #[cycle(check_expr)]
    fn check_args(
        &self,
        alloc: Global,
        locals: &Names,
        types: &[Option<Flat>],
        args: &[cm_syntax::Expr],
    ) -> Result<List<Expr>, TypeFault>
        ensures { Answers (Expressions.args_told [] (map expr_told args.now) types.now self.now locals.now)
            (λ v. v) result }
    {
        let mut done = List::new(alloc);
        for e in args {
            let v = self.check_expr(alloc, locals, e)?;
            wanted(type_at(types, done.len()), v.at, v.kind)?;
            done.push(v.expr)?;
        }
        Ok(done)
    }

    #[cycle(check_expr)]
    fn check_into(
        &self,
        alloc: Global,
        locals: &Names,
        at: Place,
        number: u16,
        args: &[cm_syntax::Expr],
    ) -> Result<Typed, TypeFault>
        ensures { Answers (Expressions.into_told at number (map expr_told args.now) self.now locals.now)
            (λ v. v) result }
    {
        match args {
            [only] => self.check_converted(alloc, locals, at, number, only),
            _ => Err(refused(rules::COUNT, at)),
        }
    }

    #[cycle(check_expr)]
    fn check_converted(
        &self,
        alloc: Global,
        locals: &Names,
        at: Place,
        number: u16,
        of: &cm_syntax::Expr,
    ) -> Result<Typed, TypeFault>
        ensures { Answers (Expressions.converted_told at number (expr_told of.now) self.now locals.now)
            (λ v. v) result }
    {
        let v = self.check_expr(alloc, locals, of)?;
        rule(is_integer(v.kind), rules::INTEGER, v.at)?;
        Ok(Typed {
            at,
            expr: Expr::Into {
                int: number,
                of: Boxed::new(alloc, v.expr)?,
            },
            kind: kind_of(Some(int_flat(number))),
        })
    }
}
