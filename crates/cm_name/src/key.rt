//! Touched cells, their keys spelled out.

ghost use Rattle.std.specs.Prelude.{◌≡◌, map, IfOk};
ghost use Rattle.std.specs.Option.{option_copied};
ghost use Rattle.std.specs.List.{AllByRecursion};
ghost use Rattle.cm_term.specs.Atoms.{vars_of_num, vars_of_tag};
ghost use Rattle.cm_cells.specs.CellTable.{place};
ghost use Rattle.cm_cond.specs.declared.cell.KeyTerm.TheVariants as key;
ghost use Rattle.cm_name.specs.Naming.{number_key, tag_key, key_named, cell_named};
ghost use Rattle.cm_name.specs.Naming.{HaveSymbols, HasSymbols, KeyHasSymbols};

use crate::symbol;
use cm_cond::{CellTerm, KeyTerm};
use cm_ctx::Ctx;
use cm_model::{List, NoMemory};
use cm_term::{Num, Tag, Term};
use std::alloc::Global;

/// What a report calls a touched cell.
///
/// # Errors
/// `NoMemory` where memory runs out.
pub fn cell(alloc: Global, ctx: &Ctx, state: u16, key: Option<&Term>) -> Result<CellTerm, NoMemory>
    requires named { KeyHasSymbols ctx.now.pieces (option_copied key) }
    ensures cell { IfOk result (λ c. c ≡ cell_named ctx.now.pieces (place state (option_copied key.entry))) }
{
    match key {
        Some(key) => {
            let key = key_named(alloc, ctx, key)?;
            Ok(CellTerm {
                state,
                key: Some(key),
            })
        }
        None => Ok(CellTerm { state, key: None }),
    }
}

// A key holds no option.
#[cycle(key)]
fn key_named(alloc: Global, ctx: &Ctx, key: &Term) -> Result<KeyTerm, NoMemory>
    requires { HasSymbols ctx.now.pieces key.now }
    ensures { IfOk result (λ k. k ≡ key_named ctx.now.pieces key.now) }
{
    match key {
        Term::Elem(x) => {
            let x = symbol::of_element(ctx, *x)?;
            Ok(KeyTerm::Elem(x))
        }
        Term::Num(number) => number_key(ctx, *number),
        Term::Tag(tag) => tag_key(ctx, *tag),
        Term::Rec(fields) => record_key(alloc, ctx, fields.get().as_slice()),
        Term::None | Term::Some(_) | Term::Either(_) => Ok(KeyTerm::Rec(List::new(alloc))),
    }
}

#[cycle(key)]
fn record_key(alloc: Global, ctx: &Ctx, fields: &[Term]) -> Result<KeyTerm, NoMemory>
    requires { AllByRecursion (HasSymbols ctx.now.pieces) fields.now }
    ensures { IfOk result (λ k. k ≡ key.Rec (map (key_named ctx.now.pieces) fields.now)) }
{
    let mut keys = List::new(alloc);
    'fields: for field in fields {
        let key = key_named(alloc, ctx, field)?;
        keys.push(key)?;
    }
    Ok(KeyTerm::Rec(keys))
}

fn number_key(ctx: &Ctx, number: Num) -> Result<KeyTerm, NoMemory>
    requires { HaveSymbols ctx.now.pieces (vars_of_num number) }
    ensures { IfOk result (λ k. k ≡ number_key ctx.now.pieces number) }
{
    match number {
        Num::Const(n) => Ok(KeyTerm::Num { x: None, plus: n }),
        Num::Plus(x, plus) => {
            let x = symbol::of_number(ctx, x)?;
            Ok(KeyTerm::Num { x: Some(x), plus })
        }
    }
}

fn tag_key(ctx: &Ctx, tag: Tag) -> Result<KeyTerm, NoMemory>
    requires { HaveSymbols ctx.now.pieces (vars_of_tag tag) }
    ensures { IfOk result (λ k. k ≡ tag_key ctx.now.pieces tag) }
{
    match tag {
        Tag::Const { index, .. } => Ok(KeyTerm::Tag(index)),
        Tag::Var(x) => {
            let x = symbol::of_tag(ctx, x)?;
            Ok(KeyTerm::TagOf(x))
        }
    }
}
