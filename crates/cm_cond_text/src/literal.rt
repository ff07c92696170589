//! The text of literals.

ghost use Rattle.std.specs.Prelude.{◌≡◌, ◌++◌, OnOk};
ghost use Rattle.std.specs.Option.{option_copied};
ghost use Rattle.std.specs.Fmt.{signed_decimal};
ghost use Rattle.cm_cond_text.specs.Literals.{order_text, variant_of_type, text_of_literal};
ghost use Rattle.cm_cond_text.specs.inner.Scopes.{symbol_in, literal_in, raised_in, range_text, between};

use crate::cell::push_variant;
use crate::number::{push_number, push_offset};
use crate::scope::{Scope, symbol_type};
use crate::symbol::push_symbol;
use cm_cond::{CellTerm, Literal, Ord3};
use cm_model::{List, Model, NoMemory, Pair, Ty};
use cm_term::Sym;

fn push_order(op: Ord3, to: &mut Vec<u8>) -> Result<(), NoMemory>
    ensures { OnOk result (to.new.items ≡ to.old.items ++ order_text op) }
{
    match op {
        Ord3::Less => to.extend_from_slice(b" < ")?,
        Ord3::Equal => to.extend_from_slice(b" = ")?,
        Ord3::Greater => to.extend_from_slice(b" > ")?,
    }
    Ok(())
}

// Appends two symbols and a word between them.
fn push_between(
    scope: &Scope<'_>,
    x: &Sym,
    word: &[u8],
    y: &Sym,
    to: &mut Vec<u8>,
) -> Result<(), NoMemory>
    ensures { OnOk result (to.new.items ≡ to.old.items ++ between scope.now x.now word.now y.now) }
{
    push_symbol(scope, x, to)?;
    to.extend_from_slice(word)?;
    push_symbol(scope, y, to)
}

// Appends a symbol and a word behind it.
fn push_followed(scope: &Scope<'_>, x: &Sym, word: &[u8], to: &mut Vec<u8>) -> Result<(), NoMemory>
    ensures { OnOk result (to.new.items ≡ to.old.items ++ (symbol_in scope.now x.now ++ word.now)) }
{
    push_symbol(scope, x, to)?;
    to.extend_from_slice(word)?;
    Ok(())
}

// Appends a number that is so much more than a symbol's.
fn push_raised(scope: &Scope<'_>, x: &Sym, plus: i64, to: &mut Vec<u8>) -> Result<(), NoMemory>
    ensures { OnOk result (to.new.items ≡ to.old.items ++ raised_in scope.now x.now plus) }
{
    push_symbol(scope, x, to)?;
    push_offset(plus, to)
}

fn push_range(lo: i64, hi: i64, to: &mut Vec<u8>) -> Result<(), NoMemory>
    ensures { OnOk result (to.new.items ≡ to.old.items ++ range_text lo hi) }
{
    to.extend_from_slice(b" in ")?;
    push_number(i128::from(lo), to)?;
    to.extend_from_slice(b"..")?;
    push_number(i128::from(hi), to)
}

fn push_variant_of(
    model: &Model,
    ty: Option<&Ty>,
    index: u16,
    to: &mut Vec<u8>,
) -> Result<(), NoMemory>
    ensures { OnOk result
        (to.new.items ≡ to.old.items ++ variant_of_type model.now (option_copied ty.entry) index) }
{
    match ty {
        Some(ty) => push_variant(model, ty, index, to),
        None => Ok(()),
    }
}

/// Appends a literal.
pub fn push_literal_in(
    scope: &Scope<'_>,
    literal: &Literal,
    to: &mut Vec<u8>,
) -> Result<(), NoMemory>
    ensures { OnOk result (to.new.items ≡ to.old.items ++ literal_in scope.now literal.now) }
{
    match literal {
        Literal::Same { x, y } => push_between(scope, x, b" = ", y, to),
        Literal::Differ { x, y } => push_between(scope, x, b" != ", y, to),
        Literal::Order { x, plus, op, y } => {
            push_raised(scope, x, *plus, to)?;
            push_order(*op, to)?;
            push_symbol(scope, y, to)
        }
        Literal::Against { x, op, n } => {
            push_symbol(scope, x, to)?;
            push_order(*op, to)?;
            push_number(i128::from(*n), to)
        }
        Literal::Within { x, plus, lo, hi } => {
            push_raised(scope, x, *plus, to)?;
            push_range(*lo, *hi, to)
        }
        Literal::Tag { x, index } => {
            push_followed(scope, x, b" is ", to)?;
            push_variant_of(scope.model, symbol_type(scope, x), *index, to)
        }
        Literal::IsNone(x) => push_followed(scope, x, b" is none", to),
        Literal::IsSome(x) => push_followed(scope, x, b" is some", to),
    }
}

/// Appends a literal of a case of the pair, which has these cells. What the model doesn't declare has no name.
///
/// # Errors
/// `NoMemory` where memory runs out. A part of the text may be there then.
pub fn push_literal(
    model: &Model,
    pair: Pair,
    cells: &List<CellTerm>,
    literal: &Literal,
    to: &mut Vec<u8>,
) -> Result<(), NoMemory>
    ensures text { OnOk result
        (to.new.items ≡ to.old.items ++ text_of_literal model.now pair cells.now literal.now) }
{
    let scope = Scope {
        model,
        pair,
        cells: cells.as_slice(),
    };
    push_literal_in(&scope, literal, to)
}
