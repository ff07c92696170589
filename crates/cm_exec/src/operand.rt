//! What comes out of an expression on terms, as the machine computes with it.

ghost use Rattle.std.specs.Prelude.{◌≡◌, IfOk, Some, None, slice_get};
ghost use Rattle.cm_term.specs.Atoms.{shifted};
ghost use Rattle.cm_exec.specs.Terms.{Doing, number_of, choice_of, terms, fields_with, summed};

use cm_model::{List, NoMemory};
use cm_term::{Num, Parts, Shared, Tag, Term, share_all};
use std::alloc::Global;

/// What an expression gives: a numeral or a sum is a number, every other expression a term of a type.
#[derive(Drop)]
pub enum Operand {
    /// A number that belongs to no integer type.
    Number(Num),
    /// A term.
    Plain(Term),
}

/// The number of an operand, if it has one.
pub fn number(o: &Operand) -> Option<Num>
    ensures number { result ≡ number_of o.now }
{
    match o {
        Operand::Number(a) => Some(*a),
        Operand::Plain(Term::Num(a)) => Some(*a),
        Operand::Plain(_) => None,
    }
}

/// The variant that an operand is.
pub fn choice(o: &Operand) -> Option<Tag>
    ensures choice { result ≡ choice_of o.now }
{
    match o {
        Operand::Plain(Term::Tag(a)) => Some(*a),
        Operand::Plain(_) => None,
        Operand::Number(_) => None,
    }
}

// The number that is so much more. A sum that doesn't fit is as good as no memory.
fn sum(a: Num, by: i64) -> Result<Num, NoMemory>
    ensures { IfOk result (λ b. b ≡ shifted a by) }
{
    match a {
        Num::Const(n) => match n.checked_add(by) {
            Some(n) => Ok(Num::Const(n)),
            None => Err(NoMemory),
        },
        Num::Plus(x, n) => match n.checked_add(by) {
            Some(n) => Ok(Num::Plus(x, n)),
            None => Err(NoMemory),
        },
    }
}

/// A field of a record, if it is there.
pub fn field(fields: &Parts, at: usize) -> Result<Option<Term>, NoMemory>
    ensures there { IfOk result (λ r. r ≡ slice_get fields.now at) }
{
    match fields.get().as_slice().get(at) {
        Some(t) => {
            let t = t.share()?;
            Ok(Some(t))
        }
        None => Ok(None),
    }
}

// The record of these fields with another one.
fn with_field(alloc: Global, fields: &Parts, i: u16, t: Term) -> Result<Option<Term>, NoMemory>
    ensures { IfOk result (λ r. r ≡ fields_with (Some fields.now) i t) }
{
    let at = usize::from(i);
    if at >= fields.get().as_slice().len() {
        return Ok(None);
    }
    let mut copied = share_all(alloc, fields.get().as_slice())?;
    copied.set(at, t);
    let fields = Shared::new(alloc, copied)?;
    Ok(Some(Term::Rec(fields)))
}

impl cm_code::Operand for Operand {
    type Value = Term;

    ghost Doing = { Doing };

    ghost rules = { terms };

    fn tag(_alloc: Global, ty: u16, index: u16) -> Result<Term, NoMemory> {
        Ok(Term::Tag(Tag::Const { ty, index }))
    }

    fn flag(_alloc: Global, b: bool) -> Result<Term, NoMemory> {
        let index = u16::from(b);
        Ok(Term::Tag(Tag::Const { ty: 0, index }))
    }

    fn make(alloc: Global, parts: List<Term>) -> Result<Term, NoMemory>
        ensures { IfOk result (λ t. t ≡ terms.make parts) }
    {
        let fields = Shared::new(alloc, parts)?;
        Ok(Term::Rec(fields))
    }

    fn nothing(_alloc: Global) -> Result<Term, NoMemory> {
        Ok(Term::None)
    }

    fn some(alloc: Global, payload: Term) -> Result<Term, NoMemory> {
        let payload = Shared::new(alloc, payload)?;
        Ok(Term::Some(payload))
    }

    fn field(_alloc: Global, of: Term, i: u16) -> Result<Option<Term>, NoMemory> {
        match of {
            Term::Rec(fields) => field(&fields, usize::from(i)),
            _ => Ok(None),
        }
    }

    fn with_field(alloc: Global, of: Term, i: u16, value: Term) -> Result<Option<Term>, NoMemory> {
        match of {
            Term::Rec(fields) => with_field(alloc, &fields, i, value),
            _ => Ok(None),
        }
    }

    fn copy(_alloc: Global, value: &Term) -> Result<Term, NoMemory> {
        value.share()
    }

    fn plain(value: Term) -> Operand {
        Operand::Plain(value)
    }

    fn number(n: i64) -> Operand {
        Operand::Number(Num::Const(n))
    }

    fn value(self) -> Option<Term> {
        match self {
            Operand::Plain(value) => Some(value),
            Operand::Number(_) => None,
        }
    }

    fn shift(self, by: i64) -> Result<Option<Operand>, NoMemory> {
        match number(&self) {
            Some(a) => {
                let a = sum(a, by)?;
                Ok(Some(Operand::Number(a)))
            }
            None => Ok(None),
        }
    }
}
