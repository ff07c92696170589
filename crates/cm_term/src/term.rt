//! Terms, whose parts are shared.

ghost use Rattle.std.specs.Prelude.{◌≡◌, ◌<◌, Some, map, length, slice_get, slice_set, IfOk, ◌+ℤ◌};
ghost use Rattle.cm_value.specs.declared.value.Value.TheVariants as value;
ghost use Rattle.cm_term.specs.declared.term.Term.TheVariants as term;
ghost use Rattle.cm_term.specs.declared.symbol.Step.TheVariants as step;
ghost use Rattle.cm_term.specs.declared.question.Question.{Question};
ghost use Rattle.cm_term.specs.declared.term.Term.{Term};
ghost use Rattle.cm_term.specs.Valuation.{Valuation, AgreeOn};
ghost use Rattle.cm_term.specs.Atoms.{IsOffset, num_under, offset_of, shifted};
ghost use Rattle.cm_term.specs.Questions.{outcome_under, vars_asked};
ghost use Rattle.cm_term.specs.Terms.{value_of, vars_of, fields_of, IsRecord, IsSome, number_in, IsNumber};
ghost use Rattle.cm_term.specs.Symbols.{part_in};

use crate::shared::Shared;
use crate::{Num, OptVar, Tag};
use cm_model::{List, NoMemory, SortVar};
use std::alloc::Global;

/// A tree of variables and constants, which has a value where its variables have. Parts are shared between the
/// terms that have them, and no contract speaks of that.
#[derive(Drop)]
pub enum Term {
    /// An element of a sort.
    Elem(SortVar),
    /// An integer.
    Num(Num),
    /// A variant of an enum.
    Tag(Tag),
    /// A record, by the terms of its fields.
    Rec(Parts),
    /// The none of an option.
    None,
    /// An option with this payload.
    Some(Shared<Term>),
    /// An option that is there where the variable says so; its payload is the variable's.
    Either(OptVar),
}

/// A shared list of terms.
pub type Parts = Shared<List<Term>>;

impl Term {
    /// The same term, with no new node.
    ///
    /// # Errors
    /// `NoMemory` where it has as many owners as can be counted.
    pub fn share(&self) -> Result<Term, NoMemory>
        ensures same { IfOk result (λ t. t ≡ self.now) }
    {
        match self {
            Term::Elem(x) => Ok(Term::Elem(*x)),
            Term::Num(n) => Ok(Term::Num(*n)),
            Term::Tag(tag) => Ok(Term::Tag(*tag)),
            Term::Rec(fields) => {
                let fields = fields.share()?;
                Ok(Term::Rec(fields))
            }
            Term::None => Ok(Term::None),
            Term::Some(payload) => {
                let payload = payload.share()?;
                Ok(Term::Some(payload))
            }
            Term::Either(o) => Ok(Term::Either(*o)),
        }
    }

    /// Lends a field of a record.
    pub fn field(&self, n: u16) -> &Term
        requires of_record { IsRecord self.now }
        requires within { n < length (fields_of self.now) }
        ensures term { slice_get (fields_of self.now) n ≡ Some result.now }
        ensures value { (v : Valuation) → part_in (step.Field n) (value_of v self.now) ≡ Some (value_of v result.now) }
    {
        match self {
            Term::Rec(fields) => nth(fields.get().as_slice(), n),
            _ => unreachable!(),
        }
    }

    /// The record with another field, which shares all other fields.
    ///
    /// # Errors
    /// `NoMemory` where memory runs out.
    pub fn with_field(&self, alloc: Global, n: u16, t: Term) -> Result<Term, NoMemory>
        requires of_record { IsRecord self.now }
        requires within { n < length (fields_of self.now) }
        ensures term { IfOk result (λ r. r ≡ term.Rec (slice_set (fields_of self.now) n t)) }
        ensures value { IfOk result (λ r. (v : Valuation) →
            value_of v r ≡ value.Rec (slice_set (map (value_of v) (fields_of self.now)) n (value_of v t))) }
    {
        match self {
            Term::Rec(fields) => {
                let mut copied = share_all(alloc, fields.get().as_slice())?;
                copied.set(usize::from(n), t);
                let fields = Shared::new(alloc, copied)?;
                Ok(Term::Rec(fields))
            }
            _ => unreachable!(),
        }
    }

    /// Lends the payload of an option that is there.
    pub fn payload(&self) -> &Term
        requires some { IsSome self.now }
        ensures term { self.now ≡ term.Some result.now }
        ensures value { (v : Valuation) → part_in step.Payload (value_of v self.now) ≡ Some (value_of v result.now) }
    {
        match self {
            Term::Some(payload) => payload.get(),
            _ => unreachable!(),
        }
    }

    /// The number that is `by` more.
    pub fn shift(&self, by: i64) -> Term
        requires number { IsNumber self.now }
        requires near { IsOffset (offset_of (number_in self.now) +ℤ by) }
        ensures term { result ≡ term.Num (shifted (number_in self.now) by) }
        ensures value { (v : Valuation) →
            value_of v result ≡ value.Int (num_under v.number (number_in self.now) +ℤ by) }
    {
        match self {
            Term::Num(Num::Const(n)) => Term::Num(Num::Const(*n + by)),
            Term::Num(Num::Plus(x, n)) => Term::Num(Num::Plus(*x, *n + by)),
            _ => unreachable!(),
        }
    }
}

/// The value of a term and the outcome of a question depend on their variables alone.
pub fn depend_on_variables()
    ensures term { (v w : Valuation) (t : Term) → AgreeOn v w (vars_of t) → value_of v t ≡ value_of w t }
    ensures question { (v w : Valuation) (q : Question) →
        AgreeOn v w (vars_asked q) → outcome_under v q ≡ outcome_under w q }
{}

fn nth(fields: &[Term], n: u16) -> &Term
    requires { n < length fields.now }
    ensures { slice_get fields.now n ≡ Some result.now }
{
    &fields[usize::from(n)]
}

/// The same terms, with no new node.
///
/// # Errors
/// `NoMemory` where memory runs out.
pub fn share_all(alloc: Global, terms: &[Term]) -> Result<List<Term>, NoMemory>
    ensures same { IfOk result (λ shared. shared ≡ terms.now) }
{
    let mut shared = Vec::with_capacity(alloc, terms.len())?;
    for term in terms {
        shared.push(term.share()?)?;
    }
    Ok(List::from_vec(shared))
}
