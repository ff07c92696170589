//! Worked examples.

ghost use Rattle.std.specs.Prelude.{◌≡◌, ◌∷◌, ◌++◌, [], pos, Some, None, length, IfOk};
ghost use Rattle.cm_value.specs.declared.value.Value.TheVariants as value;
ghost use Rattle.cm_term.specs.Terms.{fields_of, IsRecord};
ghost use Rattle.cm_term.specs.Symbols.{symbol_value};
ghost use Rattle.cm_term.specs.declared.symbol.Step.TheVariants as step;
ghost use Rattle.cm_term.specs.declared.symbol.Root.TheVariants as root;

use super::*;
use cm_model::{IntVar, List, NoMemory, SortVar};
use std::alloc::Global;
use std::test::Fail;

// A record of an element, an integer and an option.
#[tactic(auto, using(crate::proofs::Values::record_again, crate::proofs::Values::fields_again))]
fn three(alloc: Global) -> Result<Term, NoMemory>
    ensures of_record { IfOk result (λ t. IsRecord t) }
    ensures three { IfOk result (λ t. length (fields_of t) ≡ 3) }
{
    let mut fields = List::new(alloc);
    fields.push(Term::Elem(SortVar(4)))?;
    fields.push(Term::Num(Num::Plus(IntVar(1), 2)))?;
    fields.push(Term::Either(OptVar(3)))?;
    let fields = Shared::new(alloc, fields)?;
    Ok(Term::Rec(fields))
}

fn is_elem(t: &Term, x: u64) -> bool {
    match t {
        Term::Elem(y) => y.0 == x,
        _ => false,
    }
}

fn is_number(t: &Term, n: Num) -> bool {
    match t {
        Term::Num(m) => *m == n,
        _ => false,
    }
}

fn is_either(t: &Term, o: u64) -> bool {
    match t {
        Term::Either(p) => p.0 == o,
        _ => false,
    }
}

// Whether three fields are the elements 4 and 9 and the option 3.
fn are_replaced(fields: &[Term]) -> bool {
    match fields {
        [first, second, third] => is_elem(first, 4) & is_elem(second, 9) & is_either(third, 3),
        _ => false,
    }
}

fn is_replaced(t: &Term) -> bool {
    match t {
        Term::Rec(fields) => are_replaced(fields.get().as_slice()),
        _ => false,
    }
}

// With another second field the first and the third are those of before.
fn replaced(alloc: Global, t: &Term) -> Result<bool, NoMemory>
    requires of_record { IsRecord t.now }
    requires three { length (fields_of t.now) ≡ 3 }
{
    let shared = t.share()?;
    let changed = t.with_field(alloc, 1, Term::Elem(SortVar(9)))?;
    Ok(is_replaced(&changed) & is_elem(t.field(0), 4) & !is_replaced(&shared))
}

#[test]
fn one_field_is_replaced(rt: HostRuntime) -> Result<(), Fail> {
    let t = three(rt.alloc())?;
    let is_so = replaced(rt.alloc(), &t)?;
    assert!(rt; is_so);
    Ok(())
}

#[test]
fn numbers_are_shifted(rt: HostRuntime) -> Result<(), Fail> {
    let three = Term::Num(Num::Const(3));
    let shifted = three.shift(-5);
    assert!(rt; is_number(&shifted, Num::Const(-2)));
    let more = Term::Num(Num::Plus(IntVar(1), 2));
    let shifted = more.shift(40);
    assert!(rt; is_number(&shifted, Num::Plus(IntVar(1), 42)));
    Ok(())
}

#[test]
fn payloads_are_lent(rt: HostRuntime) -> Result<(), Fail> {
    let payload = Shared::new(rt.alloc(), Term::Elem(SortVar(7)))?;
    let there = Term::Some(payload);
    assert!(rt; is_elem(there.payload(), 7));
    Ok(())
}

#[test]
fn paths_grow(rt: HostRuntime) -> Result<(), Fail> {
    let none = SymPath::new(rt.alloc());
    let field = none.then(Step::Field(3))?;
    let payload = field.then(Step::Payload)?;
    let symbol = Sym {
        root: Root::Cell(2),
        path: payload,
    };
    let copy = symbol.try_copy()?;
    assert!(rt; copy.root == Root::Cell(2));
    match copy.path.as_slice() {
        [first, second] => assert!(rt; *first == Step::Field(3) && *second == Step::Payload),
        _ => assert!(rt; false),
    }
    Ok(())
}

/// The second field of a payload has a value; a none has no payload, and a cell whose key has no value no part.
fn symbols_of_examples()
    ensures there { symbol_value
        (record { a = []; b = []; cells = Some (value.Some (value.Rec (value.Elem 4 ∷ value.Int (pos 2) ∷ []))) ∷ [] })
        (record { root = root.Cell 0; path = step.Payload ∷ step.Field 1 ∷ [] })
        ≡ Some (value.Int (pos 2)) }
    ensures none { symbol_value
        (record { a = value.None ∷ []; b = []; cells = [] })
        (record { root = root.A 0; path = step.Payload ∷ [] })
        ≡ None }
    ensures no_key { symbol_value
        (record { a = []; b = []; cells = None ∷ [] })
        (record { root = root.Cell 0; path = [] })
        ≡ None }
{}

#[test]
fn symbols_have_values(rt: HostRuntime) -> Result<(), Fail> {
    symbols_of_examples();
    depend_on_variables();
    Ok(())
}
