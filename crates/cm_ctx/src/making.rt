//! Terms of new variables, by their types.

ghost use Rattle.std.specs.Prelude.{◌≡◌, ◌+◌, ◌++◌, ◌∷◌, [], length, slice_get, IfOk, OnOk};
ghost use Rattle.cm_value.specs.Least.{lowest};
ghost use Rattle.cm_ctx.specs.declared.piece.Variables.{Variables};
ghost use Rattle.cm_ctx.specs.Making.{Made, element_made, number_made, tag_made, option_made, with_option, fields_made};
ghost use Rattle.cm_ctx.specs.Making.{variants_of, highest};
ghost use Rattle.cm_term.specs.declared.symbol.Step.TheVariants as step;
ghost use Rattle.cm_term.specs.declared.term.Term.TheVariants as term;
ghost use Rattle.cm_ctx.specs.Growth.{at, maker_of, field_makers, maker_at, Adds, AddsFields};

use crate::piece::{Counts, ElementPart, NumberPart, OptionPart, TagPart, Variables};
use cm_model::{EnumDecl, IntDecl, IntVar, List, NoMemory, Part, RecDecl, SortVar, Ty};
use cm_term::{Num, OptVar, Root, Shared, Step, Sym, SymPath, Tag, TagVar, Term};
use std::alloc::Global;

/// What terms are made from: the declarations of types, the symbol, and how many variables there are before it.
#[derive(Clone, Copy)]
pub struct Making<'a> {
    pub alloc: Global,
    pub ints: &'a [IntDecl],
    pub enums: &'a [EnumDecl],
    pub root: Root,
    pub from: Counts,
}

/// The term of a type whose records are among these.
#[cycle(make)]
pub fn make(
    making: &Making<'_>,
    records: &[RecDecl],
    to: &mut Variables,
    path: &SymPath,
    ty: &Ty,
) -> Result<Term, NoMemory>
    ensures { IfOk result (Adds
        (maker_of making.now records.now ty.now (at making.now path.now to.old)) to.old to.new) }
{
    match ty {
        Ty::Sort(sort) => make_element(making, to, path, *sort),
        Ty::Int(int) => make_number(making, to, path, *int),
        Ty::Enum(ty) => make_tag(making, to, path, *ty),
        Ty::Rec(rec) => make_record(making, records, to, path, *rec),
        Ty::Option(payload) => make_option(making, records, to, path, payload.get()),
    }
}

/// The symbol of the part.
fn symbol(making: &Making<'_>, path: &SymPath) -> Result<Sym, NoMemory>
    ensures root { IfOk result (λ sym. sym.root ≡ making.now.root) }
    ensures path { IfOk result (λ sym. sym.path ≡ path.now) }
{
    let path = path.try_copy()?;
    Ok(Sym {
        root: making.root,
        path,
    })
}

/// The number of the next variable.
pub fn next(from: u64, count: usize) -> Result<u64, NoMemory>
    ensures { IfOk result (λ number. number ≡ from + count) }
{
    match from.checked_add(count as u64) {
        Some(number) => Ok(number),
        None => Err(NoMemory),
    }
}

/// A variable of a sort.
fn make_element(
    making: &Making<'_>,
    to: &mut Variables,
    path: &SymPath,
    sort: u16,
) -> Result<Term, NoMemory>
    ensures { IfOk result (Adds
        (element_made sort (at making.now path.now to.old)) to.old to.new) }
{
    let x = next(making.from.elements, to.elements.len())?;
    let sym = symbol(making, path)?;
    to.elements.push(ElementPart { sort, sym })?;
    Ok(Term::Elem(SortVar(x)))
}

/// A variable of an integer type.
fn make_number(
    making: &Making<'_>,
    to: &mut Variables,
    path: &SymPath,
    int: u16,
) -> Result<Term, NoMemory>
    ensures { IfOk result (Adds
        (number_made (slice_get making.now.ints.now int) (at making.now path.now to.old)) to.old to.new) }
{
    let x = next(making.from.numbers, to.numbers.len())?;
    let sym = symbol(making, path)?;
    let lo = lowest(making.ints, int);
    let hi = highest(making.ints, int);
    to.numbers.push(NumberPart { lo, hi, sym })?;
    Ok(Term::Num(Num::Plus(IntVar(x), 0)))
}

/// The lowest number of an integer type.
fn lowest(ints: &[IntDecl], int: u16) -> i64
    ensures { result ≡ lowest (slice_get ints.now int) }
{
    match ints.get(usize::from(int)) {
        Some(decl) => decl.lo,
        None => 0,
    }
}

/// The highest number of an integer type.
fn highest(ints: &[IntDecl], int: u16) -> i64
    ensures { result ≡ highest (slice_get ints.now int) }
{
    match ints.get(usize::from(int)) {
        Some(decl) => decl.hi,
        None => 0,
    }
}

/// A variable of an enum.
fn make_tag(
    making: &Making<'_>,
    to: &mut Variables,
    path: &SymPath,
    ty: u16,
) -> Result<Term, NoMemory>
    ensures { IfOk result (Adds
        (tag_made (slice_get making.now.enums.now ty) (at making.now path.now to.old)) to.old to.new) }
{
    let x = next(making.from.tags, to.tags.len())?;
    let sym = symbol(making, path)?;
    let variants = variants(making.enums, ty);
    to.tags.push(TagPart { variants, sym })?;
    Ok(Term::Tag(Tag::Var(TagVar(x))))
}

/// How many variants an enum has.
fn variants(enums: &[EnumDecl], ty: u16) -> usize
    ensures { result ≡ variants_of (slice_get enums.now ty) }
{
    match enums.get(usize::from(ty)) {
        Some(decl) => decl.variants.len(),
        None => 1,
    }
}

/// An option, behind the variables of its payload.
#[cycle(make)]
fn make_option(
    making: &Making<'_>,
    records: &[RecDecl],
    to: &mut Variables,
    path: &SymPath,
    payload: &Ty,
) -> Result<Term, NoMemory>
    ensures { IfOk result (Adds
        (option_made (maker_of making.now records.now payload.now) (at making.now path.now to.old)) to.old to.new) }
{
    let inner = path.then(Step::Payload)?;
    let payload = make(making, records, to, &inner, payload)?;
    add_option(making, to, path, payload)
}

/// A variable of the option with this payload.
fn add_option(
    making: &Making<'_>,
    to: &mut Variables,
    path: &SymPath,
    payload: Term,
) -> Result<Term, NoMemory>
    ensures { (before : Variables) (m : Made) → Adds m before to.old payload
        → IfOk result (Adds (with_option (at making.now path.now before) m) before to.new) }
{
    let x = next(making.from.options, to.options.len())?;
    let sym = symbol(making, path)?;
    to.options.push(OptionPart { payload, sym })?;
    Ok(Term::Either(OptVar(x)))
}

/// The term of a record, by its number.
#[cycle(make)]
fn make_record(
    making: &Making<'_>,
    records: &[RecDecl],
    to: &mut Variables,
    path: &SymPath,
    rec: u16,
) -> Result<Term, NoMemory>
    ensures { IfOk result (Adds
        (maker_at making.now records.now rec (at making.now path.now to.old)) to.old to.new) }
{
    let index = usize::from(rec);
    if index >= records.len() {
        return record_of(making, List::new(making.alloc));
    }
    let fields = records[index].fields.as_slice();
    let terms = make_fields(making, &records[..index], to, path, fields)?;
    record_of(making, terms)
}

/// The record of these fields.
fn record_of(making: &Making<'_>, terms: List<Term>) -> Result<Term, NoMemory>
    ensures { IfOk result (λ t. t ≡ term.Rec terms) }
{
    let terms = Shared::new(making.alloc, terms)?;
    Ok(Term::Rec(terms))
}

/// The terms of fields, the variables of one behind those of another.
#[cycle(make)]
fn make_fields(
    making: &Making<'_>,
    records: &[RecDecl],
    to: &mut Variables,
    path: &SymPath,
    fields: &[Part],
) -> Result<List<Term>, NoMemory>
    ensures { IfOk result (AddsFields
        (fields_made 0 (field_makers making.now records.now fields.now) (at making.now path.now to.old)) to.old to.new) }
{
    let mut terms = List::new(making.alloc);
    'fields: for i in 0..fields.len() {
        let inner = field_path(path, i)?;
        let term = make(making, records, to, &inner, &fields[i].ty)?;
        terms.push(term)?;
    }
    Ok(terms)
}

/// The path to a field.
fn field_path(path: &SymPath, i: usize) -> Result<SymPath, NoMemory>
    ensures { IfOk result (λ p. p ≡ path.now ++ step.Field i ∷ []) }
{
    match u16::try_from(i) {
        Ok(field) => path.then(Step::Field(field)),
        Err(_) => Err(NoMemory),
    }
}
