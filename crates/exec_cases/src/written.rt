//! Terms and questions as rows write them.
//!
//! `#N` is an element's variable, `xN+K` a number's with its offset, `tN` a variant's and `oN` an option's; `K` is a
//! number, `.N` a variant, `none` and `some` are options. `some` stands before its payload, and the parts of a
//! record have commas between.

use anyhow::{Result, bail};
use cm_model::{IntVar, List, SortVar};
use cm_term::{Equal, Num, Opt, OptVar, Question, Shared, Tag, TagVar, Term};
use std::alloc::Global;

fn number_of(word: &str) -> Result<Num> {
    let Some(sum) = word.strip_prefix('x') else {
        return Ok(Num::Const(word.parse::<i64>()?));
    };
    let Some((variable, offset)) = sum.split_once('+') else {
        bail!("no offset: {word}");
    };
    let variable = variable.parse::<u64>()?;
    Ok(Num::Plus(IntVar(variable), offset.parse::<i64>()?))
}

fn variant_of(word: &str) -> Result<Tag> {
    if let Some(number) = word.strip_prefix('.') {
        let index = number.parse::<u16>()?;
        return Ok(Tag::Const { ty: 0, index });
    }
    Ok(Tag::Var(TagVar(word.trim_start_matches('t').parse::<u64>()?)))
}

// A term that has no parts.
fn plain(word: &str) -> Result<Term> {
    if word == "none" {
        return Ok(Term::None);
    }
    if let Some(number) = word.strip_prefix('#') {
        return Ok(Term::Elem(SortVar(number.parse::<u64>()?)));
    }
    if let Some(number) = word.strip_prefix('o') {
        return Ok(Term::Either(OptVar(number.parse::<u64>()?)));
    }
    if word.starts_with('.') || word.starts_with('t') {
        return Ok(Term::Tag(variant_of(word)?));
    }
    Ok(Term::Num(number_of(word)?))
}

fn of_parts(alloc: Global, word: &str) -> Result<Term> {
    let mut parts = List::new(alloc);
    for part in word.split(',') {
        parts.push(plain(part)?)?;
    }
    Ok(Term::Rec(Shared::new(alloc, parts)?))
}

/// The term that a word stands for.
pub fn term(alloc: Global, word: &str) -> Result<Term> {
    if let Some(payload) = word.strip_prefix("some") {
        let payload = plain(payload)?;
        return Ok(Term::Some(Shared::new(alloc, payload)?));
    }
    match word.split_once(',') {
        Some(_) => of_parts(alloc, word),
        None => plain(word),
    }
}

fn show_number(rt: &HostRuntime, number: Num) -> Result<()> {
    match number {
        Num::Const(n) => print!(rt; "{n}")?,
        Num::Plus(x, n) => print!(rt; "x{}+{n}", x.0)?,
    }
    Ok(())
}

fn show_variant(rt: &HostRuntime, tag: Tag) -> Result<()> {
    match tag {
        Tag::Const { index, .. } => print!(rt; ".{index}")?,
        Tag::Var(x) => print!(rt; "t{}", x.0)?,
    }
    Ok(())
}

fn show_option(rt: &HostRuntime, opt: Opt) -> Result<()> {
    match opt {
        Opt::None => print!(rt; "none")?,
        Opt::Some => print!(rt; "some")?,
        Opt::Var(o) => print!(rt; "o{}", o.0)?,
    }
    Ok(())
}

// A term of which the parts are shown as `?`.
fn show_plain(rt: &HostRuntime, term: &Term) -> Result<()> {
    match term {
        Term::Elem(x) => print!(rt; "#{}", x.0)?,
        Term::Num(n) => show_number(rt, *n)?,
        Term::Tag(tag) => show_variant(rt, *tag)?,
        Term::Rec(_) => print!(rt; "?,?")?,
        Term::None => show_option(rt, Opt::None)?,
        Term::Some(_) => print!(rt; "some?")?,
        Term::Either(o) => show_option(rt, Opt::Var(*o))?,
    }
    Ok(())
}

fn show_parts(rt: &HostRuntime, parts: &[Term]) -> Result<()> {
    for (place, part) in parts.iter().enumerate() {
        if place > 0 {
            print!(rt; ",")?;
        }
        show_plain(rt, part)?;
    }
    Ok(())
}

/// Prints a term. The parts of its parts are shown as `?`.
pub fn show_term(rt: &HostRuntime, term: &Term) -> Result<()> {
    match term {
        Term::Rec(parts) => show_parts(rt, parts.get().as_slice()),
        Term::Some(payload) => {
            show_option(rt, Opt::Some)?;
            show_plain(rt, payload.get())
        }
        _ => show_plain(rt, term),
    }
}

fn show_elements(rt: &HostRuntime, left: SortVar, right: SortVar, between: &str) -> Result<()> {
    print!(rt; "#{}{between}#{}", left.0, right.0)?;
    Ok(())
}

fn show_numbers(rt: &HostRuntime, left: Num, right: Num, between: &str) -> Result<()> {
    show_number(rt, left)?;
    print!(rt; "{between}")?;
    show_number(rt, right)
}

/// Prints an equality.
pub fn show_equal(rt: &HostRuntime, equal: Equal) -> Result<()> {
    match equal {
        Equal::Elems(left, right) => show_elements(rt, left, right, "="),
        Equal::Nums(left, right) => show_numbers(rt, left, right, "="),
    }
}

fn show_range(rt: &HostRuntime, of: Num, lo: i64, hi: i64) -> Result<()> {
    show_number(rt, of)?;
    print!(rt; " in {lo}..{hi}?")?;
    Ok(())
}

/// Prints a question: two that are compared, a number with its range, a variant or an option.
pub fn show_question(rt: &HostRuntime, question: &Question) -> Result<()> {
    match *question {
        Question::Elems(left, right) => show_elements(rt, left, right, "?"),
        Question::Nums(left, right) => show_numbers(rt, left, right, "?"),
        Question::Range { of, lo, hi } => show_range(rt, of, lo, hi),
        Question::TagOf(tag) => {
            show_variant(rt, tag)?;
            mark(rt)
        }
        Question::OptOf(opt) => {
            show_option(rt, opt)?;
            mark(rt)
        }
    }
}

fn mark(rt: &HostRuntime) -> Result<()> {
    print!(rt; "?")?;
    Ok(())
}
