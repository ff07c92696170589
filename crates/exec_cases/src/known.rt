//! What a world gives the variables of terms, and what is asked of them.

use anyhow::{Result, bail};
use cm_ctx::Ctx;
use cm_model::{List, NoMemory};
use cm_term::{Equal, Num, Opt, Question, Tag, Term};
use cm_value::Value;
use std::alloc::Global;

/// The variables of each kind by their numbers, with what they stand for.
#[derive(Drop)]
pub struct Known {
    elements: List<(u64, u64)>,
    numbers: List<(u64, i64)>,
    variants: List<(u64, u16)>,
    options: List<(u64, bool)>,
}

fn find<T: Copy>(known: &[(u64, T)], variable: u64) -> Option<T> {
    for (other, value) in known {
        if *other == variable {
            return Some(*value);
        }
    }
    None
}

impl Known {
    /// Nothing is known.
    pub fn new(alloc: Global) -> Known {
        Known {
            elements: List::new(alloc),
            numbers: List::new(alloc),
            variants: List::new(alloc),
            options: List::new(alloc),
        }
    }

    fn element(&self, variable: u64) -> Option<u64> {
        find(self.elements.as_slice(), variable)
    }

    // Variable 0 is the constant 0.
    fn number(&self, of: Num) -> Option<i64> {
        match of {
            Num::Const(n) => Some(n),
            Num::Plus(x, n) => {
                if x.0 == 0 {
                    return Some(n);
                }
                match find(self.numbers.as_slice(), x.0) {
                    Some(m) => m.checked_add(n),
                    None => None,
                }
            }
        }
    }

    fn variant(&self, of: Tag) -> Option<u16> {
        match of {
            Tag::Const { index, .. } => Some(index),
            Tag::Var(x) => find(self.variants.as_slice(), x.0),
        }
    }

    fn presence(&self, of: Opt) -> Option<bool> {
        match of {
            Opt::None => Some(false),
            Opt::Some => Some(true),
            Opt::Var(o) => find(self.options.as_slice(), o.0),
        }
    }

    /// The outcome that a question has in the world.
    pub fn outcome(&self, question: &Question) -> Result<u8> {
        let outcome = match *question {
            Question::Elems(x, y) => different(self.element(x.0), self.element(y.0)),
            Question::Nums(left, right) => order(self.number(left), self.number(right)),
            Question::Range { of, lo, hi } => place(self.number(of), lo, hi),
            Question::TagOf(tag) => byte(self.variant(tag)),
            Question::OptOf(opt) => self.presence(opt).map(|there| u8::from(there)),
        };
        match outcome {
            Some(outcome) => Ok(outcome),
            None => bail!("a question on what the world does not have"),
        }
    }

    /// Whether all of these are equal in the world.
    pub fn are_equal(&self, all: &[Equal]) -> Result<bool> {
        for equal in all {
            if !self.is_equal(*equal)? {
                return Ok(false);
            }
        }
        Ok(true)
    }

    fn is_equal(&self, equal: Equal) -> Result<bool> {
        match equal {
            Equal::Elems(x, y) => Ok(self.outcome(&Question::Elems(x, y))? == 0),
            Equal::Nums(left, right) => Ok(self.outcome(&Question::Nums(left, right))? == 1),
        }
    }
}

fn different(left: Option<u64>, right: Option<u64>) -> Option<u8> {
    match (left, right) {
        (Some(m), Some(n)) => Some(u8::from(m != n)),
        _ => None,
    }
}

fn order(left: Option<i64>, right: Option<i64>) -> Option<u8> {
    match (left, right) {
        (Some(m), Some(n)) => Some(less_equal_greater(m, n)),
        _ => None,
    }
}

fn less_equal_greater(m: i64, n: i64) -> u8 {
    if m < n {
        0
    } else if m == n {
        1
    } else {
        2
    }
}

fn place(of: Option<i64>, lo: i64, hi: i64) -> Option<u8> {
    match of {
        Some(n) => Some(if n < lo {
            0
        } else if n <= hi {
            1
        } else {
            2
        }),
        None => None,
    }
}

fn byte(variant: Option<u16>) -> Option<u8> {
    match variant {
        Some(n) => u8::try_from(n).ok(),
        None => None,
    }
}

// The variable of an element's term.
fn element_of(term: &Term) -> Option<u64> {
    match term {
        Term::Elem(x) => Some(x.0),
        _ => None,
    }
}

fn number_of(term: &Term) -> Option<Num> {
    match term {
        Term::Num(a) => Some(*a),
        _ => None,
    }
}

fn variant_of(term: &Term) -> Option<Tag> {
    match term {
        Term::Tag(a) => Some(*a),
        _ => None,
    }
}

fn option_of(term: &Term) -> Option<Opt> {
    match term {
        Term::None => Some(Opt::None),
        Term::Some(_) => Some(Opt::Some),
        Term::Either(o) => Some(Opt::Var(*o)),
        _ => None,
    }
}

// A record's fields; another term has none.
fn fields_of(term: &Term) -> &[Term] {
    match term {
        Term::Rec(fields) => fields.get().as_slice(),
        _ => &[],
    }
}

// The term of an option's payload, whether the option is there or not.
fn payload_of<'t>(term: &'t Term, facts: &'t Ctx) -> Option<&'t Term> {
    match term {
        Term::Some(payload) => Some(payload.get()),
        Term::Either(o) => facts.payload_if(*o),
        _ => None,
    }
}

impl Known {
    // The variable of a term of its own stands for this.
    fn learn_element(&mut self, n: u64, term: &Term) -> Result<bool, NoMemory> {
        match element_of(term) {
            Some(x) => {
                self.elements.push((x, n))?;
                Ok(true)
            }
            None => Ok(false),
        }
    }

    fn learn_number(&mut self, n: i64, term: &Term) -> Result<bool, NoMemory> {
        match number_of(term) {
            Some(Num::Plus(x, 0)) => {
                self.numbers.push((x.0, n))?;
                Ok(true)
            }
            _ => Ok(false),
        }
    }

    fn learn_variant(&mut self, n: u16, term: &Term) -> Result<bool, NoMemory> {
        match variant_of(term) {
            Some(Tag::Var(x)) => {
                self.variants.push((x.0, n))?;
                Ok(true)
            }
            _ => Ok(false),
        }
    }

    fn learn_presence(&mut self, there: bool, term: &Term) -> Result<bool, NoMemory> {
        match option_of(term) {
            Some(Opt::Var(o)) => {
                self.options.push((o.0, there))?;
                Ok(true)
            }
            _ => Ok(false),
        }
    }

    /// The variables of a new term get what the value has in their place. Whether the term is one of the value's
    /// type.
    #[cycle(learn)]
    pub fn learn(&mut self, value: &Value, term: &Term, facts: &Ctx) -> Result<bool, NoMemory> {
        match value {
            Value::Elem(n) => self.learn_element(*n, term),
            Value::Int(n) => self.learn_number(*n, term),
            Value::Tag(n) => self.learn_variant(*n, term),
            Value::None => self.learn_presence(false, term),
            Value::Some(payload) => {
                let there = self.learn_presence(true, term)?;
                match payload_of(term, facts) {
                    Some(t) => {
                        let learnt = self.learn(payload.get(), t, facts)?;
                        Ok(there & learnt)
                    }
                    None => Ok(false),
                }
            }
            Value::Rec(parts) => self.learn_all(parts.as_slice(), fields_of(term), facts),
        }
    }

    #[cycle(learn)]
    fn learn_all(
        &mut self,
        values: &[Value],
        terms: &[Term],
        facts: &Ctx,
    ) -> Result<bool, NoMemory> {
        if values.len() != terms.len() {
            return Ok(false);
        }
        for i in 0..values.len() {
            if !self.learn(&values[i], &terms[i], facts)? {
                return Ok(false);
            }
        }
        Ok(true)
    }

    fn is_element(&self, n: u64, term: &Term) -> bool {
        match element_of(term) {
            Some(x) => self.element(x) == Some(n),
            None => false,
        }
    }

    fn is_number(&self, n: i64, term: &Term) -> bool {
        match number_of(term) {
            Some(a) => self.number(a) == Some(n),
            None => false,
        }
    }

    fn is_variant(&self, n: u16, term: &Term) -> bool {
        match variant_of(term) {
            Some(a) => self.variant(a) == Some(n),
            None => false,
        }
    }

    fn is_presence(&self, there: bool, term: &Term) -> bool {
        match option_of(term) {
            Some(o) => self.presence(o) == Some(there),
            None => false,
        }
    }

    /// Whether a term has this value in the world.
    #[cycle(fits)]
    pub fn fits(&self, value: &Value, term: &Term, facts: &Ctx) -> bool {
        match value {
            Value::Elem(n) => self.is_element(*n, term),
            Value::Int(n) => self.is_number(*n, term),
            Value::Tag(n) => self.is_variant(*n, term),
            Value::None => self.is_presence(false, term),
            Value::Some(payload) => match payload_of(term, facts) {
                Some(t) => self.is_presence(true, term) && self.fits(payload.get(), t, facts),
                None => false,
            },
            Value::Rec(parts) => self.fit_all(parts.as_slice(), fields_of(term), facts),
        }
    }

    #[cycle(fits)]
    fn fit_all(&self, values: &[Value], terms: &[Term], facts: &Ctx) -> bool {
        if values.len() != terms.len() {
            return false;
        }
        for i in 0..values.len() {
            if !self.fits(&values[i], &terms[i], facts) {
                return false;
            }
        }
        true
    }
}
