//! Two keys compared by their type, as far as the answers go.

ghost use Rattle.cm_cells.specs.inner.Meeting.{Compares, ComparesAll, ComparesTags, Tells};

use cm_term::{Question, Tag, Term};

/// What a comparison comes to.
#[derive(Clone, Copy)]
pub enum Met<'a> {
    /// The answers do not tell: this is asked next.
    Asks(Question),
    /// The two are the same or not, and these answers are left.
    Told(bool, &'a [u8]),
}

/// Two keys, the left one being the new one. Keys of no one type are different.
#[cycle(compare)]
pub fn compare<'a>(left: &Term, right: &Term, answers: &'a [u8]) -> Met<'a>
    ensures compares { Compares left.now right.now answers.now result }
{
    match (left, right) {
        (Term::Elem(x), Term::Elem(y)) => told(Question::Elems(*x, *y), 0, answers),
        (Term::Num(m), Term::Num(n)) => told(Question::Nums(*m, *n), 1, answers),
        (Term::Tag(m), Term::Tag(n)) => compare_tags(*m, *n, answers),
        (Term::Rec(ms), Term::Rec(ns)) => {
            compare_all(ms.get().as_slice(), ns.get().as_slice(), answers)
        }
        _ => Met::Told(false, answers),
    }
}

// Field by field, until one differs.
#[cycle(compare)]
fn compare_all<'a>(left: &[Term], right: &[Term], answers: &'a [u8]) -> Met<'a>
    ensures compares { ComparesAll left.now right.now answers.now result }
{
    let mut rest = answers;
    for i in 0..left.len() {
        if i >= right.len() {
            return Met::Told(false, rest);
        }
        match compare(&left[i], &right[i], rest) {
            Met::Asks(question) => return Met::Asks(question),
            Met::Told(true, more) => rest = more,
            Met::Told(false, more) => return Met::Told(false, more),
        }
    }
    // The right one may have fields left.
    Met::Told(right.len() <= left.len(), rest)
}

// The two are the same where the question has this outcome.
fn told(question: Question, outcome: u8, answers: &[u8]) -> Met<'_>
    ensures tells { Tells question outcome answers.now result }
{
    match answers.split_first() {
        Some((answer, rest)) => Met::Told(*answer == outcome, rest),
        None => Met::Asks(question),
    }
}

// The left variant, and then the right one.
fn compare_tags(left: Tag, right: Tag, answers: &[u8]) -> Met<'_>
    ensures compares { ComparesTags left right answers.now result }
{
    match answers.split_first() {
        Some((first, rest)) => told(Question::TagOf(right), *first, rest),
        None => Met::Asks(Question::TagOf(left)),
    }
}
