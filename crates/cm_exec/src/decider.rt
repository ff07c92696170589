//! A run's decisions: the machine goes on to the next one, which is asked, and on with its outcome.

ghost use Rattle.std.specs.Prelude.{◌≡◌, ◌<◌, ◌≤◌, ◌+◌, ◌*◌, List, [], ◌∷◌, IfOk, OnOk, length};
ghost use Rattle.cm_code.specs.Code.{code_meaning, codes_from};
ghost use Rattle.cm_code.specs.declared.instr.Instr.{Instr};
ghost use Rattle.cm_code.specs.declared.event.Event.TheVariants as event;
ghost use Rattle.cm_code.specs.declared.event.Machine.{Machine};
ghost use Rattle.cm_code.specs.Machine.{with_body, told, event_of};
ghost use Rattle.cm_code.specs.Steps.{steps_left};
ghost use Rattle.cm_eval.specs.Script.{Decides};
ghost use Rattle.cm_term.specs.declared.term.Term.{Term};
ghost use Rattle.cm_ctx.specs.Contexts.{payloads_of};
ghost use Rattle.cm_exec.specs.declared.operand.Operand.{Operand};
ghost use Rattle.cm_exec.specs.Terms.{Doing, terms, question_of};
ghost use Rattle.cm_exec.specs.Comparing.{Extends};
ghost use Rattle.cm_exec.specs.declared.decider.Waits.TheVariants as waits;
ghost use Rattle.cm_exec.specs.Deciding.{after, decides, awaited, awaited_if, goes_if, doing, turned, reached, left_in};
ghost use Rattle.cm_exec.specs.Deciding.{AsksAt, TurnAsks, GoesDown, ComesDown, IsAsking, Awaits, TurnAwaits};
ghost use Rattle.cm_exec.specs.Deciding.{handed_in, goes_on};
ghost use Rattle.cm_exec.specs.Deciding.{numbers_compared, presence_told, range_told, IsMet};

use crate::comparison::{Comparison, Met, Sides, number_in, opt, right_payload};
use crate::operand::{Operand, choice, number};
use cm_code::{Event, Instr, Machine, Ranked, Then, go, hand, open, rank, start, tell};
use cm_ctx::Facts;
use cm_model::{List, NoMemory};
use cm_term::{Equal, Num, Opt, Question, Tag, Term};
use std::alloc::Global;
use std::mem;

/// What is decided next.
#[derive(Drop)]
pub enum Decision {
    /// Whether a bool is true.
    Bool(Tag, Then),
    /// Whether two numbers are equal.
    Equality(Num, Num, Then),
    /// The order of two numbers.
    Order(Num, Num, Ranked),
    /// Whether a number is one from the first to the second.
    Range(i64, i64, Num),
    /// Whether an option is there; with no payload there is a jump.
    Presence(Opt, Term, u32),
}

/// What a machine waits for.
#[derive(Drop)]
pub enum Waits {
    /// Nothing: it goes on.
    Nothing,
    /// The outcome of a decision.
    Asked(Decision),
    /// The outcome is there.
    Answered(Decision, u8),
    /// What a comparison comes to.
    Comparing(Comparison, Then),
}

/// A machine and what it waits for.
#[derive(Drop)]
pub struct Decider {
    pub machine: Machine<Term, Operand>,
    pub waits: Waits,
}

/// What a run comes to.
#[derive(Drop)]
pub enum Reached {
    /// This is asked.
    Asks(Question),
    /// A cell is read, and its term is waited for.
    Reads(u16, Option<Term>),
    /// A cell is written.
    Writes(u16, Option<Term>, Term),
    /// The run ends with a reply.
    Replies(Term),
    /// It is blocked.
    Blocks,
}

/// What came of a turn.
#[derive(Drop)]
pub enum Turned {
    /// The run goes on.
    On,
    /// It has come to this.
    To(Reached),
}

// What is waited for where a bool is inspected.
fn wait_for_bool(o: &Operand, then: Then) -> Option<Waits>
    ensures { (codes : List (List Instr)) (m : Machine Term Operand) (ps : List Term) →
        event_of Term Operand Doing terms codes (event.Inspects o.now then) m ps ≡ awaited_if codes m result ps }
{
    match choice(o) {
        Some(a) => Some(Waits::Asked(Decision::Bool(a, then))),
        None => None,
    }
}

// What is waited for where two numbers are compared.
fn wait_for_order(x: &Operand, y: &Operand, ranked: Ranked) -> Option<Waits>
    ensures { (codes : List (List Instr)) (m : Machine Term Operand) (ps : List Term) →
        event_of Term Operand Doing terms codes (event.Orders x.now y.now ranked) m ps
        ≡ awaited_if codes m result ps }
{
    match number(x) {
        Some(a) => match number(y) {
            Some(b) => Some(Waits::Asked(Decision::Order(a, b, ranked))),
            None => None,
        },
        None => None,
    }
}

// What is waited for where a number of a range is wanted.
fn wait_for_range(lo: i64, hi: i64, of: &Operand) -> Option<Waits>
    ensures { (codes : List (List Instr)) (m : Machine Term Operand) (ps : List Term) →
        event_of Term Operand Doing terms codes (event.Into lo hi of.now) m ps ≡ awaited_if codes m result ps }
{
    match number(of) {
        Some(a) => Some(Waits::Asked(Decision::Range(lo, hi, a))),
        None => None,
    }
}

// What is waited for where an option is inspected.
fn wait_for_presence(t: Term, over: u32) -> Option<Waits>
    ensures { (codes : List (List Instr)) (m : Machine Term Operand) (ps : List Term) →
        event_of Term Operand Doing terms codes (event.Opens t over) m ps ≡ awaited_if codes m result ps }
{
    match opt(&t) {
        Some(o) => Some(Waits::Asked(Decision::Presence(o, t, over))),
        None => None,
    }
}

// What is waited for where two numbers are compared, if both are there.
fn wait_for_numbers(x: Option<Num>, y: Option<Num>, then: Then) -> Option<Waits>
    ensures { (codes : List (List Instr)) (m : Machine Term Operand) (ps : List Term) →
        numbers_compared codes m x y then ps ≡ awaited_if codes m result ps }
{
    match x {
        Some(a) => match y {
            Some(b) => Some(Waits::Asked(Decision::Equality(a, b, then))),
            None => None,
        },
        None => None,
    }
}

// What is waited for where two are compared: terms by their type, or numbers by one question.
fn wait_for_equal(alloc: Global, x: Operand, y: Operand, then: Then) -> Option<Waits>
    ensures { (codes : List (List Instr)) (m : Machine Term Operand) (ps : List Term) →
        event_of Term Operand Doing terms codes (event.Compares x y then) m ps ≡ awaited_if codes m result ps }
{
    match (x, y) {
        (Operand::Plain(left), Operand::Plain(right)) => {
            let comparison = Comparison::new(alloc, Sides { left, right });
            Some(Waits::Comparing(comparison, then))
        }
        (Operand::Plain(left), Operand::Number(b)) => {
            wait_for_numbers(number_in(&left), Some(b), then)
        }
        (Operand::Number(a), y) => wait_for_numbers(Some(a), number(&y), then),
    }
}

impl Decider {
    /// A body at its start, over so many functions.
    pub fn new(alloc: Global, funs: usize, args: List<Term>) -> Decider
        ensures body { (codes : List (List Instr)) (body : List Instr) (ps : List Term) → length codes ≡ funs →
            doing (with_body codes body) result ps
            ≡ code_meaning Term Operand Doing terms (codes_from Term Operand Doing terms [] codes) body args
            terms.replies ps }
    {
        Decider {
            machine: start(alloc, funs, args),
            waits: Waits::Nothing,
        }
    }

    // The run waits for this, or is blocked.
    fn wait_for(&mut self, waits: Option<Waits>) -> Turned
        ensures turned { (codes : List (List Instr)) (ps : List Term) →
            awaited_if codes self.old.machine waits ps ≡ turned codes result self.new ps }
        ensures left { (codes : List (List Instr)) →
            GoesDown codes (2 * steps_left codes self.old.machine + 2) result self.new }
        ensures waits { TurnAwaits result self.new }
        ensures asks { (codes : List (List Instr)) → TurnAsks codes result self.new }
    {
        match waits {
            Some(waits) => {
                let _ = mem::replace(&mut self.waits, waits);
                Turned::On
            }
            None => Turned::To(Reached::Blocks),
        }
    }

    // Goes on to the next event.
    fn advance(
        &mut self,
        alloc: Global,
        funs: &[List<Instr>],
        body: &[Instr],
    ) -> Result<Turned, NoMemory>
        requires going { self.old.waits ≡ waits.Nothing }
        ensures turned { IfOk result (λ r. (ps : List Term) →
            goes_on (with_body funs.now body.now) self.old.machine ps
            ≡ turned (with_body funs.now body.now) r self.new ps) }
        ensures left { IfOk result (λ r. GoesDown (with_body funs.now body.now)
            (2 * steps_left (with_body funs.now body.now) self.old.machine) r self.new) }
        ensures waits { IfOk result (λ r. TurnAwaits r self.new) }
        ensures asks { IfOk result (λ r. TurnAsks (with_body funs.now body.now) r self.new) }
    {
        match go(alloc, funs, body, &mut self.machine)? {
            Event::Inspects(o, then) => Ok(self.wait_for(wait_for_bool(&o, then))),
            Event::Compares(x, y, then) => Ok(self.wait_for(wait_for_equal(alloc, x, y, then))),
            Event::Orders(x, y, ranked) => Ok(self.wait_for(wait_for_order(&x, &y, ranked))),
            Event::Into { lo, hi, of } => Ok(self.wait_for(wait_for_range(lo, hi, &of))),
            Event::Opens(t, over) => Ok(self.wait_for(wait_for_presence(t, over))),
            Event::Reads(state, key) => Ok(Turned::To(Reached::Reads(state, key))),
            Event::Writes(state, key, t) => Ok(Turned::To(Reached::Writes(state, key, t))),
            Event::Replies(t) => Ok(Turned::To(Reached::Replies(t))),
            Event::Blocks => Ok(Turned::To(Reached::Blocks)),
        }
    }
}

// What a decision asks.
fn question_of(decision: &Decision) -> Question
    ensures { (codes : List (List Instr)) (m : Machine Term Operand) (ps : List Term) →
        decides codes m decision.now ps ≡ Decides result (after (decides codes m decision.now ps)) }
{
    match decision {
        Decision::Bool(a, _) => Question::TagOf(*a),
        Decision::Equality(a, b, _) => Question::Nums(*a, *b),
        Decision::Order(a, b, _) => Question::Nums(*a, *b),
        Decision::Range(lo, hi, a) => Question::Range {
            of: *a,
            lo: *lo,
            hi: *hi,
        },
        Decision::Presence(o, _, _) => Question::OptOf(*o),
    }
}

// Goes on where an option was inspected.
fn open_on<F: Facts>(
    facts: &F,
    m: &mut Machine<Term, Operand>,
    t: &Term,
    over: u32,
    outcome: u8,
) -> Result<bool, NoMemory>
    ensures means { IfOk result (λ on. (codes : List (List Instr)) (ps : List Term) →
        Extends (payloads_of (F.pieces facts.now)) ps →
        presence_told codes m.old t.now over outcome ps ≡ goes_if codes on m.new ps) }
    ensures left { OnOk result ((codes : List (List Instr)) → steps_left codes m.new ≤ steps_left codes m.old) }
{
    if outcome != 1 {
        open(m, over, None)?;
        return Ok(true);
    }
    match right_payload(facts, t)? {
        Some(payload) => {
            open(m, over, Some(payload))?;
            Ok(true)
        }
        None => Ok(false),
    }
}

// Goes on where a number of a range was wanted.
fn convert_on(m: &mut Machine<Term, Operand>, a: Num, outcome: u8) -> Result<bool, NoMemory>
    ensures means { IfOk result (λ on. (codes : List (List Instr)) (ps : List Term) →
        range_told codes m.old a outcome ps ≡ goes_if codes on m.new ps) }
    ensures left { OnOk result ((codes : List (List Instr)) → steps_left codes m.new ≤ steps_left codes m.old) }
{
    if outcome != 1 {
        return Ok(false);
    }
    hand(m, Term::Num(a))?;
    Ok(true)
}

// Goes on with the outcome of a decision, or is blocked.
fn resolve<F: Facts>(
    alloc: Global,
    facts: &F,
    m: &mut Machine<Term, Operand>,
    decision: &Decision,
    outcome: u8,
) -> Result<bool, NoMemory>
    ensures means { IfOk result (λ on. (codes : List (List Instr)) (ps : List Term) →
        Extends (payloads_of (F.pieces facts.now)) ps →
        after (decides codes m.old decision.now ps) outcome ≡ goes_if codes on m.new ps) }
    ensures left { OnOk result ((codes : List (List Instr)) → steps_left codes m.new ≤ steps_left codes m.old) }
{
    match decision {
        Decision::Bool(_, then) => {
            let on = tell_on(alloc, m, *then, outcome == 1)?;
            Ok(on)
        }
        Decision::Equality(_, _, then) => {
            let on = tell_on(alloc, m, *then, outcome == 1)?;
            Ok(on)
        }
        Decision::Order(_, _, ranked) => {
            rank(alloc, m, *ranked, outcome)?;
            Ok(true)
        }
        Decision::Range(_, _, a) => {
            let on = convert_on(m, *a, outcome)?;
            Ok(on)
        }
        Decision::Presence(_, t, over) => {
            let on = open_on(facts, m, t, *over, outcome)?;
            Ok(on)
        }
    }
}

// Goes on where a bool was waited for, or is blocked.
fn tell_on(
    alloc: Global,
    m: &mut Machine<Term, Operand>,
    then: Then,
    b: bool,
) -> Result<bool, NoMemory>
    ensures means { IfOk result (λ on. (codes : List (List Instr)) (ps : List Term) →
        told Term Operand Doing terms codes m.old then b ps ≡ goes_if codes on m.new ps) }
    ensures left { OnOk result ((codes : List (List Instr)) → steps_left codes m.new ≤ steps_left codes m.old) }
{
    let on = tell(alloc, m, then, b)?;
    Ok(on)
}

// Two elements or numbers that meet, as a question.
fn as_question(equal: Equal) -> Question
    ensures { result ≡ question_of equal }
{
    match equal {
        Equal::Elems(x, y) => Question::Elems(x, y),
        Equal::Nums(a, b) => Question::Nums(a, b),
    }
}

impl Decider {
    // Goes on, or is blocked.
    fn go_if(&mut self, on: bool) -> Turned
        ensures turned { (codes : List (List Instr)) (ps : List Term) →
            goes_if codes on self.old.machine ps ≡ turned codes result self.new ps }
        ensures left { (codes : List (List Instr)) →
            GoesDown codes (2 * steps_left codes self.old.machine + 1) result self.new }
        ensures waits { TurnAwaits result self.new }
        ensures asks { (codes : List (List Instr)) → TurnAsks codes result self.new }
    {
        if on {
            let _ = mem::replace(&mut self.waits, Waits::Nothing);
            return Turned::On;
        }
        Turned::To(Reached::Blocks)
    }

    // A comparison has come to this.
    fn compared(&mut self, alloc: Global, met: Met, then: Then) -> Result<Turned, NoMemory>
        requires met { IsMet met then self.old.waits }
        ensures turned { IfOk result (λ r. (codes : List (List Instr)) (ps : List Term) →
            doing codes self.old ps ≡ turned codes r self.new ps) }
        ensures left { IfOk result (λ r. (codes : List (List Instr)) →
            GoesDown codes (2 * steps_left codes self.old.machine + 1) r self.new) }
        ensures waits { IfOk result (λ r. TurnAwaits r self.new) }
        ensures asks { IfOk result (λ r. (codes : List (List Instr)) → TurnAsks codes r self.new) }
    {
        match met {
            Met::Inspects(question) => Ok(Turned::To(Reached::Asks(question))),
            Met::Meets(equal) => Ok(Turned::To(Reached::Asks(as_question(equal)))),
            Met::Says(equal) => {
                let on = tell_on(alloc, &mut self.machine, then, equal)?;
                Ok(self.go_if(on))
            }
            Met::Stops => Ok(Turned::To(Reached::Blocks)),
        }
    }

    // One turn: to the next event, or on with what is waited for.
    fn turn<F: Facts>(
        &mut self,
        alloc: Global,
        funs: &[List<Instr>],
        body: &[Instr],
        facts: &F,
    ) -> Result<Turned, NoMemory>
        ensures turned { IfOk result (λ r. (ps : List Term) → Extends (payloads_of (F.pieces facts.now)) ps →
            doing (with_body funs.now body.now) self.old ps
            ≡ turned (with_body funs.now body.now) r self.new ps) }
        ensures left { IfOk result (λ r. GoesDown (with_body funs.now body.now)
            (left_in (with_body funs.now body.now) self.old) r self.new) }
        ensures waits { IfOk result (λ r. TurnAwaits r self.new) }
        ensures asks { IfOk result (λ r. TurnAsks (with_body funs.now body.now) r self.new) }
    {
        match &mut self.waits {
            Waits::Nothing => {
                let r = self.advance(alloc, funs, body)?;
                Ok(r)
            }
            Waits::Asked(decision) => Ok(Turned::To(Reached::Asks(question_of(decision)))),
            Waits::Answered(decision, outcome) => {
                let on = resolve(alloc, facts, &mut self.machine, decision, *outcome)?;
                Ok(self.go_if(on))
            }
            Waits::Comparing(comparison, then) => {
                let then = *then;
                let met = comparison.next(facts)?;
                let r = self.compared(alloc, met, then)?;
                Ok(r)
            }
        }
    }

    /// Goes on to the next question, cell or end.
    ///
    /// # Errors
    /// `NoMemory` where memory runs out; the run can't go on then.
    pub fn next<F: Facts>(
        &mut self,
        alloc: Global,
        funs: &[List<Instr>],
        body: &[Instr],
        facts: &F,
    ) -> Result<Reached, NoMemory>
        ensures reached { IfOk result (λ r. (ps : List Term) → Extends (payloads_of (F.pieces facts.now)) ps →
            doing (with_body funs.now body.now) self.old ps
            ≡ reached (with_body funs.now body.now) r self.new ps) }
        ensures waits { IfOk result (λ r. Awaits r self.new) }
        ensures asks { IfOk result (λ r. AsksAt (with_body funs.now body.now) r self.new) }
        ensures left { IfOk result (λ r. ComesDown (with_body funs.now body.now)
            (left_in (with_body funs.now body.now) self.old) r self.new) }
    {
        'turns: loop {
            match self.turn(alloc, funs, body, facts)? {
                Turned::On => {}
                Turned::To(r) => return Ok(r),
            }
        }
    }

    /// Goes on with the term of a cell that was read.
    ///
    /// # Errors
    /// `NoMemory` where memory runs out; the run can't go on then.
    pub fn hand(&mut self, t: Term) -> Result<(), NoMemory>
        ensures handed { OnOk result ((codes : List (List Instr)) (ps : List Term) →
            handed_in codes self.old.machine t ps ≡ doing codes self.new ps) }
        ensures left { OnOk result ((codes : List (List Instr)) →
            left_in codes self.new ≤ 2 * steps_left codes self.old.machine) }
    {
        let _ = mem::replace(&mut self.waits, Waits::Nothing);
        let handed = hand(&mut self.machine, t);
        handed
    }

    /// Takes the outcome of the question that was asked. It takes no memory.
    pub fn answer(&mut self, outcome: u8)
        requires asks { IsAsking self.old.waits }
        ensures answered { (codes : List (List Instr)) (ps : List Term) →
            doing codes self.new ps ≡ after (doing codes self.old ps) outcome }
    {
        let at = mem::replace(&mut self.waits, Waits::Nothing);
        let _ = mem::replace(&mut self.waits, with_outcome(at, outcome));
    }
}

fn with_outcome(at: Waits, outcome: u8) -> Waits
    requires { IsAsking at }
    ensures { (codes : List (List Instr)) (m : Machine Term Operand) (ps : List Term) →
        awaited codes m result ps ≡ after (awaited codes m at ps) outcome }
{
    match at {
        Waits::Asked(decision) => Waits::Answered(decision, outcome),
        Waits::Comparing(comparison, then) => {
            let mut comparison = comparison;
            comparison.answer(outcome);
            Waits::Comparing(comparison, then)
        }
        other => other,
    }
}
