//! The comparison of two terms, as data that stops in its midst and goes on.

ghost use Rattle.std.specs.Prelude.{◌≡◌, ◌<◌, ◌+◌, ◌∷◌, ◌++◌, [], ◌↔◌, ℕ, true, List, Option, IfOk, OnOk, Some, None};
ghost use Rattle.std.specs.Prelude.{IsTrue};
ghost use Rattle.std.specs.Prelude.{reverse, slice_get};
ghost use Rattle.std.specs.Option.{option_copied};
ghost use Rattle.cm_term.specs.declared.term.Term.{Term, out-Term};
ghost use Rattle.cm_cells.specs.Comparison.{elem_in, num_in, tag_in, fields_in};
ghost use Rattle.cm_exec.specs.declared.comparison.Fields.{Fields};
ghost use Rattle.cm_term.specs.declared.term.Term.TheVariants as term;
ghost use Rattle.cm_exec.specs.Asking.{opt_of, payload_of, opened_asked, askers_below, asks_below, asks_of};
ghost use Rattle.cm_exec.specs.Terms.{said_equal};
ghost use Rattle.cm_exec.specs.Comparing.{MeetsDown, IsNoMeeting, Extends, Heads, IsWaiting, Awaits, AwaitsAt};
ghost use Rattle.cm_exec.specs.Comparing.{GoesDown, GoesDeeper, LandsDown, IsBelow};
ghost use Rattle.cm_exec.specs.Comparing.{answered, asker_of, askers_of, looks, opens, waiting_for};
ghost use Rattle.cm_exec.specs.Comparing.{told_as, after, at, next_of, looked, landed_at, stepped, staged, asking};
ghost use Rattle.cm_exec.specs.Comparing.{weight, frame_weight, frames_weight, next_weight};
ghost use Rattle.cm_term.specs.declared.question.Equal.{Equal};
ghost use Rattle.cm_exec.specs.Settling.{Settling, needing};
ghost use Rattle.cm_ctx.specs.Contexts.{payloads_of};

use crate::operand::field;
use cm_ctx::Facts;
use cm_model::{List, NoMemory, SortVar};
use cm_term::{Equal, Num, Opt, OptVar, Parts, Question, Tag, Term};
use std::alloc::Global;
use std::mem;

/// Two terms, compared.
#[derive(Drop)]
pub struct Sides {
    /// The term of the order ab, or of the left operand.
    pub left: Term,
    /// The term of the order ba, or of the right operand.
    pub right: Term,
}

/// Two terms of which the left one's options have variables below a number, if there is one.
#[derive(Drop)]
pub struct Pair {
    pub sides: Sides,
    pub below: Option<u64>,
}

/// The fields of two records that are still to compare: those from a number on.
#[derive(Drop)]
pub struct Fields {
    pub left: Parts,
    pub right: Parts,
    pub at: usize,
    pub below: Option<u64>,
}

/// What a comparison waits for.
#[derive(Drop)]
pub enum Waiting {
    /// The left variant; the right one is asked next.
    LeftTag(Tag, Tag),
    /// The right variant; the left one has this number.
    RightTag(u8, Tag),
    /// Whether the left option is there; the right one is asked next.
    LeftOption(Opt, Opt, Pair),
    /// Whether the right option is there; of the left one this is known.
    RightOption(u8, Opt, Pair),
    /// Whether two elements or numbers are equal.
    Equality(Equal),
}

/// What a comparison knows once an outcome is told.
#[derive(Drop)]
pub enum Told {
    /// It waits again.
    Waits(Waiting),
    /// The payloads of two options are next.
    Opens(Pair),
    /// The last two are equal or not.
    Said(bool),
}

/// What comes of a look at two terms.
#[derive(Drop)]
pub enum Looked {
    /// Something is asked.
    Waits(Waiting),
    /// They are records, whose fields are next.
    Deeper,
    /// They are of no one type.
    Stops,
}

/// Where a comparison has come to.
#[derive(Drop)]
pub enum Landed {
    /// It waits for an outcome.
    Waits(Waiting),
    /// It has ended: all are equal or not.
    Ended(bool),
    /// Two are of no one type.
    Stuck,
}

/// What a step leaves to do.
#[derive(Drop)]
pub enum Step {
    /// Two terms, or none where what came before is equal.
    Goes(Option<Pair>),
    /// Nothing, before an outcome is told.
    Lands(Landed),
}

/// Where a comparison stands.
#[derive(Drop)]
pub enum Stage {
    /// It has not begun.
    Fresh(Pair),
    /// An outcome is waited for.
    Asked(Waiting),
    /// The outcome is there.
    Answered(Waiting, u8),
    /// It has ended: the two are equal or not.
    Ended(bool),
    /// Two are of no one type.
    Stuck,
}

/// What is asked next, or how a comparison ended.
#[derive(Clone, Copy, PartialEq, Eq)]
pub enum Met {
    /// A variant or an option is inspected.
    Inspects(Question),
    /// Two elements or two numbers meet.
    Meets(Equal),
    /// The two are equal or not.
    Says(bool),
    /// They are of no one type.
    Stops,
}

/// The comparison of two terms.
#[derive(Drop)]
pub struct Comparison {
    pub stage: Stage,
    /// The records that it is in, the innermost last.
    pub frames: List<Fields>,
}

// The variable of an element.
fn element(t: &Term) -> Option<SortVar>
    ensures { result ≡ elem_in (out-Term t.now) }
{
    match t {
        Term::Elem(x) => Some(*x),
        _ => None,
    }
}

// The number of a term, if it has one.
pub(crate) fn number_in(t: &Term) -> Option<Num>
    ensures { result ≡ num_in (out-Term t.now) }
{
    match t {
        Term::Num(a) => Some(*a),
        _ => None,
    }
}

// The variant of a term, if it is one.
fn tag(t: &Term) -> Option<Tag>
    ensures { result ≡ tag_in (out-Term t.now) }
{
    match t {
        Term::Tag(a) => Some(*a),
        _ => None,
    }
}

// Whether an option is there, if the term is one.
pub(crate) fn opt(t: &Term) -> Option<Opt>
    ensures { result ≡ opt_of t.now }
{
    match t {
        Term::None => Some(Opt::None),
        Term::Some(_) => Some(Opt::Some),
        Term::Either(o) => Some(Opt::Var(*o)),
        _ => None,
    }
}

// The fields of a term, if it is a record.
fn parts(t: &Term) -> Option<&Parts>
    ensures { option_copied result ≡ fields_in (out-Term t.now) }
{
    match t {
        Term::Rec(fields) => Some(fields),
        _ => None,
    }
}

// Two elements meet, if the right term is one too.
fn look_at_element(x: SortVar, right: &Term) -> Looked
    ensures { (ps : List Term) (fs : List Fields) (n : Option ℕ) →
        at ps fs (asks_below ps n (term.Elem x) right.now) ≡ looked ps result fs }
{
    match element(right) {
        Some(y) => Looked::Waits(Waiting::Equality(Equal::Elems(x, y))),
        None => Looked::Stops,
    }
}

// Two numbers meet, if the right term has one too.
fn look_at_number(a: Num, right: &Term) -> Looked
    ensures { (ps : List Term) (fs : List Fields) (n : Option ℕ) →
        at ps fs (asks_below ps n (term.Num a) right.now) ≡ looked ps result fs }
{
    match number_in(right) {
        Some(b) => Looked::Waits(Waiting::Equality(Equal::Nums(a, b))),
        None => Looked::Stops,
    }
}

// The left variant is asked, if the right term is one too.
fn look_at_tag(a: Tag, right: &Term) -> Looked
    ensures { (ps : List Term) (fs : List Fields) (n : Option ℕ) →
        at ps fs (asks_below ps n (term.Tag a) right.now) ≡ looked ps result fs }
{
    match tag(right) {
        Some(b) => Looked::Waits(Waiting::LeftTag(a, b)),
        None => Looked::Stops,
    }
}

// The left option is asked, if the right term is one too.
fn look_at_option(left: Opt, pair: Pair) -> Looked
    requires { opt_of pair.sides.left ≡ Some left }
    ensures { (ps : List Term) (fs : List Fields) → at ps fs (looks ps pair) ≡ looked ps result fs }
{
    match opt(&pair.sides.right) {
        Some(right) => Looked::Waits(Waiting::LeftOption(left, right, pair)),
        None => Looked::Stops,
    }
}

// The fields of two records are next, if the right term is one too.
fn look_at_fields(
    frames: &mut List<Fields>,
    left: Parts,
    right: &Term,
    below: Option<u64>,
) -> Result<Looked, NoMemory>
    ensures looked { IfOk result (λ r. (ps : List Term) →
        at ps frames.old (asks_below ps below (term.Rec left) right.now) ≡ looked ps r frames.new) }
    ensures left { IfOk result (λ r.
        GoesDeeper (weight (term.Rec left) + frames_weight (reverse frames.old)) r frames.new) }
{
    match parts(right) {
        Some(right) => {
            let right = right.share()?;
            frames.push(Fields {
                left,
                right,
                at: 0,
                below,
            })?;
            Ok(Looked::Deeper)
        }
        None => Ok(Looked::Stops),
    }
}

// What comes of a look at two terms.
fn look(frames: &mut List<Fields>, pair: Pair) -> Result<Looked, NoMemory>
    ensures looked { IfOk result (λ r. (ps : List Term) →
        at ps frames.old (looks ps pair) ≡ looked ps r frames.new) }
    ensures left { IfOk result (λ r.
        GoesDeeper (weight pair.sides.left + frames_weight (reverse frames.old)) r frames.new) }
{
    match &pair.sides.left {
        Term::Elem(x) => Ok(look_at_element(*x, &pair.sides.right)),
        Term::Num(a) => Ok(look_at_number(*a, &pair.sides.right)),
        Term::Tag(a) => Ok(look_at_tag(*a, &pair.sides.right)),
        Term::Rec(left) => {
            let left = left.share()?;
            look_at_fields(frames, left, &pair.sides.right, pair.below)
        }
        Term::None => Ok(look_at_option(Opt::None, pair)),
        Term::Some(_) => Ok(look_at_option(Opt::Some, pair)),
        Term::Either(o) => {
            let o = *o;
            Ok(look_at_option(Opt::Var(o), pair))
        }
    }
}

// The next fields of two records, if there are any.
fn next_field(frames: &mut List<Fields>, fields: Fields) -> Result<Step, NoMemory>
    ensures stepped { IfOk result (λ r. (ps : List Term) →
        after ps (fields ∷ reverse frames.old) true ≡ stepped ps r frames.new) }
    ensures left { IfOk result (λ r.
        GoesDown (frame_weight fields + frames_weight (reverse frames.old)) r frames.new) }
{
    let left = field(&fields.left, fields.at)?;
    let right = field(&fields.right, fields.at)?;
    match (left, right) {
        (Some(left), Some(right)) => {
            let below = fields.below;
            push_rest(frames, fields)?;
            let sides = Sides { left, right };
            Ok(Step::Goes(Some(Pair { sides, below })))
        }
        (None, None) => Ok(Step::Goes(None)),
        (None, Some(_)) => Ok(Step::Lands(Landed::Stuck)),
        (Some(_), None) => Ok(Step::Lands(Landed::Stuck)),
    }
}

// The fields behind the next ones.
fn push_rest(frames: &mut List<Fields>, fields: Fields) -> Result<(), NoMemory>
    ensures { OnOk result (frames.new ≡ frames.old ++ record fields { at = fields.at + 1 } ∷ []) }
{
    match fields.at.checked_add(1) {
        Some(at) => {
            frames.push(Fields {
                left: fields.left,
                right: fields.right,
                at,
                below: fields.below,
            })?;
            Ok(())
        }
        None => Err(NoMemory),
    }
}

// What is left to do after two terms were looked at, or were equal.
fn take_step(frames: &mut List<Fields>, next: Option<Pair>) -> Result<Step, NoMemory>
    ensures stepped { IfOk result (λ r. (ps : List Term) → next_of ps frames.old next ≡ stepped ps r frames.new) }
    ensures left { IfOk result (λ r.
        GoesDown (next_weight next + frames_weight (reverse frames.old)) r frames.new) }
{
    match next {
        Some(pair) => {
            let r = step_into(frames, pair)?;
            Ok(r)
        }
        None => {
            let r = step_on(frames)?;
            Ok(r)
        }
    }
}

fn step_into(frames: &mut List<Fields>, pair: Pair) -> Result<Step, NoMemory>
    ensures stepped { IfOk result (λ r. (ps : List Term) →
        at ps frames.old (looks ps pair) ≡ stepped ps r frames.new) }
    ensures left { IfOk result (λ r.
        GoesDown (weight pair.sides.left + frames_weight (reverse frames.old)) r frames.new) }
{
    match look(frames, pair)? {
        Looked::Waits(w) => Ok(Step::Lands(Landed::Waits(w))),
        Looked::Deeper => Ok(Step::Goes(None)),
        Looked::Stops => Ok(Step::Lands(Landed::Stuck)),
    }
}

fn step_on(frames: &mut List<Fields>) -> Result<Step, NoMemory>
    ensures stepped { IfOk result (λ r. (ps : List Term) →
        after ps (reverse frames.old) true ≡ stepped ps r frames.new) }
    ensures left { IfOk result (λ r. GoesDown (frames_weight (reverse frames.old)) r frames.new) }
{
    match frames.pop() {
        Some(fields) => {
            let r = next_field(frames, fields)?;
            Ok(r)
        }
        None => Ok(Step::Lands(Landed::Ended(true))),
    }
}

// Goes on until something is asked, or to the end.
pub(crate) fn settle(frames: &mut List<Fields>, first: Option<Pair>) -> Result<Landed, NoMemory>
    ensures landed { IfOk result (λ r. (ps : List Term) → next_of ps frames.old first ≡ landed_at ps r frames.new) }
    ensures left { IfOk result (λ r.
        LandsDown (next_weight first + frames_weight (reverse frames.old)) r frames.new) }
{
    let mut next = first;
    'steps: loop {
        match take_step(frames, next)? {
            Step::Goes(later) => next = later,
            Step::Lands(landed) => return Ok(landed),
        }
    }
}

// What is known once an outcome is told.
fn tell(waiting: Waiting, outcome: u8) -> Told
    ensures { (ps : List Term) → told_as ps result ≡ answered (waiting_for ps waiting) outcome }
{
    match waiting {
        Waiting::LeftTag(_, right) => Told::Waits(Waiting::RightTag(outcome, right)),
        Waiting::RightTag(left, _) => Told::Said(left == outcome),
        Waiting::LeftOption(_, right, pair) => {
            Told::Waits(Waiting::RightOption(outcome, right, pair))
        }
        Waiting::RightOption(left, _, pair) => opened(left, outcome, pair),
        Waiting::Equality(equal) => Told::Said(are_equal(equal, outcome)),
    }
}

// Both options were inspected: the payloads are next where both are there.
fn opened(left: u8, right: u8, pair: Pair) -> Told
    ensures { (ps : List Term) → told_as ps result
        ≡ opened_asked left right (asker_of ps pair.below pair.sides.left) (payload_of ps pair.sides.right) }
{
    if left == right {
        if left == 1 {
            return Told::Opens(pair);
        }
        return Told::Said(true);
    }
    Told::Said(false)
}

// Whether two are equal, by the outcome.
fn are_equal(equal: Equal, outcome: u8) -> bool
    ensures { result ≡ said_equal equal outcome }
{
    match equal {
        Equal::Elems(_, _) => outcome == 0,
        Equal::Nums(_, _) => outcome == 1,
    }
}

// The payload of the left one of two options, and below what its own options have variables.
fn left_payload<F: Facts>(
    facts: &F,
    t: &Term,
    below: Option<u64>,
) -> Result<Option<(Term, Option<u64>)>, NoMemory>
    ensures { IfOk result (λ r. (ps : List Term) → Extends (payloads_of (F.pieces facts.now)) ps →
        asker_of ps below t.now ≡ askers_of ps r) }
{
    match t {
        Term::Some(payload) => {
            let payload = payload.get().share()?;
            Ok(Some((payload, below)))
        }
        Term::Either(o) => {
            let r = payload_below(facts, *o, below)?;
            Ok(r)
        }
        _ => Ok(None),
    }
}

// The payload of a variable, if that one is below a number.
fn payload_below<F: Facts>(
    facts: &F,
    o: OptVar,
    below: Option<u64>,
) -> Result<Option<(Term, Option<u64>)>, NoMemory>
    ensures { IfOk result (λ r. (ps : List Term) → Extends (payloads_of (F.pieces facts.now)) ps →
        slice_get (askers_below ps below) o.0 ≡ askers_of ps r) }
{
    if !is_below(o, below) {
        return Ok(None);
    }
    let payload = listed(facts, o)?;
    Ok(Some((payload, Some(o.0))))
}

fn is_below(o: OptVar, below: Option<u64>) -> bool
    ensures { IsTrue result ↔ IsBelow o.0 below }
{
    match below {
        Some(n) => o.0 < n,
        None => true,
    }
}

// The payload of a variable. The facts list each variable of the terms that they gave.
fn listed<F: Facts>(facts: &F, o: OptVar) -> Result<Term, NoMemory>
    ensures { IfOk result (λ t. (ps : List Term) → Extends (payloads_of (F.pieces facts.now)) ps →
        slice_get ps o.0 ≡ Some t) }
{
    match facts.payload_if(o) {
        Some(t) => {
            let t = t.share()?;
            Ok(t)
        }
        None => Err(NoMemory),
    }
}

// The payload of the right one of two options.
pub(crate) fn right_payload<F: Facts>(facts: &F, t: &Term) -> Result<Option<Term>, NoMemory>
    ensures { IfOk result (λ r. (ps : List Term) → Extends (payloads_of (F.pieces facts.now)) ps →
        payload_of ps t.now ≡ r) }
{
    match t {
        Term::Some(payload) => {
            let payload = payload.get().share()?;
            Ok(Some(payload))
        }
        Term::Either(o) => {
            let payload = listed(facts, *o)?;
            Ok(Some(payload))
        }
        _ => Ok(None),
    }
}

// Goes on with the payloads of two options.
fn open<F: Facts>(facts: &F, frames: &mut List<Fields>, pair: Pair) -> Result<Landed, NoMemory>
    ensures landed { IfOk result (λ r. (ps : List Term) → Extends (payloads_of (F.pieces facts.now)) ps →
        at ps frames.old (opens ps pair) ≡ landed_at ps r frames.new) }
{
    let left = left_payload(facts, &pair.sides.left, pair.below)?;
    let right = right_payload(facts, &pair.sides.right)?;
    match (left, right) {
        (Some((left, below)), Some(right)) => {
            let sides = Sides { left, right };
            let landed = settle(frames, Some(Pair { sides, below }))?;
            Ok(landed)
        }
        (Some(_), None) => Ok(Landed::Stuck),
        (None, _) => Ok(Landed::Stuck),
    }
}

// Goes on after an outcome.
fn resume<F: Facts>(facts: &F, frames: &mut List<Fields>, told: Told) -> Result<Landed, NoMemory>
    ensures landed { IfOk result (λ r. (ps : List Term) → Extends (payloads_of (F.pieces facts.now)) ps →
        at ps frames.old (told_as ps told) ≡ landed_at ps r frames.new) }
{
    match told {
        Told::Waits(waiting) => Ok(Landed::Waits(waiting)),
        Told::Opens(pair) => {
            let landed = open(facts, frames, pair)?;
            Ok(landed)
        }
        Told::Said(true) => {
            let landed = settle(frames, None)?;
            Ok(landed)
        }
        Told::Said(false) => Ok(Landed::Ended(false)),
    }
}

// Goes on from where the comparison stands.
fn go_on<F: Facts>(facts: &F, frames: &mut List<Fields>, stage: Stage) -> Result<Landed, NoMemory>
    ensures landed { IfOk result (λ r. (ps : List Term) → Extends (payloads_of (F.pieces facts.now)) ps →
        staged ps stage frames.old ≡ landed_at ps r frames.new) }
{
    match stage {
        Stage::Fresh(pair) => {
            let landed = settle(frames, Some(pair))?;
            Ok(landed)
        }
        Stage::Asked(waiting) => Ok(Landed::Waits(waiting)),
        Stage::Answered(waiting, outcome) => {
            let told = tell(waiting, outcome);
            let landed = resume(facts, frames, told)?;
            Ok(landed)
        }
        Stage::Ended(equal) => Ok(Landed::Ended(equal)),
        Stage::Stuck => Ok(Landed::Stuck),
    }
}

// What is asked where a comparison has landed.
fn met_at(landed: &Landed) -> Met
    ensures heads { (ps : List Term) (fs : List Fields) → Heads result (landed_at ps landed.now fs) }
    ensures waits { AwaitsAt result landed.now }
{
    match landed {
        Landed::Waits(Waiting::LeftTag(left, _)) => Met::Inspects(Question::TagOf(*left)),
        Landed::Waits(Waiting::RightTag(_, right)) => Met::Inspects(Question::TagOf(*right)),
        Landed::Waits(Waiting::LeftOption(left, _, _)) => Met::Inspects(Question::OptOf(*left)),
        Landed::Waits(Waiting::RightOption(_, right, _)) => Met::Inspects(Question::OptOf(*right)),
        Landed::Waits(Waiting::Equality(equal)) => Met::Meets(*equal),
        Landed::Ended(equal) => Met::Says(*equal),
        Landed::Stuck => Met::Stops,
    }
}

fn stage_of(landed: Landed) -> Stage
    ensures same { (ps : List Term) (fs : List Fields) → staged ps result fs ≡ landed_at ps landed fs }
    ensures waits { (m : Met) → AwaitsAt m landed → Awaits m result }
{
    match landed {
        Landed::Waits(waiting) => Stage::Asked(waiting),
        Landed::Ended(equal) => Stage::Ended(equal),
        Landed::Stuck => Stage::Stuck,
    }
}

impl Comparison {
    /// A comparison of two terms, which has not begun. It takes no memory.
    pub fn new(alloc: Global, sides: Sides) -> Comparison
        ensures asks { (ps : List Term) → asking ps result ≡ asks_of ps sides.left sides.right }
    {
        Comparison {
            stage: Stage::Fresh(Pair { sides, below: None }),
            frames: List::new(alloc),
        }
    }

    /// Goes on to what is asked next, or to the end.
    ///
    /// # Errors
    /// `NoMemory` where memory runs out; the comparison can't go on then.
    pub fn next<F: Facts>(&mut self, facts: &F) -> Result<Met, NoMemory>
        ensures same { IfOk result (λ _. (ps : List Term) → Extends (payloads_of (F.pieces facts.now)) ps →
            asking ps self.old ≡ asking ps self.new) }
        ensures heads { IfOk result (λ m. (ps : List Term) → Heads m (asking ps self.new)) }
        ensures waits { IfOk result (λ m. Awaits m self.new.stage) }
    {
        let at = mem::replace(&mut self.stage, Stage::Stuck);
        let landed = go_on(facts, &mut self.frames, at)?;
        let met = met_at(&landed);
        let _ = mem::replace(&mut self.stage, stage_of(landed));
        Ok(met)
    }

    /// Goes on as if the two that met were equal.
    ///
    /// # Errors
    /// `NoMemory` where memory runs out; the comparison can't go on then.
    pub fn pass(&mut self) -> Result<Met, NoMemory>
        ensures passed { IfOk result (λ _. (ps : List Term) →
            after ps (reverse self.old.frames) true ≡ asking ps self.new) }
        ensures heads { IfOk result (λ m. (ps : List Term) → Heads m (asking ps self.new)) }
        ensures waits { IfOk result (λ m. Awaits m self.new.stage) }
        ensures left { IfOk result (λ m. MeetsDown (frames_weight (reverse self.old.frames)) m self.new.frames) }
    {
        let landed = settle(&mut self.frames, None)?;
        let met = met_at(&landed);
        let _ = mem::replace(&mut self.stage, stage_of(landed));
        Ok(met)
    }

    // Collects the equalities that are needed, up to the next inspection or the end.
    fn collect(&mut self, needed: &mut List<Equal>, first: Met) -> Result<Met, NoMemory>
        requires heads { (ps : List Term) → Heads first (asking ps self.old) }
        requires waits { Awaits first self.old.stage }
        ensures needed { IfOk result (λ _. (ps : List Term) (k : List Equal → Settling) →
            needing needed.old (asking ps self.old) k ≡ needing needed.new (asking ps self.new) k) }
        ensures heads { IfOk result (λ m. (ps : List Term) → Heads m (asking ps self.new)) }
        ensures waits { IfOk result (λ m. Awaits m self.new.stage) }
        ensures no_meeting { IfOk result IsNoMeeting }
    {
        let mut met = first;
        'meets: loop {
            match met {
                Met::Meets(equal) => {
                    needed.push(equal)?;
                    met = self.pass()?;
                }
                Met::Inspects(question) => return Ok(Met::Inspects(question)),
                Met::Says(equal) => return Ok(Met::Says(equal)),
                Met::Stops => return Ok(Met::Stops),
            }
        }
    }

    /// Goes on to the next inspection or the end, where two elements or numbers that meet are needed to be equal.
    ///
    /// # Errors
    /// `NoMemory` where memory runs out; the comparison can't go on then.
    pub fn next_inspection<F: Facts>(
        &mut self,
        facts: &F,
        needed: &mut List<Equal>,
    ) -> Result<Met, NoMemory>
        ensures needed { IfOk result (λ _. (ps : List Term) (k : List Equal → Settling) →
            Extends (payloads_of (F.pieces facts.now)) ps →
            needing needed.old (asking ps self.old) k ≡ needing needed.new (asking ps self.new) k) }
        ensures heads { IfOk result (λ m. (ps : List Term) → Heads m (asking ps self.new)) }
        ensures waits { IfOk result (λ m. Awaits m self.new.stage) }
        ensures no_meeting { IfOk result IsNoMeeting }
    {
        let first = self.next(facts)?;
        let met = self.collect(needed, first)?;
        Ok(met)
    }

    /// Takes the outcome of what was asked. It takes no memory.
    pub fn answer(&mut self, outcome: u8)
        requires waits { IsWaiting self.old.stage }
        ensures answered { (ps : List Term) → asking ps self.new ≡ answered (asking ps self.old) outcome }
    {
        let at = mem::replace(&mut self.stage, Stage::Stuck);
        let _ = mem::replace(&mut self.stage, with_outcome(at, outcome));
    }
}

fn with_outcome(at: Stage, outcome: u8) -> Stage
    requires { IsWaiting at }
    ensures { (ps : List Term) (fs : List Fields) → staged ps result fs ≡ answered (staged ps at fs) outcome }
{
    match at {
        Stage::Asked(waiting) => Stage::Answered(waiting, outcome),
        other => other,
    }
}
