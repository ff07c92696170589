//! Runs of calls on terms: what is asked next, with the cells so far.

ghost use Rattle.std.specs.Prelude.{◌≡◌, ◌<◌, ◌≤◌, ◌+◌, ◌*◌, ◌-◌, ◌++◌, ◌∷◌, [], ℕ, List, Some, None, IfOk, OnOk};
ghost use Rattle.std.specs.Prelude.{length};
ghost use Rattle.std.specs.Prelude.{slice_get, ◌↔◌, IsTrue};
ghost use Rattle.std.specs.Option.{option_copied};
ghost use Rattle.cm_model.specs.Limits.{cell_limit};
ghost use Rattle.cm_model.specs.Tables.{Tables};
ghost use Rattle.cm_code.specs.Machine.{or_empty};
ghost use Rattle.cm_eval.specs.Compiled.{IsCodeOf};
ghost use Rattle.cm_term.specs.declared.term.Term.{Term};
ghost use Rattle.cm_cells.specs.CellTable.{place, with_cell};
ghost use Rattle.cm_cells.specs.Touching.{next_of};
ghost use Rattle.cm_cells.specs.declared.search.Touched.TheVariants as touched;
ghost use Rattle.cm_ctx.specs.Contexts.{payloads_of};
ghost use Rattle.cm_exec.specs.Run.{settled, IsGrown, KeepsAll};
ghost use Rattle.cm_exec.specs.Comparing.{Extends};
ghost use Rattle.cm_exec.specs.declared.run.Phase.TheVariants as phase;
ghost use Rattle.cm_cells.specs.CellTable.{CellTable};
ghost use Rattle.cm_exec.specs.Run.{checked, invariants_of, touched_with, play};
ghost use Rattle.cm_exec.specs.Deciding.{Awaits, AsksAt, ComesDown};
ghost use Rattle.cm_exec.specs.Deciding.{reached as reached_as};
ghost use Rattle.cm_exec.specs.Run.{tale_of};
ghost use Rattle.cm_exec.specs.Running.{IsAskedWith, told_after, codes_of, used_last, IsChecking, checks_as};
ghost use Rattle.cm_exec.specs.declared.run.Touch.{Touch};
ghost use Rattle.cm_exec.specs.declared.run.Use.{Use};
ghost use Rattle.cm_exec.specs.declared.decider.Decider.{Decider};
ghost use Rattle.cm_exec.specs.Running.{telling, used, adds, decider_left, left_of, if_there, is_there, IsRoomy};
ghost use Rattle.cm_exec.specs.Running.{IsThere};
ghost use Rattle.cm_exec.specs.Running.{invariant_or_none, Turned, IsTouch, ComesIf, AwaitsIf, LeftIf, Comes};
ghost use Rattle.cm_exec.specs.Running as running;

use crate::decider::{Decider, Reached};
use cm_cells::{Cells, Order, Touched};
use cm_code::Instr;
use cm_ctx::Facts;
use cm_eval::Code;
use cm_model::{List, Model, NoMemory, limits};
use cm_term::{Question, Root, Shared, Sym, SymPath, Term, share_all};
use std::alloc::Global;
use std::mem;

/// What a cell is touched for.
#[derive(Drop)]
pub enum Use {
    /// Its term.
    Reads,
    /// Another term in it.
    Writes(Term),
}

/// A touch of a cell in its midst, with the outcomes that were answered in it.
#[derive(Drop)]
pub struct Touch {
    pub state: u16,
    pub key: Option<Term>,
    pub goal: Use,
    pub answers: List<u8>,
}

/// Where a run stands.
#[derive(Drop)]
pub enum Phase {
    /// Its machine goes on.
    Goes,
    /// It touches a cell.
    Touches(Touch),
    /// It touches a cell, and an outcome is there.
    Told(Touch, u8),
    /// It asks the invariant of a state's new cell, which comes last.
    Checks(u16, Decider, Use),
    /// It has ended with a reply.
    Replied(Term),
    /// It is blocked.
    Blocked,
}

/// A run of a call on terms in an order. It holds no borrow of the model.
#[derive(Drop)]
pub struct Run {
    /// The model's code.
    pub code: Shared<Code>,
    /// The call's number.
    pub call: u16,
    /// In which order it runs.
    pub order: Order,
    /// Its machine, with what that waits for.
    pub decider: Decider,
    /// Where it stands.
    pub phase: Phase,
}

/// What a run comes to.
#[derive(Drop)]
pub enum Ask {
    /// This is asked next.
    Question(Question),
    /// The run ends with a reply.
    Reply(Term),
    /// The run is blocked.
    Blocked,
    /// A cell more than a path may touch would be touched.
    Cells,
}

// The code of a call, which is empty where there is none.
fn body(code: &Code, call: u16) -> &[Instr]
    ensures { result.now ≡ or_empty (slice_get code.now.calls call) }
{
    match code.calls.get(usize::from(call)) {
        Some(body) => body.as_slice(),
        None => &[],
    }
}

// The code of a state's invariant, which is empty where there is none.
fn invariant(code: &Code, state: u16) -> &[Instr]
    ensures { result.now ≡ if_there (slice_get code.now.invariants state) }
{
    match code.invariants.get(usize::from(state)) {
        Some(Some(code)) => code.as_slice(),
        Some(None) => &[],
        None => &[],
    }
}

// Whether a state has an invariant.
fn has_invariant(code: &Code, state: u16) -> bool
    ensures { result ≡ is_there (slice_get code.now.invariants state) }
{
    match code.invariants.get(usize::from(state)) {
        Some(Some(_)) => true,
        Some(None) => false,
        None => false,
    }
}

// A cell more. There is room for it, so that only memory can be missing.
fn add(cells: &mut Cells, state: u16, key: Option<Term>, initial: Term) -> Result<u8, NoMemory>
    ensures number { IfOk result (λ n. n ≡ length cells.old.places) }
    ensures added { OnOk result (cells.new ≡ with_cell cells.old (place state key) initial) }
{
    match cells.add_cell(state, key, initial) {
        Ok(number) => Ok(number),
        Err(_) => Err(NoMemory),
    }
}

// Whether a model has this state.
fn is_declared(model: &Model, state: u16) -> bool
    ensures { IsTrue result ↔ IsThere (slice_get model.now.states state) }
{
    match model.states().get(usize::from(state)) {
        Some(_) => true,
        None => false,
    }
}

impl Run {
    // The run stands in another phase.
    fn set(&mut self, phase: Phase)
        ensures { self.new ≡ record self.old { phase = phase } }
    {
        let _ = mem::replace(&mut self.phase, phase);
    }

    // Does with a touched cell what it was touched for.
    fn use_cell(&mut self, cells: &mut Cells, cell: u8, goal: Use) -> Result<(), NoMemory>
        requires cell { cell < length cells.old.places }
        ensures used { OnOk result ((t : Tables) (ps : List Term) →
            used t ps self.old goal cell cells.old ≡ telling t ps self.new cells.new) }
        ensures places { OnOk result (cells.new.places ≡ cells.old.places) }
        ensures left { OnOk result (left_of self.new ≤ 4 * decider_left self.old + 1) }
        ensures code { OnOk result (self.new.code ≡ self.old.code) }
    {
        match goal {
            Use::Reads => {
                let t = cells.value(self.order, cell).share()?;
                self.decider.hand(t)?;
            }
            Use::Writes(t) => cells.write(self.order, cell, t)?,
        }
        self.set(Phase::Goes);
        Ok(())
    }

    // A cell that is new gets its initial term, and its invariant is asked.
    fn add_cell<F: Facts>(
        &mut self,
        alloc: Global,
        model: &Model,
        cells: &mut Cells,
        facts: &mut F,
        touch: Touch,
    ) -> Result<(), NoMemory>
        requires room { length cells.old.places < cell_limit }
        requires new { IsRoomy (F.pieces facts.old) (length cells.old.places) }
        ensures added { OnOk result ((ps : List Term) → IsCodeOf model.now self.old.code →
            settled model.now cells.old.places (F.counts facts.old) (F.pieces facts.old)
            (adds model.now ps self.old touch cells.old)
            ≡ settled model.now cells.new.places (F.counts facts.new) (F.pieces facts.new)
            (telling model.now ps self.new cells.new)) }
        ensures grown { OnOk result (IsGrown model.now cells.old.places (F.counts facts.old) (F.pieces facts.old)
            cells.new.places (F.counts facts.new) (F.pieces facts.new)) }
        ensures satisfied { OnOk result (KeepsAll (F.pieces facts.old) (F.satisfied facts.old)
            (F.pieces facts.new) (F.satisfied facts.new)) }
        ensures pieces { OnOk result (Extends (payloads_of (F.pieces facts.old)) (payloads_of (F.pieces facts.new))) }
        ensures new { OnOk result (IsRoomy (F.pieces facts.new) (length cells.new.places)) }
        ensures left { OnOk result (left_of self.new < 4 * decider_left self.old + 3) }
        ensures code { OnOk result (self.new.code ≡ self.old.code) }
    {
        let Some(declared) = model.states().get(usize::from(touch.state)) else {
            self.set(Phase::Blocked);
            return Ok(());
        };
        let at = Sym {
            root: Root::Cell(cells.len()),
            path: SymPath::new(alloc),
        };
        let t = facts.fresh_of(model, &at, &declared.value)?;
        let initial = t.share()?;
        let cell = add(cells, touch.state, touch.key, initial)?;
        self.check_cell(alloc, cells, cell, touch.state, touch.goal, t)?;
        Ok(())
    }

    // Asks the invariant of a new cell, if its state has one.
    fn check_cell(
        &mut self,
        alloc: Global,
        cells: &mut Cells,
        cell: u8,
        state: u16,
        goal: Use,
        t: Term,
    ) -> Result<(), NoMemory>
        requires last { cell + 1 ≡ length cells.old.places }
        ensures checked { OnOk result ((m : Tables) (ps : List Term) → IsCodeOf m self.old.code →
            checked (invariant_or_none (invariants_of m ps state)) t cells.old (used m ps self.old goal cell cells.old)
            ≡ telling m ps self.new cells.new) }
        ensures places { OnOk result (cells.new.places ≡ cells.old.places) }
        ensures left { OnOk result (left_of self.new < 4 * decider_left self.old + 3) }
        ensures code { OnOk result (self.new.code ≡ self.old.code) }
    {
        if !has_invariant(self.code.get(), state) {
            self.use_cell(cells, cell, goal)?;
            return Ok(());
        }
        let mut args = List::new(alloc);
        args.push(t)?;
        let decider = Decider::new(alloc, 0, args);
        self.set(Phase::Checks(state, decider, goal));
        Ok(())
    }

    // What comes of a touch.
    fn settle<F: Facts>(
        &mut self,
        alloc: Global,
        model: &Model,
        cells: &mut Cells,
        facts: &mut F,
        touched: Touched,
    ) -> Result<Option<Ask>, NoMemory>
        requires new { IsRoomy (F.pieces facts.old) (length cells.old.places) }
        requires touched { IsTouch touched self.old.phase cells.old }
        ensures turned { IfOk result (λ a. Turned model.now self.old cells.old (F.counts facts.old)
            (F.pieces facts.old) self.new cells.new (F.counts facts.new) (F.pieces facts.new)) }
        ensures comes { IfOk result (λ a. (ps : List Term) → IsCodeOf model.now self.old.code →
            ComesIf a cells.new (telling model.now ps self.new cells.new)) }
        ensures grown { IfOk result (λ a. IsGrown model.now cells.old.places (F.counts facts.old)
            (F.pieces facts.old) cells.new.places (F.counts facts.new) (F.pieces facts.new)) }
        ensures satisfied { IfOk result (λ a. KeepsAll (F.pieces facts.old) (F.satisfied facts.old)
            (F.pieces facts.new) (F.satisfied facts.new)) }
        ensures pieces { IfOk result (λ a. Extends (payloads_of (F.pieces facts.old))
            (payloads_of (F.pieces facts.new))) }
        ensures new { IfOk result (λ a. IsRoomy (F.pieces facts.new) (length cells.new.places)) }
        ensures awaits { IfOk result (λ a. AwaitsIf a self.new cells.new) }
        ensures left { IfOk result (λ a. LeftIf a (left_of self.old) (left_of self.new)) }
        ensures code { IfOk result (λ a. self.new.code ≡ self.old.code) }
    {
        match touched {
            Touched::Ask(question) => Ok(Some(Ask::Question(question))),
            Touched::Cell(cell) => {
                let touch = self.take_touch();
                self.use_cell(cells, cell, touch.goal)?;
                Ok(None)
            }
            Touched::New => {
                let touch = self.take_touch();
                let a = self.meet_new(alloc, model, cells, facts, touch)?;
                Ok(a)
            }
        }
    }

    // A touched cell is none of those that are there.
    fn meet_new<F: Facts>(
        &mut self,
        alloc: Global,
        model: &Model,
        cells: &mut Cells,
        facts: &mut F,
        touch: Touch,
    ) -> Result<Option<Ask>, NoMemory>
        requires new { IsRoomy (F.pieces facts.old) (length cells.old.places) }
        requires is_new { touched.New ≡ next_of cells.old.places (place touch.state touch.key) touch.answers }
        ensures turned { IfOk result (λ a. (ps : List Term) → IsCodeOf model.now self.old.code →
            settled model.now cells.old.places (F.counts facts.old) (F.pieces facts.old)
            (adds model.now ps self.old touch cells.old)
            ≡ settled model.now cells.new.places (F.counts facts.new) (F.pieces facts.new)
            (telling model.now ps self.new cells.new)) }
        ensures comes { IfOk result (λ a. (ps : List Term) →
            ComesIf a cells.new (telling model.now ps self.new cells.new)) }
        ensures grown { IfOk result (λ a. IsGrown model.now cells.old.places (F.counts facts.old)
            (F.pieces facts.old) cells.new.places (F.counts facts.new) (F.pieces facts.new)) }
        ensures satisfied { IfOk result (λ a. KeepsAll (F.pieces facts.old) (F.satisfied facts.old)
            (F.pieces facts.new) (F.satisfied facts.new)) }
        ensures pieces { IfOk result (λ a. Extends (payloads_of (F.pieces facts.old))
            (payloads_of (F.pieces facts.new))) }
        ensures new { IfOk result (λ a. IsRoomy (F.pieces facts.new) (length cells.new.places)) }
        ensures awaits { IfOk result (λ a. AwaitsIf a self.new cells.new) }
        ensures left { IfOk result (λ a. LeftIf a (4 * decider_left self.old + 3) (left_of self.new)) }
        ensures code { IfOk result (λ a. self.new.code ≡ self.old.code) }
    {
        if !is_declared(model, touch.state) {
            self.set(Phase::Blocked);
            return Ok(None);
        }
        if usize::from(cells.len()) >= limits::CELLS {
            self.set(Phase::Touches(touch));
            return Ok(Some(Ask::Cells));
        }
        self.add_cell(alloc, model, cells, facts, touch)?;
        Ok(None)
    }

    // The touch that the run is in.
    fn take_touch(&mut self) -> Touch
        requires touches { (x : Touch) × (self.old.phase ≡ phase.Touches x) }
        ensures touch { self.old.phase ≡ phase.Touches result }
        ensures rest { self.new ≡ record self.old { phase = phase.Blocked } }
    {
        match mem::replace(&mut self.phase, Phase::Blocked) {
            Phase::Touches(touch) => touch,
            _ => unreachable!(),
        }
    }
}

impl Run {
    // A touch begins, if the state is there.
    fn touch(&mut self, alloc: Global, model: &Model, state: u16, key: Option<Term>, goal: Use)
        ensures touched { (ps : List Term) (cells : CellTable) →
            touched_with (invariants_of model.now ps state) (place state key) cells (used model.now ps self.old goal)
            ≡ telling model.now ps self.new cells }
        ensures left { left_of self.new ≤ 4 * decider_left self.old + 3 }
        ensures code { self.new.code ≡ self.old.code }
    {
        if is_declared(model, state) {
            let answers = List::new(alloc);
            self.set(Phase::Touches(Touch {
                state,
                key,
                goal,
                answers,
            }));
        } else {
            self.set(Phase::Blocked);
        }
    }

    // What the machine has come to.
    fn reach(&mut self, alloc: Global, model: &Model, reached: Reached) -> Option<Ask>
        requires goes { self.old.phase ≡ phase.Goes }
        requires waits { Awaits reached self.old.decider }
        requires asks { AsksAt (codes_of self.old) reached self.old.decider }
        ensures turned { (ps : List Term) (cells : CellTable) →
            play (invariants_of model.now ps) self.old.order
            (reached_as (codes_of self.old) reached self.old.decider ps)
            cells ≡ telling model.now ps self.new cells }
        ensures comes { (ps : List Term) (cells : CellTable) →
            ComesIf result cells (telling model.now ps self.new cells) }
        ensures awaits { (cells : CellTable) → AwaitsIf result self.new cells }
        ensures left { (n : ℕ) → ComesDown (codes_of self.old) n reached self.old.decider →
            LeftIf result (4 * n + 1) (left_of self.new) }
        ensures code { self.new.code ≡ self.old.code }
    {
        match reached {
            Reached::Asks(question) => Some(Ask::Question(question)),
            Reached::Reads(state, key) => {
                self.touch(alloc, model, state, key, Use::Reads);
                None
            }
            Reached::Writes(state, key, t) => {
                self.touch(alloc, model, state, key, Use::Writes(t));
                None
            }
            Reached::Replies(t) => self.end(Phase::Replied(t)),
            Reached::Blocks => self.end(Phase::Blocked),
        }
    }

    // The run has ended.
    fn end(&mut self, phase: Phase) -> Option<Ask>
        ensures set { self.new ≡ record self.old { phase = phase } }
        ensures none { result ≡ None }
    {
        self.set(phase);
        None
    }
}

// A touch with one more outcome.
fn with_answer(touch: Touch, outcome: u8) -> Result<Touch, NoMemory>
    ensures { IfOk result (λ x. x ≡ record touch { answers = touch.answers ++ outcome ∷ [] }) }
{
    let mut touch = touch;
    touch.answers.push(outcome)?;
    Ok(touch)
}

impl Run {
    // The outcome that is there becomes the touch's.
    fn note(&mut self) -> Result<(), NoMemory>
        requires told { (x : Touch) × (a : ℕ) × (self.old.phase ≡ phase.Told x a) }
        ensures noted { OnOk result ((m : Tables) (ps : List Term) (cells : CellTable) →
            telling m ps self.old cells ≡ telling m ps self.new cells) }
        ensures left { OnOk result (left_of self.new < left_of self.old) }
        ensures code { OnOk result (self.new.code ≡ self.old.code) }
    {
        match mem::replace(&mut self.phase, Phase::Blocked) {
            Phase::Told(touch, outcome) => {
                let touch = with_answer(touch, outcome)?;
                self.set(Phase::Touches(touch));
                Ok(())
            }
            _ => unreachable!(),
        }
    }

    // What a new cell is used for once its invariant has replied.
    fn take_goal(&mut self) -> Use
        requires checks { (s : ℕ) × (d : Decider) × (u : Use) × (self.old.phase ≡ phase.Checks s d u) }
        ensures goal { (s : ℕ) × (d : Decider) × (self.old.phase ≡ phase.Checks s d result) }
        ensures rest { self.new ≡ record self.old { phase = phase.Blocked } }
    {
        match mem::replace(&mut self.phase, Phase::Blocked) {
            Phase::Checks(_, _, goal) => goal,
            _ => unreachable!(),
        }
    }
}

impl Run {
    // Uses the newest cell, whose invariant has replied.
    fn use_last(&mut self, cells: &mut Cells) -> Result<(), NoMemory>
        requires checks { (s : ℕ) × (d : Decider) × (u : Use) × (self.old.phase ≡ phase.Checks s d u) }
        ensures used { OnOk result ((m : Tables) (ps : List Term) (s : ℕ) (d : Decider) (u : Use) →
            self.old.phase ≡ phase.Checks s d u →
            used_last m ps self.old u (length cells.old.places) cells.old ≡ telling m ps self.new cells.new) }
        ensures places { OnOk result (cells.new.places ≡ cells.old.places) }
        ensures left { OnOk result (left_of self.new < left_of self.old) }
        ensures code { OnOk result (self.new.code ≡ self.old.code) }
    {
        let goal = self.take_goal();
        let count = cells.len();
        if count == 0 {
            self.set(Phase::Blocked);
            return Ok(());
        }
        self.use_cell(cells, count - 1, goal)?;
        Ok(())
    }

    // What the invariant of the newest cell has come to.
    fn check(&mut self, cells: &mut Cells, reached: Reached) -> Result<Option<Ask>, NoMemory>
        requires checks { IsChecking self.old reached self.old.phase }
        ensures turned { IfOk result (λ a. (m : Tables) (ps : List Term) →
            checks_as m ps self.old reached self.old.phase cells.old ≡ telling m ps self.new cells.new) }
        ensures comes { IfOk result (λ a. (m : Tables) (ps : List Term) →
            ComesIf a cells.new (telling m ps self.new cells.new)) }
        ensures places { IfOk result (λ a. cells.new.places ≡ cells.old.places) }
        ensures awaits { IfOk result (λ a. AwaitsIf a self.new cells.new) }
        ensures left { IfOk result (λ a. LeftIf a (left_of self.old) (left_of self.new)) }
        ensures code { IfOk result (λ a. self.new.code ≡ self.old.code) }
    {
        match reached {
            Reached::Asks(question) => Ok(Some(Ask::Question(question))),
            Reached::Replies(_) => {
                self.use_last(cells)?;
                Ok(None)
            }
            Reached::Reads(_, _) => Ok(self.end(Phase::Blocked)),
            Reached::Writes(_, _, _) => Ok(self.end(Phase::Blocked)),
            Reached::Blocks => Ok(self.end(Phase::Blocked)),
        }
    }
}

impl Run {
    // One turn: to what is asked, to the next phase, or to the end.
    fn turn<F: Facts>(
        &mut self,
        alloc: Global,
        model: &Model,
        cells: &mut Cells,
        facts: &mut F,
    ) -> Result<Option<Ask>, NoMemory>
        requires new { IsRoomy (F.pieces facts.old) (length cells.old.places) }
        ensures turned { IfOk result (λ a. Turned model.now self.old cells.old (F.counts facts.old)
            (F.pieces facts.old) self.new cells.new (F.counts facts.new) (F.pieces facts.new)) }
        ensures comes { IfOk result (λ a. (ps : List Term) → IsCodeOf model.now self.old.code →
            ComesIf a cells.new (telling model.now ps self.new cells.new)) }
        ensures grown { IfOk result (λ a. IsGrown model.now cells.old.places (F.counts facts.old)
            (F.pieces facts.old) cells.new.places (F.counts facts.new) (F.pieces facts.new)) }
        ensures satisfied { IfOk result (λ a. KeepsAll (F.pieces facts.old) (F.satisfied facts.old)
            (F.pieces facts.new) (F.satisfied facts.new)) }
        ensures pieces { IfOk result (λ a. Extends (payloads_of (F.pieces facts.old))
            (payloads_of (F.pieces facts.new))) }
        ensures new { IfOk result (λ a. IsRoomy (F.pieces facts.new) (length cells.new.places)) }
        ensures awaits { IfOk result (λ a. AwaitsIf a self.new cells.new) }
        ensures left { IfOk result (λ a. LeftIf a (left_of self.old) (left_of self.new)) }
        ensures code { IfOk result (λ a. self.new.code ≡ self.old.code) }
    {
        match &mut self.phase {
            Phase::Goes => {
                let a = self.go_on(alloc, model, facts)?;
                Ok(a)
            }
            Phase::Touches(touch) => {
                let answers = touch.answers.as_slice();
                let touched = cells.next_question(touch.state, touch.key.as_ref(), answers);
                let a = self.settle(alloc, model, cells, facts, touched)?;
                Ok(a)
            }
            Phase::Told(_, _) => {
                self.note()?;
                Ok(None)
            }
            Phase::Checks(state, decider, _) => {
                let code = invariant(self.code.get(), *state);
                let reached = decider.next(alloc, &[], code, facts)?;
                let a = self.check(cells, reached)?;
                Ok(a)
            }
            Phase::Replied(t) => {
                let t = t.share()?;
                Ok(Some(Ask::Reply(t)))
            }
            Phase::Blocked => Ok(Some(Ask::Blocked)),
        }
    }

    // The machine goes on.
    fn go_on<F: Facts>(
        &mut self,
        alloc: Global,
        model: &Model,
        facts: &F,
    ) -> Result<Option<Ask>, NoMemory>
        requires goes { self.old.phase ≡ phase.Goes }
        ensures turned { IfOk result (λ a. (ps : List Term) (cells : CellTable) →
            Extends (payloads_of (F.pieces facts.now)) ps →
            telling model.now ps self.old cells ≡ telling model.now ps self.new cells) }
        ensures comes { IfOk result (λ a. (ps : List Term) (cells : CellTable) →
            ComesIf a cells (telling model.now ps self.new cells)) }
        ensures awaits { IfOk result (λ a. (cells : CellTable) → AwaitsIf a self.new cells) }
        ensures left { IfOk result (λ a. LeftIf a (left_of self.old) (left_of self.new)) }
        ensures code { IfOk result (λ a. self.new.code ≡ self.old.code) }
    {
        let code = self.code.get();
        let funs = code.funs.as_slice();
        let reached = self
            .decider
            .next(alloc, funs, body(code, self.call), facts)?;
        let a = self.reach(alloc, model, reached);
        Ok(a)
    }

    /// Goes on to what is asked next, or to the end; after an end it says the same again. A new cell gets its
    /// initial term from the facts.
    ///
    /// # Errors
    /// `NoMemory` where memory runs out; the run can't go on then.
    pub fn ask<F: Facts>(
        &mut self,
        alloc: Global,
        model: &Model,
        cells: &mut Cells,
        facts: &mut F,
    ) -> Result<Ask, NoMemory>
        requires new { IsRoomy (F.pieces facts.old) (length cells.old.places) }
        ensures same { IfOk result (λ a. Turned model.now self.old cells.old (F.counts facts.old)
            (F.pieces facts.old) self.new cells.new (F.counts facts.new) (F.pieces facts.new)) }
        ensures comes { IfOk result (λ a. (ps : List Term) → IsCodeOf model.now self.old.code →
            Comes a cells.new (telling model.now ps self.new cells.new)) }
        ensures grown { IfOk result (λ a. IsGrown model.now cells.old.places (F.counts facts.old)
            (F.pieces facts.old) cells.new.places (F.counts facts.new) (F.pieces facts.new)) }
        ensures satisfied { IfOk result (λ a. KeepsAll (F.pieces facts.old) (F.satisfied facts.old)
            (F.pieces facts.new) (F.satisfied facts.new)) }
        ensures pieces { IfOk result (λ a. Extends (payloads_of (F.pieces facts.old))
            (payloads_of (F.pieces facts.new))) }
        ensures new { IfOk result (λ a. IsRoomy (F.pieces facts.new) (length cells.new.places)) }
        ensures awaits { IfOk result (λ a. running.Awaits a self.new cells.new) }
        ensures code { IfOk result (λ a. self.new.code ≡ self.old.code) }
    {
        'turns: loop {
            if let Some(a) = self.turn(alloc, model, cells, facts)? {
                return Ok(a);
            }
        }
    }
}

impl Run {
    /// A run of a call that has not begun.
    ///
    /// # Errors
    /// `NoMemory` where memory runs out.
    pub fn new(
        alloc: Global,
        model: &Model,
        call: u16,
        args: &List<Term>,
        order: Order,
    ) -> Result<Run, NoMemory>
        ensures begins { IfOk result (λ r. (ps : List Term) (cells : CellTable) →
            telling model.now ps r cells ≡ tale_of model.now call args.now order ps cells) }
        ensures code { IfOk result (λ r. IsCodeOf model.now r.code) }
    {
        let code = Code::of(alloc, model)?;
        let code = Shared::new(alloc, code)?;
        let run = Run::by(alloc, &code, call, args, order)?;
        Ok(run)
    }

    /// The same by the code of the model, which is made once for many runs.
    ///
    /// # Errors
    /// `NoMemory` where the code has as many owners as can be counted.
    pub fn by(
        alloc: Global,
        code: &Shared<Code>,
        call: u16,
        args: &List<Term>,
        order: Order,
    ) -> Result<Run, NoMemory>
        ensures begins { IfOk result (λ r. (m : Tables) → IsCodeOf m code.now → (ps : List Term) (cells : CellTable) →
            telling m ps r cells ≡ tale_of m call args.now order ps cells) }
        ensures code { IfOk result (λ r. r.code ≡ code.now) }
    {
        let code = code.share()?;
        let args = share_all(alloc, args.as_slice())?;
        let decider = Decider::new(alloc, code.get().funs.len(), args);
        Ok(Run {
            code,
            call,
            order,
            decider,
            phase: Phase::Goes,
        })
    }

    /// Takes the outcome of the question that was asked. It takes no memory.
    pub fn answer(&mut self, outcome: u8)
        requires asked { (cells : CellTable) × IsAskedWith self.old.phase self.old.decider cells }
        ensures answered { (m : Tables) (ps : List Term) (cells : CellTable) →
            IsAskedWith self.old.phase self.old.decider cells →
            telling m ps self.new cells ≡ told_after (telling m ps self.old cells) outcome }
        ensures code { self.new.code ≡ self.old.code }
    {
        match &mut self.phase {
            Phase::Goes => self.decider.answer(outcome),
            Phase::Checks(_, decider, _) => decider.answer(outcome),
            Phase::Touches(_) => self.tell_touch(outcome),
            Phase::Told(_, _) => {}
            Phase::Replied(_) => {}
            Phase::Blocked => {}
        }
    }

    // The outcome is there for the touch.
    fn tell_touch(&mut self, outcome: u8)
        requires touches { (x : Touch) × (self.old.phase ≡ phase.Touches x) }
        ensures told { (x : Touch) → self.old.phase ≡ phase.Touches x →
            self.new ≡ record self.old { phase = phase.Told x outcome } }
    {
        let touch = self.take_touch();
        self.set(Phase::Told(touch, outcome));
    }
}
