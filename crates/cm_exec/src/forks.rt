//! Copies of runs, which share all terms with their origin.

ghost use Rattle.std.specs.Prelude.{◌≡◌, IfOk};
ghost use Rattle.cm_exec.specs.declared.run.Phase.TheVariants as phase;

use crate::decider::{Decider, Decision, Waits};
use crate::operand::Operand;
use crate::run::{Phase, Run, Touch, Use};
use cm_code::{Frame, Machine};
use cm_model::{List, NoMemory};
use cm_term::{Term, share_all};
use std::alloc::Global;

impl Operand {
    fn share(&self) -> Result<Operand, NoMemory>
        ensures { IfOk result (λ o. o ≡ self.now) }
    {
        match self {
            Operand::Number(a) => Ok(Operand::Number(*a)),
            Operand::Plain(t) => {
                let t = t.share()?;
                Ok(Operand::Plain(t))
            }
        }
    }
}

fn copied_operands(alloc: Global, operands: &[Operand]) -> Result<List<Operand>, NoMemory>
    ensures { IfOk result (λ copy. copy ≡ operands.now) }
{
    let mut copy = Vec::with_capacity(alloc, operands.len())?;
    for operand in operands {
        copy.push(operand.share()?)?;
    }
    Ok(List::from_vec(copy))
}

fn copied_frame(
    alloc: Global,
    frame: &Frame<Term, Operand>,
) -> Result<Frame<Term, Operand>, NoMemory>
    ensures { IfOk result (λ f. f ≡ frame.now) }
{
    let operands = copied_operands(alloc, frame.operands.as_slice())?;
    let locals = share_all(alloc, frame.locals.as_slice())?;
    Ok(Frame {
        fun: frame.fun,
        at: frame.at,
        operands,
        locals,
    })
}

fn copied_callers(
    alloc: Global,
    frames: &[Frame<Term, Operand>],
) -> Result<List<Frame<Term, Operand>>, NoMemory>
    ensures { IfOk result (λ copy. copy ≡ frames.now) }
{
    let mut copy = Vec::with_capacity(alloc, frames.len())?;
    for frame in frames {
        copy.push(copied_frame(alloc, frame)?)?;
    }
    Ok(List::from_vec(copy))
}

fn copied_machine(
    alloc: Global,
    m: &Machine<Term, Operand>,
) -> Result<Machine<Term, Operand>, NoMemory>
    ensures { IfOk result (λ copy. copy ≡ m.now) }
{
    let top = copied_frame(alloc, &m.top)?;
    let callers = copied_callers(alloc, m.callers.as_slice())?;
    Ok(Machine { top, callers })
}

impl Decision {
    fn share(&self) -> Result<Decision, NoMemory>
        ensures { IfOk result (λ x. x ≡ self.now) }
    {
        match self {
            Decision::Bool(a, then) => Ok(Decision::Bool(*a, *then)),
            Decision::Equality(a, b, then) => Ok(Decision::Equality(*a, *b, *then)),
            Decision::Order(a, b, ranked) => Ok(Decision::Order(*a, *b, *ranked)),
            Decision::Range(lo, hi, a) => Ok(Decision::Range(*lo, *hi, *a)),
            Decision::Presence(o, t, over) => {
                let t = t.share()?;
                Ok(Decision::Presence(*o, t, *over))
            }
        }
    }
}

impl Waits {
    fn try_copy(&self, alloc: Global) -> Result<Waits, NoMemory>
        ensures { IfOk result (λ copy. copy ≡ self.now) }
    {
        match self {
            Waits::Nothing => Ok(Waits::Nothing),
            Waits::Asked(decision) => {
                let decision = decision.share()?;
                Ok(Waits::Asked(decision))
            }
            Waits::Answered(decision, outcome) => {
                let decision = decision.share()?;
                Ok(Waits::Answered(decision, *outcome))
            }
            Waits::Comparing(comparison, then) => {
                let comparison = comparison.try_copy(alloc)?;
                Ok(Waits::Comparing(comparison, *then))
            }
        }
    }
}

impl Decider {
    fn try_copy(&self, alloc: Global) -> Result<Decider, NoMemory>
        ensures { IfOk result (λ copy. copy ≡ self.now) }
    {
        let machine = copied_machine(alloc, &self.machine)?;
        let waits = self.waits.try_copy(alloc)?;
        Ok(Decider { machine, waits })
    }
}

impl Use {
    fn share(&self) -> Result<Use, NoMemory>
        ensures { IfOk result (λ u. u ≡ self.now) }
    {
        match self {
            Use::Reads => Ok(Use::Reads),
            Use::Writes(t) => {
                let t = t.share()?;
                Ok(Use::Writes(t))
            }
        }
    }
}

fn shared_key(key: &Option<Term>) -> Result<Option<Term>, NoMemory>
    ensures { IfOk result (λ copy. copy ≡ key.now) }
{
    match key {
        Some(t) => {
            let t = t.share()?;
            Ok(Some(t))
        }
        None => Ok(None),
    }
}

impl Touch {
    fn try_copy(&self, alloc: Global) -> Result<Touch, NoMemory>
        ensures { IfOk result (λ copy. copy ≡ self.now) }
    {
        let key = shared_key(&self.key)?;
        let goal = self.goal.share()?;
        let answers = Vec::from_slice(alloc, self.answers.as_slice())?;
        Ok(Touch {
            state: self.state,
            key,
            goal,
            answers: List::from_vec(answers),
        })
    }
}

impl Phase {
    fn try_copy(&self, alloc: Global) -> Result<Phase, NoMemory>
        ensures { IfOk result (λ copy. copy ≡ self.now) }
    {
        match self {
            Phase::Goes => Ok(Phase::Goes),
            Phase::Touches(touch) => {
                let touch = touch.try_copy(alloc)?;
                Ok(Phase::Touches(touch))
            }
            Phase::Told(touch, outcome) => {
                let touch = touch.try_copy(alloc)?;
                Ok(Phase::Told(touch, *outcome))
            }
            Phase::Checks(state, decider, goal) => copied_check(alloc, *state, decider, goal),
            Phase::Replied(t) => {
                let t = t.share()?;
                Ok(Phase::Replied(t))
            }
            Phase::Blocked => Ok(Phase::Blocked),
        }
    }
}

fn copied_check(alloc: Global, state: u16, decider: &Decider, goal: &Use) -> Result<Phase, NoMemory>
    ensures { IfOk result (λ copy. copy ≡ phase.Checks state decider.now goal.now) }
{
    let decider = decider.try_copy(alloc)?;
    let goal = goal.share()?;
    Ok(Phase::Checks(state, decider, goal))
}

impl Run {
    /// An equal run, which shares all terms.
    ///
    /// # Errors
    /// `NoMemory` where memory runs out.
    pub fn try_copy(&self, alloc: Global) -> Result<Run, NoMemory>
        ensures equal { IfOk result (λ copy. copy ≡ self.now) }
    {
        let code = self.code.share()?;
        let decider = self.decider.try_copy(alloc)?;
        let phase = self.phase.try_copy(alloc)?;
        Ok(Run {
            code,
            call: self.call,
            order: self.order,
            decider,
            phase,
        })
    }
}
