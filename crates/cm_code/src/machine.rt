//! The machine: it goes to the next event of a run.

ghost use Rattle.std.specs.Prelude.{◌≡◌, ◌≤◌, ◌+◌, List, [], length, slice_get, Some, IfOk, OnOk};
ghost use Rattle.std.specs.Prelude.{if◌then◌else◌};
ghost use Rattle.cm_code.specs.declared.instr.Instr.{Instr};
ghost use Rattle.cm_code.specs.declared.event.Did.TheVariants as did;
ghost use Rattle.cm_code.specs.Code.{code_meaning, codes_from};
ghost use Rattle.cm_code.specs.Machine.{code_at, with_body, script, told, ranked_in};
ghost use Rattle.cm_code.specs.Machine.{opened_in, handed, event_of, stepped, did_in};
ghost use Rattle.cm_code.specs.Steps.{steps_left, steps_before, Falls};

use crate::event::{Did, Event, Frame, Machine, Ranked, Then};
use crate::instr::Instr;
use crate::operand::Operand;
use crate::operate::operate;
use crate::stack::push;
use cm_model::{List, NoMemory};
use std::alloc::Global;
use std::mem;

/// A body at its start, over so many functions.
pub fn start<T: Operand + Drop>(
    alloc: Global,
    funs: usize,
    args: List<T::Value>,
) -> Machine<T::Value, T>
    ensures body { (codes : List (List Instr)) (body : List Instr) → length codes ≡ funs →
        script T.Value T T.Doing T.rules (with_body codes body) result
        ≡ code_meaning T.Value T T.Doing T.rules (codes_from T.Value T T.Doing T.rules [] codes) body args
        T.rules.replies }
{
    Machine {
        top: Frame {
            fun: funs,
            at: 0,
            operands: List::new(alloc),
            locals: args,
        },
        callers: List::new(alloc),
    }
}

/// Goes on where a value was waited for.
pub fn hand<T: Operand + Drop>(m: &mut Machine<T::Value, T>, v: T::Value) -> Result<(), NoMemory>
    ensures means { OnOk result ((codes : List (List Instr)) →
        handed T.Value T T.Doing T.rules codes m.old v ≡ script T.Value T T.Doing T.rules codes m.new) }
    ensures left { OnOk result ((codes : List (List Instr)) → steps_left codes m.new ≤ steps_left codes m.old) }
{
    push(&mut m.top.operands, T::plain(v))
}

// Goes on with a bool as the topmost operand.
fn hand_flag<T: Operand + Drop>(
    alloc: Global,
    m: &mut Machine<T::Value, T>,
    b: bool,
) -> Result<(), NoMemory>
    ensures means { OnOk result ((codes : List (List Instr)) →
        handed T.Value T T.Doing T.rules codes m.old (T.rules.flag b)
        ≡ script T.Value T T.Doing T.rules codes m.new) }
    ensures left { OnOk result ((codes : List (List Instr)) → steps_left codes m.new ≤ steps_left codes m.old) }
{
    let v = T::flag(alloc, b)?;
    hand(m, v)
}

/// Goes on where a bool was waited for, or is blocked.
pub fn tell<T: Operand + Drop>(
    alloc: Global,
    m: &mut Machine<T::Value, T>,
    wanted: Then,
    b: bool,
) -> Result<bool, NoMemory>
    ensures means { IfOk result (λ on. (codes : List (List Instr)) →
        told T.Value T T.Doing T.rules codes m.old wanted b
        ≡ (if on then script T.Value T T.Doing T.rules codes m.new else T.rules.blocks)) }
    ensures left { OnOk result ((codes : List (List Instr)) → steps_left codes m.new ≤ steps_left codes m.old) }
{
    match wanted {
        Then::Flag => {
            hand_flag(alloc, m, b)?;
            Ok(true)
        }
        Then::Not => {
            hand_flag(alloc, m, !b)?;
            Ok(true)
        }
        Then::Unless(n) => {
            if !b {
                jump(&mut m.top.at, n)?;
            }
            Ok(true)
        }
        Then::When(n) => {
            if b {
                jump(&mut m.top.at, n)?;
            }
            Ok(true)
        }
        Then::Assume => Ok(b),
    }
}

/// Goes on where an order was waited for: 0 less, 1 equal, 2 greater.
pub fn rank<T: Operand + Drop>(
    alloc: Global,
    m: &mut Machine<T::Value, T>,
    ranked: Ranked,
    order: u8,
) -> Result<(), NoMemory>
    ensures means { OnOk result ((codes : List (List Instr)) →
        ranked_in T.Value T T.Doing T.rules codes m.old ranked order ≡ script T.Value T T.Doing T.rules codes m.new) }
    ensures left { OnOk result ((codes : List (List Instr)) → steps_left codes m.new ≤ steps_left codes m.old) }
{
    match ranked {
        Ranked::Less => hand_flag(alloc, m, order == 0),
        Ranked::NotMore => hand_flag(alloc, m, !(order == 2)),
        Ranked::More => hand_flag(alloc, m, order == 2),
        Ranked::NotLess => hand_flag(alloc, m, !(order == 0)),
    }
}

/// Goes on where an option's payload was waited for, which is missing in a none.
pub fn open<T: Operand + Drop>(
    m: &mut Machine<T::Value, T>,
    over: u32,
    payload: Option<T::Value>,
) -> Result<(), NoMemory>
    ensures means { OnOk result ((codes : List (List Instr)) →
        opened_in T.Value T T.Doing T.rules codes m.old over payload ≡ script T.Value T T.Doing T.rules codes m.new) }
    ensures left { OnOk result ((codes : List (List Instr)) → steps_left codes m.new ≤ steps_left codes m.old) }
{
    match payload {
        Some(v) => {
            m.top.locals.push(v)?;
            Ok(())
        }
        None => {
            jump(&mut m.top.at, over)?;
            Ok(())
        }
    }
}

// No code is so long that this is past what a machine counts.
fn jump(at: &mut usize, n: u32) -> Result<(), NoMemory>
    ensures { OnOk result (at.new ≡ at.old + n) }
{
    match at.checked_add(n as usize) {
        Some(to) => {
            *at = to;
            Ok(())
        }
        None => Err(NoMemory),
    }
}

// The instruction at a place of a code, by the code's number: the functions' come first, and then the body's.
fn instr_at(funs: &[List<Instr>], body: &[Instr], f: usize, at: usize) -> Option<Instr>
    ensures { result ≡ slice_get (code_at (with_body funs.now body.now) f) at }
{
    match funs.get(f) {
        Some(code) => copied(code.as_slice(), at),
        None => {
            if f == funs.len() {
                copied(body, at)
            } else {
                None
            }
        }
    }
}

// The instruction at a place of one code.
fn copied(code: &[Instr], at: usize) -> Option<Instr>
    ensures { result ≡ slice_get code.now at }
{
    match code.get(at) {
        Some(i) => Some(*i),
        None => None,
    }
}

// A function is called, which is one before the caller's.
fn call<T: Operand + Drop>(
    alloc: Global,
    funs: &[List<Instr>],
    m: &mut Machine<T::Value, T>,
    f: u16,
    args: List<T::Value>,
) -> Result<Option<Event<T::Value, T>>, NoMemory>
    ensures means { IfOk result (λ e. (body : List Instr) →
        did_in T.Value T T.Doing T.rules (with_body funs.now body) (did.Calls f args) m.old
        ≡ stepped T.Value T T.Doing T.rules (with_body funs.now body) e m.new) }
    ensures left { IfOk result (λ e. (body : List Instr) →
        Falls (with_body funs.now body)
        (1 + steps_before (with_body funs.now body) m.old.top.fun + steps_left (with_body funs.now body) m.old)
        e m.new) }
{
    let fun = usize::from(f);
    if fun >= m.top.fun || fun > funs.len() {
        return Ok(Some(Event::Blocks));
    }
    let callee = Frame {
        fun,
        at: 0,
        operands: List::new(alloc),
        locals: args,
    };
    let caller = mem::replace(&mut m.top, callee);
    m.callers.push(caller)?;
    Ok(None)
}

// A return to the innermost caller.
fn give_back<T: Operand + Drop>(
    m: &mut Machine<T::Value, T>,
    v: T::Value,
) -> Result<Option<Event<T::Value, T>>, NoMemory>
    ensures means { IfOk result (λ e. (codes : List (List Instr)) →
        did_in T.Value T T.Doing T.rules codes (did.Returns v) m.old
        ≡ stepped T.Value T T.Doing T.rules codes e m.new) }
    ensures left { IfOk result (λ e. (codes : List (List Instr)) → Falls codes (1 + steps_left codes m.old) e m.new) }
{
    match m.callers.pop() {
        Some(caller) => {
            m.top = caller;
            push(&mut m.top.operands, T::plain(v))?;
            Ok(None)
        }
        None => Ok(Some(Event::Replies(v))),
    }
}

// Does what is left of an instruction, where the machine stands behind it.
fn follow<T: Operand + Drop>(
    alloc: Global,
    funs: &[List<Instr>],
    m: &mut Machine<T::Value, T>,
    d: Did<T::Value, T>,
) -> Result<Option<Event<T::Value, T>>, NoMemory>
    ensures means { IfOk result (λ e. (body : List Instr) →
        did_in T.Value T T.Doing T.rules (with_body funs.now body) d m.old
        ≡ stepped T.Value T T.Doing T.rules (with_body funs.now body) e m.new) }
    ensures left { IfOk result (λ e. (body : List Instr) →
        Falls (with_body funs.now body)
        (1 + steps_before (with_body funs.now body) m.old.top.fun + steps_left (with_body funs.now body) m.old)
        e m.new) }
{
    match d {
        Did::Next => Ok(None),
        Did::Over(n) => {
            jump(&mut m.top.at, n)?;
            Ok(None)
        }
        Did::Stops(event) => Ok(Some(event)),
        Did::Calls(f, args) => call(alloc, funs, m, f, args),
        Did::Returns(v) => give_back(m, v),
    }
}

// One instruction.
fn step<T: Operand + Drop>(
    alloc: Global,
    funs: &[List<Instr>],
    body: &[Instr],
    m: &mut Machine<T::Value, T>,
) -> Result<Option<Event<T::Value, T>>, NoMemory>
    ensures means { IfOk result (λ e.
        script T.Value T T.Doing T.rules (with_body funs.now body.now) m.old
        ≡ stepped T.Value T T.Doing T.rules (with_body funs.now body.now) e m.new) }
    ensures left { IfOk result (λ e.
        Falls (with_body funs.now body.now) (steps_left (with_body funs.now body.now) m.old) e m.new) }
{
    match instr_at(funs, body, m.top.fun, m.top.at) {
        Some(i) => {
            let d = operate(alloc, &i, &mut m.top.operands, &mut m.top.locals)?;
            jump(&mut m.top.at, 1)?;
            let e = follow(alloc, funs, m, d)?;
            Ok(e)
        }
        None => Ok(Some(Event::Blocks)),
    }
}

/// Goes on to what is inspected, compared, read, written or replied next.
pub fn go<T: Operand + Drop>(
    alloc: Global,
    funs: &[List<Instr>],
    body: &[Instr],
    m: &mut Machine<T::Value, T>,
) -> Result<Event<T::Value, T>, NoMemory>
    ensures means { IfOk result (λ e.
        script T.Value T T.Doing T.rules (with_body funs.now body.now) m.old
        ≡ event_of T.Value T T.Doing T.rules (with_body funs.now body.now) e m.new) }
    ensures left { IfOk result (λ e.
        Falls (with_body funs.now body.now) (steps_left (with_body funs.now body.now) m.old) (Some e) m.new) }
{
    'steps: loop {
        if let Some(e) = step(alloc, funs, body, m)? {
            return Ok(e);
        }
    }
}
