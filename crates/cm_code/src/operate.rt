//! An instruction's work on operands and locals, and what is left of it.

ghost use Rattle.std.specs.Prelude.{◌≡◌, IfOk};
ghost use Rattle.cm_code.specs.declared.instr.Instr.TheVariants as instr;
ghost use Rattle.cm_code.specs.Machine.{Operates, OnOperands, Given, Inspects, compared_by};

use crate::event::{Did, Event, Ranked, Then};
use crate::instr::Instr;
use crate::operand::Operand;
use crate::stack::{leave, pop, pop_key, pop_many, pop_two, pop_value, push};
use cm_model::{List, NoMemory, Op};
use std::alloc::Global;

fn operate_number<T: Operand + Drop>(
    n: i64,
    ops: &mut List<T>,
) -> Result<Did<T::Value, T>, NoMemory>
    ensures { IfOk result (λ d. OnOperands T.Value T T.Doing T.rules (instr.Number n) ops.old d ops.new) }
{
    push(ops, T::number(n))?;
    Ok(Did::Next)
}

fn operate_tag<T: Operand + Drop>(
    alloc: Global,
    ty: u16,
    index: u16,
    ops: &mut List<T>,
) -> Result<Did<T::Value, T>, NoMemory>
    ensures { IfOk result (λ d. OnOperands T.Value T T.Doing T.rules (instr.Tag ty index) ops.old d ops.new) }
{
    let v = T::tag(alloc, ty, index)?;
    push(ops, T::plain(v))?;
    Ok(Did::Next)
}

fn operate_flag<T: Operand + Drop>(
    alloc: Global,
    b: bool,
    ops: &mut List<T>,
) -> Result<Did<T::Value, T>, NoMemory>
    ensures { IfOk result (λ d. OnOperands T.Value T T.Doing T.rules (instr.Flag b) ops.old d ops.new) }
{
    let v = T::flag(alloc, b)?;
    push(ops, T::plain(v))?;
    Ok(Did::Next)
}

fn operate_nothing<T: Operand + Drop>(
    alloc: Global,
    ops: &mut List<T>,
) -> Result<Did<T::Value, T>, NoMemory>
    ensures { IfOk result (λ d. OnOperands T.Value T T.Doing T.rules instr.Nothing ops.old d ops.new) }
{
    let v = T::nothing(alloc)?;
    push(ops, T::plain(v))?;
    Ok(Did::Next)
}

fn operate_local<T: Operand + Drop>(
    alloc: Global,
    i: u16,
    ops: &mut List<T>,
    locals: &[T::Value],
) -> Result<Did<T::Value, T>, NoMemory>
    ensures { IfOk result (λ d.
        Operates T.Value T T.Doing T.rules (instr.Local i) ops.old locals.now d ops.new locals.now) }
{
    match locals.get(usize::from(i)) {
        Some(v) => {
            let v = T::copy(alloc, v)?;
            push(ops, T::plain(v))?;
            Ok(Did::Next)
        }
        None => Ok(Did::Stops(Event::Blocks)),
    }
}

fn operate_valued<T: Operand + Drop>(ops: &mut List<T>) -> Result<Did<T::Value, T>, NoMemory>
    ensures { IfOk result (λ d. OnOperands T.Value T T.Doing T.rules instr.Valued ops.old d ops.new) }
{
    match pop_value(ops) {
        Some(v) => {
            push(ops, T::plain(v))?;
            Ok(Did::Next)
        }
        None => Ok(Did::Stops(Event::Blocks)),
    }
}

fn operate_some<T: Operand + Drop>(
    alloc: Global,
    ops: &mut List<T>,
) -> Result<Did<T::Value, T>, NoMemory>
    ensures { IfOk result (λ d. OnOperands T.Value T T.Doing T.rules instr.Some ops.old d ops.new) }
{
    match pop_value(ops) {
        Some(v) => {
            let v = T::some(alloc, v)?;
            push(ops, T::plain(v))?;
            Ok(Did::Next)
        }
        None => Ok(Did::Stops(Event::Blocks)),
    }
}

fn operate_make<T: Operand + Drop>(
    alloc: Global,
    n: usize,
    ops: &mut List<T>,
) -> Result<Did<T::Value, T>, NoMemory>
    ensures { IfOk result (λ d. OnOperands T.Value T T.Doing T.rules (instr.Make n) ops.old d ops.new) }
{
    match pop_many(alloc, ops, n)? {
        Some(parts) => {
            let v = T::make(alloc, parts)?;
            push(ops, T::plain(v))?;
            Ok(Did::Next)
        }
        None => Ok(Did::Stops(Event::Blocks)),
    }
}

// Goes on with what there is, and is blocked where there is nothing.
fn given<T: Operand + Drop>(
    v: Option<T::Value>,
    ops: &mut List<T>,
) -> Result<Did<T::Value, T>, NoMemory>
    ensures { IfOk result (λ d. Given T.Value T T.Doing T.rules v ops.old d ops.new) }
{
    match v {
        Some(v) => {
            push(ops, T::plain(v))?;
            Ok(Did::Next)
        }
        None => Ok(Did::Stops(Event::Blocks)),
    }
}

fn operate_field<T: Operand + Drop>(
    alloc: Global,
    i: u16,
    ops: &mut List<T>,
) -> Result<Did<T::Value, T>, NoMemory>
    ensures { IfOk result (λ d. OnOperands T.Value T T.Doing T.rules (instr.Field i) ops.old d ops.new) }
{
    match pop_value(ops) {
        Some(v) => {
            let part = T::field(alloc, v, i)?;
            let did = given(part, ops)?;
            Ok(did)
        }
        None => Ok(Did::Stops(Event::Blocks)),
    }
}

fn operate_set_field<T: Operand + Drop>(
    alloc: Global,
    i: u16,
    ops: &mut List<T>,
) -> Result<Did<T::Value, T>, NoMemory>
    ensures { IfOk result (λ d. OnOperands T.Value T T.Doing T.rules (instr.SetField i) ops.old d ops.new) }
{
    let Some(w) = pop_value(ops) else {
        return Ok(Did::Stops(Event::Blocks));
    };
    let Some(v) = pop_value(ops) else {
        return Ok(Did::Stops(Event::Blocks));
    };
    let with = T::with_field(alloc, v, i, w)?;
    let did = given(with, ops)?;
    Ok(did)
}

fn operate_shift<T: Operand + Drop>(
    by: i64,
    ops: &mut List<T>,
) -> Result<Did<T::Value, T>, NoMemory>
    ensures { IfOk result (λ d. OnOperands T.Value T T.Doing T.rules (instr.Shift by) ops.old d ops.new) }
{
    match pop(ops) {
        Some(o) => match o.shift(by)? {
            Some(sum) => {
                push(ops, sum)?;
                Ok(Did::Next)
            }
            None => Ok(Did::Stops(Event::Blocks)),
        },
        None => Ok(Did::Stops(Event::Blocks)),
    }
}

fn operate_into<T: Operand + Drop>(lo: i64, hi: i64, ops: &mut List<T>) -> Did<T::Value, T>
    ensures { OnOperands T.Value T T.Doing T.rules (instr.Into lo hi) ops.old result ops.new }
{
    match pop(ops) {
        Some(of) => Did::Stops(Event::Into { lo, hi, of }),
        None => Did::Stops(Event::Blocks),
    }
}

// What is compared, by one of the six comparisons.
fn comparison<V: Drop, T: Drop>(op: Op, x: T, y: T) -> Event<V, T>
    ensures { result ≡ compared_by op x y }
{
    match op {
        Op::Eq => Event::Compares(x, y, Then::Flag),
        Op::Ne => Event::Compares(x, y, Then::Not),
        Op::Lt => Event::Orders(x, y, Ranked::Less),
        Op::Le => Event::Orders(x, y, Ranked::NotMore),
        Op::Gt => Event::Orders(x, y, Ranked::More),
        Op::Ge => Event::Orders(x, y, Ranked::NotLess),
    }
}

fn operate_compare<T: Operand + Drop>(op: Op, ops: &mut List<T>) -> Did<T::Value, T>
    ensures { OnOperands T.Value T T.Doing T.rules (instr.Compare op) ops.old result ops.new }
{
    match pop_two(ops) {
        Some((x, y)) => Did::Stops(comparison(op, x, y)),
        None => Did::Stops(Event::Blocks),
    }
}

// A bool is inspected.
fn inspect<T: Operand + Drop>(then: Then, ops: &mut List<T>) -> Did<T::Value, T>
    ensures { Inspects T.Value T T.Doing T.rules then ops.old result ops.new }
{
    match pop(ops) {
        Some(o) => Did::Stops(Event::Inspects(o, then)),
        None => Did::Stops(Event::Blocks),
    }
}

fn operate_read<T: Operand + Drop>(state: u16, keyed: bool, ops: &mut List<T>) -> Did<T::Value, T>
    ensures { OnOperands T.Value T T.Doing T.rules (instr.Read state keyed) ops.old result ops.new }
{
    match pop_key(ops, keyed) {
        Some(key) => Did::Stops(Event::Reads(state, key)),
        None => Did::Stops(Event::Blocks),
    }
}

fn operate_write<T: Operand + Drop>(state: u16, keyed: bool, ops: &mut List<T>) -> Did<T::Value, T>
    ensures { OnOperands T.Value T T.Doing T.rules (instr.Write state keyed) ops.old result ops.new }
{
    let Some(v) = pop_value(ops) else {
        return Did::Stops(Event::Blocks);
    };
    let Some(key) = pop_key(ops, keyed) else {
        return Did::Stops(Event::Blocks);
    };
    Did::Stops(Event::Writes(state, key, v))
}

fn operate_apply<T: Operand + Drop>(
    alloc: Global,
    fun: u16,
    args: usize,
    ops: &mut List<T>,
) -> Result<Did<T::Value, T>, NoMemory>
    ensures { IfOk result (λ d. OnOperands T.Value T T.Doing T.rules (instr.Apply fun args) ops.old d ops.new) }
{
    match pop_many(alloc, ops, args)? {
        Some(args) => Ok(Did::Calls(fun, args)),
        None => Ok(Did::Stops(Event::Blocks)),
    }
}

fn operate_let<T: Operand + Drop>(
    ops: &mut List<T>,
    locals: &mut List<T::Value>,
) -> Result<Did<T::Value, T>, NoMemory>
    ensures { IfOk result (λ d. Operates T.Value T T.Doing T.rules instr.Let ops.old locals.old d ops.new locals.new) }
{
    match pop_value(ops) {
        Some(v) => {
            locals.push(v)?;
            Ok(Did::Next)
        }
        None => Ok(Did::Stops(Event::Blocks)),
    }
}

fn operate_open<T: Operand + Drop>(n: u32, ops: &mut List<T>) -> Did<T::Value, T>
    ensures { OnOperands T.Value T T.Doing T.rules (instr.Open n) ops.old result ops.new }
{
    match pop_value(ops) {
        Some(v) => Did::Stops(Event::Opens(v, n)),
        None => Did::Stops(Event::Blocks),
    }
}

fn operate_return<T: Operand + Drop>(ops: &mut List<T>) -> Did<T::Value, T>
    ensures { OnOperands T.Value T T.Doing T.rules instr.Return ops.old result ops.new }
{
    match pop_value(ops) {
        Some(v) => Did::Returns(v),
        None => Did::Stops(Event::Blocks),
    }
}

// Does an instruction, as far as it is about operands and locals.
pub(crate) fn operate<T: Operand + Drop>(
    alloc: Global,
    i: &Instr,
    ops: &mut List<T>,
    locals: &mut List<T::Value>,
) -> Result<Did<T::Value, T>, NoMemory>
    ensures { IfOk result (λ d. Operates T.Value T T.Doing T.rules i.now ops.old locals.old d ops.new locals.new) }
{
    match i {
        Instr::Number(n) => operate_number(*n, ops),
        Instr::Tag { ty, index } => operate_tag(alloc, *ty, *index, ops),
        Instr::Flag(b) => operate_flag(alloc, *b, ops),
        Instr::Nothing => operate_nothing(alloc, ops),
        Instr::Local(k) => operate_local(alloc, *k, ops, locals.as_slice()),
        Instr::Valued => operate_valued(ops),
        Instr::Some => operate_some(alloc, ops),
        Instr::Make(n) => operate_make(alloc, *n, ops),
        Instr::Field(k) => operate_field(alloc, *k, ops),
        Instr::SetField(k) => operate_set_field(alloc, *k, ops),
        Instr::Shift(by) => operate_shift(*by, ops),
        Instr::Into { lo, hi } => Ok(operate_into(*lo, *hi, ops)),
        Instr::Compare(op) => Ok(operate_compare(*op, ops)),
        Instr::Not => Ok(inspect(Then::Not, ops)),
        Instr::Unless(n) => Ok(inspect(Then::Unless(*n), ops)),
        Instr::When(n) => Ok(inspect(Then::When(*n), ops)),
        Instr::Jump(n) => Ok(Did::Over(*n)),
        Instr::Read { state, keyed } => Ok(operate_read(*state, *keyed, ops)),
        Instr::Apply { fun, args } => operate_apply(alloc, *fun, *args, ops),
        Instr::Let => operate_let(ops, locals),
        Instr::Leave(n) => {
            leave(locals, *n);
            Ok(Did::Next)
        }
        Instr::Write { state, keyed } => Ok(operate_write(*state, *keyed, ops)),
        Instr::Open(n) => Ok(operate_open(*n, ops)),
        Instr::Assume => Ok(inspect(Then::Assume, ops)),
        Instr::Return => Ok(operate_return(ops)),
        Instr::Block => Ok(Did::Stops(Event::Blocks)),
    }
}
