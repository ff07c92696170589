//! Both orders of a pair of calls.

ghost use Rattle.std.specs.Prelude.{◌≡◌, [], IfOk};
ghost use Rattle.cm_model.specs.Tables.{Tables};
ghost use Rattle.cm_eval.specs.Compiled.{IsCodeOf};
ghost use Rattle.cm_eval.specs.Run.{evaluation_of};
ghost use Rattle.cm_eval.specs.Ended.{touched_of};
ghost use Rattle.cm_world.specs.Order.{Invocation, invocation, run_of_order, second_ended, call_a, call_b, ba_ended};
ghost use Rattle.cm_world.specs.Order.{both_orders, nothing_touched};
ghost use Rattle.cm_world.specs.inner.Ran.{order_end, both_end};

use crate::World;
use cm_eval::{Args, Code, Log, Outcome, State, run_call_by};
use cm_model::{NoMemory, Pair};
use cm_value::Value;
use std::alloc::Global;

/// A call by its number, with its arguments.
#[derive(Clone, Copy)]
pub struct Calling<'a> {
    pub call: u16,
    pub args: &'a Args,
}

/// How one order ended.
#[derive(Drop)]
pub enum OneOrder {
    /// Both calls replied.
    Replied {
        first: Value,
        second: Value,
        state: State,
    },
    /// One of the calls was blocked.
    Blocked,
}

/// What both orders left: each call's reply in ab and in ba, and the final state of each order.
#[derive(Drop)]
pub struct Outcomes {
    pub a_in_ab: Value,
    pub a_in_ba: Value,
    pub b_in_ab: Value,
    pub b_in_ba: Value,
    pub after_ab: State,
    pub after_ba: State,
}

/// How both orders ended.
#[derive(Drop)]
pub enum BothOrders {
    /// Each call replied in both.
    Replied(Outcomes),
    /// One of the calls was blocked in one of them.
    Blocked,
}

/// Runs ab and then ba, each on the initial state. The log of ab goes on through ba.
pub fn run_both(
    alloc: Global,
    code: &Code,
    pair: Pair,
    world: &World,
    log: &mut Log,
) -> Result<BothOrders, NoMemory>
    requires untouched { touched_of log.old ≡ nothing_touched }
    requires undecided { log.old.steps ≡ [] }
    ensures both { IfOk result (λ r. (t : Tables) → IsCodeOf t code.now → both_orders t pair world.now
        ≡ both_end r log.new) }
{
    let a = Calling {
        call: pair.a,
        args: &world.a,
    };
    let b = Calling {
        call: pair.b,
        args: &world.b,
    };
    match run_order(alloc, code, a, b, &world.init, log)? {
        OneOrder::Replied {
            first,
            second,
            state,
        } => {
            let r = run_ba(alloc, code, pair, world, first, second, state, log)?;
            Ok(r)
        }
        OneOrder::Blocked => Ok(BothOrders::Blocked),
    }
}

// Runs ba, after ab has left these replies and this state.
fn run_ba(
    alloc: Global,
    code: &Code,
    pair: Pair,
    world: &World,
    a: Value,
    b: Value,
    state: State,
    log: &mut Log,
) -> Result<BothOrders, NoMemory>
    ensures both { IfOk result (λ r. (t : Tables) → IsCodeOf t code.now
        → ba_ended a b state (run_of_order t (call_b pair world.now) (call_a pair world.now) world.now.init
        (touched_of log.old) log.old.steps) ≡ both_end r log.new) }
{
    let first = Calling {
        call: pair.b,
        args: &world.b,
    };
    let second = Calling {
        call: pair.a,
        args: &world.a,
    };
    match run_order(alloc, code, first, second, &world.init, log)? {
        OneOrder::Replied {
            first: b_in_ba,
            second: a_in_ba,
            state: after_ba,
        } => Ok(BothOrders::Replied(Outcomes {
            a_in_ab: a,
            a_in_ba,
            b_in_ab: b,
            b_in_ba,
            after_ab: state,
            after_ba,
        })),
        OneOrder::Blocked => Ok(BothOrders::Blocked),
    }
}

// Runs one call on the initial state, and the other on the state that it leaves.
fn run_order(
    alloc: Global,
    code: &Code,
    first: Calling,
    second: Calling,
    init: &State,
    log: &mut Log,
) -> Result<OneOrder, NoMemory>
    ensures order { IfOk result (λ o. (t : Tables) → IsCodeOf t code.now
        → run_of_order t (invocation first.entry.call first.entry.args.now.vals)
        (invocation second.entry.call second.entry.args.now.vals) init.now (touched_of log.old) log.old.steps
        ≡ order_end o log.new) }
{
    let mut state = init.try_copy(alloc)?;
    match run_call_by(alloc, code, first.call, first.args, &mut state, log)? {
        Outcome::Reply(reply) => {
            let r = run_second(alloc, code, second, reply, state, log)?;
            Ok(r)
        }
        Outcome::Blocked => Ok(OneOrder::Blocked),
    }
}

// Runs the second call of an order, after the first left this reply and this state.
fn run_second(
    alloc: Global,
    code: &Code,
    second: Calling,
    first: Value,
    state: State,
    log: &mut Log,
) -> Result<OneOrder, NoMemory>
    ensures order { IfOk result (λ o. (t : Tables) → IsCodeOf t code.now
        → second_ended first (evaluation_of t second.entry.call second.entry.args.now.vals state
        (touched_of log.old) log.old.steps) ≡ order_end o log.new) }
{
    let mut state = state;
    match run_call_by(alloc, code, second.call, second.args, &mut state, log)? {
        Outcome::Reply(second) => Ok(OneOrder::Replied {
            first,
            second,
            state,
        }),
        Outcome::Blocked => Ok(OneOrder::Blocked),
    }
}
