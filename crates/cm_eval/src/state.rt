//! States: defaults and exceptions.

ghost use Rattle.std.specs.Prelude.{◌≡◌, ◌<◌, ◌≤◌, ℕ, length, slice_get, Some, IfOk, IfSome, OnOk, OnErr, IsTrue};
ghost use Rattle.std.specs.Prelude.{option_copied, MatchOption, drop, List};
ghost use Rattle.cm_value.specs.declared.value.Value.{Value};
ghost use Rattle.cm_eval.specs.Evaluation.{named};
ghost use Rattle.cm_eval.specs.State.{Store, store, look_up, put, least_store, same_cell, same_value, exception_of};
ghost use Rattle.cm_eval.specs.inner.Places.{Finds};

use crate::log::{CellName, copy_cell};
use cm_model::{List, Model, NoMemory, StateDecl};
use cm_value::{Vals, Value, copy_value, copy_values, least, same};
use std::alloc::Global;

/// A cell whose value is not its state's default.
#[derive(Drop)]
pub struct Except {
    pub cell: CellName,
    pub value: Value,
}

/// A state of a model: a default for each declared state, and exceptions. Contracts see it as a `Store`.
#[derive(Drop)]
pub struct State {
    defaults: Vals,
    exceptions: List<Except>,
}

impl std::marker::Model for State {
    ghost use Rattle.cm_eval.specs.State.{Store, store};
    ghost use Rattle.cm_eval.specs.StoreCode.{store_code};

    ghost Value = { Store };

    ghost coded = { store_code };

    ghost view = { λ s. store s.defaults s.exceptions };
}

impl State {
    /// The state with these defaults, in the order of the declared states, and these exceptions, of which the first one
    /// of a cell counts.
    pub fn new(defaults: Vals, exceptions: List<Except>) -> State
        ensures state { result ≡ store defaults exceptions }
    {
        State {
            defaults,
            exceptions,
        }
    }

    /// The state in which each cell has the least value of its type.
    pub fn least(alloc: Global, model: &Model) -> Result<State, NoMemory>
        ensures least { IfOk result (λ state. state ≡ least_store model.now) }
    {
        let defaults = least_values(alloc, model, model.states().as_slice())?;
        Ok(State {
            defaults,
            exceptions: List::new(alloc),
        })
    }

    // The value of a cell, if its state is there.
    pub(crate) fn value(&self, state: u16, key: Option<&Value>) -> Option<&Value>
        ensures value { option_copied result ≡ look_up self.now (named state (option_copied key.entry)) }
    {
        match find(self.exceptions.as_slice(), state, key) {
            Some(at) => Some(&self.exceptions.as_slice()[at].value),
            None => self.defaults.get(usize::from(state)),
        }
    }

    /// The value of a cell.
    pub fn get(&self, state: u16, key: Option<&Value>) -> &Value
        requires state { state < length self.now.defaults }
        ensures value { look_up self.now (named state (option_copied key.entry)) ≡ Some result.now }
    {
        let Some(value) = self.value(state, key) else {
            unreachable!()
        };
        value
    }

    /// Gives a cell another value. Where the cell is named already it keeps its place, else it comes last.
    /// At `NoMemory` the state is as it was.
    pub fn set(&mut self, state: u16, key: Option<Value>, v: Value) -> Result<(), NoMemory>
        ensures ok { OnOk result (self.new ≡ put self.old (named state key) v) }
        ensures err { OnErr result (self.new ≡ self.old) }
    {
        let at = find(self.exceptions.as_slice(), state, key.as_ref());
        let exception = Except {
            cell: CellName { state, key },
            value: v,
        };
        match at {
            Some(at) => {
                self.exceptions.set(at, exception);
                Ok(())
            }
            None => {
                self.exceptions.push(exception)?;
                Ok(())
            }
        }
    }

    /// An equal state.
    pub fn try_copy(&self, alloc: Global) -> Result<State, NoMemory>
        ensures equal { IfOk result (λ copy. copy ≡ self.now) }
    {
        let defaults = copy_values(alloc, self.defaults.as_slice())?;
        let exceptions = copy_exceptions(alloc, self.exceptions.as_slice())?;
        Ok(State {
            defaults,
            exceptions,
        })
    }

    /// The default of each declared state, in their order.
    pub fn defaults(&self) -> &[Value]
        ensures defaults { result.now ≡ self.now.defaults }
    {
        self.defaults.as_slice()
    }

    /// The exceptions, in the order in which their cells were named.
    pub fn exceptions(&self) -> &[Except]
        ensures exceptions { result.now ≡ self.now.exceptions }
    {
        self.exceptions.as_slice()
    }

    /// The number of exceptions.
    pub fn len(&self) -> usize
        ensures count { result ≡ length self.now.exceptions }
    {
        self.exceptions.len()
    }

    /// An exception by its place in the list.
    pub fn at(&self, n: usize) -> &Except
        requires within { n < length self.now.exceptions }
        ensures exception { slice_get self.now.exceptions n ≡ Some result.now }
    {
        &self.exceptions.as_slice()[n]
    }
}

// The least value of each state.
fn least_values(alloc: Global, model: &Model, states: &[StateDecl]) -> Result<Vals, NoMemory>
    requires { states.now ≡ model.now.states }
    ensures least { IfOk result (λ values. values ≡ (least_store model.now).defaults) }
{
    model.well_typed();
    let mut values = List::new(alloc);
    for state in states {
        let value = least(alloc, model, &state.value)?;
        values.push(value)?;
    }
    Ok(values)
}

// Whether two keys are one.
fn is_key(left: &Value, right: &Value) -> bool
    ensures { result ≡ same_value left.now right.now }
{
    same(left, right)
}

/// Whether two names are of one cell.
pub fn same_cell(left: &CellName, right: &CellName) -> bool
    ensures exact { result ≡ same_cell left.now right.now }
{
    is_cell(left, right.state, right.key.as_ref())
}

// Whether the cell is this one.
fn is_cell(cell: &CellName, state: u16, key: Option<&Value>) -> bool
    ensures { result ≡ same_cell cell.now (named state (option_copied key.entry)) }
{
    if cell.state != state {
        return false;
    }
    match (&cell.key, key) {
        (None, None) => true,
        (Some(left), Some(right)) => is_key(left, right),
        (None, Some(_)) => false,
        (Some(_), None) => false,
    }
}

// The place of a cell's exception.
fn find(exceptions: &[Except], state: u16, key: Option<&Value>) -> Option<usize>
    ensures { Finds exceptions.now (named state (option_copied key.entry)) result }
{
    for (i, exception) in exceptions.iter().enumerate() {
        if is_cell(&exception.cell, state, key) {
            return Some(i);
        }
    }
    None
}

// Equal exceptions.
fn copy_exceptions(alloc: Global, exceptions: &[Except]) -> Result<List<Except>, NoMemory>
    ensures equal { IfOk result (λ copies. copies ≡ exceptions.now) }
{
    let mut copies = List::new(alloc);
    for exception in exceptions {
        let cell = copy_cell(alloc, &exception.cell)?;
        let value = copy_value(alloc, &exception.value)?;
        copies.push(Except { cell, value })?;
    }
    Ok(copies)
}
