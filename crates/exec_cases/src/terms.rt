//! Terms for the arguments of a pair's calls and for the touched cells, with what they stand for in a world.

ghost use Rattle.std.specs.Prelude.{◌≡◌, ◌<◌, [], IfOk, length};
ghost use Rattle.cm_exec.specs.Running.{IsRoomy, Awaits};
ghost use Rattle.exec_cases.specs.Arguments.{IsArgument};

use crate::known::Known;
use crate::values::OnValues;
use anyhow::{Result, bail};
use cm_cells::Cells;
use cm_ctx::Ctx;
use cm_eval::{CellName, State};
use cm_exec::{Ask, Run};
use cm_model::{List, Model, NoMemory, Pair, Part, Ty};
use cm_term::{Root, Sym, SymPath, Term};
use cm_value::Value;
use cm_world::World;
use std::alloc::Global;

/// A world of a pair, and what it comes to on values.
#[derive(Drop)]
pub struct Case<'a> {
    pub model: &'a Model,
    pub pair: Pair,
    pub world: &'a World,
    pub values: &'a OnValues,
}

/// What is there on terms.
#[derive(Drop)]
pub struct Terms {
    /// The variables that were made.
    pub facts: Ctx,
    /// The touched cells.
    pub cells: Cells,
    /// What the variables stand for.
    pub known: Known,
}

/// The root of an argument, by its number.
pub fn root_of(is_a: bool, number: u16) -> Root
    ensures argument { IsArgument result }
{
    if is_a {
        Root::A(number)
    } else {
        Root::B(number)
    }
}

/// A term for an argument.
pub fn argument(alloc: Global, model: &Model, facts: &mut Ctx, root: Root, ty: &Ty) -> Result<Term>
    requires argument { IsArgument root }
    requires roomy { IsRoomy facts.old.pieces 0 }
    ensures roomy { IfOk result (λ t. IsRoomy facts.new.pieces 0) }
{
    if facts.has(root) {
        bail!("an argument was asked for twice");
    }
    let at = Sym {
        root,
        path: SymPath::new(alloc),
    };
    let t = facts.fresh_of(model, &at, ty)?;
    Ok(t)
}

// Terms for the arguments of a call, which stand for these values.
fn arguments(
    alloc: Global,
    model: &Model,
    terms: &mut Terms,
    params: &[Part],
    is_a: bool,
    values: &[Value],
) -> Result<List<Term>>
    requires roomy { IsRoomy terms.old.facts.pieces 0 }
    ensures roomy { IfOk result (λ ts. IsRoomy terms.new.facts.pieces 0) }
    ensures cells { IfOk result (λ ts. terms.new.cells ≡ terms.old.cells) }
{
    let mut args = List::new(alloc);
    let mut number = 0u16;
    'params: for (part, value) in params.iter().zip(values.iter()) {
        let root = root_of(is_a, number);
        let t = argument(alloc, model, &mut terms.facts, root, &part.ty)?;
        stand_for(&mut terms.known, value, &t, &terms.facts)?;
        args.push(t)?;
        number = number.saturating_add(1);
    }
    Ok(args)
}

// The variables of a new term stand for what the value has in their place.
fn stand_for(known: &mut Known, value: &Value, t: &Term, facts: &Ctx) -> Result<()> {
    if known.learn(value, t, facts)? {
        return Ok(());
    }
    bail!("a term that is not of its value's type")
}

impl Terms {
    /// No cells, and nothing is known.
    pub fn new(alloc: Global) -> Result<Terms, NoMemory>
        ensures pieces { IfOk result (λ t. t.facts.pieces ≡ []) }
        ensures places { IfOk result (λ t. t.cells.places ≡ []) }
    {
        Ok(Terms {
            facts: Ctx::new(alloc)?,
            cells: Cells::new(alloc),
            known: Known::new(alloc),
        })
    }

    /// Terms for the arguments of a call, of a where this is so.
    pub fn arguments(&mut self, alloc: Global, case: &Case, is_a: bool) -> Result<List<Term>>
        requires roomy { IsRoomy self.old.facts.pieces 0 }
        ensures roomy { IfOk result (λ ts. IsRoomy self.new.facts.pieces 0) }
        ensures cells { IfOk result (λ ts. self.new.cells ≡ self.old.cells) }
    {
        let (call, values) = if is_a {
            (case.pair.a, case.world.a.vals.as_slice())
        } else {
            (case.pair.b, case.world.b.vals.as_slice())
        };
        match case.model.calls().get(usize::from(call)) {
            Some(call) => {
                arguments(
                    alloc,
                    case.model,
                    self,
                    call.params.as_slice(),
                    is_a,
                    values,
                )
            }
            None => bail!("no call {call}"),
        }
    }

    /// What a run comes to. The cells that are new stand for those of the world.
    pub fn ask(&mut self, alloc: Global, case: &Case, run: &mut Run) -> Result<Ask>
        requires roomy { IsRoomy self.old.facts.pieces (length self.old.cells.places) }
        ensures roomy { IfOk result (λ a. IsRoomy self.new.facts.pieces (length self.new.cells.places)) }
        ensures awaits { IfOk result (λ a. Awaits a run.new self.new.cells) }
    {
        let before = self.cells.len();
        let ask = run.ask(alloc, case.model, &mut self.cells, &mut self.facts)?;
        meet_cells(&mut self.known, &self.facts, &self.cells, before, case)?;
        Ok(ask)
    }
}

// The cells from a number on are the world's, and stand for what these hold at first.
fn meet_cells(known: &mut Known, facts: &Ctx, cells: &Cells, from: u8, case: &Case) -> Result<()> {
    'cells: for cell in from..cells.len() {
        meet_cell(known, facts, cells, cell, case)?;
    }
    Ok(())
}

fn meet_cell(known: &mut Known, facts: &Ctx, cells: &Cells, cell: u8, case: &Case) -> Result<()>
    requires cell { cell < length cells.now.places }
{
    let name = case.values.cell(usize::from(cell))?;
    if !is_cell(known, facts, cells, cell, name) {
        bail!("cell {cell} is another one");
    }
    let held = held(&case.world.init, name)?;
    stand_for(known, held, cells.initial(cell), facts)
}

/// Whether a cell is the one with this name.
pub fn is_cell(known: &Known, facts: &Ctx, cells: &Cells, cell: u8, name: &CellName) -> bool
    requires cell { cell < length cells.now.places }
{
    if cells.state_of(cell) != name.state {
        return false;
    }
    match (cells.key_of(cell), &name.key) {
        (Some(t), Some(key)) => known.fits(key, t, facts),
        (None, None) => true,
        _ => false,
    }
}

/// What a state holds in a cell.
pub fn held<'s>(state: &'s State, name: &CellName) -> Result<&'s Value> {
    if usize::from(name.state) >= state.defaults().len() {
        bail!("no state {}", name.state);
    }
    Ok(state.get(name.state, name.key.as_ref()))
}
