//! The code of a model, made once for many runs.

ghost use Rattle.std.specs.Prelude.{◌≡◌, IfOk, map};
ghost use Rattle.cm_eval.specs.Compiled.{IsCodeOf, invariant_code_of};

use cm_code::{Instr, compile_all, compile_invariant};
use cm_model::{Expr, IntDecl, List, Model, NoMemory, StateDecl};
use std::alloc::Global;

/// The code of a model: of its functions, its calls, and the invariants of its states where they have one.
#[derive(Drop)]
pub struct Code {
    pub funs: List<List<Instr>>,
    pub calls: List<List<Instr>>,
    pub invariants: List<Option<List<Instr>>>,
}

impl Code {
    /// The code of a model.
    ///
    /// # Errors
    /// `NoMemory` where memory runs out, or a body's code is longer than 32 bits count.
    pub fn of(alloc: Global, model: &Model) -> Result<Code, NoMemory>
        ensures code { IfOk result (IsCodeOf model.now) }
    {
        let ints = model.ints().as_slice();
        let funs = compile_all(alloc, ints, model.funs().as_slice())?;
        let calls = compile_all(alloc, ints, model.calls().as_slice())?;
        let invariants = compile_invariants(alloc, ints, model.states().as_slice())?;
        Ok(Code {
            funs,
            calls,
            invariants,
        })
    }
}

/// The code of an invariant, if there is one.
pub(crate) fn compile_if(
    alloc: Global,
    ints: &[IntDecl],
    invariant: &Option<Expr>,
) -> Result<Option<List<Instr>>, NoMemory>
    ensures { IfOk result (λ code. code ≡ invariant_code_of ints.now invariant.now) }
{
    match invariant {
        Some(e) => {
            let code = compile_invariant(alloc, ints, e)?;
            Ok(Some(code))
        }
        None => Ok(None),
    }
}

// The code of each state's invariant.
fn compile_invariants(
    alloc: Global,
    ints: &[IntDecl],
    states: &[StateDecl],
) -> Result<List<Option<List<Instr>>>, NoMemory>
    ensures { IfOk result (λ codes. codes ≡ map (λ d. invariant_code_of ints.now d.inv) states.now) }
{
    let mut codes = List::new(alloc);
    for state in states {
        let code = compile_if(alloc, ints, &state.inv)?;
        codes.push(code)?;
    }
    Ok(codes)
}
