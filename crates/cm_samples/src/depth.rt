//! The deepest model: functions that call each other inside as many brackets as may be open.

ghost use Rattle.std.specs.Prelude.{◌≡◌, ◌<◌, IfOk, [], ◌∷◌};
ghost use Rattle.cm_model.specs.declared.body.Stmt.TheVariants as stmt;
ghost use Rattle.cm_samples.specs.Parts as parts;
ghost use Rattle.cm_samples.specs.Depth.{negations, firsts, fun_name, innermost, deep_fun, run_call, deepest_tables};

use crate::parts::{apply, not, one, only_bool, truth};
use cm_model::{Call, Expr, List, Model, Name, NoMemory, Stmt, Ty};
use std::alloc::Global;

/// How many functions a model may have.
const FUNCTIONS: u16 = 64;

/// How many brackets may be open beside the body's own and the call's.
const NEGATIONS: u16 = 62;

/// `fn f00() -> bool { return not (not .. (true) ..); }`
/// `fn f01() -> bool { return not (not .. (f00()) ..); }`, and so on to `f63`, with 62 negations each
/// `call run() -> bool { return f63(); }`
pub fn deepest(alloc: Global) -> Result<Model, NoMemory>
    ensures tables { IfOk result (λ model. model ≡ deepest_tables) }
{
    let enums = only_bool(alloc)?;
    let funs = functions(alloc)?;
    let calls = only_run(alloc)?;
    let sorts = List::new(alloc);
    let ints = List::new(alloc);
    let records = List::new(alloc);
    let states = List::new(alloc);
    let model = Model::new(sorts, ints, enums, records, states, funs, calls);
    Ok(model)
}

fn only_run(alloc: Global) -> Result<List<Call>, NoMemory>
    ensures exact { IfOk result (λ calls. calls ≡ run_call ∷ []) }
{
    let name = Name::from_str(alloc, "run")?;
    let run = returning(alloc, name, apply(alloc, FUNCTIONS - 1))?;
    let calls = one(alloc, run)?;
    Ok(calls)
}

fn functions(alloc: Global) -> Result<List<Call>, NoMemory>
    ensures exact { IfOk result (λ funs. funs ≡ firsts deep_fun 64) }
{
    let mut funs = List::new(alloc);
    let mut n: u16 = 0;
    'functions: while n < FUNCTIONS {
        let fun = function(alloc, n)?;
        funs.push(fun)?;
        n += 1;
    }
    Ok(funs)
}

fn function(alloc: Global, n: u16) -> Result<Call, NoMemory>
    requires few { n < 64 }
    ensures exact { IfOk result (λ fun. fun ≡ deep_fun n) }
{
    let name = numbered(alloc, n)?;
    let e = in_negations(alloc, within(alloc, n))?;
    let fun = returning(alloc, name, e)?;
    Ok(fun)
}

// A routine without parameters that returns a bool.
fn returning(alloc: Global, name: Name, e: Expr) -> Result<Call, NoMemory>
    ensures exact { IfOk result (λ call. call ≡ parts.routine name [] 0 parts.bool (stmt.Return e ∷ [])) }
{
    let body = one(alloc, Stmt::Return(e))?;
    Ok(Call {
        name,
        params: List::new(alloc),
        outer: 0,
        reply: Ty::Enum(0),
        body,
    })
}

// A letter and two digits.
fn numbered(alloc: Global, n: u16) -> Result<Name, NoMemory>
    requires few { n < 64 }
    ensures exact { IfOk result (λ name. name ≡ fun_name n) }
{
    let bytes = [b'f', b'0' + (n / 10) as u8, b'0' + (n % 10) as u8];
    let Ok(text) = str::from_utf8(&bytes) else {
        unreachable!();
    };
    Name::from_str(alloc, text)
}

fn within(alloc: Global, n: u16) -> Expr
    ensures exact { result ≡ innermost n }
{
    if n == 0 {
        return truth();
    }
    apply(alloc, n - 1)
}

fn in_negations(alloc: Global, e: Expr) -> Result<Expr, NoMemory>
    ensures exact { IfOk result (λ whole. whole ≡ negations 62 e) }
{
    let mut whole = e;
    let mut n: u16 = 0;
    'negations: while n < NEGATIONS {
        whole = not(alloc, whole)?;
        n += 1;
    }
    Ok(whole)
}
