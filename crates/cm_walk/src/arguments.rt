//! The terms of a call's arguments.

ghost use Rattle.std.specs.Prelude.{◌≡◌, ◌≤◌, ◌+◌, ◌++◌, ◌↔◌, [], map, ℕ, IfOk, OnOk};
ghost use Rattle.cm_term.specs.Valuation.{Valuation};
ghost use Rattle.cm_term.specs.declared.symbol.Root.{Root};
ghost use Rattle.cm_ctx.specs.declared.piece.Piece.{Piece};
ghost use Rattle.cm_ctx.specs.Asking.{IsNew};
ghost use Rattle.cm_ctx.specs.Contexts.{Satisfies, counts_of};
ghost use Rattle.cm_exec.specs.Run.{counted_all, GivesAll};
ghost use Rattle.cm_beside.specs.Nodes.{pieces_from};
ghost use Rattle.cm_walk.specs.Arguments.{root_of, made_for, AreNewFrom, IsOther};

use cm_ctx::Ctx;
use cm_model::{List, Model, NoMemory, Part};
use cm_term::{Root, Sym, SymPath, Term};
use std::alloc::Global;

/// Whose arguments they are.
#[derive(Clone, Copy)]
pub enum Side {
    /// Those of the first call of a pair.
    A,
    /// Those of the second one.
    B,
}

impl Side {
    // The symbol of an argument.
    fn root(self, number: u16) -> Root
        ensures { result ≡ root_of self number }
    {
        match self {
            Side::A => Root::A(number),
            Side::B => Root::B(number),
        }
    }
}

/// Asks for the symbol of each argument of a call, and gives their terms.
///
/// # Errors
/// `NoMemory` where memory runs out.
pub fn arguments(
    alloc: Global,
    model: &Model,
    known: &mut Ctx,
    side: Side,
    call: u16,
) -> Result<List<Term>, NoMemory>
    requires new { AreNewFrom side 0 known.old.pieces }
    ensures terms { IfOk result (λ ts. ts
        ≡ map (λ (q : Piece). q.term) (made_for model.now side call (counts_of known.old))) }
    ensures pieces { OnOk result (known.new.pieces
        ≡ known.old.pieces ++ made_for model.now side call (counts_of known.old)) }
    ensures counts { OnOk result (counts_of known.new
        ≡ counted_all (counts_of known.old) (made_for model.now side call (counts_of known.old))) }
    ensures kept { OnOk result ((v : Valuation) → Satisfies known.new v
        ↔ (Satisfies known.old v × GivesAll (made_for model.now side call (counts_of known.old)) v)) }
    ensures others { OnOk result ((r : Root) → IsOther side r → IsNew known.old.pieces r
        → IsNew known.new.pieces r) }
{
    match model.calls().get(usize::from(call)) {
        Some(call) => ask_for(alloc, model, known, side, call.params.as_slice()),
        None => Ok(List::new(alloc)),
    }
}

// The same of parameters.
fn ask_for(
    alloc: Global,
    model: &Model,
    known: &mut Ctx,
    side: Side,
    params: &[Part],
) -> Result<List<Term>, NoMemory>
    requires new { AreNewFrom side 0 known.old.pieces }
    ensures terms { IfOk result (λ ts. ts ≡ map (λ (q : Piece). q.term)
        (pieces_from model.now (root_of side) 0 (map (λ q. q.ty) params.now) (counts_of known.old))) }
    ensures pieces { OnOk result (known.new.pieces ≡ known.old.pieces
        ++ pieces_from model.now (root_of side) 0 (map (λ q. q.ty) params.now) (counts_of known.old)) }
    ensures counts { OnOk result (counts_of known.new ≡ counted_all (counts_of known.old)
        (pieces_from model.now (root_of side) 0 (map (λ q. q.ty) params.now) (counts_of known.old))) }
    ensures kept { OnOk result ((v : Valuation) → Satisfies known.new v ↔ (Satisfies known.old v × GivesAll
        (pieces_from model.now (root_of side) 0 (map (λ q. q.ty) params.now) (counts_of known.old)) v)) }
    ensures others { OnOk result ((r : Root) → IsOther side r → IsNew known.old.pieces r
        → IsNew known.new.pieces r) }
{
    let mut terms = List::new(alloc);
    'params: for i in 0..params.len() {
        let at = symbol(alloc, side, i)?;
        let term = known.fresh_of(model, &at, &params[i].ty)?;
        terms.push(term)?;
    }
    Ok(terms)
}

// The symbol of an argument by its number.
fn symbol(alloc: Global, side: Side, i: usize) -> Result<Sym, NoMemory>
    ensures root { IfOk result (λ at. at.root ≡ root_of side i) }
    ensures path { IfOk result (λ at. at.path ≡ []) }
{
    match u16::try_from(i) {
        Ok(number) => Ok(Sym {
            root: side.root(number),
            path: SymPath::new(alloc),
        }),
        Err(_) => Err(NoMemory),
    }
}
