//! The symbols of variables.

ghost use Rattle.std.specs.Prelude.{◌≡◌, Some, IsTrue, IfOk};
ghost use Rattle.cm_term.specs.Valuation.{OfElement, OfNumber, OfTag, OfOption};
ghost use Rattle.cm_beside.specs.Seen.{symbol_at};
ghost use Rattle.cm_name.specs.Naming.{has_symbol};

use cm_ctx::Ctx;
use cm_model::{IntVar, NoMemory, SortVar};
use cm_term::{OptVar, Sym, TagVar};

/// The symbol of an element's variable.
#[tactic(auto, using(crate::proofs::Symbols::element_there))]
pub(crate) fn of_element(ctx: &Ctx, x: SortVar) -> Result<Sym, NoMemory>
    requires { IsTrue (has_symbol ctx.now.pieces (OfElement x.0)) }
    ensures { IfOk result (λ s. symbol_at ctx.now.pieces (OfElement x.0) ≡ Some s) }
{
    ctx.has_valuation();
    ctx.sym_of_sort(x).try_copy()
}

/// The symbol of a number's variable.
#[tactic(auto, using(crate::proofs::Symbols::number_there))]
pub(crate) fn of_number(ctx: &Ctx, x: IntVar) -> Result<Sym, NoMemory>
    requires { IsTrue (has_symbol ctx.now.pieces (OfNumber x.0)) }
    ensures { IfOk result (λ s. symbol_at ctx.now.pieces (OfNumber x.0) ≡ Some s) }
{
    ctx.has_valuation();
    ctx.sym_of_int(x).try_copy()
}

/// The symbol of a variant's variable.
#[tactic(auto, using(crate::proofs::Symbols::tag_there))]
pub(crate) fn of_tag(ctx: &Ctx, x: TagVar) -> Result<Sym, NoMemory>
    requires { IsTrue (has_symbol ctx.now.pieces (OfTag x.0)) }
    ensures { IfOk result (λ s. symbol_at ctx.now.pieces (OfTag x.0) ≡ Some s) }
{
    ctx.has_valuation();
    ctx.sym_of_tag(x).try_copy()
}

/// The symbol of an option's variable.
#[tactic(auto, using(crate::proofs::Symbols::option_there))]
pub(crate) fn of_option(ctx: &Ctx, o: OptVar) -> Result<Sym, NoMemory>
    requires { IsTrue (has_symbol ctx.now.pieces (OfOption o.0)) }
    ensures { IfOk result (λ s. symbol_at ctx.now.pieces (OfOption o.0) ≡ Some s) }
{
    ctx.has_valuation();
    ctx.sym_of_opt(o).try_copy()
}
