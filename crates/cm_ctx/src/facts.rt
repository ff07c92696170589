//! What a run needs of the facts on the variables of its terms.

ghost use Rattle.std.specs.Prelude.{◌≡◌, ◌++◌, ◌∷◌, ◌↔◌, [], List, IfOk, OnOk, slice_get};
ghost use Rattle.std.specs.Option.{option_copied};
ghost use Rattle.cm_term.specs.Valuation.{Valuation};
ghost use Rattle.cm_term.specs.declared.term.Term.{Term};
ghost use Rattle.cm_ctx.specs.declared.piece.Counts.{Counts};
ghost use Rattle.cm_ctx.specs.declared.piece.Piece.{Piece};
ghost use Rattle.cm_ctx.specs.Making.{counted, piece_of};
ghost use Rattle.cm_ctx.specs.Giving.{Gives};
ghost use Rattle.cm_ctx.specs.Asking.{IsNew, IsPayload};
ghost use Rattle.cm_ctx.specs.Contexts.{Satisfies, counts_of, payloads_of};

use crate::context::Ctx;
use cm_model::{Model, NoMemory, Ty};
use cm_term::{OptVar, Sym, Term};

/// What is known of the variables of terms.
pub trait Facts {
    /// Whether a valuation satisfies what was told.
    ghost satisfied: { Self → Valuation → Type 0 };

    /// The symbols that were asked for, each with its term and with the payloads of its options.
    ghost pieces: { Self → List Piece };

    /// How many variables there are.
    ghost counts: { Self → Counts };

    /// A term of new variables that stands for the symbol, the payloads of its options included. No term that was
    /// given before changes.
    ///
    /// # Errors
    /// `NoMemory` where memory runs out.
    fn fresh_of(&mut self, model: &Model, at: &Sym, ty: &Ty) -> Result<Term, NoMemory>
        requires steps { at.now.path ≡ [] }
        requires new { IsNew (pieces self.old) at.now.root }
        ensures term { IfOk result (λ t. t ≡ (piece_of model.now ty.now at.now.root (counts self.old)).term) }
        ensures pieces { OnOk result (pieces self.new ≡ pieces self.old
            ++ piece_of model.now ty.now at.now.root (counts self.old) ∷ []) }
        ensures counts { OnOk result (counts self.new
            ≡ counted (counts self.old) (piece_of model.now ty.now at.now.root (counts self.old)).variables) }
        ensures satisfied { OnOk result ((v : Valuation) → satisfied self.new v ↔ (satisfied self.old v
            × Gives (counts self.old) (piece_of model.now ty.now at.now.root (counts self.old)).variables v)) };

    /// The term of the option's payload, whether it is decided or not. It takes no memory.
    fn payload_of(&self, o: OptVar) -> &Term
        requires { (t : Term) × IsPayload (pieces self.now) o.0 t }
        ensures term { (t : Term) → IsPayload (pieces self.now) o.0 t → result.now ≡ t };

    /// The same, if there is an option with this number.
    fn payload_if(&self, o: OptVar) -> Option<&Term>
        ensures term { option_copied result ≡ slice_get (payloads_of (pieces self.now)) o.0 };
}

impl Facts for Ctx {
    ghost satisfied = { λ c v. Satisfies c v };

    ghost pieces = { λ c. c.pieces };

    ghost counts = { λ c. counts_of c };

    fn fresh_of(&mut self, model: &Model, at: &Sym, ty: &Ty) -> Result<Term, NoMemory> {
        let made = Ctx::fresh_of(self, model, at, ty);
        made
    }

    fn payload_of(&self, o: OptVar) -> &Term {
        self.payload_by(o)
    }

    fn payload_if(&self, o: OptVar) -> Option<&Term> {
        let payload = Ctx::payload_if(self, o);
        payload
    }
}
