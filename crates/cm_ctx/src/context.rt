//! Contexts.

ghost use Rattle.std.specs.Prelude.{◌≡◌, ◌≢◌, ◌<◌, ◌+◌, ◌-◌, ◌++◌, ◌∷◌, ◌↔◌, [], ℕ, Some, true, None, IsTrue, IfOk};
ghost use Rattle.std.specs.Prelude.{OnOk, OnErr, length, map, slice_get};
ghost use Rattle.std.specs.Option.{option_copied};
ghost use Rattle.cm_model.specs.Types.{IsType};
ghost use Rattle.cm_value.specs.Membership.{IsValueOf};
ghost use Rattle.cm_value.specs.declared.value.Value.{Value};
ghost use Rattle.cm_term.specs.Valuation.{Valuation, Var};
ghost use Rattle.cm_term.specs.Questions.{outcome_under};
ghost use Rattle.cm_term.specs.Terms.{value_of};
ghost use Rattle.cm_term.specs.declared.term.Term.{Term};
ghost use Rattle.cm_ctx.specs.declared.choice.Choice.{Choice};
ghost use Rattle.cm_ctx.specs.declared.choice.Known.TheVariants as known;
ghost use Rattle.cm_ctx.specs.declared.piece.ElementPart.{ElementPart};
ghost use Rattle.cm_ctx.specs.declared.piece.Piece.{Piece};
ghost use Rattle.cm_ctx.specs.Masks.{Has};
ghost use Rattle.cm_ctx.specs.Making.{Place, counted, first_counts, made_of, piece_of, variables};
ghost use Rattle.cm_ctx.specs.Giving.{Gives, Agree};
ghost use Rattle.cm_ctx.specs.Belonging.{OwnsAll, PayloadsHold, Names};
ghost use Rattle.cm_ctx.specs.Grown.{IsFitting, Grows};
ghost use Rattle.cm_ctx.specs.Asking.{IsAmong, IsNew, IsPayload, InRow, Owns};
ghost use Rattle.cm_ctx.specs.Contexts.{Satisfies, Allows, Keeps, Implies, IsSatisfiable, IsQuestion, HasSpare};
ghost use Rattle.cm_ctx.specs.Contexts.{counts_of, payloads_of, sorts_of};
ghost use Rattle.cm_ctx.specs.declared.naming.Kind.TheVariants as kind;
ghost use Rattle.cm_ctx.specs.Naming.{syms_of};
ghost use Rattle.cm_ctx.specs.Knowing.{known_of};

use crate::asked::Asked;
use crate::choice::{self, Choice, Known};
use crate::making::{self, Making};
use crate::mask::Mask;
use crate::naming::Kind;
use crate::piece::{Counts, Piece, Variables};
use crate::steps::Steps;
use crate::{elements, grown, numbers};
use cm_model::{IntVar, List, Model, NoMemory, SortVar, Ty};
use cm_order::Bounds;
use cm_sorts::Classes;
use cm_term::{OptVar, Question, Root, Shared, Sym, SymPath, TagVar, Term};
use std::alloc::Global;
use std::sync::ledger::Ledger;

/// What is known of the variables of the terms that were asked for.
#[derive(Drop)]
pub struct Ctx {
    classes: Classes,
    bounds: Bounds,
    tags: Vec<Choice>,
    options: Vec<Choice>,
    counts: Counts,
    asked: Shared<Asked>,
}

impl std::marker::Model for Ctx {
    ghost use Rattle.cm_ctx.specs.Contexts.{Context, context};
    ghost use Rattle.cm_ctx.specs.Proper.{IsProper};
    ghost use Rattle.std.specs.Coded.{codes};
    ghost use Rattle.cm_ctx.specs.contracts.piece.Piece as piece;
    ghost use Rattle.cm_ctx.specs.contracts.choice.Choice as choice;

    ghost Value = { Context };

    ghost coded = { Prim.hlevel (codes, piece.the_row.coded, choice.the_row.coded) };

    ghost view = { λ c. context c.classes c.bounds c.tags.items c.options.items c.asked };

    ghost invariant = { λ c. IsProper c.counts (context c.classes c.bounds c.tags.items c.options.items c.asked) };
}

impl Ctx {
    /// Nothing is known, and no symbol was asked for. The context keeps the allocator.
    ///
    /// # Errors
    /// `NoMemory` where memory runs out.
    pub fn new(alloc: Global) -> Result<Ctx, NoMemory>
        ensures pieces { IfOk result (λ c. c.pieces ≡ []) }
        ensures sorts { IfOk result (λ c. c.classes.sorts ≡ []) }
        ensures bounds { IfOk result (λ c. length c.bounds ≡ 1) }
        ensures tags { IfOk result (λ c. c.tags ≡ []) }
        ensures options { IfOk result (λ c. c.options ≡ []) }
    {
        let asked = Shared::new(alloc, Asked::new(alloc))?;
        let bounds = Bounds::new(alloc)?;
        Ok(Ctx {
            classes: Classes::new(alloc),
            bounds,
            tags: Vec::new(alloc),
            options: Vec::new(alloc),
            counts: Counts {
                elements: 0,
                numbers: 1,
                tags: 0,
                options: 0,
            },
            asked,
        })
    }

    /// Tells a proof that some valuation satisfies the context, that the elements' variables have the sorts for which they
    /// were made, and that no variable was made for two symbols.
    pub fn has_valuation(&self)
        ensures satisfiable { IsSatisfiable self.now }
        ensures row { InRow first_counts self.now.pieces (counts_of self.now) }
        ensures sorts { self.now.classes.sorts ≡ sorts_of self.now.pieces }
        ensures apart { (j k : ℕ) (p q : Piece) (x : Var) → slice_get self.now.pieces j ≡ Some p
            → slice_get self.now.pieces k ≡ Some q
            → Owns p x → Owns q x → j ≡ k }
    {
        let _ = self.tags.len();
    }

    /// Makes room for the outcome of any question until the next `fresh_of`.
    ///
    /// # Errors
    /// `NoMemory` where memory runs out; the context is then as it was.
    pub fn reserve(&mut self) -> Result<(), NoMemory>
        ensures room { OnOk result (self.new ≡ record self.old { classes = record self.old.classes { spare = true } }) }
        ensures unchanged { OnErr result (self.new ≡ self.old) }
    {
        let reserved = self.classes.reserve();
        self.classes.has_valuation();
        reserved
    }

    /// Whether the question can be asked: its variables are there, and its numbers are small.
    pub fn is_question(&self, q: &Question) -> bool
        ensures exact { IsTrue result ↔ IsQuestion self.now q.now }
    {
        match *q {
            Question::Elems(x, y) => elements::are_of_one_sort(&self.classes, x, y),
            Question::Nums(left, right) => numbers::are_numbers(self.counts.numbers, left, right),
            Question::Range { of, lo, hi } => numbers::is_range(self.counts.numbers, of, lo, hi),
            Question::TagOf(tag) => choice::is_tag(self.counts.tags, tag),
            Question::OptOf(opt) => choice::is_opt(self.counts.options, opt),
        }
    }

    /// The outcomes that a valuation of the context takes. It takes no memory.
    pub fn outcomes(&self, q: &Question) -> Mask
        requires { IsQuestion self.now q.now }
        ensures exact { (i : ℕ) → Has result.0 i ↔ Allows self.now (λ v. outcome_under v q.now ≡ i) }
    {
        match *q {
            Question::Elems(x, y) => elements::outcomes(&self.classes, x, y),
            Question::Nums(left, right) => numbers::order_outcomes(&self.bounds, left, right),
            Question::Range { of, lo, hi } => numbers::range_outcomes(&self.bounds, of, lo, hi),
            Question::TagOf(tag) => choice::tag_outcomes(self.tags.as_slice(), tag),
            Question::OptOf(opt) => choice::opt_outcomes(self.options.as_slice(), opt),
        }
    }

    /// Keeps the valuations under which the question has the outcome, and counts it. It takes no memory.
    pub fn add<L: Ledger>(&mut self, q: &Question, outcome: u8, steps: &mut Steps<L>)
        requires well { IsQuestion self.old q.now }
        requires may { Allows self.old (λ v. outcome_under v q.now ≡ outcome) }
        requires spare { HasSpare self.old q.now }
        ensures kept { Keeps self.old self.new (λ v. outcome_under v q.now ≡ outcome) }
        ensures pieces { self.new.pieces ≡ self.old.pieces }
        ensures spare { self.new.classes.spare ≡ self.old.classes.spare }
        ensures sorts { self.new.classes.sorts ≡ self.old.classes.sorts }
        ensures bounds { length self.new.bounds ≡ length self.old.bounds }
        ensures tags { length self.new.tags ≡ length self.old.tags }
        ensures options { length self.new.options ≡ length self.old.options }
        ensures count { steps.new ≡ steps.old + 1 }
    {
        steps.tick();
        self.learn(q, outcome);
    }

    /// The same, uncounted: for what is asked of a path that is whole.
    pub fn learn(&mut self, q: &Question, outcome: u8)
        requires well { IsQuestion self.old q.now }
        requires may { Allows self.old (λ v. outcome_under v q.now ≡ outcome) }
        requires spare { HasSpare self.old q.now }
        ensures kept { Keeps self.old self.new (λ v. outcome_under v q.now ≡ outcome) }
        ensures pieces { self.new.pieces ≡ self.old.pieces }
        ensures spare { self.new.classes.spare ≡ self.old.classes.spare }
        ensures sorts { self.new.classes.sorts ≡ self.old.classes.sorts }
        ensures bounds { length self.new.bounds ≡ length self.old.bounds }
        ensures tags { length self.new.tags ≡ length self.old.tags }
        ensures options { length self.new.options ≡ length self.old.options }
    {
        match *q {
            Question::Elems(x, y) => elements::add(&mut self.classes, x, y, outcome),
            Question::Nums(left, right) => {
                numbers::add_order(&mut self.bounds, left, right, outcome)
            }
            Question::Range { of, lo, hi } => {
                numbers::add_range(&mut self.bounds, of, lo, hi, outcome)
            }
            Question::TagOf(tag) => choice::decide_tag(&mut self.tags, tag, outcome),
            Question::OptOf(opt) => choice::decide_opt(&mut self.options, opt, outcome),
        }
    }

    /// What is decided of the option: whether every valuation of the context has it none, or has it some.
    pub fn opt_of(&self, o: OptVar) -> Known
        requires { o.0 < length self.now.options }
        ensures decided { (c : Choice) → slice_get self.now.options o.0 ≡ Some c → result ≡ known_of c.decided }
        ensures none { (result ≡ known.None) ↔ Implies self.now (λ v. v.present o.0 ≡ 0) }
        ensures some { (result ≡ known.Some) ↔ Implies self.now (λ v. v.present o.0 ≢ 0) }
    {
        choice::what_is_known(choice::at(self.options.as_slice(), o.0).decided)
    }

    /// The variant that the enum has under every valuation of the context, if there is one.
    pub fn tag_of(&self, x: TagVar) -> Option<u16>
        requires { x.0 < length self.now.tags }
        ensures decided { (c : Choice) → slice_get self.now.tags x.0 ≡ Some c → result ≡ c.decided }
        ensures known { (n : ℕ) → (result ≡ Some n) ↔ Implies self.now (λ v. v.tag x.0 ≡ n) }
    {
        choice::at(self.tags.as_slice(), x.0).decided
    }

    /// The term of the option's payload, whether it is decided or not. It takes no memory.
    pub fn payload_of(&self, o: OptVar) -> &Term
        requires { o.0 < length self.now.options }
        ensures term { slice_get (payloads_of self.now.pieces) o.0 ≡ Some result.now }
        ensures value { Implies self.now (λ v. v.payload o.0 ≡ value_of v result.now) }
    {
        self.asked.get().payload(o.0)
    }

    /// The same, for those who know which symbol the option is part of.
    pub(crate) fn payload_by(&self, o: OptVar) -> &Term
        requires { (t : Term) × IsPayload self.now.pieces o.0 t }
        ensures term { (t : Term) → IsPayload self.now.pieces o.0 t → result.now ≡ t }
    {
        self.asked.get().payload(o.0)
    }

    /// The same, if there is an option with this number.
    pub fn payload_if(&self, o: OptVar) -> Option<&Term>
        ensures term { option_copied result ≡ slice_get (payloads_of self.now.pieces) o.0 }
    {
        self.asked.get().payload_if(o.0)
    }

    /// Whether the symbol of this root was asked for.
    pub fn has(&self, root: Root) -> bool
        ensures asked { IsTrue result ↔ ((p : Piece) × IsAmong self.now.pieces p × (p.root ≡ root)) }
    {
        self.asked.get().has(root)
    }

    /// The term that was made for the symbol of this root. It takes no memory.
    pub fn term_at(&self, root: Root) -> &Term
        requires { (p : Piece) × IsAmong self.now.pieces p × (p.root ≡ root) }
        ensures term { (p : Piece) → IsAmong self.now.pieces p → p.root ≡ root → result.now ≡ p.term }
    {
        &self.asked.get().piece_of(root).term
    }

    /// The symbol of an element's variable.
    pub fn sym_of_sort(&self, x: SortVar) -> &Sym
        requires { x.0 < length self.now.classes.sorts }
        ensures symbol { slice_get (syms_of kind.Element self.now.pieces) x.0 ≡ Some result.now }
    {
        self.asked.get().sym_of(Kind::Element, x.0)
    }

    /// The symbol of a number's variable; variable 0 is the constant 0 and has none.
    pub fn sym_of_int(&self, x: IntVar) -> &Sym
        requires there { x.0 < length self.now.bounds }
        requires variable { 0 < x.0 }
        ensures symbol { slice_get (syms_of kind.Number self.now.pieces) (x.0 - 1) ≡ Some result.now }
    {
        self.asked.get().sym_of(Kind::Number, x.0 - 1)
    }

    /// The symbol of a variant's variable.
    pub fn sym_of_tag(&self, x: TagVar) -> &Sym
        requires { x.0 < length self.now.tags }
        ensures symbol { slice_get (syms_of kind.Tag self.now.pieces) x.0 ≡ Some result.now }
    {
        self.asked.get().sym_of(Kind::Tag, x.0)
    }

    /// The symbol of an option's variable.
    pub fn sym_of_opt(&self, o: OptVar) -> &Sym
        requires { o.0 < length self.now.options }
        ensures symbol { slice_get (syms_of kind.Option self.now.pieces) o.0 ≡ Some result.now }
    {
        self.asked.get().sym_of(Kind::Option, o.0)
    }

    /// The classes of the elements.
    pub fn classes(&self) -> &Classes
        ensures classes { result.now ≡ self.now.classes }
    {
        &self.classes
    }

    /// The bounds of the numbers.
    pub fn bounds(&self) -> &Bounds
        ensures bounds { result.now ≡ self.now.bounds }
    {
        &self.bounds
    }

    /// A context of which the same is known. A spare made by `reserve` is not copied.
    ///
    /// # Errors
    /// `NoMemory` where memory runs out.
    pub fn try_copy(&self, alloc: Global) -> Result<Ctx, NoMemory>
        ensures equal { IfOk result (λ copy.
            copy ≡ record self.now { classes = record self.now.classes { spare = copy.classes.spare } }) }
    {
        let classes = self.classes.try_copy(alloc)?;
        classes.has_valuation();
        Ok(Ctx {
            classes,
            bounds: self.bounds.try_copy(alloc)?,
            tags: Vec::from_slice(alloc, self.tags.as_slice())?,
            options: Vec::from_slice(alloc, self.options.as_slice())?,
            counts: self.counts,
            asked: self.asked.share()?,
        })
    }

    /// A term of new variables that stands for the symbol, the payloads of its options included.
    ///
    /// # Errors
    /// `NoMemory` where memory runs out; the context is then as it was.
    pub fn fresh_of(&mut self, model: &Model, at: &Sym, ty: &Ty) -> Result<Term, NoMemory>
        requires steps { at.now.path ≡ [] }
        requires new { IsNew self.old.pieces at.now.root }
        ensures term { IfOk result (λ t. t ≡ (piece_of model.now ty.now at.now.root (counts_of self.old)).term) }
        ensures pieces { OnOk result (self.new.pieces ≡ self.old.pieces
            ++ piece_of model.now ty.now at.now.root (counts_of self.old) ∷ []) }
        ensures counts { OnOk result (counts_of self.new
            ≡ counted (counts_of self.old) (piece_of model.now ty.now at.now.root (counts_of self.old)).variables) }
        ensures sorts { OnOk result (self.new.classes.sorts ≡ self.old.classes.sorts
            ++ map (λ (d : ElementPart). d.sort)
            (piece_of model.now ty.now at.now.root (counts_of self.old)).variables.elements) }
        ensures kept { OnOk result (Keeps self.old self.new
            (Gives (counts_of self.old) (piece_of model.now ty.now at.now.root (counts_of self.old)).variables)) }
        ensures unchanged { OnErr result (self.new ≡ self.old) }
    {
        let alloc = *self.tags.allocator();
        model.well_typed();
        let piece = piece_for(alloc, model, at.root, self.counts, ty)?;
        let term = piece.term.share()?;
        let grown = self.with_piece(alloc, piece)?;
        *self = grown;
        Ok(term)
    }

    /// The context with the variables of a piece more.
    fn with_piece(&self, alloc: Global, piece: Piece) -> Result<Ctx, NoMemory>
        requires from { piece.from ≡ counts_of self.now }
        requires new { IsNew self.now.pieces piece.root }
        requires fits { IsFitting piece }
        ensures context { IfOk result (Grows self.now piece) }
    {
        let classes = grown::with_elements(
            alloc,
            &self.classes,
            piece.variables.elements.as_slice(),
        )?;
        let bounds = grown::with_numbers(alloc, &self.bounds, piece.variables.numbers.as_slice())?;
        let tags = grown::with_tags(alloc, self.tags.as_slice(), piece.variables.tags.as_slice())?;
        let options = grown::with_options(
            alloc,
            self.options.as_slice(),
            piece.variables.options.as_slice(),
        )?;
        let counts = after(self.counts, &piece.variables)?;
        let asked = self.asked.get().with(alloc, piece)?;
        let asked = Shared::new(alloc, asked)?;
        Ok(Ctx {
            classes,
            bounds,
            tags,
            options,
            counts,
            asked,
        })
    }
}

/// How many variables there are with these.
fn after(counts: Counts, variables: &Variables) -> Result<Counts, NoMemory>
    ensures { IfOk result (λ n. n ≡ counted counts variables.now) }
{
    Ok(Counts {
        elements: making::next(counts.elements, variables.elements.len())?,
        numbers: making::next(counts.numbers, variables.numbers.len())?,
        tags: making::next(counts.tags, variables.tags.len())?,
        options: making::next(counts.options, variables.options.len())?,
    })
}

/// What is made for a symbol of this type.
fn piece_for(
    alloc: Global,
    model: &Model,
    root: Root,
    from: Counts,
    ty: &Ty,
) -> Result<Piece, NoMemory>
    ensures { IfOk result (λ p. p ≡ piece_of model.now ty.now root from) }
{
    let making = Making {
        alloc,
        ints: model.ints().as_slice(),
        enums: model.enums().as_slice(),
        root,
        from,
    };
    let mut variables = no_variables(alloc);
    let path = SymPath::new(alloc);
    let term = making::make(
        &making,
        model.records().as_slice(),
        &mut variables,
        &path,
        ty,
    )?;
    Ok(Piece {
        root,
        term,
        from,
        variables,
    })
}

/// No variables yet.
fn no_variables(alloc: Global) -> Variables
    ensures { result ≡ variables [] [] [] [] }
{
    Variables {
        elements: List::new(alloc),
        numbers: List::new(alloc),
        tags: List::new(alloc),
        options: List::new(alloc),
    }
}

/// Tells a proof that each valuation gives the term of a type a value of the type, and that each value of the type
/// is given, whatever the variables before are.
pub fn terms_have_values(model: &Model, ty: &Ty)
    requires { IsType model.now ty.now }
    ensures typed { (p : Place) (v : Valuation) → Gives p.from (made_of model.now ty.now p).variables v
        → IsValueOf model.now ty.now (value_of v (made_of model.now ty.now p).term) }
    ensures free { (p : Place) (v : Valuation) (x : Value) → IsValueOf model.now ty.now x
        → (w : Valuation) × Agree p.from v w × Gives p.from (made_of model.now ty.now p).variables w
        × (value_of w (made_of model.now ty.now p).term ≡ x) }
{
    model.well_typed();
    let _ = ty;
}

/// Tells a proof that the term of a symbol, and each payload in it, has no variables but those made for the symbol,
/// and that each of these has the value of the part that its own symbol names.
pub fn terms_are_named(model: &Model, ty: &Ty)
    ensures own { (root : Root) (from : Counts) → OwnsAll (piece_of model.now ty.now root from) }
    ensures named { (root : Root) (from : Counts) (v : Valuation)
        → PayloadsHold v (piece_of model.now ty.now root from)
        → Names v (piece_of model.now ty.now root from) }
{
    let _ = model.sorts();
    let _ = ty;
}
