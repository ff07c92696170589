//! Statements are checked: a function an alternative of the grammar.

ghost use Rattle.std.specs.Prelude.{◌≡◌, [], ◌∷◌, ◌++◌, map, length, take, OnOk, IfOk, false, Some};
ghost use Rattle.cm_syntax.specs.declared.tree.Stmt.TheOpen as layer;
ghost use Rattle.cm_typing.specs.Told.{Answers};
ghost use Rattle.cm_typing.specs.Names.{look, is_taken};
ghost use Rattle.cm_typing.specs.Statements as Statements;
ghost use Rattle.cm_typing.specs.Statements.{unbound, bound, stmt_told, stmt_step, of_block};

use crate::expr::condition;
use crate::fault::{refused, rule};
use crate::flat::{is_value, payload_of, value_of, wanted};
use crate::{Done, Entry, Flat, FoundCell, Names, Scope, Steps, TypeFault, rules};
use cm_model::{List, Name, Place};
use cm_syntax::{Block, Expr, Stmt};
use std::alloc::Global;

// How many locals a body may have: one with more of them is too heavy.
const LOCALS: usize = 65535;

fn cell_named(at: Place, entry: &Entry) -> Result<FoundCell, TypeFault>
    ensures { Answers (Statements.cell_named at (Some entry.now)) (λ v. v) result }
{
    match entry {
        Entry::Cell { state, value } => Ok(FoundCell {
            state: *state,
            value: *value,
        }),
        _ => Err(refused(rules::UNKNOWN, at)),
    }
}

fn done(stmt: cm_model::Stmt, returns: bool) -> Done
    ensures { result ≡ Statements.done stmt returns }
{
    Done { stmt, returns }
}

impl Scope {
    /// A name that is new among the declared ones and the locals.
    pub(crate) fn check_unbound(
        &self,
        locals: &Names,
        at: Place,
        name: &Name,
    ) -> Result<(), TypeFault>
        ensures answers { Answers (unbound at name.now self.now locals.now) (λ u. u) result }
        ensures fresh { IfOk result (λ u. is_taken name.now locals.now ≡ false) }
    {
        if self.names.has(name) {
            return Err(refused(rules::TAKEN, at));
        }
        if locals.has(name) {
            return Err(refused(rules::TAKEN, at));
        }
        Ok(())
    }

    // One local more.
    fn bind(
        &self,
        alloc: Global,
        locals: &mut Names,
        at: Place,
        name: &Name,
        ty: Option<Flat>,
    ) -> Result<(), TypeFault>
        ensures answers { Answers (bound at name.now ty self.now locals.old) (λ u. locals.new) result }
        ensures keeps { OnOk result (take (length locals.old) locals.new ≡ locals.old) }
    {
        self.check_unbound(locals, at, name)?;
        let len = locals.len();
        rule(len < LOCALS, rules::HEAVY, self.at)?;
        let number = len as u16;
        locals.push(alloc, name, Entry::Local { number, ty })?;
        Ok(())
    }

    fn find_cell(&self, locals: &Names, at: Place, name: &Name) -> Result<FoundCell, TypeFault>
        ensures { Answers (Statements.cell_told at name.now self.now locals.now) (λ v. v) result }
    {
        let entry = self.find(locals, at, name)?;
        cell_named(at, entry)
    }

    fn check_condition(
        &self,
        alloc: Global,
        locals: &Names,
        e: &Expr,
    ) -> Result<cm_model::Expr, TypeFault>
        ensures { Answers (Statements.condition_told e.now self.now locals.now) (λ v. v) result }
    {
        let v = self.check_expr(alloc, locals, e)?;
        condition(v)
    }

    fn check_value(
        &self,
        alloc: Global,
        locals: &Names,
        e: &Expr,
        want: Option<Flat>,
    ) -> Result<cm_model::Expr, TypeFault>
        ensures { Answers (Statements.value_told e.now want self.now locals.now) (λ v. v) result }
    {
        let v = self.check_expr(alloc, locals, e)?;
        wanted(want, v.at, v.kind)?;
        Ok(v.expr)
    }

    /// Statements between braces. The locals after it are those before it.
    #[cycle(check_stmt)]
    pub(crate) fn check_block(
        &self,
        alloc: Global,
        locals: &mut Names,
        block: &Block,
    ) -> Result<Steps, TypeFault>
        ensures answers { Answers ((of_block self.now block.now).told locals.old) (λ v. v) result }
        ensures same { OnOk result (locals.new ≡ locals.old) }
    {
        let len = locals.len();
        let steps = self.check_stmts(alloc, locals, block.statements.as_slice())?;
        locals.cut(len);
        Ok(steps)
    }

    #[cycle(check_stmt)]
    fn check_stmts(
        &self,
        alloc: Global,
        locals: &mut Names,
        statements: &[Stmt],
    ) -> Result<Steps, TypeFault>
        ensures answers { Answers (Statements.block_told [] false (map (stmt_told self.now) statements.now) locals.old)
            (λ v. v) result }
        ensures keeps { OnOk result (take (length locals.old) locals.new ≡ locals.old) }
    {
        let mut steps = List::new(alloc);
        let mut returns = false;
        for s in statements {
            let done = self.check_stmt(alloc, locals, s, returns)?;
            steps.push(done.stmt)?;
            returns = done.returns;
        }
        Ok(Steps { steps, returns })
    }

    // A statement behind one that always returns or not.
    #[cycle(check_stmt)]
    fn check_stmt(
        &self,
        alloc: Global,
        locals: &mut Names,
        s: &Stmt,
        returns: bool,
    ) -> Result<Done, TypeFault>
        ensures answers { Answers (stmt_told self.now s.now locals.old returns) (λ v. (v, locals.new)) result }
        ensures keeps { OnOk result (take (length locals.old) locals.new ≡ locals.old) }
    {
        match s {
            Stmt::Let { at, name, value } => {
                self.check_let(alloc, locals, returns, *at, name, value.get())
            }
            Stmt::Assign { at, name, value } => {
                self.check_assign(alloc, locals, returns, *at, name, value.get())
            }
            Stmt::AssignAt {
                at,
                name,
                key,
                value,
            } => self.check_assign_at(alloc, locals, returns, *at, name, key.get(), value.get()),
            Stmt::If { at, test, yes } => {
                self.check_if(alloc, locals, returns, *at, test.get(), yes)
            }
            Stmt::IfElse {
                at,
                test,
                yes,
                other,
            } => self.check_if_else(alloc, locals, returns, *at, test.get(), yes, other),
            Stmt::Case {
                at,
                of,
                nothing,
                name,
                something,
            } => self.check_case(
                alloc,
                locals,
                returns,
                *at,
                of.get(),
                nothing,
                name,
                something,
            ),
            Stmt::Assume { at, test } => {
                self.check_assume(alloc, locals, returns, *at, test.get())
            }
            Stmt::Return { at, value } => {
                self.check_return(alloc, locals, returns, *at, value.get())
            }
        }
    }

    fn check_let(
        &self,
        alloc: Global,
        locals: &mut Names,
        returns: bool,
        at: Place,
        name: &Name,
        value: &Expr,
    ) -> Result<Done, TypeFault>
        ensures answers { Answers (stmt_step self.now (layer.Let at name.now value.now) locals.old returns)
            (λ v. (v, locals.new)) result }
        ensures keeps { OnOk result (take (length locals.old) locals.new ≡ locals.old) }
    {
        rule(!returns, rules::RETURNS, at)?;
        let v = self.check_expr(alloc, locals, value)?;
        rule(is_value(v.kind), rules::NUMBER, v.at)?;
        self.bind(alloc, locals, at, name, value_of(v.kind))?;
        Ok(done(cm_model::Stmt::Let(v.expr), false))
    }

    fn check_assign(
        &self,
        alloc: Global,
        locals: &Names,
        returns: bool,
        at: Place,
        name: &Name,
        value: &Expr,
    ) -> Result<Done, TypeFault>
        ensures { Answers (stmt_step self.now (layer.Assign at name.now value.now) locals.now returns)
            (λ v. (v, locals.now)) result }
    {
        rule(!returns, rules::RETURNS, at)?;
        let found = self.find_cell(locals, at, name)?;
        let value = self.check_value(alloc, locals, value, found.value)?;
        let stmt = cm_model::Stmt::Set {
            state: found.state,
            key: None,
            value,
        };
        Ok(done(stmt, false))
    }

    fn check_assign_at(
        &self,
        alloc: Global,
        locals: &Names,
        returns: bool,
        at: Place,
        name: &Name,
        key: &Expr,
        value: &Expr,
    ) -> Result<Done, TypeFault>
        ensures { Answers (stmt_step self.now (layer.AssignAt at name.now key.now value.now) locals.now returns)
            (λ v. (v, locals.now)) result }
    {
        rule(!returns, rules::RETURNS, at)?;
        let found = self.find_map(locals, at, name)?;
        let key = self.check_value(alloc, locals, key, found.key)?;
        let value = self.check_value(alloc, locals, value, found.value)?;
        let stmt = cm_model::Stmt::Set {
            state: found.state,
            key: Some(key),
            value,
        };
        Ok(done(stmt, false))
    }

    #[cycle(check_stmt)]
    fn check_if(
        &self,
        alloc: Global,
        locals: &mut Names,
        returns: bool,
        at: Place,
        test: &Expr,
        yes: &Block,
    ) -> Result<Done, TypeFault>
        ensures answers { Answers (stmt_step self.now (layer.If at test.now (of_block self.now yes.now)) locals.old
            returns)
            (λ v. (v, locals.new)) result }
        ensures same { OnOk result (locals.new ≡ locals.old) }
    {
        rule(!returns, rules::RETURNS, at)?;
        let cond = self.check_condition(alloc, locals, test)?;
        let yes = self.check_block(alloc, locals, yes)?;
        let stmt = cm_model::Stmt::If {
            cond,
            yes: yes.steps,
            other: List::new(alloc),
        };
        Ok(done(stmt, false))
    }

    #[cycle(check_stmt)]
    fn check_if_else(
        &self,
        alloc: Global,
        locals: &mut Names,
        returns: bool,
        at: Place,
        test: &Expr,
        yes: &Block,
        other: &Block,
    ) -> Result<Done, TypeFault>
        ensures answers { Answers (stmt_step self.now (layer.IfElse at test.now (of_block self.now yes.now)
            (of_block self.now
            other.now)) locals.old returns)
            (λ v. (v, locals.new)) result }
        ensures same { OnOk result (locals.new ≡ locals.old) }
    {
        rule(!returns, rules::RETURNS, at)?;
        let cond = self.check_condition(alloc, locals, test)?;
        let yes = self.check_block(alloc, locals, yes)?;
        let other = self.check_block(alloc, locals, other)?;
        let stmt = cm_model::Stmt::If {
            cond,
            yes: yes.steps,
            other: other.steps,
        };
        Ok(done(stmt, yes.returns && other.returns))
    }

    #[cycle(check_stmt)]
    fn check_case(
        &self,
        alloc: Global,
        locals: &mut Names,
        returns: bool,
        at: Place,
        of: &Expr,
        nothing: &Block,
        name: &Name,
        something: &Block,
    ) -> Result<Done, TypeFault>
        ensures answers { Answers (stmt_step self.now (layer.Case at of.now (of_block self.now nothing.now)
            name.now (of_block
            self.now something.now)) locals.old returns)
            (λ v. (v, locals.new)) result }
        ensures same { OnOk result (locals.new ≡ locals.old) }
    {
        rule(!returns, rules::RETURNS, at)?;
        let v = self.check_expr(alloc, locals, of)?;
        let inner = payload_of(v.at, v.kind)?;
        let none = self.check_block(alloc, locals, nothing)?;
        let some = self.check_some_block(alloc, locals, name, inner, something)?;
        let stmt = cm_model::Stmt::Case {
            of: v.expr,
            none: none.steps,
            some: some.steps,
        };
        Ok(done(stmt, none.returns && some.returns))
    }

    // A block in which the payload is one local more.
    #[cycle(check_stmt)]
    fn check_some_block(
        &self,
        alloc: Global,
        locals: &mut Names,
        name: &Name,
        ty: Option<Flat>,
        block: &Block,
    ) -> Result<Steps, TypeFault>
        ensures answers { Answers (Statements.some_told name.now ty (of_block self.now block.now) self.now locals.old)
            (λ v. v) result }
        ensures same { OnOk result (locals.new ≡ locals.old) }
    {
        let len = locals.len();
        self.bind(alloc, locals, block.at, name, ty)?;
        let steps = self.check_block(alloc, locals, block)?;
        locals.cut(len);
        Ok(steps)
    }

    fn check_assume(
        &self,
        alloc: Global,
        locals: &Names,
        returns: bool,
        at: Place,
        test: &Expr,
    ) -> Result<Done, TypeFault>
        ensures { Answers (stmt_step self.now (layer.Assume at test.now) locals.now returns)
            (λ v. (v, locals.now)) result }
    {
        rule(!returns, rules::RETURNS, at)?;
        let cond = self.check_condition(alloc, locals, test)?;
        Ok(done(cm_model::Stmt::Assume(cond), false))
    }

    fn check_return(
        &self,
        alloc: Global,
        locals: &Names,
        returns: bool,
        at: Place,
        value: &Expr,
    ) -> Result<Done, TypeFault>
        ensures { Answers (stmt_step self.now (layer.Return at value.now) locals.now returns)
            (λ v. (v, locals.now)) result }
    {
        rule(!returns, rules::RETURNS, at)?;
        let value = self.check_value(alloc, locals, value, self.reply)?;
        Ok(done(cm_model::Stmt::Return(value), true))
    }
}
