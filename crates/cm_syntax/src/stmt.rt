//! Statements and blocks are read.

ghost use Rattle.std.specs.Prelude.{◌≡◌, ◌<◌, ◌≤◌, IfOk, Some, true, length};
ghost use Rattle.std.specs.Bool.{OnTrue, OnFalse};
ghost use Rattle.cm_tokens.specs.declared.token.Token.TheVariants as token;
ghost use Rattle.cm_syntax.specs.inner.Machine as Machine;
ghost use Rattle.cm_syntax.specs.inner.Machine.{Reads, ABlock, Stmts, AStmt, Index, Else, head, starts_name};
ghost use Rattle.cm_syntax.specs.inner.Machine.{no_close_curly};

use crate::mark::Mark;
use crate::reader::Reader;
use crate::{Block, Expr, Stmt, SyntaxFault};
use cm_model::{Boxed, List, Name, Place};
use cm_tokens::Token;

impl<'a> Reader<'a> {
    /// Statements between braces.
    #[cycle(read_stmt)]
    #[tactic(auto, using(crate::proofs::Decisions::stuck_a_block))]
    pub fn read_block(&mut self) -> Result<Block, SyntaxFault>
        ensures reads { Reads ABlock (λ x. x) self.old self.new result }
        ensures shorter { IfOk result (λ x. length self.new.left < length self.old.left) }
    {
        match self.peek() {
            Some(Token::OpenCurly) => self.read_braced(),
            _ => Err(self.stuck()),
        }
    }

    #[cycle(read_stmt)]
    #[tactic(auto, using(crate::proofs::StmtSteps::steps_block))]
    fn read_braced(&mut self) -> Result<Block, SyntaxFault>
        requires { head self.old.left ≡ Some token.OpenCurly }
        ensures reads { Reads ABlock (λ x. x) self.old self.new result }
        ensures shorter { IfOk result (λ x. length self.new.left < length self.old.left) }
    {
        let at = self.pass()?;
        let statements = self.read_stmts()?;
        Ok(Block { at, statements })
    }

    /// Statements, and the brace that closes them.
    #[cycle(read_stmt)]
    #[tactic(auto, using(crate::proofs::ListSteps::items_stmts))]
    fn read_stmts(&mut self) -> Result<List<Stmt>, SyntaxFault>
        ensures reads { Reads Stmts (λ x. x) self.old self.new result }
        ensures shorter { IfOk result (λ x. length self.new.left < length self.old.left) }
    {
        let mut more = List::new(self.alloc());
        'statements: while !self.closes_block() {
            let item = self.read_stmt()?;
            more.push(item)?;
        }
        self.pass()?;
        Ok(more)
    }

    /// A statement.
    #[cycle(read_stmt)]
    #[tactic(auto, using(crate::proofs::Decisions::stuck_a_stmt))]
    fn read_stmt(&mut self) -> Result<Stmt, SyntaxFault>
        ensures reads { Reads AStmt (λ x. x) self.old self.new result }
        ensures shorter { IfOk result (λ x. length self.new.left < length self.old.left) }
    {
        match self.peek() {
            Some(Token::Let) => self.read_let(),
            Some(Token::Name(_)) => self.read_assignment(),
            Some(Token::If) => self.read_if(),
            Some(Token::Case) => self.read_case(),
            Some(Token::Assume) => self.read_assume(),
            Some(Token::Return) => self.read_return(),
            _ => Err(self.stuck()),
        }
    }

    #[tactic(auto, using(crate::proofs::StmtSteps::steps_let))]
    fn read_let(&mut self) -> Result<Stmt, SyntaxFault>
        requires { head self.old.left ≡ Some token.Let }
        ensures reads { Reads AStmt (λ x. x) self.old self.new result }
        ensures shorter { IfOk result (λ x. length self.new.left < length self.old.left) }
    {
        let at = self.pass()?;
        let name = self.read_name()?;
        self.read_mark(Mark::Assign)?;
        let value = self.read_boxed()?;
        self.read_mark(Mark::Semicolon)?;
        Ok(Stmt::Let { at, name, value })
    }

    #[tactic(auto, using(crate::proofs::StmtSteps::steps_assign))]
    fn read_assignment(&mut self) -> Result<Stmt, SyntaxFault>
        requires { starts_name (head self.old.left) ≡ true }
        ensures reads { Reads AStmt (λ x. x) self.old self.new result }
        ensures shorter { IfOk result (λ x. length self.new.left < length self.old.left) }
    {
        let at = self.place();
        let name = self.read_name()?;
        let key = self.read_index()?;
        self.read_mark(Mark::Assign)?;
        let value = self.read_boxed()?;
        self.read_mark(Mark::Semicolon)?;
        Ok(assign_of(at, name, key, value))
    }

    /// A key in brackets, or nothing.
    #[tactic(auto, using(crate::proofs::Skips::skip_index))]
    fn read_index(&mut self) -> Result<Option<Boxed<Expr>>, SyntaxFault>
        ensures reads { Reads Index (λ x. x) self.old self.new result }
        ensures shorter { IfOk result (λ x. length self.new.left ≤ length self.old.left) }
    {
        match self.peek() {
            Some(Token::OpenSquare) => self.read_some_index(),
            _ => Ok(None),
        }
    }

    #[tactic(auto, using(crate::proofs::StmtSteps::steps_index))]
    fn read_some_index(&mut self) -> Result<Option<Boxed<Expr>>, SyntaxFault>
        requires { head self.old.left ≡ Some token.OpenSquare }
        ensures reads { Reads Index (λ x. x) self.old self.new result }
        ensures shorter { IfOk result (λ x. length self.new.left ≤ length self.old.left) }
    {
        self.pass()?;
        let key = self.read_boxed()?;
        self.read_mark(Mark::CloseSquare)?;
        Ok(Some(key))
    }

    #[cycle(read_stmt)]
    #[tactic(auto, using(crate::proofs::StmtSteps::steps_if))]
    fn read_if(&mut self) -> Result<Stmt, SyntaxFault>
        requires { head self.old.left ≡ Some token.If }
        ensures reads { Reads AStmt (λ x. x) self.old self.new result }
        ensures shorter { IfOk result (λ x. length self.new.left < length self.old.left) }
    {
        let at = self.pass()?;
        let test = self.read_boxed()?;
        let yes = self.read_block()?;
        let other = self.read_else()?;
        Ok(if_of(at, test, yes, other))
    }

    /// The word `else` and a block, or nothing.
    #[cycle(read_stmt)]
    #[tactic(auto, using(crate::proofs::Skips::skip_else))]
    fn read_else(&mut self) -> Result<Option<Block>, SyntaxFault>
        ensures reads { Reads Else (λ x. x) self.old self.new result }
        ensures shorter { IfOk result (λ x. length self.new.left ≤ length self.old.left) }
    {
        match self.peek() {
            Some(Token::Else) => self.read_other(),
            _ => Ok(None),
        }
    }

    #[cycle(read_stmt)]
    #[tactic(auto, using(crate::proofs::StmtSteps::steps_else))]
    fn read_other(&mut self) -> Result<Option<Block>, SyntaxFault>
        requires { head self.old.left ≡ Some token.Else }
        ensures reads { Reads Else (λ x. x) self.old self.new result }
        ensures shorter { IfOk result (λ x. length self.new.left ≤ length self.old.left) }
    {
        self.pass()?;
        Ok(Some(self.read_block()?))
    }

    #[cycle(read_stmt)]
    #[tactic(auto, using(crate::proofs::StmtSteps::steps_case))]
    fn read_case(&mut self) -> Result<Stmt, SyntaxFault>
        requires { head self.old.left ≡ Some token.Case }
        ensures reads { Reads AStmt (λ x. x) self.old self.new result }
        ensures shorter { IfOk result (λ x. length self.new.left < length self.old.left) }
    {
        let at = self.pass()?;
        let of = self.read_boxed()?;
        self.read_mark(Mark::OpenCurly)?;
        self.read_mark(Mark::Nothing)?;
        let nothing = self.read_block()?;
        self.read_mark(Mark::Something)?;
        let name = self.read_name()?;
        let something = self.read_block()?;
        self.read_mark(Mark::CloseCurly)?;
        Ok(Stmt::Case {
            at,
            of,
            nothing,
            name,
            something,
        })
    }

    #[tactic(auto, using(crate::proofs::StmtSteps::steps_assume))]
    fn read_assume(&mut self) -> Result<Stmt, SyntaxFault>
        requires { head self.old.left ≡ Some token.Assume }
        ensures reads { Reads AStmt (λ x. x) self.old self.new result }
        ensures shorter { IfOk result (λ x. length self.new.left < length self.old.left) }
    {
        let at = self.pass()?;
        let test = self.read_boxed()?;
        self.read_mark(Mark::Semicolon)?;
        Ok(Stmt::Assume { at, test })
    }

    #[tactic(auto, using(crate::proofs::StmtSteps::steps_return))]
    fn read_return(&mut self) -> Result<Stmt, SyntaxFault>
        requires { head self.old.left ≡ Some token.Return }
        ensures reads { Reads AStmt (λ x. x) self.old self.new result }
        ensures shorter { IfOk result (λ x. length self.new.left < length self.old.left) }
    {
        let at = self.pass()?;
        let value = self.read_boxed()?;
        self.read_mark(Mark::Semicolon)?;
        Ok(Stmt::Return { at, value })
    }

    /// Whether the next token closes a block.
    fn closes_block(&self) -> bool
        ensures yes { OnTrue result (head self.now.left ≡ Some token.CloseCurly) }
        ensures no { OnFalse result (no_close_curly (head self.now.left) ≡ true) }
    {
        match self.peek() {
            Some(Token::CloseCurly) => true,
            _ => false,
        }
    }
}

fn assign_of(at: Place, name: Name, key: Option<Boxed<Expr>>, value: Boxed<Expr>) -> Stmt
    ensures { result ≡ Machine.assign_of at name key value }
{
    match key {
        None => Stmt::Assign { at, name, value },
        Some(key) => Stmt::AssignAt {
            at,
            name,
            key,
            value,
        },
    }
}

fn if_of(at: Place, test: Boxed<Expr>, yes: Block, other: Option<Block>) -> Stmt
    ensures { result ≡ Machine.if_of at test yes other }
{
    match other {
        None => Stmt::If { at, test, yes },
        Some(other) => Stmt::IfElse {
            at,
            test,
            yes,
            other,
        },
    }
}
