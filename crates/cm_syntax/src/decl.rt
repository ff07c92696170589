//! Declarations and whole texts are read.

ghost use Rattle.std.specs.Prelude.{◌≡◌, ◌<◌, ◌≤◌, IfOk, Some, true, length};
ghost use Rattle.std.specs.Bool.{OnTrue, OnFalse};
ghost use Rattle.cm_tokens.specs.declared.token.Token.TheVariants as token;
ghost use Rattle.cm_syntax.specs.inner.Machine as Machine;
ghost use Rattle.cm_syntax.specs.inner.Machine.{Reads, ADecl, Decls, Key, Where, Text, head, no_end};

use crate::lists::held;
use crate::mark::Mark;
use crate::reader::Reader;
use crate::{Decl, Expr, SyntaxFault, Tree, Type};
use cm_model::{Boxed, List, Name, Place};
use cm_tokens::Token;

impl<'a> Reader<'a> {
    /// A declaration.
    #[tactic(auto, using(crate::proofs::Decisions::stuck_a_decl))]
    pub fn read_decl(&mut self) -> Result<Decl, SyntaxFault>
        ensures reads { Reads ADecl (λ x. x) self.old self.new result }
        ensures shorter { IfOk result (λ x. length self.new.left < length self.old.left) }
    {
        match self.peek() {
            Some(Token::Sort) => self.read_sort(),
            Some(Token::Int) => self.read_int(),
            Some(Token::Enum) => self.read_enum(),
            Some(Token::Record) => self.read_record(),
            Some(Token::State) => self.read_state(),
            Some(Token::Fn) => self.read_function(),
            Some(Token::Call) => self.read_call(),
            _ => Err(self.stuck()),
        }
    }

    #[tactic(auto, using(crate::proofs::DeclSteps::steps_sort))]
    fn read_sort(&mut self) -> Result<Decl, SyntaxFault>
        requires { head self.old.left ≡ Some token.Sort }
        ensures reads { Reads ADecl (λ x. x) self.old self.new result }
        ensures shorter { IfOk result (λ x. length self.new.left < length self.old.left) }
    {
        let at = self.pass()?;
        let name = self.read_name()?;
        self.read_mark(Mark::Semicolon)?;
        Ok(Decl::Sort { at, name })
    }

    #[tactic(auto, using(crate::proofs::DeclSteps::steps_int))]
    fn read_int(&mut self) -> Result<Decl, SyntaxFault>
        requires { head self.old.left ≡ Some token.Int }
        ensures reads { Reads ADecl (λ x. x) self.old self.new result }
        ensures shorter { IfOk result (λ x. length self.new.left < length self.old.left) }
    {
        let at = self.pass()?;
        let name = self.read_name()?;
        let low = self.read_num()?;
        self.read_mark(Mark::DotDot)?;
        let high = self.read_num()?;
        self.read_mark(Mark::Semicolon)?;
        Ok(Decl::Int {
            at,
            name,
            low,
            high,
        })
    }

    #[tactic(auto, using(crate::proofs::DeclSteps::steps_enum))]
    fn read_enum(&mut self) -> Result<Decl, SyntaxFault>
        requires { head self.old.left ≡ Some token.Enum }
        ensures reads { Reads ADecl (λ x. x) self.old self.new result }
        ensures shorter { IfOk result (λ x. length self.new.left < length self.old.left) }
    {
        let at = self.pass()?;
        let name = self.read_name()?;
        self.read_mark(Mark::OpenCurly)?;
        let first = self.read_name()?;
        let more = self.read_more_names()?;
        self.read_mark(Mark::CloseCurly)?;
        Ok(Decl::Enum {
            at,
            name,
            first,
            more,
        })
    }

    #[tactic(auto, using(crate::proofs::DeclSteps::steps_record))]
    fn read_record(&mut self) -> Result<Decl, SyntaxFault>
        requires { head self.old.left ≡ Some token.Record }
        ensures reads { Reads ADecl (λ x. x) self.old self.new result }
        ensures shorter { IfOk result (λ x. length self.new.left < length self.old.left) }
    {
        let at = self.pass()?;
        let name = self.read_name()?;
        self.read_mark(Mark::OpenCurly)?;
        let first = self.read_part()?;
        let more = self.read_more_parts()?;
        self.read_mark(Mark::CloseCurly)?;
        Ok(Decl::Record {
            at,
            name,
            first,
            more,
        })
    }

    #[tactic(auto, using(crate::proofs::DeclSteps::steps_state))]
    fn read_state(&mut self) -> Result<Decl, SyntaxFault>
        requires { head self.old.left ≡ Some token.State }
        ensures reads { Reads ADecl (λ x. x) self.old self.new result }
        ensures shorter { IfOk result (λ x. length self.new.left < length self.old.left) }
    {
        let at = self.pass()?;
        let name = self.read_name()?;
        self.read_mark(Mark::Colon)?;
        let key = self.read_map()?;
        let value = self.read_type()?;
        let invariant = self.read_where()?;
        self.read_mark(Mark::Semicolon)?;
        Ok(state_of(at, name, key, value, invariant))
    }

    /// The word `map`, a type and an arrow, or nothing.
    #[tactic(auto, using(crate::proofs::Skips::skip_key))]
    fn read_map(&mut self) -> Result<Option<Type>, SyntaxFault>
        ensures reads { Reads Key (λ x. x) self.old self.new result }
        ensures shorter { IfOk result (λ x. length self.new.left ≤ length self.old.left) }
    {
        match self.peek() {
            Some(Token::Map) => self.read_key_type(),
            _ => Ok(None),
        }
    }

    #[tactic(auto, using(crate::proofs::TypeSteps::steps_map))]
    fn read_key_type(&mut self) -> Result<Option<Type>, SyntaxFault>
        requires { head self.old.left ≡ Some token.Map }
        ensures reads { Reads Key (λ x. x) self.old self.new result }
        ensures shorter { IfOk result (λ x. length self.new.left ≤ length self.old.left) }
    {
        self.pass()?;
        let key = self.read_type()?;
        self.read_mark(Mark::Arrow)?;
        Ok(Some(key))
    }

    /// The word `where` and an expression, or nothing.
    #[tactic(auto, using(crate::proofs::Skips::skip_where))]
    fn read_where(&mut self) -> Result<Option<Boxed<Expr>>, SyntaxFault>
        ensures reads { Reads Where (λ x. x) self.old self.new result }
        ensures shorter { IfOk result (λ x. length self.new.left ≤ length self.old.left) }
    {
        match self.peek() {
            Some(Token::Where) => self.read_invariant(),
            _ => Ok(None),
        }
    }

    #[tactic(auto, using(crate::proofs::ExprSteps::steps_where))]
    fn read_invariant(&mut self) -> Result<Option<Boxed<Expr>>, SyntaxFault>
        requires { head self.old.left ≡ Some token.Where }
        ensures reads { Reads Where (λ x. x) self.old self.new result }
        ensures shorter { IfOk result (λ x. length self.new.left ≤ length self.old.left) }
    {
        self.pass()?;
        Ok(Some(self.read_boxed()?))
    }

    #[tactic(auto, using(crate::proofs::DeclSteps::steps_function))]
    fn read_function(&mut self) -> Result<Decl, SyntaxFault>
        requires { head self.old.left ≡ Some token.Fn }
        ensures reads { Reads ADecl (λ x. x) self.old self.new result }
        ensures shorter { IfOk result (λ x. length self.new.left < length self.old.left) }
    {
        let at = self.pass()?;
        let name = self.read_name()?;
        self.read_mark(Mark::OpenRound)?;
        let params = self.read_params()?;
        self.read_mark(Mark::CloseRound)?;
        self.read_mark(Mark::Arrow)?;
        let reply = self.read_type()?;
        let body = self.read_block()?;
        Ok(Decl::Function {
            at,
            name,
            params,
            reply,
            body,
        })
    }

    #[tactic(auto, using(crate::proofs::CallSteps::steps_call))]
    fn read_call(&mut self) -> Result<Decl, SyntaxFault>
        requires { head self.old.left ≡ Some token.Call }
        ensures reads { Reads ADecl (λ x. x) self.old self.new result }
        ensures shorter { IfOk result (λ x. length self.new.left < length self.old.left) }
    {
        let at = self.pass()?;
        let name = self.read_name()?;
        self.read_mark(Mark::OpenRound)?;
        let params = self.read_params()?;
        let internal = self.read_internals()?;
        self.read_mark(Mark::CloseRound)?;
        self.read_mark(Mark::Arrow)?;
        let reply = self.read_type()?;
        let body = self.read_block()?;
        Ok(Decl::Call {
            at,
            name,
            params,
            internal,
            reply,
            body,
        })
    }

    /// Declarations, and the end of the text.
    #[tactic(auto, using(crate::proofs::ListSteps::items_decls))]
    fn read_decls(&mut self) -> Result<List<Decl>, SyntaxFault>
        ensures { Reads Decls (λ x. x) self.old self.new result }
    {
        let mut more = List::new(self.alloc());
        'declarations: while !self.is_at_end() {
            let item = self.read_decl()?;
            more.push(item)?;
        }
        self.pass()?;
        Ok(more)
    }

    /// A whole text.
    #[tactic(auto, using(crate::proofs::DeclSteps::steps_text))]
    pub fn read_text(&mut self) -> Result<Tree, SyntaxFault>
        ensures { Reads Text (λ x. x) self.old self.new result }
    {
        let at = self.place();
        let first = self.read_decl()?;
        let (first, more) = held(first, self.read_decls())?;
        Ok(Tree { at, first, more })
    }

    /// Whether the next token is the end of the text.
    fn is_at_end(&self) -> bool
        ensures yes { OnTrue result (head self.now.left ≡ Some token.End) }
        ensures no { OnFalse result (no_end (head self.now.left) ≡ true) }
    {
        match self.peek() {
            Some(Token::End) => true,
            _ => false,
        }
    }
}

fn state_of(
    at: Place,
    name: Name,
    key: Option<Type>,
    value: Type,
    invariant: Option<Boxed<Expr>>,
) -> Decl
    ensures { result ≡ Machine.state_of at name key value invariant }
{
    match (key, invariant) {
        (None, None) => Decl::Cell { at, name, value },
        (None, Some(invariant)) => Decl::CellWhere {
            at,
            name,
            value,
            invariant,
        },
        (Some(key), None) => Decl::Map {
            at,
            name,
            key,
            value,
        },
        (Some(key), Some(invariant)) => Decl::MapWhere {
            at,
            name,
            key,
            value,
            invariant,
        },
    }
}
