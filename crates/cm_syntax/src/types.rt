//! Numbers, types and parts are read.

ghost use Rattle.std.specs.Prelude.{◌≡◌, ◌<◌, ◌≤◌, IfOk, Some, true, length};
ghost use Rattle.cm_tokens.specs.declared.token.Token.TheVariants as token;
ghost use Rattle.cm_syntax.specs.inner.Machine.{Reads, ANum, AType, APart, MoreParts, Params, Internals, MoreNames};
ghost use Rattle.cm_syntax.specs.inner.Machine.{head};
ghost use Rattle.cm_syntax.specs.inner.Machine.{starts_number, starts_name};

use crate::lists::with_first;
use crate::mark::Mark;
use crate::reader::Reader;
use crate::{Num, Part, SyntaxFault, Type};
use cm_model::{Boxed, List, Name};
use cm_tokens::Token;

impl<'a> Reader<'a> {
    /// A number with or without a minus.
    #[tactic(auto, using(crate::proofs::Decisions::stuck_a_num))]
    pub fn read_num(&mut self) -> Result<Num, SyntaxFault>
        ensures reads { Reads ANum (λ x. x) self.old self.new result }
        ensures shorter { IfOk result (λ x. length self.new.left < length self.old.left) }
    {
        match self.peek() {
            Some(Token::Number(_)) => self.read_digits(),
            Some(Token::Minus) => self.read_negative(),
            _ => Err(self.stuck()),
        }
    }

    #[tactic(auto, using(crate::proofs::TypeSteps::steps_digits))]
    fn read_digits(&mut self) -> Result<Num, SyntaxFault>
        requires { starts_number (head self.old.left) ≡ true }
        ensures reads { Reads ANum (λ x. x) self.old self.new result }
        ensures shorter { IfOk result (λ x. length self.new.left < length self.old.left) }
    {
        let at = self.place();
        let size = self.read_number()?;
        Ok(Num::Digits { at, size })
    }

    #[tactic(auto, using(crate::proofs::TypeSteps::steps_negative))]
    fn read_negative(&mut self) -> Result<Num, SyntaxFault>
        requires { head self.old.left ≡ Some token.Minus }
        ensures reads { Reads ANum (λ x. x) self.old self.new result }
        ensures shorter { IfOk result (λ x. length self.new.left < length self.old.left) }
    {
        let at = self.pass()?;
        let size = self.read_number()?;
        Ok(Num::Negative { at, size })
    }

    /// A type.
    #[cycle(read_type)]
    #[tactic(auto, using(crate::proofs::Decisions::stuck_a_type))]
    pub fn read_type(&mut self) -> Result<Type, SyntaxFault>
        ensures reads { Reads AType (λ x. x) self.old self.new result }
        ensures shorter { IfOk result (λ x. length self.new.left < length self.old.left) }
    {
        match self.peek() {
            Some(Token::Bool) => self.read_bool(),
            Some(Token::Name(_)) => self.read_named_type(),
            Some(Token::Option) => self.read_option(),
            _ => Err(self.stuck()),
        }
    }

    #[tactic(auto, using(crate::proofs::TypeSteps::steps_bool))]
    fn read_bool(&mut self) -> Result<Type, SyntaxFault>
        requires { head self.old.left ≡ Some token.Bool }
        ensures reads { Reads AType (λ x. x) self.old self.new result }
        ensures shorter { IfOk result (λ x. length self.new.left < length self.old.left) }
    {
        let at = self.pass()?;
        Ok(Type::Bool { at })
    }

    #[tactic(auto, using(crate::proofs::TypeSteps::steps_named))]
    fn read_named_type(&mut self) -> Result<Type, SyntaxFault>
        requires { starts_name (head self.old.left) ≡ true }
        ensures reads { Reads AType (λ x. x) self.old self.new result }
        ensures shorter { IfOk result (λ x. length self.new.left < length self.old.left) }
    {
        let at = self.place();
        let name = self.read_name()?;
        Ok(Type::Named { at, name })
    }

    #[cycle(read_type)]
    #[tactic(auto, using(crate::proofs::TypeSteps::steps_optional))]
    fn read_option(&mut self) -> Result<Type, SyntaxFault>
        requires { head self.old.left ≡ Some token.Option }
        ensures reads { Reads AType (λ x. x) self.old self.new result }
        ensures shorter { IfOk result (λ x. length self.new.left < length self.old.left) }
    {
        let at = self.pass()?;
        self.read_mark(Mark::OpenRound)?;
        let inner = self.read_type()?;
        self.read_mark(Mark::CloseRound)?;
        Ok(Type::Optional {
            at,
            inner: Boxed::new(self.alloc(), inner)?,
        })
    }

    /// A name and its type.
    #[tactic(auto, using(crate::proofs::TypeSteps::steps_part))]
    pub fn read_part(&mut self) -> Result<Part, SyntaxFault>
        ensures reads { Reads APart (λ x. x) self.old self.new result }
        ensures shorter { IfOk result (λ x. length self.new.left < length self.old.left) }
    {
        let at = self.place();
        let name = self.read_name()?;
        self.read_mark(Mark::Colon)?;
        let value = self.read_type()?;
        Ok(Part { at, name, value })
    }

    /// Parts, each with a comma in front.
    #[tactic(auto, using(crate::proofs::ListSteps::items_more_parts))]
    pub fn read_more_parts(&mut self) -> Result<List<Part>, SyntaxFault>
        ensures reads { Reads MoreParts (λ x. x) self.old self.new result }
        ensures shorter { IfOk result (λ x. length self.new.left ≤ length self.old.left) }
    {
        let mut more = List::new(self.alloc());
        'parts: while let Some(Token::Comma) = self.peek() {
            self.pass()?;
            let part = self.read_part()?;
            more.push(part)?;
        }
        Ok(more)
    }

    /// Parts with commas between them, or none.
    #[tactic(auto, using(crate::proofs::Skips::skip_params))]
    pub fn read_params(&mut self) -> Result<List<Part>, SyntaxFault>
        ensures reads { Reads Params (λ x. x) self.old self.new result }
        ensures shorter { IfOk result (λ x. length self.new.left ≤ length self.old.left) }
    {
        match self.peek() {
            Some(Token::Name(_)) => self.read_some_params(),
            _ => Ok(List::new(self.alloc())),
        }
    }

    #[tactic(auto, using(crate::proofs::TypeSteps::steps_params))]
    fn read_some_params(&mut self) -> Result<List<Part>, SyntaxFault>
        requires { starts_name (head self.old.left) ≡ true }
        ensures reads { Reads Params (λ x. x) self.old self.new result }
        ensures shorter { IfOk result (λ x. length self.new.left ≤ length self.old.left) }
    {
        let first = self.read_part()?;
        let more = self.read_more_parts()?;
        Ok(with_first(self.alloc(), first, more)?)
    }

    /// A semicolon, the word `internal` and parts, or nothing.
    #[tactic(auto, using(crate::proofs::Skips::skip_internals))]
    pub fn read_internals(&mut self) -> Result<List<Part>, SyntaxFault>
        ensures reads { Reads Internals (λ x. x) self.old self.new result }
        ensures shorter { IfOk result (λ x. length self.new.left ≤ length self.old.left) }
    {
        match self.peek() {
            Some(Token::Semicolon) => self.read_some_internals(),
            _ => Ok(List::new(self.alloc())),
        }
    }

    #[tactic(auto, using(crate::proofs::TypeSteps::steps_internals))]
    fn read_some_internals(&mut self) -> Result<List<Part>, SyntaxFault>
        requires { head self.old.left ≡ Some token.Semicolon }
        ensures reads { Reads Internals (λ x. x) self.old self.new result }
        ensures shorter { IfOk result (λ x. length self.new.left ≤ length self.old.left) }
    {
        self.pass()?;
        self.read_mark(Mark::Internal)?;
        let first = self.read_part()?;
        let more = self.read_more_parts()?;
        Ok(with_first(self.alloc(), first, more)?)
    }

    /// Names, each with a comma in front.
    #[tactic(auto, using(crate::proofs::ListSteps::items_more_names))]
    pub fn read_more_names(&mut self) -> Result<List<Name>, SyntaxFault>
        ensures reads { Reads MoreNames (λ x. x) self.old self.new result }
        ensures shorter { IfOk result (λ x. length self.new.left ≤ length self.old.left) }
    {
        let mut more = List::new(self.alloc());
        'names: while let Some(Token::Comma) = self.peek() {
            self.pass()?;
            let name = self.read_name()?;
            more.push(name)?;
        }
        Ok(more)
    }
}
