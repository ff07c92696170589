//! A reader of tokens that counts the brackets that are open.

ghost use Rattle.std.specs.Prelude.{◌≡◌, ◌∷◌, ◌-◌, ◌^◌, ◌<◌, ◌≤◌, ◌+◌, [], List, IfOk, IfErr, MatchOption, MatchResult};
ghost use Rattle.std.specs.Prelude.{true, false, length};
ghost use Rattle.cm_tokens.specs.Listing as Listing;
ghost use Rattle.cm_tokens.specs.declared.token.Placed.{Placed};
ghost use Rattle.cm_tokens.specs.declared.token.Token.TheVariants as token;
ghost use Rattle.cm_model.specs.declared.place.Place.{Place};
ghost use Rattle.cm_syntax.specs.inner.Machine.{Reads, PassesOr, AName, ANumber, Exactly, head, no_name};
ghost use Rattle.cm_syntax.specs.inner.Machine as Machine;
ghost use Rattle.cm_syntax.specs.Text as Text;
ghost use Rattle.cm_syntax.specs.declared.fault.SyntaxFault.TheVariants as fault;

use crate::SyntaxFault;
use crate::mark::Mark;
use cm_model::{Name, NoMemory, Place, limits};
use cm_tokens::{Placed, Token, Tokens};
use std::alloc::Global;
use std::marker::Model;

/// The place of a token that is not there.
const NOWHERE: Place = Place { line: 0, col: 0 };

/// Reads a text token by token and counts the brackets that are open.
#[derive(Drop)]
pub struct Reader<'a> {
    alloc: Global,
    tokens: Tokens<'a>,
    opened: u64,
}

impl<'a> Model for Reader<'a> {
    ghost use Rattle.cm_syntax.specs.inner.Machine.{Ahead};

    ghost Value = { Ahead };

    ghost view = { λ r. record { opened = r.opened; left = r.tokens } };
}

/// What a token does to the number of open brackets.
enum Bracket {
    Opens,
    Closes,
    Neither,
}

impl<'a> Reader<'a> {
    /// Stands before the first token of a text.
    pub fn new(alloc: Global, bytes: &'a [u8]) -> Result<Reader<'a>, NoMemory>
        requires { length bytes.now < 2 ^ 32 - 1 }
        ensures { IfOk result (λ r. r ≡ record { opened = 0; left = Listing.tokens_of bytes.entry.now }) }
    {
        let tokens = Tokens::new(alloc, bytes)?;
        Ok(Reader {
            alloc,
            tokens,
            opened: 0,
        })
    }

    /// The next token.
    pub fn peek(&self) -> Option<&Token>
        ensures { MatchOption result (head self.now.left ≡ None) (λ t. head self.now.left ≡ Some t.now) }
    {
        self.tokens.peek()
    }

    /// The place of the next token.
    pub fn place(&self) -> Place
        ensures { Text.place_of self.now.left ≡ result }
    {
        match self.tokens.peek() {
            Some(_) => self.tokens.place(),
            None => NOWHERE,
        }
    }

    /// The fault of the next token.
    pub fn stuck(&self) -> SyntaxFault
        ensures { (place : Place) × (Text.place_of self.now.left ≡ place) × (result ≡ fault.Syntax place) }
    {
        SyntaxFault::Syntax(self.place())
    }

    /// Passes the next token and tells its place.
    #[tactic(auto, unfolding(crate::specs::inner::Machine::Passes, crate::specs::inner::Machine::Halts))]
    pub fn pass(&mut self) -> Result<Place, SyntaxFault>
        ensures passes { PassesOr self.old self.new result }
        ensures shorter { IfOk result (λ x. length self.old.left ≡ length self.new.left + 1) }
    {
        let at = self.place();
        let opened = self.opened_after()?;
        drop_next(&mut self.tokens)?;
        self.opened = opened;
        Ok(at)
    }

    /// An allocator for what is read.
    pub fn alloc(&self) -> Global {
        self.alloc
    }

    /// Takes a mark.
    #[tactic(auto, using(crate::proofs::Decisions::gives_mark, crate::proofs::Decisions::halts_mark, crate::proofs::Decisions::stuck_mark))]
    pub fn read_mark(&mut self, mark: Mark) -> Result<(), SyntaxFault>
        ensures reads { Reads (Exactly mark) (λ x. tt) self.old self.new result }
        ensures shorter { IfOk result (λ x. length self.new.left < length self.old.left) }
    {
        if self.is_next(mark) {
            self.pass()?;
            Ok(())
        } else {
            Err(self.stuck())
        }
    }

    fn is_next(&self, mark: Mark) -> bool
        ensures { result ≡ Machine.is_next mark (head self.now.left) }
    {
        match self.peek() {
            Some(token) => is_mark(mark, token),
            None => false,
        }
    }

    /// Takes a name.
    #[tactic(auto, using(crate::proofs::Decisions::gives_name, crate::proofs::Decisions::stuck_a_name, crate::proofs::Steps::memory))]
    pub fn read_name(&mut self) -> Result<Name, SyntaxFault>
        ensures reads { Reads AName (λ x. x) self.old self.new result }
        ensures shorter { IfOk result (λ x. length self.new.left < length self.old.left) }
    {
        let at = self.place();
        match take_name(&mut self.tokens)? {
            Some(name) => Ok(name),
            None => Err(SyntaxFault::Syntax(at)),
        }
    }

    /// Takes a number.
    #[tactic(auto, using(crate::proofs::Decisions::gives_number, crate::proofs::Decisions::halts_number, crate::proofs::Decisions::stuck_a_number))]
    pub fn read_number(&mut self) -> Result<u32, SyntaxFault>
        ensures reads { Reads ANumber (λ x. x) self.old self.new result }
        ensures shorter { IfOk result (λ x. length self.new.left < length self.old.left) }
    {
        match self.peek() {
            Some(Token::Number(size)) => {
                let size = *size;
                self.pass()?;
                Ok(size)
            }
            _ => Err(self.stuck()),
        }
    }

    /// How many brackets are open after the next token.
    #[tactic(auto, unfolding(crate::specs::inner::Machine::Halts))]
    fn opened_after(&self) -> Result<u64, SyntaxFault>
        ensures ok { IfOk result (λ n. (p : Placed) × (rest : List Placed) × (self.now.left ≡ p ∷ rest)
            × (Text.too_deep self.now.opened p.token ≡ false) × (n ≡ Text.open_after self.now.opened p.token)) }
        ensures err { IfErr result (λ e. Machine.Halts self.now e) }
    {
        match self.tokens.peek() {
            Some(token) => opened_by(self.opened, token).ok_or(SyntaxFault::Deep(self.place())),
            None => Err(SyntaxFault::Syntax(NOWHERE)),
        }
    }
}

/// How many brackets are open after a token, or `None` above the limit.
fn opened_by(before: u64, token: &Token) -> Option<u64>
    ensures { MatchOption result (Text.too_deep before token.now ≡ true) (λ n. (Text.too_deep before token.now ≡ false)
        × (n ≡ Text.open_after before token.now)) }
{
    match bracket_of(token) {
        Bracket::Opens if before >= limits::BRACKETS => None,
        Bracket::Opens => Some(before + 1),
        Bracket::Closes => Some(before.saturating_sub(1)),
        Bracket::Neither => Some(before),
    }
}

fn bracket_of(token: &Token) -> Bracket
    ensures { result ≡ Machine.bracket_of token.now }
{
    match token {
        Token::OpenRound | Token::OpenSquare | Token::OpenCurly => Bracket::Opens,
        Token::CloseRound | Token::CloseSquare | Token::CloseCurly => Bracket::Closes,
        _ => Bracket::Neither,
    }
}

fn is_mark(mark: Mark, token: &Token) -> bool
    ensures { result ≡ Machine.is_mark mark token.now }
{
    match (mark, token) {
        (Mark::Semicolon, Token::Semicolon)
        | (Mark::Colon, Token::Colon)
        | (Mark::DotDot, Token::DotDot)
        | (Mark::OpenRound, Token::OpenRound)
        | (Mark::CloseRound, Token::CloseRound)
        | (Mark::CloseSquare, Token::CloseSquare)
        | (Mark::OpenCurly, Token::OpenCurly)
        | (Mark::CloseCurly, Token::CloseCurly)
        | (Mark::Assign, Token::Assign)
        | (Mark::Arrow, Token::Arrow)
        | (Mark::Nothing, Token::Nothing)
        | (Mark::Something, Token::Something)
        | (Mark::Internal, Token::Internal) => true,
        _ => false,
    }
}

fn take_name(tokens: &mut Tokens) -> Result<Option<Name>, NoMemory>
    ensures { IfOk result (λ o. MatchOption o (no_name (head tokens.old) ≡ true) (λ n. (p : Placed)
        × (tokens.old ≡ p ∷ tokens.new) × (p.token ≡ token.Name n))) }
{
    match tokens.take()? {
        Some(placed) => Ok(name_of(placed.token)),
        None => Ok(None),
    }
}

fn name_of(given: Token) -> Option<Name>
    ensures { MatchOption result (no_name (Some given) ≡ true) (λ n. given ≡ token.Name n) }
{
    match given {
        Token::Name(name) => Some(name),
        _ => None,
    }
}

fn drop_next(tokens: &mut Tokens) -> Result<(), NoMemory>
    ensures { IfOk result (λ u. (p : Placed) (rest : List Placed) → tokens.old ≡ p ∷ rest → tokens.new ≡ rest) }
{
    match tokens.take()? {
        Some(_) => Ok(()),
        None => Ok(()),
    }
}
