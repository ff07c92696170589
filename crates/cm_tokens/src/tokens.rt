//! A text token by token.

ghost use Rattle.std.specs.Prelude.{◌≡◌, ◌-◌, ◌^◌, ◌<◌, if◌then◌else◌, List, [], ◌∷◌, length, IfOk, MatchOption};
ghost use Rattle.cm_tokens.specs.Listing.{tokens_behind, tokens_of};
ghost use Rattle.cm_tokens.specs.declared.token.Placed.{Placed};

use crate::first::first_token;
use crate::gap::skip_gap;
use crate::token::{Placed, Token};
use cm_model::{NoMemory, Place};
use cm_text::Cursor;
use std::alloc::Global;
use std::marker::Model;

// The next token with its place, and whether it is the end.
fn read(alloc: Global, cursor: &mut Cursor<'_>) -> Result<(Placed, bool), NoMemory>
    ensures { IfOk result (λ next. tokens_behind cursor.old.text cursor.old.at ≡ next.0
        ∷ (if next.1 then [] else tokens_behind cursor.new.text cursor.new.at)) }
{
    skip_gap(cursor);
    let at = cursor.place();
    let rest = cursor.rest();
    let (token, len) = first_token(alloc, rest)?;
    cursor.skip(len);
    Ok((Placed { token, at }, rest.is_empty()))
}

/// Reads a text token by token. Contracts see the list of the tokens left, each with its place.
#[derive(Drop)]
pub struct Tokens<'a> {
    alloc: Global,
    cursor: Cursor<'a>,
    // None after the end was taken.
    next: Option<Placed>,
    // Whether the end was read.
    ended: bool,
}

impl<'a> Model for Tokens<'a> {
    ghost use Rattle.std.specs.Prelude.{◌++◌, if◌then◌else◌, List, [], IfNone, IsTrue};
    ghost use Rattle.std.specs.Option.{option_to_list};
    ghost use Rattle.cm_tokens.specs.declared.token.Placed.{Placed};
    ghost use Rattle.cm_tokens.specs.Listing.{tokens_behind};
    ghost use Rattle.cm_tokens.specs.contracts.token.Placed as placed;
    ghost use Rattle.std.specs.Coded.{coded_list};

    ghost Value = { List Placed };

    ghost coded = { coded_list placed.the_row.coded };

    ghost view = { λ t. option_to_list t.next ++ (if t.ended then [] else tokens_behind t.cursor.text t.cursor.at) };

    ghost invariant = { λ t. IfNone t.next (IsTrue t.ended) };
}

impl<'a> Tokens<'a> {
    /// Stands before the first token.
    #[tactic(auto, unfolding(crate::specs::Listing::tokens_of))]
    pub fn new(alloc: Global, bytes: &'a [u8]) -> Result<Tokens<'a>, NoMemory>
        requires { length bytes.now < 2 ^ 32 - 1 }
        ensures tokens { IfOk result (λ tokens. tokens ≡ tokens_of bytes.entry.now) }
    {
        let mut cursor = Cursor::new(bytes);
        let (next, ended) = read(alloc, &mut cursor)?;
        Ok(Tokens {
            alloc,
            cursor,
            next: Some(next),
            ended,
        })
    }

    /// The token that comes next; none after the end was taken.
    #[inline(always)]
    pub fn peek(&self) -> Option<&Token>
        ensures next { MatchOption result (self.now ≡ []) (λ token. (p : Placed) × (rest : List Placed)
            × (self.now ≡ p ∷ rest) × (token.now ≡ p.token)) }
    {
        match &self.next {
            Some(next) => Some(&next.token),
            None => None,
        }
    }

    /// The place of the token that comes next; after the end was taken, the place where the text ends.
    pub fn place(&self) -> Place
        ensures place { (p : Placed) (rest : List Placed) → self.now ≡ p ∷ rest → result ≡ p.at }
    {
        match &self.next {
            Some(next) => next.at,
            None => self.cursor.place(),
        }
    }

    /// Takes the token that comes next; the end is taken like another, and nothing after it. Where memory runs
    /// out, what is left is not said.
    pub fn take(&mut self) -> Result<Option<Placed>, NoMemory>
        ensures taken { IfOk result (λ taken. MatchOption taken ((self.old ≡ []) × (self.new ≡ []))
            (λ p. self.old ≡ p ∷ self.new)) }
    {
        if self.ended {
            return Ok(self.next.take());
        }
        let (next, ended) = read(self.alloc, &mut self.cursor)?;
        self.ended = ended;
        Ok(self.next.replace(next))
    }
}
