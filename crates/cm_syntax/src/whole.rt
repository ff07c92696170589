//! A whole text, read to its end.

ghost use Rattle.std.specs.Prelude.{◌≡◌, ◌-◌, ◌^◌, ◌<◌, List, length, Result, None, Some, IfOk, IfErr};
ghost use Rattle.cm_tokens.specs.Listing as Listing;
ghost use Rattle.cm_tokens.specs.declared.token.Placed.{Placed};
ghost use Rattle.cm_tokens.specs.declared.token.Token.{Token};
ghost use Rattle.cm_syntax.specs.Text as Text;
ghost use Rattle.cm_syntax.specs.Text.{Reads, IsRight, GivesAnswer};
ghost use Rattle.cm_syntax.specs.inner.Machine.{Answers, head};
ghost use Rattle.cm_syntax.specs.declared.tree.Tree.{Tree};
ghost use Rattle.cm_syntax.specs.declared.fault.SyntaxFault.{SyntaxFault};
ghost use Rattle.cm_syntax.specs.declared.fault.SyntaxFault.TheVariants as fault;

use crate::lists::held;
use crate::reader::Reader;
use crate::{SyntaxFault, Tree};
use std::alloc::Global;

/// Reads the tree of a model's text. Where there is none, the fault names the first token at fault.
#[tactic(auto, using(crate::proofs::Answering::right_of, crate::proofs::Answering::exact_of))]
pub fn read_tree(alloc: Global, bytes: &[u8]) -> Result<Tree, SyntaxFault>
    requires { length bytes.now < 2 ^ 32 - 1 }
    ensures right { IsRight (Listing.tokens_of bytes.now) result }
    ensures exact { (r : Result Tree SyntaxFault) → IsRight (Listing.tokens_of bytes.now) r → GivesAnswer r result }
{
    answer(alloc, bytes)
}

#[tactic(auto, using(crate::proofs::Answering::answers_memory))]
fn answer(alloc: Global, bytes: &[u8]) -> Result<Tree, SyntaxFault>
    requires { length bytes.now < 2 ^ 32 - 1 }
    ensures { Answers (Listing.tokens_of bytes.now) result }
{
    let mut reader = Reader::new(alloc, bytes)?;
    read_whole(&mut reader)
}

// The tree, where no token is left behind it.
#[tactic(auto, using(crate::proofs::Answering::answers))]
fn read_whole(reader: &mut Reader) -> Result<Tree, SyntaxFault>
    requires { reader.old.opened ≡ 0 }
    ensures { Answers reader.old.left result }
{
    let tree = reader.read_text()?;
    let (tree, ()) = held(tree, nothing_left(reader))?;
    Ok(tree)
}

fn nothing_left(reader: &Reader) -> Result<(), SyntaxFault>
    ensures ok { IfOk result (λ u. head reader.now.left ≡ None) }
    ensures err { IfErr result (λ e. (t : Token) × (head reader.now.left ≡ Some t)
        × (e ≡ fault.Syntax (Text.place_of reader.now.left))) }
{
    match reader.peek() {
        None => Ok(()),
        Some(_) => Err(reader.stuck()),
    }
}

/// A text has at most one tree.
pub fn one_tree()
    ensures { (t u : Tree) (text : List Placed) → Reads t text → Reads u text → t ≡ u }
{}
