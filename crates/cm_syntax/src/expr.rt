//! Expressions are read.

ghost use Rattle.std.specs.Prelude.{◌≡◌, ◌<◌, ◌≤◌, IfOk, MatchOption, Some, true, length};
ghost use Rattle.cm_tokens.specs.declared.token.Token.TheVariants as token;
ghost use Rattle.cm_syntax.specs.Spelling.{relation_token};
ghost use Rattle.cm_syntax.specs.inner.Machine as Machine;
ghost use Rattle.cm_syntax.specs.inner.Machine.{Reads, AnExpr, MoreCmps, Ands, Ors, ACmp, Right, ASum, AnOffset};
ghost use Rattle.cm_syntax.specs.inner.Machine.{AUnary};
ghost use Rattle.cm_syntax.specs.inner.Machine.{APost, Fields, With, MoreSets, ASet, APrim, BehindName, Args, MoreArgs};
ghost use Rattle.cm_syntax.specs.inner.Machine.{head};
ghost use Rattle.cm_syntax.specs.inner.Machine.{starts_num, starts_name, no_not, no_close_round, no_relation};

use crate::lists::{held, with_first};
use crate::mark::Mark;
use crate::reader::Reader;
use crate::tails::{AfterName, Joined, Offset, RightSide};
use crate::{Cmp, Expr, Post, Relation, Set, Sum, SyntaxFault, Unary, tree};
use cm_model::{Boxed, List, Name, Place};
use cm_tokens::Token;

impl<'a> Reader<'a> {
    /// An expression.
    #[cycle(read_expr)]
    #[tactic(auto, using(crate::proofs::ExprSteps::steps_expr))]
    pub fn read_expr(&mut self) -> Result<Expr, SyntaxFault>
        ensures reads { Reads AnExpr (λ x. x) self.old self.new result }
        ensures shorter { IfOk result (λ x. length self.new.left < length self.old.left) }
    {
        let at = self.place();
        let first = self.read_cmp()?;
        let (first, joined) = held(first, self.read_joined())?;
        Ok(expr_of(at, first, joined))
    }

    /// An expression, on the heap.
    #[cycle(read_expr)]
    #[tactic(auto, using(crate::proofs::Steps::results))]
    pub fn read_boxed(&mut self) -> Result<Boxed<Expr>, SyntaxFault>
        ensures reads { Reads AnExpr (λ x. x) self.old self.new result }
        ensures shorter { IfOk result (λ x. length self.new.left < length self.old.left) }
    {
        Ok(Boxed::new(self.alloc(), self.read_expr()?)?)
    }

    /// What follows the first comparison of an expression.
    #[cycle(read_expr)]
    #[tactic(auto, using(crate::proofs::Skips::skip_more_cmps))]
    fn read_joined(&mut self) -> Result<Joined, SyntaxFault>
        ensures reads { Reads MoreCmps (λ x. x) self.old self.new result }
        ensures shorter { IfOk result (λ x. length self.new.left ≤ length self.old.left) }
    {
        match self.peek() {
            Some(Token::And) => self.read_and(),
            Some(Token::Or) => self.read_or(),
            _ => Ok(Joined::Nothing),
        }
    }

    #[cycle(read_expr)]
    #[tactic(auto, using(crate::proofs::ExprSteps::steps_and))]
    fn read_and(&mut self) -> Result<Joined, SyntaxFault>
        requires { head self.old.left ≡ Some token.And }
        ensures reads { Reads MoreCmps (λ x. x) self.old self.new result }
        ensures shorter { IfOk result (λ x. length self.new.left ≤ length self.old.left) }
    {
        self.pass()?;
        let second = Boxed::new(self.alloc(), self.read_cmp()?)?;
        let more = self.read_ands()?;
        Ok(Joined::And(second, more))
    }

    #[cycle(read_expr)]
    #[tactic(auto, using(crate::proofs::ExprSteps::steps_or))]
    fn read_or(&mut self) -> Result<Joined, SyntaxFault>
        requires { head self.old.left ≡ Some token.Or }
        ensures reads { Reads MoreCmps (λ x. x) self.old self.new result }
        ensures shorter { IfOk result (λ x. length self.new.left ≤ length self.old.left) }
    {
        self.pass()?;
        let second = Boxed::new(self.alloc(), self.read_cmp()?)?;
        let more = self.read_ors()?;
        Ok(Joined::Or(second, more))
    }

    /// Comparisons, each with `and` in front.
    #[cycle(read_expr)]
    #[tactic(auto, using(crate::proofs::ListSteps::items_ands))]
    fn read_ands(&mut self) -> Result<List<Cmp>, SyntaxFault>
        ensures reads { Reads Ands (λ x. x) self.old self.new result }
        ensures shorter { IfOk result (λ x. length self.new.left ≤ length self.old.left) }
    {
        let mut more = List::new(self.alloc());
        'items: while let Some(Token::And) = self.peek() {
            self.pass()?;
            let item = self.read_cmp()?;
            more.push(item)?;
        }
        Ok(more)
    }

    /// Comparisons, each with `or` in front.
    #[cycle(read_expr)]
    #[tactic(auto, using(crate::proofs::ListSteps::items_ors))]
    fn read_ors(&mut self) -> Result<List<Cmp>, SyntaxFault>
        ensures reads { Reads Ors (λ x. x) self.old self.new result }
        ensures shorter { IfOk result (λ x. length self.new.left ≤ length self.old.left) }
    {
        let mut more = List::new(self.alloc());
        'items: while let Some(Token::Or) = self.peek() {
            self.pass()?;
            let item = self.read_cmp()?;
            more.push(item)?;
        }
        Ok(more)
    }

    /// A comparison, or what may stand on its side.
    #[cycle(read_expr)]
    #[tactic(auto, using(crate::proofs::ExprSteps::steps_cmp))]
    fn read_cmp(&mut self) -> Result<Cmp, SyntaxFault>
        ensures reads { Reads ACmp (λ x. x) self.old self.new result }
        ensures shorter { IfOk result (λ x. length self.new.left < length self.old.left) }
    {
        let at = self.place();
        let left = self.read_sum()?;
        let (left, right) = held(left, self.read_right())?;
        Ok(cmp_of(at, left, right))
    }

    /// What follows the left side of a comparison.
    #[cycle(read_expr)]
    #[tactic(auto, using(crate::proofs::ExprSteps::steps_right, crate::proofs::Skips::skip_right))]
    fn read_right(&mut self) -> Result<RightSide, SyntaxFault>
        ensures reads { Reads Right (λ x. x) self.old self.new result }
        ensures shorter { IfOk result (λ x. length self.new.left ≤ length self.old.left) }
    {
        let Some(relation) = self.peek_relation() else {
            return Ok(RightSide::Nothing);
        };
        self.pass()?;
        let right = Boxed::new(self.alloc(), self.read_sum()?)?;
        Ok(RightSide::Related(relation, right))
    }

    /// A sum with a number, or what may stand on its left.
    #[cycle(read_expr)]
    #[tactic(auto, using(crate::proofs::ExprSteps::steps_sum))]
    fn read_sum(&mut self) -> Result<Sum, SyntaxFault>
        ensures reads { Reads ASum (λ x. x) self.old self.new result }
        ensures shorter { IfOk result (λ x. length self.new.left < length self.old.left) }
    {
        let at = self.place();
        let left = self.read_unary()?;
        let (left, offset) = held(left, self.read_offset())?;
        Ok(sum_of(at, left, offset))
    }

    /// What follows the first operand of a sum.
    #[tactic(auto, using(crate::proofs::Skips::skip_an_offset))]
    fn read_offset(&mut self) -> Result<Offset, SyntaxFault>
        ensures reads { Reads AnOffset (λ x. x) self.old self.new result }
        ensures shorter { IfOk result (λ x. length self.new.left ≤ length self.old.left) }
    {
        match self.peek() {
            Some(Token::Plus) => self.read_plus(),
            Some(Token::Minus) => self.read_minus(),
            _ => Ok(Offset::Nothing),
        }
    }

    #[tactic(auto, using(crate::proofs::ExprSteps::steps_plus))]
    fn read_plus(&mut self) -> Result<Offset, SyntaxFault>
        requires { head self.old.left ≡ Some token.Plus }
        ensures reads { Reads AnOffset (λ x. x) self.old self.new result }
        ensures shorter { IfOk result (λ x. length self.new.left ≤ length self.old.left) }
    {
        self.pass()?;
        Ok(Offset::Plus(self.read_number()?))
    }

    #[tactic(auto, using(crate::proofs::ExprSteps::steps_minus))]
    fn read_minus(&mut self) -> Result<Offset, SyntaxFault>
        requires { head self.old.left ≡ Some token.Minus }
        ensures reads { Reads AnOffset (λ x. x) self.old self.new result }
        ensures shorter { IfOk result (λ x. length self.new.left ≤ length self.old.left) }
    {
        self.pass()?;
        Ok(Offset::Minus(self.read_number()?))
    }

    /// A negation, or what may be negated.
    #[cycle(read_expr)]
    fn read_unary(&mut self) -> Result<Unary, SyntaxFault>
        ensures reads { Reads AUnary (λ x. x) self.old self.new result }
        ensures shorter { IfOk result (λ x. length self.new.left < length self.old.left) }
    {
        match self.peek() {
            Some(Token::Not) => self.read_not(),
            _ => self.read_bare(),
        }
    }

    #[cycle(read_expr)]
    #[tactic(auto, using(crate::proofs::ExprSteps::steps_not))]
    fn read_not(&mut self) -> Result<Unary, SyntaxFault>
        requires { head self.old.left ≡ Some token.Not }
        ensures reads { Reads AUnary (λ x. x) self.old self.new result }
        ensures shorter { IfOk result (λ x. length self.new.left < length self.old.left) }
    {
        let at = self.pass()?;
        let of = self.read_post()?;
        Ok(Unary::Not { at, of })
    }

    #[cycle(read_expr)]
    #[tactic(auto, using(crate::proofs::ExprSteps::steps_bare))]
    fn read_bare(&mut self) -> Result<Unary, SyntaxFault>
        requires { no_not (head self.old.left) ≡ true }
        ensures reads { Reads AUnary (λ x. x) self.old self.new result }
        ensures shorter { IfOk result (λ x. length self.new.left < length self.old.left) }
    {
        let at = self.place();
        let only = self.read_post()?;
        Ok(Unary::Bare { at, only })
    }

    /// Something with the fields that are asked of it and the fields that are set.
    #[cycle(read_expr)]
    #[tactic(auto, using(crate::proofs::ExprSteps::steps_post))]
    fn read_post(&mut self) -> Result<Post, SyntaxFault>
        ensures reads { Reads APost (λ x. x) self.old self.new result }
        ensures shorter { IfOk result (λ x. length self.new.left < length self.old.left) }
    {
        let at = self.place();
        let prim = self.read_prim()?;
        let (prim, fields) = held(prim, self.read_fields())?;
        let ((prim, fields), sets) = held((prim, fields), self.read_with())?;
        Ok(Post {
            at,
            prim,
            fields,
            sets,
        })
    }

    /// Names, each with a dot in front.
    #[tactic(auto, using(crate::proofs::ListSteps::items_fields))]
    fn read_fields(&mut self) -> Result<List<Name>, SyntaxFault>
        ensures reads { Reads Fields (λ x. x) self.old self.new result }
        ensures shorter { IfOk result (λ x. length self.new.left ≤ length self.old.left) }
    {
        let mut more = List::new(self.alloc());
        'items: while let Some(Token::Dot) = self.peek() {
            self.pass()?;
            let item = self.read_name()?;
            more.push(item)?;
        }
        Ok(more)
    }

    /// The word `with` and the fields that are set, or nothing.
    #[cycle(read_expr)]
    #[tactic(auto, using(crate::proofs::Skips::skip_with))]
    fn read_with(&mut self) -> Result<List<Set>, SyntaxFault>
        ensures reads { Reads With (λ x. x) self.old self.new result }
        ensures shorter { IfOk result (λ x. length self.new.left ≤ length self.old.left) }
    {
        match self.peek() {
            Some(Token::With) => self.read_sets(),
            _ => Ok(List::new(self.alloc())),
        }
    }

    #[cycle(read_expr)]
    #[tactic(auto, using(crate::proofs::ExprSteps::steps_with))]
    fn read_sets(&mut self) -> Result<List<Set>, SyntaxFault>
        requires { head self.old.left ≡ Some token.With }
        ensures reads { Reads With (λ x. x) self.old self.new result }
        ensures shorter { IfOk result (λ x. length self.new.left ≤ length self.old.left) }
    {
        self.pass()?;
        self.read_mark(Mark::OpenCurly)?;
        let first = self.read_set()?;
        let (first, more) = held(first, self.read_more_sets())?;
        let sets = with_first(self.alloc(), first, more)?;
        self.read_mark(Mark::CloseCurly)?;
        Ok(sets)
    }

    /// A field and the value that it is set to.
    #[cycle(read_expr)]
    #[tactic(auto, using(crate::proofs::PrimSteps::steps_set))]
    fn read_set(&mut self) -> Result<Set, SyntaxFault>
        ensures reads { Reads ASet (λ x. x) self.old self.new result }
        ensures shorter { IfOk result (λ x. length self.new.left < length self.old.left) }
    {
        let at = self.place();
        let field = self.read_name()?;
        self.read_mark(Mark::Colon)?;
        let value = self.read_expr()?;
        Ok(Set { at, field, value })
    }

    /// Fields that are set, each with a comma in front.
    #[cycle(read_expr)]
    #[tactic(auto, using(crate::proofs::ListSteps::items_more_sets))]
    fn read_more_sets(&mut self) -> Result<List<Set>, SyntaxFault>
        ensures reads { Reads MoreSets (λ x. x) self.old self.new result }
        ensures shorter { IfOk result (λ x. length self.new.left ≤ length self.old.left) }
    {
        let mut more = List::new(self.alloc());
        'items: while let Some(Token::Comma) = self.peek() {
            self.pass()?;
            let item = self.read_set()?;
            more.push(item)?;
        }
        Ok(more)
    }

    /// An expression without a sign between its parts.
    #[cycle(read_expr)]
    #[tactic(auto, using(crate::proofs::Decisions::stuck_a_prim))]
    fn read_prim(&mut self) -> Result<tree::Primary, SyntaxFault>
        ensures reads { Reads APrim (λ x. x) self.old self.new result }
        ensures shorter { IfOk result (λ x. length self.new.left < length self.old.left) }
    {
        match self.peek() {
            Some(Token::Number(_)) | Some(Token::Minus) => self.read_prim_number(),
            Some(Token::True) => self.read_true(),
            Some(Token::False) => self.read_false(),
            Some(Token::It) => self.read_it(),
            Some(Token::Name(_)) => self.read_named(),
            Some(Token::Nothing) => self.read_none_of(),
            Some(Token::Something) => self.read_some_of(),
            Some(Token::OpenRound) => self.read_group(),
            _ => Err(self.stuck()),
        }
    }

    #[tactic(auto, using(crate::proofs::PrimSteps::steps_number))]
    fn read_prim_number(&mut self) -> Result<tree::Primary, SyntaxFault>
        requires { starts_num (head self.old.left) ≡ true }
        ensures reads { Reads APrim (λ x. x) self.old self.new result }
        ensures shorter { IfOk result (λ x. length self.new.left < length self.old.left) }
    {
        let at = self.place();
        let value = self.read_num()?;
        Ok(tree::Primary::Number { at, value })
    }

    #[tactic(auto, using(crate::proofs::PrimSteps::steps_true))]
    fn read_true(&mut self) -> Result<tree::Primary, SyntaxFault>
        requires { head self.old.left ≡ Some token.True }
        ensures reads { Reads APrim (λ x. x) self.old self.new result }
        ensures shorter { IfOk result (λ x. length self.new.left < length self.old.left) }
    {
        let at = self.pass()?;
        Ok(tree::Primary::True { at })
    }

    #[tactic(auto, using(crate::proofs::PrimSteps::steps_false))]
    fn read_false(&mut self) -> Result<tree::Primary, SyntaxFault>
        requires { head self.old.left ≡ Some token.False }
        ensures reads { Reads APrim (λ x. x) self.old self.new result }
        ensures shorter { IfOk result (λ x. length self.new.left < length self.old.left) }
    {
        let at = self.pass()?;
        Ok(tree::Primary::False { at })
    }

    #[tactic(auto, using(crate::proofs::PrimSteps::steps_it))]
    fn read_it(&mut self) -> Result<tree::Primary, SyntaxFault>
        requires { head self.old.left ≡ Some token.It }
        ensures reads { Reads APrim (λ x. x) self.old self.new result }
        ensures shorter { IfOk result (λ x. length self.new.left < length self.old.left) }
    {
        let at = self.pass()?;
        Ok(tree::Primary::It { at })
    }

    #[tactic(auto, using(crate::proofs::PrimSteps::steps_none))]
    fn read_none_of(&mut self) -> Result<tree::Primary, SyntaxFault>
        requires { head self.old.left ≡ Some token.Nothing }
        ensures reads { Reads APrim (λ x. x) self.old self.new result }
        ensures shorter { IfOk result (λ x. length self.new.left < length self.old.left) }
    {
        let at = self.pass()?;
        self.read_mark(Mark::OpenRound)?;
        let inner = self.read_type()?;
        self.read_mark(Mark::CloseRound)?;
        Ok(tree::Primary::NoneOf { at, inner })
    }

    #[cycle(read_expr)]
    #[tactic(auto, using(crate::proofs::PrimSteps::steps_some))]
    fn read_some_of(&mut self) -> Result<tree::Primary, SyntaxFault>
        requires { head self.old.left ≡ Some token.Something }
        ensures reads { Reads APrim (λ x. x) self.old self.new result }
        ensures shorter { IfOk result (λ x. length self.new.left < length self.old.left) }
    {
        let at = self.pass()?;
        self.read_mark(Mark::OpenRound)?;
        let of = self.read_boxed()?;
        self.read_mark(Mark::CloseRound)?;
        Ok(tree::Primary::SomeOf { at, of })
    }

    #[cycle(read_expr)]
    #[tactic(auto, using(crate::proofs::PrimSteps::steps_group))]
    fn read_group(&mut self) -> Result<tree::Primary, SyntaxFault>
        requires { head self.old.left ≡ Some token.OpenRound }
        ensures reads { Reads APrim (λ x. x) self.old self.new result }
        ensures shorter { IfOk result (λ x. length self.new.left < length self.old.left) }
    {
        let at = self.pass()?;
        let inner = self.read_boxed()?;
        self.read_mark(Mark::CloseRound)?;
        Ok(tree::Primary::Group { at, inner })
    }

    #[cycle(read_expr)]
    #[tactic(auto, using(crate::proofs::PrimSteps::steps_name))]
    fn read_named(&mut self) -> Result<tree::Primary, SyntaxFault>
        requires { starts_name (head self.old.left) ≡ true }
        ensures reads { Reads APrim (λ x. x) self.old self.new result }
        ensures shorter { IfOk result (λ x. length self.new.left < length self.old.left) }
    {
        let at = self.place();
        let name = self.read_name()?;
        let after = self.read_after_name()?;
        Ok(after_name(at, name, after))
    }

    /// What follows a name in an expression.
    #[cycle(read_expr)]
    #[tactic(auto, using(crate::proofs::Skips::skip_behind_name))]
    fn read_after_name(&mut self) -> Result<AfterName, SyntaxFault>
        ensures reads { Reads BehindName (λ x. x) self.old self.new result }
        ensures shorter { IfOk result (λ x. length self.new.left ≤ length self.old.left) }
    {
        match self.peek() {
            Some(Token::OpenSquare) => self.read_key(),
            Some(Token::OpenRound) => self.read_arguments(),
            _ => Ok(AfterName::Nothing),
        }
    }

    #[cycle(read_expr)]
    #[tactic(auto, using(crate::proofs::PrimSteps::steps_key))]
    fn read_key(&mut self) -> Result<AfterName, SyntaxFault>
        requires { head self.old.left ≡ Some token.OpenSquare }
        ensures reads { Reads BehindName (λ x. x) self.old self.new result }
        ensures shorter { IfOk result (λ x. length self.new.left ≤ length self.old.left) }
    {
        self.pass()?;
        let key = self.read_boxed()?;
        self.read_mark(Mark::CloseSquare)?;
        Ok(AfterName::Key(key))
    }

    #[cycle(read_expr)]
    #[tactic(auto, using(crate::proofs::PrimSteps::steps_arguments))]
    fn read_arguments(&mut self) -> Result<AfterName, SyntaxFault>
        requires { head self.old.left ≡ Some token.OpenRound }
        ensures reads { Reads BehindName (λ x. x) self.old self.new result }
        ensures shorter { IfOk result (λ x. length self.new.left ≤ length self.old.left) }
    {
        self.pass()?;
        let args = self.read_args()?;
        Ok(AfterName::Args(args))
    }

    /// Arguments with commas between them, and the bracket that closes them.
    #[cycle(read_expr)]
    fn read_args(&mut self) -> Result<List<Expr>, SyntaxFault>
        ensures reads { Reads Args (λ x. x) self.old self.new result }
        ensures shorter { IfOk result (λ x. length self.new.left < length self.old.left) }
    {
        match self.peek() {
            Some(Token::CloseRound) => self.read_no_args(),
            _ => self.read_some_args(),
        }
    }

    #[tactic(auto, using(crate::proofs::PrimSteps::steps_no_args))]
    fn read_no_args(&mut self) -> Result<List<Expr>, SyntaxFault>
        requires { head self.old.left ≡ Some token.CloseRound }
        ensures reads { Reads Args (λ x. x) self.old self.new result }
        ensures shorter { IfOk result (λ x. length self.new.left < length self.old.left) }
    {
        self.pass()?;
        Ok(List::new(self.alloc()))
    }

    #[cycle(read_expr)]
    #[tactic(auto, using(crate::proofs::PrimSteps::steps_some_args))]
    fn read_some_args(&mut self) -> Result<List<Expr>, SyntaxFault>
        requires { no_close_round (head self.old.left) ≡ true }
        ensures reads { Reads Args (λ x. x) self.old self.new result }
        ensures shorter { IfOk result (λ x. length self.new.left < length self.old.left) }
    {
        let first = self.read_expr()?;
        let (first, more) = held(first, self.read_more_args())?;
        let args = with_first(self.alloc(), first, more)?;
        self.read_mark(Mark::CloseRound)?;
        Ok(args)
    }

    /// Arguments, each with a comma in front.
    #[cycle(read_expr)]
    #[tactic(auto, using(crate::proofs::ListSteps::items_more_args))]
    fn read_more_args(&mut self) -> Result<List<Expr>, SyntaxFault>
        ensures reads { Reads MoreArgs (λ x. x) self.old self.new result }
        ensures shorter { IfOk result (λ x. length self.new.left ≤ length self.old.left) }
    {
        let mut more = List::new(self.alloc());
        'items: while let Some(Token::Comma) = self.peek() {
            self.pass()?;
            let item = self.read_expr()?;
            more.push(item)?;
        }
        Ok(more)
    }

    /// How the next token relates two sides.
    fn peek_relation(&self) -> Option<Relation>
        ensures { MatchOption result (no_relation (head self.now.left) ≡ true) (λ r. head self.now.left
            ≡ Some (relation_token r)) }
    {
        match self.peek() {
            Some(Token::Equal) => Some(Relation::Equal),
            Some(Token::NotEqual) => Some(Relation::NotEqual),
            Some(Token::Less) => Some(Relation::Less),
            Some(Token::AtMost) => Some(Relation::AtMost),
            Some(Token::Greater) => Some(Relation::Greater),
            Some(Token::AtLeast) => Some(Relation::AtLeast),
            _ => None,
        }
    }
}

fn expr_of(at: Place, first: Cmp, joined: Joined) -> Expr
    ensures { result ≡ Machine.expr_of at first joined }
{
    match joined {
        Joined::Nothing => Expr::Single { at, only: first },
        Joined::And(second, more) => Expr::All {
            at,
            first,
            second,
            more,
        },
        Joined::Or(second, more) => Expr::Any {
            at,
            first,
            second,
            more,
        },
    }
}

fn cmp_of(at: Place, left: Sum, right: RightSide) -> Cmp
    ensures { result ≡ Machine.cmp_of at left right }
{
    match right {
        RightSide::Nothing => Cmp::Side { at, only: left },
        RightSide::Related(relation, right) => Cmp::Compared {
            at,
            left,
            relation,
            right,
        },
    }
}

fn sum_of(at: Place, left: Unary, offset: Offset) -> Sum
    ensures { result ≡ Machine.sum_of at left offset }
{
    match offset {
        Offset::Nothing => Sum::Term { at, only: left },
        Offset::Plus(size) => Sum::Plus { at, left, size },
        Offset::Minus(size) => Sum::Minus { at, left, size },
    }
}

fn after_name(at: Place, name: Name, after: AfterName) -> tree::Primary
    ensures { result ≡ Machine.after_name at name after }
{
    match after {
        AfterName::Nothing => tree::Primary::Name { at, name },
        AfterName::Key(key) => tree::Primary::Entry { at, name, key },
        AfterName::Args(args) => tree::Primary::Apply { at, name, args },
    }
}
