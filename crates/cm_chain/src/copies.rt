//! Copies of chains, which share all terms with their origin.

ghost use Rattle.std.specs.Prelude.{◌≡◌, IfOk};

use crate::chain::{Chain, Replies, Stage};
use cm_beside::Verdict;
use cm_model::{List, NoMemory};
use std::alloc::Global;

impl Replies {
    fn share(&self) -> Result<Replies, NoMemory>
        ensures { IfOk result (λ copy. copy ≡ self.now) }
    {
        match self {
            Replies::None => Ok(Replies::None),
            Replies::One(a) => Ok(Replies::One(a.share()?)),
            Replies::Two(a, b) => Ok(Replies::Two(a.share()?, b.share()?)),
            Replies::Three(a, b, b_first) => Ok(Replies::Three(
                a.share()?,
                b.share()?,
                b_first.share()?,
            )),
        }
    }
}

fn copied_verdict(alloc: Global, verdict: &Verdict) -> Result<Verdict, NoMemory>
    ensures { IfOk result (λ copy. copy ≡ verdict.now) }
{
    match verdict {
        Verdict::Never => Ok(Verdict::Never),
        Verdict::If(equalities) => {
            let copy = Vec::from_slice(alloc, equalities.as_slice())?;
            Ok(Verdict::If(List::from_vec(copy)))
        }
    }
}

impl Stage {
    fn try_copy(&self, alloc: Global) -> Result<Stage, NoMemory>
        ensures { IfOk result (λ copy. copy ≡ self.now) }
    {
        match self {
            Stage::Runs(run) => {
                let run = run.try_copy(alloc)?;
                Ok(Stage::Runs(run))
            }
            Stage::Compares(comparison) => {
                let comparison = comparison.try_copy()?;
                Ok(Stage::Compares(comparison))
            }
            Stage::Ended(verdict) => {
                let verdict = copied_verdict(alloc, verdict)?;
                Ok(Stage::Ended(verdict))
            }
        }
    }
}

impl Chain {
    /// An equal chain, which shares all terms.
    ///
    /// # Errors
    /// `NoMemory` where memory runs out.
    pub fn try_copy(&self, alloc: Global) -> Result<Chain, NoMemory>
        ensures equal { IfOk result (λ copy. copy ≡ self.now) }
    {
        let calls = self.calls.share()?;
        let replies = self.replies.share()?;
        let stage = self.stage.try_copy(alloc)?;
        Ok(Chain {
            calls,
            replies,
            stage,
        })
    }
}
