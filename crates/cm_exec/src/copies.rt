//! Copies of comparisons, which share all terms with their origin.

ghost use Rattle.std.specs.Prelude.{◌≡◌, IfOk};

use crate::comparison::{Comparison, Fields, Pair, Sides, Stage, Waiting};
use cm_model::{List, NoMemory};
use std::alloc::Global;

impl Comparison {
    /// An equal comparison, which shares all terms.
    ///
    /// # Errors
    /// `NoMemory` where memory runs out.
    pub fn try_copy(&self, alloc: Global) -> Result<Comparison, NoMemory>
        ensures equal { IfOk result (λ copy. copy ≡ self.now) }
    {
        let stage = copied_stage(&self.stage)?;
        let frames = copied_frames(alloc, self.frames.as_slice())?;
        Ok(Comparison { stage, frames })
    }
}

impl Sides {
    /// The same two terms.
    ///
    /// # Errors
    /// `NoMemory` where one has as many owners as can be counted.
    pub fn share(&self) -> Result<Sides, NoMemory>
        ensures same { IfOk result (λ s. s ≡ self.now) }
    {
        let left = self.left.share()?;
        let right = self.right.share()?;
        Ok(Sides { left, right })
    }
}

impl Pair {
    fn share(&self) -> Result<Pair, NoMemory>
        ensures { IfOk result (λ p. p ≡ self.now) }
    {
        let sides = self.sides.share()?;
        Ok(Pair {
            sides,
            below: self.below,
        })
    }
}

impl Waiting {
    fn share(&self) -> Result<Waiting, NoMemory>
        ensures { IfOk result (λ w. w ≡ self.now) }
    {
        match self {
            Waiting::LeftTag(left, right) => Ok(Waiting::LeftTag(*left, *right)),
            Waiting::RightTag(left, right) => Ok(Waiting::RightTag(*left, *right)),
            Waiting::LeftOption(left, right, pair) => {
                let pair = pair.share()?;
                Ok(Waiting::LeftOption(*left, *right, pair))
            }
            Waiting::RightOption(left, right, pair) => {
                let pair = pair.share()?;
                Ok(Waiting::RightOption(*left, *right, pair))
            }
            Waiting::Equality(equal) => Ok(Waiting::Equality(*equal)),
        }
    }
}

fn copied_stage(stage: &Stage) -> Result<Stage, NoMemory>
    ensures { IfOk result (λ s. s ≡ stage.now) }
{
    match stage {
        Stage::Fresh(pair) => {
            let pair = pair.share()?;
            Ok(Stage::Fresh(pair))
        }
        Stage::Asked(waiting) => {
            let waiting = waiting.share()?;
            Ok(Stage::Asked(waiting))
        }
        Stage::Answered(waiting, outcome) => {
            let waiting = waiting.share()?;
            Ok(Stage::Answered(waiting, *outcome))
        }
        Stage::Ended(equal) => Ok(Stage::Ended(*equal)),
        Stage::Stuck => Ok(Stage::Stuck),
    }
}

fn copied_frames(alloc: Global, frames: &[Fields]) -> Result<List<Fields>, NoMemory>
    ensures { IfOk result (λ copy. copy ≡ frames.now) }
{
    let mut copy = Vec::with_capacity(alloc, frames.len())?;
    for fields in frames {
        copy.push(fields.share()?)?;
    }
    Ok(List::from_vec(copy))
}

impl Fields {
    fn share(&self) -> Result<Fields, NoMemory>
        ensures { IfOk result (λ f. f ≡ self.now) }
    {
        let left = self.left.share()?;
        let right = self.right.share()?;
        Ok(Fields {
            left,
            right,
            at: self.at,
            below: self.below,
        })
    }
}
