//! Lists of parts.

ghost use Rattle.std.specs.Prelude.{◌≡◌, ◌∷◌, IfOk, IfErr, Ok, Err};

use crate::SyntaxFault;
use cm_model::{List, NoMemory};
use std::alloc::Global;

/// A list with one item in front of others.
pub fn with_first<T: Drop>(alloc: Global, first: T, more: List<T>) -> Result<List<T>, NoMemory>
    ensures { IfOk result (λ all. all ≡ first ∷ more) }
{
    let mut all = List::new(alloc);
    all.push(first)?;
    all.append(more)?;
    Ok(all)
}

/// What was read with what is read next; where that fails, what was read is dropped here.
pub fn held<T: Drop, R>(kept: T, next: Result<R, SyntaxFault>) -> Result<(T, R), SyntaxFault>
    ensures ok { IfOk result (λ both. (both.0 ≡ kept) × (next ≡ Ok both.1)) }
    ensures err { IfErr result (λ e. next ≡ Err e) }
{
    match next {
        Ok(next) => Ok((kept, next)),
        Err(fault) => Err(fault),
    }
}
