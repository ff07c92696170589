//! The outcomes of a question, one after another.

ghost use Rattle.std.specs.Prelude.{◌≤◌, ◌<◌, ℕ, IfSome, IfNone};
ghost use Rattle.cm_ctx.specs.Masks.{Has};

/// The least outcome of these bits from this number on.
pub fn least(bits: u64, from: u8) -> Option<u8>
    ensures small { IfSome result (λ d. d < 64) }
    ensures found { IfSome result (λ d. (from ≤ d) × Has bits d × ((x : ℕ) → from ≤ x → Has bits x → d ≤ x)) }
    ensures none { IfNone result ((x : ℕ) → from ≤ x → Has bits x → ⊥) }
{
    for outcome in from..64 {
        if (bits >> outcome) & 1 == 1 {
            return Some(outcome);
        }
    }
    None
}
