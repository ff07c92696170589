//! Sets of outcomes as bits.

ghost use Rattle.std.specs.Prelude.{◌≡◌, ◌↔◌, ◌<◌, ◌≤◌, ℕ, IsTrue, if◌then◌else◌};
ghost use Rattle.cm_ctx.specs.Masks.{Has, third_of};

/// Outcomes: bit i is outcome i.
#[derive(Clone, Copy, Debug, PartialEq, Eq)]
pub struct Mask(pub u64);

impl Mask {
    /// Whether the outcome is among these.
    pub fn has(self, outcome: u8) -> bool
        requires { outcome < 64 }
        ensures has { IsTrue result ↔ Has self.0 outcome }
    {
        (self.0 >> outcome) & 1 == 1
    }
}

fn bit(is_set: bool, value: u64) -> u64
    ensures { result ≡ (if is_set then value else 0) }
{
    if is_set { value } else { 0 }
}

/// The outcomes that have their tests.
pub fn mask_of(first: bool, second: bool, third: bool) -> Mask
    ensures { (i : ℕ) → Has result.0 i ↔ IsTrue (third_of first second third i) }
{
    let low = bit(first, 1) + bit(second, 2);
    Mask(low + bit(third, 4))
}

/// One outcome alone.
pub fn only(outcome: u64) -> Mask
    requires { outcome < 64 }
    ensures { (i : ℕ) → Has result.0 i ↔ (i ≡ outcome) }
{
    Mask(1 << outcome)
}

/// The first outcomes.
pub fn first(count: u64) -> Mask
    requires some { 0 < count }
    requires few { count ≤ 64 }
    ensures { (i : ℕ) → Has result.0 i ↔ (i < count) }
{
    if count == 64 {
        Mask(u64::MAX)
    } else {
        Mask((1 << count) - 1)
    }
}
