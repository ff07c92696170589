//! Numbers of pairs of variables, by shells.

ghost use Rattle.std.specs.Prelude.{◌≡◌, ◌≢◌, ◌<◌, ◌/◌, ◌^◌, ◌==◌, ◌||◌, ℕ, length};
ghost use Rattle.cm_sorts.specs.inner.Pairs.{is_pair};
ghost use Rattle.cm_sorts.specs.inner.Pairs as pairs;

/// Whether the bit of the pair is set.
#[tactic(auto, unfolding(crate::specs::inner::Pairs::are_marked))]
pub fn are_marked(words: &[u64], x: u64, y: u64) -> bool
    requires x { x < 2 ^ 32 }
    requires y { y < 2 ^ 32 }
    ensures { result ≡ pairs.are_marked words.now x y }
{
    x != y && is_set(words, place(x, y))
}

/// Sets the bit of the pair.
pub fn mark(words: &mut [u64], x: u64, y: u64)
    requires x { x < 2 ^ 32 }
    requires y { y < 2 ^ 32 }
    requires differ { x ≢ y }
    requires room { pairs.place x y / 64 < length words.old }
    ensures { (i j : ℕ) → pairs.are_marked words.new i j ≡ (pairs.are_marked words.old i j || is_pair x y i j) }
{
    set(words, place(x, y));
}

/// The place of the bit of a pair.
#[tactic(auto, unfolding(crate::specs::inner::Pairs::place))]
fn place(x: u64, y: u64) -> u64
    requires x { x < 2 ^ 32 }
    requires y { y < 2 ^ 32 }
    ensures { result ≡ pairs.place x y }
{
    pairs_below(x.max(y)) + x.min(y)
}

/// How many pairs have two numbers below `x`.
#[tactic(auto, unfolding(crate::specs::inner::Pairs::pairs_below))]
pub fn pairs_below(x: u64) -> u64
    requires { x < 2 ^ 32 }
    ensures value { result ≡ pairs.pairs_below x }
    ensures small { result < 2 ^ 63 }
{
    x * x.saturating_sub(1) / 2
}

#[tactic(auto, unfolding(crate::specs::inner::Pairs::is_set), using(std::proofs::lemmas::Nat::Bits::shr_and_one))]
fn is_set(words: &[u64], place: u64) -> bool
    ensures { result ≡ pairs.is_set words.now place }
{
    match words.get((place / 64) as usize) {
        Some(word) => (*word >> (place % 64)) & 1 == 1,
        None => false,
    }
}

fn set(words: &mut [u64], place: u64)
    requires { place / 64 < length words.old }
    ensures { (k : ℕ) → pairs.is_set words.new k ≡ (pairs.is_set words.old k || k == place) }
{
    words[(place / 64) as usize] |= 1 << (place % 64);
}
