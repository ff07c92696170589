//! Pairs of names among the words.

ghost use Rattle.std.specs.Prelude.{◌≡◌, ◌++◌, ◌∷◌, ℕ, IsTrue, IfOk, IfSome, IsErrOf};
ghost use Rattle.std.specs.Prelude.{List, MatchOption, Option, option_map};
ghost use Rattle.cm_model.specs.Names as Names;
ghost use Rattle.cm_words.specs.Values.{IsPair, IsPairOr};
ghost use Rattle.cm_words.specs.declared.pair.Two.{Two};

use crate::WordsFault;
use crate::name::is_name;
use cm_model::{Name, NoMemory};
use std::alloc::Global;

/// Two names of the model language.
#[derive(Debug, Drop)]
pub struct Two {
    pub first: Name,
    pub second: Name,
}

// What stands on either side of the first comma, which is the only one behind a name.
fn cut(text: &str) -> Option<(&str, &str)>
    ensures around { IfSome result (λ x. text.now ≡ x.0.now ++ 44 ∷ x.1.now) }
    ensures only { (first second : List ℕ) → IsTrue (Names.is_name first) → text.now ≡ first ++ 44 ∷ second
        → MatchOption result ⊥ (λ x. (x.0.now ≡ first) × (x.1.now ≡ second)) }
{
    match text.split_once(',') {
        Some((first, second)) => Some((first, second)),
        None => None,
    }
}

/// The two names that the text is, with one comma between.
pub fn names_in(text: &str) -> Option<(&str, &str)>
    ensures { MatchOption result
        ((first second : List ℕ) → ¬ IsPair text.now first second)
        (λ x. IsPair text.now x.0.now x.1.now) }
{
    let Some((first, second)) = cut(text) else {
        return None;
    };
    if !is_name(first) {
        return None;
    }
    if !is_name(second) {
        return None;
    }
    Some((first, second))
}

fn copied(alloc: Global, first: &str, second: &str) -> Result<Two, NoMemory>
    ensures { IfOk result (λ two. (two.first ≡ first.now) × (two.second ≡ second.now)) }
{
    Ok(Two {
        first: Name::from_str(alloc, first)?,
        second: Name::from_str(alloc, second)?,
    })
}

/// The pair that the text writes. Usage comes exactly where it writes none.
pub fn pair_in(alloc: Global, text: &str) -> Result<Two, WordsFault>
    ensures pair { IfOk result (λ two. IsPair text.now two.first two.second) }
    ensures usage { IsErrOf result WordsFault.Usage → (first second : List ℕ) → ¬ IsPair text.now first second }
{
    let Some((first, second)) = names_in(text) else {
        return Err(WordsFault::Usage);
    };
    match copied(alloc, first, second) {
        Ok(two) => Ok(two),
        Err(_) => Err(WordsFault::Memory),
    }
}

/// The pair of an option that has this text, if it is given. Usage comes exactly where its text writes none.
pub fn pair_or(alloc: Global, text: Option<&str>) -> Result<Option<Two>, WordsFault>
    ensures pair { IfOk result (λ pair. IsPairOr (option_map (λ t. t.now) text.entry) pair) }
    ensures usage { IsErrOf result WordsFault.Usage
        → (pair : Option Two) → ¬ IsPairOr (option_map (λ t. t.now) text.entry) pair }
{
    let Some(text) = text else {
        return Ok(None);
    };
    match pair_in(alloc, text) {
        Ok(two) => Ok(Some(two)),
        Err(fault) => Err(fault),
    }
}
