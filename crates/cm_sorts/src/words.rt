//! Bits in words.

ghost use Rattle.std.specs.Prelude.{◌≡◌, ◌<◌, ◌≤◌, ◌^◌, ◌+◌, ◌*◌, ◌-◌, ◌/◌, ◌&&◌, ◌||◌, ◌++◌, ℕ, false, length, map};
ghost use Rattle.std.specs.Prelude.{slice_get, slice_index, replicate, OnOk, OnErr};
ghost use Rattle.cm_sorts.specs.inner.Pairs.{are_marked, is_pair, is_set, pairs_below};
ghost use Rattle.cm_sorts.specs.inner.Words.{labels_of, sorts_of, is_shared, relabelled};

use crate::pairs;
use cm_model::NoMemory;

/// What is kept of a variable: its sort, and the least variable of its class.
#[derive(Clone, Copy)]
pub struct Variable {
    pub sort: u16,
    pub label: u32,
}

/// The label of variable `x`.
pub fn label_at(variables: &[Variable], x: u64) -> u64
    requires { x < length variables.now }
    ensures value { result ≡ slice_index (labels_of variables.now) x }
    ensures small { result < 2 ^ 32 }
{
    u64::from(variables[x as usize].label)
}

/// The sort of variable `x`, where it is there.
pub fn sort_at(variables: &[Variable], x: u64) -> Option<u16>
    ensures { result ≡ slice_get (sorts_of variables.now) x }
{
    match variables.get(x as usize) {
        Some(variable) => Some(variable.sort),
        None => None,
    }
}

/// Gives the variables of one label another.
pub fn rename(variables: &mut [Variable], gone: u32, keep: u32)
    ensures { variables.new ≡ map (relabelled gone keep) variables.old }
{
    for variable in variables.iter_mut() {
        if variable.label == gone {
            variable.label = keep;
        }
    }
}

/// Puts the variables of the label `gone` into the class of the label `keep`.
pub fn join(variables: &mut [Variable], words: &mut [u64], keep: u64, gone: u64)
    requires lesser { keep < gone }
    requires few { length variables.old < 2 ^ 32 }
    requires within { gone < length variables.old }
    requires may { are_marked words.old gone keep ≡ false }
    ensures labels { variables.new ≡ map (relabelled gone keep) variables.old }
    ensures marks { (i j : ℕ) → are_marked words.new i j ≡ (are_marked words.old i j
        || is_shared words.old keep gone (length variables.old) i j) }
{
    share_marks(words, variables.len() as u64, keep, gone);
    rename(variables, gone as u32, keep as u32);
}

/// Marks with `keep` what is marked with `gone`.
pub fn share_marks(words: &mut [u64], count: u64, keep: u64, gone: u64)
    requires lesser { keep < gone }
    requires few { count < 2 ^ 32 }
    requires within { gone < 2 ^ 32 }
    requires may { are_marked words.old gone keep ≡ false }
    ensures { (i j : ℕ) → are_marked words.new i j ≡ (are_marked words.old i j
        || is_shared words.old keep gone count i j) }
{
    'others: for other in 0..count {
        share_mark(words, keep, gone, other);
    }
}

fn share_mark(words: &mut [u64], keep: u64, gone: u64, other: u64)
    requires lesser { keep < gone }
    requires within { gone < 2 ^ 32 }
    requires other { other < 2 ^ 32 }
    requires may { are_marked words.old gone keep ≡ false }
    ensures { (i j : ℕ) → are_marked words.new i j ≡ (are_marked words.old i j
        || (are_marked words.old gone other && is_pair keep other i j)) }
{
    if pairs::are_marked(words, gone, other) {
        pairs::mark(words, keep, other);
    }
}

/// Makes room for the bits of all pairs of `count` variables.
pub fn make_room(words: &mut Vec<u64>, count: u64) -> Result<(), NoMemory>
    requires { count < 2 ^ 32 }
    ensures room { OnOk result (pairs_below count ≤ 64 * length words.new.items) }
    ensures short { OnErr result (64 * length words.new.items < pairs_below count) }
    ensures longer { length words.old.items ≤ length words.new.items }
    ensures kept { (k : ℕ) → is_set words.new.items k ≡ is_set words.old.items k }
{
    let needed = pairs::pairs_below(count).div_ceil(64) as usize;
    'zeros: for _ in words.len()..needed {
        words.push(0)?;
    }
    Ok(())
}
