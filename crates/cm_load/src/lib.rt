//! The text of generated models, on which one sees what the analysis of many calls takes.
#![tactic(auto)]

ghost use Rattle.std.specs.Prelude.{◌≡◌, ◌≤◌, ◌<◌, ◌-◌, ◌^◌, ◌++◌, length, IfOk, OnOk};
ghost use Rattle.cm_load.specs.Text.{most_calls, sort_lines, state_lines, write_text, body_text, call_line};
ghost use Rattle.cm_load.specs.Text.{call_lines, text_of};

use cm_model::NoMemory;
use cm_text::push_i64;
use std::alloc::Global;

fn push_sorts(to: &mut Vec<u8>) -> Result<(), NoMemory>
    ensures { OnOk result (to.new.items ≡ to.old.items ++ sort_lines) }
{
    to.extend_from_slice(b"sort K;\n")?;
    to.extend_from_slice(b"sort V;\n")?;
    Ok(())
}

fn push_states(to: &mut Vec<u8>) -> Result<(), NoMemory>
    ensures { OnOk result (to.new.items ≡ to.old.items ++ state_lines) }
{
    to.extend_from_slice(b"state m0: map K -> V;\n")?;
    to.extend_from_slice(b"state m1: map K -> V;\n")?;
    to.extend_from_slice(b"state m2: map K -> V;\n")?;
    Ok(())
}

// Appends that the value is written to a map at a key.
fn push_write(map: u32, key: &[u8], to: &mut Vec<u8>) -> Result<(), NoMemory>
    ensures { OnOk result (to.new.items ≡ to.old.items ++ write_text map key.now) }
{
    to.extend_from_slice(b"m")?;
    push_i64(i64::from(map), to)?;
    to.extend_from_slice(b"[")?;
    to.extend_from_slice(key)?;
    to.extend_from_slice(b"] = v; ")?;
    Ok(())
}

// Appends what a call does on a map.
fn push_body(map: u32, to: &mut Vec<u8>) -> Result<(), NoMemory>
    ensures { OnOk result (to.new.items ≡ to.old.items ++ body_text map) }
{
    push_write(map, b"k", to)?;
    push_write(map, b"l", to)?;
    to.extend_from_slice(b"return true; ")?;
    Ok(())
}

fn push_call(call: u32, to: &mut Vec<u8>) -> Result<(), NoMemory>
    ensures { OnOk result (to.new.items ≡ to.old.items ++ call_line call) }
{
    to.extend_from_slice(b"call p")?;
    push_i64(i64::from(call), to)?;
    to.extend_from_slice(b"(k: K, l: K, v: V) -> bool { ")?;
    push_body(call % 3, to)?;
    to.extend_from_slice(b"}\n")?;
    Ok(())
}

#[tactic(auto, using(crate::proofs::Calls::one_more))]
fn push_calls(n: u32, to: &mut Vec<u8>) -> Result<(), NoMemory>
    ensures { OnOk result (to.new.items ≡ to.old.items ++ call_lines n) }
{
    'calls: for call in 0..n {
        push_call(call, to)?;
    }
    Ok(())
}

/// The text of the generated model with `n` calls: call `i` writes its value to the map `i % 3` at both of its keys.
///
/// # Errors
/// `NoMemory` where memory runs out.
#[tactic(auto, unfolding(crate::specs::Text::text_of), using(crate::proofs::Lengths::is_short))]
pub fn model_text(alloc: Global, n: u32) -> Result<Vec<u8>, NoMemory>
    requires some { 1 ≤ n }
    requires few { n ≤ most_calls }
    ensures text { IfOk result (λ text. text.items ≡ text_of n) }

    // A reader of models takes it.
    ensures short { IfOk result (λ text. length text.items < 2 ^ 32 - 1) }
{
    let mut text = Vec::new(alloc);
    push_sorts(&mut text)?;
    push_states(&mut text)?;
    push_calls(n, &mut text)?;
    Ok(text)
}

#[cfg(test)]
mod tests;
