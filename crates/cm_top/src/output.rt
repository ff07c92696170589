//! The output of a judgement.

ghost use Rattle.std.specs.Prelude.{◌≡◌, ◌++◌, OnOk};
ghost use Rattle.cm_top.specs.Output.{conflict_text, section_text};

use cm_model::NoMemory;
use cm_text::push_hex;

fn push_conflict(line: u64, to: &mut Vec<u8>) -> Result<(), NoMemory>
    ensures { OnOk result (to.new.items ≡ to.old.items ++ conflict_text line) }
{
    to.extend_from_slice(b"conflict ")?;
    push_hex(line, to)?;
    to.push(b'\n')?;
    Ok(())
}

// Appends the piece of a section.
pub fn push_section(name: &[u8], lines: &[u64], to: &mut Vec<u8>) -> Result<(), NoMemory>
    ensures { OnOk result (to.new.items ≡ to.old.items ++ section_text name.now lines.now) }
{
    to.extend_from_slice(b"test ")?;
    to.extend_from_slice(name)?;
    to.push(b'\n')?;
    for line in lines {
        push_conflict(*line, to)?;
    }
    Ok(())
}
