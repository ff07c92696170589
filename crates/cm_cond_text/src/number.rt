//! Numbers in a report.

ghost use Rattle.std.specs.Prelude.{◌≡◌, ◌++◌, OnOk};
ghost use Rattle.std.specs.Fmt.{signed_decimal};
ghost use Rattle.cm_cond_text.specs.Cells.{offset_text};

use cm_model::NoMemory;
use itoa::Buffer;

/// Appends the decimal numeral, with a `-` before a number below nought.
pub fn push_number(n: i128, to: &mut Vec<u8>) -> Result<(), NoMemory>
    ensures { OnOk result (to.new.items ≡ to.old.items ++ signed_decimal n) }
{
    let mut buffer = Buffer::new();
    to.extend_from_slice(buffer.format(n).as_bytes())?;
    Ok(())
}

/// Appends how much more a number is: nothing where it is no more.
pub fn push_offset(plus: i64, to: &mut Vec<u8>) -> Result<(), NoMemory>
    ensures { OnOk result (to.new.items ≡ to.old.items ++ offset_text plus) }
{
    if 0 < plus {
        to.extend_from_slice(b" + ")?;
        return push_number(i128::from(plus), to);
    }
    if plus < 0 {
        to.extend_from_slice(b" - ")?;
        return push_number(-i128::from(plus), to);
    }
    Ok(())
}
