//! The least and the largest text.

use super::model_text;
use std::test::Fail;

// The declarations are 82 bytes, and a call's line 72 and the digits of its number.
#[test]
fn the_least_and_the_largest_text_are_there(rt: HostRuntime) -> Result<(), Fail> {
    let one = model_text(rt.alloc(), 1)?;
    assert_eq!(rt; one.len(), 82 + 73);
    let sixty = model_text(rt.alloc(), 60)?;
    assert_eq!(rt; sixty.len(), 82 + 10 * 73 + 50 * 74);
    Ok(())
}
