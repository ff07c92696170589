//! The text is there.

use super::posix_text;
use std::test::Fail;

#[test]
fn the_text_is_there(rt: HostRuntime) -> Result<(), Fail> {
    let text = posix_text();
    assert_eq!(rt; text.len(), 7124);
    Ok(())
}
