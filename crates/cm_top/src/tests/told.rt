//! The lines on outcomes.

use super::outside::sink;
use crate::outcome::Outcome;
use crate::tell::tell;
use std::alloc::Global;
use std::test::Fail;

fn is_told(alloc: Global, outcome: Outcome<'_>, text: &str) -> Result<bool, Fail> {
    let mut err = sink(alloc, &[])?;
    tell(&mut err, &outcome);
    Ok(err.bytes() == text.as_bytes())
}

#[test]
fn each_outcome_has_its_line(rt: HostRuntime) -> Result<(), Fail> {
    let file = "a b";
    for (outcome, text) in [
        (Outcome::Done, ""),
        (Outcome::Conflicts, ""),
        (Outcome::Usage, "commuter: bad command line\n"),
        (Outcome::ReadFault { file }, "commuter: cannot read a b\n"),
        (Outcome::TooLong { file }, "commuter: a b is too long\n"),
        (
            Outcome::BadTraceLine { file, line: 10 },
            "commuter: a b:10: bad trace line\n",
        ),
        (Outcome::WriteFault, "commuter: cannot write\n"),
        (Outcome::Memory, "commuter: out of memory\n"),
    ] {
        assert!(rt; is_told(rt.alloc(), outcome, text)?, "{text}");
    }
    Ok(())
}
