//! What a failing call of the outside leaves.

use super::outside::{Answer, Outside, answers, fair};
use cm_io::PutFail;
use cm_posix::posix_text;
use std::alloc::Global;
use std::test::Fail;

const TRACE: &[u8] = b"trace 1\ntest p\n0 a w 38 16\n1 b r 40 8\ntest q\n0 a w 0 8\n";

const WHOLE: &[u8] = b"commuter judge 1\ntest p\nconflict 40\ntest q\ndone\n";

// Where the pieces of the output end.
const ENDS: [usize; 4] = [17, 36, 43, 48];

fn judged(alloc: Global, outside: Outside, want: Answer) -> Result<bool, Fail> {
    answers(alloc, &["judge", "t"], TRACE, outside, want)
}

// Whether a put that fails at this call and takes so many bytes leaves that much of the output.
fn is_cut(alloc: Global, words: &[&str], fail: PutFail, out: &[u8]) -> Result<bool, Fail> {
    let puts = [fail];
    let outside = Outside {
        puts: &puts,
        ..fair(7)
    };
    let want = Answer {
        status: 4,
        out,
        err: b"commuter: cannot write\n",
    };
    answers(alloc, words, TRACE, outside, want)
}

#[test]
fn a_failed_put_leaves_the_pieces_before_and_what_it_took(rt: HostRuntime) -> Result<(), Fail> {
    let mut start = 0;
    for (at, end) in ENDS.iter().enumerate() {
        assert!(rt; start <= *end && *end <= WHOLE.len());
        for upto in start..=*end {
            let fail = PutFail {
                call: (at as u64).saturating_add(1),
                takes: upto - start,
            };
            assert!(rt;
                is_cut(rt.alloc(), &["judge", "t"], fail, &WHOLE[..upto])?,
                "{upto} bytes"
            );
        }
        start = *end;
    }
    Ok(())
}

#[test]
fn a_failed_put_of_the_model_leaves_what_it_took(rt: HostRuntime) -> Result<(), Fail> {
    let text = posix_text();
    for takes in [0, 2, 7123, 7124] {
        assert!(rt; takes <= text.len());
        let fail = PutFail { call: 1, takes };
        assert!(rt;
            is_cut(rt.alloc(), &["posix"], fail, &text[..takes])?,
            "{takes} bytes"
        );
    }
    Ok(())
}

#[test]
fn a_failed_fetch_puts_nothing_out(rt: HostRuntime) -> Result<(), Fail> {
    let unread = Answer {
        status: 3,
        out: b"",
        err: b"commuter: cannot read t\n",
    };
    let read = Answer {
        status: 8,
        out: WHOLE,
        err: b"",
    };
    // most, and how many fetches a run then makes, the one that tells the end among them
    for (most, fetches) in [(1, 56), (7, 9), (1000, 2)] {
        for fetch in 1..=fetches + 1 {
            let fails = [fetch];
            let outside = Outside {
                fetches: &fails,
                ..fair(most)
            };
            let want = if fetch <= fetches { unread } else { read };
            assert!(rt;
                judged(rt.alloc(), outside, want)?,
                "most {most} fetch {fetch}"
            );
        }
    }
    Ok(())
}

#[test]
fn a_fault_of_reading_comes_before_a_bad_line(rt: HostRuntime) -> Result<(), Fail> {
    let outside = Outside {
        fetches: &[4],
        ..fair(7)
    };
    let bad = b"trace 1\nbad\nand bytes in more fetches\n";
    let want = Answer {
        status: 3,
        out: b"",
        err: b"commuter: cannot read t\n",
    };
    assert!(rt; answers(rt.alloc(), &["judge", "t"], bad, outside, want)?);
    Ok(())
}

#[test]
fn a_fault_of_telling_leaves_the_status(rt: HostRuntime) -> Result<(), Fail> {
    let outside = Outside {
        fetches: &[1],
        tells: &[PutFail { call: 1, takes: 9 }],
        ..fair(7)
    };
    let unread = Answer {
        status: 3,
        out: b"",
        err: b"commuter:",
    };
    assert!(rt; judged(rt.alloc(), outside, unread)?);
    let usage = Answer {
        status: 2,
        ..unread
    };
    assert!(rt; answers(rt.alloc(), &["help"], TRACE, outside, usage)?);
    Ok(())
}
