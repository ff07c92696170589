//! The tasks of words. Most rows on words are data of `top_cases`.

use crate::{Task, WordsFault, read_words};
use cm_model::NoMemory;
use std::alloc::Global;
use std::test::Fail;

pub fn strings(alloc: Global, words: &[&str]) -> Result<Vec<String>, NoMemory> {
    let mut strings = Vec::new(alloc);
    for word in words {
        strings.push(String::from_str(alloc, word)?)?;
    }
    Ok(strings)
}

// Whether the words ask for the judgement of this file.
fn is_judge(alloc: Global, words: &[&str], name: &str) -> Result<bool, Fail> {
    let words = strings(alloc, words)?;
    Ok(match read_words(alloc, &words) {
        Ok(Task::Judge { file }) => file.as_str() == name,
        _ => false,
    })
}

fn is_posix(alloc: Global, words: &[&str]) -> Result<bool, Fail> {
    let words = strings(alloc, words)?;
    Ok(matches!(read_words(alloc, &words), Ok(Task::Posix)))
}

fn is_usage(alloc: Global, words: &[&str]) -> Result<bool, Fail> {
    let words = strings(alloc, words)?;
    Ok(matches!(read_words(alloc, &words), Err(WordsFault::Usage)))
}

#[test]
fn words_have_their_task(rt: HostRuntime) -> Result<(), Fail> {
    assert!(rt; is_judge(rt.alloc(), &["judge", "t"], "t")?);
    assert!(rt; is_judge(rt.alloc(), &["judge", ""], "")?);
    assert!(rt; is_judge(rt.alloc(), &["judge", "--", "-t"], "-t")?);
    assert!(rt; is_posix(rt.alloc(), &["posix"])?);
    for words in [["judge", "--help"], ["posix", "x"], ["help", "judge"]] {
        assert!(rt; is_usage(rt.alloc(), &words)?);
    }
    assert!(rt; is_usage(rt.alloc(), &[])?);
    Ok(())
}
