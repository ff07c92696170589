//! The parts that commands share, read as a command of the tests' own.

ghost use Rattle.std.specs.Prelude.{◌≡◌, ℕ, Bool, Option, map, string_bytes, IfOk, IsErrOf};
ghost use Rattle.clap.specs.Words.{Text, app_of};
ghost use Rattle.cm_words.specs.declared.pair.Two.{Two};
ghost use Rattle.cm_words.specs.inner.Sample.{IsSample, names_form, sample_form};

use super::tasks::strings;
use crate::WordsFault;
use crate::form::{bare, flag, option, positional, with};
use crate::matches::{is_set, name_of, take, text_of};
use crate::number::number_or;
use crate::pair::{Two, pair_or};
use clap::Command;
use cm_model::Name;
use std::alloc::{AllocError, Global};
use std::test::Fail;

#[derive(Drop)]
struct Sample {
    first: Name,
    second: Name,
    count: u32,
    pair: Option<Two>,
    all: bool,
}

// The command with its two names alone.
fn names<'a>(alloc: Global) -> Result<Command<'a>, AllocError>
    ensures { IfOk result (λ c. app_of c ≡ names_form) }
{
    let command = with(bare(alloc, "sample"), positional(alloc, "FIRST"))?;
    with(command, positional(alloc, "SECOND"))
}

fn command<'a>(alloc: Global) -> Result<Command<'a>, AllocError>
    ensures { IfOk result (λ c. app_of c ≡ sample_form) }
{
    let command = names(alloc)?;
    let command = with(command, option(alloc, "count"))?;
    let command = with(command, option(alloc, "pair"))?;
    with(command, flag(alloc, "all"))
}

fn read(alloc: Global, words: &[String]) -> Result<Sample, WordsFault>
    ensures sample { IfOk result (λ s. IsSample (map string_bytes words.now) s.first s.second s.count s.pair s.all) }
    ensures usage { IsErrOf result WordsFault.Usage
        → (first second : Text) (count : ℕ) (pair : Option Two) (all : Bool)
        → ¬ IsSample (map string_bytes words.now) first second count pair all }
{
    let Ok(command) = command(alloc) else {
        return Err(WordsFault::Memory);
    };
    let matches = match take(command, words) {
        Ok(matches) => matches,
        Err(fault) => return Err(fault),
    };
    let all = is_set(&matches, "all");
    let Some(count) = number_or(text_of(&matches, "count"), 7, 1, 100) else {
        return Err(WordsFault::Usage);
    };
    let first = match name_of(alloc, &matches, "FIRST") {
        Ok(first) => first,
        Err(fault) => return Err(fault),
    };
    let second = match name_of(alloc, &matches, "SECOND") {
        Ok(second) => second,
        Err(fault) => return Err(fault),
    };
    let pair = match pair_or(alloc, text_of(&matches, "pair")) {
        Ok(pair) => pair,
        Err(fault) => return Err(fault),
    };
    Ok(Sample {
        first,
        second,
        count,
        pair,
        all,
    })
}

// What words give: the two names, the number, the pair and the flag.
#[derive(Clone, Copy)]
struct Want<'a> {
    first: &'a str,
    second: &'a str,
    count: u32,
    pair: Option<(&'a str, &'a str)>,
    all: bool,
}

fn is_pair(pair: &Option<Two>, want: Option<(&str, &str)>) -> bool {
    match (pair, want) {
        (Some(two), Some((first, second))) => {
            two.first.as_str() == first && two.second.as_str() == second
        }
        (None, None) => true,
        _ => false,
    }
}

fn is_so(alloc: Global, words: &[&str], want: Option<Want<'_>>) -> Result<bool, Fail> {
    let words = strings(alloc, words)?;
    Ok(match (read(alloc, &words), want) {
        (Ok(s), Some(want)) => {
            s.first.as_str() == want.first
                && s.second.as_str() == want.second
                && s.count == want.count
                && is_pair(&s.pair, want.pair)
                && s.all == want.all
        }
        (Err(WordsFault::Usage), None) => true,
        _ => false,
    })
}

#[test]
fn the_parts_are_read(rt: HostRuntime) -> Result<(), Fail> {
    let rows: [(&[&str], &str, &str, u32, bool); 8] = [
        (&["a", "b"], "a", "b", 7, false),
        (&["a", "b", "--count", "100", "--all"], "a", "b", 100, true),
        (&["--all", "a", "--count=1", "b"], "a", "b", 1, true),
        (&["--count", "1", "a", "b"], "a", "b", 1, false),
        (&["--", "--all", "b"], "--all", "b", 7, false),
        (&["a", "--", "--count"], "a", "--count", 7, false),
        (&["", "-"], "", "-", 7, false),
        (&["a", "b", "--"], "a", "b", 7, false),
    ];
    for (words, first, second, count, all) in rows {
        let want = Want {
            first,
            second,
            count,
            pair: None,
            all,
        };
        assert!(rt;
            is_so(rt.alloc(), words, Some(want))?,
            "{first} {second} {count}"
        );
    }
    Ok(())
}

// What the words `a b --pair TEXT` give.
fn is_pair_text<'a>(
    alloc: Global,
    text: &str,
    pair: Option<(&'a str, &'a str)>,
) -> Result<bool, Fail> {
    let want = match pair {
        Some(_) => Some(Want {
            first: "a",
            second: "b",
            count: 7,
            pair,
            all: false,
        }),
        None => None,
    };
    is_so(alloc, &["a", "b", "--pair", text], want)
}

// A name of 40 bytes.
const LONG: &str = "a123456789b123456789c123456789d123456789";

#[test]
fn pairs_are_read(rt: HostRuntime) -> Result<(), Fail> {
    let rows = [
        ("get,put", "get", "put"),
        ("put,get", "put", "get"),
        ("get,get", "get", "get"),
        ("A_1,z__", "A_1", "z__"),
        ("ifs,If", "ifs", "If"),
        ("x,a123456789b123456789c123456789d123456789", "x", LONG),
        ("a123456789b123456789c123456789d123456789,y", LONG, "y"),
    ];
    for (text, first, second) in rows {
        assert!(rt;
            is_pair_text(rt.alloc(), text, Some((first, second)))?,
            "{text}"
        );
    }
    Ok(())
}

#[test]
fn other_texts_are_no_pair(rt: HostRuntime) -> Result<(), Fail> {
    for text in [
        "",
        ",",
        "get",
        "get,",
        ",put",
        "get,put,",
        "get,,put",
        ",get,put",
        "get,put,get",
        "get;put",
        "get, put",
        "get,put ",
        "get,1put",
        "_get,put",
        "get,p-t",
        "get,p\u{fc}t",
        "get,if",
        "with,put",
        "and,internal",
        "x,a123456789b123456789c123456789d123456789e",
        "a123456789b123456789c123456789d123456789e,y",
    ] {
        assert!(rt; is_pair_text(rt.alloc(), text, None)?, "{text}");
    }
    Ok(())
}

#[test]
fn other_words_are_refused(rt: HostRuntime) -> Result<(), Fail> {
    let rows: [&[&str]; 22] = [
        &[],
        &["a"],
        &["a", "b", "c"],
        &["a", "b", "--count"],
        &["a", "b", "--count", "0"],
        &["a", "b", "--count", "101"],
        &["a", "b", "--count", "007"],
        &["a", "b", "--count", "+1"],
        &["a", "b", "--count", "1x"],
        &["a", "b", "--count", ""],
        &["a", "b", "--count="],
        &["a", "b", "--count", "18446744073709551617"],
        &["a", "b", "--count", "5", "--count", "5"],
        &["a", "b", "--pair"],
        &["a", "b", "--pair", "get,put", "--pair", "get,put"],
        &["a", "b", "--all", "--all"],
        &["a", "b", "--all=true"],
        &["a", "b", "--c", "5"],
        &["a", "b", "-c", "5"],
        &["a", "b", "--Count", "5"],
        &["a", "b", "--help"],
        &["-a", "b"],
    ];
    for words in rows {
        assert!(rt; is_so(rt.alloc(), words, None)?, "{words:?}");
    }
    Ok(())
}
