//! Tokens of worked texts.

use super::*;
use cm_model::NoMemory;
use std::alloc::Global;
use std::process::Abort;
use std::test::Fail;

// The variant's name.
fn kind(token: &Token) -> &'static str {
    match token {
        Token::Name(_) => "Name",
        Token::Number(_) => "Number",
        Token::And => "And",
        Token::Assume => "Assume",
        Token::Bool => "Bool",
        Token::Call => "Call",
        Token::Case => "Case",
        Token::Else => "Else",
        Token::Enum => "Enum",
        Token::False => "False",
        Token::Fn => "Fn",
        Token::If => "If",
        Token::Int => "Int",
        Token::Internal => "Internal",
        Token::It => "It",
        Token::Let => "Let",
        Token::Map => "Map",
        Token::Nothing => "Nothing",
        Token::Not => "Not",
        Token::Option => "Option",
        Token::Or => "Or",
        Token::Record => "Record",
        Token::Return => "Return",
        Token::Something => "Something",
        Token::Sort => "Sort",
        Token::State => "State",
        Token::True => "True",
        Token::Where => "Where",
        Token::With => "With",
        other => mark_kind(other),
    }
}

fn mark_kind(token: &Token) -> &'static str {
    match token {
        Token::Semicolon => "Semicolon",
        Token::Colon => "Colon",
        Token::Comma => "Comma",
        Token::Dot => "Dot",
        Token::DotDot => "DotDot",
        Token::OpenRound => "OpenRound",
        Token::CloseRound => "CloseRound",
        Token::OpenSquare => "OpenSquare",
        Token::CloseSquare => "CloseSquare",
        Token::OpenCurly => "OpenCurly",
        Token::CloseCurly => "CloseCurly",
        Token::Assign => "Assign",
        Token::Equal => "Equal",
        Token::NotEqual => "NotEqual",
        Token::Less => "Less",
        Token::AtMost => "AtMost",
        Token::Greater => "Greater",
        Token::AtLeast => "AtLeast",
        Token::Plus => "Plus",
        Token::Minus => "Minus",
        Token::Arrow => "Arrow",
        Token::Foreign => "Foreign",
        _ => "End",
    }
}

// Appends the token's kind, with what a name or a numeral is, and a space.
fn tell(token: &Token, told: &mut String) -> Result<(), NoMemory> {
    told.push_str(kind(token))?;
    match token {
        Token::Name(name) => {
            told.push(':')?;
            told.push_str(name.as_str())?;
        }
        Token::Number(n) => told.push_str(format!(in *told.allocator(); ":{n}")?.as_str())?,
        _ => (),
    }
    told.push(' ')?;
    Ok(())
}

// The tokens of a text, and with places those too.
fn told(
    rt: &impl Abort,
    alloc: Global,
    text: &[u8],
    with_places: bool,
) -> Result<String, NoMemory> {
    assert!(rt; text.len() < 4_294_967_295);
    let mut told = String::new(alloc);
    let mut tokens = Tokens::new(alloc, text)?;
    let mut place = tokens.place();
    for _ in 0..=text.len() {
        place = tokens.place();
        let Some(next) = tokens.peek() else {
            break;
        };
        if with_places {
            told.push_str(format!(in alloc; "{}:{} ", place.line, place.col)?.as_str())?;
        }
        tell(next, &mut told)?;
        let taken = tokens.take()?.expect(rt, "the token that was there");
        assert!(rt; taken.at == place);
    }
    // The end was taken, and its place stays.
    for _ in 0..2 {
        assert!(rt; tokens.peek().is_none());
        assert!(rt; tokens.place() == place);
        assert!(rt; tokens.take()?.is_none());
    }
    Ok(told)
}

#[test]
fn each_word_and_mark_is_its_token(rt: HostRuntime) -> Result<(), Fail> {
    for (text, wanted) in [
        (
            b"and assume bool call case else enum".as_slice(),
            "And Assume Bool Call Case Else Enum End ",
        ),
        (
            b"false fn if int internal it let map",
            "False Fn If Int Internal It Let Map End ",
        ),
        (
            b"none not option or record return",
            "Nothing Not Option Or Record Return End ",
        ),
        (
            b"some sort state true where with",
            "Something Sort State True Where With End ",
        ),
        (
            b"; : , . .. ( ) [ ] { }",
            "Semicolon Colon Comma Dot DotDot OpenRound CloseRound OpenSquare CloseSquare OpenCurly CloseCurly End ",
        ),
        (
            b"= == != < <= > >= + - ->",
            "Assign Equal NotEqual Less AtMost Greater AtLeast Plus Minus Arrow End ",
        ),
        (
            b"an ands And fnn i ifx in inte internals its s som states",
            "Name:an Name:ands Name:And Name:fnn Name:i Name:ifx Name:in Name:inte Name:internals Name:its Name:s Name:som Name:states End ",
        ),
        (
            b"andassume true_ true1",
            "Name:andassume Name:true_ Name:true1 End ",
        ),
    ] {
        assert_eq!(rt; told(&rt, rt.alloc(), text, false)?.as_str(), wanted);
    }
    Ok(())
}

#[test]
fn the_longest_token_is_taken(rt: HostRuntime) -> Result<(), Fail> {
    for (text, wanted) in [
        (b"a.b..c".as_slice(), "Name:a Dot Name:b DotDot Name:c End "),
        (b"1..2", "Number:1 DotDot Number:2 End "),
        (b"...", "DotDot Dot End "),
        (b"->-", "Arrow Minus End "),
        (b"-->", "Minus Arrow End "),
        (b"<==", "AtMost Assign End "),
        (b"===", "Equal Assign End "),
        (b"!", "Foreign End "),
        (b"!!=", "Foreign NotEqual End "),
        (b"/", "Foreign End "),
        (b"/ /", "Foreign Foreign End "),
        (b"a/b", "Name:a Foreign Name:b End "),
        (b"0", "Number:0 End "),
        (b"00", "Foreign End "),
        (b"01 0a", "Foreign Number:0 Name:a End "),
        (b"9999999", "Number:9999999 End "),
        (b"12345678", "Foreign End "),
        (b"12ab", "Number:12 Name:ab End "),
        (b"_x", "Foreign Name:x End "),
        (b"x_Y9", "Name:x_Y9 End "),
        (
            b"aaaaaaaaaabbbbbbbbbbccccccccccdddddddddd",
            "Name:aaaaaaaaaabbbbbbbbbbccccccccccdddddddddd End ",
        ),
        (b"aaaaaaaaaabbbbbbbbbbccccccccccdddddddddde", "Foreign End "),
        (b"\xff\xc3\xa9", "Foreign Foreign Foreign End "),
        (b"\x00\x0b\x0c", "Foreign Foreign Foreign End "),
    ] {
        assert_eq!(rt; told(&rt, rt.alloc(), text, false)?.as_str(), wanted);
    }
    Ok(())
}

#[test]
fn places_count_lines_and_bytes(rt: HostRuntime) -> Result<(), Fail> {
    for (text, wanted) in [
        (b"".as_slice(), "1:1 End "),
        (b"\n", "2:1 End "),
        (b"a", "1:1 Name:a 1:2 End "),
        (b"\ta\r\n b", "1:2 Name:a 2:2 Name:b 2:3 End "),
        (b"\r\ra", "1:3 Name:a 1:4 End "),
        (b"// x", "1:5 End "),
        (b"//", "1:3 End "),
        (b"a//b", "1:1 Name:a 1:5 End "),
        (b"a // \xff\xff /* b\nc", "1:1 Name:a 2:1 Name:c 2:2 End "),
        (b"//\n// \r//\n\n  x//\n", "4:3 Name:x 5:1 End "),
        (b"\xffa", "1:1 Foreign 1:2 Name:a 1:3 End "),
        (b"a\nbc\n\n->", "1:1 Name:a 2:1 Name:bc 4:1 Arrow 4:3 End "),
    ] {
        assert_eq!(rt; told(&rt, rt.alloc(), text, true)?.as_str(), wanted);
    }
    let spaces = vec![in rt.alloc(); b' '; 1_000_000]?;
    assert_eq!(rt;
        told(&rt, rt.alloc(), spaces.as_slice(), true)?.as_str(),
        "1:1000001 End "
    );
    Ok(())
}
