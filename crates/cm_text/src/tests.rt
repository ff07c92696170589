//! Worked numerals and places.

use super::*;
use cm_model::Place;
use std::test::Fail;

#[test]
fn numerals_are_read_exactly(rt: HostRuntime) -> Result<(), Fail> {
    for (text, most, number) in [
        (b"0".as_slice(), 9, Ok(0)),
        (b"1023", 1023, Ok(1023)),
        (b"1024", 1023, Err(NotNumber)),
        (b"18446744073709551615", u64::MAX, Ok(u64::MAX)),
        (b"18446744073709551616", u64::MAX, Err(NotNumber)),
        (b"", 9, Err(NotNumber)),
        (b"00", 9, Err(NotNumber)),
        (b"07", 9, Err(NotNumber)),
        (b"+1", 9, Err(NotNumber)),
        (b"-1", 9, Err(NotNumber)),
        (b"1 ", 9, Err(NotNumber)),
        (b" 1", 9, Err(NotNumber)),
        (b"a", 99, Err(NotNumber)),
    ] {
        assert_eq!(rt; read_u64(text, most), number);
    }
    for (text, number) in [
        (b"0".as_slice(), Ok(0)),
        (b"ffffffffffffffff", Ok(u64::MAX)),
        (b"7f3a40", Ok(0x7f_3a40)),
        (b"10000000000000000", Err(NotNumber)),
        (b"F", Err(NotNumber)),
        (b"0f", Err(NotNumber)),
        (b"g", Err(NotNumber)),
        (b"0x1", Err(NotNumber)),
        (b"", Err(NotNumber)),
    ] {
        assert_eq!(rt; read_hex(text), number);
    }
    Ok(())
}

#[test]
fn a_pushed_numeral_is_read_back(rt: HostRuntime) -> Result<(), Fail> {
    for (number, text) in [
        (0, b"0".as_slice()),
        (0x40, b"40"),
        (0xc0ffee, b"c0ffee"),
        (u64::MAX, b"ffffffffffffffff"),
    ] {
        let mut to = Vec::from_slice(rt.alloc(), b"at ")?;
        push_hex(number, &mut to)?;
        assert_eq!(rt; &to[..3], b"at ".as_slice());
        assert_eq!(rt; &to[3..], text);
    }
    Ok(())
}

#[test]
fn numbers_with_a_sign_are_read_exactly(rt: HostRuntime) -> Result<(), Fail> {
    for (text, low, high, number) in [
        (b"0".as_slice(), -9, 9, Ok(0)),
        (b"-0", -9, 9, Err(NotNumber)),
        (b"-1", -9, 9, Ok(-1)),
        (b"-9", -9, 9, Ok(-9)),
        (b"-10", -9, 9, Err(NotNumber)),
        (b"10", -9, 9, Err(NotNumber)),
        (b"3", 4, 9, Err(NotNumber)),
        (b"5", 9, 1, Err(NotNumber)),
        (b"-9223372036854775808", i64::MIN, i64::MAX, Ok(i64::MIN)),
        (b"-9223372036854775809", i64::MIN, i64::MAX, Err(NotNumber)),
        (b"9223372036854775807", i64::MIN, i64::MAX, Ok(i64::MAX)),
        (b"9223372036854775808", i64::MIN, i64::MAX, Err(NotNumber)),
        (b"", -9, 9, Err(NotNumber)),
        (b"-", -9, 9, Err(NotNumber)),
        (b"--1", -9, 9, Err(NotNumber)),
        (b"-01", -9, 9, Err(NotNumber)),
        (b"+1", -9, 9, Err(NotNumber)),
        (b"- 1", -9, 9, Err(NotNumber)),
    ] {
        assert_eq!(rt; read_i64(text, low, high), number);
    }
    for (number, text) in [
        (0, b"0".as_slice()),
        (-1, b"-1"),
        (1_000_000, b"1000000"),
        (i64::MIN, b"-9223372036854775808"),
        (i64::MAX, b"9223372036854775807"),
    ] {
        let mut to = Vec::from_slice(rt.alloc(), b"at ")?;
        push_i64(number, &mut to)?;
        assert_eq!(rt; &to[..3], b"at ".as_slice());
        assert_eq!(rt; &to[3..], text);
    }
    Ok(())
}

#[test]
fn a_cursor_knows_its_place(rt: HostRuntime) -> Result<(), Fail> {
    let text = b"a\t\xc3\xa9\r\n\nz";
    let mut cursor = Cursor::new(text);
    for (byte, line, col) in [
        (b'a', 1, 1),
        (b'\t', 1, 2),
        (0xc3, 1, 3),
        (0xa9, 1, 4),
        (b'\r', 1, 5),
        (b'\n', 1, 6),
        (b'\n', 2, 1),
        (b'z', 3, 1),
    ] {
        assert_eq!(rt; cursor.place(), Place { line, col });
        assert_eq!(rt; cursor.peek(), Some(byte));
        assert_eq!(rt; cursor.next(), Some(byte));
    }
    for _ in 0..2 {
        assert_eq!(rt; cursor.place(), Place { line: 3, col: 2 });
        assert_eq!(rt; cursor.peek(), None);
        assert_eq!(rt; cursor.next(), None);
    }
    Ok(())
}

#[test]
fn a_cursor_skips_bytes_of_its_line(rt: HostRuntime) -> Result<(), Fail> {
    let mut cursor = Cursor::new(b"\nname x");
    assert_eq!(rt; cursor.next(), Some(b'\n'));
    assert_eq!(rt; cursor.rest(), b"name x".as_slice());
    cursor.skip(4);
    assert_eq!(rt; cursor.rest(), b" x".as_slice());
    assert_eq!(rt; cursor.place(), Place { line: 2, col: 5 });
    Ok(())
}
