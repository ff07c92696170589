//! Names of the model language among the words.

ghost use Rattle.std.specs.Prelude.{◌≡◌, ◌&&◌};
ghost use Rattle.std.specs.List.{list_all, list_any};
ghost use Rattle.std.specs.Str.{bytes_eq};
ghost use Rattle.cm_model.specs.Names as Names;

use cm_model::limits;

fn is_letter(byte: u8) -> bool
    ensures { result ≡ Names.is_letter byte }
{
    byte.is_ascii_alphabetic()
}

fn is_name_byte(byte: u8) -> bool
    ensures { result ≡ Names.is_name_byte byte }
{
    is_letter(byte) || byte.is_ascii_digit() || byte == b'_'
}

fn begins_with_letter(text: &[u8]) -> bool
    ensures { result ≡ Names.begins_with_letter text.now }
{
    match text {
        [first, ..] => is_letter(*first),
        [] => false,
    }
}

fn are_name_bytes(text: &[u8]) -> bool
    ensures { result ≡ list_all Names.is_name_byte text.now }
{
    text.iter().all(|byte| is_name_byte(*byte))
}

fn is_one(text: &str, words: &[&str]) -> bool
    ensures { result ≡ list_any (λ word. bytes_eq text.now word.now) words.now }
{
    words.iter().any(|word| text == *word)
}

fn is_reserved(text: &str) -> bool
    ensures { result ≡ Names.is_among text.now Names.reserved_words }
{
    is_one(
        text,
        &[
            "and", "assume", "bool", "call", "case", "else", "enum", "false", "fn", "if", "int",
            "internal", "it", "let", "map", "none", "not", "option", "or", "record", "return",
            "some", "sort", "state", "true", "where", "with",
        ],
    )
}

/// Whether the text is a name of the model language: a letter first, letters, digits and `_`, at most 40 bytes, and no
/// reserved word.
pub fn is_name(text: &str) -> bool
    ensures { result ≡ Names.is_name text.now }
{
    let bytes = text.as_bytes();
    begins_with_letter(bytes)
        && are_name_bytes(bytes)
        && bytes.len() <= limits::NAME
        && !is_reserved(text)
}
