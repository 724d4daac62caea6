ghost use Rattle.std.specs.Prelude.{◌≡◌, ◌≤◌, length};
ghost use Rattle.std.specs.List.{list_all};
ghost use Rattle.std.specs.Str.{chars};
ghost use Rattle.core_text.specs.NameRuns as spec;

use crate::scanning::skip;

/// Whether the character can be in a name.
fn is_name_char(c: char) -> bool
    ensures { result ≡ spec.is_name_char c }
{
    unicode_ident::is_xid_continue(c) || c == '\'' || c == '.' || c == '!'
}

/// How many bytes a character with this first byte has.
fn width(first: u8) -> usize
    ensures { result ≡ spec.width first }
{
    if first < 128 {
        1
    } else if first < 224 {
        2
    } else if first < 240 {
        3
    } else {
        4
    }
}

/// Whether all characters can be in a name.
fn all_name_chars(text: &str) -> bool
    ensures { result ≡ list_all spec.is_name_char (chars text.now) }
{
    text.chars().all(is_name_char)
}

/// Whether the bytes are characters of names, in UTF-8.
fn are_name_chars(bytes: &[u8]) -> bool
    ensures { result ≡ spec.are_name_chars bytes.now }
{
    match std::str::from_utf8(bytes) {
        Ok(text) => all_name_chars(text),
        Err(_) => false,
    }
}

/// How many bytes the first character has, or 0 where the bytes do not begin with a character of a name.
fn name_char_len(bytes: &[u8]) -> usize
    ensures value { result ≡ spec.name_char_len bytes.now }
    ensures within { result ≤ length bytes.now }
{
    let [first, ..] = bytes else {
        return 0;
    };
    let width = width(*first);
    if width <= bytes.len() && are_name_chars(&bytes[..width]) {
        width
    } else {
        0
    }
}

/// How many bytes of the front are characters of names.
pub(crate) fn run_len(bytes: &[u8]) -> usize
    ensures value { result ≡ spec.run_len bytes.now }
    ensures within { result ≤ length bytes.now }
{
    let mut len = 0;
    while len < bytes.len() {
        let more = name_char_len(skip(bytes, len));
        if more == 0 {
            return len;
        }
        len += more;
    }
    len
}
