ghost use Rattle.std.specs.Prelude.{◌≡◌, ◌≤◌, ◌<◌, ◌^◌, ◌*◌, ◌==◌, not, ℕ, length};
ghost use Rattle.std.specs.List.{prefix_len};
ghost use Rattle.surface_syntax.specs.Spelling as spec;

use crate::token::{Piece, TokenKind};

fn is_continuing(c: char) -> bool
    ensures { result ≡ spec.is_continuing c }
{
    unicode_ident::is_xid_continue(c) || c == '\''
}

fn is_digit(c: char) -> bool
    ensures { result ≡ spec.is_digit c }
{
    '0' <= c && c <= '9'
}

fn is_blank(c: char) -> bool
    ensures { result ≡ spec.is_blank c }
{
    c == ' ' || c == '\t' || c == '\r' || c == '\n'
}

fn is_mark(c: char) -> bool
    ensures { result ≡ spec.is_mark c }
{
    c == '('
        || c == ')'
        || c == '{'
        || c == '}'
        || c == ':'
        || c == ';'
        || c == '='
        || c == '\\'
        || c == '_'
        || c == '.'
}

fn continuing_len(text: &[char]) -> usize
    ensures value { result ≡ prefix_len spec.is_continuing text.now }
    ensures within { result ≤ length text.now }
{
    text.iter().take_while(|c| is_continuing(**c)).count()
}

fn digits_len(text: &[char]) -> usize
    ensures value { result ≡ prefix_len spec.is_digit text.now }
    ensures within { result ≤ length text.now }
{
    text.iter().take_while(|c| is_digit(**c)).count()
}

fn line_len(text: &[char]) -> usize
    ensures value { result ≡ prefix_len (λ c. not (c == 10)) text.now }
    ensures within { result ≤ length text.now }
{
    text.iter().take_while(|c| **c != '\n').count()
}

fn name_len(text: &[char]) -> usize
    ensures value { result ≡ spec.name_len text.now }
    ensures within { result ≤ length text.now }
{
    let [first, rest @ ..] = text else {
        return 0;
    };
    let more = continuing_len(rest);
    if unicode_ident::is_xid_start(*first) || (*first == '_' && 0 < more) {
        1 + more
    } else {
        0
    }
}

fn number_len(text: &[char]) -> usize
    ensures value { result ≡ spec.number_len text.now }
    ensures within { result ≤ length text.now }
{
    match text {
        ['0', ..] => 1,
        _ => digits_len(text),
    }
}

fn tail_len(text: &[char]) -> usize
    ensures value { result ≡ spec.tail_len text.now }
    ensures within { result ≤ length text.now }
{
    let [first, rest @ ..] = text else {
        return 0;
    };
    let digits = number_len(rest);
    if *first == '.' && 0 < digits {
        1 + digits
    } else {
        0
    }
}

fn mark_len(text: &[char]) -> usize
    ensures value { result ≡ spec.mark_len text.now }
    ensures within { result ≤ length text.now }
{
    match text {
        ['-', '>', ..] => 2,
        [first, ..] if is_mark(*first) => 1,
        _ => 0,
    }
}

fn comment_len(text: &[char]) -> usize
    ensures value { result ≡ spec.comment_len text.now }
    ensures within { result ≤ length text.now }
{
    match text {
        ['-', '-', line @ ..] => 2 + line_len(line),
        _ => 0,
    }
}

fn is_keyword(text: &[char]) -> bool
    ensures { result ≡ spec.is_keyword text.now }
{
    text == ['d', 'a', 't', 'a'].as_slice()
        || text == ['d', 'e', 'f'].as_slice()
        || text == ['f', 'u', 'n'].as_slice()
        || text == ['w', 'i', 't', 'h'].as_slice()
        || text == ['l', 'e', 't'].as_slice()
        || text == ['i', 'n'].as_slice()
        || text == ['T', 'y', 'p', 'e'].as_slice()
}

/// How many bytes the characters have in UTF-8.
pub fn byte_len(text: &[char]) -> usize
    requires { length text.now < 2 ^ 32 }
    ensures { result ≡ spec.byte_len text.now }
{
    text.iter().map(|c| c.len_utf8()).sum()
}

fn found_within(fits: bool, kind: TokenKind, len: usize) -> Piece
    ensures value { result ≡ spec.found_within fits kind len }
{
    if fits {
        Piece::Found(kind, len)
    } else {
        Piece::Bad
    }
}

fn name_piece(name: usize, text: &[char]) -> Piece
    requires within { name ≤ length text.now }
    requires small { length text.now < 2 ^ 32 }
    requires some { 0 < name }
    ensures value { result ≡ spec.name_piece name text.now }
    ensures within { spec.IsFront text.now result }
{
    if is_keyword(&text[..name]) {
        return Piece::Found(TokenKind::Keyword, name);
    }
    let fits = byte_len(&text[..name]) <= 255;
    let tail = tail_len(&text[name..]);
    if tail == 0 {
        found_within(fits, TokenKind::Plain, name)
    } else {
        found_within(fits && tail <= 3, TokenKind::Dotted, name + tail)
    }
}

fn other_piece(text: &[char]) -> Piece
    ensures value { result ≡ spec.other_piece text.now }
    ensures within { spec.IsFront text.now result }
{
    let number = number_len(text);
    let comment = comment_len(text);
    let mark = mark_len(text);
    if 0 < number {
        found_within(number <= 3, TokenKind::Number, number)
    } else if 0 < comment {
        Piece::Gap(comment)
    } else if 0 < mark {
        Piece::Found(TokenKind::Mark, mark)
    } else {
        Piece::Bad
    }
}

/// The piece with which the text begins.
pub fn piece(text: &[char]) -> Piece
    requires { length text.now < 2 ^ 32 }
    ensures value { result ≡ spec.piece text.now }
    ensures within { spec.IsFront text.now result }
{
    let [first, ..] = text else {
        return Piece::Bad;
    };
    if is_blank(*first) {
        return Piece::Gap(1);
    }
    let name = name_len(text);
    if 0 < name {
        name_piece(name, text)
    } else {
        other_piece(text)
    }
}
