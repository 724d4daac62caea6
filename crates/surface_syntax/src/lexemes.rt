ghost use Rattle.std.specs.Prelude.{◌≡◌, ◌≤◌, length, slice_range};
ghost use Rattle.surface_syntax.specs.Lexemes as spec;
ghost use Rattle.surface_syntax.specs.Outcomes.{GivesOnly};

use crate::{Lexeme, SyntaxStop, Token, TokenKind, Word};
use core_terms::{Name, TOP};
use std::alloc::Global;

fn keyword(text: &[u8]) -> Lexeme
    ensures { result ≡ spec.keyword text.now }
{
    if text == b"data".as_slice() {
        Lexeme::Data
    } else if text == b"def".as_slice() {
        Lexeme::Def
    } else if text == b"fun".as_slice() {
        Lexeme::Fun
    } else if text == b"with".as_slice() {
        Lexeme::With
    } else if text == b"let".as_slice() {
        Lexeme::Let
    } else if text == b"in".as_slice() {
        Lexeme::In
    } else {
        Lexeme::Type
    }
}

fn mark(text: &[u8]) -> Lexeme
    ensures { result ≡ spec.mark text.now }
{
    if text == b"(".as_slice() {
        Lexeme::Open
    } else if text == b")".as_slice() {
        Lexeme::Close
    } else if text == b"{".as_slice() {
        Lexeme::OpenBrace
    } else if text == b"}".as_slice() {
        Lexeme::CloseBrace
    } else if text == b":".as_slice() {
        Lexeme::Colon
    } else if text == b";".as_slice() {
        Lexeme::Semicolon
    } else if text == b"=".as_slice() {
        Lexeme::Equals
    } else if text == b"\\".as_slice() {
        Lexeme::Backslash
    } else if text == b"->".as_slice() {
        Lexeme::Arrow
    } else if text == b"_".as_slice() {
        Lexeme::Underscore
    } else {
        Lexeme::Dot
    }
}

fn leveled(number: u16) -> Lexeme
    ensures { result ≡ spec.leveled number }
{
    if number <= TOP as u16 {
        Lexeme::Level(number as u8)
    } else {
        Lexeme::Number
    }
}

fn number(text: &[u8]) -> Lexeme
    ensures { result ≡ spec.number text.now }
{
    match text {
        [d] => leveled(d.saturating_sub(b'0') as u16),
        [c, d] => { leveled(10 * (c.saturating_sub(b'0') as u16) + d.saturating_sub(b'0') as u16) }
        _ => Lexeme::Number,
    }
}

fn part(bytes: &[u8], start: u32, end: u32) -> &[u8]
    requires order { start ≤ end }
    requires within { end ≤ length bytes.now }
    ensures { result.now ≡ slice_range bytes.now start end }
{
    &bytes[start as usize..end as usize]
}

fn word(alloc: Global, text: &[u8], start: u32) -> Result<Word, SyntaxStop>
    ensures { GivesOnly result (record { text = text.now; start = start }) }
{
    Ok(Word {
        text: Name::from_vec(text.to_vec(alloc)?),
        start,
    })
}

/// The lexeme of a token.
pub(crate) fn lexeme_of(alloc: Global, bytes: &[u8], token: &Token) -> Result<Lexeme, SyntaxStop>
    requires order { token.now.start ≤ token.now.end }
    requires within { token.now.end ≤ length bytes.now }
    ensures { GivesOnly result (spec.lexeme_of bytes.now token.now) }
{
    let text = part(bytes, token.start, token.end);
    match token.kind {
        TokenKind::Plain => Ok(Lexeme::Plain(word(alloc, text, token.start)?)),
        TokenKind::Dotted => Ok(Lexeme::Dotted(word(alloc, text, token.start)?)),
        TokenKind::Number => Ok(number(text)),
        TokenKind::Keyword => Ok(keyword(text)),
        TokenKind::Mark => Ok(mark(text)),
    }
}
