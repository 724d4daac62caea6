use std::alloc::Global;
use surface_syntax::{Token, TokenKind};

/// Tokens of a source file, from one on to the one before another.
#[derive(Clone, Copy)]
pub struct Span {
    pub from: usize,
    pub to: usize,
}

impl Span {
    pub fn new(from: usize, to: usize) -> Span {
        Span { from, to }
    }
}

#[derive(Clone, Copy, PartialEq, Eq)]
pub enum Form {
    Data,
    Def,
    Fun,
}

/// A declaration by its tokens, and the token of its name.
#[derive(Clone, Copy)]
pub struct Declared {
    pub form: Form,
    pub name: usize,
    pub whole: Span,
}

/// A constructor: the declaration of its family, its name and the tokens of its type.
#[derive(Clone, Copy)]
pub struct Con {
    pub family: Declared,
    pub name: usize,
    pub ty: Span,
}

/// A source file: its bytes and tokens, its declarations, and all constructors of these.
#[derive(Clone, Copy)]
pub struct Source<'a> {
    pub bytes: &'a [u8],
    pub tokens: &'a [Token],
    pub decls: &'a [Declared],
    pub cons: &'a [Con],
}

/// The bytes between two places, or none if there are no such places.
pub fn part(bytes: &[u8], from: usize, to: usize) -> &[u8] {
    if from <= to && to <= bytes.len() {
        &bytes[from..to]
    } else {
        &[]
    }
}

pub fn start_of(s: Source<'_>, at: usize) -> usize {
    s.tokens
        .get(at)
        .map_or(s.bytes.len(), |token| token.start as usize)
}

pub fn end_of(s: Source<'_>, at: usize) -> usize {
    s.tokens
        .get(at)
        .map_or(s.bytes.len(), |token| token.end as usize)
}

/// The bytes of a token.
pub fn word(s: Source<'_>, at: usize) -> &[u8] {
    match s.tokens.get(at) {
        Some(token) => part(s.bytes, token.start as usize, token.end as usize),
        None => &[],
    }
}

pub fn equals(word: &[u8], text: &str) -> bool {
    word == text.as_bytes()
}

pub fn is(s: Source<'_>, at: usize, text: &str) -> bool {
    equals(word(s, at), text)
}

pub fn is_name(s: Source<'_>, at: usize) -> bool {
    s.tokens.get(at).is_some_and(|token| token.kind == TokenKind::Plain
        || token.kind == TokenKind::Dotted)
}

pub fn is_number(s: Source<'_>, at: usize) -> bool {
    s.tokens
        .get(at)
        .is_some_and(|token| token.kind == TokenKind::Number)
}

/// The bytes from the first to the last of these tokens.
pub fn written(s: Source<'_>, span: Span) -> &[u8] {
    if span.from < span.to {
        part(
            s.bytes,
            start_of(s, span.from),
            end_of(s, span.to.saturating_sub(1)),
        )
    } else {
        &[]
    }
}

pub fn opens(s: Source<'_>, at: usize) -> bool {
    is(s, at, "(") || is(s, at, "{")
}

pub fn closes(s: Source<'_>, at: usize) -> bool {
    is(s, at, ")") || is(s, at, "}")
}

/// How deep the tokens are after this one, which are so deep before it.
fn deeper(s: Source<'_>, at: usize, depth: usize) -> usize {
    if opens(s, at) {
        depth.saturating_add(1)
    } else if closes(s, at) {
        depth.saturating_sub(1)
    } else {
        depth
    }
}

/// The token that closes what this one opens, or the end of the span.
pub fn closing(s: Source<'_>, span: Span) -> usize {
    let mut depth = 0;
    for at in span.from..span.to {
        depth = deeper(s, at, depth);
        if depth == 0 {
            return at;
        }
    }
    span.to
}

/// The first token of this text in the span that nothing there encloses.
pub fn find(s: Source<'_>, span: Span, text: &str) -> Option<usize> {
    let mut depth = 0;
    for at in span.from..span.to {
        if depth == 0 && is(s, at, text) {
            return Some(at);
        }
        depth = deeper(s, at, depth);
    }
    None
}

/// The parts of the span between tokens of this text that nothing there encloses.
pub fn split(alloc: Global, s: Source<'_>, span: Span, text: &str) -> Vec<Span> {
    let mut parts = Vec::new(alloc);
    let mut from = span.from;
    let mut depth = 0;
    for at in span.from..span.to {
        if depth == 0 && is(s, at, text) {
            let _ = parts.push(Span::new(from, at));
            from = at.saturating_add(1);
        }
        depth = deeper(s, at, depth);
    }
    let _ = parts.push(Span::new(from, span.to));
    parts
}

/// The parts of an application or of the patterns of a clause, without what stands between them.
pub fn atoms(alloc: Global, s: Source<'_>, span: Span) -> Vec<Span> {
    let mut parts = Vec::new(alloc);
    let mut from = span.from;
    let mut depth = 0;
    for at in span.from..span.to {
        depth = deeper(s, at, depth);
        if depth == 0 && !is(s, at, ".") && !is(s, at, "Type") {
            let _ = parts.push(Span::new(from, at.saturating_add(1)));
            from = at.saturating_add(1);
        }
    }
    parts
}

/// The colon of the binder that begins at the token, if one does.
pub fn colon_of_binder(s: Source<'_>, span: Span) -> Option<usize> {
    if !is(s, span.from, "(") {
        return None;
    }
    let first = span.from.saturating_add(1);
    for at in first..span.to {
        if is(s, at, ":") && at > first {
            return Some(at);
        }
        if !is_name(s, at) && !is(s, at, "_") {
            return None;
        }
    }
    None
}

/// Whether parentheses that are no binder are around the whole span, and something is in them.
fn is_enclosed(s: Source<'_>, span: Span) -> bool {
    let is_whole = is(s, span.from, "(") && closing(s, span) == span.to.saturating_sub(1);
    is_whole && span.from.saturating_add(2) < span.to && colon_of_binder(s, span).is_none()
}

/// The tokens inside the parentheses around the whole span, if there are any.
pub fn bare(s: Source<'_>, span: Span) -> Span {
    let mut inner = span;
    for _ in span.from..span.to {
        if is_enclosed(s, inner) {
            inner = Span::new(inner.from.saturating_add(1), inner.to.saturating_sub(1));
        }
    }
    inner
}

/// Whether a declaration begins with this token. These words are no names, so they stand nowhere else, except for `data` after `=`.
fn form_of(s: Source<'_>, at: usize) -> Option<Form> {
    if is(s, at, "data") && !is(s, at.wrapping_sub(1), "=") {
        Some(Form::Data)
    } else if is(s, at, "def") {
        Some(Form::Def)
    } else if is(s, at, "fun") {
        Some(Form::Fun)
    } else {
        None
    }
}

fn declaration(form: Form, from: usize, to: usize) -> Declared {
    Declared {
        form,
        name: from.saturating_add(1),
        whole: Span::new(from, to),
    }
}

/// The declarations, each up to where the next one begins.
pub fn declarations(alloc: Global, s: Source<'_>) -> Vec<Declared> {
    let mut found = Vec::new(alloc);
    let mut last: Option<(Form, usize)> = None;
    for at in 0..s.tokens.len() {
        if let Some(form) = form_of(s, at) {
            if let Some((form, from)) = last {
                let _ = found.push(declaration(form, from, at));
            }
            last = Some((form, at));
        }
    }
    if let Some((form, from)) = last {
        let _ = found.push(declaration(form, from, s.tokens.len()));
    }
    found
}

/// The first declaration of this name.
pub fn find_declaration<'a>(s: Source<'a>, name: &[u8]) -> Option<Declared> {
    for it in s.decls.iter() {
        if word(s, it.name) == name {
            return Some(*it);
        }
    }
    None
}

/// The number of the token that begins at this offset, or of the first one behind it.
pub fn token_at(s: Source<'_>, offset: usize) -> usize {
    for at in 0..s.tokens.len() {
        if start_of(s, at) >= offset {
            return at;
        }
    }
    s.tokens.len()
}
