use crate::source::{Span, equals, part};
use std::alloc::Global;

/// A line of the output: its text, its words, and for each word that opens something the one that closes it.
///
/// A word is a parenthesis, a bracket, a comma, a backslash, `Type` with its level, or what stands between these and blanks.
#[derive(Clone, Copy)]
pub struct Line<'a> {
    pub text: &'a [u8],
    pub words: &'a [Span],
    pub mates: &'a [usize],
}

/// The forms of a core term, by its first word.
#[derive(Clone, Copy, PartialEq, Eq)]
pub enum Shape {
    Variable,
    Sort,
    Name,
    Product,
    Function,
    Let,
    Application,
}

fn is_single(byte: u8) -> bool {
    matches!(byte, b'(' | b')' | b'[' | b']' | b',' | b'\\')
}

fn add(text: &[u8], from: usize, to: usize, words: &mut Vec<Span>) {
    let before = words.last().copied();
    match before {
        Some(sort) if equals(part(text, sort.from, sort.to), "Type") => {
            let _ = words.pop();
            let _ = words.push(Span::new(sort.from, to));
        }
        _ => {
            let _ = words.push(Span::new(from, to));
        }
    }
}

/// The words of a line.
pub fn words_of(alloc: Global, text: &[u8]) -> Vec<Span> {
    let mut words = Vec::new(alloc);
    let mut from = 0;
    for (at, byte) in text.iter().enumerate() {
        let ends = *byte == b' ' || is_single(*byte);
        if ends && from < at {
            add(text, from, at, &mut words);
        }
        if ends {
            from = at.saturating_add(1);
        }
        if is_single(*byte) {
            let _ = words.push(Span::new(at, at.saturating_add(1)));
        }
    }
    if from < text.len() {
        add(text, from, text.len(), &mut words);
    }
    words
}

fn set(mates: &mut Vec<usize>, at: usize, to: usize) {
    if let Some(mate) = mates.get_mut(at) {
        *mate = to;
    }
}

/// For each word that opens something, the number of the one that closes it, and for each other word its own.
pub fn mates_of(alloc: Global, text: &[u8], words: &[Span]) -> Vec<usize> {
    let mut mates = Vec::new(alloc);
    let mut open = Vec::new(alloc);
    for (at, it) in words.iter().enumerate() {
        let _ = mates.push(at);
        let word = part(text, it.from, it.to);
        if equals(word, "(") || equals(word, "[") {
            let _ = open.push(at);
        }
        if equals(word, ")") || equals(word, "]") {
            set(&mut mates, open.pop().unwrap_or(at), at);
        }
    }
    mates
}

pub fn core_word<'a>(line: Line<'a>, at: usize) -> &'a [u8] {
    match line.words.get(at) {
        Some(it) => part(line.text, it.from, it.to),
        None => &[],
    }
}

pub fn says(line: Line<'_>, at: usize, text: &str) -> bool {
    core_word(line, at) == text.as_bytes()
}

/// Whether the sort of this level is at this word.
pub fn is_sort_of(line: Line<'_>, at: usize, level: u8) -> bool {
    match core_word(line, at).strip_prefix(b"Type ") {
        Some(digits) => number_of(digits) == usize::from(level),
        None => false,
    }
}

pub fn mate(line: Line<'_>, at: usize) -> usize {
    line.mates.get(at).copied().unwrap_or(at)
}

/// The first word behind the term that begins at this one.
pub fn behind(line: Line<'_>, at: usize) -> usize {
    mate(line, at).saturating_add(1)
}

/// The form of the term that begins at this word.
pub fn shape_of(line: Line<'_>, at: usize) -> Shape {
    let first = at.saturating_add(1);
    if !says(line, at, "(") {
        let word = core_word(line, at);
        if word.first().copied() == Some(b'%') {
            Shape::Variable
        } else if word.starts_with(b"Type ") {
            Shape::Sort
        } else {
            Shape::Name
        }
    } else if says(line, first, "\\") {
        Shape::Function
    } else if says(line, first, "let") {
        Shape::Let
    } else if says(line, behind(line, first), "->") {
        Shape::Product
    } else {
        Shape::Application
    }
}

/// The terms of an application, from its head on, or the term alone if it is none.
pub fn parts_of(alloc: Global, line: Line<'_>, at: usize) -> Vec<usize> {
    let mut parts = Vec::new(alloc);
    if shape_of(line, at) != Shape::Application {
        let _ = parts.push(at);
        return parts;
    }
    let mut next = at.saturating_add(1);
    for _ in at..mate(line, at) {
        if next < mate(line, at) {
            let _ = parts.push(next);
            next = behind(line, next);
        }
    }
    parts
}

/// The word with the head of a term: the name before its arguments, or the term itself.
pub fn head(line: Line<'_>, at: usize) -> usize {
    if shape_of(line, at) == Shape::Application {
        at.saturating_add(1)
    } else {
        at
    }
}

/// The types of the context that begins at this bracket.
pub fn context_of(alloc: Global, line: Line<'_>, at: usize) -> Vec<usize> {
    let mut types = Vec::new(alloc);
    let mut next = at.saturating_add(1);
    for _ in at..mate(line, at) {
        if next < mate(line, at) {
            if !says(line, next, ",") {
                let _ = types.push(next);
            }
            next = behind(line, next);
        }
    }
    types
}

/// A number in decimal, or 0 if this is none.
pub fn number_of(word: &[u8]) -> usize {
    let mut number: usize = 0;
    for byte in word.iter() {
        if !byte.is_ascii_digit() {
            return 0;
        }
        number = number
            .saturating_mul(10)
            .saturating_add((*byte & 0x0F) as usize);
    }
    number
}

/// The number of a variable.
pub fn index_of(line: Line<'_>, at: usize) -> usize {
    number_of(core_word(line, at).strip_prefix(b"%").unwrap_or(&[]))
}

/// Whether two terms are written with the same words.
pub fn same_term(line: Line<'_>, left: usize, right: usize) -> bool {
    let lefts = Span::new(left, behind(line, left));
    let rights = Span::new(right, behind(line, right));
    text_of(line, lefts) == text_of(line, rights)
}

/// The bytes of these words.
pub fn text_of<'a>(line: Line<'a>, span: Span) -> &'a [u8] {
    match (
        line.words.get(span.from),
        line.words.get(span.to.saturating_sub(1)),
    ) {
        (Some(first), Some(last)) => part(line.text, first.from, last.to),
        _ => &[],
    }
}
