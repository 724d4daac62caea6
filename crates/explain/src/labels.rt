use crate::core_line::{Line, Shape, core_word, head, shape_of};
use crate::families::{is_at_level, is_constructor};
use crate::page::Page;
use crate::source::{Source, equals, part};

/// The name of a variable: a word, and a number behind it if this is not 0.
#[derive(Clone, Copy)]
pub struct Label<'a> {
    pub base: &'a [u8],
    pub number: usize,
}

const LETTERS: &[u8] = b"abcdefghijklmnopqrstuvwxyz";

/// The label of a variable without a name.
pub const NONE: Label<'static> = Label {
    base: b"",
    number: 0,
};

fn is_same(left: Label<'_>, right: Label<'_>) -> bool {
    left.base == right.base && left.number == right.number
}

fn is_free(s: Source<'_>, label: Label<'_>, names: &[Label<'_>]) -> bool {
    (label.number > 0 || !is_constructor(s, label.base))
        && !names.iter().any(|it| is_same(*it, label))
}

/// The letter with which the word begins, as a small one.
fn initial(word: &[u8]) -> &'static [u8] {
    let first = word.first().copied().unwrap_or(b'x').to_ascii_lowercase();
    let place = (first as usize).saturating_sub(97);
    if first.is_ascii_lowercase() {
        part(LETTERS, place, place.saturating_add(1))
    } else {
        b"x"
    }
}

/// The names that one would give to a variable of this type, the likeliest first.
fn usual_names(line: Line<'_>, ty: usize) -> [&'static [u8]; 3] {
    let name = core_word(line, head(line, ty));
    match shape_of(line, ty) {
        Shape::Sort => [b"A", b"B", b"C"],
        Shape::Product | Shape::Function => [b"f", b"g", b"h"],
        Shape::Variable | Shape::Let => [b"x", b"y", b"z"],
        Shape::Application if is_at_level(name, "Eq") => [b"e", b"d", b"e"],
        Shape::Application if name.starts_with(b"%") => [b"x", b"y", b"z"],
        Shape::Application if equals(name, "List") || equals(name, "Vec") => [b"xs", b"ys", b"zs"],
        Shape::Name if equals(name, "Nat") => [b"n", b"m", b"k"],
        _ => [initial(name), initial(name), initial(name)],
    }
}

/// A name for a variable of this type that none of the others has.
pub fn fresh<'a>(s: Source<'a>, line: Line<'a>, ty: usize, names: &[Label<'a>]) -> Label<'a> {
    let usual = usual_names(line, ty);
    for base in usual.iter() {
        let label = Label { base, number: 0 };
        if is_free(s, label, names) {
            return label;
        }
    }
    numbered(s, usual.first().copied().unwrap_or(b"x"), names)
}

/// The name with the least number that is free.
fn numbered<'a>(s: Source<'a>, base: &'static [u8], names: &[Label<'a>]) -> Label<'a> {
    for number in 1..names.len().saturating_add(2) {
        let label = Label { base, number };
        if is_free(s, label, names) {
            return label;
        }
    }
    Label { base, number: 0 }
}

/// The written name if no other variable has it, and else a fresh one.
pub fn named<'a>(
    s: Source<'a>,
    line: Line<'a>,
    ty: usize,
    written: &'a [u8],
    names: &[Label<'a>],
) -> Label<'a> {
    let label = Label {
        base: written,
        number: 0,
    };
    if !written.is_empty() && is_free(s, label, names) {
        label
    } else {
        fresh(s, line, ty, names)
    }
}

const ARGUMENTS: [&str; 6] = ["x", "y", "z", "u", "v", "w"];

/// A name for an argument that has none, by its place.
pub fn say_usual(page: &mut Page, place: usize) {
    page.say(ARGUMENTS.get(place).copied().unwrap_or("_"));
}
