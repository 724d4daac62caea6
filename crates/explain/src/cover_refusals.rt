use crate::clauses::{block, clauses, number_behind, patterns};
use crate::core_line::{Shape, behind, context_of, core_word, head, index_of, parts_of, shape_of};
use crate::families::{
    constructor, count_args, count_params, is_constructor, telescope_of, type_of,
};
use crate::labels::{Label, named};
use crate::matter::{Matter, refuse, show};
use crate::page::Page;
use crate::places::{Spot, spot_at, spot_of};
use crate::rendering::say_term;
use crate::source::{Form, Span, atoms, closing, equals, find_declaration, is, is_name, word};
use std::alloc::Global;

/// The terms of an argument list that begins at this word.
fn vector_of(m: &Matter<'_>, from: usize) -> Vec<usize> {
    let mut terms = Vec::new(m.alloc);
    let mut next = from;
    for _ in from..m.line.words.len() {
        if next < m.line.words.len() {
            let _ = terms.push(next);
            next = behind(m.line, next);
        }
    }
    terms
}

/// The constructor at the head of a term with all its arguments, by the number of its parameters.
fn parameters_of(m: &Matter<'_>, at: usize) -> Option<usize> {
    let name = core_word(m.line, head(m.line, at));
    let count = parts_of(m.alloc, m.line, at).len().saturating_sub(1);
    let params = count_params(m.alloc, m.s, name);
    if is_constructor(m.s, name) && count == params.saturating_add(count_args(m.alloc, m.s, name)) {
        Some(params)
    } else {
        None
    }
}

/// Where each variable of the context is bound: at its last place among the terms that a pattern can bind, from the left.
#[derive(Drop)]
struct Binding {
    words: Vec<Option<usize>>,
}

/// The words of a term at which a pattern may bind a variable: those outside of parameters and of what no pattern shows.
fn bindable(alloc: Global, m: &Matter<'_>, term: usize) -> Vec<usize> {
    let mut found = Vec::new(alloc);
    let mut left = Vec::new(alloc);
    let _ = left.push(term);
    for _ in term..behind(m.line, term) {
        if let Some(at) = left.pop() {
            if shape_of(m.line, at) == Shape::Variable {
                let _ = found.push(at);
            } else if let Some(params) = parameters_of(m, at) {
                for part in parts_of(alloc, m.line, at)
                    .iter()
                    .skip(params.saturating_add(1))
                {
                    let _ = left.push(*part);
                }
            }
        }
    }
    found
}

fn set(words: &mut Vec<Option<usize>>, at: usize, to: usize) {
    if let Some(it) = words.get_mut(at) {
        *it = Some(to);
    }
}

fn binding_of(m: &Matter<'_>, terms: &[usize], count: usize) -> Binding {
    let mut words = Vec::new(m.alloc);
    for _ in 0..count {
        let _ = words.push(None);
    }
    for term in terms.iter() {
        for at in bindable(m.alloc, m, *term).iter() {
            let index = index_of(m.line, *at);
            let is_later = words
                .get(index)
                .copied()
                .flatten()
                .is_none_or(|it| it < *at);
            if is_later {
                set(&mut words, index, *at);
            }
        }
    }
    Binding { words }
}

/// Whether some variable is bound inside the term.
fn binds(m: &Matter<'_>, binding: &Binding, at: usize) -> bool {
    let end = behind(m.line, at);
    binding
        .words
        .iter()
        .any(|it| it.is_some_and(|word| at <= word && word < end))
}

/// Whether the term has a variable.
fn is_open(m: &Matter<'_>, at: usize) -> bool {
    (at..behind(m.line, at)).any(|it| shape_of(m.line, it) == Shape::Variable)
}

/// Whether an argument of a constructor, behind its parameters, has a variable.
fn has_open_arguments(m: &Matter<'_>, at: usize, params: usize) -> bool {
    let parts = parts_of(m.alloc, m.line, at);
    parts
        .iter()
        .skip(params.saturating_add(1))
        .any(|it| is_open(m, *it))
}

/// The forms of the pattern that stands for a term: a variable, a dot and the term, or a constructor.
#[derive(Clone, Copy, PartialEq, Eq)]
enum Kind {
    Bound,
    Dot,
    Constructor(usize),
}

fn kind_of(m: &Matter<'_>, binding: &Binding, at: usize) -> Kind {
    if shape_of(m.line, at) == Shape::Variable {
        return if binds(m, binding, at) {
            Kind::Bound
        } else {
            Kind::Dot
        };
    }
    match parameters_of(m, at) {
        Some(params) if binds(m, binding, at) || !has_open_arguments(m, at, params) =>
            Kind::Constructor(params),
        _ => Kind::Dot,
    }
}

/// Writes the pattern that stands for a term. What is written next is taken from the end of a list of terms that are left.
fn say_pattern<'a>(
    page: &mut Page,
    m: &Matter<'a>,
    binding: &Binding,
    term: usize,
    names: &mut Vec<Label<'a>>,
) {
    let mut left: Vec<Option<usize>> = Vec::new(m.alloc);
    let _ = left.push(Some(term));
    for _ in term..behind(m.line, term).saturating_mul(2) {
        match left.pop() {
            Some(Some(at)) => say_part(page, m, binding, at, at == term, &mut left, names),
            Some(None) => page.say(")"),
            None => return,
        }
    }
}

fn say_part<'a>(
    page: &mut Page,
    m: &Matter<'a>,
    binding: &Binding,
    at: usize,
    is_first: bool,
    left: &mut Vec<Option<usize>>,
    names: &mut Vec<Label<'a>>,
) {
    page.say(if is_first { "" } else { " " });
    let kind = kind_of(m, binding, at);
    let is_application = shape_of(m.line, at) != Shape::Name
        && shape_of(m.line, at) != Shape::Variable;
    match kind {
        Kind::Constructor(params) => {
            let parts = parts_of(m.alloc, m.line, at);
            let has_arguments = parts.len() > params.saturating_add(1);
            page.say(if has_arguments { "(" } else { "" });
            page.show(core_word(m.line, head(m.line, at)));
            if has_arguments {
                let _ = left.push(None);
                for part in parts.iter().skip(params.saturating_add(1)).rev() {
                    let _ = left.push(Some(*part));
                }
            }
        }
        Kind::Bound => say_term(m.alloc, page, m.s, m.line, at, names),
        Kind::Dot => {
            page.say(if is_application { ".(" } else { "." });
            say_term(m.alloc, page, m.s, m.line, at, names);
            page.say(if is_application { ")" } else { "" });
        }
    }
}

/// A name for a variable of the context, from the places at which the clauses have one.
fn name_from_clauses<'a>(
    m: &Matter<'a>,
    owner: &[u8],
    word_of_variable: usize,
    terms: &[usize],
) -> &'a [u8] {
    let at = terms.iter().position(|it| *it == word_of_variable);
    let helper = number_behind(owner, b'w').unwrap_or(0);
    let Some(at) = at else {
        return b"";
    };
    let Some(inner) = block(m.s, m.decl, helper) else {
        return b"";
    };
    for clause in clauses(m.alloc, m.s, inner).iter() {
        let found = patterns(m.alloc, m.s, *clause);
        let pattern = found.as_slice().get(at).copied().unwrap_or(Span::new(0, 0));
        let name = word(m.s, pattern.from);
        if pattern.from.saturating_add(1) == pattern.to
            && is_name(m.s, pattern.from)
            && !is_constructor(m.s, name)
        {
            return name;
        }
    }
    let types = telescope_of(m.alloc, m.s, type_of(m.s, m.decl)).params;
    types.as_slice().get(at).map_or(
        &b""[..],
        |it| it.name.map_or(&b""[..], |name| word(m.s, name)),
    )
}

/// A name for a variable that is an argument of a constructor in the argument list: the one that some clause has at that argument, or the
/// one of its declaration.
fn name_of_argument<'a>(m: &Matter<'a>, word_of_variable: usize) -> &'a [u8] {
    let mut best: &'a [u8] = b"";
    for at in 0..word_of_variable {
        let parts = parts_of(m.alloc, m.line, at);
        let place = parts
            .iter()
            .position(|it| *it == word_of_variable)
            .unwrap_or(0);
        let name = core_word(m.line, head(m.line, at));
        let params = count_params(m.alloc, m.s, name);
        if shape_of(m.line, at) == Shape::Application
            && place > params
            && is_constructor(m.s, name)
        {
            best = name_at(m, name, place.saturating_sub(params).saturating_sub(1));
        }
    }
    best
}

/// The variable at this argument of the constructor, if the pattern that begins with the token has that constructor.
fn name_in_pattern<'a>(m: &Matter<'a>, token: usize, con: &[u8], argument: usize) -> &'a [u8] {
    if !is(m.s, token, "(") || word(m.s, token.saturating_add(1)) != con {
        return b"";
    }
    let close = closing(m.s, Span::new(token, m.decl.whole.to));
    let parts = atoms(m.alloc, m.s, Span::new(token.saturating_add(2), close));
    let part = parts
        .as_slice()
        .get(argument)
        .copied()
        .unwrap_or(Span::new(0, 0));
    let name = word(m.s, part.from);
    let is_alone = part.from.saturating_add(1) == part.to && is_name(m.s, part.from);
    let is_whole = parts.len() == count_args(m.alloc, m.s, con);
    if is_whole && is_alone && !is_constructor(m.s, name) {
        name
    } else {
        b""
    }
}

/// The name that some clause of the function has at this argument of a constructor, or that of the declaration.
fn name_at<'a>(m: &Matter<'a>, con: &[u8], argument: usize) -> &'a [u8] {
    for token in m.decl.whole.from..m.decl.whole.to {
        let name = name_in_pattern(m, token, con, argument);
        if !name.is_empty() {
            return name;
        }
    }
    let Some(found) = constructor(m.s, con) else {
        return b"";
    };
    let types = telescope_of(m.alloc, m.s, found.ty).params;
    let token = types.as_slice().get(argument).and_then(|it| it.name);
    token.map_or(&b""[..], |it| word(m.s, it))
}

fn names_for<'a>(
    m: &Matter<'a>,
    owner: &[u8],
    terms: &[usize],
    types: &[usize],
    binding: &Binding,
) -> Vec<Label<'a>> {
    let mut names: Vec<Label<'a>> = Vec::new(m.alloc);
    for (at, ty) in types.iter().enumerate() {
        let index = types.len().saturating_sub(at).saturating_sub(1);
        let word_of_variable = binding
            .words
            .as_slice()
            .get(index)
            .copied()
            .flatten()
            .unwrap_or(0);
        let mut name = name_from_clauses(m, owner, word_of_variable, terms);
        if name.is_empty() {
            name = name_of_argument(m, word_of_variable);
        }
        let label = named(m.s, m.line, *ty, name, names.as_slice());
        let _ = names.push(label);
    }
    names
}

/// The place in the argument list of a variable whose family has no constructor.
fn empty_at(m: &Matter<'_>, terms: &[usize], types: &[usize]) -> Option<usize> {
    for (at, ty) in types.iter().enumerate() {
        let family = core_word(m.line, head(m.line, *ty));
        let is_declared = find_declaration(m.s, family).is_some_and(|it| it.form == Form::Data);
        let is_empty = equals(family, "Empty")
            || (is_declared
                && !m
                    .s
                    .cons
                    .iter()
                    .any(|it| word(m.s, it.family.name) == family));
        if is_empty {
            let index = types.len().saturating_sub(at).saturating_sub(1);
            return terms.iter().position(|it| shape_of(m.line, *it) == Shape::Variable
                && index_of(m.line, *it) == index);
        }
    }
    None
}

pub fn uncovered(page: &mut Page, m: &Matter<'_>) {
    let owner = core_word(m.line, 4);
    let terms = vector_of(m, behind(m.line, 5));
    let types = context_of(m.alloc, m.line, 5);
    let binding = binding_of(m, terms.as_slice(), types.len());
    let mut names = names_for(m, owner, terms.as_slice(), types.as_slice(), &binding);
    let empty = empty_at(m, terms.as_slice(), types.as_slice());
    let spot = spot_of_owner(m, owner);
    refuse(page, m, spot);
    page.say("no clause covers all arguments");
    if number_behind(owner, b'w').is_some() {
        page.say(" inside this `with`");
    }
    show(page, m, spot);
    page.advise("add the clause `");
    page.show(word(m.s, m.decl.name));
    for (at, term) in terms.iter().enumerate() {
        page.say(" ");
        if empty == Some(at) {
            page.say("()");
        } else {
            say_pattern(page, m, &binding, *term, &mut names);
        }
    }
    page.say(if empty.is_some() { "`.\n" } else { " = ..`.\n" });
}

/// The name of the function, or the `with` of the helper.
fn spot_of_owner(m: &Matter<'_>, owner: &[u8]) -> Spot {
    let number = number_behind(owner, b'w').unwrap_or(0);
    let mut count: usize = 0;
    for at in m.decl.whole.from..m.decl.whole.to {
        if is(m.s, at, "with") {
            count = count.saturating_add(1);
            if count == number {
                return spot_of(m.s, Span::new(at, at.saturating_add(1)));
            }
        }
    }
    spot_at(m.s, m.decl.name)
}
