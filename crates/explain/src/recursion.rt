use crate::clauses::{Clause, left_of_clause_at, patterns, right_of};
use crate::families::{Param, constructor, parameters, telescope_of, type_of};
use crate::matter::Matter;
use crate::source::{
    Form, Span, atoms, bare, closes, find, find_declaration, is, is_name, opens, word,
};
use std::alloc::Global;

/// All clauses of the function, those inside a `with` too.
pub fn all_clauses(m: &Matter<'_>) -> Vec<Clause> {
    let mut found = Vec::new(m.alloc);
    for at in m.decl.whole.from..m.decl.whole.to {
        let begins = is(m.s, at.wrapping_sub(1), "{") || is(m.s, at.wrapping_sub(1), ";");
        if begins && word(m.s, at) == word(m.s, m.decl.name) {
            let _ = found.push(left_of_clause_at(m.s, m.decl, at));
        }
    }
    found
}

fn ends_application(m: &Matter<'_>, at: usize) -> bool {
    closes(m.s, at)
        || ["->", "in", "=", ";", ":", "{", "with"]
            .iter()
            .any(|it| is(m.s, at, it))
}

/// The application that begins with this token.
fn application_at(m: &Matter<'_>, from: usize, to: usize) -> Span {
    let mut depth: usize = 0;
    for at in from..to {
        if depth == 0 && ends_application(m, at) {
            return Span::new(from, at);
        }
        if opens(m.s, at) {
            depth = depth.saturating_add(1);
        } else if closes(m.s, at) {
            depth = depth.saturating_sub(1);
        }
    }
    Span::new(from, to)
}

/// The calls of the function in the right side or the scrutinee of a clause.
pub fn calls(m: &Matter<'_>, clause: Clause) -> Vec<Span> {
    let mut found = Vec::new(m.alloc);
    let right = right_of(m.s, clause);
    for at in right.from..right.to {
        if word(m.s, at) == word(m.s, m.decl.name) {
            let _ = found.push(application_at(m, at, right.to));
        }
    }
    found
}

/// The argument of this number of a call, counted from 0.
pub fn argument(m: &Matter<'_>, call: Span, number: usize) -> Option<Span> {
    atoms(m.alloc, m.s, call)
        .as_slice()
        .get(number.saturating_add(1))
        .copied()
}

/// The family at the head of a type.
pub fn family_in<'a>(m: &Matter<'a>, ty: Span) -> &'a [u8] {
    let ty = bare(m.s, ty);
    if find(m.s, ty, "->").is_some() {
        b""
    } else {
        word(m.s, ty.from)
    }
}

/// Whether the argument of a constructor is recursive: it is of this family, or a function into it.
fn is_recursive(alloc: Global, m: &Matter<'_>, param: Param, family: &[u8]) -> bool {
    let rest = telescope_of(alloc, m.s, param.ty).rest;
    word(m.s, rest.from) == family
}

/// Whether the variable is a strict part of what the pattern stands for.
pub fn is_part(m: &Matter<'_>, name: &[u8], pattern: Span, family: &[u8]) -> bool {
    let mut left = Vec::new(m.alloc);
    let _ = left.push(bare(m.s, pattern));
    for _ in pattern.from..pattern.to {
        if let Some(it) = left.pop() {
            let arguments = atoms(m.alloc, m.s, Span::new(it.from.saturating_add(1), it.to));
            let types = constructor(m.s, word(m.s, it.from)).map_or(
                Vec::new(m.alloc),
                |con| telescope_of(m.alloc, m.s, con.ty).params,
            );
            for (argument, param) in arguments.iter().zip(types.iter()) {
                let argument = bare(m.s, *argument);
                if is_recursive(m.alloc, m, *param, family) {
                    if argument.from.saturating_add(1) == argument.to
                        && word(m.s, argument.from) == name
                    {
                        return true;
                    }
                    let _ = left.push(argument);
                }
            }
        }
    }
    false
}

/// The types of the arguments of the function.
pub fn arguments(m: &Matter<'_>) -> Vec<Param> {
    telescope_of(m.alloc, m.s, type_of(m.s, m.decl)).params
}

/// Whether the position admits recursion: its type is a family whose indices are variables.
fn admits(m: &Matter<'_>, param: Param) -> bool {
    let family = family_in(m, param.ty);
    let Some(decl) = find_declaration(m.s, family) else {
        return false;
    };
    let count = parameters(m.alloc, m.s, decl).len();
    let parts = atoms(m.alloc, m.s, bare(m.s, param.ty));
    decl.form == Form::Data
        && parts.iter().skip(count.saturating_add(1)).all(|it| it.from.saturating_add(1) == it.to
            && is_name(m.s, it.from))
}

/// Whether the call fits the position: its argument there is a strict part of the clause's own.
pub fn fits(m: &Matter<'_>, clause: Clause, call: Span, position: usize, family: &[u8]) -> bool {
    let found = patterns(m.alloc, m.s, clause);
    match (
        argument(m, call, position),
        found.as_slice().get(position).copied(),
    ) {
        (Some(argument), Some(pattern)) => is_part(
            m,
            word(m.s, bare(m.s, argument).from),
            pattern,
            family,
        ),
        _ => false,
    }
}

fn is_usable(m: &Matter<'_>, param: Param, position: usize) -> bool {
    let family = family_in(m, param.ty);
    let mut count: usize = 0;
    for clause in all_clauses(m).iter() {
        for call in calls(m, *clause).iter() {
            count = count.saturating_add(1);
            if !fits(m, *clause, *call, position, family) {
                return false;
            }
        }
    }
    count > 0
}

/// The first position from this one on that can be the decreasing argument, as far as the text shows it.
pub fn usable_from(m: &Matter<'_>, from: usize) -> Option<usize> {
    for (at, param) in arguments(m).iter().enumerate() {
        if at >= from && admits(m, *param) && is_usable(m, *param, at) {
            return Some(at);
        }
    }
    None
}
