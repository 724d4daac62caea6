use crate::core_line::{core_word, says};
use crate::families::{constructor, header_of, parameters, telescope_of, type_of};
use crate::matter::{Matter, number, quote, refuse, show, simple, spot};
use crate::page::Page;
use crate::places::spot_at;
use crate::source::{Con, Span, atoms, bare, find, word, written};

pub fn bad_family(page: &mut Page, m: &Matter<'_>) {
    let rest = telescope_of(m.alloc, m.s, type_of(m.s, m.decl)).rest;
    let advice = "the type of a family ends in a sort, as in `data D : Nat -> Type 0 { .. }`.";
    simple(page, m, spot(m, rest), "this is no sort", advice);
}

/// The first use of the family in the span with other terms for its parameters than their names.
fn varying(m: &Matter<'_>, span: Span) -> Option<Span> {
    let count = parameters(m.alloc, m.s, m.decl).len();
    for at in span.from..span.to {
        if word(m.s, at) == word(m.s, m.decl.name) {
            let parts = atoms(
                m.alloc,
                m.s,
                Span::new(at, end_of_application(m, at, span.to)),
            );
            let last = parts
                .as_slice()
                .get(count)
                .map_or(at.saturating_add(1), |it| it.to);
            let found = Span::new(at, last);
            if parts.len() > count && differing(m, found).is_some() {
                return Some(found);
            }
        }
    }
    None
}

fn end_of_application(m: &Matter<'_>, from: usize, to: usize) -> usize {
    let span = Span::new(from, to);
    let arrow = find(m.s, span, "->").unwrap_or(to);
    arrow.min(find(m.s, span, ")").unwrap_or(to))
}

/// The number of the first parameter for which something else than its name stands here.
fn differing(m: &Matter<'_>, found: Span) -> Option<usize> {
    let params = parameters(m.alloc, m.s, m.decl);
    let parts = atoms(m.alloc, m.s, found);
    for (at, param) in params.iter().enumerate() {
        let part = parts.as_slice().get(at.saturating_add(1)).copied()?;
        let name = param.name.map_or(&b""[..], |it| word(m.s, it));
        if written(m.s, bare(m.s, part)) != name {
            return Some(at);
        }
    }
    None
}

fn say_family(page: &mut Page, m: &Matter<'_>) {
    page.say("`");
    page.show(word(m.s, m.decl.name));
    for param in parameters(m.alloc, m.s, m.decl).iter() {
        page.say(" ");
        page.show(param.name.map_or(&b"_"[..], |it| word(m.s, it)));
    }
    page.say("`");
}

/// The header with an index in the place of this parameter.
fn say_header(page: &mut Page, m: &Matter<'_>, number: usize) {
    page.say("`data ");
    page.show(word(m.s, m.decl.name));
    let params = parameters(m.alloc, m.s, m.decl);
    for (at, param) in params.iter().enumerate() {
        page.say(if at < number {
            " ("
        } else if at == number {
            " : ("
        } else {
            " -> ("
        });
        page.show(param.name.map_or(&b"_"[..], |it| word(m.s, it)));
        page.say(" : ");
        page.show(written(m.s, param.ty));
        page.say(")");
    }
    page.say(" -> ");
    page.show(written(m.s, type_of(m.s, m.decl)));
    page.say("`");
}

/// The refusal of a family at another term than its parameter. The parameter has to be an index.
fn varies(page: &mut Page, m: &Matter<'_>, found: Span) {
    refuse(page, m, spot(m, found));
    quote(page, m, found);
    page.say(" differs from ");
    say_family(page, m);
    page.say(": a parameter is the same in the whole declaration");
    show(page, m, spot(m, found));
    let number = differing(m, found).unwrap_or(0);
    let params = parameters(m.alloc, m.s, m.decl);
    let name = params.as_slice().get(number).map_or(
        &b""[..],
        |it| it.name.map_or(&b""[..], |name| word(m.s, name)),
    );
    page.advise("make ");
    page.quote(name);
    page.say(" an index: ");
    say_header(page, m, number);
    page.say(", and bind it in the types of the constructors.\n");
}

/// The argument of this number of a constructor.
pub fn argument(m: &Matter<'_>, con: Con, number: usize) -> Span {
    let types = telescope_of(m.alloc, m.s, con.ty).params;
    types
        .as_slice()
        .get(number.wrapping_sub(1))
        .map_or(con.ty, |it| it.ty)
}

/// The first use of the family in these tokens.
fn use_in(m: &Matter<'_>, span: Span) -> Span {
    for at in span.from..span.to {
        if word(m.s, at) == word(m.s, m.decl.name) {
            return Span::new(at, at.saturating_add(1));
        }
    }
    span
}

/// Whether the family stands before an arrow in the type of an argument.
fn is_before_arrow(m: &Matter<'_>, ty: Span) -> bool {
    let found = telescope_of(m.alloc, m.s, ty);
    found.params.iter().any(|it| use_in(m, it.ty).from != it.ty.from
        || word(m.s, it.ty.from) == word(m.s, m.decl.name))
}

fn not_positive_argument(page: &mut Page, m: &Matter<'_>, con: Con, number: usize) {
    let ty = argument(m, con, number);
    let used = use_in(m, ty);
    refuse(page, m, spot(m, used));
    page.quote(word(m.s, m.decl.name));
    if is_before_arrow(m, bare(m.s, ty)) {
        page.say(" stands before an arrow in argument ");
        page.number(number);
        page.say(" of ");
        page.quote(word(m.s, con.name));
        show(page, m, spot(m, used));
        page.advise(
            "a family may only be what the argument of a constructor answers, as in `(A -> D) -> D`: take it out of the domain.\n",
        );
    } else {
        page.say(" stands inside another type in argument ");
        page.number(number);
        page.say(" of ");
        page.quote(word(m.s, con.name));
        show(page, m, spot(m, used));
        page.advise(
            "make one family of the two, with an index that says which of them is meant (examples/tags.elim).\n",
        );
    }
}

pub fn not_positive(page: &mut Page, m: &Matter<'_>) {
    let Some(con) = constructor(m.s, core_word(m.line, 4)) else {
        let advice = "a family may only be what the argument of a constructor answers.";
        simple(
            page,
            m,
            spot_at(m.s, m.decl.name),
            "this family is not positive",
            advice,
        );
        return;
    };
    let number = number(m, 5);
    let rest = telescope_of(m.alloc, m.s, con.ty).rest;
    let span = if number == 0 {
        rest
    } else {
        argument(m, con, number)
    };
    if let Some(found) = varying(m, span) {
        varies(page, m, found);
    } else if number > 0 {
        not_positive_argument(page, m, con, number);
    } else {
        refuse(page, m, spot(m, rest));
        page.say("the type of ");
        page.quote(word(m.s, con.name));
        page.say(" does not end in ");
        say_family(page, m);
        show(page, m, spot(m, rest));
        page.advise(
            "end it in the family, at its parameters and at one term for each index, in which the family does not occur.\n",
        );
    }
}

pub fn index_too_large(page: &mut Page, m: &Matter<'_>) {
    let number = number(m, 5);
    let index = telescope_of(m.alloc, m.s, type_of(m.s, m.decl)).params;
    let of_index = index
        .as_slice()
        .get(number.wrapping_sub(1))
        .map_or(header_of(m.s, m.decl), |it| it.ty);
    let span = match constructor(m.s, core_word(m.line, 4)) {
        Some(con) if !says(m.line, 4, "-") => argument(m, con, number),
        _ => of_index,
    };
    refuse(page, m, spot(m, span));
    page.say(if says(m.line, 4, "-") {
        "the type of index "
    } else {
        "the type of argument "
    });
    page.number(number);
    if !says(m.line, 4, "-") {
        page.say(" of ");
        page.quote(core_word(m.line, 4));
    }
    page.say(" is in a higher sort than the family");
    show(page, m, spot(m, span));
    page.advise("raise the sort of the family: ");
    page.quote(written(m.s, telescope_of(m.alloc, m.s, type_of(m.s, m.decl)).rest));
    page.say(" is too low");
    page.say(if says(m.line, 4, "-") {
        ".\n"
    } else {
        "; or make what is large a parameter.\n"
    });
}
