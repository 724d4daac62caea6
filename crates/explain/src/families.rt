use crate::source::{
    Con, Declared, Form, Source, Span, bare, closing, colon_of_binder, find, is, is_name, split,
    word,
};
use std::alloc::Global;

/// A product of a written type: its variable, if it has one, and its domain.
#[derive(Clone, Copy)]
pub struct Param {
    pub name: Option<usize>,
    pub ty: Span,
}

/// The products with which a written type begins, and what is behind them.
#[derive(Drop)]
pub struct Telescope {
    pub params: Vec<Param>,
    pub rest: Span,
}

fn with_names(s: Source<'_>, names: Span, ty: Span, params: &mut Vec<Param>) {
    for at in names.from..names.to {
        let name = if is(s, at, "_") { None } else { Some(at) };
        let _ = params.push(Param { name, ty });
    }
}

/// The tokens behind a binder and the arrow after it.
pub fn behind_binder(s: Source<'_>, span: Span) -> Span {
    let close = closing(s, span);
    let next = close.saturating_add(1);
    let from = if is(s, next, "->") {
        next.saturating_add(1)
    } else {
        next
    };
    Span::new(from, span.to)
}

/// The products of a type, or the parameters before the colon of a family.
pub fn telescope_of(alloc: Global, s: Source<'_>, span: Span) -> Telescope {
    let mut params = Vec::new(alloc);
    let mut rest = bare(s, span);
    for _ in span.from..span.to {
        if let Some(colon) = colon_of_binder(s, rest) {
            let names = Span::new(rest.from.saturating_add(1), colon);
            let ty = Span::new(colon.saturating_add(1), closing(s, rest));
            with_names(s, names, ty, &mut params);
            rest = behind_binder(s, rest);
        } else if let Some(arrow) = find(s, rest, "->") {
            let _ = params.push(Param {
                name: None,
                ty: Span::new(rest.from, arrow),
            });
            rest = Span::new(arrow.saturating_add(1), rest.to);
        } else {
            break;
        }
        rest = bare(s, rest);
    }
    Telescope { params, rest }
}

/// The tokens between the name of a declaration and the colon after it.
pub fn header_of(s: Source<'_>, decl: Declared) -> Span {
    let from = decl.name.saturating_add(1);
    let to = find(s, Span::new(from, decl.whole.to), ":").unwrap_or(from);
    Span::new(from, to)
}

/// The tokens of the type of a declaration.
pub fn type_of(s: Source<'_>, decl: Declared) -> Span {
    let from = header_of(s, decl).to.saturating_add(1);
    let behind = Span::new(from, decl.whole.to);
    let end = if decl.form == Form::Def { "=" } else { "{" };
    Span::new(from, find(s, behind, end).unwrap_or(decl.whole.to))
}

/// The tokens of the body of a definition.
pub fn body_of(s: Source<'_>, decl: Declared) -> Span {
    Span::new(type_of(s, decl).to.saturating_add(1), decl.whole.to)
}

/// The tokens inside the first braces of the span.
pub fn braces(s: Source<'_>, span: Span) -> Option<Span> {
    let open = find(s, span, "{")?;
    let to = closing(s, Span::new(open, span.to));
    Some(Span::new(open.saturating_add(1), to))
}

/// The family of the tags, whose names are in these braces, or the declaration itself for other braces of it.
fn family_of(s: Source<'_>, decl: Declared, inner: Span) -> Declared {
    let from = inner.from.saturating_sub(4);
    if is(s, from, "in") {
        Declared {
            form: Form::Data,
            name: from.saturating_add(2),
            whole: Span::new(from, decl.whole.to),
        }
    } else {
        decl
    }
}

/// The constructors in all braces of the declaration: several families that refer to each other have some each, and then those of the tags.
fn add_constructors(alloc: Global, s: Source<'_>, decl: Declared, found: &mut Vec<Con>) {
    let mut rest = decl.whole;
    for _ in decl.whole.from..decl.whole.to {
        let Some(inner) = braces(s, rest) else {
            return;
        };
        add_listed(alloc, s, family_of(s, decl, inner), inner, found);
        rest = Span::new(inner.to.saturating_add(1), rest.to);
    }
}

fn add_listed(alloc: Global, s: Source<'_>, family: Declared, inner: Span, found: &mut Vec<Con>) {
    for con in split(alloc, s, inner, ";").iter() {
        if is_name(s, con.from) {
            let ty = Span::new(con.from.saturating_add(2), con.to);
            let _ = found.push(Con {
                family,
                name: con.from,
                ty,
            });
        }
    }
}

/// All constructors of the file.
pub fn constructors(alloc: Global, s: Source<'_>) -> Vec<Con> {
    let mut found = Vec::new(alloc);
    for decl in s.decls.iter() {
        if decl.form == Form::Data {
            add_constructors(alloc, s, *decl, &mut found);
        }
    }
    found
}

/// The constructor of this name.
pub fn constructor(s: Source<'_>, name: &[u8]) -> Option<Con> {
    for con in s.cons.iter() {
        if word(s, con.name) == name {
            return Some(*con);
        }
    }
    None
}

/// Whether the name is this word with a level behind it, as `refl.0` is `refl` with one.
pub fn is_at_level(name: &[u8], base: &str) -> bool {
    let base = base.as_bytes();
    let Some(level) = name.strip_prefix(base) else {
        return false;
    };
    let Some(digits) = level.strip_prefix(b".") else {
        return false;
    };
    !digits.is_empty() && digits.len() <= 2 && digits.iter().all(|it| it.is_ascii_digit())
}

/// A constructor of the prelude: its numbers of parameters and of arguments.
fn of_prelude(name: &[u8]) -> Option<(usize, usize)> {
    if is_at_level(name, "refl") {
        Some((2, 0))
    } else if is_at_level(name, "unit") {
        Some((0, 0))
    } else if is_at_level(name, "pair") {
        Some((2, 2))
    } else {
        None
    }
}

pub fn is_constructor(s: Source<'_>, name: &[u8]) -> bool {
    constructor(s, name).is_some() || of_prelude(name).is_some()
}

/// The parameters of a family.
pub fn parameters(alloc: Global, s: Source<'_>, family: Declared) -> Vec<Param> {
    telescope_of(alloc, s, header_of(s, family)).params
}

/// How many parameters come before the arguments of this constructor in a term.
pub fn count_params(alloc: Global, s: Source<'_>, name: &[u8]) -> usize {
    match constructor(s, name) {
        Some(con) => parameters(alloc, s, con.family).len(),
        None => of_prelude(name).map_or(0, |it| it.0),
    }
}

/// How many arguments this constructor has.
pub fn count_args(alloc: Global, s: Source<'_>, name: &[u8]) -> usize {
    match constructor(s, name) {
        Some(con) => telescope_of(alloc, s, con.ty).params.len(),
        None => of_prelude(name).map_or(0, |it| it.1),
    }
}
