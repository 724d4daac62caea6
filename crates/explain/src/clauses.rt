use crate::families::braces;
use crate::source::{Declared, Source, Span, atoms, find, is, part, split};
use std::alloc::Global;

/// A clause: its tokens, and the token behind its patterns.
#[derive(Clone, Copy)]
pub struct Clause {
    pub whole: Span,
    pub left: Span,
}

/// The tokens inside the braces of the `with` of this number, counted from 1, or of the function itself for 0.
pub fn block(s: Source<'_>, decl: Declared, number: usize) -> Option<Span> {
    if number == 0 {
        return braces(s, decl.whole);
    }
    let mut count: usize = 0;
    for at in decl.whole.from..decl.whole.to {
        if is(s, at, "with") {
            count = count.saturating_add(1);
            if count == number {
                return braces(s, Span::new(at, decl.whole.to));
            }
        }
    }
    None
}

/// The part of a name behind its last `!` and this letter, as a number: 2 for `f!w1!c2` and `c`.
pub fn number_behind(name: &[u8], letter: u8) -> Option<usize> {
    let at = name.iter().rposition(|it| *it == b'!')?;
    let mark = name.get(at.saturating_add(1)).copied();
    if mark == Some(letter) {
        Some(crate::core_line::number_of(part(name, at.saturating_add(2), name.len())))
    } else {
        None
    }
}

/// The part of a name before its last `!`.
pub fn name_before(name: &[u8]) -> &[u8] {
    let at = name
        .iter()
        .rposition(|it| *it == b'!')
        .unwrap_or(name.len());
    part(name, 0, at)
}

fn left_of(s: Source<'_>, whole: Span) -> Span {
    let equals = find(s, whole, "=").unwrap_or(whole.to);
    let with = find(s, whole, "with").unwrap_or(whole.to);
    Span::new(whole.from, equals.min(with))
}

/// The clauses between these braces.
pub fn clauses(alloc: Global, s: Source<'_>, inner: Span) -> Vec<Clause> {
    let mut found = Vec::new(alloc);
    for whole in split(alloc, s, inner, ";").iter() {
        if whole.from < whole.to {
            let _ = found.push(Clause {
                whole: *whole,
                left: left_of(s, *whole),
            });
        }
    }
    found
}

/// The clause of this number of the function or of the helper of this name.
pub fn find_clause(
    alloc: Global,
    s: Source<'_>,
    decl: Declared,
    owner: &[u8],
    number: usize,
) -> Option<Clause> {
    let helper = number_behind(owner, b'w').unwrap_or(0);
    let inner = block(s, decl, helper)?;
    clauses(alloc, s, inner)
        .get(number.wrapping_sub(1))
        .copied()
}

/// The patterns of a clause.
pub fn patterns(alloc: Global, s: Source<'_>, clause: Clause) -> Vec<Span> {
    atoms(
        alloc,
        s,
        Span::new(clause.left.from.saturating_add(1), clause.left.to),
    )
}

/// The right side of a clause, or its scrutinee.
pub fn right_of(s: Source<'_>, clause: Clause) -> Span {
    let from = clause.left.to.saturating_add(1).min(clause.whole.to);
    let behind = Span::new(from, clause.whole.to);
    let to = if is(s, clause.left.to, "with") {
        find(s, behind, "{").unwrap_or(clause.whole.to)
    } else {
        clause.whole.to
    };
    Span::new(from, to)
}

/// The clause whose name is this token.
pub fn left_of_clause_at(s: Source<'_>, decl: Declared, token: usize) -> Clause {
    let behind = Span::new(token, decl.whole.to);
    let mut to = behind.to;
    for end in [";", "}", "{"].iter() {
        to = to.min(find(s, behind, end).unwrap_or(to));
    }
    let whole = Span::new(token, to);
    Clause {
        whole,
        left: left_of(s, whole),
    }
}

/// How many `with` there are around this token.
pub fn depth_of(s: Source<'_>, decl: Declared, token: usize) -> usize {
    let mut depth: usize = 0;
    for at in decl.whole.from..token {
        if is(s, at, "{") {
            depth = depth.saturating_add(1);
        } else if is(s, at, "}") {
            depth = depth.saturating_sub(1);
        }
    }
    depth.saturating_sub(1)
}
