use crate::clauses::{Clause, find_clause};
use crate::core_line::{core_word, says};
use crate::families::{constructor, is_constructor};
use crate::matter::{Matter, number, place};
use crate::nearest::nearness;
use crate::page::{Page, Style};
use crate::places::{Spot, begin, picture, spot_at, spot_of};
use crate::source::{equals, is, is_name, word};

fn warn(page: &mut Page, m: &Matter<'_>, spot: Spot) {
    begin(page, place(m, spot), Style::Warned);
}

fn end(page: &mut Page, m: &Matter<'_>, spot: Spot) {
    page.say("\n");
    picture(page, place(m, spot));
}

/// Whether the token is a variable among the patterns of the clause.
fn is_variable(m: &Matter<'_>, at: usize) -> bool {
    is_name(m.s, at) && !is_declared_before(m, at) && !is(m.s, at.wrapping_sub(1), ".")
}

/// Whether the token names a constructor that is declared before it.
fn is_declared_before(m: &Matter<'_>, at: usize) -> bool {
    match constructor(m.s, word(m.s, at)) {
        Some(con) => con.name < at,
        None => is_constructor(m.s, word(m.s, at)),
    }
}

/// The nearest constructor that is declared before the token.
fn near_constructor<'a>(m: &Matter<'a>, at: usize) -> Option<&'a [u8]> {
    let mut best = None;
    let mut least = 3;
    for con in m.s.cons.iter() {
        if let Some(distance) = nearness(m.alloc, word(m.s, at), word(m.s, con.name)) {
            if con.name < at && distance < least {
                least = distance;
                best = Some(word(m.s, con.name));
            }
        }
    }
    best
}

/// The constructor, declared before the token, that differs from its name only in small and capital letters.
fn alike_constructor<'a>(m: &Matter<'a>, at: usize) -> Option<&'a [u8]> {
    for con in m.s.cons.iter() {
        if con.name < at && word(m.s, con.name).eq_ignore_ascii_case(word(m.s, at)) {
            return Some(word(m.s, con.name));
        }
    }
    None
}

/// The first variable of the clauses up to this one that is nearly a constructor.
fn misspelled(m: &Matter<'_>, owner: &[u8], last: usize) -> Option<usize> {
    for number in 1..last.saturating_add(1) {
        if let Some(it) = find_clause(m.alloc, m.s, m.decl, owner, number) {
            for at in it.left.from.saturating_add(1)..it.left.to {
                if is_variable(m, at) && near_constructor(m, at).is_some() {
                    return Some(at);
                }
            }
        }
    }
    None
}

/// A clause that is used nowhere: the line says that it is shadowed, and no leaf comes after it.
pub fn unreached(page: &mut Page, m: &Matter<'_>) {
    let owner = core_word(m.line, 2);
    let last = number(m, 3);
    let Some(clause) = find_clause(m.alloc, m.s, m.decl, owner, last) else {
        return;
    };
    let spot = spot_of(m.s, clause.left);
    warn(page, m, spot);
    page.say("this clause is never reached: clause ");
    page.number(number(m, 5));
    page.say(" takes its arguments");
    end(page, m, spot);
    match misspelled(m, owner, last) {
        Some(at) => {
            page.advise("");
            page.quote(word(m.s, at));
            page.say(" in an earlier clause is a variable; did you mean ");
            page.quote(near_constructor(m, at).unwrap_or(b""));
            page.say("?\n");
        }
        None => page.advise(
            "put it before the clauses that take its arguments, or leave it out.\n",
        ),
    }
}

/// Whether the line says that a clause is shadowed.
pub fn is_shadowed(m: &Matter<'_>) -> bool {
    says(m.line, 1, "clause") && says(m.line, 4, "shadowed")
}

/// A variable that one may take for a constructor: the name is that of a constructor which is declared later, or of one of the prelude
/// without its level, or differs from a constructor only in small and capital letters.
fn doubtful(page: &mut Page, m: &Matter<'_>, at: usize) {
    let name = word(m.s, at);
    let spot = spot_at(m.s, at);
    let is_later = constructor(m.s, name).is_some();
    let is_bare = equals(name, "refl") || equals(name, "unit") || equals(name, "pair");
    let near = alike_constructor(m, at);
    let is_alike = near.is_some();
    if !is_later && !is_bare && !is_alike {
        return;
    }
    warn(page, m, spot);
    page.quote(name);
    page.say(" is a variable here, and no constructor");
    end(page, m, spot);
    if is_later {
        page.advise(
            "the constructor of this name is declared later: declare its family before, or take another name for the variable.\n",
        );
    } else if is_bare {
        page.advise("in the names of the prelude the level is a part: write `");
        page.show(name);
        page.say(".0`, or a higher level.\n");
    } else {
        page.advise("did you mean ");
        page.quote(near.unwrap_or(b""));
        page.say("?\n");
    }
}

/// Warnings for the variables of a clause.
pub fn variables(page: &mut Page, m: &Matter<'_>, clause: Clause) {
    for at in clause.left.from.saturating_add(1)..clause.left.to {
        if is_variable(m, at) {
            doubtful(page, m, at);
        }
    }
}
