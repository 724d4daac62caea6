use crate::clauses::{Clause, find_clause, name_before, number_behind, patterns};
use crate::core_line::{behind, core_word};
use crate::families::{is_at_level, is_constructor, telescope_of};
use crate::labels::say_usual;
use crate::matter::{Matter, number, quote, refuse, show, simple, spot};
use crate::page::Page;
use crate::places::spot_at;
use crate::recursion::{argument, arguments, calls, family_in, fits, usable_from};
use crate::source::{Con, Span, bare, equals, is, is_name, word, written};

/// The call of the row that begins at this word, in the text of its clause.
fn call_of(m: &Matter<'_>, clause: Clause, position: usize) -> Option<Span> {
    let family = arguments(m)
        .as_slice()
        .get(position)
        .map_or(&b""[..], |it| family_in(m, it.ty));
    for call in calls(m, clause).iter() {
        if !fits(m, clause, *call, position, family) {
            return Some(*call);
        }
    }
    None
}

fn row(page: &mut Page, m: &Matter<'_>, at: usize) {
    let position = number(m, at).saturating_sub(1);
    let found = find_clause(
        m.alloc,
        m.s,
        m.decl,
        core_word(m.line, at.saturating_add(1)),
        number(m, at.saturating_add(2)),
    );
    let call = found.and_then(|it| call_of(m, it, position));
    let argument = call.and_then(|it| argument(m, it, position));
    let pattern = found.and_then(|it| patterns(m.alloc, m.s, it).as_slice().get(position).copied());
    let spot = match (argument, call, found) {
        (Some(argument), _, _) => spot(m, argument),
        (None, Some(call), _) => spot(m, call),
        (None, None, Some(clause)) => spot(m, clause.left),
        _ => spot_at(m.s, m.decl.name),
    };
    refuse(page, m, spot);
    page.say("argument ");
    page.number(position.saturating_add(1));
    page.say(" of this call does not get smaller");
    if let (Some(argument), Some(pattern)) = (argument, pattern) {
        page.say(": ");
        quote(page, m, argument);
        page.say(" is no part of ");
        quote(page, m, pattern);
    }
    show(page, m, spot);
}

pub fn not_smaller(page: &mut Page, m: &Matter<'_>) {
    let mut at: usize = 4;
    let mut count: usize = 0;
    for _ in 4..m.line.words.len() {
        if at.saturating_add(3) < m.line.words.len() {
            row(page, m, at);
            count = count.saturating_add(1);
            at = behind(m.line, at.saturating_add(3));
        }
    }
    if count == 0 {
        let advice =
            "recursion is on an argument whose type is a family, written as such, with variables for its indices: give the function one.";
        simple(
            page,
            m,
            spot_at(m.s, m.decl.name),
            "the function calls itself, and no argument admits recursion",
            advice,
        );
    } else if count > 1 {
        page.advise(
            "in each call one and the same argument has to be a part of the pattern; two in turn (lexicographic) are not enough: ",
        );
        page.say(
            "let a function of its own iterate over the other one (examples/iteration.elim).\n",
        );
    } else {
        page.advise(
            "call it at a variable that the pattern binds inside a constructor, as n in `(suc n)`: match further, or recurse on a proof of ",
        );
        page.say("accessibility (examples/division.elim).\n");
    }
}

/// Whether the pattern is a variable, a `_` or a term behind a dot.
fn is_open(m: &Matter<'_>, pattern: Span) -> bool {
    let inner = bare(m.s, pattern);
    is(m.s, inner.from, ".")
        || is(m.s, inner.from, "_")
        || (is_name(m.s, inner.from) && !is_constructor(m.s, word(m.s, inner.from)))
}

/// The constructor with names for its arguments: the last recursive one keeps the name of the variable that is split.
fn say_constructor(page: &mut Page, m: &Matter<'_>, con: Con, variable: &[u8]) {
    let params = telescope_of(m.alloc, m.s, con.ty).params;
    let family = word(m.s, con.family.name);
    let mut last = usize::MAX;
    for (at, param) in params.iter().enumerate() {
        if family_in(m, param.ty) == family {
            last = at;
        }
    }
    page.say(if params.is_empty() { "" } else { "(" });
    page.show(word(m.s, con.name));
    let mut unnamed: usize = 0;
    for (at, param) in params.iter().enumerate() {
        page.say(" ");
        match param.name {
            _ if at == last && !equals(variable, "_") => page.show(variable),
            Some(name) => page.show(word(m.s, name)),
            None => {
                say_usual(page, unnamed);
                unnamed = unnamed.saturating_add(1);
            }
        }
    }
    page.say(if params.is_empty() { "" } else { ")" });
}

/// The left side of the clause with a constructor for the variable.
fn say_split(page: &mut Page, m: &Matter<'_>, clause: Clause, pattern: Span, con: Con) {
    let variable = word(m.s, pattern.from);
    page.say("`");
    for at in clause.left.from..clause.left.to {
        let is_joined = at == clause.left.from
            || is(m.s, at.wrapping_sub(1), "(")
            || is(m.s, at.wrapping_sub(1), ".")
            || is(m.s, at, ")");
        page.say(if is_joined { "" } else { " " });
        let is_meant = at == pattern.from || (!equals(variable, "_") && word(m.s, at) == variable);
        if is_meant {
            say_constructor(page, m, con, variable);
        } else {
            page.show(word(m.s, at));
        }
    }
    page.say(" = ..`");
}

fn advise_split(page: &mut Page, m: &Matter<'_>, clause: Clause, pattern: Span, position: usize) {
    let family = arguments(m)
        .as_slice()
        .get(position)
        .map_or(&b""[..], |it| family_in(m, it.ty));
    let is_variable = !is(m.s, pattern.from, ".");
    let mut count: usize = 0;
    page.advise("");
    for con in m.s.cons.iter() {
        if is_variable && word(m.s, con.family.name) == family && count < 4 {
            page.say(if count == 0 {
                "split it into clauses: "
            } else {
                " and "
            });
            say_split(page, m, clause, pattern, *con);
            count = count.saturating_add(1);
        }
    }
    page.say(if count > 0 {
        "; or hide the argument from the search: "
    } else {
        "hide the argument from the search: "
    });
    page.say("`def Hidden : Type 0 = ");
    page.show(
        arguments(m)
            .as_slice()
            .get(position)
            .map_or(&b"_"[..], |it| written(m.s, it.ty)),
    );
    page.say("`, and `Hidden` for its type.\n");
}

fn open_clause(
    page: &mut Page,
    m: &Matter<'_>,
    clause: Clause,
    number: usize,
    position: usize,
    pattern: Span,
) {
    let spot = spot(m, clause.left);
    refuse(page, m, spot);
    page.say("clause ");
    page.number(number);
    page.say(" does not compute: recursion is on argument ");
    page.number(position.saturating_add(1));
    page.say(", and ");
    quote(page, m, pattern);
    let is_variable = is_name(m.s, bare(m.s, pattern).from);
    page.say(if is_variable {
        " is a variable there"
    } else {
        " is no constructor there"
    });
    if let Some(other) = usable_from(m, position.saturating_add(1)) {
        page.say(" (argument ");
        page.number(other.saturating_add(1));
        page.say(" would do, but the first one that gets smaller is taken)");
    }
    show(page, m, spot);
    advise_split(page, m, clause, pattern, position);
}

fn other_clause(page: &mut Page, m: &Matter<'_>, clause: Clause, number: usize) {
    let spot = spot(m, clause.left);
    refuse(page, m, spot);
    page.say("clause ");
    page.number(number);
    page.say(" does not hold by computation, and no proof of it was found");
    show(page, m, spot);
    page.advise(
        "write a constructor for each variable that recursion or another clause looks at, so that the function computes here.\n",
    );
}

/// Whether the declaration has an equation at another level than 0.
fn has_higher_equation(m: &Matter<'_>) -> bool {
    (m.decl.whole.from..m.decl.whole.to).any(|at| is_at_level(word(m.s, at), "Eq")
        && !is(m.s, at, "Eq.0"))
}

/// An entry that is no proof of a clause is rejected.
fn other_entry(page: &mut Page, m: &Matter<'_>) {
    let advice = if has_higher_equation(m) {
        "give each equation the level of its type, as in `Eq.0 Nat m n`; else match fewer arguments at once."
    } else {
        "match fewer arguments at once, or let functions of their own, declared before, do a part of it."
    };
    let message = "the checker rejects an entry that this function is made of";
    simple(page, m, spot_at(m.s, m.decl.name), message, advice);
}

pub fn rejected(page: &mut Page, m: &Matter<'_>) {
    let entry = core_word(m.line, 4);
    let clause = number_behind(entry, b'c').and_then(|it| find_clause(
        m.alloc,
        m.s,
        m.decl,
        name_before(entry),
        it,
    ));
    let Some(clause) = clause else {
        other_entry(page, m);
        return;
    };
    let number = number_behind(entry, b'c').unwrap_or(0);
    let position = usable_from(m, 0);
    let pattern = position.and_then(|it| patterns(m.alloc, m.s, clause)
        .as_slice()
        .get(it)
        .copied());
    match (position, pattern) {
        (Some(position), Some(pattern)) if is_open(m, pattern) => open_clause(
            page, m, clause, number, position, pattern,
        ),
        _ => other_clause(page, m, clause, number),
    }
}
