use crate::clauses::{Clause, find_clause, right_of};
use crate::core_line::{Shape, behind, core_word, head, says, shape_of};
use crate::families::{constructor, is_constructor};
use crate::labels::Label;
use crate::matter::{Matter, number, quote_term, refuse, show, simple, spot};
use crate::naming::{names_in_clause, names_in_walk};
use crate::page::Page;
use crate::places::{Spot, spot_at};
use crate::rendering::say_term;
use crate::source::{Source, Span, bare, closing, is, word};

/// The clause that the line names after its kind.
pub fn clause_of(m: &Matter<'_>) -> Option<Clause> {
    find_clause(m.alloc, m.s, m.decl, core_word(m.line, 4), number(m, 5))
}

/// The place of a clause, or of the declaration if it has no such clause.
pub fn spot_of_clause(m: &Matter<'_>, clause: Option<Clause>) -> Spot {
    clause.map_or(spot_at(m.s, m.decl.name), |it| spot(m, it.left))
}

fn names_of<'a>(m: &Matter<'a>, clause: Option<Clause>, at: usize) -> Vec<Label<'a>> {
    match clause {
        Some(clause) => names_in_walk(m.alloc, m.s, m.line, at, m.decl, clause),
        None => crate::naming::labels(
            m.alloc,
            m.s,
            m.line,
            crate::core_line::context_of(m.alloc, m.line, at).as_slice(),
            &[],
        ),
    }
}

/// Where a pattern begins with this token of a clause.
fn pattern_from(s: Source<'_>, clause: Clause, at: usize) -> Span {
    let from = if is(s, at.wrapping_sub(1), "(") {
        at.wrapping_sub(1)
    } else {
        at
    };
    let to = closing(s, Span::new(from, clause.left.to)).saturating_add(1);
    Span::new(from, to)
}

/// The first constructor in the patterns of which the family is not the one of this name.
fn foreign(m: &Matter<'_>, clause: Clause, family: &[u8]) -> Option<usize> {
    for at in clause.left.from.saturating_add(1)..clause.left.to {
        let name = word(m.s, at);
        let is_other = constructor(m.s, name).map_or(
            is_constructor(m.s, name),
            |it| word(m.s, it.family.name) != family,
        );
        if is_other && !is(m.s, at.wrapping_sub(1), ".") {
            return Some(at);
        }
    }
    None
}

fn say_constructors(page: &mut Page, s: Source<'_>, family: &[u8]) -> usize {
    let mut count: usize = 0;
    for con in s.cons.iter() {
        if word(s, con.family.name) == family {
            page.say(if count == 0 { "" } else { ", " });
            page.quote(word(s, con.name));
            count = count.saturating_add(1);
        }
    }
    count
}

pub fn wrong_constructor(page: &mut Page, m: &Matter<'_>) {
    let clause = clause_of(m);
    let ty = behind(m.line, 6);
    let mut names = names_of(m, clause, 6);
    let family = core_word(m.line, head(m.line, ty));
    let at = clause.and_then(|it| foreign(m, it, family));
    let spot = match (clause, at) {
        (Some(clause), Some(at)) => spot(m, pattern_from(m.s, clause, at)),
        _ => spot_of_clause(m, clause),
    };
    refuse(page, m, spot);
    page.quote(at.map_or(&b"this pattern"[..], |it| word(m.s, it)));
    page.say(" is no constructor of the type ");
    quote_term(page, m, ty, &mut names);
    page.say(" that the argument has");
    show(page, m, spot);
    if shape_of(m.line, head(m.line, ty)) == Shape::Variable {
        page.advise(
            "the argument can have any type there, so it can't be matched: write a variable.\n",
        );
        return;
    }
    page.advise("write a variable of another name, or a constructor of this type");
    page.say(if m
        .s
        .cons
        .iter()
        .any(|it| word(m.s, it.family.name) == family)
    {
        ": "
    } else {
        ""
    });
    let _ = say_constructors(page, m.s, family);
    page.say(".\n");
}

/// The two sides of an equation of the line, in quotes.
fn quote_sides<'a>(page: &mut Page, m: &Matter<'a>, left: usize, names: &mut Vec<Label<'a>>) {
    page.say("`");
    say_term(m.alloc, page, m.s, m.line, left, names);
    page.say(" = ");
    say_term(
        m.alloc,
        page,
        m.s,
        m.line,
        behind(m.line, left).saturating_add(1),
        names,
    );
    page.say("`");
}

fn advice_when_stuck(why: &[u8]) -> &'static str {
    match why {
        b"NeedsK" =>
            "this needs axiom K: start with `--k`, or take two variables for the two sides of the equation.",
        b"NotRigid" =>
            "a side is neither a variable nor a constructor: take a variable for that index, and an equation for what it is, as an argument.",
        b"OccursNotRigid" =>
            "the variable occurs below a function of the other side: take an equation as an argument, and use `subst` (examples/equality.elim).",
        b"Depends" =>
            "a type depends on what is solved: match the argument of that type first, or take an equation as an argument.",
        b"NeedsIndexEquations" =>
            "the indices of the two sides have to be equal first: match on the arguments that show them, or take two variables.",
        _ =>
            "match less far: take a variable for the index, and an equation for what it is, as an argument.",
    }
}

pub fn stuck(page: &mut Page, m: &Matter<'_>) {
    let clause = clause_of(m);
    let left = behind(m.line, 6);
    let why = behind(m.line, behind(m.line, left).saturating_add(1));
    let spot = spot_of_clause(m, clause);
    let mut names = names_of(m, clause, 6);
    refuse(page, m, spot);
    page.say("the patterns of this clause ask for ");
    quote_sides(page, m, left, &mut names);
    page.say(", which the rules of unification do not decide");
    show(page, m, spot);
    page.advise(advice_when_stuck(core_word(m.line, why)));
    page.say("\n");
}

pub fn impossible(page: &mut Page, m: &Matter<'_>) {
    let clause = clause_of(m);
    let spot = spot_of_clause(m, clause);
    let mut names = names_of(m, clause, 6);
    refuse(page, m, spot);
    page.say("no argument fits this clause, since ");
    quote_sides(page, m, behind(m.line, 6), &mut names);
    page.say(" can't hold");
    show(page, m, spot);
    page.advise(
        "leave the clause out, or correct the type or the constructors in its patterns; where no constructor fits, `()` says so.\n",
    );
}

pub fn not_absurd(page: &mut Page, m: &Matter<'_>) {
    let clause = clause_of(m);
    let at = clause.and_then(|it| absurd_in(m, it));
    let spot = match at {
        Some(at) => spot(m, Span::new(at, at.saturating_add(2))),
        None => spot_of_clause(m, clause),
    };
    let name = core_word(m.line, 6);
    refuse(page, m, spot);
    page.say("the constructor ");
    page.quote(name);
    page.say(" can be there, and `()` says that none can");
    show(page, m, spot);
    page.advise("write a clause with ");
    page.quote(name);
    page.say(" in the place of `()`, and a right side.\n");
}

/// The token `(` of the pattern `()`.
fn absurd_in(m: &Matter<'_>, clause: Clause) -> Option<usize> {
    (clause.left.from..clause.left.to).find(|at| is(m.s, *at, "(")
        && is(m.s, at.saturating_add(1), ")"))
}

/// The pattern that is not the term that is forced: the only dot pattern, or the first use of a constructor of this name.
fn forced_in(m: &Matter<'_>, clause: Clause, written: &[u8]) -> Span {
    let mut found = clause.left;
    let mut count: usize = 0;
    for at in clause.left.from.saturating_add(1)..clause.left.to {
        let is_dot = is(m.s, at, ".");
        let is_shown = word(m.s, at) == written && is_constructor(m.s, written);
        if is_dot || is_shown {
            count = count.saturating_add(1);
            let from = if is_dot { at.saturating_add(1) } else { at };
            let end = closing(m.s, Span::new(from, clause.left.to)).saturating_add(1);
            found = if is_dot {
                Span::new(at, end)
            } else {
                pattern_from(m.s, clause, at)
            };
        }
    }
    if count == 1 { found } else { clause.left }
}

/// The patterns of the clause that begin with a dot and are written as this term.
fn dot_like<'a>(
    m: &Matter<'a>,
    clause: Clause,
    at: usize,
    names: &mut Vec<Label<'a>>,
) -> Option<Span> {
    let mut text = Page::new(m.alloc, false);
    say_term(m.alloc, &mut text, m.s, m.line, at, names);
    for token in clause.left.from..clause.left.to {
        let from = token.saturating_add(1);
        let to = closing(m.s, Span::new(from, clause.left.to)).saturating_add(1);
        let term = bare(m.s, Span::new(from, to));
        if is(m.s, token, ".") && crate::source::written(m.s, term) == text.bytes() {
            return Some(Span::new(token, to));
        }
    }
    None
}

pub fn dot_mismatch(page: &mut Page, m: &Matter<'_>) {
    let Some(clause) = clause_of(m) else {
        simple(
            page,
            m,
            spot_at(m.s, m.decl.name),
            "a dot pattern is not the term that is forced there",
            "write `_` in its place.",
        );
        return;
    };
    let written = behind(m.line, 6);
    let forced = behind(m.line, written).saturating_add(1);
    let mut names = names_in_clause(m.alloc, m.s, m.line, 6, m.decl, clause);
    let span = dot_like(m, clause, written, &mut names).unwrap_or(forced_in(
        m,
        clause,
        core_word(m.line, written),
    ));
    refuse(page, m, spot(m, span));
    if says(m.line, written, "(") && says(m.line, written.saturating_add(1), ")") {
        page.say("`()`");
    } else {
        quote_term(page, m, written, &mut names);
    }
    page.say(" is written here, and ");
    quote_term(page, m, forced, &mut names);
    page.say(" is forced by the other patterns");
    show(page, m, spot(m, span));
    page.advise("write `.");
    let is_whole = shape_of(m.line, forced) == Shape::Application;
    page.say(if is_whole { "(" } else { "" });
    say_term(m.alloc, page, m.s, m.line, forced, &mut names);
    page.say(if is_whole {
        ")`, or `_`.\n"
    } else {
        "`, or `_`.\n"
    });
}

pub fn self_in_type(page: &mut Page, m: &Matter<'_>) {
    let clause = clause_of(m);
    let spot = match clause {
        Some(it) => spot(m, right_of(m.s, it)),
        None => spot_at(m.s, m.decl.name),
    };
    refuse(page, m, spot);
    page.say("the function occurs in the type of this value, or in the goal over it");
    show(page, m, spot);
    page.advise(
        "match on the value of a call, and not on a proof about one; or let a function that is declared before do it.\n",
    );
}
