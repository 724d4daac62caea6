use crate::clauses::{Clause, find_clause, right_of};
use crate::core_line::{
    Line, Shape, behind, context_of, core_word, head, is_sort_of, parts_of, same_term, says,
    shape_of,
};
use crate::families::{
    body_of, constructor, count_args, count_params, is_at_level, is_constructor, parameters,
    type_of,
};
use crate::labels::Label;
use crate::matter::{Matter, number, quote_term, refuse, show, spot};
use crate::naming::{Leaf, labels, leaves};
use crate::page::Page;
use crate::paths::{Found, follow};
use crate::rendering::say_term;
use crate::source::{Source, Span, atoms, bare, closing, is, word, written};
use core_terms::TOP;

/// The greatest level of a function.
const GREATEST_LEVEL: u8 = TOP - 3;

/// Where the checker rejects something: the written part, its clause, and the word of the line with the place in the part.
#[derive(Clone, Copy)]
struct Part {
    span: Span,
    clause: Option<Clause>,
    place: usize,
}

/// The dot pattern of a clause, if there is only one, and else all patterns.
fn dot_of(m: &Matter<'_>, clause: Clause) -> Span {
    let mut found = clause.left;
    let mut count: usize = 0;
    for at in clause.left.from..clause.left.to {
        if is(m.s, at, ".") {
            count = count.saturating_add(1);
            let from = at.saturating_add(1);
            let to = closing(m.s, Span::new(from, clause.left.to)).saturating_add(1);
            found = Span::new(from, to);
        }
    }
    if count == 1 { found } else { clause.left }
}

fn part_of_clause(m: &Matter<'_>) -> Part {
    let nowhere = Span::new(m.decl.name, m.decl.name.saturating_add(1));
    let Some(clause) = find_clause(m.alloc, m.s, m.decl, core_word(m.line, 5), number(m, 6)) else {
        return Part {
            span: nowhere,
            clause: None,
            place: 7,
        };
    };
    let span = if says(m.line, 4, "dot") {
        dot_of(m, clause)
    } else {
        right_of(m.s, clause)
    };
    Part {
        span,
        clause: Some(clause),
        place: 7,
    }
}

fn part_of(m: &Matter<'_>) -> Part {
    let name = core_word(m.line, 5);
    if says(m.line, 4, "type") {
        Part {
            span: type_of(m.s, m.decl),
            clause: None,
            place: 5,
        }
    } else if says(m.line, 4, "body") {
        Part {
            span: body_of(m.s, m.decl),
            clause: None,
            place: 5,
        }
    } else if says(m.line, 4, "param") {
        let params = parameters(m.alloc, m.s, m.decl);
        let span = params
            .as_slice()
            .get(number(m, 5).wrapping_sub(1))
            .map_or(type_of(m.s, m.decl), |it| it.ty);
        Part {
            span,
            clause: None,
            place: 6,
        }
    } else if says(m.line, 4, "con") {
        let span = constructor(m.s, name).map_or(type_of(m.s, m.decl), |it| it.ty);
        Part {
            span,
            clause: None,
            place: 6,
        }
    } else {
        part_of_clause(m)
    }
}

/// The names of the context: those of the parameters or of the clause, and then those that are bound on the way to the place.
fn names_at<'a>(m: &Matter<'a>, part: Part, found: &Found<'a>) -> Vec<Label<'a>> {
    let types = context_of(m.alloc, m.line, part.place.saturating_add(1));
    let mut all = match part.clause {
        Some(clause) => leaves(m.alloc, m.s, m.decl, clause, usize::MAX),
        None => of_parameters(m),
    };
    for name in found.names.iter() {
        let _ = all.push(Leaf { name, head: b"" });
    }
    labels(m.alloc, m.s, m.line, types.as_slice(), all.as_slice())
}

fn of_parameters<'a>(m: &Matter<'a>) -> Vec<Leaf<'a>> {
    let mut all = Vec::new(m.alloc);
    for it in parameters(m.alloc, m.s, m.decl).iter() {
        let name = it.name.map_or(&b""[..], |name| word(m.s, name));
        let _ = all.push(Leaf { name, head: b"" });
    }
    all
}

pub fn ill_typed(page: &mut Page, m: &Matter<'_>) {
    let part = part_of(m);
    let found = follow(m.alloc, m.s, part.span, core_word(m.line, part.place));
    let mut names = names_at(m, part, &found);
    let reason = behind(m.line, part.place.saturating_add(1));
    let whole = if found.span.from < found.span.to {
        found.span
    } else {
        part.span
    };
    let span = if says(m.line, reason, "NotAProduct") {
        function_in(m, whole)
    } else {
        whole
    };
    refuse(page, m, spot(m, span));
    say_reason(page, m, span, reason, &mut names);
    show(page, m, spot(m, span));
    advise(page, m, &found, reason, &mut names);
    page.say("\n");
}

/// An application without its last argument.
fn function_in(m: &Matter<'_>, span: Span) -> Span {
    let inner = bare(m.s, span);
    let parts = atoms(m.alloc, m.s, inner);
    match parts.last() {
        Some(last) if parts.len() > 1 => Span {
            from: inner.from,
            to: last.from,
        },
        _ => span,
    }
}

fn say_subject(page: &mut Page, m: &Matter<'_>, span: Span) {
    if says(m.line, 4, "goal") {
        page.say("the goal over the value of this `with`");
    } else {
        let text = written(m.s, span);
        if text.len() > 60 {
            page.say("this term");
        } else {
            page.quote(text);
        }
    }
}

fn say_reason<'a>(
    page: &mut Page,
    m: &Matter<'a>,
    span: Span,
    reason: usize,
    names: &mut Vec<Label<'a>>,
) {
    let ty = reason.saturating_add(1);
    if says(m.line, reason, "LevelTooHigh") {
        page.say("the level of ");
        say_subject(page, m, span);
        page.say(" is too high");
        return;
    }
    say_subject(page, m, span);
    if says(m.line, reason, "NotAProduct") {
        page.say(" is no function, and is given an argument: it has the type ");
        quote_term(page, m, ty, names);
    } else if says(m.line, reason, "NotASort") {
        page.say(" is no type: it has the type ");
        quote_term(page, m, ty, names);
    } else {
        let wanted = behind(m.line, ty).saturating_add(1);
        page.say(" has the type ");
        quote_term(page, m, ty, names);
        page.say(", and ");
        quote_term(page, m, wanted, names);
        page.say(" is wanted");
    }
}

fn advise<'a>(
    page: &mut Page,
    m: &Matter<'a>,
    found: &Found<'a>,
    reason: usize,
    names: &mut Vec<Label<'a>>,
) {
    if says(m.line, reason, "LevelTooHigh") || is_too_high_for_function(m, reason) {
        advise_levels(page);
    } else if says(m.line, 4, "goal") {
        page.advise(
            "what depends on the value keeps its old type: let a function of its own take the value and all that depends on it.",
        );
    } else if says(m.line, reason, "NotAProduct") {
        page.advise(
            "count the arguments: leave out what is too much, or put a part with its arguments into parentheses.",
        );
    } else if says(m.line, reason, "NotASort") {
        page.advise(
            "a type is wanted here: write a family with all its arguments, a sort, or a product.",
        );
    } else if says(m.line, reason, "found") {
        let ty = reason.saturating_add(1);
        let wanted = behind(m.line, ty).saturating_add(1);
        advise_types(page, m, found, ty, wanted, names);
    } else {
        page.advise("write a term of the type that is wanted.");
    }
}

fn advise_levels(page: &mut Page) {
    page.advise("there is no level above ");
    page.number(usize::from(TOP));
    page.say(", and a function is at most in `Type ");
    page.number(usize::from(GREATEST_LEVEL));
    page.say("`: take lower levels.");
}

/// Whether the type of a function, or the goal of a helper, is in too high a sort.
fn is_too_high_for_function(m: &Matter<'_>, reason: usize) -> bool {
    let ty = reason.saturating_add(1);
    let wanted = behind(m.line, ty).saturating_add(1);
    let is_whole = says(m.line, 4, "type") || says(m.line, 4, "goal");
    is_whole && is_sort(m.line, ty) && is_sort_of(m.line, wanted, GREATEST_LEVEL)
}

fn is_product(line: Line<'_>, at: usize) -> bool {
    shape_of(line, at) == Shape::Product
}

fn is_sort(line: Line<'_>, at: usize) -> bool {
    shape_of(line, at) == Shape::Sort
}

/// The constructor with which a term begins, and how many arguments it has there.
fn constructor_in<'a>(m: &Matter<'a>, span: Span) -> Option<(&'a [u8], usize)> {
    let parts = atoms(m.alloc, m.s, bare(m.s, span));
    let first = parts.first().copied()?;
    let name = word(m.s, first.from);
    let is_alone = first.from.saturating_add(1) == first.to;
    if is_alone && is_constructor(m.s, name) {
        Some((name, parts.len().saturating_sub(1)))
    } else {
        None
    }
}

/// The arguments of a constructor as they are written, after this one.
fn say_arguments(page: &mut Page, s: Source<'_>, parts: &[Span], from: usize) {
    for part in parts.iter().skip(from) {
        page.say(" ");
        page.show(written(s, *part));
    }
}

/// The term with the parameters that the wanted type shows.
fn say_with_parameters<'a>(
    page: &mut Page,
    m: &Matter<'a>,
    span: Span,
    wanted: usize,
    names: &mut Vec<Label<'a>>,
) {
    let parts = atoms(m.alloc, m.s, bare(m.s, span));
    let name = word(m.s, bare(m.s, span).from);
    let shown = parts_of(m.alloc, m.line, wanted);
    let params = count_params(m.alloc, m.s, name);
    page.say("`");
    page.show(name);
    for at in 1..params.saturating_add(1) {
        page.say(" ");
        match shown.as_slice().get(at) {
            Some(part) if shape_of(m.line, *part) != Shape::Application => say_term(
                m.alloc, page, m.s, m.line, *part, names,
            ),
            Some(part) => {
                page.say("(");
                say_term(m.alloc, page, m.s, m.line, *part, names);
                page.say(")");
            }
            None => page.say("_"),
        }
    }
    say_arguments(page, m.s, parts.as_slice(), 1);
    page.say("`.");
}

/// Advice for a constructor without its parameters. The wanted type has to be that of its family.
fn of_bare_constructor<'a>(
    page: &mut Page,
    m: &Matter<'a>,
    span: Span,
    ty: usize,
    wanted: usize,
    names: &mut Vec<Label<'a>>,
) -> bool {
    let Some((name, given)) = constructor_in(m, span) else {
        return false;
    };
    let params = count_params(m.alloc, m.s, name);
    let args = count_args(m.alloc, m.s, name);
    if params == 0 || given > args || !is_product(m.line, ty) || is_product(m.line, wanted) {
        return false;
    }
    page.advise("");
    page.quote(name);
    page.say(if params == 1 {
        " lacks its parameter: write "
    } else {
        " lacks its parameters: write "
    });
    say_with_parameters(page, m, span, wanted, names);
    true
}

/// Advice for an argument of a constructor that stands where a parameter is due.
fn of_parameter(page: &mut Page, m: &Matter<'_>, around: Option<Span>, ty: usize) -> bool {
    let Some(around) = around else {
        return false;
    };
    let Some((name, given)) = constructor_in(m, around) else {
        return false;
    };
    let params = count_params(m.alloc, m.s, name);
    if given > params || is_sort(m.line, ty) {
        return false;
    }
    page.advise("in a term ");
    page.quote(name);
    page.say(if params == 1 {
        " takes its parameter first"
    } else {
        " takes its parameters first"
    });
    page.say(", before its arguments: ");
    say_parameters(page, m, name);
    true
}

/// The parameters of a constructor by their declared names.
fn say_parameters(page: &mut Page, m: &Matter<'_>, name: &[u8]) {
    page.say("`");
    page.show(name);
    match constructor(m.s, name) {
        Some(con) => {
            for it in parameters(m.alloc, m.s, con.family).iter() {
                page.say(" ");
                page.show(it.name.map_or(&b"_"[..], |name| word(m.s, name)));
            }
        }
        None if name.starts_with(b"refl") => page.say(" A x"),
        None => page.say(" A B"),
    }
    page.say(if count_args(m.alloc, m.s, name) > 0 {
        " ..`."
    } else {
        "`."
    });
}

fn advise_types<'a>(
    page: &mut Page,
    m: &Matter<'a>,
    found: &Found<'a>,
    ty: usize,
    wanted: usize,
    names: &mut Vec<Label<'a>>,
) {
    if of_bare_constructor(page, m, found.span, ty, wanted, names)
        || of_parameter(page, m, found.around, ty)
    {
        return;
    }
    let same_head = core_word(m.line, head(m.line, ty)) == core_word(m.line, head(m.line, wanted));
    if is_sort(m.line, ty) && is_sort(m.line, wanted) {
        page.advise(
            "write a higher level where the sort is written that is wanted, or a lower one here.",
        );
    } else if is_sort(m.line, ty) {
        page.advise("this is a type, and a term of the type that is wanted is due.");
    } else if is_sort(m.line, wanted) {
        page.advise("this is a term, and a type is due.");
    } else if is_product(m.line, ty) && !is_product(m.line, wanted) {
        page.advise("this is a function: give it all its arguments.");
    } else if is_product(m.line, ty) || is_product(m.line, wanted) {
        page.advise(
            "write a function `\\(x : A) -> ..` of the type that is wanted; f and `\\(x : A) -> f x` do not convert.",
        );
    } else if same_head && shape_of(m.line, ty) == Shape::Application {
        say_difference(page, m, ty, wanted, names);
    } else {
        page.advise("write a term of the type ");
        quote_term(page, m, wanted, names);
        page.say(" here, or change the type that asks for it.");
    }
}

/// Whether the two types are equations with each other's sides.
fn are_exchanged(m: &Matter<'_>, left: &[usize], right: &[usize]) -> bool {
    let [name, _, a, b] = left else {
        return false;
    };
    let [_, _, c, d] = right else {
        return false;
    };
    is_at_level(core_word(m.line, *name), "Eq")
        && same_term(m.line, *a, *d)
        && same_term(m.line, *b, *c)
}

/// Advice for two types of one family: the first argument in which they differ.
fn say_difference<'a>(
    page: &mut Page,
    m: &Matter<'a>,
    ty: usize,
    wanted: usize,
    names: &mut Vec<Label<'a>>,
) {
    let left = parts_of(m.alloc, m.line, ty);
    let right = parts_of(m.alloc, m.line, wanted);
    if are_exchanged(m, left.as_slice(), right.as_slice()) {
        page.advise(
            "the two sides are exchanged: use symmetry, as `sym` in examples/equality.elim.",
        );
        return;
    }
    for (l, r) in left.iter().zip(right.iter()) {
        if !same_term(m.line, *l, *r) {
            page.advise("");
            quote_term(page, m, *l, names);
            page.say(" and ");
            quote_term(page, m, *r, names);
            page.say(
                " do not convert: match so far that they do, or use an equation and `subst` (examples/equality.elim).",
            );
            return;
        }
    }
    page.advise("write a term of the type that is wanted.");
}
