use crate::core_line::core_word;
use crate::families::{constructor, telescope_of};
use crate::family_refusals::argument;
use crate::matter::{Matter, number, refuse, show, simple, spot};
use crate::page::Page;
use crate::places::spot_at;
use crate::source::{Form, Span, closing, find, word};

/// Whether the declaration is one of several families that refer to each other.
pub fn is_mutual(m: &Matter<'_>) -> bool {
    m.decl.form == Form::Data && find(m.s, m.decl.whole, "with").is_some()
}

/// The name of the family of this number, counted from 1.
fn member(m: &Matter<'_>, number: usize) -> usize {
    let mut name = m.decl.name;
    let mut rest = m.decl.whole;
    for _ in 1..number {
        let Some(with) = find(m.s, rest, "with") else {
            return name;
        };
        name = with.saturating_add(1);
        rest = Span::new(name, rest.to);
    }
    name
}

/// The tokens of its type: between the colon and the brace behind its name.
fn type_of_member(m: &Matter<'_>, name: usize) -> Span {
    let behind = Span::new(name, m.decl.whole.to);
    let from = find(m.s, behind, ":").map_or(name, |at| at.saturating_add(1));
    Span::new(from, find(m.s, behind, "{").unwrap_or(from))
}

/// The tokens of the tags with the braces around them.
fn tags(m: &Matter<'_>) -> Span {
    let Some(from) = find(m.s, m.decl.whole, "in") else {
        return m.decl.whole;
    };
    let behind = Span::new(from, m.decl.whole.to);
    let Some(open) = find(m.s, behind, "{") else {
        return behind;
    };
    let close = closing(m.s, Span::new(open, m.decl.whole.to));
    Span::new(open, close.saturating_add(1))
}

pub fn tag_count(page: &mut Page, m: &Matter<'_>) {
    let spot = spot(m, tags(m));
    refuse(page, m, spot);
    page.say("there are ");
    page.number(number(m, 4));
    page.say(" families, and not as many tags");
    show(page, m, spot);
    page.advise("write one name for each family here, in the order of the families.\n");
}

pub fn member_level(page: &mut Page, m: &Matter<'_>) {
    let number = number(m, 4);
    let name = member(m, number);
    let spot = spot(m, type_of_member(m, name));
    refuse(page, m, spot);
    page.say("the type of ");
    page.quote(word(m.s, name));
    page.say(if number == 1 {
        " is no universe `Type l` with l at most 61"
    } else {
        " is not the universe of the first family"
    });
    show(page, m, spot);
    page.advise(
        "give all families that refer to each other the type `Type l` with one number l, which is at most 61; what would be an index can be a parameter of all of them.\n",
    );
}

pub fn not_positive(page: &mut Page, m: &Matter<'_>) {
    let advice =
        "such a family may only be what the argument of a constructor answers, as in `(A -> D) -> D`, and only at the parameters of the declaration, by their names and in their order.";
    let Some(con) = constructor(m.s, core_word(m.line, 4)) else {
        simple(
            page,
            m,
            spot_at(m.s, m.decl.name),
            "one of these families is not positive",
            advice,
        );
        return;
    };
    let number = number(m, 5);
    let span = if number == 0 {
        telescope_of(m.alloc, m.s, con.ty).rest
    } else {
        argument(m, con, number)
    };
    refuse(page, m, spot(m, span));
    page.say("one of these families stands where it may not in ");
    if number == 0 {
        page.say("the result of ");
    } else {
        page.say("argument ");
        page.number(number);
        page.say(" of ");
    }
    page.quote(word(m.s, con.name));
    show(page, m, spot(m, span));
    page.advise(advice);
    page.say("\n");
}

pub fn unequal(page: &mut Page, m: &Matter<'_>) {
    let at = constructor(m.s, core_word(m.line, 5)).map_or(m.decl.name, |con| con.name);
    let spot = spot_at(m.s, at);
    refuse(page, m, spot);
    page.say("the induction of ");
    page.quote(core_word(m.line, 4));
    page.say(" does not compute at ");
    page.quote(core_word(m.line, 5));
    show(page, m, spot);
    page.advise("docs/REPORT.md says what the line means.\n");
}
