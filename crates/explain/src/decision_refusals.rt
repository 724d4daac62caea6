use crate::core_line::core_word;
use crate::families::constructor;
use crate::family_refusals::argument;
use crate::matter::{Matter, number, refuse, show, spot};
use crate::page::Page;
use crate::places::{Spot, spot_at};
use crate::source::Span;

/// The place of the family whose equality is asked for: after the declared name, `=` and `data`.
fn family(m: &Matter<'_>) -> usize {
    m.decl.name.saturating_add(3)
}

/// A refusal at a word of the declaration, which the line names.
fn of_word(page: &mut Page, m: &Matter<'_>, at: usize, message: &str, advice: &str) {
    let spot = spot_at(m.s, at);
    refuse(page, m, spot);
    page.quote(core_word(m.line, 4));
    page.say(message);
    show(page, m, spot);
    page.advise(advice);
}

pub fn not_plain_family(page: &mut Page, m: &Matter<'_>) {
    of_word(
        page,
        m,
        family(m),
        " is no family whose equality can be decided",
        "such a family has no index, and each of its parameters is a type of the family's own level; for others write a function (examples/decidable.elim).\n",
    );
}

pub fn not_decision(page: &mut Page, m: &Matter<'_>) {
    of_word(
        page,
        m,
        family(m).saturating_add(1),
        " does not say of a type that it holds or not",
        "declare one at the level of the family, as `data Dec (A : Type 0) : Type 0 { yes : A -> Dec A ; no : (A -> Empty) -> Dec A }`.\n",
    );
}

/// The type of the argument, or the family where it is not in the file.
fn of_argument(m: &Matter<'_>, number: usize) -> Spot {
    match constructor(m.s, core_word(m.line, 4)) {
        Some(con) => spot(m, argument(m, con, number)),
        None => spot(m, Span::new(family(m), family(m).saturating_add(1))),
    }
}

pub fn not_first_order(page: &mut Page, m: &Matter<'_>) {
    let number = number(m, 5);
    let spot = of_argument(m, number);
    refuse(page, m, spot);
    page.say("the equality of argument ");
    page.number(number);
    page.say(" of ");
    page.quote(core_word(m.line, 4));
    page.say(" is not decided");
    show(page, m, spot);
    page.advise(
        "its type has to be the family itself, one of its parameters, or a family without parameters whose equality was decided before, as by `def equal = data Nat Dec`.\n",
    );
}
