use crate::core_line::{Line, Shape, behind, core_word, index_of, mate, says, shape_of};
use crate::labels::{Label, NONE, fresh};
use crate::page::Page;
use crate::source::Source;
use std::alloc::Global;

/// A term in parentheses that is being written: where it ends, where its variable is bound, and what has to be written there.
#[derive(Clone, Copy)]
struct Group<'a> {
    close: usize,
    middle: usize,
    shape: Shape,
    label: Label<'a>,
    is_dependent: bool,
    has_parentheses: bool,
    names: usize,
}

/// The most words of a term that are written.
const MOST: usize = 90;

/// The word before the scope of the group's variable: an arrow, or a dot.
fn middle_of(line: Line<'_>, at: usize) -> usize {
    match shape_of(line, at) {
        Shape::Product => behind(line, at.saturating_add(1)),
        Shape::Function => behind(line, at.saturating_add(2)),
        Shape::Let => {
            let ty = at.saturating_add(2);
            let value = behind(line, ty).saturating_add(1);
            behind(line, value)
        }
        _ => at,
    }
}

/// How many more variables are bound at a word than at the first one.
fn step(line: Line<'_>, at: usize, ends: &mut Vec<(usize, usize)>, bound: usize) -> usize {
    if says(line, at, "(") {
        let _ = ends.push((middle_of(line, at), mate(line, at)));
    }
    let Some((middle, close)) = ends.last().copied() else {
        return bound;
    };
    if at == middle && middle > 0 && !says(line, at, "(") {
        return bound.saturating_add(1);
    }
    if at == close {
        let _ = ends.pop();
        return if says(line, middle, "(") {
            bound
        } else {
            bound.saturating_sub(1)
        };
    }
    bound
}

/// Whether the term that begins at the word has the variable of the nearest binder around it.
pub fn mentions_nearest(alloc: Global, line: Line<'_>, from: usize) -> bool {
    let mut ends = Vec::new(alloc);
    let mut bound = 0;
    for at in from..behind(line, from) {
        if shape_of(line, at) == Shape::Variable && index_of(line, at) == bound {
            return true;
        }
        bound = step(line, at, &mut ends, bound);
    }
    false
}

/// Whether a term in parentheses that begins here is read as a whole without them.
fn needs_parentheses(line: Line<'_>, at: usize, first: usize, around: Option<Group<'_>>) -> bool {
    let Some(around) = around else {
        return at != first;
    };
    match around.shape {
        Shape::Application => true,
        Shape::Product if at < around.middle => !around.is_dependent
            && shape_of(line, at) != Shape::Application,
        _ => false,
    }
}

fn group_from<'a>(
    alloc: Global,
    s: Source<'a>,
    line: Line<'a>,
    at: usize,
    first: usize,
    around: Option<Group<'a>>,
    names: &[Label<'a>],
) -> Group<'a> {
    let shape = shape_of(line, at);
    let middle = middle_of(line, at);
    let ty = if shape == Shape::Product {
        at.saturating_add(1)
    } else {
        at.saturating_add(2)
    };
    let is_product = shape == Shape::Product;
    let is_dependent = shape != Shape::Application
        && (!is_product || mentions_nearest(alloc, line, middle.saturating_add(1)));
    Group {
        close: mate(line, at),
        middle,
        shape,
        label: if is_dependent {
            fresh(s, line, ty, names)
        } else {
            NONE
        },
        is_dependent,
        has_parentheses: needs_parentheses(line, at, first, around),
        names: names.len(),
    }
}

pub fn say_label(page: &mut Page, label: Label<'_>) {
    if label.base.is_empty() {
        page.say("_");
    }
    page.show(label.base);
    if label.number > 0 {
        page.number(label.number);
    }
}

fn open(page: &mut Page, group: Group<'_>) {
    if group.has_parentheses {
        page.say("(");
    }
    match group.shape {
        Shape::Function => page.say("\\("),
        Shape::Product if group.is_dependent => page.say("("),
        Shape::Let => page.say("let "),
        _ => {}
    }
    if group.is_dependent {
        say_label(page, group.label);
        page.say(" : ");
    }
}

fn at_middle(page: &mut Page, group: Group<'_>) {
    match group.shape {
        Shape::Let => page.say(" in "),
        _ if group.is_dependent => page.say(") -> "),
        _ => page.say(" -> "),
    }
}

fn say_word(page: &mut Page, line: Line<'_>, at: usize, names: &[Label<'_>]) {
    if shape_of(line, at) != Shape::Variable {
        page.show(core_word(line, at));
        return;
    }
    let place = names.len().wrapping_sub(index_of(line, at)).wrapping_sub(1);
    match names.get(place) {
        Some(label) => say_label(page, *label),
        None => page.show(core_word(line, at)),
    }
}

/// A blank between the parts of an application.
fn say_blank(page: &mut Page, line: Line<'_>, at: usize, around: Option<Group<'_>>) {
    let before = at.saturating_sub(1);
    if around.is_some_and(|it| it.shape == Shape::Application) && !says(line, before, "(") {
        page.say(" ");
    }
    if around.is_some_and(|it| it.shape == Shape::Application)
        && says(line, before, "(")
        && mate(line, before) == before
    {
        page.say(" ");
    }
}

/// Writes the core term that begins at this word in the language of source files, with these names for its free variables.
pub fn say_term<'a>(
    alloc: Global,
    page: &mut Page,
    s: Source<'a>,
    line: Line<'a>,
    first: usize,
    names: &mut Vec<Label<'a>>,
) {
    let free = names.len();
    let mut groups: Vec<Group<'a>> = Vec::new(alloc);
    for at in first..behind(line, first).min(first.saturating_add(MOST)) {
        let around = groups.last().copied();
        say_at(page, line, at, around, names);
        if says(line, at, "(") {
            let group = group_from(alloc, s, line, at, first, around, names.as_slice());
            open(page, group);
            let _ = groups.push(group);
        }
        if let Some(it) = around {
            if at == it.close {
                names.truncate(it.names);
                let _ = groups.pop();
            }
        }
    }
    names.truncate(free);
    if behind(line, first) > first.saturating_add(MOST) {
        page.say(" ..");
    }
}

fn say_at<'a>(
    page: &mut Page,
    line: Line<'a>,
    at: usize,
    around: Option<Group<'a>>,
    names: &mut Vec<Label<'a>>,
) {
    let Some(it) = around else {
        if !says(line, at, "(") {
            say_word(page, line, at, names.as_slice());
        }
        return;
    };
    if at == it.close {
        if it.has_parentheses {
            page.say(")");
        }
    } else if at == it.middle {
        at_middle(page, it);
        let _ = names.push(it.label);
    } else if says(line, at, "(") {
        say_blank(page, line, at, around);
    } else if it.shape == Shape::Let && says(line, at, "=") {
        page.say(" = ");
    } else if !says(line, at, "\\") && !says(line, at, "let") {
        say_blank(page, line, at, around);
        say_word(page, line, at, names.as_slice());
    }
}
