use crate::core_line::{Line, core_word, number_of};
use crate::labels::Label;
use crate::page::{Page, Style};
use crate::places::{Place, Spot, begin, picture, spot_at, spot_of};
use crate::rendering::say_term;
use crate::source::{Declared, Form, Source, Span, written};
use std::alloc::Global;

/// A line of the output that is explained: the source file, what the reader calls it, the line, and the declaration that it is about.
#[derive(Clone, Copy)]
pub struct Matter<'a> {
    pub alloc: Global,
    pub s: Source<'a>,
    pub file: &'a [u8],
    pub line: Line<'a>,
    pub decl: Declared,
}

/// A declaration that is nowhere.
pub const NOWHERE: Declared = Declared {
    form: Form::Def,
    name: usize::MAX,
    whole: Span {
        from: usize::MAX,
        to: usize::MAX,
    },
};

pub fn place<'a>(m: &Matter<'a>, spot: Spot) -> Place<'a> {
    Place {
        file: m.file,
        bytes: m.s.bytes,
        spot,
    }
}

/// Begins a refusal at these bytes. The message is the rest of the line.
pub fn refuse(page: &mut Page, m: &Matter<'_>, spot: Spot) {
    begin(page, place(m, spot), Style::Refused);
}

/// Ends the message, and shows the place.
pub fn show(page: &mut Page, m: &Matter<'_>, spot: Spot) {
    page.say("\n");
    picture(page, place(m, spot));
}

/// A whole refusal with a fixed message and fixed advice.
pub fn simple(page: &mut Page, m: &Matter<'_>, spot: Spot, message: &str, advice: &str) {
    refuse(page, m, spot);
    page.say(message);
    show(page, m, spot);
    page.advise(advice);
    page.say("\n");
}

/// The number that is this word of the line.
pub fn number(m: &Matter<'_>, at: usize) -> usize {
    number_of(core_word(m.line, at))
}

/// The spot of these tokens, or of the name of the declaration if there are none.
pub fn spot(m: &Matter<'_>, span: Span) -> Spot {
    if span.from < span.to {
        spot_of(m.s, span)
    } else {
        spot_at(m.s, m.decl.name)
    }
}

/// A term of the line in quotes, with these names.
pub fn quote_term<'a>(page: &mut Page, m: &Matter<'a>, at: usize, names: &mut Vec<Label<'a>>) {
    page.say("`");
    say_term(m.alloc, page, m.s, m.line, at, names);
    page.say("`");
}

/// The text of the tokens, in quotes.
pub fn quote(page: &mut Page, m: &Matter<'_>, span: Span) {
    page.quote(written(m.s, span));
}
