use crate::characters::{char_len, count_characters};
use crate::page::{Page, Style};
use crate::source::{Source, Span, end_of, part, start_of};

/// The bytes that a message is about.
#[derive(Clone, Copy)]
pub struct Spot {
    pub from: usize,
    pub to: usize,
}

/// A line of the source file: its number, and its bytes without the line feed.
#[derive(Clone, Copy)]
struct Row {
    number: usize,
    from: usize,
    to: usize,
}

/// The place of a message: the file as the reader calls it, its bytes, and those that are meant.
#[derive(Clone, Copy)]
pub struct Place<'a> {
    pub file: &'a [u8],
    pub bytes: &'a [u8],
    pub spot: Spot,
}

/// How many characters of a line are shown before those that are meant, and how many at most.
const BEFORE: usize = 60;

const MOST: usize = 160;

pub fn spot_of(s: Source<'_>, span: Span) -> Spot {
    let from = start_of(s, span.from);
    let to = if span.from < span.to {
        end_of(s, span.to.saturating_sub(1))
    } else {
        from
    };
    Spot { from, to }
}

pub fn spot_at(s: Source<'_>, token: usize) -> Spot {
    Spot {
        from: start_of(s, token),
        to: end_of(s, token),
    }
}

/// The end of a line without the carriage return before its line feed.
fn end_of_row(bytes: &[u8], from: usize, to: usize) -> usize {
    if part(bytes, from, to).last().copied() == Some(b'\r') {
        to.saturating_sub(1)
    } else {
        to
    }
}

fn row_of(bytes: &[u8], offset: usize) -> Row {
    let mut row = Row {
        number: 1,
        from: 0,
        to: bytes.len(),
    };
    for (at, byte) in bytes.iter().enumerate() {
        if *byte == b'\n' && at < offset {
            row = Row {
                number: row.number.saturating_add(1),
                from: at.saturating_add(1),
                to: bytes.len(),
            };
        } else if *byte == b'\n' {
            return Row {
                to: end_of_row(bytes, row.from, at),
                ..row
            };
        }
    }
    row
}

/// The number of the line at this offset.
pub fn line_number(bytes: &[u8], offset: usize) -> usize {
    row_of(bytes, offset).number
}

fn say_position(page: &mut Page, place: Place<'_>) {
    let row = row_of(place.bytes, place.spot.from);
    let column = count_characters(part(place.bytes, row.from, place.spot.from)).saturating_add(1);
    page.show(place.file);
    page.say(":");
    page.number(row.number);
    page.say(":");
    page.number(column);
    page.say(": ");
}

/// Begins a message about a place.
pub fn begin(page: &mut Page, place: Place<'_>, style: Style) {
    say_position(page, place);
    page.begin(style);
    page.say(if style == Style::Warned {
        "warning: "
    } else {
        "refused: "
    });
    page.end();
}

/// Writes the line of the place, and carets below what is meant.
pub fn picture(page: &mut Page, place: Place<'_>) {
    let row = row_of(place.bytes, place.spot.from);
    let column = count_characters(part(place.bytes, row.from, place.spot.from));
    let all = count_characters(part(place.bytes, row.from, row.to));
    let first = if all > MOST {
        column.saturating_sub(BEFORE)
    } else {
        0
    };
    page.say("    ");
    characters(page, place, row, first, false);
    page.say("\n    ");
    page.begin(Style::Marked);
    characters(page, place, row, first, true);
    if place.spot.from >= row.to {
        page.say("^");
    }
    page.end();
    page.say("\n");
}

/// Writes the characters of a line from this one on, or what stands below each.
fn characters(page: &mut Page, place: Place<'_>, row: Row, first: usize, is_below: bool) {
    let mut next = row.from;
    let mut number: usize = 0;
    for at in row.from..row.to {
        if at == next {
            next = at.saturating_add(char_len(place.bytes, at));
            if number >= first && number < first.saturating_add(MOST) {
                character(page, place, at, is_below);
            }
            number = number.saturating_add(1);
        }
    }
}

fn character(page: &mut Page, place: Place<'_>, at: usize, is_below: bool) {
    let is_tab = place.bytes.get(at).copied() == Some(b'\t');
    let is_meant = place.spot.from <= at && (at < place.spot.to || at == place.spot.from);
    if is_below && is_meant {
        page.say("^");
    } else if is_tab {
        page.say("\t");
    } else if is_below {
        if at < place.spot.from {
            page.say(" ");
        }
    } else {
        page.character(place.bytes, at);
    }
}
