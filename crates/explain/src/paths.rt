use crate::families::behind_binder;
use crate::source::{Source, Span, atoms, bare, closing, colon_of_binder, find, is, word};
use std::alloc::Global;

/// A part of a written term: its tokens, and how many variables of the binder with which it begins are behind.
#[derive(Clone, Copy)]
pub struct Spot {
    pub span: Span,
    pub skipped: usize,
}

/// A step from a term to a child: the child, and the name that is bound in it, if one is.
#[derive(Clone, Copy)]
struct Child<'a> {
    spot: Spot,
    bound: Option<&'a [u8]>,
}

/// The part of a term at a place: the part, the application of which it is the last argument, and the names that are bound around it.
#[derive(Drop)]
pub struct Found<'a> {
    pub span: Span,
    pub around: Option<Span>,
    pub names: Vec<&'a [u8]>,
}

fn whole(span: Span) -> Spot {
    Spot { span, skipped: 0 }
}

fn of_binder<'a>(s: Source<'a>, spot: Spot, colon: usize, digit: u8) -> Child<'a> {
    let span = spot.span;
    let first = span.from.saturating_add(1).saturating_add(spot.skipped);
    if digit == b'0' {
        let ty = Span::new(colon.saturating_add(1), closing(s, span));
        return Child {
            spot: whole(ty),
            bound: None,
        };
    }
    let bound = Some(word(s, first));
    if first.saturating_add(1) < colon {
        Child {
            spot: Spot {
                span,
                skipped: spot.skipped.saturating_add(1),
            },
            bound,
        }
    } else {
        Child {
            spot: whole(behind_binder(s, span)),
            bound,
        }
    }
}

fn of_arrow<'a>(span: Span, arrow: usize, digit: u8) -> Child<'a> {
    if digit == b'0' {
        Child {
            spot: whole(Span::new(span.from, arrow)),
            bound: None,
        }
    } else {
        Child {
            spot: whole(Span::new(arrow.saturating_add(1), span.to)),
            bound: Some(b""),
        }
    }
}

fn of_application<'a>(alloc: Global, s: Source<'a>, span: Span, digit: u8) -> Option<Child<'a>> {
    let parts = atoms(alloc, s, span);
    let last = parts.last().copied()?;
    if parts.len() < 2 {
        return None;
    }
    let part = if digit == b'0' {
        Span::new(span.from, last.from)
    } else {
        last
    };
    Some(Child {
        spot: whole(part),
        bound: None,
    })
}

fn of_let<'a>(s: Source<'a>, span: Span, digit: u8) -> Option<Child<'a>> {
    let colon = find(s, span, ":")?;
    let equals = find(s, span, "=")?;
    let inside = find(s, span, "in")?;
    let part = match digit {
        b'0' => Span {
            from: colon.saturating_add(1),
            to: equals,
        },
        b'1' => Span {
            from: equals.saturating_add(1),
            to: inside,
        },
        _ => Span {
            from: inside.saturating_add(1),
            to: span.to,
        },
    };
    Some(Child {
        spot: whole(part),
        bound: None,
    })
}

fn child_of<'a>(alloc: Global, s: Source<'a>, at: Spot, digit: u8) -> Option<Child<'a>> {
    let mut span = if at.skipped == 0 {
        bare(s, at.span)
    } else {
        at.span
    };
    if is(s, span.from, "\\") {
        span = Span::new(span.from.saturating_add(1), span.to);
    }
    if is(s, span.from, "let") {
        return of_let(s, span, digit);
    }
    if let Some(colon) = colon_of_binder(s, span) {
        return Some(of_binder(
            s,
            Spot {
                span,
                skipped: at.skipped,
            },
            colon,
            digit,
        ));
    }
    match find(s, span, "->") {
        Some(arrow) => Some(of_arrow(span, arrow, digit)),
        None => of_application(alloc, s, span, digit),
    }
}

/// Follows the child numbers of a place, as far as the written term has such children.
pub fn follow<'a>(alloc: Global, s: Source<'a>, term: Span, digits: &[u8]) -> Found<'a> {
    let mut spot = whole(term);
    let mut around = None;
    let mut names = Vec::new(alloc);
    for digit in digits.iter() {
        if digit.is_ascii_digit() {
            let Some(next) = child_of(alloc, s, spot, *digit) else {
                break;
            };
            let parts = atoms(alloc, s, bare(s, spot.span)).len();
            let is_argument = *digit == b'1' && next.bound.is_none() && parts > 1;
            around = if is_argument {
                Some(bare(s, spot.span))
            } else {
                None
            };
            if let Some(name) = next.bound {
                let _ = names.push(name);
            }
            spot = next.spot;
        }
    }
    Found {
        span: spot.span,
        around,
        names,
    }
}
