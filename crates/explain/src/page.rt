use crate::characters::{char_len, is_printable};
use std::alloc::Global;

/// How a part of the text is set off on a terminal.
#[derive(Clone, Copy, PartialEq, Eq)]
pub enum Style {
    Refused,
    Warned,
    Marked,
    Advice,
}

/// The text that is to be printed. If memory runs out, what no longer fits is left out.
#[derive(Drop)]
pub struct Page {
    text: Vec<u8>,
    has_colours: bool,
}

const UNITS: [usize; 10] = [
    1_000_000_000,
    100_000_000,
    10_000_000,
    1_000_000,
    100_000,
    10_000,
    1_000,
    100,
    10,
    1,
];

impl Page {
    pub fn new(alloc: Global, has_colours: bool) -> Page {
        Page {
            text: Vec::new(alloc),
            has_colours,
        }
    }

    pub fn put(&mut self, bytes: &[u8]) {
        let _ = self.text.extend_from_slice(bytes);
    }

    pub fn say(&mut self, text: &str) {
        self.put(text.as_bytes());
    }

    /// A number in decimal, without its digits from the eleventh on.
    pub fn number(&mut self, number: usize) {
        let mut begun = false;
        for unit in UNITS.iter() {
            let digit = number.checked_div(*unit).unwrap_or(0) % 10;
            begun = begun || digit > 0 || *unit == 1;
            if begun {
                self.put(&[b'0' + digit as u8]);
            }
        }
    }

    /// The character at this place of the bytes, or a sign in its place if a terminal would not print it.
    pub fn character(&mut self, bytes: &[u8], at: usize) {
        let len = char_len(bytes, at);
        if is_printable(bytes, at) {
            self.put(crate::source::part(bytes, at, at.saturating_add(len)));
        } else {
            self.say("\u{fffd}");
        }
    }

    /// Bytes of a source file, in which a blank of any kind is a space.
    pub fn show(&mut self, bytes: &[u8]) {
        let mut next = 0;
        for at in 0..bytes.len() {
            if at == next {
                next = at.saturating_add(char_len(bytes, at));
                self.shown(bytes, at);
            }
        }
    }

    fn shown(&mut self, bytes: &[u8], at: usize) {
        let byte = bytes.get(at).copied().unwrap_or(0);
        let before = bytes.get(at.wrapping_sub(1)).copied().unwrap_or(0);
        if !crate::characters::is_blank(byte) {
            self.character(bytes, at);
        } else if !crate::characters::is_blank(before) {
            self.say(" ");
        }
    }

    pub fn quote(&mut self, bytes: &[u8]) {
        self.say("`");
        self.show(bytes);
        self.say("`");
    }

    pub fn begin(&mut self, style: Style) {
        if self.has_colours {
            self.say(match style {
                Style::Refused => "\u{1b}[1;31m",
                Style::Warned => "\u{1b}[1;33m",
                Style::Marked => "\u{1b}[1;36m",
                Style::Advice => "\u{1b}[1;32m",
            });
        }
    }

    pub fn end(&mut self) {
        if self.has_colours {
            self.say("\u{1b}[0m");
        }
    }

    /// Begins the line of advice.
    pub fn advise(&mut self, text: &str) {
        self.begin(Style::Advice);
        self.say("  advice: ");
        self.end();
        self.say(text);
    }

    pub fn bytes(&self) -> &[u8] {
        self.text.as_slice()
    }
}
