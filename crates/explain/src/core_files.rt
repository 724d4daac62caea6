use crate::core_line::{behind, core_word, number_of, says};
use crate::matter::{Matter, refuse, show};
use crate::page::Page;
use crate::places::Spot;
use crate::source::{equals, part};

/// The bytes of the entry's line in a core file: from the first line that declares the name.
fn line_of_entry(m: &Matter<'_>, name: &[u8]) -> Spot {
    let mut begins = true;
    for (at, byte) in m.s.bytes.iter().enumerate() {
        if begins && declares(part(m.s.bytes, at, m.s.bytes.len()), name) {
            let rest = part(m.s.bytes, at, m.s.bytes.len());
            let len = rest
                .iter()
                .position(|it| *it == b'\n')
                .unwrap_or(rest.len());
            return Spot {
                from: at,
                to: at.saturating_add(len),
            };
        }
        begins = *byte == b'\n';
    }
    Spot { from: 0, to: 0 }
}

/// Whether a line begins with a word that declares, and with this name.
fn declares(line: &[u8], name: &[u8]) -> bool {
    for front in [&b"def "[..], b"data "].iter() {
        if line
            .strip_prefix(*front)
            .is_some_and(|it| begins_with(it, name))
        {
            return true;
        }
    }
    declares_instance(line, name, b"elim ", b"!elim.") || declares_axiom(line, name)
}

fn begins_with(text: &[u8], name: &[u8]) -> bool {
    text.strip_prefix(name)
        .is_some_and(|it| it.first().copied() == Some(b' '))
}

/// Whether the line is that of the instance of this name: `elim D m` for `D!elim.m`.
fn declares_instance(line: &[u8], name: &[u8], front: &[u8], mark: &[u8]) -> bool {
    let Some(at) = name.iter().position(|it| *it == b'!') else {
        return false;
    };
    let Some(rest) = line.strip_prefix(front) else {
        return false;
    };
    let Some(level) = part(name, at, name.len()).strip_prefix(mark) else {
        return false;
    };
    let Some(behind) = rest.strip_prefix(part(name, 0, at)) else {
        return false;
    };
    behind
        .strip_prefix(b" ")
        .is_some_and(|it| it.starts_with(level))
}

/// Whether the line is `axiomk i m` for the name `Eq.i!k.m`.
fn declares_axiom(line: &[u8], name: &[u8]) -> bool {
    name.strip_prefix(b"Eq.")
        .is_some_and(|it| declares_instance(line, it, b"axiomk ", b"!k."))
}

fn advice_for(kind: &[u8], reason: &[u8]) -> &'static str {
    match kind {
        b"TooLong" => "a file has at most 1048576 bytes: divide it.",
        b"NotCoreText" =>
            "docs/CORE_TEXT.md says what may stand here; a file that `compile` wrote for an accepted program is core text.",
        b"Nested" => "give parts of the term names of their own, by entries before this one.",
        b"NotPositive" =>
            "the family may only be what an argument of the constructor answers, at its parameters.",
        b"IndexTooLarge" => "raise the sort of the family, or make what is large a parameter.",
        b"Fuel" => "allow more units with `--fuel N`, up to 1000000000.",
        b"Deep" => "give parts of the term names of their own, by entries before this one.",
        b"IllTyped" if equals(reason, "NoSuchInstance") =>
            "write the line of the instance, `elim D m` or `axiomk i m`, before this entry.",
        b"IllTyped" =>
            "the term at that place of the entry has another type than is wanted: correct the entry.",
        _ => "docs/REPORT.md says what the line means.",
    }
}

fn message_for(kind: &[u8]) -> &'static str {
    match kind {
        b"TooLong" => "the file is longer than 1048576 bytes",
        b"NotCoreText" => "no core text goes on with this",
        b"Nested" => "more than 2000 terms are inside one another here",
        b"IllTyped" => "the checker rejects a part of this entry:",
        b"NotPositive" => "this family is not positive:",
        b"IndexTooLarge" => "an argument or an index is in a higher sort than the family:",
        b"Fuel" => "this entry needs more units than",
        b"Deep" =>
            "a term of this entry is higher than 2000, or more than 2000 calls of the checker are open",
        _ => "this entry is refused:",
    }
}

fn say_rest(page: &mut Page, m: &Matter<'_>, from: usize) {
    for at in from..m.line.words.len() {
        page.say(" ");
        page.show(core_word(m.line, at));
    }
}

/// Explains the refusal of a core file. Its terms have no names, so they are shown as they are written.
pub fn refused(page: &mut Page, m: &Matter<'_>) {
    let at = number_of(core_word(m.line, 3));
    let is_of_file = core_word(m.line, 3)
        .first()
        .is_some_and(|it| it.is_ascii_digit());
    let kind = if is_of_file {
        core_word(m.line, 2)
    } else {
        core_word(m.line, 3)
    };
    let spot = if is_of_file {
        Spot {
            from: at,
            to: at.saturating_add(1),
        }
    } else {
        line_of_entry(m, core_word(m.line, 2))
    };
    let from = if says(m.line, 4, "con") || says(m.line, 4, "param") {
        7
    } else {
        6
    };
    let reason = core_word(m.line, behind(m.line, from));
    refuse(page, m, spot);
    page.say(message_for(kind));
    if !is_of_file {
        say_rest(page, m, 4);
    }
    show(page, m, spot);
    page.advise(advice_for(kind, reason));
    page.say("\n");
}
