use crate::matter::{Matter, number, refuse, show};
use crate::page::Page;
use crate::places::{Spot, line_number, spot_at};
use crate::source::{
    Declared, Form, Span, closing, colon_of_binder, end_of, find, is, is_name, is_number, part,
    start_of, token_at, word, written,
};
use core_terms::TOP;
use std::alloc::Global;
use surface_syntax::{SyntaxStop, parse, tokens};

/// The kinds of words that may stand at a place: a word of each, and its name in messages.
const KINDS: [(&str, &str); 17] = [
    ("x", "a name"),
    ("(", "`(`"),
    ("\\", "`\\`"),
    ("let", "`let`"),
    ("Type", "`Type`"),
    ("_", "`_`"),
    (".", "`.`"),
    (":", "`:`"),
    ("->", "`->`"),
    ("=", "`=`"),
    (";", "`;`"),
    (")", "`)`"),
    ("{", "`{`"),
    ("}", "`}`"),
    ("with", "`with`"),
    ("in", "`in`"),
    ("0", "a level from 0 to "),
];

/// Whether some program goes on with this word after these bytes.
fn may_follow(alloc: Global, before: &[u8], next: &str) -> bool {
    let mut text = Vec::new(alloc);
    let _ = text.extend_from_slice(before);
    let _ = text.extend_from_slice(b" ");
    let at = text.len();
    let _ = text.extend_from_slice(next.as_bytes());
    let Ok(found) = tokens(alloc, text.as_slice()) else {
        return false;
    };
    match parse(alloc, text.as_slice(), &found) {
        Err(SyntaxStop::Syntax(offset)) => offset as usize > at,
        _ => true,
    }
}

/// For each kind whether it may stand behind these bytes.
fn following(alloc: Global, before: &[u8]) -> [bool; 17] {
    let mut all = [false; 17];
    for (may, kind) in all.iter_mut().zip(KINDS.iter()) {
        *may = may_follow(alloc, before, kind.0);
    }
    all
}

/// A group of kinds under one name: a term, a pattern, or what follows the function in an application.
fn group_of(may: &[bool; 17]) -> (&'static str, usize) {
    if may[0] && may[1] && may[2] && may[3] && may[4] {
        ("a term", 5)
    } else if may[0] && may[1] && may[5] && may[6] {
        ("a pattern", 7)
    } else if may[0] && may[1] && may[4] {
        ("an argument", 5)
    } else {
        ("", 0)
    }
}

fn say_expected(page: &mut Page, may: &[bool; 17]) {
    let (group, from) = group_of(may);
    let mut count: usize = 0;
    for (at, it) in may.iter().enumerate() {
        if *it && at >= from {
            count = count.saturating_add(1);
        }
    }
    page.say(group);
    let mut is_first = group.is_empty();
    for (at, (it, kind)) in may.iter().zip(KINDS.iter()).enumerate() {
        if *it && at >= from {
            count = count.saturating_sub(1);
            if !is_first {
                page.say(if count == 0 { " or " } else { ", " });
            }
            is_first = false;
            page.say(kind.1);
            if kind.0 == "0" {
                page.number(usize::from(TOP));
            }
        }
    }
}

/// The declaration that begins before this token, as far as the token.
fn around(m: &Matter<'_>, token: usize) -> Option<Declared> {
    let mut last = None;
    for it in m.s.decls.iter() {
        if it.whole.from < token {
            last = Some(*it);
        }
    }
    last
}

/// The last token before this one that begins a line, if that is the name that begins a clause or stands before a colon.
fn begins_line(m: &Matter<'_>, token: usize) -> bool {
    let before = end_of(m.s, token.saturating_sub(1));
    line_number(m.s.bytes, before) < line_number(m.s.bytes, start_of(m.s, token))
}

/// The first token of a line, before this one, where the mark `;` before it would help.
fn unseparated(m: &Matter<'_>, decl: Declared, token: usize) -> Option<usize> {
    for at in (decl.whole.from..token).rev() {
        if is(m.s, at, ";") || is(m.s, at, "{") || is(m.s, at, "}") {
            return None;
        }
        let is_clause = decl.form == Form::Fun && word(m.s, at) == word(m.s, decl.name);
        let is_constructor = decl.form == Form::Data
            && is_name(m.s, at)
            && is(m.s, at.saturating_add(1), ":");
        let is_joined = !is(m.s, at.wrapping_sub(1), ";") && !is(m.s, at.wrapping_sub(1), "{");
        if (is_clause || is_constructor) && is_joined && begins_line(m, at) {
            return Some(at);
        }
    }
    None
}

/// Whether the text between these tokens has the word.
fn has(m: &Matter<'_>, from: usize, to: usize, text: &str) -> bool {
    (from..to).any(|at| is(m.s, at, text))
}

/// The last `(` before a token of a declaration, or the token itself.
fn opening_before(m: &Matter<'_>, decl: Declared, token: usize) -> usize {
    for at in (decl.name..token).rev() {
        if is(m.s, at, "(") {
            return at;
        }
    }
    token
}

/// Advice for a binder of several names among the parameters of a family.
fn of_parameters(page: &mut Page, m: &Matter<'_>, decl: Declared, token: usize) -> bool {
    let open = opening_before(m, decl, token);
    let binder = Span::new(open, decl.whole.to);
    let Some(colon) = colon_of_binder(m.s, binder) else {
        return false;
    };
    let is_behind_colon = find(m.s, Span::new(decl.name, open), ":").is_some();
    if decl.form != Form::Data || open >= token || is_behind_colon {
        return false;
    }
    let ty = Span::new(colon.saturating_add(1), closing(m.s, binder));
    page.advise("a parameter of a family binds one name: write `");
    for at in open.saturating_add(1)..colon {
        page.say(if at == open.saturating_add(1) {
            "("
        } else {
            " ("
        });
        page.show(word(m.s, at));
        page.say(" : ");
        page.show(written(m.s, ty));
        page.say(")");
    }
    page.say("`.\n");
    true
}

/// Advice for a missing `;`.
fn of_separator(page: &mut Page, m: &Matter<'_>, decl: Declared, token: usize) -> bool {
    let Some(at) = unseparated(m, decl, token) else {
        return false;
    };
    if !is(m.s, token, "=") && !is(m.s, token, ":") && !is(m.s, token, "with") {
        return false;
    }
    page.advise("write `;` after ");
    page.quote(word(m.s, at.saturating_sub(1)));
    page.say(" on line ");
    page.number(line_number(m.s.bytes, start_of(m.s, at.saturating_sub(1))));
    page.say(": it separates ");
    page.say(if decl.form == Form::Fun {
        "clauses"
    } else {
        "constructors"
    });
    page.say(", and ");
    page.quote(word(m.s, at));
    page.say(" begins the next one.\n");
    true
}

fn advice_at_end(may: &[bool; 17], is_end: bool) -> &'static str {
    if !is_end {
        ""
    } else if may[13] {
        "close the declaration with `}`."
    } else if may[11] {
        "close what `(` opened with `)`."
    } else {
        "the file ends in the middle of a declaration: write what is due."
    }
}

/// Advice by the word that is there and the one before it.
fn by_words(m: &Matter<'_>, token: usize, may: &[bool; 17]) -> &'static str {
    let before = token.saturating_sub(1);
    if is(m.s, token, ")") && is(m.s, before, "(") {
        "a clause has one `()`: write a variable or `_` for the other argument."
    } else if is(m.s, token, "}") && is(m.s, before, ";") {
        "leave out the `;` before `}`: it stands only between two clauses or constructors."
    } else if is(m.s, before, "\\") {
        "annotate the variable: `\\(x : A) -> ..`."
    } else if is(m.s, before, "Type") {
        "a sort has its level: write `Type 0`, or a higher one."
    } else if is_number(m.s, token) {
        "there are no numerals: write `suc (suc zero)`, or declare a name for it."
    } else if is(m.s, token, "{") && may[0] && may[1] {
        "there are no arguments in braces: write all arguments, and `(A : Type 0)` for a type that is one."
    } else if is(m.s, token, "=") && is(m.s, before, ":") {
        "write the type between `:` and `=`."
    } else {
        ""
    }
}

fn is_keyword(m: &Matter<'_>, token: usize) -> bool {
    ["data", "def", "fun", "with", "let", "in", "Type"]
        .iter()
        .any(|it| is(m.s, token, it))
}

fn is_declaring(m: &Matter<'_>, token: usize) -> bool {
    is(m.s, token, "data") || is(m.s, token, "def") || is(m.s, token, "fun")
}

/// Advice by the form of the declaration.
fn by_form(m: &Matter<'_>, decl: Declared, token: usize, may: &[bool; 17]) -> &'static str {
    let from = decl.whole.from;
    if is_declaring(m, token) && may[13] {
        "close the declaration before this one with `}`."
    } else if is_keyword(m, token) && may[0] {
        "this word is a part of the language and no name: take another one."
    } else if has(m, from, token, "where") {
        "there is no `where`: declare what it defines before this, or write `let x : A = t in ..`."
    } else if has(m, from, token, "case") {
        "there is no `case`: declare a function of its own by clauses, or use a `with`."
    } else if has(m, from, token, "forall") {
        "write `(x : A) -> ..` for all x of A."
    } else {
        by_form_alone(m, decl, token, may)
    }
}

fn by_form_alone(m: &Matter<'_>, decl: Declared, token: usize, may: &[bool; 17]) -> &'static str {
    let first = token == decl.name.saturating_add(1);
    match decl.form {
        Form::Fun if first && may[7] =>
            "write the type first, `fun f : A -> B { .. }`, and the arguments in clauses inside the braces.",
        Form::Def if first && may[7] =>
            "write the arguments into the type and the term: `def f : A -> B = \\(x : A) -> ..`.",
        Form::Def if is(m.s, token, "{") =>
            "a definition has one term after `=`; clauses are those of a `fun`.",
        Form::Fun if is(m.s, token, "=") && may[12] =>
            "a `fun` has clauses in braces; a term after `=` is that of a `def`.",
        Form::Data if is(m.s, token, "where") || is(m.s, token, "=") =>
            "write the constructors in braces: `data D : Type 0 { c : D ; d : D -> D }`.",
        _ if is(m.s, token, "=") && has(m, decl.whole.from, token, ")") && !may[9] && may[10] => {
            "a clause has one `=`, and none if it has `()`; between two clauses there is a `;`."
        }
        Form::Fun if is_clause_due(m, token) =>
            "each clause begins with the name of its function, inside a `with` too.",
        Form::Fun if may[9] && may[14] =>
            "a clause goes on with `=` and its right side, or with `with`; only one with `()` has neither.",
        _ => "write what is expected before this word, or leave the word out.",
    }
}

fn is_clause_due(m: &Matter<'_>, token: usize) -> bool {
    is(m.s, token.wrapping_sub(1), "{") || is(m.s, token.wrapping_sub(1), ";")
}

fn say_found(page: &mut Page, m: &Matter<'_>, token: usize) {
    if token < m.s.tokens.len() {
        page.say(", and not ");
        page.quote(word(m.s, token));
    } else {
        page.say(", and not the end of the file");
    }
}

fn outside(page: &mut Page, m: &Matter<'_>, token: usize, spot: Spot) {
    page.say("a declaration is expected here: `data`, `def` or `fun`");
    show(page, m, spot);
    if is(m.s, token, "import") || is(m.s, token, "open") || is(m.s, token, "module") {
        page.advise(
            "there are no imports: write all declarations that are used into this file, each before its uses.\n",
        );
    } else if is_name(m.s, token) {
        page.advise(
            "begin it with `fun` for a function by clauses, with `def` for a term, or with `data` for a family.\n",
        );
    } else {
        page.advise("leave this word out, or look for a `}` too many before it.\n");
    }
}

fn advise(page: &mut Page, m: &Matter<'_>, decl: Declared, token: usize, may: &[bool; 17]) {
    if of_parameters(page, m, decl, token) || of_separator(page, m, decl, token) {
        return;
    }
    let at_end = advice_at_end(may, token >= m.s.tokens.len());
    let by_words = by_words(m, token, may);
    let advice = if !by_words.is_empty() {
        by_words
    } else if !at_end.is_empty() {
        at_end
    } else {
        by_form(m, decl, token, may)
    };
    page.advise(advice);
    page.say("\n");
}

/// The token, or the end of the last one at the end of the file.
fn spot_of_token(m: &Matter<'_>, token: usize) -> Spot {
    if token < m.s.tokens.len() || token == 0 {
        spot_at(m.s, token)
    } else {
        let end = end_of(m.s, token.saturating_sub(1));
        Spot { from: end, to: end }
    }
}

/// Whether the token comes right after the `=` of a definition that has no type.
fn is_without_type(m: &Matter<'_>, decl: Declared, token: usize) -> bool {
    let mark = decl.name.saturating_add(1);
    decl.form == Form::Def && is(m.s, mark, "=") && token == mark.saturating_add(1)
}

fn without_type(page: &mut Page, m: &Matter<'_>, spot: Spot) {
    page.say("this definition has no type");
    show(page, m, spot);
    page.advise("write the type too: `def NAME : TYPE = ..`.\n");
}

pub fn syntax(page: &mut Page, m: &Matter<'_>) {
    let at = number(m, 3);
    let token = token_at(m.s, at);
    let spot = spot_of_token(m, token);
    refuse(page, m, spot);
    let Some(decl) = around(m, token) else {
        outside(page, m, token, spot);
        return;
    };
    if is_without_type(m, decl, token) {
        without_type(page, m, spot);
        return;
    }
    let may = following(m.alloc, part(m.s.bytes, start_of(m.s, decl.whole.from), at));
    if may.iter().any(|it| *it) {
        page.say("expected ");
        say_expected(page, &may);
        say_found(page, m, token);
        show(page, m, spot);
        advise(page, m, decl, token, &may);
    } else {
        outside(page, m, token, spot);
    }
}
