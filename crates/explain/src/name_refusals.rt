use crate::clauses::{clauses, depth_of, left_of_clause_at, patterns};
use crate::core_line::core_word;
use crate::families::{
    braces, constructor, count_args, count_params, is_constructor, telescope_of, type_of,
};
use crate::labels::say_usual;
use crate::matter::{Matter, number, refuse, show};
use crate::nearest::{declared_before, nearest};
use crate::page::Page;
use crate::places::{line_number, spot_at, spot_of};
use crate::source::{
    Form, Source, Span, atoms, bare, equals, find_declaration, is, start_of, token_at, word,
    written,
};

fn line_of_token(s: Source<'_>, token: usize) -> usize {
    line_number(s.bytes, start_of(s, token))
}

/// The token of the word that the line names.
fn token_of(m: &Matter<'_>) -> usize {
    token_at(m.s, number(m, 4))
}

pub fn duplicate(page: &mut Page, m: &Matter<'_>) {
    let token = token_of(m);
    let name = word(m.s, token);
    let spot = spot_at(m.s, token);
    refuse(page, m, spot);
    page.quote(name);
    let earlier = declared_before(m.alloc, m.s, token);
    let mut first = None;
    for at in earlier.iter() {
        if word(m.s, *at) == name && *at < token && first.is_none() {
            first = Some(*at);
        }
    }
    match first {
        Some(at) => {
            page.say(" is declared on line ");
            page.number(line_of_token(m.s, at));
            page.say(" already");
        }
        None => page.say(" is a name of the prelude already"),
    }
    show(page, m, spot);
    page.advise(
        "take another name for one of the two; constructors of different families have different names too.\n",
    );
}

/// Words of other languages, and what stands in their place.
const WORDS: [(&str, &str); 15] = [
    (
        "case",
        "there is no `case`: declare a function of its own by clauses, or use a `with`.",
    ),
    (
        "of",
        "there is no `case`: declare a function of its own by clauses, or use a `with`.",
    ),
    (
        "where",
        "there is no `where`: declare what it defines before this, or write `let x : A = t in ..`.",
    ),
    (
        "if",
        "there is no `if`: declare a function by clauses over `true` and `false`.",
    ),
    (
        "then",
        "there is no `if`: declare a function by clauses over `true` and `false`.",
    ),
    (
        "fix",
        "a definition can't call itself: write a `fun` with clauses.",
    ),
    (
        "match",
        "there is no `match`: declare a function of its own by clauses, or use a `with`.",
    ),
    (
        "rewrite",
        "there is no `rewrite`: use `cong`, `trans` and `subst` (examples/equality.elim).",
    ),
    ("Set", "write `Type 0`."),
    ("Prop", "write `Type 0`."),
    (
        "Nat",
        "there are no numbers before they are declared: `data Nat : Type 0 { zero : Nat ; suc : Nat -> Nat }`.",
    ),
    (
        "Bool",
        "declare it: `data Bool : Type 0 { true : Bool ; false : Bool }`.",
    ),
    (
        "refl",
        "the prelude has one for each level, as `refl.0 A x` in terms and `refl.0` in patterns.",
    ),
    ("Eq", "the prelude has one for each level, as `Eq.0 A x y`."),
    ("Unit", "the prelude has one for each level, as `Unit.0`."),
];

fn advice_for_word(name: &[u8]) -> Option<&'static str> {
    for (word, advice) in WORDS.iter() {
        if word.as_bytes() == name {
            return Some(advice);
        }
    }
    None
}

/// Whether the token is the name with which a clause of the function begins.
fn begins_clause(m: &Matter<'_>, token: usize) -> bool {
    m.decl.form == Form::Fun
        && token > m.decl.name
        && (is(m.s, token.wrapping_sub(1), ";") || is(m.s, token.wrapping_sub(1), "{"))
}

/// Whether the declaration itself has the name.
fn is_own(m: &Matter<'_>, name: &[u8]) -> bool {
    word(m.s, m.decl.name) == name
}

/// The line of a later declaration of this name.
fn later_line(m: &Matter<'_>, name: &[u8]) -> Option<usize> {
    let at = match (find_declaration(m.s, name), constructor(m.s, name)) {
        (Some(decl), _) => decl.name,
        (None, Some(con)) => con.name,
        (None, None) => return None,
    };
    if at > m.decl.name {
        Some(line_of_token(m.s, at))
    } else {
        None
    }
}

fn advise_name(page: &mut Page, m: &Matter<'_>, token: usize) {
    let name = word(m.s, token);
    let known = declared_before(m.alloc, m.s, m.decl.whole.to);
    if begins_clause(m, token) {
        page.advise("each clause begins with the name of its function: write ");
        page.quote(word(m.s, m.decl.name));
        page.say(" here.");
    } else if is_own(m, name) {
        page.advise("a definition can't mention itself: write a `fun` with clauses.");
    } else if let Some(line) = later_line(m, name) {
        page.advise("it is declared on line ");
        page.number(line);
        page.say(": move that declaration before this one.");
    } else if m.decl.form == Form::Data && equals(name, "where") {
        page.advise("leave it out: the constructors stand in braces after the type.");
    } else if let Some(advice) = advice_for_word(name) {
        page.advise(advice);
    } else if let Some(near) = nearest(
        m.alloc,
        m.s,
        name,
        m.decl.whole.from,
        token,
        known.as_slice(),
    ) {
        page.advise("did you mean ");
        page.quote(near);
        page.say("?");
    } else if is(m.s, token.wrapping_sub(1), "(") && m.decl.form == Form::Fun {
        page.advise(
            "a pattern in parentheses begins with a constructor; a term in a pattern has a dot before it.",
        );
    } else {
        page.advise("declare it before this, or bind it by a pattern or a binder.");
    }
    page.say("\n");
}

pub fn unknown_name(page: &mut Page, m: &Matter<'_>) {
    let token = token_of(m);
    let spot = spot_at(m.s, token);
    refuse(page, m, spot);
    page.quote(core_word(m.line, 5));
    if begins_clause(m, token) {
        page.say(" is not the name of this function");
    } else {
        page.say(" is not declared before this, and no variable here has the name");
    }
    show(page, m, spot);
    advise_name(page, m, token);
}

/// The pattern in parentheses, or the name alone, that begins with this token.
fn pattern_at(m: &Matter<'_>, token: usize) -> Span {
    let open = token.wrapping_sub(1);
    if is(m.s, open, "(") {
        let close = crate::source::closing(m.s, Span::new(open, m.decl.whole.to));
        Span::new(open, close.saturating_add(1))
    } else {
        Span::new(token, token.saturating_add(1))
    }
}

fn say_count(page: &mut Page, count: usize, one: &str, more: &str) {
    page.number(count);
    page.say(if count == 1 { one } else { more });
}

/// A constructor in a pattern, with names for its arguments.
fn say_pattern(page: &mut Page, m: &Matter<'_>, name: &[u8]) {
    let args = count_args(m.alloc, m.s, name);
    page.say(if args > 0 { "`(" } else { "`" });
    page.show(name);
    if let Some(con) = constructor(m.s, name) {
        let mut unnamed: usize = 0;
        for it in telescope_of(m.alloc, m.s, con.ty).params.iter() {
            page.say(" ");
            match it.name {
                Some(token) => page.show(word(m.s, token)),
                None => say_usual(page, unnamed),
            }
            unnamed = unnamed.saturating_add(if it.name.is_none() { 1 } else { 0 });
        }
    } else if args == 2 {
        page.say(" x y");
    }
    page.say(if args > 0 { ")`" } else { "`" });
}

fn arity_of_constructor(page: &mut Page, m: &Matter<'_>, token: usize) {
    let name = word(m.s, token);
    let pattern = pattern_at(m, token);
    let found = atoms(m.alloc, m.s, bare(m.s, pattern))
        .len()
        .saturating_sub(1);
    let wanted = count_args(m.alloc, m.s, name);
    let params = count_params(m.alloc, m.s, name);
    let spot = spot_of(m.s, pattern);
    refuse(page, m, spot);
    page.quote(name);
    page.say(" has ");
    say_count(page, found, " argument here, and ", " arguments here, and ");
    page.say("in a pattern it has ");
    page.number(wanted);
    show(page, m, spot);
    page.advise("write ");
    if params > 0 && found == wanted.saturating_add(params) {
        say_without_parameters(page, m, pattern, params);
        page.say(": in a pattern a constructor is written without its parameters");
    } else {
        say_pattern(page, m, name);
    }
    page.say(".\n");
}

/// The pattern as it is written, without its first arguments.
fn say_without_parameters(page: &mut Page, m: &Matter<'_>, pattern: Span, params: usize) {
    let parts = atoms(m.alloc, m.s, bare(m.s, pattern));
    let is_alone = parts.len() <= params.saturating_add(1);
    page.say(if is_alone { "`" } else { "`(" });
    for (at, part) in parts.iter().enumerate() {
        if at == 0 || at > params {
            page.say(if at == 0 { "" } else { " " });
            page.show(written(m.s, *part));
        }
    }
    page.say(if is_alone { "`" } else { ")`" });
}

/// The number of patterns of the first clause.
fn first_arity(m: &Matter<'_>) -> usize {
    let Some(inner) = braces(m.s, m.decl.whole) else {
        return 0;
    };
    match clauses(m.alloc, m.s, inner).first() {
        Some(first) => patterns(m.alloc, m.s, *first).len(),
        None => 0,
    }
}

/// The clause that begins with this token has another number of patterns than it should have.
fn arity_of_clause(page: &mut Page, m: &Matter<'_>, token: usize) {
    let clause = left_of_clause_at(m.s, m.decl, token);
    let arity = first_arity(m);
    let inside = depth_of(m.s, m.decl, token);
    let products = telescope_of(m.alloc, m.s, type_of(m.s, m.decl))
        .params
        .len();
    let spot = spot_of(m.s, clause.left);
    refuse(page, m, spot);
    page.say("this clause has ");
    say_count(
        page,
        patterns(m.alloc, m.s, clause).len(),
        " pattern, and ",
        " patterns, and ",
    );
    let advice = if arity > products {
        page.say("the type of the function has ");
        say_count(page, products, " product", " products");
        "leave out what is too much, or write the types of all arguments before `{`; a type by its name counts as none.\n"
    } else if inside > 0 {
        say_count(
            page,
            arity.saturating_add(inside),
            " is due here",
            " are due here",
        );
        "inside a `with` repeat the patterns of the clause around it, and add one for the value.\n"
    } else {
        page.say("the first clause has ");
        page.number(arity);
        "give each clause a pattern for each argument; a constructor with arguments stands in parentheses, as `(suc n)`.\n"
    };
    show(page, m, spot);
    page.advise(advice);
}

pub fn wrong_arity(page: &mut Page, m: &Matter<'_>) {
    let token = token_of(m);
    if begins_clause(m, token) {
        arity_of_clause(page, m, token);
    } else if is_constructor(m.s, word(m.s, token)) {
        arity_of_constructor(page, m, token);
    } else {
        arity_of_clause(page, m, token);
    }
}

pub fn not_linear(page: &mut Page, m: &Matter<'_>) {
    let token = token_of(m);
    let spot = spot_at(m.s, token);
    refuse(page, m, spot);
    page.quote(word(m.s, token));
    page.say(" stands for two arguments of one clause");
    show(page, m, spot);
    page.advise("write `.");
    page.show(word(m.s, token));
    page.say("` at the place that the other patterns determine, or another name if none does.\n");
}
