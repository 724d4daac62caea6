use crate::clauses::name_before;
use crate::core_line::{Line, core_word, mates_of, says, words_of};
use crate::families::constructors;
use crate::matter::{Matter, NOWHERE, simple};
use crate::page::Page;
use crate::places::{Spot, spot_at};
use crate::recursion::all_clauses;
use crate::source::{
    Con, Declared, Form, Source, Span, declarations, find_declaration, part, word,
};
use crate::{
    clause_refusals, core_files, cover_refusals, decision_refusals, family_refusals, file_refusals,
    mutual_refusals, name_refusals, recursion_refusals, syntax_refusals, type_refusals, warnings,
};
use core_terms::Items;
use std::alloc::Global;
use surface_syntax::{SyntaxStop, Token, tokens};

/// A run of `elim`: the source file and its name for the reader, the output, and the status.
#[derive(Clone, Copy)]
pub struct Run<'a> {
    pub file: &'a [u8],
    pub bytes: &'a [u8],
    pub output: &'a [u8],
    pub status: usize,
    pub is_core: bool,
}

/// The tokens of the bytes, up to the first place where none begins.
pub fn front_tokens(alloc: Global, bytes: &[u8]) -> Items<Token> {
    match tokens(alloc, bytes) {
        Ok(found) => found,
        Err(SyntaxStop::BadToken(at)) | Err(SyntaxStop::NotUtf8(at)) => {
            let front = part(bytes, 0, at as usize);
            match tokens(alloc, front) {
                Ok(found) => found,
                Err(SyntaxStop::BadToken(earlier)) => tokens(
                    alloc,
                    part(bytes, 0, earlier as usize),
                ).unwrap_or(Items::new(alloc)),
                Err(_) => Items::new(alloc),
            }
        }
        Err(_) => Items::new(alloc),
    }
}

/// The declaration that a line is about: the first one that is not accepted, if it has the name, or else the first of that name.
fn declaration_of(s: Source<'_>, accepted: usize, name: &[u8]) -> Declared {
    let name = if name.contains(&b'!') {
        name_before(name)
    } else {
        name
    };
    match s.decls.get(accepted) {
        Some(it) if word(s, it.name) == name => *it,
        _ => find_declaration(s, name).unwrap_or(NOWHERE),
    }
}

fn is_of_file(m: &Matter<'_>) -> bool {
    core_word(m.line, 3)
        .first()
        .is_some_and(|it| it.is_ascii_digit())
}

fn of_file(page: &mut Page, m: &Matter<'_>) {
    match core_word(m.line, 2) {
        b"TooLong" => file_refusals::too_long(page, m),
        b"NotUtf8" => file_refusals::not_utf8(page, m),
        b"BadToken" => file_refusals::bad_token(page, m),
        b"Nested" => file_refusals::nested(page, m),
        b"Syntax" => syntax_refusals::syntax(page, m),
        _ => simple(
            page,
            m,
            Spot { from: 0, to: 0 },
            "the file is refused",
            "docs/REPORT.md says what the line means.",
        ),
    }
}

fn of_declaration(page: &mut Page, m: &Matter<'_>) {
    match core_word(m.line, 3) {
        b"Duplicate" => name_refusals::duplicate(page, m),
        b"UnknownName" => name_refusals::unknown_name(page, m),
        b"WrongArity" => name_refusals::wrong_arity(page, m),
        b"NotLinear" => name_refusals::not_linear(page, m),
        b"IllTyped" => type_refusals::ill_typed(page, m),
        b"BadFamily" => family_refusals::bad_family(page, m),
        b"NotPositive" => not_positive(page, m),
        b"IndexTooLarge" => family_refusals::index_too_large(page, m),
        _ => of_decision(page, m),
    }
}

fn of_decision(page: &mut Page, m: &Matter<'_>) {
    match core_word(m.line, 3) {
        b"NotPlainFamily" => decision_refusals::not_plain_family(page, m),
        b"NotDecision" => decision_refusals::not_decision(page, m),
        b"NotFirstOrder" => decision_refusals::not_first_order(page, m),
        _ => of_mutual(page, m),
    }
}

fn not_positive(page: &mut Page, m: &Matter<'_>) {
    if mutual_refusals::is_mutual(m) {
        mutual_refusals::not_positive(page, m)
    } else {
        family_refusals::not_positive(page, m)
    }
}

fn of_mutual(page: &mut Page, m: &Matter<'_>) {
    match core_word(m.line, 3) {
        b"TagCount" => mutual_refusals::tag_count(page, m),
        b"MemberLevel" => mutual_refusals::member_level(page, m),
        b"Unequal" => mutual_refusals::unequal(page, m),
        _ => of_function(page, m),
    }
}

fn of_function(page: &mut Page, m: &Matter<'_>) {
    match core_word(m.line, 3) {
        b"WrongConstructor" => clause_refusals::wrong_constructor(page, m),
        b"Stuck" => clause_refusals::stuck(page, m),
        b"Impossible" => clause_refusals::impossible(page, m),
        b"NotAbsurd" => clause_refusals::not_absurd(page, m),
        b"DotMismatch" => clause_refusals::dot_mismatch(page, m),
        b"SelfInType" => clause_refusals::self_in_type(page, m),
        b"NotSmaller" => recursion_refusals::not_smaller(page, m),
        b"Uncovered" => cover_refusals::uncovered(page, m),
        b"Rejected" => recursion_refusals::rejected(page, m),
        _ => of_limit(page, m),
    }
}

fn of_limit(page: &mut Page, m: &Matter<'_>) {
    let spot = spot_at(m.s, m.decl.name);
    match core_word(m.line, 3) {
        b"Fuel" => {
            let advice =
                "allow more units with `--fuel N`, up to 1000000000, or divide the declaration into smaller ones.";
            simple(
                page,
                m,
                spot,
                "this declaration needs more units than one may spend",
                advice,
            );
        }
        b"Deep" => {
            let advice = "give parts of it names of their own, by declarations before this one.";
            simple(
                page,
                m,
                spot,
                "a term of this declaration is higher than 2000, or more than 2000 calls of the checker are open",
                advice,
            );
        }
        _ => simple(
            page,
            m,
            spot,
            "this declaration is refused",
            "docs/REPORT.md says what the line means.",
        ),
    }
}

fn refused(page: &mut Page, m: &Matter<'_>, is_core: bool) {
    if is_core {
        core_files::refused(page, m);
    } else if is_of_file(m) {
        of_file(page, m);
    } else {
        of_declaration(page, m);
    }
}

/// The end of the line that begins at this place.
fn end_of_line(output: &[u8], from: usize) -> usize {
    let rest = part(output, from, output.len());
    from.saturating_add(
        rest.iter()
            .position(|it| *it == b'\n')
            .unwrap_or(rest.len()),
    )
}

/// A line of the output with its words, and what comes after it.
#[derive(Clone, Copy)]
struct Told<'a> {
    line: Line<'a>,
    next: &'a [u8],
}

/// Explains a line of the output that says something of a clause, or of a refusal.
fn explain_told<'a>(
    alloc: Global,
    page: &mut Page,
    s: Source<'a>,
    file: &'a [u8],
    it: Told<'a>,
    accepted: usize,
    is_core: bool,
) {
    let decl = declaration_of(s, accepted, core_word(it.line, 2));
    let m = Matter {
        alloc,
        s,
        file,
        line: it.line,
        decl,
    };
    if says(it.line, 1, "refused") {
        refused(page, &m, is_core);
    } else if warnings::is_shadowed(&m) && !it.next.starts_with(b"# leaf ") {
        warnings::unreached(page, &m);
    } else if says(it.line, 1, "accepted") && decl.form == Form::Fun {
        for clause in all_clauses(&m).iter() {
            warnings::variables(page, &m, *clause);
        }
    }
}

fn told_of<'a>(text: &'a [u8], words: &'a [Span], mates: &'a [usize], next: &'a [u8]) -> Told<'a> {
    Told {
        line: Line { text, words, mates },
        next,
    }
}

/// Explains the line that begins at this place of the output.
fn line_at(
    alloc: Global,
    page: &mut Page,
    s: Source<'_>,
    run: &Run<'_>,
    from: usize,
    accepted: usize,
) {
    let to = end_of_line(run.output, from);
    let text = part(run.output, from, to);
    let words = words_of(alloc, text);
    let mates = mates_of(alloc, text, words.as_slice());
    let next = part(run.output, to.saturating_add(1), run.output.len());
    explain_told(
        alloc,
        page,
        s,
        run.file,
        told_of(text, words.as_slice(), mates.as_slice(), next),
        accepted,
        run.is_core,
    );
}

fn is_told(text: &[u8]) -> bool {
    text.starts_with(b"# refused ")
        || text.starts_with(b"# clause ")
        || text.starts_with(b"# accepted ")
}

/// Explains the lines of the output, and answers how many declarations it accepts.
fn lines(alloc: Global, page: &mut Page, s: Source<'_>, run: &Run<'_>) -> usize {
    let mut accepted: usize = 0;
    let mut is_begun = true;
    for (at, byte) in run.output.iter().enumerate() {
        let text = part(run.output, at, run.output.len());
        if is_begun && is_told(text) && text.contains(&b'\n') {
            line_at(alloc, page, s, run, at, accepted);
        }
        if is_begun && text.starts_with(b"# accepted ") {
            accepted = accepted.saturating_add(1);
        }
        is_begun = *byte == b'\n';
    }
    accepted
}

fn reason_of_status(status: usize) -> (&'static str, &'static str) {
    match status {
        3 => (
            "the input could not be read to its end",
            "look whether the file is still there, and start again.",
        ),
        4 => (
            "the output could not be written",
            "look whether there is room where it goes, and start again.",
        ),
        5 => (
            "memory ran out here",
            "free memory, or divide the file into smaller ones.",
        ),
        _ => (
            "the run ended here without an answer",
            "start again; if it ends so once more, divide the declaration into smaller ones.",
        ),
    }
}

/// A run that ended with no refusal and without success: the declaration at which it stopped.
fn cut_short<'a>(
    alloc: Global,
    page: &mut Page,
    s: Source<'a>,
    file: &'a [u8],
    status: usize,
    accepted: usize,
) {
    let decl = s.decls.get(accepted).copied().unwrap_or(NOWHERE);
    let line = Line {
        text: &[],
        words: &[],
        mates: &[],
    };
    let m = Matter {
        alloc,
        s,
        file,
        line,
        decl,
    };
    let (message, advice) = reason_of_status(status);
    simple(page, &m, spot_at(s, decl.name), message, advice);
}

fn source_of<'a>(
    bytes: &'a [u8],
    tokens: &'a [Token],
    decls: &'a [Declared],
    cons: &'a [Con],
) -> Source<'a> {
    Source {
        bytes,
        tokens,
        decls,
        cons,
    }
}

/// Whether a line of the output refuses something.
fn has_refusal(output: &[u8]) -> bool {
    (0..output.len()).any(|at| part(output, at, output.len()).starts_with(b"\n# refused "))
}

fn explain_source(alloc: Global, page: &mut Page, s: Source<'_>, run: &Run<'_>) {
    let accepted = lines(alloc, page, s, run);
    if run.status > 2 && !has_refusal(run.output) {
        cut_short(alloc, page, s, run.file, run.status, accepted);
    }
}

/// Explains a run of `compile` or `verify`.
pub fn explain(alloc: Global, page: &mut Page, run: &Run<'_>) {
    let found = if run.is_core {
        Items::new(alloc)
    } else {
        front_tokens(alloc, run.bytes)
    };
    let decls = declarations(alloc, source_of(run.bytes, found.as_slice(), &[], &[]));
    let cons = constructors(
        alloc,
        source_of(run.bytes, found.as_slice(), decls.as_slice(), &[]),
    );
    explain_source(
        alloc,
        page,
        source_of(
            run.bytes,
            found.as_slice(),
            decls.as_slice(),
            cons.as_slice(),
        ),
        run,
    );
}

/// Writes the name of each declaration, a line each.
pub fn names(alloc: Global, page: &mut Page, bytes: &[u8]) {
    let found = front_tokens(alloc, bytes);
    let s = source_of(bytes, found.as_slice(), &[], &[]);
    for it in declarations(alloc, s).iter() {
        page.show(word(s, it.name));
        page.say("\n");
    }
}
