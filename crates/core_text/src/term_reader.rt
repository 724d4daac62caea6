ghost use Rattle.std.specs.Prelude.{◌≡◌, ◌+◌, ◌<◌, ◌^◌};
ghost use Rattle.core_terms.specs.Low.{low_of};
ghost use Rattle.core_terms.specs.Meanings.{tree_of};
ghost use Rattle.theory.specs.Terms as tree;
ghost use Rattle.core_text.specs.NameRuns.{run_len};
ghost use Rattle.core_text.specs.Reading.{Reads};
ghost use Rattle.core_text.specs.Scopes.{look_of};
ghost use Rattle.core_text.specs.TermReading as spec;

use crate::halt::Halt;
use crate::lookup::symbol;
use crate::runs::run_len;
use crate::scanning::{begins, first, past, read_index, skip};
use crate::scope::Scope;
use core_terms::{Low, MAX_HEIGHT, TOP, Term};

/// How many sorts there are.
const SORTS: u32 = TOP as u32 + 1;

/// The term, where it is not too high.
pub fn limited(term: Term, height: u32, rest: &[u8]) -> Result<(Low, &[u8]), Halt>
    requires { height ≡ tree.height (tree_of term) }
    ensures { Reads low_of result (spec.limited (tree_of term) rest.now) }
{
    if height > MAX_HEIGHT {
        return Err(Halt::Nested(rest.len()));
    }
    Ok((Low { term, height }, rest))
}

/// The term and the parenthesis that closes it.
pub fn close(term: Term, height: u32, rest: &[u8]) -> Result<(Low, &[u8]), Halt>
    requires { height ≡ tree.height (tree_of term) }
    ensures { Reads low_of result (spec.closed_by (tree_of term) rest.now) }
{
    limited(term, height, past(b")", rest)?)
}

pub fn is_application(t: &Term) -> bool
    ensures { result ≡ spec.is_application (tree_of t.now) }
{
    match t {
        Term::App(..) => true,
        Term::Var(_) | Term::Sort(_) | Term::Pi(..) | Term::Lam(..) | Term::Let(..) => false,
        Term::Const(_) | Term::Fam(_) | Term::Con(..) | Term::Elim(..) | Term::AxiomK(..) => false,
    }
}

pub fn read_variable(under: u32, rest: &[u8]) -> Result<(Low, &[u8]), Halt>
    ensures { Reads low_of result (spec.variable_at under rest.now) }
{
    if under == 0 {
        return Err(Halt::Wrong(rest.len()));
    }
    let (index, rest) = read_index(under, skip(rest, 1))?;
    Ok((Low::leaf(Term::Var(index)), rest))
}

fn read_sort(rest: &[u8]) -> Result<(Low, &[u8]), Halt>
    ensures { Reads low_of result (spec.sort_at rest.now) }
{
    let (level, rest) = read_index(SORTS, past(b" ", rest)?)?;
    Ok((Low::leaf(Term::Sort(level as u8)), rest))
}

/// A sort or a symbol.
pub fn read_named<'t>(scope: &Scope, rest: &'t [u8]) -> Result<(Low, &'t [u8]), Halt>
    ensures { Reads low_of result (spec.named (look_of scope.now) (run_len rest.now) rest.now) }
{
    let len = run_len(rest);
    let name = &rest[..len];
    let more = &rest[len..];
    if name == b"Type".as_slice() {
        return read_sort(more);
    }
    match symbol(scope, name) {
        Some(term) => Ok((Low::leaf(term), more)),
        None => Err(Halt::Wrong(rest.len())),
    }
}

/// A term under binders, inside which `room` terms may be nested.
#[cycle(read_term)]
pub(crate) fn read_term<'t>(
    scope: &Scope,
    under: u32,
    room: u32,
    rest: &'t [u8],
) -> Result<(Low, &'t [u8]), Halt>
    requires { under + room < 2 ^ 32 }
    ensures { Reads low_of result (spec.read_term (look_of scope.now) room under rest.now) }
{
    if room == 0 {
        return Err(Halt::Nested(rest.len()));
    }
    if first(rest) == b'(' {
        read_enclosed(scope, under, room - 1, skip(rest, 1))
    } else if first(rest) == b'%' {
        read_variable(under, rest)
    } else {
        read_named(scope, rest)
    }
}

/// A term after a word.
#[cycle(read_term)]
pub(crate) fn read_after<'t>(
    scope: &Scope,
    word: &[u8],
    under: u32,
    room: u32,
    rest: &'t [u8],
) -> Result<(Low, &'t [u8]), Halt>
    requires { under + room < 2 ^ 32 }
    ensures { Reads low_of result (spec.term_after (spec.read_term (look_of scope.now) room) word.now under rest.now) }
{
    read_term(scope, under, room, past(word, rest)?)
}

/// A term after its parenthesis.
#[cycle(read_term)]
fn read_enclosed<'t>(
    scope: &Scope,
    under: u32,
    room: u32,
    rest: &'t [u8],
) -> Result<(Low, &'t [u8]), Halt>
    requires { under + room + 1 < 2 ^ 32 }
    ensures { Reads low_of result (spec.enclosed_at (spec.read_term (look_of scope.now) room) under rest.now) }
{
    if first(rest) == b'\\' {
        read_function(scope, under, room, skip(rest, 1))
    } else if begins(b"let ", rest) {
        read_let(scope, under, room, skip(rest, 4))
    } else {
        let (first, rest) = read_term(scope, under, room, rest)?;
        read_after_first(scope, first, under, room, rest)
    }
}

#[cycle(read_term)]
fn read_function<'t>(
    scope: &Scope,
    under: u32,
    room: u32,
    rest: &'t [u8],
) -> Result<(Low, &'t [u8]), Halt>
    requires { under + room + 1 < 2 ^ 32 }
    ensures { Reads low_of result (spec.function_at (spec.read_term (look_of scope.now) room) under rest.now) }
{
    let (domain, rest) = read_term(scope, under, room, rest)?;
    let (body, rest) = read_after(scope, b" . ", under + 1, room, rest)?;
    let (term, height) = Low::lam(scope.alloc, domain, body)?;
    close(term, height, rest)
}

#[cycle(read_term)]
fn read_let<'t>(
    scope: &Scope,
    under: u32,
    room: u32,
    rest: &'t [u8],
) -> Result<(Low, &'t [u8]), Halt>
    requires { under + room + 1 < 2 ^ 32 }
    ensures { Reads low_of result (spec.let_at (spec.read_term (look_of scope.now) room) under rest.now) }
{
    let (ty, rest) = read_term(scope, under, room, rest)?;
    let (value, rest) = read_after(scope, b" = ", under, room, rest)?;
    let (body, rest) = read_after(scope, b" . ", under + 1, room, rest)?;
    let (term, height) = Low::local(scope.alloc, ty, value, body)?;
    close(term, height, rest)
}

/// A term after the first term in its parentheses.
#[cycle(read_term)]
fn read_after_first<'t>(
    scope: &Scope,
    head: Low,
    under: u32,
    room: u32,
    rest: &'t [u8],
) -> Result<(Low, &'t [u8]), Halt>
    requires { under + room + 1 < 2 ^ 32 }
    ensures { Reads low_of result (spec.after_first (spec.read_term (look_of scope.now) room) (tree_of head.term) under rest.now) }
{
    let rest = past(b" ", rest)?;
    if first(rest) == b'-' {
        read_product(scope, head, under, room, rest)
    } else if is_application(&head.term) {
        Err(Halt::Wrong(rest.len()))
    } else {
        read_arguments(scope, head, under, room, rest)
    }
}

/// A product from its arrow on.
#[cycle(read_term)]
fn read_product<'t>(
    scope: &Scope,
    domain: Low,
    under: u32,
    room: u32,
    rest: &'t [u8],
) -> Result<(Low, &'t [u8]), Halt>
    requires { under + room + 1 < 2 ^ 32 }
    ensures { Reads low_of result (spec.product_from (spec.read_term (look_of scope.now) room) (tree_of domain.term) under rest.now) }
{
    let (codomain, rest) = read_after(scope, b"-> ", under + 1, room, rest)?;
    let (term, height) = Low::pi(scope.alloc, domain, codomain)?;
    close(term, height, rest)
}

/// An application from its first argument on.
#[cycle(read_term)]
fn read_arguments<'t>(
    scope: &Scope,
    head: Low,
    under: u32,
    room: u32,
    from: &'t [u8],
) -> Result<(Low, &'t [u8]), Halt>
    requires { under + room + 1 < 2 ^ 32 }
    ensures { Reads low_of result (spec.arguments_from (spec.read_term (look_of scope.now) room) 2000 (tree_of head.term) under from.now) }
{
    let mut whole = head;
    let mut rest = from;
    let mut more = MAX_HEIGHT;
    'arguments: while 0 < more {
        let (longer, end) = read_argument(scope, whole, under, room, rest)?;
        if first(end) != b' ' {
            return close(longer.term, longer.height, end);
        }
        whole = longer;
        rest = skip(end, 1);
        more -= 1;
    }
    Err(Halt::Nested(rest.len()))
}

/// The head applied to one argument more.
#[cycle(read_term)]
fn read_argument<'t>(
    scope: &Scope,
    head: Low,
    under: u32,
    room: u32,
    rest: &'t [u8],
) -> Result<(Low, &'t [u8]), Halt>
    requires { under + room + 1 < 2 ^ 32 }
    ensures { Reads low_of result (spec.argument_of (spec.read_term (look_of scope.now) room) (tree_of head.term) under rest.now) }
{
    let (argument, rest) = read_term(scope, under, room, rest)?;
    let (term, height) = Low::app(scope.alloc, head, argument)?;
    limited(term, height, rest)
}
