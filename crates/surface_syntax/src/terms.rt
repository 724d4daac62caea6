ghost use Rattle.std.specs.Prelude.{◌≡◌, ◌+◌, ◌++◌, [], ◌∷◌, None, option_map};
ghost use Rattle.surface_syntax.specs.Machine as machine;
ghost use Rattle.surface_syntax.specs.Steps.{Follows, Makes};
ghost use Rattle.surface_syntax.specs.StateMeanings.{quantifier_of, spine_of, telescope_of, term_in_of, term_state_of};

use crate::awaiting::{binder_open, level};
use crate::building::{applied, deeper, may, named, some_names, with_name, with_word};
use crate::context::{Quantifier, Spine, Telescope, TermIn};
use crate::due::colon;
use crate::endings::term_end;
use crate::halt::Halt;
use crate::onward::{behind_atom, term_inside};
use crate::state::{State, Step, TermState};
use crate::{Lexeme, Surf, Word};
use core_terms::Items;
use std::alloc::Global;

fn to(state: TermState) -> Result<Step, Halt>
    ensures { Follows result (machine.to (machine.In_term (term_state_of state))) }
{
    Ok(Step::to(State::InTerm(state)))
}

/// On after the name of a local definition.
fn behind_let(depth: u32, word: Word, context: Box<TermIn>) -> Result<Step, Halt>
    ensures { Follows result (machine.to (machine.In_term (machine.LetColon depth word (term_in_of context.value)))) }
{
    to(TermState::LetColon(depth, word, context))
}

fn telescope(alloc: Global, depth: u32, quantifier: Quantifier) -> Telescope
    ensures { telescope_of result ≡ record { depth = depth; quantifier = quantifier_of quantifier; binders = [] } }
{
    Telescope {
        depth,
        quantifier,
        binders: Items::new(alloc),
    }
}

/// The context of a term in parentheses at the front of another.
fn parens(alloc: Global, depth: u32, outer: Box<TermIn>) -> Result<Box<TermIn>, Halt>
    ensures { Makes (λ k. term_in_of k.value) result (machine.Parens depth None (term_in_of outer.value)) }
{
    Ok(Box::new(alloc, TermIn::Parens(depth, None, outer))?)
}

/// Where a term begins.
fn term_start(alloc: Global, depth: u32, context: Box<TermIn>, lexeme: Lexeme) -> Result<Step, Halt>
    ensures { Follows result (machine.term_start depth (term_in_of context.value) lexeme) }
{
    match lexeme {
        Lexeme::Backslash => to(TermState::BinderOpen(
            telescope(alloc, depth, Quantifier::Function),
            context,
        )),
        Lexeme::Let => to(TermState::LetName(depth, context)),
        Lexeme::Open => to(TermState::Opened(depth, context)),
        Lexeme::Type => to(TermState::Level(depth, None, context)),
        Lexeme::Plain(word) | Lexeme::Dotted(word) => {
            behind_atom(alloc, depth, None, Surf::Named(word), context)
        }
        _ => Err(Halt::Stuck),
    }
}

/// After `(` in an application.
fn atom_open(depth: u32, spine: Spine, context: Box<TermIn>) -> Result<Step, Halt>
    ensures { Follows result (machine.atoms depth (spine_of spine) (term_in_of context.value) Lexeme.Open) }
{
    term_inside(depth, TermIn::Parens(depth, Some(spine), context))
}

/// After the `->` of an application.
fn codomain(alloc: Global, depth: u32, spine: Spine, context: Box<TermIn>) -> Result<Step, Halt>
    ensures { Follows result (machine.atoms depth (spine_of spine) (term_in_of context.value) Lexeme.Arrow) }
{
    let front = applied(alloc, spine)?;
    term_inside(depth, TermIn::Codomain(front, context))
}

/// After a whole application.
fn atoms_end(
    alloc: Global,
    spine: Spine,
    context: Box<TermIn>,
    lexeme: Lexeme,
) -> Result<Step, Halt>
    ensures { Follows result (machine.term_end (machine.spine (spine_of spine)) (term_in_of context.value) lexeme) }
{
    let whole = applied(alloc, spine)?;
    term_end(alloc, whole, Box::into_inner(context), lexeme)
}

/// After the atoms of an application.
fn atoms(
    alloc: Global,
    depth: u32,
    spine: Spine,
    context: Box<TermIn>,
    lexeme: Lexeme,
) -> Result<Step, Halt>
    ensures { Follows result (machine.atoms depth (spine_of spine) (term_in_of context.value) lexeme) }
{
    match lexeme {
        Lexeme::Plain(word) | Lexeme::Dotted(word) => {
            behind_atom(alloc, depth, Some(spine), Surf::Named(word), context)
        }
        Lexeme::Type => to(TermState::Level(depth, Some(spine), context)),
        Lexeme::Open => atom_open(depth, spine, context),
        Lexeme::Arrow => codomain(alloc, depth, spine, context),
        other => atoms_end(alloc, spine, context, other),
    }
}

/// After the `:` of a binder.
fn domain(
    telescope: Telescope,
    names: Items<Option<Word>>,
    context: Box<TermIn>,
) -> Result<Step, Halt>
    ensures { Follows result (machine.domain (telescope_of telescope) names (term_in_of context.value)) }
{
    if names.as_slice().is_empty() {
        return Err(Halt::Stuck);
    }
    term_inside(telescope.depth, TermIn::Domain(telescope, names, context))
}

/// On after one name more of a binder.
fn behind_name(
    telescope: Telescope,
    names: Items<Option<Word>>,
    name: Option<Word>,
    context: Box<TermIn>,
) -> Result<Step, Halt>
    ensures { Follows result (machine.to (machine.In_term (machine.BinderNames (telescope_of telescope) (names ++ name ∷ []) (term_in_of context.value)))) }
{
    let names = with_name(names, name)?;
    to(TermState::BinderNames(telescope, names, context))
}

/// After `(` and names of a binder.
fn binder_names(
    telescope: Telescope,
    names: Items<Option<Word>>,
    context: Box<TermIn>,
    lexeme: Lexeme,
) -> Result<Step, Halt>
    ensures { Follows result (machine.binder_names (telescope_of telescope) names (term_in_of context.value) lexeme) }
{
    match lexeme {
        Lexeme::Plain(word) => behind_name(telescope, names, Some(word), context),
        Lexeme::Underscore => behind_name(telescope, names, None, context),
        Lexeme::Colon => domain(telescope, names, context),
        _ => Err(Halt::Stuck),
    }
}

/// After a whole binder.
fn binder_next(
    alloc: Global,
    telescope: Telescope,
    context: Box<TermIn>,
    lexeme: Lexeme,
) -> Result<Step, Halt>
    ensures { Follows result (machine.binder_next (telescope_of telescope) (term_in_of context.value) lexeme) }
{
    match lexeme {
        Lexeme::Open => to(TermState::BinderNames(telescope, Items::new(alloc), context)),
        Lexeme::Arrow => term_inside(telescope.depth, TermIn::Body(telescope, context)),
        _ => Err(Halt::Stuck),
    }
}

/// Where a term in parentheses begins, with so many productions around the parentheses and the term.
fn parens_start(
    alloc: Global,
    depth: u32,
    inner: u32,
    context: Box<TermIn>,
    lexeme: Lexeme,
) -> Result<Step, Halt>
    ensures { Follows result (machine.term_start inner (machine.Parens depth None (term_in_of context.value)) lexeme) }
{
    let context = parens(alloc, depth, context)?;
    term_start(alloc, inner, context, lexeme)
}

/// After the `(` of a term in parentheses.
fn opened_term(
    alloc: Global,
    left: u32,
    depth: u32,
    context: Box<TermIn>,
    lexeme: Lexeme,
) -> Result<Step, Halt>
    ensures { Follows result (machine.may machine.limit (depth + 1) left (machine.term_start (depth + 1) (machine.Parens depth None (term_in_of context.value)) lexeme)) }
{
    let inner = deeper(depth)?;
    may(inner, left).and(parens_start(alloc, depth, inner, context, lexeme))
}

/// After `(` at the front of a term: a binder, or a term in parentheses.
fn opened(
    alloc: Global,
    left: u32,
    depth: u32,
    context: Box<TermIn>,
    lexeme: Lexeme,
) -> Result<Step, Halt>
    ensures { Follows result (machine.opened machine.limit depth left (term_in_of context.value) lexeme) }
{
    match lexeme {
        Lexeme::Plain(word) => to(TermState::Names(depth, left, word, Items::new(alloc), context)),
        Lexeme::Underscore => {
            let telescope = telescope(alloc, depth, Quantifier::Product);
            behind_name(telescope, Items::new(alloc), None, context)
        }
        other => opened_term(alloc, left, depth, context, other),
    }
}

/// After `(`, plain names and `_`, which begin a binder.
fn names_blank(
    alloc: Global,
    depth: u32,
    first: Word,
    more: Items<Word>,
    context: Box<TermIn>,
) -> Result<Step, Halt>
    ensures { Follows result (machine.names machine.limit depth 0 first more (term_in_of context.value) Lexeme.Underscore) }
{
    let names = some_names(alloc, first, more)?;
    behind_name(
        telescope(alloc, depth, Quantifier::Product),
        names,
        None,
        context,
    )
}

/// After `(`, plain names and `:`, which begin a binder.
fn names_colon(
    alloc: Global,
    depth: u32,
    first: Word,
    more: Items<Word>,
    context: Box<TermIn>,
) -> Result<Step, Halt>
    ensures { Follows result (machine.names machine.limit depth 0 first more (term_in_of context.value) Lexeme.Colon) }
{
    let names = some_names(alloc, first, more)?;
    let telescope = telescope(alloc, depth, Quantifier::Product);
    term_inside(depth, TermIn::Domain(telescope, names, context))
}

/// After names in parentheses, with so many productions around the parentheses and the names.
fn parens_atoms(
    alloc: Global,
    depth: u32,
    inner: u32,
    spine: Spine,
    context: Box<TermIn>,
    lexeme: Lexeme,
) -> Result<Step, Halt>
    ensures { Follows result (machine.atoms inner (spine_of spine) (machine.Parens depth None (term_in_of context.value)) lexeme) }
{
    let context = parens(alloc, depth, context)?;
    atoms(alloc, inner, spine, context, lexeme)
}

/// After `(` and plain names that begin a term, the first of which was where `at` lexemes were left.
fn names_inside(
    alloc: Global,
    depth: u32,
    at: u32,
    spine: Spine,
    context: Box<TermIn>,
    lexeme: Lexeme,
) -> Result<Step, Halt>
    ensures { Follows result (machine.may machine.limit (depth + 1) at (machine.atoms (depth + 1) (spine_of spine) (machine.Parens depth None (term_in_of context.value)) lexeme)) }
{
    let inner = deeper(depth)?;
    may(inner, at).and(parens_atoms(alloc, depth, inner, spine, context, lexeme))
}

/// After `(`, plain names and one name more.
fn names_word(
    depth: u32,
    at: u32,
    first: Word,
    more: Items<Word>,
    word: Word,
    context: Box<TermIn>,
) -> Result<Step, Halt>
    ensures { Follows result (machine.names machine.limit depth at first more (term_in_of context.value) (Lexeme.Plain word)) }
{
    let more = with_word(more, word)?;
    to(TermState::Names(depth, at, first, more, context))
}

/// After `(` and plain names that begin a term, and what follows them.
fn names_term(
    alloc: Global,
    depth: u32,
    at: u32,
    first: Word,
    more: Items<Word>,
    context: Box<TermIn>,
    lexeme: Lexeme,
) -> Result<Step, Halt>
    ensures { Follows result (machine.may machine.limit (depth + 1) at (machine.atoms (depth + 1) (machine.named first more) (machine.Parens depth None (term_in_of context.value)) lexeme)) }
{
    let spine = named(alloc, first, more)?;
    names_inside(alloc, depth, at, spine, context, lexeme)
}

/// After `(` and plain names, the first of which was where `at` lexemes were left.
fn names(
    alloc: Global,
    depth: u32,
    at: u32,
    first: Word,
    more: Items<Word>,
    context: Box<TermIn>,
    lexeme: Lexeme,
) -> Result<Step, Halt>
    ensures { Follows result (machine.names machine.limit depth at first more (term_in_of context.value) lexeme) }
{
    match lexeme {
        Lexeme::Plain(word) => names_word(depth, at, first, more, word, context),
        Lexeme::Underscore => names_blank(alloc, depth, first, more, context),
        Lexeme::Colon => names_colon(alloc, depth, first, more, context),
        other => names_term(alloc, depth, at, first, more, context, other),
    }
}

/// Where a term is due.
fn due(alloc: Global, left: u32, depth: u32, context: TermIn, lexeme: Lexeme) -> Result<Step, Halt>
    ensures { Follows result (machine.term_step machine.limit left (machine.Term depth (term_in_of context)) lexeme) }
{
    let context = Box::new(alloc, context)?;
    may(depth, left).and(term_start(alloc, depth, context, lexeme))
}

/// After `let`.
fn let_name(depth: u32, context: Box<TermIn>, lexeme: Lexeme) -> Result<Step, Halt>
    ensures { Follows result (machine.term_step machine.limit 0 (machine.LetName depth (term_in_of context.value)) lexeme) }
{
    match lexeme {
        Lexeme::Plain(word) => behind_let(depth, word, context),
        _ => Err(Halt::Stuck),
    }
}

/// After `let` and a name.
fn let_colon(depth: u32, word: Word, context: Box<TermIn>, lexeme: Lexeme) -> Result<Step, Halt>
    ensures { Follows result (machine.term_step machine.limit 0 (machine.LetColon depth word (term_in_of context.value)) lexeme) }
{
    colon(lexeme).and(term_inside(depth, TermIn::LetType(depth, word, context)))
}

/// The states in a term, where `left` lexemes are left, the one that is read among them.
pub(crate) fn term_step(
    alloc: Global,
    left: u32,
    state: TermState,
    lexeme: Lexeme,
) -> Result<Step, Halt>
    ensures { Follows result (machine.term_step machine.limit left (term_state_of state) lexeme) }
{
    match state {
        TermState::Term(depth, context) => due(alloc, left, depth, context, lexeme),
        TermState::Level(depth, spine, context) => level(alloc, depth, spine, context, lexeme),
        TermState::Opened(depth, context) => opened(alloc, left, depth, context, lexeme),
        TermState::Names(depth, at, first, more, context) => {
            names(alloc, depth, at, first, more, context, lexeme)
        }
        TermState::BinderOpen(telescope, context) => {
            binder_open(alloc, telescope, context, lexeme)
        }
        TermState::BinderNames(telescope, names, context) => {
            binder_names(telescope, names, context, lexeme)
        }
        TermState::BinderNext(telescope, context) => {
            binder_next(alloc, telescope, context, lexeme)
        }
        TermState::LetName(depth, context) => let_name(depth, context, lexeme),
        TermState::LetColon(depth, word, context) => let_colon(depth, word, context, lexeme),
        TermState::Atoms(depth, spine, context) => atoms(alloc, depth, spine, context, lexeme),
    }
}
