ghost use Rattle.std.specs.Prelude.{◌+◌};
ghost use Rattle.surface_syntax.specs.Machine as machine;
ghost use Rattle.surface_syntax.specs.Steps.{Follows};
ghost use Rattle.surface_syntax.specs.TreeMeanings.{pat_of};
ghost use Rattle.surface_syntax.specs.StateMeanings.{headed_of, clauses_in_of, pats_in_of, clause_state_of};

use crate::awaiting::dot_level;
use crate::building::{behind, clause, deeper, may};
use crate::closing::{clause_end, closed};
use crate::context::{ClausesIn, Headed, PatsIn, TermIn};
use crate::halt::Halt;
use crate::onward::{behind_pat, term_inside};
use crate::state::{ClauseState, State, Step};
use crate::{Lexeme, Surf, SurfPat, SurfRight, Word};
use std::alloc::Global;

fn to(state: ClauseState) -> Result<Step, Halt>
    ensures { Follows result (machine.to (machine.In_clause (clause_state_of state))) }
{
    Ok(Step::to(State::InClause(state)))
}

/// On to the patterns inside a constructor pattern or a clause.
fn pats_inside(alloc: Global, depth: u32, void: bool, context: PatsIn) -> Result<Step, Halt>
    ensures { Follows result (machine.to (machine.In_clause (machine.Pats (depth + 1) void (pats_in_of context)))) }
{
    let context = Box::new(alloc, context)?;
    let inner = deeper(depth)?;
    to(ClauseState::Pats(inner, void, context))
}

/// After `( )`, which occurs once at most in the patterns of a clause.
fn pat_void(depth: u32, void: bool, context: Box<PatsIn>) -> Result<Step, Halt>
    ensures { Follows result (machine.pat_open depth void (pats_in_of context.value) Lexeme.Close) }
{
    if void {
        return Err(Halt::Stuck);
    }
    behind_pat(depth, true, SurfPat::Absurd, context)
}

/// After `(` in a pattern.
fn pat_open(
    alloc: Global,
    depth: u32,
    void: bool,
    context: Box<PatsIn>,
    lexeme: Lexeme,
) -> Result<Step, Halt>
    ensures { Follows result (machine.pat_open depth void (pats_in_of context.value) lexeme) }
{
    match lexeme {
        Lexeme::Plain(con) | Lexeme::Dotted(con) => {
            let context = PatsIn::Inside(behind(alloc, depth, con), context);
            pats_inside(alloc, depth, void, context)
        }
        Lexeme::Close => pat_void(depth, void, context),
        _ => Err(Halt::Stuck),
    }
}

/// After the dot of a pattern.
fn dot_atom(depth: u32, void: bool, context: Box<PatsIn>, lexeme: Lexeme) -> Result<Step, Halt>
    ensures { Follows result (machine.dot_atom depth void (pats_in_of context.value) lexeme) }
{
    match lexeme {
        Lexeme::Plain(word) | Lexeme::Dotted(word) => {
            behind_pat(depth, void, SurfPat::Dot(Surf::Named(word)), context)
        }
        Lexeme::Type => to(ClauseState::DotLevel(depth, void, context)),
        Lexeme::Open => term_inside(depth, TermIn::Dot(depth, void, context)),
        _ => Err(Halt::Stuck),
    }
}

/// Where the patterns of a constructor pattern end.
fn con_right(void: bool, headed: Headed, outer: Box<PatsIn>, lexeme: Lexeme) -> Result<Step, Halt>
    ensures { Follows result (machine.con_right void (headed_of headed) (pats_in_of outer.value) lexeme) }
{
    match lexeme {
        Lexeme::Close => {
            let Headed { depth, head, pats } = headed;
            behind_pat(depth, void, SurfPat::Con(head, pats), outer)
        }
        _ => Err(Halt::Stuck),
    }
}

/// Where the patterns of a clause without `( )` end.
fn clause_right(
    depth: u32,
    headed: Headed,
    outer: Box<ClausesIn>,
    lexeme: Lexeme,
) -> Result<Step, Halt>
    ensures { Follows result (machine.clause_right depth (headed_of headed) (clauses_in_of outer.value) lexeme) }
{
    match lexeme {
        Lexeme::Equals => Ok(Step::to(State::term(depth, TermIn::Side(headed, outer)))),
        Lexeme::With => Ok(Step::to(State::term(depth, TermIn::Scrutinee(headed, outer)))),
        _ => Err(Halt::Stuck),
    }
}

/// Where the patterns of a clause end.
fn behind_end(
    depth: u32,
    void: bool,
    headed: Headed,
    outer: Box<ClausesIn>,
    lexeme: Lexeme,
) -> Result<Step, Halt>
    ensures { Follows result (machine.pats_end depth void (machine.Behind (headed_of headed) (clauses_in_of outer.value)) lexeme) }
{
    if void {
        let depth = headed.depth;
        clause_end(depth, clause(headed, SurfRight::Absurd), outer, lexeme)
    } else {
        clause_right(depth, headed, outer, lexeme)
    }
}

/// Where patterns end.
fn pats_end(depth: u32, void: bool, context: Box<PatsIn>, lexeme: Lexeme) -> Result<Step, Halt>
    ensures { Follows result (machine.pats_end depth void (pats_in_of context.value) lexeme) }
{
    match Box::into_inner(context) {
        PatsIn::Inside(headed, outer) => con_right(void, headed, outer, lexeme),
        PatsIn::Behind(headed, outer) => behind_end(depth, void, headed, outer, lexeme),
    }
}

/// Where a name is a pattern.
fn pat_name(
    left: u32,
    depth: u32,
    void: bool,
    context: Box<PatsIn>,
    word: Word,
) -> Result<Step, Halt>
    ensures { Follows result (machine.pats machine.limit depth left void (pats_in_of context.value) (Lexeme.Plain word)) }
{
    may(depth, left).and(behind_pat(depth, void, SurfPat::Named(word), context))
}

/// Where `_` is a pattern.
fn pat_wild(left: u32, depth: u32, void: bool, context: Box<PatsIn>) -> Result<Step, Halt>
    ensures { Follows result (machine.pats machine.limit depth left void (pats_in_of context.value) Lexeme.Underscore) }
{
    may(depth, left).and(behind_pat(depth, void, SurfPat::Wild, context))
}

/// Where a pattern begins with a dot.
fn pat_dot(left: u32, depth: u32, void: bool, context: Box<PatsIn>) -> Result<Step, Halt>
    ensures { Follows result (machine.pats machine.limit depth left void (pats_in_of context.value) Lexeme.Dot) }
{
    may(depth, left).and(to(ClauseState::DotAtom(depth, void, context)))
}

/// Where a pattern begins with `(`.
fn pat_group(left: u32, depth: u32, void: bool, context: Box<PatsIn>) -> Result<Step, Halt>
    ensures { Follows result (machine.pats machine.limit depth left void (pats_in_of context.value) Lexeme.Open) }
{
    may(depth, left).and(to(ClauseState::PatOpen(depth, void, context)))
}

/// Where patterns are.
fn pats(
    left: u32,
    depth: u32,
    void: bool,
    context: Box<PatsIn>,
    lexeme: Lexeme,
) -> Result<Step, Halt>
    ensures { Follows result (machine.pats machine.limit depth left void (pats_in_of context.value) lexeme) }
{
    match lexeme {
        Lexeme::Plain(word) | Lexeme::Dotted(word) => pat_name(left, depth, void, context, word),
        Lexeme::Underscore => pat_wild(left, depth, void, context),
        Lexeme::Dot => pat_dot(left, depth, void, context),
        Lexeme::Open => pat_group(left, depth, void, context),
        other => pats_end(depth, void, context, other),
    }
}

/// Where a clause may begin.
fn clause_name(
    alloc: Global,
    left: u32,
    depth: u32,
    context: Box<ClausesIn>,
    lexeme: Lexeme,
) -> Result<Step, Halt>
    ensures { Follows result (machine.clause_name machine.limit depth left (clauses_in_of context.value) lexeme) }
{
    match lexeme {
        Lexeme::Plain(head) => {
            let context = PatsIn::Behind(behind(alloc, depth, head), context);
            may(depth, left).and(pats_inside(alloc, depth, false, context))
        }
        _ => Err(Halt::Stuck),
    }
}

fn first_clause(
    alloc: Global,
    left: u32,
    depth: u32,
    context: Box<ClausesIn>,
    lexeme: Lexeme,
) -> Result<Step, Halt>
    ensures { Follows result (machine.clause_step machine.limit left (machine.FirstClause depth (clauses_in_of context.value)) lexeme) }
{
    match lexeme {
        Lexeme::CloseBrace => Ok(closed(context)),
        other => clause_name(alloc, left, depth, context, other),
    }
}

/// The states among clauses, where `left` lexemes are left, the one that is read among them.
pub(crate) fn clause_step(
    alloc: Global,
    left: u32,
    state: ClauseState,
    lexeme: Lexeme,
) -> Result<Step, Halt>
    ensures { Follows result (machine.clause_step machine.limit left (clause_state_of state) lexeme) }
{
    match state {
        ClauseState::Pats(depth, void, context) => pats(left, depth, void, context, lexeme),
        ClauseState::PatOpen(depth, void, context) => pat_open(alloc, depth, void, context, lexeme),
        ClauseState::DotAtom(depth, void, context) => dot_atom(depth, void, context, lexeme),
        ClauseState::DotLevel(depth, void, context) => dot_level(depth, void, context, lexeme),
        ClauseState::FirstClause(depth, context) => {
            first_clause(alloc, left, depth, context, lexeme)
        }
        ClauseState::ClauseName(depth, context) => {
            clause_name(alloc, left, depth, context, lexeme)
        }
        ClauseState::ClauseEnd(depth, clause, context) => {
            clause_end(depth, clause, context, lexeme)
        }
    }
}
