ghost use Rattle.std.specs.Prelude.{◌+◌, ◌++◌, [], ◌∷◌, map, option_map};
ghost use Rattle.surface_syntax.specs.Machine as machine;
ghost use Rattle.surface_syntax.specs.Steps.{Follows};
ghost use Rattle.surface_syntax.specs.TreeMeanings.{surf_of, pat_of, param_of};
ghost use Rattle.surface_syntax.specs.StateMeanings.{spine_of, telescope_of, clauses_in_of, pats_in_of, term_in_of};

use crate::building::{deeper, plus, with_binder, with_param, with_pat};
use crate::context::{ClausesIn, PatsIn, Spine, Telescope, TermIn};
use crate::halt::Halt;
use crate::state::{ClauseState, DataState, State, Step, TermState};
use crate::{Surf, SurfParam, SurfPat, Word};
use core_terms::Items;
use std::alloc::Global;

/// On to a term inside one production more.
pub(crate) fn term_inside(depth: u32, context: TermIn) -> Result<Step, Halt>
    ensures { Follows result (machine.to (machine.term (depth + 1) (term_in_of context))) }
{
    let inner = deeper(depth)?;
    Ok(Step::to(State::term(inner, context)))
}

/// On after a whole parameter.
pub(crate) fn behind_param(
    t: Surf,
    name: Word,
    params: Items<SurfParam>,
    param: Word,
) -> Result<Step, Halt>
    ensures { Follows result (machine.to (machine.In_data (machine.Params name (map param_of params ++ record { name = param; ty = surf_of t } ∷ [])))) }
{
    let params = with_param(params, param, t)?;
    Ok(Step::to(State::InData(DataState::Params(name, params))))
}

/// On after one atom more of an application.
pub(crate) fn behind_atom(
    alloc: Global,
    depth: u32,
    spine: Option<Spine>,
    t: Surf,
    context: Box<TermIn>,
) -> Result<Step, Halt>
    ensures { Follows result (machine.to (machine.In_term (machine.Atoms depth (machine.plus (option_map spine_of spine) (surf_of t)) (term_in_of context.value)))) }
{
    let spine = plus(alloc, spine, t)?;
    Ok(Step::to(State::InTerm(TermState::Atoms(depth, spine, context))))
}

/// On after a whole binder.
pub(crate) fn behind_binder(
    t: Surf,
    telescope: Telescope,
    names: Items<Option<Word>>,
    outer: Box<TermIn>,
) -> Result<Step, Halt>
    ensures { Follows result (machine.to (machine.In_term (machine.BinderNext (machine.with_binder (telescope_of telescope) names (surf_of t)) (term_in_of outer.value)))) }
{
    let telescope = with_binder(telescope, names, t)?;
    Ok(Step::to(State::InTerm(TermState::BinderNext(telescope, outer))))
}

/// On after a whole pattern.
pub(crate) fn behind_pat(
    depth: u32,
    void: bool,
    pat: SurfPat,
    context: Box<PatsIn>,
) -> Result<Step, Halt>
    ensures { Follows result (machine.to (machine.In_clause (machine.Pats depth void (machine.with_pat (pat_of pat) (pats_in_of context.value))))) }
{
    let context = with_pat(pat, context)?;
    Ok(Step::to(State::InClause(ClauseState::Pats(depth, void, context))))
}

/// On to where a first clause may begin.
pub(crate) fn first_clause(alloc: Global, depth: u32, context: ClausesIn) -> Result<Step, Halt>
    ensures { Follows result (machine.to (machine.In_clause (machine.FirstClause depth (clauses_in_of context)))) }
{
    let context = Box::new(alloc, context)?;
    Ok(Step::to(State::InClause(ClauseState::FirstClause(depth, context))))
}

/// On to clauses inside one production more.
pub(crate) fn clauses_inside(alloc: Global, depth: u32, context: ClausesIn) -> Result<Step, Halt>
    ensures { Follows result (machine.to (machine.In_clause (machine.FirstClause (depth + 1) (clauses_in_of context)))) }
{
    let inner = deeper(depth)?;
    first_clause(alloc, inner, context)
}
