ghost use Rattle.std.specs.Prelude.{◌++◌, [], ◌∷◌, map, option_map, Ok};
ghost use Rattle.surface_syntax.specs.Machine as machine;
ghost use Rattle.surface_syntax.specs.Steps.{Follows};
ghost use Rattle.surface_syntax.specs.TreeMeanings.{surf_of, clause_of, param_of, member_of};
ghost use Rattle.surface_syntax.specs.StateMeanings.{spine_of, telescope_of, families_of, headed_of, clauses_in_of, pats_in_of, part_of, term_in_of};

use crate::building::{clause, with_clause, with_con, with_member};
use crate::context::{ClausesIn, Families, Headed, Part, PatsIn, Spine, Telescope, TermIn};
use crate::declarations::start;
use crate::due::{close, equals, inside, open_brace};
use crate::halt::Halt;
use crate::onward::{
    behind_atom, behind_binder, behind_param, behind_pat, clauses_inside, first_clause, term_inside,
};
use crate::state::{ClauseState, DataState, MutualState, State, Step};
use crate::{Decl, Lexeme, Surf, SurfClause, SurfMember, SurfParam, SurfPat, SurfRight, Word};
use core_terms::Items;
use std::alloc::Global;

/// After the `}` that ends clauses.
pub(crate) fn closed(context: Box<ClausesIn>) -> Step
    ensures { Follows (Ok result) (machine.closed (clauses_in_of context.value)) }
{
    match Box::into_inner(context) {
        ClausesIn::Fun(name, ty, clauses) => {
            Step::Goes(Some(Decl::Fun { name, ty, clauses }), State::Start)
        }
        ClausesIn::Inspect(headed, scrutinee, clauses, outer) => {
            let depth = headed.depth;
            let whole = clause(headed, SurfRight::With(scrutinee, clauses));
            Step::to(State::InClause(ClauseState::ClauseEnd(depth, whole, outer)))
        }
    }
}

/// After a clause and `;`.
fn next_clause(depth: u32, clause: SurfClause, context: Box<ClausesIn>) -> Result<Step, Halt>
    ensures { Follows result (machine.to (machine.In_clause (machine.ClauseName depth (machine.with_clause (clause_of clause) (clauses_in_of context.value))))) }
{
    let context = with_clause(clause, context)?;
    Ok(Step::to(State::InClause(ClauseState::ClauseName(depth, context))))
}

/// After a clause and `}`.
fn last_clause(clause: SurfClause, context: Box<ClausesIn>) -> Result<Step, Halt>
    ensures { Follows result (machine.closed (machine.with_clause (clause_of clause) (clauses_in_of context.value))) }
{
    Ok(closed(with_clause(clause, context)?))
}

/// After a whole clause.
pub(crate) fn clause_end(
    depth: u32,
    clause: SurfClause,
    context: Box<ClausesIn>,
    lexeme: Lexeme,
) -> Result<Step, Halt>
    ensures { Follows result (machine.clause_end depth (clause_of clause) (clauses_in_of context.value) lexeme) }
{
    match lexeme {
        Lexeme::Semicolon => next_clause(depth, clause, context),
        Lexeme::CloseBrace => last_clause(clause, context),
        _ => Err(Halt::Stuck),
    }
}

/// After the `}` that ends the constructors of a family after others.
fn next_member_end(families: Families, member: SurfMember) -> Result<Step, Halt>
    ensures { Follows result (machine.to (machine.In_mutual (machine.MembersEnd (record { params = map param_of families.params; members = map member_of families.members ++ member_of member ∷ [] })))) }
{
    let families = with_member(families, member)?;
    Ok(Step::to(State::InMutual(MutualState::MembersEnd(families))))
}

/// After the `}` that ends constructors.
pub(crate) fn member_end(families: Families, member: SurfMember) -> Result<Step, Halt>
    ensures { Follows result (machine.member_end (map param_of families.params) (map member_of families.members) (member_of member)) }
{
    if families.members.as_slice().is_empty() {
        Ok(Step::to(State::InData(DataState::FamilyEnd(families.params, member))))
    } else {
        next_member_end(families, member)
    }
}

/// After the type of a constructor.
fn con_end(families: Families, member: SurfMember, lexeme: Lexeme) -> Result<Step, Halt>
    ensures { Follows result (machine.con_end (families_of families) (member_of member) lexeme) }
{
    match lexeme {
        Lexeme::Semicolon => Ok(Step::to(State::InData(DataState::ConName(families, member)))),
        Lexeme::CloseBrace => member_end(families, member),
        _ => Err(Halt::Stuck),
    }
}

/// After the type of a parameter.
fn param_end(
    t: Surf,
    name: Word,
    params: Items<SurfParam>,
    param: Word,
    lexeme: Lexeme,
) -> Result<Step, Halt>
    ensures { Follows result (machine.part_end (surf_of t) (machine.ParamType name (map param_of params) param) lexeme) }
{
    close(lexeme).and(behind_param(t, name, params, param))
}

/// After the type of a family.
fn member_type_end(
    alloc: Global,
    t: Surf,
    families: Families,
    name: Word,
    lexeme: Lexeme,
) -> Result<Step, Halt>
    ensures { Follows result (machine.part_end (surf_of t) (machine.MemberType (families_of families) name) lexeme) }
{
    let member = SurfMember {
        name,
        ty: t,
        cons: Items::new(alloc),
    };
    open_brace(lexeme).and(Ok(Step::to(State::InData(DataState::FirstCon(families, member)))))
}

/// After the type of a function by clauses.
fn fun_type_end(alloc: Global, t: Surf, name: Word, lexeme: Lexeme) -> Result<Step, Halt>
    ensures { Follows result (machine.part_end (surf_of t) (machine.FunType name) lexeme) }
{
    open_brace(lexeme).and(first_clause(alloc, 0, ClausesIn::Fun(name, t, Items::new(alloc))))
}

/// After the type of a definition.
fn def_type_end(t: Surf, name: Word, lexeme: Lexeme) -> Result<Step, Halt>
    ensures { Follows result (machine.part_end (surf_of t) (machine.DefType name) lexeme) }
{
    equals(lexeme).and(Ok(Step::to(State::part(Part::DefBody(name, t)))))
}

/// After the type of a constructor, which is not yet among those of its family.
fn con_type_end(
    t: Surf,
    families: Families,
    member: SurfMember,
    con: Word,
    lexeme: Lexeme,
) -> Result<Step, Halt>
    ensures { Follows result (machine.part_end (surf_of t) (machine.ConType (families_of families) (member_of member) con) lexeme) }
{
    let member = with_con(member, con, t)?;
    con_end(families, member, lexeme)
}

/// After a term that is a part of a declaration.
pub(crate) fn part_end(alloc: Global, t: Surf, part: Part, lexeme: Lexeme) -> Result<Step, Halt>
    ensures { Follows result (machine.part_end (surf_of t) (part_of part) lexeme) }
{
    match part {
        Part::DefType(name) => def_type_end(t, name, lexeme),
        Part::DefBody(name, ty) => start(Some(Decl::Def { name, ty, body: t }), lexeme),
        Part::ParamType(name, params, param) => param_end(t, name, params, param, lexeme),
        Part::MemberType(families, name) => member_type_end(alloc, t, families, name, lexeme),
        Part::ConType(families, member, con) => con_type_end(t, families, member, con, lexeme),
        Part::FunType(name) => fun_type_end(alloc, t, name, lexeme),
    }
}

/// After a term in parentheses.
pub(crate) fn parens_end(
    alloc: Global,
    t: Surf,
    depth: u32,
    spine: Option<Spine>,
    outer: Box<TermIn>,
    lexeme: Lexeme,
) -> Result<Step, Halt>
    ensures { Follows result (machine.term_end (surf_of t) (machine.Parens depth (option_map spine_of spine) (term_in_of outer.value)) lexeme) }
{
    close(lexeme).and(behind_atom(alloc, depth, spine, t, outer))
}

/// After the type of a binder.
pub(crate) fn domain_end(
    t: Surf,
    telescope: Telescope,
    names: Items<Option<Word>>,
    outer: Box<TermIn>,
    lexeme: Lexeme,
) -> Result<Step, Halt>
    ensures { Follows result (machine.term_end (surf_of t) (machine.Domain (telescope_of telescope) names (term_in_of outer.value)) lexeme) }
{
    close(lexeme).and(behind_binder(t, telescope, names, outer))
}

/// After the type of a local definition.
pub(crate) fn let_type_end(
    t: Surf,
    depth: u32,
    name: Word,
    outer: Box<TermIn>,
    lexeme: Lexeme,
) -> Result<Step, Halt>
    ensures { Follows result (machine.term_end (surf_of t) (machine.LetType depth name (term_in_of outer.value)) lexeme) }
{
    equals(lexeme).and(term_inside(depth, TermIn::LetValue(depth, name, t, outer)))
}

/// After the value of a local definition.
pub(crate) fn let_value_end(
    t: Surf,
    depth: u32,
    name: Word,
    ty: Surf,
    outer: Box<TermIn>,
    lexeme: Lexeme,
) -> Result<Step, Halt>
    ensures { Follows result (machine.term_end (surf_of t) (machine.LetValue depth name (surf_of ty) (term_in_of outer.value)) lexeme) }
{
    inside(lexeme).and(term_inside(depth, TermIn::LetBody(name, ty, t, outer)))
}

/// After a term in parentheses after the dot of a pattern.
pub(crate) fn dot_end(
    t: Surf,
    depth: u32,
    void: bool,
    outer: Box<PatsIn>,
    lexeme: Lexeme,
) -> Result<Step, Halt>
    ensures { Follows result (machine.term_end (surf_of t) (machine.Dot depth void (pats_in_of outer.value)) lexeme) }
{
    close(lexeme).and(behind_pat(depth, void, SurfPat::Dot(t), outer))
}

/// After the scrutinee of a `with`.
pub(crate) fn scrutinee_end(
    alloc: Global,
    t: Surf,
    headed: Headed,
    outer: Box<ClausesIn>,
    lexeme: Lexeme,
) -> Result<Step, Halt>
    ensures { Follows result (machine.term_end (surf_of t) (machine.Scrutinee (headed_of headed) (clauses_in_of outer.value)) lexeme) }
{
    let depth = headed.depth;
    let context = ClausesIn::Inspect(headed, t, Items::new(alloc), outer);
    open_brace(lexeme).and(clauses_inside(alloc, depth, context))
}

/// After the right side of a clause.
pub(crate) fn side_end(
    t: Surf,
    headed: Headed,
    outer: Box<ClausesIn>,
    lexeme: Lexeme,
) -> Result<Step, Halt>
    ensures { Follows result (machine.term_end (surf_of t) (machine.Side (headed_of headed) (clauses_in_of outer.value)) lexeme) }
{
    let depth = headed.depth;
    clause_end(depth, clause(headed, SurfRight::Side(t)), outer, lexeme)
}
