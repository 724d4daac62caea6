ghost use Rattle.std.specs.Prelude.{◌≡◌, ◌+◌, ◌++◌, [], ◌∷◌, map, option_map, nat_lt, if◌then◌else◌, Ok, Err};
ghost use Rattle.surface_syntax.specs.Trees as tree;
ghost use Rattle.surface_syntax.specs.Machine as machine;
ghost use Rattle.surface_syntax.specs.Steps.{Makes};
ghost use Rattle.surface_syntax.specs.TreeMeanings.{surf_of, binder_of, pat_of, right_of, clause_of, param_of, member_of};
ghost use Rattle.surface_syntax.specs.StateMeanings.{quantifier_of, spine_of, families_of, telescope_of, headed_of, clauses_in_of, pats_in_of};

use crate::context::{ClausesIn, Families, Headed, PatsIn, Quantifier, Spine, Telescope};
use crate::halt::Halt;
use crate::{Binder, Surf, SurfClause, SurfCon, SurfMember, SurfParam, SurfPat, SurfRight, Word};
use core_terms::Items;
use std::alloc::Global;

/// The greatest number of productions inside which another may begin is below this.
const MAX_NESTING: u32 = 2000;

/// Goes on where another term, pattern or clause may begin inside `depth` others, where `left` lexemes are left.
pub(crate) fn may(depth: u32, left: u32) -> Result<(), Halt>
    ensures { result ≡ (if nat_lt depth 2000 then Ok tt else Err (Halt.Over left)) }
{
    if depth < MAX_NESTING {
        Ok(())
    } else {
        Err(Halt::Over(left))
    }
}

/// The depth inside one production more.
pub(crate) fn deeper(depth: u32) -> Result<u32, Halt>
    ensures { Makes (λ n. n) result (depth + 1) }
{
    if depth == u32::MAX {
        return Err(Halt::Memory);
    }
    Ok(depth + 1)
}

pub(crate) fn quantified(
    alloc: Global,
    quantifier: Quantifier,
    binders: Items<Binder>,
    body: Surf,
) -> Result<Surf, Halt>
    ensures { Makes surf_of result (machine.quantified (quantifier_of quantifier) (map binder_of binders) (surf_of body)) }
{
    let body = Box::new(alloc, body)?;
    Ok(match quantifier {
        Quantifier::Function => Surf::Lam(binders, body),
        Quantifier::Product => Surf::Pi(binders, body),
    })
}

/// The application with one argument more, or a head.
pub(crate) fn plus(alloc: Global, spine: Option<Spine>, t: Surf) -> Result<Spine, Halt>
    ensures { Makes spine_of result (machine.plus (option_map spine_of spine) (surf_of t)) }
{
    match spine {
        None => Ok(Spine {
            head: t,
            args: Items::new(alloc),
        }),
        Some(Spine { head, mut args }) => {
            args.push(t)?;
            Ok(Spine { head, args })
        }
    }
}

fn application(alloc: Global, head: Surf, args: Items<Surf>) -> Result<Surf, Halt>
    ensures { Makes surf_of result (tree.App (surf_of head) (tree.surfs (map surf_of args))) }
{
    Ok(Surf::App(Box::new(alloc, head)?, args))
}

/// The application itself.
pub(crate) fn applied(alloc: Global, spine: Spine) -> Result<Surf, Halt>
    ensures { Makes surf_of result (machine.spine (spine_of spine)) }
{
    let Spine { head, args } = spine;
    if args.as_slice().is_empty() {
        return Ok(head);
    }
    application(alloc, head, args)
}

pub(crate) fn arrow(alloc: Global, domain: Surf, codomain: Surf) -> Result<Surf, Halt>
    ensures { Makes surf_of result (tree.Arrow (surf_of domain) (surf_of codomain)) }
{
    Ok(Surf::Arrow(Box::new(alloc, domain)?, Box::new(alloc, codomain)?))
}

pub(crate) fn local(
    alloc: Global,
    name: Word,
    ty: Surf,
    value: Surf,
    body: Surf,
) -> Result<Surf, Halt>
    ensures { Makes surf_of result (tree.Let name (surf_of ty) (surf_of value) (surf_of body)) }
{
    Ok(Surf::Let(
        name,
        Box::new(alloc, ty)?,
        Box::new(alloc, value)?,
        Box::new(alloc, body)?,
    ))
}

pub(crate) fn with_param(
    mut params: Items<SurfParam>,
    name: Word,
    ty: Surf,
) -> Result<Items<SurfParam>, Halt>
    ensures { Makes (map param_of) result (map param_of params ++ record { name = name; ty = surf_of ty } ∷ []) }
{
    params.push(SurfParam { name, ty })?;
    Ok(params)
}

fn add_con(member: &mut SurfMember, name: Word, ty: Surf) -> Result<(), Halt>
    ensures { Makes (λ _. member_of member.new) result (machine.with_con (member_of member.old) name (surf_of ty)) }
{
    member.cons.push(SurfCon { name, ty })?;
    Ok(())
}

pub(crate) fn with_con(mut member: SurfMember, name: Word, ty: Surf) -> Result<SurfMember, Halt>
    ensures { Makes member_of result (machine.with_con (member_of member) name (surf_of ty)) }
{
    add_con(&mut member, name, ty)?;
    Ok(member)
}

pub(crate) fn with_member(mut families: Families, member: SurfMember) -> Result<Families, Halt>
    ensures { Makes families_of result (record { params = map param_of families.params; members = map member_of families.members ++ member_of member ∷ [] }) }
{
    families.members.push(member)?;
    Ok(families)
}

/// The names of a binder with one more, where `None` stands for `_`.
pub(crate) fn with_name(
    mut names: Items<Option<Word>>,
    name: Option<Word>,
) -> Result<Items<Option<Word>>, Halt>
    ensures { Makes (λ ns. ns) result (names ++ name ∷ []) }
{
    names.push(name)?;
    Ok(names)
}

pub(crate) fn with_word(mut words: Items<Word>, word: Word) -> Result<Items<Word>, Halt>
    ensures { Makes (λ ws. ws) result (words ++ word ∷ []) }
{
    words.push(word)?;
    Ok(words)
}

pub(crate) fn with_binder(
    mut telescope: Telescope,
    names: Items<Option<Word>>,
    ty: Surf,
) -> Result<Telescope, Halt>
    ensures { Makes telescope_of result (machine.with_binder (telescope_of telescope) names (surf_of ty)) }
{
    telescope.binders.push(Binder { names, ty })?;
    Ok(telescope)
}

/// A head that no pattern follows yet.
pub(crate) fn behind(alloc: Global, depth: u32, head: Word) -> Headed
    ensures { headed_of result ≡ machine.behind depth head }
{
    Headed {
        depth,
        head,
        pats: Items::new(alloc),
    }
}

fn add_pat(context: &mut PatsIn, pat: SurfPat) -> Result<(), Halt>
    ensures { Makes (λ _. pats_in_of context.new) result (machine.with_pat (pat_of pat) (pats_in_of context.old)) }
{
    match context {
        PatsIn::Behind(headed, _) => headed.pats.push(pat)?,
        PatsIn::Inside(headed, _) => headed.pats.push(pat)?,
    }
    Ok(())
}

pub(crate) fn with_pat(pat: SurfPat, mut context: Box<PatsIn>) -> Result<Box<PatsIn>, Halt>
    ensures { Makes (λ k. pats_in_of k.value) result (machine.with_pat (pat_of pat) (pats_in_of context.value)) }
{
    add_pat(&mut context, pat)?;
    Ok(context)
}

/// The clause with this right side.
pub(crate) fn clause(headed: Headed, right: SurfRight) -> SurfClause
    ensures { clause_of result ≡ machine.clause (headed_of headed) (right_of right) }
{
    let Headed { head, pats, .. } = headed;
    SurfClause { head, pats, right }
}

fn add_clause(context: &mut ClausesIn, clause: SurfClause) -> Result<(), Halt>
    ensures { Makes (λ _. clauses_in_of context.new) result (machine.with_clause (clause_of clause) (clauses_in_of context.old)) }
{
    match context {
        ClausesIn::Fun(_, _, clauses) => clauses.push(clause)?,
        ClausesIn::Inspect(_, _, clauses, _) => clauses.push(clause)?,
    }
    Ok(())
}

pub(crate) fn with_clause(
    clause: SurfClause,
    mut context: Box<ClausesIn>,
) -> Result<Box<ClausesIn>, Halt>
    ensures { Makes (λ k. clauses_in_of k.value) result (machine.with_clause (clause_of clause) (clauses_in_of context.value)) }
{
    add_clause(&mut context, clause)?;
    Ok(context)
}

/// An application of names.
pub(crate) fn named(alloc: Global, head: Word, names: Items<Word>) -> Result<Spine, Halt>
    ensures { Makes spine_of result (machine.named head names) }
{
    let mut args = Items::new(alloc);
    for name in names.into_vec() {
        args.push(Surf::Named(name))?;
    }
    Ok(Spine {
        head: Surf::Named(head),
        args,
    })
}

/// The names of a binder.
#[tactic(auto, using(crate::proofs::Applications::some_names_push))]
pub(crate) fn some_names(
    alloc: Global,
    first: Word,
    names: Items<Word>,
) -> Result<Items<Option<Word>>, Halt>
    ensures { Makes (λ ns. ns) result (machine.some_names (first ∷ names)) }
{
    let mut binder = Items::new(alloc);
    binder.push(Some(first))?;
    for name in names.into_vec() {
        binder.push(Some(name))?;
    }
    Ok(binder)
}
