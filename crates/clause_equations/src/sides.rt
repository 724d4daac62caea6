ghost use Rattle.std.specs.Prelude.{◌≡◌, Ok, option_map};
ghost use Rattle.std.specs.Option.{option_copied};
ghost use Rattle.core_terms.specs.Answers.{Gives};
ghost use Rattle.core_terms.specs.Meanings.{tree_of, tele_of};
ghost use Rattle.core_terms.specs.PatternMeanings.{pats_of};
ghost use Rattle.theory.specs.Telescopes as telescopes;
ghost use Rattle.theory.specs.Terms as tree;
ghost use Rattle.tree_translation.specs.RightSides as rights;
ghost use Rattle.leaf_terms.specs.PlanMeanings.{plan_of};
ghost use Rattle.leaf_terms.specs.RecursionMeanings.{recursion_of};
ghost use Rattle.clause_reports.specs.Equations as equations;
ghost use Rattle.clause_equations.specs.CodeEquations as spec;
ghost use Rattle.clause_equations.specs.EquationMeanings.{site_of};

use crate::constants::entry_number;
use crate::last_arguments::applied_to_last;
use crate::showing::{with_shown, written};
use core_sig::Signature;
use core_terms::{Items, Pat, Stop, Tele, Term, applied, copy_tele, head};
use leaf_terms::{Plan, Recursion, part_name};
use std::alloc::Global;

/// The site of a clause of a part: a context and a goal there; terms for the variables of the part's telescope and for its columns; the
/// bindings of the clause; and terms for the variables of the context of the clause's own walk.
#[derive(Clone, Copy)]
pub struct Site<'a> {
    pub ctx: &'a [Term],
    pub goal: &'a Term,
    pub subst: &'a [Term],
    pub terms: &'a [Term],
    pub binds: &'a [Term],
    pub walked: &'a [Term],
}

/// An equation: two terms of a type in a context.
#[derive(Drop)]
pub struct Equation {
    pub ctx: Tele,
    pub ty: Term,
    pub left: Term,
    pub right: Term,
}

/// The constant of part k, as the signature numbers it.
fn part_constant(alloc: Global, sig: &Signature, plan: &Plan, k: u32) -> Result<Term, Stop>
    ensures { Gives tree_of result (Ok (tree.Const (equations.number_of sig.now (equations.part_name (plan_of plan.now) k)))) }
{
    let name = part_name(alloc, &plan.name, k)?;
    Ok(Term::Const(entry_number(sig, &name)))
}

/// The function at its columns' terms as its patterns show them.
fn function_side(
    alloc: Global,
    sig: &Signature,
    plan: &Plan,
    pats: &[Pat],
    site: &Site,
) -> Result<Term, Stop>
    ensures { Gives tree_of result (Ok (spec.function_side sig.now (plan_of plan.now) (pats_of pats.now) (site_of site.now))) }
{
    let made = with_shown(
        alloc,
        sig,
        plan,
        site.binds,
        pats,
        site.terms,
        Items::new(alloc),
    )?;
    applied(
        alloc,
        Term::Const(entry_number(sig, &plan.name)),
        made.into_vec(),
    )
}

/// Helper k at the terms of its telescope and its last argument.
fn helper_side(
    alloc: Global,
    sig: &Signature,
    plan: &Plan,
    r: Option<&Recursion>,
    k: u32,
    site: &Site,
) -> Result<Term, Stop>
    ensures { Gives tree_of result (Ok (spec.helper_side sig.now (plan_of plan.now) (option_map recursion_of (option_copied r.entry)) k (site_of site.now))) }
{
    let head = part_constant(alloc, sig, plan, k)?;
    let values = copy_tele(alloc, site.subst)?;
    let head = applied(alloc, head, values.into_vec())?;
    applied_to_last(alloc, sig, plan, r, site.terms, head)
}

/// The left side of a clause of part k: the function at its columns' terms as its patterns show them, or a helper at
/// the terms of its telescope. Nothing tests its height.
pub fn left_side(
    alloc: Global,
    sig: &Signature,
    plan: &Plan,
    r: Option<&Recursion>,
    k: u32,
    pats: &[Pat],
    site: &Site,
) -> Result<Term, Stop>
    ensures { Gives tree_of result (Ok (spec.left_side sig.now (plan_of plan.now) (option_map recursion_of (option_copied r.entry)) k (pats_of pats.now) (site_of site.now))) }
{
    if k == 0 {
        return function_side(alloc, sig, plan, pats, site);
    }
    helper_side(alloc, sig, plan, r, k, site)
}

/// Whether a term is the constant of a helper.
fn is_helper(base: u32, t: &Term) -> bool
    ensures { result ≡ rights.is_helper base (tree_of t.now) }
{
    match t {
        Term::Const(c) => base < *c,
        _ => false,
    }
}

/// The call of a helper, over the context of the clause's own walk.
fn call_side(
    alloc: Global,
    sig: &Signature,
    plan: &Plan,
    r: Option<&Recursion>,
    side: &Term,
    site: &Site,
) -> Result<Term, Stop>
    ensures { Gives tree_of result (Ok (telescopes.applied (spec.written_in sig.now (plan_of plan.now) (tele_of site.now.walked.now) (tree_of side.now)) (equations.last_argument sig.now (plan_of plan.now) (option_map recursion_of (option_copied r.entry)) (tele_of site.now.terms.now)))) }
{
    let call = written(alloc, sig, plan, site.walked, side)?;
    applied_to_last(alloc, sig, plan, r, site.terms, call)
}

/// The right side of a clause: a term with the clause's bindings, or the call of a helper over the context of the clause's own walk.
/// Nothing tests its height.
pub fn right_side(
    alloc: Global,
    sig: &Signature,
    plan: &Plan,
    r: Option<&Recursion>,
    side: &Term,
    site: &Site,
) -> Result<Term, Stop>
    ensures { Gives tree_of result (Ok (spec.right_side sig.now (plan_of plan.now) (option_map recursion_of (option_copied r.entry)) (tree_of side.now) (site_of site.now))) }
{
    if is_helper(plan.base, head(side)) {
        return call_side(alloc, sig, plan, r, side, site);
    }
    written(alloc, sig, plan, site.binds, side)
}
