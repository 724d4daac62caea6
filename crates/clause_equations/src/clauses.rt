ghost use Rattle.std.specs.Prelude.{Ok, option_map};
ghost use Rattle.std.specs.Option.{option_copied};
ghost use Rattle.core_terms.specs.Answers.{Gives, bounded};
ghost use Rattle.core_terms.specs.Meanings.{tree_of};
ghost use Rattle.core_terms.specs.PatternMeanings.{pats_of};
ghost use Rattle.core_terms.specs.TreeMeanings.{walk_of};
ghost use Rattle.leaf_terms.specs.PlanMeanings.{part_of, plan_of};
ghost use Rattle.leaf_terms.specs.RecursionMeanings.{recursion_of};
ghost use Rattle.clause_reports.specs.Equations as equations;
ghost use Rattle.clause_equations.specs.CodeEquations as spec;
ghost use Rattle.clause_equations.specs.EquationMeanings.{equation_of, site_of};

use crate::parts::{part_or, pats_at, side_or};
use crate::sides::{Equation, Site, left_side, right_side};
use core_sig::Signature;
use core_terms::{Pat, Stop, Term, Walk, checked, copy_tele, copy_whole, number_of};
use leaf_terms::{Part, Plan, Recursion, no_part, recursion_of};
use std::alloc::Global;
use tele_eq::variables;

/// The equation of two sides at the site of a clause.
fn equation_of_sides(alloc: Global, site: &Site, left: Term, right: Term) -> Result<Equation, Stop>
    ensures { Gives equation_of result (Ok (spec.equation_of_sides (site_of site.now) (tree_of left) (tree_of right))) }
{
    let ctx = copy_tele(alloc, site.ctx)?;
    let ty = copy_whole(alloc, site.goal)?;
    Ok(Equation {
        ctx,
        ty,
        left,
        right,
    })
}

/// The left side, or Deep.
fn low_left(
    alloc: Global,
    sig: &Signature,
    plan: &Plan,
    r: Option<&Recursion>,
    k: u32,
    pats: &[Pat],
    site: &Site,
) -> Result<Term, Stop>
    ensures { Gives tree_of result (bounded (spec.left_side sig.now (plan_of plan.now) (option_map recursion_of (option_copied r.entry)) k (pats_of pats.now) (site_of site.now))) }
{
    checked(left_side(alloc, sig, plan, r, k, pats, site)?)
}

/// The right side, or Deep.
fn low_right(
    alloc: Global,
    sig: &Signature,
    plan: &Plan,
    r: Option<&Recursion>,
    side: &Term,
    site: &Site,
) -> Result<Term, Stop>
    ensures { Gives tree_of result (bounded (spec.right_side sig.now (plan_of plan.now) (option_map recursion_of (option_copied r.entry)) (tree_of side.now) (site_of site.now))) }
{
    checked(right_side(alloc, sig, plan, r, side, site)?)
}

/// The equation of a clause of part k at its site, with these patterns and this right side, and with the function's recursion, if
/// there is one. It is Deep where one of its sides is too high.
pub fn equation_at(
    alloc: Global,
    sig: &Signature,
    plan: &Plan,
    r: Option<&Recursion>,
    k: u32,
    pats: &[Pat],
    side: &Term,
    site: &Site,
) -> Result<Equation, Stop>
    ensures { Gives equation_of result (spec.equation_at sig.now (plan_of plan.now) (option_map recursion_of (option_copied r.entry)) k (pats_of pats.now) (tree_of side.now) (site_of site.now)) }
{
    let left = low_left(alloc, sig, plan, r, k, pats, site)?;
    let right = low_right(alloc, sig, plan, r, side, site)?;
    equation_of_sides(alloc, site, left, right)
}

/// The equation of a clause of a part at the clause's own walk.
fn equation_of_clause(
    alloc: Global,
    sig: &Signature,
    plan: &Plan,
    r: Option<&Recursion>,
    k: u32,
    part: &Part,
    clause: u32,
    walk: &Walk,
) -> Result<Equation, Stop>
    ensures { Gives equation_of result (spec.equation_at sig.now (plan_of plan.now) (option_map recursion_of (option_copied r.entry)) k (equations.pats_of (part_of part.now) clause) (equations.side_of (part_of part.now) clause) (equations.walk_site (walk_of walk.now))) }
{
    let walked = variables(alloc, number_of(walk.ctx.as_slice().len())?)?;
    let site = Site {
        ctx: walk.ctx.as_slice(),
        goal: &walk.goal,
        subst: walk.subst.as_slice(),
        terms: walk.terms.as_slice(),
        binds: walk.binds.as_slice(),
        walked: walked.as_slice(),
    };
    let none = Term::Sort(0);
    let side = side_or(part.sides.as_slice(), clause, &none);
    let pats = pats_at(part.pats.as_slice(), clause);
    equation_at(alloc, sig, plan, r, k, pats, side, &site)
}

/// The equation of a clause of part k at the clause's own walk, with the function's recursion, if there is one.
fn equation_in(
    alloc: Global,
    sig: &Signature,
    plan: &Plan,
    r: Option<&Recursion>,
    k: u32,
    clause: u32,
    walk: &Walk,
) -> Result<Equation, Stop>
    ensures { Gives equation_of result (spec.equation_in sig.now (plan_of plan.now) k clause (walk_of walk.now) (option_map recursion_of (option_copied r.entry))) }
{
    let none = no_part(alloc);
    let part = part_or(plan.parts.as_slice(), k, &none);
    equation_of_clause(alloc, sig, plan, r, k, part, clause, walk)
}

/// The equation of a clause of part k of a plan, whose own walk is given.
///
/// It is over the context of the walk and of its goal's type. The left side is the function at the terms of its columns
/// as the patterns show them, or helper k at the terms for its telescope and, where the function is recursive, at the
/// values of the recursion. The right side is the clause's own with its bindings, or the call of a helper, with those
/// values too. The function and its helpers have the numbers of the signature. It is Deep where a side is higher than
/// 2,000, or where the plan has a decreasing argument and a type of the function's own telescope is too high.
pub fn equation(
    alloc: Global,
    sig: &Signature,
    plan: &Plan,
    k: u32,
    clause: u32,
    walk: &Walk,
) -> Result<Equation, Stop>
    ensures { Gives equation_of result (spec.equation_made sig.now (plan_of plan.now) k clause (walk_of walk.now)) }
{
    match recursion_of(alloc, sig, plan)? {
        None => equation_in(alloc, sig, plan, None, k, clause, walk),
        Some(r) => equation_in(alloc, sig, plan, Some(&r), k, clause, walk),
    }
}
