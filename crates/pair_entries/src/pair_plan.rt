//! What the entries of a function over a pair of positions are made of.
ghost use Rattle.std.specs.Prelude.{◌≡◌, ◌++◌, [], Ok, length, map};
ghost use Rattle.core_terms.specs.Answers.{Gives};
ghost use Rattle.core_terms.specs.Meanings.{tree_of, tele_of};
ghost use Rattle.core_sig.specs.Drafts.{draft_of};
ghost use Rattle.core_sig.specs.Meanings as sig;
ghost use Rattle.leaf_terms.specs.PlanMeanings.{part_of, plan_of};
ghost use Rattle.lex_recursion.specs.PairPlans as pure;
ghost use Rattle.pair_entries.specs.CodePairEntries as spec;
ghost use Rattle.pair_entries.specs.PairMeanings.{pair_plan_of};

use crate::copying::copy_tree;
use crate::entries::plan_entries;
use core_sig::{Draft, Signature};
use core_terms::{Items, Name, Stop, Tele, Term, Tree, copy_name, copy_tele, copy_whole};
use leaf_terms::{Part, Plan};
use std::alloc::Global;
use tele_eq::variables;

/// A function without helpers: its name, its written type, the number of its patterns, its level, its positions, its goal over the
/// telescope, its tree over the pair order, and a right side for each clause. In these the function is the constant after all entries.
#[derive(Drop)]
pub struct PairPlan {
    pub name: Name,
    pub ty: Term,
    pub arity: u32,
    pub level: u8,
    pub first: u32,
    pub second: u32,
    pub goal: Term,
    pub tree: Tree,
    pub sides: Items<Term>,
}

/// Types, followed by the domains of the first `count` products of another one.
#[tactic(auto, using(tele_eq::proofs::Growing::growing))]
fn with_domains(alloc: Global, count: u32, ty: &Term, mut made: Tele) -> Result<Tele, Stop>
    ensures { Gives tele_of result (Ok (tele_of made ++ sig.domains count (tree_of ty.now))) }
{
    if count == 0 {
        return Ok(made);
    }
    match ty {
        Term::Pi(domain, codomain) => {
            made.push(copy_whole(alloc, domain)?)?;
            with_domains(alloc, count - 1, codomain, made)
        }
        _ => Ok(made),
    }
}

/// The function's own part.
fn part_over(alloc: Global, plan: &PairPlan) -> Result<Part, Stop>
    ensures { Gives part_of result (Ok (pure.part_over (pair_plan_of plan.now))) }
{
    Ok(Part {
        level: plan.level,
        tele: with_domains(alloc, plan.arity, &plan.ty, Items::new(alloc))?,
        terms: variables(alloc, plan.arity)?,
        goal: copy_whole(alloc, &plan.goal)?,
        tree: copy_tree(alloc, &plan.tree)?,
        sides: copy_tele(alloc, plan.sides.as_slice())?,
        walks: Items::new(alloc),
        pats: Items::new(alloc),
    })
}

/// The function's own part, alone.
fn parts_over(alloc: Global, plan: &PairPlan) -> Result<Items<Part>, Stop>
    ensures { Gives (map part_of) result (Ok (pure.plan_over 0 (pair_plan_of plan.now)).parts) }
{
    let mut parts = Items::new(alloc);
    parts.push(part_over(alloc, plan)?)?;
    Ok(parts)
}

/// The plan over `base` entries.
fn plan_over(alloc: Global, base: u32, plan: &PairPlan) -> Result<Plan, Stop>
    ensures { Gives plan_of result (Ok (pure.plan_over base (pair_plan_of plan.now))) }
{
    Ok(Plan {
        base,
        name: copy_name(alloc, &plan.name)?,
        ty: copy_whole(alloc, &plan.ty)?,
        arity: plan.arity,
        level: plan.level,
        position: Some(plan.first),
        parts: parts_over(alloc, plan)?,
    })
}

/// The entries of a function over a pair of positions: its motive, the second motive, the second step, the first step and the function
/// itself, as drafts in this order. Deep where a type or a term of an entry is too high, or a term on the way to it.
pub fn pair_entries(alloc: Global, sig: &Signature, plan: &PairPlan) -> Result<Items<Draft>, Stop>
    ensures { Gives (map draft_of) result (spec.pair_entries_made sig.now (pure.plan_over (length sig.now.entries) (pair_plan_of plan.now)) plan.now.second) }
{
    let over = plan_over(alloc, sig.len(), plan)?;
    plan_entries(alloc, sig, &over, plan.second)
}
