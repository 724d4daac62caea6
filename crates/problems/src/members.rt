ghost use Rattle.std.specs.Prelude.{◌≡◌, ◌≤◌, ◌<◌, ◌+◌, ◌++◌, ◌∷◌, [], ◌&&◌, ℕ, nat_le, map, length, option_map, slice_get, IfOk, IfSome, Some, Ok};
ghost use Rattle.core_terms.specs.Answers.{Gives, bounded, bounded_terms};
ghost use Rattle.core_terms.specs.Meanings.{tree_of, tele_of};
ghost use Rattle.core_sig.specs.Meanings.{constructor_of, family_of};
ghost use Rattle.core_sig.specs.Kinds.{HasKinds, HaveKinds};
ghost use Rattle.theory.specs.Spines.{spine_of};
ghost use Rattle.theory.specs.Scopes.{IsTelescopeOver};
ghost use Rattle.theory.specs.Terms.{Var, height};
ghost use Rattle.core_terms.specs.Bounds.{context_limit, most_height};
ghost use Rattle.tele_eq.specs.Items.{items_of};
ghost use Rattle.unification.specs.Heights.{bounded_items};
ghost use Rattle.unification.specs.Injecting.{lifted as lifted_of};
ghost use Rattle.unification.specs.Records.{argument_items as argument_items_of, constructor_terms as constructor_terms_of, family_items as family_items_of};
ghost use Rattle.unification.specs.ScopedStates.{IsReady, IsScopedProblem};
ghost use Rattle.problems.specs.Conditions.{AreOver, IsGiven, most_depth};
ghost use Rattle.problems.specs.Meanings.{problem_of as problem_meant};
ghost use Rattle.case_trees.specs.Problems as spec;
ghost use Rattle.problems.specs.MemberConditions.{IsContext, IsMember, IsSplitAs, most_params};
ghost use Rattle.problems.specs.MemberMeanings.{member_meant};
ghost use Rattle.problems.specs.ProblemsMade.{problem_made, problem_of_parts};

use crate::built::split_spine;
use crate::problem::Problem;
use crate::records::{argument_items, constructor_terms, family_items, lifted};
use core_sig::{Constructor, Family, Signature};
use core_terms::{Items, Stop, Tele, Term, copy_tele, copy_whole, head, lift, spine_len};
use kernel_reduce::family;
use std::alloc::Global;
use tele_eq::Item;

/// How many variables a context may have where a constructor's arguments are put after it; with more, memory is short.
const MOST_VARIABLES: usize = 2147390000;

/// A family with its number, and all its parameters and indices.
#[derive(Drop)]
pub struct Member<'a> {
    pub number: u32,
    pub family: &'a Family,
    pub params: Tele,
    pub indices: Tele,
}

/// A type as a family with all its parameters and indices.
pub fn member_of<'a>(
    alloc: Global,
    sig: &'a Signature,
    t: &Term,
) -> Result<Option<Member<'a>>, Stop>
    requires low { height (tree_of t.now) ≤ most_height }
    ensures answer { Gives (option_map member_meant) result (Ok (spec.member_of sig.now (tree_of t.now))) }
    ensures member { (n : ℕ) → IsGiven sig.now n (tree_of t.now) → IfOk result (λ found. IfSome found (IsMember sig.now n)) }
{
    let Term::Fam(number) = head(t) else {
        return Ok(None);
    };
    let Some(f) = family(sig, *number) else {
        return Ok(None);
    };
    member_with(alloc, *number, f, t)
}

/// The family where the term has all its parameters and indices as arguments.
fn member_with<'a>(
    alloc: Global,
    number: u32,
    f: &'a Family,
    t: &Term,
) -> Result<Option<Member<'a>>, Stop>
    requires low { height (tree_of t.now) ≤ most_height }
    ensures answer { Gives (option_map member_meant) result (Ok (spec.member_with number (spine_of (tree_of t.now)) (family_of f.now))) }
    ensures parts { IfOk result (λ found. IfSome found (IsSplitAs number f.now (tree_of t.now))) }
{
    let count = f.params.as_slice().len();
    let indices = f.indices.as_slice().len();
    if spine_len(t) as u128 != count as u128 + indices as u128 {
        return Ok(None);
    }
    let (params, indices) = split_spine(alloc, t, count)?;
    Ok(Some(Member {
        number,
        family: f,
        params,
        indices,
    }))
}

/// The type of a variable, in the context itself, or Deep.
pub fn type_of_variable(alloc: Global, ctx: &[Term], x: u32) -> Result<Term, Stop>
    requires few { length ctx.now ≤ 2147400000 }
    requires context { IsTelescopeOver 0 (tele_of ctx.now) }
    requires variable { x < length ctx.now }
    ensures { Gives tree_of result (bounded (spec.type_of_variable (tele_of ctx.now) x)) }
{
    lift(alloc, &ctx[ctx.len() - (x as usize + 1)], x + 1, 0)
}

/// Types, and those of a telescope after them.
#[tactic(auto, using(tele_eq::proofs::Growing::growing))]
fn types_behind(alloc: Global, items: &[Item], mut made: Tele) -> Result<Tele, Stop>
    ensures { Gives tele_of result (Ok (tele_of made ++ map (λ item. item.type) (items_of items.now))) }
{
    match items {
        [] => Ok(made),
        [item, rest @ ..] => {
            made.push(copy_whole(alloc, &item.ty)?)?;
            types_behind(alloc, rest, made)
        }
    }
}

/// Indices after the arguments of a constructor, and the variable that is split.
fn indices_with(alloc: Global, count: u32, indices: &[Term], x: u32) -> Result<Tele, Stop>
    requires variable { x ≤ 2147400000 }
    requires count { count ≤ most_height }
    requires indices { AreOver most_depth (tele_of indices.now) }
    ensures { Gives tele_of result (Ok (lifted_of count (tele_of indices.now) ++ Var (x + count) ∷ [])) }
{
    let mut made = lifted(alloc, count, indices)?;
    made.push(Term::Var(x + count))?;
    Ok(made)
}

/// Whether the constructor has at most 2,000 arguments, and its family as many indices. With more its problem is too high.
fn has_few(f: &Family, con: &Constructor) -> bool
    ensures { result ≡ (nat_le (length con.now.args) 2000 && nat_le (length f.now.indices) 2000) }
{
    con.args.as_slice().len() <= 2000 && f.indices.as_slice().len() <= 2000
}

/// The problem of a constructor; the telescope and the left terms follow its arguments.
fn problem_from(
    alloc: Global,
    ctx: &[Term],
    x: u32,
    count: u32,
    indices: &[Term],
    arguments: &[Item],
    tele: Items<Item>,
    left: Tele,
) -> Result<Problem, Stop>
    requires variable { x ≤ 2147400000 }
    requires count { count ≤ most_height }
    requires indices { AreOver most_depth (tele_of indices.now) }
    ensures { Gives problem_meant result (Ok (problem_of_parts (tele_of ctx.now) x count (tele_of indices.now) (items_of arguments.now) (items_of tele) (tele_of left))) }
{
    let right = indices_with(alloc, count, indices, x)?;
    let ctx = types_behind(alloc, arguments, copy_tele(alloc, ctx)?)?;
    Ok(Problem {
        ctx,
        tele,
        left,
        right,
    })
}

/// The telescope of a constructor's arguments at the family's parameters, or Deep.
fn arguments_at(alloc: Global, m: &Member, con: &Constructor) -> Result<Items<Item>, Stop>
    requires few { length con.now.args ≤ most_height }
    requires kinds { HaveKinds m.now.number (family_of m.now.family.now) 0 con.now.args }
    requires parameters { AreOver most_params (tele_of m.now.params) }
    requires parameter_count { length m.now.params ≡ length m.now.family.now.params }
    ensures { Gives items_of result (bounded_items (argument_items_of m.now.number (tele_of m.now.params) (constructor_of (length m.now.family.now.params) con.now))) }
{
    argument_items(alloc, m.params.as_slice(), con)
}

/// The telescope of the family's indices, with the family at them, after so many arguments, or Deep.
fn indices_behind(alloc: Global, m: &Member, count: u32) -> Result<Items<Item>, Stop>
    requires kinds { HasKinds m.now.number m.now.family.now }
    requires count { count ≤ most_height }
    requires few { length m.now.family.now.indices ≤ most_height }
    requires parameters { AreOver most_params (tele_of m.now.params) }
    ensures { Gives items_of result (bounded_items (family_items_of m.now.number (family_of m.now.family.now) (lifted_of count (tele_of m.now.params)))) }
{
    let params = lifted(alloc, count, m.params.as_slice())?;
    family_items(alloc, m.number, m.family, params.as_slice())
}

/// The targets of a constructor and the constructor itself at the family's parameters, after its arguments, or Deep.
fn terms_at(alloc: Global, m: &Member, number: u32, con: &Constructor) -> Result<Tele, Stop>
    requires few { length con.now.args ≤ most_height }
    requires parameters { AreOver most_params (tele_of m.now.params) }
    requires parameter_count { length m.now.params ≡ length m.now.family.now.params }
    ensures { Gives tele_of result (bounded_terms (constructor_terms_of m.now.number number (tele_of m.now.params) (constructor_of (length m.now.family.now.params) con.now))) }
{
    constructor_terms(alloc, m.number, number, m.params.as_slice(), con)
}

/// The problem of a constructor, where its arguments and indices are few, or Deep.
fn few_problem(
    alloc: Global,
    ctx: &[Term],
    x: u32,
    m: &Member,
    number: u32,
    con: &Constructor,
) -> Result<Problem, Stop>
    requires few_args { length con.now.args ≤ most_height }
    requires few_indices { length m.now.family.now.indices ≤ most_height }
    requires variable { x ≤ 2147400000 }
    requires kinds { HasKinds m.now.number m.now.family.now }
    requires parameters { AreOver most_params (tele_of m.now.params) }
    requires indices { AreOver most_params (tele_of m.now.indices) }
    requires parameter_count { length m.now.params ≡ length m.now.family.now.params }
    requires constructor { HaveKinds m.now.number (family_of m.now.family.now) 0 con.now.args }
    ensures { Gives problem_meant result (problem_made (tele_of ctx.now) x (member_meant m.now) number (constructor_of (length m.now.family.now.params) con.now)) }
{
    let arguments = arguments_at(alloc, m, con)?;
    let count = con.args.as_slice().len() as u32;
    let tele = indices_behind(alloc, m, count)?;
    let left = terms_at(alloc, m, number, con)?;
    let indices = m.indices.as_slice();
    problem_from(
        alloc,
        ctx,
        x,
        count,
        indices,
        arguments.as_slice(),
        tele,
        left,
    )
}

/// The problem of a constructor for a variable whose type is its family, or Deep.
pub fn problem_of(
    alloc: Global,
    sig: &Signature,
    ctx: &[Term],
    x: u32,
    m: &Member,
    number: u32,
    con: &Constructor,
) -> Result<Problem, Stop>
    requires ready { IsReady sig.now }
    requires context { IsContext sig.now (tele_of ctx.now) }
    requires variable { x < length ctx.now }
    requires member { IsMember sig.now (length ctx.now) m.now }
    requires constructor { slice_get m.now.family.now.cons number ≡ Some con.now }
    ensures answer { Gives problem_meant result (problem_made (tele_of ctx.now) x (member_meant m.now) number (constructor_of (length m.now.family.now.params) con.now)) }
    ensures scoped { IfOk result (λ p. IsScopedProblem sig.now (problem_meant p)) }
    ensures few { IfOk result (λ p. length p.ctx + length p.tele < context_limit) }
    ensures few_args { IfOk result (λ p. length con.now.args ≤ most_height) }
{
    if !has_few(m.family, con) {
        return Err(Stop::Deep);
    }
    if ctx.len() > MOST_VARIABLES {
        return Err(Stop::Memory);
    }
    few_problem(alloc, ctx, x, m, number, con)
}
