ghost use Rattle.std.specs.Prelude.{◌≡◌, ◌≤◌, ◌-◌, ◌++◌, ◌∷◌, [], Ok, length, map, option_map, take, IfOk, IfSome};
ghost use Rattle.core_terms.specs.Answers.{Gives};
ghost use Rattle.core_terms.specs.Meanings.{tree_of, tele_of};
ghost use Rattle.core_terms.specs.TreeMeanings.{step_of};
ghost use Rattle.theory.specs.Spines.{spine_of};
ghost use Rattle.theory.specs.Telescopes as telescopes;
ghost use Rattle.theory.specs.Terms as tree;
ghost use Rattle.core_terms.specs.Bounds.{most_height};
ghost use Rattle.unification.specs.Built as built;
ghost use Rattle.unification.specs.Groups as groups;
ghost use Rattle.unification.specs.States as states;
ghost use Rattle.problems.specs.CodeLowering.{lowered_under};
ghost use Rattle.tree_translation.specs.Comparisons as spec;
ghost use Rattle.run_terms.specs.ComparisonMeanings.{HasMemberKinds, comparison_of, member_of};
ghost use Rattle.run_terms.specs.StandingMeanings.{equations_of, state_of};

use crate::instances::all_instantiated;
use crate::state::{Equation, State};
use core_sig::Signature;
use core_terms::{Items, Step, Stop, Tele, Term, applied, copy_tele, copy_whole, into_spine, next};
use problems::{Built, built_of, split_spine};
use std::alloc::Global;

/// A constructor at its parameters and its arguments.
#[derive(Drop)]
pub struct Member<'a> {
    pub built: Built<'a>,
    pub parameters: Tele,
    pub arguments: Tele,
}

/// Two constructors of a family, with the parameters of the comparison and the indices of the right one.
#[derive(Drop)]
pub struct Comparison<'a> {
    pub left: Member<'a>,
    pub right: Member<'a>,
    pub parameters: Tele,
    pub indices: Tele,
}

/// The constructor with all its arguments that a term is.
pub fn member_at<'a>(
    alloc: Global,
    sig: &'a Signature,
    t: &Term,
) -> Result<Option<Member<'a>>, Stop>
    requires { tree.height (tree_of t.now) ≤ most_height }
    ensures answer { Gives (option_map member_of) result (Ok (built.built_of sig.now (tree_of t.now))) }
    ensures kinds { IfOk result (λ found. IfSome found HasMemberKinds) }
{
    match built_of(sig, t) {
        None => Ok(None),
        Some(built) => {
            let count = built.record.params.as_slice().len();
            let (parameters, arguments) = split_spine(alloc, t, count)?;
            Ok(Some(Member {
                built,
                parameters,
                arguments,
            }))
        }
    }
}

/// Terms, followed by others.
#[tactic(auto, using(tele_eq::proofs::Growing::growing))]
pub fn with_terms(alloc: Global, mut made: Tele, terms: &[Term]) -> Result<Tele, Stop>
    ensures { Gives tele_of result (Ok (tele_of made ++ tele_of terms.now)) }
{
    match terms {
        [] => Ok(made),
        [t, rest @ ..] => {
            made.push(copy_whole(alloc, t)?)?;
            with_terms(alloc, made, rest)
        }
    }
}

/// Two lists of terms, one after the other.
pub fn terms_joined(alloc: Global, first: &[Term], second: &[Term]) -> Result<Tele, Stop>
    ensures { Gives tele_of result (Ok (tele_of first.now ++ tele_of second.now)) }
{
    with_terms(alloc, copy_tele(alloc, first)?, second)
}

/// The targets of a constructor at parameters and at its arguments.
fn targets(alloc: Global, ps: &[Term], m: &Member) -> Result<Tele, Stop>
    ensures { Gives tele_of result (Ok (spec.targets (tele_of ps.now) (member_of m.now))) }
{
    let values = terms_joined(alloc, ps, m.arguments.as_slice())?;
    let targets = m.built.con.targets.as_slice();
    all_instantiated(alloc, values.as_slice(), targets)
}

/// The constructor at the parameters of a comparison.
fn member_term(alloc: Global, family: u32, ps: &[Term], m: &Member) -> Result<Term, Stop>
    ensures { Gives tree_of result (Ok (telescopes.applied (tree.Con family (member_of m.now).number) (tele_of ps.now ++ (member_of m.now).arguments))) }
{
    let spine = terms_joined(alloc, ps, m.arguments.as_slice())?;
    applied(alloc, Term::Con(family, m.built.number), spine.into_vec())
}

/// The targets of the left constructor, and the constructor.
#[tactic(auto, using(tele_eq::proofs::Growing::growing))]
pub fn left_member(alloc: Global, c: &Comparison) -> Result<Tele, Stop>
    ensures { Gives tele_of result (Ok (spec.left_member (comparison_of c.now))) }
{
    let ps = c.parameters.as_slice();
    let mut made = targets(alloc, ps, &c.left)?;
    made.push(member_term(alloc, c.left.built.family, ps, &c.left)?)?;
    Ok(made)
}

/// The indices of the right constructor, and the constructor.
#[tactic(auto, using(tele_eq::proofs::Growing::growing))]
pub fn right_member(alloc: Global, c: &Comparison) -> Result<Tele, Stop>
    ensures { Gives tele_of result (Ok (spec.right_member (comparison_of c.now))) }
{
    let ps = c.parameters.as_slice();
    let mut made = copy_tele(alloc, c.indices.as_slice())?;
    made.push(member_term(alloc, c.left.built.family, ps, &c.right)?)?;
    Ok(made)
}

fn lowered_variable(k: u32, under: u32, n: u32) -> u32
    ensures { tree.Var result ≡ lowered_under k under (tree.Var n) }
{
    if n < under { n } else { n - k.min(n - under) }
}

/// A term without the nearest `k` variables, outside of their binders, under so many binders of its own.
fn lowered_at(alloc: Global, k: u32, under: u32, t: &Term) -> Result<Term, Stop>
    ensures { Gives tree_of result (Ok (lowered_under k under (tree_of t.now))) }
{
    match t {
        Term::Var(n) => Ok(Term::Var(lowered_variable(k, under, *n))),
        Term::Pi(domain, codomain) => {
            let inner = next(under)?;
            Term::product_of(
                alloc,
                lowered_at(alloc, k, under, domain),
                lowered_at(alloc, k, inner, codomain),
            )
        }
        Term::Lam(domain, body) => {
            let inner = next(under)?;
            Term::function_of(
                alloc,
                lowered_at(alloc, k, under, domain),
                lowered_at(alloc, k, inner, body),
            )
        }
        Term::App(function, argument) => Term::application_of(
            alloc,
            lowered_at(alloc, k, under, function),
            lowered_at(alloc, k, under, argument),
        ),
        Term::Let(ty, value, rest) => {
            let inner = next(under)?;
            Term::local_of(
                alloc,
                lowered_at(alloc, k, under, ty),
                lowered_at(alloc, k, under, value),
                lowered_at(alloc, k, inner, rest),
            )
        }
        Term::Sort(_)
        | Term::Const(_)
        | Term::Fam(_)
        | Term::Con(_, _)
        | Term::Elim(_, _)
        | Term::AxiomK(_, _) => copy_whole(alloc, t),
    }
}

/// A term without the nearest `k` variables, outside of their binders.
fn lowered(alloc: Global, k: u32, t: &Term) -> Result<Term, Stop>
    ensures { Gives tree_of result (Ok (groups.lowered k (tree_of t.now))) }
{
    lowered_at(alloc, k, 0, t)
}

/// Terms, followed by the first `count` of others without the nearest `k` variables.
#[tactic(auto, using(tele_eq::proofs::Growing::growing))]
fn with_lowered(
    alloc: Global,
    k: u32,
    count: usize,
    terms: &[Term],
    mut made: Tele,
) -> Result<Tele, Stop>
    ensures { Gives tele_of result (Ok (tele_of made ++ map (groups.lowered k) (take count (tele_of terms.now)))) }
{
    if count == 0 {
        return Ok(made);
    }
    match terms {
        [] => Ok(made),
        [t, rest @ ..] => {
            made.push(lowered(alloc, k, t)?)?;
            with_lowered(alloc, k, count - 1, rest, made)
        }
    }
}

/// The parameters of a type that comes after `k` places, at these as its indices.
#[tactic(auto, using(crate::proofs::Spines::counts))]
fn parameters_of(alloc: Global, k: u32, ty: &Term) -> Result<Tele, Stop>
    ensures { Gives tele_of result (Ok (map (groups.lowered k) (take (length (spine_of (tree_of ty.now)) - k) (spine_of (tree_of ty.now))))) }
{
    let spine = into_spine(alloc, copy_whole(alloc, ty)?)?;
    let count = spine.len().saturating_sub(k as usize);
    with_lowered(alloc, k, count, spine.as_slice(), Items::new(alloc))
}

/// Terms, followed by the right sides of the first `count` equations.
#[tactic(auto, using(tele_eq::proofs::Growing::growing))]
fn with_right_sides(
    alloc: Global,
    count: u32,
    equations: &[Equation],
    mut made: Tele,
) -> Result<Tele, Stop>
    ensures { Gives tele_of result (Ok (tele_of made ++ take count (states.right_sides (equations_of equations.now)))) }
{
    if count == 0 {
        return Ok(made);
    }
    match equations {
        [] => Ok(made),
        [e, rest @ ..] => {
            made.push(copy_whole(alloc, &e.right)?)?;
            with_right_sides(alloc, count - 1, rest, made)
        }
    }
}

/// The comparison by one equation.
fn compared_alone<'a>(
    alloc: Global,
    left: Member<'a>,
    right: Member<'a>,
) -> Result<Comparison<'a>, Stop>
    ensures answer { Gives comparison_of result (Ok (spec.compared_alone (member_of left.entry) (member_of right.entry))) }
    ensures kinds { HasMemberKinds left.entry → IfOk result (λ c. HasMemberKinds c.left) }
{
    let parameters = copy_tele(alloc, left.parameters.as_slice())?;
    let indices = targets(alloc, left.parameters.as_slice(), &right)?;
    Ok(Comparison {
        left,
        right,
        parameters,
        indices,
    })
}

/// The comparison by a group of `k + 1` equations, whose last place has this type.
fn compared_as_group<'a>(
    alloc: Global,
    s: &State,
    k: u32,
    ty: &Term,
    left: Member<'a>,
    right: Member<'a>,
) -> Result<Comparison<'a>, Stop>
    ensures answer { Gives comparison_of result (Ok (spec.compared_as_group (state_of s.now) k (tree_of ty.now) (member_of left.entry) (member_of right.entry))) }
    ensures kinds { HasMemberKinds left.entry → IfOk result (λ c. HasMemberKinds c.left) }
{
    let parameters = parameters_of(alloc, k, ty)?;
    let indices = with_right_sides(alloc, k, s.equations.as_slice(), Items::new(alloc))?;
    Ok(Comparison {
        left,
        right,
        parameters,
        indices,
    })
}

/// The comparison by `k + 1` equations.
fn compared_by<'a>(
    alloc: Global,
    s: &State,
    k: u32,
    ty: &Term,
    left: Member<'a>,
    right: Member<'a>,
) -> Result<Comparison<'a>, Stop>
    ensures answer { Gives comparison_of result (Ok (spec.compared_by (state_of s.now) k (tree_of ty.now) (member_of left.entry) (member_of right.entry))) }
    ensures kinds { HasMemberKinds left.entry → IfOk result (λ c. HasMemberKinds c.left) }
{
    if k == 0 {
        compared_alone(alloc, left, right)
    } else {
        compared_as_group(alloc, s, k, ty, left, right)
    }
}

/// The comparison of a step by injectivity or conflict.
pub fn compared<'a>(
    alloc: Global,
    sig: &'a Signature,
    s: &State,
    step: &Step,
) -> Result<Option<Comparison<'a>>, Stop>
    requires left { tree.height (tree_of step.now.left) ≤ most_height }
    requires right { tree.height (tree_of step.now.right) ≤ most_height }
    ensures kinds { IfOk result (λ found. IfSome found (λ c. HasMemberKinds c.left)) }
    ensures answer { Gives (option_map comparison_of) result (Ok (spec.compared sig.now (state_of s.now) (step_of step.now))) }
{
    let left = member_at(alloc, sig, &step.left)?;
    let right = member_at(alloc, sig, &step.right)?;
    match (left, right) {
        (Some(left), Some(right)) => {
            let k = step.group.saturating_sub(1);
            Ok(Some(compared_by(alloc, s, k, &step.ty, left, right)?))
        }
        _ => Ok(None),
    }
}
