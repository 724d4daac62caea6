ghost use Rattle.std.specs.Prelude.{◌+◌, ◌++◌, ◌∷◌, Ok, drop, map, take};
ghost use Rattle.core_terms.specs.Answers.{Gives};
ghost use Rattle.core_terms.specs.Instances.{under_binders};
ghost use Rattle.core_terms.specs.Meanings.{tree_of, tele_of};
ghost use Rattle.core_terms.specs.TreeMeanings.{walk_of};
ghost use Rattle.clause_reports.specs.elaboration.Walking as spec;
ghost use Rattle.function_checks.specs.function_walks.WalkingMeanings.{opened_of, session_of};
ghost use Rattle.theory.specs.Substitutions.{inst};
ghost use Rattle.theory.specs.Telescopes as telescopes;
ghost use Rattle.theory.specs.Terms as tree;
ghost use Rattle.function_checks.specs.walk_checks.CheckMeanings.{opening_of};
ghost use Rattle.function_checks.specs.walk_checks.CodeOpening.{renamed_under};
ghost use Rattle.with_abstraction.specs.Meanings.{abstracted_of};

use crate::function_walks::{Opened, Session};
use crate::walk_checks::Opening;
use core_terms::{Items, Stop, Tele, Term, Walk, applied, copy_whole, next, number_of, sum};
use run_terms::{place_in, raised};
use std::alloc::Global;
use with_abstraction::Abstracted;

/// Variable x of the walk's context over the helper's telescope, which has one variable more.
fn variable_in(a: &Abstracted, x: u32) -> Result<Term, Stop>
    ensures { Gives tree_of result (Ok (spec.variable_in (abstracted_of a.now) x)) }
{
    let count = number_of(a.order.as_slice().len())?;
    let place = number_of(place_in(a.order.as_slice(), x))?;
    let before = if place < a.at { place } else { next(place)? };
    Ok(Term::Var(count.saturating_sub(before)))
}

/// The term that replaces variable `n` under so many binders.
fn renamed_variable(alloc: Global, a: &Abstracted, under: u32, n: u32) -> Result<Term, Stop>
    ensures { Gives tree_of result (Ok (under_binders under (spec.variable_in (abstracted_of a.now)) n)) }
{
    if n < under {
        return Ok(Term::Var(n));
    }
    let x = variable_in(a, n - under)?;
    raised(alloc, under, 0, &x)
}

/// A term of the walk's context over the helper's telescope, under so many binders.
fn renamed(alloc: Global, a: &Abstracted, under: u32, t: &Term) -> Result<Term, Stop>
    ensures { Gives tree_of result (Ok (renamed_under (abstracted_of a.now) under (tree_of t.now))) }
{
    match t {
        Term::Var(n) => renamed_variable(alloc, a, under, *n),
        Term::Pi(domain, codomain) => {
            let inner = next(under)?;
            Term::product_of(
                alloc,
                renamed(alloc, a, under, domain),
                renamed(alloc, a, inner, codomain),
            )
        }
        Term::Lam(domain, body) => {
            let inner = next(under)?;
            Term::function_of(
                alloc,
                renamed(alloc, a, under, domain),
                renamed(alloc, a, inner, body),
            )
        }
        Term::App(function, argument) => Term::application_of(
            alloc,
            renamed(alloc, a, under, function),
            renamed(alloc, a, under, argument),
        ),
        Term::Let(ty, value, rest) => {
            let inner = next(under)?;
            Term::local_of(
                alloc,
                renamed(alloc, a, under, ty),
                renamed(alloc, a, under, value),
                renamed(alloc, a, inner, rest),
            )
        }
        Term::Sort(_)
        | Term::Const(_)
        | Term::Fam(_)
        | Term::Con(_, _)
        | Term::Elim(_, _)
        | Term::AxiomK(_, _) => copy_whole(alloc, t),
    }
}

/// Terms, followed by others over the helper's telescope.
#[tactic(auto, using(tele_eq::proofs::Growing::growing))]
fn with_renamed(alloc: Global, a: &Abstracted, terms: &[Term], mut made: Tele) -> Result<Tele, Stop>
    ensures { Gives tele_of result (Ok (tele_of made ++ map (renamed_under (abstracted_of a.now) 0) (tele_of terms.now))) }
{
    match terms {
        [] => Ok(made),
        [t, rest @ ..] => {
            made.push(renamed(alloc, a, 0, t)?)?;
            with_renamed(alloc, a, rest, made)
        }
    }
}

/// The terms of the walk's columns over the helper's telescope.
#[tactic(auto, using(crate::proofs::function_clauses::Renaming::renaming))]
fn all_renamed(alloc: Global, a: &Abstracted, terms: &[Term]) -> Result<Tele, Stop>
    ensures { Gives tele_of result (Ok (map (inst (spec.variable_in (abstracted_of a.now))) (tele_of terms.now))) }
{
    with_renamed(alloc, a, terms, Items::new(alloc))
}

/// The terms of the walk's columns over the helper's telescope, and the new variable.
#[tactic(auto, using(tele_eq::proofs::Growing::growing))]
fn helper_terms(alloc: Global, a: &Abstracted, terms: &[Term]) -> Result<Tele, Stop>
    ensures { Gives tele_of result (Ok (spec.helper_terms (abstracted_of a.now) (tele_of terms.now))) }
{
    let count = number_of(a.order.as_slice().len())?;
    let mut made = all_renamed(alloc, a, terms)?;
    made.push(Term::Var(count.saturating_sub(a.at)))?;
    Ok(made)
}

/// The helper of a walk before its clauses are walked.
pub(crate) fn opened(alloc: Global, o: Opening, w: &Walk) -> Result<Opened, Stop>
    ensures { Gives opened_of result (Ok (spec.opened (opening_of o) (walk_of w.now))) }
{
    let terms = helper_terms(alloc, &o.abstraction, w.terms.as_slice())?;
    Ok(Opened {
        level: o.level,
        tele: o.abstraction.tele,
        terms,
        goal: o.abstraction.goal,
    })
}

/// Terms, followed by variables.
#[tactic(auto, using(tele_eq::proofs::Growing::growing))]
fn with_vars(variables: &[u32], mut made: Tele) -> Result<Tele, Stop>
    ensures { Gives tele_of result (Ok (tele_of made ++ map tree.Var variables.now)) }
{
    match variables {
        [] => Ok(made),
        [v, rest @ ..] => {
            made.push(Term::Var(*v))?;
            with_vars(rest, made)
        }
    }
}

/// Terms, followed by so many variables, the scrutinee and the further variables.
#[tactic(auto, using(tele_eq::proofs::Growing::growing))]
fn with_arguments(
    alloc: Global,
    at: u32,
    variables: &[u32],
    t: &Term,
    mut made: Tele,
) -> Result<Tele, Stop>
    ensures { Gives tele_of result (Ok (tele_of made ++ (map tree.Var (take at variables.now) ++ tree_of t.now ∷ map tree.Var (drop at variables.now)))) }
{
    match variables {
        [v, rest @ ..] if at > 0 => {
            made.push(Term::Var(*v))?;
            with_arguments(alloc, at - 1, rest, t, made)
        }
        _ => {
            made.push(copy_whole(alloc, t)?)?;
            with_vars(variables, made)
        }
    }
}

/// The variables of a walk's context in the helper's order, with the scrutinee in the place of the new variable.
fn helper_arguments(alloc: Global, a: &Abstracted, t: &Term) -> Result<Tele, Stop>
    ensures { Gives tele_of result (Ok (spec.helper_arguments (abstracted_of a.now) (tree_of t.now))) }
{
    with_arguments(alloc, a.at, a.order.as_slice(), t, Items::new(alloc))
}

/// The call of a helper.
pub(crate) fn helper_call(
    alloc: Global,
    s: Session,
    helper: u32,
    a: &Abstracted,
    t: &Term,
) -> Result<Term, Stop>
    ensures { Gives tree_of result (Ok (telescopes.applied (tree.Const ((session_of s.entry).own + helper)) (spec.helper_arguments (abstracted_of a.now) (tree_of t.now)))) }
{
    let head = Term::Const(sum(s.own, helper)?);
    let arguments = helper_arguments(alloc, a, t)?;
    applied(alloc, head, arguments.into_vec())
}
