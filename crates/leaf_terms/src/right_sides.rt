ghost use Rattle.std.specs.Prelude.{◌≡◌, ◌∷◌, [], Ok, Some, option_map, reverse};
ghost use Rattle.core_terms.specs.Answers.{Gives};
ghost use Rattle.core_terms.specs.Meanings.{tree_of, tele_of};
ghost use Rattle.theory.specs.Telescopes as telescopes;
ghost use Rattle.tree_translation.specs.RightSides as sides;
ghost use Rattle.run_terms.specs.CodeNaming.{naming_of};
ghost use Rattle.leaf_terms.specs.CodeRightSides as spec;
ghost use Rattle.leaf_terms.specs.PlaceMeanings.{HavePlaceFamilies, arguments_of, belows_of, leaf_of};
ghost use Rattle.leaf_terms.specs.PlanMeanings.{plan_of};

use crate::below_values::BelowValue;
use crate::calls::call_in;
use crate::entry_names::helper_name;
use crate::leaves::Translation;
use crate::towers::{or_tower, or_towers};
use core_terms::{Stop, Tele, Term, applied, copy_whole, next};
use run_terms::{constant, raised};
use std::alloc::Global;

/// A leaf in its whole context: the terms of its columns there, and the below values, one for each recursion.
#[derive(Drop)]
pub struct Place<'a> {
    pub terms: Tele,
    pub belows: Vec<BelowValue<'a>>,
}

/// `head` applied to the values of these.
fn applied_to_belows(
    alloc: Global,
    under: u32,
    head: Term,
    belows: &[BelowValue],
) -> Result<Term, Stop>
    ensures { Gives tree_of result (Ok (telescopes.applied (tree_of head) (sides.belows_behind under (belows_of belows.now)))) }
{
    match belows {
        [] => Ok(head),
        [b, rest @ ..] => {
            let value = raised(alloc, under, 0, &b.value)?;
            let head = Term::new_app(alloc, head, value)?;
            applied_to_belows(alloc, under, head, rest)
        }
    }
}

/// The call of helper k.
#[tactic(auto, using(run_terms::proofs::Spines::spines))]
fn helper_call(
    alloc: Global,
    w: &Translation,
    l: &Place,
    under: u32,
    k: u32,
    arguments: Vec<Term>,
) -> Result<Term, Stop>
    ensures { Gives tree_of result (Ok (sides.helper_call (naming_of w.now.naming) (plan_of w.now.plan.now) (leaf_of l.now) under k (tele_of arguments.items))) }
{
    let name = helper_name(alloc, &w.plan.name, k)?;
    let head = constant(w.naming, &name)?;
    let head = applied(alloc, head, arguments)?;
    applied_to_belows(alloc, under, head, l.belows.as_slice())
}

/// A head applied to arguments, where those that are too high have a tower in their place.
fn head_applied(
    alloc: Global,
    head: Term,
    arguments: Vec<Option<Term>>,
) -> Result<Option<Term>, Stop>
    ensures { Gives (option_map tree_of) result (Ok (Some (telescopes.applied (tree_of head) (spec.or_towers (arguments_of arguments.items))))) }
{
    let arguments = or_towers(alloc, arguments)?;
    Ok(Some(applied(alloc, head, arguments)?))
}

/// The call of helper k, with such arguments.
fn helper_applied(
    alloc: Global,
    w: &Translation,
    l: &Place,
    under: u32,
    k: u32,
    arguments: Vec<Option<Term>>,
) -> Result<Option<Term>, Stop>
    ensures { Gives (option_map tree_of) result (Ok (Some (sides.helper_call (naming_of w.now.naming) (plan_of w.now.plan.now) (leaf_of l.now) under k (spec.or_towers (arguments_of arguments.items))))) }
{
    let arguments = or_towers(alloc, arguments)?;
    Ok(Some(helper_call(alloc, w, l, under, k, arguments)?))
}

/// A constant with its arguments.
fn constant_at(
    alloc: Global,
    w: &Translation,
    l: &Place,
    under: u32,
    c: u32,
    arguments: Vec<Option<Term>>,
) -> Result<Option<Term>, Stop>
    requires { HavePlaceFamilies w.now.sig.now l.now }
    ensures { Gives (option_map tree_of) result (spec.constant_made (naming_of w.now.naming) (plan_of w.now.plan.now) (leaf_of l.now) under c (arguments_of arguments.items)) }
{
    if c < w.plan.base {
        return head_applied(alloc, Term::Const(c), arguments);
    }
    if c == w.plan.base {
        return call_in(
            alloc,
            w,
            l.terms.as_slice(),
            l.belows.as_slice(),
            under,
            arguments,
        );
    }
    helper_applied(alloc, w, l, under, c - w.plan.base, arguments)
}

/// Arguments in their order; they are given in reverse.
#[tactic(auto, using(crate::proofs::Turning::turning))]
fn in_order(mut arguments: Vec<Option<Term>>) -> Vec<Option<Term>>
    ensures { arguments_of result.items ≡ reverse (arguments_of arguments.items) }
{
    arguments.reverse();
    arguments
}

/// Arguments in reverse, with one before them in their order.
#[tactic(auto, using(crate::proofs::Turning::turning))]
fn with_first(mut arguments: Vec<Option<Term>>, a: Option<Term>) -> Result<Vec<Option<Term>>, Stop>
    ensures { Gives (λ v. reverse (arguments_of v.items)) result (Ok (option_map tree_of a ∷ reverse (arguments_of arguments.items))) }
{
    arguments.push(a)?;
    Ok(arguments)
}

/// A part of a term, with all calls in it.
#[cycle(calls)]
fn part_with_calls(
    alloc: Global,
    w: &Translation,
    l: &Place,
    under: u32,
    t: &Term,
) -> Result<Term, Stop>
    requires { HavePlaceFamilies w.now.sig.now l.now }
    ensures { Gives tree_of result (spec.part_made (spec.calls_made (naming_of w.now.naming) (plan_of w.now.plan.now) (leaf_of l.now) under [] (tree_of t.now))) }
{
    let made = with_calls(alloc, w, l, under, Vec::new(alloc), t)?;
    or_tower(alloc, made)
}

/// A term that is no application and no constant, under so many binders, with all calls in it.
#[cycle(calls)]
fn head_with_calls(
    alloc: Global,
    w: &Translation,
    l: &Place,
    under: u32,
    t: &Term,
) -> Result<Term, Stop>
    requires { HavePlaceFamilies w.now.sig.now l.now }
    ensures { Gives tree_of result (spec.head_made (λ under t. spec.part_made (spec.calls_made (naming_of w.now.naming) (plan_of w.now.plan.now) (leaf_of l.now) under [] t)) under (tree_of t.now)) }
{
    match t {
        Term::Pi(domain, codomain) => {
            let inner = next(under)?;
            Term::product_of(
                alloc,
                part_with_calls(alloc, w, l, under, domain),
                part_with_calls(alloc, w, l, inner, codomain),
            )
        }
        Term::Lam(domain, body) => {
            let inner = next(under)?;
            Term::function_of(
                alloc,
                part_with_calls(alloc, w, l, under, domain),
                part_with_calls(alloc, w, l, inner, body),
            )
        }
        Term::Let(ty, value, rest) => {
            let inner = next(under)?;
            Term::local_of(
                alloc,
                part_with_calls(alloc, w, l, under, ty),
                part_with_calls(alloc, w, l, under, value),
                part_with_calls(alloc, w, l, inner, rest),
            )
        }
        Term::Var(_)
        | Term::Sort(_)
        | Term::App(_, _)
        | Term::Const(_)
        | Term::Fam(_)
        | Term::Con(_, _)
        | Term::Elim(_, _)
        | Term::AxiomK(_, _) => copy_whole(alloc, t),
    }
}

/// A term under so many binders, applied to arguments, the first of which comes last, with all calls in it. None where it is the call
/// of a path that is too high.
#[cycle(calls)]
pub fn with_calls(
    alloc: Global,
    w: &Translation,
    l: &Place,
    under: u32,
    arguments: Vec<Option<Term>>,
    t: &Term,
) -> Result<Option<Term>, Stop>
    requires { HavePlaceFamilies w.now.sig.now l.now }
    ensures { Gives (option_map tree_of) result (spec.calls_made (naming_of w.now.naming) (plan_of w.now.plan.now) (leaf_of l.now) under (reverse (arguments_of arguments.items)) (tree_of t.now)) }
{
    match t {
        Term::App(f, a) => {
            let a = with_calls(alloc, w, l, under, Vec::new(alloc), a)?;
            let arguments = with_first(arguments, a)?;
            with_calls(alloc, w, l, under, arguments, f)
        }
        Term::Const(c) => constant_at(alloc, w, l, under, *c, in_order(arguments)),
        Term::Var(_)
        | Term::Sort(_)
        | Term::Pi(_, _)
        | Term::Lam(_, _)
        | Term::Let(_, _, _)
        | Term::Fam(_)
        | Term::Con(_, _)
        | Term::Elim(_, _)
        | Term::AxiomK(_, _) => {
            let head = head_with_calls(alloc, w, l, under, t)?;
            head_applied(alloc, head, in_order(arguments))
        }
    }
}
