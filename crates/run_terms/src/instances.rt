ghost use Rattle.std.specs.Prelude.{◌≡◌, ◌++◌, ◌∷◌, [], Ok, length, map};
ghost use Rattle.core_terms.specs.Answers.{Gives};
ghost use Rattle.core_terms.specs.Instances.{instance_of, instances_of, telescope_instance_of, under_binders};
ghost use Rattle.core_terms.specs.Meanings.{tree_of, tele_of};
ghost use Rattle.core_sig.specs.Meanings.{family_of};
ghost use Rattle.tele_eq.specs.Items.{items_of};
ghost use Rattle.theory.specs.Eliminators.{no_variable};
ghost use Rattle.theory.specs.Substitutions.{fill, inst};
ghost use Rattle.theory.specs.Telescopes as telescopes;
ghost use Rattle.theory.specs.Terms as tree;
ghost use Rattle.unification.specs.Injecting as injecting;
ghost use Rattle.unification.specs.Records as records;

use crate::raising::raised;
use core_sig::{Arg, Family};
use core_terms::{
    Items, Stop, Tele, Term, applied, applied_to_nearest, copy_whole, next, number_of,
};
use std::alloc::Global;
use tele_eq::Item;

/// The term for a variable under so many binders: a value, the last one for the nearest variable, or Type 0.
fn value(alloc: Global, values: &[Term], n: u32, under: u32) -> Result<Term, Stop>
    ensures { Gives tree_of result (Ok (under_binders under (fill no_variable (tele_of values.now)) n)) }
{
    if n < under {
        return Ok(Term::Var(n));
    }
    let place = (n - under) as usize;
    if place < values.len() {
        raised(alloc, under, 0, &values[values.len() - 1 - place])
    } else {
        Ok(Term::Sort(0))
    }
}

/// A term with values for its variables, under so many binders of its own. Nothing tests its height.
pub fn instance(alloc: Global, values: &[Term], t: &Term, under: u32) -> Result<Term, Stop>
    ensures { Gives tree_of result (Ok (instance_of (tele_of values.now) under (tree_of t.now))) }
{
    match t {
        Term::Var(n) => value(alloc, values, *n, under),
        Term::Pi(domain, codomain) => {
            let inner = next(under)?;
            Term::product_of(
                alloc,
                instance(alloc, values, domain, under),
                instance(alloc, values, codomain, inner),
            )
        }
        Term::Lam(domain, body) => {
            let inner = next(under)?;
            Term::function_of(
                alloc,
                instance(alloc, values, domain, under),
                instance(alloc, values, body, inner),
            )
        }
        Term::App(function, argument) => Term::application_of(
            alloc,
            instance(alloc, values, function, under),
            instance(alloc, values, argument, under),
        ),
        Term::Let(ty, bound, rest) => {
            let inner = next(under)?;
            Term::local_of(
                alloc,
                instance(alloc, values, ty, under),
                instance(alloc, values, bound, under),
                instance(alloc, values, rest, inner),
            )
        }
        Term::Sort(_)
        | Term::Const(_)
        | Term::Fam(_)
        | Term::Con(_, _)
        | Term::Elim(_, _)
        | Term::AxiomK(_, _) => copy_whole(alloc, t),
    }
}

/// Terms, followed by others with values for their variables.
#[tactic(auto, using(tele_eq::proofs::Growing::growing))]
fn with_instances(
    alloc: Global,
    values: &[Term],
    terms: &[Term],
    mut made: Tele,
) -> Result<Tele, Stop>
    ensures { Gives tele_of result (Ok (tele_of made ++ instances_of (tele_of values.now) (tele_of terms.now))) }
{
    match terms {
        [] => Ok(made),
        [t, rest @ ..] => {
            made.push(instance(alloc, values, t, 0)?)?;
            with_instances(alloc, values, rest, made)
        }
    }
}

/// Terms with values for their variables.
#[tactic(auto, using(core_terms::proofs::Instances::instance_laws))]
pub fn all_instantiated(alloc: Global, values: &[Term], terms: &[Term]) -> Result<Tele, Stop>
    ensures { Gives tele_of result (Ok (map (inst (fill no_variable (tele_of values.now))) (tele_of terms.now))) }
{
    with_instances(alloc, values, terms, Items::new(alloc))
}

/// Items, followed by those of arguments or indices with values for the variables of the record; so many of these come before.
#[tactic(auto, using(tele_eq::proofs::Growing::growing))]
fn with_items(
    alloc: Global,
    values: &[Term],
    under: u32,
    args: &[Arg],
    mut made: Items<Item>,
) -> Result<Items<Item>, Stop>
    ensures { Gives items_of result (Ok (items_of made ++ records.items_at (telescope_instance_of (tele_of values.now) under (map (λ a. tree_of a.ty) args.now)) (map (λ a. a.level) args.now))) }
{
    match args {
        [] => Ok(made),
        [arg, rest @ ..] => {
            made.push(Item {
                ty: instance(alloc, values, &arg.ty, under)?,
                level: arg.level,
            })?;
            with_items(alloc, values, next(under)?, rest, made)
        }
    }
}

/// Arguments or indices at parameters.
#[tactic(auto, using(core_terms::proofs::Instances::instance_laws))]
pub fn items_at(alloc: Global, ps: &[Term], args: &[Arg]) -> Result<Items<Item>, Stop>
    ensures { Gives items_of result (Ok (records.items_at (telescopes.inst_telescope (fill no_variable (tele_of ps.now)) (map (λ a. tree_of a.ty) args.now)) (map (λ a. a.level) args.now))) }
{
    with_items(alloc, ps, 0, args, Items::new(alloc))
}

/// Terms, followed by others, each of them raised by so many variables.
#[tactic(auto, using(tele_eq::proofs::Growing::growing))]
fn with_raised(alloc: Global, by: u32, terms: &[Term], mut made: Tele) -> Result<Tele, Stop>
    ensures { Gives tele_of result (Ok (tele_of made ++ map (λ t. tree.lift t by 0) (tele_of terms.now))) }
{
    match terms {
        [] => Ok(made),
        [t, rest @ ..] => {
            made.push(raised(alloc, by, 0, t)?)?;
            with_raised(alloc, by, rest, made)
        }
    }
}

/// Each of the terms, raised by so many variables.
pub fn all_raised(alloc: Global, by: u32, terms: &[Term]) -> Result<Tele, Stop>
    ensures { Gives tele_of result (Ok (injecting.lifted by (tele_of terms.now))) }
{
    with_raised(alloc, by, terms, Items::new(alloc))
}

/// `head` at parameters and at the nearest `count` variables, which come after the parameters.
pub fn at_nearest(alloc: Global, head: Term, ps: &[Term], count: u32) -> Result<Term, Stop>
    requires { tree.free_of (tree_of head) ≡ 0 }
    ensures { Gives tree_of result (Ok (telescopes.applied (telescopes.weaken_by count (telescopes.applied (tree_of head) (tele_of ps.now))) (telescopes.variables count))) }
{
    let ps = all_raised(alloc, count, ps)?;
    applied_to_nearest(alloc, applied(alloc, head, ps.into_vec())?, count)
}

/// The telescope of a family's indices at parameters, and the family at them.
pub fn family_items(alloc: Global, n: u32, f: &Family, ps: &[Term]) -> Result<Items<Item>, Stop>
    ensures { Gives items_of result (Ok (records.family_items n (family_of f.now) (tele_of ps.now))) }
{
    let indices = f.indices.as_slice();
    let count = number_of(indices.len())?;
    let mut made = items_at(alloc, ps, indices)?;
    let ty = at_nearest(alloc, Term::Fam(n), ps, count)?;
    made.push(Item { ty, level: f.level })?;
    Ok(made)
}
