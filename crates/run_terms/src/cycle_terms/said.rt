ghost use Rattle.std.specs.Prelude.{◌≡◌, ◌≤◌, ◌+◌, ◌++◌, Ok, drop, length, map};
ghost use Rattle.core_terms.specs.Answers.{Gives};
ghost use Rattle.core_terms.specs.Instances.{instance_of, under_binders};
ghost use Rattle.core_terms.specs.Meanings.{tree_of, tele_of};
ghost use Rattle.core_sig.specs.Shapes.{argument_shape};
ghost use Rattle.theory.specs.Eliminators.{no_variable};
ghost use Rattle.theory.specs.Spines.{spine_of};
ghost use Rattle.theory.specs.Substitutions.{fill};
ghost use Rattle.tree_translation.specs.CycleTerms as spec;
ghost use Rattle.run_terms.specs.cycle_terms.CodeCycles as parts;
ghost use Rattle.run_terms.specs.cycle_terms.SearchMeanings.{search_of};

use crate::cycle_terms::levels::after_arguments;
use crate::cycle_terms::searching::Search;
use crate::{instance, with_terms};
use case_below_gen::Side;
use core_sig::Arg;
use core_terms::{Stop, Tele, Term, copy_tele, copy_whole, into_spine, variable};
use generators::acyclic_gen::{Carrier, Pairing, at_level, component, directs, projection};
use std::alloc::Global;

/// The part of a tuple for the direct arguments about the one with the level `wanted`. The parameters have the first levels, the
/// variable the next one, and then come the arguments and the tuple, which has the level `last`.
fn said_at(
    alloc: Global,
    side: Side,
    q: Carrier,
    args: &[Arg],
    wanted: u32,
    last: u32,
) -> Result<Term, Stop>
    requires last { last ≡ q.params + 1 + length args.now }
    requires near { last ≤ 90000 }
    ensures { Gives tree_of result (Ok (parts.said_at side q (map argument_shape args.now) wanted last)) }
{
    let x = at_level(q.params);
    let directs = directs(alloc, q.params + 1, 0, args)?;
    let tuple = variable(last + 1, last);
    let said = component(alloc, q, last + 1, x, wanted, directs.as_slice(), tuple)?;
    let pairing = Pairing::Within(x, at_level(wanted));
    projection(alloc, side, q, last + 1, pairing, said)
}

/// The part of a tuple for the direct arguments about argument `at`.
fn said_by_levels(
    alloc: Global,
    side: Side,
    q: Carrier,
    args: &[Arg],
    at: usize,
) -> Result<Term, Stop>
    ensures { Gives tree_of result (Ok (parts.said_by_levels side q (map argument_shape args.now) at)) }
{
    let last = after_arguments(q, args.len())?;
    let wanted = after_arguments(q, at)?;
    said_at(alloc, side, q, args, wanted, last)
}

/// The terms after the first `count` ones.
fn after_terms(terms: &[Term], count: u32) -> &[Term]
    ensures { tele_of result.now ≡ drop count (tele_of terms.now) }
{
    if count == 0 {
        return terms;
    }
    match terms {
        [] => terms,
        [_, rest @ ..] => after_terms(rest, count - 1),
    }
}

/// Terms, followed by the arguments of a term's head after the first `count` ones.
fn with_arguments_after(alloc: Global, made: Tele, count: u32, t: &Term) -> Result<Tele, Stop>
    ensures { Gives tele_of result (Ok (tele_of made ++ drop count (spine_of (tree_of t.now)))) }
{
    let spine = into_spine(alloc, copy_whole(alloc, t)?)?;
    with_terms(alloc, made, after_terms(spine.as_slice(), count))
}

/// The terms for the variables of the part of a tuple.
#[tactic(auto, using(tele_eq::proofs::Growing::growing))]
fn said_values(alloc: Global, c: &Search, whole: &Term, tuple: Term) -> Result<Tele, Stop>
    ensures { Gives tele_of result (Ok (parts.said_values (search_of c.now) (tree_of whole.now) (tree_of tuple))) }
{
    let mut values = copy_tele(alloc, c.parameters)?;
    values.push(Term::Var(c.x))?;
    let mut values = with_arguments_after(alloc, values, c.carrier.params, whole)?;
    values.push(tuple)?;
    Ok(values)
}

/// The value for a variable, taken out of the values. A variable that no value stands for becomes `Type 0`.
fn taken(mut values: Vec<Term>, n: u32) -> Term
    ensures { tree_of result ≡ under_binders 0 (fill no_variable (tele_of values.items)) n }
{
    let place = n as usize;
    if place < values.len() {
        values.swap_remove(values.len() - 1 - place)
    } else {
        Term::Sort(0)
    }
}

/// A term with values for its variables. Along the last arguments a value is moved to its place: there the tuple is, in the
/// projections of a component.
fn instance_taking(alloc: Global, values: Vec<Term>, t: &Term) -> Result<Term, Stop>
    ensures { Gives tree_of result (Ok (instance_of (tele_of values.items) 0 (tree_of t.now))) }
{
    match t {
        Term::Var(n) => Ok(taken(values, *n)),
        Term::App(function, argument) => {
            let function = instance(alloc, values.as_slice(), function, 0)?;
            let argument = instance_taking(alloc, values, argument)?;
            Term::new_app(alloc, function, argument)
        }
        _ => instance(alloc, values.as_slice(), t, 0),
    }
}

/// The part of a tuple of `D!direct ps (ne x)` at the constructor `whole` about argument `at`: that the variable is not the
/// argument, or that it is no part of it.
pub fn said_of(
    alloc: Global,
    c: &Search,
    side: Side,
    whole: &Term,
    args: &[Arg],
    at: usize,
    tuple: Term,
) -> Result<Term, Stop>
    ensures { Gives tree_of result (Ok (spec.said_of (search_of c.now) side (tree_of whole.now) (map argument_shape args.now) at (tree_of tuple))) }
{
    let said = said_by_levels(alloc, side, c.carrier, args, at)?;
    let values = said_values(alloc, c, whole, tuple)?;
    instance_taking(alloc, values.into_vec(), &said)
}
