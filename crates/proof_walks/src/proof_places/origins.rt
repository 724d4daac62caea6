ghost use Rattle.std.specs.Prelude.{◌≡◌, ◌++◌, Ok, map};
ghost use Rattle.core_terms.specs.Answers.{Gives};
ghost use Rattle.core_terms.specs.Meanings.{tree_of, tele_of};
ghost use Rattle.tele_eq.specs.Items as items;
ghost use Rattle.clause_reports.specs.ProofWalks as spec;

use core_terms::{Items, Origin, Stop, Tele, Term, copy_whole, next, number_of};
use std::alloc::Global;

/// The term at a position, or Type 0 where there is none.
fn copied_at(alloc: Global, terms: &[Term], position: u32) -> Result<Term, Stop>
    ensures { Gives tree_of result (Ok (items.term_at (tele_of terms.now) position)) }
{
    match terms.get(position as usize) {
        Some(t) => copy_whole(alloc, t),
        None => Ok(Term::Sort(0)),
    }
}

/// The term of a variable of the tree's node, which is given by its number.
pub fn value_at(alloc: Global, values: &[Term], x: u32) -> Result<Term, Stop>
    ensures { Gives tree_of result (Ok (spec.value_at (tele_of values.now) x)) }
{
    let count = number_of(values.len())?;
    let after = next(x)?;
    copied_at(alloc, values, count.saturating_sub(after))
}

/// The term of a variable of a branch's context, from where it comes.
fn at_origin(
    alloc: Global,
    values: &[Term],
    arguments: &[Term],
    origin: Origin,
) -> Result<Term, Stop>
    ensures { Gives tree_of result (Ok (spec.at_origin (tele_of values.now) (tele_of arguments.now) origin)) }
{
    match origin {
        Origin::Old(x) => value_at(alloc, values, x),
        Origin::Arg(j) => copied_at(alloc, arguments, j),
    }
}

/// Terms, followed by those of variables, from where they come.
#[tactic(auto, using(tele_eq::proofs::Growing::growing))]
fn with_origins(
    alloc: Global,
    values: &[Term],
    arguments: &[Term],
    origins: &[Origin],
    mut made: Tele,
) -> Result<Tele, Stop>
    ensures { Gives tele_of result (Ok (tele_of made ++ map (spec.at_origin (tele_of values.now) (tele_of arguments.now)) origins.now)) }
{
    match origins {
        [] => Ok(made),
        [origin, rest @ ..] => {
            made.push(at_origin(alloc, values, arguments, *origin)?)?;
            with_origins(alloc, values, arguments, rest, made)
        }
    }
}

/// The terms of the variables in the branch of a constructor with these arguments.
pub fn values_in_branch(
    alloc: Global,
    values: &[Term],
    arguments: &[Term],
    origins: &[Origin],
) -> Result<Tele, Stop>
    ensures { Gives tele_of result (Ok (map (spec.at_origin (tele_of values.now) (tele_of arguments.now)) origins.now)) }
{
    with_origins(alloc, values, arguments, origins, Items::new(alloc))
}
