ghost use Rattle.std.specs.Prelude.{◌≡◌, map};
ghost use Rattle.core_terms.specs.Answers.{Gives};
ghost use Rattle.core_terms.specs.Meanings.{tree_of, tele_of};
ghost use Rattle.case_trees.specs.Points as spec;
ghost use Rattle.clause_walks.specs.Forgetting.{forget_all};
ghost use Rattle.clause_walks.specs.Meanings.{pair_of, pairs_of};
ghost use Rattle.clause_walks.specs.MovedPairs as behind;
ghost use Rattle.clause_walks.specs.PointConditions.{AreOverSo};
ghost use Rattle.problems.specs.Conditions.{most_levels};

use crate::Pair;
use crate::pairs::{binds_with, clashes_with, keeps_with, waits_with};
use core_terms::{Items, Stop, Term, inst, inst_terms};
use std::alloc::Global;

/// The pair where the variables of its context have the terms of a solution, or Deep. The term of a wildcard is forgotten.
#[cycle(moving)]
fn moved_pair<'a>(alloc: Global, solution: &[Term], pair: &Pair<'a>) -> Result<Pair<'a>, Stop>
    requires solution { AreOverSo most_levels (tele_of solution.now) }
    ensures { Gives pair_of result (behind.pair_made (tele_of solution.now) (pair_of pair.now)) }
{
    match pair {
        Pair::Waits(pat, t) => waits_with(*pat, inst(alloc, solution, t)),
        Pair::Binds(t) => binds_with(inst(alloc, solution, t)),
        Pair::Passes(_) => Ok(Pair::Passes(Term::Sort(0))),
        Pair::Keeps(written, t) => keeps_with(*written, inst(alloc, solution, t)),
        Pair::Builds(n, number, ps, pairs) => {
            let ps = inst_terms(alloc, solution, ps.as_slice())?;
            let pairs = moved_onto(alloc, solution, pairs.as_slice(), Items::new(alloc))?;
            Ok(Pair::Builds(*n, *number, ps, pairs))
        }
        Pair::Clashes(pat, t) => clashes_with(*pat, inst(alloc, solution, t)),
    }
}

/// Each of the pairs moved so, after those that are already there.
#[cycle(moving)]
fn moved_onto<'a>(
    alloc: Global,
    solution: &[Term],
    pairs: &[Pair<'a>],
    mut made: Items<Pair<'a>>,
) -> Result<Items<Pair<'a>>, Stop>
    requires solution { AreOverSo most_levels (tele_of solution.now) }
    ensures { Gives pairs_of result (behind.made_behind (map pair_of made.entry) (tele_of solution.now) (pairs_of pairs.now)) }
{
    match pairs {
        [] => Ok(made),
        [pair, rest @ ..] => {
            made.push(moved_pair(alloc, solution, pair)?)?;
            moved_onto(alloc, solution, rest, made)
        }
    }
}

/// The pairs where the variables of their context have the terms of a solution, or Deep. The terms of wildcards are forgotten.
pub fn moved_pairs<'a>(
    alloc: Global,
    solution: &[Term],
    pairs: &[Pair<'a>],
) -> Result<Items<Pair<'a>>, Stop>
    requires solution { AreOverSo most_levels (tele_of solution.now) }
    ensures { Gives pairs_of result (spec.bounded_pairs (forget_all (spec.moved_pairs (tele_of solution.now) (pairs_of pairs.now)))) }
{
    moved_onto(alloc, solution, pairs, Items::new(alloc))
}
