ghost use Rattle.std.specs.Prelude.{◌≡◌, ◌+◌, ◌++◌, Ok, length};
ghost use Rattle.core_terms.specs.Answers.{Gives};
ghost use Rattle.core_terms.specs.Meanings.{tree_of, tele_of};
ghost use Rattle.theory.specs.Telescopes.{applied};
ghost use Rattle.theory.specs.Terms as tree;
ghost use Rattle.tree_translation.specs.Comparisons.{right_member};
ghost use Rattle.tree_translation.specs.Naming.{noconf_name};
ghost use Rattle.tree_translation.specs.SolutionTerms.{remaining_goal};
ghost use Rattle.tree_translation.specs.Standings.{all_here, inside, levels_from, placed};
ghost use Rattle.run_terms.specs.CodeConfusions as spec;
ghost use Rattle.run_terms.specs.CodeNaming.{naming_of};
ghost use Rattle.run_terms.specs.ComparisonMeanings.{comparison_of};
ghost use Rattle.run_terms.specs.StandingMeanings.{standing_of};

use crate::comparisons::{Comparison, left_member, right_member};
use crate::instances::{family_items, items_at};
use crate::level_lists::{with_all, with_levels};
use crate::names::noconf_name;
use crate::naming::{Naming, constant};
use crate::placing::{placed, placed_telescope};
use crate::smallness::{equations_made, reflexivities_made};
use crate::solution_terms::remaining_goal;
use crate::standings::{applied_here, applied_to_first, applied_to_further, inside};
use crate::state::Standing;
use core_terms::{Items, Stop, Tele, Term, functions, next, number_of, sum};
use std::alloc::Global;

/// The equations between the two members of a comparison, or Deep where something in them is too high.
fn member_equations(alloc: Global, c: &Comparison) -> Result<Tele, Stop>
    ensures { Gives tele_of result (spec.member_equations (comparison_of c.now)) }
{
    let built = c.left.built;
    let items = family_items(alloc, built.family, built.record, c.parameters.as_slice())?;
    let left = left_member(alloc, c)?;
    let right = right_member(alloc, c)?;
    equations_made(alloc, &items, &left, &right)
}

/// These equations after the equations of a standing.
fn compared_equations(alloc: Global, s: &Standing, c: &Comparison) -> Result<Tele, Stop>
    ensures { Gives tele_of result (spec.compared_made (standing_of s.now) (comparison_of c.now)) }
{
    let types = member_equations(alloc, c)?;
    let levels = with_all(Items::new(alloc), s.variables.as_slice())?;
    placed_telescope(
        alloc,
        levels,
        inside(s)?,
        types.as_slice(),
        Items::new(alloc),
    )
}

/// Reflexivities of the indices of the right member, or Deep where something in them is too high.
fn index_reflexivities(alloc: Global, c: &Comparison) -> Result<Tele, Stop>
    ensures { Gives tele_of result (spec.index_reflexivities (comparison_of c.now)) }
{
    let indices = c.left.built.record.indices.as_slice();
    let items = items_at(alloc, c.parameters.as_slice(), indices)?;
    reflexivities_made(alloc, &items, &c.indices)
}

/// The terms before the equations of a group of `k + 1`: reflexivities if there is one equation alone, and else nothing.
fn before_group(alloc: Global, c: &Comparison, k: u32) -> Result<Tele, Stop>
    ensures { Gives tele_of result (spec.before_group (comparison_of c.now) k) }
{
    if k == 0 {
        index_reflexivities(alloc, c)
    } else {
        Ok(Items::new(alloc))
    }
}

/// `head` at these and at the first `k + 1` equations.
#[tactic(auto, using(crate::proofs::Spines::spines))]
fn applied_to_group(
    alloc: Global,
    head: Term,
    s: &Standing,
    before: &[Term],
    k: u32,
) -> Result<Term, Stop>
    ensures { Gives tree_of result (Ok (applied (tree_of head) (spec.group_with (standing_of s.now) (tele_of before.now) k))) }
{
    let head = applied_here(alloc, head, s, before)?;
    applied_to_first(alloc, head, s, next(k)?)
}

/// `D!noconf.c.L`.
fn confusion(alloc: Global, naming: Naming, level: u8, c: &Comparison) -> Result<Term, Stop>
    ensures { Gives tree_of result (Ok (tree.Const (naming_of naming.entry (noconf_name (comparison_of c.now).family (comparison_of c.now).left.number level)))) }
{
    let built = c.left.built;
    let name = noconf_name(alloc, built.record, built.number, level)?;
    constant(naming, &name)
}

/// `head` at the right member of a comparison.
fn applied_to_right(alloc: Global, head: Term, s: &Standing, c: &Comparison) -> Result<Term, Stop>
    ensures { Gives tree_of result (Ok (applied (tree_of head) (all_here (standing_of s.now) (right_member (comparison_of c.now))))) }
{
    let right = right_member(alloc, c)?;
    applied_here(alloc, head, s, right.as_slice())
}

/// `D!noconf.c.L ps as vs (c' ps bs) E`, where the terms before the equations of the group are given.
#[tactic(auto, using(crate::proofs::Spines::spines))]
fn confused(
    alloc: Global,
    naming: Naming,
    level: u8,
    s: &Standing,
    k: u32,
    c: &Comparison,
    before: &[Term],
) -> Result<Term, Stop>
    ensures { Gives tree_of result (Ok (spec.confused_with (naming_of naming.entry) level (standing_of s.now) k (comparison_of c.now) (tele_of before.now))) }
{
    let head = confusion(alloc, naming, level, c)?;
    let head = applied_here(alloc, head, s, c.parameters.as_slice())?;
    let head = applied_here(alloc, head, s, c.left.arguments.as_slice())?;
    let head = applied_to_right(alloc, head, s, c)?;
    applied_to_group(alloc, head, s, before, k)
}

/// `E2 -> G`, after a group of `k + 1` equations that are bound anew.
fn goal_after_group(alloc: Global, s: &Standing, k: u32) -> Result<Term, Stop>
    ensures { Gives tree_of result (Ok (remaining_goal (standing_of s.now) (k + 1) (standing_of s.now).variables (levels_from (inside (standing_of s.now)) (k + 1)) (inside (standing_of s.now) + (k + 1)))) }
{
    let g = next(k)?;
    let depth = inside(s)?;
    let end = sum(depth, g)?;
    let equations = with_levels(depth, g, Items::new(alloc))?;
    let variables = s.variables.as_slice();
    remaining_goal(alloc, s, g, variables, equations.as_slice(), end)
}

/// `\E. E2 -> G`.
fn injection_motive(alloc: Global, s: &Standing, k: u32, types: Tele) -> Result<Term, Stop>
    ensures { Gives tree_of result (Ok (spec.injection_motive (standing_of s.now) (k + 1) (tele_of types))) }
{
    let goal = goal_after_group(alloc, s, k)?;
    functions(alloc, types.into_vec(), goal)
}

/// The term of an injectivity of a group of `k + 1` equations, from the term of the next state, or Deep where something in it is too
/// high.
pub fn inject_term(
    alloc: Global,
    naming: Naming,
    level: u8,
    s: &Standing,
    k: u32,
    c: &Comparison,
    inner: Term,
) -> Result<Term, Stop>
    ensures { Gives tree_of result (spec.inject_made (naming_of naming.entry) level (standing_of s.now) k (comparison_of c.now) (tree_of inner)) }
{
    let types = compared_equations(alloc, s, c)?;
    let before = before_group(alloc, c, k)?;
    let head = confused(alloc, naming, level, s, k, c, before.as_slice());
    let head = Term::application_of(alloc, head, injection_motive(alloc, s, k, types));
    let head = Term::application_of(alloc, head, Ok(inner));
    applied_to_further(alloc, head?, s, next(k)?)
}

/// `G`, after the equations and some that are bound anew.
fn goal_after_types(alloc: Global, s: &Standing, types: &[Term]) -> Result<Term, Stop>
    ensures { Gives tree_of result (Ok (placed (standing_of s.now).variables (inside (standing_of s.now) + length (tele_of types.now)) (standing_of s.now).goal)) }
{
    let count = number_of(types.len())?;
    let end = sum(inside(s)?, count)?;
    placed(alloc, s.variables.as_slice(), end, &s.goal)
}

/// `\E. G`.
fn conflict_motive(alloc: Global, s: &Standing, types: Tele) -> Result<Term, Stop>
    ensures { Gives tree_of result (Ok (spec.conflict_motive (standing_of s.now) (tele_of types))) }
{
    let goal = goal_after_types(alloc, s, types.as_slice())?;
    functions(alloc, types.into_vec(), goal)
}

/// The term of a conflict of a group of `k + 1` equations, or Deep where something in it is too high.
pub fn conflict_term(
    alloc: Global,
    naming: Naming,
    level: u8,
    s: &Standing,
    k: u32,
    c: &Comparison,
) -> Result<Term, Stop>
    ensures { Gives tree_of result (spec.conflict_made (naming_of naming.entry) level (standing_of s.now) k (comparison_of c.now)) }
{
    let types = compared_equations(alloc, s, c)?;
    let before = before_group(alloc, c, k)?;
    let head = confused(alloc, naming, level, s, k, c, before.as_slice());
    Term::application_of(alloc, head, conflict_motive(alloc, s, types))
}
