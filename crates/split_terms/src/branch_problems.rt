ghost use Rattle.std.specs.Prelude.{◌≡◌, ◌++◌, ◌∷◌, [], ◌+◌, Ok, length};
ghost use Rattle.core_terms.specs.Answers.{Gives};
ghost use Rattle.core_terms.specs.Meanings.{tree_of, tele_of};
ghost use Rattle.core_sig.specs.Meanings.{constructor_of, family_of};
ghost use Rattle.tele_eq.specs.Items.{items_of};
ghost use Rattle.theory.specs.Terms.{Var};
ghost use Rattle.unification.specs.Injecting as injecting;
ghost use Rattle.unification.specs.Records as records;
ghost use Rattle.unification.specs.States.{starting};
ghost use Rattle.problems.specs.Meanings.{problem_of as problem_meant};
ghost use Rattle.case_trees.specs.Problems as problems;
ghost use Rattle.problems.specs.MemberMeanings.{member_meant};
ghost use Rattle.problems.specs.ProblemsMade.{problem_of_parts};
ghost use Rattle.run_terms.specs.StandingMeanings.{standing_of, state_of};
ghost use Rattle.split_terms.specs.Bare.{bare_standing, bare_state, bare_state_made};
ghost use Rattle.split_terms.specs.CodeSplits as spec;
ghost use Rattle.split_terms.specs.NodeMeanings.{FitsIn, node_of};

use crate::members::with_types;
use crate::node::Node;
use core_sig::Constructor;
use core_terms::{Items, Stop, Tele, Term, copy_tele, number_of, sum};
use problems::{Member, Problem};
use run_terms::{
    Standing, State, all_raised, argument_items, constructor_terms, equations_made, family_items,
    joined_equations, raised, with_all, with_levels,
};
use std::alloc::Global;
use tele_eq::Item;

/// The telescope of a constructor's arguments at the family's parameters.
pub fn arguments_at(alloc: Global, m: &Member, con: &Constructor) -> Result<Items<Item>, Stop>
    requires kinds { FitsIn m.now con.now }
    requires parameters { length m.now.params ≡ length m.now.family.now.params }
    ensures { Gives items_of result (Ok (records.argument_items m.now.number (tele_of m.now.params) (constructor_of (length m.now.family.now.params) con.now))) }
{
    argument_items(alloc, m.params.as_slice(), con)
}

/// The targets of a constructor and the constructor itself at the family's parameters, after its arguments.
fn terms_at(alloc: Global, m: &Member, number: u32, con: &Constructor) -> Result<Tele, Stop>
    ensures { Gives tele_of result (Ok (records.constructor_terms m.now.number number (tele_of m.now.params) (constructor_of (length m.now.family.now.params) con.now))) }
{
    constructor_terms(alloc, m.number, number, m.params.as_slice(), con)
}

/// The telescope of the family's indices, with the family at them, after so many arguments.
pub fn indices_after(alloc: Global, m: &Member, count: u32) -> Result<Items<Item>, Stop>
    ensures { Gives items_of result (Ok (records.family_items m.now.number (family_of m.now.family.now) (injecting.lifted count (tele_of m.now.params)))) }
{
    let params = all_raised(alloc, count, m.params.as_slice())?;
    family_items(alloc, m.number, m.family, params.as_slice())
}

/// The indices after so many arguments, and the variable that is split.
#[tactic(auto, using(tele_eq::proofs::Growing::growing))]
fn right_terms(alloc: Global, m: &Member, x: u32, count: u32) -> Result<Tele, Stop>
    ensures { Gives tele_of result (Ok (injecting.lifted count (tele_of m.now.indices) ++ Var (x + count) ∷ [])) }
{
    let mut made = all_raised(alloc, count, m.indices.as_slice())?;
    made.push(Term::Var(sum(x, count)?))?;
    Ok(made)
}

/// The problem of a constructor with so many arguments; the telescope and the left terms follow them.
fn problem_from(
    alloc: Global,
    node: &Node,
    m: &Member,
    x: u32,
    count: u32,
    arguments: &[Item],
    tele: Items<Item>,
    left: Tele,
) -> Result<Problem, Stop>
    ensures { Gives problem_meant result (Ok (problem_of_parts (tele_of node.now.ctx) x count (tele_of m.now.indices) (items_of arguments.now) (items_of tele) (tele_of left))) }
{
    let right = right_terms(alloc, m, x, count)?;
    let ctx = with_types(alloc, arguments, copy_tele(alloc, node.ctx.as_slice())?)?;
    Ok(Problem {
        ctx,
        tele,
        left,
        right,
    })
}

/// The problem of a constructor for the variable that is split.
fn branch_problem(
    alloc: Global,
    node: &Node,
    m: &Member,
    x: u32,
    number: u32,
    con: &Constructor,
) -> Result<Problem, Stop>
    requires kinds { FitsIn m.now con.now }
    requires parameters { length m.now.params ≡ length m.now.family.now.params }
    ensures { Gives problem_meant result (Ok (problems.problem_of (tele_of node.now.ctx) x (member_meant m.now) number (constructor_of (length m.now.family.now.params) con.now))) }
{
    let arguments = arguments_at(alloc, m, con)?;
    let count = number_of(con.args.as_slice().len())?;
    let tele = indices_after(alloc, m, count)?;
    let left = terms_at(alloc, m, number, con)?;
    problem_from(alloc, node, m, x, count, arguments.as_slice(), tele, left)
}

/// The state from which a problem is solved, where its equations have these types.
fn starting_state(alloc: Global, p: Problem, types: &[Term]) -> Result<State, Stop>
    ensures { Gives state_of result (Ok (bare_state (starting (problem_meant p) (tele_of types.now)))) }
{
    let Problem {
        ctx,
        tele,
        left,
        right,
    } = p;
    let start = State {
        ctx,
        equations: Items::new(alloc),
    };
    let (left, right) = (left.as_slice(), right.as_slice());
    let equations = joined_equations(
        alloc,
        &start,
        0,
        tele.as_slice(),
        types,
        left,
        right,
        &[],
        &[],
    )?;
    Ok(State {
        ctx: start.ctx,
        equations,
    })
}

/// The state from which a problem is solved, or Deep.
fn problem_state(alloc: Global, p: Problem) -> Result<State, Stop>
    ensures { Gives state_of result (bare_state_made (problem_meant p)) }
{
    let types = equations_made(alloc, &p.tele, &p.left, &p.right)?;
    starting_state(alloc, p, types.as_slice())
}

/// The standing of a state after the node's context and so many arguments.
fn standing_with(alloc: Global, node: &Node, count: u32, state: State) -> Result<Standing, Stop>
    ensures { Gives standing_of result (Ok (spec.standing_with (node_of node.now) count (state_of state))) }
{
    let depth = sum(number_of(node.ctx.as_slice().len())?, count)?;
    Ok(Standing {
        state,
        goal: raised(alloc, count, 0, &node.goal)?,
        hidden: with_all(Items::new(alloc), node.hidden.as_slice())?,
        variables: with_levels(0, depth, Items::new(alloc))?,
        depth,
    })
}

/// The standing from which the run of a constructor starts, after the node's context and the constructor's arguments, or Deep.
pub fn branch_standing(
    alloc: Global,
    node: &Node,
    m: &Member,
    x: u32,
    number: u32,
    con: &Constructor,
) -> Result<Standing, Stop>
    requires kinds { FitsIn m.now con.now }
    requires parameters { length m.now.params ≡ length m.now.family.now.params }
    ensures { Gives standing_of result (bare_standing (node_of node.now) (member_meant m.now) x number (constructor_of (length m.now.family.now.params) con.now)) }
{
    let problem = branch_problem(alloc, node, m, x, number, con)?;
    let state = problem_state(alloc, problem)?;
    standing_with(alloc, node, number_of(con.args.as_slice().len())?, state)
}
