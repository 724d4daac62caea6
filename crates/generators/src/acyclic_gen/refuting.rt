ghost use Rattle.std.specs.Prelude.{◌≡◌, ◌≤◌, ◌+◌, ◌++◌, IfOk, length, map};
ghost use Rattle.core_terms.specs.Answers.{Gives};
ghost use Rattle.core_terms.specs.Bounds.{most_height};
ghost use Rattle.core_terms.specs.Meanings.{tree_of, tele_of};
ghost use Rattle.core_sig.specs.Shapes.{argument_shape};
ghost use Rattle.tele_eq.specs.Items.{AreSmall, items_of};
ghost use Rattle.generators.specs.acyclic_gen.Bounds.{AreSmallArguments, IsNear, IsNearBranch, IsNearPush};
ghost use Rattle.generators.specs.acyclic_gen.Claims.{pushed_whole};
ghost use Rattle.generators.specs.acyclic_gen.Pushing as spec;
ghost use Rattle.generators.specs.acyclic_gen.Statements as statements;

use crate::acyclic_gen::carrier::Carrier;
use crate::acyclic_gen::claims::{Push, position_of, pushed_part, pushed_whole};
use crate::acyclic_gen::direct_arguments::directs;
use crate::acyclic_gen::pairings::{Pairing, component, projection};
use crate::acyclic_gen::point::{Point, at_level, built, point_at};
use crate::acyclic_gen::statements::{EMPTY, equal};
use case_below_gen::Side;
use core_sig::Arg;
use core_terms::{Items, Run, Stop, Tele, Term, applied_to_run, functions, place, variable};
use std::alloc::Global;
use tele_eq::{Item, tele_equations_whole, variables_of_run};

/// The branch of a push for constructor c': its number, the level of its first argument and how many there are, the level of the
/// first hypothesis, and that of the given tuple.
#[derive(Clone, Copy)]
pub struct Branch {
    pub number: u32,
    pub start: u32,
    pub count: u32,
    pub hypothesis: u32,
    pub given: u32,
}

/// The constructor c' at its arguments.
pub fn branch_point(branch: Branch) -> Point
    ensures { result ≡ spec.branch_point branch }
{
    built(branch.number, branch.start, branch.count)
}

/// The arguments as the types of a telescope at a depth, after those that are made.
#[tactic(auto, using(tele_eq::proofs::Growing::growing))]
fn placed_items(
    alloc: Global,
    runs: &[Run],
    size: u32,
    depth: u32,
    args: &[Arg],
    mut made: Items<Item>,
) -> Result<Items<Item>, Stop>
    requires size { size + length args.now ≤ 1000000 }
    requires depth { depth + length args.now ≤ 1000000 }
    ensures { Gives items_of result (Ok (items_of made ++ spec.placed_items runs.now size depth (map argument_shape args.now))) }
{
    match args {
        [] => Ok(made),
        [arg, rest @ ..] => {
            made.push(Item {
                ty: place(alloc, runs, size, depth, &arg.ty)?,
                level: arg.level,
            })?;
            placed_items(alloc, runs, size + 1, depth + 1, rest, made)
        }
    }
}

/// The constructor's own arguments as the types of a telescope, at a depth.
fn argument_items(
    alloc: Global,
    q: Carrier,
    push: Push,
    own: &[Arg],
    depth: u32,
) -> Result<Items<Item>, Stop>
    requires params { q.params ≤ most_height }
    requires own { AreSmallArguments (map argument_shape own.now) }
    requires depth { depth ≤ 200000 }
    ensures is { Gives items_of result (Ok (spec.argument_items q push (map argument_shape own.now) depth)) }
    ensures few { IfOk result (λ items. length items ≤ 1000) }
    ensures small { IfOk result (λ items. AreSmall (items_of items)) }
{
    let runs = [(0, q.params), (depth, push.count)];
    placed_items(alloc, &runs, q.params, depth, own, Items::new(alloc))
}

/// The equations of the constructor's own arguments and those of the branch, at a depth.
fn argument_equations(
    alloc: Global,
    q: Carrier,
    push: Push,
    own: &[Arg],
    branch: Branch,
    depth: u32,
) -> Result<Tele, Stop>
    requires params { q.params ≤ most_height }
    requires push { IsNearPush push }
    requires branch { IsNearBranch branch }
    requires own { AreSmallArguments (map argument_shape own.now) }
    requires depth { depth ≤ 200000 }
    ensures { Gives tele_of result (Ok (spec.argument_equations q push (map argument_shape own.now) branch depth)) }
{
    let tele = argument_items(alloc, q, push, own, depth)?;
    let left = variables_of_run(alloc, depth, push.first, push.count)?;
    let right = variables_of_run(alloc, depth, branch.start, push.count)?;
    tele_equations_whole(alloc, &tele, &left, &right)
}

/// The part of the given tuple about the argument at the push's position, at the equation of the two, after the equations.
fn refuted(
    alloc: Global,
    q: Carrier,
    push: Push,
    own: &[Arg],
    branch: Branch,
    depth: u32,
) -> Result<Term, Stop>
    requires push { IsNearPush push }
    requires branch { IsNearBranch branch }
    requires few { length own.now ≤ 1000 }
    requires depth { depth ≤ 200000 }
    ensures { Gives tree_of result (Ok (spec.refuted q push (map argument_shape own.now) branch depth)) }
{
    let inside = depth + push.count;
    let part = pushed_part(push);
    let other = branch.start + position_of(push);
    let directs = directs(alloc, branch.start, branch.hypothesis, own)?;
    let given = variable(inside, branch.given);
    let both = component(alloc, q, inside, part, other, directs.as_slice(), given)?;
    let pairing = Pairing::Within(part, at_level(other));
    let apart = projection(alloc, Side::First, q, inside, pairing, both)?;
    Term::new_app(alloc, apart, variable(inside, depth + position_of(push)))
}

/// The method of `D!noconf.c.0` for the constructor itself, at a depth.
fn by_arguments(
    alloc: Global,
    q: Carrier,
    push: Push,
    own: &[Arg],
    branch: Branch,
    depth: u32,
) -> Result<Term, Stop>
    requires params { q.params ≤ most_height }
    requires push { IsNearPush push }
    requires branch { IsNearBranch branch }
    requires own { AreSmallArguments (map argument_shape own.now) }
    requires depth { depth ≤ 200000 }
    ensures { Gives tree_of result (Ok (spec.by_arguments q push (map argument_shape own.now) branch depth)) }
{
    let equations = argument_equations(alloc, q, push, own, branch, depth)?;
    let end = refuted(alloc, q, push, own, branch, depth)?;
    functions(alloc, equations.into_vec(), end)
}

/// The equation of both constructors, at a depth.
fn equation(alloc: Global, q: Carrier, push: Push, y: Point, depth: u32) -> Result<Term, Stop>
    requires push { IsNearPush push }
    requires y { IsNear y }
    ensures { Gives tree_of result (Ok (statements.equal q depth (pushed_whole push) (statements.point_at q depth y))) }
{
    let right = point_at(alloc, q, depth, y)?;
    equal(alloc, q, depth, pushed_whole(push), right)
}

/// `D!noconf.c.0` at both constructors, their equation and the motive `\_. Empty`, at a depth.
fn confused(alloc: Global, q: Carrier, push: Push, y: Point, depth: u32) -> Result<Term, Stop>
    requires push { IsNearPush push }
    requires y { IsNear y }
    ensures { Gives tree_of result (Ok (spec.confused q push y depth)) }
{
    let head = applied_to_run(alloc, Term::Const(push.noconf), depth, 0, q.params)?;
    let head = applied_to_run(alloc, head, depth, push.first, push.count)?;
    let head = Term::application_of(alloc, Ok(head), point_at(alloc, q, depth, y));
    let head = Term::application_of(alloc, head, Ok(Term::Var(0)));
    let domain = equation(alloc, q, push, y, depth);
    let motive = Term::function_of(alloc, domain, Ok(Term::Fam(EMPTY)));
    Term::application_of(alloc, head, motive)
}

/// That the constructor at its arguments is not the branch's, at a depth.
pub fn refutation(
    alloc: Global,
    q: Carrier,
    push: Push,
    own: &[Arg],
    branch: Branch,
    depth: u32,
) -> Result<Term, Stop>
    requires params { q.params ≤ most_height }
    requires push { IsNearPush push }
    requires branch { IsNearBranch branch }
    requires own { AreSmallArguments (map argument_shape own.now) }
    requires depth { depth ≤ 100000 }
    ensures { Gives tree_of result (Ok (spec.refutation q push (map argument_shape own.now) branch depth)) }
{
    let y = branch_point(branch);
    let inside = depth + 1;
    let none = confused(alloc, q, push, y, inside);
    let body = if branch.number == push.constructor {
        let method = by_arguments(alloc, q, push, own, branch, inside);
        Term::application_of(alloc, none, method)
    } else {
        none
    };
    Term::function_of(alloc, equation(alloc, q, push, y, depth), body)
}
