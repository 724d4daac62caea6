ghost use Rattle.std.specs.Prelude.{◌≡◌, ◌≤◌, ◌<◌, ◌+◌, ◌++◌, IfOk, Ok, length};
ghost use Rattle.core_terms.specs.Answers.{Gives};
ghost use Rattle.core_terms.specs.Meanings.{tree_of, tele_of};
ghost use Rattle.tele_eq.specs.Items.{item_of, items_of};
ghost use Rattle.core_terms.specs.Bounds.{context_limit};
ghost use Rattle.problems.specs.Conditions.{HasFewVariables, HaveFewVariables, most_levels};
ghost use Rattle.unification.specs.Heights as spec;
ghost use Rattle.problems.specs.CodeMoves.{equation_with};
ghost use Rattle.problems.specs.Meanings.{equation_of, equations_of, problem_of, state_of};
ghost use Rattle.unification.specs.States as states;

use crate::heights::{checked_state, equations_made};
use crate::problem::Problem;
use core_terms::{Items, Stop, Tele, Term, copy_tele, copy_whole};
use std::alloc::Global;
use tele_eq::{Item, variables};

/// An equation between two terms of the context: its place in a telescope, its type as it is, after the equations before it,
/// and its plain sides.
#[derive(Debug, Drop)]
pub struct Equation {
    pub place: Item,
    pub ty: Term,
    pub left: Term,
    pub right: Term,
}

/// The equations that are left in a context, and a term for each variable of the context that was given.
#[derive(Debug, Drop)]
pub struct State {
    pub ctx: Tele,
    pub equations: Items<Equation>,
    pub subst: Tele,
}

/// The equations at the places of a telescope.
#[tactic(auto, using(tele_eq::proofs::Growing::growing))]
pub fn equations_at(
    alloc: Global,
    tele: &[Item],
    types: &[Term],
    left: &[Term],
    right: &[Term],
    mut made: Items<Equation>,
) -> Result<Items<Equation>, Stop>
    ensures { Gives equations_of result (Ok (equations_of made ++ states.equations_at (items_of tele.now) (tele_of types.now) (tele_of left.now) (tele_of right.now))) }
{
    let [x, tele @ ..] = tele else {
        return Ok(made);
    };
    let [ty, types @ ..] = types else {
        return Ok(made);
    };
    let [u, left @ ..] = left else {
        return Ok(made);
    };
    let [v, right @ ..] = right else {
        return Ok(made);
    };
    made.push(equation_at(alloc, x, ty, u, v)?)?;
    equations_at(alloc, tele, types, left, right, made)
}

/// The equation of two terms at a place.
fn equation_at(alloc: Global, x: &Item, ty: &Term, u: &Term, v: &Term) -> Result<Equation, Stop>
    ensures { Gives equation_of result (Ok (equation_with (item_of x.now) (tree_of ty.now) (tree_of u.now) (tree_of v.now))) }
{
    Ok(Equation {
        place: copy_item(alloc, x)?,
        ty: copy_whole(alloc, ty)?,
        left: copy_whole(alloc, u)?,
        right: copy_whole(alloc, v)?,
    })
}

fn copy_item(alloc: Global, x: &Item) -> Result<Item, Stop>
    ensures { Gives item_of result (Ok (item_of x.now)) }
{
    Ok(Item {
        ty: copy_whole(alloc, &x.ty)?,
        level: x.level,
    })
}

/// The state from which a problem is solved, or Deep where a term in it is too high.
pub fn start(alloc: Global, p: &Problem) -> Result<Box<State>, Stop>
    requires few { length p.now.ctx < context_limit }
    requires left { length p.now.left ≡ length p.now.tele }
    requires right { length p.now.right ≡ length p.now.tele }
    requires few_items { HasFewVariables (items_of p.now.tele) }
    requires few_left { HaveFewVariables (tele_of p.now.left) }
    requires few_right { HaveFewVariables (tele_of p.now.right) }
    ensures answer { Gives (λ s. state_of s.value) result (spec.start_made (problem_of p.now)) }
    ensures few { IfOk result (λ s. length (state_of s.value).context + length (state_of s.value).equations ≤ most_levels) }
{
    let types = equations_made(alloc, &p.tele, &p.left, &p.right)?;
    let equations = equations_at(
        alloc,
        p.tele.as_slice(),
        types.as_slice(),
        p.left.as_slice(),
        p.right.as_slice(),
        Items::new(alloc),
    )?;
    let ctx = copy_tele(alloc, p.ctx.as_slice())?;
    let subst = variables(alloc, ctx.as_slice().len() as u32)?;
    checked_state(
        alloc,
        State {
            ctx,
            equations,
            subst,
        },
    )
}
