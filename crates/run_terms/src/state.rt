ghost use Rattle.core_terms.specs.Answered.{shown};
ghost use Rattle.core_terms.specs.Answers.{Gives};
ghost use Rattle.core_terms.specs.Meanings.{tree_of};
ghost use Rattle.tele_eq.specs.Items.{item_of};
ghost use Rattle.run_terms.specs.AnsweredParts.{equation_between, standing_at};
ghost use Rattle.run_terms.specs.StandingMeanings.{equation_of, standing_of, state_of};

use core_terms::{Items, Stop, Tele, Term};
use tele_eq::Item;

/// An equation between two terms of a context: its place in a telescope, its type as it is, after the equations before it, and
/// its sides.
#[derive(Debug, Drop)]
pub struct Equation {
    pub place: Item,
    pub ty: Term,
    pub left: Term,
    pub right: Term,
}

/// The equations that are left in a context. It does not keep a term for each variable of the context that was given: no term of a run
/// mentions these.
#[derive(Debug, Drop)]
pub struct State {
    pub ctx: Tele,
    pub equations: Items<Equation>,
}

/// A state after `depth` binders, among which those of its variables have the levels `variables`; a goal over its context; and the
/// levels that its hidden variables have in the context.
#[derive(Debug, Drop)]
pub struct Standing {
    pub state: State,
    pub goal: Term,
    pub hidden: Items<u32>,
    pub variables: Items<u32>,
    pub depth: u32,
}

/// The equation at a place of two answers, its sides.
pub(crate) fn equation_between(
    place: Item,
    ty: Term,
    left: Result<Term, Stop>,
    right: Result<Term, Stop>,
) -> Result<Equation, Stop>
    ensures { Gives equation_of result (equation_between (item_of place) (tree_of ty) (shown left) (shown right)) }
{
    let left = left?;
    let right = right?;
    Ok(Equation {
        place,
        ty,
        left,
        right,
    })
}

/// The standing of a state at a depth, where the levels of its hidden variables and of its variables are answers.
pub(crate) fn standing_at(
    state: State,
    goal: Term,
    hidden: Result<Items<u32>, Stop>,
    variables: Result<Items<u32>, Stop>,
    depth: u32,
) -> Result<Standing, Stop>
    ensures { Gives standing_of result (standing_at (state_of state) (tree_of goal) hidden variables depth) }
{
    let hidden = hidden?;
    let variables = variables?;
    Ok(Standing {
        state,
        goal,
        hidden,
        variables,
        depth,
    })
}
