ghost use Rattle.std.specs.Prelude.{◌≡◌};
ghost use Rattle.tree_translation.specs.TreeTerms as trees;
ghost use Rattle.run_terms.specs.StandingMeanings.{standing_of};
ghost use Rattle.split_terms.specs.NodeMeanings.{node_of};

use core_terms::{Items, Tele, Term};
use run_terms::{Standing, State};

/// Where a variable is split: its context, a goal over the context, and the levels of the variables that steps know nothing of.
#[derive(Debug, Drop)]
pub struct Node {
    pub ctx: Tele,
    pub goal: Term,
    pub hidden: Items<u32>,
}

/// The node of a standing.
pub fn node_at(s: Standing) -> Node
    ensures { node_of result ≡ trees.node_of (standing_of s) }
{
    let Standing {
        state,
        goal,
        hidden,
        ..
    } = s;
    let State { ctx, .. } = state;
    Node { ctx, goal, hidden }
}
