//! The facts that are kept of the tree of a node, so that it takes one step to know them.
ghost use Rattle.std.specs.Prelude.{◌≡◌, ◌≤◌, ◌<◌, ◌++◌, ℕ};
ghost use Rattle.term_pool.specs.NodeFacts.{node_facts, bound_inside, of_two_parts, of_three_parts, AreLow};
ghost use Rattle.term_pool.specs.Shelves.{fact_at, node_at, tree_at, AreShelved};
ghost use Rattle.term_pool.specs.Nodes.{says, AllParts};
ghost use Rattle.theory.specs.Terms as tree;

use crate::Node;

/// The height of a tree, and the least number above its free variables.
#[derive(Clone, Copy, Debug)]
pub(crate) struct Facts {
    pub height: u32,
    pub bound: u64,
}

/// An id that is a place in a list of nodes.
pub(crate) trait Placed: Copy {
    ghost place: { Self → ℕ };

    fn place(&self) -> u32
        ensures { result ≡ place self.now };
}

/// The node at the place, and a sort behind the end.
pub(crate) fn node_of<I: Copy>(nodes: &[Node<I>], at: u32) -> Node<I>
    ensures { result ≡ node_at nodes.now at }
{
    match nodes.get(at as usize) {
        Some(node) => *node,
        None => Node::Sort(0),
    }
}

/// The node at the place, with what it says.
#[tactic(auto, using(crate::proofs::Shelving::look_laws))]
pub(crate) fn shelved_node<I: Placed>(nodes: &[Node<I>], facts: &[Facts], at: u32) -> Node<I>
    requires { AreShelved I.place nodes.now facts.now }
    ensures node { result ≡ node_at nodes.now at }
    ensures says { tree_at I.place nodes.now at ≡ says (λ p. tree_at I.place nodes.now (I.place p)) result }
    ensures before { AllParts (λ p. I.place p < at) result }
    ensures low { tree.height (tree_at I.place nodes.now at) ≤ 2000 }
{
    let _order = facts;
    node_of(nodes, at)
}

/// The facts that are kept for the place; behind the end they are those of a sort.
pub(crate) fn facts_at(facts: &[Facts], at: u32) -> Facts
    ensures { result ≡ fact_at facts.now at }
{
    match facts.get(at as usize) {
        Some(kept) => *kept,
        None => Facts {
            height: 1,
            bound: 0,
        },
    }
}

/// The facts that are kept for the place in two lists, one after the other.
#[tactic(auto, using(crate::proofs::Layering::place_laws))]
pub(crate) fn fact_over(below: &[Facts], facts: &[Facts], at: u32) -> Facts
    ensures { result ≡ fact_at (below.now ++ facts.now) at }
{
    let count = below.len();
    if (at as usize) < count {
        facts_at(below, at)
    } else {
        facts_at(facts, at - count as u32)
    }
}

/// The facts of a node, by those of its parts, which are kept in two lists, one after the other.
pub(crate) fn facts_of_node<I: Placed>(below: &[Facts], facts: &[Facts], node: &Node<I>) -> Facts
    requires { AreLow (below.now ++ facts.now) }
    ensures { result ≡ node_facts (λ p. fact_at (below.now ++ facts.now) (I.place p)) node.now }
{
    match node {
        Node::Var(n) => Facts {
            height: 1,
            bound: *n as u64 + 1,
        },
        Node::Pi(first, second) | Node::Lam(first, second) => around(
            fact_over(below, facts, first.place()),
            inside(fact_over(below, facts, second.place())),
        ),
        Node::App(function, argument) => around(
            fact_over(below, facts, function.place()),
            fact_over(below, facts, argument.place()),
        ),
        Node::Let(ty, value, rest) => around_three(
            fact_over(below, facts, ty.place()),
            fact_over(below, facts, value.place()),
            inside(fact_over(below, facts, rest.place())),
        ),
        Node::Sort(_)
        | Node::Const(_)
        | Node::Fam(_)
        | Node::Con(_, _)
        | Node::Elim(_, _)
        | Node::AxiomK(_, _) => Facts {
            height: 1,
            bound: 0,
        },
    }
}

/// The facts of a part with a binder more around it.
fn inside(part: Facts) -> Facts
    ensures { result ≡ bound_inside part }
{
    Facts {
        height: part.height,
        bound: part.bound.saturating_sub(1),
    }
}

fn around(first: Facts, second: Facts) -> Facts
    requires first { first.height ≤ 2000 }
    requires second { second.height ≤ 2000 }
    ensures { result ≡ of_two_parts first second }
{
    Facts {
        height: 1 + first.height.max(second.height),
        bound: first.bound.max(second.bound),
    }
}

fn around_three(first: Facts, second: Facts, third: Facts) -> Facts
    requires first { first.height ≤ 2000 }
    requires second { second.height ≤ 2000 }
    requires third { third.height ≤ 2000 }
    ensures { result ≡ of_three_parts first second third }
{
    Facts {
        height: 1 + first.height.max(second.height.max(third.height)),
        bound: first.bound.max(second.bound.max(third.bound)),
    }
}
