ghost use Rattle.std.specs.Prelude.{◌≡◌, ◌<◌, ◌↔◌, [], IsTrue, OnErr, Err};
ghost use Rattle.term_pool.specs.Held.{Extends, AddsParts, Makes, IsFullFor, IsRefusedNew, Keeps, Notes};
ghost use Rattle.term_pool.specs.Nodes.{says, AllPass};
ghost use Rattle.term_pool.specs.Shelves.{AreShelved, facts_of, tree_at};
ghost use Rattle.term_pool.specs.Trees.{tree_place, trees_held};

use crate::facts::{Facts, facts_at, facts_of_node, shelved_node};
use crate::ids::TreeId;
use crate::{Key, Node, Row, TermStore};
use core_terms::{MAX_HEIGHT, Stop, number_of};
use std::alloc::Global;
use std::marker::Model;

/// A store that adds a node at each call, shares no equal terms, keeps no rows and is never full.
#[derive(Drop)]
pub struct Trees {
    nodes: Vec<Node<TreeId>>,
    facts: Vec<Facts>,
    told: u32,
}

impl Model for Trees {
    ghost use Rattle.term_pool.specs.Trees.{TreeList, tree_place};

    ghost Value = { TreeList };

    ghost use Rattle.term_pool.specs.Shelves.{AreShelved};

    ghost view = { λ s. record { nodes = s.nodes.items; told = s.told } };

    ghost invariant = { λ s. AreShelved tree_place s.nodes.items s.facts.items };
}

impl Trees {
    /// No nodes; takes no memory.
    pub fn new(alloc: Global) -> Trees
        ensures nodes { result.nodes ≡ [] }
        ensures told { result.told ≡ 0 }
    {
        Trees {
            nodes: Vec::new(alloc),
            facts: Vec::new(alloc),
            told: 0,
        }
    }

    /// The facts to be kept of a node.
    #[tactic(auto, using(crate::proofs::Shelving::fact_laws))]
    fn facts_of(&self, node: &Node<TreeId>) -> Facts
        ensures { result ≡ facts_of (says (λ p. tree_at tree_place self.now.nodes p.at) node.now) }
    {
        facts_of_node(&[], self.facts.as_slice(), node)
    }
}

impl TermStore for Trees {
    type Id = TreeId;

    ghost held = { trees_held };

    fn look(&self, id: &TreeId) -> Node<TreeId> {
        shelved_node(self.nodes.as_slice(), self.facts.as_slice(), id.at)
    }

    fn same(&self, a: &TreeId, b: &TreeId) -> bool {
        same_trees(self.nodes.as_slice(), self.facts.as_slice(), *a, *b)
    }

    fn height(&self, id: &TreeId) -> u32 {
        facts_at(self.facts.as_slice(), id.at).height
    }

    fn bound(&self, id: &TreeId) -> u64 {
        facts_at(self.facts.as_slice(), id.at).bound
    }

    fn place(&self, id: &TreeId) -> u32 {
        id.at
    }

    fn make(&mut self, node: Node<TreeId>) -> Result<TreeId, Stop>
        requires { AllPass (trees_held self.old).live node }
        ensures makes { Makes (trees_held self.new) result (says (trees_held self.old).tree node) }
        ensures full { IsFullFor (trees_held self.new) result (says (trees_held self.old).tree node) }
        ensures lacking { IsRefusedNew (trees_held self.new) result (says (trees_held self.old).tree node) }
        ensures extends { Extends (trees_held self.old) (trees_held self.new) }
        ensures adds { AddsParts (trees_held self.old) (trees_held self.new) (says (trees_held self.old).tree node) }
        ensures refused { OnErr result (trees_held self.new ≡ trees_held self.old) }
    {
        let facts = self.facts_of(&node);
        if facts.height > MAX_HEIGHT {
            return Err(Stop::Deep);
        }
        let at = number_of(self.nodes.len())?;
        self.nodes.reserve(1)?;
        self.facts.reserve(1)?;
        self.nodes.push(node).unwrap();
        self.facts.push(facts).unwrap();
        Ok(TreeId { at })
    }

    fn recall(&self, _key: &Key<TreeId>) -> Option<Row<TreeId>> {
        None
    }

    fn note(&mut self, key: Key<TreeId>, row: Row<TreeId>)
        ensures notes { Notes (trees_held self.old) (trees_held self.new) key row }
        ensures keeps { Keeps (trees_held self.old) (trees_held self.new) }
    {}

    fn at_length(&mut self, len: u32) {
        self.told = len;
    }
}

/// Whether two ids stand for equal trees.
fn same_trees(nodes: &[Node<TreeId>], facts: &[Facts], a: TreeId, b: TreeId) -> bool
    requires { AreShelved tree_place nodes.now facts.now }
    ensures { IsTrue result ↔ (tree_at tree_place nodes.now a.at ≡ tree_at tree_place nodes.now b.at) }
{
    if a.at == b.at {
        return true;
    }
    match (
        shelved_node(nodes, facts, a.at),
        shelved_node(nodes, facts, b.at),
    ) {
        (Node::Var(n), Node::Var(m)) => n == m,
        (Node::Sort(i), Node::Sort(j)) => i == j,
        (Node::Pi(a, b), Node::Pi(c, d)) => {
            same_trees(nodes, facts, a, c) && same_trees(nodes, facts, b, d)
        }
        (Node::Lam(a, b), Node::Lam(c, d)) => {
            same_trees(nodes, facts, a, c) && same_trees(nodes, facts, b, d)
        }
        (Node::App(f, a), Node::App(g, b)) => {
            same_trees(nodes, facts, f, g) && same_trees(nodes, facts, a, b)
        }
        (Node::Let(a, t, b), Node::Let(c, u, d)) => {
            same_trees(nodes, facts, a, c)
                && same_trees(nodes, facts, t, u)
                && same_trees(nodes, facts, b, d)
        }
        (Node::Const(c), Node::Const(d)) => c == d,
        (Node::Fam(f), Node::Fam(g)) => f == g,
        (Node::Con(f, c), Node::Con(g, d)) => f == g && c == d,
        (Node::Elim(f, m), Node::Elim(g, n)) => f == g && m == n,
        (Node::AxiomK(i, m), Node::AxiomK(j, n)) => i == j && m == n,
        _ => false,
    }
}
