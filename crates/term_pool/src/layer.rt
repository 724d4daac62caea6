ghost use Rattle.std.specs.Prelude.{◌≡◌, ◌≢◌, ◌<◌, ◌≤◌, ◌↔◌, ◌++◌, ℕ, [], length, None, Some, IsTrue, IfSome, IfNone, OnErr, Ok, Err};
ghost use Rattle.theory.specs.Terms as tree;
ghost use Rattle.term_pool.specs.Held.{Extends, AddsParts, Makes, IsFullFor, IsRefusedNew, IsNew, Keeps, Notes};
ghost use Rattle.term_pool.specs.Layers.{all_nodes, layer_held};
ghost use Rattle.term_pool.specs.Nodes.{says, AllParts, AllPass};
ghost use Rattle.term_pool.specs.Placing.{IsNowhere};
ghost use Rattle.term_pool.specs.Pools.{id_place};
ghost use Rattle.term_pool.specs.Shelves.{AreShelved, facts_of, node_at, tree_at};

use crate::facts::{Facts, fact_over, facts_of_node, node_of};
use crate::hashing::{ByWord, by_word};
use crate::ids::Id;
use crate::placing::placed;
use crate::{Key, Node, Pool, Row, TermStore};
use core_terms::Stop;
use indexmap::IndexSet;
use std::alloc::Global;
use std::marker::Model;

/// A store over a pool that it only reads: ids of the pool stay what they are, and each new node is kept once beside them. It has the
/// room of the pool, and keeps no rows. It remembers whether it was asked for a node when there was no room.
#[derive(Drop)]
pub struct Layer<'a> {
    base: &'a Pool,
    nodes: IndexSet<Node<Id>, ByWord>,
    facts: Vec<Facts>,
    told: u32,
    lacked: bool,
}

impl<'a> Model for Layer<'a> {
    ghost use Rattle.term_pool.specs.Layers.{IsLayer, Layered};

    ghost Value = { Layered };

    ghost view = { λ l. record { base = l.base.now; nodes = l.nodes.keys; told = l.told } };

    ghost invariant = { λ l. IsLayer l.base.now.nodes l.base.now.cap l.nodes.keys l.facts.items };
}

impl<'a> Layer<'a> {
    /// No nodes beside those of the pool; takes no memory.
    pub fn over(alloc: Global, base: &'a Pool) -> Layer<'a>
        ensures { result ≡ record { base = base.now; nodes = []; told = 0 } }
    {
        Layer {
            base,
            nodes: IndexSet::with_hasher(alloc, by_word()),
            facts: Vec::new(alloc),
            told: 0,
            lacked: false,
        }
    }

    /// The node at the place, with what it says.
    fn node(&self, at: u32) -> Node<Id>
        ensures node { result ≡ node_at (all_nodes self.now) at }
        ensures says { tree_at id_place (all_nodes self.now) at ≡ says (λ p. tree_at id_place (all_nodes self.now) p.at) result }
        ensures before { AllParts (λ p. p.at < at) result }
        ensures low { tree.height (tree_at id_place (all_nodes self.now) at) ≤ 2000 }
    {
        let below = self.base.nodes();
        let kept = self.base.kept();
        shelved_over(
            below,
            self.nodes.as_slice(),
            kept,
            self.facts.as_slice(),
            at,
        )
    }

    /// The facts of the tree at the place.
    fn fact(&self, at: u32) -> Facts
        ensures kept { result ≡ facts_of (tree_at id_place (all_nodes self.now) at) }
        ensures low { tree.height (tree_at id_place (all_nodes self.now) at) ≤ 2000 }
    {
        let kept = self.base.kept();
        fact_over(kept, self.facts.as_slice(), at)
    }

    /// The facts of a node.
    fn facts_of(&self, node: &Node<Id>) -> Facts
        ensures { result ≡ facts_of (says (layer_held self.now).tree node.now) }
    {
        let kept = self.base.kept();
        facts_of_node(kept, self.facts.as_slice(), node)
    }

    /// Whether PoolFull was answered. Takes no memory.
    pub fn lacked(&self) -> bool {
        self.lacked
    }

    /// The number of nodes, those of the pool among them. Takes no memory.
    pub fn len(&self) -> u32
        ensures len { result ≡ length (all_nodes self.now) }
        ensures room { length (all_nodes self.now) ≤ self.now.base.cap }
    {
        let _kept = self.base.kept();
        (self.base.nodes().len() + self.nodes.len()) as u32
    }

    /// The id of the node, where it is in the pool.
    fn find(&self, node: &Node<Id>) -> Option<Id>
        requires { AllPass (layer_held self.now).live node.now }
        ensures found { IfSome result (λ id. Makes (layer_held self.now) (Ok id) (says (layer_held self.now).tree node.now)) }
        ensures absent { IfNone result (IsNowhere self.now.base.nodes node.now) }
    {
        let _kept = self.base.kept();
        let at = self.base.place_below(node)?;
        Some(Id { at: at as u32 })
    }

    /// The id of a node that is not in the pool, which is added where it is new.
    fn intern(&mut self, node: Node<Id>) -> Result<Id, Stop>
        requires live { AllPass (layer_held self.old).live node }
        requires beside { IsNowhere self.old.base.nodes node }
        ensures makes { Makes (layer_held self.new) result (says (layer_held self.old).tree node) }
        ensures full { IsFullFor (layer_held self.new) result (says (layer_held self.old).tree node) }
        ensures lacking { IsRefusedNew (layer_held self.new) result (says (layer_held self.old).tree node) }
        ensures extends { Extends (layer_held self.old) (layer_held self.new) }
        ensures adds { AddsParts (layer_held self.old) (layer_held self.new) (says (layer_held self.old).tree node) }
        ensures refused { OnErr result (self.new ≡ self.old) }
    {
        let _kept = self.base.kept();
        let facts = self.facts_of(&node);
        let count = self.base.len();
        let room = self.base.cap() - count;
        let at = placed(
            &mut self.nodes,
            &mut self.facts,
            &mut self.lacked,
            node,
            facts,
            room,
        )?;
        Ok(Id { at: count + at })
    }
}

impl<'a> TermStore for Layer<'a> {
    type Id = Id;

    ghost held = { layer_held };

    fn look(&self, id: &Id) -> Node<Id> {
        self.node(id.at)
    }

    fn same(&self, a: &Id, b: &Id) -> bool
        requires a { IsTrue ((layer_held self.now).live a.now) }
        requires b { IsTrue ((layer_held self.now).live b.now) }
        ensures trees { IsTrue result ↔ ((layer_held self.now).tree a.now ≡ (layer_held self.now).tree b.now) }
        ensures ids { IsTrue result ↔ (a.now ≡ b.now) }
    {
        let _each_once = self.base.kept();
        a.at == b.at
    }

    fn height(&self, id: &Id) -> u32 {
        self.fact(id.at).height
    }

    fn bound(&self, id: &Id) -> u64 {
        self.fact(id.at).bound
    }

    fn place(&self, id: &Id) -> u32 {
        id.at
    }

    fn make(&mut self, node: Node<Id>) -> Result<Id, Stop>
        requires { AllPass (layer_held self.old).live node }
        ensures makes { Makes (layer_held self.new) result (says (layer_held self.old).tree node) }
        ensures full { IsFullFor (layer_held self.new) result (says (layer_held self.old).tree node) }
        ensures lacking { IsRefusedNew (layer_held self.new) result (says (layer_held self.old).tree node) }
        ensures extends { Extends (layer_held self.old) (layer_held self.new) }
        ensures adds { AddsParts (layer_held self.old) (layer_held self.new) (says (layer_held self.old).tree node) }
        ensures refused { OnErr result (layer_held self.new ≡ layer_held self.old) }
    {
        match self.find(&node) {
            Some(id) => Ok(id),
            None => self.intern(node),
        }
    }

    fn recall(&self, _key: &Key<Id>) -> Option<Row<Id>> {
        None
    }

    fn note(&mut self, key: Key<Id>, row: Row<Id>)
        ensures notes { Notes (layer_held self.old) (layer_held self.new) key row }
        ensures keeps { Keeps (layer_held self.old) (layer_held self.new) }
    {}

    fn at_length(&mut self, len: u32) {
        self.told = len;
    }
}

/// The node at the place of two lists, one after the other, and a sort behind the end.
#[tactic(auto, using(crate::proofs::Layering::place_laws))]
fn node_over(below: &[Node<Id>], nodes: &[Node<Id>], at: u32) -> Node<Id>
    ensures { result ≡ node_at (below.now ++ nodes.now) at }
{
    let count = below.len();
    if (at as usize) < count {
        node_of(below, at)
    } else {
        node_of(nodes, at - count as u32)
    }
}

/// The node at the place, with what it says.
#[tactic(auto, using(crate::proofs::Shelving::look_laws))]
fn shelved_over(
    below: &[Node<Id>],
    nodes: &[Node<Id>],
    kept: &[Facts],
    facts: &[Facts],
    at: u32,
) -> Node<Id>
    requires { AreShelved id_place (below.now ++ nodes.now) (kept.now ++ facts.now) }
    ensures node { result ≡ node_at (below.now ++ nodes.now) at }
    ensures says { tree_at id_place (below.now ++ nodes.now) at ≡ says (λ p. tree_at id_place (below.now ++ nodes.now) p.at) result }
    ensures before { AllParts (λ p. p.at < at) result }
    ensures low { tree.height (tree_at id_place (below.now ++ nodes.now) at) ≤ 2000 }
{
    let _order = kept;
    let _facts = facts;
    node_over(below, nodes, at)
}
