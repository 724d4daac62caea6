ghost use Rattle.std.specs.Prelude.{◌≡◌, ◌≢◌, ◌≤◌, ◌<◌, ◌↔◌, ℕ, [], length, take, filter, None, Some, IsTrue, IfOk, IfSome, IfNone, OnOk, OnErr, Ok, Err};
ghost use Rattle.core_terms.specs.Answers.{Gives};
ghost use Rattle.core_terms.specs.Meanings.{tree_of};
ghost use Rattle.core_terms.specs.declared.stop.Stop.TheVariants.{Memory, PoolFull};
ghost use Rattle.theory.specs.Terms as tree;
ghost use Rattle.term_pool.specs.Held.{Extends, AddsParts, Makes, IsFullFor, IsRefusedNew, IsNew, Keeps, Notes};
ghost use Rattle.term_pool.specs.Memo.{is_row_below, if_below};
ghost use Rattle.term_pool.specs.Nodes.{says, AllParts, AllPass};
ghost use Rattle.term_pool.specs.Placing.{IsNowhere};
ghost use Rattle.term_pool.specs.Pools.{Pooled, IsPool, IsWhole, pool_held};
ghost use Rattle.term_pool.specs.Shelves.{facts_of, node_at};

use crate::facts::{Facts, facts_at, facts_of_node, shelved_node};
use crate::hashing::{ByWord, by_word};
use crate::ids::{Id, Mark};
use crate::memo::Memo;
use crate::placing::placed;
use crate::{Key, Node, Row, TermStore, export_in, import_in};
use core_terms::{Stop, Term};
use indexmap::IndexSet;
use std::alloc::Global;
use std::marker::Model;

/// A store that keeps each term once: equal terms have equal ids. It has room for a number of nodes, and keeps rows. It remembers whether
/// it was asked for a node when there was no room.
#[derive(Drop)]
pub struct Pool {
    nodes: IndexSet<Node<Id>, ByWord>,
    facts: Vec<Facts>,
    cap: u32,
    told: u32,
    memo: Memo,
    missed: u64,
    lacked: bool,
    alloc: Global,
}

impl Model for Pool {
    ghost use Rattle.term_pool.specs.Pools.{Pooled};

    ghost Value = { Pooled };

    ghost use Rattle.term_pool.specs.Pools.{IsPool};

    ghost view = { λ p. record { nodes = p.nodes.keys; cap = p.cap; told = p.told; rows = p.memo; missed = p.missed } };

    ghost invariant = { λ p. IsPool p.nodes.keys p.facts.items p.cap };
}

impl Pool {
    /// No nodes and no rows, and room for so many nodes.
    pub fn new(alloc: Global, cap: u32) -> Result<Pool, Stop>
        requires { cap ≤ 50000000 }
        ensures ok { IfOk result (λ p. p ≡ record { nodes = []; cap = cap; told = 0; rows = []; missed = 0 }) }
        ensures memory { OnErr result (result ≡ Err Memory) }
    {
        let nodes = IndexSet::with_capacity_and_hasher(alloc, 16, by_word())?;
        Ok(Pool {
            nodes,
            facts: Vec::new(alloc),
            cap,
            told: 0,
            memo: Memo::new(alloc),
            missed: 0,
            lacked: false,
            alloc,
        })
    }

    /// No nodes and no rows, and room for 50,000,000 nodes; takes no memory.
    pub fn empty(alloc: Global) -> Pool
        ensures { result ≡ record { nodes = []; cap = 50000000; told = 0; rows = []; missed = 0 } }
    {
        Pool {
            nodes: IndexSet::with_hasher(alloc, by_word()),
            facts: Vec::new(alloc),
            cap: 50000000,
            told: 0,
            memo: Memo::new(alloc),
            missed: 0,
            lacked: false,
            alloc,
        }
    }

    /// The id of the node, which is added where it is new.
    pub fn intern(&mut self, node: Node<Id>) -> Result<Id, Stop>
        requires { AllPass (pool_held self.old).live node }
        ensures makes { Makes (pool_held self.new) result (says (pool_held self.old).tree node) }
        ensures full { IsFullFor (pool_held self.new) result (says (pool_held self.old).tree node) }
        ensures lacking { IsRefusedNew (pool_held self.new) result (says (pool_held self.old).tree node) }
        ensures extends { Extends (pool_held self.old) (pool_held self.new) }
        ensures adds { AddsParts (pool_held self.old) (pool_held self.new) (says (pool_held self.old).tree node) }
        ensures refused { OnErr result (self.new ≡ self.old) }
    {
        let facts = self.facts_of(&node);
        let at = placed(
            &mut self.nodes,
            &mut self.facts,
            &mut self.lacked,
            node,
            facts,
            self.cap,
        )?;
        Ok(Id { at })
    }

    /// The nodes in the order in which they were made.
    pub(crate) fn nodes(&self) -> &[Node<Id>]
        ensures { result.now ≡ self.now.nodes }
    {
        self.nodes.as_slice()
    }

    /// The facts of the nodes, in their order.
    pub(crate) fn kept(&self) -> &[Facts]
        ensures { IsPool self.now.nodes result.now self.now.cap }
    {
        self.facts.as_slice()
    }

    /// Whether PoolFull was answered since this was last forgotten. Takes no memory.
    pub fn lacked(&self) -> bool {
        self.lacked
    }

    /// Forgets whether PoolFull was answered.
    pub fn forget_lack(&mut self)
        ensures { self.new ≡ self.old }
    {
        self.lacked = false;
    }

    /// Leaves room for so many nodes. PoolFull exactly where there are more. Takes no memory.
    pub fn limit(&mut self, cap: u32) -> Result<(), Stop>
        requires { cap ≤ 50000000 }
        ensures ok { OnOk result (self.new ≡ record self.old { cap = cap }) }
        ensures err { OnErr result (self.new ≡ self.old) }
        ensures only { OnErr result (result ≡ Err PoolFull) }
        ensures full { (result ≡ Err PoolFull) ↔ (cap < length self.old.nodes) }
    {
        if cap < self.len() {
            return Err(Stop::PoolFull);
        }
        self.cap = cap;
        Ok(())
    }

    /// How many nodes there may be.
    pub fn cap(&self) -> u32
        ensures { result ≡ self.now.cap }
    {
        self.cap
    }

    /// The place of the node, where it is there.
    pub(crate) fn place(&self, node: &Node<Id>) -> Option<usize>
        ensures found { IfSome result (λ i. (i < length self.now.nodes) × (node_at self.now.nodes i ≡ node.now)) }
        ensures absent { IfNone result ((i : ℕ) → i < length self.now.nodes → node_at self.now.nodes i ≢ node.now) }
    {
        place_of(&self.nodes, node)
    }

    /// The place of the node, where it is there. A node is not there if some part of it is not.
    pub(crate) fn place_below(&self, node: &Node<Id>) -> Option<usize>
        ensures found { IfSome result (λ i. (i < length self.now.nodes) × (node_at self.now.nodes i ≡ node.now)) }
        ensures absent { IfNone result (IsNowhere self.now.nodes node.now) }
    {
        let _order = self.cap;
        let count = self.len();
        if parts_below(node, count) {
            self.place(node)
        } else {
            None
        }
    }

    /// The facts to be kept of a node.
    #[tactic(auto, using(crate::proofs::Shelving::fact_laws))]
    fn facts_of(&self, node: &Node<Id>) -> Facts
        ensures { result ≡ facts_of (says (pool_held self.now).tree node.now) }
    {
        facts_of_node(&[], self.facts.as_slice(), node)
    }
}

impl Pool {
    /// An id for the tree of a term.
    pub fn import(&mut self, t: &Term) -> Result<Id, Stop>
        ensures makes { Makes (pool_held self.new) result (tree_of t.now) }
        ensures full { IsFullFor (pool_held self.new) result (tree_of t.now) }
        ensures extends { Extends (pool_held self.old) (pool_held self.new) }
        ensures adds { AddsParts (pool_held self.old) (pool_held self.new) (tree_of t.now) }
    {
        import_in(self, t)
    }

    /// The term of an id.
    pub fn export(&self, id: Id) -> Result<Term, Stop>
        requires { IsTrue ((pool_held self.now).live id) }
        ensures { Gives tree_of result (Ok ((pool_held self.now).tree id)) }
    {
        export_in(self.alloc, self, id)
    }

    /// The node of an id. Takes no memory.
    pub fn node(&self, id: Id) -> Node<Id>
        requires { IsTrue ((pool_held self.now).live id) }
        ensures says { (pool_held self.now).tree id ≡ says (pool_held self.now).tree result }
        ensures live { AllPass (pool_held self.now).live result }
    {
        self.look(&id)
    }

    /// The height of the tree of an id. Takes no memory.
    pub fn height(&self, id: Id) -> u32
        requires { IsTrue ((pool_held self.now).live id) }
        ensures { result ≡ tree.height ((pool_held self.now).tree id) }
    {
        TermStore::height(self, &id)
    }

    /// The number of nodes. Takes no memory.
    pub fn len(&self) -> u32
        ensures len { result ≡ length self.now.nodes }
        ensures room { length self.now.nodes ≤ self.now.cap }
    {
        let _small = self.cap;
        self.nodes.len() as u32
    }

    /// Where the pool stands, to go back there. Takes no memory.
    pub fn mark(&self) -> Mark
        ensures len { result.len ≡ length self.now.nodes }
        ensures whole { IsWhole self.now.nodes }
    {
        let _whole = self.cap;
        Mark { len: self.len() }
    }

    /// Gives up the ids that were made since the mark: the nodes are those that the pool had then, whatever was done between.
    /// Takes no memory.
    pub fn release(&mut self, mark: Mark)
        ensures cut { self.new ≡ record self.old { nodes = take mark.len self.old.nodes } }
        ensures back { (then : Pooled) → mark.len ≡ length then.nodes → IsWhole then.nodes → Keeps (pool_held then) (pool_held self.old) → self.new.nodes ≡ then.nodes }
    {
        self.nodes.truncate(mark.len as usize);
        self.facts.truncate(mark.len as usize);
    }

    /// Drops the rows that name an id that is not live. Takes no memory.
    pub fn truncate_memo(&mut self)
        ensures rows { self.new ≡ record self.old { rows = filter (is_row_below (length self.old.nodes)) self.old.rows } }
        ensures at { (n : ℕ) (key : _) → (pool_held self.new).rows n key ≡ if_below (length self.old.nodes) n key ((pool_held self.old).rows n key) }
    {
        let count = self.len();
        self.memo.keep_below(count);
    }
}

impl TermStore for Pool {
    type Id = Id;

    ghost held = { pool_held };

    fn look(&self, id: &Id) -> Node<Id> {
        shelved_node(self.nodes.as_slice(), self.facts.as_slice(), id.at)
    }

    fn same(&self, a: &Id, b: &Id) -> bool
        requires a { IsTrue ((pool_held self.now).live a.now) }
        requires b { IsTrue ((pool_held self.now).live b.now) }
        ensures trees { IsTrue result ↔ ((pool_held self.now).tree a.now ≡ (pool_held self.now).tree b.now) }
        ensures ids { IsTrue result ↔ (a.now ≡ b.now) }
    {
        let _each_once = self.cap;
        a.at == b.at
    }

    fn height(&self, id: &Id) -> u32 {
        facts_at(self.facts.as_slice(), id.at).height
    }

    fn bound(&self, id: &Id) -> u64 {
        facts_at(self.facts.as_slice(), id.at).bound
    }

    fn place(&self, id: &Id) -> u32 {
        id.at
    }

    fn make(&mut self, node: Node<Id>) -> Result<Id, Stop>
        requires { AllPass (pool_held self.old).live node }
        ensures makes { Makes (pool_held self.new) result (says (pool_held self.old).tree node) }
        ensures full { IsFullFor (pool_held self.new) result (says (pool_held self.old).tree node) }
        ensures lacking { IsRefusedNew (pool_held self.new) result (says (pool_held self.old).tree node) }
        ensures extends { Extends (pool_held self.old) (pool_held self.new) }
        ensures adds { AddsParts (pool_held self.old) (pool_held self.new) (says (pool_held self.old).tree node) }
        ensures refused { OnErr result (pool_held self.new ≡ pool_held self.old) }
    {
        self.intern(node)
    }

    fn recall(&self, key: &Key<Id>) -> Option<Row<Id>> {
        self.memo.get(self.told, key)
    }

    fn note(&mut self, key: Key<Id>, row: Row<Id>)
        ensures notes { Notes (pool_held self.old) (pool_held self.new) key row }
        ensures keeps { Keeps (pool_held self.old) (pool_held self.new) }
    {
        let kept = self.memo.put(self.told, key, row);
        if !kept {
            self.missed = self.missed.saturating_add(1);
        }
    }

    fn at_length(&mut self, len: u32) {
        self.memo.cut(len);
        self.told = len;
    }
}

/// The place of the node, where it is there.
pub(crate) fn place_of(nodes: &IndexSet<Node<Id>, ByWord>, node: &Node<Id>) -> Option<usize>
    ensures found { IfSome result (λ i. (i < length nodes.now.keys) × (node_at nodes.now.keys i ≡ node.now)) }
    ensures absent { IfNone result ((i : ℕ) → i < length nodes.now.keys → node_at nodes.now.keys i ≢ node.now) }
{
    nodes.get_index_of(node)
}

/// Whether all parts of the node have places below the count.
fn parts_below(node: &Node<Id>, count: u32) -> bool
    ensures { AllParts (λ p. p.at < count) node.now → IsTrue result }
{
    match node {
        Node::Pi(a, b) => a.at < count && b.at < count,
        Node::Lam(a, b) => a.at < count && b.at < count,
        Node::App(f, a) => f.at < count && a.at < count,
        Node::Let(t, v, b) => t.at < count && v.at < count && b.at < count,
        Node::Var(_)
        | Node::Sort(_)
        | Node::Const(_)
        | Node::Fam(_)
        | Node::Con(_, _)
        | Node::Elim(_, _)
        | Node::AxiomK(_, _) => true,
    }
}
