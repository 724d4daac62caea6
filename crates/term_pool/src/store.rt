ghost use Rattle.std.specs.Prelude.{◌≡◌, ◌≤◌, ◌↔◌, IsTrue, OnErr};
ghost use Rattle.theory.specs.Terms as tree;
ghost use Rattle.term_pool.specs.Held.{Held, Keeps, Extends, AddsParts, Makes, IsFullFor, IsRefusedNew, Notes, Tells};
ghost use Rattle.term_pool.specs.Nodes.{says, AllPass};

use crate::{Key, Node, Row};
use core_terms::Stop;

/// A store of terms. An id that is live stands for a tree, and keeps it for as long as it is live.
pub trait TermStore {
    type Id: Copy;

    ghost held: { Self → Held Self.Id };

    /// The node of an id. Takes no memory.
    fn look(&self, id: &Self::Id) -> Node<Self::Id>
        requires { IsTrue ((held self.now).live id.now) }
        ensures says { (held self.now).tree id.now ≡ says (held self.now).tree result }
        ensures live { AllPass (held self.now).live result }
        ensures low { tree.height ((held self.now).tree id.now) ≤ 2000 };

    /// Whether two ids stand for equal trees. Takes no memory.
    fn same(&self, a: &Self::Id, b: &Self::Id) -> bool
        requires a { IsTrue ((held self.now).live a.now) }
        requires b { IsTrue ((held self.now).live b.now) }
        ensures { IsTrue result ↔ ((held self.now).tree a.now ≡ (held self.now).tree b.now) };

    /// The height of the tree. Takes no memory, and the time of one step.
    fn height(&self, id: &Self::Id) -> u32
        requires { IsTrue ((held self.now).live id.now) }
        ensures height { result ≡ tree.height ((held self.now).tree id.now) }
        ensures low { result ≤ 2000 };

    /// The least number above all free variables of the tree. Takes no memory, and the time of one step.
    fn bound(&self, id: &Self::Id) -> u64
        requires { IsTrue ((held self.now).live id.now) }
        ensures bound { result ≡ tree.free_of ((held self.now).tree id.now) }
        ensures low { tree.height ((held self.now).tree id.now) ≤ 2000 };

    /// A number to find an id by in a table. Nothing rests on it: ids with equal trees may have different numbers.
    fn place(&self, id: &Self::Id) -> u32;

    /// An id for the tree of the node. Where it is refused, the store stays as it was.
    fn make(&mut self, node: Node<Self::Id>) -> Result<Self::Id, Stop>
        requires { AllPass (held self.old).live node }
        ensures makes { Makes (held self.new) result (says (held self.old).tree node) }
        ensures full { IsFullFor (held self.new) result (says (held self.old).tree node) }
        ensures lacking { IsRefusedNew (held self.new) result (says (held self.old).tree node) }
        ensures extends { Extends (held self.old) (held self.new) }
        ensures adds { AddsParts (held self.old) (held self.new) (says (held self.old).tree node) }
        ensures refused { OnErr result (held self.new ≡ held self.old) };

    /// The row that is kept for the key at the told length. Takes no memory.
    fn recall(&self, key: &Key<Self::Id>) -> Option<Row<Self::Id>>
        ensures { result ≡ (held self.now).rows (held self.now).told key.now };

    /// Keeps the row for the key at the told length, if the store keeps rows and there is memory for it.
    fn note(&mut self, key: Key<Self::Id>, row: Row<Self::Id>)
        ensures notes { Notes (held self.old) (held self.new) key row }
        ensures keeps { Keeps (held self.old) (held self.new) };

    /// Tells the store the length of the signature. Rows that were made at a greater length are dropped. Takes no memory.
    fn at_length(&mut self, len: u32)
        ensures tells { Tells (held self.old) (held self.new) len }
        ensures keeps { Keeps (held self.old) (held self.new) };
}
