//! Where a node goes in a set of nodes, with their facts beside them.
ghost use Rattle.std.specs.Prelude.{◌≡◌, ◌≢◌, ◌<◌, ◌≤◌, ◌++◌, [], ◌∷◌, length, true, false, IfOk, IfErr, OnErr, Err};
ghost use Rattle.core_terms.specs.declared.stop.Stop.TheVariants.{Memory, Deep, PoolFull};
ghost use Rattle.term_pool.specs.Placing.{IsNowhere, IsPlaced};
ghost use Rattle.term_pool.specs.Shelves.{node_at};

use crate::facts::Facts;
use crate::hashing::ByWord;
use crate::{Id, Node};
use core_terms::{MAX_HEIGHT, Stop};
use indexmap::IndexSet;

/// The place of the node, which goes to the end with its facts where it is new. Then it may not be too high, and there has to be room for
/// it; `lacked` is set where there is none.
pub(crate) fn placed(
    nodes: &mut IndexSet<Node<Id>, ByWord>,
    kept: &mut Vec<Facts>,
    lacked: &mut bool,
    node: Node<Id>,
    facts: Facts,
    room: u32,
) -> Result<u32, Stop>
    requires { length nodes.old.keys ≤ 50000000 }
    ensures ok { IfOk result (λ at. IsPlaced node facts room nodes.old.keys kept.old.items nodes.new.keys kept.new.items at) }
    ensures nodes { OnErr result (nodes.new.keys ≡ nodes.old.keys) }
    ensures facts { OnErr result (kept.new.items ≡ kept.old.items) }
    ensures deep { IfErr result (λ e. e ≢ Memory → e ≢ PoolFull → (e ≡ Deep) × (2000 < facts.height)) }
    ensures full { IfErr result (λ e. e ≡ PoolFull → (room ≤ length nodes.old.keys) × IsNowhere nodes.old.keys node) }
{
    kept.reserve(1)?;
    let (at, new) = entered(nodes, node)?;
    if !new {
        return Ok(at as u32);
    }
    if facts.height > MAX_HEIGHT {
        taken_back(nodes, at, node);
        return Err(Stop::Deep);
    }
    if room as usize <= at {
        taken_back(nodes, at, node);
        *lacked = true;
        return Err(Stop::PoolFull);
    }
    kept.push(facts).unwrap();
    Ok(at as u32)
}

/// The place of the node, which goes to the end where it is new, and whether it is.
fn entered(nodes: &mut IndexSet<Node<Id>, ByWord>, node: Node<Id>) -> Result<(usize, bool), Stop>
    ensures there { IfOk result (λ r. r.1 ≡ false → (r.0 < length nodes.old.keys) × (node_at nodes.old.keys r.0 ≡ node) × (nodes.new.keys ≡ nodes.old.keys)) }
    ensures new { IfOk result (λ r. r.1 ≡ true → (r.0 ≡ length nodes.old.keys) × IsNowhere nodes.old.keys node × (nodes.new.keys ≡ nodes.old.keys ++ node ∷ [])) }
    ensures nodes { OnErr result (nodes.new.keys ≡ nodes.old.keys) }
    ensures memory { OnErr result (result ≡ Err Memory) }
{
    let entry = nodes.insert_full(node)?;
    Ok(entry)
}

/// Takes the last node away.
fn taken_back(nodes: &mut IndexSet<Node<Id>, ByWord>, at: usize, node: Node<Id>)
    ensures { (before : _) → nodes.old.keys ≡ before ++ node ∷ [] → at ≡ length before → nodes.new.keys ≡ before }
{
    nodes.truncate(at);
}
