ghost use Rattle.std.specs.Prelude.{◌≡◌, IsTrue, IfSome, option_map};
ghost use Rattle.kernel_reduce.specs.Entries.{body_at, is_constant};
ghost use Rattle.core_sig.specs.EntryIds.{Stands};
ghost use Rattle.store_reduce.specs.EntryIds.{behind_id, body_id};

use core_sig::{EntryIds, Signature};
use term_pool::{Node, TermStore};

/// The id of the body of entry n, where it is a definition.
fn entry_body<I: Copy>(ids: &EntryIds<I>, n: u32) -> Option<I>
    ensures { result ≡ body_id ids.now n }
{
    match ids.entries.as_slice().get(n as usize) {
        Some(entry) => entry.body,
        None => None,
    }
}

/// Whether the term is constant n.
fn is_constant_in<S: TermStore>(store: &S, t: S::Id, n: u32) -> bool
    requires { IsTrue ((S.held store.now).live t) }
    ensures { result ≡ is_constant n ((S.held store.now).tree t) }
{
    match store.look(&t) {
        Node::Const(c) => c == n,
        _ => false,
    }
}

/// The id of the body of a constant, unless it is provisional.
#[tactic(auto, using(crate::proofs::Standing::body_laws))]
pub(crate) fn body_in<S: TermStore>(
    store: &S,
    sig: &Signature,
    ids: &EntryIds<S::Id>,
    n: u32,
) -> Option<S::Id>
    requires { Stands (S.held store.now) sig.now.entries ids.now }
    ensures body { option_map (S.held store.now).tree result ≡ body_at sig.now n }
    ensures live { IfSome result (λ id. IsTrue ((S.held store.now).live id)) }
{
    let _entries = sig;
    match entry_body(ids, n) {
        Some(body) => {
            if is_constant_in(store, body, n) {
                None
            } else {
                Some(body)
            }
        }
        None => None,
    }
}

/// The id of the type of constructor `number` of family n, behind the parameters.
pub(crate) fn constructor_behind_in<I: Copy>(ids: &EntryIds<I>, n: u32, number: u32) -> Option<I>
    ensures { result ≡ behind_id ids.now n number }
{
    match ids.entries.as_slice().get(n as usize) {
        Some(entry) => match entry.cons.as_slice().get(number as usize) {
            Some(id) => Some(id.behind),
            None => None,
        },
        None => None,
    }
}
