ghost use Rattle.std.specs.Prelude.{◌≡◌, [], IsTrue, Ok, map, reverse, slice_get};
ghost use Rattle.std.specs.List.{All};
ghost use Rattle.theory.specs.Telescopes.{context_behind};
ghost use Rattle.core_terms.specs.Answers.{Gives};
ghost use Rattle.core_terms.specs.Meanings.{tele_of};
ghost use Rattle.term_pool.specs.Held.{Held};
ghost use Rattle.core_sig.specs.EntryIds.{Correspond};
ghost use Rattle.kernel_check.specs.Scopes.{IsLive, IsWritten, scope_in};
ghost use Rattle.kernel_check.specs.TypeIds.{IsTypeId};

use crate::type_id::{TypeId, known};
use core_terms::{Items, Stop, Tele, Term, copy_tele};
use std::alloc::Global;
use term_pool::{TermStore, export_in};

/// A context: its types from the outermost on, and the binders that were entered after them.
#[derive(Clone, Copy)]
pub(crate) enum Scope<'a, I> {
    /// The ids of the types.
    Given(&'a [I]),
    /// The types, and the id of each that is at most 2,000 high.
    Written(&'a [Term], &'a [Option<I>]),
    /// The id of a type after those of another context.
    Under(I, &'a Scope<'a, I>),
}

/// The element with number `n` from the end of a list.
fn from_the_end<A: Copy>(list: &[A], n: u32) -> Option<A>
    ensures { result ≡ slice_get (reverse list.now) n }
{
    let n = n as usize;
    if n < list.len() {
        Some(list[list.len() - 1 - n])
    } else {
        None
    }
}

fn declared_given<I: Copy>(types: &[I], n: u32) -> TypeId<I>
    ensures { (held : Held I) → All (λ a. IsTrue (held.live a)) types.now → IsTypeId held result (slice_get (context_behind [] (map held.tree types.now)) n) }
{
    match from_the_end(types, n) {
        Some(id) => TypeId::Of(id),
        None => TypeId::Unknown,
    }
}

fn declared_written<I: Copy>(types: &[Term], ids: &[Option<I>], n: u32) -> TypeId<I>
    ensures { (held : Held I) → Correspond (IsWritten held) types.now ids.now → IsTypeId held result (slice_get (context_behind [] (tele_of types.now)) n) }
{
    let _types = types;
    match from_the_end(ids, n) {
        Some(ty) => known(ty),
        None => TypeId::Unknown,
    }
}

/// The id of the type of variable `n`, over the variables after it.
pub(crate) fn declared<I: Copy>(scope: &Scope<I>, n: u32) -> TypeId<I>
    ensures { (held : Held I) → IsLive held scope.now → IsTypeId held result (slice_get (scope_in held.tree scope.now) n) }
{
    match scope {
        Scope::Given(types) => declared_given(types, n),
        Scope::Written(types, ids) => declared_written(types, ids, n),
        Scope::Under(ty, outer) => {
            if n == 0 {
                TypeId::Of(*ty)
            } else {
                declared(outer, n - 1)
            }
        }
    }
}

/// The types from the outermost on, written out.
pub(crate) fn export_scope<S: TermStore>(
    alloc: Global,
    store: &S,
    scope: &Scope<S::Id>,
) -> Result<Tele, Stop>
    requires { IsLive (S.held store.now) scope.now }
    ensures { Gives tele_of result (Ok (reverse (scope_in (S.held store.now).tree scope.now))) }
{
    match scope {
        Scope::Given(types) => export_types(alloc, store, types),
        Scope::Written(types, _) => copy_tele(alloc, types),
        Scope::Under(ty, outer) => {
            let mut types = export_scope(alloc, store, outer)?;
            types.push(export_in(alloc, store, *ty)?)?;
            Ok(types)
        }
    }
}

fn export_types<S: TermStore>(alloc: Global, store: &S, ids: &[S::Id]) -> Result<Tele, Stop>
    requires { All (λ a. IsTrue ((S.held store.now).live a)) ids.now }
    ensures { Gives tele_of result (Ok (map (S.held store.now).tree ids.now)) }
{
    let mut types = Items::new(alloc);
    for id in ids {
        types.push(export_in(alloc, store, *id)?)?;
    }
    Ok(types)
}
