ghost use Rattle.std.specs.Prelude.{◌≡◌, cond, position, slice_get};
ghost use Rattle.std.specs.Option.{is_some};
ghost use Rattle.theory.specs.Terms.{Term};
ghost use Rattle.core_sig.specs.Instances.{is_axiom_k, is_eliminator};
ghost use Rattle.term_pool.specs.Nodes.{says};
ghost use Rattle.kernel_reduce.specs.Entries.{family_at};
ghost use Rattle.kernel_check.specs.TypeIds as spec;
ghost use Rattle.kernel_check.specs.declared.type_id.TypeId.TheVariants.{Unknown};

use crate::type_id::{TypeId, known};
use core_sig::{EntryIds, Signature};
use term_pool::Node;

/// The id of the type of entry `n`.
fn entry_type<I: Copy>(ids: &EntryIds<I>, n: u32) -> TypeId<I>
    ensures { result ≡ spec.entry_type (slice_get ids.now.entries.items n) }
{
    match ids.entries.as_slice().get(n as usize) {
        Some(entry) => known(entry.ty),
        None => TypeId::Unknown,
    }
}

/// The id of the type of constant `n`: an entry with a body is a definition.
fn constant_type<I: Copy>(ids: &EntryIds<I>, n: u32) -> TypeId<I>
    ensures { result ≡ spec.definition_type (slice_get ids.now.entries.items n) }
{
    match ids.entries.as_slice().get(n as usize) {
        Some(entry) => {
            if entry.body.is_some() {
                known(entry.ty)
            } else {
                TypeId::Unknown
            }
        }
        None => TypeId::Unknown,
    }
}

/// The id of the type of family `n`.
fn family_type<I: Copy>(sig: &Signature, ids: &EntryIds<I>, n: u32) -> TypeId<I>
    ensures { result ≡ cond (is_some (family_at sig.now n)) (spec.entry_type (slice_get ids.now.entries.items n)) Unknown }
{
    match kernel_reduce::family(sig, n) {
        Some(_) => entry_type(ids, n),
        None => TypeId::Unknown,
    }
}

/// The id of the type of constructor `number` of family `n`.
fn constructor_type<I: Copy>(ids: &EntryIds<I>, n: u32, number: u32) -> TypeId<I>
    ensures { result ≡ spec.constructor_type (slice_get ids.now.entries.items n) number }
{
    match ids.entries.as_slice().get(n as usize) {
        Some(entry) => match entry.cons.as_slice().get(number as usize) {
            Some(id) => known(id.ty),
            None => TypeId::Unknown,
        },
        None => TypeId::Unknown,
    }
}

/// The id of the type of the eliminator of family `n` at level `m`.
fn eliminator_type<I: Copy>(sig: &Signature, ids: &EntryIds<I>, n: u32, m: u8) -> TypeId<I>
    ensures { result ≡ spec.instance_type ids.now (position (is_eliminator n m) sig.now.entries) }
{
    match sig.eliminator(n, m) {
        Some(at) => entry_type(ids, at),
        None => TypeId::Unknown,
    }
}

/// The id of the type of the axiom K of `Eq.i` at level `m`.
fn axiom_k_type<I: Copy>(sig: &Signature, ids: &EntryIds<I>, i: u8, m: u8) -> TypeId<I>
    ensures { result ≡ spec.instance_type ids.now (position (is_axiom_k i m) sig.now.entries) }
{
    match sig.axiom_k(i, m) {
        Some(at) => entry_type(ids, at),
        None => TypeId::Unknown,
    }
}

/// The id of the type of a symbol. Other nodes are unknown.
pub(crate) fn symbol_type<I: Copy>(sig: &Signature, ids: &EntryIds<I>, symbol: Node<I>) -> TypeId<I>
    ensures { (tree : I → Term) → spec.FindsType sig.now ids.now (says tree symbol) result }
{
    match symbol {
        Node::Const(n) => constant_type(ids, n),
        Node::Fam(n) => family_type(sig, ids, n),
        Node::Con(n, number) => constructor_type(ids, n, number),
        Node::Elim(n, m) => eliminator_type(sig, ids, n, m),
        Node::AxiomK(i, m) => axiom_k_type(sig, ids, i, m),
        Node::Var(_)
        | Node::Sort(_)
        | Node::Pi(_, _)
        | Node::Lam(_, _)
        | Node::App(_, _)
        | Node::Let(_, _, _) => TypeId::Unknown,
    }
}
