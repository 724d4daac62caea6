ghost use Rattle.std.specs.Prelude.{◌≡◌, ◌↔◌, IsTrue, slice_get};
ghost use Rattle.core_terms.specs.Meanings.{tree_of};
ghost use Rattle.theory.specs.SignatureScopes.{IsScoped};
ghost use Rattle.theory.specs.Terms as tree;
ghost use Rattle.core_sig.specs.ScopeTests as spec;

use crate::{Entry, Signature};
use core_terms::Term;

/// Whether each free variable of the term is below `n`, and each number has its entry. Takes no memory.
pub fn is_scoped(sig: &Signature, n: u32, t: &Term) -> bool
    ensures { IsTrue result ↔ IsScoped sig.now n (tree_of t.now) }
{
    free_of(t) <= n as u64 && has_entries(sig, t)
}

/// One more than the greatest free variable of a term, or 0.
fn free_of(t: &Term) -> u64
    ensures { result ≡ tree.free_of (tree_of t.now) }
{
    match t {
        Term::Var(n) => *n as u64 + 1,
        Term::Pi(a, b) | Term::Lam(a, b) => free_of(a).max(free_of(b).saturating_sub(1)),
        Term::App(f, a) => free_of(f).max(free_of(a)),
        Term::Let(a, v, b) => free_of(a).max(free_of(v).max(free_of(b).saturating_sub(1))),
        _ => 0,
    }
}

/// Whether each number in the term has its entry.
fn has_entries(sig: &Signature, t: &Term) -> bool
    ensures { result ≡ spec.has_entries sig.now (tree_of t.now) }
{
    match t {
        Term::Pi(a, b) | Term::Lam(a, b) | Term::App(a, b) => has_entries(sig, a)
            && has_entries(sig, b),
        Term::Let(a, v, b) => has_entries(sig, a) && has_entries(sig, v) && has_entries(sig, b),
        Term::Const(n) => is_constant(sig, *n),
        Term::Fam(n) | Term::Elim(n, _) => is_family(sig, *n),
        Term::Con(n, c) => has_constructor(sig, *n, *c),
        _ => true,
    }
}

fn is_constant(sig: &Signature, n: u32) -> bool
    ensures { result ≡ spec.is_constant (slice_get sig.now.entries n) }
{
    matches!(sig.entry(n), Some(Entry::Def { .. }))
}

fn is_family(sig: &Signature, n: u32) -> bool
    ensures { result ≡ spec.is_family (slice_get sig.now.entries n) }
{
    matches!(sig.entry(n), Some(Entry::Family(_)))
}

fn has_constructor(sig: &Signature, n: u32, c: u32) -> bool
    ensures { result ≡ spec.has_constructor c (slice_get sig.now.entries n) }
{
    match sig.entry(n) {
        Some(Entry::Family(family)) => (c as usize) < family.cons.as_slice().len(),
        _ => false,
    }
}
