ghost use Rattle.std.specs.Prelude.{◌≡◌, ◌<◌, ◌++◌, map, bytes_eq};
ghost use Rattle.core_terms.specs.Meanings.{tree_of, tele_of};
ghost use Rattle.core_sig.specs.Meanings.{family_of, constructor_of};
ghost use Rattle.theory.specs.Prelude.{level_text};
ghost use Rattle.theory.specs.Signatures.{equality};
ghost use Rattle.kernel_reduce.specs.Entries.{family_at};
ghost use Rattle.kernel_reduce.specs.Identities as spec;

use crate::lookup::family;
use core_sig::{Arg, Constructor, Family, Signature, equality};
use core_terms::{TOP, Term};

/// Whether K of `Eq.i` steps: it is on, and the signature has `Eq.i` as the prelude has it.
pub fn has_k(sig: &Signature, i: u8) -> bool
    ensures { result ≡ spec.has_k_at sig.now i }
{
    sig.k() && i < TOP && is_there(sig, i)
}

fn is_there(sig: &Signature, i: u8) -> bool
    requires { i < 100 }
    ensures { result ≡ spec.is_identity_there i (family_at sig.now (equality i)) }
{
    match family(sig, equality(i)) {
        Some(f) => is_identity(f, i),
        None => false,
    }
}

fn is_identity(f: &Family, i: u8) -> bool
    requires { i < 100 }
    ensures { result ≡ spec.is_identity i (family_of f.now) }
{
    is_named(f.name.as_slice(), b"Eq.", i)
        && has_parameters(f.params.as_slice(), i)
        && has_index(f.indices.as_slice(), i)
        && f.level == i
        && has_reflexivity(f.cons.as_slice(), f.params.as_slice().len(), i)
}

fn is_level(text: &[u8], i: u8) -> bool
    requires { i < 100 }
    ensures { result ≡ bytes_eq text.now (level_text i) }
{
    match text {
        [digit] => i < 10 && *digit == b'0' + i,
        [tens, units] => i >= 10 && *tens == b'0' + i / 10 && *units == b'0' + i % 10,
        _ => false,
    }
}

fn is_named(name: &[u8], front: &[u8], i: u8) -> bool
    requires { i < 100 }
    ensures { result ≡ spec.is_named front.now i name.now }
{
    match (name, front) {
        ([a, name @ ..], [b, front @ ..]) => a == b && is_named(name, front, i),
        ([], [_, ..]) => false,
        (_, _) => is_level(name, i),
    }
}

fn is_sort(t: &Term, i: u8) -> bool
    ensures { result ≡ spec.is_sort i (tree_of t.now) }
{
    match t {
        Term::Sort(j) => *j == i,
        _ => false,
    }
}

fn is_variable(t: &Term, n: u32) -> bool
    ensures { result ≡ spec.is_variable n (tree_of t.now) }
{
    match t {
        Term::Var(m) => *m == n,
        _ => false,
    }
}

fn has_parameters(params: &[Term], i: u8) -> bool
    ensures { result ≡ spec.has_parameters i (tele_of params.now) }
{
    match params {
        [a, b] => is_sort(a, i) && is_variable(b, 0),
        _ => false,
    }
}

fn has_index(indices: &[Arg], i: u8) -> bool
    ensures { result ≡ spec.has_index i (map (λ i. (tree_of i.ty, i.level)) indices.now) }
{
    match indices {
        [a] => is_variable(&a.ty, 1) && a.level == i,
        _ => false,
    }
}

fn has_target(targets: &[Term]) -> bool
    ensures { result ≡ spec.has_target (tele_of targets.now) }
{
    match targets {
        [t] => is_variable(t, 0),
        _ => false,
    }
}

fn has_reflexivity(cons: &[Constructor], params: usize, i: u8) -> bool
    requires { i < 100 }
    ensures { result ≡ spec.has_reflexivity i (map (constructor_of params) cons.now) }
{
    match cons {
        [c] => {
            is_named(c.name.as_slice(), b"refl.", i)
                && c.args.as_slice().is_empty()
                && has_target(c.targets.as_slice())
        }
        _ => false,
    }
}
