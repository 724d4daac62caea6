ghost use Rattle.std.specs.Prelude.{◌≡◌, option_map, IfSome};
ghost use Rattle.core_terms.specs.Meanings.{tree_of};
ghost use Rattle.theory.specs.Terms as tree;
ghost use Rattle.core_sig.specs.Names.{find};
ghost use Rattle.core_text.specs.Scopes.{look_of};
ghost use Rattle.core_text.specs.SymbolLookup as spec;

use crate::scanning::is_digit;
use crate::scope::Scope;
use core_sig::{Entry, Found, Signature};
use core_terms::{TOP, Term};

/// A number of at most two digits at the end, without a leading zero, and the bytes before it.
pub fn number_at_end(bytes: &[u8]) -> Option<(&[u8], u8)>
    ensures { option_map (λ p. (p.0.now, p.1)) result ≡ spec.number_at_end bytes.now }
{
    let len = bytes.len();
    if len == 0 || !is_digit(bytes[len - 1]) {
        return None;
    }
    let last = bytes[len - 1] - b'0';
    if 2 <= len && is_digit(bytes[len - 2]) && bytes[len - 2] != b'0' {
        Some((&bytes[..len - 2], 10 * (bytes[len - 2] - b'0') + last))
    } else {
        Some((&bytes[..len - 1], last))
    }
}

/// The bytes before the word at the end.
pub fn before_end<'t>(word: &[u8], bytes: &'t [u8]) -> Option<&'t [u8]>
    ensures { option_map (λ b. b.now) result ≡ spec.before_end word.now bytes.now }
{
    bytes.strip_suffix(word)
}

/// The entry or constructor of that name.
pub(crate) fn found_symbol(sig: &Signature, name: &[u8]) -> Option<Term>
    ensures leaf { IfSome result (λ t. tree.height (tree_of t) ≡ 1) }
    ensures value { option_map tree_of result ≡ spec.found_symbol sig.now (find sig.now name.now) }
{
    match sig.find(name)? {
        Found::Entry(at) => match sig.entry(at)? {
            Entry::Family(_) => Some(Term::Fam(at)),
            Entry::Def { .. } => Some(Term::Const(at)),
            Entry::Elim(..) | Entry::AxiomK(..) => None,
        },
        Found::Con(family, con) => Some(Term::Con(family, con)),
    }
}

/// D!elim.m
fn eliminator_symbol(sig: &Signature, name: &[u8]) -> Option<Term>
    ensures leaf { IfSome result (λ t. tree.height (tree_of t) ≡ 1) }
    ensures value { option_map tree_of result ≡ spec.eliminator_symbol sig.now name.now }
{
    let (front, level) = number_at_end(name)?;
    let family = before_end(b"!elim.", front)?;
    match found_symbol(sig, family)? {
        Term::Fam(at) if level < TOP => Some(Term::Elim(at, level)),
        _ => None,
    }
}

/// Eq.i!k.m
fn axiom_k_symbol(name: &[u8]) -> Option<Term>
    ensures leaf { IfSome result (λ t. tree.height (tree_of t) ≡ 1) }
    ensures value { option_map tree_of result ≡ spec.axiom_k_symbol name.now }
{
    let (front, level) = number_at_end(name)?;
    let equality = before_end(b"!k.", front)?;
    let (family, i) = number_at_end(equality)?;
    if family == b"Eq.".as_slice() && i < TOP && level < TOP {
        Some(Term::AxiomK(i, level))
    } else {
        None
    }
}

/// The symbol with the name.
pub(crate) fn symbol(scope: &Scope, name: &[u8]) -> Option<Term>
    ensures value { option_map tree_of result ≡ look_of scope.now name.now }
    ensures leaf { IfSome result (λ t. tree.height (tree_of t) ≡ 1) }
{
    if !scope.own.is_empty() && name == scope.own {
        return Some(Term::Fam(scope.sig.len()));
    }
    if let Some(t) = found_symbol(scope.sig, name) {
        return Some(t);
    }
    if let Some(t) = eliminator_symbol(scope.sig, name) {
        return Some(t);
    }
    axiom_k_symbol(name)
}
