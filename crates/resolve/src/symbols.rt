ghost use Rattle.std.specs.Prelude.{◌≡◌, IfSome, option_map, slice_get};
ghost use Rattle.theory.specs.Terms as tree;
ghost use Rattle.core_terms.specs.Meanings.{tree_of};
ghost use Rattle.resolve.specs.Names.{entry_symbol, known_in, with_constants};
ghost use Rattle.resolve.specs.Scopes.{known_of};

use crate::member_names::MemberNames;
use core_sig::{Entry, Found, Signature};
use core_terms::{Name, Term};

/// The declaration that is resolved, as far as its name is known already. It will be the next entry, and
/// families that refer to each other have their numbers.
#[derive(Clone, Copy)]
pub(crate) enum Own<'a> {
    Unnamed,
    Family(&'a Name),
    Function(&'a Name),
    Members(&'a MemberNames),
}

/// The terms of names that no binder has.
#[derive(Drop)]
pub(crate) struct Symbols<'a> {
    pub(crate) sig: &'a Signature,
    pub(crate) own: Own<'a>,
}

impl<'a> Symbols<'a> {
    pub(crate) fn find(&self, name: &[u8]) -> Option<Term>
        ensures term { option_map tree_of result ≡ known_of self.now name.now }
        ensures leaf { IfSome result (λ t. tree.height (tree_of t) ≡ 1) }
    {
        match self.own {
            Own::Family(own) if own.as_slice() == name => Some(Term::Fam(self.sig.len())),
            Own::Function(own) if own.as_slice() == name => Some(Term::Const(self.sig.len())),
            Own::Members(members) => find_with(self.sig, members, name),
            _ => find_in(self.sig, name),
        }
    }
}

/// The constant of a member that has the name, else what the signature has.
fn find_with(sig: &Signature, members: &MemberNames, name: &[u8]) -> Option<Term>
    ensures term { option_map tree_of result ≡ with_constants members.now.first members.now.names (known_in sig.now) name.now }
    ensures leaf { IfSome result (λ t. tree.height (tree_of t) ≡ 1) }
{
    match members.number(name) {
        Some(n) => Some(Term::Const(n)),
        None => find_in(sig, name),
    }
}

fn find_in(sig: &Signature, name: &[u8]) -> Option<Term>
    ensures term { option_map tree_of result ≡ known_in sig.now name.now }
    ensures leaf { IfSome result (λ t. tree.height (tree_of t) ≡ 1) }
{
    match sig.find(name)? {
        Found::Entry(at) => Some(symbol(sig, at)),
        Found::Con(family, con) => Some(Term::Con(family, con)),
    }
}

/// The symbol of the entry, which has a name.
fn symbol(sig: &Signature, at: u32) -> Term
    ensures term { tree_of result ≡ entry_symbol at (slice_get sig.now.entries at) }
    ensures leaf { tree.height (tree_of result) ≡ 1 }
{
    match sig.entry(at) {
        Some(Entry::Family(_)) => Term::Fam(at),
        _ => Term::Const(at),
    }
}
