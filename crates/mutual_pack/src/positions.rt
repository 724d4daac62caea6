//! Where members stand in the types of constructors.
ghost use Rattle.std.specs.Prelude.{◌≡◌, ◌<◌, ◌+◌, ◌^◌, length, map};
ghost use Rattle.theory.specs.Terms as tree;
ghost use Rattle.core_terms.specs.Meanings.{tree_of};
ghost use Rattle.core_sig.specs.KindTests as kinds;
ghost use Rattle.core_sig.specs.Raw.{raw_constructor_of, member_of};
ghost use Rattle.mutual_pack.specs.MutualFamilies.{all_constructors};
ghost use Rattle.mutual_pack.specs.Members as spec;
ghost use Rattle.mutual_pack.specs.Fitting.{AreLowMembers, HaveLowTypes};

use crate::members::Members;
use core_sig::{RawCon, RawMember};
use core_terms::Term;

/// Whether the constant stands for a member.
fn is_member(g: Members, c: u32) -> bool
    ensures { result ≡ spec.is_member g c }
{
    g.first <= c && (c as u64) < g.first as u64 + g.count as u64
}

/// The member, counted from 0, that the constant stands for.
fn member_number(g: Members, c: u32) -> Option<u32>
    ensures { result ≡ spec.member_number g c }
{
    if g.first <= c && (c as u64) < g.first as u64 + g.count as u64 {
        Some(c - g.first)
    } else {
        None
    }
}

/// Whether a member occurs in the term. Takes no memory.
fn mentions_member(g: Members, t: &Term) -> bool
    ensures { result ≡ spec.mentions_member g (tree_of t.now) }
{
    match t {
        Term::Pi(a, b) | Term::Lam(a, b) | Term::App(a, b) => {
            mentions_member(g, a) || mentions_member(g, b)
        }
        Term::Let(a, t, b) => {
            mentions_member(g, a) || mentions_member(g, t) || mentions_member(g, b)
        }
        Term::Const(c) => is_member(g, *c),
        _ => false,
    }
}

fn is_variable(t: &Term, number: u64) -> bool
    ensures { result ≡ kinds.is_variable number (tree_of t.now) }
{
    match t {
        Term::Var(n) => *n as u64 == number,
        _ => false,
    }
}

/// The member, counted from 0, where the term is one at `params` variables, the last of which is variable `at`.
fn member_at(g: Members, params: u32, at: u64, t: &Term) -> Option<u32>
    requires { at + params < 2 ^ 34 }
    ensures { result ≡ spec.member_at g params at (tree_of t.now) }
{
    match t {
        Term::Const(c) => {
            if params == 0 {
                member_number(g, *c)
            } else {
                None
            }
        }
        Term::App(function, argument) => {
            if params == 0 || !is_variable(argument, at) {
                return None;
            }
            member_at(g, params - 1, at + 1, function)
        }
        _ => None,
    }
}

/// The member, where the term is one at the parameters, under so many binders beyond these.
pub fn whole_member(g: Members, under: u32, t: &Term) -> Option<u32>
    ensures { result ≡ spec.whole_member g under (tree_of t.now) }
{
    member_at(g, g.params, under as u64, t)
}

/// Whether the end of a type is a member at the parameters, or mentions none.
fn is_positive_end(g: Members, under: u32, t: &Term) -> bool
    ensures { result ≡ spec.is_positive_end g under (tree_of t.now) }
{
    whole_member(g, under, t).is_some() || !mentions_member(g, t)
}

/// Whether members stand only where they may in the type of an argument.
fn is_positive_argument(g: Members, under: u32, t: &Term) -> bool
    requires { under + tree.height (tree_of t.now) < 2 ^ 32 }
    ensures { result ≡ spec.is_positive_argument g under (tree_of t.now) }
{
    match t {
        Term::Pi(a, b) => !mentions_member(g, a) && is_positive_argument(g, under + 1, b),
        _ => is_positive_end(g, under, t),
    }
}

/// The first argument, counted from 1, where a member stands elsewhere in the type of a constructor after `at` arguments, or 0 for the
/// result.
fn offending_argument(g: Members, at: u32, t: &Term) -> Option<u32>
    requires { at + tree.height (tree_of t.now) < 2 ^ 32 }
    ensures { result ≡ spec.offending_argument g at (tree_of t.now) }
{
    match t {
        Term::Pi(a, b) => {
            if is_positive_argument(g, at, a) {
                offending_argument(g, at + 1, b)
            } else {
                Some(at + 1)
            }
        }
        _ => {
            if is_positive_end(g, at, t) {
                None
            } else {
                Some(0)
            }
        }
    }
}

/// The first constructor from `number` on with such an argument, and the argument.
fn offence_in(g: Members, number: u32, cons: &[RawCon]) -> Option<(u32, u32)>
    requires number { number + length cons.now < 2 ^ 32 }
    requires low { HaveLowTypes (map raw_constructor_of cons.now) }
    ensures { result ≡ spec.offence g number (map raw_constructor_of cons.now) }
{
    match cons {
        [] => None,
        [con, rest @ ..] => match offending_argument(g, 0, &con.ty) {
            Some(k) => Some((number, k)),
            None => offence_in(g, number + 1, rest),
        },
    }
}

/// The first such argument among the constructors of all members.
#[tactic(auto, using(crate::proofs::Flattening::counted))]
pub fn offence(g: Members, number: u32, members: &[RawMember]) -> Option<(u32, u32)>
    requires number { number + length (all_constructors (map member_of members.now)) < 2 ^ 32 }
    requires low { AreLowMembers (map member_of members.now) }
    ensures { result ≡ spec.offence_among g number (map member_of members.now) }
{
    match members {
        [] => None,
        [member, rest @ ..] => {
            let cons = member.cons.as_slice();
            match offence_in(g, number, cons) {
                Some(offence) => Some(offence),
                None => offence(g, number + cons.len() as u32, rest),
            }
        }
    }
}
