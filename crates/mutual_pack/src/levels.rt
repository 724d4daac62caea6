//! The common level of members.
ghost use Rattle.std.specs.Prelude.{◌≡◌, ◌<◌, ◌+◌, ◌^◌, length, map};
ghost use Rattle.core_terms.specs.Meanings.{tree_of};
ghost use Rattle.core_sig.specs.Raw.{member_of};
ghost use Rattle.mutual_pack.specs.Packing as spec;

use crate::MutualStop;
use core_sig::RawMember;
use core_terms::{TOP, Term};

/// Whether the type is `Type l`.
fn is_sort(l: u8, t: &Term) -> bool
    ensures { result ≡ spec.is_sort l (tree_of t.now) }
{
    match t {
        Term::Sort(i) => *i == l,
        _ => false,
    }
}

/// The first member, of those from `number` on, with another type than `Type l`.
fn other_level(l: u8, number: u32, members: &[RawMember]) -> Option<u32>
    requires { number + length members.now < 2 ^ 32 }
    ensures { result ≡ spec.other_level l number (map member_of members.now) }
{
    match members {
        [] => None,
        [member, rest @ ..] => {
            if is_sort(l, &member.ty) {
                other_level(l, number + 1, rest)
            } else {
                Some(number)
            }
        }
    }
}

/// The level `l` of the first member, where those after it have the same.
fn level_with(l: u8, rest: &[RawMember]) -> Result<u8, MutualStop>
    requires { 2 + length rest.now < 2 ^ 32 }
    ensures { result ≡ spec.level_with l (map member_of rest.now) }
{
    if l > TOP - 2 {
        return Err(MutualStop::MemberLevel(1));
    }
    match other_level(l, 2, rest) {
        Some(number) => Err(MutualStop::MemberLevel(number)),
        None => Ok(l),
    }
}

/// The level of a first member with the type `ty` and of those after it.
fn level_from(ty: &Term, rest: &[RawMember]) -> Result<u8, MutualStop>
    requires { 2 + length rest.now < 2 ^ 32 }
    ensures { result ≡ spec.level_from (tree_of ty.now) (map member_of rest.now) }
{
    match ty {
        Term::Sort(l) => level_with(*l, rest),
        _ => Err(MutualStop::MemberLevel(1)),
    }
}

/// The common level of the members.
pub fn common_level(members: &[RawMember]) -> Result<u8, MutualStop>
    requires { 2 + length members.now < 2 ^ 32 }
    ensures { result ≡ spec.common_level (map member_of members.now) }
{
    match members {
        [] => Ok(0),
        [member, rest @ ..] => level_from(&member.ty, rest),
    }
}
