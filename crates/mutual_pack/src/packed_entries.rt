//! The tag family, the packed family and the definitions of the members.
ghost use Rattle.std.specs.Prelude.{◌≤◌, ◌<◌, ◌+◌, ◌++◌, ◌^◌, Ok, length, map};
ghost use Rattle.theory.specs.Terms as tree;
ghost use Rattle.core_terms.specs.Answers.{Gives};
ghost use Rattle.core_terms.specs.Meanings.{tele_of, tree_of};
ghost use Rattle.core_sig.specs.Meanings.{entry_of};
ghost use Rattle.core_sig.specs.Raw.{raw_constructor_of, raw_of, member_of, mutual_of};
ghost use Rattle.mutual_pack.specs.MutualFamilies.{all_constructors, packed_of};
ghost use Rattle.mutual_pack.specs.Fitting.{AreLowMembers, AreNear, HaveLowTypes};
ghost use Rattle.mutual_pack.specs.Packing as spec;

use crate::Packed;
use crate::members::Members;
use crate::packed_types::{packed_type, tagged};
use case_below_gen::closed_over;
use core_sig::{Entry, MutualRaw, RawCon, RawFamily, RawMember};
use core_terms::{Binder, Items, Name, Stop, Term, copy_name, copy_tele};
use std::alloc::Global;

/// The constructor of the tag family with the name.
fn tag_constructor(alloc: Global, g: Members, name: &Name) -> Result<RawCon, Stop>
    ensures { Gives raw_constructor_of result (Ok (spec.tag_constructor g name.now)) }
{
    Ok(RawCon {
        name: copy_name(alloc, name)?,
        ty: Term::Fam(g.first),
    })
}

/// The constructors of the tag family, after those that are made.
#[tactic(auto, using(tele_eq::proofs::Growing::growing))]
fn with_tags(
    alloc: Global,
    g: Members,
    tags: &[Name],
    mut made: Items<RawCon>,
) -> Result<Items<RawCon>, Stop>
    ensures { Gives (map raw_constructor_of) result (Ok (map raw_constructor_of made ++ map (spec.tag_constructor g) tags.now)) }
{
    match tags {
        [] => Ok(made),
        [tag, rest @ ..] => {
            made.push(tag_constructor(alloc, g, tag)?)?;
            with_tags(alloc, g, rest, made)
        }
    }
}

/// The tag family.
fn tag_family(alloc: Global, g: Members, name: &Name, tags: &[Name]) -> Result<RawFamily, Stop>
    ensures { Gives raw_of result (Ok (spec.tag_family g name.now tags.now)) }
{
    let cons = with_tags(alloc, g, tags, Items::new(alloc))?;
    Ok(RawFamily {
        name: copy_name(alloc, name)?,
        params: Items::new(alloc),
        ty: Term::Sort(0),
        cons,
    })
}

/// A constructor of the packed family.
fn packed_constructor(alloc: Global, g: Members, con: &RawCon) -> Result<RawCon, Stop>
    requires near { AreNear g }
    requires low { tree.height (tree_of con.now.ty) ≤ 2000 }
    ensures { Gives raw_constructor_of result (Ok (spec.packed_constructor g (raw_constructor_of con.now))) }
{
    let name = copy_name(alloc, &con.name)?;
    let ty = packed_type(alloc, g, 0, &con.ty)?;
    Ok(RawCon { name, ty })
}

/// The constructors of a member in the packed family, after those that are made.
#[tactic(auto, using(tele_eq::proofs::Growing::growing))]
fn with_constructors(
    alloc: Global,
    g: Members,
    cons: &[RawCon],
    mut made: Items<RawCon>,
) -> Result<Items<RawCon>, Stop>
    requires near { AreNear g }
    requires low { HaveLowTypes (map raw_constructor_of cons.now) }
    ensures { Gives (map raw_constructor_of) result (Ok (map raw_constructor_of made ++ map (spec.packed_constructor g) (map raw_constructor_of cons.now))) }
{
    match cons {
        [] => Ok(made),
        [con, rest @ ..] => {
            made.push(packed_constructor(alloc, g, con)?)?;
            with_constructors(alloc, g, rest, made)
        }
    }
}

/// Those of all members.
#[tactic(auto, using(crate::proofs::Flattening::flattened))]
fn with_members(
    alloc: Global,
    g: Members,
    members: &[RawMember],
    made: Items<RawCon>,
) -> Result<Items<RawCon>, Stop>
    requires near { AreNear g }
    requires low { AreLowMembers (map member_of members.now) }
    ensures { Gives (map raw_constructor_of) result (Ok (map raw_constructor_of made ++ map (spec.packed_constructor g) (all_constructors (map member_of members.now)))) }
{
    match members {
        [] => Ok(made),
        [member, rest @ ..] => {
            let made = with_constructors(alloc, g, member.cons.as_slice(), made)?;
            with_members(alloc, g, rest, made)
        }
    }
}

/// The packed family, of level `l`.
fn packed_family(alloc: Global, g: Members, l: u8, d: &MutualRaw) -> Result<RawFamily, Stop>
    requires near { AreNear g }
    requires low { AreLowMembers (map member_of d.now.members) }
    ensures { Gives raw_of result (Ok (spec.packed_family g l (mutual_of d.now))) }
{
    let name = copy_name(alloc, &d.family)?;
    let params = copy_tele(alloc, d.params.as_slice())?;
    let ty = Term::new_pi(alloc, Term::Fam(g.first), Term::Sort(l))?;
    let cons = with_members(alloc, g, d.members.as_slice(), Items::new(alloc))?;
    Ok(RawFamily {
        name,
        params,
        ty,
        cons,
    })
}

/// The definition of member `k`.
fn member_entry(
    alloc: Global,
    g: Members,
    l: u8,
    params: &[Term],
    k: u32,
    member: &RawMember,
) -> Result<Entry, Stop>
    requires near { AreNear g }
    ensures { Gives entry_of result (Ok (spec.member_entry g l (tele_of params.now) k (member_of member.now))) }
{
    let name = copy_name(alloc, &member.name)?;
    let ty = closed_over(alloc, Binder::Product, params, Term::Sort(l))?;
    let end = tagged(alloc, g, k, g.params)?;
    let body = closed_over(alloc, Binder::Function, params, end)?;
    Ok(Entry::Def { name, ty, body })
}

/// The definitions of the members from `k` on, after those that are made.
#[tactic(auto, using(tele_eq::proofs::Growing::growing))]
fn member_entries(
    alloc: Global,
    g: Members,
    l: u8,
    params: &[Term],
    k: u32,
    members: &[RawMember],
    mut made: Items<Entry>,
) -> Result<Items<Entry>, Stop>
    requires near { AreNear g }
    requires number { k + length members.now < 2 ^ 32 }
    ensures { Gives (map entry_of) result (Ok (map entry_of made ++ spec.member_entries g l (tele_of params.now) k (map member_of members.now))) }
{
    match members {
        [] => Ok(made),
        [member, rest @ ..] => {
            made.push(member_entry(alloc, g, l, params, k, member)?)?;
            member_entries(alloc, g, l, params, k + 1, rest, made)
        }
    }
}

/// The number once for each constructor, after those that are made.
#[tactic(auto, using(tele_eq::proofs::Growing::listing))]
fn repeated(k: u32, cons: &[RawCon], mut made: Items<u32>) -> Result<Items<u32>, Stop>
    ensures { Gives (λ owners. owners) result (Ok (made ++ map (λ c. k) (map raw_constructor_of cons.now))) }
{
    match cons {
        [] => Ok(made),
        [_, rest @ ..] => {
            made.push(k)?;
            repeated(k, rest, made)
        }
    }
}

/// The member that declares each constructor, for the members from `k` on, after those that are made.
#[tactic(auto, using(crate::proofs::Flattening::flattened))]
fn owners_from(k: u32, members: &[RawMember], made: Items<u32>) -> Result<Items<u32>, Stop>
    requires { k + length members.now < 2 ^ 32 }
    ensures { Gives (λ owners. owners) result (Ok (made ++ spec.owners_from k (map member_of members.now))) }
{
    match members {
        [] => Ok(made),
        [member, rest @ ..] => {
            let made = repeated(k, member.cons.as_slice(), made)?;
            owners_from(k + 1, rest, made)
        }
    }
}

/// The declaration as one family, of level `l`.
pub fn packed_with(alloc: Global, g: Members, l: u8, d: &MutualRaw) -> Result<Packed, Stop>
    requires near { AreNear g }
    requires count { length d.now.members < 2 ^ 32 }
    requires low { AreLowMembers (map member_of d.now.members) }
    ensures { Gives packed_of result (Ok (spec.packed_with g l (mutual_of d.now))) }
{
    let tag = tag_family(alloc, g, &d.tag, d.tags.as_slice())?;
    let family = packed_family(alloc, g, l, d)?;
    let members = d.members.as_slice();
    let params = d.params.as_slice();
    let entries = member_entries(alloc, g, l, params, 0, members, Items::new(alloc))?;
    let owners = owners_from(0, members, Items::new(alloc))?;
    Ok(Packed {
        tag,
        family,
        members: entries,
        owners,
    })
}
