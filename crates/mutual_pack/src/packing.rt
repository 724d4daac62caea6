ghost use Rattle.std.specs.Prelude.{◌≡◌, ◌<◌, ◌+◌, ◌^◌, IfOk, OnErr, length, map};
ghost use Rattle.core_terms.specs.Answers.{GivesUnless};
ghost use Rattle.core_terms.specs.declared.stop.Stop.TheVariants.{Memory};
ghost use Rattle.core_sig.specs.Raw.{member_of, mutual_of};
ghost use Rattle.mutual_pack.specs.MutualFamilies.{all_constructors, packed_of};
ghost use Rattle.mutual_pack.specs.Fitting.{AreLowMembers, AreNear};
ghost use Rattle.mutual_pack.specs.Packing as spec;

use crate::bounding::{is_low_packed, members_have_low_types};
use crate::levels::common_level;
use crate::members::Members;
use crate::packed_entries::packed_with;
use crate::positions::offence;
use crate::{MutualStop, Packed};
use core_sig::{MutualRaw, RawMember, Signature};
use core_terms::{Stop, number_of};
use std::alloc::Global;

/// How many constructors the members have. Memory where the number does not fit 32 bits.
#[tactic(auto, using(crate::proofs::Flattening::counted))]
fn constructor_count(members: &[RawMember]) -> Result<u32, Stop>
    ensures ok { IfOk result (λ n. n ≡ length (all_constructors (map member_of members.now))) }
    ensures memory { OnErr result (result ≡ Err Memory) }
{
    match members {
        [] => Ok(0),
        [member, rest @ ..] => {
            let here = number_of(member.cons.as_slice().len())?;
            let others = constructor_count(rest)?;
            number_of(here as usize + others as usize)
        }
    }
}

/// The members of a declaration, over `base` entries. Memory where the numbers of the entries, or of variables, do not fit 32 bits.
#[tactic(auto, using(crate::proofs::Flattening::counted))]
fn members_of(base: u32, d: &MutualRaw) -> Result<Members, Stop>
    ensures ok { IfOk result (λ g. g ≡ spec.members_of base (mutual_of d.now)) }
    ensures near { IfOk result AreNear }
    ensures memory { OnErr result (result ≡ Err Memory) }
{
    let count = number_of(d.members.as_slice().len())?;
    let params = number_of(d.params.as_slice().len())?;
    number_of(base as usize + count as usize + 2)?;
    number_of(params as usize + 5000)?;
    Ok(Members {
        first: base,
        count,
        params,
    })
}

/// The packed family, the tag family and the members' definitions, or Deep where one is too high.
fn bounded(packed: Packed) -> Result<Packed, MutualStop>
    ensures { GivesUnless spec.IsUnforeseen packed_of result (spec.bounded_packed (packed_of packed)) }
{
    if !is_low_packed(&packed) {
        return Err(MutualStop::Deep);
    }
    Ok(packed)
}

/// One family, of level `l`, for all members, where these stand only where they may.
fn pack_at(alloc: Global, g: Members, l: u8, d: &MutualRaw) -> Result<Packed, MutualStop>
    requires near { AreNear g }
    requires count { length d.now.members < 2 ^ 32 }
    requires low { AreLowMembers (map member_of d.now.members) }
    ensures { GivesUnless spec.IsUnforeseen packed_of result (spec.pack_at g l (mutual_of d.now)) }
{
    let members = d.members.as_slice();
    constructor_count(members)?;
    if let Some((con, argument)) = offence(g, 0, members) {
        return Err(MutualStop::NotPositive(con, argument));
    }
    bounded(packed_with(alloc, g, l, d)?)
}

/// One family for all members of a declaration whose constructors have low types.
#[tactic(auto, using(crate::proofs::Flattening::counted))]
fn pack_low(alloc: Global, g: Members, d: &MutualRaw) -> Result<Packed, MutualStop>
    requires near { AreNear g }
    requires count { 2 + length d.now.members < 2 ^ 32 }
    requires low { AreLowMembers (map member_of d.now.members) }
    ensures { GivesUnless spec.IsUnforeseen packed_of result (spec.pack_low g (mutual_of d.now)) }
{
    let members = d.members.as_slice();
    if d.tags.as_slice().len() != members.len() {
        return Err(MutualStop::TagCount);
    }
    let l = common_level(members)?;
    pack_at(alloc, g, l, d)
}

/// One family over tags for families that refer to each other. `TagCount` where the tags are not as many as the members, else `MemberLevel`
/// at the first member whose type is not that of the first one, `Type l` with `l` at most `TOP - 2`, else `NotPositive` at the first
/// argument where a member stands otherwise than at the end of its type, applied to the parameters. `Deep` where the type of a constructor
/// or what is packed is too high.
pub fn pack(alloc: Global, sig: &Signature, d: &MutualRaw) -> Result<Packed, MutualStop>
    ensures { GivesUnless spec.IsUnforeseen packed_of result (spec.pack (length sig.now.entries) (mutual_of d.now)) }
{
    if !members_have_low_types(d.members.as_slice()) {
        return Err(MutualStop::Deep);
    }
    let g = members_of(sig.len(), d)?;
    pack_low(alloc, g, d)
}
