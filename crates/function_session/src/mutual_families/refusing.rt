//! Why families that refer to each other are refused.
ghost use Rattle.std.specs.Prelude.{◌≡◌, map, Ok};
ghost use Rattle.core_terms.specs.Answers.{Gives, Unless};
ghost use Rattle.core_terms.specs.Meanings.{tele_of, tree_of};
ghost use Rattle.core_sig.specs.Raw.{member_of, mutual_of};
ghost use Rattle.elab_session.specs.Refusals.{IsUnforeseen, name_in};
ghost use Rattle.mutual_pack.specs.MutualFamilies.{all_constructors};
ghost use Rattle.function_session.specs.mutual_families.Refusals as spec;

use core_sig::{MutualRaw, RawMember, Signature};
use core_terms::{Name, Stop, Tele, Term, copy_name, number_of};
use core_text::{context_text, print_term};
use elab_session::Refusal;
use mutual_pack::MutualStop;
use std::alloc::Global;

/// The name of a constructor by its number among those of all members.
fn constructor_name(alloc: Global, members: &[RawMember], number: usize) -> Result<Name, Stop>
    ensures { Gives (λ name. name) result (Ok (name_in (map (λ c. c.name) (all_constructors (map member_of members.now))) number)) }
{
    match members {
        [] => Ok(Name::from_vec(Vec::new(alloc))),
        [member, rest @ ..] => {
            let cons = member.cons.as_slice();
            match cons.get(number) {
                Some(con) => Ok(copy_name(alloc, &con.name)?),
                None => constructor_name(alloc, rest, number.saturating_sub(cons.len())),
            }
        }
    }
}

/// Why a declaration is not packed.
fn unpacked_by(alloc: Global, d: &MutualRaw, stop: MutualStop) -> Result<Refusal, Stop>
    ensures { Gives (λ refusal. refusal) result (Ok (spec.unpacked (mutual_of d.now) stop)) }
{
    match stop {
        MutualStop::Memory => Ok(Refusal::Memory),
        MutualStop::Deep => Ok(Refusal::Deep),
        MutualStop::TagCount => Ok(Refusal::TagCount(number_of(d.members.as_slice().len())?)),
        MutualStop::MemberLevel(k) => Ok(Refusal::MemberLevel(k)),
        MutualStop::NotPositive(con, k) => {
            let name = constructor_name(alloc, d.members.as_slice(), con as usize)?;
            Ok(Refusal::NotPositive(name, k))
        }
    }
}

/// Why a declaration is not packed, or Memory where there is none for a name.
pub(crate) fn unpacked(alloc: Global, d: &MutualRaw, stop: MutualStop) -> Refusal
    ensures { Unless (IsUnforeseen result) (result ≡ spec.unpacked (mutual_of d.now) stop) }
{
    match unpacked_by(alloc, d, stop) {
        Ok(refusal) => refusal,
        Err(_) => Refusal::Memory,
    }
}

/// The sides of the equation of a member's constructor do not convert.
fn unequal_sides(
    alloc: Global,
    sig: &Signature,
    member: &Name,
    con: &Name,
    tele: &Tele,
    left: &Term,
    right: &Term,
) -> Result<Refusal, Stop>
    ensures { Gives (λ refusal. refusal) result (Ok (spec.unequal sig.now member.now con.now (tele_of tele.now, tree_of left.now, tree_of right.now))) }
{
    let ctx = context_text(alloc, sig, tele.as_slice())?;
    let left = print_term(alloc, sig, left)?;
    let right = print_term(alloc, sig, right)?;
    let member = copy_name(alloc, member)?;
    Ok(Refusal::Unequal {
        member,
        con: copy_name(alloc, con)?,
        ctx,
        left,
        right,
    })
}

/// The sides of the equation of a member's constructor do not convert, or Memory where there is none for the texts.
pub(crate) fn unequal(
    alloc: Global,
    sig: &Signature,
    member: &Name,
    con: &Name,
    tele: &Tele,
    left: &Term,
    right: &Term,
) -> Refusal
    ensures { Unless (IsUnforeseen result) (result ≡ spec.unequal sig.now member.now con.now (tele_of tele.now, tree_of left.now, tree_of right.now)) }
{
    match unequal_sides(alloc, sig, member, con, tele, left, right) {
        Ok(refusal) => refusal,
        Err(_) => Refusal::Memory,
    }
}
