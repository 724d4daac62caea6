//! The equations of the inductions of members: both sides of each are compared.
ghost use Rattle.std.specs.Prelude.{◌≡◌, ◌≤◌, ◌<◌, ◌+◌, ◌^◌, [], ◌∷◌, map, length};
ghost use Rattle.theory.specs.SignatureScopes.{IsFamilyNumber};
ghost use Rattle.core_terms.specs.Meanings.{tele_of, tree_of};
ghost use Rattle.core_sig.specs.Raw.{member_of, raw_constructor_of};
ghost use Rattle.elab_session.specs.Entering.{Declares};
ghost use Rattle.elab_session.specs.Refusals as refusals;
ghost use Rattle.function_session.specs.mutual_families.Conditions.{AreAllComparable, AreComparable, CanCompare};
ghost use Rattle.function_session.specs.mutual_families.EquationLines as spec;
ghost use Rattle.function_session.specs.mutual_families.Refusals.{refused_with};
ghost use Rattle.kernel_reduce.specs.Comparison.{convertible_of};
ghost use Rattle.kernel_reduce.specs.Reduction.{nesting};
ghost use Rattle.kernel_reduce.specs.WellScoped.{CanReduce};
ghost use Rattle.mutual_pack.specs.Inductions.{packed_number};
ghost use Rattle.mutual_pack.specs.MutualFamilies.{packed_of};

use crate::mutual_families::refusing::unequal;
use core_sig::{RawCon, RawMember, Signature};
use core_terms::{Name, Tele, Term, Units, number_of};
use elab_session::{Refusal, stopped};
use kernel_check::Kernel;
use mutual_pack::{Packed, induction_equation};
use std::alloc::Global;

/// Whether two terms are found convertible.
fn compare(
    sig: &Signature,
    fuel: u64,
    left: &Term,
    right: &Term,
    kernel: &mut Kernel<'_>,
) -> Result<bool, Refusal>
    requires kernel { kernel.old.signature ≡ sig.now }
    requires terms { CanReduce sig.now (tree_of left.now ∷ tree_of right.now ∷ []) }
    ensures answer { Declares (λ equal. equal) result kernel.new.left (refused_with (refusals.stopped fuel) (convertible_of sig.now nesting (tree_of left.now) (tree_of right.now) kernel.old.left)) }
    ensures sum { kernel.new.left + kernel.new.spent ≡ kernel.old.left + kernel.old.spent }
    ensures spends { kernel.new.left ≤ kernel.old.left }
{
    match kernel.convertible(left, right) {
        Ok(equal) => Ok(equal),
        Err(stop) => Err(stopped(fuel, stop)),
    }
}

/// Whether two terms are found convertible, with units in place of a kernel.
fn convertible(
    alloc: Global,
    sig: &Signature,
    fuel: u64,
    left: &Term,
    right: &Term,
    units: &mut Units,
) -> Result<bool, Refusal>
    requires { CanReduce sig.now (tree_of left.now ∷ tree_of right.now ∷ []) }
    ensures answer { Declares (λ equal. equal) result units.new.left (refused_with (refusals.stopped fuel) (convertible_of sig.now nesting (tree_of left.now) (tree_of right.now) units.old.left)) }
    ensures sum { units.new.left + units.new.spent ≡ units.old.left + units.old.spent }
    ensures spends { units.new.left ≤ units.old.left }
{
    let mut kernel = Kernel::new(alloc, sig, *units);
    let equal = compare(sig, fuel, left, right, &mut kernel);
    *units = kernel.into_units();
    equal
}

/// Compares both sides of an equation of a member's constructor.
fn compare_sides(
    alloc: Global,
    sig: &Signature,
    fuel: u64,
    member: &Name,
    con: &Name,
    tele: &Tele,
    left: &Term,
    right: &Term,
    units: &mut Units,
) -> Result<(), Refusal>
    requires { CanReduce sig.now (tree_of left.now ∷ tree_of right.now ∷ []) }
    ensures answer { Declares (λ u. u) result units.new.left (spec.sides_compared sig.now fuel member.now con.now (tele_of tele.now, tree_of left.now, tree_of right.now) units.old.left) }
    ensures sum { units.new.left + units.new.spent ≡ units.old.left + units.old.spent }
    ensures spends { units.new.left ≤ units.old.left }
{
    if convertible(alloc, sig, fuel, left, right, units)? {
        return Ok(());
    }
    Err(unequal(alloc, sig, member, con, tele, left, right))
}

/// Compares both sides of the equation of constructor `con` of member `k`, which have these names.
fn check_equation(
    alloc: Global,
    sig: &Signature,
    fuel: u64,
    packed: &Packed,
    k: u32,
    con: u32,
    member: &Name,
    name: &Name,
    units: &mut Units,
) -> Result<(), Refusal>
    requires family { IsFamilyNumber sig.now (packed_number (packed_of packed.now)) }
    requires sides { CanCompare sig.now (packed_of packed.now) k con }
    ensures answer { Declares (λ u. u) result units.new.left (spec.equation_checked sig.now fuel (packed_of packed.now) k con member.now name.now units.old.left) }
    ensures sum { units.new.left + units.new.spent ≡ units.old.left + units.old.spent }
    ensures spends { units.new.left ≤ units.old.left }
{
    match induction_equation(alloc, sig, packed, k, con) {
        Ok((tele, left, right)) => {
            compare_sides(alloc, sig, fuel, member, name, &tele, &left, &right, units)
        }
        Err(stop) => Err(stopped(fuel, stop)),
    }
}

/// Compares both sides of the equations of constructors of member `k`, from constructor `con` on.
fn check_constructors(
    alloc: Global,
    sig: &Signature,
    fuel: u64,
    packed: &Packed,
    k: u32,
    con: u32,
    member: &Name,
    cons: &[RawCon],
    units: &mut Units,
) -> Result<(), Refusal>
    requires family { IsFamilyNumber sig.now (packed_number (packed_of packed.now)) }
    requires few { con + length cons.now < 2 ^ 32 }
    requires sides { AreComparable sig.now (packed_of packed.now) k con (map raw_constructor_of cons.now) }
    ensures answer { Declares (λ u. u) result units.new.left (spec.constructors_checked sig.now fuel (packed_of packed.now) k con member.now (map raw_constructor_of cons.now) units.old.left) }
    ensures sum { units.new.left + units.new.spent ≡ units.old.left + units.old.spent }
    ensures spends { units.new.left ≤ units.old.left }
{
    match cons {
        [] => Ok(()),
        [c, rest @ ..] => {
            check_equation(alloc, sig, fuel, packed, k, con, member, &c.name, units)?;
            check_constructors(alloc, sig, fuel, packed, k, con + 1, member, rest, units)
        }
    }
}

/// Compares both sides of the equations of a member.
fn check_member(
    alloc: Global,
    sig: &Signature,
    fuel: u64,
    packed: &Packed,
    k: u32,
    member: &RawMember,
    units: &mut Units,
) -> Result<(), Refusal>
    requires family { IsFamilyNumber sig.now (packed_number (packed_of packed.now)) }
    requires sides { AreComparable sig.now (packed_of packed.now) k 0 (map raw_constructor_of member.now.cons) }
    ensures answer { Declares (λ u. u) result units.new.left (spec.constructors_checked sig.now fuel (packed_of packed.now) k 0 member.now.name (map raw_constructor_of member.now.cons) units.old.left) }
    ensures sum { units.new.left + units.new.spent ≡ units.old.left + units.old.spent }
    ensures spends { units.new.left ≤ units.old.left }
{
    let cons = member.cons.as_slice();
    let Ok(_count) = number_of(cons.len()) else {
        return Err(Refusal::Memory);
    };
    check_constructors(alloc, sig, fuel, packed, k, 0, &member.name, cons, units)
}

/// Compares both sides of the equations of members, from member `k` on.
fn check_members(
    alloc: Global,
    sig: &Signature,
    fuel: u64,
    packed: &Packed,
    k: u32,
    members: &[RawMember],
    units: &mut Units,
) -> Result<(), Refusal>
    requires family { IsFamilyNumber sig.now (packed_number (packed_of packed.now)) }
    requires few { k + length members.now < 2 ^ 32 }
    requires sides { AreAllComparable sig.now (packed_of packed.now) k (map member_of members.now) }
    ensures answer { Declares (λ u. u) result units.new.left (spec.equations_checked sig.now fuel (packed_of packed.now) k (map member_of members.now) units.old.left) }
    ensures sum { units.new.left + units.new.spent ≡ units.old.left + units.old.spent }
    ensures spends { units.new.left ≤ units.old.left }
{
    match members {
        [] => Ok(()),
        [member, rest @ ..] => {
            check_member(alloc, sig, fuel, packed, k, member, units)?;
            check_members(alloc, sig, fuel, packed, k + 1, rest, units)
        }
    }
}

/// Compares both sides of the equations of all members.
pub(crate) fn check_equations(
    alloc: Global,
    sig: &Signature,
    fuel: u64,
    packed: &Packed,
    members: &[RawMember],
    units: &mut Units,
) -> Result<(), Refusal>
    requires family { IsFamilyNumber sig.now (packed_number (packed_of packed.now)) }
    requires sides { AreAllComparable sig.now (packed_of packed.now) 0 (map member_of members.now) }
    ensures answer { Declares (λ u. u) result units.new.left (spec.equations_checked sig.now fuel (packed_of packed.now) 0 (map member_of members.now) units.old.left) }
    ensures sum { units.new.left + units.new.spent ≡ units.old.left + units.old.spent }
    ensures spends { units.new.left ≤ units.old.left }
{
    let Ok(_count) = number_of(members.len()) else {
        return Err(Refusal::Memory);
    };
    check_members(alloc, sig, fuel, packed, 0, members, units)
}
