//! What is read off a packed family: numbers and a level.
ghost use Rattle.std.specs.Prelude.{◌≡◌, Some, IfOk, OnErr, get_or, slice_get};
ghost use Rattle.theory.specs.Signatures.{FamilyOf};
ghost use Rattle.theory.specs.SignatureScopes.{IsFamilyNumber};
ghost use Rattle.core_terms.specs.Meanings.{tree_of};
ghost use Rattle.core_terms.specs.declared.stop.Stop.TheVariants.{Memory};
ghost use Rattle.core_sig.specs.Kinds.{HasKinds};
ghost use Rattle.core_sig.specs.Meanings.{family_of};
ghost use Rattle.core_sig.specs.Shapes.{shape_of};
ghost use Rattle.mutual_pack.specs.MutualFamilies.{packed_of};
ghost use Rattle.mutual_pack.specs.Fitting.{FitsInduction, IsNear};
ghost use Rattle.mutual_pack.specs.Inductions as spec;

use crate::Packed;
use crate::packed_family::PackedFamily;
use core_sig::{Entry, Family, Signature};
use core_terms::{Stop, Term, number_of};

/// The number of T, from the type `T -> Type l`.
pub fn tag_number(ty: &Term) -> u32
    ensures { result ≡ spec.tag_number (tree_of ty.now) }
{
    match ty {
        Term::Pi(a, _) => family_number(a),
        _ => 0,
    }
}

fn family_number(t: &Term) -> u32
    ensures { result ≡ spec.family_number (tree_of t.now) }
{
    match t {
        Term::Fam(n) => *n,
        _ => 0,
    }
}

/// The level l.
pub fn level_in(ty: &Term) -> u8
    ensures { result ≡ spec.level_in (tree_of ty.now) }
{
    match ty {
        Term::Pi(_, b) => sort_level(b),
        _ => 0,
    }
}

fn sort_level(t: &Term) -> u8
    ensures { result ≡ spec.sort_level (tree_of t.now) }
{
    match t {
        Term::Sort(l) => *l,
        _ => 0,
    }
}

/// The numbers of a packed family, which is family `f` of the signature. Memory where those of the members do not fit 32 bits.
pub fn packed_numbers(packed: &Packed, f: &Family) -> Result<PackedFamily, Stop>
    requires fits { FitsInduction (packed_of packed.now) (shape_of f.now) }
    ensures ok { IfOk result (λ q. q ≡ spec.packed_numbers (packed_of packed.now) (shape_of f.now)) }
    ensures near { IfOk result IsNear }
    ensures memory { OnErr result (result ≡ Err Memory) }
{
    let tag = tag_number(&packed.family.ty);
    // those of the packed family, and of at most 2,000 members
    number_of(tag as usize + 2002)?;
    Ok(PackedFamily {
        tag,
        params: f.params.as_slice().len() as u32,
        members: packed.members.as_slice().len() as u32,
        constructors: f.cons.as_slice().len() as u32,
        level: level_in(&packed.family.ty),
    })
}

/// The family of the signature that is the packed one. Memory where its number does not fit 32 bits.
pub fn packed_family<'a>(sig: &'a Signature, packed: &Packed) -> Result<&'a Family, Stop>
    requires { IsFamilyNumber sig.now (spec.packed_number (packed_of packed.now)) }
    ensures family { IfOk result (λ f. slice_get sig.now.entries (spec.packed_number (packed_of packed.now)) ≡ Some (FamilyOf (family_of f.now))) }
    ensures kinds { IfOk result (λ f. HasKinds (spec.packed_number (packed_of packed.now)) f.now) }
    ensures memory { OnErr result (result ≡ Err Memory) }
{
    let number = number_of(tag_number(&packed.family.ty) as usize + 1)?;
    match sig.entry(number) {
        Some(Entry::Family(f)) => Ok(f),
        _ => unreachable!(),
    }
}

/// A number of a list, or 0.
pub fn number_at(numbers: &[u32], at: u32) -> u32
    ensures { result ≡ get_or numbers.now at 0 }
{
    match numbers.get(at as usize) {
        Some(n) => *n,
        None => 0,
    }
}
