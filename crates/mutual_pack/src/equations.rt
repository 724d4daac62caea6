ghost use Rattle.std.specs.Prelude.{◌≡◌, ◌≤◌, ◌<◌, ◌+◌, ◌++◌, IfOk, OnErr, Ok, length, map};
ghost use Rattle.theory.specs.Families as pure;
ghost use Rattle.theory.specs.Signatures.{FamilyOf, IsEntryAt};
ghost use Rattle.theory.specs.SignatureScopes.{IsFamilyNumber};
ghost use Rattle.core_terms.specs.Answers as answers;
ghost use Rattle.core_terms.specs.Answers.{Gives};
ghost use Rattle.core_terms.specs.Meanings.{tele_of, tree_of};
ghost use Rattle.core_terms.specs.declared.stop.Stop.TheVariants.{Memory};
ghost use Rattle.core_sig.specs.Meanings.{entry_of};
ghost use Rattle.core_sig.specs.Shapes.{argument_shape, shape_of, types_of};
ghost use Rattle.mutual_pack.specs.MutualFamilies.{packed_of};
ghost use Rattle.mutual_pack.specs.Equations as spec;
ghost use Rattle.mutual_pack.specs.Equations.{sides_of};
ghost use Rattle.mutual_pack.specs.Fitting.{HasFewParts, IsNear};
ghost use Rattle.mutual_pack.specs.Inductions.{packed_number};

use crate::Packed;
use crate::bounding::is_low;
use crate::fitting::fits_induction;
use crate::naming::{induction_name, name_of};
use crate::numbers::{packed_family, packed_numbers};
use crate::packed_family::PackedFamily;
use crate::recursions::{left_side, right_side};
use crate::telescopes::{induction_size, induction_telescope};
use core_sig::{Arg, Entry, Family, Found, Signature};
use core_terms::{Items, Run, Stop, Tele, Term, number_of, place};
use std::alloc::Global;

/// The entry with a name.
fn entry_named(sig: &Signature, name: &[u8]) -> u32
    ensures { result ≡ spec.entry_named sig.now name.now }
{
    match sig.find(name) {
        Some(Found::Entry(n)) => n,
        _ => 0,
    }
}

/// The constants `Mi!ind` of the members, after those that are there.
#[tactic(auto, using(tele_eq::proofs::Growing::listing))]
fn inductions_in(
    alloc: Global,
    sig: &Signature,
    members: &[Entry],
    mut made: Items<u32>,
) -> Result<Items<u32>, Stop>
    ensures ok { IfOk result (λ numbers. numbers ≡ made ++ spec.inductions_in sig.now (map entry_of members.now)) }
    ensures memory { OnErr result (result ≡ Err Memory) }
{
    match members {
        [] => Ok(made),
        [member, rest @ ..] => {
            let name = induction_name(alloc, name_of(member))?;
            made.push(entry_named(sig, name.as_slice()))?;
            inductions_in(alloc, sig, rest, made)
        }
    }
}

/// How many of the owners come before a member.
fn count_before(member: u32, owners: &[u32]) -> usize
    ensures is { result ≡ spec.count_before member owners.now }
    ensures few { result ≤ length owners.now }
{
    match owners {
        [] => 0,
        [j, rest @ ..] => {
            let others = count_before(member, rest);
            if *j < member { others + 1 } else { others }
        }
    }
}

/// The arguments of the constructor with a number, if it is there.
#[tactic(auto, using(crate::proofs::Lookups::arguments_are))]
fn arguments_of(f: &Family, number: u32) -> &[Arg]
    requires { HasFewParts (shape_of f.now) }
    ensures is { map argument_shape result.now ≡ spec.arguments_of (shape_of f.now) number }
    ensures few { length result.now ≤ 2000 }
{
    match f.cons.as_slice().get(number as usize) {
        Some(con) => con.args.as_slice(),
        None => &[],
    }
}

/// The types of arguments, the first of which is over `size` variables of the family's record, at a depth, after the types that are there.
#[tactic(auto, using(tele_eq::proofs::Growing::growing))]
fn with_arguments(
    alloc: Global,
    runs: &[Run],
    size: u32,
    depth: u32,
    args: &[Arg],
    mut tele: Tele,
) -> Result<Tele, Stop>
    requires size { size + length args.now ≤ 1000000 }
    requires depth { depth + length args.now ≤ 1000000 }
    ensures { Gives tele_of result (Ok (tele_of tele ++ spec.places runs.now size depth (types_of (map argument_shape args.now)))) }
{
    match args {
        [] => Ok(tele),
        [arg, rest @ ..] => {
            tele.push(place(alloc, runs, size, depth, &arg.ty)?)?;
            with_arguments(alloc, runs, size + 1, depth + 1, rest, tele)
        }
    }
}

/// Parameters, motives, methods and arguments.
fn equation_telescope(
    alloc: Global,
    q: PackedFamily,
    owners: &[u32],
    f: &Family,
    args: &[Arg],
) -> Result<Tele, Stop>
    requires near { IsNear q }
    requires few { HasFewParts (shape_of f.now) }
    requires arguments { length args.now ≤ 2000 }
    ensures { Gives tele_of result (Ok (spec.equation_telescope q owners.now (shape_of f.now) (map argument_shape args.now))) }
{
    let x = induction_size(q);
    let tele = induction_telescope(alloc, q, owners, f)?;
    let runs = [(0, q.params), (x, args.len() as u32)];
    with_arguments(alloc, &runs, q.params, x, args, tele)
}

fn are_low(terms: &[Term]) -> bool
    ensures { result ≡ answers.are_low (tele_of terms.now) }
{
    match terms {
        [] => true,
        [t, rest @ ..] => is_low(t) && are_low(rest),
    }
}

/// A telescope and two terms, or Deep where one of them is too high.
fn bounded_sides(tele: Tele, left: Term, right: Term) -> Result<(Tele, Term, Term), Stop>
    ensures { Gives sides_of result (spec.bounded_sides (tele_of tele) (tree_of left) (tree_of right)) }
{
    if are_low(tele.as_slice()) && is_low(&left) && is_low(&right) {
        return Ok((tele, left, right));
    }
    Err(Stop::Deep)
}

/// The equation of the constructor with a number and the arguments, as one of member k.
fn equation_of(
    alloc: Global,
    q: PackedFamily,
    owners: &[u32],
    inductions: &[u32],
    f: &Family,
    k: u32,
    number: u32,
    args: &[Arg],
) -> Result<(Tele, Term, Term), Stop>
    requires near { IsNear q }
    requires few { HasFewParts (shape_of f.now) }
    requires number { number ≤ 4294000000 }
    requires arguments { length args.now ≤ 2000 }
    ensures { Gives sides_of result (spec.equation_of q owners.now inductions.now (shape_of f.now) k number (map argument_shape args.now)) }
{
    let tele = equation_telescope(alloc, q, owners, f, args)?;
    let left = left_side(alloc, q, inductions, k, number, args.len() as u32)?;
    let right = right_side(alloc, q, inductions, number, args)?;
    bounded_sides(tele, left, right)
}

/// The number of constructor `con` of a member among those of the packed family. Memory where it does not fit 32 bits.
fn constructor_number(owners: &[u32], member: u32, con: u32) -> Result<u32, Stop>
    ensures ok { IfOk result (λ n. n ≡ spec.constructor_number owners.now member con) }
    ensures low { IfOk result (λ n. n ≤ 4294000000) }
    ensures memory { OnErr result (result ≡ Err Memory) }
{
    let before = number_of(count_before(member, owners))?;
    let number = before as usize + con as usize;
    number_of(number + 1000000)?;
    number_of(number)
}

/// The equation of a constructor, where the packed family is family `f` of the signature.
fn equation_in(
    alloc: Global,
    sig: &Signature,
    packed: &Packed,
    f: &Family,
    member: u32,
    con: u32,
) -> Result<(Tele, Term, Term), Stop>
    ensures { Gives sides_of result (spec.induction_equation_of_shape sig.now (packed_of packed.now) (shape_of f.now) member con) }
{
    if !fits_induction(packed, f) {
        return Err(Stop::Deep);
    }
    let q = packed_numbers(packed, f)?;
    let owners = packed.owners.as_slice();
    let number = constructor_number(owners, member, con)?;
    let inductions = inductions_in(alloc, sig, packed.members.as_slice(), Items::new(alloc))?;
    let args = arguments_of(f, number);
    let inductions = inductions.as_slice();
    equation_of(alloc, q, owners, inductions, f, member, number, args)
}

/// The equation of constructor `con` of a member, both counted from 0: its variables, and its sides. What is packed and the entries
/// `Mk!ind` are in the signature. Deep where a term of the equation is too high.
pub fn induction_equation(
    alloc: Global,
    sig: &Signature,
    packed: &Packed,
    member: u32,
    con: u32,
) -> Result<(Tele, Term, Term), Stop>
    requires { IsFamilyNumber sig.now (packed_number (packed_of packed.now)) }
    ensures { (f : pure.Family) → IsEntryAt sig.now (packed_number (packed_of packed.now)) (FamilyOf f) → Gives sides_of result (spec.induction_equation sig.now (packed_of packed.now) f member con) }
{
    let f = packed_family(sig, packed)?;
    equation_in(alloc, sig, packed, f, member, con)
}
