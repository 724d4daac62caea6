ghost use Rattle.std.specs.Prelude.{◌≡◌, ◌≤◌, ◌+◌, ◌↔◌, ◌==◌, IsTrue, length, map, option_map, slice_get};
ghost use Rattle.std.specs.Option.{option_copied};
ghost use Rattle.core_terms.specs.Meanings.{tree_of};
ghost use Rattle.core_sig.specs.Shapes.{argument_shape, constructor_shape, shape_of};
ghost use Rattle.theory.specs.Families as pure;
ghost use Rattle.theory.specs.Signatures.{FamilyOf, IsEntryAt};
ghost use Rattle.theory.specs.SignatureScopes.{IsFamilyNumber};
ghost use Rattle.theory.specs.Spines.{head_of, spine_of};
ghost use Rattle.case_below_gen.specs.PartTests as spec;
ghost use Rattle.case_below_gen.specs.StrictParts.{IsStrictPart};

use core_sig::{Arg, ArgKind, Constructor, Entry, Family, Signature};
use core_terms::{Term, head};

/// Whether `part` is syntactically a strict part of a term of family `fam`. Takes no memory.
pub fn is_strict_part(sig: &Signature, fam: u32, part: &Term, term: &Term) -> bool
    requires { IsFamilyNumber sig.now fam }
    ensures { (f : pure.Family) → IsEntryAt sig.now fam (FamilyOf f) → IsTrue result ↔ IsStrictPart fam f (tree_of part.now) (tree_of term.now) }
{
    match sig.entry(fam) {
        Some(Entry::Family(f)) => has_part(fam, f, part, term),
        _ => unreachable!(),
    }
}

/// Whether `part` is a strict part of `t`.
#[cycle(has_part)]
pub fn has_part(fam: u32, f: &Family, part: &Term, t: &Term) -> bool
    ensures { result ≡ spec.has_part fam (shape_of f.now) (tree_of part.now) (tree_of t.now) }
{
    match constructor_of(fam, f, t) {
        Some(con) => {
            let args = con.args.as_slice();
            has_part_along(fam, f, part, args, args.len(), t)
        }
        None => false,
    }
}

/// Whether `part` is a strict part among the first `at` arguments of a constructor, the last of which are in `t`.
#[cycle(has_part)]
pub fn has_part_along(fam: u32, f: &Family, part: &Term, args: &[Arg], at: usize, t: &Term) -> bool
    ensures { result ≡ spec.has_part_along fam (shape_of f.now) (tree_of part.now) (map argument_shape args.now) at (tree_of t.now) }
{
    match t {
        Term::App(g, r) if at > 0 => {
            has_part_along(fam, f, part, args, at - 1, g)
                || is_at(fam, f, part, argument_at(args, at - 1), r)
        }
        _ => false,
    }
}

/// Whether `part` is `r`, an argument, at its inner arguments, or is inside `r`.
#[cycle(has_part)]
fn is_at(fam: u32, f: &Family, part: &Term, arg: Option<&Arg>, r: &Term) -> bool
    ensures { result ≡ spec.is_at (tree_of part.now) (tree_of r.now) (option_map argument_shape (option_copied arg.entry)) (spec.has_part fam (shape_of f.now) (tree_of part.now) (tree_of r.now)) }
{
    match arg {
        Some(
            Arg {
                kind: ArgKind::Recursive(count),
                ..
            },
        ) => { is_applied(r, *count, part) || (*count == 0 && has_part(fam, f, part, r)) }
        _ => false,
    }
}

/// Whether a term is `r` at `count` arguments.
pub fn is_applied(r: &Term, count: u32, t: &Term) -> bool
    ensures { result ≡ spec.is_applied (tree_of r.now) count (tree_of t.now) }
{
    if count == 0 {
        return t.same(r);
    }
    match t {
        Term::App(g, _) => is_applied(r, count - 1, g),
        _ => false,
    }
}

/// The argument with the number.
pub fn argument_at(args: &[Arg], at: usize) -> Option<&Arg>
    ensures { option_map argument_shape (option_copied result) ≡ slice_get (map argument_shape args.now) at }
{
    args.get(at)
}

/// The constructor at the head of a term of family `fam`, where it has all its arguments.
pub fn constructor_of<'a>(fam: u32, f: &'a Family, t: &Term) -> Option<&'a Constructor>
    ensures { option_map constructor_shape (option_copied result) ≡ spec.constructor_of fam (shape_of f.now) (tree_of t.now) }
{
    let number = constructor_number(fam, head(t))?;
    let con = constructor_at(f, number)?;
    if has_arguments(
        t,
        f.params.as_slice().len() as u128 + con.args.as_slice().len() as u128,
    ) {
        Some(con)
    } else {
        None
    }
}

/// The number of a constructor of family `fam`.
fn constructor_number(fam: u32, t: &Term) -> Option<u32>
    ensures { result ≡ spec.constructor_number fam (tree_of t.now) }
{
    match t {
        Term::Con(family, number) if *family == fam => Some(*number),
        _ => None,
    }
}

fn constructor_at(f: &Family, number: u32) -> Option<&Constructor>
    ensures { option_map constructor_shape (option_copied result) ≡ slice_get (shape_of f.now).constructors number }
{
    f.cons.as_slice().get(number as usize)
}

/// Whether the head of a term has exactly `count` arguments.
#[tactic(auto, using(core_terms::proofs::Builders::length_snoc))]
fn has_arguments(t: &Term, count: u128) -> bool
    ensures { result ≡ (length (spine_of (tree_of t.now)) == count) }
{
    match t {
        Term::App(f, _) => count > 0 && has_arguments(f, count - 1),
        _ => count == 0,
    }
}
