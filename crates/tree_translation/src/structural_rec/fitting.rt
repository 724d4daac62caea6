ghost use Rattle.std.specs.Prelude.{◌≡◌, ◌≤◌, Ok};
ghost use Rattle.std.specs.List.{list_all};
ghost use Rattle.theory.specs.Spines.{spine_of};
ghost use Rattle.core_terms.specs.Answers.{Gives};
ghost use Rattle.core_terms.specs.Bounds.{most_height};
ghost use Rattle.core_terms.specs.Meanings.{tree_of, tele_of};
ghost use Rattle.tele_eq.specs.Items.{AreSmallTerms};
ghost use Rattle.kernel_reduce.specs.Entries.{family_at};
ghost use Rattle.tree_translation.specs.structural_rec.Fitting as spec;
ghost use Rattle.tree_translation.specs.structural_rec.Meanings.{admission_of};

use crate::structural_rec::admission::Admission;
use crate::structural_rec::terms::{lifted, small_term_at, term_at};
use case_below_gen::is_strict_part;
use core_sig::Signature;
use core_terms::{Stop, Term, copy_whole, into_spine};
use kernel_reduce::family;
use std::alloc::Global;

/// A position of `count`, with its admission, for the function with the constant `own`.
#[derive(Clone, Copy)]
pub struct Place<'a> {
    pub sig: &'a Signature,
    pub own: u32,
    pub count: u32,
    pub position: u32,
    pub admission: &'a Admission,
}

/// Whether `part` is a strict part of a term in family `n`.
fn is_part(sig: &Signature, n: u32, part: &Term, t: &Term) -> bool
    ensures { result ≡ spec.part_in n (tree_of part.now) (tree_of t.now) (family_at sig.now n) }
{
    match family(sig, n) {
        Some(_) => is_strict_part(sig, n, part, t),
        None => false,
    }
}

/// Whether the argument at position `i` is a strict part of the clause's own term there.
fn smaller_at(
    alloc: Global,
    p: &Place,
    under: u32,
    args: &[Term],
    terms: &[Term],
) -> Result<bool, Stop>
    requires small { AreSmallTerms (tele_of terms.now) }
    requires under { under ≤ most_height }
    ensures { Gives (λ b. b) result (Ok (spec.pass_at (spec.is_smaller p.now.sig.now p.now.admission.now.number under) (tele_of args.now) (tele_of terms.now) p.now.position)) }
{
    match term_at(args, p.position) {
        Some(arg) => match small_term_at(terms, p.position) {
            Some(own) => {
                let own = lifted(alloc, own, under)?;
                Ok(is_part(p.sig, p.admission.number, arg, &own))
            }
            None => Ok(false),
        },
        None => Ok(false),
    }
}

/// Whether the argument at position `i` is the clause's own term there.
fn same_at(alloc: Global, under: u32, args: &[Term], terms: &[Term], i: u32) -> Result<bool, Stop>
    requires small { AreSmallTerms (tele_of terms.now) }
    requires under { under ≤ most_height }
    ensures { Gives (λ b. b) result (Ok (spec.pass_at (spec.is_same under) (tele_of args.now) (tele_of terms.now) i)) }
{
    match term_at(args, i) {
        Some(arg) => match small_term_at(terms, i) {
            Some(own) => {
                let own = lifted(alloc, own, under)?;
                Ok(arg.same(&own))
            }
            None => Ok(false),
        },
        None => Ok(false),
    }
}

/// Whether the arguments at the positions are the clause's own terms there.
fn same_at_all(
    alloc: Global,
    under: u32,
    args: &[Term],
    terms: &[Term],
    positions: &[u32],
) -> Result<bool, Stop>
    requires small { AreSmallTerms (tele_of terms.now) }
    requires under { under ≤ most_height }
    ensures { Gives (λ b. b) result (Ok (list_all (spec.pass_at (spec.is_same under) (tele_of args.now) (tele_of terms.now)) positions.now)) }
{
    match positions {
        [] => Ok(true),
        [i, rest @ ..] => {
            if same_at(alloc, under, args, terms, *i)? {
                same_at_all(alloc, under, args, terms, rest)
            } else {
                Ok(false)
            }
        }
    }
}

/// Whether the arguments of a call under so many binders fit the position.
fn arguments_fit(
    alloc: Global,
    p: &Place,
    terms: &[Term],
    under: u32,
    args: &[Term],
) -> Result<bool, Stop>
    requires small { AreSmallTerms (tele_of terms.now) }
    requires under { under ≤ most_height }
    ensures { Gives (λ b. b) result (Ok (spec.arguments_fit p.now.sig.now p.now.count p.now.position (admission_of p.now.admission.now) (tele_of terms.now) under (tele_of args.now))) }
{
    if args.len() < p.count as usize {
        return Ok(false);
    }
    if smaller_at(alloc, p, under, args, terms)? {
        same_at_all(alloc, under, args, terms, p.admission.fixed.as_slice())
    } else {
        Ok(false)
    }
}

/// Whether a call under so many binders fits the position.
pub fn fits(alloc: Global, p: &Place, terms: &[Term], under: u32, call: &Term) -> Result<bool, Stop>
    requires small { AreSmallTerms (tele_of terms.now) }
    requires under { under ≤ most_height }
    ensures { Gives (λ b. b) result (Ok (spec.arguments_fit p.now.sig.now p.now.count p.now.position (admission_of p.now.admission.now) (tele_of terms.now) under (spine_of (tree_of call.now)))) }
{
    let args = into_spine(alloc, copy_whole(alloc, call)?)?;
    arguments_fit(alloc, p, terms, under, args.as_slice())
}
