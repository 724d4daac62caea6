//! Recursion on a pair of positions.
ghost use Rattle.std.specs.Prelude.{◌≡◌, IfOk, IfSome, Ok, option_map};
ghost use Rattle.core_terms.specs.Answers.{Gives};
ghost use Rattle.core_terms.specs.Meanings.{tele_of};
ghost use Rattle.tele_eq.specs.Items.{AreSmallTerms};
ghost use Rattle.tree_translation.specs.structural_rec.Meanings.{admission_of};
ghost use Rattle.leaf_terms.specs.PlanMeanings.{plan_of};
ghost use Rattle.lex_recursion.specs.PairEntries as pure;
ghost use Rattle.lex_recursion.specs.Pairs as pairs;
ghost use Rattle.pair_entries.specs.CodePairEntries as spec;
ghost use Rattle.pair_entries.specs.PairMeanings.{HaveBothFamilies, pair_of};

use core_sig::Signature;
use core_terms::{Stop, Term};
use leaf_terms::{Plan, Recursion, own_tele, with_family};
use lex_recursion::following::following;
use run_terms::small_terms;
use std::alloc::Global;
use tree_translation::structural_rec::{Admission, find_admission, recursive_positions};

/// Recursion at the first position of a pair, and at the second one, where all that the first goes over is fixed.
#[derive(Drop)]
pub struct PairRecursion<'a> {
    pub outer: Recursion<'a>,
    pub inner: Recursion<'a>,
}

/// Recursion on a pair with these admissions, where their families are known.
fn with_families<'a>(
    sig: &'a Signature,
    j: u32,
    a: Admission,
    k: u32,
    b: Admission,
) -> Option<PairRecursion<'a>>
    ensures { option_map pair_of result ≡ pure.pair_recursion_of sig.now (pairs.pair_with j (admission_of a) k (admission_of b)) }
{
    match with_family(sig, j, a) {
        None => None,
        Some(outer) => match with_family(sig, k, b) {
            None => None,
            Some(inner) => Some(PairRecursion { outer, inner }),
        },
    }
}

/// Recursion on the pair of `j` and `k`, where `j` admits recursion.
fn pair_behind<'a>(
    alloc: Global,
    sig: &'a Signature,
    tele: &[Term],
    j: u32,
    a: Admission,
    k: u32,
) -> Result<Option<PairRecursion<'a>>, Stop>
    requires { AreSmallTerms (tele_of tele.now) }
    ensures { Gives (option_map pair_of) result (Ok (spec.pair_behind sig.now (tele_of tele.now) j k (admission_of a))) }
{
    let gone_over = recursive_positions(alloc, j, &a)?;
    match following(alloc, sig, tele, gone_over.as_slice(), k)? {
        None => Ok(None),
        Some(b) => Ok(with_families(sig, j, a, k, b)),
    }
}

/// Recursion on the pair of `j` and `k`, if they are one, in a telescope whose types are small.
fn pair_in<'a>(
    alloc: Global,
    sig: &'a Signature,
    tele: &[Term],
    j: u32,
    k: u32,
) -> Result<Option<PairRecursion<'a>>, Stop>
    requires { AreSmallTerms (tele_of tele.now) }
    ensures { Gives (option_map pair_of) result (Ok (pure.pair_recursion_at sig.now (tele_of tele.now) j k)) }
{
    match find_admission(alloc, sig, tele, j)? {
        None => Ok(None),
        Some(a) => pair_behind(alloc, sig, tele, j, a, k),
    }
}

/// Recursion on the pair of `j` and `k`, if they are one, or Deep where a type of the telescope is too high.
fn pair_at<'a>(
    alloc: Global,
    sig: &'a Signature,
    tele: &[Term],
    j: u32,
    k: u32,
) -> Result<Option<PairRecursion<'a>>, Stop>
    ensures { Gives (option_map pair_of) result (spec.pair_at_made sig.now (tele_of tele.now) j k) }
{
    small_terms(tele)?;
    pair_in(alloc, sig, tele, j, k)
}

/// Recursion at the position of a plan and a second one, or none where the plan has no position.
pub fn pair_recursion<'a>(
    alloc: Global,
    sig: &'a Signature,
    plan: &Plan,
    second: u32,
) -> Result<Option<PairRecursion<'a>>, Stop>
    ensures { Gives (option_map pair_of) result (spec.pair_recursion_made sig.now (plan_of plan.now) second) }
{
    match plan.position {
        Some(j) => pair_at(alloc, sig, own_tele(plan), j, second),
        None => Ok(None),
    }
}
