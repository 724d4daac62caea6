//! Whether the parameters of families that refer to each other have sorts.
ghost use Rattle.std.specs.Prelude.{◌≡◌, ◌≤◌, ◌+◌, ◌++◌, [], ◌∷◌, Ok};
ghost use Rattle.theory.specs.SignatureScopes.{IsScopedSignature, IsScopedTelescope};
ghost use Rattle.theory.specs.Telescopes.{context_behind};
ghost use Rattle.core_terms.specs.Meanings.{tele_of, tree_of};
ghost use Rattle.core_terms.specs.Answers.{GivesUnless};
ghost use Rattle.elab_session.specs.Entering.{Declares};
ghost use Rattle.elab_session.specs.Refusals.{IsUnforeseen};
ghost use Rattle.family_check.specs.Asking as asking;
ghost use Rattle.family_check.specs.Meanings.{Yields};
ghost use Rattle.family_check.specs.Outcomes.{OfParameter};
ghost use Rattle.function_session.specs.mutual_families.Entering as spec;
ghost use Rattle.kernel_reduce.specs.WellScoped.{AreWellScoped};

use core_sig::Signature;
use core_terms::{Items, Tele, Term, Units, Verdict, copy_whole, number_of};
use elab_session::{Refusal, entry_refusal};
use family_check::{FamilyStop, Site};
use kernel_check::infer_sort;
use std::alloc::Global;
use surface_syntax::Word;

/// Fewer parameters than this are the types of a context in which the checker works.
const CONTEXT_LIMIT: usize = 2147483648;

/// The sort of parameter number `k`, counted from 1.
#[tactic(auto, unfolding(family_check::specs::Asking::sort_in))]
fn sort_of(
    alloc: Global,
    sig: &Signature,
    k: u32,
    before: &Tele,
    ty: &Term,
    units: &mut Units,
) -> Result<Term, FamilyStop>
    requires { AreWellScoped sig.now (tele_of before.now) (tree_of ty.now ∷ []) }
    ensures answer { Yields tree_of result units.new.left (asking.sort_in sig.now (OfParameter k) (context_behind [] (tele_of before.now)) (tree_of ty.now) units.old.left) }
    ensures sum { units.new.left + units.new.spent ≡ units.old.left + units.old.spent }
    ensures spends { units.new.left ≤ units.old.left }
{
    match infer_sort(alloc, sig, before, ty, units) {
        Ok(Verdict::Yes(sort)) => Ok(sort),
        Ok(Verdict::No(denial)) => Err(FamilyStop::Denied {
            part: Site::Param(k),
            denial,
        }),
        Err(stop) => Err(FamilyStop::Stop(stop)),
    }
}

/// Checks the parameter behind those before it, where `x` is the first member's name.
fn check_parameter(
    alloc: Global,
    sig: &Signature,
    fuel: u64,
    x: &Word,
    before: &Tele,
    ty: &Term,
    units: &mut Units,
) -> Result<Term, Refusal>
    requires { AreWellScoped sig.now (tele_of before.now) (tree_of ty.now ∷ []) }
    ensures answer { Declares tree_of result units.new.left (spec.parameter_checked sig.now fuel x.now (tele_of before.now) (tree_of ty.now) units.old.left) }
    ensures sum { units.new.left + units.new.spent ≡ units.old.left + units.old.spent }
    ensures spends { units.new.left ≤ units.old.left }
{
    let Ok(k) = number_of(before.as_slice().len() + 1) else {
        return Err(Refusal::Memory);
    };
    match sort_of(alloc, sig, k, before, ty, units) {
        Ok(sort) => Ok(sort),
        Err(stop) => Err(entry_refusal(alloc, sig, &[], Some(x), fuel, stop)),
    }
}

/// Parameters behind one more.
fn with_parameter(alloc: Global, mut before: Tele, ty: &Term) -> Result<Tele, Refusal>
    ensures { GivesUnless IsUnforeseen tele_of result (Ok (tele_of before ++ tree_of ty.now ∷ [])) }
{
    let Ok(copy) = copy_whole(alloc, ty) else {
        return Err(Refusal::Memory);
    };
    if before.push(copy).is_err() {
        return Err(Refusal::Memory);
    }
    Ok(before)
}

/// Checks parameters, where others come before them.
fn check_parameters(
    alloc: Global,
    sig: &Signature,
    fuel: u64,
    x: &Word,
    before: Tele,
    params: &[Term],
    units: &mut Units,
) -> Result<(), Refusal>
    requires { AreWellScoped sig.now (tele_of before ++ tele_of params.now) [] }
    ensures answer { Declares (λ u. u) result units.new.left (spec.parameters_checked sig.now fuel x.now (tele_of before) (tele_of params.now) units.old.left) }
    ensures sum { units.new.left + units.new.spent ≡ units.old.left + units.old.spent }
    ensures spends { units.new.left ≤ units.old.left }
{
    match params {
        [] => Ok(()),
        [ty, rest @ ..] => {
            check_parameter(alloc, sig, fuel, x, &before, ty, units)?;
            let before = with_parameter(alloc, before, ty)?;
            check_parameters(alloc, sig, fuel, x, before, rest, units)
        }
    }
}

/// Checks the parameters of a declaration.
pub(crate) fn check_all(
    alloc: Global,
    sig: &Signature,
    fuel: u64,
    x: &Word,
    params: &[Term],
    units: &mut Units,
) -> Result<(), Refusal>
    requires signature { IsScopedSignature sig.now }
    requires params { IsScopedTelescope sig.now 0 (tele_of params.now) }
    ensures answer { Declares (λ u. u) result units.new.left (spec.parameters_checked sig.now fuel x.now [] (tele_of params.now) units.old.left) }
    ensures sum { units.new.left + units.new.spent ≡ units.old.left + units.old.spent }
    ensures spends { units.new.left ≤ units.old.left }
{
    if params.len() >= CONTEXT_LIMIT {
        return Err(Refusal::Memory);
    }
    let none = Items::new(alloc);
    check_parameters(alloc, sig, fuel, x, none, params, units)
}
