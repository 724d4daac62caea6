ghost use Rattle.std.specs.Prelude.{◌≡◌, ◌≤◌, ◌+◌, Ok, [], ◌∷◌};
ghost use Rattle.theory.specs.Telescopes.{context_behind};
ghost use Rattle.core_terms.specs.Meanings.{tree_of, tele_of, verdict_of};
ghost use Rattle.kernel_reduce.specs.WellScoped.{AreWellScoped};
ghost use Rattle.family_check.specs.Asking as spec;
ghost use Rattle.family_check.specs.Meanings.{Yields, answer_of, site_of};
ghost use Rattle.family_check.specs.Outcomes.{on_part};

use crate::{FamilyStop, Site};
use core_sig::Signature;
use core_terms::{Tele, Term, Units, Verdict};
use kernel_check::{check, infer_sort};
use std::alloc::Global;

/// The type that a verdict on a written part holds.
fn granted(part: Site, verdict: Verdict) -> Result<Term, FamilyStop>
    ensures { answer_of tree_of result ≡ on_part (site_of part) (Ok (verdict_of verdict)) }
{
    match verdict {
        Verdict::Yes(ty) => Ok(ty),
        Verdict::No(denial) => Err(FamilyStop::Denied { part, denial }),
    }
}

/// The sort of a type that is written in a part.
#[tactic(auto, unfolding(crate::specs::Asking::sort_in))]
pub(crate) fn sort_in(
    alloc: Global,
    sig: &Signature,
    ctx: &Tele,
    ty: &Term,
    part: Site,
    units: &mut Units,
) -> Result<Term, FamilyStop>
    requires { AreWellScoped sig.now (tele_of ctx.now) (tree_of ty.now ∷ []) }
    ensures answer { Yields tree_of result units.new.left (spec.sort_in sig.now (site_of part) (context_behind [] (tele_of ctx.now)) (tree_of ty.now) units.old.left) }
    ensures sum { units.new.left + units.new.spent ≡ units.old.left + units.old.spent }
    ensures spends { units.new.left ≤ units.old.left }
{
    let verdict = infer_sort(alloc, sig, ctx, ty, units)?;
    granted(part, verdict)
}

/// The type of a term that is written in a part and is to have the type `wanted`.
#[tactic(auto, unfolding(crate::specs::Asking::type_in))]
pub(crate) fn type_in(
    alloc: Global,
    sig: &Signature,
    ctx: &Tele,
    t: &Term,
    wanted: &Term,
    part: Site,
    units: &mut Units,
) -> Result<Term, FamilyStop>
    requires { AreWellScoped sig.now (tele_of ctx.now) (tree_of t.now ∷ tree_of wanted.now ∷ []) }
    ensures answer { Yields tree_of result units.new.left (spec.type_in sig.now (site_of part) (context_behind [] (tele_of ctx.now)) (tree_of t.now) (tree_of wanted.now) units.old.left) }
    ensures sum { units.new.left + units.new.spent ≡ units.old.left + units.old.spent }
    ensures spends { units.new.left ≤ units.old.left }
{
    let verdict = check(alloc, sig, ctx, t, wanted, units)?;
    granted(part, verdict)
}
