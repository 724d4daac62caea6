ghost use Rattle.std.specs.Prelude.{◌≡◌, ◌≤◌, ◌+◌, [], ◌∷◌, length, reverse, IfOk, Ok};
ghost use Rattle.core_terms.specs.Answers.{Gives, Unless};
ghost use Rattle.core_terms.specs.Meanings.{denial_of, tree_of, tele_of};
ghost use Rattle.clause_reports.specs.elaboration.Refusals as spec;
ghost use Rattle.function_checks.specs.function_refusals.RefusalMeanings.{Elaborates, IsUnforeseen, part_of, refusal_of};
ghost use Rattle.function_checks.specs.walk_checks.CheckMeanings.{asked_of, site_of};
ghost use Rattle.kernel_check.specs.Checking.{check_of, infer_of, infer_sort_of};
ghost use Rattle.kernel_reduce.specs.Comparison.{convertible_of};
ghost use Rattle.kernel_reduce.specs.Reduction.{nesting};
ghost use Rattle.kernel_reduce.specs.WellScoped.{AreWellScoped};
ghost use Rattle.theory.specs.SignatureScopes.{IsScoped};

use crate::function_refusals::{FunctionRefusal, WrittenPart, ill_typed, owner_of};
use crate::walk_checks::parts::{Asked, Site};
use core_sig::Signature;
use core_terms::{Denial, Items, Stop, Tele, Term, Verdict};
use kernel_check::Kernel;
use std::alloc::Global;

/// The part of a clause that the checker is asked about.
pub(crate) fn part_at(alloc: Global, asked: Asked, site: Site) -> Result<WrittenPart, Stop>
    ensures { Gives part_of result (Ok (asked_of asked (site_of site.entry))) }
{
    let owner = owner_of(alloc, site.function.as_slice(), site.number)?;
    Ok(match asked {
        Asked::Dot => WrittenPart::Dot(owner),
        Asked::Side => WrittenPart::Side(owner),
        Asked::With => WrittenPart::With(owner),
        Asked::Goal => WrittenPart::Goal(owner),
    })
}

/// The refusal of a part of a clause that the checker rejects.
pub(crate) fn denied(
    alloc: Global,
    sig: &Signature,
    asked: Asked,
    site: Site,
    denial: Denial,
) -> FunctionRefusal
    ensures { Unless (IsUnforeseen result) (refusal_of result ≡ spec.ill_typed sig.now (asked_of asked (site_of site.entry)) (denial_of denial)) }
{
    match part_at(alloc, asked, site) {
        Ok(part) => ill_typed(alloc, sig, part, denial),
        Err(_) => FunctionRefusal::Stop(Stop::Memory),
    }
}

/// A type of a term, where the checker grants the term.
pub fn inferred(
    alloc: Global,
    sig: &Signature,
    asked: Asked,
    site: Site,
    ctx: &Tele,
    t: &Term,
    kernel: &mut Kernel<'_>,
) -> Result<Term, FunctionRefusal>
    requires kernel { kernel.old.signature ≡ sig.now }
    requires given { AreWellScoped sig.now (tele_of ctx.now) (tree_of t.now ∷ []) }
    ensures answer { Elaborates tree_of result kernel.new.left (spec.granted sig.now (asked_of asked (site_of site.entry)) (infer_of sig.now nesting (reverse (tele_of ctx.now)) (tree_of t.now) kernel.old.left)) }
    ensures sum { kernel.new.left + kernel.new.spent ≡ kernel.old.left + kernel.old.spent }
    ensures spends { kernel.new.left ≤ kernel.old.left }
    ensures kernel { kernel.new.signature ≡ sig.now }
    ensures scoped { IfOk result (λ ty. IsScoped sig.now (length ctx.now) (tree_of ty)) }
{
    match kernel.infer(ctx, t) {
        Ok(Verdict::Yes(ty)) => Ok(ty),
        Ok(Verdict::No(denial)) => Err(denied(alloc, sig, asked, site, denial)),
        Err(e) => Err(FunctionRefusal::Stop(e)),
    }
}

/// Whether the checker grants that a term has a type.
pub fn checked_as(
    alloc: Global,
    sig: &Signature,
    asked: Asked,
    site: Site,
    ctx: &Tele,
    t: &Term,
    wanted: &Term,
    kernel: &mut Kernel<'_>,
) -> Result<Term, FunctionRefusal>
    requires kernel { kernel.old.signature ≡ sig.now }
    requires given { AreWellScoped sig.now (tele_of ctx.now) (tree_of t.now ∷ tree_of wanted.now ∷ []) }
    ensures answer { Elaborates tree_of result kernel.new.left (spec.granted sig.now (asked_of asked (site_of site.entry)) (check_of sig.now nesting (reverse (tele_of ctx.now)) (tree_of t.now) (tree_of wanted.now) kernel.old.left)) }
    ensures sum { kernel.new.left + kernel.new.spent ≡ kernel.old.left + kernel.old.spent }
    ensures spends { kernel.new.left ≤ kernel.old.left }
    ensures kernel { kernel.new.signature ≡ sig.now }
{
    match kernel.check(ctx, t, wanted) {
        Ok(Verdict::Yes(ty)) => Ok(ty),
        Ok(Verdict::No(denial)) => Err(denied(alloc, sig, asked, site, denial)),
        Err(e) => Err(FunctionRefusal::Stop(e)),
    }
}

/// The sort of a closed type, where the checker grants the type.
pub(crate) fn sort_of(
    alloc: Global,
    sig: &Signature,
    asked: Asked,
    site: Site,
    ty: &Term,
    kernel: &mut Kernel<'_>,
) -> Result<Term, FunctionRefusal>
    requires kernel { kernel.old.signature ≡ sig.now }
    requires given { AreWellScoped sig.now [] (tree_of ty.now ∷ []) }
    ensures answer { Elaborates tree_of result kernel.new.left (spec.granted sig.now (asked_of asked (site_of site.entry)) (infer_sort_of sig.now nesting [] (tree_of ty.now) kernel.old.left)) }
    ensures sum { kernel.new.left + kernel.new.spent ≡ kernel.old.left + kernel.old.spent }
    ensures spends { kernel.new.left ≤ kernel.old.left }
    ensures kernel { kernel.new.signature ≡ sig.now }
{
    let ctx = Items::new(alloc);
    match kernel.infer_sort(&ctx, ty) {
        Ok(Verdict::Yes(sort)) => Ok(sort),
        Ok(Verdict::No(denial)) => Err(denied(alloc, sig, asked, site, denial)),
        Err(e) => Err(FunctionRefusal::Stop(e)),
    }
}
