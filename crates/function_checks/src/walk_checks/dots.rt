ghost use Rattle.std.specs.Prelude.{◌≡◌, ◌≤◌, ◌+◌, [], ◌∷◌, length, map, All, Ok};
ghost use Rattle.core_terms.specs.Answers.{Gives};
ghost use Rattle.core_terms.specs.Meanings.{tree_of, tele_of};
ghost use Rattle.clause_reports.specs.elaboration.Walking as spec;
ghost use Rattle.function_checks.specs.function_refusals.RefusalMeanings.{Elaborates, Tells, refusal_of};
ghost use Rattle.function_checks.specs.walk_checks.CodeDots.{dot_forced, dot_written, dots_checked};
ghost use Rattle.function_checks.specs.walk_checks.CheckMeanings.{site_of};
ghost use Rattle.kernel_reduce.specs.WellScoped.{AreWellScoped};
ghost use Rattle.clause_reports.specs.elaboration.Refusals as refusals;
ghost use Rattle.core_text.specs.TermText.{term_text};
ghost use Rattle.core_text.specs.ContextText.{context_text};

use crate::function_refusals::{FunctionRefusal, or_memory, owner_of};
use crate::walk_checks::asking::{checked_as, inferred};
use crate::walk_checks::parts::{Asked, Site};
use core_sig::Signature;
use core_terms::{Stop, Tele, Term};
use core_text::{context_text, print_term};
use kernel_check::Kernel;
use std::alloc::Global;

/// The refusal of a written term that is not the forced one, with its evidence.
fn shown(
    alloc: Global,
    sig: &Signature,
    site: Site,
    ctx: &[Term],
    written: &Term,
    forced: &Term,
) -> Result<FunctionRefusal, Stop>
    ensures { Gives refusal_of result (Ok (refusals.DotMismatch (site_of site.entry) (context_text sig.now (tele_of ctx.now)) (term_text sig.now (tree_of written.now)) (term_text sig.now (tree_of forced.now)))) }
{
    Ok(FunctionRefusal::DotMismatch {
        owner: owner_of(alloc, site.function.as_slice(), site.number)?,
        ctx: context_text(alloc, sig, ctx)?,
        written: print_term(alloc, sig, written)?,
        forced: print_term(alloc, sig, forced)?,
    })
}

/// Refuses a written term that does not convert with the forced one.
fn refuse_unless(
    alloc: Global,
    sig: &Signature,
    site: Site,
    ctx: &[Term],
    written: &Term,
    forced: &Term,
    holds: bool,
) -> Result<(), FunctionRefusal>
    ensures { Tells (λ _. tree_of written.now) result (spec.if_forced sig.now (site_of site.entry) (tele_of ctx.now) (tree_of written.now) (tree_of forced.now) holds) }
{
    if holds {
        Ok(())
    } else {
        Err(or_memory(shown(alloc, sig, site, ctx, written, forced)))
    }
}

/// Whether the written and the forced term convert.
fn check_forced(
    alloc: Global,
    sig: &Signature,
    site: Site,
    ctx: &Tele,
    written: &Term,
    forced: &Term,
    kernel: &mut Kernel<'_>,
) -> Result<(), FunctionRefusal>
    requires kernel { kernel.old.signature ≡ sig.now }
    requires given { AreWellScoped sig.now (tele_of ctx.now) (tree_of written.now ∷ tree_of forced.now ∷ []) }
    ensures answer { Elaborates (λ _. tree_of written.now) result kernel.new.left (dot_forced sig.now (site_of site.entry) (tele_of ctx.now) (tree_of written.now, tree_of forced.now) kernel.old.left) }
    ensures sum { kernel.new.left + kernel.new.spent ≡ kernel.old.left + kernel.old.spent }
    ensures spends { kernel.new.left ≤ kernel.old.left }
    ensures kernel { kernel.new.signature ≡ sig.now }
{
    let holds = kernel.convertible(written, forced)?;
    refuse_unless(alloc, sig, site, ctx.as_slice(), written, forced, holds)
}

/// Whether the written term has the type of the forced one, and the two convert.
fn check_written(
    alloc: Global,
    sig: &Signature,
    site: Site,
    ctx: &Tele,
    written: &Term,
    forced: &Term,
    ty: &Term,
    kernel: &mut Kernel<'_>,
) -> Result<(), FunctionRefusal>
    requires kernel { kernel.old.signature ≡ sig.now }
    requires given { AreWellScoped sig.now (tele_of ctx.now) (tree_of ty.now ∷ tree_of written.now ∷ tree_of forced.now ∷ []) }
    ensures answer { Elaborates (λ _. tree_of written.now) result kernel.new.left (dot_written sig.now (site_of site.entry) (tele_of ctx.now) (tree_of written.now, tree_of forced.now) (tree_of ty.now) kernel.old.left) }
    ensures sum { kernel.new.left + kernel.new.spent ≡ kernel.old.left + kernel.old.spent }
    ensures spends { kernel.new.left ≤ kernel.old.left }
    ensures kernel { kernel.new.signature ≡ sig.now }
{
    checked_as(alloc, sig, Asked::Dot, site, ctx, written, ty, kernel)?;
    check_forced(alloc, sig, site, ctx, written, forced, kernel)
}

/// The forced term has a type, which the written one has too, and the two convert.
fn check_dot(
    alloc: Global,
    sig: &Signature,
    site: Site,
    ctx: &Tele,
    written: &Term,
    forced: &Term,
    kernel: &mut Kernel<'_>,
) -> Result<(), FunctionRefusal>
    requires kernel { kernel.old.signature ≡ sig.now }
    requires given { AreWellScoped sig.now (tele_of ctx.now) (tree_of written.now ∷ tree_of forced.now ∷ []) }
    ensures answer { Elaborates (λ _. tree_of written.now) result kernel.new.left (spec.check_dot sig.now (site_of site.entry) (tele_of ctx.now) (tree_of written.now, tree_of forced.now) kernel.old.left) }
    ensures sum { kernel.new.left + kernel.new.spent ≡ kernel.old.left + kernel.old.spent }
    ensures spends { kernel.new.left ≤ kernel.old.left }
    ensures kernel { kernel.new.signature ≡ sig.now }
{
    let ty = inferred(alloc, sig, Asked::Dot, site, ctx, forced, kernel)?;
    check_written(alloc, sig, site, ctx, written, forced, &ty, kernel)
}

/// Checks each dot of a walk: the forced term has a type, which the written one has too, and the two convert.
pub fn check_dots(
    alloc: Global,
    sig: &Signature,
    site: Site,
    ctx: &Tele,
    dots: &[(Term, Term)],
    kernel: &mut Kernel<'_>,
) -> Result<(), FunctionRefusal>
    requires kernel { kernel.old.signature ≡ sig.now }
    requires context { AreWellScoped sig.now (tele_of ctx.now) [] }
    requires dots { All (λ d. AreWellScoped sig.now (tele_of ctx.now) (tree_of d.0 ∷ tree_of d.1 ∷ [])) dots.now }
    ensures answer { Elaborates (λ u. u) result kernel.new.left (dots_checked sig.now (site_of site.entry) (tele_of ctx.now) (map (λ d. (tree_of d.0, tree_of d.1)) dots.now) kernel.old.left) }
    ensures sum { kernel.new.left + kernel.new.spent ≡ kernel.old.left + kernel.old.spent }
    ensures spends { kernel.new.left ≤ kernel.old.left }
    ensures kernel { kernel.new.signature ≡ sig.now }
{
    match dots {
        [] => Ok(()),
        [d, rest @ ..] => {
            check_dot(alloc, sig, site, ctx, &d.0, &d.1, kernel)?;
            check_dots(alloc, sig, site, ctx, rest, kernel)
        }
    }
}
