ghost use Rattle.std.specs.Prelude.{◌≡◌, ◌≤◌, ◌+◌, [], ◌∷◌};
ghost use Rattle.core_terms.specs.Meanings.{tree_of};
ghost use Rattle.clause_reports.specs.elaboration.Refusals as spec;
ghost use Rattle.function_session.specs.function_lines.Phases as phases;
ghost use Rattle.function_checks.specs.function_refusals.RefusalMeanings.{Elaborates};
ghost use Rattle.kernel_check.specs.Checking.{infer_sort_of};
ghost use Rattle.kernel_reduce.specs.Reduction.{nesting};
ghost use Rattle.kernel_reduce.specs.WellScoped.{AreWellScoped};

use core_sig::Signature;
use core_terms::{Items, Term, Units, Verdict};
use function_checks::function_refusals::{FunctionRefusal, WrittenPart, ill_typed};
use function_checks::function_walks::function_level;
use kernel_check::Kernel;
use std::alloc::Global;

/// The sort of a function's type, where the checker grants the type.
fn sort_of(
    alloc: Global,
    sig: &Signature,
    ty: &Term,
    kernel: &mut Kernel<'_>,
) -> Result<Term, FunctionRefusal>
    requires kernel { kernel.old.signature ≡ sig.now }
    requires given { AreWellScoped sig.now [] (tree_of ty.now ∷ []) }
    ensures answer { Elaborates tree_of result kernel.new.left (spec.granted sig.now spec.OfType (infer_sort_of sig.now nesting [] (tree_of ty.now) kernel.old.left)) }
    ensures sum { kernel.new.left + kernel.new.spent ≡ kernel.old.left + kernel.old.spent }
    ensures spends { kernel.new.left ≤ kernel.old.left }
    ensures kernel { kernel.new.signature ≡ sig.now }
{
    let ctx = Items::new(alloc);
    match kernel.infer_sort(&ctx, ty) {
        Ok(Verdict::Yes(sort)) => Ok(sort),
        Ok(Verdict::No(denial)) => Err(ill_typed(alloc, sig, WrittenPart::Type, denial)),
        Err(e) => Err(FunctionRefusal::Stop(e)),
    }
}

/// The same, with units in place of a kernel.
fn sort_with(
    alloc: Global,
    sig: &Signature,
    ty: &Term,
    units: &mut Units,
) -> Result<Term, FunctionRefusal>
    requires { AreWellScoped sig.now [] (tree_of ty.now ∷ []) }
    ensures answer { Elaborates tree_of result units.new.left (spec.granted sig.now spec.OfType (infer_sort_of sig.now nesting [] (tree_of ty.now) units.old.left)) }
    ensures sum { units.new.left + units.new.spent ≡ units.old.left + units.old.spent }
    ensures spends { units.new.left ≤ units.old.left }
{
    let mut kernel = Kernel::new(alloc, sig, *units);
    let sort = sort_of(alloc, sig, ty, &mut kernel);
    *units = kernel.into_units();
    sort
}

/// The level of a function with this type.
pub(crate) fn level_of(
    alloc: Global,
    sig: &Signature,
    ty: &Term,
    units: &mut Units,
) -> Result<u8, FunctionRefusal>
    requires { AreWellScoped sig.now [] (tree_of ty.now ∷ []) }
    ensures answer { Elaborates (λ level. level) result units.new.left (phases.level_of sig.now (tree_of ty.now) units.old.left) }
    ensures sum { units.new.left + units.new.spent ≡ units.old.left + units.old.spent }
    ensures spends { units.new.left ≤ units.old.left }
{
    let sort = sort_with(alloc, sig, ty, units)?;
    function_level(alloc, sig, &sort)
}
