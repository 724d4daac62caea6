//! The public calls: a type of a term, the sort of a type, and a check against a type, with units.
//!
//! A context lists its types from the outermost on. Each unit that a call spends moves from `left` to `spent`, also where the
//! call ends in an error; nothing else that it is lent changes. A call answers Fuel where it needs a unit and none is left, and
//! Deep where it is given or makes a term higher than 2,000, or where more than 2,000 calls would be open at once, whichever
//! comes first. Memory alone may come at any time. A rejected term is no error but a No with its place, its context and its
//! reason.
ghost use Rattle.std.specs.Prelude.{◌≡◌, ◌≤◌, ◌+◌, [], ◌∷◌, length, IfOk};
ghost use Rattle.theory.specs.Telescopes.{context_behind};
ghost use Rattle.theory.specs.Typing.{IsContext, IsType};
ghost use Rattle.theory.specs.WellFormed.{IsTyped};
ghost use Rattle.core_terms.specs.Answers.{Runs};
ghost use Rattle.core_terms.specs.Meanings.{tree_of, tele_of, verdict_of};
ghost use Rattle.kernel_reduce.specs.Reduction.{nesting};
ghost use Rattle.kernel_reduce.specs.WellScoped.{AreWellScoped};
ghost use Rattle.kernel_check.specs.Checking.{infer_of, infer_sort_of, check_of};
ghost use Rattle.kernel_check.specs.Laws.{AreBothLow, HasType, HasUniverse, HasWanted, IfYes, IsScopedVerdict, IsSort};

use crate::Kernel;
use core_sig::Signature;
use core_terms::{Stop, Tele, Term, Units, Verdict};
use std::alloc::Global;

/// A type of the term in the context.
///
/// The term and each part that is asked for a type cost one unit each, beside the units of reductions and comparisons. Deep
/// where the term, the type or a part of the work is too high; a term that is too high needs no unit.
pub fn infer(
    alloc: Global,
    sig: &Signature,
    ctx: &Tele,
    t: &Term,
    units: &mut Units,
) -> Result<Verdict, Stop>
    requires { AreWellScoped sig.now (tele_of ctx.now) (tree_of t.now ∷ []) }
    ensures answer { Runs verdict_of result units.new.left (infer_of sig.now nesting (context_behind [] (tele_of ctx.now)) (tree_of t.now) units.old.left) }
    ensures sum { units.new.left + units.new.spent ≡ units.old.left + units.old.spent }
    ensures spends { units.new.left ≤ units.old.left }
    ensures sound { IsTyped sig.now → IsContext sig.now (context_behind [] (tele_of ctx.now)) → IfOk result (λ v. IfYes (verdict_of v) (HasType sig.now (context_behind [] (tele_of ctx.now)) (tree_of t.now))) }
    ensures scoped { IfOk result (λ v. IsScopedVerdict sig.now (length ctx.now) (verdict_of v)) }
    ensures low { IfOk result (λ v. IfYes (verdict_of v) (AreBothLow (tree_of t.now))) }
{
    let mut kernel = Kernel::new(alloc, sig, *units);
    let verdict = kernel.infer(ctx, t);
    *units = kernel.into_units();
    verdict
}

/// The sort of the type `t` in the context. A Yes holds a sort.
///
/// It costs the units of one call of `infer` and of the head form of the type that this infers. A type that reduces to no
/// sort is a No with the place of `t` itself. Errors are those of `infer` and of `whnf`.
pub fn infer_sort(
    alloc: Global,
    sig: &Signature,
    ctx: &Tele,
    t: &Term,
    units: &mut Units,
) -> Result<Verdict, Stop>
    requires { AreWellScoped sig.now (tele_of ctx.now) (tree_of t.now ∷ []) }
    ensures answer { Runs verdict_of result units.new.left (infer_sort_of sig.now nesting (context_behind [] (tele_of ctx.now)) (tree_of t.now) units.old.left) }
    ensures sum { units.new.left + units.new.spent ≡ units.old.left + units.old.spent }
    ensures spends { units.new.left ≤ units.old.left }
    ensures sound { IsTyped sig.now → IsContext sig.now (context_behind [] (tele_of ctx.now)) → IfOk result (λ v. IfYes (verdict_of v) (HasUniverse sig.now (context_behind [] (tele_of ctx.now)) (tree_of t.now))) }
    ensures sort { IfOk result (λ v. IfYes (verdict_of v) IsSort) }
    ensures scoped { IfOk result (λ v. IsScopedVerdict sig.now (length ctx.now) (verdict_of v)) }
    ensures low { IfOk result (λ v. IfYes (verdict_of v) (AreBothLow (tree_of t.now))) }
{
    let mut kernel = Kernel::new(alloc, sig, *units);
    let verdict = kernel.infer_sort(ctx, t);
    *units = kernel.into_units();
    verdict
}

/// Whether the term has the type `wanted` in the context. A Yes holds the type that was inferred, which is found below `wanted`.
///
/// It costs the units of one call of `infer`, and of one call of `subtype` where a type is inferred. `wanted` itself is not
/// checked; the clause `sound` asks that it is a type. A type that isn't found below is a No with the place of the term
/// itself. Errors are those of `infer` and of `subtype`.
pub fn check(
    alloc: Global,
    sig: &Signature,
    ctx: &Tele,
    t: &Term,
    wanted: &Term,
    units: &mut Units,
) -> Result<Verdict, Stop>
    requires { AreWellScoped sig.now (tele_of ctx.now) (tree_of t.now ∷ tree_of wanted.now ∷ []) }
    ensures answer { Runs verdict_of result units.new.left (check_of sig.now nesting (context_behind [] (tele_of ctx.now)) (tree_of t.now) (tree_of wanted.now) units.old.left) }
    ensures sum { units.new.left + units.new.spent ≡ units.old.left + units.old.spent }
    ensures spends { units.new.left ≤ units.old.left }
    ensures sound { IsTyped sig.now → IsContext sig.now (context_behind [] (tele_of ctx.now)) → IsType sig.now (context_behind [] (tele_of ctx.now)) (tree_of wanted.now) → IfOk result (λ v. IfYes (verdict_of v) (HasWanted sig.now (context_behind [] (tele_of ctx.now)) (tree_of t.now) (tree_of wanted.now))) }
    ensures scoped { IfOk result (λ v. IsScopedVerdict sig.now (length ctx.now) (verdict_of v)) }
    ensures low { IfOk result (λ v. IfYes (verdict_of v) (AreBothLow (tree_of t.now))) }
{
    let mut kernel = Kernel::new(alloc, sig, *units);
    let verdict = kernel.check(ctx, t, wanted);
    *units = kernel.into_units();
    verdict
}
