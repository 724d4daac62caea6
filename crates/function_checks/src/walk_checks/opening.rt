ghost use Rattle.std.specs.Prelude.{◌≡◌, ◌≤◌, ◌+◌, [], ◌∷◌, length, IfOk, Ok};
ghost use Rattle.core_terms.specs.Answers.{Gives, Unless};
ghost use Rattle.core_terms.specs.Meanings.{tree_of, tele_of};
ghost use Rattle.core_terms.specs.TreeMeanings.{walk_of};
ghost use Rattle.clause_reports.specs.elaboration.Refusals as refusals;
ghost use Rattle.clause_reports.specs.elaboration.Walking as spec;
ghost use Rattle.function_checks.specs.function_walks.WalkingMeanings.{session_of};
ghost use Rattle.function_checks.specs.function_refusals.RefusalMeanings.{Elaborates, IsUnforeseen, Tells, refusal_of};
ghost use Rattle.function_checks.specs.walk_checks.CodeOpening.{goal_asked, level_asked, over_type, type_asked};
ghost use Rattle.function_checks.specs.walk_checks.CheckMeanings.{opening_of, site_of};
ghost use Rattle.kernel_check.specs.Checking.{infer_sort_of};
ghost use Rattle.kernel_reduce.specs.Reduction.{nesting};
ghost use Rattle.kernel_reduce.specs.WellScoped.{AreWellScoped};
ghost use Rattle.tree_translation.specs.structural_rec.Calls.{has_constant};
ghost use Rattle.theory.specs.Telescopes as telescopes;
ghost use Rattle.with_abstraction.specs.Abstractions.{abstract_over_of};
ghost use Rattle.with_abstraction.specs.Laws.{IsScopedAbstraction};
ghost use Rattle.with_abstraction.specs.Meanings.{abstracted_of};

use crate::function_refusals::{FunctionRefusal, level_too_high, or_memory, owner_of};
use crate::function_walks::{GREATEST_LEVEL, Session};
use crate::walk_checks::asking::{inferred, part_at, sort_of};
use crate::walk_checks::parts::{Asked, Opening, Site};
use core_sig::Signature;
use core_terms::{Stop, Term, Walk, copy_tele, copy_whole, products};
use kernel_check::Kernel;
use std::alloc::Global;
use with_abstraction::{Abstracted, abstract_over_with};

/// Whether the constant occurs in a term.
fn mentions(own: u32, t: &Term) -> bool
    ensures { result ≡ has_constant own (tree_of t.now) }
{
    match t {
        Term::Pi(first, second) | Term::Lam(first, second) | Term::App(first, second) => {
            mentions(own, first) || mentions(own, second)
        }
        Term::Let(ty, value, rest) => {
            mentions(own, ty) || (mentions(own, value) || mentions(own, rest))
        }
        Term::Const(c) => *c == own,
        _ => false,
    }
}

/// The refusal where a term mentions the function.
fn self_in_type(alloc: Global, site: Site) -> Result<FunctionRefusal, Stop>
    ensures { Gives refusal_of result (Ok (refusals.SelfInType (site_of site.entry))) }
{
    let owner = owner_of(alloc, site.function.as_slice(), site.number)?;
    Ok(FunctionRefusal::SelfInType(owner))
}

/// Refuses a term that mentions the function.
fn refuse_self(alloc: Global, own: u32, site: Site, t: &Term) -> Result<(), FunctionRefusal>
    ensures { Tells (λ _. tree_of t.now) result (spec.without_self own (site_of site.entry) (tree_of t.now)) }
{
    if mentions(own, t) {
        Err(or_memory(self_in_type(alloc, site)))
    } else {
        Ok(())
    }
}

/// The refusal of a helper whose level is too high.
fn too_high(alloc: Global, sig: &Signature, site: Site, level: u8) -> FunctionRefusal
    ensures { Unless (IsUnforeseen result) (refusal_of result ≡ refusals.level_too_high sig.now (refusals.OfGoal (site_of site.entry)) level spec.greatest_level) }
{
    match part_at(alloc, Asked::Goal, site) {
        Ok(part) => level_too_high(alloc, sig, part, level, GREATEST_LEVEL),
        Err(_) => FunctionRefusal::Stop(Stop::Memory),
    }
}

/// The level of a helper whose product has this sort, where it is not too high.
fn low_level(alloc: Global, sig: &Signature, site: Site, sort: &Term) -> Result<u8, FunctionRefusal>
    ensures { Tells (λ n. n) result (spec.if_low_level sig.now (site_of site.entry) (tree_of sort.now)) }
{
    match sort {
        Term::Sort(level) => {
            if *level > GREATEST_LEVEL {
                return Err(too_high(alloc, sig, site, *level));
            }
            Ok(*level)
        }
        _ => Ok(0),
    }
}

/// A helper by its abstraction, at the level of its product's sort.
fn opening(
    alloc: Global,
    sig: &Signature,
    site: Site,
    abstraction: Abstracted,
    sort: &Term,
) -> Result<Opening, FunctionRefusal>
    ensures answer { Tells opening_of result (spec.and_level (abstracted_of abstraction) (spec.if_low_level sig.now (site_of site.entry) (tree_of sort.now))) }
    ensures same { IfOk result (λ o. abstracted_of o.abstraction ≡ abstracted_of abstraction) }
{
    let level = low_level(alloc, sig, site, sort)?;
    Ok(Opening { abstraction, level })
}

/// The product of a helper.
fn product_of(alloc: Global, a: &Abstracted) -> Result<Term, Stop>
    ensures { Gives tree_of result (Ok (telescopes.products (abstracted_of a.now).telescope (abstracted_of a.now).goal)) }
{
    let tele = copy_tele(alloc, a.tele.as_slice())?;
    let goal = copy_whole(alloc, &a.goal)?;
    products(alloc, tele.into_vec(), goal)
}

/// The sort of a helper's product.
fn product_sort(
    alloc: Global,
    sig: &Signature,
    site: Site,
    a: &Abstracted,
    kernel: &mut Kernel<'_>,
) -> Result<Term, FunctionRefusal>
    requires kernel { kernel.old.signature ≡ sig.now }
    requires given { AreWellScoped sig.now [] (telescopes.products (abstracted_of a.now).telescope (abstracted_of a.now).goal ∷ []) }
    ensures answer { Elaborates tree_of result kernel.new.left (refusals.granted sig.now (refusals.OfGoal (site_of site.entry)) (infer_sort_of sig.now nesting [] (telescopes.products (abstracted_of a.now).telescope (abstracted_of a.now).goal) kernel.old.left)) }
    ensures sum { kernel.new.left + kernel.new.spent ≡ kernel.old.left + kernel.old.spent }
    ensures spends { kernel.new.left ≤ kernel.old.left }
    ensures kernel { kernel.new.signature ≡ sig.now }
{
    let ty = product_of(alloc, a)?;
    sort_of(alloc, sig, Asked::Goal, site, &ty, kernel)
}

/// Opens a helper whose goal does not mention the function.
fn at_level(
    alloc: Global,
    s: Session,
    site: Site,
    a: Abstracted,
    kernel: &mut Kernel<'_>,
) -> Result<Opening, FunctionRefusal>
    requires kernel { kernel.old.signature ≡ s.sig.now }
    requires given { AreWellScoped s.sig.now [] (telescopes.products (abstracted_of a).telescope (abstracted_of a).goal ∷ []) }
    ensures answer { Elaborates opening_of result kernel.new.left (level_asked (session_of s.entry) (site_of site.entry) (abstracted_of a) (abstracted_of a).goal kernel.old.left) }
    ensures sum { kernel.new.left + kernel.new.spent ≡ kernel.old.left + kernel.old.spent }
    ensures spends { kernel.new.left ≤ kernel.old.left }
    ensures kernel { kernel.new.signature ≡ s.entry.sig.now }
    ensures same { IfOk result (λ o. abstracted_of o.abstraction ≡ abstracted_of a) }
{
    let sort = product_sort(alloc, s.sig, site, &a, kernel)?;
    opening(alloc, s.sig, site, a, &sort)
}

/// Opens a helper by its abstraction.
fn at_goal(
    alloc: Global,
    s: Session,
    site: Site,
    a: Abstracted,
    kernel: &mut Kernel<'_>,
) -> Result<Opening, FunctionRefusal>
    requires kernel { kernel.old.signature ≡ s.sig.now }
    requires given { AreWellScoped s.sig.now [] (telescopes.products (abstracted_of a).telescope (abstracted_of a).goal ∷ []) }
    ensures answer { Elaborates opening_of result kernel.new.left (goal_asked (session_of s.entry) (site_of site.entry) (abstracted_of a) kernel.old.left) }
    ensures sum { kernel.new.left + kernel.new.spent ≡ kernel.old.left + kernel.old.spent }
    ensures spends { kernel.new.left ≤ kernel.old.left }
    ensures kernel { kernel.new.signature ≡ s.entry.sig.now }
    ensures same { IfOk result (λ o. abstracted_of o.abstraction ≡ abstracted_of a) }
{
    refuse_self(alloc, s.own, site, &a.goal)?;
    at_level(alloc, s, site, a, kernel)
}

/// The abstraction over a scrutinee of this type.
fn abstracted(
    alloc: Global,
    w: &Walk,
    t: &Term,
    ty: &Term,
    kernel: &mut Kernel<'_>,
) -> Result<Abstracted, FunctionRefusal>
    requires given { AreWellScoped kernel.old.signature (tele_of w.now.ctx) (tree_of w.now.goal ∷ tree_of t.now ∷ tree_of ty.now ∷ []) }
    ensures answer { Elaborates abstracted_of result kernel.new.left (refusals.halting (abstract_over_of kernel.old.signature (tele_of w.now.ctx) (tree_of w.now.goal) (tree_of t.now) (tree_of ty.now) kernel.old.left)) }
    ensures sum { kernel.new.left + kernel.new.spent ≡ kernel.old.left + kernel.old.spent }
    ensures spends { kernel.new.left ≤ kernel.old.left }
    ensures kernel { kernel.new.signature ≡ kernel.old.signature }
    ensures scoped { IfOk result (λ a. IsScopedAbstraction kernel.old.signature (length w.now.ctx) (abstracted_of a)) }
{
    match abstract_over_with(alloc, &w.ctx, &w.goal, t, ty, kernel) {
        Ok(a) => Ok(a),
        Err(e) => Err(FunctionRefusal::Stop(e)),
    }
}

/// Opens a helper over a scrutinee whose type does not mention the function.
fn over_its_type(
    alloc: Global,
    s: Session,
    site: Site,
    w: &Walk,
    t: &Term,
    ty: &Term,
    kernel: &mut Kernel<'_>,
) -> Result<Opening, FunctionRefusal>
    requires kernel { kernel.old.signature ≡ s.sig.now }
    requires given { AreWellScoped s.sig.now (tele_of w.now.ctx) (tree_of w.now.goal ∷ tree_of t.now ∷ tree_of ty.now ∷ []) }
    ensures answer { Elaborates opening_of result kernel.new.left (over_type (session_of s.entry) (site_of site.entry) (walk_of w.now) (tree_of t.now) (tree_of ty.now) kernel.old.left) }
    ensures sum { kernel.new.left + kernel.new.spent ≡ kernel.old.left + kernel.old.spent }
    ensures spends { kernel.new.left ≤ kernel.old.left }
    ensures kernel { kernel.new.signature ≡ s.entry.sig.now }
    ensures scoped { IfOk result (λ o. IsScopedAbstraction s.entry.sig.now (length w.now.ctx) (abstracted_of o.abstraction)) }
{
    match abstracted(alloc, w, t, ty, kernel) {
        Ok(a) => at_goal(alloc, s, site, a, kernel),
        Err(e) => Err(e),
    }
}

/// Opens a helper over a scrutinee that has this type.
fn with_type(
    alloc: Global,
    s: Session,
    site: Site,
    w: &Walk,
    t: &Term,
    ty: &Term,
    kernel: &mut Kernel<'_>,
) -> Result<Opening, FunctionRefusal>
    requires kernel { kernel.old.signature ≡ s.sig.now }
    requires given { AreWellScoped s.sig.now (tele_of w.now.ctx) (tree_of w.now.goal ∷ tree_of t.now ∷ tree_of ty.now ∷ []) }
    ensures answer { Elaborates opening_of result kernel.new.left (type_asked (session_of s.entry) (site_of site.entry) (walk_of w.now) (tree_of t.now) (tree_of ty.now) kernel.old.left) }
    ensures sum { kernel.new.left + kernel.new.spent ≡ kernel.old.left + kernel.old.spent }
    ensures spends { kernel.new.left ≤ kernel.old.left }
    ensures kernel { kernel.new.signature ≡ s.entry.sig.now }
    ensures scoped { IfOk result (λ o. IsScopedAbstraction s.entry.sig.now (length w.now.ctx) (abstracted_of o.abstraction)) }
{
    refuse_self(alloc, s.own, site, ty)?;
    over_its_type(alloc, s, site, w, t, ty, kernel)
}

/// Opens a helper over a scrutinee: the abstraction of the goal and of the types of the context, whose product has a level.
pub fn open_over(
    alloc: Global,
    s: Session,
    site: Site,
    w: &Walk,
    t: &Term,
    kernel: &mut Kernel<'_>,
) -> Result<Opening, FunctionRefusal>
    requires kernel { kernel.old.signature ≡ s.sig.now }
    requires given { AreWellScoped s.sig.now (tele_of w.now.ctx) (tree_of w.now.goal ∷ tree_of t.now ∷ []) }
    ensures answer { Elaborates opening_of result kernel.new.left (spec.open_over (session_of s.entry) (site_of site.entry) (walk_of w.now) (tree_of t.now) kernel.old.left) }
    ensures sum { kernel.new.left + kernel.new.spent ≡ kernel.old.left + kernel.old.spent }
    ensures spends { kernel.new.left ≤ kernel.old.left }
    ensures kernel { kernel.new.signature ≡ s.entry.sig.now }
    ensures scoped { IfOk result (λ o. IsScopedAbstraction s.entry.sig.now (length w.now.ctx) (abstracted_of o.abstraction)) }
{
    let ty = inferred(alloc, s.sig, Asked::With, site, &w.ctx, t, kernel)?;
    with_type(alloc, s, site, w, t, &ty, kernel)
}
