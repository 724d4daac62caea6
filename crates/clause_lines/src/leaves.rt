//! Whether the equation of a clause converts at the leaves of the clause in the tree.
ghost use Rattle.std.specs.Prelude.{◌≡◌, ◌≤◌, ◌+◌, Ok, option_map};
ghost use Rattle.std.specs.Option.{option_copied};
ghost use Rattle.clause_equations.specs.EquationMeanings.{equation_of, site_of};
ghost use Rattle.clause_lines.specs.CodeReports as spec;
ghost use Rattle.clause_lines.specs.LineMeanings.{clause_of};
ghost use Rattle.core_terms.specs.Answers.{Gives};
ghost use Rattle.drafts.specs.draft_entering.Stops.{Reports};
ghost use Rattle.leaf_terms.specs.RecursionMeanings.{recursion_of as recursion_meant};
ghost use Rattle.clause_equations.specs.shadow_vectors.LeafMeanings.{all_leaves_of, leaf_of};
ghost use Rattle.theory.specs.SignatureScopes.{IsScopedSignature};

use crate::clause::PlannedClause;
use crate::sides::equation_converts;
use clause_equations::shadow_vectors::TreeLeaf;
use clause_equations::{Equation, Site, equation_at, pats_at, side_or};
use core_sig::Signature;
use core_terms::{Items, Stop, Term, number_of};
use drafts::draft_entering::ReportStop;
use kernel_check::Kernel;
use leaf_terms::{Recursion, in_old_order, mapping, order_of, own_tele, recursion_of};
use std::alloc::Global;

/// The order of the variables from which the tree of the clause's part starts.
fn first_order(alloc: Global, c: PlannedClause, r: Option<&Recursion>) -> Result<Items<u32>, Stop>
    ensures { Gives (λ v. v) result (Ok (spec.first_order (clause_of c.entry) (option_map recursion_meant (option_copied r.entry)))) }
{
    if c.number == 0 {
        let count = number_of(own_tele(c.plan).len())?;
        order_of(alloc, count, r)
    } else {
        let count = number_of(c.part.tele.as_slice().len())?;
        order_of(alloc, count, None)
    }
}

/// The equation of a clause at a place of its part.
fn equation_in(
    alloc: Global,
    sig: &Signature,
    c: PlannedClause,
    r: Option<&Recursion>,
    site: &Site,
) -> Result<Equation, Stop>
    ensures { Gives equation_of result (spec.equation_in sig.now (clause_of c.entry) (option_map recursion_meant (option_copied r.entry)) (site_of site.now)) }
{
    let none = Term::Sort(0);
    let side = side_or(c.part.sides.as_slice(), c.clause, &none);
    let pats = pats_at(c.part.pats.as_slice(), c.clause);
    equation_at(alloc, sig, c.plan, r, c.number, pats, side, site)
}

/// The equation of a clause at a leaf, or Deep.
fn equation_there(
    alloc: Global,
    sig: &Signature,
    c: PlannedClause,
    r: Option<&Recursion>,
    order: &[u32],
    leaf: TreeLeaf,
) -> Result<Equation, Stop>
    ensures { Gives equation_of result (spec.equation_there sig.now (clause_of c.entry) (option_map recursion_meant (option_copied r.entry)) order.now (leaf_of leaf.entry)) }
{
    let values = in_old_order(alloc, order, leaf.subst)?;
    let walked = mapping(alloc, c.walk, values.as_slice(), leaf.terms)?;
    let site = Site {
        ctx: leaf.ctx,
        goal: leaf.goal,
        subst: values.as_slice(),
        terms: leaf.terms,
        binds: leaf.binds,
        walked: walked.as_slice(),
    };
    equation_in(alloc, sig, c, r, &site)
}

/// Whether the equation of a clause converts at a leaf.
fn converts_there(
    alloc: Global,
    sig: &Signature,
    c: PlannedClause,
    r: Option<&Recursion>,
    order: &[u32],
    leaf: TreeLeaf,
    kernel: &mut Kernel<'_>,
) -> Result<bool, ReportStop>
    requires kernel { kernel.old.signature ≡ sig.now }
    requires given { IsScopedSignature sig.now }
    ensures answer { Reports (λ holds. holds) result kernel.new.left (spec.converts_there sig.now (clause_of c.entry) (option_map recursion_meant (option_copied r.entry)) order.now (leaf_of leaf.entry) kernel.old.left) }
    ensures sum { kernel.new.left + kernel.new.spent ≡ kernel.old.left + kernel.old.spent }
    ensures spends { kernel.new.left ≤ kernel.old.left }
    ensures kernel { kernel.new.signature ≡ sig.now }
{
    let e = equation_there(alloc, sig, c, r, order, leaf)?;
    equation_converts(sig, &e, kernel)
}

/// Whether the equation of a clause converts at all of these leaves.
fn converts_at_all(
    alloc: Global,
    sig: &Signature,
    c: PlannedClause,
    r: Option<&Recursion>,
    order: &[u32],
    leaves: &[TreeLeaf],
    kernel: &mut Kernel<'_>,
) -> Result<bool, ReportStop>
    requires kernel { kernel.old.signature ≡ sig.now }
    requires given { IsScopedSignature sig.now }
    ensures answer { Reports (λ holds. holds) result kernel.new.left (spec.converts_at_all sig.now (clause_of c.entry) (option_map recursion_meant (option_copied r.entry)) order.now (all_leaves_of leaves.now) kernel.old.left) }
    ensures sum { kernel.new.left + kernel.new.spent ≡ kernel.old.left + kernel.old.spent }
    ensures spends { kernel.new.left ≤ kernel.old.left }
    ensures kernel { kernel.new.signature ≡ sig.now }
{
    match leaves {
        [] => Ok(true),
        [leaf, rest @ ..] => {
            if !converts_there(alloc, sig, c, r, order, *leaf, kernel)? {
                return Ok(false);
            }
            converts_at_all(alloc, sig, c, r, order, rest, kernel)
        }
    }
}

/// Whether the equation of the clause converts at each of these leaves, with the function's recursion, if there is one.
fn converts_with(
    alloc: Global,
    sig: &Signature,
    c: PlannedClause,
    r: Option<&Recursion>,
    leaves: &[TreeLeaf],
    kernel: &mut Kernel<'_>,
) -> Result<bool, ReportStop>
    requires kernel { kernel.old.signature ≡ sig.now }
    requires given { IsScopedSignature sig.now }
    ensures answer { Reports (λ holds. holds) result kernel.new.left (spec.converts_with sig.now (clause_of c.entry) (all_leaves_of leaves.now) (option_map recursion_meant (option_copied r.entry)) kernel.old.left) }
    ensures sum { kernel.new.left + kernel.new.spent ≡ kernel.old.left + kernel.old.spent }
    ensures spends { kernel.new.left ≤ kernel.old.left }
    ensures kernel { kernel.new.signature ≡ sig.now }
{
    let order = first_order(alloc, c, r)?;
    converts_at_all(alloc, sig, c, r, order.as_slice(), leaves, kernel)
}

/// Whether the equation of a clause converts at all of these leaves of its part's tree, or Deep where recursion is looked for in a
/// telescope that is too high.
pub(crate) fn converts_at_leaves(
    alloc: Global,
    sig: &Signature,
    c: PlannedClause,
    leaves: &[TreeLeaf],
    kernel: &mut Kernel<'_>,
) -> Result<bool, ReportStop>
    requires kernel { kernel.old.signature ≡ sig.now }
    requires given { IsScopedSignature sig.now }
    ensures answer { Reports (λ holds. holds) result kernel.new.left (spec.converts_at_leaves sig.now (clause_of c.entry) (all_leaves_of leaves.now) kernel.old.left) }
    ensures sum { kernel.new.left + kernel.new.spent ≡ kernel.old.left + kernel.old.spent }
    ensures spends { kernel.new.left ≤ kernel.old.left }
    ensures kernel { kernel.new.signature ≡ sig.now }
{
    match recursion_of(alloc, sig, c.plan)? {
        Some(r) => converts_with(alloc, sig, c, Some(&r), leaves, kernel),
        None => converts_with(alloc, sig, c, None, leaves, kernel),
    }
}
