ghost use Rattle.std.specs.Prelude.{◌≡◌, ◌≤◌, false, [], Ok, Some};
ghost use Rattle.core_terms.specs.Answers.{Gives};
ghost use Rattle.core_terms.specs.Meanings.{tree_of};
ghost use Rattle.core_sig.specs.Meanings.{family_of};
ghost use Rattle.theory.specs.Terms as tree;
ghost use Rattle.core_terms.specs.Bounds.{most_height};
ghost use Rattle.tree_translation.specs.CycleTerms as spec;
ghost use Rattle.tree_translation.specs.RunTerms as runs;
ghost use Rattle.unification.specs.Built.{built_of};
ghost use Rattle.run_terms.specs.CodeNaming.{naming_of};
ghost use Rattle.run_terms.specs.ComparisonMeanings.{member_of};
ghost use Rattle.run_terms.specs.StandingMeanings.{standing_of};
ghost use Rattle.run_terms.specs.cycle_terms.CodeCycles as parts;

use crate::cycle_terms::refutations::cycle_with;
use crate::{Member, Naming, Standing, acyclic_name, direct_name, left_name, member_at};
use core_sig::{Family, Signature};
use core_terms::{Items, Name, Stop, Term};
use kernel_reduce::family;
use std::alloc::Global;

/// The term of a cycle: the variable `x` is on the left or on the right, and the other side is the constructor `b`.
pub fn cycle_term(
    alloc: Global,
    sig: &Signature,
    naming: Naming,
    level: u8,
    s: &Standing,
    x: u32,
    from_left: bool,
    b: &Member,
    side: &Term,
) -> Result<Term, Stop>
    requires { built_of sig.now (tree_of side.now) ≡ Some (member_of b.now) }
    ensures { Gives tree_of result (Ok (spec.cycle_term (naming_of naming.entry) level (standing_of s.now) x from_left (member_of b.now) (tree_of side.now))) }
{
    let n = b.built.family;
    let ps = b.parameters.as_slice();
    match family(sig, n) {
        Some(f) => cycle_with(alloc, naming, level, s, x, from_left, n, f, ps, side),
        None => unreachable!(),
    }
}

/// The term of a cycle with the variable on the right, or Type 0 if the left side is no constructor.
fn cycle_on_right(
    alloc: Global,
    sig: &Signature,
    naming: Naming,
    level: u8,
    s: &Standing,
    x: u32,
    left: &Term,
) -> Result<Term, Stop>
    requires { tree.height (tree_of left.now) ≤ most_height }
    ensures { Gives tree_of result (Ok (parts.on_constructor (built_of sig.now (tree_of left.now)) (λ b. spec.cycle_term (naming_of naming.entry) level (standing_of s.now) x false b (tree_of left.now)) runs.no_term)) }
{
    match member_at(alloc, sig, left)? {
        Some(b) => cycle_term(alloc, sig, naming, level, s, x, false, &b, left),
        None => Ok(Term::Sort(0)),
    }
}

/// The term of a cycle from the sides of its step: the right one where it is a constructor, and else the left one.
pub fn cycle_of_sides(
    alloc: Global,
    sig: &Signature,
    naming: Naming,
    level: u8,
    s: &Standing,
    x: u32,
    left: &Term,
    right: &Term,
) -> Result<Term, Stop>
    requires left { tree.height (tree_of left.now) ≤ most_height }
    requires right { tree.height (tree_of right.now) ≤ most_height }
    ensures { Gives tree_of result (Ok (runs.on_side (tree_of left.now) (tree_of right.now) (built_of sig.now (tree_of left.now)) (built_of sig.now (tree_of right.now)) (spec.cycle_term (naming_of naming.entry) level (standing_of s.now) x))) }
{
    match member_at(alloc, sig, right)? {
        Some(b) => cycle_term(alloc, sig, naming, level, s, x, true, &b, right),
        None => cycle_on_right(alloc, sig, naming, level, s, x, left),
    }
}

/// `D!direct` and `D!acyclic`.
fn names_from_left(alloc: Global, f: &Family) -> Result<Items<Name>, Stop>
    ensures { Gives (λ ns. ns) result (Ok (parts.names_from_left (family_of f.now))) }
{
    let mut names = Items::new(alloc);
    names.push(direct_name(alloc, f)?)?;
    names.push(acyclic_name(alloc, f)?)?;
    Ok(names)
}

/// `D!direct`, `Eq.l!left.l` and `D!acyclic`.
fn names_from_right(alloc: Global, f: &Family) -> Result<Items<Name>, Stop>
    ensures { Gives (λ ns. ns) result (Ok (parts.names_from_right (family_of f.now))) }
{
    let mut names = Items::new(alloc);
    names.push(direct_name(alloc, f)?)?;
    names.push(left_name(alloc, f.level, f.level)?)?;
    names.push(acyclic_name(alloc, f)?)?;
    Ok(names)
}

/// The names where the variable is on the right, or none where the left side is no constructor.
fn names_on_right(alloc: Global, sig: &Signature, left: &Term) -> Result<Items<Name>, Stop>
    requires { tree.height (tree_of left.now) ≤ most_height }
    ensures { Gives (λ ns. ns) result (Ok (parts.on_constructor (built_of sig.now (tree_of left.now)) (λ b. parts.names_from_right b.family) [])) }
{
    match member_at(alloc, sig, left)? {
        Some(b) => names_from_right(alloc, b.built.record),
        None => Ok(Items::new(alloc)),
    }
}

/// The names that the term of a cycle may mention, from the sides of its step.
pub fn cycle_names(
    alloc: Global,
    sig: &Signature,
    left: &Term,
    right: &Term,
) -> Result<Items<Name>, Stop>
    requires left { tree.height (tree_of left.now) ≤ most_height }
    requires right { tree.height (tree_of right.now) ≤ most_height }
    ensures { Gives (λ ns. ns) result (Ok (runs.cycle_names (built_of sig.now (tree_of left.now)) (built_of sig.now (tree_of right.now)))) }
{
    match member_at(alloc, sig, right)? {
        Some(b) => names_from_left(alloc, b.built.record),
        None => names_on_right(alloc, sig, left),
    }
}
