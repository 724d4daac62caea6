ghost use Rattle.std.specs.Prelude.{◌≡◌, ◌<◌, ◌≤◌, ◌+◌, ◌^◌, ◌++◌, Ok, [], ◌∷◌, All, IfOk, drop, length, map};
ghost use Rattle.theory.specs.Spines.{spine_of};
ghost use Rattle.theory.specs.Terms as tree;
ghost use Rattle.core_terms.specs.Answers.{Gives};
ghost use Rattle.core_terms.specs.Bounds.{most_height};
ghost use Rattle.core_terms.specs.Meanings.{tree_of, tele_of};
ghost use Rattle.core_sig.specs.Kinds.{HaveKinds};
ghost use Rattle.core_sig.specs.Meanings.{argument_of, constructor_of, family_of};
ghost use Rattle.core_sig.specs.Raw.{raw_constructor_of};
ghost use Rattle.kernel_reduce.specs.WellScoped.{AreWellScoped};
ghost use Rattle.family_check.specs.Scopes.{parameter_limit};
ghost use Rattle.family_check.specs.Families as spec;
ghost use Rattle.family_check.specs.Kinds as kinds;
ghost use Rattle.family_check.specs.Meanings.{Tells, Yields};
ghost use Rattle.core_terms.specs.Telescopes.{domains_of, end_of};
ghost use Rattle.family_check.specs.Shapes as shapes;

use crate::asking::sort_in;
use crate::levels::{Role, levels};
use crate::{FamilyStop, Site};
use core_sig::{Arg, ArgKind, Constructor, Family, RawCon, Signature, kind_of, mentions};
use core_terms::{Items, Name, Stop, Tele, Term, Units, into_spine, split_products};
use std::alloc::Global;

fn is_recursive(kind: ArgKind) -> bool
    ensures { result ≡ kinds.is_recursive kind }
{
    match kind {
        ArgKind::Plain => false,
        ArgKind::Recursive(_) => true,
    }
}

/// Whether an argument after `at` others keeps positivity.
fn is_positive(n: u32, f: &Family, at: u32, ty: &Term) -> bool
    requires { at + length f.now.params + tree.height (tree_of ty.now) < 2 ^ 32 }
    ensures { result ≡ shapes.is_positive n (family_of f.now) at (tree_of ty.now) }
{
    !mentions(ty, n) || is_recursive(kind_of(n, f, at, ty))
}

/// The first argument that breaks positivity, counted from 1.
fn first_offender(n: u32, f: &Family, types: &[Term]) -> Option<u32>
    requires few { length f.now.params + length types.now + 2000 < 2 ^ 32 }
    requires low { All (λ t. tree.height (tree_of t) ≤ most_height) types.now }
    ensures { result ≡ shapes.first_offender n (family_of f.now) 0 (tele_of types.now) }
{
    for (at, ty) in types.iter().enumerate() {
        if !is_positive(n, f, at as u32, ty) {
            return Some(at as u32 + 1);
        }
    }
    None
}

/// The arguments of a term's head after the first `count`.
fn into_targets(alloc: Global, t: Term, count: usize) -> Result<Tele, Stop>
    requires { count ≤ length (spine_of (tree_of t)) }
    ensures { Gives tele_of result (Ok (drop count (spine_of (tree_of t)))) }
{
    let mut spine = into_spine(alloc, t)?;
    Ok(Items::from_vec(spine.split_off(count)?))
}

/// The targets of a constructor whose type has the given domains and end, unless something offends.
fn targets(
    alloc: Global,
    n: u32,
    f: &Family,
    number: u32,
    types: &[Term],
    end: Term,
) -> Result<Tele, FamilyStop>
    requires few { length f.now.params + length types.now + 2000 < 2 ^ 32 }
    requires low { All (λ t. tree.height (tree_of t) ≤ most_height) types.now }
    requires end { tree.height (tree_of end) ≤ most_height }
    requires ended { domains_of (tree_of end) ≡ [] }
    ensures { (t : tree.Term) → domains_of t ≡ tele_of types.now → end_of t ≡ tree_of end → Tells tele_of result (spec.on_targets number (shapes.constructor_targets n (family_of f.now) t)) }
{
    if let Some(k) = first_offender(n, f, types) {
        return Err(FamilyStop::NotPositive(number, k));
    }
    if !is_recursive(kind_of(n, f, types.len() as u32, &end)) {
        return Err(FamilyStop::NotPositive(number, 0));
    }
    Ok(into_targets(alloc, end, f.params.as_slice().len())?)
}

/// The arguments of a constructor with the given types and levels.
fn arguments(
    alloc: Global,
    n: u32,
    f: &Family,
    types: Vec<Term>,
    levels: &[u8],
) -> Result<Items<Arg>, Stop>
    requires few { length f.now.params + length types.items + 2000 < 2 ^ 32 }
    requires low { All (λ t. tree.height (tree_of t) ≤ most_height) types.items }
    requires levels { length levels.now ≡ length types.items }
    ensures meant { Gives (λ args. map (argument_of (length f.now.params)) args) result (Ok (shapes.arguments n (family_of f.now) 0 (tele_of types.items) levels.now)) }
    ensures kinds { IfOk result (HaveKinds n (family_of f.now) 0) }
{
    let mut args = Items::new(alloc);
    for ty in types {
        let at = args.as_slice().len();
        let kind = kind_of(n, f, at as u32, &ty);
        let level = levels[at];
        args.push(Arg { ty, level, kind })?;
    }
    Ok(args)
}

/// Constructor `number` of the family `f`, which has the number `n` in the signature and no constructors there.
fn declare_constructor(
    alloc: Global,
    sig: &Signature,
    n: u32,
    f: &Family,
    number: u32,
    raw: RawCon,
    units: &mut Units,
) -> Result<Constructor, FamilyStop>
    requires asked { AreWellScoped sig.now (tele_of f.now.params) (tree_of raw.ty ∷ []) }
    requires few { length f.now.params < parameter_limit }
    ensures answer { Yields (constructor_of (length f.now.params)) result units.new.left (spec.declare_constructor sig.now n (family_of f.now) number (raw_constructor_of raw) units.old.left) }
    ensures kinds { IfOk result (λ c. HaveKinds n (family_of f.now) 0 c.args) }
    ensures sum { units.new.left + units.new.spent ≡ units.old.left + units.old.spent }
    ensures spends { units.new.left ≤ units.old.left }
{
    sort_in(alloc, sig, &f.params, &raw.ty, Site::Con(number), units)?;
    shaped_constructor(alloc, sig, n, f, number, raw, units)
}

/// The constructor whose type has a sort.
fn shaped_constructor(
    alloc: Global,
    sig: &Signature,
    n: u32,
    f: &Family,
    number: u32,
    raw: RawCon,
    units: &mut Units,
) -> Result<Constructor, FamilyStop>
    requires asked { AreWellScoped sig.now (tele_of f.now.params) (tree_of raw.ty ∷ []) }
    requires few { length f.now.params < parameter_limit }
    requires low { tree.height (tree_of raw.ty) ≤ most_height }
    ensures answer { Yields (constructor_of (length f.now.params)) result units.new.left (spec.shaped_constructor sig.now n (family_of f.now) number (raw_constructor_of raw) units.old.left) }
    ensures kinds { IfOk result (λ c. HaveKinds n (family_of f.now) 0 c.args) }
    ensures sum { units.new.left + units.new.spent ≡ units.old.left + units.old.spent }
    ensures spends { units.new.left ≤ units.old.left }
{
    let RawCon { name, ty } = raw;
    let mut types = Vec::new(alloc);
    let end = split_products(&mut types, ty)?;
    let targets = targets(alloc, n, f, number, types.as_slice(), end)?;
    leveled_constructor(alloc, sig, n, f, number, name, types, targets, units)
}

/// The constructor with the given targets and argument types, whose levels are bounded by the family's.
fn leveled_constructor(
    alloc: Global,
    sig: &Signature,
    n: u32,
    f: &Family,
    number: u32,
    name: Name,
    types: Vec<Term>,
    targets: Tele,
    units: &mut Units,
) -> Result<Constructor, FamilyStop>
    requires asked { AreWellScoped sig.now (tele_of f.now.params ++ tele_of types.items) [] }
    requires low { All (λ t. tree.height (tree_of t) ≤ most_height) types.items }
    ensures answer { Yields (constructor_of (length f.now.params)) result units.new.left (spec.leveled_constructor sig.now n (family_of f.now) number name (tele_of types.items) (tele_of targets) units.old.left) }
    ensures kinds { IfOk result (λ c. HaveKinds n (family_of f.now) 0 c.args) }
    ensures sum { units.new.left + units.new.spent ≡ units.old.left + units.old.spent }
    ensures spends { units.new.left ≤ units.old.left }
{
    let role = Role::Argument {
        con: number,
        limit: f.level,
    };
    let levels = levels(
        alloc,
        sig,
        role,
        f.params.as_slice(),
        types.as_slice(),
        units,
    )?;
    let args = arguments(alloc, n, f, types, levels.as_slice())?;
    Ok(Constructor {
        name,
        args,
        targets,
    })
}

/// The constructors of the family `f`, which has the number `n` in the signature and no constructors there.
pub(crate) fn declare_constructors(
    alloc: Global,
    sig: &Signature,
    n: u32,
    f: &Family,
    raws: Vec<RawCon>,
    units: &mut Units,
) -> Result<Items<Constructor>, FamilyStop>
    requires asked { AreWellScoped sig.now (tele_of f.now.params) (map (λ c. tree_of c.ty) raws.items) }
    requires few { length f.now.params < parameter_limit }
    requires count { length raws.items < 2 ^ 32 }
    ensures answer { Yields (map (constructor_of (length f.now.params))) result units.new.left (spec.declare_constructors sig.now n (family_of f.now) 0 (map raw_constructor_of raws.items) units.old.left) }
    ensures kinds { IfOk result (All (λ c. HaveKinds n (family_of f.now) 0 c.args)) }
    ensures sum { units.new.left + units.new.spent ≡ units.old.left + units.old.spent }
    ensures spends { units.new.left ≤ units.old.left }
{
    let mut made = Items::new(alloc);
    for raw in raws {
        let number = made.as_slice().len() as u32;
        let con = declare_constructor(alloc, sig, n, f, number, raw, units)?;
        made.push(con)?;
    }
    Ok(made)
}
