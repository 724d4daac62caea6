ghost use Rattle.std.specs.Prelude.{◌≡◌, ◌++◌, ℕ, Ok, length, map, ◌≤◌};
ghost use Rattle.core_terms.specs.Answers.{Gives, bounded, bounded_terms};
ghost use Rattle.core_terms.specs.Meanings.{tree_of, tele_of};
ghost use Rattle.core_sig.specs.Kinds.{HasKinds, HaveKinds};
ghost use Rattle.core_sig.specs.Meanings.{constructor_of, family_of};
ghost use Rattle.tele_eq.specs.Items.{items_of};
ghost use Rattle.theory.specs.Families as pure;
ghost use Rattle.unification.specs.Heights.{bounded_items};
ghost use Rattle.unification.specs.Injecting as injecting;
ghost use Rattle.unification.specs.Records as spec;
ghost use Rattle.theory.specs.Eliminators.{no_variable};
ghost use Rattle.theory.specs.Substitutions.{fill, inst};
ghost use Rattle.theory.specs.Telescopes as telescopes;
ghost use Rattle.theory.specs.Terms as tree;
ghost use Rattle.theory.specs.Telescopes.{inst_telescope};
ghost use Rattle.core_terms.specs.Bounds.{most_height};
ghost use Rattle.problems.specs.Conditions.{AreOver, most_depth};

use crate::moving::raised;
use core_sig::{Arg, Constructor, Family, types_of};
use core_terms::{
    Items, Stop, Tele, Term, applied, applied_to_nearest, checked, inst_tele, inst_terms,
};
use std::alloc::Global;
use tele_eq::{Item, with_variables};

/// The telescope of arguments or indices at parameters, or Deep.
#[tactic(auto, using(crate::proofs::RecordItems::record_laws))]
fn items_at(alloc: Global, ps: &[Term], args: &[Arg]) -> Result<Items<Item>, Stop>
    requires few { length args.now ≤ most_height }
    requires ps { AreOver most_depth (tele_of ps.now) }
    ensures { Gives items_of result (bounded_items (spec.items_at (inst_telescope (fill no_variable (tele_of ps.now)) (map (λ a. tree_of a.ty) args.now)) (map (λ a. a.level) args.now))) }
{
    let types = types_of(alloc, args)?;
    let types = inst_tele(alloc, ps, types.as_slice())?;
    with_levels(types.into_vec(), args, Items::new(alloc))
}

/// Types with the levels of the arguments or indices that they belong to.
fn with_levels(types: Vec<Term>, args: &[Arg], mut made: Items<Item>) -> Result<Items<Item>, Stop>
    requires { length types.items ≡ length args.now }
    ensures { Gives items_of result (Ok (items_of made ++ spec.items_at (map tree_of types.items) (map (λ a. a.level) args.now))) }
{
    let mut at = 0;
    for ty in types {
        made.push(Item {
            ty,
            level: args[at].level,
        })?;
        at += 1;
    }
    Ok(made)
}

/// The telescope of a constructor's arguments at parameters, or Deep.
pub fn argument_items(alloc: Global, ps: &[Term], con: &Constructor) -> Result<Items<Item>, Stop>
    requires few { length con.now.args ≤ most_height }
    requires ps { AreOver most_depth (tele_of ps.now) }
    ensures { (n : ℕ) (f : pure.Family) → HaveKinds n f 0 con.now.args → length f.parameters ≡ length ps.now → Gives items_of result (bounded_items (spec.argument_items n (tele_of ps.now) (constructor_of (length ps.now) con.now))) }
{
    items_at(alloc, ps, con.args.as_slice())
}

/// Each of the terms after so many variables more.
pub fn lifted(alloc: Global, by: u32, terms: &[Term]) -> Result<Tele, Stop>
    requires terms { AreOver most_depth (tele_of terms.now) }
    requires by { by ≤ most_height }
    ensures { Gives tele_of result (Ok (injecting.lifted by (tele_of terms.now))) }
{
    let mut made = Items::new(alloc);
    for t in terms {
        made.push(raised(alloc, by, 0, t)?)?;
    }
    Ok(made)
}

/// `head` at parameters and at the nearest `count` variables, which come after the parameters, or Deep.
fn at_nearest(alloc: Global, head: Term, ps: &[Term], count: u32) -> Result<Term, Stop>
    requires head { tree.free_of (tree_of head) ≡ 0 }
    requires count { count ≤ most_height }
    requires ps { AreOver most_depth (tele_of ps.now) }
    ensures { Gives tree_of result (bounded (telescopes.applied (telescopes.weaken_by count (telescopes.applied (tree_of head) (tele_of ps.now))) (telescopes.variables count))) }
{
    let ps = lifted(alloc, count, ps)?.into_vec();
    let whole = applied_to_nearest(alloc, applied(alloc, head, ps)?, count)?;
    checked(whole)
}

/// The telescope of a family's indices at parameters, and the family at them, or Deep.
#[tactic(auto, using(crate::proofs::RecordItems::record_laws))]
pub fn family_items(alloc: Global, n: u32, f: &Family, ps: &[Term]) -> Result<Items<Item>, Stop>
    requires kinds { HasKinds n f.now }
    requires few { length f.now.indices ≤ most_height }
    requires ps { AreOver most_depth (tele_of ps.now) }
    ensures { Gives items_of result (bounded_items (spec.family_items n (family_of f.now) (tele_of ps.now))) }
{
    let indices = f.indices.as_slice();
    let mut made = items_at(alloc, ps, indices)?;
    let whole = at_nearest(alloc, Term::Fam(n), ps, indices.len() as u32)?;
    made.push(Item {
        ty: whole,
        level: f.level,
    })?;
    Ok(made)
}

/// The targets of a constructor at parameters, after its arguments, or Deep.
fn targets_at(alloc: Global, ps: &[Term], con: &Constructor) -> Result<Tele, Stop>
    requires few { length con.now.args ≤ most_height }
    requires ps { AreOver most_depth (tele_of ps.now) }
    ensures { Gives tele_of result (bounded_terms (map (inst (fill no_variable (injecting.lifted (length con.now.args) (tele_of ps.now) ++ telescopes.variables (length con.now.args)))) (tele_of con.now.targets))) }
{
    let count = con.args.as_slice().len() as u32;
    let values = with_variables(lifted(alloc, count, ps)?, count)?;
    inst_terms(alloc, values.as_slice(), con.targets.as_slice())
}

/// A constructor at parameters and at its arguments, after these, or Deep.
fn constructor_at(
    alloc: Global,
    n: u32,
    number: u32,
    ps: &[Term],
    con: &Constructor,
) -> Result<Term, Stop>
    requires few { length con.now.args ≤ most_height }
    requires ps { AreOver most_depth (tele_of ps.now) }
    ensures { Gives tree_of result (bounded (telescopes.applied (telescopes.weaken_by (length con.now.args) (telescopes.applied (tree.Con n number) (tele_of ps.now))) (telescopes.variables (length con.now.args)))) }
{
    let count = con.args.as_slice().len() as u32;
    at_nearest(alloc, Term::Con(n, number), ps, count)
}

/// The targets of a constructor, and the constructor itself, at parameters and after its arguments, or Deep.
#[tactic(auto, using(crate::proofs::RecordItems::record_laws))]
pub fn constructor_terms(
    alloc: Global,
    n: u32,
    number: u32,
    ps: &[Term],
    con: &Constructor,
) -> Result<Tele, Stop>
    requires few { length con.now.args ≤ most_height }
    requires ps { AreOver most_depth (tele_of ps.now) }
    ensures { Gives tele_of result (bounded_terms (spec.constructor_terms n number (tele_of ps.now) (constructor_of (length ps.now) con.now))) }
{
    let mut made = targets_at(alloc, ps, con)?;
    made.push(constructor_at(alloc, n, number, ps, con)?)?;
    Ok(made)
}
