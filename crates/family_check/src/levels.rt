ghost use Rattle.std.specs.Prelude.{◌≡◌, ◌≤◌, ◌+◌, ◌++◌, [], ◌∷◌};
ghost use Rattle.theory.specs.Telescopes.{context_behind};
ghost use Rattle.core_terms.specs.Meanings.{tree_of, tele_of};
ghost use Rattle.kernel_reduce.specs.WellScoped.{AreWellScoped};
ghost use Rattle.family_check.specs.Families as spec;
ghost use Rattle.family_check.specs.Meanings.{Yields, answer_of, site_of, stop_of};
ghost use Rattle.family_check.specs.Roles.{role_of};

use crate::asking::sort_in;
use crate::{FamilyStop, Site};
use core_sig::Signature;
use core_terms::{Tele, Term, Units, copy_tele, copy_whole};
use std::alloc::Global;

/// The role of the types of a telescope: parameters, or indices or arguments of a constructor, whose levels have a limit.
#[derive(Clone, Copy)]
pub(crate) enum Role {
    Parameter,
    Index(u8),
    Argument { con: u32, limit: u8 },
}

/// The written part that type number `k`, counted from 1, belongs to.
fn site(role: Role, k: u32) -> Site
    ensures { site_of result ≡ spec.site_of (role_of role) k }
{
    match role {
        Role::Parameter => Site::Param(k),
        Role::Index(_) => Site::Ty,
        Role::Argument { con, .. } => Site::Con(con),
    }
}

/// The level of type number `k`, unless it is above the limit.
fn fitting(role: Role, k: u32, level: u8) -> Result<u8, FamilyStop>
    ensures { answer_of (λ i. i) result ≡ spec.fitting (role_of role) k level }
{
    match role {
        Role::Index(limit) if level > limit => Err(FamilyStop::TooLarge(None, k)),
        Role::Argument { con, limit } if level > limit => Err(FamilyStop::TooLarge(Some(con), k)),
        _ => Ok(level),
    }
}

fn sort_level(sort: &Term) -> u8
    ensures { result ≡ spec.sort_level (tree_of sort.now) }
{
    match sort {
        Term::Sort(level) => *level,
        _ => 0,
    }
}

/// The level of type number `k` of a telescope.
fn level_in(
    alloc: Global,
    sig: &Signature,
    role: Role,
    k: u32,
    ctx: &Tele,
    ty: &Term,
    units: &mut Units,
) -> Result<u8, FamilyStop>
    requires { AreWellScoped sig.now (tele_of ctx.now) (tree_of ty.now ∷ []) }
    ensures answer { Yields (λ i. i) result units.new.left (spec.level_in sig.now (role_of role) k (context_behind [] (tele_of ctx.now)) (tree_of ty.now) units.old.left) }
    ensures sum { units.new.left + units.new.spent ≡ units.old.left + units.old.spent }
    ensures spends { units.new.left ≤ units.old.left }
{
    let sort = sort_in(alloc, sig, ctx, ty, site(role, k), units)?;
    fitting(role, k, sort_level(&sort))
}

/// The levels of the types of a telescope after the parameters, from the left.
pub(crate) fn levels(
    alloc: Global,
    sig: &Signature,
    role: Role,
    params: &[Term],
    types: &[Term],
    units: &mut Units,
) -> Result<Vec<u8>, FamilyStop>
    requires { AreWellScoped sig.now (tele_of params.now ++ tele_of types.now) [] }
    ensures answer { Yields (λ v. v.items) result units.new.left (spec.levels_of sig.now (role_of role) 0 (context_behind [] (tele_of params.now)) (tele_of types.now) units.old.left) }
    ensures sum { units.new.left + units.new.spent ≡ units.old.left + units.old.spent }
    ensures spends { units.new.left ≤ units.old.left }
{
    let mut ctx = copy_tele(alloc, params)?;
    let mut levels = Vec::new(alloc);
    for (at, ty) in types.iter().enumerate() {
        let level = level_in(alloc, sig, role, at as u32 + 1, &ctx, ty, units)?;
        ctx.push(copy_whole(alloc, ty)?)?;
        levels.push(level)?;
    }
    Ok(levels)
}
