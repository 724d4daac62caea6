ghost use Rattle.std.specs.Prelude.{◌≡◌, ◌≤◌, ◌+◌, ℕ, List, [], ◌∷◌, IfErr, OnErr};
ghost use Rattle.theory.specs.Signatures.{Definition, IsPrefix};
ghost use Rattle.theory.specs.SignatureScopes.{IsScoped};
ghost use Rattle.theory.specs.WellFormed.{IsWellFormed};
ghost use Rattle.core_terms.specs.Meanings.{tree_of};
ghost use Rattle.kernel_reduce.specs.WellScoped.{AreWellScoped};
ghost use Rattle.family_check.specs.Entering as spec;
ghost use Rattle.family_check.specs.Meanings.{Yields, stop_of};
ghost use Rattle.family_check.specs.Scopes.{IsSettled, IsScopedStop};

use crate::asking::{sort_in, type_in};
use crate::{FamilyStop, Site};
use core_sig::{Entry, Signature};
use core_terms::{Items, Name, Term, Units};
use std::alloc::Global;

/// Adds a definition and answers its number.
///
/// Its type costs the units of one call of `infer_sort`, and its body those of one call of `check` against the type. Duplicate
/// for a name that is known costs none and comes first; then comes a denial of the type, Denied with the part `Ty`, and a denial
/// of the body, Denied with `Body`. Fuel and Deep are those of the two calls. After an error the signature is as it was, and the
/// units that were spent stay spent.
pub fn define(
    alloc: Global,
    sig: &mut Signature,
    name: Name,
    ty: Term,
    body: Term,
    units: &mut Units,
) -> Result<u32, FamilyStop>
    requires signature { IsSettled sig.old }
    requires ty { IsScoped sig.old 0 (tree_of ty) }
    requires body { IsScoped sig.old 0 (tree_of body) }
    ensures answer { Yields (spec.entered_at sig.new) result units.new.left (spec.define_of sig.old name (tree_of ty) (tree_of body) units.old.left) }
    ensures err { OnErr result (sig.new ≡ sig.old) }
    ensures sum { units.new.left + units.new.spent ≡ units.old.left + units.old.spent }
    ensures spends { units.new.left ≤ units.old.left }
    ensures longer { IsPrefix sig.old sig.new }
    ensures well_formed { IsWellFormed sig.old → IsWellFormed sig.new }
    ensures settled { IsSettled sig.new }
    ensures denied { IfErr result (λ e. IsScopedStop (λ site. sig.old) (stop_of e)) }
{
    enter_definition(alloc, sig, name, ty, body, units)
}

/// Adds a definition whose name is new.
fn enter_definition(
    alloc: Global,
    sig: &mut Signature,
    name: Name,
    ty: Term,
    body: Term,
    units: &mut Units,
) -> Result<u32, FamilyStop>
    requires { AreWellScoped sig.old [] (tree_of ty ∷ tree_of body ∷ []) }
    ensures answer { Yields (spec.entered_at sig.new) result units.new.left (spec.define_of sig.old name (tree_of ty) (tree_of body) units.old.left) }
    ensures err { OnErr result (sig.new ≡ sig.old) }
    ensures sum { units.new.left + units.new.spent ≡ units.old.left + units.old.spent }
    ensures spends { units.new.left ≤ units.old.left }
{
    if sig.find(name.as_slice()).is_some() {
        return Err(FamilyStop::Duplicate);
    }
    check_definition(alloc, sig, &ty, &body, units)?;
    Ok(sig.push(Entry::Def { name, ty, body })?)
}

/// Checks the type of a definition, and then its body against the type.
fn check_definition(
    alloc: Global,
    sig: &Signature,
    ty: &Term,
    body: &Term,
    units: &mut Units,
) -> Result<(), FamilyStop>
    requires { AreWellScoped sig.now [] (tree_of ty.now ∷ tree_of body.now ∷ []) }
    ensures answer { (name : List ℕ) → Yields (λ _. spec.entered sig.now (Definition name (tree_of ty.now) (tree_of body.now))) result units.new.left (spec.check_definition sig.now name (tree_of ty.now) (tree_of body.now) units.old.left) }
    ensures sum { units.new.left + units.new.spent ≡ units.old.left + units.old.spent }
    ensures spends { units.new.left ≤ units.old.left }
{
    let ctx = Items::new(alloc);
    sort_in(alloc, sig, &ctx, ty, Site::Ty, units)?;
    type_in(alloc, sig, &ctx, body, ty, Site::Body, units)?;
    Ok(())
}
