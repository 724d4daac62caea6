ghost use Rattle.std.specs.Prelude.{◌≡◌, ◌<◌, ◌≤◌, ◌+◌, ◌^◌, ◌++◌, List, [], ◌∷◌, None, true, All, IfOk, IfErr, OnErr, length, map, zip};
ghost use Rattle.theory.specs.Signatures.{FamilyOf, IsPrefix, names_of};
ghost use Rattle.theory.specs.Telescopes.{context_behind};
ghost use Rattle.theory.specs.Terms as tree;
ghost use Rattle.theory.specs.WellFormed.{IsWellFormed, pushed};
ghost use Rattle.core_terms.specs.Answers.{Gives, and_next};
ghost use Rattle.core_terms.specs.Bounds.{most_height};
ghost use Rattle.core_terms.specs.Meanings.{tree_of, tele_of};
ghost use Rattle.core_sig.specs.Kinds.{HasKinds, HaveKinds};
ghost use Rattle.core_sig.specs.Meanings.{constructor_of, family_of};
ghost use Rattle.core_sig.specs.Names.{find};
ghost use Rattle.core_sig.specs.Raw.{RawConstructor, raw_constructor_of, raw_names, raw_of};
ghost use Rattle.kernel_reduce.specs.WellScoped.{AreWellScoped};
ghost use Rattle.family_check.specs.Entering as entering;
ghost use Rattle.family_check.specs.Families as spec;
ghost use Rattle.family_check.specs.Kinds.{IsBare};
ghost use Rattle.family_check.specs.Laws.{EntersAsDeclared};
ghost use Rattle.family_check.specs.Meanings.{Yields, answer_of, stop_of};
ghost use Rattle.family_check.specs.Outcomes.{ended};
ghost use Rattle.family_check.specs.Scopes.{IsScopedRaw, IsScopedStop, IsSettled, parameter_limit, site_signature};

use crate::asking::sort_in;
use crate::constructors::declare_constructors;
use crate::levels::{Role, levels};
use crate::names::are_new;
use crate::{FamilyStop, Site};
use core_sig::{Arg, ArgKind, Constructor, Entry, Family, RawCon, RawFamily, Signature};
use core_terms::{Items, Name, Stop, Tele, Term, Units, copy_tele, copy_whole, split_products};
use std::alloc::Global;

/// With fewer parameters there is room for the variables of any type that the checker takes.
const PARAMETER_LIMIT: usize = 2147481648;

/// The greatest number of a constructor fits 32 bits.
const MOST_CONSTRUCTORS: usize = 4294967295;

/// Adds a family as declared and answers its number.
///
/// Each written type, of a parameter, of the family and of a constructor, costs the units of one call of `infer_sort`, and
/// each type of an index or an argument those of one more, for its level. Duplicate costs none and comes first. All other
/// errors come in source order: Denied, Fuel or Deep for a type, BadFamily and TooLarge after the type of the
/// family, NotPositive and then TooLarge after the type of a constructor. After an error the signature is as it was, and
/// the units that were spent stay spent. Memory is also answered where the parameters or the constructors are too many to be
/// counted, 2^31 - 2000 and 2^32.
pub fn declare(
    alloc: Global,
    sig: &mut Signature,
    raw: RawFamily,
    units: &mut Units,
) -> Result<u32, FamilyStop>
    requires signature { IsSettled sig.old }
    requires raw { IsScopedRaw sig.old (raw_of raw) }
    ensures answer { Yields (entering.entered_at sig.new) result units.new.left (entering.declare_of sig.old (raw_of raw) units.old.left) }
    ensures err { OnErr result (sig.new ≡ sig.old) }
    ensures sum { units.new.left + units.new.spent ≡ units.old.left + units.old.spent }
    ensures spends { units.new.left ≤ units.old.left }
    ensures given { IfOk result (λ n. EntersAsDeclared sig.old (raw_of raw) (entering.entered_at sig.new n)) }
    ensures longer { IsPrefix sig.old sig.new }
    ensures well_formed { IsWellFormed sig.old → IsWellFormed sig.new }
    ensures settled { IsSettled sig.new }
    ensures denied { IfErr result (λ e. IsScopedStop (site_signature sig.old (raw_of raw)) (stop_of e)) }
{
    enter_family(alloc, sig, raw, units)
}

/// Adds a family whose names are new.
fn enter_family(
    alloc: Global,
    sig: &mut Signature,
    raw: RawFamily,
    units: &mut Units,
) -> Result<u32, FamilyStop>
    requires signature { IsSettled sig.old }
    requires raw { IsScopedRaw sig.old (raw_of raw) }
    ensures answer { Yields (entering.entered_at sig.new) result units.new.left (entering.declare_of sig.old (raw_of raw) units.old.left) }
    ensures err { OnErr result (sig.new ≡ sig.old) }
    ensures sum { units.new.left + units.new.spent ≡ units.old.left + units.old.spent }
    ensures spends { units.new.left ≤ units.old.left }
{
    if raw.params.as_slice().len() >= PARAMETER_LIMIT
        || raw.cons.as_slice().len() > MOST_CONSTRUCTORS
    {
        return Err(FamilyStop::Stop(Stop::Memory));
    }
    if !are_new(alloc, sig, &raw)? {
        return Err(FamilyStop::Duplicate);
    }
    let family = declare_family(alloc, sig, raw, units)?;
    Ok(sig.push(Entry::Family(family))?)
}

/// Checks a family whose names are new. The signature is as it was.
fn declare_family(
    alloc: Global,
    sig: &mut Signature,
    raw: RawFamily,
    units: &mut Units,
) -> Result<Family, FamilyStop>
    requires signature { IsSettled sig.old }
    requires raw { IsScopedRaw sig.old (raw_of raw) }
    requires new { entering.are_new sig.old (raw_names (raw_of raw)) ≡ true }
    requires few { length raw.params < parameter_limit }
    requires count { length raw.cons < 2 ^ 32 }
    ensures answer { Yields family_of result units.new.left (spec.declare_family sig.old (raw_of raw) units.old.left) }
    ensures kinds { IfOk result (HasKinds (length sig.old.entries)) }
    ensures kept { sig.new ≡ sig.old }
    ensures sum { units.new.left + units.new.spent ≡ units.old.left + units.old.spent }
    ensures spends { units.new.left ≤ units.old.left }
{
    let RawFamily {
        name,
        params,
        ty,
        cons,
    } = raw;
    let bare = declare_type(alloc, sig, name, params, ty, units)?;
    let cons = over_bare(alloc, sig, &bare, cons.into_vec(), units)?;
    let Family {
        name,
        params,
        indices,
        level,
        ..
    } = bare;
    Ok(Family {
        name,
        params,
        indices,
        level,
        cons,
    })
}

/// Checks the constructors of a family over the signature with the family, without constructors, at its end. The
/// signature is as it was.
fn over_bare(
    alloc: Global,
    sig: &mut Signature,
    bare: &Family,
    raws: Vec<RawCon>,
    units: &mut Units,
) -> Result<Items<Constructor>, FamilyStop>
    requires asked { AreWellScoped (pushed sig.old (FamilyOf (family_of bare.now))) (tele_of bare.now.params) (map (λ c. tree_of c.ty) raws.items) }
    requires few { length bare.now.params < parameter_limit }
    requires count { length raws.items < 2 ^ 32 }
    requires bare { IsBare bare.now }
    requires unknown { find sig.old bare.now.name ≡ None }
    ensures answer { Yields (map (constructor_of (length bare.now.params))) result units.new.left (spec.declare_constructors (pushed sig.old (FamilyOf (family_of bare.now))) (length sig.old.entries) (family_of bare.now) 0 (map raw_constructor_of raws.items) units.old.left) }
    ensures kinds { IfOk result (All (λ c. HaveKinds (length sig.old.entries) (family_of bare.now) 0 c.args)) }
    ensures kept { sig.new ≡ sig.old }
    ensures sum { units.new.left + units.new.spent ≡ units.old.left + units.old.spent }
    ensures spends { units.new.left ≤ units.old.left }
{
    let number = sig.push(Entry::Family(copy_bare(alloc, bare)?))?;
    let made = declare_constructors(alloc, sig, number, bare, raws, units);
    sig.truncate(number);
    made
}

/// A copy of a family that has no constructors.
fn copy_bare(alloc: Global, f: &Family) -> Result<Family, Stop>
    requires { IsBare f.now }
    ensures meant { Gives family_of result (Ok (family_of f.now)) }
    ensures bare { IfOk result IsBare }
{
    let mut indices = Items::new(alloc);
    for index in f.indices.as_slice() {
        let ty = copy_whole(alloc, &index.ty)?;
        indices.push(index_of(ty, index.level))?;
    }
    Ok(Family {
        name: Name::from_vec(Vec::from_slice(alloc, f.name.as_slice())?),
        params: copy_tele(alloc, f.params.as_slice())?,
        indices,
        level: f.level,
        cons: Items::new(alloc),
    })
}

fn index_of(ty: Term, level: u8) -> Arg
    ensures ty { result.ty ≡ ty }
    ensures level { result.level ≡ level }
    ensures kind { result.kind ≡ ArgKind.Plain }
{
    Arg {
        ty,
        level,
        kind: ArgKind::Plain,
    }
}

/// Checks the parameters and the type of a family.
fn declare_type(
    alloc: Global,
    sig: &Signature,
    name: Name,
    params: Tele,
    ty: Term,
    units: &mut Units,
) -> Result<Family, FamilyStop>
    requires asked { AreWellScoped sig.now (tele_of params) (tree_of ty ∷ []) }
    requires few { length params < parameter_limit }
    ensures answer { (cs : List RawConstructor) → Yields family_of result units.new.left (spec.declare_type sig.now (record { name = name; parameters = tele_of params; type = tree_of ty; constructors = cs }) units.old.left) }
    ensures bare { IfOk result IsBare }
    ensures sum { units.new.left + units.new.spent ≡ units.old.left + units.old.spent }
    ensures spends { units.new.left ≤ units.old.left }
{
    let none = Items::new(alloc);
    levels(
        alloc,
        sig,
        Role::Parameter,
        none.as_slice(),
        params.as_slice(),
        units,
    )?;
    sort_in(alloc, sig, &params, &ty, Site::Ty, units)?;
    bare_family(alloc, sig, name, params, ty, units)
}

/// The family without constructors, whose type has a sort.
fn bare_family(
    alloc: Global,
    sig: &Signature,
    name: Name,
    params: Tele,
    ty: Term,
    units: &mut Units,
) -> Result<Family, FamilyStop>
    requires asked { AreWellScoped sig.now (tele_of params) (tree_of ty ∷ []) }
    requires few { length params < parameter_limit }
    requires low { tree.height (tree_of ty) ≤ most_height }
    ensures answer { (cs : List RawConstructor) → Yields family_of result units.new.left (spec.bare_family sig.now (record { name = name; parameters = tele_of params; type = tree_of ty; constructors = cs }) units.old.left) }
    ensures bare { IfOk result IsBare }
    ensures sum { units.new.left + units.new.spent ≡ units.old.left + units.old.spent }
    ensures spends { units.new.left ≤ units.old.left }
{
    let mut types = Vec::new(alloc);
    let end = split_products(&mut types, ty)?;
    let level = family_level(&end)?;
    let indices = leveled_indices(alloc, sig, level, params.as_slice(), types, units)?;
    Ok(Family {
        name,
        params,
        indices,
        level,
        cons: Items::new(alloc),
    })
}

/// The level of a family whose type has the given end.
fn family_level(end: &Term) -> Result<u8, FamilyStop>
    ensures { answer_of (λ i. i) result ≡ spec.family_level (tree_of end.now) }
{
    match end {
        Term::Sort(level) => Ok(*level),
        _ => Err(FamilyStop::BadFamily),
    }
}

/// The indices with the given types, which have levels up to that of the family.
fn leveled_indices(
    alloc: Global,
    sig: &Signature,
    level: u8,
    params: &[Term],
    types: Vec<Term>,
    units: &mut Units,
) -> Result<Items<Arg>, FamilyStop>
    requires { AreWellScoped sig.now (tele_of params.now ++ tele_of types.items) [] }
    ensures answer { Yields (map (λ i. (tree_of i.ty, i.level))) result units.new.left (and_next (spec.levels_of sig.now (spec.Index level) 0 (context_behind [] (tele_of params.now)) (tele_of types.items) units.old.left) (λ levels end. ended (Ok (zip (tele_of types.items) levels)) end)) }
    ensures plain { IfOk result (All (λ i. i.kind ≡ ArgKind.Plain)) }
    ensures sum { units.new.left + units.new.spent ≡ units.old.left + units.old.spent }
    ensures spends { units.new.left ≤ units.old.left }
{
    let levels = levels(
        alloc,
        sig,
        Role::Index(level),
        params,
        types.as_slice(),
        units,
    )?;
    Ok(with_levels(alloc, types, levels.as_slice())?)
}

/// Indices with the given types and levels.
fn with_levels(alloc: Global, types: Vec<Term>, levels: &[u8]) -> Result<Items<Arg>, Stop>
    requires { length levels.now ≡ length types.items }
    ensures meant { Gives (map (λ i. (tree_of i.ty, i.level))) result (Ok (zip (tele_of types.items) levels.now)) }
    ensures plain { IfOk result (All (λ i. i.kind ≡ ArgKind.Plain)) }
{
    let mut indices = Items::new(alloc);
    for ty in types {
        let level = levels[indices.as_slice().len()];
        indices.push(index_of(ty, level))?;
    }
    Ok(indices)
}
