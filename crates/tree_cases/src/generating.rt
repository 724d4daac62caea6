ghost use Rattle.std.specs.Prelude.{IsTrue, ◌<◌, ◌+◌};
ghost use Rattle.generators.specs.noconf_gen.Fitting.{HasConfusionLevel};
ghost use Rattle.theory.specs.Families as pure;
ghost use Rattle.theory.specs.Signatures.{FamilyOf, IsEntryAt};
ghost use Rattle.theory.specs.SignatureScopes.{IsConstructorNumber, IsFamilyNumber};
ghost use Rattle.theory.specs.Terms.{top};

use case_below_gen::{all_entry, aux_entry, below_entry, case_entry, left_entry, rec_entry};
use core_sig::{Draft, Entry, Found, Signature, is_scoped};
use core_terms::{TOP, Term};
use generators::acyclic_gen::{acyclic_entry, direct_entry};
use generators::noconf_gen::{nct_entry, noconf_entry};
use std::alloc::Global;

/// What a generator says: a draft, or nothing where it refuses.
type Made = Option<Draft>;

/// Whether the number is that of a family.
fn is_family(sig: &Signature, fam: u32) -> bool
    ensures { IsTrue result → IsFamilyNumber sig.now fam }
{
    is_scoped(sig, 0, &Term::Fam(fam))
}

/// Whether the numbers are those of a constructor.
fn is_constructor(sig: &Signature, fam: u32, con: u32) -> bool
    ensures { IsTrue result → IsConstructorNumber sig.now fam con }
{
    is_scoped(sig, 0, &Term::Con(fam, con))
}

/// Whether no confusion of a family into `Type m` has a level.
fn has_confusion_level(sig: &Signature, fam: u32, m: u8) -> bool
    ensures { IsTrue result → HasConfusionLevel sig.now fam m }
{
    match sig.entry(fam) {
        Some(Entry::Family(family)) => m < TOP && family.level.max(m + 1) < TOP - 1,
        _ => false,
    }
}

/// Whether the level of a family is one below the greatest, or less.
fn has_part_level(sig: &Signature, fam: u32) -> bool
    ensures { IsTrue result → (f : pure.Family) → IsEntryAt sig.now fam (FamilyOf f) → f.level + 1 < top }
{
    match sig.entry(fam) {
        Some(Entry::Family(family)) => family.level < TOP - 1,
        _ => false,
    }
}

/// The level of a family, where the number is that of one.
fn level_of(sig: &Signature, fam: u32) -> Option<u8> {
    match sig.entry(fam) {
        Some(Entry::Family(family)) => Some(family.level),
        _ => None,
    }
}

/// Case analysis, and course-of-values recursion, as `rec.0`.
fn course_entry(alloc: Global, sig: &Signature, fam: u32, kind: &str) -> Option<Made>
    requires { IsFamilyNumber sig.now fam }
{
    let (mark, level) = kind.split_once('.')?;
    let m = level.parse::<u8>().ok()?;
    if m >= TOP {
        return None;
    }
    if mark == "case" {
        return Some(case_entry(alloc, sig, fam, m).ok());
    }
    if m >= TOP - 1 || level_of(sig, fam)? > m {
        return None;
    }
    match mark {
        "below" => Some(below_entry(alloc, sig, fam, m).ok()),
        "aux" => Some(aux_entry(alloc, sig, fam, m).ok()),
        "rec" => Some(rec_entry(alloc, sig, fam, m).ok()),
        "all" => Some(all_entry(alloc, sig, fam, m).ok()),
        _ => None,
    }
}

/// No confusion, as `noconf.suc.0`.
fn confusion_entry(alloc: Global, sig: &Signature, fam: u32, kind: &str) -> Option<Made> {
    let (mark, rest) = kind.split_once('.')?;
    let (constructor, level) = rest.rsplit_once('.')?;
    let m = level.parse::<u8>().ok()?;
    let Some(Found::Con(_, con)) = sig.find(constructor.as_bytes()) else {
        return None;
    };
    if !is_constructor(sig, fam, con) || !has_confusion_level(sig, fam, m) {
        return None;
    }
    match mark {
        "nct" => Some(nct_entry(alloc, sig, fam, con, m).ok()),
        "noconf" => Some(noconf_entry(alloc, sig, fam, con, m).ok()),
        _ => None,
    }
}

/// What is said of the parts of a term, `direct` and `acyclic`.
fn part_entry(alloc: Global, sig: &Signature, fam: u32, kind: &str) -> Option<Made>
    requires { IsFamilyNumber sig.now fam }
{
    if !has_part_level(sig, fam) {
        return None;
    }
    match kind {
        "direct" => Some(direct_entry(alloc, sig, fam).ok()),
        "acyclic" => Some(acyclic_entry(alloc, sig, fam).ok()),
        _ => None,
    }
}

/// Elimination of an equation of `Eq.i` by its left side, as `left.0`.
fn equation_entry(alloc: Global, sig: &Signature, family: &str, kind: &str) -> Option<Made> {
    let i = family.strip_prefix("Eq.")?.parse::<u8>().ok()?;
    let m = kind.strip_prefix("left.")?.parse::<u8>().ok()?;
    if i < TOP && m < TOP - 1 {
        Some(left_entry(alloc, sig, i, m).ok())
    } else {
        None
    }
}

/// The number of the family with a name.
fn family_named(sig: &Signature, name: &str) -> Option<u32> {
    match sig.find(name.as_bytes()) {
        Some(Found::Entry(number)) => Some(number),
        _ => None,
    }
}

/// What the generator for a name makes, as for `Nat!case.0`; none where no generator has the name.
pub fn generated(alloc: Global, sig: &Signature, name: &str) -> Option<Made> {
    let (family, kind) = name.split_once('!')?;
    let fam = family_named(sig, family)?;
    if !is_family(sig, fam) {
        return None;
    }
    part_entry(alloc, sig, fam, kind)
        .or(course_entry(alloc, sig, fam, kind))
        .or(confusion_entry(alloc, sig, fam, kind))
        .or(equation_entry(alloc, sig, family, kind))
}
