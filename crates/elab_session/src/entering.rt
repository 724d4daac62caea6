ghost use Rattle.std.specs.Prelude.{◌≡◌, ◌+◌, ◌≤◌, None, IsTrue, map, length, Ok, IfOk, OnErr};
ghost use Rattle.theory.specs.Signatures.{IsPrefix};
ghost use Rattle.theory.specs.SignatureScopes.{IsFamilyNumber, IsScoped};
ghost use Rattle.core_terms.specs.Answers.{Gives};
ghost use Rattle.core_terms.specs.Meanings.{tree_of};
ghost use Rattle.core_sig.specs.Kinds.{HasEntryKinds};
ghost use Rattle.core_sig.specs.Meanings.{entry_of};
ghost use Rattle.core_sig.specs.Names.{find};
ghost use Rattle.core_sig.specs.Raw.{raw_constructor_of, raw_of};
ghost use Rattle.core_text.specs.RawEntries as pure;
ghost use Rattle.family_check.specs.Entering.{entered_at};
ghost use Rattle.family_check.specs.Scopes.{IsScopedRaw};
ghost use Rattle.elab_session.specs.Adding.{IsAdded};
ghost use Rattle.elab_session.specs.Entering as spec;
ghost use Rattle.elab_session.specs.Meanings.{definition_of, raw_entry_of};
ghost use Rattle.elab_session.specs.Sessions.{IsReady};

use crate::Refusal;
use crate::raw_entry::{Definition, RawEntry};
use crate::refused_families::refuse_family;
use crate::refusing::refusal;
use crate::shown::entry_shown;
use core_sig::{Entry, RawCon, RawFamily, Signature};
use core_terms::{Items, Name, Stop, Units, copy_name};
use family_check::{axiom_k, declare, define, instance};
use std::alloc::Global;
use surface_syntax::Word;

/// Adds an entry of a core file, which may spend `fuel` units, and answers its number, also where it is an instance that is
/// there already. After a refusal the signature is as it was.
pub fn enter_entry(
    alloc: Global,
    sig: &mut Signature,
    fuel: u64,
    entry: Entry,
) -> Result<u32, Refusal>
    requires ready { IsReady sig.old }
    requires entry { spec.CanEnter sig.old (pure.entry_shown (length sig.old.entries) (entry_of entry)) }
    requires kinds { HasEntryKinds (length sig.old.entries) entry }
    ensures answer { spec.Enters sig.new result (spec.enter_of sig.old fuel (pure.entry_shown (length sig.old.entries) (entry_of entry))) }
    ensures err { OnErr result (sig.new ≡ sig.old) }
    ensures longer { IsPrefix sig.old sig.new }
    ensures added { IfOk result (λ _. IsAdded sig.old (pure.entry_shown (length sig.old.entries) (entry_of entry)) sig.new) }
    ensures ready { IsReady sig.new }
{
    let Ok(raw) = entry_shown(alloc, sig.len(), entry) else {
        return Err(Refusal::Memory);
    };
    let mut units = Units {
        left: fuel,
        spent: 0,
        full: false,
    };
    enter(alloc, sig, 0, fuel, raw, &mut units)
}

/// Adds an entry, whose name is at the offset `start`, and answers its number. All of the declaration may spend `fuel` units.
/// After a refusal the signature is as it was, and the units that were spent stay spent.
pub fn enter_raw(
    alloc: Global,
    sig: &mut Signature,
    start: u32,
    fuel: u64,
    raw: RawEntry,
    units: &mut Units,
) -> Result<u32, Refusal>
    requires ready { IsReady sig.old }
    requires entry { spec.CanEnter sig.old (raw_entry_of raw) }
    ensures answer { spec.Declares (entered_at sig.new) result units.new.left (spec.enter_with sig.old start fuel (raw_entry_of raw) units.old.left) }
    ensures err { OnErr result (sig.new ≡ sig.old) }
    ensures sum { units.new.left + units.new.spent ≡ units.old.left + units.old.spent }
    ensures spends { units.new.left ≤ units.old.left }
    ensures longer { IsPrefix sig.old sig.new }
    ensures ready { IsReady sig.new }
{
    enter(alloc, sig, start, fuel, raw, units)
}

/// Adds an entry by its kind.
pub(crate) fn enter(
    alloc: Global,
    sig: &mut Signature,
    start: u32,
    fuel: u64,
    raw: RawEntry,
    units: &mut Units,
) -> Result<u32, Refusal>
    requires ready { IsReady sig.old }
    requires entry { spec.CanEnter sig.old (raw_entry_of raw) }
    ensures answer { spec.Declares (entered_at sig.new) result units.new.left (spec.enter_with sig.old start fuel (raw_entry_of raw) units.old.left) }
    ensures err { OnErr result (sig.new ≡ sig.old) }
    ensures sum { units.new.left + units.new.spent ≡ units.old.left + units.old.spent }
    ensures spends { units.new.left ≤ units.old.left }
{
    match raw {
        RawEntry::Family(raw) => enter_family(alloc, sig, start, fuel, raw, units),
        RawEntry::Elim(fam, m) => enter_eliminator(alloc, sig, fuel, fam, m, units),
        RawEntry::AxiomK(i, m) => enter_axiom_k(alloc, sig, fuel, i, m, units),
        RawEntry::Def(d) => enter_definition(alloc, sig, start, fuel, d, units),
    }
}

fn enter_definition(
    alloc: Global,
    sig: &mut Signature,
    start: u32,
    fuel: u64,
    d: Definition,
    units: &mut Units,
) -> Result<u32, Refusal>
    requires ready { IsReady sig.old }
    requires ty { IsScoped sig.old 0 (tree_of d.ty) }
    requires body { IsScoped sig.old 0 (tree_of d.body) }
    ensures answer { spec.Declares (entered_at sig.new) result units.new.left (spec.enter_with sig.old start fuel (definition_of d) units.old.left) }
    ensures err { OnErr result (sig.new ≡ sig.old) }
    ensures sum { units.new.left + units.new.spent ≡ units.old.left + units.old.spent }
    ensures spends { units.new.left ≤ units.old.left }
{
    let x = Word {
        text: copy_name(alloc, &d.name)?,
        start,
    };
    match define(alloc, sig, d.name, d.ty, d.body, units) {
        Ok(number) => Ok(number),
        Err(stop) => Err(refusal(alloc, sig, &[], Some(&x), fuel, stop)),
    }
}

fn enter_eliminator(
    alloc: Global,
    sig: &mut Signature,
    fuel: u64,
    fam: u32,
    m: u8,
    units: &mut Units,
) -> Result<u32, Refusal>
    requires ready { IsReady sig.old }
    requires family { IsFamilyNumber sig.old fam }
    ensures answer { spec.Declares (entered_at sig.new) result units.new.left (spec.enter_with sig.old 0 fuel (pure.RawEliminator fam m) units.old.left) }
    ensures err { OnErr result (sig.new ≡ sig.old) }
    ensures sum { units.new.left + units.new.spent ≡ units.old.left + units.old.spent }
    ensures spends { units.new.left ≤ units.old.left }
{
    match instance(alloc, sig, fam, m, units) {
        Ok(number) => Ok(number),
        Err(stop) => Err(refusal(alloc, sig, &[], None, fuel, stop)),
    }
}

fn enter_axiom_k(
    alloc: Global,
    sig: &mut Signature,
    fuel: u64,
    i: u8,
    m: u8,
    units: &mut Units,
) -> Result<u32, Refusal>
    requires ready { IsReady sig.old }
    requires on { IsTrue sig.old.has_k }
    ensures answer { spec.Declares (entered_at sig.new) result units.new.left (spec.enter_with sig.old 0 fuel (pure.RawAxiomK i m) units.old.left) }
    ensures err { OnErr result (sig.new ≡ sig.old) }
    ensures sum { units.new.left + units.new.spent ≡ units.old.left + units.old.spent }
    ensures spends { units.new.left ≤ units.old.left }
{
    match axiom_k(alloc, sig, i, m, units) {
        Ok(number) => Ok(number),
        Err(stop) => Err(refusal(alloc, sig, &[], None, fuel, stop)),
    }
}

fn enter_family(
    alloc: Global,
    sig: &mut Signature,
    start: u32,
    fuel: u64,
    raw: RawFamily,
    units: &mut Units,
) -> Result<u32, Refusal>
    requires ready { IsReady sig.old }
    requires raw { IsScopedRaw sig.old (raw_of raw) }
    requires new { find sig.old raw.name ≡ None }
    ensures answer { spec.Declares (entered_at sig.new) result units.new.left (spec.enter_with sig.old start fuel (pure.RawFamilyOf (raw_of raw)) units.old.left) }
    ensures err { OnErr result (sig.new ≡ sig.old) }
    ensures sum { units.new.left + units.new.spent ≡ units.old.left + units.old.spent }
    ensures spends { units.new.left ≤ units.old.left }
{
    let x = Word {
        text: copy_name(alloc, &raw.name)?,
        start,
    };
    let Ok(names) = constructor_names(alloc, raw.cons.as_slice()) else {
        return Err(Refusal::Memory);
    };
    match declare(alloc, sig, raw, units) {
        Ok(number) => Ok(number),
        Err(stop) => Err(refuse_family(alloc, sig, fuel, &x, names.as_slice(), stop)),
    }
}

/// The names of constructors.
fn constructor_names(alloc: Global, cons: &[RawCon]) -> Result<Items<Name>, Stop>
    ensures { Gives (λ names. names) result (Ok (map (λ c. c.name) (map raw_constructor_of cons.now))) }
{
    let mut names = Items::new(alloc);
    for con in cons {
        names.push(copy_name(alloc, &con.name)?)?;
    }
    Ok(names)
}
