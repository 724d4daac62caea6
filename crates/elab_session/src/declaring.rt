ghost use Rattle.std.specs.Prelude.{◌≡◌, ◌+◌, ◌≤◌, IfOk, OnErr};
ghost use Rattle.theory.specs.Signatures.{IsPrefix};
ghost use Rattle.surface_syntax.specs.TreeMeanings.{decl_of};
ghost use Rattle.elab_session.specs.Declaring as spec;
ghost use Rattle.elab_session.specs.Entering.{CanEnter, Declares};
ghost use Rattle.elab_session.specs.Laws.{IsAsWritten};
ghost use Rattle.elab_session.specs.Meanings.{raw_entry_of};
ghost use Rattle.elab_session.specs.Sessions.{IsReady};

use crate::Refusal;
use crate::entering::enter;
use crate::raw_entry::RawEntry;
use crate::resolving::resolve_entry;
use core_sig::Signature;
use core_terms::{Name, Units, copy_name};
use resolve::declared_word;
use std::alloc::Global;
use surface_syntax::{Decl, Word};

/// Adds the entries of a definition or a family, which may spend `fuel` units, and answers its name. After a refusal the
/// signature is as it was.
pub fn declare(alloc: Global, sig: &mut Signature, fuel: u64, d: &Decl) -> Result<Name, Refusal>
    requires ready { IsReady sig.old }
    requires plain { spec.IsPlain (decl_of d.now) }
    ensures answer { spec.Answers sig.new result (spec.declare_of sig.old fuel (decl_of d.now)) }
    ensures err { OnErr result (sig.new ≡ sig.old) }
    ensures longer { IsPrefix sig.old sig.new }
    ensures ready { IsReady sig.new }
    ensures written { IfOk result (λ name. IsAsWritten sig.old (decl_of d.now) (spec.accepted_as name sig.new)) }
{
    let mut units = Units {
        left: fuel,
        spent: 0,
        full: false,
    };
    declare_with(alloc, sig, fuel, d, &mut units)
}

/// The declaration with the units that are left.
fn declare_with(
    alloc: Global,
    sig: &mut Signature,
    fuel: u64,
    d: &Decl,
    units: &mut Units,
) -> Result<Name, Refusal>
    requires ready { IsReady sig.old }
    requires plain { spec.IsPlain (decl_of d.now) }
    ensures answer { Declares (λ name. spec.accepted_as name sig.new) result units.new.left (spec.declare_with sig.old fuel (decl_of d.now) units.old.left) }
    ensures err { OnErr result (sig.new ≡ sig.old) }
    ensures sum { units.new.left + units.new.spent ≡ units.old.left + units.old.spent }
    ensures spends { units.new.left ≤ units.old.left }
{
    let raw = resolve_entry(alloc, sig, d)?;
    enter_declared(alloc, sig, fuel, declared_word(d), raw, units)
}

/// Adds the entry that is declared under the name, and answers this.
fn enter_declared(
    alloc: Global,
    sig: &mut Signature,
    fuel: u64,
    x: &Word,
    raw: RawEntry,
    units: &mut Units,
) -> Result<Name, Refusal>
    requires ready { IsReady sig.old }
    requires entry { CanEnter sig.old (raw_entry_of raw) }
    ensures answer { Declares (λ name. spec.accepted_as name sig.new) result units.new.left (spec.enter_declared sig.old fuel x.now (raw_entry_of raw) units.old.left) }
    ensures err { OnErr result (sig.new ≡ sig.old) }
    ensures sum { units.new.left + units.new.spent ≡ units.old.left + units.old.spent }
    ensures spends { units.new.left ≤ units.old.left }
{
    let name = copy_name(alloc, &x.text)?;
    enter(alloc, sig, x.start, fuel, raw, units)?;
    Ok(name)
}
