ghost use Rattle.std.specs.Prelude.{◌≡◌, ◌<◌, All, IfOk, Ok, length, map};
ghost use Rattle.theory.specs.Families as pure;
ghost use Rattle.theory.specs.Prelude.{prelude};
ghost use Rattle.theory.specs.Signatures.{FamilyOf, IsEntryAt, IsPrefix, Signature};
ghost use Rattle.theory.specs.SignatureScopes.{IsScopedSignature};
ghost use Rattle.core_terms.specs.Answers.{Gives};
ghost use Rattle.core_sig.specs.Drafts.{draft_of};
ghost use Rattle.core_sig.specs.ScopedDrafts.{IsScopedDraft};
ghost use Rattle.core_sig.specs.Shapes.{shape_of};
ghost use Rattle.decide_eq.specs.DecisionEntries as spec;
ghost use Rattle.decide_eq.specs.PlainFamilies.{IsDecided, plain_family};

use crate::decided_family::decided_family;
use crate::fitting::fits_decision;
use crate::methods::decision_term;
use crate::naming::names_for;
use crate::statements::decision_type;
use core_sig::{Draft, Family, Signature, drafted};
use core_terms::{Items, Name, Stop, copy_name, number_of};
use kernel_reduce::family;
use std::alloc::Global;

/// The entry with the name that decides equality of family number `fam` into family number `dec`, where that of the `known` families is
/// decided by their entries. Deep where its type or its term is too high.
///
/// For n constructors without arguments its size grows as n^2: each is compared with each.
pub fn decision_entry(
    alloc: Global,
    sig: &Signature,
    name: &Name,
    fam: u32,
    dec: u32,
    known: &Items<(u32, u32)>,
) -> Result<Draft, Stop>
    requires { plain_family sig.now fam dec known.now ≡ Ok tt }
    ensures answer { (f : pure.Family) → IsEntryAt sig.now fam (FamilyOf f) → Gives draft_of result (spec.decision_entry (length sig.now.entries) name.now fam f dec known.now) }
    ensures scoped { (T : Signature) → IsScopedSignature sig.now → IsPrefix (prelude sig.now.has_k) sig.now → All (IsDecided sig.now) known.now → IsPrefix sig.now T → IfOk result (λ d. IsScopedDraft T (draft_of d)) }
{
    match family(sig, fam) {
        Some(f) => decision_of_family(alloc, sig.len(), name, fam, f, dec, known.as_slice()),
        None => unreachable!(),
    }
}

fn decision_of_family(
    alloc: Global,
    base: u32,
    name: &Name,
    fam: u32,
    f: &Family,
    dec: u32,
    known: &[(u32, u32)],
) -> Result<Draft, Stop>
    requires { f.now.level < 100 }
    ensures { Gives draft_of result (spec.decision_of_shape base name.now f.now.name (map (λ c. c.name) f.now.cons) fam (shape_of f.now) dec known.now) }
{
    if !fits_decision(f) {
        return Err(Stop::Deep);
    }
    // the constants after the first one, for each of at most 2,000 constructors
    number_of(base as usize + 2001)?;
    let name = copy_name(alloc, name)?;
    let names = names_for(alloc, f)?;
    let d = decided_family(base, fam, f, dec);
    let ty = decision_type(alloc, d, f.params.as_slice())?;
    let body = decision_term(alloc, d, known, f)?;
    drafted(name, base, names, ty, body)
}
