ghost use Rattle.std.specs.Prelude.{IfOk, Result, length, map};
ghost use Rattle.generators.specs.acyclic_gen.AcyclicEntries.{acyclic_draft};
ghost use Rattle.generators.specs.acyclic_gen.DirectEntries.{direct_draft};
ghost use Rattle.generators.specs.acyclic_gen.Answers.{Yields, among_stops};
ghost use Rattle.core_sig.specs.Drafts as spec;
ghost use Rattle.core_sig.specs.Drafts.{draft_of};
ghost use Rattle.core_sig.specs.FamilyShapes.{family_shape};
ghost use Rattle.core_sig.specs.ScopedDrafts.{IsScopedDraft};
ghost use Rattle.core_terms.specs.Answers.{Gives};
ghost use Rattle.core_terms.specs.declared.stop.Stop.{Stop};
ghost use Rattle.drafts.specs.draft_entering.ByNumbers.{HasNoIndices, HasPartLevel, HasRecord, IsThere, draft_meant};
ghost use Rattle.theory.specs.Families as pure;
ghost use Rattle.theory.specs.Prelude.{prelude};
ghost use Rattle.theory.specs.Signatures as signature;
ghost use Rattle.theory.specs.Signatures.{FamilyOf, IsEntryAt, IsPrefix};
ghost use Rattle.theory.specs.SignatureScopes.{IsFamilyNumber, IsScopedSignature};

use crate::draft_entering::Generated;
use case_below_gen::{all_entry, aux_entry, below_entry, case_entry, left_entry, rec_entry};
use core_sig::{Draft, Signature};
use core_terms::Stop;
use generators::acyclic_gen::{AcyclicStop, acyclic_entry, direct_entry};
use generators::noconf_gen::{nct_entry, noconf_entry};
use std::alloc::Global;

/// The answer for a family that has no indices, so that it is not refused as indexed.
fn unindexed(made: Result<Draft, AcyclicStop>) -> Result<Draft, Stop>
    ensures made { (meant : Result spec.Draft Stop) → Yields draft_of made (among_stops meant) → Gives draft_of result meant }
    ensures scoped { (T : signature.Signature) → IfOk made (λ d. IsScopedDraft T (draft_of d)) → IfOk result (λ d. IsScopedDraft T (draft_of d)) }
{
    match made {
        Ok(draft) => Ok(draft),
        Err(AcyclicStop::Stop(stop)) => Err(stop),
        Err(AcyclicStop::Indexed) => Err(Stop::Deep),
    }
}

/// `D!direct`, of a family without indices.
fn direct(alloc: Global, sig: &Signature, n: u32) -> Result<Draft, Stop>
    requires family { IsFamilyNumber sig.now n }
    requires plain { HasNoIndices sig.now n }
    requires level { HasPartLevel sig.now n }
    ensures answer { (f : pure.Family) → IsEntryAt sig.now n (FamilyOf f) → Gives draft_of result (direct_draft (length sig.now.entries) f.name n (family_shape n f)) }
    ensures scoped { IsScopedSignature sig.now → IsPrefix (prelude sig.now.has_k) sig.now → IfOk result (λ d. IsScopedDraft sig.now (draft_of d)) }
{
    unindexed(direct_entry(alloc, sig, n))
}

/// `D!acyclic`, of a family without indices.
fn acyclic(alloc: Global, sig: &Signature, n: u32) -> Result<Draft, Stop>
    requires family { IsFamilyNumber sig.now n }
    requires plain { HasNoIndices sig.now n }
    requires level { HasPartLevel sig.now n }
    ensures answer { (f : pure.Family) → IsEntryAt sig.now n (FamilyOf f) → Gives draft_of result (acyclic_draft (length sig.now.entries) f.name (map (λ c. c.name) f.constructors) n (family_shape n f)) }
    ensures scoped { IsScopedSignature sig.now → IsPrefix (prelude sig.now.has_k) sig.now → IfOk result (λ d. IsScopedDraft sig.now (draft_of d)) }
{
    unindexed(acyclic_entry(alloc, sig, n))
}

/// The draft that is generated.
pub(crate) fn generated_draft(alloc: Global, sig: &Signature, g: Generated) -> Result<Draft, Stop>
    requires { IsThere sig.now g }
    ensures answer { (f : pure.Family) → HasRecord sig.now g f → Gives draft_of result (draft_meant (length sig.now.entries) f g) }
    ensures scoped { IsScopedSignature sig.now → IsPrefix (prelude sig.now.has_k) sig.now → IfOk result (λ d. IsScopedDraft sig.now (draft_of d)) }
{
    match g {
        Generated::Case(n, m) => case_entry(alloc, sig, n, m),
        Generated::Below(n, m) => below_entry(alloc, sig, n, m),
        Generated::Aux(n, m) => aux_entry(alloc, sig, n, m),
        Generated::Rec(n, m) => rec_entry(alloc, sig, n, m),
        Generated::All(n, m) => all_entry(alloc, sig, n, m),
        Generated::ConfusionType(n, number, m) => nct_entry(alloc, sig, n, number, m),
        Generated::NoConfusion(n, number, m) => noconf_entry(alloc, sig, n, number, m),
        Generated::Direct(n) => direct(alloc, sig, n),
        Generated::Acyclic(n) => acyclic(alloc, sig, n),
        Generated::Left(i, m) => left_entry(alloc, sig, i, m),
    }
}
