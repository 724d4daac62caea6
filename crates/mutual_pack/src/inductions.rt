ghost use Rattle.std.specs.Prelude.{◌≡◌, All, IfOk, ◌≤◌, ◌<◌, ◌+◌, Ok, length, map};
ghost use Rattle.theory.specs.Families as pure;
ghost use Rattle.theory.specs.Signatures.{FamilyOf, IsEntryAt, IsPrefix, Signature};
ghost use Rattle.theory.specs.SignatureScopes.{IsFamilyNumber, IsScopedSignature};
ghost use Rattle.theory.specs.Terms.{top};
ghost use Rattle.core_terms.specs.Answers.{Gives};
ghost use Rattle.core_terms.specs.Meanings.{tree_of};
ghost use Rattle.core_sig.specs.Drafts.{draft_of};
ghost use Rattle.core_sig.specs.Meanings.{entry_of};
ghost use Rattle.core_sig.specs.ScopedDrafts.{IsScopedDraft};
ghost use Rattle.core_sig.specs.Shapes.{shape_of};
ghost use Rattle.mutual_pack.specs.MutualFamilies.{packed_of};
ghost use Rattle.mutual_pack.specs.Fitting.{HasFewParts, IsNear};
ghost use Rattle.mutual_pack.specs.Inductions as spec;
ghost use Rattle.mutual_pack.specs.Inductions.{packed_number};
ghost use Rattle.mutual_pack.specs.PackedEntries.{HasPacked};

use crate::Packed;
use crate::fitting::fits_induction;
use crate::hypotheses::{member_type, motive};
use crate::naming::{analysis_names, induction_name, name_of};
use crate::numbers::{packed_family, packed_numbers};
use crate::packed_family::PackedFamily;
use crate::selecting::eliminated;
use crate::telescopes::{induction_size, induction_telescope};
use core_sig::{Draft, Entry, Family, Signature, drafted};
use core_terms::{Items, Stop, Term, functions, number_of, products, variable};
use std::alloc::Global;

/// The type of the induction for member k.
fn induction_type(
    alloc: Global,
    q: PackedFamily,
    owners: &[u32],
    f: &Family,
    k: u32,
) -> Result<Term, Stop>
    requires near { IsNear q }
    requires few { HasFewParts (shape_of f.now) }
    requires member { k < 2000 }
    ensures { Gives tree_of result (Ok (spec.induction_type q owners.now (shape_of f.now) k)) }
{
    let x = induction_size(q);
    let end = Term::new_app(alloc, motive(q, k, x + 1), variable(x + 1, x));
    let end = Term::product_of(alloc, member_type(alloc, q, k, x), end)?;
    let tele = induction_telescope(alloc, q, owners, f)?.into_vec();
    products(alloc, tele, end)
}

/// The term of the induction for member k, where `T!case.(l+1)` is the constant `analysis`.
fn induction_term(
    alloc: Global,
    q: PackedFamily,
    owners: &[u32],
    f: &Family,
    analysis: u32,
    k: u32,
) -> Result<Term, Stop>
    requires near { IsNear q }
    requires few { HasFewParts (shape_of f.now) }
    requires member { k < 2000 }
    ensures { Gives tree_of result (Ok (spec.induction_term q owners.now (shape_of f.now) analysis k)) }
{
    let x = induction_size(q);
    let head = eliminated(alloc, q, analysis, x + 1);
    let head = Term::application_of(alloc, head, Ok(Term::Con(q.tag, k)));
    let body = Term::application_of(alloc, head, Ok(variable(x + 1, x)));
    let end = Term::function_of(alloc, member_type(alloc, q, k, x), body)?;
    let tele = induction_telescope(alloc, q, owners, f)?.into_vec();
    functions(alloc, tele, end)
}

/// The entry for member k with the name, where the packed family has these numbers.
fn induction_of(
    alloc: Global,
    base: u32,
    packed: &Packed,
    f: &Family,
    q: PackedFamily,
    k: u32,
    name: &[u8],
) -> Result<Draft, Stop>
    requires near { IsNear q }
    requires numbers { q ≡ spec.packed_numbers (packed_of packed.now) (shape_of f.now) }
    requires few { HasFewParts (shape_of f.now) }
    requires level { spec.level_in (packed_of packed.now).family.type + 1 < 100 }
    requires member { k < 2000 }
    ensures { Gives draft_of result (spec.induction_entry base (packed_of packed.now) (shape_of f.now) k name.now) }
{
    let owners = packed.owners.as_slice();
    let ty = induction_type(alloc, q, owners, f, k)?;
    let body = induction_term(alloc, q, owners, f, base, k)?;
    let name = induction_name(alloc, name)?;
    let names = analysis_names(alloc, packed)?;
    drafted(name, base, names, ty, body)
}

/// The entry for member k, or Deep where it is too high.
fn induction_entry(
    alloc: Global,
    base: u32,
    packed: &Packed,
    f: &Family,
    k: u32,
    name: &[u8],
) -> Result<Draft, Stop>
    requires level { spec.level_in (packed_of packed.now).family.type + 1 < 100 }
    requires member { k < length packed.now.members }
    ensures { Gives draft_of result (spec.induction_entry base (packed_of packed.now) (shape_of f.now) k name.now) }
{
    if !fits_induction(packed, f) {
        return Err(Stop::Deep);
    }
    let q = packed_numbers(packed, f)?;
    induction_of(alloc, base, packed, f, q, k, name)
}

/// The entries for the members from k on, after those that are made.
#[tactic(auto, using(crate::proofs::Entries::following))]
fn induction_entries_from(
    alloc: Global,
    base: u32,
    packed: &Packed,
    f: &Family,
    k: u32,
    members: &[Entry],
    mut made: Items<Draft>,
) -> Result<Items<Draft>, Stop>
    requires level { spec.level_in (packed_of packed.now).family.type + 1 < 100 }
    requires members { k + length members.now ≤ length packed.now.members }
    requires number { k + length members.now < 4294967296 }
    ensures { Gives (map draft_of) result (spec.after (map draft_of made) (spec.induction_entries_from base (packed_of packed.now) (shape_of f.now) k (map entry_of members.now))) }
{
    match members {
        [] => Ok(made),
        [member, rest @ ..] => {
            made.push(induction_entry(alloc, base, packed, f, k, name_of(member))?)?;
            induction_entries_from(alloc, base, packed, f, k + 1, rest, made)
        }
    }
}

/// The entries, where the packed family is family `f` of the signature.
#[tactic(auto, using(crate::proofs::Entries::following))]
fn induction_entries_of(
    alloc: Global,
    base: u32,
    packed: &Packed,
    f: &Family,
) -> Result<Items<Draft>, Stop>
    requires level { spec.level_in (packed_of packed.now).family.type + 1 < 100 }
    ensures { Gives (map draft_of) result (spec.induction_entries_of_shape base (packed_of packed.now) (shape_of f.now)) }
{
    let members = packed.members.as_slice();
    number_of(members.len())?;
    induction_entries_from(alloc, base, packed, f, 0, members, Items::new(alloc))
}

/// The entries `Mk!ind` of the members of a packed family, where what is packed is in the signature. Each mentions `T!case.(l+1)`. Deep
/// where a type or a term of theirs is too high.
pub fn induction_entries(
    alloc: Global,
    sig: &Signature,
    packed: &Packed,
) -> Result<Items<Draft>, Stop>
    requires family { IsFamilyNumber sig.now (packed_number (packed_of packed.now)) }
    requires level { spec.level_in (packed_of packed.now).family.type + 2 ≤ top }
    ensures answer { (f : pure.Family) → IsEntryAt sig.now (packed_number (packed_of packed.now)) (FamilyOf f) → Gives (map draft_of) result (spec.induction_entries (length sig.now.entries) (packed_of packed.now) f) }
    ensures scoped { (T : Signature) → IsScopedSignature sig.now → HasPacked sig.now (packed_of packed.now) → IsPrefix sig.now T → IfOk result (λ drafts. All (IsScopedDraft T) (map draft_of drafts)) }
{
    let f = packed_family(sig, packed)?;
    induction_entries_of(alloc, sig.len(), packed, f)
}
