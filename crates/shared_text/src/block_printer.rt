ghost use Rattle.std.specs.Prelude.{◌≡◌, ◌<◌, length, slice_get};
ghost use Rattle.core_terms.specs.Answers.{Gives};
ghost use Rattle.core_terms.specs.Meanings.{tree_of};
ghost use Rattle.core_sig.specs.Kinds.{HasKinds};
ghost use Rattle.core_sig.specs.Meanings.{family_of};
ghost use Rattle.theory.specs.Signatures as pure;
ghost use Rattle.shared_text.specs.BlockText.{low_block};
ghost use Rattle.core_text.specs.RawEntries.{RawDefinition, RawFamilyOf, entry_shown, family_shown};

use crate::block_writer::{definition_block, family_block};
use crate::low_terms::{is_low_definition, is_low_family};
use crate::shown::shown_family;
use core_sig::{Entry, Family, Signature};
use core_terms::{Items, Stop, Term};
use core_text::print_entry;
use std::alloc::Global;

/// The block of the family with the number.
fn block_of_family(
    alloc: Global,
    sig: &Signature,
    at: u32,
    family: &Family,
) -> Result<Items<u8>, Stop>
    requires { HasKinds at family.now }
    ensures { Gives (λ text. text) result (low_block sig.now (RawFamilyOf (family_shown at (family_of family.now)))) }
{
    let raw = shown_family(alloc, at, family)?;
    if !is_low_family(&raw) {
        return Err(Stop::Deep);
    }
    family_block(alloc, sig, &raw)
}

/// The block of a definition.
fn block_of_definition(
    alloc: Global,
    sig: &Signature,
    name: &[u8],
    ty: &Term,
    body: &Term,
) -> Result<Items<u8>, Stop>
    ensures { Gives (λ text. text) result (low_block sig.now (RawDefinition name.now (tree_of ty.now) (tree_of body.now))) }
{
    if !is_low_definition(ty, body) {
        return Err(Stop::Deep);
    }
    definition_block(alloc, sig, name, ty, body)
}

/// The block of an entry, or Deep where its line writes a term that is higher than 2,000. Memory is also answered where the terms have
/// more than 50,000,000 different parts, and where a constructor has more parameters or arguments than 32 bits count.
pub fn print_block(alloc: Global, sig: &Signature, at: u32) -> Result<Items<u8>, Stop>
    requires { at < length sig.now.entries }
    ensures { (e : pure.Entry) → slice_get sig.now.entries at ≡ Some e → Gives (λ text. text) result (low_block sig.now (entry_shown at e)) }
{
    match sig.entry(at).unwrap() {
        Entry::Family(family) => block_of_family(alloc, sig, at, family),
        Entry::Def { name, ty, body } => block_of_definition(alloc, sig, name.as_slice(), ty, body),
        Entry::Elim(_, _) | Entry::AxiomK(_, _) => print_entry(alloc, sig, at),
    }
}
