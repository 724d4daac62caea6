ghost use Rattle.std.specs.Prelude.{◌≡◌, ◌++◌, [], Ok, OnOk, OnErr};
ghost use Rattle.std.specs.Option.{option_copied};
ghost use Rattle.core_terms.specs.Answers.{Gives};
ghost use Rattle.core_terms.specs.Meanings.{tele_of, reason_of};
ghost use Rattle.core_terms.specs.declared.stop.Stop.TheVariants.{Memory};
ghost use Rattle.core_text.specs.ContextText as spec;
ghost use Rattle.core_text.specs.SymbolNames.{with_own};
ghost use Rattle.core_text.specs.TermText.{spaced};

use crate::bytes::write;
use crate::spines::write_spaced;
use crate::term_printer::write_term;
use core_sig::Signature;
use core_terms::{Items, Reason, Stop, Term};
use std::alloc::Global;

/// Writes types, each but the first one after a comma.
fn write_types(
    out: &mut Vec<u8>,
    sig: &Signature,
    own: Option<&[u8]>,
    types: &[Term],
) -> Result<(), Stop>
    ensures ok { OnOk result (out.new.items ≡ out.old.items ++ spec.types_text (with_own sig.now (option_copied own.entry)) [] (tele_of types.now)) }
    ensures memory { OnErr result (result ≡ Err Memory) }
{
    let mut before: &[u8] = b"";
    for t in types {
        write(out, before)?;
        write_term(out, sig, own, t, false)?;
        before = b", ";
    }
    Ok(())
}

/// The text of a context.
pub fn context_text(alloc: Global, sig: &Signature, types: &[Term]) -> Result<Items<u8>, Stop>
    ensures { Gives (λ text. text) result (Ok (spec.context_text sig.now (tele_of types.now))) }
{
    context_text_with(alloc, sig, None, types)
}

/// The text of a context where something with the name `own`, which has the next number, is being declared.
pub fn context_text_with(
    alloc: Global,
    sig: &Signature,
    own: Option<&[u8]>,
    types: &[Term],
) -> Result<Items<u8>, Stop>
    ensures { Gives (λ text. text) result (Ok (spec.context_text (with_own sig.now (option_copied own.entry)) (tele_of types.now))) }
{
    let mut out = Vec::new(alloc);
    write(&mut out, b"[")?;
    write_types(&mut out, sig, own, types)?;
    write(&mut out, b"]")?;
    Ok(Items::from_vec(out))
}

/// Writes a reason.
fn write_reason(
    out: &mut Vec<u8>,
    sig: &Signature,
    own: Option<&[u8]>,
    reason: &Reason,
) -> Result<(), Stop>
    ensures ok { OnOk result (out.new.items ≡ out.old.items ++ spec.reason_text (with_own sig.now (option_copied own.entry)) (reason_of reason.now)) }
    ensures memory { OnErr result (result ≡ Err Memory) }
{
    match reason {
        Reason::Mismatch { found, wanted } => {
            write(out, b"found ")?;
            write_term(out, sig, own, found, false)?;
            write(out, b" wanted ")?;
            write_term(out, sig, own, wanted, false)
        }
        Reason::NotAProduct { found } => {
            write(out, b"NotAProduct ")?;
            write_term(out, sig, own, found, false)
        }
        Reason::NotASort { found } => {
            write(out, b"NotASort ")?;
            write_term(out, sig, own, found, false)
        }
        Reason::NoSuchInstance => write(out, b"NoSuchInstance"),
        Reason::LevelTooHigh => write(out, b"LevelTooHigh"),
    }
}

/// The text of a reason of the checker.
pub fn reason_text(alloc: Global, sig: &Signature, reason: &Reason) -> Result<Items<u8>, Stop>
    ensures { Gives (λ text. text) result (Ok (spec.reason_text sig.now (reason_of reason.now))) }
{
    reason_text_with(alloc, sig, None, reason)
}

/// The text of a reason where something with the name `own`, which has the next number, is being declared.
pub fn reason_text_with(
    alloc: Global,
    sig: &Signature,
    own: Option<&[u8]>,
    reason: &Reason,
) -> Result<Items<u8>, Stop>
    ensures { Gives (λ text. text) result (Ok (spec.reason_text (with_own sig.now (option_copied own.entry)) (reason_of reason.now))) }
{
    let mut out = Vec::new(alloc);
    write_reason(&mut out, sig, own, reason)?;
    Ok(Items::from_vec(out))
}

/// The text of terms, each after a space.
pub fn spaced_text(alloc: Global, sig: &Signature, terms: &[Term]) -> Result<Items<u8>, Stop>
    ensures { Gives (λ text. text) result (Ok (spaced sig.now (tele_of terms.now))) }
{
    let mut out = Vec::new(alloc);
    write_spaced(&mut out, sig, terms)?;
    Ok(Items::from_vec(out))
}
