ghost use Rattle.std.specs.Prelude.{◌≡◌, ◌<◌, ◌++◌, codes, length, map, slice_get, All, OnOk, OnErr};
ghost use Rattle.core_terms.specs.Answers.{Gives};
ghost use Rattle.core_terms.specs.Meanings.{tree_of, tele_of};
ghost use Rattle.core_terms.specs.declared.stop.Stop.TheVariants.{Memory};
ghost use Rattle.theory.specs.Signatures as pure;
ghost use Rattle.core_sig.specs.Kinds.{HasEntryKinds, HasKinds, HaveKinds};
ghost use Rattle.core_sig.specs.Meanings.{constructor_of, entry_of, family_of};
ghost use Rattle.core_text.specs.EntryText.{constructors_text, entry_line, entry_text, family_text};
ghost use Rattle.core_text.specs.RawEntries.{constructor_line, family_shown, type_shown};
ghost use Rattle.core_text.specs.Records.{end_of_constructor, type_of_constructor};
ghost use Rattle.core_text.specs.TermText.{term_text};

use crate::bytes::{write, write_numbered};
use crate::names::name_at;
use crate::spines::{write_spaced, write_variables};
use crate::telescopes::{close_products, open_products, write_parameters};
use crate::term_printer::write_term;
use core_sig::{Constructor, Entry, Family, Signature};
use core_terms::{Items, Stop, number_of};
use std::alloc::Global;

/// The line of an entry, with the line feed that ends it. Memory is also answered where a constructor has more
/// parameters or arguments than 32 bits count.
pub fn print_entry(alloc: Global, sig: &Signature, at: u32) -> Result<Items<u8>, Stop>
    requires { at < length sig.now.entries }
    ensures { (e : pure.Entry) → slice_get sig.now.entries at ≡ Some e → Gives (λ text. text) result (Ok (entry_line sig.now at e)) }
{
    let entry = sig.entry(at).unwrap();
    let mut out = Vec::new(alloc);
    write_entry(&mut out, sig, at, entry)?;
    write(&mut out, b"\n")?;
    Ok(Items::from_vec(out))
}

fn write_entry(out: &mut Vec<u8>, sig: &Signature, at: u32, entry: &Entry) -> Result<(), Stop>
    requires { HasEntryKinds at entry.now }
    ensures ok { OnOk result (out.new.items ≡ out.old.items ++ entry_text sig.now at (entry_of entry.now)) }
    ensures memory { OnErr result (result ≡ Err Memory) }
{
    match entry {
        Entry::Family(family) => write_family(out, sig, at, family),
        Entry::Elim(family, level) => {
            write(out, b"elim ")?;
            write(out, name_at(sig, *family))?;
            write_numbered(out, b" ", u64::from(*level))
        }
        Entry::AxiomK(i, level) => {
            write_numbered(out, b"axiomk ", u64::from(*i))?;
            write_numbered(out, b" ", u64::from(*level))
        }
        Entry::Def { name, ty, body } => {
            write(out, b"def ")?;
            write(out, name.as_slice())?;
            write(out, b" : ")?;
            write_term(out, sig, None, ty, false)?;
            write(out, b" = ")?;
            write_term(out, sig, None, body, false)
        }
    }
}

fn write_family(
    out: &mut Vec<u8>,
    sig: &Signature,
    number: u32,
    family: &Family,
) -> Result<(), Stop>
    requires { HasKinds number family.now }
    ensures ok { OnOk result (out.new.items ≡ out.old.items ++ family_text sig.now (family_shown number (family_of family.now))) }
    ensures memory { OnErr result (result ≡ Err Memory) }
{
    write(out, b"data ")?;
    write(out, family.name.as_slice())?;
    write_parameters(out, sig, family.params.as_slice())?;
    write(out, b" : ")?;
    write_family_type(out, sig, family)?;
    write(out, b" {")?;
    write_constructors(out, sig, number, family)?;
    write(out, b" }")
}

/// Writes the type of a family in the context of its parameters.
fn write_family_type(out: &mut Vec<u8>, sig: &Signature, family: &Family) -> Result<(), Stop>
    ensures ok { OnOk result (out.new.items ≡ out.old.items ++ term_text sig.now (type_shown (family_of family.now))) }
    ensures memory { OnErr result (result ≡ Err Memory) }
{
    let indices = family.indices.as_slice();
    open_products(out, sig, indices)?;
    write_numbered(out, b"Type ", u64::from(family.level))?;
    close_products(out, indices.len())
}

/// Writes the constructors of a family with their types.
fn write_constructors(
    out: &mut Vec<u8>,
    sig: &Signature,
    number: u32,
    family: &Family,
) -> Result<(), Stop>
    requires { HasKinds number family.now }
    ensures ok { OnOk result (out.new.items ≡ out.old.items ++ constructors_text sig.now (codes " ") (map (constructor_line number (family_of family.now)) (family_of family.now).constructors)) }
    ensures memory { OnErr result (result ≡ Err Memory) }
{
    let params = family.params.as_slice().len();
    let mut before: &[u8] = b" ";
    for con in family.cons.as_slice() {
        write(out, before)?;
        write(out, con.name.as_slice())?;
        write(out, b" : ")?;
        write_constructor_type(out, sig, number, params, con)?;
        before = b" ; ";
    }
    Ok(())
}

/// Writes the type of a constructor in the context of the parameters.
fn write_constructor_type(
    out: &mut Vec<u8>,
    sig: &Signature,
    family: u32,
    params: usize,
    con: &Constructor,
) -> Result<(), Stop>
    ensures ok { OnOk result (out.new.items ≡ out.old.items ++ term_text sig.now (type_of_constructor family params con.now)) }
    ensures memory { OnErr result (result ≡ Err Memory) }
{
    let args = con.args.as_slice();
    open_products(out, sig, args)?;
    write_target(out, sig, family, params, con)?;
    close_products(out, args.len())
}

/// Writes the end of a constructor's type: the family at its parameters and the targets.
fn write_target(
    out: &mut Vec<u8>,
    sig: &Signature,
    family: u32,
    params: usize,
    con: &Constructor,
) -> Result<(), Stop>
    ensures ok { OnOk result (out.new.items ≡ out.old.items ++ term_text sig.now (end_of_constructor family params con.now)) }
    ensures memory { OnErr result (result ≡ Err Memory) }
{
    let targets = con.targets.as_slice();
    if params == 0 && targets.is_empty() {
        return write(out, name_at(sig, family));
    }
    let from = number_of(con.args.as_slice().len())?;
    let params = number_of(params)?;
    write(out, b"(")?;
    write(out, name_at(sig, family))?;
    write_variables(out, sig, from, params)?;
    write_spaced(out, sig, targets)?;
    write(out, b")")
}
