ghost use Rattle.std.specs.Prelude.{◌≡◌, ◌++◌, Ok, length, OnOk, OnErr};
ghost use Rattle.core_terms.specs.Answers.{Gives};
ghost use Rattle.core_terms.specs.Meanings.{tree_of};
ghost use Rattle.core_terms.specs.declared.stop.Stop.TheVariants.{Memory};
ghost use Rattle.core_text.specs.EntryText.{entry_text};
ghost use Rattle.core_text.specs.TermText.{term_text};
ghost use Rattle.theory.specs.Signatures.{AxiomKAt, Definition, EliminatorAt};

use core_sig::Signature;
use core_terms::{Items, Stop, Term};
use core_text::{print_term, write_number};
use std::alloc::Global;

fn write_term(alloc: Global, out: &mut Vec<u8>, sig: &Signature, t: &Term) -> Result<(), Stop>
    ensures ok { OnOk result (out.new.items ≡ out.old.items ++ term_text sig.now (tree_of t.now)) }
    ensures memory { OnErr result (result ≡ Err Memory) }
{
    let text = print_term(alloc, sig, t)?;
    out.extend_from_slice(text.as_slice())?;
    Ok(())
}

/// The line of an eliminator.
pub(crate) fn eliminator_text(
    alloc: Global,
    sig: &Signature,
    fam: u32,
    m: u8,
) -> Result<Items<u8>, Stop>
    ensures { Gives (λ text. text) result (Ok (entry_text sig.now (length sig.now.entries) (EliminatorAt fam m))) }
{
    let mut out = Vec::new(alloc);
    out.extend_from_slice(b"elim ")?;
    write_term(alloc, &mut out, sig, &Term::Fam(fam))?;
    out.extend_from_slice(b" ")?;
    write_number(&mut out, u64::from(m))?;
    Ok(Items::from_vec(out))
}

/// The line of an axiom K.
pub(crate) fn axiom_k_text(alloc: Global, sig: &Signature, i: u8, m: u8) -> Result<Items<u8>, Stop>
    ensures { Gives (λ text. text) result (Ok (entry_text sig.now (length sig.now.entries) (AxiomKAt i m))) }
{
    let mut out = Vec::new(alloc);
    out.extend_from_slice(b"axiomk ")?;
    write_number(&mut out, u64::from(i))?;
    out.extend_from_slice(b" ")?;
    write_number(&mut out, u64::from(m))?;
    Ok(Items::from_vec(out))
}

/// The line of a definition.
pub(crate) fn definition_text(
    alloc: Global,
    sig: &Signature,
    name: &[u8],
    ty: &Term,
    body: &Term,
) -> Result<Items<u8>, Stop>
    ensures { Gives (λ text. text) result (Ok (entry_text sig.now (length sig.now.entries) (Definition name.now (tree_of ty.now) (tree_of body.now)))) }
{
    let mut out = Vec::new(alloc);
    out.extend_from_slice(b"def ")?;
    out.extend_from_slice(name)?;
    out.extend_from_slice(b" : ")?;
    write_term(alloc, &mut out, sig, ty)?;
    out.extend_from_slice(b" = ")?;
    write_term(alloc, &mut out, sig, body)?;
    Ok(Items::from_vec(out))
}
