ghost use Rattle.std.specs.Prelude.{◌≡◌, ◌++◌, cond, [], OnOk, OnErr};
ghost use Rattle.std.specs.Option.{option_copied};
ghost use Rattle.core_terms.specs.Answers.{Gives};
ghost use Rattle.core_terms.specs.Meanings.{tree_of};
ghost use Rattle.core_terms.specs.declared.stop.Stop.TheVariants.{Memory};
ghost use Rattle.core_text.specs.SymbolNames.{with_own};
ghost use Rattle.core_text.specs.TermText.{spelled, term_text};

use crate::bytes::{write, write_numbered};
use crate::names::{constructor_name_at, name_with};
use crate::symbols::{write_axiom_k, write_eliminator};
use core_sig::Signature;
use core_terms::{Items, Stop, Term};
use std::alloc::Global;

/// The core text of the term. A number that the signature lacks has an empty name.
pub fn print_term(alloc: Global, sig: &Signature, t: &Term) -> Result<Items<u8>, Stop>
    ensures { Gives (λ text. text) result (Ok (term_text sig.now (tree_of t.now))) }
{
    let mut out = Vec::new(alloc);
    write_term(&mut out, sig, None, t, false)?;
    Ok(Items::from_vec(out))
}

/// Writes the text of a term. `own` is the name that is being declared, if any is; `is_function` where the term is
/// the function of an application.
pub fn write_term(
    out: &mut Vec<u8>,
    sig: &Signature,
    own: Option<&[u8]>,
    t: &Term,
    is_function: bool,
) -> Result<(), Stop>
    ensures ok { OnOk result (out.new.items ≡ out.old.items ++ spelled (with_own sig.now (option_copied own.entry)) is_function (tree_of t.now)) }
    ensures memory { OnErr result (result ≡ Err Memory) }
{
    match t {
        Term::Var(n) => write_numbered(out, b"%", u64::from(*n)),
        Term::Sort(i) => write_numbered(out, b"Type ", u64::from(*i)),
        Term::Pi(domain, codomain) => {
            write(out, b"(")?;
            write_term(out, sig, own, domain, false)?;
            write(out, b" -> ")?;
            write_term(out, sig, own, codomain, false)?;
            write(out, b")")
        }
        Term::Lam(domain, body) => {
            write(out, b"(\\")?;
            write_term(out, sig, own, domain, false)?;
            write(out, b" . ")?;
            write_term(out, sig, own, body, false)?;
            write(out, b")")
        }
        Term::App(function, argument) => {
            write_unless(out, is_function, b"(")?;
            write_term(out, sig, own, function, true)?;
            write(out, b" ")?;
            write_term(out, sig, own, argument, false)?;
            write_unless(out, is_function, b")")
        }
        Term::Let(ty, value, rest) => {
            write(out, b"(let ")?;
            write_term(out, sig, own, ty, false)?;
            write(out, b" = ")?;
            write_term(out, sig, own, value, false)?;
            write(out, b" . ")?;
            write_term(out, sig, own, rest, false)?;
            write(out, b")")
        }
        Term::Const(at) | Term::Fam(at) => write(out, name_with(sig, own, *at)),
        Term::Con(family, con) => write(out, constructor_name_at(sig, *family, *con)),
        Term::Elim(family, level) => write_eliminator(out, name_with(sig, own, *family), *level),
        Term::AxiomK(i, level) => write_axiom_k(out, *i, *level),
    }
}

/// Writes bytes, or nothing where they are left out.
fn write_unless(out: &mut Vec<u8>, left_out: bool, bytes: &[u8]) -> Result<(), Stop>
    ensures ok { OnOk result (out.new.items ≡ out.old.items ++ cond left_out [] bytes.now) }
    ensures memory { OnErr result (result ≡ Err Memory) }
{
    if left_out {
        return Ok(());
    }
    write(out, bytes)
}
