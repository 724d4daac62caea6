ghost use Rattle.std.specs.Prelude.{◌≡◌, ◌++◌, ◌+◌, ◌<◌, ◌^◌, map, OnOk, OnErr};
ghost use Rattle.core_terms.specs.Meanings.{tele_of};
ghost use Rattle.core_terms.specs.declared.stop.Stop.TheVariants.{Memory};
ghost use Rattle.theory.specs.Telescopes.{variables, weaken_by};
ghost use Rattle.core_text.specs.TermText.{spaced};

use crate::bytes::{write, write_numbered};
use crate::term_printer::write_term;
use core_sig::Signature;
use core_terms::{Stop, Term};

/// Writes terms, each after a space.
pub(crate) fn write_spaced(out: &mut Vec<u8>, sig: &Signature, terms: &[Term]) -> Result<(), Stop>
    ensures ok { OnOk result (out.new.items ≡ out.old.items ++ spaced sig.now (tele_of terms.now)) }
    ensures memory { OnErr result (result ≡ Err Memory) }
{
    for t in terms {
        write(out, b" ")?;
        write_term(out, sig, None, t, false)?;
    }
    Ok(())
}

/// Writes `count` variables, the last of which is numbered `from`, each after a space.
pub(crate) fn write_variables(
    out: &mut Vec<u8>,
    sig: &Signature,
    from: u32,
    count: u32,
) -> Result<(), Stop>
    ensures ok { OnOk result (out.new.items ≡ out.old.items ++ spaced sig.now (map (weaken_by from) (variables count))) }
    ensures memory { OnErr result (result ≡ Err Memory) }
{
    for at in (0..count).rev() {
        write_numbered(out, b" %", u64::from(at) + u64::from(from))?;
    }
    Ok(())
}
