ghost use Rattle.std.specs.Prelude.{◌≡◌, ◌++◌, map, OnOk, OnErr};
ghost use Rattle.core_terms.specs.Meanings.{tree_of, tele_of};
ghost use Rattle.core_terms.specs.declared.stop.Stop.TheVariants.{Memory};
ghost use Rattle.core_text.specs.EntryText.{parameters_text};
ghost use Rattle.core_text.specs.ProductParts.{opened, closed};

use crate::bytes::write;
use crate::term_printer::write_term;
use core_sig::{Arg, Signature};
use core_terms::{Stop, Term};

/// Writes the types of parameters, each after a space and in parentheses.
pub(crate) fn write_parameters(
    out: &mut Vec<u8>,
    sig: &Signature,
    params: &[Term],
) -> Result<(), Stop>
    ensures ok { OnOk result (out.new.items ≡ out.old.items ++ parameters_text sig.now (tele_of params.now)) }
    ensures memory { OnErr result (result ≡ Err Memory) }
{
    for ty in params {
        write(out, b" (")?;
        write_term(out, sig, None, ty, false)?;
        write(out, b")")?;
    }
    Ok(())
}

/// Writes the products over the types of arguments or indices, up to their end.
pub(crate) fn open_products(out: &mut Vec<u8>, sig: &Signature, args: &[Arg]) -> Result<(), Stop>
    ensures ok { OnOk result (out.new.items ≡ out.old.items ++ opened sig.now (map (λ a. tree_of a.ty) args.now)) }
    ensures memory { OnErr result (result ≡ Err Memory) }
{
    for arg in args {
        write(out, b"(")?;
        write_term(out, sig, None, &arg.ty, false)?;
        write(out, b" -> ")?;
    }
    Ok(())
}

/// Writes the parentheses after the end of `count` products.
pub(crate) fn close_products(out: &mut Vec<u8>, count: usize) -> Result<(), Stop>
    ensures ok { OnOk result (out.new.items ≡ out.old.items ++ closed count) }
    ensures memory { OnErr result (result ≡ Err Memory) }
{
    for _ in 0..count {
        write(out, b")")?;
    }
    Ok(())
}
