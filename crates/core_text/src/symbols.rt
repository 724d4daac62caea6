ghost use Rattle.std.specs.Prelude.{◌≡◌, ◌++◌, OnOk, OnErr};
ghost use Rattle.core_terms.specs.declared.stop.Stop.TheVariants.{Memory};
ghost use Rattle.core_text.specs.SymbolNames.{axiom_k_name, eliminator_name};

use crate::bytes::{write, write_numbered};
use core_terms::Stop;

/// Writes the eliminator into the sort with the level, of the family with the name.
pub(crate) fn write_eliminator(out: &mut Vec<u8>, family: &[u8], level: u8) -> Result<(), Stop>
    ensures ok { OnOk result (out.new.items ≡ out.old.items ++ eliminator_name family.now level) }
    ensures memory { OnErr result (result ≡ Err Memory) }
{
    write(out, family)?;
    write_numbered(out, b"!elim.", u64::from(level))
}

/// Writes K of the identity family with number `i`, into the sort with the level.
pub(crate) fn write_axiom_k(out: &mut Vec<u8>, i: u8, level: u8) -> Result<(), Stop>
    ensures ok { OnOk result (out.new.items ≡ out.old.items ++ axiom_k_name i level) }
    ensures memory { OnErr result (result ≡ Err Memory) }
{
    write_numbered(out, b"Eq.", u64::from(i))?;
    write_numbered(out, b"!k.", u64::from(level))
}
