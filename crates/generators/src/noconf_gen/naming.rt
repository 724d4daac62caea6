ghost use Rattle.std.specs.Prelude.{◌≡◌, ◌<◌, IfOk, OnErr};
ghost use Rattle.core_terms.specs.declared.stop.Stop.TheVariants.{Memory};
ghost use Rattle.core_sig.specs.Drafts.{generated_name};
ghost use Rattle.generators.specs.noconf_gen.NoConfusionTypes.{constructor_mark};

use core_sig::{Constructor, Family, generated_name};
use core_terms::{Name, Stop};
use std::alloc::Global;

/// The name of an entry that is generated for a constructor at a level: the family's name, a mark, the constructor's name and the
/// level.
pub fn constructor_entry_name(
    alloc: Global,
    f: &Family,
    mark: &[u8],
    con: &Constructor,
    m: u8,
) -> Result<Name, Stop>
    requires { m < 100 }
    ensures ok { IfOk result (λ name. name ≡ generated_name f.now.name (constructor_mark mark.now con.now.name) m) }
    ensures memory { OnErr result (result ≡ Err Memory) }
{
    let mut whole = mark.to_vec(alloc)?;
    whole.extend_from_slice(con.name.as_slice())?;
    whole.push(b'.')?;
    generated_name(alloc, &f.name, whole.as_slice(), m)
}
