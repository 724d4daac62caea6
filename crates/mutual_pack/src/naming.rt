ghost use Rattle.std.specs.Prelude.{◌≡◌, ◌∷◌, [], ◌+◌, ◌<◌, IfOk, OnErr};
ghost use Rattle.core_terms.specs.declared.stop.Stop.TheVariants.{Memory};
ghost use Rattle.core_sig.specs.Meanings.{entry_of};
ghost use Rattle.mutual_pack.specs.MutualFamilies.{packed_of};
ghost use Rattle.mutual_pack.specs.Inductions as spec;

use crate::Packed;
use crate::numbers::level_in;
use core_sig::{Entry, generated_name};
use core_terms::{Items, Name, Stop};
use std::alloc::Global;

/// The name of a definition.
pub fn name_of(entry: &Entry) -> &[u8]
    ensures { result.now ≡ spec.name_of (entry_of entry.now) }
{
    match entry {
        Entry::Def { name, .. } => name.as_slice(),
        _ => b"",
    }
}

/// `Mk!ind`.
pub fn induction_name(alloc: Global, member: &[u8]) -> Result<Name, Stop>
    ensures ok { IfOk result (λ name. name ≡ spec.induction_name member.now) }
    ensures memory { OnErr result (result ≡ Err Memory) }
{
    let mut name = member.to_vec(alloc)?;
    name.extend_from_slice(b"!ind")?;
    Ok(Name::from_vec(name))
}

/// `T!case.(l+1)`, as the only name.
pub fn analysis_names(alloc: Global, packed: &Packed) -> Result<Items<Name>, Stop>
    requires { spec.level_in (packed_of packed.now).family.type + 1 < 100 }
    ensures ok { IfOk result (λ names. names ≡ spec.analysis_name (packed_of packed.now) ∷ []) }
    ensures memory { OnErr result (result ≡ Err Memory) }
{
    let l = level_in(&packed.family.ty);
    let name = generated_name(alloc, &packed.tag.name, b"!case.", l + 1)?;
    let mut names = Items::new(alloc);
    names.push(name)?;
    Ok(names)
}
