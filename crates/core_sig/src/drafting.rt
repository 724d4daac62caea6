ghost use Rattle.std.specs.Prelude.{◌≡◌, ◌<◌, IfOk, OnErr};
ghost use Rattle.core_terms.specs.Answers.{Gives};
ghost use Rattle.core_terms.specs.Meanings.{tree_of};
ghost use Rattle.core_terms.specs.declared.stop.Stop.TheVariants.{Memory};
ghost use Rattle.core_sig.specs.Drafts as spec;
ghost use Rattle.core_sig.specs.Drafts.{draft_of};

use crate::{Draft, Entry};
use core_terms::{Items, Name, Stop, Term, checked};
use std::alloc::Global;

/// The name of an entry that is generated for a family at a level: the family's name, a mark and the level.
pub fn generated_name(alloc: Global, family: &Name, mark: &[u8], m: u8) -> Result<Name, Stop>
    requires { m < 100 }
    ensures ok { IfOk result (λ name. name ≡ spec.generated_name family.now mark.now m) }
    ensures memory { OnErr result (result ≡ Err Memory) }
{
    let mut name = family.as_slice().to_vec(alloc)?;
    name.extend_from_slice(mark)?;
    if m >= 10 {
        name.push(b'0' + m / 10)?;
    }
    name.push(b'0' + m % 10)?;
    Ok(Name::from_vec(name))
}

/// A definition over `base` entries, or Deep where its type or its term is too high.
pub fn drafted(
    name: Name,
    base: u32,
    names: Items<Name>,
    ty: Term,
    body: Term,
) -> Result<Draft, Stop>
    ensures { Gives draft_of result (spec.drafted name base names (tree_of ty) (tree_of body)) }
{
    let ty = checked(ty)?;
    let body = checked(body)?;
    Ok(Draft {
        entry: Entry::Def { name, ty, body },
        base,
        names,
    })
}
