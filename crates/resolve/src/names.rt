ghost use Rattle.std.specs.Prelude.{◌≡◌, [], ◌∷◌, ◌++◌, Ok, OnOk};
ghost use Rattle.resolve.specs.Answers.{Gives};
ghost use Rattle.resolve.specs.Families.{declared};

use crate::ResolveStop;
use core_sig::{NameSet, Signature};
use core_terms::{Name, copy_name};
use std::alloc::Global;
use surface_syntax::Word;

/// The name that is declared after the names `before`, where it is new.
pub(crate) fn declare(
    alloc: Global,
    sig: &Signature,
    before: &mut NameSet,
    x: &Word,
) -> Result<Name, ResolveStop>
    ensures name { Gives (λ name. name) result (declared sig.now before.old x.now) }
    ensures before { OnOk result (before.new ≡ before.old ++ x.now.text ∷ []) }
{
    if sig.find(x.text.as_slice()).is_some() || !before.insert(&x.text)? {
        return Err(ResolveStop::Duplicate(x.start, copy_name(alloc, &x.text)?));
    }
    Ok(copy_name(alloc, &x.text)?)
}
