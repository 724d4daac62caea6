ghost use Rattle.std.specs.Prelude.{◌≡◌, ◌∷◌, ◌++◌, [], Ok, IfOk, IsTrue, not};
ghost use Rattle.core_terms.specs.Answers.{Gives};
ghost use Rattle.core_sig.specs.Raw.{raw_names, raw_of};
ghost use Rattle.family_check.specs.Entering as spec;

use core_sig::{NameSet, RawFamily, Signature};
use core_terms::{Name, Stop};
use std::alloc::Global;

/// Whether the signature knows none of the names that the family brings, and none of them occurs twice.
pub(crate) fn are_new(alloc: Global, sig: &Signature, raw: &RawFamily) -> Result<bool, Stop>
    ensures { Gives (λ new. new) result (Ok (spec.are_new sig.now (raw_names (raw_of raw.now)))) }
{
    let mut before = NameSet::new(alloc);
    if !is_new(sig, &mut before, &raw.name)? {
        return Ok(false);
    }
    for con in raw.cons.as_slice() {
        if !is_new(sig, &mut before, &con.name)? {
            return Ok(false);
        }
    }
    Ok(true)
}

/// Whether the signature does not know the name, which is then added to those before it, and none of them is the same.
fn is_new(sig: &Signature, before: &mut NameSet, name: &Name) -> Result<bool, Stop>
    ensures new { Gives (λ new. new) result (Ok (not (spec.is_taken sig.now before.old name.now))) }
    ensures before { IfOk result (λ new. IsTrue new → before.new ≡ before.old ++ name.now ∷ []) }
{
    if sig.find(name.as_slice()).is_some() {
        return Ok(false);
    }
    before.insert(name)
}
