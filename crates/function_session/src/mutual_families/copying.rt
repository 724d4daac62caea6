//! Copies of what is packed, which enter.
ghost use Rattle.std.specs.Prelude.{map, Ok};
ghost use Rattle.core_terms.specs.Answers.{Gives};
ghost use Rattle.core_sig.specs.Raw.{raw_constructor_of, raw_of};

use core_sig::{RawCon, RawFamily};
use core_terms::{Items, Stop, copy_name, copy_tele, copy_whole};
use std::alloc::Global;

fn copy_constructors(alloc: Global, cons: &[RawCon]) -> Result<Items<RawCon>, Stop>
    ensures { Gives (map raw_constructor_of) result (Ok (map raw_constructor_of cons.now)) }
{
    let mut copies = Items::new(alloc);
    for con in cons {
        let name = copy_name(alloc, &con.name)?;
        let ty = copy_whole(alloc, &con.ty)?;
        copies.push(RawCon { name, ty })?;
    }
    Ok(copies)
}

/// A copy of a family as it is declared.
pub(crate) fn copy_raw(alloc: Global, raw: &RawFamily) -> Result<RawFamily, Stop>
    ensures { Gives raw_of result (Ok (raw_of raw.now)) }
{
    let name = copy_name(alloc, &raw.name)?;
    let params = copy_tele(alloc, raw.params.as_slice())?;
    let ty = copy_whole(alloc, &raw.ty)?;
    let cons = copy_constructors(alloc, raw.cons.as_slice())?;
    Ok(RawFamily {
        name,
        params,
        ty,
        cons,
    })
}
