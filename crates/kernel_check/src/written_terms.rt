//! Terms of calls that are written out, in a store, and verdicts out of one.
ghost use Rattle.std.specs.Prelude.{◌≡◌, Ok, Err, IfOk, OnErr};
ghost use Rattle.core_sig.specs.EntryIds.{Correspond};
ghost use Rattle.core_terms.specs.Answers.{Gives};
ghost use Rattle.core_terms.specs.Meanings.{verdict_of};
ghost use Rattle.core_terms.specs.declared.stop.Stop.TheVariants.{Memory};
ghost use Rattle.kernel_check.specs.Scopes.{IsWritten};
ghost use Rattle.kernel_check.specs.Verdicts.{IsLiveVerdict, verdict_in};
ghost use Rattle.term_pool.specs.Held.{Extends};

use crate::verdict::VerdictIn;
use core_sig::import_where_low;
use core_terms::{Stop, Term, Verdict};
use std::alloc::Global;
use term_pool::{TermStore, export_in};

/// The ids of the types of a context, each where the type is at most 2,000 high.
pub(crate) fn import_types<S: TermStore>(
    alloc: Global,
    store: &mut S,
    types: &[Term],
) -> Result<Vec<Option<S::Id>>, Stop>
    ensures ids { IfOk result (λ ids. Correspond (IsWritten (S.held store.new)) types.now ids.items) }
    ensures extends { Extends (S.held store.old) (S.held store.new) }
    ensures memory { OnErr result (result ≡ Err Memory) }
{
    let mut ids = Vec::new(alloc);
    for ty in types {
        let id = import_where_low(store, ty)?;
        ids.push(id)?;
    }
    Ok(ids)
}

/// A verdict, written out.
pub(crate) fn export_verdict<S: TermStore>(
    alloc: Global,
    store: &S,
    verdict: VerdictIn<S::Id>,
) -> Result<Verdict, Stop>
    requires { IsLiveVerdict (S.held store.now) verdict }
    ensures { Gives verdict_of result (Ok (verdict_in (S.held store.now).tree verdict)) }
{
    match verdict {
        VerdictIn::Yes(id) => Ok(Verdict::Yes(export_in(alloc, store, id)?)),
        VerdictIn::No(denial) => Ok(Verdict::No(denial)),
    }
}
