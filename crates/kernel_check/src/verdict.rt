ghost use Rattle.std.specs.Prelude.{◌≡◌, ℕ, Err, IfErr, IfOk, IsTrue, Ok};
ghost use Rattle.theory.specs.Terms.{Term};
ghost use Rattle.core_terms.specs.Answers.{Gives, Spent, Unless};
ghost use Rattle.core_terms.specs.Meanings.{denial_of, reason_of};
ghost use Rattle.core_terms.specs.Verdicts.{Verdict};
ghost use Rattle.core_terms.specs.declared.stop.Stop.TheVariants.{Memory};
ghost use Rattle.term_pool.specs.Held.{Held};
ghost use Rattle.store_reduce.specs.Runs.{RunsIn};
ghost use Rattle.kernel_check.specs.Checking as checking;
ghost use Rattle.kernel_check.specs.Scopes.{IsLive, scope_in};
ghost use Rattle.kernel_check.specs.Verdicts.{IsLiveReason, IsLiveVerdict, reason_in, verdict_in};

use crate::scope::{Scope, export_scope};
use core_terms::{Denial, Items, Reason, Stop};
use std::alloc::Global;
use term_pool::{TermStore, export_in};

/// A checker's verdict on a term in a store: the id of its type, or a denial, whose terms are written out.
#[derive(Drop)]
pub enum VerdictIn<I> {
    Yes(I),
    No(Denial),
}

/// A reason, with ids for terms.
pub(crate) enum ReasonIn<I> {
    Mismatch { found: I, wanted: I },
    NotAProduct { found: I },
    NotASort { found: I },
    NoSuchInstance,
    LevelTooHigh,
}

fn export_reason<S: TermStore>(
    alloc: Global,
    store: &S,
    reason: ReasonIn<S::Id>,
) -> Result<Reason, Stop>
    requires { IsLiveReason (S.held store.now) reason }
    ensures { Gives reason_of result (Ok (reason_in (S.held store.now).tree reason)) }
{
    match reason {
        ReasonIn::Mismatch { found, wanted } => {
            let found = export_in(alloc, store, found)?;
            let wanted = export_in(alloc, store, wanted)?;
            Ok(Reason::Mismatch { found, wanted })
        }
        ReasonIn::NotAProduct { found } => Ok(Reason::NotAProduct {
            found: export_in(alloc, store, found)?,
        }),
        ReasonIn::NotASort { found } => Ok(Reason::NotASort {
            found: export_in(alloc, store, found)?,
        }),
        ReasonIn::NoSuchInstance => Ok(Reason::NoSuchInstance),
        ReasonIn::LevelTooHigh => Ok(Reason::LevelTooHigh),
    }
}

/// The term itself is rejected.
pub(crate) fn deny<S: TermStore>(
    alloc: Global,
    store: &S,
    scope: &Scope<S::Id>,
    reason: ReasonIn<S::Id>,
) -> Result<VerdictIn<S::Id>, Stop>
    requires context { IsLive (S.held store.now) scope.now }
    requires reason { IsLiveReason (S.held store.now) reason }
    ensures answer { Gives (verdict_in (S.held store.now).tree) result (checking.denied (scope_in (S.held store.now).tree scope.now) (reason_in (S.held store.now).tree reason)) }
    ensures live { IfOk result (IsLiveVerdict (S.held store.now)) }
{
    let reason = export_reason(alloc, store, reason)?;
    let ctx = export_scope(alloc, store, scope)?;
    Ok(VerdictIn::No(Denial {
        place: Items::new(alloc),
        ctx,
        reason,
    }))
}

/// The verdict on child number `child`: a denial has its place after that number.
pub(crate) fn behind_in<I>(
    child: u8,
    given: Result<VerdictIn<I>, Stop>,
) -> Result<VerdictIn<I>, Stop>
    ensures answer { (tree : I → Term) (left : ℕ) (meant : Spent Verdict) → RunsIn (verdict_in tree) given left meant → RunsIn (verdict_in tree) result left (checking.behind child meant) }
    ensures live { (held : Held I) → IfOk given (IsLiveVerdict held) → IfOk result (IsLiveVerdict held) }
    ensures refused { IfErr result (λ e. Unless (e ≡ Memory) (given ≡ Err e)) }
{
    behind(child, given?)
}

fn behind<I>(child: u8, verdict: VerdictIn<I>) -> Result<VerdictIn<I>, Stop>
    ensures answer { (tree : I → Term) → Gives (verdict_in tree) result (Ok (checking.verdict_behind child (verdict_in tree verdict))) }
    ensures live { (held : Held I) → IsLiveVerdict held verdict → IfOk result (IsLiveVerdict held) }
{
    match verdict {
        VerdictIn::Yes(ty) => Ok(VerdictIn::Yes(ty)),
        VerdictIn::No(denial) => Ok(VerdictIn::No(denial_behind(child, denial)?)),
    }
}

fn denial_behind(child: u8, denial: Denial) -> Result<Denial, Stop>
    ensures { Gives denial_of result (Ok (checking.denial_behind child (denial_of denial))) }
{
    let Denial { place, ctx, reason } = denial;
    let mut place = place.into_vec();
    place.insert(0, child)?;
    Ok(Denial {
        place: Items::from_vec(place),
        ctx,
        reason,
    })
}
