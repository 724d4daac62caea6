ghost use Rattle.std.specs.Prelude.{◌≡◌, length, All, IfOk, OnErr, OnOk};
ghost use Rattle.surface_syntax.specs.TreeMeanings.{decl_of};
ghost use Rattle.elab_session.specs.Sessions.{IsReady};
ghost use Rattle.function_session.specs.Declaring as spec;
ghost use Rattle.function_session.specs.Meanings.{Answers};
ghost use Rattle.function_session.specs.decisions.Laws.{IsHeld};

use crate::Accepted;
use crate::decisions::{Decision, declare_decision};
use crate::elaborating::elaborate;
use crate::mutual_families::declare_mutual;
use core_sig::Signature;
use elab_session::Refusal;
use std::alloc::Global;
use surface_syntax::Decl;

/// Adds the entries of a declaration, which may spend `fuel` units, and keeps a decision of equality as one. After a refusal the
/// signature and the decisions are as they were.
pub(crate) fn declare(
    alloc: Global,
    sig: &mut Signature,
    decisions: &mut Vec<Decision>,
    fuel: u64,
    d: &Decl,
) -> Result<Accepted, Refusal>
    requires ready { IsReady sig.old }
    requires held { All (IsHeld sig.old) decisions.old.items }
    ensures answer { Answers sig.new result (spec.declared_over sig.old decisions.old.items fuel (decl_of d.now)) }
    ensures err { OnErr result (sig.new ≡ sig.old) }
    ensures forgotten { OnErr result (decisions.new.items ≡ decisions.old.items) }
    ensures kept { OnOk result (decisions.new.items ≡ spec.decisions_with sig.old decisions.old.items (decl_of d.now) sig.new) }
    ensures begins { IfOk result (λ a. a.from ≡ length sig.old.entries) }
    ensures ends { IfOk result (λ a. a.to ≡ length sig.new.entries) }
{
    match d {
        Decl::Decide {
            name,
            family,
            decision,
        } => declare_decision(alloc, sig, decisions, fuel, name, family, decision),
        Decl::Mutual { .. } => declare_mutual(alloc, sig, fuel, d),
        Decl::Def { .. } | Decl::Data { .. } | Decl::Fun { .. } => elaborate(alloc, sig, fuel, d),
    }
}
