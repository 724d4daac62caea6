ghost use Rattle.std.specs.Prelude.{◌≡◌, ◌++◌, [], ◌∷◌, All, Ok, OnOk, OnErr};
ghost use Rattle.core_sig.specs.Drafts.{draft_of};
ghost use Rattle.core_terms.specs.Answers.{GivesUnless};
ghost use Rattle.decide_eq.specs.PlainFamilies.{plain_family};
ghost use Rattle.elab_session.specs.Refusals.{IsUnforeseen};
ghost use Rattle.elab_session.specs.Sessions.{IsReady};
ghost use Rattle.drafts.specs.draft_entering.Conditions.{IsEnterableDraft};
ghost use Rattle.function_session.specs.decisions.Entering as spec;
ghost use Rattle.function_session.specs.decisions.Known.{known_into};
ghost use Rattle.function_session.specs.decisions.Laws.{IsHeld};

use crate::decisions::Decision;
use crate::decisions::naming::Named;
use crate::function_lines::enter_opened;
use crate::refusing::refused_function;
use core_sig::{Draft, Signature};
use core_terms::{Items, Units};
use decide_eq::decision_entry;
use elab_session::{Refusal, stopped};
use std::alloc::Global;

/// Adds the draft of a decision, and the entries that it needs.
fn enter_draft(
    alloc: Global,
    sig: &mut Signature,
    fuel: u64,
    draft: &Draft,
    named: &Named,
) -> Result<(), Refusal>
    requires ready { IsReady sig.old }
    requires draft { IsEnterableDraft sig.old (draft_of draft.now) }
    ensures answer { GivesUnless IsUnforeseen (λ _. sig.new) result (spec.draft_entered sig.old fuel named.now.name (draft_of draft.now)) }
    ensures err { OnErr result (sig.new ≡ sig.old) }
{
    let before = sig.len();
    let mut units = Units {
        left: fuel,
        spent: 0,
        full: false,
    };
    match enter_opened(alloc, sig, named.name.as_slice(), draft, &mut units) {
        Ok(()) => Ok(()),
        Err(refusal) => {
            sig.truncate(before);
            Err(refused_function(alloc, fuel, refusal))
        }
    }
}

/// Adds the entries of a decision, which may spend `fuel` units. After a refusal the signature is as it was.
fn enter(
    alloc: Global,
    sig: &mut Signature,
    fuel: u64,
    named: &Named,
    known: &Items<(u32, u32)>,
) -> Result<(), Refusal>
    requires ready { IsReady sig.old }
    requires plain { plain_family sig.old named.now.family named.now.into known.now ≡ Ok tt }
    requires enterable { spec.MayEnter sig.old named.now known.now }
    ensures answer { GivesUnless IsUnforeseen (λ _. sig.new) result (spec.decision_entered spec.draft_entered sig.old fuel named.now known.now) }
    ensures err { OnErr result (sig.new ≡ sig.old) }
{
    match decision_entry(alloc, sig, &named.name, named.family, named.into, known) {
        Ok(draft) => enter_draft(alloc, sig, fuel, &draft, named),
        Err(stop) => Err(stopped(fuel, stop)),
    }
}

/// Adds the entries of a decision, and then the decision to those that were accepted; room for it is taken before the entries enter.
/// After a refusal both are as they were.
pub(crate) fn keep(
    alloc: Global,
    sig: &mut Signature,
    decisions: &mut Vec<Decision>,
    fuel: u64,
    named: &Named,
    known: &Items<(u32, u32)>,
) -> Result<(), Refusal>
    requires ready { IsReady sig.old }
    requires plain { plain_family sig.old named.now.family named.now.into known.now ≡ Ok tt }
    requires known { known.now ≡ known_into named.now.into decisions.old.items }
    requires held { All (IsHeld sig.old) decisions.old.items }
    ensures answer { GivesUnless IsUnforeseen (λ _. sig.new) result (spec.decision_entered spec.draft_entered sig.old fuel named.now known.now) }
    ensures err { OnErr result (sig.new ≡ sig.old) }
    ensures forgotten { OnErr result (decisions.new.items ≡ decisions.old.items) }
    ensures kept { OnOk result (decisions.new.items ≡ decisions.old.items ++ spec.accepted_at named.now sig.new ∷ []) }
{
    decisions.reserve(1)?;
    enter(alloc, sig, fuel, named, known)?;
    let decision = Decision {
        family: named.family,
        into: named.into,
        entry: sig.len().saturating_sub(1),
    };
    decisions.push(decision).unwrap();
    Ok(())
}
