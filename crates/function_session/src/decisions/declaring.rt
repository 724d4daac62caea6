ghost use Rattle.std.specs.Prelude.{◌≡◌, length, All, IfOk, OnErr, OnOk};
ghost use Rattle.elab_session.specs.Sessions.{IsReady};
ghost use Rattle.function_session.specs.decisions.Declaring as spec;
ghost use Rattle.function_session.specs.decisions.Entering.{draft_entered};
ghost use Rattle.function_session.specs.decisions.Laws.{IsHeld};
ghost use Rattle.function_session.specs.Meanings.{Answers};

use crate::Accepted;
use crate::decisions::Decision;
use crate::decisions::deciding::decidable;
use crate::decisions::entering::keep;
use crate::decisions::known::known_into;
use crate::decisions::naming::{Named, resolve_names};
use core_sig::Signature;
use core_terms::Items;
use elab_session::Refusal;
use std::alloc::Global;
use surface_syntax::Word;

/// Decides the equality of a family whose name and number are known.
fn declare_named(
    alloc: Global,
    sig: &mut Signature,
    decisions: &mut Vec<Decision>,
    fuel: u64,
    family: &Word,
    into: &Word,
    named: Named,
) -> Result<Accepted, Refusal>
    requires ready { IsReady sig.old }
    requires held { All (IsHeld sig.old) decisions.old.items }
    ensures answer { Answers sig.new result (spec.declare_named draft_entered sig.old decisions.old.items fuel family.now into.now named) }
    ensures err { OnErr result (sig.new ≡ sig.old) }
    ensures forgotten { OnErr result (decisions.new.items ≡ decisions.old.items) }
    ensures kept { OnOk result (decisions.new.items ≡ spec.kept decisions.old.items named sig.new) }
    ensures begins { IfOk result (λ a. a.from ≡ length sig.old.entries) }
    ensures ends { IfOk result (λ a. a.to ≡ length sig.new.entries) }
{
    let Ok(known) = known_into(alloc, decisions.as_slice(), named.into) else {
        return Err(Refusal::Memory);
    };
    decidable(alloc, sig, &named, family, into, &known)?;
    let from = sig.len();
    keep(alloc, sig, decisions, fuel, &named, &known)?;
    let Named { name, .. } = named;
    Ok(Accepted {
        name,
        from,
        to: sig.len(),
        lines: Items::new(alloc),
        mutual: Items::new(alloc),
    })
}

/// Adds the entries of a decision of equality, which may spend `fuel` units, and the decision to those that were accepted. After a
/// refusal both are as they were.
pub(crate) fn declare_decision(
    alloc: Global,
    sig: &mut Signature,
    decisions: &mut Vec<Decision>,
    fuel: u64,
    x: &Word,
    family: &Word,
    into: &Word,
) -> Result<Accepted, Refusal>
    requires ready { IsReady sig.old }
    requires held { All (IsHeld sig.old) decisions.old.items }
    ensures answer { Answers sig.new result (spec.declare_decision draft_entered sig.old decisions.old.items fuel x.now family.now into.now) }
    ensures err { OnErr result (sig.new ≡ sig.old) }
    ensures forgotten { OnErr result (decisions.new.items ≡ decisions.old.items) }
    ensures kept { OnOk result (decisions.new.items ≡ spec.decisions_after sig.old decisions.old.items x.now family.now into.now sig.new) }
    ensures begins { IfOk result (λ a. a.from ≡ length sig.old.entries) }
    ensures ends { IfOk result (λ a. a.to ≡ length sig.new.entries) }
{
    let named = resolve_names(alloc, sig, x, family, into)?;
    declare_named(alloc, sig, decisions, fuel, family, into, named)
}
