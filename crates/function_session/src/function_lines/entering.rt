ghost use Rattle.std.specs.Prelude.{◌≡◌, ◌≤◌, ◌+◌, IfOk, IsTrue, Some, map, true};
ghost use Rattle.clause_reports.specs.elaboration.Functions.{enter_plan as enter_plan_meant, first_domains};
ghost use Rattle.core_sig.specs.Drafts.{draft_of};
ghost use Rattle.core_terms.specs.Answers.{Gives, are_low};
ghost use Rattle.drafts.specs.draft_checks.Checks.{unmarked};
ghost use Rattle.drafts.specs.draft_entering.Conditions.{Extends, IsEnterableDraft, IsOpen};
ghost use Rattle.elab_session.specs.Sessions.{IsReady};
ghost use Rattle.function_session.specs.function_lines.Conditions.{EnterInTurn, HasEntries, IsOfFunction};
ghost use Rattle.function_session.specs.function_lines.Phases as spec;
ghost use Rattle.function_session.specs.function_lines.Opened.{checked_entered, draft_in};
ghost use Rattle.function_checks.specs.function_refusals.RefusalMeanings.{Elaborates};
ghost use Rattle.leaf_terms.specs.PlanMeanings.{plan_of};
ghost use Rattle.tree_translation.specs.Entries.{translate as translate_meant};

use crate::function_laws::report_laws::drafts_in_turn::function_enters_in_turn;
use crate::function_laws::report_laws::plan_drafts::function_entries_made;
use crate::function_laws::report_laws::plan_has_entries;
use crate::function_lines::refusing::refused;
use crate::function_lines::values::values_name;
use core_sig::{Draft, Signature};
use core_terms::{Items, Name, Stop, Units};
use drafts::draft_checks::is_unmarked;
use drafts::draft_entering::{enter_draft, enter_named};
use function_checks::function_refusals::FunctionRefusal;
use function_entries::translate;
use leaf_terms::Plan;
use std::alloc::Global;

/// Adds a draft of a function that may enter. The refusal is shown over the signature before it.
fn enter_checked(
    alloc: Global,
    sig: &mut Signature,
    function: &[u8],
    draft: &Draft,
    units: &mut Units,
) -> Result<(), FunctionRefusal>
    requires signature { IsOpen sig.old }
    requires draft { IsEnterableDraft sig.old (draft_of draft.now) }
    ensures answer { Elaborates (λ _. sig.new) result units.new.left (checked_entered sig.old function.now (draft_of draft.now) units.old.left) }
    ensures sum { units.new.left + units.new.spent ≡ units.old.left + units.old.spent }
    ensures spends { units.new.left ≤ units.old.left }
    ensures longer { Extends sig.old sig.new }
    ensures ready { IsOpen sig.new }
{
    match enter_draft(alloc, sig, draft, units) {
        Ok(_) => Ok(()),
        Err(stop) => Err(refused(alloc, sig, function, 0, stop)),
    }
}

/// Adds drafts of a function, each of which may enter once those before it have.
fn enter_drafts(
    alloc: Global,
    sig: &mut Signature,
    function: &[u8],
    drafts: &[Draft],
    units: &mut Units,
) -> Result<(), FunctionRefusal>
    requires signature { IsOpen sig.old }
    requires drafts { EnterInTurn sig.old (map draft_of drafts.now) }
    ensures answer { Elaborates (λ _. sig.new) result units.new.left (spec.drafts_entered sig.old function.now (map draft_of drafts.now) units.old.left) }
    ensures sum { units.new.left + units.new.spent ≡ units.old.left + units.old.spent }
    ensures spends { units.new.left ≤ units.old.left }
    ensures longer { Extends sig.old sig.new }
    ensures ready { IsOpen sig.new }
{
    match drafts {
        [] => Ok(()),
        [draft, rest @ ..] => {
            enter_checked(alloc, sig, function, draft, units)?;
            enter_drafts(alloc, sig, function, rest, units)
        }
    }
}

/// Adds the values that a function's equations name.
fn enter_name(
    alloc: Global,
    sig: &mut Signature,
    function: &[u8],
    values: &Name,
    units: &mut Units,
) -> Result<(), FunctionRefusal>
    requires { IsOpen sig.old }
    ensures answer { Elaborates (λ _. sig.new) result units.new.left (spec.values_entered sig.old function.now (Some values.now) units.old.left) }
    ensures sum { units.new.left + units.new.spent ≡ units.old.left + units.old.spent }
    ensures spends { units.new.left ≤ units.old.left }
    ensures longer { Extends sig.old sig.new }
    ensures ready { IsOpen sig.new }
{
    let before = sig.len();
    match enter_named(alloc, sig, values, units) {
        Ok(()) => Ok(()),
        Err(stop) => {
            sig.truncate(before);
            Err(refused(alloc, sig, function, 0, stop))
        }
    }
}

/// Adds the values that a function's equations name, where they name any.
fn enter_values(
    alloc: Global,
    sig: &mut Signature,
    function: &[u8],
    values: &Option<Name>,
    units: &mut Units,
) -> Result<(), FunctionRefusal>
    requires { IsOpen sig.old }
    ensures answer { Elaborates (λ _. sig.new) result units.new.left (spec.values_entered sig.old function.now values.now units.old.left) }
    ensures sum { units.new.left + units.new.spent ≡ units.old.left + units.old.spent }
    ensures spends { units.new.left ≤ units.old.left }
    ensures longer { Extends sig.old sig.new }
    ensures ready { IsOpen sig.new }
{
    match values {
        None => Ok(()),
        Some(values) => enter_name(alloc, sig, function, values, units),
    }
}

/// Adds the drafts of a function, and then the values that its equations name.
fn enter_all(
    alloc: Global,
    sig: &mut Signature,
    function: &[u8],
    drafts: &[Draft],
    values: &Option<Name>,
    units: &mut Units,
) -> Result<(), FunctionRefusal>
    requires signature { IsOpen sig.old }
    requires drafts { EnterInTurn sig.old (map draft_of drafts.now) }
    ensures answer { Elaborates (λ _. sig.new) result units.new.left (spec.all_entered sig.old function.now (map draft_of drafts.now) values.now units.old.left) }
    ensures sum { units.new.left + units.new.spent ≡ units.old.left + units.old.spent }
    ensures spends { units.new.left ≤ units.old.left }
    ensures longer { Extends sig.old sig.new }
    ensures ready { IsOpen sig.new }
{
    enter_drafts(alloc, sig, function, drafts, units)?;
    enter_values(alloc, sig, function, values, units)
}

/// The drafts to which a function's plan translates.
fn drafts_of(alloc: Global, sig: &Signature, plan: &Plan) -> Result<Items<Draft>, Stop>
    requires { IsOfFunction sig.now (plan_of plan.now) }
    ensures { Gives (map draft_of) result (translate_meant sig.now (plan_of plan.now)) }
{
    function_entries_made();
    translate(alloc, sig, plan)
}

/// Adds the entries of a function's plan to an open signature.
fn enter_translated(
    alloc: Global,
    sig: &mut Signature,
    plan: &Plan,
    units: &mut Units,
) -> Result<(), FunctionRefusal>
    requires signature { IsOpen sig.old }
    requires function { IsOfFunction sig.old (plan_of plan.now) }
    requires low { are_low (first_domains (plan_of plan.now).arity (plan_of plan.now).type) ≡ true }
    requires drafts { IfOk (translate_meant sig.old (plan_of plan.now)) (EnterInTurn sig.old) }
    ensures answer { Elaborates (λ _. sig.new) result units.new.left (spec.translated sig.old (plan_of plan.now) units.old.left) }
    ensures sum { units.new.left + units.new.spent ≡ units.old.left + units.old.spent }
    ensures spends { units.new.left ≤ units.old.left }
    ensures longer { Extends sig.old sig.new }
    ensures ready { IsOpen sig.new }
{
    let drafts = drafts_of(alloc, sig, plan)?;
    let values = values_name(alloc, sig, plan)?;
    let function = plan.name.as_slice();
    enter_all(alloc, sig, function, drafts.as_slice(), &values, units)
}

/// Adds the entries of a function's plan to a well-formed signature in which no name of a family or of a constructor holds a `!`.
pub(crate) fn enter_plan(
    alloc: Global,
    sig: &mut Signature,
    plan: &Plan,
    units: &mut Units,
) -> Result<(), FunctionRefusal>
    requires signature { IsReady sig.old }
    requires unmarked { unmarked sig.old ≡ true }
    requires function { IsOfFunction sig.old (plan_of plan.now) }
    ensures answer { Elaborates (λ _. sig.new) result units.new.left (enter_plan_meant sig.old (plan_of plan.now) units.old.left) }
    ensures sum { units.new.left + units.new.spent ≡ units.old.left + units.old.spent }
    ensures spends { units.new.left ≤ units.old.left }
    ensures longer { Extends sig.old sig.new }
    ensures ready { IsOpen sig.new }
    ensures entries { IfOk result (λ _. HasEntries (plan_of plan.now) sig.new) }
{
    function_enters_in_turn();
    plan_has_entries();
    enter_translated(alloc, sig, plan, units)
}

/// Whether drafts may enter a well-formed signature.
pub(crate) fn is_open(sig: &Signature) -> bool
    requires { IsReady sig.now }
    ensures is { result ≡ unmarked sig.now }
    ensures ready { IsTrue result → IsOpen sig.now }
{
    is_unmarked(sig)
}

/// Adds a draft with this name to a well-formed signature, or Deep where a name of a family or of a constructor holds a `!`.
pub(crate) fn enter_opened(
    alloc: Global,
    sig: &mut Signature,
    name: &[u8],
    draft: &Draft,
    units: &mut Units,
) -> Result<(), FunctionRefusal>
    requires ready { IsReady sig.old }
    requires draft { IsEnterableDraft sig.old (draft_of draft.now) }
    ensures answer { Elaborates (λ _. sig.new) result units.new.left (draft_in sig.old name.now (draft_of draft.now) units.old.left) }
    ensures sum { units.new.left + units.new.spent ≡ units.old.left + units.old.spent }
    ensures spends { units.new.left ≤ units.old.left }
    ensures longer { Extends sig.old sig.new }
    ensures ready { IfOk result (λ _. IsOpen sig.new) }
{
    if !is_open(sig) {
        return Err(FunctionRefusal::Stop(Stop::Deep));
    }
    enter_checked(alloc, sig, name, draft, units)
}
