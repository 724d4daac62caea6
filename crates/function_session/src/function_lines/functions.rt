ghost use Rattle.std.specs.Prelude.{◌≡◌, ◌≤◌, ◌+◌, OnErr, true};
ghost use Rattle.drafts.specs.draft_checks.Checks.{unmarked};
ghost use Rattle.drafts.specs.draft_entering.Conditions.{Extends};
ghost use Rattle.elab_session.specs.Sessions.{IsReady};
ghost use Rattle.function_session.specs.function_lines.Conditions.{IsOfFunction, IsWorkingOn};
ghost use Rattle.function_session.specs.function_lines.Phases as spec;
ghost use Rattle.function_session.specs.function_lines.LineMeanings.{lines_of};
ghost use Rattle.function_session.specs.function_lines.Opened.{function_in, plan_in};
ghost use Rattle.function_checks.specs.function_refusals.RefusalMeanings.{Elaborates};
ghost use Rattle.leaf_terms.specs.PlanMeanings.{plan_of};
ghost use Rattle.resolve.specs.PatternMeanings.{fun_of};
ghost use Rattle.theory.specs.Signatures.{IsPrefix};

use crate::function_lines::ClauseLine;
use crate::function_lines::entering::{enter_plan, is_open};
use crate::function_lines::levels::level_of;
use crate::function_lines::planning::plan_over;
use crate::function_lines::reporting::report_parts;
use core_sig::Signature;
use core_terms::{Items, Stop, Units};
use function_checks::function_refusals::FunctionRefusal;
use leaf_terms::Plan;
use resolve::FunCore;
use std::alloc::Global;

/// Adds the entries of a function's plan, and answers the lines of its clauses, where no name of a family or of a constructor holds a `!`.
/// After an error some entries are there.
fn report_opened(
    alloc: Global,
    sig: &mut Signature,
    plan: &Plan,
    units: &mut Units,
) -> Result<Items<ClauseLine>, FunctionRefusal>
    requires signature { IsReady sig.old }
    requires unmarked { unmarked sig.old ≡ true }
    requires function { IsOfFunction sig.old (plan_of plan.now) }
    ensures answer { Elaborates (lines_of sig.new) result units.new.left (spec.plan_reported (plan_of plan.now) sig.old units.old.left) }
    ensures sum { units.new.left + units.new.spent ≡ units.old.left + units.old.spent }
    ensures spends { units.new.left ≤ units.old.left }
    ensures longer { Extends sig.old sig.new }
{
    enter_plan(alloc, sig, plan, units)?;
    report_parts(
        alloc,
        sig,
        plan,
        0,
        plan.parts.as_slice(),
        Items::new(alloc),
        units,
    )
}

/// Adds the entries of a function's plan, and answers the lines of its clauses, or Deep where a name of a family or of a constructor holds
/// a `!`. After an error some entries are there.
fn report_plan(
    alloc: Global,
    sig: &mut Signature,
    plan: &Plan,
    units: &mut Units,
) -> Result<Items<ClauseLine>, FunctionRefusal>
    requires ready { IsReady sig.old }
    requires function { IsOfFunction sig.old (plan_of plan.now) }
    ensures answer { Elaborates (lines_of sig.new) result units.new.left (plan_in (plan_of plan.now) sig.old units.old.left) }
    ensures sum { units.new.left + units.new.spent ≡ units.old.left + units.old.spent }
    ensures spends { units.new.left ≤ units.old.left }
    ensures longer { Extends sig.old sig.new }
{
    if !is_open(sig) {
        return Err(FunctionRefusal::Stop(Stop::Deep));
    }
    report_opened(alloc, sig, plan, units)
}

/// Adds the entries of a function, and answers the lines of its clauses. After an error some entries are there.
fn elaborate(
    alloc: Global,
    sig: &mut Signature,
    f: &FunCore,
    units: &mut Units,
) -> Result<Items<ClauseLine>, FunctionRefusal>
    requires { IsWorkingOn sig.old (fun_of f.now) }
    ensures answer { Elaborates (lines_of sig.new) result units.new.left (spec.function_phases sig.old (fun_of f.now) units.old.left) }
    ensures sum { units.new.left + units.new.spent ≡ units.old.left + units.old.spent }
    ensures spends { units.new.left ≤ units.old.left }
    ensures longer { Extends sig.old sig.new }
{
    let level = level_of(alloc, sig, &f.ty, units)?;
    let plan = plan_over(alloc, sig, f, level, units)?;
    report_plan(alloc, sig, &plan, units)
}

/// Adds the entries of a function by clauses: those to which its case trees are translated, and for each clause those
/// that its equation needs. The answer is the lines of the clauses, those of the function before those of its helpers.
///
/// The units are one count for all of it. After a refusal the signature is as it was, and the units that were spent stay spent.
/// Where the name of a family or of a constructor holds a `!`, a function whose plan is made is Deep.
pub(crate) fn function(
    alloc: Global,
    sig: &mut Signature,
    f: &FunCore,
    units: &mut Units,
) -> Result<Items<ClauseLine>, FunctionRefusal>
    requires { IsWorkingOn sig.old (fun_of f.now) }
    ensures answer { Elaborates (lines_of sig.new) result units.new.left (function_in sig.old (fun_of f.now) units.old.left) }
    ensures err { OnErr result (sig.new ≡ sig.old) }
    ensures sum { units.new.left + units.new.spent ≡ units.old.left + units.old.spent }
    ensures spends { units.new.left ≤ units.old.left }
    ensures longer { IsPrefix sig.old sig.new }
    ensures ready { IsReady sig.new }
{
    let before = sig.len();
    match elaborate(alloc, sig, f, units) {
        Ok(lines) => Ok(lines),
        Err(refusal) => {
            sig.truncate(before);
            Err(refusal)
        }
    }
}
