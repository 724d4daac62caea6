ghost use Rattle.std.specs.Prelude.{◌≡◌, ◌<◌, ◌≤◌, ◌+◌, IfOk, Ok, OnErr, Some, length, map, slice_get};
ghost use Rattle.clause_lines.specs.LineMeanings.{line_of};
ghost use Rattle.clause_reports.specs.Equations.{part_at};
ghost use Rattle.clause_reports.specs.Reports.{report_of, reported};
ghost use Rattle.core_terms.specs.Answers.{Gives, Unless};
ghost use Rattle.core_terms.specs.TreeMeanings.{walk_of};
ghost use Rattle.drafts.specs.draft_entering.Conditions.{Extends, IsOpen};
ghost use Rattle.drafts.specs.draft_entering.Stops as stops;
ghost use Rattle.drafts.specs.draft_entering.Stops.{Reports};
ghost use Rattle.clause_reports.specs.elaboration.Refusals as refusals;
ghost use Rattle.tree_translation.specs.Naming.{part_named};
ghost use Rattle.function_session.specs.function_laws.report_laws.Reportable.{IsReportable};
ghost use Rattle.function_session.specs.function_lines.Conditions.{AreFrom, HasEntries};
ghost use Rattle.function_session.specs.function_lines.Phases as spec;
ghost use Rattle.function_session.specs.function_lines.LineMeanings.{clause_line_of, lines_of};
ghost use Rattle.function_checks.specs.function_refusals.RefusalMeanings.{Elaborates, IsUnforeseen, refusal_of};
ghost use Rattle.leaf_terms.specs.PlanMeanings.{parts_of, plan_of};

use crate::function_laws::report_laws::report_is_made;
use crate::function_lines::ClauseLine;
use crate::function_lines::refusing::refused;
use clause_lines::{Line, report};
use core_sig::Signature;
use core_terms::{Items, Stop, Units, Walk, number_of};
use drafts::draft_entering::ReportStop;
use function_checks::function_refusals::{FunctionRefusal, owner_of};
use leaf_terms::{Part, Plan, part_name};
use std::alloc::Global;

/// The line of clause `number` of part `k`.
fn clause_line(
    alloc: Global,
    plan: &Plan,
    k: u32,
    number: u32,
    line: Line,
) -> Result<ClauseLine, Stop>
    ensures { Gives clause_line_of result (Ok (spec.clause_line (plan_of plan.now) k number (line_of line))) }
{
    let name = part_name(alloc, &plan.name, k)?;
    let owner = owner_of(alloc, name.as_slice(), number)?;
    Ok(ClauseLine {
        function: owner.function,
        clause: owner.clause,
        line,
    })
}

/// The refusal where clause `number` of part `k` has no line.
fn no_line(
    alloc: Global,
    sig: &Signature,
    plan: &Plan,
    k: u32,
    number: u32,
    stop: ReportStop,
) -> FunctionRefusal
    ensures answer { Unless (IsUnforeseen result) (refusal_of result ≡ refusals.of_report sig.now (refusals.owner_of (part_named (plan_of plan.now).name k) number) (stops.stop_of stop)) }
    ensures memory { stops.IsUnforeseen stop → IsUnforeseen result }
{
    match part_name(alloc, &plan.name, k) {
        Ok(name) => refused(alloc, sig, name.as_slice(), number, stop),
        Err(_) => FunctionRefusal::Stop(Stop::Memory),
    }
}

/// The line of clause `number` of part `k`, where its report is made as is meant.
fn report_reference(
    alloc: Global,
    sig: &mut Signature,
    plan: &Plan,
    k: u32,
    number: u32,
    walk: &Walk,
    units: &mut Units,
) -> Result<Line, ReportStop>
    requires signature { IsOpen sig.old }
    requires clause { IsReportable sig.old (plan_of plan.now) (spec.reference_of k number (walk_of walk.now)) }
    ensures answer { Reports (λ line. reported sig.new (line_of line)) result units.new.left (report_of sig.old (plan_of plan.now) (spec.reference_of k number (walk_of walk.now)) units.old.left) }
    ensures err { OnErr result (sig.new ≡ sig.old) }
    ensures sum { units.new.left + units.new.spent ≡ units.old.left + units.old.spent }
    ensures spends { units.new.left ≤ units.old.left }
    ensures longer { Extends sig.old sig.new }
    ensures ready { IsOpen sig.new }
{
    report_is_made();
    report(alloc, sig, plan, k, number, walk, units)
}

/// The line of clause `number` of part `k`. A refusal is shown over the signature before.
#[tactic(auto, unfolding(crate::specs::function_lines::Phases::clause_reported))]
fn report_clause(
    alloc: Global,
    sig: &mut Signature,
    plan: &Plan,
    k: u32,
    number: u32,
    walk: &Walk,
    units: &mut Units,
) -> Result<Line, FunctionRefusal>
    requires signature { IsOpen sig.old }
    requires entries { HasEntries (plan_of plan.now) sig.old }
    requires part { k < length (plan_of plan.now).parts }
    requires walk { slice_get (part_at (plan_of plan.now) k).walks number ≡ Some (walk_of walk.now) }
    ensures answer { Elaborates (λ line. reported sig.new (line_of line)) result units.new.left (spec.clause_reported (plan_of plan.now) k number (walk_of walk.now) sig.old units.old.left) }
    ensures sum { units.new.left + units.new.spent ≡ units.old.left + units.old.spent }
    ensures spends { units.new.left ≤ units.old.left }
    ensures longer { Extends sig.old sig.new }
    ensures ready { IsOpen sig.new }
{
    match report_reference(alloc, sig, plan, k, number, walk, units) {
        Ok(line) => Ok(line),
        Err(stop) => Err(no_line(alloc, sig, plan, k, number, stop)),
    }
}

/// Lines, followed by those of the clauses of part `k` from clause `number` on.
fn report_walks(
    alloc: Global,
    sig: &mut Signature,
    plan: &Plan,
    k: u32,
    number: u32,
    walks: &[Walk],
    mut made: Items<ClauseLine>,
    units: &mut Units,
) -> Result<Items<ClauseLine>, FunctionRefusal>
    requires signature { IsOpen sig.old }
    requires entries { HasEntries (plan_of plan.now) sig.old }
    requires part { k < length (plan_of plan.now).parts }
    requires walks { AreFrom number (map walk_of walks.now) (part_at (plan_of plan.now) k).walks }
    ensures answer { Elaborates (lines_of sig.new) result units.new.left (spec.walks_reported (plan_of plan.now) k number (map walk_of walks.now) (map clause_line_of made) sig.old units.old.left) }
    ensures sum { units.new.left + units.new.spent ≡ units.old.left + units.old.spent }
    ensures spends { units.new.left ≤ units.old.left }
    ensures longer { Extends sig.old sig.new }
    ensures ready { IsOpen sig.new }
    ensures entries { IfOk result (λ _. HasEntries (plan_of plan.now) sig.new) }
{
    match walks {
        [] => Ok(made),
        [walk, rest @ ..] => {
            let line = report_clause(alloc, sig, plan, k, number, walk, units)?;
            made.push(clause_line(alloc, plan, k, number, line)?)?;
            let next = number_of(number as usize + 1)?;
            report_walks(alloc, sig, plan, k, next, rest, made, units)
        }
    }
}

/// Lines, followed by those of the parts from part `k` on.
pub(crate) fn report_parts(
    alloc: Global,
    sig: &mut Signature,
    plan: &Plan,
    k: u32,
    parts: &[Part],
    made: Items<ClauseLine>,
    units: &mut Units,
) -> Result<Items<ClauseLine>, FunctionRefusal>
    requires signature { IsOpen sig.old }
    requires entries { HasEntries (plan_of plan.now) sig.old }
    requires parts { AreFrom k (parts_of parts.now) (plan_of plan.now).parts }
    ensures answer { Elaborates (lines_of sig.new) result units.new.left (spec.parts_reported (plan_of plan.now) k (parts_of parts.now) (map clause_line_of made) sig.old units.old.left) }
    ensures sum { units.new.left + units.new.spent ≡ units.old.left + units.old.spent }
    ensures spends { units.new.left ≤ units.old.left }
    ensures longer { Extends sig.old sig.new }
    ensures ready { IsOpen sig.new }
{
    match parts {
        [] => Ok(made),
        [part, rest @ ..] => {
            let walks = part.walks.as_slice();
            let made = report_walks(alloc, sig, plan, k, 0, walks, made, units)?;
            let next = number_of(k as usize + 1)?;
            report_parts(alloc, sig, plan, next, rest, made, units)
        }
    }
}
