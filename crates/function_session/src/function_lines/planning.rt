ghost use Rattle.std.specs.Prelude.{◌≡◌, ◌≤◌, ◌+◌, None, Ok, OnErr, OnOk, length, map, true};
ghost use Rattle.core_sig.specs.Names.{find};
ghost use Rattle.core_terms.specs.Answers.{Gives, are_low};
ghost use Rattle.core_terms.specs.Meanings.{tree_of};
ghost use Rattle.core_terms.specs.PatternMeanings.{clauses_of};
ghost use Rattle.clause_reports.specs.elaboration.Functions as functions;
ghost use Rattle.function_session.specs.function_lines.Conditions.{IsFunctionOver, IsWorkingOn};
ghost use Rattle.function_session.specs.function_lines.Phases.{plan_walked};
ghost use Rattle.function_checks.specs.function_refusals.RefusalMeanings.{Elaborates};
ghost use Rattle.function_checks.specs.function_walks.Conditions.{AreWalked, IsPartFor};
ghost use Rattle.function_checks.specs.function_walks.WalkingMeanings.{opened_of, session_of, walked_of};
ghost use Rattle.function_plans.specs.CodePlans.{IsOwnWalked, are_low_uses, plan_after};
ghost use Rattle.leaf_terms.specs.PlanMeanings.{plan_of};
ghost use Rattle.resolve.specs.PatternMeanings.{fun_of};
ghost use Rattle.theory.specs.WellFormed.{provisional};
ghost use Rattle.tree_translation.specs.structural_rec.Meanings.{uses_of};

use core_sig::{Entry, Signature};
use core_terms::{Items, Stop, Term, Units, copy_name, copy_whole};
use function_checks::function_clauses::{own_part, walk_clauses};
use function_checks::function_refusals::FunctionRefusal;
use function_checks::function_walks::{Opened, Session, Walked};
use function_plans::plan;
use kernel_check::Kernel;
use leaf_terms::Plan;
use resolve::FunCore;
use std::alloc::Global;
use tree_translation::structural_rec::Use;

/// Adds the function as a provisional constant, and answers its number.
fn push_function(alloc: Global, sig: &mut Signature, f: &FunCore) -> Result<u32, Stop>
    requires { find sig.old f.now.name ≡ None }
    ensures answer { Gives (λ number. number) result (Ok (length sig.old.entries)) }
    ensures ok { OnOk result (sig.new ≡ provisional sig.old f.now.name (tree_of f.now.ty)) }
    ensures err { OnErr result (sig.new ≡ sig.old) }
{
    let name = copy_name(alloc, &f.name)?;
    let ty = copy_whole(alloc, &f.ty)?;
    let body = Term::Const(sig.len());
    sig.push(Entry::Def { name, ty, body })
}

/// The plan of a function whose clauses are walked, with terms in them that are not too high.
fn plan_of_walks(
    alloc: Global,
    s: Session,
    ty: Term,
    arity: u32,
    level: u8,
    w: Walked,
    helpers: Vec<Walked>,
    uses: &Items<Use>,
    kernel: &mut Kernel<'_>,
) -> Result<Plan, FunctionRefusal>
    requires kernel { kernel.old.signature ≡ s.sig.now }
    requires own { IsOwnWalked s.sig.now (walked_of w) }
    requires helpers { AreWalked s.sig.now (map walked_of helpers.items) }
    requires low { are_low (walked_of w).part.tele ≡ true }
    requires uses { are_low_uses (uses_of uses.now) ≡ true }
    ensures answer { Elaborates plan_of result kernel.new.left (plan_after (session_of s.entry) (tree_of ty) arity level (walked_of w.entry) (map walked_of helpers.entry.items) (uses_of uses.now) kernel.old.left) }
    ensures sum { kernel.new.left + kernel.new.spent ≡ kernel.old.left + kernel.old.spent }
    ensures spends { kernel.new.left ≤ kernel.old.left }
    ensures kernel { kernel.new.signature ≡ s.entry.sig.now }
{
    plan(alloc, s, ty, arity, level, w, helpers, uses, kernel)
}

/// The plan of a function from its own part.
fn plan_from(
    alloc: Global,
    s: Session,
    f: &FunCore,
    part: Opened,
    kernel: &mut Kernel<'_>,
) -> Result<Plan, FunctionRefusal>
    requires kernel { kernel.old.signature ≡ s.sig.now }
    requires part { IsPartFor s.sig.now (opened_of part) (clauses_of f.now.clauses) }
    requires columns { length (opened_of part).terms ≡ length (opened_of part).tele }
    requires low { are_low (opened_of part).tele ≡ true }
    ensures answer { Elaborates plan_of result kernel.new.left (plan_walked (session_of s.entry) (fun_of f.now) (opened_of part) kernel.old.left) }
    ensures sum { kernel.new.left + kernel.new.spent ≡ kernel.old.left + kernel.old.spent }
    ensures spends { kernel.new.left ≤ kernel.old.left }
    ensures kernel { kernel.new.signature ≡ s.entry.sig.now }
{
    let given = walk_clauses(alloc, s, 0, &part, 0, 1, f.clauses.as_slice(), kernel)?;
    let level = part.level;
    let w = Walked {
        part,
        clauses: &f.clauses,
        walks: given.walks,
        sides: given.sides,
    };
    let ty = copy_whole(alloc, &f.ty)?;
    plan_of_walks(
        alloc,
        s,
        ty,
        f.arity,
        level,
        w,
        given.helpers.into_vec(),
        &given.uses,
        kernel,
    )
}

/// The plan of a function, where the signature has it as the provisional constant `own`.
fn plan_at(
    alloc: Global,
    sig: &Signature,
    own: u32,
    f: &FunCore,
    level: u8,
    units: &mut Units,
) -> Result<Plan, FunctionRefusal>
    requires { IsFunctionOver sig.now (fun_of f.now) }
    ensures answer { Elaborates plan_of result units.new.left (plan_walked (record { signature = sig.now; name = f.now.name; own = own }) (fun_of f.now) (functions.own_part (fun_of f.now) level) units.old.left) }
    ensures sum { units.new.left + units.new.spent ≡ units.old.left + units.old.spent }
    ensures spends { units.new.left ≤ units.old.left }
{
    let part = own_part(alloc, f, level)?;
    let s = Session {
        sig,
        name: &f.name,
        own,
    };
    let mut kernel = Kernel::new(alloc, sig, *units);
    let plan = plan_from(alloc, s, f, part, &mut kernel);
    *units = kernel.into_units();
    plan
}

/// The plan of a function. The signature has the function as a provisional constant meanwhile, and then is as it was.
pub(crate) fn plan_over(
    alloc: Global,
    sig: &mut Signature,
    f: &FunCore,
    level: u8,
    units: &mut Units,
) -> Result<Plan, FunctionRefusal>
    requires { IsWorkingOn sig.old (fun_of f.now) }
    ensures answer { Elaborates plan_of result units.new.left (functions.plan_of sig.old (fun_of f.now) level units.old.left) }
    ensures sum { units.new.left + units.new.spent ≡ units.old.left + units.old.spent }
    ensures spends { units.new.left ≤ units.old.left }
    ensures kept { sig.new ≡ sig.old }
{
    let own = push_function(alloc, sig, f)?;
    let made = plan_at(alloc, sig, own, f, level, units);
    sig.truncate(own);
    made
}
