ghost use Rattle.std.specs.Prelude.{◌≡◌, ◌≤◌, ◌+◌, Ok, length, map};
ghost use Rattle.core_terms.specs.Answers.{Gives};
ghost use Rattle.core_terms.specs.Meanings.{tele_of, tree_of};
ghost use Rattle.core_sig.specs.Shapes.{argument_shape, constructor_shape, shape_of};
ghost use Rattle.case_below_gen.specs.CourseEntries as course;
ghost use Rattle.decide_eq.specs.Comparisons.{confusions_of};
ghost use Rattle.decide_eq.specs.DecisionEntries as spec;
ghost use Rattle.decide_eq.specs.Fitting.{FitConstructors, FitsConstructor, FitsDecision, IsNearFamily, IsNearMember};

use crate::comparing::compared;
use crate::decided_family::DecidedFamily;
use crate::members::{Member, Members, different, member_at};
use crate::statements::{deciding_from, decision_of, equal, parameters_over, whole_type};
use core_sig::{Arg, ArgKind, Constructor, Family, arguments_over, recursive_count};
use core_terms::{Binder, Stop, Term, applied_to_run, variable};
use std::alloc::Global;

/// Constructor `number` at arguments whose levels begin with `start`.
fn member_of(number: u32, start: u32, con: &Constructor) -> Member
    requires number { number ≤ 2000 }
    requires start { start ≤ 20000 }
    requires few { length con.now.args ≤ 1000 }
    ensures is { result ≡ spec.member_of number start (constructor_shape con.now) }
    ensures near { IsNearMember result }
{
    Member {
        number,
        start,
        count: con.args.as_slice().len() as u32,
    }
}

/// The branch for a constructor of the other term, at a depth.
fn branch(
    alloc: Global,
    d: DecidedFamily,
    known: &[(u32, u32)],
    left: Member,
    h: u32,
    depth: u32,
    number: u32,
    con: &Constructor,
) -> Result<Term, Stop>
    requires family { IsNearFamily d }
    requires left { IsNearMember left }
    requires fits { FitsConstructor d.params (constructor_shape con.now) }
    requires number { number ≤ 2000 }
    requires h { h ≤ 10000 }
    requires depth { depth ≤ 8000 }
    ensures { Gives tree_of result (Ok (spec.branch d (confusions_of d) known.now left h depth number (constructor_shape con.now))) }
{
    let args = con.args.as_slice();
    let right = member_of(number, depth, con);
    let inside = depth + right.count;
    let m = Members { left, right };
    let end = if number == left.number {
        compared(alloc, d, known, m, 0, h, inside, con, args)
    } else {
        different(alloc, d, m, inside)
    };
    let runs = [(0, d.params), (depth, right.count)];
    arguments_over(alloc, Binder::Function, &runs, d.params, depth, args, end?)
}

/// `head` applied to the branches for the constructors from `number` on.
fn applied_to_branches(
    alloc: Global,
    d: DecidedFamily,
    known: &[(u32, u32)],
    left: Member,
    h: u32,
    depth: u32,
    number: u32,
    head: Term,
    cons: &[Constructor],
) -> Result<Term, Stop>
    requires family { IsNearFamily d }
    requires left { IsNearMember left }
    requires fit { FitConstructors d.params (map constructor_shape cons.now) }
    requires number { number + length cons.now ≤ 2000 }
    requires h { h ≤ 10000 }
    requires depth { depth ≤ 8000 }
    ensures { Gives tree_of result (Ok (course.applied_to_methods (spec.branch d (confusions_of d) known.now left h depth) number (tree_of head) (map constructor_shape cons.now))) }
{
    match cons {
        [] => Ok(head),
        [con, rest @ ..] => {
            let branch = branch(alloc, d, known, left, h, depth, number, con)?;
            let head = Term::new_app(alloc, head, branch)?;
            applied_to_branches(alloc, d, known, left, h, depth, number + 1, head, rest)
        }
    }
}

/// The motive of the case analysis of the other term, at a depth.
fn analysis_motive(alloc: Global, d: DecidedFamily, left: Member, depth: u32) -> Result<Term, Stop>
    requires left { IsNearMember left }
    requires depth { depth ≤ 100000 }
    ensures { Gives tree_of result (Ok (spec.analysis_motive d left depth)) }
{
    let inside = depth + 1;
    let ty = whole_type(alloc, d, inside)?;
    let x = member_at(alloc, d, left, inside)?;
    let claim = equal(alloc, d, ty, x, variable(inside, depth))?;
    Term::function_of(
        alloc,
        whole_type(alloc, d, depth),
        decision_of(alloc, d, claim),
    )
}

/// The case analysis of the other term, at a depth.
fn analysed(
    alloc: Global,
    d: DecidedFamily,
    known: &[(u32, u32)],
    cons: &[Constructor],
    left: Member,
    h: u32,
    depth: u32,
) -> Result<Term, Stop>
    requires family { IsNearFamily d }
    requires left { IsNearMember left }
    requires fit { FitConstructors d.params (map constructor_shape cons.now) }
    requires few { length cons.now ≤ 2000 }
    requires h { h ≤ 10000 }
    requires depth { depth ≤ 7000 }
    ensures { Gives tree_of result (Ok (spec.analysed d (confusions_of d) known.now (map constructor_shape cons.now) left h depth)) }
{
    let inside = depth + 1;
    let head = applied_to_run(alloc, Term::Const(d.analysis), inside, 0, d.params);
    let head = Term::application_of(alloc, head, analysis_motive(alloc, d, left, inside))?;
    let whole = applied_to_branches(alloc, d, known, left, h, inside, 0, head, cons);
    let body = Term::application_of(alloc, whole, Ok(variable(inside, depth)));
    Term::function_of(alloc, whole_type(alloc, d, depth), body)
}

/// Binds a hypothesis for each recursive one among arguments whose levels begin with `start` around `end`, at a depth.
fn hypotheses_over(
    alloc: Global,
    d: DecidedFamily,
    start: u32,
    depth: u32,
    args: &[Arg],
    end: Term,
) -> Result<Term, Stop>
    requires start { start + length args.now ≤ 100000 }
    requires depth { depth + length args.now ≤ 100000 }
    ensures { Gives tree_of result (Ok (spec.hypotheses_over d start depth (map argument_shape args.now) (tree_of end))) }
{
    match args {
        [] => Ok(end),
        [arg, rest @ ..] => match arg.kind {
            ArgKind::Plain => hypotheses_over(alloc, d, start + 1, depth, rest, end),
            ArgKind::Recursive(_) => {
                let end = hypotheses_over(alloc, d, start + 1, depth + 1, rest, end)?;
                let domain = deciding_from(alloc, d, variable(depth + 1, start), depth)?;
                Term::new_lam(alloc, domain, end)
            }
        },
    }
}

/// The method for a constructor of the one term, at a depth.
fn method(
    alloc: Global,
    d: DecidedFamily,
    known: &[(u32, u32)],
    cons: &[Constructor],
    depth: u32,
    number: u32,
    con: &Constructor,
) -> Result<Term, Stop>
    requires family { IsNearFamily d }
    requires fit { FitConstructors d.params (map constructor_shape cons.now) }
    requires few { length cons.now ≤ 2000 }
    requires fits { FitsConstructor d.params (constructor_shape con.now) }
    requires number { number ≤ 2000 }
    requires depth { depth ≤ 5000 }
    ensures { Gives tree_of result (Ok (spec.method d (confusions_of d) known.now (map constructor_shape cons.now) depth number (constructor_shape con.now))) }
{
    let args = con.args.as_slice();
    let left = member_of(number, depth, con);
    let inside = depth + left.count;
    let behind = inside + recursive_count(args);
    let end = analysed(alloc, d, known, cons, left, inside, behind)?;
    let end = hypotheses_over(alloc, d, depth, inside, args, end)?;
    let runs = [(0, d.params), (depth, left.count)];
    arguments_over(alloc, Binder::Function, &runs, d.params, depth, args, end)
}

/// `head` applied to the methods for the constructors from `number` on, of `all`.
fn applied_to_methods(
    alloc: Global,
    d: DecidedFamily,
    known: &[(u32, u32)],
    all: &[Constructor],
    depth: u32,
    number: u32,
    head: Term,
    cons: &[Constructor],
) -> Result<Term, Stop>
    requires family { IsNearFamily d }
    requires all_fit { FitConstructors d.params (map constructor_shape all.now) }
    requires few { length all.now ≤ 2000 }
    requires fit { FitConstructors d.params (map constructor_shape cons.now) }
    requires number { number + length cons.now ≤ 2000 }
    requires depth { depth ≤ 5000 }
    ensures { Gives tree_of result (Ok (course.applied_to_methods (spec.method d (confusions_of d) known.now (map constructor_shape all.now) depth) number (tree_of head) (map constructor_shape cons.now))) }
{
    match cons {
        [] => Ok(head),
        [con, rest @ ..] => {
            let method = method(alloc, d, known, all, depth, number, con)?;
            let head = Term::new_app(alloc, head, method)?;
            applied_to_methods(alloc, d, known, all, depth, number + 1, head, rest)
        }
    }
}

/// The motive of the elimination, at a depth.
fn decision_motive(alloc: Global, d: DecidedFamily, depth: u32) -> Result<Term, Stop>
    requires { depth ≤ 100000 }
    ensures { Gives tree_of result (Ok (spec.decision_motive d depth)) }
{
    let body = deciding_from(alloc, d, variable(depth + 2, depth), depth + 1);
    Term::function_of(alloc, whole_type(alloc, d, depth), body)
}

/// The elimination of the one term, at a depth.
fn eliminated(
    alloc: Global,
    d: DecidedFamily,
    known: &[(u32, u32)],
    cons: &[Constructor],
    depth: u32,
) -> Result<Term, Stop>
    requires family { IsNearFamily d }
    requires fit { FitConstructors d.params (map constructor_shape cons.now) }
    requires few { length cons.now ≤ 2000 }
    requires depth { depth ≤ 5000 }
    ensures { Gives tree_of result (Ok (spec.eliminated d (confusions_of d) known.now (map constructor_shape cons.now) depth)) }
{
    let head = applied_to_run(alloc, Term::Elim(d.family, d.level), depth, 0, d.params);
    let head = Term::application_of(alloc, head, decision_motive(alloc, d, depth))?;
    applied_to_methods(alloc, d, known, cons, depth, 0, head, cons)
}

/// The term of the decision.
pub fn decision_term(
    alloc: Global,
    d: DecidedFamily,
    known: &[(u32, u32)],
    f: &Family,
) -> Result<Term, Stop>
    requires family { IsNearFamily d }
    requires params { d.params ≡ length (shape_of f.now).parameters }
    requires fits { FitsDecision (shape_of f.now) }
    ensures { Gives tree_of result (Ok (spec.decision_term d (confusions_of d) known.now (shape_of f.now))) }
{
    let x = d.params + d.params;
    let whole = eliminated(alloc, d, known, f.cons.as_slice(), x + 1);
    let body = Term::application_of(alloc, whole, Ok(variable(x + 1, x)));
    let end = Term::function_of(alloc, whole_type(alloc, d, x), body)?;
    parameters_over(alloc, d, Binder::Function, f.params.as_slice(), end)
}
