ghost use Rattle.std.specs.Prelude.{◌≡◌, ◌≤◌, ◌+◌, IfOk, OnErr, Err, length, map};
ghost use Rattle.core_terms.specs.Clauses as clause;
ghost use Rattle.core_terms.specs.Meanings.{tree_of};
ghost use Rattle.core_terms.specs.PatternMeanings.{clause_of, clauses_of, right_of};
ghost use Rattle.core_terms.specs.TreeMeanings.{walk_of};
ghost use Rattle.clause_reports.specs.elaboration.Walking as spec;
ghost use Rattle.core_terms.specs.declared.stop.Stop.TheVariants.{Memory};
ghost use Rattle.function_checks.specs.function_clauses.CodeClauses as code;
ghost use Rattle.function_checks.specs.function_clauses.Conditions.{IsRightSide, IsWalkOver};
ghost use Rattle.function_checks.specs.function_clauses.ScrutineeMeanings.{scrutinee_of};
ghost use Rattle.function_checks.specs.function_refusals.RefusalMeanings.{Elaborates};
ghost use Rattle.function_checks.specs.function_walks.Conditions.{AreWalked, IsPart, IsPartFor};
ghost use Rattle.function_checks.specs.function_walks.WalkingMeanings.{given_of, opened_of, session_of, walked_of};
ghost use Rattle.resolve.specs.Scoping.{AreClauses, IsClause};
ghost use Rattle.theory.specs.SignatureScopes.{HasEntries};
ghost use Rattle.function_checks.specs.walk_checks.CheckMeanings.{site_of};

use crate::function_clauses::giving::{absurd_given, joined, nothing, with_given};
use crate::function_clauses::parts::Scrutinee;
use crate::function_clauses::scrutinees::scrutinised;
use crate::function_clauses::sides::side_walked;
use crate::function_clauses::single::clause_walked;
use crate::function_refusals::FunctionRefusal;
use crate::function_walks::{Given, Opened, Session};
use crate::walk_checks::Site;
use core_terms::{Clause, Items, Right, Stop, Term, Walk, next as next_number, number_of, sum};
use kernel_check::Kernel;
use leaf_terms::part_name;
use std::alloc::Global;

/// The number of the next helper after the results of a clause.
fn helper_after(next: u32, given: &Given) -> Result<u32, Stop>
    ensures ok { IfOk result (λ n. n ≡ next + length (given_of given.now).helpers) }
    ensures memory { OnErr result (result ≡ Err Memory) }
{
    let count = number_of(given.helpers.as_slice().len())?;
    sum(next, count)
}

/// Clause `number` of part `k`, where `next` is the number of the next helper: its own walk, its dots, and its right
/// side or its scrutinee.
#[cycle(walks)]
fn walk_clause<'a>(
    alloc: Global,
    s: Session,
    k: u32,
    part: &Opened,
    number: u32,
    next: u32,
    c: &'a Clause,
    kernel: &mut Kernel<'_>,
) -> Result<Given<'a>, FunctionRefusal>
    requires kernel { kernel.old.signature ≡ s.sig.now }
    requires part { IsPart s.sig.now (opened_of part.now) }
    requires clause { IsClause s.sig.now (length (opened_of part.now).terms) (clause_of c.now) }
    ensures answer { Elaborates given_of result kernel.new.left (spec.walk_clause (session_of s.entry) k (opened_of part.now) number next (clause_of c.now) kernel.old.left) }
    ensures sum { kernel.new.left + kernel.new.spent ≡ kernel.old.left + kernel.old.spent }
    ensures spends { kernel.new.left ≤ kernel.old.left }
    ensures kernel { kernel.new.signature ≡ s.entry.sig.now }
    ensures walked { IfOk result (λ g. AreWalked s.entry.sig.now (map walked_of g.helpers)) }
{
    let function = part_name(alloc, s.name, k)?;
    let site = Site {
        function: &function,
        number,
    };
    let w = clause_walked(alloc, s.sig, site, part, c, kernel)?;
    walk_right(alloc, s, k, next, site, w, &c.right, kernel)
}

/// A clause after its walk and its dots: its right side is checked, or the clauses inside are walked.
#[cycle(walks)]
fn walk_right<'a>(
    alloc: Global,
    s: Session,
    k: u32,
    next: u32,
    site: Site,
    w: Walk,
    right: &'a Right,
    kernel: &mut Kernel<'_>,
) -> Result<Given<'a>, FunctionRefusal>
    requires kernel { kernel.old.signature ≡ s.sig.now }
    requires walk { IsWalkOver s.sig.now (walk_of w) }
    requires right { IsRightSide s.sig.now (length (walk_of w).terms) (right_of right.now) }
    ensures answer { Elaborates given_of result kernel.new.left (spec.walk_right (session_of s.entry) k site.entry.number next (site_of site.entry) (walk_of w) (right_of right.now) kernel.old.left) }
    ensures sum { kernel.new.left + kernel.new.spent ≡ kernel.old.left + kernel.old.spent }
    ensures spends { kernel.new.left ≤ kernel.old.left }
    ensures kernel { kernel.new.signature ≡ s.entry.sig.now }
    ensures walked { IfOk result (λ g. AreWalked s.entry.sig.now (map walked_of g.helpers)) }
{
    match right {
        Right::Side(side) => side_walked(alloc, s, k, next, site, w, side, kernel),
        Right::With(written, inner) => {
            with_walked(alloc, s, k, next, site, w, written, inner, kernel)
        }
        Right::Absurd => Ok(absurd_given(alloc, w)?),
    }
}

/// The results of a clause that has a scrutinee, which the next helper is over.
#[cycle(walks)]
fn with_walked<'a>(
    alloc: Global,
    s: Session,
    k: u32,
    next: u32,
    site: Site,
    w: Walk,
    written: &Term,
    inner: &'a Items<Clause>,
    kernel: &mut Kernel<'_>,
) -> Result<Given<'a>, FunctionRefusal>
    requires kernel { kernel.old.signature ≡ s.sig.now }
    requires walk { IsWalkOver s.sig.now (walk_of w) }
    requires written { HasEntries s.sig.now (tree_of written.now) }
    requires inner { AreClauses s.sig.now (length (walk_of w).terms + 1) (clauses_of inner.now) }
    ensures answer { Elaborates given_of result kernel.new.left (spec.walk_right (session_of s.entry) k site.entry.number next (site_of site.entry) (walk_of w) (clause.With (tree_of written.now) (clauses_of inner.now)) kernel.old.left) }
    ensures sum { kernel.new.left + kernel.new.spent ≡ kernel.old.left + kernel.old.spent }
    ensures spends { kernel.new.left ≤ kernel.old.left }
    ensures kernel { kernel.new.signature ≡ s.entry.sig.now }
    ensures walked { IfOk result (λ g. AreWalked s.entry.sig.now (map walked_of g.helpers)) }
{
    let x = scrutinised(alloc, s, next, site, &w, written, kernel)?;
    inside_walked(alloc, s, k, site.number, next, w, x, inner, kernel)
}

/// The clauses of a helper, which are part `helper`.
#[cycle(walks)]
fn inside_walked<'a>(
    alloc: Global,
    s: Session,
    k: u32,
    number: u32,
    helper: u32,
    w: Walk,
    x: Scrutinee,
    inner: &'a Items<Clause>,
    kernel: &mut Kernel<'_>,
) -> Result<Given<'a>, FunctionRefusal>
    requires kernel { kernel.old.signature ≡ s.sig.now }
    requires given { IsPartFor s.sig.now (opened_of x.part) (clauses_of inner.now) }
    ensures answer { Elaborates given_of result kernel.new.left (code.inside_walked (session_of s.entry) k number helper (walk_of w) (scrutinee_of x) (clauses_of inner.now) kernel.old.left) }
    ensures sum { kernel.new.left + kernel.new.spent ≡ kernel.old.left + kernel.old.spent }
    ensures spends { kernel.new.left ≤ kernel.old.left }
    ensures kernel { kernel.new.signature ≡ s.entry.sig.now }
    ensures walked { IfOk result (λ g. AreWalked s.entry.sig.now (map walked_of g.helpers)) }
{
    let after = next_number(helper)?;
    let given = walk_clauses(
        alloc,
        s,
        helper,
        &x.part,
        0,
        after,
        inner.as_slice(),
        kernel,
    )?;
    Ok(with_given(alloc, k, number, w, x, inner, given)?)
}

/// Walks the clauses of part `k` one after the other, the first of which has the given number, where `next` is the number of the next
/// helper.
///
/// Each clause is walked through its own patterns, and its dots are checked. Then its right side is checked, or a
/// helper is opened over its scrutinee and the clauses inside are walked as those of the helper. Helpers are numbered
/// in the order of the source, and those inside come after the one around them.
#[cycle(walks)]
pub fn walk_clauses<'a>(
    alloc: Global,
    s: Session,
    k: u32,
    part: &Opened,
    number: u32,
    next: u32,
    clauses: &'a [Clause],
    kernel: &mut Kernel<'_>,
) -> Result<Given<'a>, FunctionRefusal>
    requires kernel { kernel.old.signature ≡ s.sig.now }
    requires given { IsPartFor s.sig.now (opened_of part.now) (clauses_of clauses.now) }
    ensures answer { Elaborates given_of result kernel.new.left (spec.walk_clauses (session_of s.entry) k (opened_of part.now) number next (clauses_of clauses.now) kernel.old.left) }
    ensures sum { kernel.new.left + kernel.new.spent ≡ kernel.old.left + kernel.old.spent }
    ensures spends { kernel.new.left ≤ kernel.old.left }
    ensures kernel { kernel.new.signature ≡ s.entry.sig.now }
    ensures walked { IfOk result (λ g. AreWalked s.entry.sig.now (map walked_of g.helpers)) }
{
    match clauses {
        [] => Ok(nothing(alloc)),
        [c, rest @ ..] => {
            let given = walk_clause(alloc, s, k, part, number, next, c, kernel)?;
            others_walked(alloc, s, k, part, number, next, given, rest, kernel)
        }
    }
}

/// The clauses after one that gave this.
#[cycle(walks)]
fn others_walked<'a>(
    alloc: Global,
    s: Session,
    k: u32,
    part: &Opened,
    number: u32,
    next: u32,
    given: Given<'a>,
    rest: &'a [Clause],
    kernel: &mut Kernel<'_>,
) -> Result<Given<'a>, FunctionRefusal>
    requires kernel { kernel.old.signature ≡ s.sig.now }
    requires part { IsPartFor s.sig.now (opened_of part.now) (clauses_of rest.now) }
    requires helpers { AreWalked s.sig.now (map walked_of given.helpers) }
    ensures answer { Elaborates given_of result kernel.new.left (code.others_walked (session_of s.entry) k (opened_of part.now) number next (given_of given.entry) (clauses_of rest.now) kernel.old.left) }
    ensures sum { kernel.new.left + kernel.new.spent ≡ kernel.old.left + kernel.old.spent }
    ensures spends { kernel.new.left ≤ kernel.old.left }
    ensures kernel { kernel.new.signature ≡ s.entry.sig.now }
    ensures walked { IfOk result (λ g. AreWalked s.entry.sig.now (map walked_of g.helpers)) }
{
    let helper = helper_after(next, &given)?;
    let later = next_number(number)?;
    let others = walk_clauses(alloc, s, k, part, later, helper, rest, kernel)?;
    Ok(joined(given, others)?)
}
