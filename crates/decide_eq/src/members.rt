ghost use Rattle.std.specs.Prelude.{◌≡◌, ◌≤◌, Ok};
ghost use Rattle.core_terms.specs.Answered.{of_two, shown};
ghost use Rattle.core_terms.specs.Answers.{Gives};
ghost use Rattle.core_terms.specs.Meanings.{tree_of};
ghost use Rattle.decide_eq.specs.Comparisons as spec;
ghost use Rattle.decide_eq.specs.Comparisons.{confusions_of};
ghost use Rattle.decide_eq.specs.Fitting.{AreNearMembers, IsNearFamily, IsNearMember};

use crate::decided_family::DecidedFamily;
use crate::statements::{EMPTY, equal, whole_type};
use core_terms::{Stop, Term, applied_to_run};
use std::alloc::Global;

/// A constructor at arguments: its number, the level of the first argument, and how many there are.
#[derive(Clone, Copy)]
pub struct Member {
    pub number: u32,
    pub start: u32,
    pub count: u32,
}

/// The two that are compared.
#[derive(Clone, Copy)]
pub struct Members {
    pub left: Member,
    pub right: Member,
}

/// `c p a`, at a depth.
pub fn member_at(alloc: Global, d: DecidedFamily, c: Member, depth: u32) -> Result<Term, Stop>
    requires { IsNearMember c }
    ensures { Gives tree_of result (Ok (spec.member_at d c depth)) }
{
    let head = applied_to_run(alloc, Term::Con(d.family, c.number), depth, 0, d.params)?;
    applied_to_run(alloc, head, depth, c.start, c.count)
}

/// `Eq.l (D p) (c p a) (c' p a')`, at a depth.
pub fn members_equal(alloc: Global, d: DecidedFamily, m: Members, depth: u32) -> Result<Term, Stop>
    requires { AreNearMembers m }
    ensures { Gives tree_of result (Ok (spec.members_equal d m depth)) }
{
    let ty = whole_type(alloc, d, depth)?;
    let x = member_at(alloc, d, m.left, depth)?;
    let y = member_at(alloc, d, m.right, depth)?;
    equal(alloc, d, ty, x, y)
}

/// The first constructor of E at a proof of the claim.
pub fn proved(
    alloc: Global,
    d: DecidedFamily,
    claim: Result<Term, Stop>,
    proof: Result<Term, Stop>,
) -> Result<Term, Stop>
    ensures { Gives tree_of result (of_two (spec.proved d) (shown claim) (shown proof)) }
{
    let head = Term::application_of(alloc, Ok(Term::Con(d.into, 0)), claim);
    Term::application_of(alloc, head, proof)
}

/// The second constructor of E at a refutation of the claim.
pub fn refuted(
    alloc: Global,
    d: DecidedFamily,
    claim: Result<Term, Stop>,
    refutation: Result<Term, Stop>,
) -> Result<Term, Stop>
    ensures { Gives tree_of result (of_two (spec.refuted d) (shown claim) (shown refutation)) }
{
    let head = Term::application_of(alloc, Ok(Term::Con(d.into, 1)), claim);
    Term::application_of(alloc, head, refutation)
}

/// `D!noconf.c.0 p a`, at a depth.
fn confusion_head(alloc: Global, d: DecidedFamily, c: Member, depth: u32) -> Result<Term, Stop>
    requires family { IsNearFamily d }
    requires member { IsNearMember c }
    ensures { Gives tree_of result (Ok (spec.confusion_head d (confusions_of d) c depth)) }
{
    let head = Term::Const(d.analysis + 1 + c.number);
    let head = applied_to_run(alloc, head, depth, 0, d.params)?;
    applied_to_run(alloc, head, depth, c.start, c.count)
}

/// That c p a and c' p a' are unequal, where they are equal by the nearest variable, at a depth. Where c' is c a method for the equations
/// of the arguments is due.
pub fn confusion(alloc: Global, d: DecidedFamily, m: Members, depth: u32) -> Result<Term, Stop>
    requires family { IsNearFamily d }
    requires members { AreNearMembers m }
    ensures { Gives tree_of result (Ok (spec.confusion d (confusions_of d) m depth)) }
{
    let head = confusion_head(alloc, d, m.left, depth);
    let head = Term::application_of(alloc, head, member_at(alloc, d, m.right, depth));
    let head = Term::application_of(alloc, head, Ok(Term::Var(0)));
    let claim = members_equal(alloc, d, m, depth);
    let motive = Term::function_of(alloc, claim, Ok(Term::Fam(EMPTY)));
    Term::application_of(alloc, head, motive)
}

/// Different constructors are not equal, at a depth.
pub fn different(alloc: Global, d: DecidedFamily, m: Members, depth: u32) -> Result<Term, Stop>
    requires family { IsNearFamily d }
    requires members { AreNearMembers m }
    requires depth { depth ≤ 100000 }
    ensures { Gives tree_of result (Ok (spec.different d (confusions_of d) m depth)) }
{
    let body = confusion(alloc, d, m, depth + 1);
    let refutation = Term::function_of(alloc, members_equal(alloc, d, m, depth), body);
    refuted(alloc, d, members_equal(alloc, d, m, depth), refutation)
}
