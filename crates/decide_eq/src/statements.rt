ghost use Rattle.std.specs.Prelude.{◌≡◌, ◌≤◌, ◌+◌, Ok};
ghost use Rattle.core_terms.specs.Answers.{Gives};
ghost use Rattle.core_terms.specs.Meanings.{tele_of, tree_of};
ghost use Rattle.decide_eq.specs.Statements as spec;

use crate::decided_family::DecidedFamily;
use case_below_gen::closed_over;
use core_sig::{equality, family_at};
use core_terms::{Binder, Stop, Term, bind, variable};
use std::alloc::Global;

/// The number of the family `Empty` in each signature that begins with the prelude.
pub const EMPTY: u32 = 0;

/// `D p`, at a depth.
pub fn whole_type(alloc: Global, d: DecidedFamily, depth: u32) -> Result<Term, Stop>
    ensures { Gives tree_of result (Ok (spec.whole_type d depth)) }
{
    family_at(alloc, d.family, d.params, depth, 0, 0)
}

/// `Eq.l A x y`.
pub fn equal(alloc: Global, d: DecidedFamily, ty: Term, x: Term, y: Term) -> Result<Term, Stop>
    ensures { Gives tree_of result (Ok (spec.equal d (tree_of ty) (tree_of x) (tree_of y))) }
{
    let head = Term::new_app(alloc, Term::Fam(equality(d.level)), ty)?;
    let head = Term::new_app(alloc, head, x)?;
    Term::new_app(alloc, head, y)
}

/// `E A`.
pub fn decision_of(alloc: Global, d: DecidedFamily, claim: Term) -> Result<Term, Stop>
    ensures { Gives tree_of result (Ok (spec.decision_of d (tree_of claim))) }
{
    Term::new_app(alloc, Term::Fam(d.into), claim)
}

/// `(y : D p) -> E (Eq.l (D p) x y)`, at a depth, for a term `x` that is one binder further in.
pub fn deciding_from(alloc: Global, d: DecidedFamily, x: Term, depth: u32) -> Result<Term, Stop>
    requires { depth ≤ 1000000 }
    ensures { Gives tree_of result (Ok (spec.deciding_from d (tree_of x) depth)) }
{
    let inside = depth + 1;
    let claim = equal(
        alloc,
        d,
        whole_type(alloc, d, inside)?,
        x,
        variable(inside, depth),
    )?;
    let end = decision_of(alloc, d, claim);
    Term::product_of(alloc, whole_type(alloc, d, depth), end)
}

/// `(x : D p) -> (y : D p) -> E (Eq.l (D p) x y)`, at a depth.
fn deciding(alloc: Global, d: DecidedFamily, depth: u32) -> Result<Term, Stop>
    requires { depth ≤ 100000 }
    ensures { Gives tree_of result (Ok (spec.deciding d depth)) }
{
    let end = deciding_from(alloc, d, variable(depth + 2, depth), depth + 1);
    Term::product_of(alloc, whole_type(alloc, d, depth), end)
}

/// The type of a decision for the parameter with the level `j`, at a depth.
fn deciding_parameter(alloc: Global, d: DecidedFamily, j: u32, depth: u32) -> Result<Term, Stop>
    requires { depth ≤ 100000 }
    ensures { Gives tree_of result (Ok (spec.deciding_parameter d j depth)) }
{
    let inside = depth + 2;
    let x = variable(inside, depth);
    let y = variable(inside, depth + 1);
    let claim = equal(alloc, d, variable(inside, j), x, y)?;
    let end = decision_of(alloc, d, claim)?;
    let end = Term::new_pi(alloc, variable(depth + 1, j), end)?;
    Term::new_pi(alloc, variable(depth, j), end)
}

/// Binds a decision for each of `count` parameters, the first of which has the level `j`, around `end`.
fn decisions_over(
    alloc: Global,
    d: DecidedFamily,
    binder: Binder,
    j: u32,
    depth: u32,
    count: u32,
    end: Term,
) -> Result<Term, Stop>
    requires j { j + count ≤ 10000 }
    requires depth { depth + count ≤ 10000 }
    ensures { Gives tree_of result (Ok (spec.decisions_over d binder j depth count (tree_of end))) }
{
    if count == 0 {
        return Ok(end);
    }
    let end = decisions_over(alloc, d, binder, j + 1, depth + 1, count - 1, end)?;
    let domain = deciding_parameter(alloc, d, j, depth)?;
    bind(alloc, binder, domain, end)
}

/// Binds the parameters and their decisions around `end`.
pub fn parameters_over(
    alloc: Global,
    d: DecidedFamily,
    binder: Binder,
    params: &[Term],
    end: Term,
) -> Result<Term, Stop>
    requires { d.params ≤ 1000 }
    ensures { Gives tree_of result (Ok (spec.parameters_over d binder (tele_of params.now) (tree_of end))) }
{
    let end = decisions_over(alloc, d, binder, 0, d.params, d.params, end)?;
    closed_over(alloc, binder, params, end)
}

/// The type of the decision.
pub fn decision_type(alloc: Global, d: DecidedFamily, params: &[Term]) -> Result<Term, Stop>
    requires { d.params ≤ 1000 }
    ensures { Gives tree_of result (Ok (spec.decision_type d (tele_of params.now))) }
{
    let end = deciding(alloc, d, d.params + d.params)?;
    parameters_over(alloc, d, Binder::Product, params, end)
}
