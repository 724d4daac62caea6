ghost use Rattle.std.specs.Prelude.{◌≡◌, ◌≤◌, ◌+◌};
ghost use Rattle.core_terms.specs.Answered.{of_two, shown};
ghost use Rattle.core_terms.specs.Answers.{Gives};
ghost use Rattle.core_terms.specs.Levels as levels;
ghost use Rattle.core_terms.specs.Meanings.{tree_of, tele_of};
ghost use Rattle.core_sig.specs.Shapes.{shape_of};
ghost use Rattle.case_below_gen.specs.CaseEntries as spec;
ghost use Rattle.case_below_gen.specs.Projections.{HasFewBinders};

use core_sig::{Family, arguments_over, family_at};
use core_terms::{
    Binder, Stop, Term, applied_to_run, bind, copy_tele, functions, products, variable,
};
use std::alloc::Global;

/// A product or a function of two answers. Its height is not tested.
pub fn bound_of(
    alloc: Global,
    binder: Binder,
    domain: Result<Term, Stop>,
    body: Result<Term, Stop>,
) -> Result<Term, Stop>
    ensures { Gives tree_of result (of_two (levels.bind binder) (shown domain) (shown body)) }
{
    match binder {
        Binder::Product => Term::product_of(alloc, domain, body),
        Binder::Function => Term::function_of(alloc, domain, body),
    }
}

/// Binds a telescope around `end`.
pub fn closed_over(alloc: Global, binder: Binder, tele: &[Term], end: Term) -> Result<Term, Stop>
    ensures { Gives tree_of result (Ok (spec.closed_over binder (tele_of tele.now) (tree_of end))) }
{
    let tele = copy_tele(alloc, tele)?.into_vec();
    match binder {
        Binder::Product => products(alloc, tele, end),
        Binder::Function => functions(alloc, tele, end),
    }
}

/// Binds the indices and the scrutinee around `end`, at a depth.
pub fn scrutinee_over(
    alloc: Global,
    binder: Binder,
    fam: u32,
    f: &Family,
    depth: u32,
    end: Term,
) -> Result<Term, Stop>
    requires few { HasFewBinders (shape_of f.now) }
    requires depth { depth ≤ 100000 }
    ensures { Gives tree_of result (Ok (spec.scrutinee_over binder fam (shape_of f.now) depth (tree_of end))) }
{
    let params = f.params.as_slice().len() as u32;
    let indices = f.indices.as_slice();
    let count = indices.len() as u32;
    let domain = family_at(alloc, fam, params, depth + count, depth, count)?;
    let end = bind(alloc, binder, domain, end)?;
    let runs = [(0, params), (depth, count)];
    arguments_over(alloc, binder, &runs, params, depth, indices, end)
}

/// `head` applied to `count` indices, whose levels begin with `start`, and to the scrutinee after them, at a depth.
pub fn at_scrutinee(
    alloc: Global,
    depth: u32,
    start: u32,
    count: u32,
    head: Term,
) -> Result<Term, Stop>
    requires { start + count ≤ 1000000 }
    ensures { Gives tree_of result (Ok (spec.at_scrutinee depth start count (tree_of head))) }
{
    let head = applied_to_run(alloc, head, depth, start, count)?;
    Term::new_app(alloc, head, variable(depth, start + count))
}
