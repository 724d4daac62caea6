ghost use Rattle.std.specs.Prelude.{◌≡◌, ◌≤◌, ◌+◌, length, map};
ghost use Rattle.core_terms.specs.Answers.{Gives};
ghost use Rattle.core_terms.specs.Bounds.{most_height};
ghost use Rattle.core_terms.specs.Meanings.{tree_of};
ghost use Rattle.core_sig.specs.Shapes.{HaveFewArguments, constructor_shape};
ghost use Rattle.case_below_gen.specs.CaseEntries as spec;

use crate::binding::bound_of;
use core_sig::{Constructor, Motive, arguments_over, conclusion, hypotheses_over, recursive_count};
use core_terms::{Binder, Stop, Term, applied_to_run, variable};
use std::alloc::Global;

/// The type of the method without hypotheses for constructor `number`, at a depth.
fn branch_type(
    alloc: Global,
    fam: u32,
    motive: Motive,
    number: u32,
    depth: u32,
    con: &Constructor,
) -> Result<Term, Stop>
    requires params { motive.params ≤ most_height }
    requires few { length con.now.args ≤ most_height }
    requires depth { depth ≤ 10000 }
    ensures { Gives tree_of result (Ok (spec.branch_type fam motive.params motive.level number depth (constructor_shape con.now))) }
{
    let args = con.args.as_slice();
    let count = args.len() as u32;
    let end = conclusion(alloc, fam, motive, number, depth, depth + count, con)?;
    let runs = [(0, motive.params), (depth, count)];
    arguments_over(
        alloc,
        Binder::Product,
        &runs,
        motive.params,
        depth,
        args,
        end,
    )
}

/// Binds the methods without hypotheses around `end`, for the constructors from `number` on, at a depth.
pub fn branches_over(
    alloc: Global,
    binder: Binder,
    fam: u32,
    motive: Motive,
    number: u32,
    depth: u32,
    cons: &[Constructor],
    end: Term,
) -> Result<Term, Stop>
    requires params { motive.params ≤ most_height }
    requires few { HaveFewArguments (map constructor_shape cons.now) }
    requires number { number + length cons.now ≤ most_height }
    requires depth { depth + length cons.now ≤ 10000 }
    ensures { Gives tree_of result (Ok (spec.branches_over binder fam motive.params motive.level number depth (map constructor_shape cons.now) (tree_of end))) }
{
    match cons {
        [] => Ok(end),
        [con, rest @ ..] => {
            let branch = branch_type(alloc, fam, motive, number, depth, con);
            let rest = branches_over(alloc, binder, fam, motive, number + 1, depth + 1, rest, end);
            bound_of(alloc, binder, branch, rest)
        }
    }
}

/// The method that drops the hypotheses and goes on with the one of level `method`, at a depth.
fn dropping(
    alloc: Global,
    motive: Motive,
    method: u32,
    depth: u32,
    con: &Constructor,
) -> Result<Term, Stop>
    requires params { motive.params ≤ most_height }
    requires few { length con.now.args ≤ most_height }
    requires depth { depth ≤ 20000 }
    ensures { Gives tree_of result (Ok (spec.dropping motive.params motive.indices motive.level method depth (constructor_shape con.now))) }
{
    let args = con.args.as_slice();
    let count = args.len() as u32;
    let inside = depth + count;
    let whole = inside + recursive_count(args);
    let end = applied_to_run(alloc, variable(whole, method), whole, depth, count)?;
    let end = hypotheses_over(alloc, Binder::Function, motive, depth, 0, inside, args, end)?;
    let runs = [(0, motive.params), (depth, count)];
    arguments_over(
        alloc,
        Binder::Function,
        &runs,
        motive.params,
        depth,
        args,
        end,
    )
}

/// `head` applied to the methods that drop the hypotheses, where the first goes on with the one of level `method`.
pub fn applied_to_droppings(
    alloc: Global,
    motive: Motive,
    method: u32,
    depth: u32,
    head: Term,
    cons: &[Constructor],
) -> Result<Term, Stop>
    requires params { motive.params ≤ most_height }
    requires few { HaveFewArguments (map constructor_shape cons.now) }
    requires method { method + length cons.now ≤ 10000 }
    requires depth { depth ≤ 20000 }
    ensures { Gives tree_of result (Ok (spec.applied_to_droppings motive.params motive.indices motive.level method depth (tree_of head) (map constructor_shape cons.now))) }
{
    match cons {
        [] => Ok(head),
        [con, rest @ ..] => {
            let argument = dropping(alloc, motive, method, depth, con);
            let head = Term::application_of(alloc, Ok(head), argument)?;
            applied_to_droppings(alloc, motive, method + 1, depth, head, rest)
        }
    }
}
