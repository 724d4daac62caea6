//! The telescope of induction: parameters, motives, methods.
ghost use Rattle.std.specs.Prelude.{◌≡◌, ◌≤◌, ◌<◌, ◌+◌, ◌++◌, Ok, length, map};
ghost use Rattle.core_terms.specs.Answers.{Gives};
ghost use Rattle.core_terms.specs.Meanings.{tele_of, tree_of};
ghost use Rattle.core_sig.specs.Shapes.{HaveFewArguments, constructor_shape, shape_of};
ghost use Rattle.mutual_pack.specs.Fitting.{HasFewParts, IsNear};
ghost use Rattle.mutual_pack.specs.Inductions as spec;

use crate::hypotheses::{hypotheses_over, member_type, motive};
use crate::numbers::number_at;
use crate::packed_family::PackedFamily;
use core_sig::{Constructor, Family, arguments_over, recursive_count};
use core_terms::{Binder, Stop, Tele, Term, applied_to_run, copy_tele};
use std::alloc::Global;

/// The constructor with a number at `count` arguments, whose levels begin with `first`, at a depth.
pub fn constructor_at(
    alloc: Global,
    q: PackedFamily,
    number: u32,
    first: u32,
    count: u32,
    depth: u32,
) -> Result<Term, Stop>
    requires near { IsNear q }
    requires first { first ≤ 100000 }
    requires count { count ≤ 2000 }
    ensures { Gives tree_of result (Ok (spec.constructor_at q number first count depth)) }
{
    let head = applied_to_run(alloc, Term::Con(q.tag + 1, number), depth, 0, q.params)?;
    applied_to_run(alloc, head, depth, first, count)
}

/// The type of the method for a constructor of member j, at a depth.
fn method_type(
    alloc: Global,
    q: PackedFamily,
    j: u32,
    number: u32,
    depth: u32,
    con: &Constructor,
) -> Result<Term, Stop>
    requires near { IsNear q }
    requires few { length con.now.args ≤ 2000 }
    requires depth { depth ≤ 10000 }
    ensures { Gives tree_of result (Ok (spec.method_type q j number depth (constructor_shape con.now))) }
{
    let args = con.args.as_slice();
    let count = args.len() as u32;
    let inside = depth + count;
    let behind = inside + recursive_count(args);
    let whole = constructor_at(alloc, q, number, depth, count, behind);
    let end = Term::application_of(alloc, Ok(motive(q, j, behind)), whole)?;
    let end = hypotheses_over(alloc, q, depth, 0, inside, args, end)?;
    let runs = [(0, q.params), (depth, count)];
    arguments_over(alloc, Binder::Product, &runs, q.params, depth, args, end)
}

/// The type of the motive of member k, at a depth.
fn motive_type(alloc: Global, q: PackedFamily, k: u32, depth: u32) -> Result<Term, Stop>
    requires near { IsNear q }
    requires member { k < 2000 }
    ensures { Gives tree_of result (Ok (spec.motive_type q k depth)) }
{
    let domain = member_type(alloc, q, k, depth);
    Term::product_of(alloc, domain, Ok(Term::Sort(q.level)))
}

/// The types of the motives of `count` members from `k` on, at a depth, after the types that are there.
#[tactic(auto, using(tele_eq::proofs::Growing::growing))]
fn with_motives(
    alloc: Global,
    q: PackedFamily,
    k: u32,
    depth: u32,
    count: u32,
    mut tele: Tele,
) -> Result<Tele, Stop>
    requires near { IsNear q }
    requires members { k + count ≤ 2000 }
    requires depth { depth + count ≤ 10000 }
    ensures { Gives tele_of result (Ok (tele_of tele ++ spec.motive_types q k depth count)) }
{
    if count == 0 {
        return Ok(tele);
    }
    tele.push(motive_type(alloc, q, k, depth)?)?;
    with_motives(alloc, q, k + 1, depth + 1, count - 1, tele)
}

/// The types of the methods for the constructors from `number` on, at a depth, after the types that are there.
#[tactic(auto, using(tele_eq::proofs::Growing::growing))]
fn with_methods(
    alloc: Global,
    q: PackedFamily,
    owners: &[u32],
    number: u32,
    depth: u32,
    cons: &[Constructor],
    mut tele: Tele,
) -> Result<Tele, Stop>
    requires near { IsNear q }
    requires few { HaveFewArguments (map constructor_shape cons.now) }
    requires number { number + length cons.now ≤ 2000 }
    requires depth { depth + length cons.now ≤ 10000 }
    ensures { Gives tele_of result (Ok (tele_of tele ++ spec.method_types q owners.now number depth (map constructor_shape cons.now))) }
{
    match cons {
        [] => Ok(tele),
        [con, rest @ ..] => {
            let j = number_at(owners, number);
            tele.push(method_type(alloc, q, j, number, depth, con)?)?;
            with_methods(alloc, q, owners, number + 1, depth + 1, rest, tele)
        }
    }
}

/// Parameters, motives and methods.
pub fn induction_telescope(
    alloc: Global,
    q: PackedFamily,
    owners: &[u32],
    f: &Family,
) -> Result<Tele, Stop>
    requires near { IsNear q }
    requires few { HasFewParts (shape_of f.now) }
    ensures { Gives tele_of result (Ok (spec.induction_telescope q owners.now (shape_of f.now))) }
{
    let tele = copy_tele(alloc, f.params.as_slice())?;
    let tele = with_motives(alloc, q, 0, q.params, q.members, tele)?;
    with_methods(
        alloc,
        q,
        owners,
        0,
        q.params + q.members,
        f.cons.as_slice(),
        tele,
    )
}

/// How many variables these are.
pub fn induction_size(q: PackedFamily) -> u32
    requires near { IsNear q }
    ensures is { result ≡ spec.induction_size q }
    ensures small { result ≤ 6000 }
{
    q.params + q.members + q.constructors
}
