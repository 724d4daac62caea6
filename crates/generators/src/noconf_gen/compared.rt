ghost use Rattle.std.specs.Prelude.{◌≡◌, ◌≤◌, ◌<◌, ◌+◌, ◌++◌, ◌^◌, Ok, IfOk, length, map, take};
ghost use Rattle.core_terms.specs.Answers.{Gives};
ghost use Rattle.core_terms.specs.Levels as level;
ghost use Rattle.core_terms.specs.Meanings.{tele_of, tree_of};
ghost use Rattle.core_sig.specs.Shapes.{argument_shape, constructor_shape, shape_of};
ghost use Rattle.theory.specs.Telescopes.{applied};
ghost use Rattle.theory.specs.Terms as tree;
ghost use Rattle.tele_eq.specs.Items.{AreSmall, AreSmallTerms, items_of};
ghost use Rattle.generators.specs.noconf_gen.Compared as spec;
ghost use Rattle.generators.specs.noconf_gen.Fitting.{FitsIndices, FitsMember, HaveLowTypes};

use core_sig::{Arg, Constructor, Family, family_at};
use core_terms::{Items, Run, Stop, Tele, Term, applied_to_run, place};
use std::alloc::Global;
use tele_eq::Item;

/// Arguments or indices, the first of which is over `size` variables of the family's record, after the items that are made.
#[tactic(auto, using(tele_eq::proofs::Growing::growing))]
fn placed_items(
    alloc: Global,
    runs: &[Run],
    size: u32,
    depth: u32,
    args: &[Arg],
    mut made: Items<Item>,
) -> Result<Items<Item>, Stop>
    requires size { size + length args.now ≤ 1000000 }
    requires depth { depth + length args.now ≤ 1000000 }
    ensures { Gives items_of result (Ok (items_of made ++ spec.placed_items runs.now size depth (map argument_shape args.now))) }
{
    match args {
        [] => Ok(made),
        [arg, rest @ ..] => {
            let ty = place(alloc, runs, size, depth, &arg.ty)?;
            made.push(Item {
                ty,
                level: arg.level,
            })?;
            placed_items(alloc, runs, size + 1, depth + 1, rest, made)
        }
    }
}

/// The arguments of a constructor, at a depth.
pub fn argument_items(
    alloc: Global,
    params: u32,
    depth: u32,
    con: &Constructor,
) -> Result<Items<Item>, Stop>
    requires few { params + length con.now.args ≤ 1000 }
    requires types { HaveLowTypes (map argument_shape con.now.args) }
    requires depth { depth ≤ 100000 }
    ensures is { Gives items_of result (Ok (spec.argument_items params depth (constructor_shape con.now))) }
    ensures small { IfOk result (λ v. AreSmall (items_of v)) }
    ensures few { IfOk result (λ v. length v ≤ 1000) }
{
    let args = con.args.as_slice();
    let runs = [(0, params), (depth, args.len() as u32)];
    placed_items(alloc, &runs, params, depth, args, Items::new(alloc))
}

/// The indices and a member of the family, at a depth.
pub fn member_items(alloc: Global, fam: u32, f: &Family, depth: u32) -> Result<Items<Item>, Stop>
    requires fits { FitsIndices (shape_of f.now) }
    requires depth { depth ≤ 100000 }
    ensures is { Gives items_of result (Ok (spec.member_items fam (shape_of f.now) depth)) }
    ensures small { IfOk result (λ v. AreSmall (items_of v)) }
    ensures few { IfOk result (λ v. length v ≤ 1000) }
{
    let params = f.params.as_slice().len() as u32;
    let indices = f.indices.as_slice();
    let count = indices.len() as u32;
    let runs = [(0, params), (depth, count)];
    let mut items = placed_items(alloc, &runs, params, depth, indices, Items::new(alloc))?;
    let ty = family_at(alloc, fam, params, depth + count, depth, count)?;
    items.push(Item { ty, level: f.level })?;
    Ok(items)
}

/// The first `count` terms of a record, at a depth, after those that are made.
#[tactic(auto, using(tele_eq::proofs::Growing::growing))]
fn places(
    alloc: Global,
    runs: &[Run],
    size: u32,
    depth: u32,
    count: u32,
    terms: &[Term],
    mut made: Tele,
) -> Result<Tele, Stop>
    requires { depth ≤ 1000000 }
    ensures { Gives tele_of result (Ok (tele_of made ++ map (level.place runs.now size depth) (take count (tele_of terms.now)))) }
{
    if count == 0 {
        return Ok(made);
    }
    match terms {
        [] => Ok(made),
        [t, rest @ ..] => {
            made.push(place(alloc, runs, size, depth, t)?)?;
            places(alloc, runs, size, depth, count - 1, rest, made)
        }
    }
}

/// Constructor `number` as a member of its family, with its targets at `indices` indices, at arguments whose levels begin with
/// `first`, at a depth.
pub fn constructed(
    alloc: Global,
    fam: u32,
    params: u32,
    indices: u32,
    number: u32,
    first: u32,
    con: &Constructor,
    depth: u32,
) -> Result<Tele, Stop>
    requires fits { FitsMember params indices (constructor_shape con.now) }
    requires first { first ≤ 100000 }
    requires depth { depth ≤ 1000000 }
    ensures is { Gives tele_of result (Ok (spec.constructed fam params indices number first (constructor_shape con.now) depth)) }
    ensures small { IfOk result (λ v. AreSmallTerms (tele_of v)) }
{
    let count = con.args.as_slice().len() as u32;
    let runs = [(0, params), (first, count)];
    let targets = con.targets.as_slice();
    let size = params + count;
    let mut terms = places(
        alloc,
        &runs,
        size,
        depth,
        indices,
        targets,
        Items::new(alloc),
    )?;
    let whole = whole_constructor(alloc, fam, number, params, first, count, depth)?;
    terms.push(whole)?;
    Ok(terms)
}

/// Constructor `number` at the parameters and at `count` arguments, whose levels begin with `first`, at a depth.
fn whole_constructor(
    alloc: Global,
    fam: u32,
    number: u32,
    params: u32,
    first: u32,
    count: u32,
    depth: u32,
) -> Result<Term, Stop>
    requires { first + count < 2 ^ 32 }
    ensures { Gives tree_of result (Ok (applied (applied (tree.Con fam number) (level.run depth 0 params)) (level.run depth first count))) }
{
    let whole = applied_to_run(alloc, Term::Con(fam, number), depth, 0, params)?;
    applied_to_run(alloc, whole, depth, first, count)
}
