ghost use Rattle.std.specs.Prelude.{◌≡◌, ◌++◌, ℕ, Ok, length, map};
ghost use Rattle.core_terms.specs.Answers.{Gives};
ghost use Rattle.core_terms.specs.Levels.{variable};
ghost use Rattle.core_terms.specs.Meanings.{tree_of, tele_of};
ghost use Rattle.core_sig.specs.Kinds.{HaveKinds};
ghost use Rattle.core_sig.specs.Meanings.{constructor_of};
ghost use Rattle.tele_eq.specs.Items.{item_of, items_of};
ghost use Rattle.theory.specs.Eliminators.{no_variable};
ghost use Rattle.theory.specs.Families as pure;
ghost use Rattle.theory.specs.Substitutions.{fill, inst};
ghost use Rattle.theory.specs.Telescopes as telescopes;
ghost use Rattle.unification.specs.Injecting as injecting;
ghost use Rattle.unification.specs.Moving.{behind, over_first};
ghost use Rattle.unification.specs.Records as records;
ghost use Rattle.unification.specs.States as states;
ghost use Rattle.problems.specs.CodeInjections.{equations_joined};
ghost use Rattle.problems.specs.CodeMoves.{equation_with};
ghost use Rattle.run_terms.specs.CodeInjections.{moved_after_group};
ghost use Rattle.run_terms.specs.CodePlaces.{environment_of};
ghost use Rattle.run_terms.specs.StandingMeanings.{equation_of, equations_of, state_of};

use crate::instances::{all_instantiated, all_raised, at_nearest, items_at};
use crate::moving::{Sides, moved};
use crate::places::{After, Places};
use crate::standings::after_first;
use crate::state::{Equation, State, equation_between};
use core_sig::Constructor;
use core_terms::{Items, Stop, Tele, Term, copy_whole, number_of, sum};
use std::alloc::Global;
use tele_eq::{Item, with_variables};

/// The telescope of a constructor's arguments at parameters.
pub fn argument_items(alloc: Global, ps: &[Term], con: &Constructor) -> Result<Items<Item>, Stop>
    ensures { (n : ℕ) (f : pure.Family) → HaveKinds n f 0 con.now.args → length f.parameters ≡ length ps.now → Gives items_of result (Ok (records.argument_items n (tele_of ps.now) (constructor_of (length ps.now) con.now))) }
{
    items_at(alloc, ps, con.args.as_slice())
}

/// The targets of a constructor at parameters, after its arguments.
fn targets_after(alloc: Global, ps: &[Term], count: u32, targets: &[Term]) -> Result<Tele, Stop>
    ensures { Gives tele_of result (Ok (map (inst (fill no_variable (injecting.lifted count (tele_of ps.now) ++ telescopes.variables count))) (tele_of targets.now))) }
{
    let raised = all_raised(alloc, count, ps)?;
    let values = with_variables(raised, count)?;
    all_instantiated(alloc, values.as_slice(), targets)
}

/// The targets of a constructor, and the constructor itself, at parameters and after its arguments.
pub fn constructor_terms(
    alloc: Global,
    n: u32,
    number: u32,
    ps: &[Term],
    con: &Constructor,
) -> Result<Tele, Stop>
    ensures { (p : ℕ) → Gives tele_of result (Ok (records.constructor_terms n number (tele_of ps.now) (constructor_of p con.now))) }
{
    let count = number_of(con.args.as_slice().len())?;
    let mut made = targets_after(alloc, ps, count, con.targets.as_slice())?;
    let whole = at_nearest(alloc, Term::Con(n, number), ps, count)?;
    made.push(whole)?;
    Ok(made)
}

/// Equations, followed by those of two lists of terms at the places of a telescope.
#[tactic(auto, using(tele_eq::proofs::Growing::growing))]
fn equations_at(
    alloc: Global,
    tele: &[Item],
    types: &[Term],
    left: &[Term],
    right: &[Term],
    mut made: Items<Equation>,
) -> Result<Items<Equation>, Stop>
    ensures { Gives equations_of result (Ok (equations_of made ++ states.equations_at (items_of tele.now) (tele_of types.now) (tele_of left.now) (tele_of right.now))) }
{
    let [x, tele @ ..] = tele else {
        return Ok(made);
    };
    let [ty, types @ ..] = types else {
        return Ok(made);
    };
    let [u, left @ ..] = left else {
        return Ok(made);
    };
    let [v, right @ ..] = right else {
        return Ok(made);
    };
    made.push(equation_at(alloc, x, ty, u, v)?)?;
    equations_at(alloc, tele, types, left, right, made)
}

/// The equation of two terms at a place.
fn equation_at(alloc: Global, x: &Item, ty: &Term, u: &Term, v: &Term) -> Result<Equation, Stop>
    ensures { Gives equation_of result (Ok (equation_with (item_of x.now) (tree_of ty.now) (tree_of u.now) (tree_of v.now))) }
{
    let place = Item {
        ty: copy_whole(alloc, &x.ty)?,
        level: x.level,
    };
    let ty = copy_whole(alloc, ty)?;
    let left = copy_whole(alloc, u);
    let right = copy_whole(alloc, v);
    equation_between(place, ty, left, right)
}

/// The places where terms, over the variables up to a depth, replace the first `count` places after a context.
fn after_places(size: u32, count: u32, depth: u32, terms: &[Term]) -> Places
    ensures { environment_of result ≡ behind size count depth variable (over_first depth (tele_of terms.now)) }
{
    Places::After(After {
        solution: None,
        size,
        count,
        new: depth,
        over: depth,
        terms,
    })
}

/// Equations, followed by those of a state from the `group`-th one on, where `depth` variables and equations come before these: the
/// terms stand for the places before them, and the proofs for the equations.
fn with_moved(
    alloc: Global,
    s: &State,
    group: u32,
    size: u32,
    depth: u32,
    terms: &[Term],
    proofs: &[Term],
    made: Items<Equation>,
) -> Result<Items<Equation>, Stop>
    ensures { Gives equations_of result (Ok (equations_of made ++ moved_after_group (state_of s.now) group size depth (tele_of terms.now) (tele_of proofs.now))) }
{
    moved(
        alloc,
        after_places(size, group, depth, terms),
        after_places(size, group, depth, proofs),
        Sides::Same,
        sum(size, group)?,
        depth,
        after_first(s.equations.as_slice(), group),
        made,
    )
}

/// The equations between the terms of a telescope, and after them those of a state from the `group`-th one on: the terms stand for
/// the places before these, and the proofs for the equations.
pub fn joined_equations(
    alloc: Global,
    s: &State,
    group: u32,
    tele: &[Item],
    types: &[Term],
    left: &[Term],
    right: &[Term],
    terms: &[Term],
    proofs: &[Term],
) -> Result<Items<Equation>, Stop>
    ensures { Gives equations_of result (Ok (equations_joined (state_of s.now) group (items_of tele.now) (tele_of types.now) (tele_of left.now) (tele_of right.now) (tele_of terms.now) (tele_of proofs.now))) }
{
    let size = number_of(s.ctx.as_slice().len())?;
    let depth = sum(size, number_of(types.len())?)?;
    let made = equations_at(alloc, tele, types, left, right, Items::new(alloc))?;
    with_moved(alloc, s, group, size, depth, terms, proofs, made)
}
