ghost use Rattle.std.specs.Prelude.{◌≡◌, ◌≤◌, ◌+◌, ◌++◌, Ok, length, map, ◌<◌, ◌^◌};
ghost use Rattle.core_terms.specs.Answers.{Gives};
ghost use Rattle.core_terms.specs.Meanings.{tree_of, tele_of};
ghost use Rattle.tele_eq.specs.Environments as environments;
ghost use Rattle.tele_eq.specs.Items as items;
ghost use Rattle.theory.specs.Terms as tree;
ghost use Rattle.problems.specs.CodeMoves.{behind_environment, environment_of, equation_moved, side_of, variables_of};
ghost use Rattle.problems.specs.Meanings.{equation_of, equations_of};
ghost use Rattle.unification.specs.Moving as spec;
ghost use Rattle.problems.specs.Conditions.{AreBehind, AreOver, ArePlaces, AreSides, HaveRoomFor, IsBehind, IsOver, IsPossible, deepest};

use crate::state::Equation;
use core_terms::{Items, Stop, Tele, Term, copy_whole, variable};
use std::alloc::Global;
use tele_eq::{Item, place_in};

/// A term that solves the variable with a level in a context of `size` variables, and the levels of the others in their new order.
#[derive(Clone, Copy)]
pub struct Solution<'a> {
    pub size: u32,
    pub order: &'a [u32],
    pub level: u32,
    pub by: &'a Term,
}

/// Terms over the first `over` variables for the first `count` places after `size` variables; the further places are from
/// level `new` on.
#[derive(Clone, Copy)]
pub struct Behind<'a> {
    pub solution: Option<Solution<'a>>,
    pub size: u32,
    pub count: u32,
    pub new: u32,
    pub over: u32,
    pub terms: &'a [Term],
}

/// Terms for variables that have levels.
#[derive(Clone, Copy)]
pub enum Places<'a> {
    Reordered(&'a [u32]),
    Solved(Solution<'a>),
    Behind(Behind<'a>),
}

/// The term that stands for a variable of the context, at a depth.
#[cycle(put)]
fn variable_at(alloc: Global, solution: Option<Solution>, depth: u32, j: u32) -> Result<Term, Stop>
    requires solution { IsPossible solution }
    requires depth { depth ≤ 2147500000 }
    requires j { j ≤ 2147500000 }
    ensures { Gives tree_of result (Ok (variables_of solution.entry depth j)) }
{
    match solution {
        None => Ok(variable(depth, j)),
        Some(solution) => {
            if j == solution.level {
                let order = Places::Reordered(solution.order);
                put_under(alloc, order, solution.size, depth, 0, solution.by)
            } else {
                Ok(variable(depth, place_in(solution.order, j)))
            }
        }
    }
}

/// Adds `by` to every variable numbered `from` or more. Nothing tests the height.
pub fn raised(alloc: Global, by: u32, from: u32, t: &Term) -> Result<Term, Stop>
    requires numbers { tree.free_of (tree_of t.now) + tree.height (tree_of t.now) + by < 2 ^ 32 }
    requires binders { from + tree.height (tree_of t.now) < 2 ^ 32 }
    ensures { Gives tree_of result (Ok (tree.lift (tree_of t.now) by from)) }
{
    match t {
        Term::Var(n) if *n < from => Ok(Term::Var(*n)),
        Term::Var(n) => Ok(Term::Var(*n + by)),
        Term::Pi(domain, codomain) => Term::product_of(
            alloc,
            raised(alloc, by, from, domain),
            raised(alloc, by, from + 1, codomain),
        ),
        Term::Lam(domain, body) => Term::function_of(
            alloc,
            raised(alloc, by, from, domain),
            raised(alloc, by, from + 1, body),
        ),
        Term::App(function, argument) => Term::application_of(
            alloc,
            raised(alloc, by, from, function),
            raised(alloc, by, from, argument),
        ),
        Term::Let(ty, value, rest) => Term::local_of(
            alloc,
            raised(alloc, by, from, ty),
            raised(alloc, by, from, value),
            raised(alloc, by, from + 1, rest),
        ),
        Term::Sort(_)
        | Term::Const(_)
        | Term::Fam(_)
        | Term::Con(_, _)
        | Term::Elim(_, _)
        | Term::AxiomK(_, _) => copy_whole(alloc, t),
    }
}

/// The term at a position, over so many variables fewer than are around it.
fn term_at(alloc: Global, terms: &[Term], position: u32, by: u32) -> Result<Term, Stop>
    requires { HaveRoomFor by (tele_of terms.now) }
    ensures { Gives tree_of result (Ok (tree.lift (items.term_at (tele_of terms.now) position) by 0)) }
{
    match terms {
        [] => Ok(Term::Sort(0)),
        [t, rest @ ..] => {
            if position == 0 {
                raised(alloc, by, 0, t)
            } else {
                term_at(alloc, rest, position - 1, by)
            }
        }
    }
}

/// The term for a variable that comes after those of a context, at a depth.
#[cycle(put)]
fn behind_at(alloc: Global, behind: Behind, depth: u32, j: u32) -> Result<Term, Stop>
    requires behind { IsBehind behind }
    requires depth { depth ≤ 2147500000 }
    requires j { j ≤ 2147500000 }
    ensures { Gives tree_of result (Ok (behind_environment behind.entry depth j)) }
{
    if j < behind.size {
        return variable_at(alloc, behind.solution, depth, j);
    }
    if j - behind.size < behind.count {
        let by = depth.saturating_sub(behind.over);
        return term_at(alloc, behind.terms, j - behind.size, by);
    }
    Ok(variable(depth, behind.new + (j - behind.size - behind.count)))
}

#[cycle(put)]
fn at(alloc: Global, places: Places, depth: u32, j: u32) -> Result<Term, Stop>
    requires places { ArePlaces places }
    requires depth { depth ≤ deepest places }
    requires j { j ≤ 2147500000 }
    ensures { Gives tree_of result (Ok (environment_of places.entry depth j)) }
{
    match places {
        Places::Reordered(order) => Ok(variable(depth, place_in(order, j))),
        Places::Solved(solution) => variable_at(alloc, Some(solution), depth, j),
        Places::Behind(behind) => behind_at(alloc, behind, depth, j),
    }
}

#[cycle(put)]
fn put_variable(
    alloc: Global,
    places: Places,
    size: u32,
    depth: u32,
    under: u32,
    n: u32,
) -> Result<Term, Stop>
    requires places { ArePlaces places }
    requires size { size ≤ 2147401000 }
    requires depth { depth + under ≤ deepest places }
    requires n { n < size + under }
    ensures { Gives tree_of result (Ok (environments.put_variable (environment_of places.entry) size depth under n)) }
{
    if n < under {
        Ok(Term::Var(n))
    } else if (n as u64) < size as u64 + under as u64 {
        let position = (size as u64 + under as u64) - (n as u64 + 1);
        at(alloc, places, depth + under, position as u32)
    } else {
        Ok(Term::Var(n - size + depth))
    }
}

#[cycle(put)]
fn put_under(
    alloc: Global,
    places: Places,
    size: u32,
    depth: u32,
    under: u32,
    t: &Term,
) -> Result<Term, Stop>
    requires places { ArePlaces places }
    requires size { size ≤ 2147401000 }
    requires depth { depth + under + tree.height (tree_of t.now) ≤ deepest places }
    requires free { tree.free_of (tree_of t.now) ≤ size + under }
    ensures { Gives tree_of result (Ok (environments.put_under (environment_of places.entry) size depth under (tree_of t.now))) }
{
    match t {
        Term::Var(n) => put_variable(alloc, places, size, depth, under, *n),
        Term::Pi(domain, codomain) => Term::product_of(
            alloc,
            put_under(alloc, places, size, depth, under, domain),
            put_under(alloc, places, size, depth, under + 1, codomain),
        ),
        Term::Lam(domain, body) => Term::function_of(
            alloc,
            put_under(alloc, places, size, depth, under, domain),
            put_under(alloc, places, size, depth, under + 1, body),
        ),
        Term::App(function, argument) => Term::application_of(
            alloc,
            put_under(alloc, places, size, depth, under, function),
            put_under(alloc, places, size, depth, under, argument),
        ),
        Term::Let(ty, value, rest) => Term::local_of(
            alloc,
            put_under(alloc, places, size, depth, under, ty),
            put_under(alloc, places, size, depth, under, value),
            put_under(alloc, places, size, depth, under + 1, rest),
        ),
        Term::Sort(_)
        | Term::Const(_)
        | Term::Fam(_)
        | Term::Con(_, _)
        | Term::Elim(_, _)
        | Term::AxiomK(_, _) => copy_whole(alloc, t),
    }
}

/// A term over the first `size` variables with their terms put in, at a depth. Nothing tests its height.
pub fn put(alloc: Global, places: Places, size: u32, depth: u32, t: &Term) -> Result<Term, Stop>
    requires places { ArePlaces places }
    requires depth { depth ≤ 2147401000 }
    requires over { IsOver size (tree_of t.now) }
    ensures { Gives tree_of result (Ok (environments.put (environment_of places.entry) size depth (tree_of t.now))) }
{
    put_under(alloc, places, size, depth, 0, t)
}

/// `put` at each term of a list.
pub fn put_terms(
    alloc: Global,
    places: Places,
    size: u32,
    depth: u32,
    terms: &[Term],
) -> Result<Tele, Stop>
    requires places { ArePlaces places }
    requires depth { depth ≤ 2147401000 }
    requires over { AreOver size (tele_of terms.now) }
    ensures { Gives tele_of result (Ok (map (environments.put (environment_of places.entry) size depth) (tele_of terms.now))) }
{
    let mut made = Items::new(alloc);
    for t in terms {
        made.push(put(alloc, places, size, depth, t)?)?;
    }
    Ok(made)
}

/// How the sides of equations change: they stay, or a variable of theirs is solved.
#[derive(Clone, Copy)]
pub enum Sides<'a> {
    Same,
    Solved(Solution<'a>, u32),
}

fn side(alloc: Global, n: u32, sides: Sides, t: &Term) -> Result<Term, Stop>
    requires sides { AreSides n sides }
    requires over { IsOver n (tree_of t.now) }
    ensures { Gives tree_of result (Ok (side_of sides.entry (tree_of t.now))) }
{
    match sides {
        Sides::Same => copy_whole(alloc, t),
        Sides::Solved(solution, depth) => put(alloc, Places::Solved(solution), n, depth, t),
    }
}

/// Equations of terms over `n` variables, that came after `size` variables and now are at a depth, after those that are made:
/// `items` stands for the variables in their places, `types` in their types.
#[tactic(auto, using(tele_eq::proofs::Growing::growing))]
pub fn moved(
    alloc: Global,
    n: u32,
    items: Places,
    types: Places,
    sides: Sides,
    size: u32,
    depth: u32,
    equations: &[Equation],
    mut made: Items<Equation>,
) -> Result<Items<Equation>, Stop>
    requires items { ArePlaces items }
    requires types { ArePlaces types }
    requires sides { AreSides n sides }
    requires depth { depth + length equations.now ≤ 2147401000 }
    requires equations { AreBehind n size (equations_of equations.now) }
    ensures { Gives equations_of result (Ok (equations_of made ++ spec.moved (environment_of items.entry) (environment_of types.entry) (side_of sides.entry) size depth (equations_of equations.now))) }
{
    match equations {
        [] => Ok(made),
        [e, rest @ ..] => {
            made.push(moved_equation(alloc, n, items, types, sides, size, depth, e)?)?;
            moved(
                alloc,
                n,
                items,
                types,
                sides,
                size + 1,
                depth + 1,
                rest,
                made,
            )
        }
    }
}

/// One of them.
fn moved_equation(
    alloc: Global,
    n: u32,
    items: Places,
    types: Places,
    sides: Sides,
    size: u32,
    depth: u32,
    e: &Equation,
) -> Result<Equation, Stop>
    requires items { ArePlaces items }
    requires types { ArePlaces types }
    requires sides { AreSides n sides }
    requires depth { depth ≤ 2147401000 }
    requires place { IsOver size (tree_of e.now.place.ty) }
    requires ty { IsOver size (tree_of e.now.ty) }
    requires left { IsOver n (tree_of e.now.left) }
    requires right { IsOver n (tree_of e.now.right) }
    ensures { Gives equation_of result (Ok (equation_moved (environment_of items.entry) (environment_of types.entry) (side_of sides.entry) size depth (equation_of e.now))) }
{
    Ok(Equation {
        place: Item {
            ty: put(alloc, items, size, depth, &e.place.ty)?,
            level: e.place.level,
        },
        ty: put(alloc, types, size, depth, &e.ty)?,
        left: side(alloc, n, sides, &e.left)?,
        right: side(alloc, n, sides, &e.right)?,
    })
}
