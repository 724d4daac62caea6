ghost use Rattle.std.specs.Prelude.{◌≡◌, ◌≤◌, ◌<◌, ◌+◌, ◌++◌, Ok, IfOk, length};
ghost use Rattle.core_terms.specs.Answered.{of_two, shown};
ghost use Rattle.core_terms.specs.Answers.{Gives};
ghost use Rattle.core_terms.specs.Levels as levels;
ghost use Rattle.core_terms.specs.Meanings.{tree_of, tele_of};
ghost use Rattle.tele_eq.specs.CodeEnvironments.{AreSmallPairs, IsSmallLeft, environment_of, left_of};
ghost use Rattle.tele_eq.specs.Congruences as congruences;
ghost use Rattle.tele_eq.specs.Environments as environments;
ghost use Rattle.tele_eq.specs.Items.{AreSmall, items_of};
ghost use Rattle.tele_eq.specs.Items as items;
ghost use Rattle.tele_eq.specs.TelescopicEquality as spec;
ghost use Rattle.theory.specs.Signatures as signatures;
ghost use Rattle.theory.specs.Terms as tree;

use crate::Item;
use crate::environment::{left_at, put};
use crate::sides::{Left, Pairs, Sides};
use core_sig::equality;
use core_terms::{Binder, Stop, Term};
use std::alloc::Global;

/// The level at a position, or 0 after the last one.
pub(crate) fn level_at(tele: &[Item], position: u32) -> u8
    ensures { result ≡ items.level_at (items_of tele.now) position }
{
    match tele {
        [] => 0,
        [item, rest @ ..] => {
            if position == 0 {
                item.level
            } else {
                level_at(rest, position - 1)
            }
        }
    }
}

fn type_from(
    alloc: Global,
    tele: &[Item],
    left: Left,
    pairs: Pairs,
    size: u32,
    depth: u32,
    position: u32,
) -> Result<Term, Stop>
    requires items { AreSmall (items_of tele.now) }
    requires left { IsSmallLeft left }
    requires pairs { AreSmallPairs pairs }
    requires depth { depth ≤ 2040000000 }
    ensures { Gives tree_of result (Ok (environments.put (environment_of (left_of left.entry) pairs.entry) size depth (items.type_at (items_of tele.now) position))) }
{
    match tele {
        [] => Ok(Term::Sort(0)),
        [item, rest @ ..] => {
            if position == 0 {
                put(alloc, left, pairs, size, depth, &item.ty)
            } else {
                type_from(alloc, rest, left, pairs, size, depth, position - 1)
            }
        }
    }
}

/// The type at a position, with the terms for the variables before it.
pub(crate) fn type_with(
    alloc: Global,
    tele: &[Item],
    left: Left,
    pairs: Pairs,
    depth: u32,
    j: u32,
) -> Result<Term, Stop>
    requires items { AreSmall (items_of tele.now) }
    requires left { IsSmallLeft left }
    requires pairs { AreSmallPairs pairs }
    requires depth { depth ≤ 2040000000 }
    ensures { Gives tree_of result (Ok (spec.type_with (items_of tele.now) (environment_of (left_of left.entry) pairs.entry) depth j)) }
{
    type_from(alloc, tele, left, pairs, j, depth, j)
}

/// The type at a position, with the left terms for the variables before it.
pub(crate) fn left_type(
    alloc: Global,
    tele: &[Item],
    left: Left,
    depth: u32,
    j: u32,
) -> Result<Term, Stop>
    requires items { AreSmall (items_of tele.now) }
    requires left { IsSmallLeft left }
    requires depth { depth ≤ 2040000000 }
    ensures { Gives tree_of result (Ok (spec.type_with (items_of tele.now) (left_of left.entry) depth j)) }
{
    let pairs = Pairs::Plain(Sides::Inside(&[], 0));
    type_with(alloc, tele, left, pairs, depth, j)
}

/// The reflexivity of the left term at a position.
pub(crate) fn reflexive(
    alloc: Global,
    tele: &[Item],
    left: Left,
    depth: u32,
    j: u32,
) -> Result<Term, Stop>
    requires items { AreSmall (items_of tele.now) }
    requires left { IsSmallLeft left }
    requires depth { depth ≤ 2040000000 }
    ensures { Gives tree_of result (Ok (spec.reflexive (items_of tele.now) (left_of left.entry) depth j)) }
{
    let head = Ok(Term::Con(equality(level_at(tele, j)), 0));
    let head = Term::application_of(alloc, head, left_type(alloc, tele, left, depth, j));
    Term::application_of(alloc, head, left_at(alloc, left, depth, j))
}

/// The equation of the left term at a position and a term, at the type that the left terms have.
pub(crate) fn left_equation(
    alloc: Global,
    tele: &[Item],
    left: Left,
    depth: u32,
    j: u32,
    right: Term,
) -> Result<Term, Stop>
    requires items { AreSmall (items_of tele.now) }
    requires left { IsSmallLeft left }
    requires depth { depth ≤ 2040000000 }
    ensures { Gives tree_of result (Ok (signatures.equation (items.level_at (items_of tele.now) j) (spec.type_with (items_of tele.now) (left_of left.entry) depth j) (left_of left.entry depth j) (tree_of right))) }
{
    let head = Ok(Term::Fam(equality(level_at(tele, j))));
    let head = Term::application_of(alloc, head, left_type(alloc, tele, left, depth, j));
    let head = Term::application_of(alloc, head, left_at(alloc, left, depth, j));
    Term::application_of(alloc, head, Ok(right))
}

/// The eliminator into Type `m` of equations with the left term at a position.
pub(crate) fn left_eliminator(
    alloc: Global,
    tele: &[Item],
    left: Left,
    m: u8,
    depth: u32,
    j: u32,
) -> Result<Term, Stop>
    requires items { AreSmall (items_of tele.now) }
    requires left { IsSmallLeft left }
    requires depth { depth ≤ 2040000000 }
    ensures { Gives tree_of result (Ok (tree.App (tree.App (tree.Elim (signatures.equality (items.level_at (items_of tele.now) j)) m) (spec.type_with (items_of tele.now) (left_of left.entry) depth j)) (left_of left.entry depth j))) }
{
    let head = Ok(Term::Elim(equality(level_at(tele, j)), m));
    let head = Term::application_of(alloc, head, left_type(alloc, tele, left, depth, j));
    Term::application_of(alloc, head, left_at(alloc, left, depth, j))
}

/// A product or a function of two answers. Its height is not tested.
pub(crate) fn bound_of(
    alloc: Global,
    binder: Binder,
    domain: Result<Term, Stop>,
    body: Result<Term, Stop>,
) -> Result<Term, Stop>
    ensures { Gives tree_of result (of_two (levels.bind binder) (shown domain) (shown body)) }
{
    match binder {
        Binder::Product => Term::product_of(alloc, domain, body),
        Binder::Function => Term::function_of(alloc, domain, body),
    }
}

/// The greatest of a level and those at some positions.
pub(crate) fn greatest_level(tele: &[Item], level: u8, positions: &[u32]) -> u8
    ensures { result ≡ items.greatest_level (items_of tele.now) level positions.now }
{
    match positions {
        [] => level,
        [position, rest @ ..] => greatest_level(tele, level.max(level_at(tele, *position)), rest),
    }
}

/// The greatest of a level and those at `count` positions from `j` on.
fn greatest_from(tele: &[Item], level: u8, j: u32, count: u32) -> u8
    requires { j + count ≤ 1000 }
    ensures { result ≡ items.greatest_level (items_of tele.now) level (items.each_position (λ k. k) j count) }
{
    if count == 0 {
        return level;
    }
    greatest_from(tele, level.max(level_at(tele, j)), j + 1, count - 1)
}

/// The positions before, and `count` positions from `j` on.
#[tactic(auto, using(crate::proofs::Growing::listing))]
fn positions_from(alloc: Global, j: u32, count: u32, mut before: Vec<u32>) -> Result<Vec<u32>, Stop>
    requires positions { j + count ≤ 1000 }
    requires low { items.AreUpTo 1000 before.items }
    requires few { length before.items + count ≤ 1000 }
    ensures is { Gives (λ v. v.items) result (Ok (before.items ++ items.each_position (λ k. k) j count)) }
    ensures few { IfOk result (λ v. length v.items ≤ 1000) }
    ensures low { IfOk result (λ v. items.AreUpTo 1000 v.items) }
{
    if count == 0 {
        return Ok(before);
    }
    before.push(j)?;
    positions_from(alloc, j + 1, count - 1, before)
}

/// All positions of a telescope.
pub(crate) fn all_positions(alloc: Global, tele: &[Item]) -> Result<Vec<u32>, Stop>
    requires { length tele.now ≤ 1000 }
    ensures is { Gives (λ v. v.items) result (Ok (items.positions_of (items_of tele.now))) }
    ensures few { IfOk result (λ v. length v.items ≤ 1000) }
    ensures low { IfOk result (λ v. items.AreUpTo 1000 v.items) }
{
    positions_from(alloc, 0, tele.len() as u32, Vec::new(alloc))
}

/// The greatest level in two telescopes.
pub(crate) fn common_level(from: &[Item], to: &[Item]) -> u8
    requires from { length from.now ≤ 1000 }
    requires to { length to.now ≤ 1000 }
    ensures { result ≡ congruences.common_level (items_of from.now) (items_of to.now) }
{
    let level = greatest_from(from, 0, 0, from.len() as u32);
    greatest_from(to, level, 0, to.len() as u32)
}
