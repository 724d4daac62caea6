ghost use Rattle.std.specs.Prelude.{◌≡◌, ◌++◌, Ok, drop, set};
ghost use Rattle.core_terms.specs.Answers.{Gives};
ghost use Rattle.core_terms.specs.Meanings.{tree_of, tele_of};
ghost use Rattle.theory.specs.Telescopes as telescopes;
ghost use Rattle.theory.specs.Terms as tree;
ghost use Rattle.tele_eq.specs.Items as items;
ghost use Rattle.tree_translation.specs.Recursion as recursions;

use crate::below_types::copied_at;
use core_terms::{Stop, Term};
use std::alloc::Global;
use std::mem;
use tele_eq::is_among;

/// The term at a position, or Type 0 where there is none. Type 0 is left in its place.
#[tactic(auto, using(crate::proofs::Taking::taking))]
fn taken_at(terms: &mut Vec<Term>, position: u32) -> Term
    ensures value { tree_of result ≡ items.term_at (tele_of terms.old.items) position }
    ensures left { tele_of terms.new.items ≡ set (tele_of terms.old.items) position (tree.Sort 0) }
{
    match terms.get_mut(position as usize) {
        Some(t) => mem::replace(t, Term::Sort(0)),
        None => Term::Sort(0),
    }
}

/// The term at a position. It is copied only if it is needed once more: at a later position, or among the terms from `count` on.
fn taken_or_copied(
    alloc: Global,
    position: u32,
    later: &[u32],
    count: u32,
    terms: &mut Vec<Term>,
) -> Result<Term, Stop>
    ensures value { Gives tree_of result (Ok (items.term_at (tele_of terms.old.items) position)) }
    ensures at_later { recursions.terms_at later.now (tele_of terms.new.items) ≡ recursions.terms_at later.now (tele_of terms.old.items) }
    ensures further { drop count (tele_of terms.new.items) ≡ drop count (tele_of terms.old.items) }
{
    if position < count && !is_among(position, later) {
        return Ok(taken_at(terms, position));
    }
    copied_at(alloc, terms.as_slice(), position)
}

/// `head` applied to the terms after the first `count` ones.
fn applied_to_further(alloc: Global, head: Term, count: u32, terms: Vec<Term>) -> Result<Term, Stop>
    ensures { Gives tree_of result (Ok (telescopes.applied (tree_of head) (drop count (tele_of terms.items)))) }
{
    let mut whole = head;
    let mut passed = 0;
    for t in terms {
        if passed < count {
            passed += 1;
        } else {
            whole = Term::new_app(alloc, whole, t)?;
        }
    }
    Ok(whole)
}

/// `head` applied to the terms at some positions, and to those after the first `count` ones. A term is moved where it is needed once.
pub(crate) fn applied_to_taken(
    alloc: Global,
    head: Term,
    positions: &[u32],
    count: u32,
    mut terms: Vec<Term>,
) -> Result<Term, Stop>
    ensures { Gives tree_of result (Ok (telescopes.applied (tree_of head) (recursions.terms_at positions.now (tele_of terms.items) ++ drop count (tele_of terms.items)))) }
{
    match positions {
        [] => applied_to_further(alloc, head, count, terms),
        [j, rest @ ..] => {
            let t = taken_or_copied(alloc, *j, rest, count, &mut terms)?;
            let head = Term::new_app(alloc, head, t)?;
            applied_to_taken(alloc, head, rest, count, terms)
        }
    }
}
