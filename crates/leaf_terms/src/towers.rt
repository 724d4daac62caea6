ghost use Rattle.std.specs.Prelude.{◌≡◌, Ok, option_map};
ghost use Rattle.core_terms.specs.Answers.{Gives};
ghost use Rattle.core_terms.specs.Meanings.{tree_of, tele_of};
ghost use Rattle.leaf_terms.specs.CodeRightSides as spec;
ghost use Rattle.leaf_terms.specs.PlaceMeanings.{arguments_of};

use core_terms::{Stop, Term, checked};
use std::alloc::Global;

/// A term with so many binders, one inside the other.
#[tactic(auto, unfolding(crate::specs::CodeRightSides::tower))]
fn tower(alloc: Global, count: u32) -> Result<Term, Stop>
    ensures { Gives tree_of result (Ok (spec.tower count)) }
{
    if count == 0 {
        return Ok(Term::Sort(0));
    }
    let inner = tower(alloc, count - 1)?;
    Term::new_pi(alloc, inner, Term::Sort(0))
}

/// The tower in the place of a term that is not made since it is too high.
#[tactic(auto, unfolding(crate::specs::CodeRightSides::too_high))]
fn too_high(alloc: Global) -> Result<Term, Stop>
    ensures { Gives tree_of result (Ok spec.too_high) }
{
    tower(alloc, 2001)
}

/// A term, or a tower in the place of one that is too high.
pub fn or_tower(alloc: Global, t: Option<Term>) -> Result<Term, Stop>
    ensures { Gives tree_of result (Ok (spec.or_tower (option_map tree_of t))) }
{
    match t {
        Some(t) => Ok(t),
        None => too_high(alloc),
    }
}

/// The arguments, with a tower in the place of each one that is too high.
#[tactic(auto, using(crate::proofs::TowerHeights::growing_lists))]
pub fn or_towers(alloc: Global, arguments: Vec<Option<Term>>) -> Result<Vec<Term>, Stop>
    ensures { Gives (λ v. tele_of v.items) result (Ok (spec.or_towers (arguments_of arguments.items))) }
{
    let mut made = Vec::new(alloc);
    for t in arguments {
        made.push(or_tower(alloc, t)?)?;
    }
    Ok(made)
}

/// A term that is made, or Deep where it is too high.
pub fn low_or_deep(t: Option<Term>) -> Result<Term, Stop>
    ensures { Gives tree_of result (spec.low_or_deep (option_map tree_of t)) }
{
    match t {
        None => Err(Stop::Deep),
        Some(t) => checked(t),
    }
}
