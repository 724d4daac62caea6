ghost use Rattle.std.specs.Prelude.{◌≡◌, ◌≤◌, ◌+◌, ◌++◌, Ok, length};
ghost use Rattle.core_terms.specs.Answers.{Gives, bounded_terms};
ghost use Rattle.core_terms.specs.Meanings.{tele_of};
ghost use Rattle.tele_eq.specs.CodeEnvironments.{AreSmallSides, IsSmallMap, congruences_of, proofs_of, variables_of};
ghost use Rattle.tele_eq.specs.Congruences as spec;
ghost use Rattle.tele_eq.specs.Environments.{outside};
ghost use Rattle.tele_eq.specs.Items.{AreSmall, AreSmallTerms, each_position, items_of};

use crate::Item;
use crate::lists::bounded_terms;
use crate::sides::{Map, Sides};
use crate::telescopic::congruence_below;
use core_terms::{Items, Stop, Tele};
use std::alloc::Global;

/// The congruences at `count` positions from `j` on, each with those of `n` levels before it, after those that are made.
#[tactic(auto, using(crate::proofs::Growing::growing))]
fn congruences_from(
    alloc: Global,
    map: Map,
    n: u32,
    sides: Sides,
    j: u32,
    count: u32,
    mut made: Tele,
) -> Result<Tele, Stop>
    requires map { IsSmallMap map }
    requires sides { AreSmallSides sides }
    requires n { n ≤ 1000 }
    requires positions { j + count ≤ 1000 }
    ensures { Gives tele_of result (Ok (tele_of made ++ each_position (congruences_of n map.entry (variables_of (outside (tele_of map.entry.left.now)) sides.entry) (proofs_of (items_of map.entry.from.now) (outside (tele_of map.entry.left.now)) sides.entry) 0) j count)) }
{
    if count == 0 {
        return Ok(made);
    }
    made.push(congruence_below(alloc, map, n, sides, 0, j)?)?;
    congruences_from(alloc, map, n, sides, j + 1, count - 1, made)
}

/// For terms over the telescope `from` that inhabit the telescope `to`: the equations between these terms at the left terms
/// and at the right terms, from the equations between these. Their heights are not tested.
pub fn cong_whole(
    alloc: Global,
    from: &Items<Item>,
    to: &Items<Item>,
    terms: &Tele,
    left: &Tele,
    right: &Tele,
    eqs: &Tele,
) -> Result<Tele, Stop>
    requires few_from { length from.now ≤ 1000 }
    requires few_to { length to.now ≤ 1000 }
    requires from { AreSmall (items_of from.now) }
    requires to { AreSmall (items_of to.now) }
    requires terms { AreSmallTerms (tele_of terms.now) }
    requires left { AreSmallTerms (tele_of left.now) }
    requires right { AreSmallTerms (tele_of right.now) }
    requires eqs { AreSmallTerms (tele_of eqs.now) }
    ensures { Gives tele_of result (Ok (spec.congruences (items_of from.now) (items_of to.now) (tele_of terms.now) (tele_of left.now) (tele_of right.now) (tele_of eqs.now))) }
{
    let map = Map {
        from: from.as_slice(),
        to: to.as_slice(),
        terms: terms.as_slice(),
        left: left.as_slice(),
    };
    let sides = Sides::Given(right.as_slice(), eqs.as_slice());
    let count = to.as_slice().len() as u32;
    congruences_from(alloc, map, count, sides, 0, count, Items::new(alloc))
}

/// The congruences, or Deep if one of them is too high.
pub fn cong(
    alloc: Global,
    from: &Items<Item>,
    to: &Items<Item>,
    terms: &Tele,
    left: &Tele,
    right: &Tele,
    eqs: &Tele,
) -> Result<Tele, Stop>
    requires few_from { length from.now ≤ 1000 }
    requires few_to { length to.now ≤ 1000 }
    requires from { AreSmall (items_of from.now) }
    requires to { AreSmall (items_of to.now) }
    requires terms { AreSmallTerms (tele_of terms.now) }
    requires left { AreSmallTerms (tele_of left.now) }
    requires right { AreSmallTerms (tele_of right.now) }
    requires eqs { AreSmallTerms (tele_of eqs.now) }
    ensures { Gives tele_of result (bounded_terms (spec.congruences (items_of from.now) (items_of to.now) (tele_of terms.now) (tele_of left.now) (tele_of right.now) (tele_of eqs.now))) }
{
    bounded_terms(cong_whole(alloc, from, to, terms, left, right, eqs)?)
}
