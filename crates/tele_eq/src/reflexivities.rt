ghost use Rattle.std.specs.Prelude.{◌≡◌, ◌≤◌, ◌+◌, ◌++◌, Ok, length};
ghost use Rattle.core_terms.specs.Answers.{Gives, bounded_terms};
ghost use Rattle.core_terms.specs.Meanings.{tele_of};
ghost use Rattle.tele_eq.specs.Environments.{outside};
ghost use Rattle.tele_eq.specs.Items.{AreSmall, AreSmallTerms, each_position, items_of};
ghost use Rattle.tele_eq.specs.TelescopicEquality as spec;

use crate::Item;
use crate::lists::bounded_terms;
use crate::sides::Left;
use crate::typing::reflexive;
use core_terms::{Items, Stop, Tele, Term};
use std::alloc::Global;

/// The reflexivities of `count` positions from `j` on, after those that are made.
#[tactic(auto, using(crate::proofs::Growing::growing))]
fn reflexivities_from(
    alloc: Global,
    tele: &[Item],
    terms: &[Term],
    j: u32,
    count: u32,
    mut made: Tele,
) -> Result<Tele, Stop>
    requires items { AreSmall (items_of tele.now) }
    requires terms { AreSmallTerms (tele_of terms.now) }
    requires positions { j + count ≤ 1000 }
    ensures { Gives tele_of result (Ok (tele_of made ++ each_position (spec.reflexive (items_of tele.now) (outside (tele_of terms.now)) 0) j count)) }
{
    if count == 0 {
        return Ok(made);
    }
    made.push(reflexive(alloc, tele, Left::Terms(terms), 0, j)?)?;
    reflexivities_from(alloc, tele, terms, j + 1, count - 1, made)
}

/// refl.i_j A_j u_j for each position of a telescope. Their heights are not tested.
pub fn refl_list_whole(alloc: Global, tele: &Items<Item>, terms: &Tele) -> Result<Tele, Stop>
    requires few { length tele.now ≤ 1000 }
    requires items { AreSmall (items_of tele.now) }
    requires terms { AreSmallTerms (tele_of terms.now) }
    ensures { Gives tele_of result (Ok (spec.reflexivities (items_of tele.now) (tele_of terms.now))) }
{
    let count = tele.as_slice().len() as u32;
    reflexivities_from(
        alloc,
        tele.as_slice(),
        terms.as_slice(),
        0,
        count,
        Items::new(alloc),
    )
}

/// refl.i_j A_j u_j for each position of a telescope, or Deep where one of them is too high.
pub fn refl_list(alloc: Global, tele: &Items<Item>, terms: &Tele) -> Result<Tele, Stop>
    requires few { length tele.now ≤ 1000 }
    requires items { AreSmall (items_of tele.now) }
    requires terms { AreSmallTerms (tele_of terms.now) }
    ensures { Gives tele_of result (bounded_terms (spec.reflexivities (items_of tele.now) (tele_of terms.now))) }
{
    bounded_terms(refl_list_whole(alloc, tele, terms)?)
}
