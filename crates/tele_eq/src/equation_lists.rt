ghost use Rattle.std.specs.Prelude.{◌≡◌, ◌≤◌, ◌+◌, ◌++◌, Ok, length};
ghost use Rattle.core_terms.specs.Answers.{Gives, bounded_terms};
ghost use Rattle.core_terms.specs.Meanings.{tele_of};
ghost use Rattle.tele_eq.specs.Items.{AreSmall, AreSmallTerms, each_position, items_of};
ghost use Rattle.tele_eq.specs.TelescopicEquality as spec;

use crate::Item;
use crate::lists::bounded_terms;
use crate::sides::{Left, Pairs, Sides};
use crate::telescopic::equation;
use core_terms::{Items, Stop, Tele, Term};
use std::alloc::Global;

/// The equations at `count` positions from `j` on, after those that are made.
#[tactic(auto, using(crate::proofs::Growing::growing))]
fn equations_from(
    alloc: Global,
    n: u32,
    tele: &[Item],
    left: &[Term],
    right: &[Term],
    j: u32,
    count: u32,
    mut made: Tele,
) -> Result<Tele, Stop>
    requires items { AreSmall (items_of tele.now) }
    requires left { AreSmallTerms (tele_of left.now) }
    requires right { AreSmallTerms (tele_of right.now) }
    requires n { n ≤ 1000 }
    requires positions { j + count ≤ 1000 }
    ensures { Gives tele_of result (Ok (tele_of made ++ each_position (spec.equation_behind n (items_of tele.now) (tele_of left.now) (tele_of right.now)) j count)) }
{
    if count == 0 {
        return Ok(made);
    }
    let pairs = Pairs::Plain(Sides::Bound(right));
    made.push(equation(alloc, n, tele, Left::Terms(left), pairs, j, j)?)?;
    equations_from(alloc, n, tele, left, right, j + 1, count - 1, made)
}

/// The telescope of the equations between two lists of terms. Their heights are not tested.
pub fn tele_equations_whole(
    alloc: Global,
    tele: &Items<Item>,
    left: &Tele,
    right: &Tele,
) -> Result<Tele, Stop>
    requires few { length tele.now ≤ 1000 }
    requires items { AreSmall (items_of tele.now) }
    requires left { AreSmallTerms (tele_of left.now) }
    requires right { AreSmallTerms (tele_of right.now) }
    ensures { Gives tele_of result (Ok (spec.equations (items_of tele.now) (tele_of left.now) (tele_of right.now))) }
{
    let count = tele.as_slice().len() as u32;
    equations_from(
        alloc,
        count,
        tele.as_slice(),
        left.as_slice(),
        right.as_slice(),
        0,
        count,
        Items::new(alloc),
    )
}

/// The telescope of the equations between two lists of terms, or Deep where one of them is too high.
pub fn tele_equations(
    alloc: Global,
    tele: &Items<Item>,
    left: &Tele,
    right: &Tele,
) -> Result<Tele, Stop>
    requires few { length tele.now ≤ 1000 }
    requires items { AreSmall (items_of tele.now) }
    requires left { AreSmallTerms (tele_of left.now) }
    requires right { AreSmallTerms (tele_of right.now) }
    ensures { Gives tele_of result (bounded_terms (spec.equations (items_of tele.now) (tele_of left.now) (tele_of right.now))) }
{
    bounded_terms(tele_equations_whole(alloc, tele, left, right)?)
}
