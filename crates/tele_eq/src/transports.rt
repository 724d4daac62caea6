ghost use Rattle.std.specs.Prelude.{◌≡◌, ◌≤◌, ◌<◌, Ok, length};
ghost use Rattle.core_terms.specs.Answers.{Gives, bounded};
ghost use Rattle.core_terms.specs.Meanings.{tree_of, tele_of};
ghost use Rattle.tele_eq.specs.Items.{AreSmall, AreSmallTerms, items_of};
ghost use Rattle.tele_eq.specs.TelescopicEquality as spec;

use crate::Item;
use crate::dependences::dependences;
use crate::sides::{Left, Pairs, Sides};
use crate::telescopic::transported;
use core_terms::{Items, Stop, Tele, Term, checked};
use std::alloc::Global;

/// The left term at a position, transported along the equations that its type depends on, or Deep.
pub fn transport(
    alloc: Global,
    tele: &Items<Item>,
    upto: u32,
    left: &Tele,
    right: &Tele,
    eqs: &Tele,
) -> Result<Term, Stop>
    requires few { length tele.now ≤ 1000 }
    requires upto { upto < length tele.now }
    requires items { AreSmall (items_of tele.now) }
    requires left { AreSmallTerms (tele_of left.now) }
    requires right { AreSmallTerms (tele_of right.now) }
    requires eqs { AreSmallTerms (tele_of eqs.now) }
    ensures { Gives tree_of result (bounded (spec.transport (items_of tele.now) upto (tele_of left.now) (tele_of right.now) (tele_of eqs.now))) }
{
    let positions = dependences(alloc, tele.as_slice(), upto)?;
    let whole = transported(
        alloc,
        tele.as_slice().len() as u32,
        tele.as_slice(),
        Left::Terms(left.as_slice()),
        positions.as_slice(),
        upto,
        Pairs::Plain(Sides::Given(right.as_slice(), eqs.as_slice())),
        0,
    )?;
    checked(whole)
}
