ghost use Rattle.std.specs.Prelude.{◌≡◌, ◌≤◌, Ok, length};
ghost use Rattle.core_terms.specs.Answers.{Gives, bounded};
ghost use Rattle.core_terms.specs.Meanings.{tree_of, tele_of};
ghost use Rattle.tele_eq.specs.Items.{AreSmall, AreSmallTerms, IsSmall, items_of};
ghost use Rattle.tele_eq.specs.TelescopicEquality as spec;

use crate::Item;
use crate::sides::{Goal, Left, Pairs, Sides};
use crate::telescopic::telescopic_j as telescopic_j_into;
use crate::typing::all_positions;
use core_terms::{Items, Stop, Tele, Term, checked};
use std::alloc::Global;

/// The telescopic J along all equations, from `base` into `goal_head` applied to the right terms and then to the equations.
/// Its height is not tested.
pub fn telescopic_j_whole(
    alloc: Global,
    tele: &Items<Item>,
    left: &Tele,
    right: &Tele,
    eqs: &Tele,
    m: u8,
    goal_head: &Term,
    base: &Term,
) -> Result<Term, Stop>
    requires few { length tele.now ≤ 1000 }
    requires items { AreSmall (items_of tele.now) }
    requires left { AreSmallTerms (tele_of left.now) }
    requires right { AreSmallTerms (tele_of right.now) }
    requires eqs { AreSmallTerms (tele_of eqs.now) }
    requires goal_head { IsSmall (tree_of goal_head.now) }
    requires base { IsSmall (tree_of base.now) }
    ensures { Gives tree_of result (Ok (spec.elimination (items_of tele.now) m (tree_of goal_head.now) (tree_of base.now) (tele_of left.now) (tele_of right.now) (tele_of eqs.now))) }
{
    let positions = all_positions(alloc, tele.as_slice())?;
    telescopic_j_into(
        alloc,
        tele.as_slice().len() as u32,
        tele.as_slice(),
        Left::Terms(left.as_slice()),
        m,
        Goal::Applied(goal_head, base),
        positions.as_slice(),
        Pairs::Plain(Sides::Given(right.as_slice(), eqs.as_slice())),
        0,
    )
}

/// The telescopic J, or Deep if it is too high.
pub fn telescopic_j(
    alloc: Global,
    tele: &Items<Item>,
    left: &Tele,
    right: &Tele,
    eqs: &Tele,
    m: u8,
    goal_head: &Term,
    base: &Term,
) -> Result<Term, Stop>
    requires few { length tele.now ≤ 1000 }
    requires items { AreSmall (items_of tele.now) }
    requires left { AreSmallTerms (tele_of left.now) }
    requires right { AreSmallTerms (tele_of right.now) }
    requires eqs { AreSmallTerms (tele_of eqs.now) }
    requires goal_head { IsSmall (tree_of goal_head.now) }
    requires base { IsSmall (tree_of base.now) }
    ensures { Gives tree_of result (bounded (spec.elimination (items_of tele.now) m (tree_of goal_head.now) (tree_of base.now) (tele_of left.now) (tele_of right.now) (tele_of eqs.now))) }
{
    checked(telescopic_j_whole(alloc, tele, left, right, eqs, m, goal_head, base)?)
}
