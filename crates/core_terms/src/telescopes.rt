ghost use Rattle.std.specs.Prelude.{◌≡◌, ◌≤◌, ◌<◌, ◌+◌, ◌^◌, ◌++◌, true, false, length, IfErr, OnOk};
ghost use Rattle.std.specs.List.{All};
ghost use Rattle.core_terms.specs.Answers.{Gives, IsUnforeseen, Unless, are_low, bounded_terms};
ghost use Rattle.core_terms.specs.Bounds.{most_free};
ghost use Rattle.core_terms.specs.Meanings.{tree_of, tele_of};
ghost use Rattle.core_terms.specs.Substitution.{subst_telescope_under};
ghost use Rattle.core_terms.specs.Telescopes.{lift_telescope, subst_telescope};
ghost use Rattle.core_terms.specs.declared.stop.Stop.TheVariants.{Deep};
ghost use Rattle.theory.specs.Terms as tree;

use crate::substitution::subst_under;
use crate::{Items, Stop, Tele, Term, lift};
use std::alloc::Global;

/// `lift` through a telescope, whose types are each over those before it as well. Deep where one of them is too high.
pub fn lift_tele(alloc: Global, tele: &[Term], by: u32, from: u32) -> Result<Tele, Stop>
    requires indices { All (λ t. tree.free_of t + by ≤ most_free) (tele_of tele.now) }
    requires binders { from + length tele.now < 2 ^ 32 }
    ensures { Gives tele_of result (bounded_terms (lift_telescope (tele_of tele.now) by from)) }
{
    let mut lifted = Items::new(alloc);
    add_lifted(alloc, tele, by, from, &mut lifted)?;
    Ok(lifted)
}

fn add_lifted(
    alloc: Global,
    tele: &[Term],
    by: u32,
    from: u32,
    lifted: &mut Tele,
) -> Result<(), Stop>
    requires indices { All (λ t. tree.free_of t + by ≤ most_free) (tele_of tele.now) }
    requires binders { from + length tele.now < 2 ^ 32 }
    ensures ok { OnOk result (tele_of lifted.new ≡ tele_of lifted.old ++ lift_telescope (tele_of tele.now) by from) }
    ensures low { OnOk result (are_low (lift_telescope (tele_of tele.now) by from) ≡ true) }
    ensures deep { IfErr result (λ e. Unless (IsUnforeseen e) ((e ≡ Deep) × (are_low (lift_telescope (tele_of tele.now) by from) ≡ false))) }
{
    match tele {
        [] => Ok(()),
        [ty, rest @ ..] => {
            lifted.push(lift(alloc, ty, by, from)?)?;
            add_lifted(alloc, rest, by, from + 1, lifted)
        }
    }
}

/// `subst` through a telescope, whose types are each over those before it as well. Deep where one of the outcomes is too high.
#[tactic(auto, using(crate::proofs::SubstUnder::telescope_laws))]
pub fn subst_tele(alloc: Global, tele: &[Term], at: u32, by: &Term) -> Result<Tele, Stop>
    requires indices { tree.free_of (tree_of by.now) + length tele.now ≤ most_free }
    requires binders { at + length tele.now < 2 ^ 32 }
    ensures { Gives tele_of result (bounded_terms (subst_telescope (tele_of tele.now) at (tree_of by.now))) }
{
    let mut put = Items::new(alloc);
    add_substituted(alloc, tele, at, by, 0, &mut put)?;
    Ok(put)
}

fn add_substituted(
    alloc: Global,
    tele: &[Term],
    at: u32,
    by: &Term,
    under: u32,
    put: &mut Tele,
) -> Result<(), Stop>
    requires indices { tree.free_of (tree_of by.now) + under + length tele.now ≤ most_free }
    requires binders { at + length tele.now < 2 ^ 32 }
    ensures ok { OnOk result (tele_of put.new ≡ tele_of put.old ++ subst_telescope_under (tele_of tele.now) at (tree_of by.now) under) }
    ensures low { OnOk result (are_low (subst_telescope_under (tele_of tele.now) at (tree_of by.now) under) ≡ true) }
    ensures deep { IfErr result (λ e. Unless (IsUnforeseen e) ((e ≡ Deep) × (are_low (subst_telescope_under (tele_of tele.now) at (tree_of by.now) under) ≡ false))) }
{
    match tele {
        [] => Ok(()),
        [ty, rest @ ..] => {
            put.push(subst_under(alloc, ty, at, by, under)?)?;
            add_substituted(alloc, rest, at + 1, by, under + 1, put)
        }
    }
}
