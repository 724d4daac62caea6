ghost use Rattle.std.specs.Prelude.{◌≡◌, [], IfOk, Ok, get_or, map};
ghost use Rattle.core_terms.specs.Answers.{Gives, and_then};
ghost use Rattle.core_terms.specs.Meanings.{tree_of, tele_of};
ghost use Rattle.core_terms.specs.TreeMeanings.{walk_of};
ghost use Rattle.tree_translation.specs.Mappings as mappings;
ghost use Rattle.tree_translation.specs.RightSides as sides;
ghost use Rattle.tree_translation.specs.Standings as standings;
ghost use Rattle.run_terms.specs.CodeNaming.{naming_of};
ghost use Rattle.leaf_terms.specs.CodeRightSides as spec;
ghost use Rattle.leaf_terms.specs.PlaceMeanings.{HaveFamilies, HavePlaceFamilies, leaf_of, translation_of};
ghost use Rattle.leaf_terms.specs.PlanMeanings.{part_of, plan_of};

use crate::below_values::with_belows;
use crate::calls::term_or;
use crate::mappings::{in_old_order, mapping};
use crate::plan::{Part, Plan};
use crate::recursion::NamedRecursion;
use crate::right_sides::{Place, with_calls};
use crate::towers::low_or_deep;
use core_sig::Signature;
use core_terms::{Items, Stop, Tele, Term, Walk, head};
use run_terms::{Naming, all_placed, instance, visible};
use std::alloc::Global;

/// The data from which the terms of a tree's leaves are made.
#[derive(Clone, Copy)]
pub struct Translation<'a> {
    pub sig: &'a Signature,
    pub naming: Naming<'a>,
    pub plan: &'a Plan,
    pub recursions: &'a [NamedRecursion<'a>],
    pub part: &'a Part,
    pub order: &'a [u32],
}

/// Whether a term is the constant of a helper.
fn is_helper(base: u32, t: &Term) -> bool
    ensures { result ≡ sides.is_helper base (tree_of t.now) }
{
    match t {
        Term::Const(c) => base < *c,
        _ => false,
    }
}

/// The terms for the variables of the context of a clause's walk, by its comparison with a leaf. There are none without
/// a walk.
fn values_in_walk(
    alloc: Global,
    walks: &[Walk],
    clause: u32,
    substitution: &[Term],
    terms: &[Term],
) -> Result<Tele, Stop>
    ensures { Gives tele_of result (Ok (mappings.mapping (get_or (map walk_of walks.now) clause sides.no_walk) (tele_of substitution.now) (tele_of terms.now))) }
{
    match walks {
        [] => Ok(Items::new(alloc)),
        [walk, rest @ ..] => {
            if clause == 0 {
                mapping(alloc, walk, substitution, terms)
            } else {
                values_in_walk(alloc, rest, clause - 1, substitution, terms)
            }
        }
    }
}

/// The terms for the variables of the context of a clause's walk, by a leaf's own substitution, which is in the order
/// of the tree.
fn values_of_helper(
    alloc: Global,
    w: &Translation,
    clause: u32,
    substitution: &[Term],
    terms: &[Term],
) -> Result<Tele, Stop>
    ensures { Gives tele_of result (Ok (mappings.mapping (get_or (part_of w.now.part.now).walks clause sides.no_walk) (mappings.in_old_order w.now.order.now (tele_of substitution.now)) (tele_of terms.now))) }
{
    let substitution = in_old_order(alloc, w.order, substitution)?;
    values_in_walk(
        alloc,
        w.part.walks.as_slice(),
        clause,
        substitution.as_slice(),
        terms,
    )
}

/// The terms for the variables of a clause's right side, over variables that have these levels, of `n`.
fn placed_values(
    alloc: Global,
    w: &Translation,
    levels: &[u32],
    n: u32,
    clause: u32,
    side: &Term,
    substitution: &[Term],
    terms: &[Term],
    binds: &[Term],
) -> Result<Tele, Stop>
    ensures { Gives tele_of result (Ok (standings.all_placed levels.now n (sides.values_at (plan_of w.now.plan.now) (part_of w.now.part.now) w.now.order.now clause (tree_of side.now) (tele_of substitution.now) (tele_of terms.now) (tele_of binds.now)))) }
{
    if is_helper(w.plan.base, head(side)) {
        let values = values_of_helper(alloc, w, clause, substitution, terms)?;
        return all_placed(alloc, levels, n, values.as_slice(), Items::new(alloc));
    }
    all_placed(alloc, levels, n, binds, Items::new(alloc))
}

/// The right side of a clause at a leaf, before its calls are made.
#[tactic(auto, using(core_terms::proofs::Instances::instance_laws))]
fn side_at(
    alloc: Global,
    w: &Translation,
    levels: &[u32],
    n: u32,
    clause: u32,
    substitution: &[Term],
    terms: &[Term],
    binds: &[Term],
) -> Result<Term, Stop>
    ensures { Gives tree_of result (Ok (spec.side_with (plan_of w.now.plan.now) (part_of w.now.part.now) w.now.order.now levels.now n clause (tele_of substitution.now) (tele_of terms.now) (tele_of binds.now))) }
{
    let none = Term::Sort(0);
    let side = term_or(w.part.sides.as_slice(), clause, &none);
    let values = placed_values(
        alloc,
        w,
        levels,
        n,
        clause,
        side,
        substitution,
        terms,
        binds,
    )?;
    instance(alloc, values.as_slice(), side, 0)
}

/// A leaf in its whole context of `n` variables.
#[tactic(auto, using(crate::proofs::BelowFamilies::families))]
fn place_at<'a>(
    alloc: Global,
    w: &Translation<'a>,
    levels: &[u32],
    n: u32,
    hidden: &[u32],
    terms: &[Term],
) -> Result<Place<'a>, Stop>
    requires { HaveFamilies w.now.sig.now (translation_of w.now).recursions }
    ensures place { Gives leaf_of result (Ok (sides.place_with (naming_of w.now.naming) n hidden.now (translation_of w.now).recursions (standings.all_placed levels.now n (tele_of terms.now)))) }
    ensures family { IfOk result (HavePlaceFamilies w.now.sig.now) }
{
    let terms = all_placed(alloc, levels, n, terms, Items::new(alloc))?;
    let belows = with_belows(
        alloc,
        w.naming,
        n,
        hidden,
        terms.as_slice(),
        Items::new(alloc),
        w.recursions,
        Vec::new(alloc),
    )?;
    Ok(Place { terms, belows })
}

/// A right side at a leaf with all calls in it, or Deep where it is too high.
fn made_in(alloc: Global, w: &Translation, place: &Place, side: &Term) -> Result<Term, Stop>
    requires { HavePlaceFamilies w.now.sig.now place.now }
    ensures { Gives tree_of result (and_then (spec.calls_made (naming_of w.now.naming) (plan_of w.now.plan.now) (leaf_of place.now) 0 [] (tree_of side.now)) spec.low_or_deep) }
{
    let made = with_calls(alloc, w, place, 0, Vec::new(alloc), side)?;
    low_or_deep(made)
}

/// The term of a leaf over its whole context of `n` variables, where it has such visible ones.
fn leaf_with(
    alloc: Global,
    w: &Translation,
    levels: &[u32],
    n: u32,
    hidden: &[u32],
    clause: u32,
    substitution: &[Term],
    terms: &[Term],
    binds: &[Term],
) -> Result<Term, Stop>
    requires { HaveFamilies w.now.sig.now (translation_of w.now).recursions }
    ensures { Gives tree_of result (spec.leaf_with (naming_of w.now.naming) (plan_of w.now.plan.now) (translation_of w.now).recursions (part_of w.now.part.now) w.now.order.now levels.now n hidden.now clause (tele_of substitution.now) (tele_of terms.now) (tele_of binds.now)) }
{
    let side = side_at(alloc, w, levels, n, clause, substitution, terms, binds)?;
    let place = place_at(alloc, w, levels, n, hidden, terms)?;
    made_in(alloc, w, &place, &side)
}

/// The term of a leaf over its whole context of `n` variables, of which some are hidden: the right side of its clause,
/// with the leaf's terms for the clause's variables, where each call of the function is a path in a below value. Deep
/// where it is too high, where there is a call and the leaf's term for a decreasing argument is too high, or where the
/// decreasing argument of a call is itself the call of a path that is too high.
pub fn leaf_term(
    alloc: Global,
    w: &Translation,
    n: u32,
    hidden: &[u32],
    clause: u32,
    substitution: &[Term],
    terms: &[Term],
    binds: &[Term],
) -> Result<Term, Stop>
    requires { HaveFamilies w.now.sig.now (translation_of w.now).recursions }
    ensures { Gives tree_of result (spec.leaf_made (naming_of w.now.naming) (plan_of w.now.plan.now) (translation_of w.now).recursions (part_of w.now.part.now) w.now.order.now n hidden.now clause (tele_of substitution.now) (tele_of terms.now) (tele_of binds.now)) }
{
    let levels = visible(alloc, n, hidden)?;
    leaf_with(
        alloc,
        w,
        levels.as_slice(),
        n,
        hidden,
        clause,
        substitution,
        terms,
        binds,
    )
}
