//! The second step: the tree, with both below values.
ghost use Rattle.std.specs.Prelude.{◌≡◌, ◌∷◌, ◌++◌, [], Ok, map};
ghost use Rattle.core_terms.specs.Answers.{Gives};
ghost use Rattle.core_terms.specs.Meanings.{tree_of, tele_of};
ghost use Rattle.core_sig.specs.Drafts.{draft_of};
ghost use Rattle.theory.specs.Terms as tree;
ghost use Rattle.tree_translation.specs.Naming.{number_in};
ghost use Rattle.tree_translation.specs.Recursion as recursion;
ghost use Rattle.run_terms.specs.CodeNaming.{naming_of};
ghost use Rattle.split_terms.specs.NodeMeanings.{node_of};
ghost use Rattle.leaf_terms.specs.PlaceMeanings.{HaveFamilies};
ghost use Rattle.leaf_terms.specs.PlanMeanings.{part_of, plan_of};
ghost use Rattle.leaf_terms.specs.RecursionMeanings.{named_of};
ghost use Rattle.lex_recursion.specs.PairEntries as pure;
ghost use Rattle.pair_entries.specs.CodePairEntries as spec;
ghost use Rattle.pair_entries.specs.PairMeanings.{HaveBothFamilies, pair_of};

use crate::names::{motive2_name, step2_name, step2_names};
use crate::recursions::PairRecursion;
use crate::second_motive::{begun_count, pair_goal, pair_telescope, second_count};
use core_sig::{Draft, Signature};
use core_terms::{Items, Name, Stop, Tele, Term, next};
use function_entries::{
    first_count, goal_with_below, node_entry, ordered_variables, own_order, table_from, type_count,
    with_below,
};
use leaf_terms::{
    NamedRecursion, Part, Plan, Translation, below_with, motive_name, motive_with, recursions_named,
};
use run_terms::{Naming, raised};
use split_terms::Node;
use std::alloc::Global;

/// Terms, followed by others, with one variable more before the last `under` ones.
#[tactic(auto, using(tele_eq::proofs::Growing::growing))]
fn with_raised(alloc: Global, under: u32, terms: &[Term], mut made: Tele) -> Result<Tele, Stop>
    ensures { Gives tele_of result (Ok (tele_of made ++ map (λ t. tree.lift t 1 under) (tele_of terms.now))) }
{
    match terms {
        [] => Ok(made),
        [t, rest @ ..] => {
            made.push(raised(alloc, 1, under, t)?)?;
            with_raised(alloc, under, rest, made)
        }
    }
}

/// Terms, over a context of `depth` variables, as ones with the first below value among these.
pub fn behind_first(
    alloc: Global,
    p: &PairRecursion,
    depth: u32,
    terms: &[Term],
) -> Result<Tele, Stop>
    ensures { Gives tele_of result (Ok (pure.behind_first (pair_of p.now) depth (tele_of terms.now))) }
{
    let first = first_count(alloc, &p.outer)?;
    with_raised(alloc, depth.saturating_sub(first), terms, Items::new(alloc))
}

/// The first below value alone, over a context of `depth` variables and it.
pub fn value_at(alloc: Global, p: &PairRecursion, depth: u32) -> Result<Tele, Stop>
    ensures { Gives tele_of result (Ok (spec.value_at (pair_of p.now) depth)) }
{
    let first = first_count(alloc, &p.outer)?;
    let mut made = Items::new(alloc);
    made.push(Term::Var(depth.saturating_sub(first)))?;
    Ok(made)
}

/// The place of the first below value among the fixed terms of the second recursion.
pub fn second_places(alloc: Global, p: &PairRecursion) -> Result<Vec<u32>, Stop>
    ensures { Gives (λ v. v.items) result (Ok (pure.first_count (pair_of p.now) ∷ [])) }
{
    let mut places = Vec::new(alloc);
    places.push(first_count(alloc, &p.outer)?)?;
    Ok(places)
}

/// The constant of a name at the fixed terms of the second recursion and the first below value.
pub fn second_at(
    alloc: Global,
    naming: Naming,
    name: &Name,
    p: &PairRecursion,
    terms: &[Term],
    values: &[Term],
) -> Result<Term, Stop>
    ensures { Gives tree_of result (Ok (recursion.motive_with (naming_of naming.entry) (pure.second_named name.now (pair_of p.now)) (tele_of terms.now) (tele_of values.now))) }
{
    let places = second_places(alloc, p)?;
    let c = NamedRecursion {
        recursion: &p.inner,
        motive: name,
        places: places.as_slice(),
    };
    motive_with(alloc, naming, &c, terms, values)
}

/// The variables of the old positions where both recursions are begun.
fn begun_terms(alloc: Global, own: &Part, p: &PairRecursion) -> Result<Tele, Stop>
    ensures { Gives tele_of result (Ok (spec.begun_terms (part_of own.now) (pair_of p.now))) }
{
    let order = own_order(alloc, own, &p.inner)?;
    let depth = begun_count(alloc, p)?;
    let terms = ordered_variables(alloc, order.as_slice(), depth)?;
    behind_first(alloc, p, depth, terms.as_slice())
}

/// `F!motive2 F is x b G`, where both recursions are begun.
fn begun_motive(
    alloc: Global,
    naming: Naming,
    plan: &Plan,
    p: &PairRecursion,
    terms: &[Term],
) -> Result<Term, Stop>
    ensures { Gives tree_of result (Ok (spec.begun_motive (plan_of plan.now) (pair_of p.now) (naming_of naming.entry) (tele_of terms.now))) }
{
    let name = motive2_name(alloc, &plan.name)?;
    let values = value_at(alloc, p, begun_count(alloc, p)?)?;
    second_at(alloc, naming, &name, p, terms, values.as_slice())
}

/// `E!below.L qs (F!motive2 F is x b G) js y`.
fn second_below(
    alloc: Global,
    naming: Naming,
    plan: &Plan,
    own: &Part,
    p: &PairRecursion,
) -> Result<Term, Stop>
    ensures { Gives tree_of result (Ok (spec.second_below (plan_of plan.now) (part_of own.now) (pair_of p.now) (naming_of naming.entry))) }
{
    let terms = begun_terms(alloc, own, p)?;
    let motive = begun_motive(alloc, naming, plan, p, terms.as_slice())?;
    below_with(alloc, naming, plan, &p.inner, motive, terms.as_slice())
}

/// `(F) (is) (x) (b) (G) (js) (y) (b2) (Q)`.
fn step2_telescope(
    alloc: Global,
    naming: Naming,
    plan: &Plan,
    own: &Part,
    p: &PairRecursion,
) -> Result<Tele, Stop>
    ensures { Gives tele_of result (Ok (spec.step2_telescope (plan_of plan.now) (part_of own.now) (pair_of p.now) (naming_of naming.entry))) }
{
    let below = second_below(alloc, naming, plan, own, p)?;
    let tele = pair_telescope(alloc, naming, plan, own, p)?;
    with_below(alloc, second_count(alloc, p)?, below, tele.as_slice())
}

/// The goal over it.
fn step2_goal(alloc: Global, own: &Part, p: &PairRecursion) -> Result<Term, Stop>
    ensures { Gives tree_of result (Ok (spec.step2_goal (part_of own.now) (pair_of p.now))) }
{
    let goal = pair_goal(alloc, own, p)?;
    let count = next(type_count(own)?)?;
    goal_with_below(alloc, second_count(alloc, p)?, count, &goal)
}

/// The levels of the below values.
fn step2_hidden(alloc: Global, p: &PairRecursion) -> Result<Items<u32>, Stop>
    ensures { Gives (λ v. v) result (Ok (pure.first_count (pair_of p.now) ∷ pure.second_count (pair_of p.now) ∷ [])) }
{
    let mut hidden = Items::new(alloc);
    hidden.push(first_count(alloc, &p.outer)?)?;
    hidden.push(second_count(alloc, p)?)?;
    Ok(hidden)
}

/// Where the tree starts.
fn step2_node(
    alloc: Global,
    naming: Naming,
    plan: &Plan,
    own: &Part,
    p: &PairRecursion,
) -> Result<Node, Stop>
    ensures { Gives node_of result (Ok (spec.step2_node (plan_of plan.now) (part_of own.now) (pair_of p.now) (naming_of naming.entry))) }
{
    Ok(Node {
        ctx: step2_telescope(alloc, naming, plan, own, p)?,
        goal: step2_goal(alloc, own, p)?,
        hidden: step2_hidden(alloc, p)?,
    })
}

/// The names that the second step may mention, or Deep.
fn step2_table(
    alloc: Global,
    sig: &Signature,
    plan: &Plan,
    own: &Part,
    p: &PairRecursion,
) -> Result<Items<Name>, Stop>
    ensures { Gives (λ ns. ns) result (spec.step2_table sig.now (plan_of plan.now) (part_of own.now) (pair_of p.now)) }
{
    let naming = Naming {
        base: plan.base,
        names: &[],
    };
    let node = step2_node(alloc, naming, plan, own, p)?;
    let names = step2_names(alloc, plan, p)?;
    table_from(alloc, sig, names, own, &node)
}

/// The second recursion, after that at the first position.
fn with_second<'a>(
    mut made: Vec<NamedRecursion<'a>>,
    p: &'a PairRecursion<'a>,
    motive: &'a Name,
    places: &'a [u32],
) -> Result<Vec<NamedRecursion<'a>>, Stop>
    ensures { Gives (λ v. map named_of v.items) result (Ok (map named_of made.entry.items ++ spec.named_with (pair_of p.now) motive.now places.now ∷ [])) }
{
    made.push(NamedRecursion {
        recursion: &p.inner,
        motive,
        places,
    })?;
    Ok(made)
}

/// Both recursions, with the names of their motives.
fn both_recursions<'a>(
    alloc: Global,
    p: &'a PairRecursion<'a>,
    motive: &'a Name,
    motive2: &'a Name,
    places: &'a [u32],
) -> Result<Vec<NamedRecursion<'a>>, Stop>
    ensures { Gives (λ v. map named_of v.items) result (Ok (spec.both_recursions (pair_of p.now) motive.now motive2.now places.now)) }
{
    let made = recursions_named(alloc, motive, Some(&p.outer))?;
    with_second(made, p, motive2, places)
}

/// `F!step2` from its recursions, with the numbers of these names, or Deep.
fn step2_by(
    alloc: Global,
    sig: &Signature,
    plan: &Plan,
    own: &Part,
    p: &PairRecursion,
    recursions: &[NamedRecursion],
    table: &[Name],
) -> Result<Draft, Stop>
    requires families { HaveFamilies sig.now (map named_of recursions.now) }
    requires recursions { map named_of recursions.now ≡ pure.pair_recursions (plan_of plan.now) (pair_of p.now) }
    ensures { Gives draft_of result (spec.step2_with sig.now (plan_of plan.now) (part_of own.now) (pair_of p.now) table.now) }
{
    let naming = Naming {
        base: plan.base,
        names: table,
    };
    let order = own_order(alloc, own, &p.inner)?;
    let w = Translation {
        sig,
        naming,
        plan,
        recursions,
        part: own,
        order: order.as_slice(),
    };
    let node = step2_node(alloc, naming, plan, own, p)?;
    node_entry(alloc, step2_name(alloc, &plan.name)?, &w, &node)
}

/// `F!step2` with the numbers of these names, or Deep.
fn step2_with(
    alloc: Global,
    sig: &Signature,
    plan: &Plan,
    own: &Part,
    p: &PairRecursion,
    table: &[Name],
) -> Result<Draft, Stop>
    requires { HaveBothFamilies sig.now (pair_of p.now) }
    ensures { Gives draft_of result (spec.step2_with sig.now (plan_of plan.now) (part_of own.now) (pair_of p.now) table.now) }
{
    let motive = motive_name(alloc, &plan.name)?;
    let motive2 = motive2_name(alloc, &plan.name)?;
    let places = second_places(alloc, p)?;
    let recursions = both_recursions(alloc, p, &motive, &motive2, places.as_slice())?;
    step2_by(alloc, sig, plan, own, p, recursions.as_slice(), table)
}

/// `F!step2`, or Deep.
pub fn step2_entry(
    alloc: Global,
    sig: &Signature,
    plan: &Plan,
    own: &Part,
    p: &PairRecursion,
) -> Result<Draft, Stop>
    requires { HaveBothFamilies sig.now (pair_of p.now) }
    ensures { Gives draft_of result (spec.step2_made sig.now (plan_of plan.now) (part_of own.now) (pair_of p.now)) }
{
    let table = step2_table(alloc, sig, plan, own, p)?;
    step2_with(alloc, sig, plan, own, p, table.as_slice())
}
