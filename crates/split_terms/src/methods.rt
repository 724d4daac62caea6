ghost use Rattle.std.specs.Prelude.{◌≡◌, ◌+◌, true, cond, Ok, length, map};
ghost use Rattle.core_terms.specs.Answers.{Gives, and_then};
ghost use Rattle.core_terms.specs.Meanings.{tree_of, tele_of};
ghost use Rattle.core_terms.specs.TreeMeanings.{steps_of};
ghost use Rattle.core_sig.specs.Meanings.{constructor_of, family_of};
ghost use Rattle.theory.specs.Telescopes as telescopes;
ghost use Rattle.unification.specs.Injecting as injecting;
ghost use Rattle.unification.specs.Records as records;
ghost use Rattle.tree_translation.specs.RunTerms.{no_term};
ghost use Rattle.tree_translation.specs.Splits as splits;
ghost use Rattle.problems.specs.MemberMeanings.{member_meant};
ghost use Rattle.run_terms.specs.outlines.OutlineMeanings.{outline_of, outlines_of};
ghost use Rattle.run_terms.specs.CodeNaming.{naming_of};
ghost use Rattle.run_terms.specs.StandingMeanings.{standing_of};
ghost use Rattle.split_terms.specs.Bare.{bare_standing};
ghost use Rattle.split_terms.specs.CodeRunTerms.{run_made};
ghost use Rattle.split_terms.specs.CodeSplits as spec;
ghost use Rattle.split_terms.specs.NodeMeanings.{AllFitIn, FitsIn, node_of};

use crate::branch_problems::{arguments_at, branch_standing, indices_after};
use crate::members::{scrutinee, with_types};
use crate::node::Node;
use crate::runs::run_term;
use core_sig::{Constructor, Signature};
use core_terms::{Items, Rule, Step, Stop, Tele, Term, functions, next, number_of, products, sum};
use problems::Member;
use run_terms::outlines::{Outline, Outlines, in_body};
use run_terms::{
    Naming, Standing, all_raised, argument_items, equations_made, family_items, raised, state_term,
};
use std::alloc::Global;
use tele_eq::variables;

/// The indices and the variable that is split, after so many variables.
fn scrutinee_after(alloc: Global, m: &Member, x: u32, count: u32) -> Result<Tele, Stop>
    ensures { Gives tele_of result (Ok (injecting.lifted count (splits.scrutinee (member_meant m.now) x))) }
{
    let terms = scrutinee(alloc, m, x)?;
    all_raised(alloc, count, terms.as_slice())
}

/// The types of the equations in the motive of a split, or Deep where something in them is too high.
fn motive_equations(alloc: Global, m: &Member, x: u32) -> Result<Tele, Stop>
    ensures { Gives tele_of result (spec.motive_equations (member_meant m.now) x) }
{
    let count = next(number_of(m.indices.as_slice().len())?)?;
    let items = indices_after(alloc, m, count)?;
    let left = variables(alloc, count)?;
    let right = scrutinee_after(alloc, m, x, count)?;
    equations_made(alloc, &items, &left, &right)
}

/// `\I y. inner`: a term after the indices and the family at them, which are bound.
fn over_family(alloc: Global, m: &Member, inner: Term) -> Result<Term, Stop>
    ensures { Gives tree_of result (Ok (telescopes.functions (splits.member_types (records.family_items m.now.number (family_of m.now.family.now) (tele_of m.now.params))) (tree_of inner))) }
{
    let items = family_items(alloc, m.number, m.family, m.params.as_slice())?;
    let types = with_types(alloc, items.as_slice(), Items::new(alloc))?;
    functions(alloc, types.into_vec(), inner)
}

/// How many variables the motive of a split binds: the indices, the one of the family, and the equations with these types.
fn bound_count(m: &Member, types: &[Term]) -> Result<u32, Stop>
    ensures { Gives (λ n. n) result (Ok (length m.now.indices + 1 + length types.now)) }
{
    let count = next(number_of(m.indices.as_slice().len())?)?;
    sum(count, number_of(types.len())?)
}

/// The motive of a split, where its equations have these types.
fn motive_with(alloc: Global, node: &Node, m: &Member, types: Tele) -> Result<Term, Stop>
    ensures { Gives tree_of result (Ok (spec.motive_with (node_of node.now) (member_meant m.now) (tele_of types))) }
{
    let count = bound_count(m, types.as_slice())?;
    let goal = raised(alloc, count, 0, &node.goal)?;
    over_family(alloc, m, products(alloc, types.into_vec(), goal)?)
}

/// The motive of a split, or Deep.
pub fn split_motive(alloc: Global, node: &Node, m: &Member, x: u32) -> Result<Term, Stop>
    ensures { Gives tree_of result (spec.motive_made (node_of node.now) (member_meant m.now) x) }
{
    let types = motive_equations(alloc, m, x)?;
    motive_with(alloc, node, m, types)
}

/// `\Ac. inner`: a term after the arguments of a constructor, which are bound.
fn over_arguments(alloc: Global, m: &Member, con: &Constructor, inner: Term) -> Result<Term, Stop>
    requires kinds { FitsIn m.now con.now }
    requires parameters { length m.now.params ≡ length m.now.family.now.params }
    ensures { Gives tree_of result (Ok (telescopes.functions (splits.member_types (records.argument_items m.now.number (tele_of m.now.params) (constructor_of (length m.now.family.now.params) con.now))) (tree_of inner))) }
{
    let items = arguments_at(alloc, m, con)?;
    let types = with_types(alloc, items.as_slice(), Items::new(alloc))?;
    functions(alloc, types.into_vec(), inner)
}

/// The method for a constructor, from the term of its run in outline.
fn method_around(
    alloc: Global,
    m: &Member,
    con: &Constructor,
    s: &Standing,
    inner: Outline,
) -> Result<Outline, Stop>
    requires kinds { FitsIn m.now con.now }
    requires parameters { length m.now.params ≡ length m.now.family.now.params }
    ensures { Gives outline_of result (Ok (spec.method_with (member_meant m.now) (constructor_of (length m.now.family.now.params) con.now) (standing_of s.now) (outline_of inner))) }
{
    let state = state_term(alloc, s, Term::Sort(0))?;
    let around = over_arguments(alloc, m, con, state)?;
    in_body(alloc, around, inner)
}

/// The method for a constructor, by the standing from which its run starts.
fn method_from(
    alloc: Global,
    sig: &Signature,
    naming: Naming,
    level: u8,
    node: &Node,
    m: &Member,
    x: u32,
    number: u32,
    con: &Constructor,
    steps: &[Step],
    end: Outline,
) -> Result<Outline, Stop>
    requires kinds { FitsIn m.now con.now }
    requires parameters { length m.now.params ≡ length m.now.family.now.params }
    ensures { Gives outline_of result (and_then (bare_standing (node_of node.now) (member_meant m.now) x number (constructor_of (length m.now.family.now.params) con.now)) (λ s. and_then (run_made sig.now (naming_of naming.entry) level (outline_of end) (steps_of steps.now) s) (λ inner. Ok (spec.method_with (member_meant m.now) (constructor_of (length m.now.family.now.params) con.now) s inner)))) }
{
    let s = branch_standing(alloc, node, m, x, number, con)?;
    let inner = run_term(alloc, sig, naming, level, end, steps, &s)?;
    method_around(alloc, m, con, &s, inner)
}

/// The method for a constructor, whose run has these steps and this end, or Deep.
pub fn split_method(
    alloc: Global,
    sig: &Signature,
    naming: Naming,
    level: u8,
    node: &Node,
    m: &Member,
    x: u32,
    number: u32,
    con: &Constructor,
    steps: &[Step],
    end: Outline,
) -> Result<Outline, Stop>
    requires kinds { FitsIn m.now con.now }
    requires parameters { length m.now.params ≡ length m.now.family.now.params }
    ensures { Gives outline_of result (spec.method_made sig.now (naming_of naming.entry) level (node_of node.now) (member_meant m.now) x number (constructor_of (length m.now.family.now.params) con.now) (steps_of steps.now) (outline_of end)) }
{
    method_from(
        alloc, sig, naming, level, node, m, x, number, con, steps, end,
    )
}

/// Whether a state is absurd after a step by such a rule.
pub fn is_last(rule: Rule) -> bool
    ensures { result ≡ splits.is_last rule }
{
    matches!(rule, Rule::Conflict(_, _, _) | Rule::Cycle(_))
}

/// Whether a run ends in an absurd state.
pub fn is_absurd(steps: &[Step]) -> bool
    ensures { result ≡ splits.is_absurd (steps_of steps.now) }
{
    match steps {
        [] => false,
        [step] => is_last(step.rule),
        [_, rest @ ..] => is_absurd(rest),
    }
}

/// The end of a run, and the ends that are left after it.
fn end_and_rest(steps: &[Step], ends: Outlines) -> (Outline, Outlines)
    ensures end { outline_of result.0 ≡ cond (splits.is_absurd (steps_of steps.now)) no_term (splits.first_of (outlines_of ends)) }
    ensures rest { outlines_of result.1 ≡ cond (splits.is_absurd (steps_of steps.now)) (outlines_of ends) (splits.behind_first (outlines_of ends)) }
{
    if is_absurd(steps) {
        return (Outline::Whole(Term::Sort(0)), ends);
    }
    match ends {
        Outlines::Empty => (Outline::Whole(Term::Sort(0)), Outlines::Empty),
        Outlines::First(end, rest) => (end, Box::into_inner(rest)),
    }
}

/// `head` applied to the methods for constructors, the first of which has this number, or Deep: each solved run takes one end.
pub fn with_methods(
    alloc: Global,
    head: Outline,
    sig: &Signature,
    naming: Naming,
    level: u8,
    node: &Node,
    m: &Member,
    x: u32,
    number: u32,
    cons: &[Constructor],
    runs: &[&[Step]],
    ends: Outlines,
) -> Result<Outline, Stop>
    requires kinds { AllFitIn m.now cons.now }
    requires parameters { length m.now.params ≡ length m.now.family.now.params }
    ensures { Gives outline_of result (spec.with_methods (outline_of head) sig.now (naming_of naming.entry) level (node_of node.now) (member_meant m.now) x number (map (constructor_of (length m.now.family.now.params)) cons.now) (map (λ steps. steps_of steps.now) runs.now) (outlines_of ends)) }
{
    let [con, cons @ ..] = cons else {
        return Ok(head);
    };
    let [steps, runs @ ..] = runs else {
        return Ok(head);
    };
    let (end, ends) = end_and_rest(steps, ends);
    let method = split_method(
        alloc, sig, naming, level, node, m, x, number, con, steps, end,
    )?;
    let head = Outline::new_app(alloc, head, method)?;
    with_methods(
        alloc,
        head,
        sig,
        naming,
        level,
        node,
        m,
        x,
        next(number)?,
        cons,
        runs,
        ends,
    )
}
