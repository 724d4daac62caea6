ghost use Rattle.std.specs.Prelude.{◌≡◌, ◌≤◌, ◌<◌, ◌+◌, length, map};
ghost use Rattle.theory.specs.Terms as tree;
ghost use Rattle.core_terms.specs.Answered.{of_two, shown};
ghost use Rattle.core_terms.specs.Answers.{Gives};
ghost use Rattle.core_terms.specs.Bounds.{most_height};
ghost use Rattle.core_terms.specs.Meanings.{tree_of};
ghost use Rattle.core_sig.specs.Shapes.{HaveFewArguments, argument_shape, constructor_shape};
ghost use Rattle.case_below_gen.specs.Components.{pair_with};
ghost use Rattle.case_below_gen.specs.CourseEntries.{applied_to_methods};
ghost use Rattle.generators.specs.acyclic_gen.Bounds.{AreSmallArguments, IsNearBranch, IsNearPush};
ghost use Rattle.generators.specs.acyclic_gen.Claims as claims;
ghost use Rattle.generators.specs.acyclic_gen.Pushing as spec;
ghost use Rattle.generators.specs.acyclic_gen.Statements as statements;

use crate::acyclic_gen::carrier::Carrier;
use crate::acyclic_gen::claims::{Claim, Push, eliminator, pushed_part, pushed_whole};
use crate::acyclic_gen::direct_arguments::{Direct, directs};
use crate::acyclic_gen::methods::method_over;
use crate::acyclic_gen::pairings::{Pairing, projection};
use crate::acyclic_gen::point::at_level;
use crate::acyclic_gen::refuting::{Branch, branch_point, refutation};
use crate::acyclic_gen::statements::{no_part, none_within, not_within, unequal};
use crate::acyclic_gen::tuples::pair_from;
use case_below_gen::Side;
use core_sig::{Arg, Constructor, recursive_count, unit};
use core_terms::{Stop, Term, copy_whole, variable};
use std::alloc::Global;

/// The hypothesis of a direct argument d, at what the tuple says of it, that the push's argument is no part of it.
fn pushed_on(
    alloc: Global,
    q: Carrier,
    push: Push,
    depth: u32,
    d: Direct,
    rest: &[Direct],
    tuple: Term,
) -> Result<Term, Stop>
    requires push { IsNearPush push }
    requires depth { depth ≤ 500000 }
    ensures { Gives tree_of result (Ok (spec.pushed_on q push depth d rest.now (tree_of tuple))) }
{
    let part = pushed_part(push);
    let several = Pairing::Several(part, d, rest);
    let here = projection(alloc, Side::First, q, depth, several, tuple)?;
    let within = Pairing::Within(part, at_level(d.argument));
    let no_part = projection(alloc, Side::Second, q, depth, within, here)?;
    Term::new_app(alloc, variable(depth, d.hypothesis), no_part)
}

/// The pair for a direct argument d and those after it: that the whole is not within d, and that it is within none of the others.
pub fn not_within_pair(
    alloc: Global,
    q: Carrier,
    push: Push,
    depth: u32,
    d: Direct,
    rest: &[Direct],
    here: Result<Term, Stop>,
    others: Result<Term, Stop>,
) -> Result<Term, Stop>
    requires push { IsNearPush push }
    requires depth { depth ≤ 500000 }
    ensures { Gives tree_of result (of_two (pair_with q.level (statements.not_within q depth (claims.pushed_whole push) (statements.at_level d.argument)) (statements.none_within q depth (claims.pushed_whole push) rest.now)) (shown here) (shown others)) }
{
    let whole = pushed_whole(push);
    let first = not_within(alloc, q, depth, whole, at_level(d.argument));
    let second = none_within(alloc, q, depth, whole, rest);
    pair_from(alloc, q.level, first, second, here, others)
}

/// The tuple of these for the direct arguments, where `tuple` says something of each, at a depth.
fn pushed_tuple(
    alloc: Global,
    q: Carrier,
    push: Push,
    depth: u32,
    directs: &[Direct],
    tuple: Term,
) -> Result<Term, Stop>
    requires push { IsNearPush push }
    requires depth { depth ≤ 500000 }
    ensures { Gives tree_of result (Ok (spec.pushed_tuple q push depth directs.now (tree_of tuple))) }
{
    match directs {
        [] => Ok(Term::Con(unit(q.level), 0)),
        [d, rest @ ..] => {
            let copy = copy_whole(alloc, &tuple)?;
            let here = pushed_on(alloc, q, push, depth, *d, rest, copy);
            let several = Pairing::Several(pushed_part(push), *d, rest);
            let tuple = projection(alloc, Side::Second, q, depth, several, tuple)?;
            let others = pushed_tuple(alloc, q, push, depth, rest, tuple);
            not_within_pair(alloc, q, push, depth, *d, rest, here, others)
        }
    }
}

/// Both parts of the claim for the branch's constructor, after the given tuple.
fn pushed_pair(
    alloc: Global,
    q: Carrier,
    push: Push,
    own: &[Arg],
    branch: Branch,
    directs: &[Direct],
) -> Result<Term, Stop>
    requires params { q.params ≤ most_height }
    requires push { IsNearPush push }
    requires branch { IsNearBranch branch }
    requires given { branch.given ≤ 50000 }
    requires own { AreSmallArguments (map argument_shape own.now) }
    ensures { Gives tree_of result (Ok (spec.pushed_pair q push (map argument_shape own.now) branch directs.now)) }
{
    let depth = branch.given + 1;
    let whole = pushed_whole(push);
    let y = branch_point(branch);
    let first = unequal(alloc, q, depth, whole, y);
    let second = no_part(alloc, q, depth, whole, y);
    let left = refutation(alloc, q, push, own, branch, depth);
    let given = variable(depth, branch.given);
    let right = pushed_tuple(alloc, q, push, depth, directs, given);
    pair_from(alloc, q.level, first, second, left, right)
}

/// The branch for constructor `number`, at a depth.
fn branch_of(depth: u32, number: u32, con: &Constructor) -> Branch
    requires few { length con.now.args ≤ most_height }
    requires depth { depth ≤ 20000 }
    ensures is { result ≡ spec.branch_of depth number (constructor_shape con.now) }
    ensures near { IsNearBranch result }
    ensures start { result.start ≤ 20000 }
    ensures given { result.given ≤ 40000 }
{
    let args = con.args.as_slice();
    let count = args.len() as u32;
    Branch {
        number,
        start: depth,
        count,
        hypothesis: depth + count,
        given: depth + count + recursive_count(args),
    }
}

/// The method of a push in a branch.
fn push_in(
    alloc: Global,
    q: Carrier,
    push: Push,
    own: &[Arg],
    branch: Branch,
    con: &Constructor,
) -> Result<Term, Stop>
    requires params { q.params ≤ most_height }
    requires push { IsNearPush push }
    requires own { AreSmallArguments (map argument_shape own.now) }
    requires few { length con.now.args ≤ most_height }
    requires branch { IsNearBranch branch }
    requires start { branch.start ≤ 20000 }
    requires given { branch.given ≤ 40000 }
    ensures { Gives tree_of result (Ok (spec.push_in q push (map argument_shape own.now) branch (constructor_shape con.now))) }
{
    let args = con.args.as_slice();
    let directs = directs(alloc, branch.start, branch.hypothesis, args)?;
    let body = pushed_pair(alloc, q, push, own, branch, directs.as_slice());
    let y = branch_point(branch);
    let domain = no_part(alloc, q, branch.given, pushed_part(push), y);
    let end = Term::function_of(alloc, domain, body)?;
    method_over(alloc, Claim::Pushed(push), q, branch.start, con, end)
}

/// The method of a push for constructor `number`, at a depth.
fn push_method(
    alloc: Global,
    q: Carrier,
    push: Push,
    own: &[Arg],
    depth: u32,
    number: u32,
    con: &Constructor,
) -> Result<Term, Stop>
    requires params { q.params ≤ most_height }
    requires push { IsNearPush push }
    requires own { AreSmallArguments (map argument_shape own.now) }
    requires few { length con.now.args ≤ most_height }
    requires depth { depth ≤ 20000 }
    ensures { Gives tree_of result (Ok (spec.push_method q push (map argument_shape own.now) depth number (constructor_shape con.now))) }
{
    push_in(alloc, q, push, own, branch_of(depth, number, con), con)
}

/// `head` applied to the methods of a push for the constructors from `number` on, at a depth.
fn applied_to_push_methods(
    alloc: Global,
    q: Carrier,
    push: Push,
    own: &[Arg],
    depth: u32,
    number: u32,
    head: Term,
    cons: &[Constructor],
) -> Result<Term, Stop>
    requires params { q.params ≤ most_height }
    requires push { IsNearPush push }
    requires own { AreSmallArguments (map argument_shape own.now) }
    requires few { HaveFewArguments (map constructor_shape cons.now) }
    requires number { number + length cons.now ≤ most_height }
    requires depth { depth ≤ 20000 }
    ensures { Gives tree_of result (Ok (applied_to_methods (spec.push_method q push (map argument_shape own.now) depth) number (tree_of head) (map constructor_shape cons.now))) }
{
    match cons {
        [] => Ok(head),
        [con, rest @ ..] => {
            let method = push_method(alloc, q, push, own, depth, number, con)?;
            let head = Term::new_app(alloc, head, method)?;
            applied_to_push_methods(alloc, q, push, own, depth, number + 1, head, rest)
        }
    }
}

/// From a direct argument to the whole, at a depth: for each term b of which the argument is no part, the constructor at its
/// arguments is neither b nor a part of b.
pub fn pushing(
    alloc: Global,
    q: Carrier,
    cons: &[Constructor],
    push: Push,
    own: &[Arg],
    depth: u32,
) -> Result<Term, Stop>
    requires level { q.level < 100 }
    requires params { q.params ≤ most_height }
    requires push { IsNearPush push }
    requires own { AreSmallArguments (map argument_shape own.now) }
    requires few { HaveFewArguments (map constructor_shape cons.now) }
    requires count { length cons.now ≤ most_height }
    requires depth { depth ≤ 20000 }
    ensures { Gives tree_of result (Ok (spec.pushing q (map constructor_shape cons.now) push (map argument_shape own.now) depth)) }
{
    let head = eliminator(alloc, Claim::Pushed(push), q, depth)?;
    applied_to_push_methods(alloc, q, push, own, depth, 0, head, cons)
}
