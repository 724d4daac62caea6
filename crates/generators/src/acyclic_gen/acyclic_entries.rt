ghost use Rattle.std.specs.Prelude.{◌≡◌, ◌≤◌, ◌<◌, ◌+◌, true, IfOk, length, map};
ghost use Rattle.theory.specs.Families as pure;
ghost use Rattle.theory.specs.Prelude.{prelude};
ghost use Rattle.theory.specs.Signatures.{FamilyOf, IsEntryAt, IsPrefix, Signature};
ghost use Rattle.theory.specs.SignatureScopes.{IsFamilyNumber, IsScopedSignature};
ghost use Rattle.theory.specs.Terms as tree;
ghost use Rattle.theory.specs.Terms.{top};
ghost use Rattle.core_terms.specs.Answers.{Gives};
ghost use Rattle.core_terms.specs.Bounds.{most_height};
ghost use Rattle.core_terms.specs.Levels as levels;
ghost use Rattle.core_terms.specs.Meanings.{tree_of};
ghost use Rattle.core_sig.specs.Drafts.{draft_of};
ghost use Rattle.core_sig.specs.ScopedDrafts.{IsScopedDraft};
ghost use Rattle.core_sig.specs.Shapes.{HaveFewArguments, IsFew, argument_shape, constructor_shape, shape_of};
ghost use Rattle.generators.specs.acyclic_gen.Answers.{Yields};
ghost use Rattle.generators.specs.acyclic_gen.AcyclicEntries as spec;
ghost use Rattle.generators.specs.acyclic_gen.Bounds.{AreNear, AreSmallArguments, HaveSmallArguments, IsNearPush};
ghost use Rattle.generators.specs.acyclic_gen.Pushing.{pushing};
ghost use Rattle.generators.specs.acyclic_gen.Statements.{has_direct};

use crate::acyclic_gen::AcyclicStop;
use crate::acyclic_gen::carrier::{Carrier, carrier_at, carrier_of};
use crate::acyclic_gen::claims::{Claim, Push, eliminator};
use crate::acyclic_gen::direct_arguments::{Direct, directs, has_direct};
use crate::acyclic_gen::lengths::is_small;
use crate::acyclic_gen::methods::method_over;
use crate::acyclic_gen::naming::{acyclic_name, names_for};
use crate::acyclic_gen::point::at_level;
use crate::acyclic_gen::pushing::{not_within_pair, pushing};
use crate::acyclic_gen::statements::no_part;
use case_below_gen::closed_over;
use core_sig::{Arg, Constructor, Draft, Entry, Family, Signature, drafted, recursive_count, unit};
use core_terms::{Binder, Stop, Term, bind, number_of, variable};
use std::alloc::Global;

/// The entry `D!acyclic` for family number `fam`: no term is a part of itself, where the parts are the direct arguments and their
/// parts. Indexed where the family has indices; else Deep where its type or its term is too high.
pub fn acyclic_entry(alloc: Global, sig: &Signature, fam: u32) -> Result<Draft, AcyclicStop>
    requires family { IsFamilyNumber sig.now fam }
    requires level { (f : pure.Family) → IsEntryAt sig.now fam (FamilyOf f) → f.level + 1 < top }
    ensures answer { (f : pure.Family) → IsEntryAt sig.now fam (FamilyOf f) → Yields draft_of result (spec.acyclic_entry (length sig.now.entries) fam f) }
    ensures scoped { (T : Signature) → IsScopedSignature sig.now → IsPrefix (prelude sig.now.has_k) sig.now → IsPrefix sig.now T → IfOk result (λ d. IsScopedDraft T (draft_of d)) }
{
    match sig.entry(fam) {
        Some(Entry::Family(family)) => acyclic_of_family(alloc, sig.len(), fam, family),
        _ => unreachable!(),
    }
}

fn acyclic_of_family(alloc: Global, base: u32, fam: u32, f: &Family) -> Result<Draft, AcyclicStop>
    requires { f.now.level < 100 }
    ensures { Yields draft_of result (spec.acyclic_of_shape base f.now.name (map (λ c. c.name) f.now.cons) fam (shape_of f.now)) }
{
    match f.indices.as_slice() {
        [] => Ok(acyclic_draft(alloc, base, fam, f)?),
        [_, ..] => Err(AcyclicStop::Indexed),
    }
}

fn acyclic_draft(alloc: Global, base: u32, fam: u32, f: &Family) -> Result<Draft, Stop>
    requires level { f.now.level < 100 }
    requires indices { length f.now.indices ≤ most_height }
    ensures { Gives draft_of result (spec.acyclic_draft base f.now.name (map (λ c. c.name) f.now.cons) fam (shape_of f.now)) }
{
    if !is_small(f) {
        return Err(Stop::Deep);
    }
    let name = acyclic_name(alloc, &f.name)?;
    let names = names_for(alloc, &f.name, f.cons.as_slice())?;
    let q = carrier_of(fam, f, base);
    let ty = acyclic_type(alloc, f, q)?;
    // a constant for each of at most 2,000 constructors
    let noconf = number_of(base as usize + 2001)? - 2000;
    let body = acyclic_term(alloc, f, q, noconf)?;
    drafted(name, base, names, ty, body)
}

/// Binds the parameters and the scrutinee around `end`.
fn acyclic_over(
    alloc: Global,
    binder: Binder,
    f: &Family,
    q: Carrier,
    end: Term,
) -> Result<Term, Stop>
    ensures { Gives tree_of result (Ok (spec.acyclic_over binder (shape_of f.now) q (tree_of end))) }
{
    let end = bind(alloc, binder, carrier_at(alloc, q, q.params)?, end)?;
    closed_over(alloc, binder, f.params.as_slice(), end)
}

fn acyclic_type(alloc: Global, f: &Family, q: Carrier) -> Result<Term, Stop>
    requires { q.params ≤ most_height }
    ensures { Gives tree_of result (Ok (spec.acyclic_type (shape_of f.now) q)) }
{
    let x = at_level(q.params);
    let end = no_part(alloc, q, q.params + 1, x, x)?;
    acyclic_over(alloc, Binder::Product, f, q, end)
}

fn acyclic_term(alloc: Global, f: &Family, q: Carrier, noconf: u32) -> Result<Term, Stop>
    requires level { q.level < 100 }
    requires params { q.params ≤ most_height }
    requires few { IsFew (shape_of f.now) }
    requires small { HaveSmallArguments (map constructor_shape f.now.cons) }
    requires noconf { noconf + 2000 < 4294967296 }
    ensures { Gives tree_of result (Ok (spec.acyclic_term (shape_of f.now) q noconf)) }
{
    let inside = q.params + 1;
    let cons = f.cons.as_slice();
    let head = eliminator(alloc, Claim::Acyclic, q, inside)?;
    let head = applied_to_acyclic_methods(alloc, q, cons, inside, 0, noconf, head, cons)?;
    let end = Term::new_app(alloc, head, Term::Var(0))?;
    acyclic_over(alloc, Binder::Function, f, q, end)
}

/// The constant after that of a constructor with direct arguments.
fn next_noconf(noconf: u32, args: &[Arg]) -> u32
    requires { noconf < 4294967295 }
    ensures is { result ≡ spec.next_noconf noconf (map argument_shape args.now) }
    ensures near { result ≤ noconf + 1 }
{
    if has_direct(args) { noconf + 1 } else { noconf }
}

/// `head` applied to the methods for the constructors from `number` on, at a depth. The first of them with direct arguments has
/// the constant `noconf`, and each further one the next.
fn applied_to_acyclic_methods(
    alloc: Global,
    q: Carrier,
    all: &[Constructor],
    depth: u32,
    number: u32,
    noconf: u32,
    head: Term,
    cons: &[Constructor],
) -> Result<Term, Stop>
    requires level { q.level < 100 }
    requires params { q.params ≤ most_height }
    requires all_few { HaveFewArguments (map constructor_shape all.now) }
    requires all_count { length all.now ≤ most_height }
    requires few { HaveFewArguments (map constructor_shape cons.now) }
    requires small { HaveSmallArguments (map constructor_shape cons.now) }
    requires number { number + length cons.now ≤ most_height }
    requires noconf { noconf + length cons.now < 4294967296 }
    requires depth { depth ≤ 5000 }
    ensures { Gives tree_of result (Ok (spec.applied_to_acyclic_methods q (map constructor_shape all.now) depth number noconf (tree_of head) (map constructor_shape cons.now))) }
{
    match cons {
        [] => Ok(head),
        [con, rest @ ..] => {
            let method = acyclic_method(alloc, q, all, depth, number, noconf, con)?;
            let head = Term::new_app(alloc, head, method)?;
            let next = next_noconf(noconf, con.args.as_slice());
            applied_to_acyclic_methods(alloc, q, all, depth, number + 1, next, head, rest)
        }
    }
}

fn acyclic_method(
    alloc: Global,
    q: Carrier,
    all: &[Constructor],
    depth: u32,
    number: u32,
    noconf: u32,
    con: &Constructor,
) -> Result<Term, Stop>
    requires level { q.level < 100 }
    requires params { q.params ≤ most_height }
    requires all_few { HaveFewArguments (map constructor_shape all.now) }
    requires all_count { length all.now ≤ most_height }
    requires few { length con.now.args ≤ most_height }
    requires small { has_direct (map argument_shape con.now.args) ≡ true → AreSmallArguments (map argument_shape con.now.args) }
    requires depth { depth ≤ 5000 }
    ensures { Gives tree_of result (Ok (spec.acyclic_method q (map constructor_shape all.now) depth number noconf (constructor_shape con.now))) }
{
    let args = con.args.as_slice();
    let count = args.len() as u32;
    let inside = depth + count;
    let directs = directs(alloc, depth, inside, args)?;
    let push = Push {
        constructor: number,
        noconf,
        first: depth,
        count,
        part: depth,
    };
    let whole = inside + recursive_count(args);
    let end = pushes(alloc, q, all, push, args, whole, directs.as_slice())?;
    method_over(alloc, Claim::Acyclic, q, depth, con, end)
}

/// The push from another direct argument.
fn with_part(push: Push, argument: u32) -> Push
    ensures { result ≡ spec.with_part push argument }
{
    Push {
        constructor: push.constructor,
        noconf: push.noconf,
        first: push.first,
        count: push.count,
        part: argument,
    }
}

/// A push from a direct argument, at the argument and its hypothesis.
fn pushed_from(
    alloc: Global,
    q: Carrier,
    all: &[Constructor],
    push: Push,
    own: &[Arg],
    depth: u32,
    d: Direct,
) -> Result<Term, Stop>
    requires level { q.level < 100 }
    requires params { q.params ≤ most_height }
    requires all_few { HaveFewArguments (map constructor_shape all.now) }
    requires all_count { length all.now ≤ most_height }
    requires push { IsNearPush push }
    requires near { d.argument ≤ 100000 }
    requires own { AreSmallArguments (map argument_shape own.now) }
    requires depth { depth ≤ 20000 }
    ensures { Gives tree_of result (Ok (tree.App (tree.App (pushing q (map constructor_shape all.now) (spec.with_part push d.argument) (map argument_shape own.now) depth) (levels.variable depth d.argument)) (levels.variable depth d.hypothesis))) }
{
    let head = pushing(alloc, q, all, with_part(push, d.argument), own, depth)?;
    let head = Term::new_app(alloc, head, variable(depth, d.argument))?;
    Term::new_app(alloc, head, variable(depth, d.hypothesis))
}

/// The tuple of the pushes from the direct arguments of a constructor, at a depth.
fn pushes(
    alloc: Global,
    q: Carrier,
    all: &[Constructor],
    push: Push,
    own: &[Arg],
    depth: u32,
    directs: &[Direct],
) -> Result<Term, Stop>
    requires level { q.level < 100 }
    requires params { q.params ≤ most_height }
    requires all_few { HaveFewArguments (map constructor_shape all.now) }
    requires all_count { length all.now ≤ most_height }
    requires push { IsNearPush push }
    requires near { AreNear directs.now }
    requires own { 0 < length directs.now → AreSmallArguments (map argument_shape own.now) }
    requires depth { depth ≤ 20000 }
    ensures { Gives tree_of result (Ok (spec.pushes q (map constructor_shape all.now) push (map argument_shape own.now) depth directs.now)) }
{
    match directs {
        [] => Ok(Term::Con(unit(q.level), 0)),
        [d, rest @ ..] => {
            let here = pushed_from(alloc, q, all, push, own, depth, *d);
            let others = pushes(alloc, q, all, push, own, depth, rest);
            not_within_pair(alloc, q, push, depth, *d, rest, here, others)
        }
    }
}
