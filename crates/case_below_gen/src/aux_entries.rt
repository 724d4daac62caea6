ghost use Rattle.std.specs.Prelude.{◌≡◌, ◌≤◌, ◌<◌, ◌+◌, IfOk, length, map};
ghost use Rattle.core_terms.specs.Answers.{Gives};
ghost use Rattle.core_terms.specs.Meanings.{tree_of};
ghost use Rattle.core_terms.specs.Levels.{variable};
ghost use Rattle.core_sig.specs.Shapes.{argument_shape, HaveFewArguments, IsFew, constructor_shape, shape_of};
ghost use Rattle.theory.specs.Families as pure;
ghost use Rattle.theory.specs.Signatures.{FamilyOf, IsEntryAt, IsPrefix, Signature};
ghost use Rattle.theory.specs.Prelude.{prelude};
ghost use Rattle.theory.specs.SignatureScopes.{IsFamilyNumber, IsScopedSignature};
ghost use Rattle.theory.specs.Terms as tree;
ghost use Rattle.theory.specs.Terms.{top};
ghost use Rattle.core_terms.specs.Bounds.{most_height};
ghost use Rattle.case_below_gen.specs.Components.{below_at, tuple};
ghost use Rattle.case_below_gen.specs.CourseEntries as spec;
ghost use Rattle.core_sig.specs.ScopedDrafts.{IsScopedDraft};
ghost use Rattle.core_sig.specs.Drafts.{draft_of};

use crate::binding::{at_scrutinee, scrutinee_over};
use crate::components::{Course, Ending, below_at, components_over, pair_with_answers, tuple};
use crate::courses::{at_constructor, course_of, drafted_of, eliminator_at, only_name};
use crate::steps::{aux_goal, step_over};
use core_sig::{
    Constructor, Draft, Entry, Family, Signature, arguments_over, generated_name, is_few,
    recursive_count,
};
use core_terms::{Binder, Stop, Term, variable};
use std::alloc::Global;

/// The entry `D!aux.m` for family number `fam`: from a step, the motive into `Type m` at a term and at each of its strict parts.
/// It mentions `D!below.m`. Deep where its type or its term is too high.
pub fn aux_entry(alloc: Global, sig: &Signature, fam: u32, m: u8) -> Result<Draft, Stop>
    requires family { IsFamilyNumber sig.now fam }
    requires level { m + 1 < top }
    ensures answer { (f : pure.Family) → IsEntryAt sig.now fam (FamilyOf f) → Gives draft_of result (spec.aux_entry (length sig.now.entries) fam f m) }
    ensures scoped { (T : Signature) → IsScopedSignature sig.now → IsPrefix (prelude sig.now.has_k) sig.now → IsPrefix sig.now T → IfOk result (λ d. IsScopedDraft T (draft_of d)) }
{
    match sig.entry(fam) {
        Some(Entry::Family(family)) => aux_of_family(alloc, sig.len(), fam, family, m),
        _ => unreachable!(),
    }
}

fn aux_of_family(alloc: Global, base: u32, fam: u32, f: &Family, m: u8) -> Result<Draft, Stop>
    requires { m + 1 < top }
    ensures { Gives draft_of result (spec.aux_of_shape base f.now.name fam (shape_of f.now) m) }
{
    if !is_few(f) {
        return Err(Stop::Deep);
    }
    let name = generated_name(alloc, &f.name, b"!aux.", m)?;
    let below = generated_name(alloc, &f.name, b"!below.", m)?;
    let names = only_name(alloc, below)?;
    let ty = aux_type(alloc, fam, f, m, base);
    let body = aux_term(alloc, fam, f, m, base);
    drafted_of(name, base, names, ty, body)
}

fn aux_type(alloc: Global, fam: u32, f: &Family, m: u8, below: u32) -> Result<Term, Stop>
    requires { IsFew (shape_of f.now) }
    ensures { Gives tree_of result (Ok (spec.aux_type fam (shape_of f.now) (spec.course_of (shape_of f.now) m below))) }
{
    let q = course_of(f, m, below);
    let start = q.params + 2;
    let end = aux_goal(alloc, q, start + q.indices + 1, start)?;
    step_over(alloc, Binder::Product, fam, f, q, end)
}

fn aux_term(alloc: Global, fam: u32, f: &Family, m: u8, below: u32) -> Result<Term, Stop>
    requires { IsFew (shape_of f.now) }
    ensures { Gives tree_of result (Ok (spec.aux_term fam (shape_of f.now) (spec.course_of (shape_of f.now) m below))) }
{
    let q = course_of(f, m, below);
    let start = q.params + 2;
    let inside = start + q.indices + 1;
    let goal = aux_goal(alloc, q, inside + q.indices + 1, inside)?;
    let motive = scrutinee_over(alloc, Binder::Function, fam, f, inside, goal);
    let head = eliminator_at(alloc, fam, m, q.params, inside);
    let head = Term::application_of(alloc, head, motive)?;
    let head = applied_to_aux_methods(alloc, fam, q, inside, 0, head, f.cons.as_slice())?;
    let end = at_scrutinee(alloc, inside, start, q.indices, head)?;
    step_over(alloc, Binder::Function, fam, f, q, end)
}

/// `head` applied to the methods for the constructors from `number` on, at a depth.
fn applied_to_aux_methods(
    alloc: Global,
    fam: u32,
    q: Course,
    depth: u32,
    number: u32,
    head: Term,
    cons: &[Constructor],
) -> Result<Term, Stop>
    requires params { q.params ≤ most_height }
    requires few { HaveFewArguments (map constructor_shape cons.now) }
    requires number { number + length cons.now ≤ most_height }
    requires depth { depth ≤ 20000 }
    ensures { Gives tree_of result (Ok (spec.applied_to_methods (spec.aux_method fam q depth) number (tree_of head) (map constructor_shape cons.now))) }
{
    match cons {
        [] => Ok(head),
        [con, rest @ ..] => {
            let method = aux_method(alloc, fam, q, depth, number, con);
            let head = Term::application_of(alloc, Ok(head), method)?;
            applied_to_aux_methods(alloc, fam, q, depth, number + 1, head, rest)
        }
    }
}

fn aux_method(
    alloc: Global,
    fam: u32,
    q: Course,
    depth: u32,
    number: u32,
    con: &Constructor,
) -> Result<Term, Stop>
    requires params { q.params ≤ most_height }
    requires few { length con.now.args ≤ most_height }
    requires depth { depth ≤ 20000 }
    ensures { Gives tree_of result (Ok (spec.aux_method fam q depth number (constructor_shape con.now))) }
{
    let args = con.args.as_slice();
    let count = args.len() as u32;
    let inside = depth + count;
    let whole = inside + recursive_count(args);
    let end = aux_pair(alloc, fam, q, number, depth, whole, inside, con)?;
    let end = components_over(alloc, Ending::Folded, q, depth, 0, inside, args, end)?;
    let runs = [(0, q.params), (depth, count)];
    arguments_over(alloc, Binder::Function, &runs, q.params, depth, args, end)
}

/// The step at constructor `number` with the tuple of the hypotheses, beside that tuple.
fn aux_pair(
    alloc: Global,
    fam: u32,
    q: Course,
    number: u32,
    first: u32,
    depth: u32,
    hypothesis: u32,
    con: &Constructor,
) -> Result<Term, Stop>
    requires params { q.params ≤ most_height }
    requires first { first ≤ 20000 }
    requires few { length con.now.args ≤ most_height }
    requires depth { depth ≤ 100000 }
    requires hypothesis { hypothesis ≤ 100000 }
    ensures { Gives tree_of result (Ok (spec.aux_pair fam q number first depth hypothesis (constructor_shape con.now))) }
{
    let args = con.args.as_slice();
    let motive = variable(depth, q.params);
    let motive = at_constructor(alloc, fam, q.params, number, first, depth, motive, con);
    let below = below_at_constructor(alloc, fam, q, number, first, depth, con);
    let step = aux_step(alloc, fam, q, number, first, depth, hypothesis, con);
    let parts = tuple(alloc, q, first, 0, depth, hypothesis, args);
    pair_with_answers(alloc, q.m, motive, below, step, parts)
}

/// `D!below.m p P` at the targets of constructor `number` and at the constructor, at a depth.
fn below_at_constructor(
    alloc: Global,
    fam: u32,
    q: Course,
    number: u32,
    first: u32,
    depth: u32,
    con: &Constructor,
) -> Result<Term, Stop>
    requires params { q.params ≤ most_height }
    requires first { first ≤ 20000 }
    requires few { length con.now.args ≤ most_height }
    requires depth { depth ≤ 100000 }
    ensures { Gives tree_of result (Ok (spec.at_constructor fam q.params number first depth (below_at q depth) (constructor_shape con.now))) }
{
    let below = below_at(alloc, q, depth)?;
    at_constructor(alloc, fam, q.params, number, first, depth, below, con)
}

/// The step at constructor `number` with the tuple of the hypotheses.
fn aux_step(
    alloc: Global,
    fam: u32,
    q: Course,
    number: u32,
    first: u32,
    depth: u32,
    hypothesis: u32,
    con: &Constructor,
) -> Result<Term, Stop>
    requires params { q.params ≤ most_height }
    requires first { first ≤ 20000 }
    requires few { length con.now.args ≤ most_height }
    requires depth { depth ≤ 100000 }
    requires hypothesis { hypothesis ≤ 100000 }
    ensures { Gives tree_of result (Ok (tree.App (spec.at_constructor fam q.params number first depth (variable depth (q.params + 1)) (constructor_shape con.now)) (tuple q first 0 depth hypothesis (map argument_shape con.now.args)))) }
{
    let step = variable(depth, q.params + 1);
    let step = at_constructor(alloc, fam, q.params, number, first, depth, step, con);
    let args = con.args.as_slice();
    let parts = tuple(alloc, q, first, 0, depth, hypothesis, args);
    Term::application_of(alloc, step, parts)
}
