ghost use Rattle.std.specs.Prelude.{◌≡◌, ◌≤◌, ◌<◌, ◌+◌, ◌∷◌, [], ◌↔◌, IsTrue, IfOk, OnErr, codes, length};
ghost use Rattle.core_terms.specs.Answers.{Gives};
ghost use Rattle.core_terms.specs.Meanings.{tree_of};
ghost use Rattle.core_terms.specs.declared.stop.Stop.TheVariants.{Memory};
ghost use Rattle.core_sig.specs.Shapes.{shape_of};
ghost use Rattle.theory.specs.Families as pure;
ghost use Rattle.theory.specs.Signatures.{FamilyOf, IsEntryAt, IsPrefix, Signature};
ghost use Rattle.theory.specs.Prelude.{pair_type, prelude};
ghost use Rattle.theory.specs.SignatureScopes.{IsFamilyNumber, IsScopedSignature};
ghost use Rattle.theory.specs.Terms.{top};
ghost use Rattle.theory.specs.Terms as tree;
ghost use Rattle.core_terms.specs.Bounds.{most_height};
ghost use Rattle.case_below_gen.specs.CaseEntries.{at_scrutinee};
ghost use Rattle.case_below_gen.specs.CourseEntries.{aux_goal, course_of};
ghost use Rattle.case_below_gen.specs.declared.sides.Side.TheVariants.{First, Second};
ghost use Rattle.case_below_gen.specs.Projections as spec;
ghost use Rattle.case_below_gen.specs.Projections.{HasFewBinders};
ghost use Rattle.core_sig.specs.ScopedDrafts.{IsScopedDraft};
ghost use Rattle.core_sig.specs.Drafts.{draft_of, generated_name};

use crate::binding::at_scrutinee;
use crate::components::{Course, below_at};
use crate::courses::{course_of, drafted_of};
use crate::steps::{aux_goal, step_over};
use core_sig::{Draft, Entry, Family, Signature, generated_name, pair};
use core_terms::{
    Binder, Items, MAX_HEIGHT, Name, Stop, Term, applied_to_run, number_of, variable,
};
use std::alloc::Global;

/// A side of `D!aux.m`: the motive at a term, or at each of its strict parts.
#[derive(Clone, Copy, Debug, PartialEq, Eq)]
pub enum Side {
    First,
    Second,
}

/// The entry `D!rec.m` for family number `fam`: from a step, the motive into `Type m` at a term. It mentions `D!below.m` and
/// `D!aux.m`. Deep where its type or its term is too high.
pub fn rec_entry(alloc: Global, sig: &Signature, fam: u32, m: u8) -> Result<Draft, Stop>
    requires family { IsFamilyNumber sig.now fam }
    requires level { m + 1 < top }
    ensures answer { (f : pure.Family) → IsEntryAt sig.now fam (FamilyOf f) → Gives draft_of result (spec.rec_entry (length sig.now.entries) fam f m) }
    ensures scoped { (T : Signature) → IsScopedSignature sig.now → IsPrefix (prelude sig.now.has_k) sig.now → IsPrefix sig.now T → IfOk result (λ d. IsScopedDraft T (draft_of d)) }
{
    side_entry(alloc, Side::First, sig, fam, m)
}

/// The entry `D!all.m` for family number `fam`: from a step, the motive into `Type m` at each strict part of a term. It mentions
/// `D!below.m` and `D!aux.m`. Deep where its type or its term is too high.
pub fn all_entry(alloc: Global, sig: &Signature, fam: u32, m: u8) -> Result<Draft, Stop>
    requires family { IsFamilyNumber sig.now fam }
    requires level { m + 1 < top }
    ensures answer { (f : pure.Family) → IsEntryAt sig.now fam (FamilyOf f) → Gives draft_of result (spec.all_entry (length sig.now.entries) fam f m) }
    ensures scoped { (T : Signature) → IsScopedSignature sig.now → IsPrefix (prelude sig.now.has_k) sig.now → IsPrefix sig.now T → IfOk result (λ d. IsScopedDraft T (draft_of d)) }
{
    side_entry(alloc, Side::Second, sig, fam, m)
}

fn side_entry(alloc: Global, side: Side, sig: &Signature, fam: u32, m: u8) -> Result<Draft, Stop>
    requires family { IsFamilyNumber sig.now fam }
    requires level { m + 1 < top }
    ensures answer { (f : pure.Family) → IsEntryAt sig.now fam (FamilyOf f) → Gives draft_of result (spec.side_entry side (length sig.now.entries) fam f m) }
    ensures scoped { (T : Signature) → IsScopedSignature sig.now → IsPrefix (prelude sig.now.has_k) sig.now → IsPrefix sig.now T → IfOk result (λ d. IsScopedDraft T (draft_of d)) }
{
    match sig.entry(fam) {
        Some(Entry::Family(family)) => side_of_family(alloc, side, sig.len(), fam, family, m),
        _ => unreachable!(),
    }
}

fn side_of_family(
    alloc: Global,
    side: Side,
    base: u32,
    fam: u32,
    f: &Family,
    m: u8,
) -> Result<Draft, Stop>
    requires { m + 1 < top }
    ensures { Gives draft_of result (spec.side_of_shape side base f.now.name fam (shape_of f.now) m) }
{
    if !has_few_binders(f) {
        return Err(Stop::Deep);
    }
    let name = side_name(alloc, side, &f.name, m)?;
    let names = names_below(alloc, &f.name, m)?;
    let ty = side_entry_type(alloc, side, fam, f, m, base);
    let body = side_entry_term(alloc, side, fam, f, m, base);
    drafted_of(name, base, names, ty, body)
}

/// Whether a family has at most 2,000 parameters and indices.
fn has_few_binders(f: &Family) -> bool
    ensures { IsTrue result ↔ HasFewBinders (shape_of f.now) }
{
    let most = MAX_HEIGHT as usize;
    f.params.as_slice().len() <= most && f.indices.as_slice().len() <= most
}

fn side_name(alloc: Global, side: Side, family: &Name, m: u8) -> Result<Name, Stop>
    requires { m < 100 }
    ensures ok { IfOk result (λ name. name ≡ generated_name family.now (spec.side_mark side) m) }
    ensures memory { OnErr result (result ≡ Err Memory) }
{
    match side {
        Side::First => generated_name(alloc, family, b"!rec.", m),
        Side::Second => generated_name(alloc, family, b"!all.", m),
    }
}

/// The names `D!below.m` and `D!aux.m`.
fn names_below(alloc: Global, family: &Name, m: u8) -> Result<Items<Name>, Stop>
    requires { m < 100 }
    ensures ok { IfOk result (λ names. names ≡ generated_name family.now (codes "!below.") m ∷ generated_name family.now (codes "!aux.") m ∷ []) }
    ensures memory { OnErr result (result ≡ Err Memory) }
{
    let mut names = Items::new(alloc);
    names.push(generated_name(alloc, family, b"!below.", m)?)?;
    names.push(generated_name(alloc, family, b"!aux.", m)?)?;
    Ok(names)
}

fn side_entry_type(
    alloc: Global,
    side: Side,
    fam: u32,
    f: &Family,
    m: u8,
    below: u32,
) -> Result<Term, Stop>
    requires { HasFewBinders (shape_of f.now) }
    ensures { Gives tree_of result (Ok (spec.side_entry_type side fam (shape_of f.now) (course_of (shape_of f.now) m below))) }
{
    let q = course_of(f, m, below);
    let start = q.params + 2;
    let end = side_type(alloc, side, q, start + q.indices + 1, start)?;
    step_over(alloc, Binder::Product, fam, f, q, end)
}

fn side_entry_term(
    alloc: Global,
    side: Side,
    fam: u32,
    f: &Family,
    m: u8,
    below: u32,
) -> Result<Term, Stop>
    requires { HasFewBinders (shape_of f.now) }
    ensures { Gives tree_of result (Ok (spec.side_entry_term side fam (shape_of f.now) (course_of (shape_of f.now) m below) (below + 1))) }
{
    let q = course_of(f, m, below);
    let start = q.params + 2;
    let aux = number_of(below as usize + 1)?;
    let end = projection(alloc, side, q, aux, start + q.indices + 1, start)?;
    step_over(alloc, Binder::Function, fam, f, q, end)
}

fn side_type(alloc: Global, side: Side, q: Course, depth: u32, start: u32) -> Result<Term, Stop>
    requires { start + q.indices ≤ 1000000 }
    ensures { Gives tree_of result (Ok (spec.side_type side q depth start)) }
{
    let head = match side {
        Side::First => variable(depth, q.params),
        Side::Second => below_at(alloc, q, depth)?,
    };
    at_scrutinee(alloc, depth, start, q.indices, head)
}

pub fn side_variable(side: Side) -> Term
    ensures { tree_of result ≡ spec.side_variable side }
{
    match side {
        Side::First => Term::Var(1),
        Side::Second => Term::Var(0),
    }
}

fn aux_at(alloc: Global, q: Course, aux: u32, depth: u32) -> Result<Term, Stop>
    requires { q.params ≤ most_height }
    ensures { Gives tree_of result (Ok (spec.aux_at q aux depth)) }
{
    let head = applied_to_run(alloc, Term::Const(aux), depth, 0, q.params);
    let head = Term::application_of(alloc, head, Ok(variable(depth, q.params)));
    Term::application_of(alloc, head, Ok(variable(depth, q.params + 1)))
}

/// The side of `D!aux.m` at the indices, whose levels begin with `start`, and at the scrutinee.
fn projection(
    alloc: Global,
    side: Side,
    q: Course,
    aux: u32,
    depth: u32,
    start: u32,
) -> Result<Term, Stop>
    requires params { q.params ≤ most_height }
    requires start { start + q.indices ≤ 1000000 }
    requires depth { depth ≤ 1000000 }
    ensures { Gives tree_of result (Ok (spec.projection side q aux depth start)) }
{
    let head = eliminator_of_sides(alloc, q, depth, start);
    let motive = side_motive(alloc, side, q, depth, start);
    let head = Term::application_of(alloc, head, motive);
    let method = side_method(alloc, side, q, depth, start);
    let head = Term::application_of(alloc, head, method);
    Term::application_of(alloc, head, both_sides(alloc, q, aux, depth, start))
}

/// `Pair.m!elim.m A B` at the types of the two sides.
fn eliminator_of_sides(alloc: Global, q: Course, depth: u32, start: u32) -> Result<Term, Stop>
    requires start { start + q.indices ≤ 1000000 }
    ensures { Gives tree_of result (Ok (tree.App (tree.App (tree.Elim (pair_type q.m) q.m) (spec.side_type First q depth start)) (spec.side_type Second q depth start))) }
{
    let head = Ok(Term::Elim(pair(q.m), q.m));
    let first = side_type(alloc, Side::First, q, depth, start);
    let head = Term::application_of(alloc, head, first);
    let second = side_type(alloc, Side::Second, q, depth, start);
    Term::application_of(alloc, head, second)
}

/// `D!aux.m` at the indices, whose levels begin with `start`, and at the scrutinee.
fn both_sides(alloc: Global, q: Course, aux: u32, depth: u32, start: u32) -> Result<Term, Stop>
    requires params { q.params ≤ most_height }
    requires start { start + q.indices ≤ 1000000 }
    ensures { Gives tree_of result (Ok (at_scrutinee depth start q.indices (spec.aux_at q aux depth))) }
{
    let head = aux_at(alloc, q, aux, depth)?;
    at_scrutinee(alloc, depth, start, q.indices, head)
}

fn side_motive(alloc: Global, side: Side, q: Course, depth: u32, start: u32) -> Result<Term, Stop>
    requires start { start + q.indices ≤ 1000000 }
    requires depth { depth ≤ 1000000 }
    ensures { Gives tree_of result (Ok (tree.Lam (aux_goal q depth start) (spec.side_type side q (depth + 1) start))) }
{
    let domain = aux_goal(alloc, q, depth, start);
    let goal = side_type(alloc, side, q, depth + 1, start);
    Term::function_of(alloc, domain, goal)
}

fn side_method(alloc: Global, side: Side, q: Course, depth: u32, start: u32) -> Result<Term, Stop>
    requires start { start + q.indices ≤ 1000000 }
    requires depth { depth ≤ 1000000 }
    ensures { Gives tree_of result (Ok (tree.Lam (spec.side_type First q depth start) (tree.Lam (spec.side_type Second q (depth + 1) start) (spec.side_variable side)))) }
{
    let second = side_type(alloc, Side::Second, q, depth + 1, start);
    let inside = Term::function_of(alloc, second, Ok(side_variable(side)));
    let first = side_type(alloc, Side::First, q, depth, start);
    Term::function_of(alloc, first, inside)
}
