ghost use Rattle.std.specs.Prelude.{◌≡◌, ◌≤◌, ◌<◌, ◌+◌, IfOk, length, map};
ghost use Rattle.core_terms.specs.Answers.{Gives};
ghost use Rattle.core_terms.specs.Meanings.{tree_of};
ghost use Rattle.core_sig.specs.Shapes.{HaveFewArguments, IsFew, constructor_shape, shape_of};
ghost use Rattle.theory.specs.Families as pure;
ghost use Rattle.theory.specs.Signatures.{FamilyOf, IsEntryAt, IsPrefix, Signature};
ghost use Rattle.theory.specs.Prelude.{prelude};
ghost use Rattle.theory.specs.SignatureScopes.{IsFamilyNumber, IsScopedSignature};
ghost use Rattle.theory.specs.Terms.{top};
ghost use Rattle.core_terms.specs.Bounds.{most_height};
ghost use Rattle.case_below_gen.specs.CourseEntries as spec;
ghost use Rattle.core_sig.specs.ScopedDrafts.{IsScopedDraft};
ghost use Rattle.core_sig.specs.Drafts.{draft_of};

use crate::binding::{at_scrutinee, bound_of, closed_over, scrutinee_over};
use crate::components::{Course, Ending, components_over, tuple_type};
use crate::courses::{course_of, drafted_of, eliminator_at};
use core_sig::{
    Constructor, Draft, Entry, Family, Signature, arguments_over, generated_name, is_few,
    motive_type, recursive_count,
};
use core_terms::{Binder, Items, Stop, Term};
use std::alloc::Global;

/// The entry `D!below.m` for family number `fam`: the motive into `Type m` at each strict part of a term. It mentions no generated
/// name. Deep where its type or its term is too high.
pub fn below_entry(alloc: Global, sig: &Signature, fam: u32, m: u8) -> Result<Draft, Stop>
    requires family { IsFamilyNumber sig.now fam }
    requires level { m + 1 < top }
    ensures answer { (f : pure.Family) → IsEntryAt sig.now fam (FamilyOf f) → Gives draft_of result (spec.below_entry (length sig.now.entries) fam f m) }
    ensures scoped { (T : Signature) → IsScopedSignature sig.now → IsPrefix (prelude sig.now.has_k) sig.now → IsPrefix sig.now T → IfOk result (λ d. IsScopedDraft T (draft_of d)) }
{
    match sig.entry(fam) {
        Some(Entry::Family(family)) => below_of_family(alloc, sig.len(), fam, family, m),
        _ => unreachable!(),
    }
}

fn below_of_family(alloc: Global, base: u32, fam: u32, f: &Family, m: u8) -> Result<Draft, Stop>
    requires { m + 1 < top }
    ensures { Gives draft_of result (spec.below_of_shape base f.now.name fam (shape_of f.now) m) }
{
    if !is_few(f) {
        return Err(Stop::Deep);
    }
    let name = generated_name(alloc, &f.name, b"!below.", m)?;
    let ty = below_over(alloc, Binder::Product, fam, f, m, Term::Sort(m));
    let body = below_term(alloc, fam, f, m);
    drafted_of(name, base, Items::new(alloc), ty, body)
}

fn below_term(alloc: Global, fam: u32, f: &Family, m: u8) -> Result<Term, Stop>
    requires few { IsFew (shape_of f.now) }
    requires level { m + 1 < top }
    ensures { Gives tree_of result (Ok (spec.below_term fam (shape_of f.now) m)) }
{
    let q = course_of(f, m, 0);
    let inside = q.params + 1 + q.indices + 1;
    let head = eliminator_at(alloc, fam, m + 1, q.params, inside);
    let motive = scrutinee_over(alloc, Binder::Function, fam, f, inside, Term::Sort(m));
    let head = Term::application_of(alloc, head, motive)?;
    let head = applied_to_below_methods(alloc, q, inside, 0, head, f.cons.as_slice())?;
    let end = at_scrutinee(alloc, inside, q.params + 1, q.indices, head)?;
    below_over(alloc, Binder::Function, fam, f, m, end)
}

/// Binds the parameters, the motive, the indices and the scrutinee around `end`.
fn below_over(
    alloc: Global,
    binder: Binder,
    fam: u32,
    f: &Family,
    m: u8,
    end: Term,
) -> Result<Term, Stop>
    requires { IsFew (shape_of f.now) }
    ensures { Gives tree_of result (Ok (spec.below_over binder fam (shape_of f.now) m (tree_of end))) }
{
    let params = f.params.as_slice();
    let count = params.len() as u32;
    let end = scrutinee_over(alloc, binder, fam, f, count + 1, end);
    let motive = motive_type(alloc, fam, f, m, count);
    let end = bound_of(alloc, binder, motive, end)?;
    closed_over(alloc, binder, params, end)
}

/// `head` applied to the methods for the constructors from `number` on, at a depth.
fn applied_to_below_methods(
    alloc: Global,
    q: Course,
    depth: u32,
    number: u32,
    head: Term,
    cons: &[Constructor],
) -> Result<Term, Stop>
    requires params { q.params ≤ most_height }
    requires few { HaveFewArguments (map constructor_shape cons.now) }
    requires number { number + length cons.now ≤ most_height }
    requires depth { depth ≤ 20000 }
    ensures { Gives tree_of result (Ok (spec.applied_to_methods (λ _ c. spec.below_method q depth c) number (tree_of head) (map constructor_shape cons.now))) }
{
    match cons {
        [] => Ok(head),
        [con, rest @ ..] => {
            let method = below_method(alloc, q, depth, con);
            let head = Term::application_of(alloc, Ok(head), method)?;
            applied_to_below_methods(alloc, q, depth, number + 1, head, rest)
        }
    }
}

fn below_method(alloc: Global, q: Course, depth: u32, con: &Constructor) -> Result<Term, Stop>
    requires params { q.params ≤ most_height }
    requires few { length con.now.args ≤ most_height }
    requires depth { depth ≤ 20000 }
    ensures { Gives tree_of result (Ok (spec.below_method q depth (constructor_shape con.now))) }
{
    let args = con.args.as_slice();
    let count = args.len() as u32;
    let inside = depth + count;
    let whole = inside + recursive_count(args);
    let end = tuple_type(alloc, Ending::Beside, q, depth, 0, whole, inside, args)?;
    let end = components_over(alloc, Ending::Level, q, depth, 0, inside, args, end)?;
    let runs = [(0, q.params), (depth, count)];
    arguments_over(alloc, Binder::Function, &runs, q.params, depth, args, end)
}
