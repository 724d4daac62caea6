ghost use Rattle.std.specs.Prelude.{◌≡◌, ◌<◌, IfOk, length};
ghost use Rattle.core_terms.specs.Answers.{Gives};
ghost use Rattle.core_terms.specs.Meanings.{tree_of};
ghost use Rattle.core_sig.specs.Shapes.{IsFew, shape_of};
ghost use Rattle.theory.specs.Families as pure;
ghost use Rattle.theory.specs.Signatures.{FamilyOf, IsEntryAt, IsPrefix, Signature};
ghost use Rattle.theory.specs.SignatureScopes.{IsFamilyNumber, IsScopedSignature};
ghost use Rattle.theory.specs.Terms.{top};
ghost use Rattle.case_below_gen.specs.CaseEntries as spec;
ghost use Rattle.core_sig.specs.ScopedDrafts.{IsScopedDraft};
ghost use Rattle.core_sig.specs.Drafts.{draft_of};

use crate::binding::{at_scrutinee, bound_of, closed_over, scrutinee_over};
use crate::branches::{applied_to_droppings, branches_over};
use crate::courses::drafted_of;
use core_sig::{Draft, Entry, Family, Motive, Signature, generated_name, is_few, motive_type};
use core_terms::{Binder, Items, Stop, Term, applied_to_run, variable};
use std::alloc::Global;

/// The entry `D!case.m` for family number `fam`: case analysis into `Type m`, the eliminator without hypotheses. It mentions no
/// generated name. Deep where its type or its term is too high.
pub fn case_entry(alloc: Global, sig: &Signature, fam: u32, m: u8) -> Result<Draft, Stop>
    requires family { IsFamilyNumber sig.now fam }
    requires level { m < top }
    ensures answer { (f : pure.Family) → IsEntryAt sig.now fam (FamilyOf f) → Gives draft_of result (spec.case_entry (length sig.now.entries) fam f m) }
    ensures scoped { (T : Signature) → IsScopedSignature sig.now → IsPrefix sig.now T → IfOk result (λ d. IsScopedDraft T (draft_of d)) }
{
    match sig.entry(fam) {
        Some(Entry::Family(family)) => case_of_family(alloc, sig.len(), fam, family, m),
        _ => unreachable!(),
    }
}

fn case_of_family(alloc: Global, base: u32, fam: u32, f: &Family, m: u8) -> Result<Draft, Stop>
    requires { m < top }
    ensures { Gives draft_of result (spec.case_of_shape base f.now.name fam (shape_of f.now) m) }
{
    if !is_few(f) {
        return Err(Stop::Deep);
    }
    let name = generated_name(alloc, &f.name, b"!case.", m)?;
    let ty = case_type(alloc, fam, f, m);
    let body = case_term(alloc, fam, f, m);
    drafted_of(name, base, Items::new(alloc), ty, body)
}

/// The eliminator's type without hypotheses.
fn case_type(alloc: Global, fam: u32, f: &Family, m: u8) -> Result<Term, Stop>
    requires { IsFew (shape_of f.now) }
    ensures { Gives tree_of result (Ok (spec.case_type fam (shape_of f.now) m)) }
{
    let params = f.params.as_slice().len() as u32;
    let count = f.indices.as_slice().len() as u32;
    let depth = params + 1 + f.cons.as_slice().len() as u32;
    let inside = depth + count + 1;
    let end = at_scrutinee(alloc, inside, depth, count, variable(inside, params))?;
    case_over(alloc, Binder::Product, fam, f, m, end)
}

/// The eliminator with methods that drop the hypotheses.
fn case_term(alloc: Global, fam: u32, f: &Family, m: u8) -> Result<Term, Stop>
    requires { IsFew (shape_of f.now) }
    ensures { Gives tree_of result (Ok (spec.case_term fam (shape_of f.now) m)) }
{
    let params = f.params.as_slice().len() as u32;
    let cons = f.cons.as_slice();
    let count = f.indices.as_slice().len() as u32;
    let depth = params + 1 + cons.len() as u32;
    let inside = depth + count + 1;
    let head = applied_to_run(alloc, Term::Elim(fam, m), inside, 0, params);
    let head = Term::application_of(alloc, head, Ok(variable(inside, params)))?;
    let motive = motive_of(f);
    let head = applied_to_droppings(alloc, motive, params + 1, inside, head, cons)?;
    let end = at_scrutinee(alloc, inside, depth, count, head)?;
    case_over(alloc, Binder::Function, fam, f, m, end)
}

/// Binds the parameters, the motive, the methods without hypotheses, the indices and the scrutinee around `end`.
fn case_over(
    alloc: Global,
    binder: Binder,
    fam: u32,
    f: &Family,
    m: u8,
    end: Term,
) -> Result<Term, Stop>
    requires { IsFew (shape_of f.now) }
    ensures { Gives tree_of result (Ok (spec.case_over binder fam (shape_of f.now) m (tree_of end))) }
{
    let params = f.params.as_slice().len() as u32;
    let cons = f.cons.as_slice();
    let depth = params + 1 + cons.len() as u32;
    let end = scrutinee_over(alloc, binder, fam, f, depth, end)?;
    let end = branches_over(alloc, binder, fam, motive_of(f), 0, params + 1, cons, end);
    let motive = motive_type(alloc, fam, f, m, params);
    let end = bound_of(alloc, binder, motive, end)?;
    closed_over(alloc, binder, f.params.as_slice(), end)
}

/// The motive after the parameters.
fn motive_of(f: &Family) -> Motive
    requires { IsFew (shape_of f.now) }
    ensures { result ≡ record { level = length f.now.params; params = length f.now.params; indices = length f.now.indices } }
{
    let params = f.params.as_slice().len() as u32;
    Motive {
        level: params,
        params,
        indices: f.indices.as_slice().len() as u32,
    }
}
