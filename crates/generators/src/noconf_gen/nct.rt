ghost use Rattle.std.specs.Prelude.{◌≡◌, ◌≤◌, ◌<◌, ◌+◌, Ok, IfOk, length, map, max};
ghost use Rattle.core_terms.specs.Answers.{Gives};
ghost use Rattle.core_terms.specs.Meanings.{tree_of};
ghost use Rattle.core_sig.specs.Drafts.{draft_of};
ghost use Rattle.core_sig.specs.ScopedDrafts.{IsScopedDraft};
ghost use Rattle.core_sig.specs.Shapes.{constructor_shape, shape_of};
ghost use Rattle.case_below_gen.specs.CourseEntries.{applied_to_methods};
ghost use Rattle.theory.specs.Families as pure;
ghost use Rattle.theory.specs.Prelude.{prelude};
ghost use Rattle.theory.specs.Signatures.{FamilyOf, IsEntryAt, IsPrefix, Signature};
ghost use Rattle.theory.specs.SignatureScopes.{IsConstructorNumber, IsScopedSignature};
ghost use Rattle.theory.specs.Terms.{top};
ghost use Rattle.core_terms.specs.Bounds.{most_height};
ghost use Rattle.generators.specs.noconf_gen.CodeMembers.{IsFitSubject};
ghost use Rattle.generators.specs.noconf_gen.Fitting.{FitMembers, FitsConfusion, FitsMember, HasConfusionLevel};
ghost use Rattle.generators.specs.noconf_gen.NoConfusionTypes as spec;

use crate::noconf_gen::confusion::{Subject, confusion_type, subject_of};
use crate::noconf_gen::fitting::fits_confusion;
use crate::noconf_gen::lengths::{arity, index_count, parameter_count};
use crate::noconf_gen::members::{Member, equations_over, members_over, motive_type};
use crate::noconf_gen::naming::constructor_entry_name;
use case_below_gen::{at_scrutinee, only_name, scrutinee_over};
use core_sig::{Constructor, Draft, Entry, Signature, arguments_over, drafted, generated_name};
use core_terms::{Binder, Stop, Term, applied_to_run};
use std::alloc::Global;

/// The entry `D!nct.c.m` for constructor `con` of family number `fam`: what equations between an application of the constructor
/// and a member of the family come to, for motives into `Type m`. Deep where its type or its term is too high.
///
/// A constructor whose argument types all mention all arguments before them has a term whose size grows faster than 2^j for j
/// arguments: the transports along the equations of the arguments contain each other.
pub fn nct_entry(alloc: Global, sig: &Signature, fam: u32, con: u32, m: u8) -> Result<Draft, Stop>
    requires constructor { IsConstructorNumber sig.now fam con }
    requires level { HasConfusionLevel sig.now fam m }
    ensures answer { (f : pure.Family) → IsEntryAt sig.now fam (FamilyOf f) → Gives draft_of result (spec.nct_entry (length sig.now.entries) fam f con m) }
    ensures scoped { (T : Signature) → IsScopedSignature sig.now → IsPrefix (prelude sig.now.has_k) sig.now → IsPrefix sig.now T → IfOk result (λ d. IsScopedDraft T (draft_of d)) }
{
    match sig.entry(fam) {
        Some(Entry::Family(family)) => {
            let subject = subject_of(fam, family, con);
            nct_of_subject(alloc, sig.len(), subject, m)
        }
        _ => unreachable!(),
    }
}

fn nct_of_subject(alloc: Global, base: u32, subject: Subject, m: u8) -> Result<Draft, Stop>
    requires { max subject.family.now.level (m + 1) + 1 < top }
    ensures { Gives draft_of result (spec.nct_of_constructor base subject.entry.family.now.name subject.entry.fam (shape_of subject.entry.family.now) subject.entry.number subject.entry.con.now.name (constructor_shape subject.entry.con.now) m) }
{
    let f = subject.family;
    if !fits_confusion(f, subject.con) {
        return Err(Stop::Deep);
    }
    let j = f.level.max(m + 1);
    let name = constructor_entry_name(alloc, f, b"!nct.", subject.con, m)?;
    let names = only_name(alloc, generated_name(alloc, &f.name, b"!case.", j + 1)?)?;
    let ty = nct_type(alloc, subject, j)?;
    let body = nct_term(alloc, subject, m, j, base)?;
    drafted(name, base, names, ty, body)
}

/// The type: after the parameters, the arguments and a member, a type over the equations.
fn nct_type(alloc: Global, subject: Subject, j: u8) -> Result<Term, Stop>
    requires { IsFitSubject subject }
    ensures { Gives tree_of result (Ok (spec.nct_type subject.entry.fam (shape_of subject.entry.family.now) subject.entry.number (constructor_shape subject.entry.con.now) j)) }
{
    let f = subject.family;
    let params = f.params.as_slice().len() as u32;
    let start = params + subject.con.args.as_slice().len() as u32;
    let depth = start + f.indices.as_slice().len() as u32 + 1;
    let left = Member::Constructed(subject.con, subject.number, params);
    let right = Member::Variables(start);
    let end = motive_type(alloc, subject.fam, f, left, right, j, depth)?;
    members_over(alloc, Binder::Product, subject.fam, f, subject.con, end)
}

/// The term: case analysis of the member, where `analysis` is the constant of `D!case.(j+1)`.
fn nct_term(alloc: Global, subject: Subject, m: u8, j: u8, analysis: u32) -> Result<Term, Stop>
    requires { FitsConfusion (shape_of subject.family.now) (constructor_shape subject.con.now) }
    ensures { Gives tree_of result (Ok (spec.nct_term subject.entry.fam (shape_of subject.entry.family.now) subject.entry.number (constructor_shape subject.entry.con.now) m j analysis)) }
{
    let f = subject.family;
    let params = parameter_count(f);
    let indices = index_count(f);
    let start = params + arity(subject.con);
    let depth = start + indices + 1;
    let head = applied_to_run(alloc, Term::Const(analysis), depth, 0, params);
    let motive = analysis_motive(alloc, subject, j, depth);
    let head = Term::application_of(alloc, head, motive)?;
    let head = applied_to_confusions(alloc, subject, m, depth, 0, head, f.cons.as_slice())?;
    let end = at_scrutinee(alloc, depth, start, indices, head)?;
    members_over(alloc, Binder::Function, subject.fam, f, subject.con, end)
}

/// The motive of the case analysis, at a depth.
fn analysis_motive(alloc: Global, subject: Subject, j: u8, depth: u32) -> Result<Term, Stop>
    requires fits { IsFitSubject subject }
    requires depth { depth ≤ 10000 }
    ensures { Gives tree_of result (Ok (spec.analysis_motive subject.entry.fam (shape_of subject.entry.family.now) subject.entry.number (constructor_shape subject.entry.con.now) j depth)) }
{
    let f = subject.family;
    let params = f.params.as_slice().len() as u32;
    let inside = depth + f.indices.as_slice().len() as u32 + 1;
    let left = Member::Constructed(subject.con, subject.number, params);
    let right = Member::Variables(depth);
    let end = motive_type(alloc, subject.fam, f, left, right, j, inside)?;
    scrutinee_over(alloc, Binder::Function, subject.fam, f, depth, end)
}

/// `head` applied to the methods for the constructors from `at` on, at a depth.
fn applied_to_confusions(
    alloc: Global,
    subject: Subject,
    m: u8,
    depth: u32,
    at: u32,
    head: Term,
    cons: &[Constructor],
) -> Result<Term, Stop>
    requires fits { IsFitSubject subject }
    requires members { FitMembers (length subject.family.now.params) (length subject.family.now.indices) (map constructor_shape cons.now) }
    requires at { at + length cons.now ≤ most_height }
    requires depth { depth ≤ 10000 }
    ensures { Gives tree_of result (Ok (applied_to_methods (spec.confusion_method subject.entry.fam (shape_of subject.entry.family.now) subject.entry.number (constructor_shape subject.entry.con.now) m depth) at (tree_of head) (map constructor_shape cons.now))) }
{
    match cons {
        [] => Ok(head),
        [con, rest @ ..] => {
            let method = confusion_method(alloc, subject, m, depth, at, con)?;
            let head = Term::new_app(alloc, head, method)?;
            applied_to_confusions(alloc, subject, m, depth, at + 1, head, rest)
        }
    }
}

/// The method for constructor `at`, at a depth.
fn confusion_method(
    alloc: Global,
    subject: Subject,
    m: u8,
    depth: u32,
    at: u32,
    con: &Constructor,
) -> Result<Term, Stop>
    requires fits { IsFitSubject subject }
    requires con { FitsMember (length subject.family.now.params) (length subject.family.now.indices) (constructor_shape con.now) }
    requires depth { depth ≤ 10000 }
    ensures { Gives tree_of result (Ok (spec.confusion_method subject.entry.fam (shape_of subject.entry.family.now) subject.entry.number (constructor_shape subject.entry.con.now) m depth at (constructor_shape con.now))) }
{
    let f = subject.family;
    let params = parameter_count(f);
    let args = con.args.as_slice();
    let count = arity(con);
    let inside = depth + count;
    let behind = inside + index_count(f) + 1;
    let end = confusion_type(alloc, subject, at, con, depth, m, inside, behind)?;
    let left = Member::Constructed(subject.con, subject.number, params);
    let right = Member::Constructed(con, at, depth);
    let binder = Binder::Function;
    let end = equations_over(alloc, binder, subject.fam, f, left, right, inside, end)?;
    let runs = [(0, params), (depth, count)];
    arguments_over(alloc, binder, &runs, params, depth, args, end)
}
