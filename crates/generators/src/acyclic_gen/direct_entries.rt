ghost use Rattle.std.specs.Prelude.{◌≡◌, ◌≤◌, ◌<◌, ◌+◌, IfOk, length, map};
ghost use Rattle.theory.specs.Families as pure;
ghost use Rattle.theory.specs.Prelude.{prelude};
ghost use Rattle.theory.specs.Signatures.{FamilyOf, IsEntryAt, IsPrefix, Signature};
ghost use Rattle.theory.specs.SignatureScopes.{IsFamilyNumber, IsScopedSignature};
ghost use Rattle.theory.specs.Terms.{top};
ghost use Rattle.core_terms.specs.Answers.{Gives};
ghost use Rattle.core_terms.specs.Bounds.{most_height};
ghost use Rattle.core_terms.specs.Meanings.{tree_of};
ghost use Rattle.core_sig.specs.Drafts.{draft_of};
ghost use Rattle.core_sig.specs.ScopedDrafts.{IsScopedDraft};
ghost use Rattle.core_sig.specs.Shapes.{HaveFewArguments, IsFew, constructor_shape, shape_of};
ghost use Rattle.case_below_gen.specs.CourseEntries.{applied_to_methods};
ghost use Rattle.generators.specs.acyclic_gen.Answers.{Yields};
ghost use Rattle.generators.specs.acyclic_gen.DirectEntries as spec;

use crate::acyclic_gen::AcyclicStop;
use crate::acyclic_gen::carrier::{Carrier, carrier_at, carrier_of};
use crate::acyclic_gen::claims::{Claim, eliminator};
use crate::acyclic_gen::direct_arguments::{Direct, directs};
use crate::acyclic_gen::methods::method_over;
use crate::acyclic_gen::naming::direct_name;
use crate::acyclic_gen::tuples::bound;
use case_below_gen::{closed_over, pair_of};
use core_sig::{
    Constructor, Draft, Entry, Family, Signature, drafted, is_few, recursive_count, unit,
};
use core_terms::{Binder, Items, Stop, Term, variable};
use std::alloc::Global;

/// The entry `D!direct` for family number `fam`: a motive into the family's own level at each part of a term, where the parts are
/// the direct arguments and their parts. Indexed where the family has indices; else Deep where its type or its term is too high.
pub fn direct_entry(alloc: Global, sig: &Signature, fam: u32) -> Result<Draft, AcyclicStop>
    requires family { IsFamilyNumber sig.now fam }
    requires level { (f : pure.Family) → IsEntryAt sig.now fam (FamilyOf f) → f.level + 1 < top }
    ensures answer { (f : pure.Family) → IsEntryAt sig.now fam (FamilyOf f) → Yields draft_of result (spec.direct_entry (length sig.now.entries) fam f) }
    ensures scoped { (T : Signature) → IsScopedSignature sig.now → IsPrefix (prelude sig.now.has_k) sig.now → IsPrefix sig.now T → IfOk result (λ d. IsScopedDraft T (draft_of d)) }
{
    match sig.entry(fam) {
        Some(Entry::Family(family)) => direct_of_family(alloc, sig.len(), fam, family),
        _ => unreachable!(),
    }
}

fn direct_of_family(alloc: Global, base: u32, fam: u32, f: &Family) -> Result<Draft, AcyclicStop>
    requires { f.now.level < 100 }
    ensures { Yields draft_of result (spec.direct_of_shape base f.now.name fam (shape_of f.now)) }
{
    match f.indices.as_slice() {
        [] => Ok(direct_draft(alloc, base, fam, f)?),
        [_, ..] => Err(AcyclicStop::Indexed),
    }
}

fn direct_draft(alloc: Global, base: u32, fam: u32, f: &Family) -> Result<Draft, Stop>
    requires level { f.now.level < 100 }
    requires indices { length f.now.indices ≤ most_height }
    ensures { Gives draft_of result (spec.direct_draft base f.now.name fam (shape_of f.now)) }
{
    if !is_few(f) {
        return Err(Stop::Deep);
    }
    let name = direct_name(alloc, &f.name)?;
    let q = carrier_of(fam, f, base);
    let ty = direct_over(alloc, Binder::Product, f, q, Term::Sort(q.level))?;
    let body = direct_term(alloc, f, q)?;
    drafted(name, base, Items::new(alloc), ty, body)
}

/// Binds the parameters, the motive and the scrutinee around `end`.
fn direct_over(
    alloc: Global,
    binder: Binder,
    f: &Family,
    q: Carrier,
    end: Term,
) -> Result<Term, Stop>
    requires { q.params ≤ most_height }
    ensures { Gives tree_of result (Ok (spec.direct_over binder (shape_of f.now) q (tree_of end))) }
{
    let end = bound(alloc, binder, carrier_at(alloc, q, q.params + 1), Ok(end));
    let sort = Ok(Term::Sort(q.level));
    let motive = Term::product_of(alloc, carrier_at(alloc, q, q.params), sort);
    let end = bound(alloc, binder, motive, end)?;
    closed_over(alloc, binder, f.params.as_slice(), end)
}

fn direct_term(alloc: Global, f: &Family, q: Carrier) -> Result<Term, Stop>
    requires level { q.level < 100 }
    requires params { q.params ≤ most_height }
    requires few { IsFew (shape_of f.now) }
    ensures { Gives tree_of result (Ok (spec.direct_term (shape_of f.now) q)) }
{
    let inside = q.params + 2;
    let head = eliminator(alloc, Claim::Direct, q, inside)?;
    let head = applied_to_direct_methods(alloc, q, inside, 0, head, f.cons.as_slice())?;
    let end = Term::new_app(alloc, head, Term::Var(0))?;
    direct_over(alloc, Binder::Function, f, q, end)
}

/// `head` applied to the methods for the constructors from `number` on, at a depth.
fn applied_to_direct_methods(
    alloc: Global,
    q: Carrier,
    depth: u32,
    number: u32,
    head: Term,
    cons: &[Constructor],
) -> Result<Term, Stop>
    requires params { q.params ≤ most_height }
    requires few { HaveFewArguments (map constructor_shape cons.now) }
    requires number { number + length cons.now ≤ most_height }
    requires depth { depth ≤ 20000 }
    ensures { Gives tree_of result (Ok (applied_to_methods (λ i c. spec.direct_method q depth c) number (tree_of head) (map constructor_shape cons.now))) }
{
    match cons {
        [] => Ok(head),
        [con, rest @ ..] => {
            let method = direct_method(alloc, q, depth, con)?;
            let head = Term::new_app(alloc, head, method)?;
            applied_to_direct_methods(alloc, q, depth, number + 1, head, rest)
        }
    }
}

fn direct_method(alloc: Global, q: Carrier, depth: u32, con: &Constructor) -> Result<Term, Stop>
    requires params { q.params ≤ most_height }
    requires few { length con.now.args ≤ most_height }
    requires depth { depth ≤ 20000 }
    ensures { Gives tree_of result (Ok (spec.direct_method q depth (constructor_shape con.now))) }
{
    let args = con.args.as_slice();
    let inside = depth + args.len() as u32;
    let whole = inside + recursive_count(args);
    let directs = directs(alloc, depth, inside, args)?;
    let end = parts_type(alloc, q, whole, directs.as_slice())?;
    method_over(alloc, Claim::Direct, q, depth, con, end)
}

/// The tuple type of the motive beside the hypothesis, for each direct argument.
fn parts_type(alloc: Global, q: Carrier, depth: u32, directs: &[Direct]) -> Result<Term, Stop>
    ensures { Gives tree_of result (Ok (spec.parts_type q depth directs.now)) }
{
    match directs {
        [] => Ok(Term::Fam(unit(q.level))),
        [d, rest @ ..] => {
            let motive = variable(depth, q.params);
            let here = Term::new_app(alloc, motive, variable(depth, d.argument))?;
            let here = pair_of(alloc, q.level, here, variable(depth, d.hypothesis))?;
            let rest = parts_type(alloc, q, depth, rest)?;
            pair_of(alloc, q.level, here, rest)
        }
    }
}
