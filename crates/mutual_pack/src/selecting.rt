//! The motive of the elimination, which selects one of the motives by the tag.
ghost use Rattle.std.specs.Prelude.{◌≤◌, ◌+◌, Ok};
ghost use Rattle.core_terms.specs.Answers.{Gives};
ghost use Rattle.core_terms.specs.Meanings.{tree_of};
ghost use Rattle.mutual_pack.specs.Fitting.{IsNear};
ghost use Rattle.mutual_pack.specs.Inductions as spec;

use crate::packed_family::PackedFamily;
use core_sig::family_at;
use core_terms::{Stop, Term, applied_to_run, variable};
use std::alloc::Global;

/// `S p t`, for a tag t with a level, at a depth.
fn packed_at(alloc: Global, q: PackedFamily, t: u32, depth: u32) -> Result<Term, Stop>
    requires near { IsNear q }
    requires tag { t ≤ 100000 }
    ensures { Gives tree_of result (Ok (spec.packed_at q t depth)) }
{
    family_at(alloc, q.tag + 1, q.params, depth, t, 1)
}

/// `\t. S p t -> Type l`, at a depth.
fn selection_motive(alloc: Global, q: PackedFamily, depth: u32) -> Result<Term, Stop>
    requires near { IsNear q }
    requires depth { depth ≤ 100000 }
    ensures { Gives tree_of result (Ok (spec.selection_motive q depth)) }
{
    let domain = packed_at(alloc, q, depth, depth + 1);
    let body = Term::product_of(alloc, domain, Ok(Term::Sort(q.level)));
    Term::function_of(alloc, Ok(Term::Fam(q.tag)), body)
}

/// `\t s. T!case.(l+1) (\t. S p t -> Type l) P1 .. Pn t s`, where `T!case.(l+1)` is the constant `analysis`, at a depth.
fn selected_motive(alloc: Global, q: PackedFamily, analysis: u32, depth: u32) -> Result<Term, Stop>
    requires near { IsNear q }
    requires depth { depth ≤ 10000 }
    ensures { Gives tree_of result (Ok (spec.selected_motive q analysis depth)) }
{
    let inside = depth + 2;
    let motive = selection_motive(alloc, q, inside);
    let head = Term::application_of(alloc, Ok(Term::Const(analysis)), motive)?;
    let head = applied_to_run(alloc, head, inside, q.params, q.members);
    let head = Term::application_of(alloc, head, Ok(variable(inside, depth)));
    let body = Term::application_of(alloc, head, Ok(variable(inside, depth + 1)));
    let body = Term::function_of(alloc, packed_at(alloc, q, depth, depth + 1), body);
    Term::function_of(alloc, Ok(Term::Fam(q.tag)), body)
}

/// `S!elim.l p (..) methods`, at a depth.
pub fn eliminated(alloc: Global, q: PackedFamily, analysis: u32, depth: u32) -> Result<Term, Stop>
    requires near { IsNear q }
    requires depth { depth ≤ 10000 }
    ensures { Gives tree_of result (Ok (spec.eliminated q analysis depth)) }
{
    let head = applied_to_run(alloc, Term::Elim(q.tag + 1, q.level), depth, 0, q.params);
    let motive = selected_motive(alloc, q, analysis, depth);
    let head = Term::application_of(alloc, head, motive)?;
    applied_to_run(alloc, head, depth, q.params + q.members, q.constructors)
}
