ghost use Rattle.std.specs.Prelude.{◌≡◌, ◌≤◌, ◌+◌, ◌∷◌, [], length, map, IfOk, OnErr};
ghost use Rattle.core_terms.specs.Answered.{shown};
ghost use Rattle.core_terms.specs.Answers.{Gives, and_then};
ghost use Rattle.core_terms.specs.Bounds.{most_height};
ghost use Rattle.core_terms.specs.Meanings.{tree_of};
ghost use Rattle.core_terms.specs.declared.stop.Stop.TheVariants.{Memory};
ghost use Rattle.core_sig.specs.Drafts as drafts;
ghost use Rattle.core_sig.specs.Drafts.{draft_of};
ghost use Rattle.core_sig.specs.Shapes.{constructor_shape, shape_of};
ghost use Rattle.case_below_gen.specs.CourseEntries as spec;
ghost use Rattle.case_below_gen.specs.Projections.{HasFewBinders};

use crate::components::Course;
use core_sig::{Constructor, Draft, Family, drafted};
use core_terms::{Items, Name, Stop, Term, applied_to_places, applied_to_run};
use std::alloc::Global;

/// A family's recursion into `Type m`, where `D!below.m` is the constant `below`.
pub fn course_of(f: &Family, m: u8, below: u32) -> Course
    requires { HasFewBinders (shape_of f.now) }
    ensures { result ≡ spec.course_of (shape_of f.now) m below }
{
    Course {
        m,
        params: f.params.as_slice().len() as u32,
        indices: f.indices.as_slice().len() as u32,
        below,
    }
}

/// The eliminator into `Type l` at the parameters.
pub fn eliminator_at(alloc: Global, fam: u32, l: u8, params: u32, depth: u32) -> Result<Term, Stop>
    ensures { Gives tree_of result (Ok (spec.eliminator_at fam l params depth)) }
{
    applied_to_run(alloc, Term::Elim(fam, l), depth, 0, params)
}

/// `head` at the targets of constructor `number` and at the constructor, at a depth.
pub fn at_constructor(
    alloc: Global,
    fam: u32,
    params: u32,
    number: u32,
    first: u32,
    depth: u32,
    head: Term,
    con: &Constructor,
) -> Result<Term, Stop>
    requires params { params ≤ most_height }
    requires first { first ≤ 100000 }
    requires few { length con.now.args ≤ most_height }
    requires depth { depth ≤ 1000000 }
    ensures { Gives tree_of result (Ok (spec.at_constructor fam params number first depth (tree_of head) (constructor_shape con.now))) }
{
    let count = con.args.as_slice().len() as u32;
    let runs = [(0, params), (first, count)];
    let targets = con.targets.as_slice();
    let scrutinee = applied_to_run(alloc, Term::Con(fam, number), depth, 0, params)?;
    let scrutinee = applied_to_run(alloc, scrutinee, depth, first, count);
    let head = applied_to_places(alloc, head, &runs, params + count, depth, targets);
    Term::application_of(alloc, head, scrutinee)
}

/// A definition over `base` entries, of answers for its type and its term, or Deep where one of the two is too high.
pub fn drafted_of(
    name: Name,
    base: u32,
    names: Items<Name>,
    ty: Result<Term, Stop>,
    body: Result<Term, Stop>,
) -> Result<Draft, Stop>
    ensures { Gives draft_of result (and_then (shown ty) (λ t. and_then (shown body) (λ u. drafts.drafted name base names t u))) }
{
    drafted(name, base, names, ty?, body?)
}

/// A list of one name.
pub fn only_name(alloc: Global, name: Name) -> Result<Items<Name>, Stop>
    ensures ok { IfOk result (λ names. names ≡ name ∷ []) }
    ensures memory { OnErr result (result ≡ Err Memory) }
{
    let mut names = Items::new(alloc);
    names.push(name)?;
    Ok(names)
}
