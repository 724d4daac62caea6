ghost use Rattle.std.specs.Prelude.{◌≡◌, ◌≤◌, ◌<◌, ◌+◌, Ok, Some, length, slice_get};
ghost use Rattle.core_terms.specs.Answers.{Gives};
ghost use Rattle.core_terms.specs.Bounds.{most_height};
ghost use Rattle.core_terms.specs.Levels.{run, variable};
ghost use Rattle.core_terms.specs.Meanings.{tree_of, tele_of};
ghost use Rattle.core_sig.specs.Shapes.{constructor_shape, shape_of};
ghost use Rattle.tele_eq.specs.Congruences as tele;
ghost use Rattle.tele_eq.specs.Items.{AreSmall, AreSmallTerms, items_of};
ghost use Rattle.tele_eq.specs.TelescopicEquality.{equations};
ghost use Rattle.theory.specs.Telescopes.{applied};
ghost use Rattle.generators.specs.noconf_gen.CodeMembers.{IsFitMember, IsFitSubject, member_of};
ghost use Rattle.generators.specs.noconf_gen.Compared.{argument_items, constructed, member_items};
ghost use Rattle.generators.specs.noconf_gen.Fitting.{FitsIndices, FitsMember};
ghost use Rattle.generators.specs.noconf_gen.NoConfusionTypes as spec;

use crate::noconf_gen::compared::{argument_items, constructed, member_items};
use crate::noconf_gen::lengths::{arity, index_count, parameter_count};
use crate::noconf_gen::members::{Member, motive_type};
use core_sig::{Constructor, Family};
use core_terms::{Items, Stop, Tele, Term, applied, applied_to_run, products, variable};
use std::alloc::Global;
use tele_eq::{Item, cong_whole, tele_equations_whole, variables_of_run};

/// The constructor that no confusion is about, with its number, and its family with its number.
#[derive(Clone, Copy)]
pub struct Subject<'a> {
    pub fam: u32,
    pub family: &'a Family,
    pub number: u32,
    pub con: &'a Constructor,
}

/// Constructor `con` of a family, as the subject of no confusion.
pub fn subject_of<'a>(fam: u32, family: &'a Family, con: u32) -> Subject<'a>
    requires { con < length family.now.cons }
    ensures fam { result.fam ≡ fam }
    ensures family { result.family.now ≡ family.now }
    ensures number { result.number ≡ con }
    ensures con { slice_get family.now.cons con ≡ Some result.con.now }
{
    Subject {
        fam,
        family,
        number: con,
        con: &family.cons.as_slice()[con as usize],
    }
}

/// Congruences of the targets and the constructor at arguments whose levels begin with `first` and `second`, along equations
/// whose levels begin with `start`.
fn congruences(
    alloc: Global,
    subject: Subject,
    first: u32,
    second: u32,
    start: u32,
    depth: u32,
) -> Result<Tele, Stop>
    requires fits { IsFitSubject subject }
    requires first { first ≤ 50000 }
    requires second { second ≤ 50000 }
    requires start { start ≤ 50000 }
    requires depth { depth ≤ 50000 }
    ensures { Gives tele_of result (Ok (spec.congruences_at subject.entry.fam (shape_of subject.entry.family.now) subject.entry.number (constructor_shape subject.entry.con.now) first second start depth)) }
{
    let con = subject.con;
    let params = parameter_count(subject.family);
    let indices = index_count(subject.family);
    let count = arity(con);
    let from = argument_items(alloc, params, depth, con)?;
    let to = member_items(alloc, subject.fam, subject.family, depth)?;
    let number = subject.number;
    let terms = constructed(
        alloc,
        subject.fam,
        params,
        indices,
        number,
        depth,
        con,
        depth + count,
    )?;
    congruences_along(
        alloc, &from, &to, &terms, first, second, start, depth, count,
    )
}

/// Congruences of terms at variables whose levels begin with `first` and `second`, along equations whose levels begin with
/// `start`: `count` of each.
fn congruences_along(
    alloc: Global,
    from: &Items<Item>,
    to: &Items<Item>,
    terms: &Tele,
    first: u32,
    second: u32,
    start: u32,
    depth: u32,
    count: u32,
) -> Result<Tele, Stop>
    requires few_from { length from.now ≤ 1000 }
    requires few_to { length to.now ≤ 1000 }
    requires from { AreSmall (items_of from.now) }
    requires to { AreSmall (items_of to.now) }
    requires terms { AreSmallTerms (tele_of terms.now) }
    requires first { first ≤ 50000 }
    requires second { second ≤ 50000 }
    requires start { start ≤ 50000 }
    requires depth { depth ≤ 50000 }
    requires count { count ≤ most_height }
    ensures { Gives tele_of result (Ok (tele.congruences (items_of from.now) (items_of to.now) (tele_of terms.now) (run depth first count) (run depth second count) (run depth start count))) }
{
    let left = variables_of_run(alloc, depth, first, count)?;
    let right = variables_of_run(alloc, depth, second, count)?;
    let eqs = variables_of_run(alloc, depth, start, count)?;
    cong_whole(alloc, from, to, terms, &left, &right, &eqs)
}

/// The equations of the arguments, whose levels begin with `first` and `second`, at a depth.
fn argument_equations(
    alloc: Global,
    subject: Subject,
    first: u32,
    second: u32,
    depth: u32,
) -> Result<Tele, Stop>
    requires fits { IsFitSubject subject }
    requires first { first ≤ 50000 }
    requires second { second ≤ 50000 }
    requires depth { depth ≤ 40000 }
    ensures { Gives tele_of result (Ok (equations (argument_items (length (shape_of subject.entry.family.now).parameters) depth (constructor_shape subject.entry.con.now)) (run depth first (length (constructor_shape subject.entry.con.now).arguments)) (run depth second (length (constructor_shape subject.entry.con.now).arguments)))) }
{
    let params = parameter_count(subject.family);
    let count = arity(subject.con);
    let items = argument_items(alloc, params, depth, subject.con)?;
    let left = variables_of_run(alloc, depth, first, count)?;
    let right = variables_of_run(alloc, depth, second, count)?;
    tele_equations_whole(alloc, &items, &left, &right)
}

/// A motive at the congruences of equal arguments, whose levels begin with `first` and `second`, along equations whose levels
/// begin with `depth`.
fn at_congruences(
    alloc: Global,
    subject: Subject,
    first: u32,
    second: u32,
    motive: u32,
    depth: u32,
) -> Result<Term, Stop>
    requires fits { IsFitSubject subject }
    requires first { first ≤ 50000 }
    requires second { second ≤ 50000 }
    requires depth { depth ≤ 40000 }
    ensures { Gives tree_of result (Ok (applied (variable (depth + length (constructor_shape subject.entry.con.now).arguments) motive) (spec.congruences_at subject.entry.fam (shape_of subject.entry.family.now) subject.entry.number (constructor_shape subject.entry.con.now) first second depth (depth + length (constructor_shape subject.entry.con.now).arguments)))) }
{
    let inside = depth + arity(subject.con);
    let congruences = congruences(alloc, subject, first, second, depth, inside)?;
    applied(alloc, variable(inside, motive), congruences.into_vec())
}

/// That a motive holds at the congruences of equal arguments, whose levels begin with `first` and `second`, at a depth.
pub fn injective_type(
    alloc: Global,
    subject: Subject,
    first: u32,
    second: u32,
    motive: u32,
    depth: u32,
) -> Result<Term, Stop>
    requires fits { IsFitSubject subject }
    requires first { first ≤ 50000 }
    requires second { second ≤ 50000 }
    requires depth { depth ≤ 40000 }
    ensures { Gives tree_of result (Ok (spec.injective_type subject.entry.fam (shape_of subject.entry.family.now) subject.entry.number (constructor_shape subject.entry.con.now) first second motive depth)) }
{
    let equations = argument_equations(alloc, subject, first, second, depth)?;
    let end = at_congruences(alloc, subject, first, second, motive, depth)?;
    products(alloc, equations.into_vec(), end)
}

/// A motive at the equations of members, whose levels begin with `start`, at a depth.
fn concluded(alloc: Global, indices: u32, motive: u32, start: u32, depth: u32) -> Result<Term, Stop>
    requires indices { indices ≤ most_height }
    requires start { start ≤ 100000 }
    ensures { Gives tree_of result (Ok (spec.concluded indices motive start depth)) }
{
    applied_to_run(alloc, variable(depth, motive), depth, start, indices + 1)
}

/// The consequence of the equations of two different constructors, at a depth: each motive holds.
fn conflict_type(
    alloc: Global,
    fam: u32,
    f: &Family,
    left: Member,
    right: Member,
    m: u8,
    start: u32,
    depth: u32,
) -> Result<Term, Stop>
    requires fits { FitsIndices (shape_of f.now) }
    requires left { IsFitMember (shape_of f.now) left }
    requires right { IsFitMember (shape_of f.now) right }
    requires start { start ≤ 100000 }
    requires depth { depth ≤ 100000 }
    ensures { Gives tree_of result (Ok (spec.conflict_type fam (shape_of f.now) (member_of fam (shape_of f.now) left.entry) (member_of fam (shape_of f.now) right.entry) m start depth)) }
{
    let indices = f.indices.as_slice().len() as u32;
    let end = concluded(alloc, indices, depth, start, depth + 1);
    let motive = motive_type(alloc, fam, f, left, right, m, depth);
    Term::product_of(alloc, motive, end)
}

/// The consequence of the equations of a constructor at two lists of arguments, whose levels begin with `first` and `second`, at
/// a depth: each motive holds that holds at the congruences of equal arguments.
fn injection_type(
    alloc: Global,
    subject: Subject,
    first: u32,
    second: u32,
    m: u8,
    start: u32,
    depth: u32,
) -> Result<Term, Stop>
    requires fits { IsFitSubject subject }
    requires first { first ≤ 50000 }
    requires second { second ≤ 50000 }
    requires start { start ≤ 50000 }
    requires depth { depth ≤ 30000 }
    ensures { Gives tree_of result (Ok (spec.injection_type subject.entry.fam (shape_of subject.entry.family.now) subject.entry.number (constructor_shape subject.entry.con.now) first second m start depth)) }
{
    let indices = subject.family.indices.as_slice().len() as u32;
    let end = concluded(alloc, indices, depth, start, depth + 2);
    let premise = injective_type(alloc, subject, first, second, depth, depth + 1);
    let end = Term::product_of(alloc, premise, end);
    let left = Member::Constructed(subject.con, subject.number, first);
    let right = Member::Constructed(subject.con, subject.number, second);
    let motive = motive_type(alloc, subject.fam, subject.family, left, right, m, depth);
    Term::product_of(alloc, motive, end)
}

/// The consequence of the equations of the constructor, at arguments after the parameters, and of constructor `at`, at arguments
/// whose levels begin with `second`, at a depth.
pub fn confusion_type(
    alloc: Global,
    subject: Subject,
    at: u32,
    con: &Constructor,
    second: u32,
    m: u8,
    start: u32,
    depth: u32,
) -> Result<Term, Stop>
    requires fits { IsFitSubject subject }
    requires con { FitsMember (length subject.family.now.params) (length subject.family.now.indices) (constructor_shape con.now) }
    requires second { second ≤ 50000 }
    requires start { start ≤ 50000 }
    requires depth { depth ≤ 30000 }
    ensures { Gives tree_of result (Ok (spec.confusion_type subject.entry.fam (shape_of subject.entry.family.now) subject.entry.number (constructor_shape subject.entry.con.now) at (constructor_shape con.now) second m start depth)) }
{
    let first = parameter_count(subject.family);
    if at == subject.number {
        return injection_type(alloc, subject, first, second, m, start, depth);
    }
    let left = Member::Constructed(subject.con, subject.number, first);
    let right = Member::Constructed(con, at, second);
    conflict_type(
        alloc,
        subject.fam,
        subject.family,
        left,
        right,
        m,
        start,
        depth,
    )
}
