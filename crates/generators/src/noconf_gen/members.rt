ghost use Rattle.std.specs.Prelude.{◌≡◌, ◌≤◌, Ok, IfOk};
ghost use Rattle.core_terms.specs.Answers.{Gives};
ghost use Rattle.core_terms.specs.Meanings.{tree_of, tele_of};
ghost use Rattle.core_sig.specs.Shapes.{constructor_shape, shape_of};
ghost use Rattle.tele_eq.specs.Items.{AreSmallTerms};
ghost use Rattle.tele_eq.specs.TelescopicEquality.{equations};
ghost use Rattle.generators.specs.noconf_gen.CodeMembers.{IsFitMember, member_of};
ghost use Rattle.generators.specs.noconf_gen.Compared as items;
ghost use Rattle.generators.specs.noconf_gen.Fitting.{FitsIndices, FitsSubject};
ghost use Rattle.generators.specs.noconf_gen.NoConfusionTypes as spec;

use crate::noconf_gen::compared::{constructed, member_items};
use case_below_gen::{closed_over, scrutinee_over};
use core_sig::{Constructor, Family, arguments_over};
use core_terms::{Binder, Stop, Tele, Term, functions, products};
use std::alloc::Global;
use tele_eq::{tele_equations_whole, variables_of_run};

/// A member of a family, with its indices.
#[derive(Clone, Copy)]
pub enum Member<'a> {
    /// A constructor, with its number, at arguments whose levels begin with the second number.
    Constructed(&'a Constructor, u32, u32),
    /// Variables whose levels begin with a number.
    Variables(u32),
}

/// The indices of a member, and the member itself, at a depth.
fn member_terms(
    alloc: Global,
    fam: u32,
    f: &Family,
    member: Member,
    depth: u32,
) -> Result<Tele, Stop>
    requires fits { FitsIndices (shape_of f.now) }
    requires member { IsFitMember (shape_of f.now) member }
    requires depth { depth ≤ 100000 }
    ensures is { Gives tele_of result (Ok (member_of fam (shape_of f.now) member.entry depth)) }
    ensures small { IfOk result (λ v. AreSmallTerms (tele_of v)) }
{
    let params = f.params.as_slice().len() as u32;
    let indices = f.indices.as_slice().len() as u32;
    match member {
        Member::Constructed(con, number, first) => {
            constructed(alloc, fam, params, indices, number, first, con, depth)
        }
        Member::Variables(start) => variables_of_run(alloc, depth, start, indices + 1),
    }
}

/// The equations of two members, at a depth.
fn member_equations(
    alloc: Global,
    fam: u32,
    f: &Family,
    left: Member,
    right: Member,
    depth: u32,
) -> Result<Tele, Stop>
    requires fits { FitsIndices (shape_of f.now) }
    requires left { IsFitMember (shape_of f.now) left }
    requires right { IsFitMember (shape_of f.now) right }
    requires depth { depth ≤ 100000 }
    ensures { Gives tele_of result (Ok (equations (items.member_items fam (shape_of f.now) depth) (member_of fam (shape_of f.now) left.entry depth) (member_of fam (shape_of f.now) right.entry depth))) }
{
    let items = member_items(alloc, fam, f, depth)?;
    let left = member_terms(alloc, fam, f, left, depth)?;
    let right = member_terms(alloc, fam, f, right, depth)?;
    tele_equations_whole(alloc, &items, &left, &right)
}

/// Binds the equations of two members around `end`, at a depth.
pub fn equations_over(
    alloc: Global,
    binder: Binder,
    fam: u32,
    f: &Family,
    left: Member,
    right: Member,
    depth: u32,
    end: Term,
) -> Result<Term, Stop>
    requires fits { FitsIndices (shape_of f.now) }
    requires left { IsFitMember (shape_of f.now) left }
    requires right { IsFitMember (shape_of f.now) right }
    requires depth { depth ≤ 100000 }
    ensures { Gives tree_of result (Ok (spec.equations_over binder fam (shape_of f.now) (member_of fam (shape_of f.now) left.entry) (member_of fam (shape_of f.now) right.entry) depth (tree_of end))) }
{
    let equations = member_equations(alloc, fam, f, left, right, depth)?.into_vec();
    match binder {
        Binder::Product => products(alloc, equations, end),
        Binder::Function => functions(alloc, equations, end),
    }
}

/// The type of a motive for the equations of two members, at a depth.
pub fn motive_type(
    alloc: Global,
    fam: u32,
    f: &Family,
    left: Member,
    right: Member,
    m: u8,
    depth: u32,
) -> Result<Term, Stop>
    requires fits { FitsIndices (shape_of f.now) }
    requires left { IsFitMember (shape_of f.now) left }
    requires right { IsFitMember (shape_of f.now) right }
    requires depth { depth ≤ 100000 }
    ensures { Gives tree_of result (Ok (spec.motive_type fam (shape_of f.now) (member_of fam (shape_of f.now) left.entry) (member_of fam (shape_of f.now) right.entry) m depth)) }
{
    let end = Term::Sort(m);
    equations_over(alloc, Binder::Product, fam, f, left, right, depth, end)
}

/// Binds the parameters, the arguments of a constructor, the indices and a member around `end`.
pub fn members_over(
    alloc: Global,
    binder: Binder,
    fam: u32,
    f: &Family,
    con: &Constructor,
    end: Term,
) -> Result<Term, Stop>
    requires fits { FitsSubject (shape_of f.now) (constructor_shape con.now) }
    ensures { Gives tree_of result (Ok (spec.members_over binder fam (shape_of f.now) (constructor_shape con.now) (tree_of end))) }
{
    let params = f.params.as_slice();
    let count = params.len() as u32;
    let args = con.args.as_slice();
    let arity = args.len() as u32;
    let end = scrutinee_over(alloc, binder, fam, f, count + arity, end)?;
    let runs = [(0, count), (count, arity)];
    let end = arguments_over(alloc, binder, &runs, count, count, args, end)?;
    closed_over(alloc, binder, params, end)
}
