ghost use Rattle.std.specs.Prelude.{◌≡◌, ◌≤◌, ◌<◌, ◌+◌, Ok, IfOk, length, max};
ghost use Rattle.core_terms.specs.Answers.{Gives};
ghost use Rattle.core_terms.specs.Levels.{run, variable};
ghost use Rattle.core_terms.specs.Meanings.{tele_of, tree_of};
ghost use Rattle.core_terms.specs.declared.levels.Binder.TheVariants.{Function};
ghost use Rattle.core_sig.specs.Drafts.{draft_of};
ghost use Rattle.core_sig.specs.ScopedDrafts.{IsScopedDraft};
ghost use Rattle.core_sig.specs.Shapes.{constructor_shape, shape_of};
ghost use Rattle.tele_eq.specs.Items.{AreSmall, AreSmallTerms, IsSmall, items_of};
ghost use Rattle.tele_eq.specs.TelescopicEquality.{elimination as eliminated, reflexivities};
ghost use Rattle.theory.specs.Families as pure;
ghost use Rattle.theory.specs.Prelude.{prelude};
ghost use Rattle.theory.specs.Signatures.{FamilyOf, IsEntryAt, IsPrefix, Signature};
ghost use Rattle.theory.specs.SignatureScopes.{IsConstructorNumber, IsScopedSignature};
ghost use Rattle.theory.specs.Telescopes.{applied};
ghost use Rattle.theory.specs.Terms as tree;
ghost use Rattle.theory.specs.Terms.{top};
ghost use Rattle.core_terms.specs.Bounds.{context_limit};
ghost use Rattle.generators.specs.noconf_gen.CodeMembers.{IsFitSubject};
ghost use Rattle.generators.specs.noconf_gen.Compared.{argument_items};
ghost use Rattle.generators.specs.noconf_gen.Fitting.{HasConfusionLevel};
ghost use Rattle.generators.specs.noconf_gen.NoConfusion as spec;

use crate::noconf_gen::compared::{argument_items, constructed, member_items};
use crate::noconf_gen::confusion::{Subject, injective_type, subject_of};
use crate::noconf_gen::fitting::fits_subject;
use crate::noconf_gen::lengths::{arity, index_count, parameter_count};
use crate::noconf_gen::members::{Member, equations_over, members_over, motive_type};
use crate::noconf_gen::naming::constructor_entry_name;
use case_below_gen::only_name;
use core_sig::{Draft, Entry, Signature, drafted};
use core_terms::{Binder, Items, MAX_HEIGHT, Stop, Tele, Term, applied, applied_to_run, variable};
use std::alloc::Global;
use tele_eq::{Item, refl_list_whole, telescopic_j_whole, variables_of_run};

/// The entry `D!noconf.c.m` for constructor `con` of family number `fam`: `D!nct.c.m` from the equations. Deep where its type or
/// its term is too high. Its size grows as that of `D!nct.c.m`.
pub fn noconf_entry(
    alloc: Global,
    sig: &Signature,
    fam: u32,
    con: u32,
    m: u8,
) -> Result<Draft, Stop>
    requires constructor { IsConstructorNumber sig.now fam con }
    requires level { HasConfusionLevel sig.now fam m }
    ensures answer { (f : pure.Family) → IsEntryAt sig.now fam (FamilyOf f) → Gives draft_of result (spec.noconf_entry (length sig.now.entries) fam f con m) }
    ensures scoped { (T : Signature) → IsScopedSignature sig.now → IsPrefix (prelude sig.now.has_k) sig.now → IsPrefix sig.now T → IfOk result (λ d. IsScopedDraft T (draft_of d)) }
{
    match sig.entry(fam) {
        Some(Entry::Family(family)) => {
            let subject = subject_of(fam, family, con);
            noconf_of_subject(alloc, sig.len(), subject, m)
        }
        _ => unreachable!(),
    }
}

fn noconf_of_subject(alloc: Global, base: u32, subject: Subject, m: u8) -> Result<Draft, Stop>
    requires { max subject.family.now.level (m + 1) + 1 < top }
    ensures { Gives draft_of result (spec.noconf_of_constructor base subject.entry.family.now.name subject.entry.fam (shape_of subject.entry.family.now) subject.entry.number subject.entry.con.now.name (constructor_shape subject.entry.con.now) m) }
{
    let f = subject.family;
    let con = subject.con;
    if !fits_subject(f, con) {
        return Err(Stop::Deep);
    }
    let j = f.level.max(m + 1);
    let name = constructor_entry_name(alloc, f, b"!noconf.", con, m)?;
    let names = only_name(alloc, constructor_entry_name(alloc, f, b"!nct.", con, m)?)?;
    let start = reflexive_base(alloc, subject, m, whole_depth(subject))?;
    if start.height() > MAX_HEIGHT {
        return Err(Stop::Deep);
    }
    let ty = noconf_type(alloc, subject, base)?;
    let body = noconf_term(alloc, subject, j, base, start)?;
    drafted(name, base, names, ty, body)
}

/// How many variables `D!noconf.c.m` is over: the parameters, the arguments, a member and the equations.
fn whole_depth(subject: Subject) -> u32
    requires { IsFitSubject subject }
    ensures { result ≡ spec.whole_depth (shape_of subject.entry.family.now) (constructor_shape subject.entry.con.now) }
{
    let f = subject.family;
    let count = index_count(f) + 1;
    parameter_count(f) + arity(subject.con) + count + count
}

/// The type: `D!nct.c.m` at all that it is over, where `nct` is its constant.
fn noconf_type(alloc: Global, subject: Subject, nct: u32) -> Result<Term, Stop>
    requires { IsFitSubject subject }
    ensures { Gives tree_of result (Ok (spec.noconf_type subject.entry.fam (shape_of subject.entry.family.now) subject.entry.number (constructor_shape subject.entry.con.now) nct)) }
{
    let whole = whole_depth(subject);
    let end = applied_to_run(alloc, Term::Const(nct), whole, 0, whole)?;
    equal_members_over(alloc, Binder::Product, subject, end)
}

/// The term: by telescopic J, from `base`, the part for reflexivities, where `nct` is the constant of `D!nct.c.m`.
fn noconf_term(alloc: Global, subject: Subject, j: u8, nct: u32, base: Term) -> Result<Term, Stop>
    requires fits { IsFitSubject subject }
    requires base { IsSmall (tree_of base) }
    ensures { Gives tree_of result (Ok (spec.equal_members_over Function subject.entry.fam (shape_of subject.entry.family.now) subject.entry.number (constructor_shape subject.entry.con.now) (spec.elimination_from subject.entry.fam (shape_of subject.entry.family.now) subject.entry.number (constructor_shape subject.entry.con.now) j nct (tree_of base)))) }
{
    let end = elimination(alloc, subject, j, nct, base)?;
    equal_members_over(alloc, Binder::Function, subject, end)
}

/// The telescopic J along the equations of the members, from `base`.
fn elimination(alloc: Global, subject: Subject, j: u8, nct: u32, base: Term) -> Result<Term, Stop>
    requires fits { IsFitSubject subject }
    requires base { IsSmall (tree_of base) }
    ensures { Gives tree_of result (Ok (spec.elimination_from subject.entry.fam (shape_of subject.entry.family.now) subject.entry.number (constructor_shape subject.entry.con.now) j nct (tree_of base))) }
{
    let f = subject.family;
    let con = subject.con;
    let params = parameter_count(f);
    let indices = index_count(f);
    let start = params + arity(con);
    let count = indices + 1;
    let whole = start + count + count;
    let items = member_items(alloc, subject.fam, f, whole)?;
    let number = subject.number;
    let left = constructed(
        alloc,
        subject.fam,
        params,
        indices,
        number,
        params,
        con,
        whole,
    )?;
    elimination_along(alloc, &items, &left, start, count, j, nct, &base)
}

/// The telescopic J from terms to `count` variables, whose levels begin with `start`, along the equations after these.
fn elimination_along(
    alloc: Global,
    items: &Items<Item>,
    left: &Tele,
    start: u32,
    count: u32,
    j: u8,
    nct: u32,
    base: &Term,
) -> Result<Term, Stop>
    requires few { length items.now ≤ 1000 }
    requires items { AreSmall (items_of items.now) }
    requires left { AreSmallTerms (tele_of left.now) }
    requires start { start ≤ 1000 }
    requires count { count ≤ 1001 }
    requires base { IsSmall (tree_of base.now) }
    ensures { Gives tree_of result (Ok (eliminated (items_of items.now) j (applied (tree.Const nct) (run (start + count + count) 0 start)) (tree_of base.now) (tele_of left.now) (run (start + count + count) start count) (run (start + count + count) (start + count) count))) }
{
    let whole = start + count + count;
    let right = variables_of_run(alloc, whole, start, count)?;
    let eqs = variables_of_run(alloc, whole, start + count, count)?;
    let head = applied_to_run(alloc, Term::Const(nct), whole, 0, start)?;
    telescopic_j_whole(alloc, items, left, &right, &eqs, j, &head, base)
}

/// The part for reflexivities, at a depth: a motive's case at equal arguments, at the reflexivities of these.
fn reflexive_base(alloc: Global, subject: Subject, m: u8, depth: u32) -> Result<Term, Stop>
    requires fits { IsFitSubject subject }
    requires depth { depth ≤ 20000 }
    ensures is { Gives tree_of result (Ok (spec.reflexive_base subject.entry.fam (shape_of subject.entry.family.now) subject.entry.number (constructor_shape subject.entry.con.now) m depth)) }
    ensures free { IfOk result (λ t. tree.free_of (tree_of t) ≤ context_limit) }
{
    let params = parameter_count(subject.family);
    let premise = injective_type(alloc, subject, params, params, depth, depth + 1);
    let left = Member::Constructed(subject.con, subject.number, params);
    let motive = motive_type(alloc, subject.fam, subject.family, left, left, m, depth);
    let end = at_reflexivities(alloc, subject, depth);
    Term::function_of(alloc, motive, Term::function_of(alloc, premise, end))
}

/// A premise at the reflexivities of the arguments, where a motive and the premise are bound at a depth.
fn at_reflexivities(alloc: Global, subject: Subject, depth: u32) -> Result<Term, Stop>
    requires fits { IsFitSubject subject }
    requires depth { depth ≤ 20000 }
    ensures { Gives tree_of result (Ok (applied (variable (depth + 2) (depth + 1)) (reflexivities (argument_items (length (shape_of subject.entry.family.now).parameters) (depth + 2) (constructor_shape subject.entry.con.now)) (run (depth + 2) (length (shape_of subject.entry.family.now).parameters) (length (constructor_shape subject.entry.con.now).arguments))))) }
{
    let params = parameter_count(subject.family);
    let count = arity(subject.con);
    let inside = depth + 2;
    let items = argument_items(alloc, params, inside, subject.con)?;
    let terms = variables_of_run(alloc, inside, params, count)?;
    let reflexivities = refl_list_whole(alloc, &items, &terms)?;
    applied(alloc, variable(inside, depth + 1), reflexivities.into_vec())
}

/// Binds the parameters, the arguments, a member and the equations around `end`.
fn equal_members_over(
    alloc: Global,
    binder: Binder,
    subject: Subject,
    end: Term,
) -> Result<Term, Stop>
    requires { IsFitSubject subject }
    ensures { Gives tree_of result (Ok (spec.equal_members_over binder subject.entry.fam (shape_of subject.entry.family.now) subject.entry.number (constructor_shape subject.entry.con.now) (tree_of end))) }
{
    let f = subject.family;
    let params = f.params.as_slice().len() as u32;
    let start = params + subject.con.args.as_slice().len() as u32;
    let depth = start + f.indices.as_slice().len() as u32 + 1;
    let left = Member::Constructed(subject.con, subject.number, params);
    let right = Member::Variables(start);
    let end = equations_over(alloc, binder, subject.fam, f, left, right, depth, end)?;
    members_over(alloc, binder, subject.fam, f, subject.con, end)
}
