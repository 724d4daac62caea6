ghost use Rattle.std.specs.Prelude.{◌≡◌, ◌≤◌, ◌<◌, ◌+◌, IfOk, Ok, drop, length};
ghost use Rattle.core_terms.specs.Answers.{Gives, bounded_terms};
ghost use Rattle.core_terms.specs.Meanings.{tele_of};
ghost use Rattle.core_sig.specs.Meanings.{constructor_of, family_of};
ghost use Rattle.unification.specs.Heights as spec;
ghost use Rattle.problems.specs.Meanings.{equations_of, state_of};
ghost use Rattle.problems.specs.CodeBuilt.{IsInjected, IsKnown};
ghost use Rattle.problems.specs.Conditions.{AreOver, ArePlaces, ArePut, HasRoom, most_depth, most_levels};
ghost use Rattle.problems.specs.CodeMoves.{environment_of};
ghost use Rattle.unification.specs.Moving.{behind, over_first};
ghost use Rattle.core_terms.specs.Levels.{variable};
ghost use Rattle.tele_eq.specs.Congruences.{congruences};
ghost use Rattle.tele_eq.specs.Items.{AreSmall, AreSmallTerms, items_of};
ghost use Rattle.theory.specs.Telescopes.{variables};
ghost use Rattle.core_terms.specs.Bounds.{most_height};
ghost use Rattle.tele_eq.specs.TelescopicEquality.{equations};
ghost use Rattle.unification.specs.Records.{argument_items as argument_items_of};
ghost use Rattle.unification.specs.Injecting as injecting;
ghost use Rattle.problems.specs.CodeInjections.{equations_joined, group_made_behind, injected_rest};

use core_sig::Constructor;
use core_terms::{Items, Stop, Tele, Term};
use problems::{
    Behind, Built, Equation, Places, Sides, State, argument_items, constructor_terms, equations_at,
    equations_made, family_items, lifted, moved, with_equations,
};
use std::alloc::Global;
use tele_eq::{Item, cong, variables};

/// The proof of each equation of a group, after the equations of the arguments, or Deep.
fn group_proofs(
    alloc: Global,
    built: Built,
    ps: &[Term],
    left: &[Term],
    right: &[Term],
) -> Result<Tele, Stop>
    requires known { IsKnown built }
    requires few_args { length built.con.now.args ≤ 1000 }
    requires indices { length built.record.now.indices < 1000 }
    requires parameters { length ps.now ≡ length built.record.now.params }
    requires ps { AreOver most_levels (tele_of ps.now) }
    requires left { AreOver most_levels (tele_of left.now) }
    requires right { AreOver most_levels (tele_of right.now) }
    ensures { Gives tele_of result (spec.group_made built.entry.family built.entry.number (family_of built.entry.record.now) (constructor_of (length ps.now) built.entry.con.now) (tele_of ps.now) (tele_of left.now) (tele_of right.now)) }
{
    let count = built.con.args.as_slice().len() as u32;
    let ps = lifted(alloc, count, ps)?;
    proofs_behind(alloc, built, ps.as_slice(), left, right)
}

/// These proofs at parameters that come after the equations of the arguments.
fn proofs_behind(
    alloc: Global,
    built: Built,
    ps: &[Term],
    left: &[Term],
    right: &[Term],
) -> Result<Tele, Stop>
    requires known { IsKnown built }
    requires few_args { length built.con.now.args ≤ 1000 }
    requires indices { length built.record.now.indices < 1000 }
    requires parameters { length ps.now ≡ length built.record.now.params }
    requires ps { AreOver most_depth (tele_of ps.now) }
    requires left { AreOver most_levels (tele_of left.now) }
    requires right { AreOver most_levels (tele_of right.now) }
    ensures { Gives tele_of result (group_made_behind built.entry.family built.entry.number (family_of built.entry.record.now) (constructor_of (length ps.now) built.entry.con.now) (tele_of ps.now) (tele_of left.now) (tele_of right.now)) }
{
    let arguments = argument_items(alloc, ps, built.con)?;
    let members = family_items(alloc, built.family, built.record, ps)?;
    let terms = constructor_terms(alloc, built.family, built.number, ps, built.con)?;
    lifted_congruences(alloc, built.con, &arguments, &members, &terms, left, right)
}

/// Congruences from the equations of a constructor's arguments, after these, or Deep.
fn lifted_congruences(
    alloc: Global,
    con: &Constructor,
    arguments: &Items<Item>,
    members: &Items<Item>,
    terms: &Tele,
    left: &[Term],
    right: &[Term],
) -> Result<Tele, Stop>
    requires few_args { length con.now.args ≤ 1000 }
    requires few_arguments { length arguments.now ≤ 1000 }
    requires few_members { length members.now ≤ 1000 }
    requires arguments { AreSmall (items_of arguments.now) }
    requires members { AreSmall (items_of members.now) }
    requires terms { AreSmallTerms (tele_of terms.now) }
    requires left { AreOver most_levels (tele_of left.now) }
    requires right { AreOver most_levels (tele_of right.now) }
    ensures { Gives tele_of result (bounded_terms (congruences (items_of arguments.now) (items_of members.now) (tele_of terms.now) (injecting.lifted (length con.now.args) (tele_of left.now)) (injecting.lifted (length con.now.args) (tele_of right.now)) (variables (length con.now.args)))) }
{
    let count = con.args.as_slice().len() as u32;
    let left = lifted(alloc, count, left)?;
    let right = lifted(alloc, count, right)?;
    let proofs = variables(alloc, count)?;
    cong(alloc, arguments, members, terms, &left, &right, &proofs)
}

/// The equations after the first `group` ones.
fn behind_group(s: &State, group: u32) -> &[Equation]
    requires { group ≤ length s.now.equations }
    ensures { equations_of result.now ≡ drop group (state_of s.now).equations }
{
    &s.equations.as_slice()[group as usize..]
}

/// The equations of a constructor's arguments, and the further ones after them.
fn joined(
    alloc: Global,
    s: &State,
    group: u32,
    tele: &Items<Item>,
    types: &Tele,
    left: &Tele,
    right: &Tele,
    terms: &[Term],
    proofs: &[Term],
) -> Result<Items<Equation>, Stop>
    requires state { HasRoom (state_of s.now) }
    requires group { group ≤ length s.now.equations }
    requires count { length types.now ≤ 1000 }
    requires terms { ArePut (length s.now.ctx + length types.now) (tele_of terms.now) }
    requires proofs { ArePut (length s.now.ctx + length types.now) (tele_of proofs.now) }
    ensures { Gives equations_of result (Ok (equations_joined (state_of s.now) group (items_of tele.now) (tele_of types.now) (tele_of left.now) (tele_of right.now) (tele_of terms.now) (tele_of proofs.now))) }
{
    let made = equations_at(
        alloc,
        tele.as_slice(),
        types.as_slice(),
        left.as_slice(),
        right.as_slice(),
        Items::new(alloc),
    )?;
    let size = s.ctx.as_slice().len() as u32;
    let depth = size + types.as_slice().len() as u32;
    moved(
        alloc,
        size,
        behind_places(size, group, depth, terms),
        behind_places(size, group, depth, proofs),
        Sides::Same,
        size + group,
        depth,
        behind_group(s, group),
        made,
    )
}

/// The equations of the state after an injection, where those of the arguments are made.
fn with_proofs(
    alloc: Global,
    s: &State,
    group: u32,
    built: Built,
    ps: &[Term],
    tele: &Items<Item>,
    types: &Tele,
    left: &Tele,
    right: &Tele,
) -> Result<Items<Equation>, Stop>
    requires state { HasRoom (state_of s.now) }
    requires group { group ≤ length s.now.equations }
    requires known { IsInjected built (length s.now.ctx) (tele_of ps.now) (tele_of left.now) (tele_of right.now) }
    requires few_args { length built.con.now.args ≤ 1000 }
    requires indices { length built.record.now.indices < 1000 }
    requires parameters { length ps.now ≡ length built.record.now.params }
    requires tele { items_of tele.now ≡ argument_items_of built.family (tele_of ps.now) (constructor_of (length ps.now) built.con.now) }
    requires types { tele_of types.now ≡ equations (items_of tele.now) (tele_of left.now) (tele_of right.now) }
    ensures { Gives equations_of result (injected_rest (state_of s.now) group built.entry.family built.entry.number (family_of built.entry.record.now) (constructor_of (length ps.now) built.entry.con.now) (tele_of ps.now) (tele_of left.now) (tele_of right.now)) }
{
    let proofs = group_proofs(alloc, built, ps, left.as_slice(), right.as_slice())?;
    let terms = constructor_terms(alloc, built.family, built.number, ps, built.con)?;
    let (terms, proofs) = (terms.as_slice(), proofs.as_slice());
    joined(alloc, s, group, tele, types, left, right, terms, proofs)
}

/// The equations of which the first `group` ones are those of the arguments of one constructor, or Deep.
fn injected(
    alloc: Global,
    s: &State,
    group: u32,
    built: Built,
    ps: &[Term],
    left: &Tele,
    right: &Tele,
) -> Result<Items<Equation>, Stop>
    requires state { HasRoom (state_of s.now) }
    requires group { group ≤ length s.now.equations }
    requires known { IsInjected built (length s.now.ctx) (tele_of ps.now) (tele_of left.now) (tele_of right.now) }
    requires few_args { length built.con.now.args ≤ most_height }
    requires indices { length built.record.now.indices < 1000 }
    requires parameters { length ps.now ≡ length built.record.now.params }
    requires all { length right.now ≡ length left.now }
    requires arguments { length left.now ≡ length built.con.now.args }
    ensures { Gives equations_of result (spec.injected_made (state_of s.now) group built.entry.family built.entry.number (family_of built.entry.record.now) (constructor_of (length ps.now) built.entry.con.now) (tele_of ps.now) (tele_of left.now) (tele_of right.now)) }
{
    let tele = argument_items(alloc, ps, built.con)?;
    let types = equations_made(alloc, &tele, left, right)?;
    with_proofs(alloc, s, group, built, ps, &tele, &types, left, right)
}

/// The state with these equations in place of its first `group` ones, or Deep.
pub(crate) fn inject(
    alloc: Global,
    s: &State,
    group: u32,
    built: Built,
    ps: &[Term],
    left: &Tele,
    right: &Tele,
) -> Result<Box<State>, Stop>
    requires state { HasRoom (state_of s.now) }
    requires group { group ≤ length s.now.equations }
    requires known { IsInjected built (length s.now.ctx) (tele_of ps.now) (tele_of left.now) (tele_of right.now) }
    requires few_args { length built.con.now.args ≤ most_height }
    requires indices { length built.record.now.indices < 1000 }
    requires parameters { length ps.now ≡ length built.record.now.params }
    requires all { length right.now ≡ length left.now }
    requires arguments { length left.now ≡ length built.con.now.args }
    ensures answer { Gives (λ b. state_of b.value) result (spec.injection_made (state_of s.now) group built.entry.family built.entry.number (family_of built.entry.record.now) (constructor_of (length ps.now) built.entry.con.now) (tele_of ps.now) (tele_of left.now) (tele_of right.now)) }
    ensures few { IfOk result (λ next. length (state_of next.value).context + length (state_of next.value).equations ≤ most_levels) }
{
    let equations = injected(alloc, s, group, built, ps, left, right)?;
    with_equations(alloc, s, equations)
}

/// The places where `terms`, over the variables up to a depth, replace the first `count` places after a context.
fn behind_places(size: u32, count: u32, depth: u32, terms: &[Term]) -> Places
    requires size { size ≤ most_levels }
    requires count { count ≤ most_levels }
    requires depth { depth ≤ most_depth }
    requires terms { ArePut depth (tele_of terms.now) }
    ensures environment { environment_of result ≡ behind size count depth variable (over_first depth (tele_of terms.now)) }
    ensures places { ArePlaces result }
{
    Places::Behind(Behind {
        solution: None,
        size,
        count,
        new: depth,
        over: depth,
        terms,
    })
}
