ghost use Rattle.std.specs.Prelude.{◌≡◌, ◌+◌, ◌++◌, Ok, Some, option_map, IfOk, IfSome, ◌≤◌, ◌<◌, ◌^◌, length, map, take, slice_get};
ghost use Rattle.core_terms.specs.Answers.{Gives, Runs};
ghost use Rattle.core_terms.specs.Meanings.{tree_of, tele_of};
ghost use Rattle.unification.specs.Groups as spec;
ghost use Rattle.problems.specs.Meanings.{equation_of, equations_of, state_of, turn_of};
ghost use Rattle.unification.specs.States as states;
ghost use Rattle.problems.specs.Conditions.{AreGiven, AreLow, IsGiven, IsKept, LeadsToRoomWhere, most_levels};
ghost use Rattle.unification.specs.ScopedStates.{IsReady};
ghost use Rattle.problems.specs.CodeBuilt.{AreOfOneFamily, sides_of, teles_of};
ghost use Rattle.unification.specs.Built as spec_built;
ghost use Rattle.unification.specs.Constructors.{with_built};
ghost use Rattle.kernel_reduce.specs.Entries.{family_at};
ghost use Rattle.core_sig.specs.Meanings.{family_of};
ghost use Rattle.std.specs.List.{All};
ghost use Rattle.core_sig.specs.Kinds.{HasKinds};
ghost use Rattle.theory.specs.Terms as tree;
ghost use Rattle.theory.specs.Spines.{spine_of};
ghost use Rattle.core_terms.specs.Bounds.{most_height};
ghost use Rattle.unifier.specs.CodeGroups.{IsGroupOf, has_places, membership_from};
ghost use Rattle.problems.specs.CodeLowering.{lowered_under};

use crate::constructors::{Fits, heads, inject_sides};
use crate::trials::fails;
use core_sig::{Family, Signature};
use core_terms::{Items, Rule, Step, Stop, Tele, Term, copy_whole, head, spine_len};
use kernel_check::Kernel;
use kernel_reduce::family;
use problems::{
    Equation, State, Turn, built_of, equations_made, family_items, is_fitting, split_spine,
};
use std::alloc::Global;
use tele_eq::has_variable;

/// Whether the terms are the nearest `k` variables, from the outermost on.
fn are_nearest(k: u32, terms: &[Term]) -> bool
    ensures { result ≡ spec.are_nearest k (tele_of terms.now) }
{
    match terms {
        [] => k == 0,
        [t, rest @ ..] => {
            k > 0 && matches!(t, Term::Var(n) if *n == k - 1) && are_nearest(k - 1, rest)
        }
    }
}

/// Whether one of the nearest `k` variables is free in the term.
fn has_nearest(k: u32, t: &Term) -> bool
    requires { tree.height (tree_of t.now) ≤ most_height }
    ensures { result ≡ spec.has_nearest k (tree_of t.now) }
{
    if k == 0 {
        return false;
    }
    has_variable(k as u64 - 1, t) || has_nearest(k - 1, t)
}

fn have_nearest(k: u32, terms: &[Term]) -> bool
    requires { AreLow (tele_of terms.now) }
    ensures { result ≡ spec.have_nearest k (tele_of terms.now) }
{
    match terms {
        [] => false,
        [t, rest @ ..] => has_nearest(k, t) || have_nearest(k, rest),
    }
}

fn lowered_variable(k: u32, under: u32, n: u32) -> u32
    ensures { tree.Var result ≡ lowered_under k under (tree.Var n) }
{
    if n < under { n } else { n - k.min(n - under) }
}

/// A term without the nearest `k` variables, outside of their binders, under so many binders of its own.
fn lowered(alloc: Global, k: u32, under: u32, t: &Term) -> Result<Term, Stop>
    requires { under + tree.height (tree_of t.now) < 2 ^ 32 }
    ensures { Gives tree_of result (Ok (lowered_under k under (tree_of t.now))) }
{
    match t {
        Term::Var(n) => Ok(Term::Var(lowered_variable(k, under, *n))),
        Term::Pi(domain, codomain) => Term::product_of(
            alloc,
            lowered(alloc, k, under, domain),
            lowered(alloc, k, under + 1, codomain),
        ),
        Term::Lam(domain, body) => Term::function_of(
            alloc,
            lowered(alloc, k, under, domain),
            lowered(alloc, k, under + 1, body),
        ),
        Term::App(function, argument) => Term::application_of(
            alloc,
            lowered(alloc, k, under, function),
            lowered(alloc, k, under, argument),
        ),
        Term::Let(ty, value, rest) => Term::local_of(
            alloc,
            lowered(alloc, k, under, ty),
            lowered(alloc, k, under, value),
            lowered(alloc, k, under + 1, rest),
        ),
        Term::Sort(_)
        | Term::Const(_)
        | Term::Fam(_)
        | Term::Con(_, _)
        | Term::Elim(_, _)
        | Term::AxiomK(_, _) => copy_whole(alloc, t),
    }
}

/// A family with parameters in the context.
#[derive(Drop)]
struct Membership<'a> {
    number: u32,
    record: &'a Family,
    params: Tele,
}

/// The family of a type that has exactly the nearest `k` variables as its indices.
fn membership_of<'a>(
    alloc: Global,
    sig: &'a Signature,
    k: u32,
    ty: &Term,
) -> Result<Option<Membership<'a>>, Stop>
    requires low { tree.height (tree_of ty.now) ≤ most_height }
    ensures answer { Gives (option_map membership_from) result (Ok (spec.membership_of sig.now k (tree_of ty.now))) }
    ensures found { IfOk result (λ found. IfSome found (λ m. HasKinds m.number m.record.now × (family_at sig.now m.number ≡ Some (family_of m.record.now)))) }
{
    let Term::Fam(n) = head(ty) else {
        return Ok(None);
    };
    let Some(f) = family(sig, *n) else {
        return Ok(None);
    };
    at_places(alloc, k, *n, f, ty)
}

/// Whether so many indices come after all parameters of a family that no confusion can be made of.
fn has_places(k: u32, f: &Family, ty: &Term) -> bool
    requires { tree.height (tree_of ty.now) ≤ most_height }
    ensures { result ≡ has_places k (spine_of (tree_of ty.now)) (family_of f.now) }
{
    if f.indices.as_slice().len() != k as usize {
        return false;
    }
    let all = f.params.as_slice().len() as u128 + k as u128;
    if spine_len(ty) as u128 != all {
        return false;
    }
    is_fitting(f)
}

/// The membership that a type shows which is a family at arguments.
fn at_places<'a>(
    alloc: Global,
    k: u32,
    n: u32,
    f: &'a Family,
    ty: &Term,
) -> Result<Option<Membership<'a>>, Stop>
    requires low { tree.height (tree_of ty.now) ≤ most_height }
    ensures answer { Gives (option_map membership_from) result (Ok (spec.with_places k n (spine_of (tree_of ty.now)) (family_of f.now))) }
    ensures same { IfOk result (λ found. IfSome found (λ m. (m.number ≡ n) × (m.record.now ≡ f.now))) }
{
    if !has_places(k, f, ty) {
        return Ok(None);
    }
    let (ps, places) = split_spine(alloc, ty, f.params.as_slice().len())?;
    if !are_nearest(k, places.as_slice()) {
        return Ok(None);
    }
    if have_nearest(k, ps.as_slice()) {
        return Ok(None);
    }
    let params = all_lowered(alloc, k, ps.as_slice())?;
    Ok(Some(Membership {
        number: n,
        record: f,
        params,
    }))
}

/// Each of the terms without the nearest `k` variables.
fn all_lowered(alloc: Global, k: u32, terms: &[Term]) -> Result<Tele, Stop>
    requires { All (λ t. tree.height t ≤ most_height) (tele_of terms.now) }
    ensures { Gives tele_of result (Ok (map (spec.lowered k) (tele_of terms.now))) }
{
    let mut made = Items::new(alloc);
    for t in terms {
        made.push(lowered(alloc, k, 0, t)?)?;
    }
    Ok(made)
}

/// The left sides of equations, and the right ones.
fn sides(alloc: Global, equations: &[Equation]) -> Result<(Tele, Tele), Stop>
    ensures { Gives teles_of result (Ok (sides_of (equations_of equations.now))) }
{
    with_sides(alloc, equations, Items::new(alloc), Items::new(alloc))
}

/// The sides of equations after those that are already there.
#[tactic(auto, using(tele_eq::proofs::Growing::growing))]
fn with_sides(
    alloc: Global,
    equations: &[Equation],
    mut left: Tele,
    mut right: Tele,
) -> Result<(Tele, Tele), Stop>
    ensures { Gives teles_of result (Ok (tele_of left ++ states.left_sides (equations_of equations.now), tele_of right ++ states.right_sides (equations_of equations.now))) }
{
    let [e, rest @ ..] = equations else {
        return Ok((left, right));
    };
    left.push(copy_whole(alloc, &e.left)?)?;
    right.push(copy_whole(alloc, &e.right)?)?;
    with_sides(alloc, rest, left, right)
}

/// Whether the types of equations are convertible with others one by one, up to the first that are not.
fn all_convertible(
    equations: &[Equation],
    others: &[Term],
    kernel: &mut Kernel<'_>,
) -> Result<bool, Stop>
    requires ready { IsReady kernel.old.signature }
    requires types { AreGiven kernel.old.signature most_levels (states.types_as_they_stand (equations_of equations.now)) }
    requires others { AreGiven kernel.old.signature most_levels (tele_of others.now) }
    ensures answer { Runs (λ holds. holds) result kernel.new.left (spec.all_convertible kernel.old.signature (states.types_as_they_stand (equations_of equations.now)) (tele_of others.now) kernel.old.left) }
    ensures sum { kernel.new.left + kernel.new.spent ≡ kernel.old.left + kernel.old.spent }
    ensures spends { kernel.new.left ≤ kernel.old.left }
    ensures kernel { kernel.new.signature ≡ kernel.old.signature }
{
    let [e, equations @ ..] = equations else {
        return Ok(true);
    };
    let [other, others @ ..] = others else {
        return Ok(true);
    };
    if !kernel.convertible(&e.ty, other)? {
        return Ok(false);
    }
    all_convertible(equations, others, kernel)
}

/// Injectivity and conflict of the first `k + 1` equations.
fn group_trial(
    alloc: Global,
    sig: &Signature,
    s: &State,
    k: u32,
    kernel: &mut Kernel<'_>,
) -> Result<Option<Turn>, Stop>
    requires kernel { kernel.old.signature ≡ sig.now }
    requires ready { IsReady sig.now }
    requires state { IsKept sig.now (state_of s.now) }
    ensures answer { Runs (option_map turn_of) result kernel.new.left (spec.group_trial sig.now (state_of s.now) k kernel.old.left) }
    ensures sum { kernel.new.left + kernel.new.spent ≡ kernel.old.left + kernel.old.spent }
    ensures spends { kernel.new.left ≤ kernel.old.left }
    ensures kernel { kernel.new.signature ≡ sig.now }
    ensures room { IfOk result (λ found. LeadsToRoomWhere (option_map turn_of found)) }
{
    let Some(e) = s.equations.as_slice().get(k as usize) else {
        return Ok(None);
    };
    last_trial(alloc, sig, s, k, e, kernel)
}

/// The turn of the group whose last equation is `e`.
fn last_trial(
    alloc: Global,
    sig: &Signature,
    s: &State,
    k: u32,
    e: &Equation,
    kernel: &mut Kernel<'_>,
) -> Result<Option<Turn>, Stop>
    requires kernel { kernel.old.signature ≡ sig.now }
    requires ready { IsReady sig.now }
    requires state { IsKept sig.now (state_of s.now) }
    requires last { slice_get (state_of s.now).equations k ≡ Some (equation_of e.now) }
    ensures answer { Runs (option_map turn_of) result kernel.new.left (spec.last_trial sig.now (state_of s.now) k (Some (equation_of e.now)) kernel.old.left) }
    ensures sum { kernel.new.left + kernel.new.spent ≡ kernel.old.left + kernel.old.spent }
    ensures spends { kernel.new.left ≤ kernel.old.left }
    ensures kernel { kernel.new.signature ≡ sig.now }
    ensures room { IfOk result (λ found. LeadsToRoomWhere (option_map turn_of found)) }
{
    let ty = kernel.tidy(&e.place.ty)?;
    match membership_of(alloc, sig, k, &ty)? {
        Some(m) => on_membership(alloc, sig, s, k, e, ty, m, kernel),
        None => Ok(None),
    }
}

/// That turn, where the tidied type of its place is a family at the places before it.
fn on_membership(
    alloc: Global,
    sig: &Signature,
    s: &State,
    k: u32,
    e: &Equation,
    ty: Term,
    m: Membership,
    kernel: &mut Kernel<'_>,
) -> Result<Option<Turn>, Stop>
    requires kernel { kernel.old.signature ≡ sig.now }
    requires ready { IsReady sig.now }
    requires state { IsKept sig.now (state_of s.now) }
    requires last { slice_get (state_of s.now).equations k ≡ Some (equation_of e.now) }
    requires group { IsGroupOf sig.now (length s.now.ctx) k m }
    ensures answer { Runs (option_map turn_of) result kernel.new.left (spec.on_membership sig.now (state_of s.now) k (equation_of e.now) (tree_of ty) (Some (membership_from m.entry)) kernel.old.left) }
    ensures sum { kernel.new.left + kernel.new.spent ≡ kernel.old.left + kernel.old.spent }
    ensures spends { kernel.new.left ≤ kernel.old.left }
    ensures kernel { kernel.new.signature ≡ sig.now }
    ensures room { IfOk result (λ found. LeadsToRoomWhere (option_map turn_of found)) }
{
    let wanted = Fits::Family(m.number);
    let Some((left, right)) = heads(sig, wanted, &e.left, &e.right, kernel)? else {
        return Ok(None);
    };
    if !are_equations_of(alloc, s, k, &m, kernel)? {
        return Ok(None);
    }
    let members = Members {
        ty,
        ps: m.params,
        left,
        right,
    };
    group_turn(alloc, sig, s, k, e, members, kernel)
}

/// Whether the first `k + 1` equations are those of the indices of a family and of its members.
fn are_equations_of(
    alloc: Global,
    s: &State,
    k: u32,
    m: &Membership,
    kernel: &mut Kernel<'_>,
) -> Result<bool, Stop>
    requires ready { IsReady kernel.old.signature }
    requires state { IsKept kernel.old.signature (state_of s.now) }
    requires k { k < length s.now.equations }
    requires group { IsGroupOf kernel.old.signature (length s.now.ctx) k m.now }
    ensures answer { Runs (λ holds. holds) result kernel.new.left (spec.are_equations_of kernel.old.signature (membership_from m.now) (take (k + 1) (state_of s.now).equations) kernel.old.left) }
    ensures sum { kernel.new.left + kernel.new.spent ≡ kernel.old.left + kernel.old.spent }
    ensures spends { kernel.new.left ≤ kernel.old.left }
    ensures kernel { kernel.new.signature ≡ kernel.old.signature }
    ensures few { IfOk result (λ holds. k < 1000) }
{
    let equations = s.equations.as_slice();
    let group = &equations[..k as usize + 1];
    let tele = family_items(alloc, m.number, m.record, m.params.as_slice())?;
    let (left, right) = sides(alloc, group)?;
    let types = equations_made(alloc, &tele, &left, &right)?;
    all_convertible(group, types.as_slice(), kernel)
}

/// The last equation of a group: the tidied type of its place, the family's parameters in it, and the head forms of its sides.
#[derive(Drop)]
struct Members {
    ty: Term,
    ps: Tele,
    left: Term,
    right: Term,
}

/// The constructors of a group's last equation are the same, or not.
fn group_turn(
    alloc: Global,
    sig: &Signature,
    s: &State,
    k: u32,
    e: &Equation,
    members: Members,
    kernel: &mut Kernel<'_>,
) -> Result<Option<Turn>, Stop>
    requires kernel { kernel.old.signature ≡ sig.now }
    requires ready { IsReady sig.now }
    requires state { IsKept sig.now (state_of s.now) }
    requires last { slice_get (state_of s.now).equations k ≡ Some (equation_of e.now) }
    requires few { k < 1000 }
    requires ps { AreGiven sig.now (length s.now.ctx) (tele_of members.ps) }
    requires left { IsGiven sig.now (length s.now.ctx) (tree_of members.left) }
    requires right { IsGiven sig.now (length s.now.ctx) (tree_of members.right) }
    requires family { AreOfOneFamily sig.now (tree_of members.left) (tree_of members.right) }
    requires indices { (p : spec_built.Built) → spec_built.built_of sig.now (tree_of members.left) ≡ Some p → length p.family.indices ≡ k }
    requires parameters { (p : spec_built.Built) → spec_built.built_of sig.now (tree_of members.left) ≡ Some p → length p.family.parameters ≡ length members.ps }
    ensures answer { (m : spec.Membership) → m.parameters ≡ tele_of members.ps → ((p : spec_built.Built) → spec_built.built_of sig.now (tree_of members.left) ≡ Some p → p.family ≡ m.family) → Runs (option_map turn_of) result kernel.new.left (with_built (spec.group_turn sig.now (state_of s.now) k (equation_of e.now) m (tree_of members.ty)) (tree_of members.left) (tree_of members.right) (spec_built.built_of sig.now (tree_of members.left)) (spec_built.built_of sig.now (tree_of members.right)) kernel.old.left) }
    ensures sum { kernel.new.left + kernel.new.spent ≡ kernel.old.left + kernel.old.spent }
    ensures spends { kernel.new.left ≤ kernel.old.left }
    ensures kernel { kernel.new.signature ≡ sig.now }
    ensures room { IfOk result (λ found. LeadsToRoomWhere (option_map turn_of found)) }
{
    let Members {
        ty,
        ps,
        left,
        right,
    } = members;
    let (Some(b), Some(d)) = (built_of(sig, &left), built_of(sig, &right)) else {
        return Ok(None);
    };
    let group = k + 1;
    if b.number != d.number {
        let rule = Rule::Conflict(b.family, b.number, d.number);
        let step = Step {
            group,
            rule,
            ty,
            left,
            right,
        };
        return fails(step, &e.left, &e.right, kernel);
    }
    let next = inject_sides(alloc, s, group, b, ps.as_slice(), &left, &right)?;
    let rule = Rule::Inject(b.family, b.number);
    let step = Step {
        group,
        rule,
        ty,
        left,
        right,
    };
    Ok(Some(Turn::Goes(step, next)))
}

/// The groups of at most `k + 1` equations and of two at least, the greatest first.
pub(crate) fn group_trials(
    alloc: Global,
    sig: &Signature,
    s: &State,
    k: u32,
    kernel: &mut Kernel<'_>,
) -> Result<Option<Turn>, Stop>
    requires kernel { kernel.old.signature ≡ sig.now }
    requires ready { IsReady sig.now }
    requires state { IsKept sig.now (state_of s.now) }
    ensures answer { Runs (option_map turn_of) result kernel.new.left (spec.group_trials sig.now (state_of s.now) k kernel.old.left) }
    ensures sum { kernel.new.left + kernel.new.spent ≡ kernel.old.left + kernel.old.spent }
    ensures spends { kernel.new.left ≤ kernel.old.left }
    ensures kernel { kernel.new.signature ≡ sig.now }
    ensures room { IfOk result (λ found. LeadsToRoomWhere (option_map turn_of found)) }
{
    if k == 0 {
        return Ok(None);
    }
    match group_trial(alloc, sig, s, k, kernel)? {
        Some(turn) => Ok(Some(turn)),
        None => group_trials(alloc, sig, s, k - 1, kernel),
    }
}
