ghost use Rattle.std.specs.Prelude.{◌≡◌, ◌≤◌, ◌<◌, ◌+◌, ◌++◌, ◌∷◌, [], IfOk, option_map, slice_get, ℕ, Some, None, Ok, cond, take, drop, map, reverse};
ghost use Rattle.core_terms.specs.Answers.{Gives, Runs};
ghost use Rattle.core_terms.specs.Meanings.{tree_of, tele_of};
ghost use Rattle.unification.specs.Cycles as spec;
ghost use Rattle.problems.specs.Meanings.{equation_of, turn_of};
ghost use Rattle.theory.specs.Terms as tree;
ghost use Rattle.core_terms.specs.Bounds.{most_height};
ghost use Rattle.problems.specs.Conditions.{most_levels, AreGiven, IsGiven};
ghost use Rattle.unification.specs.ScopedStates.{IsReady, IsScopedEquation};
ghost use Rattle.core_sig.specs.Meanings.{argument_of};
ghost use Rattle.unification.specs.Built as spec_built;
ghost use Rattle.problems.specs.CodeBuilt.{IsBuiltAs};
ghost use Rattle.problems.specs.CodeCycles as code;
ghost use Rattle.unification.specs.Solutions.{variable_in};
ghost use Rattle.unification.specs.Turns as turns;

use crate::trials::{fails, single, type_in};
use core_sig::{Arg, Signature};
use core_terms::{MAX_HEIGHT, Rule, Stop, Term, applied, copy_whole};
use kernel_check::Kernel;
use problems::{
    Built, Equation, Turn, built_of, has_no_indices, is_direct, is_fitting, split_spine,
    variable_in,
};
use std::alloc::Global;

/// Whether acyclicity is made for the constructor's family.
fn is_acyclic(b: Built) -> bool
    ensures { (p : spec_built.Built) → IsBuiltAs b.entry p → result ≡ spec.is_acyclic p }
{
    has_no_indices(b.record) && is_fitting(b.record)
}

fn is_variable(x: u32, t: &Term) -> bool
    ensures { result ≡ spec.is_variable x (variable_in (tree_of t.now)) }
{
    matches!(t, Term::Var(y) if *y == x)
}

/// A found term, or Deep if it is higher than `room`.
fn within(room: u32, t: Term) -> Result<Option<Term>, Stop>
    requires { room ≤ most_height }
    ensures { Gives (option_map tree_of) result (code.within room (Some (tree_of t))) }
{
    if t.height() > room {
        return Err(Stop::Deep);
    }
    Ok(Some(t))
}

/// The variable in a head form, at or below direct arguments of constructors of the family: the found term is the term with each
/// argument on the way reduced, or Deep where that is higher than `room`.
#[cycle(search)]
fn search(
    alloc: Global,
    sig: &Signature,
    n: u32,
    x: u32,
    room: u32,
    t: &Term,
    kernel: &mut Kernel<'_>,
) -> Result<Option<Term>, Stop>
    requires kernel { kernel.old.signature ≡ sig.now }
    requires ready { IsReady sig.now }
    requires room { room ≤ most_height }
    requires t { IsGiven sig.now most_levels (tree_of t.now) }
    ensures answer { Runs (option_map tree_of) result kernel.new.left (code.search_within sig.now n x room (tree_of t.now) kernel.old.left) }
    ensures sum { kernel.new.left + kernel.new.spent ≡ kernel.old.left + kernel.old.spent }
    ensures spends { kernel.new.left ≤ kernel.old.left }
    ensures kernel { kernel.new.signature ≡ sig.now }
{
    if is_variable(x, t) {
        return within(room, copy_whole(alloc, t)?);
    }
    let Some(b) = built_of(sig, t) else {
        return Ok(None);
    };
    if b.family != n {
        return Ok(None);
    }
    if room == 0 {
        return below_too_deep(alloc, sig, b, x, t, kernel);
    }
    below(alloc, sig, b, x, room, t, kernel)
}

/// The variable below the constructor that the term is.
#[cycle(search)]
fn below(
    alloc: Global,
    sig: &Signature,
    b: Built,
    x: u32,
    room: u32,
    t: &Term,
    kernel: &mut Kernel<'_>,
) -> Result<Option<Term>, Stop>
    requires kernel { kernel.old.signature ≡ sig.now }
    requires ready { IsReady sig.now }
    requires room { 0 < room }
    requires most { room ≤ most_height }
    requires t { IsGiven sig.now most_levels (tree_of t.now) }
    ensures answer { (p : spec_built.Built) → spec_built.built_of sig.now (tree_of t.now) ≡ Some p → IsBuiltAs b.entry p → Runs (option_map tree_of) result kernel.new.left (code.search_within sig.now p.n x room (tree_of t.now) kernel.old.left) }
    ensures sum { kernel.new.left + kernel.new.spent ≡ kernel.old.left + kernel.old.spent }
    ensures spends { kernel.new.left ≤ kernel.old.left }
    ensures kernel { kernel.new.signature ≡ sig.now }
{
    let count = b.record.params.as_slice().len();
    let (ps, us) = split_spine(alloc, t, count)?;
    let mut us = us.into_vec();
    let args = b.con.args.as_slice();
    if !among(alloc, sig, b.family, x, room - 1, args, &mut us, 0, kernel)? {
        return Ok(None);
    }
    let head = applied(alloc, Term::Con(b.family, b.number), ps.into_vec())?;
    within(room, applied(alloc, head, us)?)
}

/// Whether the variable is found in one of the arguments from `at` on, which is then put reduced in its place, or Deep where it is
/// higher than `room`.
#[cycle(search)]
fn among(
    alloc: Global,
    sig: &Signature,
    n: u32,
    x: u32,
    room: u32,
    args: &[Arg],
    us: &mut Vec<Term>,
    at: usize,
    kernel: &mut Kernel<'_>,
) -> Result<bool, Stop>
    requires kernel { kernel.old.signature ≡ sig.now }
    requires ready { IsReady sig.now }
    requires room { room ≤ most_height }
    requires us { AreGiven sig.now most_levels (tele_of us.old.items) }
    ensures answer { (p : ℕ) → Runs (λ found. cond found (Some (drop at (tele_of us.new.items))) None) result kernel.new.left (spec.among_arguments sig.now (λ before. code.search_within sig.now n x room) (map (argument_of p) (drop at args.now)) (drop at (tele_of us.old.items)) kernel.old.left) }
    ensures before { take at us.new.items ≡ take at us.old.items }
    ensures sum { kernel.new.left + kernel.new.spent ≡ kernel.old.left + kernel.old.spent }
    ensures spends { kernel.new.left ≤ kernel.old.left }
    ensures kernel { kernel.new.signature ≡ sig.now }
{
    if at >= us.len() || at >= args.len() {
        return Ok(false);
    }
    let found = at_argument(alloc, sig, n, x, room, &args[at], &us[at], kernel)?;
    if let Some(found) = found {
        us[at] = found;
        return Ok(true);
    }
    among(alloc, sig, n, x, room, args, us, at + 1, kernel)
}

/// The search in one of them, if it is direct.
#[cycle(search)]
fn at_argument(
    alloc: Global,
    sig: &Signature,
    n: u32,
    x: u32,
    room: u32,
    arg: &Arg,
    u: &Term,
    kernel: &mut Kernel<'_>,
) -> Result<Option<Term>, Stop>
    requires kernel { kernel.old.signature ≡ sig.now }
    requires ready { IsReady sig.now }
    requires room { room ≤ most_height }
    requires u { IsGiven sig.now most_levels (tree_of u.now) }
    ensures answer { (p : ℕ) → Runs (option_map tree_of) result kernel.new.left (code.at_argument sig.now n x room (argument_of p arg.now) (tree_of u.now) kernel.old.left) }
    ensures sum { kernel.new.left + kernel.new.spent ≡ kernel.old.left + kernel.old.spent }
    ensures spends { kernel.new.left ≤ kernel.old.left }
    ensures kernel { kernel.new.signature ≡ sig.now }
{
    if !is_direct(arg) {
        return Ok(None);
    }
    let t = kernel.whnf(u)?;
    search(alloc, sig, n, x, room, &t, kernel)
}

/// The variable below the constructor that the term is, where there is no room for the found term.
fn below_too_deep(
    alloc: Global,
    sig: &Signature,
    b: Built,
    x: u32,
    t: &Term,
    kernel: &mut Kernel<'_>,
) -> Result<Option<Term>, Stop>
    requires kernel { kernel.old.signature ≡ sig.now }
    requires ready { IsReady sig.now }
    requires t { IsGiven sig.now most_levels (tree_of t.now) }
    ensures answer { (p : spec_built.Built) → spec_built.built_of sig.now (tree_of t.now) ≡ Some p → IsBuiltAs b.entry p → Runs (option_map tree_of) result kernel.new.left (code.search_within sig.now p.n x 0 (tree_of t.now) kernel.old.left) }
    ensures sum { kernel.new.left + kernel.new.spent ≡ kernel.old.left + kernel.old.spent }
    ensures spends { kernel.new.left ≤ kernel.old.left }
    ensures kernel { kernel.new.signature ≡ sig.now }
{
    let terms = with_direct(alloc, b, t, Vec::new(alloc))?;
    search_too_deep(alloc, sig, b.family, x, terms, kernel)?;
    Ok(None)
}

/// The terms with the direct arguments of the constructor that a term is after them, the first argument last.
fn with_direct(alloc: Global, b: Built, t: &Term, terms: Vec<Term>) -> Result<Vec<Term>, Stop>
    ensures { Gives (λ made. tele_of made.items) result (Ok (tele_of terms.items ++ reverse (code.direct_in b.entry (tree_of t.now)))) }
{
    let count = b.record.params.as_slice().len();
    let (_, us) = split_spine(alloc, t, count)?;
    let mut us = us.into_vec();
    let args = b.con.args.as_slice();
    let mut made = terms;
    'arguments: while let Some(u) = us.pop() {
        made = with_argument(is_direct_at(args, us.len()), u, made)?;
    }
    Ok(made)
}

/// Whether the argument with a number is there and is direct.
fn is_direct_at(args: &[Arg], at: usize) -> bool
    ensures { (p : ℕ) → result ≡ code.is_direct_at (slice_get (map (argument_of p) args.now) at) }
{
    matches!(args.get(at), Some(arg) if is_direct(arg))
}

/// The terms with one after them, where it stands for a direct argument.
fn with_argument(direct: bool, u: Term, mut terms: Vec<Term>) -> Result<Vec<Term>, Stop>
    ensures { Gives (λ made. tele_of made.items) result (Ok (tele_of terms.items ++ cond direct (tree_of u ∷ []) [])) }
{
    if direct {
        terms.push(u)?;
    }
    Ok(terms)
}

/// Deep where the variable is found in one of the terms, the last of which is reduced and searched first.
///
/// Nothing is built, and no call is open for a term around another one: so a search goes as deep as there are constructors.
fn search_too_deep(
    alloc: Global,
    sig: &Signature,
    n: u32,
    x: u32,
    terms: Vec<Term>,
    kernel: &mut Kernel<'_>,
) -> Result<(), Stop>
    requires kernel { kernel.old.signature ≡ sig.now }
    requires ready { IsReady sig.now }
    requires terms { AreGiven sig.now most_levels (tele_of terms.items) }
    ensures answer { Runs (λ done. None) result kernel.new.left (code.search_too_deep sig.now n x (reverse (tele_of terms.items)) kernel.old.left) }
    ensures sum { kernel.new.left + kernel.new.spent ≡ kernel.old.left + kernel.old.spent }
    ensures spends { kernel.new.left ≤ kernel.old.left }
    ensures kernel { kernel.new.signature ≡ sig.now }
{
    let mut waiting = terms;
    'terms: while let Some(u) = waiting.pop() {
        waiting = go_below(alloc, sig, n, x, u, waiting, kernel)?;
    }
    Ok(())
}

/// The terms that wait once one more is reduced: its direct arguments, after the others. Deep where it is the variable.
fn go_below(
    alloc: Global,
    sig: &Signature,
    n: u32,
    x: u32,
    u: Term,
    waiting: Vec<Term>,
    kernel: &mut Kernel<'_>,
) -> Result<Vec<Term>, Stop>
    requires kernel { kernel.old.signature ≡ sig.now }
    requires ready { IsReady sig.now }
    requires u { IsGiven sig.now most_levels (tree_of u) }
    requires waiting { AreGiven sig.now most_levels (tele_of waiting.items) }
    ensures answer { Runs (λ made. reverse (tele_of made.items)) result kernel.new.left (code.go_below sig.now n x (tree_of u) (reverse (tele_of waiting.items)) kernel.old.left) }
    ensures sum { kernel.new.left + kernel.new.spent ≡ kernel.old.left + kernel.old.spent }
    ensures spends { kernel.new.left ≤ kernel.old.left }
    ensures kernel { kernel.new.signature ≡ sig.now }
    ensures given { IfOk result (λ made. AreGiven sig.now most_levels (tele_of made.items)) }
{
    let t = kernel.whnf(&u)?;
    if is_variable(x, &t) {
        return Err(Stop::Deep);
    }
    with_arguments(alloc, sig, n, &t, waiting)
}

/// The terms with the direct arguments of a head form after them, where it is a constructor of the family.
fn with_arguments(
    alloc: Global,
    sig: &Signature,
    n: u32,
    t: &Term,
    terms: Vec<Term>,
) -> Result<Vec<Term>, Stop>
    requires low { tree.height (tree_of t.now) ≤ most_height }
    ensures { Gives (λ made. tele_of made.items) result (Ok (tele_of terms.items ++ reverse (code.direct_arguments n (spec_built.built_of sig.now (tree_of t.now))))) }
{
    match built_of(sig, t) {
        Some(b) if b.family == n => with_direct(alloc, b, t, terms),
        _ => Ok(terms),
    }
}

/// The variable below the constructor that a side is, or Deep where the side is too high once it is reduced on the way.
fn reduced_side(
    alloc: Global,
    sig: &Signature,
    x: u32,
    t: &Term,
    kernel: &mut Kernel<'_>,
) -> Result<Option<Term>, Stop>
    requires kernel { kernel.old.signature ≡ sig.now }
    requires ready { IsReady sig.now }
    requires t { IsGiven sig.now most_levels (tree_of t.now) }
    ensures answer { Runs (option_map tree_of) result kernel.new.left (spec.reduced_side sig.now x (tree_of t.now) (spec_built.built_of sig.now (tree_of t.now)) kernel.old.left) }
    ensures sum { kernel.new.left + kernel.new.spent ≡ kernel.old.left + kernel.old.spent }
    ensures spends { kernel.new.left ≤ kernel.old.left }
    ensures kernel { kernel.new.signature ≡ sig.now }
{
    match built_of(sig, t) {
        Some(b) if is_acyclic(b) => search(alloc, sig, b.family, x, MAX_HEIGHT, t, kernel),
        _ => Ok(None),
    }
}

/// A cycle: one side of the equation is a variable that occurs below constructors on the other side.
pub(crate) fn cycle_trial(
    alloc: Global,
    sig: &Signature,
    e: &Equation,
    kernel: &mut Kernel<'_>,
) -> Result<Option<Turn>, Stop>
    requires kernel { kernel.old.signature ≡ sig.now }
    requires ready { IsReady sig.now }
    requires e { IsScopedEquation sig.now most_levels 0 (equation_of e.now) }
    requires low { (tree.height (tree_of e.now.left) ≤ most_height) × (tree.height (tree_of e.now.right) ≤ most_height) }
    ensures answer { Runs (option_map turn_of) result kernel.new.left (spec.cycle_trial sig.now (equation_of e.now) kernel.old.left) }
    ensures sum { kernel.new.left + kernel.new.spent ≡ kernel.old.left + kernel.old.spent }
    ensures spends { kernel.new.left ≤ kernel.old.left }
    ensures kernel { kernel.new.signature ≡ sig.now }
{
    let left = kernel.whnf(&e.left)?;
    if let Some(x) = variable_in(&left) {
        let right = kernel.whnf(&e.right)?;
        return match reduced_side(alloc, sig, x, &right, kernel)? {
            Some(right) => cycle(alloc, e, x, left, right, kernel),
            None => Ok(None),
        };
    }
    match built_of(sig, &left) {
        Some(b) if is_acyclic(b) => {}
        _ => return Ok(None),
    }
    let right = kernel.whnf(&e.right)?;
    let Some(x) = variable_in(&right) else {
        return Ok(None);
    };
    match reduced_side(alloc, sig, x, &left, kernel)? {
        Some(left) => cycle(alloc, e, x, left, right, kernel),
        None => Ok(None),
    }
}

/// The last step by a cycle.
fn cycle(
    alloc: Global,
    e: &Equation,
    x: u32,
    left: Term,
    right: Term,
    kernel: &mut Kernel<'_>,
) -> Result<Option<Turn>, Stop>
    requires ready { IsReady kernel.old.signature }
    requires e { IsScopedEquation kernel.old.signature most_levels 0 (equation_of e.now) }
    requires low { (tree.height (tree_of e.now.left) ≤ most_height) × (tree.height (tree_of e.now.right) ≤ most_height) }
    ensures answer { Runs (option_map turn_of) result kernel.new.left (turns.fails_at kernel.old.signature (spec.cycle_step (equation_of e.now) x (tree_of left) (tree_of right)) (tree_of e.now.left) (tree_of e.now.right) kernel.old.left) }
    ensures sum { kernel.new.left + kernel.new.spent ≡ kernel.old.left + kernel.old.spent }
    ensures spends { kernel.new.left ≤ kernel.old.left }
    ensures kernel { kernel.new.signature ≡ kernel.old.signature }
{
    let ty = type_in(alloc, &e.ty)?;
    let step = single(Rule::Cycle(x), ty, left, right);
    fails(step, &e.left, &e.right, kernel)
}
