ghost use Rattle.std.specs.Prelude.{ℕ, ◌≡◌, ◌≤◌, ◌<◌, ◌+◌, ◌++◌, ◌∷◌, ◌↔◌, Ok, None, IfOk, [], length, map, take, drop, option_map};
ghost use Rattle.std.specs.List.{All};
ghost use Rattle.std.specs.Option.{IfSome};
ghost use Rattle.core_terms.specs.Answers.{Gives, Makes};
ghost use Rattle.core_terms.specs.Bounds.{most_height, most_inner_variables};
ghost use Rattle.core_terms.specs.Instances.{instance_of, under_binders};
ghost use Rattle.core_terms.specs.Meanings.{tree_of, tele_of};
ghost use Rattle.core_sig.specs.DraftScopes.{IsDraftNumber, IsDraftTerm};
ghost use Rattle.core_sig.specs.Meanings.{behind};
ghost use Rattle.core_sig.specs.Shapes.{argument_shape, shape_of};
ghost use Rattle.theory.specs.Eliminators.{no_variable};
ghost use Rattle.theory.specs.Families as pure;
ghost use Rattle.theory.specs.Prelude.{prelude};
ghost use Rattle.theory.specs.Signatures.{FamilyOf, IsEntryAt, IsPrefix, Signature};
ghost use Rattle.theory.specs.SignatureScopes.{IsFamilyNumber, IsScopedSignature};
ghost use Rattle.theory.specs.Spines.{spine_of};
ghost use Rattle.theory.specs.Substitutions.{fill};
ghost use Rattle.theory.specs.Terms as tree;
ghost use Rattle.theory.specs.Terms.{top};
ghost use Rattle.case_below_gen.specs.CourseEntries.{course_of};
ghost use Rattle.case_below_gen.specs.declared.sides.Side.TheVariants.{First, Second};
ghost use Rattle.case_below_gen.specs.PathMeanings.{descent_of};
ghost use Rattle.case_below_gen.specs.Paths as spec;
ghost use Rattle.case_below_gen.specs.StrictParts.{IsStrictPart};

use crate::components::Course;
use crate::path_steps::path_step;
use crate::sides::Side;
use crate::strict_parts::{argument_at, constructor_of, has_part, has_part_along, is_applied};
use core_sig::{Arg, ArgKind, Entry, Family, Signature};
use core_terms::{
    MAX_HEIGHT, Stop, Term, checked, copy_tele, copy_whole, inst_under, into_spine, number_of,
};
use std::alloc::Global;

/// The path to a strict part of a term of family `fam` in a below value for the term: its component for the part, with the motive
/// into `Type m`, where the constant `number` is `D!below.m`. The given terms and the path are over one context; the parameters
/// and the targets in it come from the constructors in `term`. None where `part` is not syntactically a strict part of `term`,
/// and else Deep where the path, `term` or `part` is too high.
pub fn below_path(
    alloc: Global,
    sig: &Signature,
    fam: u32,
    m: u8,
    number: u32,
    motive: &Term,
    term: &Term,
    part: &Term,
    below: &Term,
) -> Result<Option<Term>, Stop>
    requires family { IsFamilyNumber sig.now fam }
    requires motive { tree.free_of (tree_of motive.now) ≤ most_inner_variables }
    requires term { tree.free_of (tree_of term.now) ≤ most_inner_variables }
    requires part { tree.free_of (tree_of part.now) ≤ most_inner_variables }
    requires below { tree.free_of (tree_of below.now) ≤ most_inner_variables }
    ensures path { (f : pure.Family) → IsEntryAt sig.now fam (FamilyOf f) → Gives (option_map tree_of) result (spec.below_path fam f m number (tree_of motive.now) (tree_of term.now) (tree_of part.now) (tree_of below.now)) }
    ensures none { (f : pure.Family) → IsEntryAt sig.now fam (FamilyOf f) → IfOk result (λ path. path ≡ None ↔ (IsStrictPart fam f (tree_of part.now) (tree_of term.now) → ⊥)) }
    ensures scoped { (T : Signature) (base count n : ℕ) → IsScopedSignature sig.now → IsPrefix (prelude sig.now.has_k) sig.now → IsPrefix sig.now T → length sig.now.entries ≤ base → m < top → IsDraftNumber T base count number → All (IsDraftTerm T base count n) (tree_of motive.now ∷ tree_of term.now ∷ tree_of part.now ∷ tree_of below.now ∷ []) → IfOk result (λ path. IfSome path (λ t. IsDraftTerm T base count n (tree_of t))) }
{
    match sig.entry(fam) {
        Some(Entry::Family(family)) => {
            let d = Descent {
                fam,
                family,
                m,
                below: number,
                motive,
                part,
            };
            path_to(alloc, &d, term, below)
        }
        _ => unreachable!(),
    }
}

/// A descent: it looks for a part in terms of family `fam`, with the motive into `Type m`, where the constant `below` is
/// `D!below.m`.
#[derive(Clone, Copy)]
pub struct Descent<'a> {
    pub fam: u32,
    pub family: &'a Family,
    pub m: u8,
    pub below: u32,
    pub motive: &'a Term,
    pub part: &'a Term,
}

/// The path to the part in a term, or None where it is no strict part of the term.
fn path_to(alloc: Global, d: &Descent, t: &Term, below: &Term) -> Result<Option<Term>, Stop>
    requires motive { tree.free_of (tree_of d.now.motive.now) ≤ most_inner_variables }
    requires part { tree.free_of (tree_of d.now.part.now) ≤ most_inner_variables }
    requires term { tree.free_of (tree_of t.now) ≤ most_inner_variables }
    requires below { tree.free_of (tree_of below.now) ≤ most_inner_variables }
    ensures { Gives (option_map tree_of) result (spec.path_to (descent_of d.now) (tree_of t.now) (tree_of below.now)) }
{
    if !has_part(d.fam, d.family, d.part, t) {
        return Ok(None);
    }
    if t.height() > MAX_HEIGHT || d.part.height() > MAX_HEIGHT {
        return Err(Stop::Deep);
    }
    let below = copy_whole(alloc, below)?;
    let path = checked(path_of(alloc, d, t, below)?)?;
    Ok(Some(path))
}

/// The path in a term of the family, with the below value for the term.
#[cycle(path)]
fn path_of(alloc: Global, d: &Descent, t: &Term, below: Term) -> Result<Term, Stop>
    requires motive { tree.free_of (tree_of d.now.motive.now) ≤ most_inner_variables }
    requires part { tree.free_of (tree_of d.now.part.now) ≤ most_inner_variables }
    requires part_low { tree.height (tree_of d.now.part.now) ≤ most_height }
    requires term { tree.free_of (tree_of t.now) ≤ most_inner_variables }
    requires low { tree.height (tree_of t.now) ≤ most_height }
    requires below { tree.free_of (tree_of below) ≤ most_inner_variables }
    ensures { Makes result (spec.path_of (descent_of d.now) (tree_of t.now) (tree_of below)) }
{
    match constructor_of(d.fam, d.family, t) {
        Some(con) => {
            let args = con.args.as_slice();
            path_along(alloc, d, t, args, args.len(), t, below)
        }
        None => Ok(below),
    }
}

/// The path among the first `at` arguments of `whole`, the last of which are in `t`.
#[cycle(path)]
fn path_along(
    alloc: Global,
    d: &Descent,
    whole: &Term,
    args: &[Arg],
    at: usize,
    t: &Term,
    below: Term,
) -> Result<Term, Stop>
    requires motive { tree.free_of (tree_of d.now.motive.now) ≤ most_inner_variables }
    requires part { tree.free_of (tree_of d.now.part.now) ≤ most_inner_variables }
    requires part_low { tree.height (tree_of d.now.part.now) ≤ most_height }
    requires whole { tree.free_of (tree_of whole.now) ≤ most_inner_variables }
    requires all { length (spine_of (tree_of whole.now)) ≡ length d.now.family.now.params + length args.now }
    requires few { length d.now.family.now.params + length args.now ≤ most_height }
    requires at { at ≤ length args.now }
    requires term { tree.free_of (tree_of t.now) ≤ most_inner_variables }
    requires low { tree.height (tree_of t.now) ≤ most_height }
    requires below { tree.free_of (tree_of below) ≤ most_inner_variables }
    ensures { Makes result (spec.path_along (descent_of d.now) (tree_of whole.now) (map argument_shape args.now) at (tree_of t.now) (tree_of below)) }
{
    match t {
        Term::App(g, r) if at > 0 => {
            if has_part_along(d.fam, d.family, d.part, args, at - 1, g) {
                path_along(alloc, d, whole, args, at - 1, g, below)
            } else {
                path_at(alloc, d, whole, args, at - 1, r, below)
            }
        }
        _ => Ok(below),
    }
}

/// The path through argument `at` of `whole`, which is `r`.
#[cycle(path)]
fn path_at(
    alloc: Global,
    d: &Descent,
    whole: &Term,
    args: &[Arg],
    at: usize,
    r: &Term,
    below: Term,
) -> Result<Term, Stop>
    requires motive { tree.free_of (tree_of d.now.motive.now) ≤ most_inner_variables }
    requires part { tree.free_of (tree_of d.now.part.now) ≤ most_inner_variables }
    requires part_low { tree.height (tree_of d.now.part.now) ≤ most_height }
    requires whole { tree.free_of (tree_of whole.now) ≤ most_inner_variables }
    requires all { length (spine_of (tree_of whole.now)) ≡ length d.now.family.now.params + length args.now }
    requires few { length d.now.family.now.params + length args.now ≤ most_height }
    requires argument { tree.free_of (tree_of r.now) ≤ most_inner_variables }
    requires low { tree.height (tree_of r.now) ≤ most_height }
    requires below { tree.free_of (tree_of below) ≤ most_inner_variables }
    ensures { Makes result (spec.path_at (descent_of d.now) (tree_of whole.now) (map argument_shape args.now) at (tree_of r.now) (tree_of below) (spec.path_of (descent_of d.now) (tree_of r.now))) }
{
    let Some(arg) = argument_at(args, at) else {
        return Ok(below);
    };
    match arg.kind {
        ArgKind::Plain => Ok(below),
        ArgKind::Recursive(count) => {
            if is_applied(r, count, d.part) {
                path_end(alloc, d, whole, args, at, count, &arg.ty, below)
            } else {
                let inside = step_inside(alloc, d, whole, args, at, &arg.ty, below)?;
                path_of(alloc, d, r, inside)
            }
        }
    }
}

/// The last step of a path: to argument `at` of `whole`, which is the part with its inner arguments left out.
fn path_end(
    alloc: Global,
    d: &Descent,
    whole: &Term,
    args: &[Arg],
    at: usize,
    count: u32,
    ty: &Term,
    below: Term,
) -> Result<Term, Stop>
    requires motive { tree.free_of (tree_of d.now.motive.now) ≤ most_inner_variables }
    requires part { tree.free_of (tree_of d.now.part.now) ≤ most_inner_variables }
    requires whole { tree.free_of (tree_of whole.now) ≤ most_inner_variables }
    requires all { length (spine_of (tree_of whole.now)) ≡ length d.now.family.now.params + length args.now }
    requires few { length d.now.family.now.params + length args.now ≤ most_height }
    requires at { at ≤ most_height }
    requires count { count ≤ most_height }
    requires below { tree.free_of (tree_of below) ≤ most_inner_variables }
    ensures { Makes result (spec.step_to (descent_of d.now) First (tree_of whole.now) (map argument_shape args.now) at count (behind count (tree_of ty.now)) (spec.last_arguments count (tree_of d.now.part.now)) (tree_of below)) }
{
    let inner = last_arguments(alloc, count, d.part)?;
    let to = Target {
        at,
        count,
        end: behind(ty, count),
    };
    step_to(alloc, d, Side::First, whole, args, &to, inner, below)
}

/// A step of a path that goes on: to argument `at` of `whole`, which has no inner arguments.
fn step_inside(
    alloc: Global,
    d: &Descent,
    whole: &Term,
    args: &[Arg],
    at: usize,
    ty: &Term,
    below: Term,
) -> Result<Term, Stop>
    requires motive { tree.free_of (tree_of d.now.motive.now) ≤ most_inner_variables }
    requires whole { tree.free_of (tree_of whole.now) ≤ most_inner_variables }
    requires all { length (spine_of (tree_of whole.now)) ≡ length d.now.family.now.params + length args.now }
    requires few { length d.now.family.now.params + length args.now ≤ most_height }
    requires at { at ≤ most_height }
    requires below { tree.free_of (tree_of below) ≤ most_inner_variables }
    ensures { Makes result (spec.step_to (descent_of d.now) Second (tree_of whole.now) (map argument_shape args.now) at 0 (tree_of ty.now) [] (tree_of below)) }
{
    let to = Target {
        at,
        count: 0,
        end: ty,
    };
    let none = Vec::new(alloc);
    step_to(alloc, d, Side::Second, whole, args, &to, none, below)
}

/// An argument that a step goes to: its number, how many inner arguments it has, and the end of its type.
#[derive(Clone, Copy)]
struct Target<'a> {
    at: usize,
    count: u32,
    end: &'a Term,
}

/// The step from `whole`, a constructor with all its arguments, to one of them with its inner arguments.
#[tactic(auto, using(core_terms::proofs::Instances::instance_laws))]
fn step_to(
    alloc: Global,
    d: &Descent,
    side: Side,
    whole: &Term,
    args: &[Arg],
    to: &Target,
    inner: Vec<Term>,
    below: Term,
) -> Result<Term, Stop>
    requires motive { tree.free_of (tree_of d.now.motive.now) ≤ most_inner_variables }
    requires whole { tree.free_of (tree_of whole.now) ≤ most_inner_variables }
    requires all { length (spine_of (tree_of whole.now)) ≡ length d.now.family.now.params + length args.now }
    requires few { length d.now.family.now.params + length args.now ≤ most_height }
    requires at { to.now.at ≤ most_height }
    requires count { to.now.count ≤ most_height }
    requires inner { All (λ t. tree.free_of t ≤ most_inner_variables) (tele_of inner.items) }
    requires below { tree.free_of (tree_of below) ≤ most_inner_variables }
    ensures { Makes result (spec.step_to (descent_of d.now) side (tree_of whole.now) (map argument_shape args.now) to.now.at to.now.count (tree_of to.now.end.now) (tele_of inner.items) (tree_of below)) }
{
    let course = course_of_descent(d)?;
    let step = path_step(alloc, side, course, args, to.at as u32, to.count, to.end)?;
    let values = step_values(alloc, d, whole, below, inner)?;
    inst_moving(alloc, values, to.count, &step)
}

/// Puts a value for every free variable of a step, as `inst_under` does with no binder around it. The value for variable `moved`,
/// the path so far, is moved to its place and not copied: it is the last argument of each projection, and after it come only inner
/// arguments, whose variables are nearer.
#[tactic(auto, using(core_terms::proofs::Instances::instance_heights))]
fn inst_moving(alloc: Global, values: Vec<Term>, moved: u32, t: &Term) -> Result<Term, Stop>
    requires { All (λ v. tree.free_of v ≤ most_inner_variables) (tele_of values.items) }
    ensures { Makes result (instance_of (tele_of values.items) 0 (tree_of t.now)) }
{
    match t {
        Term::Var(n) => Ok(take_value(values, *n)),
        Term::App(function, argument) if is_nearer(argument, moved) => {
            let argument = inst_under(alloc, values.as_slice(), argument, 0)?;
            let function = inst_moving(alloc, values, moved, function)?;
            Term::new_app(alloc, function, argument)
        }
        Term::App(function, argument) => {
            let function = inst_under(alloc, values.as_slice(), function, 0);
            let argument = inst_moving(alloc, values, moved, argument);
            Term::application_of(alloc, function, argument)
        }
        _ => inst_under(alloc, values.as_slice(), t, 0),
    }
}

/// Is the term a variable that is nearer than variable `n`?
fn is_nearer(t: &Term, n: u32) -> bool {
    match t {
        Term::Var(k) => *k < n,
        _ => false,
    }
}

/// The value for a variable, taken out of the values. A variable that no value stands for becomes `Type 0`.
fn take_value(mut values: Vec<Term>, n: u32) -> Term
    ensures { tree_of result ≡ under_binders 0 (fill no_variable (tele_of values.items)) n }
{
    let place = n as usize;
    if place < values.len() {
        values.swap_remove(values.len() - 1 - place)
    } else {
        Term::Sort(0)
    }
}

/// The recursion that a descent is in.
fn course_of_descent(d: &Descent) -> Result<Course, Stop>
    requires { length d.now.family.now.params ≤ most_height }
    ensures { Gives (λ q. q) result (Ok (course_of (shape_of d.now.family.now) d.now.m d.now.below)) }
{
    Ok(Course {
        m: d.m,
        params: d.family.params.as_slice().len() as u32,
        indices: number_of(d.family.indices.as_slice().len())?,
        below: d.below,
    })
}

/// The terms for the variables of a step.
#[tactic(auto, using(crate::proofs::TermLists::joined_laws))]
fn step_values(
    alloc: Global,
    d: &Descent,
    whole: &Term,
    below: Term,
    inner: Vec<Term>,
) -> Result<Vec<Term>, Stop>
    requires { length d.now.family.now.params ≤ length (spine_of (tree_of whole.now)) }
    ensures { Gives (λ v. tele_of v.items) result (Ok (spec.step_values (descent_of d.now) (tree_of whole.now) (tree_of below) (tele_of inner.items))) }
{
    let mut values = values_before(alloc, d, whole)?;
    values.push(below)?;
    with_all(values, inner)
}

/// The terms for the parameters, the motive and the arguments of `whole`.
#[tactic(auto, using(crate::proofs::TermLists::joined_laws))]
fn values_before(alloc: Global, d: &Descent, whole: &Term) -> Result<Vec<Term>, Stop>
    requires { length d.now.family.now.params ≤ length (spine_of (tree_of whole.now)) }
    ensures { Gives (λ v. tele_of v.items) result (Ok (take (length d.now.family.now.params) (spine_of (tree_of whole.now)) ++ tree_of d.now.motive.now ∷ drop (length d.now.family.now.params) (spine_of (tree_of whole.now)))) }
{
    let spine = into_spine(alloc, copy_whole(alloc, whole)?)?;
    let params = d.family.params.as_slice().len();
    let mut values = copy_first(alloc, spine.as_slice(), params)?;
    values.push(copy_whole(alloc, d.motive)?)?;
    with_all(values, copy_behind(alloc, spine.as_slice(), params)?)
}

/// The first `count` terms.
#[tactic(auto, using(crate::proofs::TermLists::cut_laws))]
fn copy_first(alloc: Global, terms: &[Term], count: usize) -> Result<Vec<Term>, Stop>
    requires { count ≤ length terms.now }
    ensures { Gives (λ v. tele_of v.items) result (Ok (take count (tele_of terms.now))) }
{
    Ok(copy_tele(alloc, &terms[..count])?.into_vec())
}

/// The terms after the first `count`.
#[tactic(auto, using(crate::proofs::TermLists::cut_laws))]
fn copy_behind(alloc: Global, terms: &[Term], count: usize) -> Result<Vec<Term>, Stop>
    requires { count ≤ length terms.now }
    ensures { Gives (λ v. tele_of v.items) result (Ok (drop count (tele_of terms.now))) }
{
    Ok(copy_tele(alloc, &terms[count..])?.into_vec())
}

/// The terms with more after them.
#[tactic(auto, using(crate::proofs::TermLists::joined_laws))]
fn with_all(mut terms: Vec<Term>, more: Vec<Term>) -> Result<Vec<Term>, Stop>
    ensures { Gives (λ v. tele_of v.items) result (Ok (tele_of terms.items ++ tele_of more.items)) }
{
    for t in more {
        terms.push(t)?;
    }
    Ok(terms)
}

/// The last `count` arguments of a term.
fn last_arguments(alloc: Global, count: u32, t: &Term) -> Result<Vec<Term>, Stop>
    ensures { Gives (λ v. tele_of v.items) result (Ok (spec.last_arguments count (tree_of t.now))) }
{
    let spine = into_spine(alloc, copy_whole(alloc, t)?)?;
    let before = spine.len().saturating_sub(count as usize);
    copy_behind(alloc, spine.as_slice(), before)
}

/// The rest of a term after its first `count` products.
fn behind(t: &Term, count: u32) -> &Term
    ensures { tree_of result.now ≡ behind count (tree_of t.now) }
{
    match t {
        Term::Pi(_, codomain) if count > 0 => behind(codomain, count - 1),
        _ => t,
    }
}
