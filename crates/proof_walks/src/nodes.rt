//! The constructor that the walk finds at a split of the tree, or the variable that is split there.
ghost use Rattle.std.specs.Prelude.{◌≡◌, ◌≤◌, ◌<◌, ◌+◌, true, IfOk, IfSome, Ok, length, option_map};
ghost use Rattle.core_terms.specs.Answers.{Gives, Runs as RunsAs};
ghost use Rattle.core_terms.specs.Meanings.{tree_of, tele_of};
ghost use Rattle.theory.specs.SignatureScopes.{IsScoped};
ghost use Rattle.theory.specs.Terms as tree;
ghost use Rattle.core_terms.specs.Bounds.{most_height};
ghost use Rattle.kernel_reduce.specs.Reduction.{whnf_of};
ghost use Rattle.kernel_reduce.specs.WellScoped.{AreScoped};
ghost use Rattle.case_trees.specs.Problems.{type_of_variable as type_meant};
ghost use Rattle.problems.specs.MemberConditions.{IsContext};
ghost use Rattle.problems.specs.MemberMeanings.{member_meant};
ghost use Rattle.proof_walks.specs.NodeConditions.{IsVariableOf};
ghost use Rattle.proof_walks.specs.NodeWalks as spec;
ghost use Rattle.proof_walks.specs.WalkMeanings.{met_of, variable_of};
ghost use Rattle.unification.specs.ScopedStates.{IsReady};
ghost use Rattle.problems.specs.Conditions.{IsGiven};

use core_sig::Signature;
use core_terms::{Stop, Tele, Term};
use kernel_check::Kernel;
use problems::{Built, Member, built_of, member_of, split_spine, type_of_variable, variable_in};
use std::alloc::Global;

/// A constructor of a family, by its number and its arguments.
#[derive(Drop)]
pub(crate) struct Met {
    pub(crate) number: u32,
    pub(crate) arguments: Tele,
}

/// A variable that is split, with its reduced type, and the family that this is.
#[derive(Drop)]
pub(crate) struct Variable<'a> {
    pub(crate) number: u32,
    pub(crate) ty: Term,
    pub(crate) member: Member<'a>,
}

/// The constructor with its arguments in a term.
fn met_with(alloc: Global, b: Built, w: &Term) -> Result<Met, Stop>
    ensures { Gives met_of result (Ok (spec.met_from b.entry.number (length b.entry.record.now.params) (tree_of w.now))) }
{
    let (_, arguments) = split_spine(alloc, w, b.record.params.as_slice().len())?;
    Ok(Met {
        number: b.number,
        arguments,
    })
}

/// The constructor of family n that a head form is.
fn met_in(alloc: Global, sig: &Signature, n: u32, w: &Term) -> Result<Option<Met>, Stop>
    requires low { tree.height (tree_of w.now) ≤ most_height }
    ensures answer { Gives (option_map met_of) result (Ok (spec.met_in sig.now n (tree_of w.now))) }
{
    let Some(b) = built_of(sig, w) else {
        return Ok(None);
    };
    if b.family != n {
        return Ok(None);
    }
    Ok(Some(met_with(alloc, b, w)?))
}

/// The constructor of family n that a term is found to be.
pub(crate) fn constructor_met(
    alloc: Global,
    sig: &Signature,
    ctx: &[Term],
    n: u32,
    t: &Term,
    kernel: &mut Kernel<'_>,
) -> Result<Option<Met>, Stop>
    requires kernel { kernel.old.signature ≡ sig.now }
    requires ready { IsReady sig.now }
    requires context { IsContext sig.now (tele_of ctx.now) }
    requires term { IsScoped sig.now (length ctx.now) (tree_of t.now) }
    ensures answer { RunsAs (option_map met_of) result kernel.new.left (spec.constructor_met sig.now n (tree_of t.now) kernel.old.left) }
    ensures sum { kernel.new.left + kernel.new.spent ≡ kernel.old.left + kernel.old.spent }
    ensures spends { kernel.new.left ≤ kernel.old.left }
    ensures kernel { kernel.new.signature ≡ sig.now }
    ensures scoped { IfOk result (λ found. IfSome found (λ met. AreScoped sig.now (length ctx.now) (tele_of met.arguments))) }
{
    let w = kernel.whnf(t)?;
    met_in(alloc, sig, n, &w)
}

/// The type of a variable, reduced.
fn reduced_type(alloc: Global, ctx: &[Term], x: u32, kernel: &mut Kernel<'_>) -> Result<Term, Stop>
    requires ready { IsReady kernel.old.signature }
    requires context { IsContext kernel.old.signature (tele_of ctx.now) }
    requires variable { x < length ctx.now }
    ensures answer { RunsAs tree_of result kernel.new.left (whnf_of kernel.old.signature true kernel.old.left (type_meant (tele_of ctx.now) x)) }
    ensures sum { kernel.new.left + kernel.new.spent ≡ kernel.old.left + kernel.old.spent }
    ensures spends { kernel.new.left ≤ kernel.old.left }
    ensures kernel { kernel.new.signature ≡ kernel.old.signature }
    ensures given { IfOk result (λ t. IsGiven kernel.old.signature (length ctx.now) (tree_of t)) }
{
    let ty = type_of_variable(alloc, ctx, x)?;
    kernel.whnf(&ty)
}

/// The family itself, where it is the node's and the node splits.
fn if_own<'a>(splits: bool, n: u32, found: Option<Member<'a>>) -> Option<Member<'a>>
    ensures answer { option_map member_meant result ≡ spec.kept_own splits n (option_map member_meant found.entry) }
    ensures member { IfSome result (λ m. (found.entry ≡ Some m) × (splits ≡ true)) }
{
    match found {
        Some(m) => {
            if splits && m.number == n {
                Some(m)
            } else {
                None
            }
        }
        None => None,
    }
}

/// The variable with its type, where this is the node's family and the node splits.
fn with_type<'a>(
    alloc: Global,
    sig: &'a Signature,
    splits: bool,
    n: u32,
    ctx: &[Term],
    x: u32,
    ty: Term,
) -> Result<Option<Variable<'a>>, Stop>
    requires variable { x < length ctx.now }
    requires given { IsGiven sig.now (length ctx.now) (tree_of ty) }
    ensures answer { Gives (option_map variable_of) result (Ok (option_map (spec.variable_with x (tree_of ty)) (spec.own_member sig.now splits n (tree_of ty)))) }
    ensures found { IfOk result (λ found. IfSome found (IsVariableOf sig.now (length ctx.now) splits)) }
{
    let found = member_of(alloc, sig, &ty)?;
    match if_own(splits, n, found) {
        Some(member) => Ok(Some(Variable {
            number: x,
            ty,
            member,
        })),
        None => Ok(None),
    }
}

/// A variable with its type reduced, where that is the node's family and the node splits.
fn typed_variable<'a>(
    alloc: Global,
    sig: &'a Signature,
    splits: bool,
    n: u32,
    ctx: &[Term],
    x: u32,
    kernel: &mut Kernel<'_>,
) -> Result<Option<Variable<'a>>, Stop>
    requires kernel { kernel.old.signature ≡ sig.now }
    requires ready { IsReady sig.now }
    requires context { IsContext sig.now (tele_of ctx.now) }
    requires variable { x < length ctx.now }
    ensures answer { RunsAs (option_map variable_of) result kernel.new.left (spec.typed_variable sig.now splits n (tele_of ctx.now) x kernel.old.left) }
    ensures sum { kernel.new.left + kernel.new.spent ≡ kernel.old.left + kernel.old.spent }
    ensures spends { kernel.new.left ≤ kernel.old.left }
    ensures kernel { kernel.new.signature ≡ sig.now }
    ensures found { IfOk result (λ found. IfSome found (IsVariableOf sig.now (length ctx.now) splits)) }
{
    let ty = reduced_type(alloc, ctx, x, kernel)?;
    with_type(alloc, sig, splits, n, ctx, x, ty)
}

/// The variable that a term is found to be, where its type is the node's family and the node splits.
pub(crate) fn variable_met<'a>(
    alloc: Global,
    sig: &'a Signature,
    splits: bool,
    n: u32,
    ctx: &[Term],
    t: &Term,
    kernel: &mut Kernel<'_>,
) -> Result<Option<Variable<'a>>, Stop>
    requires kernel { kernel.old.signature ≡ sig.now }
    requires ready { IsReady sig.now }
    requires context { IsContext sig.now (tele_of ctx.now) }
    requires term { IsScoped sig.now (length ctx.now) (tree_of t.now) }
    ensures answer { RunsAs (option_map variable_of) result kernel.new.left (spec.variable_met sig.now splits n (tele_of ctx.now) (tree_of t.now) kernel.old.left) }
    ensures sum { kernel.new.left + kernel.new.spent ≡ kernel.old.left + kernel.old.spent }
    ensures spends { kernel.new.left ≤ kernel.old.left }
    ensures kernel { kernel.new.signature ≡ sig.now }
    ensures found { IfOk result (λ found. IfSome found (IsVariableOf sig.now (length ctx.now) splits)) }
{
    let u = kernel.tidy(t)?;
    match variable_in(&u) {
        Some(x) => typed_variable(alloc, sig, splits, n, ctx, x, kernel),
        None => Ok(None),
    }
}
