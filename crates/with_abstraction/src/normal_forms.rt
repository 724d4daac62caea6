ghost use Rattle.std.specs.Prelude.{◌≡◌, ◌≤◌, ◌+◌, [], ◌∷◌, IfOk, length};
ghost use Rattle.core_terms.specs.Answers.{Runs};
ghost use Rattle.core_terms.specs.Meanings.{tree_of, tele_of};
ghost use Rattle.theory.specs.SignatureScopes.{IsScopedSignature};
ghost use Rattle.kernel_reduce.specs.Reduction.{most_variables};
ghost use Rattle.kernel_reduce.specs.WellScoped.{AreScoped, AreWellScoped};
ghost use Rattle.with_abstraction.specs.Conditions.{AreFormsOver};
ghost use Rattle.with_abstraction.specs.Meanings.{forms_of};
ghost use Rattle.with_abstraction.specs.NormalForms as spec;

use core_terms::{Items, Stop, Tele, Term};
use kernel_check::Kernel;
use std::alloc::Global;

/// A goal, the types of its context and a scrutinee, in plain normal form.
#[derive(Drop)]
pub(crate) struct NormalForms {
    pub(crate) goal: Term,
    pub(crate) types: Tele,
    pub(crate) scrutinee: Term,
}

/// The plain normal forms of the types, the first one first.
fn plain_normals(alloc: Global, types: &[Term], kernel: &mut Kernel<'_>) -> Result<Vec<Term>, Stop>
    requires signature { IsScopedSignature kernel.old.signature }
    requires types { AreScoped kernel.old.signature most_variables (tele_of types.now) }
    ensures answer { Runs (λ v. tele_of v.items) result kernel.new.left (spec.plain_normals_of kernel.old.signature (tele_of types.now) kernel.old.left) }
    ensures sum { kernel.new.left + kernel.new.spent ≡ kernel.old.left + kernel.old.spent }
    ensures spends { kernel.new.left ≤ kernel.old.left }
    ensures kernel { kernel.new.signature ≡ kernel.old.signature }
{
    match types {
        [] => Ok(Vec::new(alloc)),
        [ty, rest @ ..] => {
            let first = kernel.normal(ty, false)?;
            let mut normals = plain_normals(alloc, rest, kernel)?;
            normals.insert(0, first)?;
            Ok(normals)
        }
    }
}

/// The plain normal forms of the goal, of the types of the context from the outermost on, and of the scrutinee.
pub(crate) fn normal_forms(
    alloc: Global,
    ctx: &Tele,
    goal: &Term,
    scrutinee: &Term,
    kernel: &mut Kernel<'_>,
) -> Result<NormalForms, Stop>
    requires given { AreWellScoped kernel.old.signature (tele_of ctx.now) (tree_of goal.now ∷ tree_of scrutinee.now ∷ []) }
    ensures answer { Runs forms_of result kernel.new.left (spec.normal_forms_of kernel.old.signature (tele_of ctx.now) (tree_of goal.now) (tree_of scrutinee.now) kernel.old.left) }
    ensures sum { kernel.new.left + kernel.new.spent ≡ kernel.old.left + kernel.old.spent }
    ensures spends { kernel.new.left ≤ kernel.old.left }
    ensures kernel { kernel.new.signature ≡ kernel.old.signature }
    ensures over { IfOk result (λ m. AreFormsOver (length ctx.now) (forms_of m)) }
{
    let goal = kernel.normal(goal, false)?;
    let types = plain_normals(alloc, ctx.as_slice(), kernel)?;
    let scrutinee = kernel.normal(scrutinee, false)?;
    Ok(NormalForms {
        goal,
        types: Items::from_vec(types),
        scrutinee,
    })
}
