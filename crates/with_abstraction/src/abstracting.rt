ghost use Rattle.std.specs.Prelude.{◌≡◌, ◌≤◌, ◌+◌, [], ◌∷◌, IfOk, Ok, length};
ghost use Rattle.core_terms.specs.Answers.{Gives, Runs};
ghost use Rattle.core_terms.specs.Meanings.{tree_of, tele_of};
ghost use Rattle.theory.specs.Terms as tree;
ghost use Rattle.core_terms.specs.Bounds.{context_limit, most_height};
ghost use Rattle.kernel_reduce.specs.WellScoped.{AreWellScoped};
ghost use Rattle.with_abstraction.specs.Abstractions as spec;
ghost use Rattle.with_abstraction.specs.Conditions.{AreFormsOver, AreLow, IsOver};
ghost use Rattle.with_abstraction.specs.Laws.{IsScopedAbstraction};
ghost use Rattle.with_abstraction.specs.Meanings.{abstracted_of, forms_of};

use crate::Abstracted;
use crate::arranging::{arranged, arranged_goal};
use crate::normal_forms::{NormalForms, normal_forms};
use crate::opening::{lifted, opened_types};
use crate::orders::{behind, new_order, numbers, others_from};
use core_sig::Signature;
use core_terms::{Items, MAX_HEIGHT, Stop, Tele, Term, Units};
use kernel_check::Kernel;
use std::alloc::Global;

/// Telescope and goal, with the levels in front of the new variable and those after it.
fn placed(
    alloc: Global,
    n: u32,
    t: &Term,
    types: &[Term],
    goal: &Term,
    front: &[u32],
    behind: &[u32],
) -> Result<Abstracted, Stop>
    requires few { n ≤ 2147483647 }
    requires low { tree.height (tree_of t.now) ≤ most_height }
    requires types { AreLow (tele_of types.now) }
    requires goal { IsOver context_limit (tree_of goal.now) }
    requires levels { length front.now + length behind.now ≤ n }
    ensures { Gives abstracted_of result (Ok (spec.placed_with n (tree_of t.now) (tele_of types.now) (tree_of goal.now) front.now behind.now)) }
{
    let order = new_order(alloc, n, front, behind)?;
    let order = order.as_slice();
    let tele = arranged(alloc, order, n, types, 0, order, Items::new(alloc))?;
    let goal = arranged_goal(alloc, order, n, t, goal)?;
    let variables = numbers(
        alloc,
        n,
        behind,
        numbers(alloc, n, front, Items::new(alloc))?,
    )?;
    Ok(Abstracted {
        tele,
        goal,
        at: front.len() as u32,
        order: variables,
    })
}

/// The new variable of type `ty` after a context whose types are opened, and all of these in their new order.
fn arranged_with(
    alloc: Global,
    n: u32,
    t: &Term,
    ty: &Term,
    mut types: Tele,
    goal: &Term,
) -> Result<Abstracted, Stop>
    requires few { n ≤ 2147483647 }
    requires count { length types ≡ n }
    requires low { tree.height (tree_of t.now) ≤ most_height }
    requires ty { IsOver context_limit (tree_of ty.now) }
    requires types { AreLow (tele_of types) }
    requires goal { IsOver context_limit (tree_of goal.now) }
    ensures { Gives abstracted_of result (Ok (spec.arranged_with n (tree_of t.now) (tree_of ty.now) (tele_of types) (tree_of goal.now))) }
{
    let behind = behind(alloc, n, types.as_slice())?;
    let front = others_from(alloc, behind.as_slice(), 0, n, Vec::new(alloc))?;
    types.push(lifted(alloc, ty, 1)?)?;
    placed(
        alloc,
        n,
        t,
        types.as_slice(),
        goal,
        front.as_slice(),
        behind.as_slice(),
    )
}

/// The abstraction of normal forms, where `ty` is the scrutinee's type.
fn abstracted(alloc: Global, forms: &NormalForms, ty: &Term) -> Result<Abstracted, Stop>
    requires few { length forms.now.types ≤ 2147483647 }
    requires forms { AreFormsOver (length forms.now.types) (forms_of forms.now) }
    requires ty { IsOver (length forms.now.types) (tree_of ty.now) }
    ensures { Gives abstracted_of result (Ok (spec.abstracted (forms_of forms.now) (tree_of ty.now))) }
{
    let n = forms.types.as_slice().len() as u32;
    let types = opened_types(alloc, &forms.scrutinee, ty, forms.types.as_slice())?;
    arranged_with(alloc, n, &forms.scrutinee, ty, types, &forms.goal)
}

/// Abstracts a goal and the types of its context over a scrutinee of type `ty`.
///
/// Goal, types and scrutinee are brought into plain normal form. A new variable stands for each subterm that is
/// syntactically equal to the scrutinee, but not in the types of the variables that `ty` needs. Those whose types
/// changed, and those that depend on them, are after the new variable, all others before it.
///
/// Each head step costs a unit: first those of the goal, then those of the types from the outermost on, then those of the scrutinee.
/// Fuel and Deep come as in `normal`, and Deep also where `ty` is too high, once all these units are spent.
pub fn abstract_over(
    alloc: Global,
    sig: &Signature,
    ctx: &Tele,
    goal: &Term,
    scrutinee: &Term,
    ty: &Term,
    units: &mut Units,
) -> Result<Abstracted, Stop>
    requires { AreWellScoped sig.now (tele_of ctx.now) (tree_of goal.now ∷ tree_of scrutinee.now ∷ tree_of ty.now ∷ []) }
    ensures answer { Runs abstracted_of result units.new.left (spec.abstract_over_of sig.now (tele_of ctx.now) (tree_of goal.now) (tree_of scrutinee.now) (tree_of ty.now) units.old.left) }
    ensures sum { units.new.left + units.new.spent ≡ units.old.left + units.old.spent }
    ensures spends { units.new.left ≤ units.old.left }
    ensures scoped { IfOk result (λ a. IsScopedAbstraction sig.now (length ctx.now) (abstracted_of a)) }
{
    let mut kernel = Kernel::new(alloc, sig, *units);
    let made = abstract_over_with(alloc, ctx, goal, scrutinee, ty, &mut kernel);
    *units = kernel.into_units();
    made
}

/// `abstract_over` over a kernel with this signature, with its units.
pub fn abstract_over_with(
    alloc: Global,
    ctx: &Tele,
    goal: &Term,
    scrutinee: &Term,
    ty: &Term,
    kernel: &mut Kernel<'_>,
) -> Result<Abstracted, Stop>
    requires given { AreWellScoped kernel.old.signature (tele_of ctx.now) (tree_of goal.now ∷ tree_of scrutinee.now ∷ tree_of ty.now ∷ []) }
    ensures answer { Runs abstracted_of result kernel.new.left (spec.abstract_over_of kernel.old.signature (tele_of ctx.now) (tree_of goal.now) (tree_of scrutinee.now) (tree_of ty.now) kernel.old.left) }
    ensures sum { kernel.new.left + kernel.new.spent ≡ kernel.old.left + kernel.old.spent }
    ensures spends { kernel.new.left ≤ kernel.old.left }
    ensures kernel { kernel.new.signature ≡ kernel.old.signature }
    ensures scoped { IfOk result (λ a. IsScopedAbstraction kernel.old.signature (length ctx.now) (abstracted_of a)) }
{
    let forms = normal_forms(alloc, ctx, goal, scrutinee, kernel)?;
    if ty.height() > MAX_HEIGHT {
        return Err(Stop::Deep);
    }
    abstracted(alloc, &forms, ty)
}
