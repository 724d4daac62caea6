// Limits of calls of reduction that no typed term reaches, with the units that were counted by hand.
ghost use Rattle.std.specs.Prelude.{◌≡◌, [], ◌∷◌, IfOk, IsTrue};
ghost use Rattle.core_terms.specs.Meanings.{tree_of};
ghost use Rattle.theory.specs.SignatureScopes.{IsScoped, IsScopedSignature};
ghost use Rattle.kernel_reduce.specs.Reduction.{most_variables};
ghost use Rattle.kernel_reduce.specs.WellScoped.{CanReduce};

use core_sig::{Signature, is_scoped};
use core_terms::{MAX_HEIGHT, Stop, Term, Units, copy};
use kernel_check::Kernel;
use std::alloc::Global;
use std::process::Abort;
use std::test::Fail;

fn scoped_prelude(alloc: Global) -> Result<Signature, Stop>
    ensures { IfOk result (λ sig. IsScopedSignature sig) }
{
    Signature::prelude(alloc, false)
}

/// Whether a term is scoped, over as many variables as reduction takes.
fn can_reduce(sig: &Signature, t: &Term) -> bool
    ensures { IsTrue result → IsScoped sig.now most_variables (tree_of t.now) }
{
    is_scoped(sig, 3_221_223_472, t)
}

fn units(left: u64) -> Units
    ensures { result.left ≡ left }
{
    Units::new(left)
}

/// The head form of a term with so many units.
fn head_form(alloc: Global, sig: &Signature, t: &Term, count: u64) -> Result<Term, Stop>
    requires { CanReduce sig.now (tree_of t.now ∷ []) }
{
    let mut kernel = Kernel::new(alloc, sig, units(count));
    let form = kernel.whnf(t);
    let _units = kernel.into_units();
    form
}

/// A product whose codomain steps to the same product again, and so on: `(\(x : Type i). Type 0 -> x x)` applied to itself.
fn endless(alloc: Global, i: u8) -> Result<Term, Stop> {
    let again = Term::new_app(alloc, Term::Var(1), Term::Var(1))?;
    let product = Term::new_pi(alloc, Term::Sort(0), again)?;
    let function = Term::new_lam(alloc, Term::Sort(i), product)?;
    Term::new_app(alloc, copy(alloc, &function)?, function)
}

/// The answer to `convertible` of two such products with so many units.
fn compare_endless(
    rt: &impl Abort,
    alloc: Global,
    sig: &Signature,
    count: u64,
) -> Result<bool, Stop>
    requires { IsScopedSignature sig.now }
{
    let a = endless(alloc, 0)?;
    let b = endless(alloc, 1)?;
    assert!(rt; can_reduce(sig, &a));
    assert!(rt; can_reduce(sig, &b));
    let mut kernel = Kernel::new(alloc, sig, units(count));
    let holds = kernel.convertible(&a, &b);
    let _units = kernel.into_units();
    holds
}

/// Each open call spends one unit and two for the steps of its terms, and all but the last one for the domains.
#[test]
fn two_thousand_open_calls(rt: HostRuntime) -> Result<(), Fail> {
    let alloc = rt.alloc();
    let sig = scoped_prelude(alloc)?;
    assert!(rt; matches!(compare_endless(&rt, alloc, &sig, 7999), Err(Stop::Deep)));
    assert!(rt; matches!(compare_endless(&rt, alloc, &sig, 7998), Err(Stop::Fuel)));
    Ok(())
}

/// `Type 0 -> .. -> end`, with so many domains.
fn tower(alloc: Global, domains: u32, end: Term) -> Result<Term, Stop> {
    let mut t = end;
    for _ in 0..domains {
        t = Term::new_pi(alloc, Term::Sort(0), t)?;
    }
    Ok(t)
}

/// Whether a tower is its own head form, which is found without units.
fn is_its_own_form(
    rt: &impl Abort,
    alloc: Global,
    sig: &Signature,
    domains: u32,
) -> Result<bool, Stop>
    requires { IsScopedSignature sig.now }
{
    let t = tower(alloc, domains, Term::Sort(0))?;
    assert!(rt; can_reduce(sig, &t));
    let form = head_form(alloc, sig, &t, 0)?;
    Ok(form.same(&t))
}

#[test]
fn greatest_height(rt: HostRuntime) -> Result<(), Fail> {
    let alloc = rt.alloc();
    let sig = scoped_prelude(alloc)?;
    assert!(rt; is_its_own_form(&rt, alloc, &sig, MAX_HEIGHT - 1)?);
    let too_high = is_its_own_form(&rt, alloc, &sig, MAX_HEIGHT);
    assert!(rt; matches!(too_high, Err(Stop::Deep)));
    Ok(())
}

/// A function whose body is a tower over its variable, applied to a tower.
fn growing(alloc: Global) -> Result<Term, Stop> {
    let body = tower(alloc, 1000, Term::Var(1000));
    let function = Term::function_of(alloc, Ok(Term::Sort(9)), body);
    Term::application_of(alloc, function, tower(alloc, 1000, Term::Sort(0)))
}

/// One step makes a term that is too high.
#[test]
fn grows_too_high(rt: HostRuntime) -> Result<(), Fail> {
    let alloc = rt.alloc();
    let sig = scoped_prelude(alloc)?;
    let t = growing(alloc)?;
    assert!(rt; can_reduce(&sig, &t));
    let form = head_form(alloc, &sig, &t, 1);
    assert!(rt; matches!(form, Err(Stop::Deep)));
    Ok(())
}
