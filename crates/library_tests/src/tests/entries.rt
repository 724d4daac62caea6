// The calls that enter instances, at the greatest level and at the one above it, which has no name in a core file.
ghost use Rattle.std.specs.Prelude.{IfOk, IsTrue};
ghost use Rattle.theory.specs.SignatureScopes.{IsFamilyNumber};
ghost use Rattle.library_tests.specs.Entering.{CanEnter};

use core_sig::{Signature, is_scoped};
use core_terms::{Denial, Reason, Stop, TOP, Term, Units};
use family_check::{FamilyStop, axiom_k, instance};
use std::alloc::Global;
use std::process::Abort;
use std::test::Fail;

/// The prelude, which entries may enter.
fn settled_prelude(alloc: Global, k: bool) -> Result<Signature, Stop>
    ensures { IfOk result (CanEnter k) }
{
    Signature::prelude(alloc, k)
}

/// Whether an entry is a family.
fn is_family(sig: &Signature, n: u32) -> bool
    ensures { IsTrue result → IsFamilyNumber sig.now n }
{
    is_scoped(sig, 0, &Term::Fam(n))
}

fn units() -> Units {
    Units::new(1000)
}

fn is_too_high(answer: &Result<u32, FamilyStop>) -> bool {
    matches!(
        answer,
        Err(FamilyStop::Denied {
            denial: Denial {
                reason: Reason::LevelTooHigh,
                ..
            },
            ..
        })
    )
}

/// The answer to the eliminator of `Empty` into a level, over the prelude.
fn eliminator(rt: &impl Abort, alloc: Global, m: u8) -> Result<Result<u32, FamilyStop>, Stop> {
    let mut sig = settled_prelude(alloc, false)?;
    assert!(rt; is_family(&sig, 0));
    Ok(instance(alloc, &mut sig, 0, m, &mut units()))
}

/// The answer to axiom K at two levels, over the prelude with K.
fn k(alloc: Global, i: u8, m: u8) -> Result<Result<u32, FamilyStop>, Stop> {
    let mut sig = settled_prelude(alloc, true)?;
    Ok(axiom_k(alloc, &mut sig, i, m, &mut units()))
}

#[test]
fn eliminators_into_the_greatest_levels(rt: HostRuntime) -> Result<(), Fail> {
    let alloc = rt.alloc();
    assert!(rt; is_too_high(&eliminator(&rt, alloc, TOP)?));
    assert!(rt; eliminator(&rt, alloc, TOP - 1)?.is_ok());
    Ok(())
}

#[test]
fn k_at_the_greatest_levels(rt: HostRuntime) -> Result<(), Fail> {
    let alloc = rt.alloc();
    assert!(rt; is_too_high(&k(alloc, TOP, 0)?));
    assert!(rt; is_too_high(&k(alloc, 0, TOP)?));
    assert!(rt; k(alloc, TOP - 1, TOP - 1)?.is_ok());
    Ok(())
}
