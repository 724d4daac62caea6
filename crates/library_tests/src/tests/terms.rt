// Terms at the limit of height, and the texts of errors.
ghost use Rattle.std.specs.Prelude.{◌≡◌, ◌+◌, ◌-◌, max};
ghost use Rattle.core_terms.specs.Meanings.{tree_of};
ghost use Rattle.theory.specs.Terms as tree;

use core_terms::{MAX_HEIGHT, Stop, Term, copy, lift, subst};
use std::alloc::Global;
use std::process::Abort;
use std::test::Fail;

/// One more than the greatest free variable, or 0.
fn free_of(t: &Term) -> u64
    ensures { result ≡ tree.free_of (tree_of t.now) }
{
    match t {
        Term::Var(n) => *n as u64 + 1,
        Term::Pi(a, b) | Term::Lam(a, b) => free_of(a).max(free_of(b).saturating_sub(1)),
        Term::App(f, a) => free_of(f).max(free_of(a)),
        Term::Let(a, v, b) => free_of(a).max(free_of(v).max(free_of(b).saturating_sub(1))),
        _ => 0,
    }
}

/// A `let` in the body of a `let`, and so on, with variable `n` at the bottom.
fn tower(alloc: Global, height: u32, n: u32) -> Result<Term, Stop> {
    let mut t = Term::Var(n);
    for _ in 1..height {
        t = Term::new_let(alloc, Term::Sort(0), Term::Sort(0), t)?;
    }
    Ok(t)
}

/// Every call works on a term of the greatest height.
fn assert_works(rt: &impl Abort, alloc: Global, highest: &Term) -> Result<(), Stop> {
    assert!(rt; free_of(highest) < 10);
    assert_eq!(rt; highest.height(), 2000);
    assert!(rt; copy(alloc, highest)?.same(highest));
    assert!(rt; lift(alloc, highest, 1, 0)?.same(&tower(alloc, MAX_HEIGHT, 2000)?));
    assert!(rt; subst(alloc, highest, 0, &Term::Var(3))?.same(&tower(alloc, MAX_HEIGHT, 2002)?));
    Ok(())
}

/// Every call on a term that is one higher answers Deep, but where the answer is no such term.
fn assert_stops(rt: &impl Abort, alloc: Global, too_high: &Term) -> Result<(), Stop> {
    assert!(rt; free_of(too_high) < 10);
    assert_eq!(rt; too_high.height(), 2001);
    assert!(rt; matches!(copy(alloc, too_high), Err(Stop::Deep)));
    assert!(rt; matches!(lift(alloc, too_high, 1, 0), Err(Stop::Deep)));
    assert!(rt; matches!(subst(alloc, too_high, 0, &Term::Var(3)), Err(Stop::Deep)));
    assert!(rt; matches!(subst(alloc, &Term::Var(0), 0, too_high), Err(Stop::Deep)));
    assert!(rt; matches!(subst(alloc, &Term::Var(1), 0, too_high), Ok(Term::Var(0))));
    Ok(())
}

#[test]
fn greatest_height(rt: HostRuntime) -> Result<(), Fail> {
    let alloc = rt.alloc();
    assert_works(&rt, alloc, &tower(alloc, MAX_HEIGHT, 1999)?)?;
    assert_stops(&rt, alloc, &tower(alloc, MAX_HEIGHT + 1, 2000)?)?;
    Ok(())
}

#[test]
fn texts_of_errors(rt: HostRuntime) -> Result<(), Fail> {
    let alloc = rt.alloc();
    for (stop, message) in [
        (Stop::Memory, "Memory"),
        (Stop::Fuel, "Fuel"),
        (Stop::Deep, "Deep"),
        (Stop::PoolFull, "PoolFull"),
    ] {
        assert_eq!(rt; format!(in alloc; "{stop}")?.as_str(), message);
    }
    Ok(())
}
