ghost use Rattle.std.specs.Prelude.{◌≡◌, ◌↔◌, ◌<◌, ◌+◌, ◌^◌, ℕ, length, All, IsNone};
ghost use Rattle.std.specs.List.{list_any};
ghost use Rattle.core_terms.specs.Meanings.{tree_of, tele_of};
ghost use Rattle.theory.specs.Families as pure;
ghost use Rattle.core_sig.specs.Kinds.{HasKind, HasKinds, HaveKinds};
ghost use Rattle.core_sig.specs.Meanings.{argument_of, constructor_of, family_of};
ghost use Rattle.core_sig.specs.Offenders.{first_offender, offender_in, offends};

use crate::{Arg, ArgKind, Constructor, Family};
use core_terms::Term;

/// The first violation of strict positivity in the family with number `fam`: a constructor, numbered from 0, and its argument,
/// numbered from 1, where 0 stands for the targets (Dybjer, "Inductive families", 1994). Takes no memory.
pub fn strictly_positive(fam: u32, f: &Family) -> Option<(u32, u32)>
    requires kinds { HasKinds fam f.now }
    requires cons { length f.now.cons < 2 ^ 32 }
    requires args { All (λ c. length c.args + 1 < 2 ^ 32) f.now.cons }
    ensures first { result ≡ first_offender fam (family_of f.now) }
    ensures positive { IsNone result ↔ pure.IsPositive fam (family_of f.now) }
{
    first_among(fam, f)
}

fn first_among(fam: u32, f: &Family) -> Option<(u32, u32)>
    requires kinds { HasKinds fam f.now }
    requires cons { length f.now.cons < 2 ^ 32 }
    requires args { All (λ c. length c.args + 1 < 2 ^ 32) f.now.cons }
    ensures { result ≡ first_offender fam (family_of f.now) }
{
    for (number, con) in f.cons.as_slice().iter().enumerate() {
        if let Some(argument) = offender(fam, con) {
            return Some((number as u32, argument));
        }
    }
    None
}

/// The first argument of the constructor that offends, numbered from 1, or 0 where only its targets do.
fn offender(fam: u32, con: &Constructor) -> Option<u32>
    requires { length con.now.args + 1 < 2 ^ 32 }
    ensures { (f : pure.Family) → HaveKinds fam f 0 con.now.args → let c = constructor_of (length f.parameters) con.now in result ≡ offender_in fam c.arguments 1 c }
{
    for (at, arg) in con.args.as_slice().iter().enumerate() {
        if offends(fam, arg) {
            return Some(at as u32 + 1);
        }
    }
    if any_mentions(con.targets.as_slice(), fam) {
        return Some(0);
    }
    None
}

/// Whether the family occurs in the type, and not only at the end of a recursive argument's type.
fn offends(fam: u32, arg: &Arg) -> bool
    ensures { (f : pure.Family) (at : ℕ) → HasKind fam f at arg.now.kind (tree_of arg.now.ty) → result ≡ offends fam (argument_of (length f.parameters) arg.now) }
{
    match arg.kind {
        ArgKind::Plain => mentions(&arg.ty, fam),
        ArgKind::Recursive(_) => false,
    }
}

fn any_mentions(terms: &[Term], fam: u32) -> bool
    ensures { result ≡ list_any (pure.mentions fam) (tele_of terms.now) }
{
    for t in terms {
        if mentions(t, fam) {
            return true;
        }
    }
    false
}

/// Whether a symbol of the family occurs in the term. Takes no memory.
pub fn mentions(t: &Term, fam: u32) -> bool
    ensures { result ≡ pure.mentions fam (tree_of t.now) }
{
    match t {
        Term::Pi(a, b) | Term::Lam(a, b) | Term::App(a, b) => mentions(a, fam) || mentions(b, fam),
        Term::Let(a, t, b) => mentions(a, fam) || mentions(t, fam) || mentions(b, fam),
        Term::Fam(f) | Term::Con(f, _) | Term::Elim(f, _) => *f == fam,
        _ => false,
    }
}
