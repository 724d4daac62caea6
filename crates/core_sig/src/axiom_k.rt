ghost use Rattle.std.specs.Prelude.{◌≡◌, Ok};
ghost use Rattle.theory.specs.Terms as tree;
ghost use Rattle.theory.specs.Signatures as spec;
ghost use Rattle.core_terms.specs.Answers.{Gives};
ghost use Rattle.core_terms.specs.Meanings.{tree_of};

use crate::equality;
use core_terms::{Stop, Term};
use std::alloc::Global;

/// The type of equations of `x` with itself, where `ty` is the type of `x`.
fn reflexive_equation(alloc: Global, i: u8, ty: u32, x: u32) -> Result<Term, Stop>
    ensures { Gives tree_of result (Ok (spec.equation i (tree.Var ty) (tree.Var x) (tree.Var x))) }
{
    let family = Term::new_app(alloc, Term::Fam(equality(i)), Term::Var(ty))?;
    let from = Term::new_app(alloc, family, Term::Var(x))?;
    Term::new_app(alloc, from, Term::Var(x))
}

/// The reflexivity of `x`, where `ty` is the type of `x`.
fn reflexivity(alloc: Global, i: u8, ty: u32, x: u32) -> Result<Term, Stop>
    ensures { Gives tree_of result (Ok (spec.reflexivity i (tree.Var ty) (tree.Var x))) }
{
    let constructor = Term::new_app(alloc, Term::Con(equality(i), 0), Term::Var(ty))?;
    Term::new_app(alloc, constructor, Term::Var(x))
}

/// The part after the motive: that it holds of each equation of the term with itself, where it holds of the reflexivity.
fn after_motive(alloc: Global, i: u8) -> Result<Term, Stop>
    ensures { Gives tree_of result (Ok (tree.Pi (tree.App (tree.Var 0) (spec.reflexivity i (tree.Var 2) (tree.Var 1))) (tree.Pi (spec.equation i (tree.Var 3) (tree.Var 2) (tree.Var 2)) (tree.App (tree.Var 2) (tree.Var 0))))) }
{
    let conclusion = Term::application_of(alloc, Ok(Term::Var(2)), Ok(Term::Var(0)));
    let equation = reflexive_equation(alloc, i, 3, 2);
    let eliminated = Term::product_of(alloc, equation, conclusion);
    let base = Term::application_of(alloc, Ok(Term::Var(0)), reflexivity(alloc, i, 2, 1));
    Term::product_of(alloc, base, eliminated)
}

/// The type of the axiom K of `Eq.i` at level `m` (Streicher, "Investigations into intensional type theory", 1993).
pub fn axiom_k_type(alloc: Global, i: u8, m: u8) -> Result<Term, Stop>
    ensures { Gives tree_of result (Ok (spec.axiom_k_type i m)) }
{
    let equation = reflexive_equation(alloc, i, 1, 0);
    let motive = Term::product_of(alloc, equation, Ok(Term::Sort(m)));
    let over_motive = Term::product_of(alloc, motive, after_motive(alloc, i));
    let over_term = Term::product_of(alloc, Ok(Term::Var(0)), over_motive);
    Term::product_of(alloc, Ok(Term::Sort(i)), over_term)
}
