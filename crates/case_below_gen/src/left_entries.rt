ghost use Rattle.std.specs.Prelude.{◌≡◌, ◌≤◌, ◌<◌, ◌+◌, ◌++◌, length, codes, IfOk, OnErr};
ghost use Rattle.core_terms.specs.Answers.{Gives};
ghost use Rattle.core_terms.specs.Levels as levels;
ghost use Rattle.core_terms.specs.Meanings.{tree_of};
ghost use Rattle.core_terms.specs.declared.stop.Stop.TheVariants.{Memory};
ghost use Rattle.theory.specs.Prelude.{prelude};
ghost use Rattle.theory.specs.PreludeFamilies.{level_text};
ghost use Rattle.theory.specs.Signatures as signature;
ghost use Rattle.theory.specs.Signatures.{IsPrefix, Signature};
ghost use Rattle.theory.specs.Terms as tree;
ghost use Rattle.theory.specs.Terms.{top};
ghost use Rattle.case_below_gen.specs.LeftEntries as spec;
ghost use Rattle.core_sig.specs.Drafts.{draft_of};
ghost use Rattle.core_sig.specs.ScopedDrafts.{IsScopedDraft};

use crate::binding::bound_of;
use crate::courses::drafted_of;
use core_sig::{Draft, Signature, equality, generated_name};
use core_terms::{Binder, Items, Name, Stop, Term};
use std::alloc::Global;

/// The entry `Eq.i!left.m`: elimination of an equation by its left side, into `Type m`. It mentions no generated name. The heights
/// of its type and its term are the same for all levels, and far below the bound, so it never answers Deep.
pub fn left_entry(alloc: Global, sig: &Signature, i: u8, m: u8) -> Result<Draft, Stop>
    requires level { i < top }
    requires motive { m + 1 < top }
    ensures answer { Gives draft_of result (spec.left_entry (length sig.now.entries) i m) }
    ensures scoped { (T : Signature) → IsPrefix (prelude sig.now.has_k) sig.now → IsPrefix sig.now T → IfOk result (λ d. IsScopedDraft T (draft_of d)) }
{
    left_draft(alloc, sig.len(), i, m)
}

fn left_draft(alloc: Global, base: u32, i: u8, m: u8) -> Result<Draft, Stop>
    requires level { i < top }
    requires motive { m + 1 < top }
    ensures { Gives draft_of result (spec.left_entry base i m) }
{
    let family = equality_name(alloc, i)?;
    let name = generated_name(alloc, &family, b"!left.", m)?;
    let ty = left_type(alloc, i, m);
    let body = left_term(alloc, i, m);
    drafted_of(name, base, Items::new(alloc), ty, body)
}

fn equality_name(alloc: Global, i: u8) -> Result<Name, Stop>
    requires { i < 100 }
    ensures ok { IfOk result (λ name. name ≡ codes "Eq." ++ level_text i) }
    ensures memory { OnErr result (result ≡ Err Memory) }
{
    generated_name(alloc, &Name::from_vec(b"Eq.".to_vec(alloc)?), b"", i)
}

/// `Eq.i A a b`.
fn equation(alloc: Global, i: u8, ty: Term, left: Term, right: Term) -> Result<Term, Stop>
    ensures { Gives tree_of result (Ok (signature.equation i (tree_of ty) (tree_of left) (tree_of right))) }
{
    let head = Term::application_of(alloc, Ok(Term::Fam(equality(i))), Ok(ty));
    let head = Term::application_of(alloc, head, Ok(left));
    Term::application_of(alloc, head, Ok(right))
}

/// `(b : A) -> Eq.i A b a -> Type m`, for the variables A and a.
fn left_motive(alloc: Global, i: u8, m: u8, ty: u32, end: u32) -> Result<Term, Stop>
    requires { ty + end ≤ 1000 }
    ensures { Gives tree_of result (Ok (spec.left_motive i m ty end)) }
{
    let equation = equation(
        alloc,
        i,
        Term::Var(ty + 1),
        Term::Var(0),
        Term::Var(end + 1),
    );
    let inside = Term::product_of(alloc, equation, Ok(Term::Sort(m)));
    Term::product_of(alloc, Ok(Term::Var(ty)), inside)
}

/// `P a (refl.i A a)`, for the variables P, A and a.
fn at_reflexivity(alloc: Global, i: u8, motive: u32, ty: u32, end: u32) -> Result<Term, Stop>
    ensures { Gives tree_of result (Ok (spec.at_reflexivity i motive ty end)) }
{
    let head = Term::application_of(alloc, Ok(Term::Var(motive)), Ok(Term::Var(end)));
    let constructor = Ok(Term::Con(equality(i), 0));
    let reflexivity = Term::application_of(alloc, constructor, Ok(Term::Var(ty)));
    let reflexivity = Term::application_of(alloc, reflexivity, Ok(Term::Var(end)));
    Term::application_of(alloc, head, reflexivity)
}

/// Binds the method, the left side and the equation around `end`.
fn method_over(alloc: Global, binder: Binder, i: u8, end: Term) -> Result<Term, Stop>
    ensures { Gives tree_of result (Ok (levels.bind binder (spec.at_reflexivity i 0 2 1) (levels.bind binder (tree.Var 3) (levels.bind binder (signature.equation i (tree.Var 4) (tree.Var 0) (tree.Var 3)) (tree_of end))))) }
{
    let equation = equation(alloc, i, Term::Var(4), Term::Var(0), Term::Var(3));
    let end = bound_of(alloc, binder, equation, Ok(end));
    let end = bound_of(alloc, binder, Ok(Term::Var(3)), end);
    bound_of(alloc, binder, at_reflexivity(alloc, i, 0, 2, 1), end)
}

/// Binds the type, the right side, the motive, the method, the left side and the equation around `end`.
fn left_over(alloc: Global, binder: Binder, i: u8, m: u8, end: Term) -> Result<Term, Stop>
    ensures { Gives tree_of result (Ok (spec.left_over binder i m (tree_of end))) }
{
    let end = method_over(alloc, binder, i, end);
    let end = bound_of(alloc, binder, left_motive(alloc, i, m, 1, 0), end);
    let end = bound_of(alloc, binder, Ok(Term::Var(0)), end);
    bound_of(alloc, binder, Ok(Term::Sort(i)), end)
}

fn left_type(alloc: Global, i: u8, m: u8) -> Result<Term, Stop>
    ensures { Gives tree_of result (Ok (spec.left_type i m)) }
{
    let end = Term::new_app(alloc, Term::Var(3), Term::Var(1))?;
    let end = Term::new_app(alloc, end, Term::Var(0))?;
    left_over(alloc, Binder::Product, i, m, end)
}

/// The motive of the elimination at the right side: a function of it and of the equation.
fn turned_motive(alloc: Global, i: u8, m: u8) -> Result<Term, Stop>
    ensures { Gives tree_of result (Ok (spec.turned_motive i m)) }
{
    let goal = Term::application_of(alloc, Ok(Term::Var(1)), Ok(Term::Var(5)));
    let goal = Term::application_of(alloc, goal, Ok(Term::Var(2)));
    let goal = Term::product_of(alloc, at_reflexivity(alloc, i, 0, 8, 2), goal);
    let goal = Term::product_of(alloc, left_motive(alloc, i, m, 7, 1), goal);
    let equation = equation(alloc, i, Term::Var(6), Term::Var(2), Term::Var(0));
    let inside = Term::function_of(alloc, equation, goal);
    Term::function_of(alloc, Ok(Term::Var(5)), inside)
}

fn turned_method(alloc: Global, i: u8, m: u8) -> Result<Term, Stop>
    ensures { Gives tree_of result (Ok (spec.turned_method i m)) }
{
    let reflexivity = at_reflexivity(alloc, i, 0, 6, 2);
    let inside = Term::function_of(alloc, reflexivity, Ok(Term::Var(0)));
    Term::function_of(alloc, left_motive(alloc, i, m, 5, 1), inside)
}

fn left_term(alloc: Global, i: u8, m: u8) -> Result<Term, Stop>
    requires { m + 1 < top }
    ensures { Gives tree_of result (Ok (spec.left_term i m)) }
{
    let head = Ok(Term::Elim(equality(i), i.max(m + 1)));
    let head = Term::application_of(alloc, head, Ok(Term::Var(5)));
    let head = Term::application_of(alloc, head, Ok(Term::Var(1)));
    let head = Term::application_of(alloc, head, turned_motive(alloc, i, m));
    let head = Term::application_of(alloc, head, turned_method(alloc, i, m));
    let end = Term::application_of(alloc, head, Ok(Term::Var(4)));
    let end = Term::application_of(alloc, end, Ok(Term::Var(0)));
    let end = Term::application_of(alloc, end, Ok(Term::Var(3)));
    let end = Term::application_of(alloc, end, Ok(Term::Var(2)));
    left_over(alloc, Binder::Function, i, m, end?)
}
