ghost use Rattle.std.specs.Prelude.{◌≡◌, ◌<◌, ◌+◌, ◌^◌, length, IfSome};
ghost use Rattle.core_terms.specs.Meanings.{tree_of};
ghost use Rattle.theory.specs.Terms as tree;
ghost use Rattle.theory.specs.Families as pure;
ghost use Rattle.core_sig.specs.Kinds.{HasKind};
ghost use Rattle.core_sig.specs.KindTests.{inner_count, is_at_parameters, is_at_targets, is_variable};

use crate::positivity::mentions;
use crate::{ArgKind, Family};
use core_terms::Term;

/// The kind of an argument with the type `ty`, after `at` other arguments, of a constructor of family `fam`. Of the
/// family's record it reads only the numbers of parameters and indices. Takes no memory.
pub fn kind_of(fam: u32, f: &Family, at: u32, ty: &Term) -> ArgKind
    requires { at + length f.now.params + tree.height (tree_of ty.now) < 2 ^ 32 }
    ensures { (g : pure.Family) → length g.parameters ≡ length f.now.params → length g.indices ≡ length f.now.indices → HasKind fam g at result (tree_of ty.now) }
{
    let shape = Shape {
        fam,
        params: f.params.as_slice().len() as u32,
        indices: f.indices.as_slice().len(),
    };
    match inner_count(shape, at, ty) {
        Some(count) => ArgKind::Recursive(count),
        None => ArgKind::Plain,
    }
}

/// A family by its number, with the numbers of its parameters and of its indices.
#[derive(Clone, Copy)]
struct Shape {
    fam: u32,
    params: u32,
    indices: usize,
}

/// The number of inner arguments, where the type has the form of a recursive argument after `at` binders.
fn inner_count(shape: Shape, at: u32, ty: &Term) -> Option<u32>
    requires { at + shape.params + tree.height (tree_of ty.now) < 2 ^ 32 }
    ensures count { result ≡ inner_count shape.fam shape.params shape.indices at (tree_of ty.now) }
    ensures low { IfSome result (λ n. n < tree.height (tree_of ty.now)) }
{
    match ty {
        Term::Pi(domain, codomain) => {
            if mentions(domain, shape.fam) {
                return None;
            }
            Some(inner_count(shape, at + 1, codomain)? + 1)
        }
        end => is_at_targets(shape, shape.indices, at, end).then_some(0),
    }
}

/// Whether the term is the family at its parameters, after `at` binders, and at `count` targets that lack the family.
fn is_at_targets(shape: Shape, count: usize, at: u32, t: &Term) -> bool
    requires { at + shape.params < 2 ^ 32 }
    ensures { result ≡ is_at_targets shape.fam shape.params count at (tree_of t.now) }
{
    if count == 0 {
        return is_at_parameters(shape.fam, shape.params, at, t);
    }
    match t {
        Term::App(function, target) => {
            is_at_targets(shape, count - 1, at, function) && !mentions(target, shape.fam)
        }
        _ => false,
    }
}

/// Whether the term is the family at `count` variables, the last of which is variable `at`.
fn is_at_parameters(fam: u32, count: u32, at: u32, t: &Term) -> bool
    requires { at + count < 2 ^ 32 }
    ensures { result ≡ is_at_parameters fam count at (tree_of t.now) }
{
    match t {
        Term::Fam(f) => count == 0 && *f == fam,
        Term::App(function, argument) => {
            count > 0
                && is_variable(argument, at)
                && is_at_parameters(fam, count - 1, at + 1, function)
        }
        _ => false,
    }
}

fn is_variable(t: &Term, number: u32) -> bool
    ensures { result ≡ is_variable number (tree_of t.now) }
{
    match t {
        Term::Var(n) => *n == number,
        _ => false,
    }
}
