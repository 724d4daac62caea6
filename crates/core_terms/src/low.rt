ghost use Rattle.std.specs.Prelude.{◌≡◌, ◌≤◌, ◌+◌, max, IfOk, Ok};
ghost use Rattle.theory.specs.Terms as tree;
ghost use Rattle.core_terms.specs.Answers.{Gives, bounded};
ghost use Rattle.core_terms.specs.Meanings.{tree_of};

use crate::{MAX_HEIGHT, Stop, Term};
use std::alloc::{AllocError, Global};

/// A term that is at most 2,000 high, with its height.
#[derive(Drop)]
pub struct Low {
    pub term: Term,
    pub height: u32,
    ghost exact: { height ≡ tree.height (tree_of term) },
    ghost bounded: { height ≤ 2000 },
}

impl Low {
    /// A term without parts.
    pub fn leaf(term: Term) -> Low
        requires { tree.height (tree_of term) ≡ 1 }
        ensures { result.term ≡ term }
    {
        Low { term, height: 1 }
    }

    /// The product with its height, which is not tested.
    pub fn pi(alloc: Global, domain: Low, codomain: Low) -> Result<(Term, u32), AllocError>
        ensures tree { IfOk result (λ p. tree_of p.0 ≡ tree.Pi (tree_of domain.term) (tree_of codomain.term)) }
        ensures height { IfOk result (λ p. p.1 ≡ tree.height (tree_of p.0)) }
    {
        let height = above(&domain, &codomain);
        let term = Term::Pi(
            Box::new(alloc, domain.term)?,
            Box::new(alloc, codomain.term)?,
        );
        Ok((term, height))
    }

    /// The function with its height, which is not tested.
    pub fn lam(alloc: Global, domain: Low, body: Low) -> Result<(Term, u32), AllocError>
        ensures tree { IfOk result (λ p. tree_of p.0 ≡ tree.Lam (tree_of domain.term) (tree_of body.term)) }
        ensures height { IfOk result (λ p. p.1 ≡ tree.height (tree_of p.0)) }
    {
        let height = above(&domain, &body);
        let term = Term::Lam(Box::new(alloc, domain.term)?, Box::new(alloc, body.term)?);
        Ok((term, height))
    }

    /// The application with its height, which is not tested.
    pub fn app(alloc: Global, function: Low, argument: Low) -> Result<(Term, u32), AllocError>
        ensures tree { IfOk result (λ p. tree_of p.0 ≡ tree.App (tree_of function.term) (tree_of argument.term)) }
        ensures height { IfOk result (λ p. p.1 ≡ tree.height (tree_of p.0)) }
    {
        let height = above(&function, &argument);
        let term = Term::App(
            Box::new(alloc, function.term)?,
            Box::new(alloc, argument.term)?,
        );
        Ok((term, height))
    }

    /// The `let` with its height, which is not tested.
    pub fn local(alloc: Global, ty: Low, value: Low, body: Low) -> Result<(Term, u32), AllocError>
        ensures tree { IfOk result (λ p. tree_of p.0 ≡ tree.Let (tree_of ty.term) (tree_of value.term) (tree_of body.term)) }
        ensures height { IfOk result (λ p. p.1 ≡ tree.height (tree_of p.0)) }
    {
        let height = 1 + ty.height.max(value.height.max(body.height));
        let term = Term::Let(
            Box::new(alloc, ty.term)?,
            Box::new(alloc, value.term)?,
            Box::new(alloc, body.term)?,
        );
        Ok((term, height))
    }
}

fn above(first: &Low, second: &Low) -> u32
    ensures { result ≡ 1 + max first.now.height second.now.height }
{
    1 + first.height.max(second.height)
}
