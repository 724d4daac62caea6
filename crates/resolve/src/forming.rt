ghost use Rattle.std.specs.Prelude.{◌≡◌};
ghost use Rattle.theory.specs.Terms as tree;
ghost use Rattle.core_terms.specs.Low.{low_of};
ghost use Rattle.core_terms.specs.Meanings.{tree_of};
ghost use Rattle.resolve.specs.Answers.{Gives};
ghost use Rattle.resolve.specs.Forms.{former};
ghost use Rattle.resolve.specs.Resolving as spec;

use crate::ResolveStop;
use core_terms::{Low, MAX_HEIGHT, Term};
use std::alloc::Global;

/// Which of the two forms that bind a variable without giving it a value.
#[derive(Clone, Copy, Debug, PartialEq, Eq)]
pub(crate) enum Form {
    Pi,
    Lam,
}

/// A term that was made with its height, unless it is too high.
fn low(made: (Term, u32)) -> Result<Low, ResolveStop>
    requires { made.1 ≡ tree.height (tree_of made.0) }
    ensures { Gives low_of result (spec.low (tree_of made.0)) }
{
    let (term, height) = made;
    if height > MAX_HEIGHT {
        return Err(ResolveStop::Deep);
    }
    Ok(Low { term, height })
}

/// The product or the function of a type and what is under it.
pub(crate) fn binding(alloc: Global, form: Form, ty: Low, body: Low) -> Result<Low, ResolveStop>
    ensures { Gives low_of result (spec.low (former form (low_of ty) (low_of body))) }
{
    match form {
        Form::Pi => low(Low::pi(alloc, ty, body)?),
        Form::Lam => low(Low::lam(alloc, ty, body)?),
    }
}

pub(crate) fn application(alloc: Global, function: Low, argument: Low) -> Result<Low, ResolveStop>
    ensures { Gives low_of result (spec.low (tree.App (low_of function) (low_of argument))) }
{
    low(Low::app(alloc, function, argument)?)
}

pub(crate) fn local(alloc: Global, ty: Low, value: Low, body: Low) -> Result<Low, ResolveStop>
    ensures { Gives low_of result (spec.low (tree.Let (low_of ty) (low_of value) (low_of body))) }
{
    low(Low::local(alloc, ty, value, body)?)
}
